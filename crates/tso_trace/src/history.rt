//! The history of a run: its calls and returns.

ghost use Rattle.std.specs.Prelude.{◌≡◌, map, IfOk, OnOk, OnErr};
ghost use Rattle.tso_hist.specs.Views.{history_view};
ghost use Rattle.tso_machine.specs.Machines.{label_of};
ghost use Rattle.tso_machine.specs.Programs.{program_of};
ghost use Rattle.tso_model.specs.States.{first_history};
ghost use Rattle.tso_model.specs.Views.{after_label, after_labels};

use std::alloc::{AllocError, Global};
use tso_hist::History;
use tso_machine::{Label, LabelKind, thread_count};
use tso_prog::Client;

// The history after one more label: only calls and returns are in it.
fn note(alloc: Global, history: &mut History, label: Label) -> Result<(), AllocError>
    ensures ok { OnOk result (history_view history.new ≡ after_label (history_view history.old) (label_of label)) }
    ensures err { OnErr result (history.new ≡ history.old) }
{
    match label.kind {
        LabelKind::Call(kind) => history.on_call(label.thread, kind),
        LabelKind::Return(answer) => {
            history.on_return(label.thread, answer);
            Ok(())
        }
        _ => Ok(()),
    }
}

/// The calls and returns of a run of the client.
pub fn history_of(alloc: Global, client: &Client, labels: &[Label]) -> Result<History, AllocError>
    ensures { IfOk result (λ h. history_view h ≡ after_labels (first_history (program_of client.now)) (map label_of labels.now)) }
{
    let mut history = History::new(alloc, thread_count(client))?;
    for label in labels {
        note(alloc, &mut history, *label)?;
    }
    Ok(history)
}
