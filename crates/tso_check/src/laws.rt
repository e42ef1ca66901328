//! What verdicts are good for. These functions do nothing when they run.

ghost use Rattle.tso_check.specs.Laws.{AcceptedRunsAreGood, AnswersAreUnique, VerdictsAreUnique};

use tso_flow::Checked;

/// Where bytes are a valid certificate for a client, each run of the client is good.
pub fn accepted_runs_are_good(checked: &Checked)
    ensures { AcceptedRunsAreGood checked.now.client }
{}

/// Bytes have one verdict for a client.
pub fn verdicts_are_unique(checked: &Checked)
    ensures { VerdictsAreUnique checked.now.client }
{}

/// A program text and bytes have one answer, want of memory aside.
pub fn answers_are_unique(program: &[u8], cert: &[u8])
    ensures { AnswersAreUnique program.now cert.now }
{}
