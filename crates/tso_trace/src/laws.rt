//! What the text of traces, their refusals and the steps of a cursor mean. These functions do nothing when they run.

ghost use Rattle.tso_trace.specs.Judged.{ListsAreJudgedOnce, TextsAreJudgedOnce};
ghost use Rattle.tso_trace.specs.Laws.{AreTextsUnique, BackIsInverse, CellsAreNamed, LinesAreUnique, PlacesShowOneState, QueueIsTheClients, ReadsBack, RunsAreTold};

use tso_prog::Client;

/// Each word of each array is shown by the array's name and the word's index.
pub fn cells_are_named(client: &Client)
    ensures { CellsAreNamed client.now }
{}

/// A line spells one label at most.
pub fn lines_are_unique(client: &Client)
    ensures { LinesAreUnique client.now }
{}

/// A text spells one list of labels, or it has one earliest line that is not of the grammar, and not both.
pub fn texts_are_unique(client: &Client)
    ensures { AreTextsUnique client.now }
{}

/// What `Trace::print` writes `Trace::read` reads as the same labels, or memory is wanting.
pub fn printed_traces_are_read(client: &Client)
    ensures { ReadsBack client.now }
{}

/// After so many labels of a trace a cursor always shows the same state.
pub fn places_show_one_state()
    ensures { PlacesShowOneState }
{}

/// A step of a cursor forwards and then one back show the state before.
pub fn back_is_inverse()
    ensures { BackIsInverse }
{}

/// A list of labels is an error trace, or is refused as no step, with one number, or is refused as good, and no two of these.
pub fn lists_are_judged_once(client: &Client)
    ensures { ListsAreJudgedOnce client.now }
{}

/// A text spells an error trace, or is refused at its earliest bad line, or else its labels are refused as no step, with one
/// number, or as good, and no two of these.
pub fn texts_are_judged_once(client: &Client)
    ensures { TextsAreJudgedOnce client.now }
{}

/// Runs are held against the bounded queue of the client's own mode and capacity.
pub fn queue_is_the_clients(client: &Client)
    ensures { QueueIsTheClients client.now }
{}

/// In each run of the client's machine the threads call and return in turn, and the history that `History::on_call` and
/// `History::on_return` make of the run says what the run says: `History::precedes` too, of which call is before which.
pub fn runs_are_told(client: &Client)
    ensures { RunsAreTold client.now }
{}
