//! What is known of the runs of a checked client's machine, label by label. These functions do nothing when they run.

ghost use Rattle.tso_machine.specs.Laws.{AreFramesRanked, BuffersStayWithin, CallsStartOnPaths, CutsAreBounds, EndsAreDecided, FramesStayOnPaths, FramesStaySound, InstructionsFollowEdges, InstructionsFollowPaths, LabelsAreFew, RunsAreShort, RunsEnd, SectionsAreGuarded, SizesStay, StopsAreFaults, StopsAreFinal};

use tso_flow::Checked;

/// From a frame that can occur in a call, each instruction goes on, whatever word is read, to frames that can occur and from
/// which fewer instructions are left; and it stores inside the memory.
pub fn frames_are_ranked(checked: &Checked)
    ensures { AreFramesRanked checked.now.client }
{}

/// A run has at most as many labels as `Checked::step_limit` says.
pub fn runs_are_short(checked: &Checked)
    ensures { RunsAreShort checked.now.client }
{}

/// Every run goes on to an ended one.
pub fn runs_end(checked: &Checked)
    ensures { RunsEnd checked.now.client }
{}

/// At most two labels follow a machine for each thread, one of its core and one of its buffer.
pub fn labels_are_few(checked: &Checked)
    ensures { LabelsAreFew checked.now.client }
{}

/// Some label follows a machine, or none does.
pub fn ends_are_decided(checked: &Checked)
    ensures { EndsAreDecided checked.now.client }
{}

/// Memory has the words of all arrays, and there is one thread for each list of calls, however a run goes on.
pub fn sizes_stay(checked: &Checked)
    ensures { SizesStay checked.now.client }
{}

/// Each place in a buffer is that of a word of an array.
pub fn buffers_stay_within(checked: &Checked)
    ensures { BuffersStayWithin checked.now.client }
{}

/// Control follows the paths that the flow check knows: a call starts on one, each instruction goes on along an edge, whatever
/// word it reads, and so from a position on a path to one on a path, where an instruction stands. No run is cut because it
/// runs behind the end of a procedure.
pub fn steps_follow_paths(checked: &Checked)
    ensures starts { CallsStartOnPaths checked.now.client }
    ensures edges { InstructionsFollowEdges checked.now.client }
    ensures paths { InstructionsFollowPaths checked.now.client }
{}

/// A call in a frame that can occur is cut nowhere but at a jump back that was taken as often as its bound allows.
pub fn cuts_are_bounds(checked: &Checked)
    ensures { CutsAreBounds checked.now.client }
{}

/// Each running call stands at an instruction of its own procedure, to which a path leads, and has taken no back jump more
/// often than its bound says.
pub fn frames_stay_sound(checked: &Checked)
    ensures sound { FramesStaySound checked.now.client }
    ensures paths { FramesStayOnPaths checked.now.client }
{}

/// The lock's holder is in its locked instruction, with at most that instruction's own entry in its buffer, and no other
/// thread is in one.
pub fn sections_are_guarded(checked: &Checked)
    ensures { SectionsAreGuarded checked.now.client }
{}

/// A stopped thread stays stopped.
pub fn stops_are_final(checked: &Checked)
    ensures { StopsAreFinal checked.now.client }
{}

/// A thread is stopped after a run exactly where the run has a fault of it.
pub fn stops_are_faults(checked: &Checked)
    ensures { StopsAreFaults checked.now.client }
{}
