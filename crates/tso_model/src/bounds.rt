//! Runs are short and have ends, where a rank on frames falls at each instruction.

ghost use Rattle.tso_model.specs.Bounds.{EndsAreDecided, LabelsAreFew, RunsAreBounded, RunsAreShort, RunsEnd};

/// A run from the start has at most, summed over its calls, five labels for each rank and one for the call.
pub fn runs_are_short<F>()
    ensures { RunsAreShort F }
{}

/// A run from any machine has at most the labels that are left there.
pub fn runs_are_bounded<F>()
    ensures { RunsAreBounded F }
{}

/// Every run goes on to an ended one.
pub fn runs_end<F>()
    ensures { RunsEnd F }
{}

/// At most two labels follow a machine for each thread, one of its core and one of its buffer.
pub fn labels_are_few<F>()
    ensures { LabelsAreFew F }
{}

/// Some label follows a machine, or none does.
pub fn ends_are_decided<F>()
    ensures { EndsAreDecided F }
{}
