//! That what instructions hand on lies in the intervals after them. These functions do nothing when they run.

ghost use Rattle.tso_cells.specs.IntervalLaws.{FirstRegistersLie, RegistersStayWithin};

/// Where the words of a running call's registers lie in intervals, those after its next instruction lie in the intervals that
/// `moved` makes of them, whatever word it reads.
pub fn registers_stay_within()
    ensures { RegistersStayWithin }
{}

/// A call begins with registers that lie in all intervals that have 0, and for a push in that of RDI the argument.
pub fn first_registers_lie()
    ensures { FirstRegistersLie }
{}
