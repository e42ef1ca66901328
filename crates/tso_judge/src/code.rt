//! What a certificate may be refused for.

ghost use Rattle.std.specs.Prelude.{◌≡◌, Some};
ghost use Rattle.tso_judge.specs.Codes.{code_number, code_text};

use std::fmt;

/// The conditions of a certificate that fail. K05 to K08 and K10 to K12 are those of one record.
#[derive(Clone, Copy, Debug, PartialEq, Eq, PartialOrd, Ord, Hash)]
pub enum Code {
    /// The bytes stop being the beginning of a certificate, or end too soon, or go on after its end.
    K01,
    /// The bytes pass a limit first.
    K02,
    /// States do not rise strictly, or a fork's state is not above all of its left half and at most all of its right half.
    K03,
    /// The table is not closed for the client; one of intervals is not inductive.
    K04,
    /// The state is not well-formed.
    K05,
    /// Some actor has a step, and the record has no rising list of actors that each have one; or none has, and the record has
    /// no order.
    K06,
    /// A chosen actor lacks a reason for another thread, or has too many, or one does not hold.
    K07,
    /// No record has the state after a chosen actor's step.
    K08,
    /// No record has the initial state.
    K09,
    /// No actor has a step, and a fault has stopped a thread.
    K10,
    /// The order does not explain the calls.
    K11,
    /// A register of a running thread lies outside of the table's interval at its position.
    K12,
}

impl Code {
    /// Its number, from 1. The codes are ordered by their numbers.
    pub fn number(self) -> u8
        ensures { result ≡ code_number self }
    {
        self as u8 + 1
    }
}

/// `K` and the number in two digits.
impl fmt::Display for Code {
    ghost output = { λ code. Some (code_text code) };

    fn fmt<W: fmt::Write>(&self, f: &mut fmt::Formatter<W>) -> fmt::Result {
        let number = self.number();
        let tens = number / 10;
        let ones = number % 10;
        write!(f, "K{tens}{ones}")
    }
}
