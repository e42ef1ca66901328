//! Why a text is no program.

ghost use Rattle.std.specs.Prelude.{◌≡◌};
ghost use Rattle.tso_prog.specs.declared.fault.ReadError.TheVariants.{Memory};
ghost use Rattle.std.specs.Prelude.{Some};
ghost use Rattle.tso_prog.specs.Codes.{code_number, code_text, fault_text};
ghost use Rattle.tso_prog.specs.LexFaults.{read_error};

use std::alloc::{AllocError, AllocFailed};
use std::fmt;
use tso_text::LexError;

/// The refusals of a program, by their numbers. The reader answers E01 to E10, the flow check E11 to E14.
#[derive(Clone, Copy, Debug, PartialEq, Eq, PartialOrd, Ord, Hash)]
pub enum Code {
    /// The text is too long.
    E01,
    /// A byte that may not stand in a text.
    E02,
    /// The line has no known shape, or stands out of its part, or has a wrong count of values.
    E03,
    /// An unknown mnemonic, condition, register or operand form.
    E04,
    /// A number out of its range.
    E05,
    /// A name given twice.
    E06,
    /// An array or a label that is not there.
    E07,
    /// The text ends too soon.
    E08,
    /// A limit is passed.
    E09,
    /// A compare and exchange, or an exchange and add, lacks its lock prefix.
    E10,
    /// A reachable instruction goes on past the procedure's end.
    E11,
    /// A back jump has no bound.
    E12,
    /// A forward jump has a bound.
    E13,
    /// Some path reads a register or a flag before it writes it.
    E14,
}

impl Code {
    /// Its number, from 1. The codes are ordered by their numbers.
    pub fn number(self) -> u8
        ensures { result ≡ code_number self }
    {
        self as u8 + 1
    }
}

/// `E` and the number in two digits.
impl fmt::Display for Code {
    ghost output = { λ code. Some (code_text code) };

    fn fmt<W: fmt::Write>(&self, f: &mut fmt::Formatter<W>) -> fmt::Result {
        let number = self.number();
        let tens = number / 10;
        let ones = number % 10;
        write!(f, "E{tens}{ones}")
    }
}

/// A refusal and its line, which is 0 for the text as a whole.
#[derive(Clone, Copy, Debug, PartialEq, Eq)]
pub struct Fault {
    pub code: Code,
    pub line: u32,
}

/// As the program prints it: `E04 line 7`.
impl fmt::Display for Fault {
    ghost output = { λ fault. Some (fault_text fault) };

    fn fmt<W: fmt::Write>(&self, f: &mut fmt::Formatter<W>) -> fmt::Result {
        let code = self.code;
        let line = self.line;
        write!(f, "{code} line {line}")
    }
}

#[derive(PartialEq, Eq, Drop)]
pub enum ReadError {
    Refused(Fault),
    Memory,
}

impl From<AllocError> for ReadError {
    ghost from_gives = { λ _ e. e ≡ Memory };

    fn from(_e: AllocError) -> ReadError {
        ReadError::Memory
    }
}

impl<T: Drop> From<AllocFailed<T>> for ReadError {
    ghost from_gives = { λ _ e. e ≡ Memory };

    fn from(_e: AllocFailed<T>) -> ReadError {
        ReadError::Memory
    }
}

impl From<LexError> for ReadError {
    ghost from_gives = { λ e r. r ≡ read_error e };

    fn from(e: LexError) -> ReadError {
        match e {
            LexError::TooLong => ReadError::Refused(Fault {
                code: Code::E01,
                line: 0,
            }),
            LexError::BadByte { line } => ReadError::Refused(Fault {
                code: Code::E02,
                line,
            }),
            LexError::Memory => ReadError::Memory,
        }
    }
}
