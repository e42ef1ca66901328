//! What a check answers.

ghost use Rattle.std.specs.Prelude.{◌≡◌, None, Some};
ghost use Rattle.tso_check.specs.Verdicts.{verdict_text};
ghost use Rattle.tso_check.specs.declared.verdict.Verdict.TheVariants as verdicts;

use std::fmt;
use tso_judge::Code;

/// The verdict on bytes as a certificate for a client.
#[derive(Clone, Copy, PartialEq, Eq)]
pub enum Verdict {
    /// They are a valid certificate.
    Accepted,
    /// They are none.
    Rejected {
        /// The first condition that fails.
        code: Code,
        /// The number of the record that fails it, counted from 0 from the left, if it is a condition of a record.
        place: Option<u64>,
    },
}

/// Refused for the certificate as a whole.
pub fn rejected(code: Code) -> Verdict
    ensures { result ≡ verdicts.Rejected code None }
{
    Verdict::Rejected { code, place: None }
}

/// As the program prints it: `accepted`, `rejected K01`, `rejected K08 at record 2`.
impl fmt::Display for Verdict {
    ghost output = { λ verdict. Some (verdict_text verdict) };

    fn fmt<W: fmt::Write>(&self, f: &mut fmt::Formatter<W>) -> fmt::Result {
        match self {
            Verdict::Accepted => write!(f, "accepted"),
            Verdict::Rejected { code, place: None } => write!(f, "rejected {code}"),
            Verdict::Rejected {
                code,
                place: Some(place),
            } => write!(f, "rejected {code} at record {place}"),
        }
    }
}
