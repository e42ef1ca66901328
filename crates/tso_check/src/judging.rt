//! Records of a certificate that are judged by their numbers.

ghost use Rattle.std.specs.Prelude.{IfOk, IfSome};
ghost use Rattle.tso_cert.specs.Trees.{Tree};
ghost use Rattle.tso_check.specs.Spans.{AreHalves, IsSpanJudged, IsWhole, Span, whole_span};
ghost use Rattle.tso_check.specs.Verdicts.{IsTreeVerdict};
ghost use Rattle.tso_prog.specs.declared.client.Client.{Client};
ghost use Rattle.tso_rec.specs.declared.basis.Basis.{Basis as ABasis};

use crate::verdict::Verdict;
use std::alloc::AllocError;
use tso_judge::Code;

/// The first record that is not valid: its number, counted from 0, and the first condition that it fails.
#[derive(Clone, Copy)]
pub struct Bad {
    pub place: u64,
    pub code: Code,
}

/// Who is told of each record before it is judged.
pub trait Notice {
    /// Told before the record with this number.
    fn before(&self, place: u64);
}

/// Nobody is told.
pub struct Nobody;

impl Notice for Nobody {
    fn before(&self, _place: u64) {}
}

/// A part of a certificate, whose records are to be judged.
pub trait Part {
    ghost span: { Self → Span };

    ghost is_ready: { Self → Type 0 };

    /// The first record of the part that is not valid, found in the thread that asks.
    ///
    /// Errors: where a growth was refused.
    fn judge(&self) -> Result<Option<Bad>, AllocError>
        requires { is_ready self.now }
        ensures { IfOk result (IsSpanJudged (span self.now)) };

    /// The halves of the part, unless it is a leaf.
    fn halves(&self) -> Option<(Self, Self)>
        requires { is_ready self.now }
        ensures { IfSome result (λ h. AreHalves (span self.now) (span h.0) (span h.1) × is_ready h.0 × is_ready h.1) };
}

/// The verdict where the conditions of the whole hold and this is the first record that is not valid, if there is one.
pub fn verdict_of(found: Option<Bad>) -> Verdict
    ensures { (c : Client) (b : ABasis) (tree : Tree) → IsWhole c b tree → IsSpanJudged (whole_span c b tree) found → IsTreeVerdict c b tree result }
{
    match found {
        Some(bad) => Verdict::Rejected {
            code: bad.code,
            place: Some(bad.place),
        },
        None => Verdict::Accepted,
    }
}
