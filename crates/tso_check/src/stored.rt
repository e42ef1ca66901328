//! Certificates whose states lie in a store under the numbers of their records.

ghost use Rattle.std.specs.Prelude.{◌+◌, ◌≤◌, IfOk};
ghost use Rattle.tso_check.specs.Spans.{IsSpanJudged, IsStored, IsVerdictOn, IsWholeFaultOf, stored_span};
ghost use Rattle.tso_scan.specs.Scanned.{shape_count};
ghost use Rattle.tso_keys.specs.Forms.{AreForms};

use crate::judging::{Bad, Nobody, Notice, Part, verdict_of};
use crate::numbered::{has_initial, judge_number};
use crate::trail::Trail;
use crate::verdict::{Verdict, rejected};
use std::alloc::{AllocError, Global};
use tso_flow::Checked;
use tso_foot::is_closed;
use tso_judge::Code;
use tso_keys::Forms;
use tso_scan::{Scanned, Shape};

/// A part of the tree of a certificate in a store.
#[derive(Drop)]
pub struct StoredPart<'a, N: Notice> {
    pub alloc: Global,
    pub checked: &'a Checked,
    pub scanned: &'a Scanned<'a>,
    /// Which histories of its states fit.
    pub forms: &'a Forms<'a>,
    /// How the part's records lie.
    pub shape: &'a Shape,
    /// The number of its first record.
    pub start: u64,
    pub notice: &'a N,
}

// The first of the records from one number up to another that is not valid.
fn judge_numbers<N: Notice>(
    alloc: Global,
    checked: &Checked,
    scanned: &Scanned<'_>,
    forms: &Forms<'_>,
    from: u64,
    to: u64,
    notice: &N,
) -> Result<Option<Bad>, AllocError>
    requires stored { IsStored checked.now.client scanned.now }
    requires forms { AreForms checked.now.client scanned.now.store.states forms.now }
    requires few { to ≤ 4194304 }
    ensures { IfOk result (IsSpanJudged (stored_span checked.now.client scanned.now from to)) }
{
    let mut trail = Trail::new();
    for number in from..to {
        notice.before(number);
        let end = match scanned.end(number) {
            Some(end) => end,
            None => return Ok(None),
        };
        match judge_number(
            alloc,
            checked,
            &scanned.table,
            &scanned.store,
            forms,
            number as u32,
            end,
            &mut trail,
        )? {
            Some(code) => {
                return Ok(Some(Bad {
                    place: number,
                    code,
                }));
            }
            None => {}
        }
    }
    Ok(None)
}

impl<'a, N: Notice> Part for StoredPart<'a, N> {
    ghost use Rattle.std.specs.Prelude.{◌+◌, ◌≤◌};
    ghost use Rattle.tso_check.specs.Spans.{IsStored, stored_span};
    ghost use Rattle.tso_scan.specs.Scanned.{shape_count};
    ghost use Rattle.tso_keys.specs.Forms.{AreForms};

    ghost span = { λ p. stored_span p.checked.now.client p.scanned.now p.start (p.start + shape_count p.shape.now) };

    ghost is_ready = { λ p. IsStored p.checked.now.client p.scanned.now × AreForms p.checked.now.client p.scanned.now.store.states p.forms.now × (p.start + shape_count p.shape.now ≤ 4194304) };

    fn judge(&self) -> Result<Option<Bad>, AllocError> {
        judge_numbers(
            self.alloc,
            self.checked,
            self.scanned,
            self.forms,
            self.start,
            self.start + self.shape.len(),
            self.notice,
        )
    }

    fn halves(&self) -> Option<(Self, Self)> {
        match self.shape {
            Shape::Leaf(_) => None,
            Shape::Fork(left, right) => {
                let middle = self.start + left.len();
                let left = StoredPart {
                    alloc: self.alloc,
                    checked: self.checked,
                    scanned: self.scanned,
                    forms: self.forms,
                    shape: left,
                    start: self.start,
                    notice: self.notice,
                };
                let right = StoredPart {
                    alloc: self.alloc,
                    checked: self.checked,
                    scanned: self.scanned,
                    forms: self.forms,
                    shape: right,
                    start: middle,
                    notice: self.notice,
                };
                Some((left, right))
            }
        }
    }
}

/// The code of the first condition of the tree and the table as wholes that fails. The states rise.
///
/// Errors: where a growth was refused.
pub fn stored_fault(
    alloc: Global,
    checked: &Checked,
    scanned: &Scanned<'_>,
) -> Result<Option<Code>, AllocError>
    requires stored { IsStored checked.now.client scanned.now }
    ensures { IfOk result (IsWholeFaultOf checked.now.client scanned.now) }
{
    if !is_closed(checked, &scanned.table) {
        return Ok(Some(Code::K04));
    }
    if !has_initial(alloc, checked, &scanned.store)? {
        return Ok(Some(Code::K09));
    }
    Ok(None)
}

/// The verdict on a certificate in a store.
///
/// Errors: where a growth was refused.
pub fn decide_stored(
    alloc: Global,
    checked: &Checked,
    scanned: &Scanned<'_>,
) -> Result<Verdict, AllocError>
    requires { IsStored checked.now.client scanned.now }
    ensures { IfOk result (IsVerdictOn checked.now.client scanned.now) }
{
    match stored_fault(alloc, checked, scanned)? {
        Some(code) => Ok(rejected(code)),
        None => {
            let count = scanned.shape.len();
            let forms = scanned.store.forms(alloc)?;
            let found = judge_numbers(alloc, checked, scanned, &forms, 0, count, &Nobody);
            drop(forms);
            Ok(verdict_of(found?))
        }
    }
}
