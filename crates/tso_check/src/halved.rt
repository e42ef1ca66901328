//! Certificates whose states are looked up in their tree by halves.

ghost use Rattle.std.specs.Prelude.{◌+◌, ◌≤◌, IfOk, length};
ghost use Rattle.tso_cert.specs.Lookup.{IsOrdered};
ghost use Rattle.tso_cert.specs.Trees.{record_count, records_of, tree_of};
ghost use Rattle.tso_check.specs.Halved.{AreFrom, AreJudgedIn};
ghost use Rattle.tso_check.specs.Spans.{IsWholeFault};
ghost use Rattle.tso_check.specs.Verdicts.{IsTreeVerdict};
ghost use Rattle.tso_rec.specs.Conditions.{IsLeast};

use crate::halves::has_initial;
use crate::judging::{Bad, Nobody, Notice, Part, verdict_of};
use crate::rising::is_ordered;
use crate::verdict::{Verdict, rejected};
use std::alloc::AllocError;
use tso_cert::Cert;
use tso_foot::is_closed;
use tso_judge::{Code, Whole};
use tso_rec::Packed;

/// A part of a tree, in all of which states are looked up.
#[derive(Drop)]
pub struct TreePart<'a, N: Notice> {
    pub whole: Whole<'a>,
    pub part: &'a Cert,
    /// The number of its first record.
    pub start: u64,
    pub notice: &'a N,
}

// The first record of a leaf that is not valid, where its records have their numbers from `start` on.
fn judge_leaf<N: Notice>(
    whole: &Whole<'_>,
    records: &Packed,
    start: u64,
    notice: &N,
) -> Result<Option<Bad>, AllocError>
    requires least { IsLeast whole.now.checked.now.client whole.now.own.now }
    requires ordered { IsOrdered (tree_of whole.now.tree.now) }
    requires few { start + length records.now ≤ 4194304 }
    ensures { IfOk result (AreJudgedIn whole.now records.now start) }
{
    for k in 0..records.len() {
        let place = start + k as u64;
        notice.before(place);
        let state = records.state(k)?;
        let judged = whole.judge(&state, records.end(k));
        drop(state);
        match judged? {
            Some(code) => return Ok(Some(Bad { place, code })),
            None => {}
        }
    }
    Ok(None)
}

// The first record of a part of a tree that is not valid, where the part's records have their numbers from `start` on.
fn judge_part<N: Notice>(
    whole: &Whole<'_>,
    part: &Cert,
    start: u64,
    notice: &N,
) -> Result<Option<Bad>, AllocError>
    requires least { IsLeast whole.now.checked.now.client whole.now.own.now }
    requires ordered { IsOrdered (tree_of whole.now.tree.now) }
    requires few { start + record_count (tree_of part.now) ≤ 4194304 }
    ensures { IfOk result (AreJudgedIn whole.now (records_of (tree_of part.now)) start) }
{
    match part {
        Cert::Leaf(records) => judge_leaf(whole, records, start, notice),
        Cert::Fork(left, _, right) => match judge_part(whole, left, start, notice)? {
            Some(bad) => Ok(Some(bad)),
            None => judge_part(whole, right, start + left.len(), notice),
        },
    }
}

impl<'a, N: Notice> Part for TreePart<'a, N> {
    ghost use Rattle.std.specs.Prelude.{◌+◌, ◌≤◌};
    ghost use Rattle.tso_cert.specs.Lookup.{IsOrdered};
    ghost use Rattle.tso_cert.specs.Trees.{record_count, records_of, tree_of};
    ghost use Rattle.tso_check.specs.Halved.{AreFrom, part_span};
    ghost use Rattle.tso_rec.specs.Conditions.{IsLeast};

    ghost span = { λ p. part_span p.whole p.start (p.start + record_count (tree_of p.part.now)) };

    ghost is_ready = { λ p. IsLeast p.whole.checked.now.client p.whole.own.now × IsOrdered (tree_of p.whole.tree.now) × (p.start + record_count (tree_of p.part.now) ≤ 4194304) × AreFrom (records_of (tree_of p.whole.tree.now)) p.start (records_of (tree_of p.part.now)) };

    fn judge(&self) -> Result<Option<Bad>, AllocError> {
        judge_part(&self.whole, self.part, self.start, self.notice)
    }

    fn halves(&self) -> Option<(Self, Self)> {
        match self.part {
            Cert::Leaf(_) => None,
            Cert::Fork(left, _, right) => {
                let middle = self.start + left.len();
                let left = TreePart {
                    whole: self.whole,
                    part: left,
                    start: self.start,
                    notice: self.notice,
                };
                let right = TreePart {
                    whole: self.whole,
                    part: right,
                    start: middle,
                    notice: self.notice,
                };
                Some((left, right))
            }
        }
    }
}

/// The code of the first condition of a tree and its basis as wholes that fails.
///
/// Errors: where a growth was refused.
pub fn tree_fault(whole: &Whole<'_>) -> Result<Option<Code>, AllocError>
    requires { IsLeast whole.now.checked.now.client whole.now.own.now }
    ensures { IfOk result (IsWholeFault whole.now.checked.now.client whole.now.basis.now (tree_of whole.now.tree.now)) }
{
    if !is_ordered(whole.tree)? {
        return Ok(Some(Code::K03));
    }
    if !is_closed(whole.checked, &whole.basis.table) {
        return Ok(Some(Code::K04));
    }
    if !has_initial(whole)? {
        return Ok(Some(Code::K09));
    }
    Ok(None)
}

/// The verdict on a basis and a tree.
///
/// Errors: where a growth was refused.
pub fn decide_tree(whole: &Whole<'_>) -> Result<Verdict, AllocError>
    requires least { IsLeast whole.now.checked.now.client whole.now.own.now }
    requires few { record_count (tree_of whole.now.tree.now) ≤ 4194304 }
    ensures { IfOk result (IsTreeVerdict whole.now.checked.now.client whole.now.basis.now (tree_of whole.now.tree.now)) }
{
    match tree_fault(whole)? {
        Some(code) => Ok(rejected(code)),
        None => {
            let found = judge_part(whole, whole.tree, 0, &Nobody)?;
            Ok(verdict_of(found))
        }
    }
}
