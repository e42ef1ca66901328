//! A tree of records, passed over.

ghost use Rattle.std.specs.Prelude.{◌≡◌};
ghost use Rattle.tso_cert.specs.Certificates.{fork_at, leaf_at, tree_at};
ghost use Rattle.tso_cert.specs.declared.fault.Fault.TheVariants as faults;
ghost use Rattle.tso_skim.specs.Skips.{fault_of, past_tree, without_tree};

use crate::end::skip_records;
use crate::skip::{Skim, Stop, no_number};
use tso_code::read_number;
use tso_rec::Grain;
use tso_state::State;

/// Why a tree is not passed over.
#[derive(Clone, Copy, PartialEq, Eq)]
pub enum Halt {
    /// The bytes end inside of it.
    Cut,
    /// They do not begin with one, whatever follows.
    Broken,
    /// It goes beyond a limit.
    Beyond,
}

fn halt_of(stop: Stop) -> Halt
    ensures { fault_of result ≡ faults.K01 }
{
    match stop {
        Stop::Cut => Halt::Cut,
        Stop::Broken => Halt::Broken,
    }
}

// A leaf has at most so many records.
const RECORDS_IN_A_LEAF: u32 = 64;

// How many records more may come behind a leaf whose byte was passed, of so many, and the bytes behind it.
#[tactic(auto, unfolding(tso_cert::specs::Certificates::leaf_at), using(crate::proofs::TreeLemmas::behind_records))]
fn skip_leaf(grain: Grain, room: u32, bytes: &[u8]) -> Result<(u32, &[u8]), Halt>
    ensures { past_tree (λ r. (r.0, r.1.now)) result ≡ without_tree (leaf_at grain room bytes.now) }
{
    let Some((count, rest)) = read_number(bytes) else {
        return Err(halt_of(no_number(bytes)));
    };
    if count > u64::from(RECORDS_IN_A_LEAF.min(room)) {
        return Err(Halt::Beyond);
    }
    match skip_records(grain, count, rest) {
        Ok(rest) => Ok((room - count as u32, rest)),
        Err(stop) => Err(halt_of(stop)),
    }
}

/// How many records more may come behind a tree of a certificate of this grain, of so many, in which at most `depth` forks are inside one
/// another, and the bytes behind it. It takes no memory.
///
/// Errors: `Beyond` exactly where a limit is passed first; else `Cut` or `Broken`.
#[cycle(tree)]
#[tactic(auto, using(tso_cert::proofs::Opening::tree_opens))]
pub fn skip_tree(grain: Grain, depth: u8, room: u32, bytes: &[u8]) -> Result<(u32, &[u8]), Halt>
    ensures { past_tree (λ r. (r.0, r.1.now)) result ≡ without_tree (tree_at grain depth room bytes.now) }
{
    match bytes {
        [0, rest @ ..] => skip_leaf(grain, room, rest),
        [1, rest @ ..] => {
            if depth == 0 {
                Err(Halt::Beyond)
            } else {
                skip_fork(grain, depth - 1, room, rest)
            }
        }
        [] => Err(Halt::Cut),
        _ => Err(Halt::Broken),
    }
}

// The same of a fork whose byte was passed.
#[cycle(tree)]
#[tactic(auto, using(crate::proofs::TreeLemmas::behind_fork))]
fn skip_fork(grain: Grain, depth: u8, room: u32, bytes: &[u8]) -> Result<(u32, &[u8]), Halt>
    ensures { past_tree (λ r. (r.0, r.1.now)) result ≡ without_tree (fork_at (tree_at grain depth) room bytes.now) }
{
    let (room, rest) = skip_tree(grain, depth, room, bytes)?;
    let rest = match State::skip(rest) {
        Ok(rest) => rest,
        Err(stop) => return Err(halt_of(stop)),
    };
    skip_tree(grain, depth, room, rest)
}
