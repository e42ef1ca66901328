//! Whether bytes may have far more records than those of a search have. It is a guess, which costs time alone where it is wrong.

use crate::end::skip_records;
use std::alloc::Global;
use tso_cert::read_front;
use tso_code::read_number;
use tso_rec::Grain;

// Fewer bytes are decided at once in any case.
const LEAST: usize = 1_048_576;

// A record of a search has more bytes than this.
const RECORD_BYTES: u64 = 48;

// As many forks may be inside one another.
const FORKS: usize = 64;

// The bytes behind the forks that a tree begins with.
fn first_leaf(bytes: &[u8]) -> &[u8] {
    let mut rest = bytes;
    for _ in 0..FORKS {
        if let [1, behind @ ..] = rest {
            rest = behind;
        }
    }
    rest
}

// Whether the records of a leaf have few bytes each.
fn is_leaf_dense(grain: Grain, bytes: &[u8]) -> bool {
    let [0, behind @ ..] = bytes else {
        return false;
    };
    let Some((count, rest)) = read_number(behind) else {
        return false;
    };
    match skip_records(grain, count.min(64), rest) {
        Ok(after) => {
            let taken = rest.len().saturating_sub(after.len()) as u64;
            taken < count.min(64).saturating_mul(RECORD_BYTES)
        }
        Err(_) => false,
    }
}

/// Whether bytes are many, and their first records have fewer bytes than those of a search.
pub fn is_dense(alloc: Global, bytes: &[u8]) -> bool {
    if bytes.len() < LEAST {
        return false;
    }
    match read_front(alloc, bytes) {
        Ok((basis, rest)) => {
            let grain = basis.grain;
            drop(basis);
            is_leaf_dense(grain, first_leaf(rest))
        }
        Err(_) => false,
    }
}
