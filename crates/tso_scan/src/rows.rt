//! Lists of parts as rows of their numbers.
ghost use Rattle.std.specs.Prelude.{◌≡◌, ◌≤◌, IfOk, IfSome};
ghost use Rattle.tso_parts.specs.Numbers.{Extends};
ghost use Rattle.tso_scan.specs.Scrolls.{AreReadAs, IsListReadAs};

use crate::scroll::Scroll;
use std::alloc::Global;
use std::hash::Hash;
use tso_code::read_number;
use tso_keys::NONE;
use tso_list::Exact;
use tso_parts::Refused;
use tso_rec::Readable;

/// The numbers of parts, and that of nothing after them.
#[derive(Clone, Copy, PartialEq, Eq, Hash)]
pub struct Row {
    pub numbers: [u32; 5],
}

impl Exact for Row {
    ghost use Rattle.std.proofs.Common.{ap};
    ghost use Rattle.std.proofs.lemmas.Bool.Decides.{Decides-eqb};
    ghost use lib.Pointwise.{pointwise_decides};

    ghost exact = { λ a b. let d = pointwise_decides Decides-eqb a.numbers b.numbers in (λ e i. record { numbers = d.0 e i }, λ e. d.1 (λ i. (e i).numbers)) };
}

// The numbers of so many parts at the front of the bytes, and the bytes after them.
fn read_numbers<'a, T: Readable + Hash>(
    scroll: &mut Scroll<T>,
    alloc: Global,
    count: usize,
    bytes: &'a [u8],
) -> Result<Option<(Row, &'a [u8])>, Refused>
    requires { count ≤ 5 }
    ensures { IfOk result (λ o. IfSome o (λ x. AreReadAs T.read_at scroll.new count x.0 bytes.now x.1.now × Extends scroll.old scroll.new)) }
{
    let mut numbers = [NONE; 5];
    let mut rest = bytes;
    for place in 0..count {
        let Some((number, after)) = scroll.read(alloc, place, rest)? else {
            return Ok(None);
        };
        numbers[place] = number;
        rest = after;
    }
    Ok(Some((Row { numbers }, rest)))
}

/// The numbers of the parts of a list of so many at the front of the bytes, and the bytes after it. `None` where there is no
/// such list, or one of another length.
///
/// Errors: where a growth was refused, or there are as many parts as numbers.
pub fn read_row<'a, T: Readable + Hash>(
    scroll: &mut Scroll<T>,
    alloc: Global,
    count: usize,
    bytes: &'a [u8],
) -> Result<Option<(Row, &'a [u8])>, Refused>
    requires { count ≤ 5 }
    ensures { IfOk result (λ o. IfSome o (λ x. IsListReadAs T.read_at scroll.new count x.0 bytes.now x.1.now × Extends scroll.old scroll.new)) }
{
    let Some((found, rest)) = read_number(bytes) else {
        return Ok(None);
    };
    if found != count as u64 {
        return Ok(None);
    }
    let Some((row, rest)) = read_numbers(scroll, alloc, count, rest)? else {
        return Ok(None);
    };
    Ok(Some((row, rest)))
}
