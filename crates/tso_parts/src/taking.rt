//! Values of other catalogs, taken in with their hashes.

ghost use Rattle.std.specs.Prelude.{◌≡◌, ◌+◌, ◌<◌, ◌≤◌, ◌^◌, Err, IfOk, OnErr, Some, length, slice_get};
ghost use Rattle.tso_parts.specs.Marks.{AreMarked, hash_of};
ghost use Rattle.tso_parts.specs.Numbers.{AreNumbersIn, Extends, IsNowhere, grown};
ghost use Rattle.tso_parts.specs.declared.mark.Mark.{Mark as MarkValue};
ghost use Rattle.tso_parts.specs.declared.refused.Refused.TheVariants as reasons;

use crate::mark::{Mark, Place, hash_like, place_of, put};
use crate::pool::Pool;
use crate::refused::Refused;
use crate::seeded::Seeded;
use std::alloc::Global;
use std::hash::Hash;
use tso_list::{Exact, Seq};

/// The number of a value with this hash, and whether it is new; it is kept then.
pub fn number_with<T: Exact + Hash + Drop>(
    seeded: Seeded,
    items: &mut Seq<T>,
    marks: &mut Pool<Mark>,
    hash: u64,
    item: T,
) -> Result<(u32, bool), Refused>
    requires marked { AreMarked (λ x. hash_of seeded (T.hash_input x)) items.old marks.old }
    requires hash { hash ≡ hash_of seeded (T.hash_input item) }
    ensures marked { AreMarked (λ x. hash_of seeded (T.hash_input x)) items.new marks.new }
    ensures number { IfOk result (λ r. slice_get items.new r.0 ≡ Some item) }
    ensures kept { IfOk result (λ r. items.new ≡ grown items.old item r.1) }
    ensures err { OnErr result (items.new ≡ items.old) }
    ensures absent { OnErr result (IsNowhere items.old item) }
    ensures full { result ≡ Err reasons.Full → length items.old ≡ 4294967295 }
    ensures memory { result ≡ Err reasons.Memory → length items.old < 4294967295 }
    ensures extends { Extends items.old items.new }
    ensures more { length items.new ≤ length items.old + 1 }
{
    match place_of(seeded, items.as_slice(), marks, hash, &item) {
        Place::At(number) => Ok((number, false)),
        Place::Free(tie) => {
            let mark = Mark { hash, tie };
            put(seeded, items, marks, mark, item)
        }
    }
}

// The hash of a value: that of its mark, where values were marked as here.
fn hash_from<T: Exact + Hash>(
    seeded: Seeded,
    theirs: Seeded,
    marks: &Pool<Mark>,
    number: usize,
    item: &T,
) -> u64
    requires small { number < 2 ^ 32 }
    requires marked { (m : MarkValue) → slice_get marks.now number ≡ Some m → m.hash ≡ hash_of theirs (T.hash_input item.now) }
    ensures { result ≡ hash_of seeded (T.hash_input item.now) }
{
    if seeded.is_as(theirs) {
        if let Some(mark) = marks.get(number as u32) {
            return mark.hash;
        }
    }
    hash_like(seeded, item)
}

/// The numbers of values that are marked by their own seed, in their order. Those that are new are kept, and the others let go of.
///
/// Errors: `Memory` where a growth was refused; `Full` where there are 2^32 - 1 values. What is there stays, each value at its number.
pub fn numbers_of<T: Exact + Hash + Drop>(
    alloc: Global,
    seeded: Seeded,
    items: &mut Seq<T>,
    marks: &mut Pool<Mark>,
    theirs: Seeded,
    others: Seq<T>,
    other_marks: &Pool<Mark>,
) -> Result<Seq<u32>, Refused>
    requires marked { AreMarked (λ x. hash_of seeded (T.hash_input x)) items.old marks.old }
    requires others { AreMarked (λ x. hash_of theirs (T.hash_input x)) others other_marks.now }
    ensures marked { AreMarked (λ x. hash_of seeded (T.hash_input x)) items.new marks.new }
    ensures numbers { IfOk result (λ ns. AreNumbersIn items.new ns others) }
    ensures extends { Extends items.old items.new }
    ensures more { length items.new ≤ length items.old + length others }
    ensures full { result ≡ Err reasons.Full → length items.new ≡ 4294967295 }
{
    let mut numbers = Seq::new(alloc);
    for item in others.into_vec() {
        let hash = hash_from(seeded, theirs, other_marks, numbers.len(), &item);
        let (number, _) = number_with(seeded, items, marks, hash, item)?;
        numbers.push(number)?;
    }
    Ok(numbers)
}
