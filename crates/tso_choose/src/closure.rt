//! Sets of numbers closed under what their members need, as masks.

ghost use Rattle.std.specs.Prelude.{◌≡◌, ◌<◌, ◌≤◌, ℕ, IfNone, IfSome, IsTrue, length};
ghost use Rattle.tso_choose.specs.Closures.{has_bit, needs_at, IsClosed, IsClosure, IsIn, IsSmallest, smaller};

// The set with what its members need.
fn grown(needs: &[u16], set: u16) -> u16
    requires { length needs.now ≤ 16 }
    ensures more { IsIn set result }
    ensures needed { (k : ℕ) → IsTrue (has_bit set k) → IsIn (needs_at needs.now k) result }
    ensures least { (other : ℕ) → IsIn set other → IsClosed needs.now other → IsIn result other }
{
    let mut all = set;
    for k in 0..needs.len() {
        if set >> k & 1 == 1 {
            all |= needs[k];
        }
    }
    all
}

/// The least set with this number that has all that its members need.
pub fn closure(needs: &[u16], number: usize) -> u16
    requires few { length needs.now ≤ 16 }
    requires small { number < 16 }
    ensures { IsClosure needs.now number result }
{
    let mut set = 1 << number;
    'grow: loop {
        let next = grown(needs, set);
        if next == set {
            break;
        }
        set = next;
    }
    set
}

// The smaller of two sets, the first at a tie.
fn smaller(first: Option<u16>, second: u16) -> u16
    ensures { result ≡ smaller first second }
{
    match first {
        Some(first) if first.count_ones() <= second.count_ones() => first,
        _ => second,
    }
}

/// The smallest of the closures of these numbers, at a tie that of the lowest; none where there are no numbers.
pub fn smallest(needs: &[u16], numbers: u16) -> Option<u16>
    requires few { length needs.now ≤ 16 }
    requires within { (k : ℕ) → IsTrue (has_bit numbers k) → k < length needs.now }
    ensures some { IfSome result (IsSmallest needs.now numbers) }
    ensures none { IfNone result ((k : ℕ) → IsTrue (has_bit numbers k) → ⊥) }
{
    let mut best = None;
    for k in 0..needs.len() {
        if numbers >> k & 1 == 1 {
            let set = closure(needs, k);
            best = Some(smaller(best, set));
        }
    }
    best
}
