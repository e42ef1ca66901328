//! Seats that part again, and the tickets that are left.
ghost use Rattle.std.specs.Prelude.{◌≡◌, ◌+◌, ◌++◌, [], All, IsPermutation, length, map, MatchOption, vec_len};
ghost use Rattle.tso_pool.specs.Seats.{listed, place_of, tally_of};
ghost use Rattle.tso_pool.specs.Linked.{AreClosed, AreLeft, AreLinked, all_found, all_listed, all_pushed, come_home, found_of, left_by, places, pushed_of, ReachesLast, ways};

use crate::seat::Seat;

// Two seats that reached one another last part: neither steals from the other any more, and what each has got there is counted
// by the other.
fn unlink<T: Copy>(one: &mut Seat<T>, other: &mut Seat<T>)
    requires { ReachesLast (place_of one.old) (place_of other.old).deque × ReachesLast (place_of other.old) (place_of one.old).deque }
    ensures places { (place_of one.new ≡ left_by (place_of one.old)) × (place_of other.new ≡ left_by (place_of other.old)) }
    ensures pushed { ((tally_of one.new).pushed ≡ (tally_of one.old).pushed) × ((tally_of other.new).pushed ≡ (tally_of other.old).pushed) }
    ensures listed { ((tally_of one.new).listed ≡ (tally_of one.old).listed) × ((tally_of other.new).listed ≡ (tally_of other.old).listed) }
    ensures found { IsPermutation ((tally_of one.old).found ++ (tally_of other.old).found) ((tally_of one.new).found ++ (tally_of other.new).found) }
{
    let way = one.let_go();
    let back = other.let_go();
    one.take_back(back);
    other.take_back(way);
}

// The leaver parts from all others, the last first.
fn unlink_all<T: Copy>(leaver: &mut Seat<T>, seats: &mut [Seat<T>])
    requires reach { (place_of leaver.old).others ≡ ways (places seats.old) }
    requires reached { All (λ p. ReachesLast p (place_of leaver.old).deque) (places seats.old) }
    ensures leaver { place_of leaver.new ≡ come_home (place_of leaver.old) (length seats.old) }
    ensures seats { places seats.new ≡ map left_by (places seats.old) }
    ensures pushed { (pushed_of leaver.new ≡ pushed_of leaver.old) × (all_pushed seats.new ≡ all_pushed seats.old) }
    ensures listed { (listed leaver.new ≡ listed leaver.old) × (all_listed seats.new ≡ all_listed seats.old) }
    ensures found { IsPermutation (all_found seats.old ++ found_of leaver.old) (all_found seats.new ++ found_of leaver.new) }
{
    let mut left = seats.len();
    while left > 0 {
        left -= 1;
        unlink(leaver, &mut seats[left]);
    }
}

// The last seat parts from all others: how many tickets are left with it.
fn close_last<T: Copy>(seats: &mut Vec<Seat<T>>) -> Option<usize>
    requires { AreLinked (places seats.old.items) }
    ensures linked { AreLinked (places seats.new.items) }
    ensures closed { MatchOption result ((seats.old.items ≡ []) × (seats.new.items ≡ [])) (λ n. AreClosed seats.old.items seats.new.items n × (vec_len seats.new + 1 ≡ vec_len seats.old)) }
{
    let mut seat = seats.pop()?;
    unlink_all(&mut seat, seats.as_mut_slice());
    Some(seat.left())
}

/// How many tickets are left, once the seats of all workers are back. What was pushed by all is then what was found by all, and
/// what is left in the deques: where nothing is left, each ticket that was offered was found once. From 2^64 - 1 on it is that number.
pub fn tickets_left<T: Copy>(seats: Vec<Seat<T>>) -> usize
    requires { AreLinked (places seats.items) }
    ensures { AreLeft seats.items result }
{
    let mut seats = seats;
    let mut left = 0usize;
    while let Some(count) = close_last(&mut seats) {
        left = left.saturating_add(count);
    }
    left
}
