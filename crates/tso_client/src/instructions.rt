//! What instructions do.

ghost use Rattle.tso_client.specs.Meanings.{CmpCompares, FencesChangeNothing, FencesWait, LoadsRead, LockedDo, LockedLock, OutsideIsFault, StoresWrite, TestTests};

use tso_prog::Client;

/// `mfence`, and no other instruction, waits until the store buffer is empty. It changes nothing but the position.
pub fn fences_wait(client: &Client)
    ensures waits { FencesWait client.now }
    ensures nothing { FencesChangeNothing client.now }
{}

/// A load puts the word at its operand's place into its register, and a store puts its word there. An operand outside its array
/// is a fault, of locked instructions too.
pub fn operands_are_accessed(client: &Client)
    ensures loads { LoadsRead client.now }
    ensures stores { StoresWrite client.now }
    ensures outside { OutsideIsFault client.now }
{}

/// After `cmp x, y` the conditions e, ne, b, ae, be, a, l, ge, le and g hold exactly where x is y, is not y, is below y, at
/// least y, at most y, above y, and, as signed numbers, less than y, at least y, at most y, greater than y. After `test x, y`
/// e holds exactly where x and y have no bit in common, and ne where they have one.
pub fn comparisons_compare(client: &Client)
    ensures cmp { CmpCompares client.now }
    ensures test { TestTests client.now }
{}

/// `xchg`, `lock cmpxchg` and `lock xadd`, and no other instruction, take the lock. `xchg` exchanges the register and the cell,
/// and no flag; `lock xadd` adds the register to the cell, and gives the old word; `lock cmpxchg` stores the register where RAX
/// is the cell's word, and else gives RAX the cell's word and writes that back.
pub fn locked_instructions_lock(client: &Client)
    ensures locks { LockedLock client.now }
    ensures does { LockedDo client.now }
{}
