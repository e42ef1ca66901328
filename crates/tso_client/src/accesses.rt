//! That an instruction reads and writes no other register or flag than the flow check says.

ghost use Rattle.tso_client.specs.Accesses.{ReadsAreAll, WritesAreAll};

use tso_prog::Client;

/// Whatever word an instruction reads of memory, the registers and flags that it does not write are as they were, and so are
/// the call's procedure and, but for a jump, the counts of its back jumps.
pub fn writes_are_all(client: &Client)
    ensures { WritesAreAll client.now }
{}

/// From two frames at one position, alike in the counts of back jumps and in what an instruction reads, it does the same: the
/// same access of the same place with the same word, the same answer or fault; and both go on to one position, alike in what
/// it has written.
pub fn reads_are_all(client: &Client)
    ensures { ReadsAreAll client.now }
{}
