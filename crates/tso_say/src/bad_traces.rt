//! Traces that are refused, of the program `crates/tsoq/data/own_store.tso`.

pub const T01: &str = "tso-trace 1
0 call push 7
0 write n[0] = 5
0 read n[0] = 0
0 reg
0 fault assert
";

// Thread 0 reads what its own store buffer holds.
pub const T01_MENDED: &str = "tso-trace 1
0 call push 7
0 write n[0] = 5
0 read n[0] = 5
0 reg
0 fault assert
";

pub const T02: &str = "tso-trace 1
0 call push 7
0 write n[0] = 5
0 read n[0] = 5
";

pub const T02_MENDED: &str = T01_MENDED;

pub const T03: &str = "tso-trace 1
0 call push 7
0 write n[0]=5
0 read n[0] = 5
0 reg
0 fault assert
";

pub const T03_MENDED: &str = T01_MENDED;
