//! Certificates that are refused, each by what differs from the example of docs/FORMATS.md.

pub const K01: &str = "  the example of docs/FORMATS.md without its last byte
";

pub const K01_MENDED: &str = "  all 111 bytes, as `tsoq verify` wrote them
";

pub const K02: &str = "  byte 18, the count of records of the leaf, is 41, which is 65
";

pub const K02_MENDED: &str =
    "  byte 18 is 04; a leaf has at most 64 records, and more of them stand in several leaves below forks
";

pub const K03: &str = "  byte 81 is 00: record 3 stands before instruction 0, as record 2 does
";

pub const K03_MENDED: &str = "  byte 81 is 01
";

pub const K04: &str =
    "  byte 8 is 01: the second instruction of push reads array 0, and the first, from which control goes on to it,
  says that none is read any more
";

pub const K04_MENDED: &str = "  byte 8 is 00, as `tsoq verify` wrote it for this program
";

pub const K05: &str =
    "  byte 38 is 01: the first call of the only thread had seen a call of that thread return
";

pub const K05_MENDED: &str = "  byte 38 is 00
";

pub const K06: &str =
    "  byte 27 is 01: in record 0 the store buffer of thread 0 is chosen, which has no step, since it is empty
";

pub const K06_MENDED: &str = "  byte 27 is 00, the core of thread 0, which begins its push
";

pub const K07: &str =
    "  byte 28 is 01, and a byte 00 is put behind it: a reason for another thread, and there is none
";

pub const K07_MENDED: &str =
    "  byte 28 is 00, and nothing is put behind it: no other thread, no reasons
";

pub const K08: &str =
    "  byte 18 is 03, and bytes 45 to 77, which are record 2, are left out: thread 0 can begin its push in record 0,
  and the state after that has no record
";

pub const K08_MENDED: &str = "  all four records
";

pub const K09: &str = "  byte 18 is 03, and bytes 19 to 28, which are record 0, are left out
";

pub const K09_MENDED: &str = "  all four records
";

pub const K10: &str =
    "  byte 18 is 05, and behind byte 110 stands a record with a stopped thread and an order:
  00 01 02 00 01 01 00 07 01 00 00 01 01 00 00 01
";

pub const K10_MENDED: &str = "  the four records that runs of the program reach
";

pub const K11: &str =
    "  byte 44 is 02: the order of record 1 says that the push was done, and its call was refused
";

pub const K11_MENDED: &str = "  byte 44 is 01
";

pub const K12: &str =
    "  the example as `tsoq upgrade` writes it, in version 2: byte 168 is 05, and behind byte 260 stands a record of a push
  before its second instruction with 1 in rbx, where the table has 0 alone:
  00 01 01 01 00 01 00 00 00 07 00 00 00 00 00 00 00 00 00 00 00 00 01 01 00 07 01 00 00 00 01 00 00
";

pub const K12_MENDED: &str = "  the four records that runs of the program reach
";
