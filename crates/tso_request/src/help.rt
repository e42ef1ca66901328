//! What help says behind the list of words.

/// Help for the program as a whole.
pub const PROGRAM: &str = "A first verdict, from the top of the repository:
  tsoq verify queues/lamport.tso --out lamport.cert --trace lamport.trace
  tsoq replay queues/lamport.tso lamport.trace
  tsoq verify queues/lamport_fenced.tso --out fenced.cert --trace fenced.trace
  tsoq check queues/lamport_fenced.tso fenced.cert

`--verbose` says why, on standard error behind the promised lines: the source line with a mark, and the reason.
`-` in place of a file is standard input, or standard output where a file is written.
`tsoq COMMAND --help` says of each command what it reads and writes, and with which status it ends.
docs/TUTORIAL.md leads from a queue of your own to its first verdict; docs/LANGUAGE.md has all that may stand in a text.";

/// Help for `verify`.
pub const VERIFY: &str =
    "Reads FILE, a program text: the push and the pop of a ring queue in Intel syntax, and the calls of a few
threads. Writes CERT where all runs are good, or TRACE where one is not, and never both; without --out or --trace
that one is not written. CERT is decided by `tsoq check`, TRACE is shown by `tsoq replay`; where --client, --before
or --mode put other calls in place of those of FILE, both want the same words. With --form 2 the table of CERT says
cells where that of --form 1 says whole arrays; with --form 3 records are crossings, and there are
fewer of them.

Example:
  tsoq verify queues/vyukov.tso --out vyukov.cert --trace vyukov.trace
  tsoq verify queues/vyukov_weak.tso --client 'push 1 | push 2 | pop, pop' --before 'push 3'

Status:
  0   all runs are good            certificate: R records
  1   one is not                   violation: fault in thread I, or violation: no order
                                   trace: N labels
  2   FILE is refused              E04 line 7
  4   more states than --states    limit reached
  5   out of memory
  6   a file failed                cannot read PATH, or cannot write PATH
  64  the words are none of these";

/// Help for `check`.
pub const CHECK: &str =
    "Reads FILE, a program text, and CERT, a certificate, and trusts neither. Writes no file.

Example:
  tsoq check queues/vyukov_weak.tso vyukov_weak.cert

Status:
  0   every run is good            accepted
  2   FILE is refused              E04 line 7
  3   CERT is refused              rejected K01, or rejected K08 at record 2
  5   out of memory
  6   a file failed                cannot read PATH
  64  the words are none of these";

/// Help for `upgrade`.
pub const UPGRADE: &str =
    "Reads FILE, a program text, and CERT, a certificate, and trusts neither: it is checked first, as `tsoq check`
does. Of an accepted one it writes NEW, a certificate of version 2 with the same records, of which the table says cells
where that of version 1 says whole arrays. A certificate that has version 2 comes back as it is.

Example:
  tsoq upgrade queues/vyukov_weak.tso vyukov_weak.cert --out vyukov_weak_2.cert

Status:
  0   NEW is written               upgraded: R records
  2   FILE is refused              E04 line 7
  3   CERT is refused              rejected K01, or rejected K08 at record 2
  5   out of memory
  6   a file failed                cannot read PATH, or cannot write PATH
  64  the words are none of these";

/// Help for `replay`.
pub const REPLAY: &str =
    "Reads FILE, a program text, and TRACE, the trace of an error. It prints the labels, one a
line, then each word of memory, each thread with what is in its store buffer, and what is wrong.
With --html it writes OUT as well, one file that a browser shows without any other; with --html - the page alone.

Example:
  tsoq replay queues/vyukov.tso vyukov.trace --to 26
  tsoq replay queues/vyukov.tso vyukov.trace --source --buffers --history
  tsoq replay queues/vyukov.tso vyukov.trace --html vyukov.html

Status:
  0   replayed
  2   FILE is refused              E04 line 7
  3   TRACE is refused             T01 label 5, T02, or T03 line 4
  5   out of memory
  6   a file failed                cannot read PATH, or cannot write PATH
  64  the words are none of these";

/// Help for `survey`.
pub const SURVEY: &str =
    "Reads FILE, a program text, and searches its queue with other clients than the file's: all those of at most T
threads and N calls, of which at most P threads push and C pop, each push with a value of its own. Clients that
differ in the order of threads alone are one, and one whose threads' calls begin those of a larger one is not
searched: where all runs of the larger one are good, so are all of its. With --coverage it counts what the records of
all certificates show together, which proves nothing: lines that were never met, and where calls were cut. Without
--form it searches crossings, as with --form 3, unless certificates are written to a folder.

Example:
  tsoq survey queues/vyukov_weak.tso --threads 3 --calls 4
  tsoq survey queues/lamport_fenced.tso --calls 6 --producers 1 --consumers 1 --out certificates

Status:
  0   all runs of all clients are good   accepted: every client of at most 3 threads and 4 calls, 54 searched
  1   one is not                         violation: the smallest client that has one; where smaller ones are not
                                         decided, it says how many
  2   FILE is refused                    E04 line 7
  3   a file of --collect is refused     undecided: of 54 clients 0 at the limit, 0 missing, 1 refused
  4   nothing follows of some clients    undecided: of 54 clients 1 at the limit, 0 missing, 0 refused
  5   out of memory
  6   a file failed                      cannot read PATH, or cannot write PATH
  64  the words are none of these";

/// Help for `fences`.
pub const FENCES: &str =
    "Reads FILE, a program text, and searches its client, and then with one line changed again and again. Writes no file.

Of a client that is accepted each `mfence` is taken back to `nop`, each `xchg` whose old value nothing reads to `mov`,
and each `lock xadd` and `lock cmpxchg` of an array that no other thread writes to a load and a store: which of them the
client needs. Of one that is not accepted a `mfence` is tried behind each store, then behind two, and so on up to N:
which sets make it right. What is said holds of this client alone, and of one change at a time: of two that are not
needed one may be needed without the other. With --survey it is asked of each client that a survey searches.

Example:
  tsoq fences queues/lamport_fenced.tso
  tsoq fences queues/lamport.tso --add 3
  tsoq fences queues/lamport_fenced.tso --survey --producers 1 --consumers 1

Status:
  0   it is said what is needed    line 19: mfence: needed: violation: no order, 23 labels
      some set makes it right      line 18: mfence behind it: certificate: 118 records
  1   no set makes it right        of this client alone: no set of at most 2 fences makes it right
  2   FILE is refused              E04 line 7
  4   more states than --states    line 19: mfence: undecided: limit reached
  5   out of memory
  6   a file failed                cannot read PATH
  64  the words are none of these";

/// Help for `parse`.
pub const PARSE: &str = "Reads FILE, a program text. Writes no file.

Example:
  tsoq parse queues/lamport.tso --verbose

Status:
  0   FILE is accepted             accepted
                                   step_limit: N, how many labels a run has at most
                                   with --print its canonical text
  2   FILE is refused              E04 line 7
  5   out of memory
  6   a file failed                cannot read PATH
  64  the words are none of these";

/// Help for `explain`.
pub const EXPLAIN: &str =
    "CODE is what the program answers: E01 to E14 of a program, K01 to K12 of a certificate, T01 to T03 of a trace.
Reads no file.

Example:
  tsoq explain E14

Status:
  0   CODE is explained
  5   out of memory
  64  the words are none of these";
