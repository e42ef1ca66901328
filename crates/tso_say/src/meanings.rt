//! What each code means.

// ---- programs

pub const E01: &str =
    "The program text is too long: it has more than 65,536 bytes, comments included.";

pub const E02: &str =
    "A byte of the line may not stand in a program text, not even in a comment. Printable ASCII, tabs and newlines
may; letters with accents, typographic quotes and the carriage returns of other systems may not.";

pub const E03: &str =
    "The line is none of the lines that a program text can have here: a piece of it is missing or one too many, a
number is misspelled (decimal without leading zeros, or 0x and lower case digits), it stands outside its part of the text
(first .capacity and .mode, then .array lines, .push to .end, .pop to .end, perhaps .before, and .thread lines), or an array
has not as many values as words. Memory is written `qword ptr [tail]` or `qword ptr [buf + rdx*8]`, and a comment begins with
`;`.";

pub const E04: &str =
    "A word is no instruction, register or condition of the language, or the instruction does not take these operands:
registers have 64 bits (rax, not eax), of the instructions that compute none reads or writes memory, an index has the scale 8,
and `lock` and `bound` stand only where they mean something.";

pub const E05: &str =
    "A number is out of its range, or a displacement is no multiple of 8: memory consists of words of 8 bytes.";

pub const E06: &str = "Two arrays have the same name, or two labels of one procedure.";

pub const E07: &str =
    "No array, or no label of this procedure, has the name that the line refers to.";

pub const E08: &str =
    "The text ends before all of its parts are there: .capacity, .mode, .push to .end, .pop to .end and a .thread line.";

pub const E09: &str =
    "A limit is passed: 16 arrays, 256 words in all of them, 256 instructions in push and pop together, 4 threads,
4 calls on one line, 12 calls in all, 32 bytes in a name.";

pub const E10: &str =
    "`cmpxchg` and `xadd` lack `lock`: without it the processor may let another thread in between their read and their
write. `xchg` with memory locks by itself.";

pub const E11: &str =
    "Control can run on past the last instruction of the procedure: a `ret` is missing.";

pub const E12: &str =
    "A jump back has no bound. Runs have to end, so each jump to its own instruction or to one before it says how
often it may be taken in one call, as `jne retry bound 2`. A call that would take it once more is cut there, and never
returns.";

pub const E13: &str =
    "A jump forward has a bound. Only a jump back needs one, and only there it means something.";

pub const E14: &str =
    "On some path the instruction reads a register or a flag that nothing has written before. A call begins with
nothing written but RDI of a push, its argument. `ret` reads RAX, and in a pop RDX too, also where the pop is refused; `xor
rax, rax` reads RAX.";

// ---- certificates

pub const K01: &str =
    "The bytes are no certificate: they stop being the beginning of one, end too soon, or go on after its end. The
file is damaged, or it is another kind of file.";

pub const K02: &str =
    "The bytes pass a limit: 4,194,304 records in all, 64 in a leaf, 64 forks one inside another.";

pub const K03: &str =
    "The states of the records do not rise strictly from left to right, or a fork's state does not stand between its
two halves, so that a look-up could miss a record.";

pub const K04: &str =
    "The table of what may still be read or written is not closed for this program: an instruction's entry
lacks what it, or one that control can go on to, reads or writes; or, where it has intervals, one lacks a word that a
register may hold there. The certificate is of another program, or damaged.";

pub const K05: &str =
    "The state of the record is not well-formed: it has a part that no state of this program has, as another count of
words or threads, a position outside its procedure, or calls that do not fit what its threads are doing.";

pub const K06: &str =
    "The record ends in the wrong way: some thread or store buffer has a step, and the record lacks a rising list
of actors that each have one, or, of crossings, is none; or nothing has a step, and the record has no order of the calls.";

pub const K07: &str =
    "A chosen actor lacks a reason why the other threads can wait, has one too many, or has one that does not hold.";

pub const K08: &str =
    "The state after a chosen actor's step has no record, so the certificate leaves runs out. Of crossings: the state in
which the run behind an actor's move stops.";

pub const K09: &str =
    "The initial state has no record. Of crossings: the state in which the run from it stops.";

pub const K10: &str =
    "A run ends in this state with a thread that was stopped by a fault: an access outside its array, a false
assertion, or an answer that is neither 0 nor 1. The program is wrong, and no certificate can be right.";

pub const K11: &str =
    "A run ends in this state, and the order that the record gives does not explain the answers of its calls:
it lacks a call that returned, puts a call before one that had returned when it was called, or gives an answer that the queue
would not.";

pub const K12: &str =
    "A register of a running thread holds a word outside of the interval that the table gives it at the thread's
position, so what the table says of the cells that may still be read or written does not hold for this state. Only
certificates of version 2, and those of crossings, have intervals.";

// ---- traces

pub const T01: &str =
    "The label of this number is no step of the program after the labels before it: the machine has no such step, or has
one with another word.";

pub const T02: &str =
    "Every label is a step, no thread faults, and the calls and answers have an order that the queue allows. So the run
is good, and shows no error.";

pub const T03: &str =
    "The line is not of the grammar of traces: the first line is `tso-trace 1`, each further one a label as `replay`
prints it without its number, with single spaces and nothing else, and each ends with a newline, the last one too.";
