//! What is said of lines that compilers write.

use crate::narrow::{is_narrow, unsized_name};
use crate::source::text_of;
use crate::suspect::{
    dotted, is_among, is_directive, is_register, outside, register_for_array, unlocked,
};
use tso_text::{Token, TokenKind};

const IDIOM: &str =
    "docs/LANGUAGE.md has it, under \"Idioms that are refused, and what to write instead\".";

const DOT: &str = "A label is a name without a dot.";

const OUTSIDE: &str =
    "What an access names stands within its brackets, an array first: `qword ptr [tail]`, `qword ptr [buf + rdx*8]`.";

const INSTRUCTION: &str =
    "An instruction is a name and its operands, with a comma between two; a label is a name with a colon behind it.\nMemory is written `qword ptr [tail]` or `qword ptr [buf + rdx*8]`; numbers are decimal, without leading zeros, or 0x and lower\ncase digits; a comment begins with `;`.";

const REGISTER: &str =
    "A register stands where an array's name is wanted: memory begins with an array's name, as `qword ptr [buf + rdx*8]`.";

const TURNED: &str =
    "A size behind the name, as in movl, is AT&T syntax, whose first operand is the source. gcc prints inline assembler so under\n-masm=intel too. Here the first operand is the one that is written.";

const WIDE: &str =
    "The register of 64 bits does the same if its upper half is 0 before and behind.";

const STACK: &str =
    "There is no stack. Leave out what saves and restores registers; what a call keeps to itself has a register, or an array that\nno other thread uses.";

const CALLED: &str = "There are no calls of functions. Write what the function does in its place.";

const CARRIED: &str =
    "There is no sum with the carry: jump over the sum by `jae`, and add 1 more where `jb` would jump.";

const SET: &str =
    "No byte is set by a condition. In place of `sete al`: `mov rax, 1`, `je set`, `mov rax, 0`, `set:`.";

const MOVED: &str =
    "Nothing is moved by a condition. In place of `cmove rax, rcx`: `jne keep`, `mov rax, rcx`, `keep:`.";

const SIGNED: &str =
    "No jump goes by the sign alone. Behind `test rax, rax`: `cmp rax, 0` in its place, and `jl` for `js`, `jge` for `jns`.";

const FENCED: &str =
    "A locked instruction that leaves the stack as it is serves as a fence: `mfence`.";

const LOCKED: &str =
    "Of the locked instructions there are `xchg`, `lock xadd` and `lock cmpxchg`. In place of `lock inc`: `mov rcx, 1`, `lock xadd\nqword ptr [tail], rcx`; of `lock or`: a loop of a load and `lock cmpxchg`.";

const ADDRESS: &str =
    "Leave it out if it puts an address into a register: memory is named by its array, `qword ptr [buf + rdx*8]`.";

/// The bytes of the first of a line's tokens; none where it has no token.
pub fn name_of<'a>(line: &'a [u8], tokens: &[Token]) -> &'a [u8] {
    match tokens.first() {
        Some(token) => text_of(line, *token),
        None => &[],
    }
}

// Whether the page of idioms has instructions of this name.
fn is_idiom(name: &[u8]) -> bool {
    name.starts_with(b"prefetch")
        || is_among(
            name,
            "sal|shl|shr|sar|imul|neg|not|movzx|movsx|movsxd|cdqe|lfence|sfence|endbr64|cmpxchg16b",
        )
}

// Whether a register stands at this place.
fn has_register(line: &[u8], tokens: &[Token], at: usize) -> bool {
    match tokens.get(at) {
        Some(token) => is_register(text_of(line, *token)),
        None => false,
    }
}

// Whether an instruction computes in memory, or exchanges two registers: there is none here that does.
fn is_none_here(line: &[u8], tokens: &[Token]) -> bool {
    let has_memory = tokens
        .iter()
        .any(|token| matches!(token.kind, TokenKind::Open));
    match name_of(line, tokens) {
        b"add" | b"sub" | b"and" | b"or" | b"xor" | b"cmp" | b"test" | b"inc" | b"dec" =>
            has_memory,
        b"xchg" => has_register(line, tokens, 1) && has_register(line, tokens, 3),
        _ => false,
    }
}

// Whether the page of idioms has this line.
fn has_idiom(line: &[u8], tokens: &[Token]) -> bool {
    let step = unlocked(line, tokens);
    is_idiom(name_of(line, step)) || is_none_here(line, step) || has_narrow(line, tokens)
}

// Whether a register of fewer than 64 bits is named, or memory of fewer.
fn has_narrow(line: &[u8], tokens: &[Token]) -> bool {
    tokens.iter().any(|token| is_narrow(text_of(line, *token)))
}

// Whether the stack is named.
fn has_stack(line: &[u8], tokens: &[Token]) -> bool {
    tokens
        .iter()
        .any(|token| is_among(text_of(line, *token), "rsp|esp"))
}

// What is said of instructions of this name, or nothing.
fn of_name_alone(name: &[u8]) -> &'static str {
    if unsized_name(name).is_some() {
        return TURNED;
    }
    match name {
        b"push" | b"pop" | b"leave" | b"enter" => STACK,
        b"call" | b"syscall" => CALLED,
        b"adc" | b"sbb" => CARRIED,
        b"js" | b"jns" => SIGNED,
        b"lea" => ADDRESS,
        [b's', b'e', b't', ..] => SET,
        [b'c', b'm', b'o', b'v', ..] => MOVED,
        _ => "",
    }
}

// Whether an instruction with this name may stand behind `lock` in other languages, and none here.
fn is_locked_elsewhere(line: &[u8], tokens: &[Token]) -> bool {
    let is_locked = name_of(line, tokens) == b"lock".as_slice();
    is_locked
        && is_among(
            name_of(line, unlocked(line, tokens)),
            "inc|dec|add|sub|and|or|xor|not|neg|bts|btr|btc",
        )
}

// What is said of an instruction that has no form here and words of its own, or nothing.
fn own_words(line: &[u8], tokens: &[Token]) -> &'static str {
    let step = unlocked(line, tokens);
    let said = of_name_alone(name_of(line, step));
    if !said.is_empty() {
        return said;
    }
    let is_locked = is_locked_elsewhere(line, tokens);
    match (has_stack(line, tokens), is_locked) {
        (true, true) => FENCED,
        (true, false) => STACK,
        (false, true) => LOCKED,
        (false, false) => "",
    }
}

// Whether a colon ends a line of one name.
fn is_label(tokens: &[Token]) -> bool {
    match tokens {
        [_, colon] => matches!(colon.kind, TokenKind::Colon),
        _ => false,
    }
}

/// Whether a line is an instruction's or a label's, however misshapen.
pub fn is_step(line: &[u8], tokens: &[Token]) -> bool {
    is_label(tokens) || !is_directive(name_of(line, tokens))
}

// What is said of an instruction's or a label's line that has no shape.
fn of_step(line: &[u8], tokens: &[Token]) -> &'static str {
    let said = own_words(line, tokens);
    if !said.is_empty() {
        said
    } else if is_idiom(name_of(line, unlocked(line, tokens))) {
        IDIOM
    } else if is_label(tokens) || dotted(line, tokens).is_some() {
        DOT
    } else if outside(line, tokens).is_some() {
        OUTSIDE
    } else if register_for_array(line, tokens).is_some() {
        REGISTER
    } else if has_narrow(line, tokens) {
        IDIOM
    } else {
        INSTRUCTION
    }
}

/// What is said of a line that has no shape; none of one that begins with a directive.
pub fn of_shape(line: &[u8], tokens: &[Token]) -> Option<&'static str> {
    if is_step(line, tokens) {
        Some(of_step(line, tokens))
    } else {
        None
    }
}

/// What is said of an instruction with a word that is unknown, or nothing.
pub fn of_word(line: &[u8], tokens: &[Token]) -> &'static str {
    let said = own_words(line, tokens);
    if !said.is_empty() {
        said
    } else if has_idiom(line, tokens) {
        IDIOM
    } else {
        ""
    }
}

/// What is said of a reference to a name that is not there, or nothing.
pub fn of_name(line: &[u8], tokens: &[Token]) -> &'static str {
    if has_stack(line, tokens) {
        return STACK;
    }
    match register_for_array(line, tokens) {
        Some(_) => REGISTER,
        None => "",
    }
}

/// What has to be known of a line that is shown in place of this one, or nothing.
pub fn warning(line: &[u8], tokens: &[Token]) -> &'static str {
    if unsized_name(name_of(line, unlocked(line, tokens))).is_some() {
        TURNED
    } else if has_narrow(line, tokens) {
        WIDE
    } else {
        ""
    }
}
