//! Tokens by their text.

ghost use Rattle.std.specs.Prelude.{◌≡◌, ℕ, ◌≤◌, ◌<◌, List, length, IsTrue};
ghost use Rattle.tso_line.specs.Proper.{is_letter, goes_on, is_name};
ghost use Rattle.std.specs.List.{list_all};
ghost use Rattle.tso_line.specs.Words.{register_named, operation_named, comparison_named, locked_named, single_named, mnemonic_named, jump_named, condition_named, other_named, meaning_of, word_of_text, directive_named, decimal_of, hex_of, behind_zero, number_of, lexeme_of, has_name};
ghost use Rattle.tso_line.specs.Forms.{text_at};

use crate::form::text_at;
use crate::instruction::{Comparison, LockedOperation, Operation, Register};
use crate::lexeme::{Directive, Lexeme, Meaning, Mnemonic, Ranged, Span};
use crate::vocabulary::{
    COMPARISONS, CONDITIONS, LOCKED_OPERATIONS, OPERATIONS, REGISTERS, comparison_word,
    condition_word, locked_word, operation_word, register_word,
};
use tso_text::{Token, TokenKind};
use tso_word::Condition;

#[tactic(auto, unfolding(crate::specs::Words::register_named))]
fn register_named(text: &[u8]) -> Option<Register>
    ensures { result ≡ register_named text.now }
{
    REGISTERS
        .iter()
        .copied()
        .find(|register| text == register_word(*register).as_bytes())
}

#[tactic(auto, unfolding(crate::specs::Words::condition_named))]
fn condition_named(text: &[u8]) -> Option<Condition>
    ensures { result ≡ condition_named text.now }
{
    CONDITIONS
        .iter()
        .copied()
        .find(|condition| text == condition_word(*condition).as_bytes())
}

// A `j` before a condition.
fn jump_named(text: &[u8]) -> Option<Mnemonic>
    ensures { result ≡ jump_named text.now }
{
    match text {
        [b'j', condition @ ..] => Some(Mnemonic::Jump(Some(condition_named(condition)?))),
        _ => None,
    }
}

#[tactic(auto, unfolding(crate::specs::Words::operation_named))]
fn operation_named(text: &[u8]) -> Option<Operation>
    ensures { result ≡ operation_named text.now }
{
    OPERATIONS
        .iter()
        .copied()
        .find(|operation| text == operation_word(*operation).as_bytes())
}

#[tactic(auto, unfolding(crate::specs::Words::comparison_named))]
fn comparison_named(text: &[u8]) -> Option<Comparison>
    ensures { result ≡ comparison_named text.now }
{
    COMPARISONS.iter().copied().find(|comparison| text == comparison_word(*comparison).as_bytes())
}

#[tactic(auto, unfolding(crate::specs::Words::locked_named))]
fn locked_named(text: &[u8]) -> Option<LockedOperation>
    ensures { result ≡ locked_named text.now }
{
    LOCKED_OPERATIONS
        .iter()
        .copied()
        .find(|operation| text == locked_word(*operation).as_bytes())
}

#[tactic(auto, unfolding(crate::specs::Words::single_named))]
fn single_named(text: &[u8]) -> Option<Mnemonic>
    ensures { result ≡ single_named text.now }
{
    if text == b"mov".as_slice() {
        Some(Mnemonic::Mov)
    } else if text == b"inc".as_slice() {
        Some(Mnemonic::Increment)
    } else if text == b"dec".as_slice() {
        Some(Mnemonic::Decrement)
    } else if text == b"jmp".as_slice() {
        Some(Mnemonic::Jump(None))
    } else if text == b"assert".as_slice() {
        Some(Mnemonic::Assert)
    } else if text == b"mfence".as_slice() {
        Some(Mnemonic::Fence)
    } else if text == b"nop".as_slice() {
        Some(Mnemonic::Nop)
    } else if text == b"pause".as_slice() {
        Some(Mnemonic::Pause)
    } else if text == b"ret".as_slice() {
        Some(Mnemonic::Return)
    } else {
        None
    }
}

#[tactic(auto, unfolding(crate::specs::Words::mnemonic_named))]
fn mnemonic_named(text: &[u8]) -> Option<Mnemonic>
    ensures { result ≡ mnemonic_named text.now }
{
    if let Some(operation) = operation_named(text) {
        Some(Mnemonic::Compute(operation))
    } else if let Some(comparison) = comparison_named(text) {
        Some(Mnemonic::Compare(comparison))
    } else if let Some(operation) = locked_named(text) {
        Some(Mnemonic::Locked(operation))
    } else if let Some(mnemonic) = single_named(text) {
        Some(mnemonic)
    } else {
        jump_named(text)
    }
}

#[tactic(auto, unfolding(crate::specs::Words::other_named))]
fn other_named(text: &[u8]) -> Meaning
    ensures { result ≡ other_named text.now }
{
    if text == b"lock".as_slice() {
        Meaning::Lock
    } else if text == b"bound".as_slice() {
        Meaning::Bound
    } else if text == b"qword".as_slice() {
        Meaning::Qword
    } else if text == b"ptr".as_slice() {
        Meaning::Ptr
    } else if text == b"strict".as_slice() {
        Meaning::Strict
    } else if text == b"weak".as_slice() {
        Meaning::Weak
    } else if text == b"push".as_slice() {
        Meaning::Push
    } else if text == b"pop".as_slice() {
        Meaning::Pop
    } else {
        Meaning::Plain
    }
}

#[tactic(auto, unfolding(crate::specs::Words::meaning_of))]
fn meaning_of(text: &[u8]) -> Meaning
    ensures { result ≡ meaning_of text.now }
{
    if let Some(register) = register_named(text) {
        Meaning::Register(register)
    } else if let Some(mnemonic) = mnemonic_named(text) {
        Meaning::Mnemonic(mnemonic)
    } else if let Some(condition) = condition_named(text) {
        Meaning::Condition(condition)
    } else {
        other_named(text)
    }
}

#[tactic(auto, unfolding(crate::specs::Words::directive_named))]
fn directive_named(text: &[u8]) -> Lexeme
    ensures exact { result ≡ directive_named text.now }
    ensures named { (source : List ℕ) → IsTrue (has_name source result) }
{
    if text == b"capacity".as_slice() {
        Lexeme::Directive(Directive::Capacity)
    } else if text == b"mode".as_slice() {
        Lexeme::Directive(Directive::Mode)
    } else if text == b"array".as_slice() {
        Lexeme::Directive(Directive::Array)
    } else if text == b"push".as_slice() {
        Lexeme::Directive(Directive::Push)
    } else if text == b"pop".as_slice() {
        Lexeme::Directive(Directive::Pop)
    } else if text == b"end".as_slice() {
        Lexeme::Directive(Directive::End)
    } else if text == b"before".as_slice() {
        Lexeme::Directive(Directive::Before)
    } else if text == b"thread".as_slice() {
        Lexeme::Directive(Directive::Thread)
    } else {
        Lexeme::Other
    }
}

fn is_letter(byte: u8) -> bool
    ensures { result ≡ is_letter byte }
{
    byte.is_ascii_alphabetic() || byte == b'_'
}

fn goes_on(bytes: &[u8]) -> bool
    ensures { result ≡ list_all goes_on bytes.now }
{
    bytes.iter().all(|b| is_letter(*b) || b.is_ascii_digit())
}

#[tactic(auto, unfolding(crate::specs::Proper::is_name))]
fn is_name(text: &[u8]) -> bool
    ensures { result ≡ is_name text.now }
{
    match text {
        [first, rest @ ..] => is_letter(*first) && goes_on(rest),
        _ => false,
    }
}

#[tactic(auto, unfolding(crate::specs::Words::word_of_text))]
fn word_of_text(span: Span, text: &[u8]) -> Lexeme
    ensures exact { result ≡ word_of_text span text.now }
    ensures named { (source : List ℕ) → text.now ≡ text_at source span → IsTrue (has_name source result) }
{
    match text {
        [b'.', directive @ ..] => directive_named(directive),
        _ if is_name(text) => Lexeme::Word(span, meaning_of(text)),
        _ => Lexeme::Other,
    }
}

// The number of these decimal digits, if they are such, up to 2^64 - 1.
#[tactic(auto, unfolding(crate::specs::Words::decimal_of))]
fn decimal_of(digits: &[u8]) -> Option<Ranged<u64>>
    ensures { result ≡ decimal_of digits.now }
{
    let mut value = Ranged::Within(0u64);
    for digit in digits {
        if !digit.is_ascii_digit() {
            return None;
        }
        let digit = u64::from(*digit - b'0');
        value = match value {
            Ranged::Within(value) if value <= (u64::MAX - digit) / 10 => {
                Ranged::Within(value * 10 + digit)
            }
            _ => Ranged::OutOfRange,
        };
    }
    Some(value)
}

// The number of 1 to 16 lower case hexadecimal digits.
#[tactic(auto, unfolding(crate::specs::Words::hex_of))]
fn hex_of(digits: &[u8]) -> Option<u64>
    ensures { result ≡ hex_of digits.now }
{
    if digits.is_empty() || digits.len() > 16 {
        return None;
    }
    let mut value = 0u64;
    for digit in digits {
        let digit = match digit {
            b'0'..=b'9' => digit - b'0',
            b'a'..=b'f' => digit - b'a' + 10,
            _ => return None,
        };
        value = value * 16 + u64::from(digit);
    }
    Some(value)
}

// A number that begins with 0, from behind it.
fn behind_zero(rest: &[u8]) -> Lexeme
    ensures exact { result ≡ behind_zero rest.now }
    ensures named { (source : List ℕ) → IsTrue (has_name source result) }
{
    match rest {
        [] => Lexeme::Number(Ranged::Within(0)),
        [b'x', digits @ ..] => match hex_of(digits) {
            Some(value) => Lexeme::Number(Ranged::Within(value)),
            None => Lexeme::Other,
        },
        _ => Lexeme::Other,
    }
}

#[tactic(auto, unfolding(crate::specs::Words::number_of))]
fn number_of(text: &[u8]) -> Lexeme
    ensures exact { result ≡ number_of text.now }
    ensures named { (source : List ℕ) → IsTrue (has_name source result) }
{
    match text {
        [b'0', rest @ ..] => behind_zero(rest),
        _ => match decimal_of(text) {
            Some(value) => Lexeme::Number(value),
            None => Lexeme::Other,
        },
    }
}

/// What a token of the source is.
pub fn lexeme_of(source: &[u8], token: Token) -> Lexeme
    ensures exact { result ≡ lexeme_of source.now token }
    ensures named { IsTrue (has_name source.now result) }
{
    let span = Span {
        start: token.start,
        end: token.end,
    };
    match token.kind {
        TokenKind::Word => word_of_text(span, text_at(source, span)),
        TokenKind::Number => number_of(text_at(source, span)),
        TokenKind::Colon => Lexeme::Colon,
        TokenKind::Comma => Lexeme::Comma,
        TokenKind::Open => Lexeme::Open,
        TokenKind::Close => Lexeme::Close,
        TokenKind::Plus => Lexeme::Plus,
        TokenKind::Minus => Lexeme::Minus,
        TokenKind::Star => Lexeme::Star,
        TokenKind::Equals => Lexeme::Equals,
        TokenKind::Newline | TokenKind::Other => Lexeme::Other,
    }
}
