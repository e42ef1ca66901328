//! Lines by their shapes.

ghost use Rattle.std.specs.Prelude.{◌≡◌, ◌<◌, ◌≤◌, ◌∷◌, [], length, not, IfSome, IfNone};
ghost use Rattle.std.specs.List.{prefix_len};
ghost use Rattle.tso_line.specs.declared.shape.Operands.TheVariants.{Zero};
ghost use Rattle.tso_line.specs.Lexemes.{signed_of, offset_of, cell_of, operand_of, is_comma, pieces, and_operand, operands_after, operands_of, before_bound, bound_of, unlocked_of, statement_of};

use crate::lexeme::{Lexeme, Meaning, Ranged, Span};

/// A number with its sign.
#[derive(Clone, Copy, PartialEq, Eq)]
pub struct Signed {
    pub negative: bool,
    pub magnitude: Ranged<u64>,
}

/// An index in a bracket: a word, and the number behind its star.
#[derive(Clone, Copy, PartialEq, Eq)]
pub struct Scaled {
    pub register: Meaning,
    pub scale: Ranged<u64>,
}

/// The displacement of a bracket.
#[derive(Clone, Copy, PartialEq, Eq)]
pub enum Offset {
    Absent,
    By(Signed),
}

#[derive(Clone, Copy, PartialEq, Eq)]
pub struct Cell {
    pub array: Span,
    pub index: Option<Scaled>,
    pub offset: Offset,
}

#[derive(Clone, Copy, PartialEq, Eq)]
pub enum Operand {
    Word(Span, Meaning),
    Number(Signed),
    Memory(Cell),
}

/// The operands, as far as any instruction has them.
#[derive(Clone, Copy, PartialEq, Eq)]
pub enum Operands {
    Zero,
    One(Operand),
    Two(Operand, Operand),
    More,
}

pub fn signed_of(lexemes: &[Lexeme]) -> Option<Signed>
    ensures { result ≡ signed_of lexemes.now }
{
    match lexemes {
        [Lexeme::Number(magnitude)] => Some(Signed {
            negative: false,
            magnitude: *magnitude,
        }),
        [Lexeme::Minus, Lexeme::Number(magnitude)] => Some(Signed {
            negative: true,
            magnitude: *magnitude,
        }),
        _ => None,
    }
}

// The offset before the closing bracket.
fn offset_of(lexemes: &[Lexeme]) -> Option<Offset>
    ensures { result ≡ offset_of lexemes.now }
{
    match lexemes {
        [Lexeme::Close] => Some(Offset::Absent),
        [Lexeme::Plus, Lexeme::Number(magnitude), Lexeme::Close] => Some(Offset::By(Signed {
            negative: false,
            magnitude: *magnitude,
        })),
        [Lexeme::Minus, Lexeme::Number(magnitude), Lexeme::Close] => Some(Offset::By(Signed {
            negative: true,
            magnitude: *magnitude,
        })),
        _ => None,
    }
}

// A cell, from behind the opening bracket.
fn cell_of(lexemes: &[Lexeme]) -> Option<Cell>
    ensures { result ≡ cell_of lexemes.now }
{
    match lexemes {
        [
            Lexeme::Word(array, _),
            Lexeme::Plus,
            Lexeme::Word(_, register),
            Lexeme::Star,
            Lexeme::Number(scale),
            rest @ ..,
        ] => Some(Cell {
            array: *array,
            index: Some(Scaled {
                register: *register,
                scale: *scale,
            }),
            offset: offset_of(rest)?,
        }),
        [Lexeme::Word(array, _), rest @ ..] => Some(Cell {
            array: *array,
            index: None,
            offset: offset_of(rest)?,
        }),
        _ => None,
    }
}

fn operand_of(lexemes: &[Lexeme]) -> Option<Operand>
    ensures { result ≡ operand_of lexemes.now }
{
    match lexemes {
        [Lexeme::Word(span, meaning)] => Some(Operand::Word(*span, *meaning)),
        [
            Lexeme::Word(_, Meaning::Qword),
            Lexeme::Word(_, Meaning::Ptr),
            Lexeme::Open,
            rest @ ..,
        ] => Some(Operand::Memory(cell_of(rest)?)),
        _ => Some(Operand::Number(signed_of(lexemes)?)),
    }
}

// How many lexemes stand before the first comma.
fn before_comma(lexemes: &[Lexeme]) -> usize
    ensures within { result ≤ length lexemes.now }
    ensures len { result ≡ prefix_len (λ l. not (is_comma l)) lexemes.now }
{
    lexemes
        .iter()
        .take_while(|l| !matches!(l, Lexeme::Comma))
        .count()
}

// What stands before the first comma, and what behind it.
pub fn cut(lexemes: &[Lexeme]) -> Option<(&[Lexeme], &[Lexeme])>
    ensures some { IfSome result (λ x. (pieces lexemes.now ≡ x.0.now ∷ pieces x.1.now) × (length x.1.now < length lexemes.now)) }
    ensures none { IfNone result (pieces lexemes.now ≡ lexemes.now ∷ []) }
{
    let n = before_comma(lexemes);
    if n == lexemes.len() {
        return None;
    }
    Some((&lexemes[..n], lexemes.split_at(n + 1).1))
}

impl Operands {
    // One more operand.
    fn and(self, operand: Operand) -> Operands
        ensures { result ≡ and_operand self operand }
    {
        match self {
            Operands::Zero => Operands::One(operand),
            Operands::One(first) => Operands::Two(first, operand),
            Operands::Two(..) | Operands::More => Operands::More,
        }
    }
}

// The operands between commas, at least one.
fn some_operands(lexemes: &[Lexeme]) -> Option<Operands>
    ensures { result ≡ operands_after Zero (pieces lexemes.now) }
{
    let mut operands = Operands::Zero;
    let mut rest = lexemes;
    while let Some((piece, after)) = cut(rest) {
        operands = operands.and(operand_of(piece)?);
        rest = after;
    }
    Some(operands.and(operand_of(rest)?))
}

fn operands_of(lexemes: &[Lexeme]) -> Option<Operands>
    ensures { result ≡ operands_of lexemes.now }
{
    match lexemes {
        [] => Some(Operands::Zero),
        _ => some_operands(lexemes),
    }
}

/// What stands before the bound of a jump at the end of a line, and the bound, if there is one.
fn without_bound(lexemes: &[Lexeme]) -> (&[Lexeme], Option<Ranged<u64>>)
    ensures front { result.0.now ≡ before_bound lexemes.now }
    ensures bound { result.1 ≡ bound_of lexemes.now }
{
    let (front, back) = lexemes.split_at(lexemes.len().saturating_sub(2));
    match back {
        [Lexeme::Word(_, Meaning::Bound), Lexeme::Number(bound)] => (front, Some(*bound)),
        _ => (lexemes, None),
    }
}

/// An instruction by its shape.
#[derive(Clone, Copy, PartialEq, Eq)]
pub struct Statement {
    pub lock: bool,
    pub mnemonic: Meaning,
    pub operands: Operands,
    pub bound: Option<Ranged<u64>>,
}

fn unlocked_of(lock: bool, lexemes: &[Lexeme]) -> Option<Statement>
    ensures { result ≡ unlocked_of lock lexemes.now }
{
    match lexemes {
        [Lexeme::Word(_, mnemonic), rest @ ..] => {
            let (rest, bound) = without_bound(rest);
            Some(Statement {
                lock,
                mnemonic: *mnemonic,
                operands: operands_of(rest)?,
                bound,
            })
        }
        _ => None,
    }
}

// A first word `lock` is the prefix where an instruction follows it.
pub fn statement_of(lexemes: &[Lexeme]) -> Option<Statement>
    ensures { result ≡ statement_of lexemes.now }
{
    if let [Lexeme::Word(_, Meaning::Lock), rest @ ..] = lexemes {
        if let Some(statement) = unlocked_of(true, rest) {
            return Some(statement);
        }
    }
    unlocked_of(false, lexemes)
}
