//! Texts with other lines than the author's, or with more.

ghost use Rattle.std.specs.Prelude.{◌≡◌, ◌<◌, ◌≤◌, ◌++◌, ◌∷◌, [], ℕ, List, drop, length, not, take, IfNone, IfOk, IfSome, OnOk};
ghost use Rattle.std.specs.List.{flat_map, prefix_len};
ghost use Rattle.tso_fences.specs.Lines.{behind_newline, is_newline, lines_of, replaced, text_of, with_all_behind, with_behind};

use std::alloc::{AllocError, Global};
use tso_list::Seq;

// How many bytes stand before the end of the first line.
fn line_len(text: &[u8]) -> usize
    ensures within { result ≤ length text.now }
    ensures len { result ≡ prefix_len (λ b. not (is_newline b)) text.now }
{
    text.iter().take_while(|b| **b != b'\n').count()
}

// The first line, and what stands behind its newline.
fn cut(text: &[u8]) -> Option<(&[u8], &[u8])>
    ensures some { IfSome result (λ x. lines_of text.now ≡ x.0.now ∷ lines_of x.1.now) }
    ensures shorter { IfSome result (λ x. length x.1.now < length text.now) }
    ensures none { IfNone result (lines_of text.now ≡ text.now ∷ []) }
{
    let n = line_len(text);
    if n == text.len() {
        return None;
    }
    Some((&text[..n], text.split_at(n + 1).1))
}

/// The lines of a text.
///
/// Errors: where a growth was refused.
pub fn lines_of(alloc: Global, text: &[u8]) -> Result<Seq<Seq<u8>>, AllocError>
    ensures { IfOk result (λ lines. lines ≡ lines_of text.now) }
{
    let mut lines = Seq::new(alloc);
    let mut rest = text;
    while let Some((line, after)) = cut(rest) {
        lines.push(Seq::from_slice(alloc, line)?)?;
        rest = after;
    }
    lines.push(Seq::from_slice(alloc, rest)?)?;
    Ok(lines)
}

// Puts lines at the end, each behind a newline.
fn put_lines(text: &mut Vec<u8>, lines: &[Seq<u8>]) -> Result<(), AllocError>
    ensures { OnOk result (text.new.items ≡ text.old.items ++ flat_map behind_newline lines.now) }
{
    for line in lines {
        text.push(b'\n')?;
        text.extend_from_slice(line.as_slice())?;
    }
    Ok(())
}

// The text of lines in three parts.
fn text_of(
    alloc: Global,
    front: &[Seq<u8>],
    middle: &[Seq<u8>],
    back: &[Seq<u8>],
) -> Result<Vec<u8>, AllocError>
    ensures { IfOk result (λ text. text.items ≡ text_of (front.now ++ middle.now ++ back.now)) }
{
    let mut text = Vec::new(alloc);
    put_lines(&mut text, front)?;
    put_lines(&mut text, middle)?;
    put_lines(&mut text, back)?;
    if !text.is_empty() {
        let _newline = text.remove(0);
    }
    Ok(text)
}

// Puts a line behind the one with this number.
fn put_behind(lines: Seq<Seq<u8>>, number: usize, line: Seq<u8>) -> Result<Seq<Seq<u8>>, AllocError>
    ensures { IfOk result (λ more. more ≡ with_behind lines number line) }
{
    let mut lines = lines.into_vec();
    let at = number.min(lines.len());
    lines.insert(at, line)?;
    Ok(Seq::from_vec(lines))
}

// Puts the same line behind each of those with these numbers, from the last to the first.
fn put_all_behind(
    alloc: Global,
    lines: Seq<Seq<u8>>,
    numbers: &[usize],
    line: &[u8],
) -> Result<Seq<Seq<u8>>, AllocError>
    ensures { IfOk result (λ more. more ≡ with_all_behind lines numbers.now line.now) }
{
    match numbers {
        [] => Ok(lines),
        [number, others @ ..] => {
            let lines = put_all_behind(alloc, lines, others, line)?;
            put_behind(lines, *number, Seq::from_slice(alloc, line)?)
        }
    }
}

/// The text with one line more behind each of the lines with these numbers, which rise from 1 on.
///
/// Errors: where a growth was refused.
pub fn with_behind(
    alloc: Global,
    text: &[u8],
    numbers: &[usize],
    line: &[u8],
) -> Result<Vec<u8>, AllocError>
    ensures { IfOk result (λ more. more.items ≡ text_of (with_all_behind (lines_of text.now) numbers.now line.now)) }
{
    let lines = lines_of(alloc, text)?;
    let lines = put_all_behind(alloc, lines, numbers, line)?;
    text_of(alloc, lines.as_slice(), &[], &[])
}

// The first lines, so many of them.
#[tactic(auto, using(std::proofs::lemmas::List::take_min))]
fn first(lines: &[Seq<u8>], count: usize) -> &[Seq<u8>]
    ensures { result.now ≡ take count lines.now }
{
    &lines[..count.min(lines.len())]
}

// The lines behind so many.
#[tactic(auto, using(std::proofs::lemmas::List::drop_min))]
fn behind(lines: &[Seq<u8>], count: usize) -> &[Seq<u8>]
    ensures { result.now ≡ drop count lines.now }
{
    &lines[count.min(lines.len())..]
}

/// The text with others in place of the line with this number, from 1.
///
/// Errors: where a growth was refused.
pub fn replaced(
    alloc: Global,
    text: &[u8],
    number: usize,
    others: &[Seq<u8>],
) -> Result<Vec<u8>, AllocError>
    ensures { IfOk result (λ changed. changed.items ≡ text_of (replaced (lines_of text.now) number others.now)) }
{
    let lines = lines_of(alloc, text)?;
    let lines = lines.as_slice();
    let before = first(lines, number.saturating_sub(1));
    text_of(alloc, before, others, behind(lines, number))
}

/// A text is that of its lines.
pub fn texts_are_of_their_lines()
    ensures { (text : List ℕ) → text_of (lines_of text) ≡ text }
{}
