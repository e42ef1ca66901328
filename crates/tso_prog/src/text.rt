//! A text as a program.

ghost use Rattle.std.specs.Prelude.{◌≡◌, ◌<◌, ◌≤◌, ◌∷◌, [], length, map, not, IfOk, IfSome, IfNone, IsTrue};
ghost use Rattle.std.specs.List.{prefix_len, list_all};
ghost use Rattle.tso_line.specs.Lexemes.{split_by};
ghost use Rattle.tso_line.specs.Words.{lexeme_of, has_name};
ghost use Rattle.tso_prog.specs.Content.{content};
ghost use Rattle.tso_prog.specs.Start.{start};
ghost use Rattle.tso_prog.specs.Limited.{IsLimited, IsPrintable};
ghost use Rattle.tso_prog.specs.Program.{Gives, ReadsLines, IsFirstFault, IsRefused, read_from, ends_line, numbered, lines_of};
ghost use Rattle.tso_prog.specs.declared.fault.Fault.{Fault};
ghost use Rattle.tso_text.specs.Lexing.{tokens_of};
ghost use Rattle.tso_prog.specs.Parts.{HasParts, HasLines};
ghost use Rattle.tso_prog.specs.Text.{program_of};
ghost use Rattle.tso_prog.specs.Refusals.{FirstOf, AnswersFirst};
ghost use Rattle.tso_prog.specs.Client.{client};

use crate::client::Client;
use crate::draft::Draft;
use crate::fault::{Fault, ReadError};
use std::alloc::{AllocError, Global};
use tso_line::{Lexeme, lexeme_of, line_of};
use tso_text::{Token, TokenKind, lex};

// How many tokens stand before the end of the line.
fn before_newline(tokens: &[Token]) -> usize
    ensures within { result ≤ length tokens.now }
    ensures len { result ≡ prefix_len (λ t. not (ends_line t)) tokens.now }
{
    tokens
        .iter()
        .take_while(|t| !matches!(t.kind, TokenKind::Newline))
        .count()
}

// A line's tokens, and those behind its newline.
fn cut_line(tokens: &[Token]) -> Option<(&[Token], &[Token])>
    ensures some { IfSome result (λ x. (split_by ends_line tokens.now ≡ x.0.now ∷ split_by ends_line x.1.now) × (length x.1.now < length tokens.now)) }
    ensures none { IfNone result (split_by ends_line tokens.now ≡ tokens.now ∷ []) }
{
    let n = before_newline(tokens);
    if n == tokens.len() {
        return None;
    }
    Some((&tokens[..n], tokens.split_at(n + 1).1))
}

fn lexemes_of(alloc: Global, source: &[u8], tokens: &[Token]) -> Result<Vec<Lexeme>, AllocError>
    ensures named { IfOk result (λ v. IsTrue (list_all (has_name source.now) v.items)) }
    ensures exact { IfOk result (λ v. v.items ≡ map (lexeme_of source.now) tokens.now) }
{
    let mut lexemes = Vec::new(alloc);
    for token in tokens {
        lexemes.push(lexeme_of(source, *token))?;
    }
    Ok(lexemes)
}

// Adds the line of these tokens, if there are any.
#[tactic(auto, unfolding(crate::specs::Program::read_from))]
fn add_line<'a>(
    alloc: Global,
    draft: &mut Draft<'a>,
    source: &'a [u8],
    tokens: &[Token],
) -> Result<(), ReadError>
    requires limited { IsLimited (content draft.old) }
    requires printable { IsPrintable (content draft.old) }
    ensures limited { IfOk result (λ _. IsLimited (content draft.new)) }
    ensures printable { IfOk result (λ _. IsPrintable (content draft.new)) }
    ensures exact { Gives (λ _. content draft.new) result (read_from (content draft.old) (numbered source.now tokens.now)) }
{
    let Some((first, _)) = tokens.split_first() else {
        return Ok(());
    };
    let number = first.line;
    let lexemes = lexemes_of(alloc, source, tokens)?;
    let line = line_of(alloc, source, &lexemes)?;
    if let Some(code) = draft.fault(&line) {
        return Err(ReadError::Refused(Fault { code, line: number }));
    }
    draft.take(number, line)?;
    Ok(())
}

fn each_line<'a>(alloc: Global, source: &'a [u8], tokens: &[Token]) -> Result<Draft<'a>, ReadError>
    ensures limited { IfOk result (λ d. IsLimited (content d)) }
    ensures printable { IfOk result (λ d. IsPrintable (content d)) }
    ensures exact { Gives content result (read_from start (lines_of source.now tokens.now)) }
{
    let mut draft = Draft::new(alloc);
    let mut rest = tokens;
    while let Some((line, after)) = cut_line(rest) {
        add_line(alloc, &mut draft, source, line)?;
        rest = after;
    }
    add_line(alloc, &mut draft, source, rest)?;
    Ok(draft)
}

/// What the lines of a text say, or the first fault among them.
pub fn read_lines<'a>(
    alloc: Global,
    source: &'a [u8],
    tokens: &[Token],
) -> Result<Draft<'a>, ReadError>
    ensures limited { IfOk result (λ d. IsLimited (content d)) }
    ensures printable { IfOk result (λ d. IsPrintable (content d)) }
    ensures exact { Gives content result (read_from start (lines_of source.now tokens.now)) }
    ensures first { ReadsLines content result start (lines_of source.now tokens.now) }
    ensures only { (f : Fault) → IsFirstFault start (lines_of source.now tokens.now) f → IsRefused result f }
{
    each_line(alloc, source, tokens)
}

#[tactic(auto, unfolding(crate::specs::Text::program_of))]
fn read_all(alloc: Global, source: &[u8]) -> Result<Client, ReadError>
    ensures exact { Gives client result (program_of source.now) }
    ensures lines { IfOk result (λ c. HasLines (lines_of source.now (tokens_of source.now)) c.push.lines c.pop.lines) }
{
    let tokens = lex(alloc, source)?;
    let draft = read_lines(alloc, source, &tokens)?;
    draft.finish(alloc)
}

/// The client that a text denotes, or its first fault.
///
/// A text has at most 65,536 bytes, and lines count from 1. Of a longer text `E01` is refused, with line 0; then the
/// earliest byte that may not stand in a text, as `E02`; then the earliest line that has a fault `E03` to `E07`, `E09`
/// or `E10`, with the lowest of its codes; then a text that ends too soon, as `E08` with line 0; then the earliest
/// jump to a label that its procedure lacks, as `E07`. `Memory` is answered only where a growth was refused.
pub fn read(alloc: Global, source: &[u8]) -> Result<Client, ReadError>
    ensures exact { Gives client result (program_of source.now) }
    ensures parts { IfOk result (λ c. HasParts (lines_of source.now (tokens_of source.now)) (client c)) }
    ensures lines { IfOk result (λ c. HasLines (lines_of source.now (tokens_of source.now)) c.push.lines c.pop.lines) }
    ensures first { AnswersFirst result source.now }
    ensures only { (f : Fault) → FirstOf source.now f → IsRefused result f }
{
    read_all(alloc, source)
}
