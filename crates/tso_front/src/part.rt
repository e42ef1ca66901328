//! Parts of a program text.

ghost use Rattle.std.specs.Prelude.{◌≡◌, drop};
ghost use Rattle.tso_front.specs.Replaced.{begins, ends_word, is_word_byte, part_of};

/// Which part of a text a line is, as far as another can stand in its place.
#[derive(Clone, Copy, PartialEq, Eq)]
pub(crate) enum Part {
    Mode,
    Before,
    Thread,
    Other,
}

fn is_word_byte(byte: u8) -> bool
    ensures { result ≡ is_word_byte byte }
{
    byte.is_ascii_alphanumeric() || byte == b'_'
}

// Whether a word ends at this place of a line.
fn ends_word(line: &[u8], at: usize) -> bool
    ensures { result ≡ ends_word (drop at line.now) }
{
    match line.get(at) {
        Some(byte) => !is_word_byte(*byte),
        None => true,
    }
}

// Whether a line begins with this word.
fn begins(line: &[u8], word: &[u8]) -> bool
    ensures { result ≡ begins word.now line.now }
{
    let line = line.trim_ascii_start();
    line.starts_with(word) && ends_word(line, word.len())
}

/// The part that a line is.
pub(crate) fn part_of(line: &[u8]) -> Part
    ensures { result ≡ part_of line.now }
{
    if begins(line, b".mode") {
        Part::Mode
    } else if begins(line, b".before") {
        Part::Before
    } else if begins(line, b".thread") {
        Part::Thread
    } else {
        Part::Other
    }
}
