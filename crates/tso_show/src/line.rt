//! The lines of a text.

ghost use Rattle.std.specs.Prelude.{◌≡◌, position};
ghost use Rattle.tso_show.specs.Lines.{behind, before, behind_line, behind_lines, first_line, is_newline, line_text};

fn newline_at(text: &[u8]) -> Option<usize>
    ensures { result ≡ position is_newline text.now }
{
    text.iter().position(|byte| *byte == b'\n')
}

// What stands before the first newline.
fn first_line(text: &[u8]) -> &[u8]
    ensures { result.now ≡ first_line text.now }
{
    match newline_at(text) {
        Some(end) => &text[..end],
        None => text,
    }
}

// What stands behind the first newline.
fn behind_line(text: &[u8]) -> &[u8]
    ensures { result.now ≡ behind_line text.now }
{
    match newline_at(text) {
        Some(end) => &text[end + 1..],
        None => &[],
    }
}

/// The line of this number, from 1, without its newline. There is nothing in it where the text has fewer lines.
pub fn line_text(text: &[u8], number: usize) -> &[u8]
    ensures { result.now ≡ line_text number text.now }
{
    let mut rest = text;
    for _done in 0..number.saturating_sub(1) {
        rest = behind_line(rest);
    }
    first_line(rest)
}
