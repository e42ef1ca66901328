//! Texts from files as text of a page.

ghost use Rattle.std.specs.Prelude.{◌≡◌, ◌++◌, codes, MatchOption, OnOk, Some, None};
ghost use Rattle.std.specs.List.{filter};
ghost use Rattle.tso_page.specs.Data.{is_data};
ghost use Rattle.tso_page.specs.Escapes.{code_of, escaped, escaped_byte};

use std::alloc::AllocError;

// What stands for a byte that HTML reads as markup.
fn code_of(byte: u8) -> Option<&'static str>
    ensures { MatchOption result (code_of byte ≡ None) (λ code. code_of byte ≡ Some code.now) }
{
    match byte {
        b'"' => Some("&#34;"),
        b'&' => Some("&#38;"),
        b'\'' => Some("&#39;"),
        b'<' => Some("&#60;"),
        b'>' => Some("&#62;"),
        _ => None,
    }
}

fn push_byte(page: &mut Vec<u8>, byte: u8) -> Result<(), AllocError>
    ensures { OnOk result (page.new.items ≡ page.old.items ++ escaped_byte byte) }
{
    match code_of(byte) {
        Some(code) => {
            page.extend_from_slice(code.as_bytes())?;
            Ok(())
        }
        None => {
            page.push(byte)?;
            Ok(())
        }
    }
}

/// Adds a text as it is to be read: each `"`, `&`, `'`, `<` and `>` of it as the number of its character, as `&#60;`. So
/// nothing of it is markup, between tags and in an attribute's quotes.
///
/// Errors: where a growth was refused.
#[tactic(auto, using(crate::proofs::Joins::joins))]
pub fn push_escaped(page: &mut Vec<u8>, text: &[u8]) -> Result<(), AllocError>
    ensures { OnOk result (page.new.items ≡ page.old.items ++ escaped text.now) }
{
    for byte in text {
        push_byte(page, *byte)?;
    }
    Ok(())
}

// Whether data has such a byte: letters, digits, spaces, ends of lines, and the signs of arrays and texts.
fn is_data(byte: u8) -> bool
    ensures { result ≡ is_data byte }
{
    byte.is_ascii_digit()
        || byte.is_ascii_lowercase()
        || matches!(byte, b'\n' | b' ' | b'"' | b',' | b'=' | b'[' | b']')
}

/// Adds data of a script element: of these bytes only letters, digits, spaces, ends of lines and `[`, `]`, `,`, `"` and `=`,
/// none of which ends the element.
///
/// Errors: where a growth was refused.
#[tactic(auto, using(crate::proofs::Joins::joins))]
pub fn push_data(page: &mut Vec<u8>, data: &[u8]) -> Result<(), AllocError>
    ensures { OnOk result (page.new.items ≡ page.old.items ++ filter is_data data.now) }
{
    for byte in data {
        if is_data(*byte) {
            page.push(*byte)?;
        }
    }
    Ok(())
}
