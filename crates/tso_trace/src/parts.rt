//! Parts of a line: words, and decimal numbers.

ghost use Rattle.std.specs.Prelude.{false, ◌≡◌, ◌≢◌, ◌↔◌, ◌<◌, ◌≤◌, ◌^◌, ◌++◌, ◌∷◌, ℕ, List, length, slice_index, decimal, IfSome, IfNone, IsTrue, MatchOption};
ghost use Rattle.std.specs.Char.{is_ascii_digit};
ghost use Rattle.tso_text.specs.Bytes.{digit_0, plus};
ghost use Rattle.tso_trace.specs.Parts.{lacks, HasNoNumberBefore, Is64, IsNumberBefore, Tells};

/// What stands behind a word with which the text begins.
pub fn behind<'a>(text: &'a [u8], word: &[u8]) -> Option<&'a [u8]>
    ensures { MatchOption result ((rest : List ℕ) → text.now ≢ word.now ++ rest) (λ rest. text.now ≡ word.now ++ rest.now) }
{
    text.strip_prefix(word)
}

/// What stands before the first byte of this value, and what stands behind it.
pub fn cut(text: &[u8], byte: u8) -> Option<(&[u8], &[u8])>
    ensures parts { IfSome result (λ parts. text.now ≡ parts.0.now ++ byte ∷ parts.1.now) }
    ensures first { IfSome result (λ parts. IsTrue (lacks byte parts.0.now)) }
    ensures none { IfNone result (IsTrue (lacks byte text.now)) }
{
    for (end, b) in text.iter().enumerate() {
        if *b == byte {
            return Some((&text[..end], &text[end + 1..]));
        }
    }
    None
}

// Whether no sign and no needless zero stands first.
fn is_plain(text: &[u8]) -> bool
    ensures { IsTrue result ↔ ((slice_index text.now 0 ≢ plus) × (slice_index text.now 0 ≡ digit_0 → length text.now ≤ 1)) }
{
    !matches!(text, [b'0', _, ..] | [b'+', ..])
}

/// The number that is written so, in decimal digits without leading zeros.
pub fn number(text: &[u8]) -> Option<u64>
    ensures { Tells Is64 decimal text.now result }
{
    if !is_plain(text) {
        return None;
    }
    match std::str::from_utf8(text) {
        Ok(digits) => match digits.parse::<u64>() {
            Ok(number) => Some(number),
            Err(_) => None,
        },
        Err(_) => None,
    }
}

/// The number before the first byte of this value, which is no digit, and what stands behind that byte.
pub fn number_before(text: &[u8], byte: u8) -> Option<(u64, &[u8])>
    requires { is_ascii_digit byte ≡ false }
    ensures { MatchOption result (HasNoNumberBefore text.now byte) (λ r. IsNumberBefore text.now byte r.0 r.1.now) }
{
    let (digits, rest) = cut(text, byte)?;
    let number = number(digits)?;
    Some((number, rest))
}

/// The number behind a word with which the text begins.
pub fn number_behind(text: &[u8], word: &[u8]) -> Option<u64>
    ensures { Tells Is64 (λ n. word.now ++ decimal n) text.now result }
{
    number(behind(text, word)?)
}
