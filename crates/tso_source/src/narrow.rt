//! Registers of fewer than 64 bits, and instructions with a size behind their names.

use crate::suspect::is_among;

// Registers of 32 bits, each before the one of 64 bits that has it.
const REGISTERS: &str =
    "eax rax|ebx rbx|ecx rcx|edx rdx|esi rsi|edi rdi|ebp rbp|r8d r8|r9d r9|r10d r10|r11d r11|r12d r12|r13d r13|r14d r14|r15d r15|dword qword";

/// The name behind a name in a list of pairs with bars between.
pub fn other_name(pairs: &'static str, word: &[u8]) -> Option<&'static str> {
    for pair in pairs.split('|') {
        if let Some((name, other)) = pair.split_once(' ') {
            if name.as_bytes() == word {
                return Some(other);
            }
        }
    }
    None
}

/// The word of 64 bits for one of 32: a register, or the size of memory.
pub fn wide(word: &[u8]) -> Option<&'static str> {
    other_name(REGISTERS, word)
}

/// Whether a word names a register of fewer than 64 bits, or memory of fewer.
pub fn is_narrow(word: &[u8]) -> bool {
    wide(word).is_some() || is_among(word, "al|bl|cl|dl|sil|dil|r8b|r9b|r10b|r11b|byte|word")
}

/// The name without the size that AT&T syntax puts behind it, as `mov` of `movl`.
pub fn unsized_name(word: &[u8]) -> Option<&[u8]> {
    match word {
        [name @ .., b'b' | b'w' | b'l' | b'q'] => {
            if is_among(
                name,
                "mov|add|sub|and|or|xor|cmp|test|xchg|xadd|cmpxchg|lea|inc|dec|push|pop",
            ) {
                Some(name)
            } else {
                None
            }
        }
        _ => None,
    }
}
