//! Words of 64 bits: sums, differences and logic with their flags, and the conditions that read them.
//!
//! Results and flags are those of the Intel 64 and IA-32 Architectures Software Developer's Manual, volume 2,
//! for 64-bit operands; the flags PF and AF are not modelled.
#![tactic(auto)]

ghost use Rattle.std.specs.Prelude.{◌≡◌, ◌==◌, ◌^◌, nat_le};
ghost use Rattle.tso_word.specs.Word.{sum, difference, bitwise, sum_flags, difference_flags, bitwise_flags, with_carry, holds};

/// What an instruction leaves for a condition to read. Flags are ordered as the number ZF + 2 CF + 4 SF + 8 OF.
#[derive(Clone, Copy, Debug, PartialEq, Eq, PartialOrd, Ord, Hash)]
pub struct Flags {
    /// The signed result leaves the range from -2^63 to 2^63-1.
    pub of: bool,
    /// The result is at least 2^63.
    pub sf: bool,
    /// The unsigned sum reaches 2^64, or the first of two words is below the second.
    pub cf: bool,
    /// The result is zero.
    pub zf: bool,
}

/// A condition of a jump or an assertion.
#[derive(Clone, Copy, PartialEq, Eq, PartialOrd, Ord, Hash)]
pub enum Condition {
    /// `e`: ZF
    E,
    /// `ne`: not ZF
    Ne,
    /// `b`: CF
    B,
    /// `ae`: not CF
    Ae,
    /// `be`: CF or ZF
    Be,
    /// `a`: neither CF nor ZF
    A,
    /// `l`: SF differs from OF
    L,
    /// `ge`: SF is OF
    Ge,
    /// `le`: ZF, or SF differs from OF
    Le,
    /// `g`: not ZF, and SF is OF
    G,
}

/// An operation on each bit.
#[derive(Clone, Copy, PartialEq, Eq, PartialOrd, Ord, Hash)]
pub enum BitOperation {
    And,
    Or,
    Xor,
}

// The flags of a result, whose carry and overflow are known.
fn flags_of(word: u64, cf: bool, of: bool) -> Flags
    ensures { result ≡ record { zf = word == 0; cf = cf; sf = nat_le (2 ^ 63) word; of = of } }
{
    Flags {
        zf: word == 0,
        cf,
        sf: word >= 1 << 63,
        of,
    }
}

/// The sum modulo 2^64, and its flags: CF where `a + b` reaches 2^64, OF where the signed sum leaves -2^63 to 2^63-1.
#[tactic(auto, unfolding(crate::specs::Word::sum_flags))]
pub fn add(a: u64, b: u64) -> (u64, Flags)
    ensures word { result.0 ≡ sum a b }
    ensures flags { result.1 ≡ sum_flags a b }
{
    let (word, carry) = a.overflowing_add(b);
    let (_, overflow) = a.cast_signed().overflowing_add(b.cast_signed());
    (word, flags_of(word, carry, overflow))
}

/// The difference modulo 2^64, and its flags: CF where `a` is below `b`, OF where the signed difference leaves -2^63 to 2^63-1.
#[tactic(auto, unfolding(crate::specs::Word::difference_flags))]
pub fn sub(a: u64, b: u64) -> (u64, Flags)
    ensures word { result.0 ≡ difference a b }
    ensures flags { result.1 ≡ difference_flags a b }
{
    let (word, borrow) = a.overflowing_sub(b);
    let (_, overflow) = a.cast_signed().overflowing_sub(b.cast_signed());
    (word, flags_of(word, borrow, overflow))
}

/// One more, modulo 2^64, with the flags of the sum but for CF, which stays as it was.
pub fn inc(a: u64, flags: Flags) -> (u64, Flags)
    ensures word { result.0 ≡ sum a 1 }
    ensures flags { result.1 ≡ with_carry flags.cf (sum_flags a 1) }
{
    let (word, after) = add(a, 1);
    (
        word,
        Flags {
            cf: flags.cf,
            ..after
        },
    )
}

/// One less, modulo 2^64, with the flags of the difference but for CF, which stays as it was.
pub fn dec(a: u64, flags: Flags) -> (u64, Flags)
    ensures word { result.0 ≡ difference a 1 }
    ensures flags { result.1 ≡ with_carry flags.cf (difference_flags a 1) }
{
    let (word, after) = sub(a, 1);
    (
        word,
        Flags {
            cf: flags.cf,
            ..after
        },
    )
}

/// The operation on each bit, with ZF and SF of its result. CF and OF are clear.
#[tactic(auto, unfolding(crate::specs::Word::bitwise_flags))]
pub fn logic(operation: BitOperation, a: u64, b: u64) -> (u64, Flags)
    ensures word { result.0 ≡ bitwise operation a b }
    ensures flags { result.1 ≡ bitwise_flags operation a b }
{
    let word = match operation {
        BitOperation::And => a & b,
        BitOperation::Or => a | b,
        BitOperation::Xor => a ^ b,
    };
    (word, flags_of(word, false, false))
}

/// Whether the flags meet the condition.
pub fn holds(condition: Condition, flags: Flags) -> bool
    ensures { result ≡ holds condition flags }
{
    match condition {
        Condition::E => flags.zf,
        Condition::Ne => !flags.zf,
        Condition::B => flags.cf,
        Condition::Ae => !flags.cf,
        Condition::Be => flags.cf || flags.zf,
        Condition::A => !flags.cf && !flags.zf,
        Condition::L => flags.sf != flags.of,
        Condition::Ge => flags.sf == flags.of,
        Condition::Le => flags.zf || flags.sf != flags.of,
        Condition::G => !flags.zf && flags.sf == flags.of,
    }
}
