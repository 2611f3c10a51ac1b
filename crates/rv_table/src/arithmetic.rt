//! The operations on 64-bit words that the rows need beside Rust's own.
ghost use Rattle.std.specs.Prelude.{◌≡◌, ◌<◌, ◌/◌, ◌%◌, ◌*◌, ◌^◌, ◌*ℤ◌, pos, ℤ, IsTrue};
ghost use Rattle.rv_table.specs.Words.{modulo, signed, word, upper, upper_half, is_less, shifted_right_signed, quotient, quotient_unsigned, remainder, remainder_unsigned};

/// The immediate, sign-extended to 64 bits.
pub fn immediate(imm: i32) -> u64
    ensures { result ≡ modulo 64 imm }
{
    (imm as i64).cast_unsigned()
}

/// The upper immediate over twelve zeros, sign-extended from bit 31.
pub fn upper_immediate(imm: i32) -> u64
    ensures { result ≡ upper imm }
{
    word((immediate(imm) % 0x10_0000) << 12)
}

/// The low 32 bits.
pub fn low_word(value: u64) -> u64
    ensures { result ≡ value % 2 ^ 32 }
{
    value % 0x1_0000_0000
}

/// The low 32 bits, sign-extended.
pub fn word(value: u64) -> u64
    ensures { result ≡ word value }
{
    let low = low_word(value);
    if low < 0x8000_0000 {
        low
    } else {
        low + 0xffff_ffff_0000_0000
    }
}

/// Whether `a` is less than `b`, both read as signed.
pub fn is_less(a: u64, b: u64) -> bool
    ensures { result ≡ is_less a b }
{
    a.cast_signed() < b.cast_signed()
}

/// `a` shifted to the right, with its sign copied in.
pub fn shift_right_signed(a: u64, amount: u64) -> u64
    requires { amount < 64 }
    ensures { result ≡ shifted_right_signed 64 a amount }
{
    (a.cast_signed() >> amount).cast_unsigned()
}

/// The low 32 bits shifted to the right, with their sign copied in.
pub fn shift_word_right_signed(a: u64, amount: u64) -> u64
    requires { amount < 32 }
    ensures { result ≡ shifted_right_signed 32 a amount }
{
    shift_right_signed(word(a), amount)
}

/// The upper half of the product.
pub fn multiply_high(a: u64, b: u64) -> u64
    ensures { result ≡ a * b / 2 ^ 64 }
{
    ((a as u128 * b as u128) >> 64) as u64
}

/// The upper half of the product of `a` and `b`, both read as signed.
pub fn multiply_high_signed(a: u64, b: u64) -> u64
    ensures { result ≡ upper_half (signed 64 a *ℤ signed 64 b) }
{
    upper_half(a.cast_signed() as i128 * b.cast_signed() as i128)
}

/// The upper half of the product of `a`, read as signed, and `b`.
pub fn multiply_high_signed_unsigned(a: u64, b: u64) -> u64
    ensures { result ≡ upper_half (signed 64 a *ℤ pos b) }
{
    upper_half(a.cast_signed() as i128 * b as i128)
}

fn upper_half(product: i128) -> u64
    ensures { result ≡ upper_half product }
{
    (product.cast_unsigned() >> 64) as u64
}

/// The quotient, unsigned; all ones where `b` is 0.
pub fn divide(a: u64, b: u64) -> u64
    ensures { result ≡ quotient_unsigned 64 a b }
{
    if b == 0 { u64::MAX } else { a / b }
}

/// The remainder, unsigned; `a` where `b` is 0.
pub fn remainder(a: u64, b: u64) -> u64
    ensures { result ≡ remainder_unsigned 64 a b }
{
    if b == 0 { a } else { a % b }
}

/// The quotient, signed and rounded toward zero; all ones where `b` is 0.
pub fn divide_signed(a: u64, b: u64) -> u64
    ensures { result ≡ quotient 64 a b }
{
    if b == 0 {
        u64::MAX
    } else {
        a.cast_signed()
            .wrapping_div(b.cast_signed())
            .cast_unsigned()
    }
}

/// The remainder, signed; `a` where `b` is 0.
pub fn remainder_signed(a: u64, b: u64) -> u64
    ensures { result ≡ remainder 64 a b }
{
    if b == 0 {
        a
    } else {
        a.cast_signed()
            .wrapping_rem(b.cast_signed())
            .cast_unsigned()
    }
}

/// The quotient of the low 32 bits, unsigned, sign-extended; all ones where those of `b` are 0.
pub fn divide_words(a: u64, b: u64) -> u64
    ensures { result ≡ quotient_unsigned 32 a b }
{
    let divisor = low_word(b);
    if divisor == 0 {
        u64::MAX
    } else {
        word(low_word(a) / divisor)
    }
}

/// The remainder of the low 32 bits, unsigned, sign-extended; those of `a` where those of `b` are 0.
pub fn remainder_words(a: u64, b: u64) -> u64
    ensures { result ≡ remainder_unsigned 32 a b }
{
    let divisor = low_word(b);
    if divisor == 0 {
        word(a)
    } else {
        word(low_word(a) % divisor)
    }
}

/// The quotient of the low 32 bits, signed and rounded toward zero; all ones where those of `b` are 0.
pub fn divide_words_signed(a: u64, b: u64) -> u64
    ensures { result ≡ quotient 32 a b }
{
    word(divide_signed(word(a), word(b)))
}

/// The remainder of the low 32 bits, signed; those of `a` where those of `b` are 0.
pub fn remainder_words_signed(a: u64, b: u64) -> u64
    ensures { result ≡ remainder 32 a b }
{
    remainder_signed(word(a), word(b))
}
