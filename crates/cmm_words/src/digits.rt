//! Digits, and the numbers that they write.

ghost use Rattle.std.specs.Prelude.{◌≡◌, ◌+◌, ◌*◌, ◌^◌, ◌<◌, ◌≤◌, true};
ghost use Rattle.std.specs.Char.{is_digit, digit_value};
ghost use Rattle.std.specs.List.{list_all};
ghost use Rattle.std.specs.Option.{SomeIff};
ghost use Rattle.cmm_words.specs.Digits.{base as base_of, sum_of, written};

/// In which base a number is written.
#[derive(Clone, Copy)]
pub enum Radix {
    Octal,
    Decimal,
    Hexadecimal,
}

impl Radix {
    /// How many digits there are.
    pub fn base(self) -> u32
        ensures base { result ≡ base_of self }
        ensures low { 2 ≤ result }
        ensures high { result ≤ 16 }
    {
        match self {
            Radix::Octal => 8,
            Radix::Decimal => 10,
            Radix::Hexadecimal => 16,
        }
    }

    /// Whether a byte is a digit. Letters are digits in either case.
    pub fn is_digit(self, byte: u8) -> bool
        ensures { result ≡ is_digit byte (base_of self) }
    {
        char::from(byte).is_digit(self.base())
    }

    /// The number that bytes write: there is one byte at least, each is a digit, and the number is below 2^64.
    pub fn number(self, digits: &[u8]) -> Option<u64>
        ensures { result ≡ written (base_of self) digits.now }
    {
        if digits.is_empty() || !self.all_digits(digits) {
            None
        } else {
            self.sum(digits)
        }
    }

    fn all_digits(self, digits: &[u8]) -> bool
        ensures { result ≡ list_all (λ d. is_digit d (base_of self)) digits.now }
    {
        digits.iter().all(|d| self.is_digit(*d))
    }

    /// What digits count, where it is below 2^64.
    fn sum(self, digits: &[u8]) -> Option<u64>
        requires { list_all (λ d. is_digit d (base_of self)) digits.now ≡ true }
        ensures { SomeIff result (sum_of (base_of self) digits.now < 2 ^ 64) (sum_of (base_of self) digits.now) }
    {
        let mut sum = 0;
        for digit in digits {
            sum = self.with_digit(sum, *digit)?;
        }
        Some(sum)
    }

    /// What the digits count with one more, where it is below 2^64.
    fn with_digit(self, sum: u64, digit: u8) -> Option<u64>
        ensures { SomeIff result (is_digit digit (base_of self) ≡ true × (sum * base_of self + digit_value digit < 2 ^ 64)) (sum * base_of self + digit_value digit) }
    {
        let digit = char::from(digit).to_digit(self.base())?;
        sum.checked_mul(u64::from(self.base()))?
            .checked_add(u64::from(digit))
    }
}
