//! The numbers that words write.

ghost use Rattle.std.specs.Prelude.{◌≡◌};
ghost use Rattle.cmm_command.specs.Numbers.{number_of, number_up_to, stack_of, steps_of};

use cmm_words::Radix;

/// The most digits of a number.
const DIGIT_LIMIT: usize = 20;

/// The most steps of a run that can be asked for.
const STEPS_LIMIT: u64 = 1_000_000_000_000_000_000;

/// The most bytes of a stack that can be asked for.
const STACK_LIMIT: u64 = 256 << 20;

/// The greatest number of a generated program.
const NUMBER_LIMIT: u64 = 999_999_999;

/// A count of steps.
#[tactic(auto, unfolding(crate::specs::Numbers::steps_of))]
pub fn steps(text: &str) -> Option<u64>
    ensures { result ≡ steps_of text.now }
{
    number_up_to(STEPS_LIMIT, text)
}

/// The size of a stack in bytes, a multiple of 16.
#[tactic(auto, unfolding(crate::specs::Numbers::stack_of))]
pub fn stack(text: &str) -> Option<u64>
    ensures { result ≡ stack_of text.now }
{
    let bytes = number_up_to(STACK_LIMIT, text)?;
    if bytes % 16 == 0 { Some(bytes) } else { None }
}

/// The number of a generated program.
#[tactic(auto, unfolding(crate::specs::Numbers::number_of))]
pub fn program_number(text: &str) -> Option<u64>
    ensures { result ≡ number_of text.now }
{
    number_up_to(NUMBER_LIMIT, text)
}

/// The number that decimal digits write, at most `limit`.
fn number_up_to(limit: u64, text: &str) -> Option<u64>
    ensures { result ≡ number_up_to limit text.now }
{
    let number = Radix::Decimal.number(text.as_bytes())?;
    if text.len() <= DIGIT_LIMIT && number <= limit {
        Some(number)
    } else {
        None
    }
}
