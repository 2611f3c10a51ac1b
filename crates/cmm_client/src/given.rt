//! The numbers that a command is given.
ghost use Rattle.std.specs.Prelude.{◌≡◌, ◌≤◌, length};
ghost use Rattle.cmm_program.specs.Commands.{number_given as given_number, numbers_given as given_numbers};
ghost use Rattle.cmm_client.specs.inside.Replies.{first_numbers, ruled};

use cmm_resume::Refusal;
use cmm_rules::Rule;
use cmm_script::Value;

/// The number of a value: itself, or that value of the yield. It is refused where the yield has no such value.
pub(crate) fn number_given(yielded: &[u64], value: Value) -> Result<u64, Refusal>
    ensures { result ≡ ruled (given_number yielded.now value) }
{
    match value {
        Value::Number(number) => Ok(number),
        Value::Yielded(k) => match yielded.get(usize::from(k)) {
            Some(number) => Ok(*number),
            None => Err(Refusal::ByRule(Rule::NoYieldedValue)),
        },
    }
}

/// The numbers of values, the first of the array. They are refused where the yield has not one of them.
pub(crate) fn numbers_given(yielded: &[u64], values: &[Value]) -> Result<[u64; 64], Refusal>
    requires { length values.now ≤ 64 }
    ensures { first_numbers (length values.now) result ≡ ruled (given_numbers yielded.now values.now) }
{
    let mut numbers = [0; 64];
    for (k, value) in values.iter().enumerate() {
        numbers[k] = number_given(yielded, *value)?;
    }
    Ok(numbers)
}
