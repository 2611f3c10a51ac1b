//! Numbers and values.

ghost use Rattle.std.specs.Option.{option_map};
ghost use Rattle.cmm_words.specs.Digits.{written};
ghost use Rattle.cmm_script.specs.declared.script.Value.TheVariants.{Yielded};
ghost use Rattle.cmm_script.specs.Numbers.{number_of, index_of, below, value_of};
ghost use Rattle.cmm_script.specs.inside.Reading.{Reads};

use crate::fault::Unread;
use crate::script::Value;
use crate::words::begins;
use cmm_words::Radix;

/// The most values that a yield can have.
const YIELDED_LIMIT: u64 = 64;

/// A number in decimal digits, or after `0x` in hexadecimal ones.
pub fn number(word: &[u8]) -> Result<u64, Unread>
    ensures { Reads result (number_of word.now) }
{
    match word {
        [b'0', b'x', digits @ ..] => Radix::Hexadecimal.number(digits).ok_or(Unread::Form),
        _ => Radix::Decimal.number(word).ok_or(Unread::Form),
    }
}

/// A number below 2^32.
pub fn index(word: &[u8]) -> Result<u32, Unread>
    ensures { Reads result (index_of word.now) }
{
    let number = number(word)?;
    if number < 1 << 32 {
        Ok(number as u32)
    } else {
        Err(Unread::Form)
    }
}

/// A number, or `$` and the number of a value of the yield.
pub fn value(word: &[u8]) -> Result<Value, Unread>
    ensures { Reads result (value_of word.now) }
{
    match word {
        [b'$', digits @ ..] => yielded(digits),
        _ => Ok(Value::Number(number(word)?)),
    }
}

/// The value of the yield whose number these digits write.
fn yielded(digits: &[u8]) -> Result<Value, Unread>
    ensures { Reads result (option_map Yielded (below 64 (written 10 digits.now))) }
{
    let number = Radix::Decimal.number(digits).ok_or(Unread::Form)?;
    if number < YIELDED_LIMIT {
        Ok(Value::Yielded(number as u8))
    } else {
        Err(Unread::Form)
    }
}
