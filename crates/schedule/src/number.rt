// A number written in decimal.
ghost use Rattle.std.specs.Prelude.{◌≡◌};
ghost use Rattle.schedule.specs.Words.{number_word};

use crate::complaint::Cause;

// The number that a word writes, which is `max` at most.
pub(crate) fn number(word: &[u8], max: u32) -> Result<u32, Cause>
    ensures { result ≡ number_word max word.now }
{
    let over = max as u64 + 1;
    let mut value: u64 = 0;
    for byte in word {
        if !byte.is_ascii_digit() {
            return Err(Cause::NotANumber);
        }
        // past `max` it stays there, so that it never wraps
        value = (10 * value + (*byte - b'0') as u64).min(over);
    }
    if value == over {
        return Err(Cause::NumberTooLarge);
    }
    Ok(value as u32)
}
