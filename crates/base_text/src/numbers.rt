//! Numbers of a line, read digit by digit.
//!
//! What reads a number is inlined by a hint wherever one is read: then it isn't written to memory and read again, and
//! the processor learns the digits of each number of a line apart from the others.

ghost use Rattle.std.specs.Prelude.{◌≡◌, ◌≤◌, ◌<◌, ◌+◌, ◌-◌, ◌*◌, IsTrue, ◌↔◌, length};
ghost use Rattle.std.specs.Int.{IsInRange};
ghost use Rattle.base_text.specs.Words.{number_of, number_read, HasDigit, HasOneDigit, BeginWith};
ghost use Rattle.base_text.specs.Words.{AreDigits, fitting, IsPadded};
ghost use Rattle.base_text.specs.Found.{Finds};

use crate::miss::Other;
use crate::words::goes_on;

/// The most digits whose number has 64 bits, whichever they are.
const SURE: usize = 19;

/// Whether a digit stands at a place.
fn has_digit(bytes: &[u8], i: usize) -> bool
    ensures { IsTrue result ↔ HasDigit bytes.now i }
{
    i < bytes.len() && b'0' <= bytes[i] && bytes[i] <= b'9'
}

/// A number with one more digit, where it has 64 bits.
fn with_digit(number: u64, digit: u8) -> Option<u64>
    requires { IsInRange 48 57 digit }
    ensures { result ≡ fitting (number * 10 + (digit - 48)) }
{
    let tens = number.checked_mul(10)?;
    tens.checked_add(u64::from(digit - b'0'))
}

/// The number of the first digits, at most 19 of them, and how many they are: so many have 64 bits, whichever they are.
fn first_digits(bytes: &[u8]) -> (u64, usize)
    ensures begin { BeginWith bytes.now result.0 result.1 }
    ensures few { result.1 ≤ 19 }
    ensures last { result.1 < 19 → HasDigit bytes.now result.1 → ⊥ }
{
    let (prefix, _) = bytes.split_at(bytes.len().min(SURE));
    let mut number: u64 = 0;
    let mut count = 0;
    while has_digit(prefix, count) {
        number = number * 10 + u64::from(prefix[count] - b'0');
        count += 1;
    }
    (number, count)
}

/// Whether a digit follows a zero at the beginning.
fn is_padded(bytes: &[u8], count: usize) -> bool
    requires some { 0 < count }
    requires fits { count ≤ length bytes.now }
    ensures { IsTrue result ↔ IsPadded bytes.now count }
{
    bytes[0] == b'0' && count > 1
}

/// The number of all digits at the beginning, where the first word is one, and the bytes after it.
fn whole(bytes: &[u8], number: u64, count: usize) -> Result<(u64, &[u8]), Other>
    requires { AreDigits bytes.now number count }
    ensures { Finds (λ x. (x.0, x.1.now)) result (number_read bytes.now) }
{
    if count == 0 {
        return Err(Other);
    }
    if is_padded(bytes, count) {
        return Err(Other);
    }
    if goes_on(bytes, count) {
        return Err(Other);
    }
    let (_, rest) = bytes.split_at(count);
    Ok((number, rest))
}

/// The number that the first word is behind its first digits, and the bytes after it.
fn long_number(bytes: &[u8], first: u64, before: usize) -> Result<(u64, &[u8]), Other>
    requires { BeginWith bytes.now first before }
    ensures { Finds (λ x. (x.0, x.1.now)) result (number_read bytes.now) }
{
    let mut number = first;
    let mut count = before;
    while has_digit(bytes, count) {
        let Some(more) = with_digit(number, bytes[count]) else {
            return Err(Other);
        };
        number = more;
        count += 1;
    }
    whole(bytes, number, count)
}

/// Whether the bytes begin with a digit, and no other is behind it.
fn has_one_digit(bytes: &[u8]) -> bool
    ensures { IsTrue result ↔ HasOneDigit bytes.now }
{
    has_digit(bytes, 0) && !has_digit(bytes, 1)
}

/// The number that the first word is, and the bytes after it.
#[inline(always)]
pub fn number_from(bytes: &[u8]) -> Result<(u64, &[u8]), Other>
    ensures { Finds (λ x. (x.0, x.1.now)) result (number_read bytes.now) }
{
    if has_one_digit(bytes) {
        return whole(bytes, u64::from(bytes[0] - b'0'), 1);
    }
    let (number, count) = first_digits(bytes);
    if count < SURE {
        return whole(bytes, number, count);
    }
    long_number(bytes, number, count)
}

/// The number that a whole word is.
pub fn number_of(word: &[u8]) -> Result<u64, Other>
    ensures { Finds (λ n. n) result (number_of word.now) }
{
    let (number, rest) = number_from(word)?;
    if rest.len() != 0 {
        return Err(Other);
    }
    Ok(number)
}
