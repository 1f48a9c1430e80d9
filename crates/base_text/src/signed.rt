//! Numbers of 32 bits, as words of a line.

ghost use Rattle.std.specs.Prelude.{◌≡◌, ◌==◌, ◌<◌, slice_index, drop};
ghost use Rattle.base_text.specs.Words.{integer_read, negative_number, plain};
ghost use Rattle.base_text.specs.Found.{Finds};

use crate::miss::Other;
use crate::numbers::number_from;

/// Whether bytes begin with this one.
#[inline(always)]
pub fn starts(bytes: &[u8], byte: u8) -> bool
    requires { 0 < byte }
    ensures { result ≡ (slice_index bytes.now 0 == byte) }
{
    if bytes.is_empty() {
        return false;
    }
    bytes[0] == byte
}

/// Bytes without the first one.
#[inline(always)]
pub fn after_first(bytes: &[u8]) -> &[u8]
    ensures { result.now ≡ drop 1 bytes.now }
{
    if bytes.is_empty() {
        return bytes;
    }
    let (_, others) = bytes.split_at(1);
    others
}

/// A number from 1 to 2 ^ 31, negated.
#[inline(always)]
fn negated(number: u64) -> Option<i32>
    ensures { result ≡ negative_number number }
{
    if 1 <= number && number <= 2_147_483_648 {
        Some((-(number as i64)) as i32)
    } else {
        None
    }
}

/// A number below 2 ^ 31.
#[inline(always)]
fn plain(number: u64) -> Option<i32>
    ensures { result ≡ plain number }
{
    if number < 2_147_483_648 {
        Some(number as i32)
    } else {
        None
    }
}

/// The number of 32 bits that the first word is, and the bytes after it.
#[tactic(auto, unfolding(crate::specs::Words::integer_read))]
#[inline(always)]
pub fn integer_here(bytes: &[u8]) -> Result<(i32, &[u8]), Other>
    ensures { Finds (λ x. (x.0, x.1.now)) result (integer_read bytes.now) }
{
    if starts(bytes, b'-') {
        let (number, rest) = number_from(after_first(bytes))?;
        let Some(number) = negated(number) else {
            return Err(Other);
        };
        return Ok((number, rest));
    }
    let (number, rest) = number_from(bytes)?;
    let Some(number) = plain(number) else {
        return Err(Other);
    };
    Ok((number, rest))
}
