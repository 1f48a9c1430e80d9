//! Numbers of a range, as words of a line.

ghost use Rattle.std.specs.Prelude.{◌≡◌, ◌≤◌, IfOk};
ghost use Rattle.text_calls.specs.Forms.{Number, part_at, word_at};
ghost use Rattle.base_text.specs.Found.{Finds};

use base_text::{Other, number_from, spaced};

/// The number of the range that the first word is, and the bytes after it.
#[tactic(auto, unfolding(crate::specs::Forms::word_at, base_text::specs::Words::number_read, base_text::specs::Words::number_in))]
#[inline(always)]
pub fn number_here(bytes: &[u8], low: u64, high: u64) -> Result<(u64, &[u8]), Other>
    ensures value { Finds (λ x. (x.0, x.1.now)) result (word_at (Number low high) bytes.now) }
    ensures range { IfOk result (λ x. (low ≤ x.0) × (x.0 ≤ high)) }
{
    let (number, rest) = number_from(bytes)?;
    if number < low || high < number {
        return Err(Other);
    }
    Ok((number, rest))
}

/// The same behind a space.
#[tactic(auto, unfolding(crate::specs::Forms::part_at))]
#[inline(always)]
pub fn number_at(bytes: &[u8], low: u64, high: u64) -> Result<(u64, &[u8]), Other>
    ensures value { Finds (λ x. (x.0, x.1.now)) result (part_at (Number low high) bytes.now) }
    ensures range { IfOk result (λ x. (low ≤ x.0) × (x.0 ≤ high)) }
{
    let bytes = spaced(bytes)?;
    number_here(bytes, low, high)
}

/// A number of at most 8 bits behind a space.
#[inline(always)]
pub fn byte_at(bytes: &[u8], high: u8) -> Result<(u8, &[u8]), Other>
    ensures { Finds (λ x. (x.0, x.1.now)) result (part_at (Number 0 high) bytes.now) }
{
    let (number, rest) = number_at(bytes, 0, u64::from(high))?;
    Ok((number as u8, rest))
}

/// A number of at most 16 bits behind a space.
#[inline(always)]
pub fn short_at(bytes: &[u8], high: u16) -> Result<(u16, &[u8]), Other>
    ensures { Finds (λ x. (x.0, x.1.now)) result (part_at (Number 0 high) bytes.now) }
{
    let (number, rest) = number_at(bytes, 0, u64::from(high))?;
    Ok((number as u16, rest))
}
