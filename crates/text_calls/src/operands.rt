//! Numbers of actions, as words of a line.

ghost use Rattle.text_calls.specs.Forms.{BodyValue, Integer, NumberOf, Value, body_value_read};
ghost use Rattle.text_calls.specs.Forms.{part_at, value_read};
ghost use Rattle.base_text.specs.Found.{Finds};

use crate::number_words::number_here;
use crate::values::Operand;
use base_text::{Other, after_first, integer_here, spaced, starts};

/// Where a number of an action stands, which decides what it may be.
#[derive(Clone, Copy)]
pub enum NumberPlace {
    /// In a schedule or a script.
    Schedule,
    /// In a handler's body.
    Body,
}

/// A number of 32 bits behind a space.
#[tactic(auto, using(crate::proofs::FirstBytes::integer_is), unfolding(crate::specs::Forms::part_at))]
pub fn integer_at(bytes: &[u8]) -> Result<(i32, &[u8]), Other>
    ensures { Finds (λ x. (x.0, x.1.now)) result (part_at Integer bytes.now) }
{
    let bytes = spaced(bytes)?;
    integer_here(bytes)
}

/// The number of a schedule that the first word is, and the bytes after it.
#[tactic(auto, unfolding(crate::specs::Forms::value_read))]
#[inline(always)]
fn value_here(bytes: &[u8]) -> Result<(Operand, &[u8]), Other>
    ensures { Finds (λ x. (x.0, x.1.now)) result (value_read bytes.now) }
{
    if starts(bytes, b'c') {
        let (cell, rest) = number_here(after_first(bytes), 0, 255)?;
        return Ok((Operand::Cell(cell as u8), rest));
    }
    let (number, rest) = integer_here(bytes)?;
    Ok((Operand::Number(number), rest))
}

/// A number of a schedule behind a space.
#[tactic(auto, using(crate::proofs::FirstBytes::value_is), unfolding(crate::specs::Forms::part_at))]
#[inline(always)]
pub fn value_at(bytes: &[u8]) -> Result<(Operand, &[u8]), Other>
    ensures { Finds (λ x. (x.0, x.1.now)) result (part_at Value bytes.now) }
{
    let bytes = spaced(bytes)?;
    value_here(bytes)
}

/// The number of a handler's body that the first word is, and the bytes after it.
#[tactic(auto, unfolding(crate::specs::Forms::body_value_read))]
fn body_value_here(bytes: &[u8]) -> Result<(Operand, &[u8]), Other>
    ensures { Finds (λ x. (x.0, x.1.now)) result (body_value_read bytes.now) }
{
    if starts(bytes, b'a') {
        let (place, rest) = number_here(after_first(bytes), 0, 15)?;
        return Ok((Operand::Argument(place as u8), rest));
    }
    value_here(bytes)
}

/// A number of a handler's body behind a space.
#[tactic(auto, using(crate::proofs::FirstBytes::body_value_is), unfolding(crate::specs::Forms::part_at))]
pub fn body_value_at(bytes: &[u8]) -> Result<(Operand, &[u8]), Other>
    ensures { Finds (λ x. (x.0, x.1.now)) result (part_at BodyValue bytes.now) }
{
    let bytes = spaced(bytes)?;
    body_value_here(bytes)
}

/// A number of an action behind a space.
pub fn operand_at(place: NumberPlace, bytes: &[u8]) -> Result<(Operand, &[u8]), Other>
    ensures { Finds (λ x. (x.0, x.1.now)) result (part_at (NumberOf place) bytes.now) }
{
    match place {
        NumberPlace::Schedule => value_at(bytes),
        NumberPlace::Body => body_value_at(bytes),
    }
}
