//! Lists of words at the end of a line.

ghost use Rattle.std.specs.Prelude.{◌≡◌};
ghost use Rattle.text_calls.specs.Forms.{NumberOf, U8, many_at};
ghost use Rattle.base_text.specs.Found.{Reads};

use crate::number_words::byte_at;
use crate::operands::{NumberPlace, operand_at};
use crate::values::{Operands, Registers};
use base_text::{Miss, has_more};
use std::alloc::Global;

/// At most 17 numbers of an action.
pub fn operands_at(
    alloc: Global,
    place: NumberPlace,
    bytes: &[u8],
) -> Result<(Operands, &[u8]), Miss>
    ensures { Reads (λ x. (x.0, x.1.now)) result (many_at 0 17 (NumberOf place) bytes.now) }
{
    let mut items = Vec::new(alloc);
    let mut rest = bytes;
    while has_more(items.len(), 17, rest) {
        let (item, after) = operand_at(place, rest)?;
        items.push(item)?;
        rest = after;
    }
    Ok((Operands { items }, rest))
}

/// One to 16 registers.
pub fn registers_at(alloc: Global, bytes: &[u8]) -> Result<(Registers, &[u8]), Miss>
    ensures { Reads (λ x. (x.0, x.1.now)) result (many_at 1 16 U8 bytes.now) }
{
    let mut items = Vec::new(alloc);
    let mut rest = bytes;
    while has_more(items.len(), 16, rest) {
        let (item, after) = byte_at(rest, 255)?;
        items.push(item)?;
        rest = after;
    }
    if items.is_empty() {
        return Err(Miss::Unlike);
    }
    Ok((Registers { items }, rest))
}
