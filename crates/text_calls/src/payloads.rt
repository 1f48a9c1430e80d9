//! Bytes and payloads, as words of a line.

ghost use Rattle.std.specs.Prelude.{◌≡◌, ◌+◌, length, IfOk, IfSome, slice_index, drop};
ghost use Rattle.text_calls.specs.Payloads.{before_plus, behind_plus, range_of, payload_of};
ghost use Rattle.text_calls.specs.Payloads.{body_payload_of};
ghost use Rattle.text_calls.specs.Forms.{Bytes as BytesPart, Payload as PayloadPart, BodyPayload};
ghost use Rattle.text_calls.specs.Forms.{part_at};
ghost use Rattle.base_text.specs.Found.{Finds, Reads};

use crate::values::Payload;
use base_text::{
    LineBytes, MAX_WORD_BYTES, Miss, Other, bytes_of, is_name, name_of, number_of, spaced, starts,
};
use std::alloc::Global;
use wire_message::MAX_PAYLOAD;

// A word may have one byte more than a payload. So a job can say a payload that is too long.
const _: () = prove!(MAX_WORD_BYTES == MAX_PAYLOAD + 1);

/// Bytes behind a space.
#[tactic(auto, unfolding(crate::specs::Forms::part_at, crate::specs::Forms::word_at))]
pub fn bytes_at(alloc: Global, bytes: &[u8]) -> Result<(LineBytes, &[u8]), Miss>
    ensures { Reads (λ x. (x.0, x.1.now)) result (part_at BytesPart bytes.now) }
{
    let bytes = spaced(bytes)?;
    let (word, rest) = name_of(bytes);
    let bytes = bytes_of(alloc, word)?;
    Ok((bytes, rest))
}

/// The bytes before the first `+`, and those after it.
fn split_plus(word: &[u8]) -> Result<(&[u8], &[u8]), Other>
    ensures prefix { IfOk result (λ x. x.0.now ≡ before_plus word.now) }
    ensures back { Finds (λ x. x.1.now) result (behind_plus word.now) }
{
    let mut end = 0;
    while end < word.len() {
        if word[end] == b'+' {
            let (prefix, _) = word.split_at(end);
            let (_, back) = word.split_at(end + 1);
            return Ok((prefix, back));
        }
        end += 1;
    }
    Err(Other)
}

/// The range that a word is.
#[tactic(auto, unfolding(crate::specs::Payloads::range_of))]
fn range_of(word: &[u8]) -> Result<Payload, Other>
    ensures { Finds (λ x. x) result (range_of word.now) }
{
    let (offset, len) = split_plus(word)?;
    let offset = number_of(offset)?;
    let len = number_of(len)?;
    Ok(Payload::Range { offset, len })
}

/// The payload of a schedule that a word is.
#[tactic(auto, unfolding(crate::specs::Payloads::payload_of))]
fn payload_of(alloc: Global, word: &[u8]) -> Result<Payload, Miss>
    ensures { Reads (λ x. x) result (payload_of word.now) }
{
    if starts(word, b'x') {
        let bytes = bytes_of(alloc, word)?;
        return Ok(Payload::Bytes { bytes });
    }
    let range = range_of(word)?;
    Ok(range)
}

/// A payload of a schedule behind a space.
#[tactic(auto, unfolding(crate::specs::Forms::part_at, crate::specs::Forms::word_at))]
pub fn payload_at(alloc: Global, bytes: &[u8]) -> Result<(Payload, &[u8]), Miss>
    ensures { Reads (λ x. (x.0, x.1.now)) result (part_at PayloadPart bytes.now) }
{
    let bytes = spaced(bytes)?;
    let (word, rest) = name_of(bytes);
    let payload = payload_of(alloc, word)?;
    Ok((payload, rest))
}

/// The payload of a handler's body that a word is.
#[tactic(auto, unfolding(crate::specs::Payloads::body_payload_of))]
fn body_payload_of(alloc: Global, word: &[u8]) -> Result<Payload, Miss>
    ensures { Reads (λ x. x) result (body_payload_of word.now) }
{
    if is_name(word, b"p") {
        return Ok(Payload::Message);
    }
    payload_of(alloc, word)
}

/// A payload of a handler's body behind a space.
#[tactic(auto, unfolding(crate::specs::Forms::part_at, crate::specs::Forms::word_at))]
pub fn body_payload_at(alloc: Global, bytes: &[u8]) -> Result<(Payload, &[u8]), Miss>
    ensures { Reads (λ x. (x.0, x.1.now)) result (part_at BodyPayload bytes.now) }
{
    let bytes = spaced(bytes)?;
    let (word, rest) = name_of(bytes);
    let payload = body_payload_of(alloc, word)?;
    Ok((payload, rest))
}
