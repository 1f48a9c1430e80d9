//! Bytes of a line, as pairs of hexadecimal digits.

ghost use Rattle.std.specs.Prelude.{◌≡◌, ◌*◌, length, true, Some};
ghost use Rattle.std.specs.List.{list_all};
ghost use Rattle.base_text.specs.HexBytes.{digit_value, is_digit, byte_of, pairs_of, bytes_of};
ghost use Rattle.base_text.specs.Found.{Reads};

use crate::byte_words::{LineBytes, MAX_WORD_BYTES};
use crate::miss::Miss;
use std::alloc::Global;

/// Whether a byte is a hexadecimal digit.
fn is_digit(byte: u8) -> bool
    ensures { result ≡ is_digit byte }
{
    matches!(byte, b'0'..=b'9' | b'a'..=b'f')
}

/// Whether all bytes are digits. It has no early exit, so that many are tested together.
fn are_digits(bytes: &[u8]) -> bool
    ensures { result ≡ list_all is_digit bytes.now }
{
    let mut all = true;
    for byte in bytes {
        all &= is_digit(*byte);
    }
    all
}

/// The value of a digit.
fn digit_value(digit: u8) -> u8
    requires { is_digit digit ≡ true }
    ensures { digit_value digit ≡ Some result }
{
    if digit < b'a' {
        digit - b'0'
    } else {
        digit - b'a' + 10
    }
}

/// The byte of two digits.
#[tactic(auto, unfolding(crate::specs::HexBytes::byte_of))]
fn byte_of(high: u8, low: u8) -> u8
    requires { (is_digit high ≡ true) × (is_digit low ≡ true) }
    ensures { byte_of high low ≡ Some result }
{
    16 * digit_value(high) + digit_value(low)
}

/// Writes the bytes whose digits these are.
fn decode(digits: &[u8], bytes: &mut [u8])
    requires digits { list_all is_digit digits.now ≡ true }
    requires room { length digits.now ≡ 2 * length bytes.old }
    ensures { pairs_of digits.now ≡ Some bytes.new }
{
    'bytes: for i in 0..bytes.len() {
        bytes[i] = byte_of(digits[2 * i], digits[2 * i + 1]);
    }
}

/// The bytes of pairs of digits.
pub fn pairs_of(alloc: Global, digits: &[u8]) -> Result<Vec<u8>, Miss>
    ensures { Reads (λ v. v.items) result (pairs_of digits.now) }
{
    if digits.len() % 2 != 0 {
        return Err(Miss::Unlike);
    }
    if !are_digits(digits) {
        return Err(Miss::Unlike);
    }
    let mut bytes = vec![in alloc; 0u8; digits.len() / 2]?;
    decode(digits, bytes.as_mut_slice());
    Ok(bytes)
}

/// The bytes that a word is.
#[tactic(auto, unfolding(crate::specs::HexBytes::bytes_of))]
pub fn bytes_of(alloc: Global, word: &[u8]) -> Result<LineBytes, Miss>
    ensures { Reads (λ b. b) result (bytes_of word.now) }
{
    if word.is_empty() {
        return Err(Miss::Unlike);
    }
    if word[0] != b'x' {
        return Err(Miss::Unlike);
    }
    let (_, digits) = word.split_at(1);
    let items = pairs_of(alloc, digits)?;
    if items.len() > MAX_WORD_BYTES {
        return Err(Miss::Unlike);
    }
    let inside = Box::new(alloc, items)?;
    Ok(LineBytes { inside })
}
