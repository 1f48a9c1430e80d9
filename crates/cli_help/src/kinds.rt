//! What words may be.

use crate::places::Limits;
use crate::tables::fill;
use itoa::Buffer;
use std::alloc::{AllocError, Global};

/// The most hexadecimal digits of bytes.
const DIGITS: usize = 16_386;

/// What words may be. Behind the name of a kind, or of a word of a command, stand ranges and words,
/// each of which may stand there, and behind `|` what is told of them.
///
/// A range is the letter before the number, its least and its greatest. `bytes` are bytes, and
/// `range` is one of the segment.
pub static KINDS: &str = "\
kind index :0:0 :128:255|0 or a number from 128 to 255
kind integer :0:2147483647 -:1:2147483648|an integer of 32 bits
kind value :0:2147483647 -:1:2147483648 c:0:255|an integer of 32 bits, or c and a number from 0 \
to 255
kind body-value :0:2147483647 -:1:2147483648 c:0:255 a:0:15|\
an integer of 32 bits, c and a number from 0 to 255, or a and one from 0 to 15
kind bytes bytes|x and two of 0-9a-f for each of at most 8193 bytes
kind payload bytes range|x and two of 0-9a-f for each of at most 8193 bytes, or OFF+LEN
kind body-payload bytes range p|x and two of 0-9a-f for each of at most 8193 bytes, OFF+LEN or p
kind role request reply|request or reply
kind call request reply poll transfer sync region barrier source|\
request, reply, poll, transfer, sync, region, barrier or source
kind implicit puts gets all|puts, gets or all
kind operation get swap cas add sub and or xor min max|get, swap, cas, add, sub, and, or, xor, \
min or max
kind collective broadcast gather all-gather sum min max all-sum all-min all-max|broadcast, gather, \
all-gather, sum, min, max, all-sum, all-min or all-max
parameter RANK :0:255|RANK|a number from 0 to 255
parameter PORT :1024:65472|PORT|a number from 1024 to 65472
parameter [PORT] :1024:65472|PORT|a number from 1024 to 65472
parameter SEED :0:18446744073709551615|SEED|a number from 0 to 18446744073709551615
parameter [COMMAND] world upgrade check launch node drill help|COMMAND|the name of a command
";

/// The number that a word is, or 0.
pub fn number(word: &str) -> u64 {
    word.parse::<u64>().unwrap_or(0)
}

/// Whether a word is the decimal text of a number of this range, without sign and leading zero.
pub fn is_number(word: &str, least: u64, most: u64) -> bool {
    let Ok(number) = word.parse::<u64>() else {
        return false;
    };
    let mut text = Buffer::new();
    text.format(number) == word && least <= number && number <= most
}

/// Whether a word is bytes.
fn is_bytes(word: &str) -> bool {
    let Some(digits) = word.strip_prefix('x') else {
        return false;
    };
    for digit in digits.bytes() {
        if !matches!(digit, b'0'..=b'9' | b'a'..=b'f') {
            return false;
        }
    }
    digits.len() % 2 == 0 && digits.len() <= DIGITS
}

/// The number that stands for an end of a range, in a job with these settings.
fn bound(word: &str, limits: Limits) -> u64 {
    if word.starts_with('R') {
        return limits.nodes.saturating_sub(1);
    }
    if word.starts_with('T') {
        return limits.threads.saturating_sub(1);
    }
    if word.starts_with('N') {
        return if limits.version == 2 { 256 } else { 64 };
    }
    number(word)
}

/// The letter, the least and the greatest number of a range. None of anything else.
fn range_of(one: &str, limits: Limits) -> Option<(&str, u64, u64)> {
    let (letter, range) = one.split_once(':')?;
    let (least, most) = range.split_once(':')?;
    Some((letter, bound(least, limits), bound(most, limits)))
}

/// Whether a word is this one, or of this range.
fn is_of(word: &str, one: &str, limits: Limits) -> bool {
    if let Some((letter, least, most)) = range_of(one, limits) {
        return match word.strip_prefix(letter) {
            Some(digits) => is_number(digits, least, most),
            None => false,
        };
    }
    if one == "bytes" {
        return is_bytes(word);
    }
    if one != "range" {
        return word == one;
    }
    match word.split_once('+') {
        Some((offset, len)) => is_number(offset, 0, u64::MAX) && is_number(len, 0, u64::MAX),
        None => false,
    }
}

/// Whether a word is one of these, or of one of these ranges.
pub fn fits(word: &str, kind: &str, limits: Limits) -> bool {
    for one in kind.split(' ') {
        if is_of(word, one, limits) {
            return true;
        }
    }
    false
}

/// What is told of a range.
pub fn range_text(alloc: Global, kind: &str, limits: Limits) -> Result<String, AllocError> {
    let (_, least, most) = range_of(kind, limits).unwrap_or(("", 0, 0));
    fill(alloc, "a number from % to %", &[], &[least, most])
}
