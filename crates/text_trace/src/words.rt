//! Lines, and the words of a line.

ghost use Rattle.std.specs.Prelude.{◌≡◌, ◌≤◌, ◌<◌, ◌∷◌, ◌++◌, ◌==◌, [], length, position, true};
ghost use Rattle.std.specs.Prelude.{if◌then◌else◌, IfOk, IfErr, IfSome, IfNone};
ghost use Rattle.base_text.specs.Reasons.{is_text};
ghost use Rattle.base_text.specs.declared.why.LineWhy.TheVariants.{Text};
ghost use Rattle.text_trace.specs.TraceReading.{decoded_bytes, got_of, is_one};
ghost use Rattle.text_trace.specs.TraceReading.{line_at, number_between, thread_of};
ghost use Rattle.text_trace.specs.TraceReading.{words_of};
ghost use Rattle.text_trace.specs.TraceRead.{Gives, Tells};

use crate::fault::LineFault;
use base_io::MAX_DATAGRAM;
use base_text::{LineWhy, Miss, is_text, number_of, pairs_of};
use base_turns::Bytes;
use memchr::memchr;
use std::alloc::Global;

/// The most bytes that a turn got: a receive buffer has one more than the longest datagram.
pub const MAX_GOT: usize = MAX_DATAGRAM + 1;

/// Where a byte first stands, which is near.
fn place_of(bytes: &[u8], byte: u8) -> Option<usize>
    ensures value { result ≡ position (λ b. b == byte) bytes.now }
    ensures within { IfSome result (λ n. n < length bytes.now) }
{
    bytes.iter().position(|b| *b == byte)
}

/// Where a byte first stands, which may be far.
fn far_place_of(bytes: &[u8], byte: u8) -> Option<usize>
    ensures value { result ≡ position (λ b. b == byte) bytes.now }
    ensures within { IfSome result (λ n. n < length bytes.now) }
{
    memchr(byte, bytes)
}

/// The first line, and the bytes after it, whatever the line has.
#[tactic(auto, unfolding(crate::specs::TraceReading::line_at))]
pub fn cut_line(bytes: &[u8]) -> Result<(&[u8], &[u8]), LineWhy>
    ensures cut { IfOk result (λ x. line_at bytes.now
        ≡ (if is_text bytes.now then Ok (x.0.now, x.1.now) else Err Text)) }
    ensures none { IfErr result (λ why. line_at bytes.now ≡ Err why) }
    ensures whole { IfOk result (λ x. bytes.now ≡ x.0.now ++ 10 ∷ x.1.now) }
    ensures shorter { IfOk result (λ x. length x.1.now < length bytes.now) }
{
    if bytes.is_empty() {
        return Err(LineWhy::Early);
    }
    let Some(end) = far_place_of(bytes, b'\n') else {
        return Err(LineWhy::Text);
    };
    let (line, _) = bytes.split_at(end);
    let (_, rest) = bytes.split_at(end + 1);
    Ok((line, rest))
}

/// The first line, which has words only, and the bytes after it.
pub fn line_of(bytes: &[u8]) -> Result<(&[u8], &[u8]), LineWhy>
    ensures value { Tells (λ x. (x.0.now, x.1.now)) result (line_at bytes.now) }
    ensures shorter { IfOk result (λ x. length x.1.now < length bytes.now) }
{
    let (line, rest) = cut_line(bytes)?;
    if !is_text(bytes) {
        return Err(LineWhy::Text);
    }
    Ok((line, rest))
}

/// Why bytes are refused whose first line was refused by its words: its text comes first.
pub fn refusal_of(bytes: &[u8], why: LineWhy) -> LineWhy
    ensures { result ≡ (if is_text bytes.now then why else Text) }
{
    if is_text(bytes) { why } else { LineWhy::Text }
}

/// The first word of a line, and the words after it, where there are some.
pub fn cut_word(line: &[u8]) -> Option<(&[u8], &[u8])>
    ensures some { IfSome result (λ x. words_of line.now ≡ x.0.now ∷ words_of x.1.now) }
    ensures none { IfNone result (words_of line.now ≡ line.now ∷ []) }
{
    let end = place_of(line, b' ')?;
    let (word, _) = line.split_at(end);
    let (_, rest) = line.split_at(end + 1);
    Some((word, rest))
}

/// Whether a line is one word.
pub fn is_one(line: &[u8]) -> bool
    ensures value { result ≡ is_one (words_of line.now) }
    ensures word { result ≡ true → words_of line.now ≡ line.now ∷ [] }
{
    far_place_of(line, b' ').is_none()
}

/// The number of a range that a word is.
#[tactic(auto, unfolding(crate::specs::TraceReading::number_between))]
pub fn number_between(word: &[u8], low: u64, high: u64) -> Result<u64, LineWhy>
    ensures value { Tells (λ n. n) result (number_between low high word.now) }
    ensures range { IfOk result (λ n. (low ≤ n) × (n ≤ high)) }
{
    match number_of(word) {
        Ok(number) if low <= number && number <= high => Ok(number),
        _ => Err(LineWhy::Value),
    }
}

/// The thread that a word names, one of so many.
#[tactic(auto, unfolding(crate::specs::TraceReading::thread_of))]
pub fn thread_of(word: &[u8], threads: u16) -> Result<u16, LineWhy>
    ensures { Tells (λ n. n) result (thread_of threads word.now) }
{
    let number = number_between(word, 0, 65_535)?;
    let thread = number as u16;
    if thread < threads {
        Ok(thread)
    } else {
        Err(LineWhy::Value)
    }
}

/// The bytes whose digits a word is.
#[tactic(auto, unfolding(crate::specs::TraceReading::decoded_bytes))]
fn decoded_bytes(alloc: Global, word: &[u8]) -> Result<Bytes, LineFault>
    ensures { Gives (λ b. b) result (decoded_bytes word.now) }
{
    if word.len() / 2 > MAX_GOT {
        return Err(LineFault::Bad(LineWhy::Value));
    }
    match pairs_of(alloc, word) {
        Ok(bytes) => Ok(Bytes::of(bytes)),
        Err(Miss::NoMemory) => Err(LineFault::NoMemory),
        Err(Miss::Unlike) => Err(LineFault::Bad(LineWhy::Value)),
    }
}

/// What a turn got, as a word says it.
#[tactic(auto, unfolding(crate::specs::TraceReading::got_of))]
pub fn got_of(alloc: Global, word: &[u8]) -> Result<Option<Bytes>, LineFault>
    ensures { Gives (λ b. b) result (got_of word.now) }
{
    if word == b"-".as_slice() {
        return Ok(None);
    }
    if word.is_empty() || word[0] != b'x' {
        return Err(LineFault::Bad(LineWhy::Value));
    }
    let (_, digits) = word.split_at(1);
    let bytes = decoded_bytes(alloc, digits)?;
    Ok(Some(bytes))
}
