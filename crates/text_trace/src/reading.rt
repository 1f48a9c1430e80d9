//! Reading the lines of a trace.

ghost use Rattle.std.specs.Prelude.{◌≡◌, ◌+◌, ◌≤◌, ◌<◌, ◌^◌, length};
ghost use Rattle.std.specs.Prelude.{IfOk};
ghost use Rattle.text_trace.specs.TraceReading.{entries_at, entry_of, is_end, entry_or_end};
ghost use Rattle.text_trace.specs.TraceReading.{read_line, second_of, setting_of};
ghost use Rattle.text_trace.specs.TraceReading.{turn_of, words_of, TurnWords};
ghost use Rattle.base_text.specs.declared.why.LineWhy.{LineWhy as Why};
ghost use Rattle.text_trace.specs.LineNames.{line_name};
ghost use Rattle.text_trace.specs.TraceRead.{Gives, GivesAt, Tells};

use crate::fault::{LineFault, TraceFault};
use crate::line_name::LineName;
use crate::words::{
    cut_line, cut_word, got_of, is_one, line_of, number_between, refusal_of, thread_of,
};
use base_text::LineWhy;
use base_turns::Entry;
use std::alloc::Global;

/// The second word of a line of a name and another word.
#[tactic(auto, unfolding(crate::specs::TraceReading::second_of))]
fn second_of(name: LineName, line: &[u8]) -> Result<&[u8], LineWhy>
    ensures { Tells (λ w. w.now) result (second_of (line_name name) (words_of line.now)) }
{
    let Some((word, value)) = cut_word(line) else {
        return Err(LineWhy::Form);
    };
    if !is_one(value) {
        return Err(LineWhy::Form);
    }
    if !name.matches(word) {
        return Err(LineWhy::Form);
    }
    Ok(value)
}

/// The number of a line of this name, in its range.
#[tactic(auto, unfolding(crate::specs::TraceReading::setting_of))]
fn setting_of(name: LineName, low: u64, high: u64, line: &[u8]) -> Result<u64, LineWhy>
    ensures value { Tells (λ n. n) result
        (setting_of (line_name name) low high (words_of line.now)) }
    ensures range { IfOk result (λ n. (low ≤ n) × (n ≤ high)) }
{
    match second_of(name, line) {
        Ok(word) => number_between(word, low, high),
        Err(why) => Err(why),
    }
}

/// The number of the next line, which has this name, and the bytes after the line.
pub(crate) fn setting_at(
    line: u32,
    name: LineName,
    low: u64,
    high: u64,
    bytes: &[u8],
) -> Result<(u64, &[u8]), TraceFault>
    ensures value { GivesAt (λ x. (x.0, x.1.now)) result
        (read_line line (setting_of (line_name name) low high) bytes.now) }
    ensures range { IfOk result (λ x. (low ≤ x.0) × (x.0 ≤ high)) }
    ensures shorter { IfOk result (λ x. length x.1.now < length bytes.now) }
{
    let (text, rest) = match line_of(bytes) {
        Ok(read) => read,
        Err(why) => return Err(TraceFault::Bad { line, why }),
    };
    match setting_of(name, low, high, text) {
        Ok(number) => Ok((number, rest)),
        Err(why) => Err(TraceFault::Bad { line, why }),
    }
}

/// Whether a line is `end`.
#[tactic(auto, unfolding(crate::specs::TraceReading::is_end))]
fn is_end(line: &[u8]) -> bool
    ensures { result ≡ is_end (words_of line.now) }
{
    LineName::End.matches(line)
}

/// The three words behind `turn`.
#[derive(Clone, Copy)]
struct Turn<'a> {
    thread: &'a [u8],
    time: &'a [u8],
    got: &'a [u8],
}

/// The words of a line `turn`.
#[tactic(auto, unfolding(crate::specs::TraceReading::turn_of))]
fn turn_of(line: &[u8]) -> Result<Turn<'_>, LineWhy>
    ensures { Tells (λ t. record { thread = t.thread.now; time = t.time.now; got = t.got.now })
        result (turn_of (words_of line.now)) }
{
    let Some((word, rest)) = cut_word(line) else {
        return Err(LineWhy::Form);
    };
    let Some((thread, rest)) = cut_word(rest) else {
        return Err(LineWhy::Form);
    };
    let Some((time, got)) = cut_word(rest) else {
        return Err(LineWhy::Form);
    };
    if !is_one(got) {
        return Err(LineWhy::Form);
    }
    if !LineName::Turn.matches(word) {
        return Err(LineWhy::Form);
    }
    Ok(Turn { thread, time, got })
}

/// The entry that the words of a line `turn` say.
#[tactic(auto, unfolding(crate::specs::TraceReading::entry_of))]
fn entry_of(alloc: Global, threads: u16, turn: Turn<'_>) -> Result<Entry, LineFault>
    ensures { let words : TurnWords = record {
      thread = turn.entry.thread.now;
      time = turn.entry.time.now;
      got = turn.entry.got.now;
    } in Gives (λ e. e) result (entry_of threads words) }
{
    let thread = thread_of(turn.thread, threads)?;
    let now = number_between(turn.time, 0, u64::MAX)?;
    let got = got_of(alloc, turn.got)?;
    Ok(Entry { thread, now, got })
}

/// The entry of a line, or none where it is `end`.
#[tactic(auto, unfolding(crate::specs::TraceReading::entry_or_end))]
fn entry_or_end(alloc: Global, threads: u16, line: &[u8]) -> Result<Option<Entry>, LineFault>
    ensures { Gives (λ e. e) result (entry_or_end threads (words_of line.now)) }
{
    if is_end(line) {
        return Ok(None);
    }
    let turn = turn_of(line)?;
    let entry = entry_of(alloc, threads, turn)?;
    Ok(Some(entry))
}

/// The entry of the next line, or none where it is `end`, and the bytes after the line.
fn next_at(
    alloc: Global,
    threads: u16,
    line: u32,
    bytes: &[u8],
) -> Result<(Option<Entry>, &[u8]), TraceFault>
    ensures value { GivesAt (λ x. (x.0, x.1.now)) result
        (read_line line (entry_or_end threads) bytes.now) }
    ensures shorter { IfOk result (λ x. length x.1.now < length bytes.now) }
{
    let (text, rest) = match cut_line(bytes) {
        Ok(read) => read,
        Err(why) => return Err(TraceFault::Bad { line, why }),
    };
    match entry_or_end(alloc, threads, text) {
        Ok(next) => Ok((next, rest)),
        Err(LineFault::NoMemory) => Err(TraceFault::NoMemory),
        Err(LineFault::Bad(why)) => Err(TraceFault::Bad {
            line,
            why: refusal_of(bytes, why),
        }),
    }
}

/// The entries up to the line `end`, and the bytes after it.
pub(crate) fn entries_at(
    alloc: Global,
    threads: u16,
    line: u32,
    bytes: &[u8],
) -> Result<(Vec<Entry>, &[u8]), TraceFault>
    requires { line + length bytes.now < 2 ^ 32 }
    ensures value { GivesAt (λ x. (x.0.items, x.1.now)) result
        (entries_at (length bytes.now + 1) threads line bytes.now) }
    ensures within { IfOk result (λ x. length x.1.now ≤ length bytes.now) }
{
    let mut entries = Vec::new(alloc);
    let mut number = line;
    let mut rest = bytes;
    loop {
        let (next, after) = match next_at(alloc, threads, number, rest) {
            Ok(read) => read,
            Err(fault) => return Err(fault),
        };
        let Some(entry) = next else {
            return Ok((entries, after));
        };
        entries.push(entry)?;
        number += 1;
        rest = after;
    }
}
