//! Why a line of a job's text is refused, for a person.

use crate::forms::{Form, PREFIX, form_in, names};
use crate::kinds::{fits, range_text};
use crate::places::Reading;
use crate::tables::{as_one, fill, row, word_of};
use std::alloc::{AllocError, Global};

/// The words before a call in a schedule.
const BEFORE_CALL: usize = 4;

/// The place of a word that isn't known.
const NOWHERE: usize = usize::MAX;

/// What was expected: of words that have to fit together, by the first word of their form; of an
/// entry, by its first word; of one entry too many, by the place; and what an output has, and what
/// is wrong there.
static TOLD: &str = "\
together credits a C for which N(N-1)C is at most 65536
together segment a multiple of 4096, for all nodes at most 268435456
together pair two nodes that differ, and at most 65536 credits of all pairs
together handler locks that rise strictly
together request two nodes that differ
together reply two nodes that differ
together collect an area: BASE and ROOM multiples of 8, its 2N(16+ROOM) bytes within the segment
together atomic a batch: TO is a node, each OFF and LOCAL a multiple of 8 within the segment
together put-s a plan: TO is a node, as many bytes there as here, in the segments, none written \
twice
together get-s a plan: TO is a node, as many bytes there as here, in the segments, none written \
twice
together put-v a plan: TO is a node, as many bytes there as here, in the segments, none written \
twice
together get-v a plan: TO is a node, as many bytes there as here, in the segments, none written \
twice
together _ other words
entry pair a pair that no line before has
entry script a thread that no script before is of
entry _ an index that no handler before has, behind atomics neither 252 nor 253, and behind collect \
not 254
count body at most 64 actions of a handler
count steps at most 4096 steps of a script, and 65536 pieces of all plans
count schedule at most 65536 lines of the schedule and pieces of plans, 4096 rounds, 262144 \
rounds times nodes
count pairs at most 64 pairs, and 128 handlers, 2 fewer behind atomics, 1 fewer behind collect
count _ at most 128 handlers, 2 fewer behind atomics, 1 fewer behind collect
line 0 `trace VERSION`, as the job has it
line 1 `job J`, as the job has it
line 2 `rank RANK`
line _ `turn THREAD NOW GOT`, or `end` and behind it `status 0 ok` or another end of a node
output early the input ends before this line
output after bytes stand behind the last output
output form another line has to stand here
output _ a word isn't in its range
";

/// A line that was refused.
#[derive(Clone, Copy)]
pub struct BadLine<'a> {
    /// Its number, from 1.
    pub line: u32,
    /// The word of the reason.
    pub reason: &'a str,
}

/// What is told of a line of words.
#[derive(Drop)]
struct Told {
    /// The place of the word that is wrong, from 0.
    word: usize,
    /// What is wrong.
    wrong: &'static str,
    /// What was expected there.
    expected: String,
}

/// A line of words.
#[derive(Clone, Copy)]
struct Words<'a> {
    /// Its text.
    line: &'a str,
    /// How many words it has.
    count: usize,
    /// The place of the first one of the form.
    first: usize,
    /// What comes next there, as the forms are looked for.
    place: &'static str,
    /// The form that they begin as.
    form: Form,
}

/// The first line of bytes without the byte that ends it, and the bytes behind that.
pub(crate) fn next_line(bytes: &[u8]) -> Option<(&[u8], &[u8])> {
    for (place, byte) in bytes.iter().enumerate() {
        if *byte == b'\n' {
            return Some((bytes.get(..place)?, bytes.get(place.saturating_add(1)..)?));
        }
    }
    None
}

/// The text of a line, where it is text.
pub(crate) fn text_of(line: &[u8]) -> &str {
    std::str::from_utf8(line).unwrap_or("")
}

/// What is known before the line of a number, and the bytes from that line on. None where there are
/// not so many lines.
fn before(text: &[u8], line: u32) -> Option<(Reading, &[u8])> {
    let mut reading = Reading::new();
    let mut rest = text;
    for _ in 1..line {
        let (passed, after) = next_line(rest)?;
        reading.pass(text_of(passed));
        rest = after;
    }
    Some((reading, rest))
}

/// The place of the first word of a line's form. Before it stand the round, and what a call has.
fn first_of(reading: &Reading, line: &str) -> usize {
    if reading.place != "schedule" || word_of(line, 0) == "end" {
        return 0;
    }
    if word_of(line, 1) == "call" {
        BEFORE_CALL
    } else {
        1
    }
}

/// The words of a line with their form.
fn words_of<'a>(reading: &Reading, line: &'a str) -> Words<'a> {
    let first = first_of(reading, line);
    let place = if first == BEFORE_CALL {
        "call"
    } else {
        reading.place
    };
    Words {
        line,
        count: line.split(' ').count(),
        first,
        place,
        form: form_in(reading, place, true, line, first),
    }
}

/// What is told where no form begins as the words do. Where some other job may have the word, that
/// is told.
fn name_fault(alloc: Global, reading: &Reading, words: &Words<'_>) -> Result<Told, AllocError> {
    let place = if words.first == 1 {
        "round"
    } else {
        words.place
    };
    let expected = names(alloc, reading, place)?;
    let other = form_in(reading, words.place, false, words.line, words.first);
    let wrong = if words.count <= words.first {
        "a word is missing at the end of the line"
    } else if other.part.is_empty() {
        "no line that may stand here has this word here"
    } else if other.part == "batch" {
        "this word stands behind the line atomics alone"
    } else if other.part == "collective" || other.part == "whole" {
        "this word stands behind the line collect alone"
    } else {
        "this word stands in version 2 alone"
    };
    Ok(Told {
        word: words.first,
        wrong,
        expected,
    })
}

/// What is told of a line that has no form.
fn form_fault(alloc: Global, reading: &Reading, words: &Words<'_>) -> Result<Told, AllocError> {
    let form = words.form;
    if form.part.is_empty() {
        return name_fault(alloc, reading, words);
    }
    let most = words.first.saturating_add(form.most);
    let (word, wrong) = if words.count > most {
        (most, "this word is one too many")
    } else if words.count < words.first.saturating_add(form.least) {
        (NOWHERE, "a word is missing at the end of the line")
    } else {
        (NOWHERE, "the words aren't of the form")
    };
    Ok(Told {
        word,
        wrong,
        expected: fill(alloc, "the form `@`", &[form.text], &[])?,
    })
}

/// What is told of a line whose words aren't all in their ranges.
fn value_fault(alloc: Global, reading: &Reading, words: &Words<'_>) -> Result<Told, AllocError> {
    for (place, word) in words.line.split(' ').enumerate() {
        let (form, within) = match place.checked_sub(words.first) {
            Some(within) => (words.form, within),
            None => (PREFIX, place),
        };
        let name = form.word_at(within);
        let kind = form.kind_of(name);
        let (kind, expected) = kind.split_once('|').unwrap_or((kind, ""));
        if kind.is_empty() || fits(word, kind, reading.limits) {
            continue;
        }
        let range = range_text(alloc, kind, reading.limits)?;
        let expected = if expected.is_empty() {
            range.as_str()
        } else {
            expected
        };
        return Ok(Told {
            word: place,
            wrong: "this word isn't in its range",
            expected: fill(alloc, "@, @", &as_one(name, expected, "", ""), &[])?,
        });
    }
    Ok(Told {
        word: NOWHERE,
        wrong: "each word is in its range, but not all together",
        expected: String::from_str(alloc, row(TOLD, "together", "", words.form.name))?,
    })
}

/// What is told of a line of words, by the word of the reason.
fn words_fault(
    alloc: Global,
    reading: &Reading,
    words: &Words<'_>,
    reason: &str,
) -> Result<Told, AllocError> {
    if reason == "form" {
        return form_fault(alloc, reading, words);
    }
    if reason == "value" {
        return value_fault(alloc, reading, words);
    }
    let (word, wrong, expected) = if reason == "entry" {
        let name = word_of(words.line, 0);
        let wrong = "the entry that begins with this word is taken";
        (1, wrong, row(TOLD, "entry", "", name))
    } else {
        let wrong = "the line is one too many, or has too much";
        (NOWHERE, wrong, row(TOLD, "count", "", reading.place))
    };
    Ok(Told {
        word,
        wrong,
        expected: String::from_str(alloc, expected)?,
    })
}

/// What is told of a line of words, in a line.
fn line_fault(
    alloc: Global,
    reading: &Reading,
    bad: BadLine<'_>,
    text: &str,
) -> Result<String, AllocError> {
    let words = words_of(reading, text);
    let told = words_fault(alloc, reading, &words, bad.reason)?;
    let line = u64::from(bad.line);
    let expected = told.expected.as_str();
    let mut column: u64 = 1;
    for (place, word) in text.split(' ').enumerate() {
        if place == told.word {
            return fill(
                alloc,
                "line %, column %, `@`: @; expected @",
                &as_one(word, told.wrong, expected, ""),
                &[line, column],
            );
        }
        column = column.saturating_add(word.len() as u64).saturating_add(1);
    }
    fill(
        alloc,
        "line %: @; expected @",
        &as_one(told.wrong, expected, "", ""),
        &[line],
    )
}

/// The place of the first byte that may not stand in a line, from 0: one that isn't printable. Else
/// as many as there are.
fn bad_byte(line: &[u8]) -> usize {
    for (place, byte) in line.iter().enumerate() {
        if *byte < 32 || *byte > 126 {
            return place;
        }
    }
    line.len()
}

/// The place of the first space that doesn't stand between two words, from 0.
fn bad_space(line: &[u8]) -> usize {
    let mut space = true;
    for (place, byte) in line.iter().enumerate() {
        if *byte == b' ' && space {
            return place;
        }
        space = *byte == b' ';
    }
    line.len().saturating_sub(1)
}

/// What is told of a line that is none of words.
fn text_fault(alloc: Global, line: u64, rest: &[u8]) -> Result<String, AllocError> {
    let text = match next_line(rest) {
        Some((text, _)) => text,
        None => rest,
    };
    let place = bad_byte(text);
    if let Some(byte) = text.get(place) {
        let told = "line %, column %: byte % can't stand in a line; expected printable ASCII";
        let column = (place as u64).saturating_add(1);
        return fill(alloc, told, &[], &[line, column, u64::from(*byte)]);
    }
    let place = bad_space(text);
    let column = (place as u64).saturating_add(1);
    let told = if text.is_empty() {
        "line %: the line is empty; expected words"
    } else if let Some(b' ') = text.get(place) {
        "line %, column %: a word is empty; expected one space between two words, and none at the \
        ends"
    } else if text.len() < rest.len() {
        "line %: the line is none of words"
    } else {
        "line %: byte 10 is missing at the end of the line; expected it behind each line"
    };
    fill(alloc, told, &[], &[line, column])
}

/// What is told of a line of a node's output.
fn output_fault(alloc: Global, bad: BadLine<'_>, reading: &Reading) -> Result<String, AllocError> {
    let own = fill(alloc, "%", &[], &[reading.lines])?;
    let expected = row(TOLD, "line", "", own.as_str());
    let wrong = row(TOLD, "output", "", bad.reason);
    let numbers = [
        u64::from(bad.line),
        reading.lines.saturating_add(1),
        reading.outputs,
    ];
    let told = "line %, line % of the output of node %: @; expected @";
    fill(alloc, told, &[wrong, expected], &numbers)
}

/// What is told of a text that ends before its last line.
fn early_fault(alloc: Global, line: u64, reading: &Reading) -> Result<String, AllocError> {
    let told = "line %: the text ends before this line; expected @";
    if reading.place == "schedule" {
        return fill(alloc, told, &["NOW and an event, or end"], &[line]);
    }
    let names = names(alloc, reading, reading.place)?;
    fill(alloc, told, &[names.as_str()], &[line])
}

/// Why a text is no job's, or none of a job with the outputs of its nodes: the line, the column and
/// the word where they are known, what is wrong, and what was expected there. The text may be the
/// beginning of what was read.
pub fn job_fault(alloc: Global, text: &[u8], bad: BadLine<'_>) -> Result<String, AllocError> {
    let (line, reason) = (u64::from(bad.line), bad.reason);
    if line == 0 {
        return String::from_str(
            alloc,
            "the text is too long; expected a job of at most 4194304 bytes, and for check at most \
            67108864 in all",
        );
    }
    let Some((reading, rest)) = before(text, bad.line) else {
        return fill(alloc, "line %: @", &[reason], &[line]);
    };
    let is_behind = reading.place == "behind";
    if is_behind && reason == "after" && reading.outputs == 0 {
        let told = "line %: bytes stand behind the line `done`; expected the end of the text";
        return fill(alloc, told, &[], &[line]);
    }
    if reason == "text" {
        return text_fault(alloc, line, rest);
    }
    if is_behind {
        return output_fault(alloc, bad, &reading);
    }
    if reason == "early" {
        return early_fault(alloc, line, &reading);
    }
    match next_line(rest) {
        Some((bytes, _)) => line_fault(alloc, &reading, bad, text_of(bytes)),
        None => fill(alloc, "line %: @", &[reason], &[line]),
    }
}
