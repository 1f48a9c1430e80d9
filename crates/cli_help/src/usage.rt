//! Why the words of the command line are those of no command.

use crate::commands::{CommandText, NAMES, command_of};
use crate::faults::{next_line, text_of};
use crate::kinds::{KINDS, fits, is_number};
use crate::places::NO_LIMITS;
use crate::tables::{as_one, fill, row, word_of};
use std::alloc::{AllocError, Global};

/// What may stand for a word of a command, the word without brackets, and what is told of it.
pub(crate) fn parameter_of(word: &str) -> [&'static str; 3] {
    let mut fields = row(KINDS, "parameter", "", word).splitn(3, '|');
    let kind = fields.next().unwrap_or("");
    let name = fields.next().unwrap_or("");
    [kind, name, fields.next().unwrap_or("")]
}

/// What is wrong with the words behind the name of a command. Empty where nothing is.
fn words_fault(
    alloc: Global,
    command: &CommandText,
    words: &[String],
) -> Result<String, AllocError> {
    let name = command.name;
    let mut others = words.iter();
    let mut count: u64 = 0;
    for parameter in command.usage.split(' ').skip(1) {
        let [kind, what, expected] = parameter_of(parameter);
        let Some(word) = others.next() else {
            if parameter.starts_with('[') {
                return Ok(String::new(alloc));
            }
            return fill(
                alloc,
                "@ lacks its @; expected @",
                &[name, what, expected],
                &[],
            );
        };
        if !fits(word.as_str(), kind, NO_LIMITS) {
            let told = "`@` can't be the @ of @; expected @";
            return fill(
                alloc,
                told,
                &as_one(word.as_str(), what, name, expected),
                &[],
            );
        }
        count = count.saturating_add(1);
    }
    match others.next() {
        Some(word) => {
            let told = "`@` is a word too many; expected @ with % words behind it";
            fill(alloc, told, &as_one(word.as_str(), name, "", ""), &[count])
        }
        None => Ok(String::new(alloc)),
    }
}

/// What is wrong with the words of the command line, in a line: the word, and what was expected
/// there. Empty where they are those of a command.
pub fn usage_fault(alloc: Global, words: &[String]) -> Result<String, AllocError> {
    let Some((name, others)) = words.split_first() else {
        return fill(
            alloc,
            "there is no command; expected one of @",
            &[NAMES],
            &[],
        );
    };
    let command = command_of(name.as_str());
    if command.usage.is_empty() {
        let told = "`@` is no command; expected one of @";
        return fill(alloc, told, &as_one(name.as_str(), NAMES, "", ""), &[]);
    }
    words_fault(alloc, &command, others)
}

/// The nodes of a job's text, by its third line.
fn nodes_of(job: &[u8]) -> Option<u64> {
    let (_, second) = next_line(job)?;
    let (_, third) = next_line(second)?;
    let (line, _) = next_line(third)?;
    let number = text_of(line).strip_prefix("nodes ")?;
    number.parse::<u64>().ok()
}

/// What is wrong with the words of a command for the job that was read: it has no node of this
/// rank, or its last node no port. Empty where neither is so.
pub fn place_fault(alloc: Global, words: &[String], job: &[u8]) -> Result<String, AllocError> {
    let (Some(nodes), Some(port)) = (nodes_of(job), words.last()) else {
        return Ok(String::new(alloc));
    };
    let last = nodes.saturating_sub(1);
    if let [name, rank, _] = words {
        if name.as_str() == "node" && !is_number(rank.as_str(), 0, last) {
            let told =
                "`@` can't be the RANK of node; expected a number from 0 to %, for the job has % \
                nodes";
            return fill(alloc, told, &[rank.as_str()], &[last, nodes]);
        }
    }
    let most = 65_535u64.saturating_sub(last);
    if is_number(port.as_str(), 0, most) {
        return Ok(String::new(alloc));
    }
    fill(
        alloc,
        "`@` can't be the PORT; expected a number from 1024 to %, for the last of % nodes has the \
        port PORT + %",
        &[port.as_str()],
        &[most, nodes, last],
    )
}
