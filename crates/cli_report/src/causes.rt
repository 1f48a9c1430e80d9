//! Why a run went wrong.

ghost use Rattle.std.specs.Prelude.{◌≡◌, IfOk, string_bytes};
ghost use Rattle.cli_report.specs.Causes.{IsBadJob, IsCaused, IsFaultAt, IsFaultOf, IsUseFault, fault_line, sentence};
ghost use Rattle.cli_report.specs.Status.{line_status};

use crate::command::Command;
use crate::status::{last_line, line_status};
use crate::texts::Texts;
use std::alloc::{AllocError, Global};
use std::io;

/// The text of the system's error of this number.
///
/// # Errors
///
/// `AllocError` where memory ran out.
pub(crate) fn error_text(alloc: Global, code: i32) -> Result<String, AllocError> {
    let error = io::Error::from_raw_os_error(code);
    format!(in alloc; "{error}")
}

/// What failed, and the system's error, where it has one.
fn caused(alloc: Global, what: &str, code: Option<i32>) -> Result<String, AllocError>
    ensures { IfOk result (λ text. IsCaused what.now code (string_bytes text)) }
{
    let Some(code) = code else {
        return String::from_str(alloc, what);
    };
    let error = error_text(alloc, code)?;
    let error = error.as_str();
    format!(in alloc; "{what}: {error}")
}

/// The words of a bad job's status line: the line's number, and the word of the reason.
fn bad_line(line: &[u8]) -> Option<(u32, &str)> {
    let behind = line.strip_prefix("status 3 bad-job ".as_bytes())?;
    let (line, reason) = std::str::from_utf8(behind).ok()?.split_once(' ')?;
    let line = line.parse::<u32>().ok()?;
    Some((line, reason))
}

/// Why a job's text is refused, by the status line.
fn bad_job<T: Texts>(alloc: Global, line: &[u8], job: &[u8]) -> Result<String, AllocError>
    ensures { IfOk result (λ text. IsBadJob T.Texts job.now (string_bytes text)) }
{
    match bad_line(line) {
        Some((line, reason)) => T::job_fault(alloc, job, line, reason),
        None => Ok(String::new(alloc)),
    }
}

/// What is told of a wrong use: the words are those of no command, or the job has no place for what
/// they say.
fn use_fault<T: Texts>(alloc: Global, words: &[String], job: &[u8]) -> Result<String, AllocError>
    ensures { IfOk result (λ text. IsUseFault T.Texts words.now job.now (string_bytes text)) }
{
    let text = T::usage_fault(alloc, words)?;
    if text.is_empty() {
        return T::place_fault(alloc, words, job);
    }
    Ok(text)
}

/// What is told of a status by itself. Empty where that is nothing.
#[tactic(auto, unfolding(crate::specs::Causes::sentence))]
fn sentence(status: u8) -> &'static str
    ensures { result.now ≡ sentence status }
{
    match status {
        8 => "memory ran out",
        9 => "a script still waits, after so many quiet turns as the job's patience",
        10 => "there were more turns than are kept",
        _ => "",
    }
}

/// Why a run went wrong, by the status that this last line tells.
fn fault_at<T: Texts>(
    alloc: Global,
    command: &Command,
    line: &[u8],
    link: &str,
    start: &str,
) -> Result<String, AllocError>
    ensures { IfOk result (λ text. IsFaultAt T.Texts command.now link.now start.now
        (line_status line.now) (string_bytes text)) }
{
    match line_status(line) {
        Some(2) => use_fault::<T>(alloc, &command.words, &command.input.bytes),
        Some(3) => bad_job::<T>(alloc, line, &command.input.bytes),
        Some(4) => caused(alloc, "standard input can't be read", command.input.fault),
        Some(6) => String::from_str(alloc, link),
        Some(7) => String::from_str(alloc, start),
        Some(status) => String::from_str(alloc, sentence(status)),
        None => Ok(String::new(alloc)),
    }
}

/// Why a run went wrong. Empty where it didn't, or nothing is known.
///
/// # Errors
///
/// `AllocError` where memory ran out.
pub(crate) fn fault_of<T: Texts>(
    alloc: Global,
    command: &Command,
    link: &str,
    start: &str,
) -> Result<String, AllocError>
    ensures { IfOk result (λ text. IsFaultOf T.Texts command.now link.now start.now
        (string_bytes text)) }
{
    let line = last_line(&command.output.bytes);
    if command.output.failed {
        let what = "standard output can't be written";
        return caused(alloc, what, command.output.fault);
    }
    fault_at::<T>(alloc, command, line, link, start)
}

/// The line that tells why a run went wrong, or that it has no ports. None where there is nothing.
///
/// # Errors
///
/// `AllocError` where memory ran out.
pub(crate) fn fault_line(alloc: Global, fault: &str) -> Result<String, AllocError>
    ensures { IfOk result (λ text. string_bytes text ≡ fault_line fault.now) }
{
    if fault.is_empty() {
        return Ok(String::new(alloc));
    }
    format!(in alloc; "gasnet_cli: {fault}\n")
}
