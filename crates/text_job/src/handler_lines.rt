//! Reading the handlers of a job.

ghost use Rattle.std.specs.Prelude.{◌≡◌, ◌+◌, ◌≤◌, ◌<◌, ◌==◌, [], length, map, true, IfOk};
ghost use Rattle.text_job.specs.Places.{AtHandlers, AtBody, AtScripts, end_or};
ghost use Rattle.text_steps.specs.Bodies.{action_at, action_form};
ghost use Rattle.text_job.specs.HeadReading.{found_in_line};
ghost use Rattle.text_job.specs.JobReading.{State, new_handler, item_of_line, has_index, is_reserved};
ghost use Rattle.text_job.specs.JobReading.{most_beside};
ghost use Rattle.text_job.specs.JobReading.{most_handlers, with_body, with_handler, handler_why};
ghost use Rattle.text_job.specs.JobReading.{read};
ghost use Rattle.text_job.specs.Scopes.{scope_of};
ghost use Rattle.base_text.specs.Lines.{first_word};
ghost use Rattle.base_text.specs.Found.{Reads};
ghost use Rattle.text_job.specs.Reading.{GivesAt, Continues};
ghost use Rattle.base_text.specs.Reasons.{reason};
ghost use Rattle.text_job.specs.declared.job.Job.{Job as JobState};
ghost use Rattle.text_job.specs.declared.job.HandlerText.{HandlerText as HandlerValue};
ghost use Rattle.std.specs.List.{list_any};
ghost use Rattle.std.specs.Str.{bytes_eq};
ghost use Rattle.std.specs.Prelude.{codes};

use crate::fault::JobFault;
use crate::forms::JobForm;
use crate::job::{Body, HandlerText, HandlerTexts};
use crate::sections::{HandlerHeader, header_line, header_why};
use base_text::{LineWhy, Miss, Other, ended, name_of, reason_of};
use node_atomics::{BATCH_HANDLER, BLOCK_HANDLER};
use std::alloc::Global;
use text_calls::Scope;
use text_steps::{Action, action_at, action_form};

/// The handler of collectives.
const COLLECTIVE_HANDLER: u8 = 254;

/// The most actions of a handler.
const ACTIONS: usize = 64;

/// An action, or none at the line `end`, and the bytes after the line.
fn action_or_end(alloc: Global, bytes: &[u8]) -> Result<(Option<Action>, &[u8]), Miss>
    ensures { Reads (λ x. (x.0, x.1.now)) result (item_of_line (end_or action_at) bytes.now) }
{
    if JobForm::End.begins(bytes) {
        let (_, rest) = name_of(bytes);
        let rest = ended(rest)?;
        return Ok((None, rest));
    }
    let (action, rest) = action_at(alloc, bytes)?;
    match ended(rest) {
        Ok(rest) => Ok((Some(action), rest)),
        Err(Other) => {
            drop(action);
            Err(Miss::Unlike)
        }
    }
}

/// The action of the next line, or none at the line `end`, and the bytes after it; or why it isn't read.
fn next_action(alloc: Global, line: u32, bytes: &[u8]) -> Result<(Option<Action>, &[u8]), JobFault>
    ensures { GivesAt (λ x. (x.0, x.1.now)) result (found_in_line line (reason action_form bytes.now)
        (item_of_line (end_or action_at) bytes.now)) }
{
    match action_or_end(alloc, bytes) {
        Ok(read) => Ok(read),
        Err(Miss::NoMemory) => Err(JobFault::NoMemory),
        Err(Miss::Unlike) => {
            let why = reason_of(action_form(bytes), bytes);
            Err(JobFault::Bad { line, why })
        }
    }
}

/// The actions of a handler up to the line `end`, with the next line's number and the bytes after it.
fn body_at(alloc: Global, first: u32, bytes: &[u8]) -> Result<(Body, u32, &[u8]), JobFault>
    requires { first ≤ 1000000 }
    ensures value { (handler : HandlerValue) (job : JobState) →
        Continues (λ x. read (record {
          place = AtHandlers;
          job = with_handler (with_body x.0 handler) job;
        }) x.1 x.2.now)
        result (read (record { place = AtBody (with_body [] handler); job = job }) first bytes.now) }
    ensures later { IfOk result (λ x. x.1 ≤ first + 65) }
{
    let mut actions = Vec::new(alloc);
    let mut rest = bytes;
    let mut line = first;
    loop {
        let (next, after) = match next_action(alloc, line, rest) {
            Ok(read) => read,
            Err(fault) => return Err(fault),
        };
        let Some(action) = next else {
            return Ok((Body { actions }, line + 1, after));
        };
        if actions.len() >= ACTIONS {
            drop(action);
            let why = LineWhy::Count;
            return Err(JobFault::Bad { line, why });
        }
        actions.push(action)?;
        rest = after;
        line += 1;
    }
}

/// The handler of this first line, with these actions.
fn handler_of(header: HandlerHeader, body: Body) -> HandlerText
    ensures { result ≡ with_body body (new_handler header) }
{
    HandlerText {
        index: header.index,
        role: header.role,
        locks: header.locks,
        body,
    }
}

/// Whether a handler has this index.
fn is_taken(handlers: &[HandlerText], index: u8) -> bool
    ensures { result ≡ list_any (λ t. t == index) (map (λ h. h.index) handlers.now) }
{
    handlers.iter().any(|handler| handler.index == index)
}

/// Whether a handler has this index, and it isn't 0.
fn has_index(handlers: &[HandlerText], index: u8) -> bool
    ensures { result ≡ has_index handlers.now index }
{
    index != 0 && is_taken(handlers, index)
}

/// Whether the handlers of batches have this index, or that of collectives has it, where the job has these.
fn is_reserved(scope: &Scope, index: u8) -> bool
    ensures { result ≡ is_reserved scope.now index }
{
    (scope.atomics && (index == BATCH_HANDLER || index == BLOCK_HANDLER))
        || (scope.collect && index == COLLECTIVE_HANDLER)
}

/// How many handlers a job may have beside those of batches and that of collectives, where it has these.
fn most_beside(atomics: bool, collect: bool) -> usize
    ensures { result ≡ most_beside atomics collect }
{
    match (atomics, collect) {
        (true, true) => 125,
        (true, false) => 126,
        (false, true) => 127,
        (false, false) => 128,
    }
}

/// How many handlers a job of such a scope may have of its own.
fn most_handlers(scope: &Scope) -> usize
    ensures { result ≡ most_handlers scope.now }
{
    most_beside(scope.atomics, scope.collect)
}

/// Why a handler with this index may not stand behind these.
fn why_not(scope: &Scope, handlers: &[HandlerText], index: u8) -> Option<LineWhy>
    ensures { result ≡ handler_why scope.now handlers.now index }
{
    if has_index(handlers, index) || is_reserved(scope, index) {
        return Some(LineWhy::Entry);
    }
    if handlers.len() >= most_handlers(scope) {
        return Some(LineWhy::Count);
    }
    None
}

/// The first line of a handler that may stand behind these, and the bytes after it.
fn next_header<'a>(
    alloc: Global,
    scope: &Scope,
    before: &[HandlerText],
    line: u32,
    bytes: &'a [u8],
) -> Result<(HandlerHeader, &'a [u8]), JobFault>
    requires { bytes_eq (first_word bytes.now) (codes "handler") ≡ true }
    ensures value { (job : JobState) → scope_of job ≡ scope.now → job.handlers ≡ before.now →
        Continues (λ x. read (record { place = AtBody (new_handler x.0); job = job }) (line + 1) x.1.now)
        result (read (record { place = AtHandlers; job = job }) line bytes.now) }
    ensures room { IfOk result (λ x. length before.now < 128) }
{
    let (header, rest) = match header_line(alloc, bytes) {
        Ok(read) => read,
        Err(Miss::NoMemory) => return Err(JobFault::NoMemory),
        Err(Miss::Unlike) => {
            let why = header_why(bytes);
            return Err(JobFault::Bad { line, why });
        }
    };
    match why_not(scope, before, header.index) {
        Some(why) => Err(JobFault::Bad { line, why }),
        None => Ok((header, rest)),
    }
}

/// The handlers up to the first line of another kind, with its number and the bytes from it on.
pub fn handlers_at<'a>(
    alloc: Global,
    scope: &Scope,
    first: u32,
    bytes: &'a [u8],
) -> Result<(HandlerTexts, u32, &'a [u8]), JobFault>
    requires { first ≤ 1000 }
    ensures value { (job : JobState) → scope_of job ≡ scope.now →
        Continues (λ x. read (record {
          place = AtScripts;
          job = record job { handlers = x.0 };
        }) x.1 x.2.now)
        result (read (record { place = AtHandlers; job = record job { handlers = [] } })
        first bytes.now) }
    ensures later { IfOk result (λ x. x.1 ≤ first + 8448) }
{
    let mut texts = Vec::new(alloc);
    let mut rest = bytes;
    let mut line = first;
    while JobForm::Handler.begins(rest) {
        let (header, after) = match next_header(alloc, scope, &texts, line, rest) {
            Ok(read) => read,
            Err(fault) => return Err(fault),
        };
        let (body, later, after) = match body_at(alloc, line + 1, after) {
            Ok(read) => read,
            Err(fault) => return Err(fault),
        };
        texts.push(handler_of(header, body))?;
        rest = after;
        line = later;
    }
    Ok((HandlerTexts { texts }, line, rest))
}
