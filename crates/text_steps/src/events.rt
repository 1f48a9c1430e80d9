//! Reading lines of a schedule.

ghost use Rattle.std.specs.Prelude.{◌≡◌, ◌-◌};
ghost use Rattle.text_steps.specs.Events.{event_at, event_form, event_of, event_words_at, timed_at};
ghost use Rattle.text_steps.specs.Events.{timed_form};
ghost use Rattle.text_steps.specs.declared.event_forms.EventForm.TheVariants as forms;
ghost use Rattle.text_calls.specs.declared.scope.Scope.{Scope};
ghost use Rattle.text_calls.specs.Forms.{Number, part_at};
ghost use Rattle.base_text.specs.Found.{Finds, Reads};

use crate::event_forms::EventForm;
use crate::steps::{ScheduledEvent, TimedEvent};
use crate::thread_actions::{ThreadAction, thread_action_at};
use base_text::{Miss, Other, name_of, spaced};
use std::alloc::Global;
use text_calls::{Scope, number_at, number_here, short_at};

/// A number below a count behind a space; 0 alone where there is none below it.
#[inline(always)]
fn index_at(bytes: &[u8], count: u16) -> Result<(u16, &[u8]), Other>
    ensures { Finds (λ x. (x.0, x.1.now)) result (part_at (Number 0 (count - 1)) bytes.now) }
{
    short_at(bytes, count.saturating_sub(1))
}

/// The event that a thread of a node does this.
fn event_of(node: u16, thread: u16, action: ThreadAction) -> ScheduledEvent
    ensures { result ≡ event_of node thread action }
{
    match action {
        ThreadAction::Call { call } => ScheduledEvent::Call { node, thread, call },
        ThreadAction::Vis { vis } => ScheduledEvent::Vis { node, thread, vis },
        ThreadAction::Collective { call } => ScheduledEvent::Collective { node, thread, call },
    }
}

/// What a thread of a node does.
#[tactic(auto, unfolding(crate::specs::Events::event_words_at))]
fn call_event<'a>(
    alloc: Global,
    scope: &Scope,
    rest: &'a [u8],
) -> Result<(ScheduledEvent, &'a [u8]), Miss>
    ensures { Reads (λ x. (x.0, x.1.now)) result (event_words_at scope.now forms.Call rest.now) }
{
    let (node, rest) = index_at(rest, scope.settings.nodes())?;
    let (thread, rest) = index_at(rest, scope.settings.threads())?;
    let (action, rest) = thread_action_at(alloc, scope, spaced(rest)?)?;
    Ok((event_of(node, thread, action), rest))
}

/// The delivery of a request.
#[tactic(auto, unfolding(crate::specs::Events::event_words_at))]
fn request_event<'a>(scope: &Scope, rest: &'a [u8]) -> Result<(ScheduledEvent, &'a [u8]), Miss>
    ensures { Reads (λ x. (x.0, x.1.now)) result (event_words_at scope.now forms.Request rest.now) }
{
    let nodes = scope.settings.nodes();
    let (from, rest) = index_at(rest, nodes)?;
    let (to, rest) = index_at(rest, nodes)?;
    let (number, rest) = number_at(rest, 1, u64::MAX)?;
    if from == to {
        return Err(Miss::Unlike);
    }
    Ok((ScheduledEvent::Request { from, to, number }, rest))
}

/// The delivery of a reply.
#[tactic(auto, unfolding(crate::specs::Events::event_words_at))]
fn reply_event<'a>(scope: &Scope, rest: &'a [u8]) -> Result<(ScheduledEvent, &'a [u8]), Miss>
    ensures { Reads (λ x. (x.0, x.1.now)) result (event_words_at scope.now forms.Reply rest.now) }
{
    let nodes = scope.settings.nodes();
    let (from, rest) = index_at(rest, nodes)?;
    let (to, rest) = index_at(rest, nodes)?;
    let (number, rest) = number_at(rest, 1, u64::MAX)?;
    if from == to {
        return Err(Miss::Unlike);
    }
    Ok((ScheduledEvent::Reply { from, to, number }, rest))
}

/// A tick of a node.
#[tactic(auto, unfolding(crate::specs::Events::event_words_at))]
fn tick_event<'a>(scope: &Scope, rest: &'a [u8]) -> Result<(ScheduledEvent, &'a [u8]), Miss>
    ensures { Reads (λ x. (x.0, x.1.now)) result (event_words_at scope.now forms.Tick rest.now) }
{
    let (node, rest) = index_at(rest, scope.settings.nodes())?;
    Ok((ScheduledEvent::Tick { node }, rest))
}

/// Rounds of ticks and deliveries.
#[tactic(auto, unfolding(crate::specs::Events::event_words_at))]
fn settle_event(rest: &[u8]) -> Result<(ScheduledEvent, &[u8]), Miss>
    ensures { (scope : Scope) → Reads (λ x. (x.0, x.1.now)) result
        (event_words_at scope forms.Settle rest.now) }
{
    let (rounds, rest) = number_at(rest, 1, 4_096)?;
    let rounds = rounds as u32;
    Ok((ScheduledEvent::Settle { rounds }, rest))
}

/// The event that the words behind the name of a form say, and the bytes after them.
fn words_at<'a>(
    alloc: Global,
    scope: &Scope,
    form: EventForm,
    rest: &'a [u8],
) -> Result<(ScheduledEvent, &'a [u8]), Miss>
    ensures { Reads (λ x. (x.0, x.1.now)) result (event_words_at scope.now form rest.now) }
{
    match form {
        EventForm::Call => call_event(alloc, scope, rest),
        EventForm::Request => request_event(scope, rest),
        EventForm::Reply => reply_event(scope, rest),
        EventForm::Tick => tick_event(scope, rest),
        EventForm::Settle => settle_event(rest),
    }
}

/// The event that a line says, and the bytes after it.
fn event_at<'a>(
    alloc: Global,
    scope: &Scope,
    bytes: &'a [u8],
) -> Result<(ScheduledEvent, &'a [u8]), Miss>
    ensures { Reads (λ x. (x.0, x.1.now)) result (event_at scope.now bytes.now) }
{
    let Some((form, rest)) = EventForm::at_prefix(bytes) else {
        return Err(Miss::Unlike);
    };
    words_at(alloc, scope, form, rest)
}

/// The line of a schedule that bytes begin with, and the bytes after it.
#[tactic(auto, unfolding(crate::specs::Events::timed_at))]
pub fn timed_at<'a>(
    alloc: Global,
    scope: &Scope,
    bytes: &'a [u8],
) -> Result<(TimedEvent, &'a [u8]), Miss>
    ensures { Reads (λ x. (x.0, x.1.now)) result (timed_at scope.now bytes.now) }
{
    let (time, rest) = number_here(bytes, 0, u64::MAX)?;
    let (event, rest) = event_at(alloc, scope, spaced(rest)?)?;
    Ok((TimedEvent { time, event }, rest))
}

/// Whether bytes have the form of an event.
fn event_form(scope: &Scope, bytes: &[u8]) -> bool
    ensures { result ≡ event_form scope.now bytes.now }
{
    let (name, rest) = name_of(bytes);
    match EventForm::named(name) {
        Some(form) => form.fits(scope, rest),
        None => false,
    }
}

/// Whether bytes have the form of a line of a schedule.
#[tactic(auto, unfolding(crate::specs::Events::timed_form))]
pub fn timed_form(scope: &Scope, bytes: &[u8]) -> bool
    ensures { result ≡ timed_form scope.now bytes.now }
{
    let (_, rest) = name_of(bytes);
    match spaced(rest) {
        Ok(line) => event_form(scope, line),
        Err(_) => false,
    }
}
