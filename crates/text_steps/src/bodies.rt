//! Reading the actions of a handler's body.

ghost use Rattle.std.specs.Prelude.{◌≡◌, false};
ghost use Rattle.text_steps.specs.Bodies.{action_at, action_form, action_words_at, actions};
ghost use Rattle.text_steps.specs.Bodies.{replies, reply_at, reply_form, reply_words_at};
ghost use Rattle.text_steps.specs.declared.action_forms.ActionForm.TheVariants as forms;
ghost use Rattle.text_steps.specs.declared.reply_forms.ReplyForm.TheVariants as reply;
ghost use Rattle.text_calls.specs.Forms.{named_at, none_at};
ghost use Rattle.text_calls.specs.FormTests.{named_form};
ghost use Rattle.base_text.specs.Found.{Reads};

use crate::action_forms::ActionForm;
use crate::reply_forms::ReplyForm;
use crate::steps::{Action, ReplyAction};
use base_text::{Miss, name_of, spaced};
use std::alloc::Global;
use text_calls::{
    NumberPlace, body_payload_at, body_value_at, byte_at, kind_at, number_at, operands_at,
};

/// A Short reply.
#[tactic(auto, unfolding(crate::specs::Bodies::reply_words_at))]
fn short_reply(alloc: Global, rest: &[u8]) -> Result<(ReplyAction, &[u8]), Miss>
    ensures { Reads (λ x. (x.0, x.1.now)) result (reply_words_at reply.Short rest.now) }
{
    let (handler, rest) = byte_at(rest, 255)?;
    let (operands, rest) = operands_at(alloc, NumberPlace::Body, rest)?;
    Ok((ReplyAction::Short { handler, operands }, rest))
}

/// A Medium reply.
#[tactic(auto, unfolding(crate::specs::Bodies::reply_words_at))]
fn medium_reply(alloc: Global, rest: &[u8]) -> Result<(ReplyAction, &[u8]), Miss>
    ensures { Reads (λ x. (x.0, x.1.now)) result (reply_words_at reply.Medium rest.now) }
{
    let (handler, rest) = byte_at(rest, 255)?;
    let (payload, rest) = body_payload_at(alloc, rest)?;
    let (operands, rest) = operands_at(alloc, NumberPlace::Body, rest)?;
    let reply = ReplyAction::Medium {
        handler,
        payload,
        operands,
    };
    Ok((reply, rest))
}

/// A Long reply.
#[tactic(auto, unfolding(crate::specs::Bodies::reply_words_at))]
fn long_reply(alloc: Global, rest: &[u8]) -> Result<(ReplyAction, &[u8]), Miss>
    ensures { Reads (λ x. (x.0, x.1.now)) result (reply_words_at reply.Long rest.now) }
{
    let (handler, rest) = byte_at(rest, 255)?;
    let (payload, rest) = body_payload_at(alloc, rest)?;
    let (offset, rest) = number_at(rest, 0, u64::MAX)?;
    let (operands, rest) = operands_at(alloc, NumberPlace::Body, rest)?;
    let reply = ReplyAction::Long {
        handler,
        payload,
        offset,
        operands,
    };
    Ok((reply, rest))
}

/// The reply that the words behind the name of a form say, and the bytes after them.
fn reply_words_at(alloc: Global, form: ReplyForm, rest: &[u8]) -> Result<(ReplyAction, &[u8]), Miss>
    ensures { Reads (λ x. (x.0, x.1.now)) result (reply_words_at form rest.now) }
{
    match form {
        ReplyForm::Short => short_reply(alloc, rest),
        ReplyForm::Medium => medium_reply(alloc, rest),
        ReplyForm::Long => long_reply(alloc, rest),
    }
}

/// The reply that a line says, by its name and the bytes after it.
fn named_reply_at<'a>(
    alloc: Global,
    name: &[u8],
    rest: &'a [u8],
) -> Result<(ReplyAction, &'a [u8]), Miss>
    ensures { Reads (λ x. (x.0, x.1.now)) result (named_at none_at replies name.now rest.now) }
{
    let Some(form) = ReplyForm::named(name) else {
        return Err(Miss::Unlike);
    };
    reply_words_at(alloc, form, rest)
}

/// The reply that a line says behind `reply`, and the bytes after it.
#[tactic(auto, unfolding(crate::specs::Bodies::reply_at))]
fn reply_at(alloc: Global, bytes: &[u8]) -> Result<(ReplyAction, &[u8]), Miss>
    ensures { Reads (λ x. (x.0, x.1.now)) result (reply_at bytes.now) }
{
    let (name, rest) = name_of(bytes);
    named_reply_at(alloc, name, rest)
}

/// The adding of a number to a cell.
#[tactic(auto, unfolding(crate::specs::Bodies::action_words_at))]
fn add_action(rest: &[u8]) -> Result<(Action, &[u8]), Miss>
    ensures { Reads (λ x. (x.0, x.1.now)) result (action_words_at forms.Add rest.now) }
{
    let (cell, rest) = byte_at(rest, 255)?;
    let (operand, rest) = body_value_at(rest)?;
    Ok((Action::Add { cell, operand }, rest))
}

/// The putting of a number into a cell.
#[tactic(auto, unfolding(crate::specs::Bodies::action_words_at))]
fn set_cell_action(rest: &[u8]) -> Result<(Action, &[u8]), Miss>
    ensures { Reads (λ x. (x.0, x.1.now)) result (action_words_at forms.SetCell rest.now) }
{
    let (cell, rest) = byte_at(rest, 255)?;
    let (operand, rest) = body_value_at(rest)?;
    Ok((Action::SetCell { cell, operand }, rest))
}

/// The putting of the source into a cell.
#[tactic(auto, unfolding(crate::specs::Bodies::action_words_at))]
fn source_action(rest: &[u8]) -> Result<(Action, &[u8]), Miss>
    ensures { Reads (λ x. (x.0, x.1.now)) result (action_words_at forms.Source rest.now) }
{
    let (cell, rest) = byte_at(rest, 255)?;
    Ok((Action::Source { cell }, rest))
}

/// The adding of the payload's bytes to a cell.
#[tactic(auto, unfolding(crate::specs::Bodies::action_words_at))]
fn sum_action(rest: &[u8]) -> Result<(Action, &[u8]), Miss>
    ensures { Reads (λ x. (x.0, x.1.now)) result (action_words_at forms.Sum rest.now) }
{
    let (cell, rest) = byte_at(rest, 255)?;
    Ok((Action::Sum { cell }, rest))
}

/// The locking of a lock.
#[tactic(auto, unfolding(crate::specs::Bodies::action_words_at))]
fn lock_action(rest: &[u8]) -> Result<(Action, &[u8]), Miss>
    ensures { Reads (λ x. (x.0, x.1.now)) result (action_words_at forms.Lock rest.now) }
{
    let (lock, rest) = byte_at(rest, 255)?;
    Ok((Action::Lock { lock }, rest))
}

/// The unlocking of a lock.
#[tactic(auto, unfolding(crate::specs::Bodies::action_words_at))]
fn unlock_action(rest: &[u8]) -> Result<(Action, &[u8]), Miss>
    ensures { Reads (λ x. (x.0, x.1.now)) result (action_words_at forms.Unlock rest.now) }
{
    let (lock, rest) = byte_at(rest, 255)?;
    Ok((Action::Unlock { lock }, rest))
}

/// The writing of the payload into the local segment.
#[tactic(auto, unfolding(crate::specs::Bodies::action_words_at))]
fn keep_action(rest: &[u8]) -> Result<(Action, &[u8]), Miss>
    ensures { Reads (λ x. (x.0, x.1.now)) result (action_words_at forms.Keep rest.now) }
{
    let (offset, rest) = number_at(rest, 0, u64::MAX)?;
    Ok((Action::Keep { offset }, rest))
}

/// A call that is judged alone.
#[tactic(auto, unfolding(crate::specs::Bodies::action_words_at))]
fn attempt_action(rest: &[u8]) -> Result<(Action, &[u8]), Miss>
    ensures { Reads (λ x. (x.0, x.1.now)) result (action_words_at forms.Attempt rest.now) }
{
    let (call, rest) = kind_at(rest)?;
    Ok((Action::Attempt { call }, rest))
}

/// A reply.
#[tactic(auto, unfolding(crate::specs::Bodies::action_words_at))]
fn reply_action(alloc: Global, rest: &[u8]) -> Result<(Action, &[u8]), Miss>
    ensures { Reads (λ x. (x.0, x.1.now)) result (action_words_at forms.Reply rest.now) }
{
    let (reply, rest) = reply_at(alloc, spaced(rest)?)?;
    Ok((Action::Reply { reply }, rest))
}

/// The action that the words behind the name of a form say, and the bytes after them.
fn action_words_at(alloc: Global, form: ActionForm, rest: &[u8]) -> Result<(Action, &[u8]), Miss>
    ensures { Reads (λ x. (x.0, x.1.now)) result (action_words_at form rest.now) }
{
    match form {
        ActionForm::Add => add_action(rest),
        ActionForm::SetCell => set_cell_action(rest),
        ActionForm::Source => source_action(rest),
        ActionForm::Sum => sum_action(rest),
        ActionForm::Keep => keep_action(rest),
        ActionForm::Lock => lock_action(rest),
        ActionForm::Unlock => unlock_action(rest),
        ActionForm::Attempt => attempt_action(rest),
        ActionForm::Reply => reply_action(alloc, rest),
    }
}

/// The action that a line says, by its name and the bytes after it.
fn named_action_at<'a>(
    alloc: Global,
    name: &[u8],
    rest: &'a [u8],
) -> Result<(Action, &'a [u8]), Miss>
    ensures { Reads (λ x. (x.0, x.1.now)) result (named_at reply_at actions name.now rest.now) }
{
    let Some(form) = ActionForm::named(name) else {
        return Err(Miss::Unlike);
    };
    action_words_at(alloc, form, rest)
}

/// The action that a line says, and the bytes after it.
#[tactic(auto, unfolding(crate::specs::Bodies::action_at))]
pub fn action_at(alloc: Global, bytes: &[u8]) -> Result<(Action, &[u8]), Miss>
    ensures { Reads (λ x. (x.0, x.1.now)) result (action_at bytes.now) }
{
    let (name, rest) = name_of(bytes);
    named_action_at(alloc, name, rest)
}

/// Whether the words after a name are a form of reply.
fn named_reply_form(name: &[u8], rest: &[u8]) -> bool
    ensures { result ≡ named_form (λ bytes. false) replies name.now rest.now }
{
    match ReplyForm::named(name) {
        Some(form) => form.fits(rest),
        None => false,
    }
}

/// Whether bytes have the form of a reply.
#[tactic(auto, unfolding(crate::specs::Bodies::reply_form))]
pub(crate) fn reply_form(bytes: &[u8]) -> bool
    ensures { result ≡ reply_form bytes.now }
{
    let (name, rest) = name_of(bytes);
    named_reply_form(name, rest)
}

/// Whether the words after a name are a form of action.
fn named_action_form(name: &[u8], rest: &[u8]) -> bool
    ensures { result ≡ named_form reply_form actions name.now rest.now }
{
    match ActionForm::named(name) {
        Some(form) => form.fits(rest),
        None => false,
    }
}

/// Whether bytes have the form of an action.
#[tactic(auto, unfolding(crate::specs::Bodies::action_form))]
pub fn action_form(bytes: &[u8]) -> bool
    ensures { result ≡ action_form bytes.now }
{
    let (name, rest) = name_of(bytes);
    named_action_form(name, rest)
}
