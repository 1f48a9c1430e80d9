//! The actions of a handler's body.

ghost use Rattle.std.specs.Prelude.{◌∷◌};
ghost use Rattle.base_io.specs.Buffered.{GathersAll, outbox};
ghost use Rattle.text_steps.specs.Bodies.{action_text, reply_text};
ghost use Rattle.text_steps.specs.declared.steps.Action.TheVariants as actions;

use crate::forms::{Last, write, write_form};
use crate::words::Word;
use base_io::{BufferedSink, Sink, Wrote};
use text_calls::HasName;
use text_steps::{Action, ActionForm, ReplyAction, ReplyForm};

/// Writes what stands behind the word `reply`.
fn write_reply<K: Sink>(reply: &ReplyAction, sink: &mut BufferedSink<K>) -> Wrote
    ensures { GathersAll (outbox K.taken K.faults sink.old) (outbox K.taken K.faults sink.new)
        (reply_text reply.now) result }
{
    use Word::{Payload, U8, U64};
    match reply {
        ReplyAction::Short { handler, operands } => {
            write_form(
                ReplyForm::Short,
                &[U8(*handler)],
                Last::Operands(operands),
                sink,
            )
        }
        ReplyAction::Medium {
            handler,
            payload,
            operands,
        } => {
            let words = [U8(*handler), Payload(payload)];
            write_form(ReplyForm::Medium, &words, Last::Operands(operands), sink)
        }
        ReplyAction::Long {
            handler,
            payload,
            offset,
            operands,
        } => {
            let words = [U8(*handler), Payload(payload), U64(*offset)];
            write_form(ReplyForm::Long, &words, Last::Operands(operands), sink)
        }
    }
}

/// Writes a reply.
fn write_replying<K: Sink>(reply: &ReplyAction, sink: &mut BufferedSink<K>) -> Wrote
    ensures { GathersAll (outbox K.taken K.faults sink.old) (outbox K.taken K.faults sink.new)
        (action_text (actions.Reply reply.now)) result }
{
    if let Wrote::Fault = sink.write_all(ActionForm::Reply.name()) {
        return Wrote::Fault;
    }
    if let Wrote::Fault = sink.write_all(b" ") {
        return Wrote::Fault;
    }
    write_reply(reply, sink)
}

/// Writes an action.
pub(crate) fn write_action<K: Sink>(action: &Action, sink: &mut BufferedSink<K>) -> Wrote
    ensures { GathersAll (outbox K.taken K.faults sink.old) (outbox K.taken K.faults sink.new)
        (action_text action.now) result }
{
    use Word::{Kind, U8, U64, Value};
    match action {
        Action::Add { cell, operand } => write(
            ActionForm::Add,
            &[U8(*cell), Value(*operand)],
            sink,
        ),
        Action::SetCell { cell, operand } => write(
            ActionForm::SetCell,
            &[U8(*cell), Value(*operand)],
            sink,
        ),
        Action::Source { cell } => write(ActionForm::Source, &[U8(*cell)], sink),
        Action::Sum { cell } => write(ActionForm::Sum, &[U8(*cell)], sink),
        Action::Keep { offset } => write(ActionForm::Keep, &[U64(*offset)], sink),
        Action::Lock { lock } => write(ActionForm::Lock, &[U8(*lock)], sink),
        Action::Unlock { lock } => write(ActionForm::Unlock, &[U8(*lock)], sink),
        Action::Attempt { call } => write(ActionForm::Attempt, &[Kind(*call)], sink),
        Action::Reply { reply } => write_replying(reply, sink),
    }
}
