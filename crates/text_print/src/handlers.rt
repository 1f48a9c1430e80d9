//! The handlers of a job.

ghost use Rattle.std.specs.Prelude.{◌++◌, ◌∷◌, [], map};
ghost use Rattle.std.specs.List.{flat_map};
ghost use Rattle.base_io.specs.Buffered.{GathersAll, outbox};
ghost use Rattle.text_steps.specs.Bodies.{action_text};
ghost use Rattle.text_job.specs.JobText.{handler_lines, header_line, spell};

use crate::actions::write_action;
use crate::forms::{Last, write_bare, write_form};
use crate::words::Word;
use base_io::{BufferedSink, Sink, Wrote};
use text_job::{HandlerText, JobForm};
use text_steps::Action;

/// Writes the first line of a handler.
fn write_header<K: Sink>(handler: &HandlerText, sink: &mut BufferedSink<K>) -> Wrote
    ensures { GathersAll (outbox K.taken K.faults sink.old) (outbox K.taken K.faults sink.new)
        (header_line handler.now ++ 10 ∷ []) result }
{
    let words = [Word::U8(handler.index), Word::Role(handler.role)];
    if let Wrote::Fault = write_form(JobForm::Handler, &words, Last::Locks(&handler.locks), sink) {
        return Wrote::Fault;
    }
    sink.write_all(b"\n")
}

/// Writes the lines of actions.
fn write_actions<K: Sink>(actions: &[Action], sink: &mut BufferedSink<K>) -> Wrote
    ensures { GathersAll (outbox K.taken K.faults sink.old) (outbox K.taken K.faults sink.new)
        (spell (map action_text actions.now)) result }
{
    for action in actions {
        if let Wrote::Fault = write_action(action, sink) {
            return Wrote::Fault;
        }
        if let Wrote::Fault = sink.write_all(b"\n") {
            return Wrote::Fault;
        }
    }
    Wrote::Done
}

/// Writes the lines of a handler.
fn write_handler<K: Sink>(handler: &HandlerText, sink: &mut BufferedSink<K>) -> Wrote
    ensures { GathersAll (outbox K.taken K.faults sink.old) (outbox K.taken K.faults sink.new)
        (spell (handler_lines handler.now)) result }
{
    if let Wrote::Fault = write_header(handler, sink) {
        return Wrote::Fault;
    }
    if let Wrote::Fault = write_actions(handler.body.actions(), sink) {
        return Wrote::Fault;
    }
    write_bare(JobForm::End, sink)
}

/// Writes the lines of handlers, in their order.
pub(crate) fn write_handlers<K: Sink>(handlers: &[HandlerText], sink: &mut BufferedSink<K>) -> Wrote
    ensures { GathersAll (outbox K.taken K.faults sink.old) (outbox K.taken K.faults sink.new)
        (spell (flat_map handler_lines handlers.now)) result }
{
    for handler in handlers {
        if let Wrote::Fault = write_handler(handler, sink) {
            return Wrote::Fault;
        }
    }
    Wrote::Done
}
