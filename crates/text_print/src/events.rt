//! The events of a schedule.

ghost use Rattle.std.specs.Prelude.{ℕ};
ghost use Rattle.base_io.specs.Buffered.{GathersAll, outbox};
ghost use Rattle.text_steps.specs.Events.{event_text, timed_text};
ghost use Rattle.text_steps.specs.declared.steps.ScheduledEvent.TheVariants as events;

use crate::calls::write_call;
use crate::collectives::write_collective;
use crate::forms::write;
use crate::vis::write_vis;
use crate::words::Word;
use base_io::{BufferedSink, Sink, Wrote};
use base_text::write_number;
use text_calls::ScheduledCall;
use text_steps::{CollectiveText, EventForm, ScheduledEvent, TimedEvent};
use text_vis::VisText;

/// Writes a call of a thread of a node.
fn write_thread_call<K: Sink>(
    node: u16,
    thread: u16,
    call: &ScheduledCall,
    sink: &mut BufferedSink<K>,
) -> Wrote
    ensures { (nodes threads : ℕ) → GathersAll (outbox K.taken K.faults sink.old)
        (outbox K.taken K.faults sink.new)
        (event_text nodes threads (events.Call node thread call.now)) result }
{
    if let Wrote::Fault = write(EventForm::Call, &[Word::U16(node), Word::U16(thread)], sink) {
        return Wrote::Fault;
    }
    if let Wrote::Fault = sink.write_all(b" ") {
        return Wrote::Fault;
    }
    write_call(call, sink)
}

/// Writes that a thread of a node begins a transfer of many pieces.
fn write_thread_vis<K: Sink>(
    node: u16,
    thread: u16,
    vis: &VisText,
    sink: &mut BufferedSink<K>,
) -> Wrote
    ensures { (nodes threads : ℕ) → GathersAll (outbox K.taken K.faults sink.old)
        (outbox K.taken K.faults sink.new)
        (event_text nodes threads (events.Vis node thread vis.now)) result }
{
    if let Wrote::Fault = write(EventForm::Call, &[Word::U16(node), Word::U16(thread)], sink) {
        return Wrote::Fault;
    }
    if let Wrote::Fault = sink.write_all(b" ") {
        return Wrote::Fault;
    }
    write_vis(vis, sink)
}

/// Writes a call of collectives of a thread of a node.
fn write_thread_collective<K: Sink>(
    node: u16,
    thread: u16,
    call: &CollectiveText,
    sink: &mut BufferedSink<K>,
) -> Wrote
    ensures { (nodes threads : ℕ) → GathersAll (outbox K.taken K.faults sink.old)
        (outbox K.taken K.faults sink.new)
        (event_text nodes threads (events.Collective node thread call.now)) result }
{
    if let Wrote::Fault = write(EventForm::Call, &[Word::U16(node), Word::U16(thread)], sink) {
        return Wrote::Fault;
    }
    if let Wrote::Fault = sink.write_all(b" ") {
        return Wrote::Fault;
    }
    write_collective(call, sink)
}

/// Writes an event.
fn write_event<K: Sink>(event: &ScheduledEvent, sink: &mut BufferedSink<K>) -> Wrote
    ensures { (nodes threads : ℕ) → GathersAll (outbox K.taken K.faults sink.old)
        (outbox K.taken K.faults sink.new) (event_text nodes threads event.now) result }
{
    use Word::{U16, U32, U64};
    match event {
        ScheduledEvent::Call { node, thread, call } => write_thread_call(
            *node, *thread, call, sink,
        ),
        ScheduledEvent::Vis { node, thread, vis } => write_thread_vis(
            *node,
            *thread,
            vis.text(),
            sink,
        ),
        ScheduledEvent::Collective { node, thread, call } => write_thread_collective(
            *node, *thread, call, sink,
        ),
        ScheduledEvent::Request { from, to, number } => {
            write(
                EventForm::Request,
                &[U16(*from), U16(*to), U64(*number)],
                sink,
            )
        }
        ScheduledEvent::Reply { from, to, number } => {
            write(
                EventForm::Reply,
                &[U16(*from), U16(*to), U64(*number)],
                sink,
            )
        }
        ScheduledEvent::Tick { node } => write(EventForm::Tick, &[U16(*node)], sink),
        ScheduledEvent::Settle { rounds } => write(EventForm::Settle, &[U32(*rounds)], sink),
    }
}

/// Writes what a line of the schedule says.
pub(crate) fn write_timed<K: Sink>(timed: &TimedEvent, sink: &mut BufferedSink<K>) -> Wrote
    ensures { (nodes threads : ℕ) → GathersAll (outbox K.taken K.faults sink.old)
        (outbox K.taken K.faults sink.new) (timed_text nodes threads timed.now) result }
{
    if let Wrote::Fault = write_number(timed.time, sink) {
        return Wrote::Fault;
    }
    if let Wrote::Fault = sink.write_all(b" ") {
        return Wrote::Fault;
    }
    write_event(&timed.event, sink)
}
