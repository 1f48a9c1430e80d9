//! The schedule of a job.

ghost use Rattle.base_io.specs.Buffered.{GathersAll, outbox};
ghost use Rattle.wire_message.specs.Parameters.{Parameters};
ghost use Rattle.text_job.specs.JobText.{schedule_lines, spell, timed_lines};

use crate::events::write_timed;
use crate::forms::write_bare;
use base_io::{BufferedSink, Sink, Wrote};
use text_job::{JobForm, Schedule};
use text_steps::TimedEvent;

/// Writes the lines of events.
fn write_events<K: Sink>(events: &[TimedEvent], sink: &mut BufferedSink<K>) -> Wrote
    ensures { (settings : Parameters) → GathersAll (outbox K.taken K.faults sink.old)
        (outbox K.taken K.faults sink.new) (spell (timed_lines settings events.now)) result }
{
    for event in events {
        if let Wrote::Fault = write_timed(event, sink) {
            return Wrote::Fault;
        }
        if let Wrote::Fault = sink.write_all(b"\n") {
            return Wrote::Fault;
        }
    }
    Wrote::Done
}

/// Writes the lines of the schedule, where there is one.
pub(crate) fn write_schedule<K: Sink>(
    schedule: &Option<Schedule>,
    sink: &mut BufferedSink<K>,
) -> Wrote
    ensures { (settings : Parameters) → GathersAll (outbox K.taken K.faults sink.old)
        (outbox K.taken K.faults sink.new) (spell (schedule_lines settings schedule.now)) result }
{
    let Some(schedule) = schedule else {
        return Wrote::Done;
    };
    if let Wrote::Fault = write_bare(JobForm::Schedule, sink) {
        return Wrote::Fault;
    }
    if let Wrote::Fault = write_events(schedule.lines(), sink) {
        return Wrote::Fault;
    }
    write_bare(JobForm::End, sink)
}
