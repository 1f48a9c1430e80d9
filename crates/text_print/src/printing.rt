//! Printing a job.

ghost use Rattle.base_io.specs.Buffered.{GathersAll, outbox};
ghost use Rattle.text_job.specs.JobText.{job_text};

use crate::forms::write_bare;
use crate::handlers::write_handlers;
use crate::head::{write_atomics, write_collect, write_head, write_pairs};
use crate::schedules::write_schedule;
use crate::scripts::write_scripts;
use base_io::{BufferedSink, Sink, Wrote};
use text_job::{Job, JobForm};

/// Writes the text of a job: the one text that is read as it, where its words are in range. Pairs, handlers and scripts
/// come in the order in which they stood in the text that was read, and a schedule's section exactly where one was.
///
/// `Fault` comes only where the sink failed; a prefix of the text went in then. It takes no memory.
pub fn print_job<K: Sink>(job: &Job, sink: &mut BufferedSink<K>) -> Wrote
    ensures { GathersAll (outbox K.taken K.faults sink.old) (outbox K.taken K.faults sink.new)
        (job_text job.now) result }
{
    if let Wrote::Fault = write_head(job, sink) {
        return Wrote::Fault;
    }
    if let Wrote::Fault = write_pairs(job.settings.pairs(), sink) {
        return Wrote::Fault;
    }
    if let Wrote::Fault = write_atomics(job.atomics, sink) {
        return Wrote::Fault;
    }
    if let Wrote::Fault = write_collect(job.collect, sink) {
        return Wrote::Fault;
    }
    if let Wrote::Fault = write_handlers(job.handlers.texts(), sink) {
        return Wrote::Fault;
    }
    if let Wrote::Fault = write_scripts(job.scripts.scripts(), sink) {
        return Wrote::Fault;
    }
    if let Wrote::Fault = write_schedule(&job.schedule, sink) {
        return Wrote::Fault;
    }
    write_bare(JobForm::Done, sink)
}
