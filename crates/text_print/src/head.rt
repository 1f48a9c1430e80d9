//! The head of a job: its settings, the sieve, the pairs with credits of their own, and the lines of atomics and of
//! collectives.

ghost use Rattle.std.specs.Prelude.{◌++◌, ◌∷◌, [], map};
ghost use Rattle.base_io.specs.Buffered.{GathersAll, outbox};
ghost use Rattle.text_job.specs.JobText.{atomics_lines, collect_lines};
ghost use Rattle.text_job.specs.JobText.{all_settings, head_lines, pair_line, setting_line};
ghost use Rattle.text_job.specs.JobText.{sieve_line, spell};
ghost use Rattle.text_print.specs.Writing.{number_line};

use crate::forms::{write, write_bare};
use crate::words::Word;
use base_io::{BufferedSink, Sink, Wrote};
use text_job::{CollectArea, Job, JobForm, Setting, SieveRule};
use wire_message::PairCredits;

/// A setting and its number.
#[derive(Clone, Copy)]
pub(crate) struct NumberLine<'a>(Setting, Word<'a>);

/// Writes the lines of settings.
fn write_number_lines<K: Sink>(lines: &[NumberLine<'_>], sink: &mut BufferedSink<K>) -> Wrote
    ensures { GathersAll (outbox K.taken K.faults sink.old) (outbox K.taken K.faults sink.new)
        (spell (map number_line lines.now)) result }
{
    for line in lines {
        if let Wrote::Fault = write(line.0, &[line.1], sink) {
            return Wrote::Fault;
        }
        if let Wrote::Fault = sink.write_all(b"\n") {
            return Wrote::Fault;
        }
    }
    Wrote::Done
}

/// Writes the lines of the settings, and of how long a node waits.
fn write_settings<K: Sink>(job: &Job, sink: &mut BufferedSink<K>) -> Wrote
    ensures { GathersAll (outbox K.taken K.faults sink.old) (outbox K.taken K.faults sink.new)
        (spell (map (setting_line job.now) all_settings)) result }
{
    let settings = &job.settings;
    let lines = [
        NumberLine(Setting::Version, Word::U8(settings.version())),
        NumberLine(Setting::Job, Word::U64(settings.job())),
        NumberLine(Setting::Nodes, Word::U16(settings.nodes())),
        NumberLine(Setting::Credits, Word::U16(settings.base_credits())),
        NumberLine(Setting::Threads, Word::U16(settings.threads())),
        NumberLine(Setting::Segment, Word::U64(settings.segment())),
        NumberLine(Setting::Last, Word::U64(settings.last())),
        NumberLine(Setting::Resend, Word::U64(settings.resend())),
        NumberLine(Setting::Patience, Word::U32(job.patience)),
    ];
    write_number_lines(&lines, sink)
}

/// Writes the line of the sieve.
fn write_sieve<K: Sink>(sieve: SieveRule, sink: &mut BufferedSink<K>) -> Wrote
    ensures { GathersAll (outbox K.taken K.faults sink.old) (outbox K.taken K.faults sink.new)
        (sieve_line sieve ++ 10 ∷ []) result }
{
    let words = [
        Word::U32(sieve.lose),
        Word::U32(sieve.repeat),
        Word::U32(sieve.swap),
    ];
    if let Wrote::Fault = write(JobForm::Sieve, &words, sink) {
        return Wrote::Fault;
    }
    sink.write_all(b"\n")
}

/// Writes the lines before the pairs.
pub(crate) fn write_head<K: Sink>(job: &Job, sink: &mut BufferedSink<K>) -> Wrote
    ensures { GathersAll (outbox K.taken K.faults sink.old) (outbox K.taken K.faults sink.new)
        (spell (head_lines job.now)) result }
{
    if let Wrote::Fault = write_settings(job, sink) {
        return Wrote::Fault;
    }
    write_sieve(job.sieve, sink)
}

/// Writes the lines of pairs, in their order.
pub(crate) fn write_pairs<K: Sink>(pairs: &[PairCredits], sink: &mut BufferedSink<K>) -> Wrote
    ensures { GathersAll (outbox K.taken K.faults sink.old) (outbox K.taken K.faults sink.new)
        (spell (map pair_line pairs.now)) result }
{
    for pair in pairs {
        let words = [
            Word::U16(pair.from),
            Word::U16(pair.to),
            Word::U16(pair.credits),
        ];
        if let Wrote::Fault = write(JobForm::Pair, &words, sink) {
            return Wrote::Fault;
        }
        if let Wrote::Fault = sink.write_all(b"\n") {
            return Wrote::Fault;
        }
    }
    Wrote::Done
}

/// Writes the line of atomics, where nodes serve batches.
pub(crate) fn write_atomics<K: Sink>(atomics: bool, sink: &mut BufferedSink<K>) -> Wrote
    ensures { GathersAll (outbox K.taken K.faults sink.old) (outbox K.taken K.faults sink.new)
        (spell (atomics_lines atomics)) result }
{
    if !atomics {
        return Wrote::Done;
    }
    write_bare(JobForm::Atomics, sink)
}

/// Writes the line of collectives, where nodes run them.
pub(crate) fn write_collect<K: Sink>(area: Option<CollectArea>, sink: &mut BufferedSink<K>) -> Wrote
    ensures { GathersAll (outbox K.taken K.faults sink.old) (outbox K.taken K.faults sink.new)
        (spell (collect_lines area)) result }
{
    let Some(area) = area else {
        return Wrote::Done;
    };
    let words = [Word::U64(area.base), Word::U64(area.room)];
    if let Wrote::Fault = write(JobForm::Collect, &words, sink) {
        return Wrote::Fault;
    }
    sink.write_all(b"\n")
}
