//! The scripts of a job.

ghost use Rattle.std.specs.Prelude.{◌++◌, ◌∷◌, [], map};
ghost use Rattle.std.specs.List.{flat_map};
ghost use Rattle.base_io.specs.Buffered.{GathersAll, outbox};
ghost use Rattle.text_steps.specs.Scripts.{step_text};
ghost use Rattle.text_job.specs.JobText.{script_line, script_lines, spell};

use crate::forms::{write, write_bare};
use crate::steps::write_step;
use crate::words::Word;
use base_io::{BufferedSink, Sink, Wrote};
use text_job::{JobForm, NodeScript};
use text_steps::ScriptStep;

/// Writes the first line of a script.
fn write_begin<K: Sink>(script: &NodeScript, sink: &mut BufferedSink<K>) -> Wrote
    ensures { GathersAll (outbox K.taken K.faults sink.old) (outbox K.taken K.faults sink.new)
        (script_line script.now ++ 10 ∷ []) result }
{
    let words = [Word::U16(script.node), Word::U16(script.thread)];
    if let Wrote::Fault = write(JobForm::Script, &words, sink) {
        return Wrote::Fault;
    }
    sink.write_all(b"\n")
}

/// Writes the lines of steps.
fn write_steps<K: Sink>(steps: &[ScriptStep], sink: &mut BufferedSink<K>) -> Wrote
    ensures { GathersAll (outbox K.taken K.faults sink.old) (outbox K.taken K.faults sink.new)
        (spell (map step_text steps.now)) result }
{
    for step in steps {
        if let Wrote::Fault = write_step(step, sink) {
            return Wrote::Fault;
        }
        if let Wrote::Fault = sink.write_all(b"\n") {
            return Wrote::Fault;
        }
    }
    Wrote::Done
}

/// Writes the lines of a script.
fn write_script<K: Sink>(script: &NodeScript, sink: &mut BufferedSink<K>) -> Wrote
    ensures { GathersAll (outbox K.taken K.faults sink.old) (outbox K.taken K.faults sink.new)
        (spell (script_lines script.now)) result }
{
    if let Wrote::Fault = write_begin(script, sink) {
        return Wrote::Fault;
    }
    if let Wrote::Fault = write_steps(script.steps.steps(), sink) {
        return Wrote::Fault;
    }
    write_bare(JobForm::End, sink)
}

/// Writes the lines of scripts, in their order.
pub(crate) fn write_scripts<K: Sink>(scripts: &[NodeScript], sink: &mut BufferedSink<K>) -> Wrote
    ensures { GathersAll (outbox K.taken K.faults sink.old) (outbox K.taken K.faults sink.new)
        (spell (flat_map script_lines scripts.now)) result }
{
    for script in scripts {
        if let Wrote::Fault = write_script(script, sink) {
            return Wrote::Fault;
        }
    }
    Wrote::Done
}
