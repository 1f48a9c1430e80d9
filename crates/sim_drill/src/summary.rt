//! The lines of the drill's output.

ghost use Rattle.std.specs.Prelude.{◌≡◌, ◌∷◌, ◌++◌, ℕ, [], List, codes, decimal};
ghost use Rattle.base_io.specs.Buffered.{GathersAll, outbox};
ghost use Rattle.base_text.specs.LineTexts.{line_text, spell};
ghost use Rattle.sim_run.specs.RunText.{end_lines};
ghost use Rattle.sim_run.specs.ScheduleRun.{WritesText};
ghost use Rattle.sim_drill.specs.Counting.{count_in};
ghost use Rattle.sim_drill.specs.Summary.{count_lines, counted_word, first_line};

use crate::counts::{Counted, Counts};
use base_io::{BufferedSink, Sink, Wrote};
use base_text::write_line;
use itoa::Buffer;
use sim_run::write_nodes;
use sim_world::World;

/// Writes the line of the seed.
fn write_first<K: Sink>(sink: &mut BufferedSink<K>, seed: u64) -> Wrote
    ensures { GathersAll (outbox K.taken K.faults sink.old) (outbox K.taken K.faults sink.new)
        (line_text (first_line seed)) result }
{
    let mut seed_text = Buffer::new();
    write_line(sink, b"drill", &[seed_text.format(seed).as_bytes()])
}

/// Writes the line of a word: how often it was counted.
fn write_count<K: Sink>(sink: &mut BufferedSink<K>, counted: Counted, count: u64) -> Wrote
    ensures { GathersAll (outbox K.taken K.faults sink.old) (outbox K.taken K.faults sink.new)
        (line_text (counted_word counted ∷ decimal count ∷ [])) result }
{
    let mut count_text = Buffer::new();
    write_line(sink, counted.word(), &[count_text.format(count).as_bytes()])
}

/// Writes the lines of all words.
fn write_counts<K: Sink>(sink: &mut BufferedSink<K>, counts: &Counts) -> Wrote
    ensures { GathersAll (outbox K.taken K.faults sink.old) (outbox K.taken K.faults sink.new)
        (spell (count_lines (count_in counts.now))) result }
{
    for counted in Counted::ALL {
        if let Wrote::Fault = write_count(sink, counted, counts.of(counted)) {
            return Wrote::Fault;
        }
    }
    Wrote::Done
}

/// Writes the lines of a drill: its seed, the counts, and the lines of each node of the world.
pub fn write_drill<K: Sink>(
    seed: u64,
    world: &World,
    counts: &Counts,
    sink: &mut BufferedSink<K>,
) -> Wrote
    ensures { WritesText world.now
        (λ records most. spell (first_line seed ∷ (count_lines (count_in counts.now)
        ++ end_lines world.now.settings records most)))
        (outbox K.taken K.faults sink.old) (outbox K.taken K.faults sink.new) result }
{
    if let Wrote::Fault = write_first(sink, seed) {
        return Wrote::Fault;
    }
    if let Wrote::Fault = write_counts(sink, counts) {
        return Wrote::Fault;
    }
    write_nodes(world, sink)
}
