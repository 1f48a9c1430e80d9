//! What takes the entries of a journal.

ghost use Rattle.std.specs.Prelude.{ℕ, List};
ghost use Rattle.base_io.specs.Buffered.{Outbox, GathersAll, Flushes};
ghost use Rattle.base_turns.specs.declared.entry.Entry.{Entry};

use base_io::Wrote;
use base_turns::Entry;

/// What takes the entries of a journal, one by one, in order, as bytes that it holds back or gives on to a sink.
pub trait Recorder {
    /// The bytes that went on to the sink behind, where it tells them; those that wait; and the sink's count of faults.
    ghost outbox: { Self → Outbox };
    /// The bytes of an entry.
    ghost text: { Entry → List ℕ };

    /// Takes an entry.
    ///
    /// `Done` means that all of its bytes went in. `Fault` comes only where the count of faults of the sink behind rose
    /// (or stands at its last value); a prefix of its bytes went in then.
    fn record(&mut self, entry: &Entry) -> Wrote
        ensures { GathersAll (outbox self.old) (outbox self.new) (text entry.entry.now) result };

    /// Gives on what waits. After `Done` nothing waits.
    fn flush(&mut self) -> Wrote
        ensures { Flushes (outbox self.old) (outbox self.new) result };
}
