//! The trace of a node as it grows.

ghost use Rattle.std.specs.Prelude.{◌≡◌};

use base_io::{BufferedSink, Sink, Wrote};
use base_turns::Entry;
use proc_runner::Recorder;
use std::marker::Model;
use text_trace::print_entry;

/// A sink that takes the entries of a journal, each as its line of a trace. Contracts see it as the sink.
#[derive(Drop)]
pub struct TraceSink<K: Sink> {
    sink: BufferedSink<K>,
}

impl<K: Sink> Model for TraceSink<K> {
    ghost use Rattle.base_io.specs.Buffered.{Gathering};

    ghost Value = { Gathering K };

    ghost view = { λ s. s.sink };
}

impl<K: Sink> TraceSink<K> {
    /// Over this sink.
    pub fn over(sink: BufferedSink<K>) -> TraceSink<K>
        ensures { result ≡ sink }
    {
        TraceSink { sink }
    }

    /// The sink.
    pub fn into_sink(self) -> BufferedSink<K>
        ensures { result ≡ self }
    {
        let TraceSink { sink } = self;
        sink
    }
}

impl<K: Sink> Recorder for TraceSink<K> {
    ghost use Rattle.base_io.specs.Buffered.{outbox as outbox_of};
    ghost use Rattle.base_text.specs.LineTexts.{line_text};
    ghost use Rattle.text_trace.specs.TraceText.{entry_line};

    ghost outbox = { λ s. outbox_of K.taken K.faults s };

    ghost text = { λ entry. line_text (entry_line entry) };

    fn record(&mut self, entry: &Entry) -> Wrote {
        print_entry(&mut self.sink, entry)
    }

    fn flush(&mut self) -> Wrote {
        self.sink.flush()
    }
}
