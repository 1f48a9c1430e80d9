//! What holds of the handlers of every C program.

ghost use Rattle.gasnet_c.specs.Meanings.{COfOneMeaning};

/// Carries what this crate proves of handlers, for the check alone: it has no code.
///
/// The laws of whole runs ask for one meaning of the handlers in all events. Each export says of its own event what
/// C's handlers did there. Of a run of fewer than 2^64 events, as the exports make them, there is one lawful meaning by
/// which each event leaves the same and is answered the same, whatever handlers keep outside of the segment. By it the
/// library's own handlers serve batches and collectives.
pub fn every_job()
    // There is one meaning of all events.
    ensures { COfOneMeaning }
{}
