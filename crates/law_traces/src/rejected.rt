//! The law of rejected traces: what a node refuses, it refuses whatever it did before, and a turn that got such bytes
//! does what the turn that gets nothing does.
//!
//! So an entry of a node's trace that got bytes which the node refuses can be read as the same entry that got nothing
//! (`rejected`, `specs/Rejected.antt`). What stands in a trace by mistake, as a datagram of an earlier job, then keeps
//! nobody from reading the trace as a part of a run. A repeated message of the job, and one that comes late, aren't
//! refused: what is answered to these depends on what the node did before. It has no code.

ghost use Rattle.law_traces.specs.Rejected.{IsEachTurnTheSame, IsEachReplayTheSame};

/// Carries what this crate proves of rejected traces, for the check alone: it has no code. `O` is the type of what is
/// left of a node's scripts.
///
/// On machines with the same record and the same rest of scripts, the turn of an entry and that of the rejected one
/// leave such machines, send the same, and end a step or not alike [`turn`]. So the replays of a trace and of the
/// rejected one leave one record and one rest of scripts, and sent the same [`replay`].
pub fn every_trace<O>()
    ensures turn { IsEachTurnTheSame O }
    ensures replay { IsEachReplayTheSame O }
{}
