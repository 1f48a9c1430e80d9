//! One node's machine, link and clock under one lock: its turns, its threads, and the journal of what they did.
//!
//! - A `Station` is a machine with its link, its clock and a `Recorder`, which takes the journal: the turns in which
//!   something was got or changed. One call, `turn`, asks the clock, asks the link for a datagram, lets the machine
//!   take a turn, hands its entry to the recorder, and sends what the turn gives. No entry is kept.
//! - `run_threads` starts a node's threads, which take turns under one lock until an end. What they leave is the replay
//!   of the journal, whatever their order was.
//! - `Held` is what lies under that lock: the station with the book of a ledger, in which each entry is counted.
//!
//! The trait of machines and entries are of the crate `base_turns`; links, clocks and waiters of `base_io`.
//!
//! What is proved, by the names of clauses (in `src/`) and definitions (in `specs/`):
//!
//! - `Station::turn` is exact [`again`, `spent`, `full`, `goes`]: the first of its steps that ends it gives the answer,
//!   and `GoesTurn` says what is left then, field by field: a turn that has an entry (`KeepsEntry`), an empty one (`Rests`),
//!   a link that failed as it was asked (`FailsAsked`). So a datagram that waits is got by a thread that polls, where the
//!   link tells what waits; `LinkFault` comes only where the link's count of faults rose in the turn, or stands at its
//!   last value, and `WriteFault` only where that of the recorder's sink did, with nothing of the turn sent; and
//!   `NoMemory` leaves all but the kept end.
//! - Each turn keeps the facts of a station and its journal, which is a variable of the contracts and stands in no field
//!   [`facts`: `Facts`]: for each state for which the machine stood at the opening, machine and journal are its replay
//!   (`Replays`); the datagrams received are the journal's, and those sent are what the replayed turns gave, where the
//!   link tells them (at `LinkFault` and `WriteFault` without those of the last turn that weren't sent); the bytes of
//!   all entries went into the recorder (at `WriteFault` a prefix of them); what was sent was given by entries that had
//!   gone on to the sink before (`Ahead`); the bounds of the journal; how often the clock was asked; why an end is kept.
//! - `Held::turn` is the station's turn [`turn`], and raises the share that it is handed by one exactly where an entry
//!   was recorded [`booked`]; `Held::close` gives a station of which the facts hold [`facts`], for a journal that is as
//!   long as all shares together say [`booked`].
//! - `run_threads` [`StationLeaves`]: there is a journal, and the machine is its replay; the datagrams; the bytes; the
//!   times; for each end its causes. `Over` and `Stuck` come only where the quiet entries at the journal's end, and the times
//!   that the clock was asked without an entry, are at least `patience` together, or the clock's counter stands at its
//!   last value (`PatienceIsSpent`); the last entry is quiet, or a turn would be empty now; and where every thread
//!   polls and the link tells what waits, nothing does. That the turns were quiet in a row is said turn by turn, by
//!   clauses of `Station::turn`: what a turn makes of the count of quiet turns is in `goes`; where the count is
//!   `patience`, and no end is kept, the turn ends as `Over` or `Stuck` [`spent`].
//!
//! Not claimed: that a thread runs, that the threads take turns fairly, which of them took how many, that the waiter is
//! called. That memory ran out where `NoMemory` is told isn't proved.
#![tactic(auto)]

mod ends;
mod exchange;
mod held;
mod inbox;
mod recorder;
mod station;
mod threads;

pub use base_turns::{Bytes, Entry, Machine, Turned};
pub use ends::{EndedStation, StationEnd, TurnAnswer};
pub use held::{Crew, Held, StationName};
pub use recorder::Recorder;
pub use station::Station;
pub use threads::run_threads;
