//! The outside of the program as traits: sources and sinks of bytes, links of datagrams, clocks, waiters of turns, and
//! spawners of children.
//!
//! A source may tell the bytes that are left, and a sink the bytes that it took; what a function read or wrote is then
//! a fact of its contract. Each has a count of faults that never falls, and fails only where that count rose.
//! `MemorySource`, `MemorySink`, `MemoryLink` and `MemorySpawner` tell all, and fail at the calls that a list numbers.
//! `BufferedSink` gathers small pieces before any sink, and `Sieve` drops, repeats and swaps datagrams before any link.
//!
//! What is proved, by the names of clauses (in `src/`) and definitions (in `specs/`):
//!
//! - `read_all` and `write_all` [`bytes`, `later`, `fault`]: all bytes, or a fault only where the count of faults rose.
//! - `BufferedSink`: each call has one clause, over the outbox (`Outbox`): what was given on, what waits, and the count
//!   of faults of the sink behind. What went in is what was given on, then what waits, in order; a fault comes only
//!   where that count rose, and then a prefix of the bytes went in (`GathersAll`). `flush` gives on what waits
//!   (`Flushes`). After `make_room` there is room for so many bytes, and what is `put` there goes in without a fault
//!   (`Gathers`).
//! - `Link` [`bound`, `sent`, `received`, `waiting`, `later`, `cause`]: what each call changes of what a link tells,
//!   where it can (`Told`): a link may tell the datagrams sent, received and waiting, and a fault comes only where the
//!   count of faults rose.
//! - `Clock` [`asked`, `said`, `fixed`, `one`]: it counts how often it is asked, and `FixedClock` always says one
//!   value. A `Waiter`, as `ReadyWaiter`, promises nothing.
//! - `Spawner` [`told`, `output`, `pending`, `later`, `cause`]: a start is told, and so is the first finish of a child
//!   that was started, with what the child gave and the answer; what was told before stays. A child ends once, after
//!   its start.
//! - `MemorySource`, `MemorySink`, `MemoryLink` and `MemorySpawner` [`exact`] number their calls, and fail at the
//!   listed ones.
//! - `Sieve` loses, repeats and swaps datagrams by their numbers: `hand` [`follows`, `keeps`] sends the link behind
//!   what the first rule that applies says (`next_plan`), or a prefix of it where that link failed. It tells what that
//!   link tells, but what was sent only where its numbers are 0.
//!
//! That memory ran out where `NoMemory` is told isn't proved.
#![tactic(auto)]

mod buffered;
mod clock;
mod link;
mod memory;
mod memory_link;
mod memory_spawner;
mod reading;
mod sieve;
mod sieve_rule;
mod sink;
mod source;
mod spawn_call;
mod spawner;
mod waiter;
mod writing;

pub use buffered::BufferedSink;
pub use clock::{Clock, FixedClock};
pub use link::{Link, LinkAnswer, MAX_DATAGRAM, Received};
pub use memory::{MemorySink, MemorySource};
pub use memory_link::MemoryLink;
pub use memory_spawner::MemorySpawner;
pub use reading::{ReadAll, read_all};
pub use sieve::Sieve;
pub use sink::{Put, Sink};
pub use source::{Got, Source};
pub use spawner::{Finished, MAX_OUTPUT, Spawner, Started};
pub use waiter::{ReadyWaiter, Waiter};
pub use writing::{Wrote, write_all};
