//! Traces of nodes: their text, and the orders in which their entries can go.
//!
//! What is proved, by the names of clauses (in `src/`) and definitions (in `specs/`, and in `base_turns`'s `Prefixes`):
//!
//! - `print_head` and `print_entry` write the lines of a trace (`trace_text`) into a sink that gathers, or at a fault
//!   of the sink a prefix of them.
//! - `read_output` [`found`, `only`, `exact`] reads what a node writes, its trace with a status line, exactly where the
//!   bytes begin with such a text (`OutputBegins`), as that output; else the fault names the first bad line and the
//!   first reason that applies to it, as the reading function on lines says (`output_at`); or memory ran out. So what
//!   was printed is read again. What a merge asks of traces is told too [`threads`, `few`]. What a refusal means apart
//!   from that function [`meant`: `Means` of `LineRefusals`, for `output_kind`]: some output's text begins with the
//!   lines before the bad one, and goes on, and none begins with these and the bad one, whose form or value no output
//!   has there (`IsAtFault`); or the bytes end there, or the line is none of words. A line and a reason of which that
//!   holds are told, unless memory ran out [`told`]. So no text has two of them. The line is no further than the bytes
//!   [`near`].
//! - `merge` [`prefix`, `run`, `no_run`] answers an order of all entries in which each can go in its turn only where
//!   some order is a run, and the smallest node with an entry left at the one stuck prefix only where none is
//!   (`Answers`); or memory ran out. Afterwards each machine stands for the replay of its entries that have gone
//!   (`AreReplays`). All is said of whatever states the machines stood for.
//! - `prefix_law` [`later`, `one`, `run_or_stuck`, `not_both`]: of any nodes, traces are a run or have a stuck prefix,
//!   never both, and at most one. So the answer is compared with whether an order exists, and not with the search for
//!   one.
//!
//! The search goes in rounds over the nodes; in each, a node's entries go while they may. Whether a datagram was sent
//! is one look-up at most: for each node a map from each datagram that its trace got to a place, and a mark at each
//! place. Where the mark at an entry's own place is set, no look-up is needed. So memory is linear in the entries, and
//! no bytes are copied. There are as many rounds as entries at worst: where each round lets one go.
//!
//! The replay of a node's trace by itself tells a person what went wrong in traces that are no run.
//!
//! - `replay` [`Replays`]: a machine takes the turns of the entries, up to the first that is of none of its threads, or
//!   hands a datagram to one which doesn't poll then. It stands for their replay, and the datagrams that are given are
//!   those that these turns sent, in order, each with the number of its entry.
//! - `first_unsent` [`IsFirstUnsent`, `AreAllSent`] is the first entry that got a datagram which no node sent to its
//!   node.
#![tactic(auto)]

mod datagram;
mod fault;
mod laws;
mod line_name;
mod merging;
mod output;
mod printing;
mod reading;
mod replaying;
mod sent;
mod trace;
mod wanted;
mod words;

pub use fault::TraceFault;
pub use laws::prefix_law;
pub use merging::{MergeFault, merge};
pub use output::{NodeStatus, Output, Wanted, read_output};
pub use printing::{print_entry, print_head};
pub use replaying::{Replayed, replay};
pub use sent::{Sent, first_unsent};
pub use trace::{Placed, Trace};
pub use words::MAX_GOT;
