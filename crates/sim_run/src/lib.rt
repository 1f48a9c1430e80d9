//! The run of a job in a world of endpoints, and the text of it.
//!
//! `run_job` runs the lines of a schedule in order, each as one event, as the calls that begin a transfer of many
//! pieces or that a call of collectives makes, or as rounds of events, and writes the answer of each; then the lines of
//! each node. `run_lines` (`specs/RunText.antt`) is that text, line by line, as the run of the records has it.
//!
//! - **What a line gives** (`line_at`): the event, the transfer, the call of collectives or the rounds of a line of the
//!   schedule (`IsLine`), with each `cN` read from its node's cells in the world; none exactly where there is no such
//!   line.
//! - **Collectives** (`collect`, over `WorldNodes` of `sim_group`): where the job has them, its nodes run as a
//!   group of `law_collectives`. A call of a line is an event of the group, answered as the group answers [`collects`:
//!   `Collects`].
//! - **How a run ends** [`run`: `RunEnds`]: all its lines went into the sink, and the world that it gives stands for
//!   the end of the run; or the sink failed, and a prefix of their text went in; or memory ran out, and whole lines of
//!   them did.
//! - **The laws of the run** [`laws`: `RunLaws`] of any job, however far its run came, also between the events of
//!   `settle`:
//!   - the headline (`Headline`);
//!   - the line of the output for a line of the schedule that is one event tells the answer that this event has in the
//!     run (`LinesTell`). So of the lines that deliver one request at most one is told `ran`, and of those that deliver
//!     one reply at most one `returned` (`RanToldOnce`, `ReturnedToldOnce`);
//!   - the `most` of a node's line is the greatest number of message buffers that the node held in a state of the run
//!     (`IsGreatest`);
//!   - what a synchronisation of transfers that answers `ok` tells was done between the beginning and the answer
//!     (`TransfersHold`), each pair of bytes of a plan whose pieces were synchronised was transferred exactly once
//!     (`StridedHolds`), and a try of the barrier that ends a phase tells the outcome of the nodes' notifies
//!     (`BarrierHolds`);
//!   - where the job has atomics, each batch of operations acts at most once, at one moment, in the one history of its
//!     words (`AtomicsHold`); - where it has collectives, a line that is told that it ended one tells that all nodes
//!     have started that phase with
//!     one shape, and that the node has its result (`ResultsHold`).
//!
//! The crate uses the public clauses of the world alone, and knows nothing of buffers and slots. What a sink took is
//! said of its outbox in one clause: the bytes in order, up to where, and that a fault comes only where its count of
//! faults rose.
#![tactic(auto)]

mod nodes;
mod output;
mod run;
mod said;
mod schedule_line;
mod violations;

pub use output::{any_violation, write_node_line, write_nodes};
pub use run::{RunEnd, run_job};
pub use said::Said;
pub use violations::write_violations;
