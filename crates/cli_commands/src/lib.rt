//! The top call: the words of a command, its outside, and the exit status.
//!
//! Of the top call `gasnet` (`src/top.rt`), and of `returning_call`, where the source and the sink tell their bytes:
//!
//! - **What each exit status says** [`means`: `StatusMeans`, a record for each command]. Where the words are those of a
//!   command (`Asks`), no other status comes than those of its record; where they are those of none, only 2, or 5.
//!   - `world` (`WorldMeans`): with 0 or 1 the bytes read are the text of a job (`JobText`), and of no other; the bytes
//!     written are exactly the text of the run of that job by the definitions (`run_lines` of `sim_run`: the answer
//!     of each schedule line, then the lines of each node and of its last violations) and the status line; and the
//!     world that the call returns stands for the end of that run (`IsAfter`). It is 1 exactly where some node's count
//!     of violations isn't 0 (`is_violated`). 3 comes only where no job has the bytes read as its text, and its line
//!     and word are the first bad line and the first reason that applies to it (`job_of`), with what that means apart
//!     from the reader (`Means` of `text_job`), or `0 size` for more than 4,194,304 bytes. 4 comes only where the
//!     source's count of faults rose in the call (or stands at its last value, 2^64 - 1).
//!   - `upgrade` (`UpgradeMeans`): with 0 the bytes read are the text of a job, as above, and the bytes written are the
//!     text of the same job with datagrams of version 2, for which `world` says the same (`UpgradesJob`); 3 and 4 as
//!     above.
//!   - `drill SEED` (`DrillMeans`): with 0 the bytes written are the drill's lines (`drill_lines` of `sim_drill`) and
//!     the status line, and the world stands for the end of its run. It is never 1: no node notes a violation in the
//!     drill.
//!   - `node RANK PORT` (`NodeMeans`): with 0, 1, 6, 9 and 10 the bytes written are the text of the trace of the node's
//!     journal and the status line, the endpoint that the call returns stands for the journal's replay, and the node's
//!     threads and devices left what `RunsTo` of `proc_node` says: no datagram was sent before the lines of its turn
//!     and
//!     of those before it had gone to the sink. It is 1 exactly where the node noted a violation, 6
//!     only where the link's count of faults rose, or stands at its last value, 9 and 10 by the cause of that end. 2
//!     comes also where a job was read that has no node of this rank, or no port for each node; 3 and 4 as above.
//!   - `check` (`CheckMeans`): with 0 and 1 the bytes read are the text of a job with an output of each of its nodes
//!     behind it (`InputText`), and of no others, each node ended with 0 or 1, their traces, without the bytes that
//!     their nodes refuse (`accepted_traces` of `cli_check`), are a run of the world (`RunOfTraces`: the headline, the
//!     laws of transfers and of the barrier hold of it, and each line of its steps tells how its step ended in it:
//!     `LinesTell`), the bytes written are its text (`run_lines` of `cli_check`)
//!     and the status line, and the nodes that the call returns stand for its end, which is what the traces leave as
//!     they were read. It is 1 exactly where one of them noted a violation; with 11 each node ended with 0 or 1, and
//!     their rejected traces are no run (`AreNoRun`); 12 names the smallest rank of a node that ended otherwise, and
//!     the status in its output. 3 comes only where no job with outputs has the bytes read as its text, and its line
//!     and word are the first bad line and the first reason that applies to it, with what that means apart from the
//!     reader (`InputMeans`), of that line and reason alone (`only`), or `0 size` for more than 67,108,864 bytes; 4 as
//!     above.
//!   - `launch PORT` (`LaunchMeans`): with 0, 1 and 11 the bytes read are the text of a job, as of `world`, that has a
//!     port for each node, and of the outputs that children gave all holds that `check` says of those it read. Where
//!     the spawner tells its calls, and told no finish of these ranks before, it told, behind what it told before, a
//!     start for each node, in order, with the port and the bytes read, all of them unless a start failed, and then a
//!     finish for each that was started, in order (`Spawns` of `cli_launch`). So it is with 7 and 12, and with 8 but
//!     where memory ran out before the first start; then, and with 2, 3 and 4, what is seen of the spawner stands as
//!     it did. 7 comes only where the spawner's count of faults rose, or stands at its last value; 12 only where no
//!     start and no finish failed, and it names the smallest rank of a child that didn't give an output of its node
//!     and end with the status in it, 0 or 1 (`GivesOutput`), and the status that the child ended with. 2 comes only
//!     where not each node has a port; 3 and 4 as of `world`.
//!   - Of each: 5 comes only where the sink's count of faults rose, or stands at its last value, and then a prefix of
//!     the text of one of the command's ends was written (of `node` also of the trace of a journal that ends where
//!     the sink failed, `LosesSink`); with 8 whole lines of the run were written, or none (of `upgrade` none; of `node`
//!     none, or its trace without the last line, `LosesMemory`), and then `status 8 no-memory`; with 2, 3, 4, 7, 11 and
//!     12
//!     the status line alone.
//! - **The laws of the run** (`RunLaws` of `sim_run`) of the job or the drill, with status 0 or 1, and with 8 where
//!   lines of the run were written.
//! - **Completeness** [`complete`: `IsComplete`], where neither the source's count of faults nor the sink's rose, or
//!   stands at its last value. Where the bytes left are a job's text, `world` has status 0, 1 or 8, and `upgrade` 0 or
//!   8; `node` has 0, 1, 8, 9 or 10 where that job has a place for it, and the link's count didn't rise either;
//!   `launch` has 0, 1, 8, 11 or 12 where it has a port for each node, and the spawner's count didn't rise either. The
//!   drill has 0 or 8. Where they are the text of a job with outputs, `check` has 0, 1, 8, 11 or 12; it has 0, 1 or 8
//!   where moreover each of these nodes ended with 0 or 1, and their rejected traces are a run (`AreARun`), and so has
//!   `launch` where the spawner tells such outputs of its children, and told no finish of their ranks before
//!   (`TellsRun`).
//! - **What a call leaves alone** [`leaves`: `LeavesAlone`]. What is seen of the spawner stands after the call as it
//!   stood before, unless the words are those of `launch`; so does what is seen of link and clock, unless they are
//!   those of `node`; and what is seen of the source, where they are those of `drill`, or of no command.
//!
//! `run_streams` says the same of the exit status that the program ends with, over a reader and a writer of std:
//! `ReaderSource` tells as left what its reader tells as remaining, `WriterSink` as taken what its writer tells as its
//! contents, and both count errors. Standard input and output tell neither.
//!
//! `returning_call` is `gasnet` for all words but those of `node`, which it hands back with the outside. Its type has
//! no `Wait`, so it returns whatever comes, if the calls of the source, the sink and the spawner do; `gasnet` makes
//! that call first.
//!
//! `words_of` [`AreTold`] gives the words of a call: all that the command line told but the first, and none where they
//! are no text, or memory ran out. What no clause says: that a program asks the system for them and for the two
//! streams. No clause says that a write of the system reached anything, nor that memory really ran out with status 8.
//! That nothing is written after a fault of the sink is tested, and shown by the code alone: `flushed` leaves the sink
//! then.
#![tactic(auto)]

mod check;
mod command;
mod drill;
mod ending;
mod launch;
mod node;
mod outside;
mod ports;
mod reading;
mod standard;
mod status;
mod streams;
mod top;
mod traces;
mod upgrade;
mod words;
mod world;

pub use cli_launch::{NoNotes, Notes};
pub use outside::Outside;
pub use proc_station::NodeAddress;
pub use standard::{ReaderSource, WriterSink};
pub use streams::{run_streams, words_of};
pub use top::{Status, gasnet, returning_call};
