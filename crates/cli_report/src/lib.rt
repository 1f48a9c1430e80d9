//! What a person is told of a run of the program, and what is kept of a run so that it can be told.
//!
//! All of it goes to standard error. A text is made by a function of values, and its clause says the text byte by byte,
//! by a definition in `specs/`. Where memory runs out nothing is told. What is proved:
//!
//! - `tell_after` [`TellsAfter`]: all that is told after a run, in order, or less where memory ran out: what was
//!   dropped (`IsDroppedText`), what the outputs of nodes tell (`IsToldBy`), how the nodes of a launch ended
//!   (`IsEndsText`), the steps, and why the run went wrong (`IsFaultOf`), by the last line that it wrote (`last_line`
//!   [`IsLastLine`]).
//! - What the outputs of nodes tell stands part by part in order: the requests that aren't back, a status that isn't
//!   what the trace has, where replays stop, and the entries that got what no node sent (`gaps_text`): those that are
//!   causes, or all. It is told of the replays (`Replays`) that were given, place by place (`GivesTo`).
//! - Help, why words and jobs are refused, and steps are the texts that `Texts` makes of these words, jobs and outputs.
//! - `tell_help`, `tell_fault`, `refused_line` and `progress_line` [`TellsHelp`, `TellsLine`, and of the same names].
//!   `is_shown_at` is exact, and `counts_of` [`AreCounted`] is what counters have.
//! - `with_port` [`HasWord`, `ArePorts`, `TellsPorts`]: a launch without a port gets one of a block of which each port
//!   was found free, and that is told.
//! - `tell_made` [`TellsMade`]: a text is told to what `Tells`, all of it where the answer is true.
//! - `Seen` [`KeepsPrefix`, `KeepsEnd`, `KeepsAll`]: which bytes are kept of those that go by. `WatchedReader` and
//!   `WatchedWriter` tell what the reader or the writer behind tells, and `CountedSpawner` what the spawner behind
//!   tells. It keeps what children gave [`KeepsOutput`].
//! - `Command`: its words, and what is kept of its run. Its input is read again where it is needed [`IsReadAgain`].
//! - `message_of` [`IsMessageOf`, `AreNoMessage`]: the message that a datagram spells, or that it spells none.
//!
//! No clause says that the system told a person anything, nor the system's own texts of errors.
#![tactic(auto)]

mod causes;
mod command;
mod counted;
mod ends;
mod facts;
mod findings;
mod gathered;
mod message;
mod ports;
mod progress;
mod ran;
mod replays;
mod report;
mod seen;
mod standard_error;
mod status;
mod telling;
mod texts;
mod unsent;

pub use command::{Command, ReadsAgain, is_node, with_port};
pub use counted::{CountedSpawner, KeptOutput};
pub use facts::{ChildSeen, Children, Facts, LinkSeen};
pub use findings::{NodeFinding, refused_line};
pub use message::message_of;
pub use ports::{FreePorts, Ports};
pub use progress::{Counter, is_shown_at, progress_line};
pub use ran::{Outcome, tell_after};
pub use replays::Replays;
pub use seen::{Counts, Seen, WatchedReader, WatchedWriter, counts_of};
pub use standard_error::StandardError;
pub use telling::{Tells, tell_fault, tell_help, tell_made};
pub use texts::Texts;
pub use unsent::{Gap, Message, SentMessage};
