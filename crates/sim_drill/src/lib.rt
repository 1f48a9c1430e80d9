//! The drill: a schedule of 20,000 rounds made from a number, its run in a world of endpoints, and the summary of that
//! run.
//!
//! What a round does is drawn (`specs/Draws.antt`). Which message a round delivers also depends on how many requests
//! its pair of nodes made so far; so the schedule is a fold over the run of the records (`rounds_lines`,
//! `specs/Rounds.antt`). With its schedule the drill is a job like others (`drill_job`), and its run is the run of that
//! job in a world.
//!
//! `run_drill` does the rounds one by one, counts the first words of the answers, and keeps nothing of the run but the
//! world and the counts; then it writes the summary and the lines of each node.
//!
//! - **How a drill ends** [`run`: `DrillEnds`]: all its lines (`drill_lines`, `specs/Summary.antt`) went into the sink,
//!   and the world that it gives stands for the end of the run; or the sink failed, and a prefix of their text went in;
//!   or memory ran out, and whole lines of them did.
//! - **The laws of the run** [`laws`: `RunLaws` of `sim_run`]: as of any job's.
//! - **No violation** [`calm`]: no call of it is forbidden, and nothing is refused to its handlers, so no node notes
//!   one.
//! - `Draws::draw` gives the numbers that are drawn [`state`, `drawn`].
#![tactic(auto)]

mod counts;
mod draws;
mod drill;
mod rounds;
mod summary;

pub use draws::Draws;
pub use drill::run_drill;
pub use sim_run::{RunEnd, run_job};
