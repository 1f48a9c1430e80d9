//! A job as its nodes run it: its handlers' bodies, the calls of its threads, and the words of their answers.
//!
//! What a job's text is, and reading it, is `text_job`'s. This crate knows no world: a run over sockets stands on it
//! without the simulator. What is proved here:
//!
//! - `Script::new` keeps the job, with its handlers and their locks registered; indexes are given as `registered` says.
//! - `call_of` gives the call that a schedule line or a step makes (`meant_by`), with each `cN` read from the node's
//!   cells. Each thread of the job may make it (`IsCallable`).
//! - `ScriptHandlers` is a `Handlers` whose meaning is the body of the text (`script_meaning`): `run` leaves what its
//!   actions leave, in order. It is lawful: what a body writes lies inside the segment, the locks of threads stay
//!   theirs, and a reply is one that was let through.
//! - `write_answer` writes a line: a number, and the words of an answer (`answer_words`) by the numbers at the
//!   endpoint's slots and its segment, for every record for which the endpoint stands; at a fault of the sink a prefix
//!   of it; `write_vis` that of how a transfer of many pieces began (`vis_words`), `write_collective` that of a call of
//!   collectives (`collective_words`).
#![tactic(auto)]

mod answer_texts;
mod answer_words;
mod answers;
mod body;
mod body_bytes;
mod body_numbers;
mod body_replies;
mod collective_texts;
mod handlers;
mod line;
mod script;
mod shown;
mod transfer_texts;

pub use answer_words::{lock_fault_word, rule_word};
pub use answers::{write_answer, write_vis};
pub use body_numbers::value_of;
pub use collective_texts::{CollectiveAnswer, write_collective};
pub use handlers::ScriptHandlers;
pub use line::call_of;
pub use script::Script;
