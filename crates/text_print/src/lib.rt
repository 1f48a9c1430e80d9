//! Printing a job: the one text that is read as it.
//!
//! `print_job` writes the text of a job (`text_job` of the crate of that name) into a sink, or at a fault of the sink a
//! prefix of it. It takes no memory. So what it writes of a job that was read is the text that was read, and reading it
//! gives the job.
//!
//! A form of line is a name, the words behind it (`Word`) and, of some, a list at its end (`Last`); `write_form` writes
//! any of them. Each call, step, action and event has a row of its own in `write_call` and its kin.
#![tactic(auto)]

mod actions;
mod calls;
mod collectives;
mod events;
mod forms;
mod handlers;
mod head;
mod numbers;
mod payloads;
mod printing;
mod schedules;
mod scripts;
mod steps;
mod vis;
mod words;

pub use printing::print_job;
