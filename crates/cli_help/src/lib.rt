//! What the program tells a person: help, why words or a job's text are refused, and the steps of a
//! run.
//!
//! All of it goes to standard error. No clause speaks of these texts; that their functions end, and
//! read nothing that isn't there, is proved as of all code.
//!
//! What differs from command to command, from form to form or from reason to reason stands in
//! tables. A table is a text whose lines are read when a person is told something (`tables`).
#![tactic(auto)]

mod commands;
mod faults;
mod forms;
mod help;
mod kinds;
mod places;
mod steps;
mod tables;
mod usage;

pub use faults::{BadLine, job_fault};
pub use help::help_for;
pub use steps::{lines_told, patience_told, steps_told, waits_told};
pub use tables::fill;
pub use usage::{place_fault, usage_fault};
