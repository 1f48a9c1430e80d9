//! The text of a job: its sections, what each of its lines may say there, and reading it.
//!
//! Words and lines are read by `base_text`, the forms of lines stand in `text_calls`, and what handlers and threads do
//! is read by `text_calls`, `text_vis` and `text_steps`.
//!
//! What is proved of `read_job` [`found`, `one`, `bad`, `meant`, `told`, `none`]: a job that is read has the bytes as
//! its text (`JobText`: the printing of the job's value, and the ranges), and is the one job that has them; else the
//! fault names the first bad line and the first reason that applies to it, as the reading function on lines says
//! (`job_of`), and no job has the bytes as its text; or memory ran out.
//!
//! What a refusal means apart from that function [`meant`: `Means`]: some job's text, its size apart, begins with the
//! lines before the bad one. They say at which place of a text the line stands, and what the job is so far (`Before`).
//! By these and the line, its reason is the first that applies (`IsAtFault`): the line is missing, or none of words, or
//! no job's text begins with the lines up to it. Or there are too many bytes. What is so meant is told [`told`], unless
//! memory ran out: so no text has two bad lines, and no line two reasons.
//!
//! `read_job_prefix` is the same reader where any bytes may stand behind a job's text [`found`, `one`, `bad`, `meant`,
//! `told`, `none`]: it tells the one job with whose text the bytes begin, and the size of that text (`BeginsWith`);
//! else the first bad line of the beginning (`prefix_of`), with what that means (`PrefixMeans`), or that the text at the
//! beginning is too long.
#![tactic(auto)]

mod atomics_line;
mod collect_line;
mod endings;
mod fault;
mod forms;
mod handler_lines;
mod head;
mod head_scope;
mod job;
mod locks;
mod pair_lines;
mod plan_pieces;
mod reading;
mod schedules;
mod script_lines;
mod sections;

pub use fault::JobFault;
pub use forms::{JobForm, Setting};
pub use job::{
    Body, CollectArea, HandlerText, HandlerTexts, Job, ListedLocks, NodeScript, NodeScripts,
    Schedule, ScriptSteps, SieveRule,
};
pub use reading::{MAX_JOB_BYTES, read_job, read_job_prefix};
