//! What handlers and threads do, as lines say it: their values, their forms, and reading them.
//!
//! `action_at` reads an action of a handler's body (`Bodies`), `timed_at` a line of a schedule (`Events`), and
//! `step_at` a step of a script (`Scripts`). No two forms have one text (`BodyLaws`, `EventLaws`, `ScriptLaws`).
#![tactic(auto)]

mod action_forms;
mod bodies;
mod collective_forms;
mod collectives;
mod event_forms;
mod events;
mod reply_forms;
mod steps;
mod thread_actions;
mod waiting_forms;
mod waiting_steps;

pub use action_forms::ActionForm;
pub use bodies::{action_at, action_form};
pub use collective_forms::CollectiveForm;
pub use event_forms::EventForm;
pub use events::{timed_at, timed_form};
pub use reply_forms::ReplyForm;
pub use steps::{
    Action, CollectiveText, PutText, ReplyAction, ScheduledEvent, ScriptStep, TimedEvent,
    WaitingStep,
};
pub use waiting_forms::WaitingForm;
pub use waiting_steps::{step_at, step_form};
