//! The steps of scripts: how each is tried on the endpoint of its node.
//!
//! A step is read as one of the forms of `law_traces` (`step_form`, in `specs/Forms.antt`), by the cells of its node
//! as the try begins. Requests wait where all credits are outstanding or a handler's lock is taken, `lock` waits where
//! another one holds it, and the waiting forms of the synchronisations and of the barrier where what they ask for
//! isn't complete. `until` waits for a cell. A blocking transfer begins an operation, and then synchronises it by
//! its handle; a `put-nb` and a `put-nbi` begin one, and then look whether its own chunks are all issued. A transfer of
//! many pieces makes all calls of its beginning in one try, and ends there. Each other call is made once.
//!
//! What is proved:
//!
//! - `attempt` [`tries`: `Tries`]: of every record for which the endpoint stood, the try makes the calls of the
//!   step's form, in order; the endpoint stands for the record after them (`Happen`), what they sent stands in the
//!   slot that is told, and the step ends, begins or stays as the form says (`IsTriedSo`). It is asked for a thread
//!   of the job, and a step that may stand in some job of the endpoint's settings.
//! - `steps_law` [`fitting`]: the calls of scripts whose steps a text can say may be made in a run of the world
//!   (`ActionsMay`); [`calm`]: a try that waits leaves the record of its node and the scripts (`IsCalm`), so that an
//!   empty turn leaves the machine.
#![tactic(auto)]

mod answers;
mod calls;
mod collectives;
mod laws;
mod making;
mod many;
mod trial;
mod tries;
mod waiting;

pub use laws::steps_law;
pub use trial::{Trial, Tried};
pub use tries::attempt;
