//! What the environment sets for a run of the program, or why it is refused.
//!
//! - `hosts_told` and `settings_told` [`told`: `AreHosts`; `secret`: `IsSecret`; `steps`: `IsSetOne`; `refused`:
//!   `RefusesHosts`, `RefusesSettings`]: what the environment sets, or why it is refused, by what its variables and
//!   files were found to hold, each under its name. `Refusal` has the text, the line and the exit status of what is
//!   refused. A key is the 64 hexadecimal digits of a file that its owner alone may use. White space may stand around
//!   them.
//!
//! No clause says what the system has in a variable or a file.
#![tactic(auto)]

mod environment;
mod settings;

pub use environment::{Environment, KeyFile, SettingsTold, hosts_told, settings_told};
pub use settings::{Refusal, set_value};
