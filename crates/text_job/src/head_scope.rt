//! What the lines of a head say that decides what later ones may say.

ghost use Rattle.std.specs.Prelude.{◌≡◌};
ghost use Rattle.text_job.specs.JobReading.{job_of_head};
ghost use Rattle.text_job.specs.Scopes.{scope_of};

use crate::job::Head;
use text_calls::Scope;

/// What the lines of a head say.
pub fn scope_of(head: &Head) -> Scope
    ensures { result ≡ scope_of (job_of_head head.now) }
{
    Scope {
        settings: head.settings,
        atomics: head.atomics,
        collect: head.collect.is_some(),
    }
}
