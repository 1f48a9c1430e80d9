//! The texts of words, of a job's text and of its steps, which another crate makes.

ghost use Rattle.std.specs.Prelude.{IfOk, List, ℕ, String, string_bytes};
ghost use Rattle.std.specs.Global.{Global};

use std::alloc::{AllocError, Global};

/// What makes the texts that tell of words, of a job's text and of its steps. A text is empty where
/// there is nothing to tell. Each `AllocError` says that memory ran out.
pub trait Texts {
    /// The help that words ask for.
    ghost helps: { List (String Global) → List ℕ → Type 0 };
    /// Why words are those of no command.
    ghost refuses_words: { List (String Global) → List ℕ → Type 0 };
    /// Why a job has no place for what words say.
    ghost refuses_place: { List (String Global) → List ℕ → List ℕ → Type 0 };
    /// Why a job's text is refused, by the number of its bad line and the word of the reason.
    ghost refuses_job: { List ℕ → ℕ → List ℕ → List ℕ → Type 0 };
    /// The steps of a job beside their answers in an output.
    ghost steps: { List ℕ → List ℕ → List ℕ → Type 0 };
    /// The lines of a job's schedule beside their answers in an output.
    ghost schedules: { List ℕ → List ℕ → List ℕ → Type 0 };
    /// The steps that the threads of a node wait for, by the lines of those that ended.
    ghost waits: { List ℕ → ℕ → List ℕ → List ℕ → Type 0 };
    /// That the patience of a job's nodes ends before anything is sent again.
    ghost warns: { List ℕ → List ℕ → Type 0 };

    /// The help that words ask for.
    fn help(alloc: Global, words: &[String]) -> Result<String, AllocError>
        ensures { IfOk result (λ text. helps words.now (string_bytes text)) };

    /// Why words are those of no command.
    fn usage_fault(alloc: Global, words: &[String]) -> Result<String, AllocError>
        ensures { IfOk result (λ text. refuses_words words.now (string_bytes text)) };

    /// Why a job has no place for what words say.
    fn place_fault(alloc: Global, words: &[String], job: &[u8]) -> Result<String, AllocError>
        ensures { IfOk result (λ text. refuses_place words.now job.now (string_bytes text)) };

    /// Why a job's text is refused.
    fn job_fault(alloc: Global, job: &[u8], line: u32, reason: &str) -> Result<String, AllocError>
        ensures { IfOk result (λ text. refuses_job job.now line reason.now (string_bytes text)) };

    /// The steps of a job beside their answers.
    fn steps_told(alloc: Global, job: &[u8], output: &[u8]) -> Result<String, AllocError>
        ensures { IfOk result (λ text. steps job.now output.now (string_bytes text)) };

    /// The lines of a job's schedule beside their answers.
    fn lines_told(alloc: Global, job: &[u8], output: &[u8]) -> Result<String, AllocError>
        ensures { IfOk result (λ text. schedules job.now output.now (string_bytes text)) };

    /// The steps that the threads of a node wait for.
    fn waits_told(alloc: Global, job: &[u8], rank: u16, lines: &[u8]) -> Result<String, AllocError>
        ensures { IfOk result (λ text. waits job.now rank lines.now (string_bytes text)) };

    /// That the patience of a job's nodes ends before anything is sent again.
    fn patience_told(alloc: Global, job: &[u8]) -> Result<String, AllocError>
        ensures { IfOk result (λ text. warns job.now (string_bytes text)) };
}
