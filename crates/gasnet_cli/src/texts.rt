//! The texts of `cli_help`, for `cli_report`.

use cli_help::{
    BadLine, help_for, job_fault, lines_told, patience_told, place_fault, steps_told, usage_fault,
    waits_told,
};
use cli_report::Texts;
use std::alloc::{AllocError, Global};

/// The texts that `cli_help` makes. What they are isn't told.
#[derive(Drop)]
pub struct UserTexts;

impl Texts for UserTexts {
    ghost helps = { λ _ _. Unit {0} };

    ghost refuses_words = { λ _ _. Unit {0} };

    ghost refuses_place = { λ _ _ _. Unit {0} };

    ghost refuses_job = { λ _ _ _ _. Unit {0} };

    ghost steps = { λ _ _ _. Unit {0} };

    ghost schedules = { λ _ _ _. Unit {0} };

    ghost waits = { λ _ _ _ _. Unit {0} };

    ghost warns = { λ _ _. Unit {0} };

    fn help(alloc: Global, words: &[String]) -> Result<String, AllocError> {
        help_for(alloc, words)
    }

    fn usage_fault(alloc: Global, words: &[String]) -> Result<String, AllocError> {
        usage_fault(alloc, words)
    }

    fn place_fault(alloc: Global, words: &[String], job: &[u8]) -> Result<String, AllocError> {
        place_fault(alloc, words, job)
    }

    fn job_fault(alloc: Global, job: &[u8], line: u32, reason: &str) -> Result<String, AllocError> {
        job_fault(alloc, job, BadLine { line, reason })
    }

    fn steps_told(alloc: Global, job: &[u8], output: &[u8]) -> Result<String, AllocError> {
        steps_told(alloc, job, output)
    }

    fn lines_told(alloc: Global, job: &[u8], output: &[u8]) -> Result<String, AllocError> {
        lines_told(alloc, job, output)
    }

    fn waits_told(
        alloc: Global,
        job: &[u8],
        rank: u16,
        lines: &[u8],
    ) -> Result<String, AllocError> {
        waits_told(alloc, job, rank, lines)
    }

    fn patience_told(alloc: Global, job: &[u8]) -> Result<String, AllocError> {
        patience_told(alloc, job)
    }
}
