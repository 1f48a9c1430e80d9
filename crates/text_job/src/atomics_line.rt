//! Reading the line of atomics.

ghost use Rattle.std.specs.Prelude.{◌≡◌, ◌≤◌, ◌+◌, codes, IfOk, true};
ghost use Rattle.std.specs.Str.{bytes_eq};
ghost use Rattle.base_text.specs.Lines.{first_word};
ghost use Rattle.text_job.specs.JobReading.{State, job_of_head, item_of_line, read};
ghost use Rattle.text_job.specs.Places.{AtAtomics, AtCollect, atomics_at, atomics_or_later_form};
ghost use Rattle.text_job.specs.Reading.{Continues};
ghost use Rattle.base_text.specs.Found.{Finds};
ghost use Rattle.base_text.specs.Reasons.{reason};

use crate::fault::JobFault;
use crate::forms::JobForm;
use crate::head_scope::scope_of;
use crate::job::Head;
use base_text::{LineWhy, Other, ended, name_of, reason_of, words_left};
use text_calls::{Scope, is_second};

/// The bytes after the words of the line of atomics.
#[tactic(auto, unfolding(crate::specs::Places::atomics_at))]
fn atomics_at<'a>(scope: &Scope, bytes: &'a [u8]) -> Result<&'a [u8], Other>
    ensures { Finds (λ rest. (tt, rest.now)) result (atomics_at scope.now bytes.now) }
{
    let (name, rest) = name_of(bytes);
    if !JobForm::Atomics.has_name(name) {
        return Err(Other);
    }
    if !is_second(scope) {
        return Err(Other);
    }
    Ok(rest)
}

/// The bytes after the line of atomics.
fn atomics_line<'a>(scope: &Scope, bytes: &'a [u8]) -> Result<&'a [u8], Other>
    ensures { Finds (λ rest. (tt, rest.now)) result (item_of_line (atomics_at scope.now) bytes.now) }
{
    let rest = atomics_at(scope, bytes)?;
    ended(rest)
}

/// Why a line that begins with `atomics` isn't read.
fn atomics_why(scope: &Scope, bytes: &[u8]) -> LineWhy
    requires { bytes_eq (first_word bytes.now) (codes "atomics") ≡ true }
    ensures { result ≡ reason (atomics_or_later_form scope.now) bytes.now }
{
    let (_, rest) = name_of(bytes);
    let form = is_second(scope) && JobForm::Atomics.fits(words_left(rest));
    reason_of(form, bytes)
}

/// The head with the line of atomics, if it comes next, with the next line's number and the bytes from it on.
pub fn atomics_from(head: Head, line: u32, bytes: &[u8]) -> Result<(Head, u32, &[u8]), JobFault>
    requires { line ≤ 75 }
    ensures value { Continues
        (λ x. read (record { place = AtCollect; job = job_of_head x.0 }) x.1 x.2.now)
        result (read (record { place = AtAtomics; job = job_of_head head }) line bytes.now) }
    ensures later { IfOk result (λ x. x.1 ≤ 76) }
{
    if !JobForm::Atomics.begins(bytes) {
        return Ok((head, line, bytes));
    }
    let scope = scope_of(&head);
    match atomics_line(&scope, bytes) {
        Ok(rest) => {
            let head = Head {
                atomics: true,
                ..head
            };
            Ok((head, line + 1, rest))
        }
        Err(Other) => {
            let why = atomics_why(&scope, bytes);
            Err(JobFault::Bad { line, why })
        }
    }
}
