//! Reading the line of collectives.

ghost use Rattle.std.specs.Prelude.{◌≡◌, ◌≤◌, ◌+◌, ◌==◌, ◌%◌, ◌&&◌, nat_le, codes, IfOk, true};
ghost use Rattle.std.specs.Str.{bytes_eq};
ghost use Rattle.base_text.specs.Lines.{first_word};
ghost use Rattle.text_job.specs.JobReading.{State, job_of_head, item_of_line, read};
ghost use Rattle.text_job.specs.Places.{AtAtomics, AtCollect, AtHandlers, collect_at, collect_fits};
ghost use Rattle.text_job.specs.Places.{collect_or_later_form};
ghost use Rattle.text_job.specs.Reading.{Continues};
ghost use Rattle.base_text.specs.Found.{Finds};
ghost use Rattle.base_text.specs.Reasons.{reason};

use crate::atomics_line::atomics_from;
use crate::fault::JobFault;
use crate::forms::JobForm;
use crate::head_scope::scope_of;
use crate::job::{CollectArea, Head};
use base_text::{LineWhy, Other, ended, name_of, reason_of, words_left};
use text_calls::{Scope, is_second, number_at};
use wire_message::MAX_PAYLOAD;

/// The most bytes of a part: those of a payload.
const MAX_ROOM: u64 = MAX_PAYLOAD as u64;

/// Whether a number is a multiple of 8.
fn is_aligned(number: u64) -> bool
    ensures { result ≡ (number % 8 == 0) }
{
    number % 8 == 0
}

/// Whether a part has some room, and not too much.
fn is_room(room: u64) -> bool
    ensures { result ≡ (nat_le 1 room && nat_le room MAX_PAYLOAD) }
{
    1 <= room && room <= MAX_ROOM
}

/// Whether so many bytes behind an offset end inside a segment.
#[tactic(auto, using(crate::proofs::AreaLaws::moved, crate::proofs::AreaLaws::beyond))]
fn ends_inside(base: u64, size: u64, segment: u64) -> bool
    ensures { result ≡ nat_le (base + size) segment }
{
    if segment < size {
        return false;
    }
    base <= segment - size
}

/// Whether the area may stand in a job.
fn collect_fits(scope: &Scope, area: CollectArea) -> bool
    ensures { result ≡ collect_fits scope.now area }
{
    if !is_second(scope) {
        return false;
    }
    if !is_aligned(area.base) || !is_aligned(area.room) {
        return false;
    }
    if !is_room(area.room) {
        return false;
    }
    let size = 2 * u64::from(scope.settings.nodes()) * (16 + area.room);
    ends_inside(area.base, size, scope.settings.segment())
}

/// What the line of collectives says, and the bytes after its words.
#[tactic(auto, unfolding(crate::specs::Places::collect_at))]
fn collect_at<'a>(scope: &Scope, bytes: &'a [u8]) -> Result<(CollectArea, &'a [u8]), Other>
    ensures { Finds (λ x. (x.0, x.1.now)) result (collect_at scope.now bytes.now) }
{
    let (name, rest) = name_of(bytes);
    if !JobForm::Collect.has_name(name) {
        return Err(Other);
    }
    let (base, rest) = number_at(rest, 0, u64::MAX)?;
    let (room, rest) = number_at(rest, 0, u64::MAX)?;
    let area = CollectArea { base, room };
    if !collect_fits(scope, area) {
        return Err(Other);
    }
    Ok((area, rest))
}

/// What the line of collectives says, and the bytes after it.
fn collect_line<'a>(scope: &Scope, bytes: &'a [u8]) -> Result<(CollectArea, &'a [u8]), Other>
    ensures { Finds (λ x. (x.0, x.1.now)) result (item_of_line (collect_at scope.now) bytes.now) }
{
    let (area, rest) = collect_at(scope, bytes)?;
    let rest = ended(rest)?;
    Ok((area, rest))
}

/// Why a line that begins with `collect` isn't read.
fn collect_why(scope: &Scope, bytes: &[u8]) -> LineWhy
    requires { bytes_eq (first_word bytes.now) (codes "collect") ≡ true }
    ensures { result ≡ reason (collect_or_later_form scope.now) bytes.now }
{
    let (_, rest) = name_of(bytes);
    let form = is_second(scope) && JobForm::Collect.fits(words_left(rest));
    reason_of(form, bytes)
}

/// The head with the line of collectives, if it comes next, with the next line's number and the bytes from it on.
fn collect_from(head: Head, line: u32, bytes: &[u8]) -> Result<(Head, u32, &[u8]), JobFault>
    requires { line ≤ 76 }
    ensures value { Continues
        (λ x. read (record { place = AtHandlers; job = job_of_head x.0 }) x.1 x.2.now)
        result (read (record { place = AtCollect; job = job_of_head head }) line bytes.now) }
    ensures later { IfOk result (λ x. x.1 ≤ 77) }
{
    if !JobForm::Collect.begins(bytes) {
        return Ok((head, line, bytes));
    }
    let scope = scope_of(&head);
    match collect_line(&scope, bytes) {
        Ok((area, rest)) => {
            let head = Head {
                collect: Some(area),
                ..head
            };
            Ok((head, line + 1, rest))
        }
        Err(Other) => {
            let why = collect_why(&scope, bytes);
            Err(JobFault::Bad { line, why })
        }
    }
}

/// The head with the lines of atomics and of collectives, where they come next, with the next line's number and the
/// bytes from it on.
pub fn services_from(head: Head, line: u32, bytes: &[u8]) -> Result<(Head, u32, &[u8]), JobFault>
    requires { line ≤ 75 }
    ensures value { Continues
        (λ x. read (record { place = AtHandlers; job = job_of_head x.0 }) x.1 x.2.now)
        result (read (record { place = AtAtomics; job = job_of_head head }) line bytes.now) }
    ensures later { IfOk result (λ x. x.1 ≤ 77) }
{
    let (head, line, rest) = match atomics_from(head, line, bytes) {
        Ok(read) => read,
        Err(fault) => return Err(fault),
    };
    collect_from(head, line, rest)
}
