//! Reading the schedule of a job.

ghost use Rattle.std.specs.Prelude.{◌≡◌, ◌+◌, ◌*◌, ◌≤◌, [], length, Some, IfOk};
ghost use Rattle.text_job.specs.Places.{AtSchedule, AtDone, end_or};
ghost use Rattle.text_steps.specs.Events.{timed_at, timed_form};
ghost use Rattle.text_job.specs.HeadReading.{found_in_line};
ghost use Rattle.text_job.specs.JobReading.{State, item_of_line, rounds_of, are_too_many, is_full};
ghost use Rattle.text_job.specs.JobReading.{amounts_with, read};
ghost use Rattle.text_job.specs.PlanPieces.{scripts_pieces};
ghost use Rattle.text_job.specs.declared.plan_pieces.TheConstants.{PIECES};
ghost use Rattle.base_text.specs.Found.{Reads};
ghost use Rattle.text_job.specs.Reading.{Continues, GivesAt};
ghost use Rattle.base_text.specs.Reasons.{reason};
ghost use Rattle.text_job.specs.Scopes.{scope_of};
ghost use Rattle.text_job.specs.declared.job.Job.{Job as JobState};

use crate::fault::JobFault;
use crate::forms::JobForm;
use crate::job::Schedule;
use crate::plan_pieces::{are_too_many_pieces, event_pieces};
use base_text::{LineWhy, Miss, Other, ended, name_of, reason_of};
use std::alloc::Global;
use text_calls::Scope;
use text_steps::{ScheduledEvent, TimedEvent, timed_at, timed_form};

/// The most lines of a schedule.
const LINES: usize = 65_536;

/// What a schedule has so far: its lines, their rounds, and the pieces of all plans of the job up to it.
#[derive(Clone, Copy)]
struct Amounts {
    lines: usize,
    rounds: u32,
    pieces: usize,
}

/// A line of the schedule, or none at the line `end`, and the bytes after it.
fn timed_or_end<'a>(
    alloc: Global,
    scope: &Scope,
    bytes: &'a [u8],
) -> Result<(Option<TimedEvent>, &'a [u8]), Miss>
    ensures { Reads (λ x. (x.0, x.1.now)) result
        (item_of_line (end_or (timed_at scope.now)) bytes.now) }
{
    if JobForm::End.begins(bytes) {
        let (_, rest) = name_of(bytes);
        let rest = ended(rest)?;
        return Ok((None, rest));
    }
    let (event, rest) = timed_at(alloc, scope, bytes)?;
    match ended(rest) {
        Ok(rest) => Ok((Some(event), rest)),
        Err(Other) => {
            drop(event);
            Err(Miss::Unlike)
        }
    }
}

/// The next line of a schedule, or none at the line `end`, and the bytes after it; or why it isn't read.
fn next_timed<'a>(
    alloc: Global,
    scope: &Scope,
    line: u32,
    bytes: &'a [u8],
) -> Result<(Option<TimedEvent>, &'a [u8]), JobFault>
    ensures { GivesAt (λ x. (x.0, x.1.now)) result
        (found_in_line line (reason (timed_form scope.now) bytes.now)
        (item_of_line (end_or (timed_at scope.now)) bytes.now)) }
{
    match timed_or_end(alloc, scope, bytes) {
        Ok(read) => Ok(read),
        Err(Miss::NoMemory) => Err(JobFault::NoMemory),
        Err(Miss::Unlike) => {
            let why = reason_of(timed_form(scope, bytes), bytes);
            Err(JobFault::Bad { line, why })
        }
    }
}

/// The rounds of an event.
fn rounds_of(event: &ScheduledEvent) -> u32
    ensures { result ≡ rounds_of event.now }
{
    match event {
        ScheduledEvent::Settle { rounds } => *rounds,
        _ => 0,
    }
}

/// Whether rounds of these nodes are too many in all.
fn are_too_many(nodes: u16, rounds: u64) -> bool
    requires { rounds ≤ 8000000000 }
    ensures { result ≡ are_too_many nodes rounds }
{
    4096 < rounds || 262_144 < rounds * u64::from(nodes)
}

/// Whether there is no room for the event behind so much.
fn is_full(nodes: u16, so_far: Amounts, event: &ScheduledEvent) -> bool
    requires rounds { so_far.rounds ≤ 4096 }
    requires pieces { so_far.pieces ≤ PIECES }
    ensures { result ≡ is_full nodes so_far event.now }
{
    let rounds = u64::from(so_far.rounds) + u64::from(rounds_of(event));
    so_far.lines >= LINES
        || are_too_many(nodes, rounds)
        || are_too_many_pieces(so_far.pieces, event_pieces(event))
}

/// What the schedule has with the event, where there is room for it.
#[tactic(auto, using(crate::proofs::HandlerRuns::few_full))]
fn admitted(nodes: u16, so_far: Amounts, event: &ScheduledEvent) -> Option<Amounts>
    requires rounds { so_far.rounds ≤ 4096 }
    requires pieces { so_far.pieces ≤ PIECES }
    ensures { result ≡ amounts_with nodes so_far event.now }
{
    if is_full(nodes, so_far, event) {
        return None;
    }
    Some(Amounts {
        lines: so_far.lines + 1,
        rounds: so_far.rounds + rounds_of(event),
        pieces: so_far.pieces + event_pieces(event),
    })
}

/// The lines of a job's schedule up to the line `end`, with the next line's number and the bytes after it. The plans
/// of its scripts have so many pieces.
pub fn schedule_at<'a>(
    alloc: Global,
    scope: &Scope,
    before: usize,
    first: u32,
    bytes: &'a [u8],
) -> Result<(Schedule, u32, &'a [u8]), JobFault>
    requires pieces { before ≤ PIECES }
    requires line { first ≤ 20000000 }
    ensures value { (job : JobState) → scope_of job ≡ scope.now
        → scripts_pieces job.scripts ≡ before → Continues
        (λ x. read (record { place = AtDone; job = record job { schedule = Some x.0 } })
        x.1 x.2.now)
        result (read (record { place = AtSchedule; job = record job { schedule = Some [] } })
        first bytes.now) }
    ensures later { IfOk result (λ x. x.1 ≤ first + 65537) }
{
    let mut lines = Vec::new(alloc);
    let mut rest = bytes;
    let mut line = first;
    let mut so_far = Amounts {
        lines: 0,
        rounds: 0,
        pieces: before,
    };
    loop {
        let (next, after) = match next_timed(alloc, scope, line, rest) {
            Ok(read) => read,
            Err(fault) => return Err(fault),
        };
        let Some(event) = next else {
            return Ok((Schedule { lines }, line + 1, after));
        };
        let Some(amounts) = admitted(scope.settings.nodes(), so_far, &event.event) else {
            drop(event);
            let why = LineWhy::Count;
            return Err(JobFault::Bad { line, why });
        };
        lines.push(event)?;
        so_far = amounts;
        rest = after;
        line += 1;
    }
}
