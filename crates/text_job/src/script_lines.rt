//! Reading the scripts of a job.

ghost use Rattle.std.specs.Prelude.{◌≡◌, ◌+◌, ◌≤◌, [], length, true, None, IfOk};
ghost use Rattle.text_job.specs.HeadReading.{found_in_line};
ghost use Rattle.text_job.specs.Places.{AtScripts, AtSteps, end_or, section_fits};
ghost use Rattle.text_steps.specs.Scripts.{step_at, step_form};
ghost use Rattle.text_job.specs.JobReading.{State, begun_script, behind_scripts, behind_section};
ghost use Rattle.text_job.specs.JobReading.{has_thread};
ghost use Rattle.text_job.specs.JobReading.{is_full_script, is_schedule, item_of_line, read, section_why};
ghost use Rattle.text_job.specs.JobReading.{with_script, with_steps};
ghost use Rattle.text_job.specs.PlanPieces.{scripts_pieces};
ghost use Rattle.text_job.specs.StepPieces.{steps_pieces};
ghost use Rattle.base_text.specs.Found.{Reads};
ghost use Rattle.text_job.specs.Reading.{Continues, GivesAt};
ghost use Rattle.base_text.specs.Reasons.{reason};
ghost use Rattle.text_job.specs.Scopes.{scope_of};
ghost use Rattle.text_job.specs.declared.job.Job.{Job as JobState};
ghost use Rattle.text_job.specs.declared.job.NodeScript.{NodeScript as ScriptValue};
ghost use Rattle.text_job.specs.declared.plan_pieces.TheConstants.{PIECES};

use crate::fault::JobFault;
use crate::forms::JobForm;
use crate::job::{NodeScript, NodeScripts, ScriptSteps};
use crate::plan_pieces::{are_too_many_pieces, step_pieces};
use crate::sections::{Section, section_form, section_line};
use base_text::{LineWhy, Miss, Other, ended, name_of, reason_of};
use std::alloc::Global;
use text_calls::Scope;
use text_steps::{ScriptStep, step_at, step_form};
use wire_message::Settings;

/// The most steps of a script.
const STEPS: usize = 4_096;

/// A step, or none at the line `end`, and the bytes after the line.
fn step_or_end<'a>(
    alloc: Global,
    scope: &Scope,
    bytes: &'a [u8],
) -> Result<(Option<ScriptStep>, &'a [u8]), Miss>
    ensures { Reads (λ x. (x.0, x.1.now)) result (item_of_line (end_or (step_at scope.now)) bytes.now) }
{
    if JobForm::End.begins(bytes) {
        let (_, rest) = name_of(bytes);
        let rest = ended(rest)?;
        return Ok((None, rest));
    }
    let (step, rest) = step_at(alloc, scope, bytes)?;
    match ended(rest) {
        Ok(rest) => Ok((Some(step), rest)),
        Err(Other) => {
            drop(step);
            Err(Miss::Unlike)
        }
    }
}

/// The step of the next line, or none at the line `end`, and the bytes after it; or why it isn't read.
fn next_step<'a>(
    alloc: Global,
    scope: &Scope,
    line: u32,
    bytes: &'a [u8],
) -> Result<(Option<ScriptStep>, &'a [u8]), JobFault>
    ensures { GivesAt (λ x. (x.0, x.1.now)) result (found_in_line line (reason (step_form scope.now) bytes.now)
        (item_of_line (end_or (step_at scope.now)) bytes.now)) }
{
    match step_or_end(alloc, scope, bytes) {
        Ok(read) => Ok(read),
        Err(Miss::NoMemory) => Err(JobFault::NoMemory),
        Err(Miss::Unlike) => {
            let why = reason_of(step_form(scope, bytes), bytes);
            Err(JobFault::Bad { line, why })
        }
    }
}

/// Whether there is no room for the step behind so many, where all plans so far have so many pieces.
fn is_full_script(pieces: usize, steps: usize, step: &ScriptStep) -> bool
    requires { pieces ≤ PIECES }
    ensures { result ≡ is_full_script pieces steps step.now }
{
    steps >= STEPS || are_too_many_pieces(pieces, step_pieces(step))
}

/// The steps of a script up to the line `end`, with the next line's number and the bytes after it. The plans of the
/// scripts before it have so many pieces.
fn steps_at<'a>(
    alloc: Global,
    scope: &Scope,
    before: usize,
    first: u32,
    bytes: &'a [u8],
) -> Result<(ScriptSteps, u32, &'a [u8]), JobFault>
    requires pieces { before ≤ PIECES }
    requires line { first ≤ 20000000 }
    ensures value { (script : ScriptValue) (job : JobState) → scope_of job ≡ scope.now
        → scripts_pieces job.scripts ≡ before →
        Continues (λ x. read (record {
          place = AtScripts;
          job = with_script (with_steps x.0 script) job;
        }) x.1 x.2.now)
        result (read (record { place = AtSteps (with_steps [] script); job = job }) first bytes.now) }
    ensures later { IfOk result (λ x. x.1 ≤ first + 4097) }
    ensures few { IfOk result (λ x. before + steps_pieces x.0 ≤ PIECES) }
{
    let mut steps = Vec::new(alloc);
    let mut rest = bytes;
    let mut line = first;
    let mut pieces: usize = 0;
    loop {
        let (next, after) = match next_step(alloc, scope, line, rest) {
            Ok(read) => read,
            Err(fault) => return Err(fault),
        };
        let Some(step) = next else {
            return Ok((ScriptSteps { steps, pieces }, line + 1, after));
        };
        if is_full_script(before + pieces, steps.len(), &step) {
            drop(step);
            let why = LineWhy::Count;
            return Err(JobFault::Bad { line, why });
        }
        pieces += step_pieces(&step);
        steps.push(step)?;
        rest = after;
        line += 1;
    }
}

/// Whether a thread of a node has a script.
fn has_thread(scripts: &[NodeScript], node: u16, thread: u16) -> bool
    ensures { result ≡ has_thread scripts.now node thread }
{
    scripts
        .iter()
        .any(|script| script.node == node && script.thread == thread)
}

/// Why a line that begins a script, or another part, may not stand behind these scripts.
fn why_not(scripts: &[NodeScript], section: Section) -> Option<LineWhy>
    ensures { result ≡ section_why scripts.now section }
{
    match section {
        Section::Script { node, thread } if has_thread(scripts, node, thread) => {
            Some(LineWhy::Entry)
        }
        _ => None,
    }
}

/// The line that begins a script, or another part, behind these scripts, and the bytes after it.
fn next_section<'a>(
    settings: &Settings,
    before: &[NodeScript],
    line: u32,
    bytes: &'a [u8],
) -> Result<(Section, &'a [u8]), JobFault>
    ensures value { (job : JobState) → job.settings ≡ settings.now → job.scripts ≡ before.now →
        Continues (λ x. read (behind_section job x.0) (line + 1) x.1.now) result
        (read (record { place = AtScripts; job = job }) line bytes.now) }
    ensures there { IfOk result (λ x. section_fits 256 16 x.0 ≡ true) }
    ensures new { IfOk result (λ x. section_why before.now x.0 ≡ None) }
{
    let (section, rest) = match section_line(settings.nodes(), settings.threads(), bytes) {
        Ok(read) => read,
        Err(Other) => {
            let why = reason_of(section_form(bytes), bytes);
            return Err(JobFault::Bad { line, why });
        }
    };
    match why_not(before, section) {
        Some(why) => Err(JobFault::Bad { line, why }),
        None => Ok((section, rest)),
    }
}

/// Whether a line begins the schedule.
fn is_schedule(section: Section) -> bool
    ensures { result ≡ is_schedule section }
{
    match section {
        Section::Schedule => true,
        _ => false,
    }
}

/// The script of a thread with these steps.
fn script_of(node: u16, thread: u16, steps: ScriptSteps) -> NodeScript
    ensures { result ≡ with_steps steps (begun_script node thread) }
{
    NodeScript {
        node,
        thread,
        steps,
    }
}

/// The scripts of a job, whether a schedule comes behind them, and its line's number and the bytes from it on.
pub fn scripts_at<'a>(
    alloc: Global,
    scope: &Scope,
    first: u32,
    bytes: &'a [u8],
) -> Result<(NodeScripts, bool, u32, &'a [u8]), JobFault>
    requires { first ≤ 10000 }
    ensures value { (job : JobState) → scope_of job ≡ scope.now →
        Continues (λ x. read (behind_scripts x.1 (record job { scripts = x.0 })) x.2 x.3.now) result
        (read (record { place = AtScripts; job = record job { scripts = [] } }) first bytes.now) }
    ensures later { IfOk result (λ x. x.2 ≤ first + 16785409) }
{
    let mut scripts = Vec::new(alloc);
    let mut rest = bytes;
    let mut line = first;
    let mut pieces: usize = 0;
    loop {
        let (section, after) = match next_section(&scope.settings, &scripts, line, rest) {
            Ok(read) => read,
            Err(fault) => return Err(fault),
        };
        let Section::Script { node, thread } = section else {
            let schedule = is_schedule(section);
            return Ok((NodeScripts { scripts, pieces }, schedule, line + 1, after));
        };
        let (steps, later, after) = match steps_at(alloc, scope, pieces, line + 1, after) {
            Ok(read) => read,
            Err(fault) => return Err(fault),
        };
        pieces += steps.pieces();
        scripts.push(script_of(node, thread, steps))?;
        rest = after;
        line = later;
    }
}
