//! The steps and lines of a job beside their answers, for a person.

use crate::faults::{next_line, text_of};
use crate::kinds::number;
use crate::places::Reading;
use crate::tables::{as_one, fill};
use std::alloc::{AllocError, Global};

/// The lines of a job's head.
const HEAD_LINES: u8 = 10;

/// The steps of a script that weren't told yet.
#[derive(Clone, Copy)]
struct Script<'a> {
    /// Its node and its thread, as they stand in its line.
    thread: &'a str,
    steps: &'a [u8],
    told: u64,
}

/// The scripts of a job's text, and its schedule.
#[derive(Drop)]
struct Parts<'a> {
    scripts: Vec<Script<'a>>,
    schedule: &'a [u8],
}

/// The parts of a job's text.
fn parts_of(alloc: Global, text: &[u8]) -> Result<Parts<'_>, AllocError> {
    let mut reading = Reading::new();
    let mut parts = Parts {
        scripts: Vec::new(alloc),
        schedule: &[],
    };
    let mut rest = text;
    for _ in 0..text.len() {
        let Some((line, after)) = next_line(rest) else {
            return Ok(parts);
        };
        let line = text_of(line);
        let before = reading.place;
        reading.pass(line);
        rest = after;
        if before == reading.place {
            continue;
        }
        if reading.place == "steps" {
            let (_, thread) = line.split_once(' ').unwrap_or(("", ""));
            parts.scripts.push(Script {
                thread,
                steps: after,
                told: 0,
            })?;
        } else if reading.place == "schedule" {
            parts.schedule = after;
        } else if reading.place == "behind" {
            return Ok(parts);
        }
    }
    Ok(parts)
}

/// Tells the next step of a thread with its answer. False where there is none.
fn tell_step<'a>(
    alloc: Global,
    told: &mut String,
    scripts: &mut [Script<'a>],
    line: &'a str,
) -> Result<bool, AllocError> {
    let mut words = line.splitn(3, ' ');
    let (node, thread) = (words.next().unwrap_or(""), words.next().unwrap_or(""));
    let answer = words.next().unwrap_or("");
    let name = fill(alloc, "@ @", &[node, thread], &[])?;
    for script in scripts.iter_mut() {
        if script.thread != name.as_str() {
            continue;
        }
        let Some((step, after)) = next_line(script.steps) else {
            return Ok(false);
        };
        script.steps = after;
        script.told = script.told.saturating_add(1);
        let words = [script.thread, text_of(step), answer];
        let text = fill(alloc, "step @ % `@`: @\n", &words, &[script.told])?;
        told.push_str(text.as_str())?;
        return Ok(true);
    }
    Ok(false)
}

/// The steps of a job beside their answers: a line `step RANK THREAD NUMBER` with the step and the
/// answer for each line of steps with which the output of `check` or `launch` begins.
pub fn steps_told(alloc: Global, job: &[u8], output: &[u8]) -> Result<String, AllocError> {
    let mut told = String::new(alloc);
    let Parts { mut scripts, .. } = parts_of(alloc, job)?;
    let mut rest = output;
    for _ in 0..output.len() {
        let Some((line, after)) = next_line(rest) else {
            return Ok(told);
        };
        if !tell_step(alloc, &mut told, &mut scripts, text_of(line))? {
            return Ok(told);
        }
        rest = after;
    }
    Ok(told)
}

/// How many steps are left of a script.
fn left(steps: &[u8]) -> u64 {
    let (mut count, mut rest) = (0u64, steps);
    for _ in 0..steps.len() {
        let Some((line, after)) = next_line(rest) else {
            return count;
        };
        if text_of(line) == "end" {
            return count;
        }
        count = count.saturating_add(1);
        rest = after;
    }
    count
}

/// Goes on behind the steps of which these are the lines.
fn pass_steps<'a>(
    alloc: Global,
    scripts: &mut [Script<'a>],
    lines: &'a [u8],
) -> Result<(), AllocError> {
    let mut rest = lines;
    for _ in 0..lines.len() {
        let Some((line, after)) = next_line(rest) else {
            return Ok(());
        };
        let mut told = String::new(alloc);
        if !tell_step(alloc, &mut told, scripts, text_of(line))? {
            return Ok(());
        }
        rest = after;
    }
    Ok(())
}

/// The steps of a node that wait: behind the lines of its steps that ended, a line `waits RANK THREAD DONE STEPS` with
/// the next step for each of its threads that has one. DONE is how many steps of its script ended, and STEPS how many
/// that has.
pub fn waits_told(
    alloc: Global,
    job: &[u8],
    rank: u16,
    lines: &[u8],
) -> Result<String, AllocError> {
    let mut told = String::new(alloc);
    let Parts { mut scripts, .. } = parts_of(alloc, job)?;
    pass_steps(alloc, &mut scripts, lines)?;
    let node = fill(alloc, "%", &[], &[u64::from(rank)])?;
    for script in scripts.iter() {
        let left = left(script.steps);
        let (of, _) = script.thread.split_once(' ').unwrap_or(("", ""));
        if of != node.as_str() || left == 0 {
            continue;
        }
        if let Some((step, _)) = next_line(script.steps) {
            let words = [script.thread, text_of(step)];
            let numbers = [script.told, script.told.saturating_add(left)];
            let text = fill(alloc, "waits @ % % @\n", &words, &numbers)?;
            told.push_str(text.as_str())?;
        }
    }
    Ok(told)
}

/// The lines of a job's schedule beside their answers: a line `line NUMBER` with the line and the
/// answer for each line of answers with which the output of `world` begins.
pub fn lines_told(alloc: Global, job: &[u8], output: &[u8]) -> Result<String, AllocError> {
    let mut told = String::new(alloc);
    let Parts { scripts, schedule } = parts_of(alloc, job)?;
    drop(scripts);
    let (mut asked, mut answered) = (schedule, output);
    for _ in 0..output.len() {
        let (Some((line, later)), Some((answer, after))) = (next_line(asked), next_line(answered))
        else {
            return Ok(told);
        };
        let (line, answer) = (text_of(line), text_of(answer));
        let (number, words) = answer.split_once(' ').unwrap_or(("", ""));
        if line == "end" || number == "status" {
            return Ok(told);
        }
        let text = fill(
            alloc,
            "line @ `@`: @\n",
            &as_one(number, line, words, ""),
            &[],
        )?;
        told.push_str(text.as_str())?;
        asked = later;
        answered = after;
    }
    Ok(told)
}

/// The number behind the first word of the head of a job's text.
fn head_number(job: &[u8], name: &str) -> u64 {
    let mut rest = job;
    for _ in 0..HEAD_LINES {
        let Some((line, after)) = next_line(rest) else {
            return 0;
        };
        if let Some((word, value)) = text_of(line).split_once(' ') {
            if word == name {
                return number(value);
            }
        }
        rest = after;
    }
    0
}

/// That the patience of a job's nodes ends before anything is sent again. Empty where it doesn't.
pub fn patience_told(alloc: Global, job: &[u8]) -> Result<String, AllocError> {
    let (patience, resend) = (head_number(job, "patience"), head_number(job, "resend"));
    let threads = head_number(job, "threads").max(1);
    if patience / threads >= resend {
        return Ok(String::new(alloc));
    }
    fill(
        alloc,
        "gasnet_cli: patience % ends before resend %: what is lost isn't sent again\n",
        &[],
        &[patience, resend],
    )
}
