//! What is told after the run of a command, by what is kept of it.

ghost use Rattle.std.specs.Prelude.{◌≡◌, IfOk, string_bytes};
ghost use Rattle.cli_report.specs.Facts.{IsDroppedText, IsEndsText, IsLinkText, IsStartText};
ghost use Rattle.cli_report.specs.Ran.{AreReplays, IsFindings, IsFindingsBy, IsOrNothing};
ghost use Rattle.cli_report.specs.Ran.{IsStepsOf, IsToldAfter, IsToldEnding, IsToldOf, TellsAfter};
ghost use Rattle.cli_report.specs.Ran.{made_or_nothing};

use crate::causes::fault_of;
use crate::command::{Command, CommandKind, kind_of};
use crate::counted::KeptOutput;
use crate::facts::{Children, Facts, children_text, dropped_text, link_text, start_text};
use crate::gathered::findings_of;
use crate::replays::Replays;
use crate::report::{Judged, told_by};
use crate::status::{Ending, ending_of, last_line, line_status};
use crate::telling::{After, Tells, after_text, tell_made};
use crate::texts::Texts;
use std::alloc::{AllocError, Global};

/// How a run of `check` or `launch` ended. None where there is nothing to tell, and of other
/// commands.
fn told_ending(command: &Command) -> Option<Ending>
    ensures { IsToldEnding command.now result }
{
    let line = last_line(&command.output.bytes);
    match kind_of(&command.words) {
        CommandKind::Check | CommandKind::Launch => ending_of(line_status(line)),
        CommandKind::World | CommandKind::Other => None,
    }
}

/// The steps beside their answers, where that is asked for: each step of the nodes, or each line of
/// the schedule.
fn steps_of<T: Texts>(alloc: Global, command: &Command) -> Result<String, AllocError>
    ensures { IfOk result (λ text. IsStepsOf T.Texts command.now (string_bytes text)) }
{
    if !command.steps {
        return Ok(String::new(alloc));
    }
    let (input, output) = (&command.input.bytes, &command.output.bytes);
    match kind_of(&command.words) {
        CommandKind::Check | CommandKind::Launch => T::steps_told(alloc, input, output),
        CommandKind::World => T::lines_told(alloc, input, output),
        CommandKind::Other => Ok(String::new(alloc)),
    }
}

/// The replays of what the nodes of a command gave: of a check what it read, else these outputs.
fn replays_of<R: Replays>(
    alloc: Global,
    kind: CommandKind,
    input: &[u8],
    outputs: Vec<KeptOutput>,
) -> Result<R, AllocError>
    ensures { IfOk result (AreReplays R.Replays kind input.now outputs.items) }
{
    match kind {
        CommandKind::Check => R::of_input(alloc, input),
        CommandKind::Launch | CommandKind::World | CommandKind::Other => {
            R::of_outputs(alloc, input, outputs)
        }
    }
}

/// What the outputs of the nodes of a run that ended so tell.
fn findings_by<T: Texts, R: Replays>(
    alloc: Global,
    command: &Command,
    ending: Ending,
    outputs: Vec<KeptOutput>,
) -> Result<String, AllocError>
    ensures { IfOk result (λ text. IsFindingsBy T.Texts R.Replays command.now ending outputs.items
        (string_bytes text)) }
{
    let (kind, job) = (kind_of(&command.words), &command.input.bytes);
    let replays = replays_of::<R>(alloc, kind, job, outputs)?;
    let nodes = findings_of(alloc, &replays)?;
    let judged = Judged { ending, kind };
    let text = told_by::<T, R>(alloc, judged, job, &nodes, &replays)?;
    Ok(text)
}

/// What the outputs of the nodes of a run of `check` or `launch` tell.
fn findings<T: Texts, R: Replays>(
    alloc: Global,
    command: &Command,
    outputs: Vec<KeptOutput>,
) -> Result<String, AllocError>
    ensures { IfOk result (λ text. IsFindings T.Texts R.Replays command.now outputs.items
        (string_bytes text)) }
{
    match told_ending(command) {
        Some(ending) => findings_by::<T, R>(alloc, command, ending, outputs),
        None => Ok(String::new(alloc)),
    }
}

/// A text, or none where memory ran out.
fn or_nothing(alloc: Global, made: Result<String, AllocError>) -> String
    ensures { string_bytes result ≡ made_or_nothing made }
{
    match made {
        Ok(text) => text,
        Err(AllocError) => String::new(alloc),
    }
}

/// What was heard of a run beside its streams. A text is empty where there is nothing to tell.
#[derive(Drop)]
struct Heard {
    /// How many datagrams were dropped.
    dropped: String,
    /// What the outputs of the nodes tell.
    findings: String,
    /// How the nodes of a launch ended.
    ends: String,
    /// Why the link failed.
    link: String,
    /// Which child couldn't be started, and why.
    start: String,
}

/// What was heard of a run.
fn heard_of<T: Texts, R: Replays, C: Children>(
    alloc: Global,
    command: &Command,
    outputs: Vec<KeptOutput>,
    facts: Facts,
    children: &C,
) -> Heard
    ensures dropped { IsOrNothing (IsDroppedText facts) (string_bytes result.dropped) }
    ensures findings { IsOrNothing (IsFindings T.Texts R.Replays command.now outputs.items)
        (string_bytes result.findings) }
    ensures ends { IsOrNothing (IsEndsText (C.ended children.now)) (string_bytes result.ends) }
    ensures link { IsOrNothing (IsLinkText facts.fault) (string_bytes result.link) }
    ensures start { IsOrNothing (IsStartText facts.unstarted) (string_bytes result.start) }
{
    Heard {
        dropped: or_nothing(alloc, dropped_text(alloc, facts)),
        findings: or_nothing(alloc, findings::<T, R>(alloc, command, outputs)),
        ends: or_nothing(alloc, children_text(alloc, children)),
        link: or_nothing(alloc, link_text(alloc, facts.fault)),
        start: or_nothing(alloc, start_text(alloc, facts.unstarted)),
    }
}

/// What is told of what was heard of a run, in order.
fn told_of<T: Texts>(
    alloc: Global,
    command: &Command,
    is_help: bool,
    heard: &Heard,
) -> Result<String, AllocError>
    ensures { IfOk result (λ text. IsToldOf T.Texts command.now is_help heard.now
        (string_bytes text)) }
{
    let steps = steps_of::<T>(alloc, command)?;
    let fault = fault_of::<T>(alloc, command, heard.link.as_str(), heard.start.as_str())?;
    let after = After {
        is_help,
        dropped: heard.dropped.as_str(),
        findings: heard.findings.as_str(),
        ends: heard.ends.as_str(),
        steps: steps.as_str(),
        fault: fault.as_str(),
    };
    let text = after_text(alloc, &after)?;
    Ok(text)
}

/// What is known after the run of a command, beside what its streams had.
#[derive(Drop)]
pub struct Outcome<'a, C> {
    /// Whether help was told before.
    is_help: bool,
    /// What the nodes of a launch gave.
    outputs: Vec<KeptOutput>,
    /// What the system kept of the link and of the children.
    facts: Facts,
    /// How the children ended.
    children: &'a C,
}

impl<'a, C> Outcome<'a, C> {
    /// What is known after a run.
    pub fn new(
        is_help: bool,
        outputs: Vec<KeptOutput>,
        facts: Facts,
        children: &'a C,
    ) -> Outcome<'a, C>
        ensures help { result.is_help ≡ is_help }
        ensures outputs { result.outputs ≡ outputs }
        ensures facts { result.facts ≡ facts }
        ensures children { result.children.now ≡ children.now }
    {
        Outcome {
            is_help,
            outputs,
            facts,
            children,
        }
    }
}

/// What is told after a run: what was dropped, what the outputs of the nodes tell, how the nodes of
/// a launch ended, and, unless help was told, the steps beside their answers and why the run went
/// wrong. A part for which there is no memory is left out.
///
/// # Errors
///
/// `AllocError` where memory ran out.
fn told_after<T: Texts, R: Replays, C: Children>(
    alloc: Global,
    command: &Command,
    outcome: Outcome<'_, C>,
) -> Result<String, AllocError>
    ensures { IfOk result (λ text. IsToldAfter T.Texts R.Replays C.ended command.now outcome.entry
        (string_bytes text)) }
{
    let Outcome {
        is_help,
        outputs,
        facts,
        children,
    } = outcome;
    let heard = heard_of::<T, R, C>(alloc, command, outputs, facts, children);
    let text = told_of::<T>(alloc, command, is_help, &heard)?;
    Ok(text)
}

/// Tells what is told after a run, if there is memory for it.
pub fn tell_after<X: Texts, R: Replays, C: Children, T: Tells>(
    alloc: Global,
    command: &Command,
    outcome: Outcome<'_, C>,
    to: &mut T,
)
    ensures { TellsAfter X.Texts R.Replays C.ended (T.told to.old, T.told to.new) command.now
        outcome.entry }
{
    let told = told_after::<X, R, C>(alloc, command, outcome);
    tell_made(to, &told);
}
