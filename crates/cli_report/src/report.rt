//! What is told of the outputs of the nodes of a run, one part after the other.

ghost use Rattle.std.specs.Prelude.{◌≡◌, ◌++◌, IfOk, OnOk, string_bytes};
ghost use Rattle.cli_report.specs.Report.{AddsGaps, AddsNoRun, AddsPatience, AddsUnsent, IsToldBy, statuses_text};

use crate::command::CommandKind;
use crate::findings::{NodeFinding, NodeLine, add_lines, has_blocked, has_stuck};
use crate::gathered::{gaps_of, sent_of, steps_text};
use crate::replays::Replays;
use crate::status::Ending;
use crate::texts::Texts;
use crate::unsent::{SentMessage, add_gaps, is_searched};
use std::alloc::{AllocError, Global};

/// A run whose nodes' outputs are told of.
#[derive(Clone, Copy)]
pub(crate) struct Judged {
    /// How it ended.
    pub ending: Ending,
    /// The command, `check` or `launch`.
    pub kind: CommandKind,
}

/// Adds what no node sent, by all that was sent.
fn add_unsent<R: Replays>(
    alloc: Global,
    nodes: &[NodeFinding],
    replays: &R,
    sent: &[SentMessage],
    text: &mut String,
) -> Result<(), AllocError>
    ensures { OnOk result (AddsUnsent R.Replays nodes.now replays.now sent.now
        (string_bytes text.old) (string_bytes text.new)) }
{
    let gaps = gaps_of(alloc, replays)?;
    add_gaps(text, &gaps, sent, has_blocked(nodes))?;
    Ok(())
}

/// Adds what is told of traces that are no run: where their replays stop, and what no node sent.
fn add_no_run_text<R: Replays>(
    alloc: Global,
    nodes: &[NodeFinding],
    replays: &R,
    text: &mut String,
) -> Result<(), AllocError>
    ensures { OnOk result (AddsGaps R.Replays nodes.now replays.now (string_bytes text.old)
        (string_bytes text.new)) }
{
    let sent = sent_of(alloc, replays)?;
    add_lines(text, NodeLine::Blocked, nodes)?;
    if is_searched(nodes, &sent) {
        add_unsent(alloc, nodes, replays, &sent, text)?;
    }
    Ok(())
}

/// Adds what is told of traces, where they are no run.
fn add_no_run<R: Replays>(
    alloc: Global,
    ending: Ending,
    nodes: &[NodeFinding],
    replays: &R,
    text: &mut String,
) -> Result<(), AllocError>
    ensures { OnOk result (AddsNoRun R.Replays ending nodes.now replays.now (string_bytes text.old)
        (string_bytes text.new)) }
{
    match ending {
        Ending::Run => Ok(()),
        Ending::NoRun => add_no_run_text(alloc, nodes, replays, text),
        Ending::Failed => Ok(()),
    }
}

/// Adds what is told of the patience of nodes, where one of them got stuck.
fn add_patience<T: Texts>(
    alloc: Global,
    nodes: &[NodeFinding],
    job: &[u8],
    text: &mut String,
) -> Result<(), AllocError>
    ensures { OnOk result (AddsPatience T.Texts nodes.now job.now (string_bytes text.old)
        (string_bytes text.new)) }
{
    if !has_stuck(nodes) {
        return Ok(());
    }
    let part = T::patience_told(alloc, job)?;
    text.push_str(part.as_str())?;
    Ok(())
}

/// Adds how the nodes of a check ended that ended with another status than 0 and 1: those that
/// failed of their own, and then those that got stuck.
#[tactic(auto, unfolding(crate::specs::Report::statuses_text))]
fn add_statuses(
    text: &mut String,
    kind: CommandKind,
    nodes: &[NodeFinding],
) -> Result<(), AllocError>
    ensures { OnOk result (string_bytes text.new
        ≡ string_bytes text.old ++ statuses_text kind nodes.now) }
{
    match kind {
        CommandKind::Check => {
            add_lines(text, NodeLine::Status(false), nodes)?;
            add_lines(text, NodeLine::Status(true), nodes)
        }
        CommandKind::Launch => Ok(()),
        CommandKind::World => Ok(()),
        CommandKind::Other => Ok(()),
    }
}

/// What the outputs of the nodes of a run tell. Where it is none: the steps that ended, those that
/// are waited for, where replays stop and what no node sent, and of a check how the nodes ended. Of
/// each run: the requests that aren't back, and a status that isn't what the trace has.
///
/// # Errors
///
/// `AllocError` where memory ran out.
pub(crate) fn told_by<T: Texts, R: Replays>(
    alloc: Global,
    judged: Judged,
    job: &[u8],
    nodes: &[NodeFinding],
    replays: &R,
) -> Result<String, AllocError>
    ensures { IfOk result (λ text. IsToldBy T.Texts R.Replays judged job.now nodes.now replays.now
        (string_bytes text)) }
{
    let mut text = steps_text::<T, R>(alloc, judged.ending, job, replays)?;
    add_lines(&mut text, NodeLine::Counts(judged.ending), nodes)?;
    add_lines(&mut text, NodeLine::Difference, nodes)?;
    add_no_run(alloc, judged.ending, nodes, replays, &mut text)?;
    add_patience::<T>(alloc, nodes, job, &mut text)?;
    add_statuses(&mut text, judged.kind, nodes)?;
    Ok(text)
}
