//! What the outputs of the nodes of a run tell.

ghost use Rattle.std.specs.Prelude.{◌≡◌, ◌++◌, ◌==◌, IfOk, OnOk, string_bytes};
ghost use Rattle.std.specs.List.{flat_map, list_any};
ghost use Rattle.cli_report.specs.Lines.{line_told};
ghost use Rattle.cli_report.specs.Findings.{blocked_told, difference_told, fault_of, is_blocked};
ghost use Rattle.cli_report.specs.Findings.{is_stuck, open_told, refused_line, refused_told};

use crate::ends::{add_ended_line, is_told};
use crate::status::Ending;
use std::alloc::{AllocError, Global};

/// What the output of a node tells, by the replay of its trace.
#[derive(Clone, Copy)]
pub struct NodeFinding {
    /// Its rank.
    pub rank: u16,
    /// The status that it tells.
    pub status: u8,
    /// Whether no script has a step left after its trace.
    pub over: bool,
    /// Whether it noted a violation.
    pub violated: bool,
    /// How many of its turns got what it refused.
    pub refused: usize,
    /// How many of its requests aren't back.
    pub outstanding: usize,
    /// How many turns its trace has.
    pub entries: usize,
    /// How many of them its replay took by itself.
    pub turns: usize,
}

/// Adds what is told of a node some of whose turns got what it refused.
fn add_refused_line(text: &mut String, rank: u16, turns: usize) -> Result<(), AllocError>
    ensures { OnOk result (string_bytes text.new
        ≡ string_bytes text.old ++ refused_line rank turns) }
{
    write!(
        text,
        "gasnet: node {rank} refused what {turns} of its turns got\n"
    )
}

/// What is told of a node some of whose turns got what it refused.
///
/// # Errors
///
/// `AllocError` where memory ran out.
pub fn refused_line(alloc: Global, rank: u16, turns: usize) -> Result<String, AllocError>
    ensures { IfOk result (λ text. string_bytes text ≡ refused_line rank turns) }
{
    let mut text = String::new(alloc);
    add_refused_line(&mut text, rank, turns)?;
    Ok(text)
}

/// Adds how many turns of a node of a run that failed got what it refused, where there are any.
#[tactic(auto, unfolding(crate::specs::Findings::refused_told))]
fn add_refused(text: &mut String, ending: Ending, node: NodeFinding) -> Result<(), AllocError>
    ensures { OnOk result (string_bytes text.new
        ≡ string_bytes text.old ++ refused_told ending node) }
{
    match ending {
        Ending::Run => Ok(()),
        Ending::NoRun => Ok(()),
        Ending::Failed => {
            if node.refused == 0 {
                return Ok(());
            }
            add_refused_line(text, node.rank, node.refused)
        }
    }
}

/// Adds how many requests of a node aren't back, where there are any.
#[tactic(auto, unfolding(crate::specs::Findings::open_told))]
fn add_open(text: &mut String, node: NodeFinding) -> Result<(), AllocError>
    ensures { OnOk result (string_bytes text.new ≡ string_bytes text.old ++ open_told node) }
{
    let (rank, open) = (node.rank, node.outstanding);
    if open != 0 {
        return write!(text, "open {rank} {open}\n");
    }
    Ok(())
}

/// What is wrong with the status that a node told, by the replay of its trace. Empty where nothing
/// is.
#[tactic(auto, unfolding(crate::specs::Findings::fault_of))]
fn fault_of(node: NodeFinding) -> &'static str
    ensures { result.now ≡ fault_of node }
{
    if (node.status == 0 || node.status == 1) && !node.over {
        "by its trace and this job a script isn't over"
    } else if node.status == 0 && node.violated {
        "by its trace and this job it noted a violation"
    } else if node.status == 1 && !node.violated {
        "by its trace and this job it noted none"
    } else if node.status == 9 && node.over {
        "by its trace and this job all its scripts are over"
    } else {
        ""
    }
}

/// Adds what is told of a node whose status isn't what the replay of its trace has.
#[tactic(auto, unfolding(crate::specs::Findings::difference_told))]
fn add_difference(text: &mut String, node: NodeFinding) -> Result<(), AllocError>
    ensures { OnOk result (string_bytes text.new
        ≡ string_bytes text.old ++ difference_told node) }
{
    let fault = fault_of(node);
    if fault.is_empty() {
        return Ok(());
    }
    let (rank, status) = (node.rank, node.status);
    write!(text, "differs {rank} status {status}: {fault}\n")
}

/// Adds where the replay of a node's trace stops, if it stops.
#[tactic(auto, unfolding(crate::specs::Findings::blocked_told))]
fn add_blocked(text: &mut String, node: NodeFinding) -> Result<(), AllocError>
    ensures { OnOk result (string_bytes text.new ≡ string_bytes text.old ++ blocked_told node) }
{
    let (rank, turns) = (node.rank, node.turns);
    if turns >= node.entries {
        return Ok(());
    }
    let (entry, line) = (turns.saturating_add(1), turns.saturating_add(4));
    write!(
        text,
        "blocked {rank} {entry} line {line}: its thread holds a lock, and gets nothing\n"
    )
}

/// Whether the replay of a trace stops.
pub(crate) fn has_blocked(nodes: &[NodeFinding]) -> bool
    ensures { result ≡ list_any is_blocked nodes.now }
{
    nodes.iter().any(|node| node.turns < node.entries)
}

/// Whether a node got stuck.
pub(crate) fn has_stuck(nodes: &[NodeFinding]) -> bool
    ensures { result ≡ list_any is_stuck nodes.now }
{
    nodes.iter().any(|node| node.status == 9)
}

/// What is told of each node.
#[derive(Clone, Copy)]
pub(crate) enum NodeLine {
    /// What is counted of it, of a run that ended so.
    Counts(Ending),
    /// That its status isn't what the replay of its trace has.
    Difference,
    /// Where the replay of its trace stops.
    Blocked,
    /// The status that it ended with, if it got stuck, or if it failed of its own.
    Status(bool),
}

/// Adds what is told of a node.
#[tactic(auto, unfolding(crate::specs::Findings::status_told))]
fn add_line(text: &mut String, told: NodeLine, node: NodeFinding) -> Result<(), AllocError>
    ensures { OnOk result (string_bytes text.new ≡ string_bytes text.old ++ line_told told node) }
{
    match told {
        NodeLine::Counts(ending) => {
            add_refused(text, ending, node)?;
            add_open(text, node)
        }
        NodeLine::Difference => add_difference(text, node),
        NodeLine::Blocked => add_blocked(text, node),
        NodeLine::Status(stuck) => {
            if !is_told(stuck, Some(node.status)) {
                return Ok(());
            }
            add_ended_line(text, node.rank, node.status)
        }
    }
}

/// Adds what is told of each node.
///
/// # Errors
///
/// `AllocError` where memory ran out.
pub(crate) fn add_lines(
    text: &mut String,
    told: NodeLine,
    nodes: &[NodeFinding],
) -> Result<(), AllocError>
    ensures { OnOk result (string_bytes text.new
        ≡ string_bytes text.old ++ flat_map (line_told told) nodes.now) }
{
    for node in nodes {
        add_line(text, told, *node)?;
    }
    Ok(())
}
