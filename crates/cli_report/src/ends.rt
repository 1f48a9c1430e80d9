//! How the nodes of a launch ended.

ghost use Rattle.std.specs.Prelude.{◌≡◌, ◌++◌, ◌==◌, IfOk, OnOk, string_bytes};
ghost use Rattle.std.specs.List.{flat_map};
ghost use Rattle.cli_report.specs.Ends.{end_told, ended_line, ends_text, is_told, status_name};

use std::alloc::{AllocError, Global};

/// How a node of a launch ended.
#[derive(Drop)]
pub(crate) struct EndedNode {
    /// Its rank.
    pub rank: u16,
    /// The status that it ended with, if it ended with one.
    pub code: Option<u8>,
    /// What is told of it otherwise.
    pub how: String,
}

/// The name of the status with which a node ends.
#[tactic(auto, unfolding(crate::specs::Ends::status_name))]
fn status_name(code: u8) -> &'static str
    ensures { result.now ≡ status_name code }
{
    match code {
        2 => "usage",
        3 => "bad-job",
        4 => "read-fault",
        5 => "write-fault",
        6 => "link-fault",
        8 => "no-memory",
        9 => "stuck",
        10 => "journal-full",
        127 => "no-program",
        _ => "of-no-node",
    }
}

/// Adds the line of a node that ended with a status, which has the status with its name.
///
/// # Errors
///
/// `AllocError` where memory ran out.
pub(crate) fn add_ended_line(text: &mut String, rank: u16, code: u8) -> Result<(), AllocError>
    ensures { OnOk result (string_bytes text.new ≡ string_bytes text.old ++ ended_line rank code) }
{
    let name = status_name(code);
    write!(text, "ended {rank} status {code} {name}\n")
}

/// Whether a node that ended so is told of: among those that got stuck, or among those that failed
/// of their own.
pub(crate) fn is_told(stuck: bool, code: Option<u8>) -> bool
    ensures { result ≡ is_told stuck code }
{
    match code {
        Some(0) => false,
        Some(1) => false,
        Some(9) => stuck,
        _ => !stuck,
    }
}

/// Adds the line of how a node ended, if it is told of.
#[tactic(auto, unfolding(crate::specs::Ends::end_told))]
fn add_end(text: &mut String, node: &EndedNode, stuck: bool) -> Result<(), AllocError>
    ensures { OnOk result (string_bytes text.new
        ≡ string_bytes text.old ++ end_told stuck node.now) }
{
    if !is_told(stuck, node.code) {
        return Ok(());
    }
    let rank = node.rank;
    match node.code {
        Some(code) => add_ended_line(text, rank, code),
        None => {
            let how = node.how.as_str();
            write!(text, "ended {rank} {how}\n")
        }
    }
}

/// Adds the lines of the nodes that are told of.
fn add_ends(text: &mut String, nodes: &[EndedNode], stuck: bool) -> Result<(), AllocError>
    ensures { OnOk result (string_bytes text.new
        ≡ string_bytes text.old ++ flat_map (end_told stuck) nodes.now) }
{
    for node in nodes {
        add_end(text, node, stuck)?;
    }
    Ok(())
}

/// How the nodes of a launch ended that ended with another status than 0 and 1, a line for each:
/// those that failed of their own, and then those that got stuck.
///
/// # Errors
///
/// `AllocError` where memory ran out.
pub(crate) fn ends_text(alloc: Global, nodes: &[EndedNode]) -> Result<String, AllocError>
    ensures { IfOk result (λ text. string_bytes text ≡ ends_text nodes.now) }
{
    let mut text = String::new(alloc);
    add_ends(&mut text, nodes, false)?;
    add_ends(&mut text, nodes, true)?;
    Ok(text)
}
