//! What the system kept of a run, and what is told of it.

ghost use Rattle.std.specs.Prelude.{◌≡◌, IfOk, ℕ, Option, string_bytes};
ghost use Rattle.cli_report.specs.Facts.{GivesEnded, IsBindText, IsDroppedText, IsEndedNode};
ghost use Rattle.cli_report.specs.Facts.{IsEndsText, IsLinkText, IsSocketText, IsStartText};
ghost use Rattle.cli_report.specs.Facts.{bind_text, others_told, small_code, start_line};
ghost use Rattle.cli_report.specs.Facts.{strays_told};
ghost use Rattle.cli_report.specs.Gathering.{GivesTo};
ghost use Rattle.cli_report.specs.declared.facts.ChildSeen.{ChildSeen};

use crate::causes::error_text;
use crate::ends::{EndedNode, ends_text};
use std::alloc::{AllocError, Global};
use std::net::SocketAddr;
use std::process::ExitStatus;

/// How many nodes a job has at most.
const NODES: u16 = 256;

/// How a child ended.
#[derive(Clone, Copy, Drop)]
pub enum ChildSeen {
    /// It couldn't be started.
    Unstarted,
    /// The system says that it ended so.
    Ended(ExitStatus),
    /// Its output couldn't be read to its end.
    Lost,
}

/// Why a link failed.
#[derive(Clone, Copy, Drop)]
pub enum LinkSeen {
    /// There aren't as many hosts as nodes, or a node has no port.
    NoAddress,
    /// Nobody reads standard output any more.
    Unread,
    /// The address can't be bound, by the system's error of this number.
    Bind(SocketAddr, i32),
    /// The socket failed, by the system's error of this number.
    Other(i32),
}

/// How the children of a launch ended.
pub trait Children {
    /// How the child of a rank was found to have ended.
    ghost ended: { Self → ℕ → Option ChildSeen → Type 0 };

    /// How the child of a rank ended, where that was kept.
    fn end_of(&self, rank: u16) -> Option<ChildSeen>
        ensures { ended self.now rank result };
}

/// What the system kept of a run's link and children.
#[derive(Clone, Copy, Drop)]
pub struct Facts {
    /// The address of the link's socket, if there is one.
    pub address: Option<SocketAddr>,
    /// How many datagrams were dropped that no peer sent.
    pub strays: u64,
    /// How many were dropped that the key didn't seal.
    pub others: u64,
    /// The rank of the node that sent the last of these.
    pub last: u64,
    /// Why the link failed, where it did.
    pub fault: Option<LinkSeen>,
    /// The first child that couldn't be started, with the system's number of the error.
    pub unstarted: Option<(u16, i32)>,
}

/// How many datagrams came that no peer sent, where there were any.
#[tactic(auto, unfolding(crate::specs::Facts::strays_told))]
fn strays_told(alloc: Global, address: &str, strays: u64) -> Result<String, AllocError>
    ensures { IfOk result (λ text. string_bytes text ≡ strays_told address.now strays) }
{
    if strays == 0 {
        return Ok(String::new(alloc));
    }
    format!(in alloc; "gasnet_cli: {address} dropped {strays} datagrams that no peer sent\n")
}

/// How many datagrams came that the key didn't seal, where there were any.
#[tactic(auto, unfolding(crate::specs::Facts::others_told))]
fn others_told(alloc: Global, address: &str, others: u64, last: u64) -> Result<String, AllocError>
    ensures { IfOk result (λ text. string_bytes text ≡ others_told address.now others last) }
{
    if others == 0 {
        return Ok(String::new(alloc));
    }
    format!(in alloc;
        "gasnet_cli: {address} dropped {others} datagrams that the key didn't seal, the last by node {last}\n"
    )
}

/// How many datagrams were dropped, where there were any.
///
/// # Errors
///
/// `AllocError` where memory ran out.
pub(crate) fn dropped_text(alloc: Global, facts: Facts) -> Result<String, AllocError>
    ensures { IfOk result (λ text. IsDroppedText facts (string_bytes text)) }
{
    let Some(address) = facts.address else {
        return Ok(String::new(alloc));
    };
    let address = format!(in alloc; "{address}")?;
    let strays = strays_told(alloc, address.as_str(), facts.strays)?;
    let others = others_told(alloc, address.as_str(), facts.others, facts.last)?;
    let (first, second) = (strays.as_str(), others.as_str());
    format!(in alloc; "{first}{second}")
}

/// Why an address can't be bound.
#[tactic(auto, unfolding(crate::specs::Facts::bind_text))]
fn bind_text(alloc: Global, address: &str, error: &str) -> Result<String, AllocError>
    ensures { IfOk result (λ text. string_bytes text ≡ bind_text address.now error.now) }
{
    format!(in alloc; "{address} can't be bound: {error}")
}

/// Why the link failed, where it did.
///
/// # Errors
///
/// `AllocError` where memory ran out.
pub(crate) fn link_text(alloc: Global, fault: Option<LinkSeen>) -> Result<String, AllocError>
    ensures { IfOk result (λ text. IsLinkText fault (string_bytes text)) }
{
    match fault {
        None => Ok(String::new(alloc)),
        Some(LinkSeen::NoAddress) => {
            let told = "there aren't as many hosts as nodes, or a node has no port";
            String::from_str(alloc, told)
        }
        Some(LinkSeen::Unread) => String::from_str(alloc, "nobody reads standard output any more"),
        Some(LinkSeen::Bind(address, code)) => bound_text(alloc, address, code),
        Some(LinkSeen::Other(code)) => socket_text(alloc, code),
    }
}

/// Why an address can't be bound, by the system's error of this number.
fn bound_text(alloc: Global, address: SocketAddr, code: i32) -> Result<String, AllocError>
    ensures { IfOk result (λ text. IsBindText (string_bytes text)) }
{
    let address = format!(in alloc; "{address}")?;
    let error = error_text(alloc, code)?;
    let text = bind_text(alloc, address.as_str(), error.as_str())?;
    Ok(text)
}

/// How the socket failed, by the system's error of this number.
fn socket_text(alloc: Global, code: i32) -> Result<String, AllocError>
    ensures { IfOk result (λ text. IsSocketText (string_bytes text)) }
{
    let error = error_text(alloc, code)?;
    let error = error.as_str();
    format!(in alloc; "the socket failed: {error}")
}

/// The line of a child that couldn't be started.
#[tactic(auto, unfolding(crate::specs::Facts::start_line))]
fn start_line(alloc: Global, rank: u16, error: &str) -> Result<String, AllocError>
    ensures { IfOk result (λ text. string_bytes text ≡ start_line rank error.now) }
{
    format!(in alloc; "node {rank} couldn't be started: {error}")
}

/// Which child couldn't be started, and why, where one couldn't.
///
/// # Errors
///
/// `AllocError` where memory ran out.
pub(crate) fn start_text(alloc: Global, start: Option<(u16, i32)>) -> Result<String, AllocError>
    ensures { IfOk result (λ text. IsStartText start (string_bytes text)) }
{
    let Some((rank, code)) = start else {
        return Ok(String::new(alloc));
    };
    let error = error_text(alloc, code)?;
    let text = start_line(alloc, rank, error.as_str())?;
    Ok(text)
}

/// A status as a byte, where it is one.
fn small_code(code: Option<i32>) -> Option<u8>
    ensures { result ≡ small_code code }
{
    match code {
        Some(code) => u8::try_from(code).ok(),
        None => None,
    }
}

/// What is told of a child that ended so.
fn ended_node(alloc: Global, rank: u16, end: ChildSeen) -> Result<EndedNode, AllocError>
    ensures { IfOk result (IsEndedNode rank end) }
{
    let (code, how) = match end {
        ChildSeen::Ended(status) => (status.code(), format!(in alloc; "{status}")?),
        ChildSeen::Unstarted => (None, String::from_str(alloc, "not started")?),
        ChildSeen::Lost => (None, String::from_str(alloc, "output lost")?),
    };
    let code = small_code(code);
    Ok(EndedNode { rank, code, how })
}

/// What is told of the children of the ranks below this one.
fn ended_nodes<C: Children>(
    alloc: Global,
    children: &C,
    ranks: u16,
) -> Result<Vec<EndedNode>, AllocError>
    ensures { IfOk result (λ nodes. GivesTo (GivesEnded (C.ended children.now)) ranks nodes.items) }
{
    let mut nodes = Vec::new(alloc);
    for rank in 0..ranks {
        if let Some(end) = children.end_of(rank) {
            let node = ended_node(alloc, rank, end)?;
            nodes.push(node)?;
        }
    }
    Ok(nodes)
}

/// How the nodes of a launch ended.
///
/// # Errors
///
/// `AllocError` where memory ran out.
pub(crate) fn children_text<C: Children>(alloc: Global, children: &C) -> Result<String, AllocError>
    ensures { IfOk result (λ text. IsEndsText (C.ended children.now) (string_bytes text)) }
{
    let nodes = ended_nodes(alloc, children, NODES)?;
    let text = ends_text(alloc, &nodes)?;
    Ok(text)
}
