//! The datagrams of traces that no node sent.

ghost use Rattle.std.specs.Prelude.{◌≡◌, ◌++◌, ◌==◌, Bool, OnOk, Some, MatchOption, find, string_bytes};
ghost use Rattle.std.specs.List.{flat_map, list_any};
ghost use Rattle.cli_report.specs.Unsent.{gap_at, gap_end, gap_line, gap_told, gaps_text};
ghost use Rattle.cli_report.specs.Unsent.{has_cause, is_alike, is_cause, is_message, is_otherwise};
ghost use Rattle.cli_report.specs.Unsent.{is_searched, message_told, message_word, sent_otherwise};
ghost use Rattle.cli_report.specs.Unsent.{told_of_sender};

use crate::findings::NodeFinding;
use std::alloc::AllocError;

/// More comparisons of datagrams than this aren't made.
const MOST: usize = 268_435_456;

/// Which message a datagram is: of it there is one spelling.
#[derive(Clone, Copy)]
pub struct Message {
    /// Whether it is a request, and no reply.
    pub is_request: bool,
    /// The node that it is from.
    pub from: u16,
    /// Its slot there.
    pub slot: u16,
    /// Its number.
    pub number: u64,
}

/// The first entry of a trace that got what no node sent to its node.
#[derive(Clone, Copy)]
pub struct Gap {
    /// The node.
    pub rank: u16,
    /// The entry, counted from 1.
    pub entry: usize,
    /// Which message it got, where it is one.
    pub message: Option<Message>,
}

/// A datagram that the replay of a trace sent.
#[derive(Clone, Copy)]
pub struct SentMessage {
    /// The node.
    pub from: u16,
    /// The entry that sent it, counted from 1.
    pub entry: usize,
    /// The node that it is for.
    pub to: u16,
    /// Which message it is, where it is one.
    pub message: Option<Message>,
}

/// Whether what no node sent is looked for: it isn't where that takes too many comparisons, of each
/// entry with each datagram that was sent.
pub(crate) fn is_searched(nodes: &[NodeFinding], sent: &[SentMessage]) -> bool
    ensures { result ≡ is_searched nodes.now sent.now }
{
    let mut entries = 0usize;
    for node in nodes {
        entries = entries.saturating_add(node.entries);
    }
    entries.saturating_mul(sent.len()) <= MOST
}

/// Whether both are requests, or both are none.
fn is_alike(one: bool, other: bool) -> bool
    ensures { result ≡ is_alike one other }
{
    if one { other } else { !other }
}

/// Whether a datagram is this message.
fn is_message(message: Message, other: Option<Message>) -> bool
    ensures { result ≡ is_message message other }
{
    match other {
        Some(one) => {
            is_alike(message.is_request, one.is_request)
                && one.from == message.from
                && one.slot == message.slot
                && one.number == message.number
        }
        None => false,
    }
}

/// The gap of the node of this rank, if it has one.
fn gap_at(gaps: &[Gap], rank: u16) -> Option<Gap>
    ensures { result ≡ gap_at gaps.now rank }
{
    for gap in gaps {
        if gap.rank == rank {
            return Some(*gap);
        }
    }
    None
}

/// Whether a node sent this message to this node.
fn is_otherwise(message: Message, rank: u16, sent: SentMessage) -> bool
    ensures { result ≡ is_otherwise message rank sent }
{
    sent.from == message.from && sent.to == rank && is_message(message, sent.message)
}

/// The entry, counted from 1, in which the node that a message is said to be from sent that message
/// otherwise to this node.
fn sent_otherwise(sent: &[SentMessage], message: Message, rank: u16) -> Option<usize>
    ensures { result ≡ sent_otherwise sent.now message rank }
{
    for one in sent {
        if is_otherwise(message, rank, *one) {
            return Some(one.entry);
        }
    }
    None
}

/// Whether a gap is no mere consequence of one of the node that its message is said to be from: what
/// that node sent up to its own gap is what it sent in truth.
#[tactic(auto, unfolding(crate::specs::Unsent::is_cause))]
fn is_cause(gaps: &[Gap], sent: &[SentMessage], gap: Gap) -> bool
    ensures { result ≡ is_cause gaps.now sent.now gap }
{
    let Some(message) = gap.message else {
        return true;
    };
    let Some(other) = gap_at(gaps, message.from) else {
        return true;
    };
    match sent_otherwise(sent, message, gap.rank) {
        Some(entry) => entry < other.entry,
        None => false,
    }
}

/// Whether a gap is a cause.
fn has_cause(gaps: &[Gap], sent: &[SentMessage]) -> bool
    ensures { result ≡ has_cause gaps.now sent.now }
{
    for gap in gaps {
        if is_cause(gaps, sent, *gap) {
            return true;
        }
    }
    false
}

/// How a message is named.
#[tactic(auto, unfolding(crate::specs::Unsent::message_word))]
fn message_word(is_request: bool) -> &'static str
    ensures { result.now ≡ message_word is_request }
{
    if is_request {
        "request"
    } else {
        "the reply to request"
    }
}

/// Adds what the node that a message is said to be from sent in its place.
#[tactic(auto, unfolding(crate::specs::Unsent::told_of_sender))]
fn add_sender(text: &mut String, turn: Option<usize>) -> Result<(), AllocError>
    ensures { OnOk result (string_bytes text.new ≡ string_bytes text.old ++ told_of_sender turn) }
{
    match turn {
        Some(turn) => write!(text, ", which sent other bytes in its turn {turn}\n"),
        None => text.push_str(", which sent no such message to it\n"),
    }
}

/// Adds how a message is told, with what the node that it is said to be from sent in its place.
#[tactic(auto, unfolding(crate::specs::Unsent::message_told))]
fn add_message(text: &mut String, message: Message, turn: Option<usize>) -> Result<(), AllocError>
    ensures { OnOk result (string_bytes text.new
        ≡ string_bytes text.old ++ message_told message turn) }
{
    let (word, number) = (message_word(message.is_request), message.number);
    let (slot, from) = (message.slot, message.from);
    write!(text, ": {word} {number} of slot {slot} by node {from}")?;
    add_sender(text, turn)
}

/// Adds what stands behind the place of a gap.
#[tactic(auto, unfolding(crate::specs::Unsent::gap_end))]
fn add_gap_end(text: &mut String, sent: &[SentMessage], gap: Gap) -> Result<(), AllocError>
    ensures { OnOk result (string_bytes text.new
        ≡ string_bytes text.old ++ gap_end sent.now gap.rank gap.message) }
{
    match gap.message {
        Some(message) => {
            let turn = sent_otherwise(sent, message, gap.rank);
            add_message(text, message, turn)
        }
        None => text.push_str("\n"),
    }
}

/// Adds the line of a gap.
#[tactic(auto, unfolding(crate::specs::Unsent::gap_line))]
fn add_gap_line(text: &mut String, sent: &[SentMessage], gap: Gap) -> Result<(), AllocError>
    ensures { OnOk result (string_bytes text.new ≡ string_bytes text.old ++ gap_line sent.now gap) }
{
    let (rank, entry, line) = (gap.rank, gap.entry, gap.entry.saturating_add(3));
    write!(text, "unsent {rank} {entry} line {line}")?;
    add_gap_end(text, sent, gap)
}

/// Adds the line of a gap that is a cause, or of any where no one is.
#[tactic(auto, unfolding(crate::specs::Unsent::gap_told))]
fn add_gap(
    text: &mut String,
    gaps: &[Gap],
    sent: &[SentMessage],
    gap: Gap,
    all: bool,
) -> Result<(), AllocError>
    ensures { OnOk result (string_bytes text.new
        ≡ string_bytes text.old ++ gap_told gaps.now sent.now all gap) }
{
    if all || is_cause(gaps, sent, gap) {
        return add_gap_line(text, sent, gap);
    }
    Ok(())
}

/// Adds of each node the first entry that got what no node sent to it: of those that aren't mere
/// consequences of others, or of all, where all may be such. Where there is none, and no replay
/// stopped, that is told.
///
/// # Errors
///
/// `AllocError` where memory ran out.
pub(crate) fn add_gaps(
    text: &mut String,
    gaps: &[Gap],
    sent: &[SentMessage],
    is_blocked: bool,
) -> Result<(), AllocError>
    ensures { OnOk result (string_bytes text.new
        ≡ string_bytes text.old ++ gaps_text gaps.now sent.now is_blocked) }
{
    if gaps.is_empty() && !is_blocked {
        let told = "each datagram was sent, but one or more were got before they were sent\n";
        return text.push_str(told);
    }
    let all = !has_cause(gaps, sent);
    for gap in gaps {
        add_gap(text, gaps, sent, *gap, all)?;
    }
    Ok(())
}
