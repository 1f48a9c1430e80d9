//! The datagrams that the turns of a trace sent.

ghost use Rattle.std.specs.Prelude.{◌≡◌, ◌++◌, IfOk, IsTrue, ◌↔◌, MatchOption, take};
ghost use Rattle.text_trace.specs.Sending.{AreAllSent, IsSentAmong, IsFirstUnsent, IsSent, IsUnsent, numbered_sends};

use crate::replaying::Replayed;
use base_turns::{Bytes, Entry, Machine};
use std::alloc::{AllocError, Global};

/// A datagram that a turn of a trace sent.
#[derive(Drop)]
pub struct Sent {
    /// The entry of that turn, counted from 1.
    pub entry: usize,
    /// The node that it is for.
    pub to: u16,
    /// Its bytes.
    pub bytes: Bytes,
}

/// Keeps the datagrams that the last turn of a machine sent, which is that of this entry.
pub fn keep_sent<M: Machine>(
    alloc: Global,
    machine: &M,
    entry: usize,
    sends: u8,
    sent: &mut Vec<Sent>,
) -> Result<(), AllocError>
    ensures { IfOk result (λ kept. (state : M.State) → M.stands machine.now state
        → sent.new.items ≡ sent.old.items ++ numbered_sends entry (take sends (M.sent state))) }
{
    for i in 0..sends {
        if let Some((to, bytes)) = machine.outgoing(i) {
            let bytes = Bytes::of(bytes.to_vec(alloc)?);
            sent.push(Sent { entry, to, bytes })?;
        }
    }
    Ok(())
}

/// Whether it is this datagram for this node.
fn is_datagram(one: &Sent, to: u16, bytes: &[u8]) -> bool
    ensures { IsTrue result ↔ ((one.now.to ≡ to) × (one.now.bytes ≡ bytes.now)) }
{
    one.to == to && one.bytes.as_slice() == bytes
}

/// Whether one of them is this datagram for this node.
fn is_among(sent: &[Sent], to: u16, bytes: &[u8]) -> bool
    ensures { IsTrue result ↔ IsSentAmong sent.now to bytes.now }
{
    for one in sent {
        if is_datagram(one, to, bytes) {
            return true;
        }
    }
    false
}

/// Whether one of these nodes sent this datagram to this node.
fn is_sent(replays: &[Replayed], to: u16, bytes: &[u8]) -> bool
    ensures { IsTrue result ↔ IsSent replays.now to bytes.now }
{
    for replay in replays {
        if is_among(&replay.sent, to, bytes) {
            return true;
        }
    }
    false
}

/// Whether the entry of this node got a datagram that none of these nodes sent to it.
fn is_unsent(replays: &[Replayed], to: u16, item: &Entry) -> bool
    ensures { IsTrue result ↔ IsUnsent replays.now to item.entry.now }
{
    match &item.got {
        Some(bytes) => !is_sent(replays, to, bytes.as_slice()),
        None => false,
    }
}

/// The first entry of a node, counted from 0, that got a datagram which none of these nodes sent to it; none where each
/// sent one to it.
pub fn first_unsent(replays: &[Replayed], to: u16, entries: &[Entry]) -> Option<usize>
    ensures { MatchOption result (AreAllSent replays.now to entries.now)
        (IsFirstUnsent replays.now to entries.now) }
{
    for (place, item) in entries.iter().enumerate() {
        if is_unsent(replays, to, item) {
            return Some(place);
        }
    }
    None
}
