//! The turns of a trace, one after another.

ghost use Rattle.std.specs.Prelude.{◌≡◌, IfOk, IsTrue, ◌↔◌};
ghost use Rattle.text_trace.specs.Sending.{CanBeTaken, Replays};

use crate::sent::{Sent, keep_sent};
use base_turns::{Entry, Machine};
use std::alloc::{AllocError, Global};

/// What the replay of a trace gave beside its machine.
#[derive(Drop)]
pub struct Replayed {
    /// How many turns were taken.
    pub turns: usize,
    /// The datagrams that they sent, in order.
    pub sent: Vec<Sent>,
}

/// Whether the machine can take the turn of an entry: it is of one of its threads, which polls where it got something.
fn can_be_taken<M: Machine>(machine: &M, item: &Entry) -> bool
    ensures { IsTrue result ↔ CanBeTaken M.Machine machine.now item.entry.now }
{
    item.thread < machine.threads() && (item.got.is_none() || machine.polls(item.thread))
}

/// Takes the turn of an entry, and answers how many datagrams it sent.
fn take_turn<M: Machine>(machine: &mut M, item: &Entry) -> u8
    requires { CanBeTaken M.Machine machine.old item.now }
    ensures after { (state : M.State) → M.stands machine.old state → M.stands machine.new
        (M.after state item.entry.now.thread item.entry.now.now item.entry.now.got) }
    ensures sends { (state : M.State) → M.stands machine.old state → result
        ≡ (M.turned state item.entry.now.thread item.entry.now.now item.entry.now.got).sends }
    ensures threads { M.thread_count machine.new ≡ M.thread_count machine.old }
{
    let got = match &item.got {
        None => None,
        Some(bytes) => Some(bytes.as_slice()),
    };
    machine.turn(item.thread, item.now, got).sends
}

/// Takes the turns of the entries, up to the first that is of no thread of the machine, or hands a datagram to one
/// which doesn't poll then, and keeps what they send.
///
/// It is refused for want of memory alone.
pub fn replay<M: Machine>(
    alloc: Global,
    machine: &mut M,
    entries: &[Entry],
) -> Result<Replayed, AllocError>
    ensures { IfOk result (Replays M.Machine machine.old machine.new entries.now) }
{
    let mut sent = Vec::new(alloc);
    for turns in 0..entries.len() {
        let item = &entries[turns];
        if !can_be_taken(machine, item) {
            return Ok(Replayed { turns, sent });
        }
        let sends = take_turn(machine, item);
        keep_sent(alloc, machine, turns + 1, sends, &mut sent)?;
    }
    let turns = entries.len();
    Ok(Replayed { turns, sent })
}
