//! Which chunk is out in which slot of which node.

ghost use Rattle.std.specs.Prelude.{◌≡◌, ◌<◌, ◌≤◌, None, IfOk, ℕ, length, slice_get, vec_capacity};
ghost use Rattle.part_transfers.specs.ChunkSlots.{entry_at, HasSet};
ghost use Rattle.part_transfers.specs.Table.{flat};

use std::alloc::{AllocError, Global};
use std::marker::Model;

/// A chunk that is out: the number of its request, and the place of its operation's record.
#[derive(Clone, Copy)]
pub(crate) struct Waiting {
    pub request: u64,
    pub place: usize,
}

/// An entry for each slot of each node. The memory of all of them is reserved, and that of an entry is touched once a
/// chunk went in its slot, or in a later one: there is none behind those in the list.
#[derive(Drop)]
pub(crate) struct ChunkSlots {
    nodes: usize,
    credits: usize,
    entries: Vec<Option<Waiting>>,
}

impl Model for ChunkSlots {
    ghost use Rattle.std.specs.Prelude.{◌≤◌, ◌*◌, vec_capacity};
    ghost use Rattle.part_transfers.specs.ChunkSlots.{ChunkSlots};

    ghost Value = { ChunkSlots };

    ghost view = { λ s.
        record { nodes = s.nodes; credits = s.credits; entries = s.entries.items } };

    ghost invariant = { λ s. s.nodes * s.credits ≤ vec_capacity s.entries };
}

/// The entry at a place; there is none behind the last.
fn entry_in(entries: &[Option<Waiting>], place: usize) -> Option<Waiting>
    ensures { result ≡ flat (slice_get entries.now place) }
{
    match entries.get(place) {
        Some(entry) => *entry,
        None => None,
    }
}

/// The list goes up to that place, for which memory is reserved.
fn reach(entries: &mut Vec<Option<Waiting>>, place: usize)
    requires { place < vec_capacity entries.old }
    ensures inside { place < length entries.new.items }
    ensures room { vec_capacity entries.old ≤ vec_capacity entries.new }
    ensures same { (other : ℕ) → flat (slice_get entries.new.items other)
        ≡ flat (slice_get entries.old.items other) }
{
    if place < entries.len() {
        return;
    }
    if entries.resize(place + 1, None).is_err() {
        unreachable!();
    }
}

impl ChunkSlots {
    /// No chunk is out.
    pub fn new(alloc: Global, nodes: u16, credits: u16) -> Result<ChunkSlots, AllocError>
        ensures room { IfOk result (λ slots. (slots.nodes ≡ nodes) × (slots.credits ≡ credits)) }
        ensures none { IfOk result (λ slots. (to slot : ℕ) → entry_at slots to slot ≡ None) }
    {
        let nodes = usize::from(nodes);
        let credits = usize::from(credits);
        Ok(ChunkSlots {
            nodes,
            credits,
            entries: Vec::with_capacity(alloc, nodes * credits)?,
        })
    }

    /// The chunk that is out in this slot of this node.
    pub fn at(&self, to: u16, slot: u16) -> Option<Waiting>
        ensures { result ≡ entry_at self.now to slot }
    {
        let to = usize::from(to);
        let slot = usize::from(slot);
        if to < self.nodes && slot < self.credits {
            entry_in(&self.entries, to * self.credits + slot)
        } else {
            None
        }
    }

    /// The entry of this slot of this node becomes that.
    pub fn set(&mut self, to: u16, slot: u16, entry: Option<Waiting>)
        requires to_in { to < self.old.nodes }
        requires slot_in { slot < self.old.credits }
        ensures { HasSet self.old to slot entry self.new }
    {
        let place = usize::from(to) * self.credits + usize::from(slot);
        reach(&mut self.entries, place);
        self.entries[place] = entry;
    }
}
