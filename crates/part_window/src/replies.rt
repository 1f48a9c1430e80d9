//! The replies that one node keeps: for each other node, the last reply made in each of its slots.
//!
//! A requester names its request by a slot and a number, and sends it again until the reply is back. The responder runs
//! a request only where its number is greater than every number run in its slot, and gives the kept reply again for a
//! repeat: so a request runs at most once, as the core API of GASNet 1.8.1 asks. Slots and numbers are this library's
//! profile.
//!
//! What is proved, by the names of clauses (in `src/`) and definitions (in `specs/`):
//!
//! - `ReplySlots::judge` tells a request from a repeat by the last number of its slot (`JudgesAt`); `place` [`placed`]
//!   makes room for the reply of a new one.
//! - `new` gives each other node the slots of its own number of credits (`IsNew`). `held` is how many slots had a
//!   request run in them, `number` the number of a slot's message.
//! - The buffer that a place lends takes what is written, and nothing else (`Place::buffer`, `commit`). No call after
//!   `new` takes memory: none has an answer for want of it.

ghost use Rattle.std.specs.Prelude.{◌≡◌, ℕ, ◌<◌, ◌≤◌, length, IfOk};
ghost use Rattle.std.specs.Option.{option_copied};
ghost use Rattle.std.specs.Borrow.{sem, Lends, Array, u8 as byte};
ghost use Rattle.part_window.specs.declared.table.TheConstants.{BUFFER_BYTES, MAX_SLOTS};

use crate::table::SlotTable;
use std::alloc::{AllocError, Global};
use std::marker::Model;

/// How the number of a request stands to the last number that ran in its slot.
#[derive(Clone, Copy, PartialEq, Eq, Drop)]
pub enum Judged {
    /// Greater than the slot's last number: the request is to run now.
    New,
    /// Equal to it: the request is the last one that ran there, and the reply that is kept answers it; also number 0
    /// where none ran.
    Duplicate,
    /// Less: the request is to be passed over. In a run of a world its reply is back then.
    Stale,
}

/// The replies that one node keeps, one for each slot of each other node.
///
/// Its value is the state of each slot of each node. Of a slot with a reply it has the reply alone, and not what stands
/// in the buffer behind it.
#[derive(Drop)]
pub struct ReplySlots {
    table: SlotTable,
}

impl Model for ReplySlots {
    ghost use Rattle.part_window.specs.RepliesState.{RepliesState};
    ghost use Rattle.part_window.specs.ReplyViews.{replies_view, IsReplies};

    ghost Value = { RepliesState };

    ghost view = { λ s. replies_view s.table };

    ghost invariant = { λ s. IsReplies s.table };
}

impl ReplySlots {
    ghost use Rattle.part_window.specs.RepliesState.{counts_of, IsNew};
    ghost use Rattle.std.specs.Prelude.{All};

    /// Slots in which nothing ran, for node `me`: for each other node as many slots as its entry of `credits` says,
    /// which are the credits that it has towards `me`, and none for `me`, whatever its own entry. There are at most
    /// 2,048 entries, and each other node has at most 32 slots. Each slot has a buffer of `BUFFER_BYTES` bytes, whose
    /// memory is reserved and not touched before the slot is first taken; no later call takes memory.
    ///
    /// # Errors
    ///
    /// Where the memory can't be reserved.
    pub fn new(alloc: Global, credits: &[u16], me: u16) -> Result<ReplySlots, AllocError>
        requires few { length credits.now ≤ 2048 }
        requires narrow { All (λ count. count ≤ 32) (counts_of credits.now me) }
        ensures { IfOk result (λ t. IsNew credits.now me t) }
    {
        Ok(ReplySlots {
            table: SlotTable::new(alloc, credits, me)?,
        })
    }
}

impl ReplySlots {
    ghost use Rattle.part_window.specs.declared.replies.Judged.TheVariants.{New as new_number};
    ghost use Rattle.part_window.specs.RepliesState.{slot_count, JudgesAt, Places, kept_message_at, kept_number_at};
    ghost use Rattle.part_window.specs.RepliesState.{held_count};
    ghost use Rattle.part_window.specs.ReplyLending.{lender_of, node_of, slot_of, table_of};

    /// Whether a request of the node `from`, with this slot and this number, is to run: by the last number that ran in
    /// the slot, which is 0 at the start.
    pub fn judge(&self, from: u16, slot: u16, number: u64) -> Judged
        requires { slot < slot_count self.now from }
        ensures { JudgesAt self.now from slot number result }
    {
        let last = self.table.number(from, slot).unwrap_or(0);
        if number > last {
            Judged::New
        } else if number == last {
            Judged::Duplicate
        } else {
            Judged::Stale
        }
    }

    /// Opens the slot for the reply to a request that was judged new: its number becomes the slot's last, the reply
    /// kept before is gone, and the buffer is lent until the reply is committed. It is never refused. Where the place
    /// is dropped uncommitted, the slot has no reply.
    pub fn place(&mut self, from: u16, slot: u16, number: u64) -> Place<'_>
        requires in_range { slot < slot_count self.old from }
        requires new { JudgesAt self.old from slot number new_number }
        ensures same_table { lender_of result ≡ self.entry.ghost_name }
        ensures place { (node_of result ≡ from) × (slot_of result ≡ slot) }
        ensures placed { Places self.old from slot number (table_of result) }
    {
        self.open(from, slot, number);
        Place {
            from,
            slot,
            table: self,
        }
    }

    /// The reply that a slot of the node `from` keeps: `None` exactly where nothing ran in the slot or its reply is not
    /// committed.
    pub fn bytes(&self, from: u16, slot: u16) -> Option<&[u8]>
        requires { slot < slot_count self.now from }
        ensures { option_copied result ≡ kept_message_at self.now from slot }
    {
        self.table.message(from, slot)
    }

    /// The number of the request whose reply a slot of the node `from` keeps: `None` exactly where `bytes` gives none.
    pub fn number(&self, from: u16, slot: u16) -> Option<u64>
        requires { slot < slot_count self.now from }
        ensures { result ≡ kept_number_at self.now from slot }
    {
        self.table.message_number(from, slot)
    }

    /// In how many slots a request ran, over all nodes: those whose last number is not 0.
    pub fn held(&self) -> usize
        ensures count { result ≡ held_count self.now }
        ensures small { result ≤ MAX_SLOTS }
    {
        self.table.held()
    }
}

impl ReplySlots {
    ghost use Rattle.part_window.specs.RepliesState.{IsOpenedAt, opened_bytes_at, with_slot_changed};
    ghost use Rattle.part_window.specs.RepliesState.{with_written, as_committed, slot_count, Places};
    ghost use Rattle.part_window.specs.ReplyLending.{replies_row};

    fn open(&mut self, from: u16, slot: u16, number: u64)
        requires in_range { slot < slot_count self.old from }
        requires some { 1 ≤ number }
        ensures { Places self.old from slot number self.new }
    {
        self.table.open(from, slot, number, 0);
    }

    // The buffer of an opened slot.
    fn buffer_mut(&mut self, from: u16, slot: u16) -> &mut [u8]
        requires { IsOpenedAt self.old from slot }
        ensures* writes_back { sem 𝓛 (Lends replies_row (Array byte 0) self.entry result
            (λ written. with_slot_changed self.old from slot (with_written written))) }
        ensures value { result.now ≡ opened_bytes_at self.old from slot }
        ensures len { length result.now ≡ BUFFER_BYTES }
    {
        self.table.buffer_mut(from, slot)
    }

    fn commit(&mut self, from: u16, slot: u16, len: usize)
        requires in_range { slot < slot_count self.old from }
        requires fits { len ≤ BUFFER_BYTES }
        ensures { self.new ≡ with_slot_changed self.old from slot (as_committed len) }
    {
        self.table.commit(from, slot, len);
    }
}

/// A slot that was opened for a reply, which is still to be written.
///
/// Where it is dropped uncommitted, the request counts as run and the slot has no reply.
#[derive(Drop)]
pub struct Place<'a> {
    from: u16,
    slot: u16,
    table: &'a mut ReplySlots,
}

impl<'a> Place<'a> {
    ghost use Rattle.part_window.specs.RepliesState.{slot_count, opened_bytes_at, IsOpenedAt};
    ghost use Rattle.part_window.specs.RepliesState.{with_slot_changed, as_committed};
    ghost use Rattle.part_window.specs.ReplyLending.{place_row, with_place_written, table_of, node_of};
    ghost use Rattle.part_window.specs.ReplyLending.{slot_of};

    /// The slot's buffer, of `BUFFER_BYTES` bytes, to write the reply at its beginning.
    pub fn buffer(&mut self) -> &mut [u8]
        requires { IsOpenedAt (table_of self.old) (node_of self.old) (slot_of self.old) }
        ensures* writes_back { sem 𝓛 (Lends place_row (Array byte 0) self.entry result
            (with_place_written self.old)) }
        ensures value { result.now ≡ opened_bytes_at (table_of self.old) (node_of self.old)
            (slot_of self.old) }
        ensures len { length result.now ≡ BUFFER_BYTES }
    {
        let from = self.from;
        let slot = self.slot;
        self.table.buffer_mut(from, slot)
    }

    /// Ends the place: the slot's reply is the first `len` bytes of its buffer.
    pub fn commit(self, len: usize)
        requires in_range { slot_of self < slot_count (table_of self) (node_of self) }
        requires some { 1 ≤ len }
        requires fits { len ≤ BUFFER_BYTES }
        ensures { let table_left = self.exit.1.1.0.now in
            table_left ≡ with_slot_changed (table_of self.entry)
            (node_of self.entry) (slot_of self.entry) (as_committed len) }
    {
        let from = self.from;
        let slot = self.slot;
        self.table.commit(from, slot, len);
    }
}
