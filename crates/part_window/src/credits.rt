//! The slots of a requester: the credits of each peer, and the requests that are not back.
//!
//! Each ordered pair of nodes has a number of credits, and one slot for each. An accepted request takes the lowest
//! vacant slot of its target and the pair's next number; its message stands in the slot's buffer until the reply with
//! that slot and that number gives the credit back. Until then the message is sent again from time to time: when each
//! was last sent is kept, and which is due next. Credits, slots, numbers and resending are this library's
//! profile: GASNet 1.8.1, core API, asks only that a request is delivered once.
//!
//! What is proved, by the names of clauses (in `src/`) and definitions (in `specs/`):
//!
//! - `CreditSlots::claim` [`claimed`, `refused`] takes the lowest vacant slot and the next number of the pair. It
//!   refuses with `Exhausted` exactly where the numbers are used up, and else with `NotYet` exactly where no slot is
//!   vacant; nothing has changed then [`writes_back`].
//! - `take_back` [`answer`, `freed`, `same`] frees a slot exactly where it is taken with that number.
//! - `due` [`next`, `sent`] names the request that is sent again next: of those last sent `resend` or more before now
//!   the one sent earliest, then of the lower node, then of the lower slot (`IsFirstDue`). It names none exactly where
//!   none is due (`NoneIsDue`); `is_due` tells which it is, and `next_due` from which time on one is (`IsNextDue`).
//!   That slot's time becomes now, and nothing else changes.
//! - `new` gives each other node the slots of its own number of credits (`IsNew`). `held` is how many slots are taken,
//!   `number` the number of a slot's message.
//! - The buffer that a claim lends takes what is written, and nothing else (`Claimed::buffer`, `commit`). No call after
//!   `new` takes memory: none has an answer for want of it.

ghost use Rattle.std.specs.Prelude.{◌≡◌, ℕ, ◌+◌, ◌<◌, ◌≤◌, ◌↔◌, IsTrue, length, slice_get, IfSome};
ghost use Rattle.std.specs.Prelude.{IfOk, IfErr, MatchOption};
ghost use Rattle.std.specs.Option.{option_copied};
ghost use Rattle.std.specs.Bool.{OnTrue, OnFalse};
ghost use Rattle.std.specs.Borrow.{sem, Lends, RestsIfErr, Array, u8 as byte};
ghost use Rattle.part_window.specs.declared.table.TheConstants.{BUFFER_BYTES, MAX_SLOTS};

use crate::order::{Due, Order};
use crate::table::{BUFFER_BYTES, SlotTable};
use std::alloc::{AllocError, Global};
use std::error::Error;
use std::fmt;
use std::marker::Model;

/// Why a peer has no slot for a request.
#[derive(Clone, Copy, Debug, PartialEq, Eq, Drop)]
pub enum NoClaim {
    /// The pair's numbers are used up: no request to this peer is ever possible again.
    Exhausted,
    /// Each slot of the peer has a request that is not back: a request is possible once one returns.
    NotYet,
}

impl fmt::Display for NoClaim {
    fn fmt<W: fmt::Write>(&self, f: &mut fmt::Formatter<W>) -> fmt::Result {
        match *self {
            NoClaim::Exhausted => write!(f, "the numbers of the pair are used up"),
            NoClaim::NotYet => write!(f, "no credit of the pair is back"),
        }
    }
}

impl Error for NoClaim {}

/// The slots of one node towards all others: for each peer as many as there are credits, and none for the node itself.
///
/// Its value is the greatest number and, for each node, the numbers given so far and the state of each slot. Of a slot
/// with a message it has the message alone, and not what stands in the buffer behind it.
#[derive(Drop)]
pub struct CreditSlots {
    last: u64,
    // For each node, the numbers given so far.
    given: Vec<u64>,
    table: SlotTable,
    order: Order,
}

impl Model for CreditSlots {
    ghost use Rattle.part_window.specs.SlotsState.{SlotsState};
    ghost use Rattle.part_window.specs.CreditViews.{credits_view, IsCredits};

    ghost Value = { SlotsState };

    ghost view = { λ s. credits_view s.last s.given.items s.table };

    ghost invariant = { λ s. IsCredits s.given.items s.table s.order };
}

impl CreditSlots {
    ghost use Rattle.part_window.specs.SlotsState.{counts_of, IsNew};
    ghost use Rattle.std.specs.Prelude.{All};

    /// Slots with no request in them, for node `me`: for each other node as many vacant ones as its entry of `credits`
    /// says, and none for `me`, whatever its own entry. There are at most 2,048 entries, and each other node has at
    /// most 32 slots. Requests to a peer are numbered from 1 to `last`. Each slot has a buffer of `BUFFER_BYTES` bytes,
    /// whose memory is reserved and not touched before the slot is first taken; no later call takes memory.
    ///
    /// # Errors
    ///
    /// Where the memory can't be reserved.
    pub fn new(
        alloc: Global,
        credits: &[u16],
        me: u16,
        last: u64,
    ) -> Result<CreditSlots, AllocError>
        requires few { length credits.now ≤ 2048 }
        requires narrow { All (λ count. count ≤ 32) (counts_of credits.now me) }
        ensures { IfOk result (λ t. IsNew credits.now me last t) }
    {
        let table = SlotTable::new(alloc, credits, me)?;
        let order = Order::new(alloc, table.slots())?;
        let given = vec![in alloc; 0; credits.len()]?;
        Ok(CreditSlots {
            last,
            given,
            table,
            order,
        })
    }
}

impl CreditSlots {
    ghost use Rattle.part_window.specs.SlotsState.{Claims, Refuses, CanClaim, OpensAt, slot_at, Vacant};
    ghost use Rattle.std.specs.Prelude.{Some};
    ghost use Rattle.part_window.specs.CreditLending.{table_row, lender_of, node_of, slot_of, table_of};

    /// Takes the lowest vacant slot of the node `to` with the pair's next number, for a request that is sent at `now`,
    /// and lends its buffer until the message is committed. A claim that is dropped uncommitted leaves the slot taken,
    /// with no message.
    ///
    /// # Errors
    ///
    /// `Exhausted` exactly where the pair's numbers stand at the last one; otherwise `NotYet` exactly where no slot is
    /// vacant. The table is then as it was.
    pub fn claim(&mut self, to: u16, now: u64) -> Result<Claimed<'_>, NoClaim>
        requires { to < length self.old.peers }
        ensures* writes_back { sem 𝓛 (RestsIfErr table_row self.entry lender_of result
            (λ n. n ≡ self.old)) }
        ensures same_table { IfOk result (λ c. lender_of c ≡ self.entry.ghost_name) }
        ensures place { IfOk result (λ c. (node_of c ≡ to) × (slot_of c ≡ c.slot)) }
        ensures claimed { IfOk result (λ c. Claims self.old to
            (record { slot = c.slot; number = c.number; time = now }) (table_of c)) }
        ensures refused { IfErr result (λ e. IfSome (slice_get self.old.peers to)
            (λ p. Refuses p self.old.last e)) }
    {
        match self.next(to) {
            Err(refusal) => Err(refusal),
            Ok((slot, number)) => {
                self.open(to, slot, number, now);
                Ok(Claimed {
                    slot,
                    number,
                    to,
                    at: slot,
                    table: self,
                })
            }
        }
    }

    // The slot and the number that the next claim takes.
    fn next(&self, to: u16) -> Result<(u16, u64), NoClaim>
        requires { to < length self.now.peers }
        ensures next { IfOk result (λ r. IfSome (slice_get self.now.peers to)
            (λ p. CanClaim p self.now.last r.0 × (r.1 ≡ p.given + 1))) }
        ensures refused { IfErr result (λ e. IfSome (slice_get self.now.peers to)
            (λ p. Refuses p self.now.last e)) }
    {
        let given = self.given[to as usize];
        if given >= self.last {
            return Err(NoClaim::Exhausted);
        }
        match self.table.first_vacant(to) {
            None => Err(NoClaim::NotYet),
            Some(slot) => Ok((slot, given + 1)),
        }
    }

    // Opens a vacant slot with the node's next number.
    fn open(&mut self, to: u16, slot: u16, number: u64, now: u64)
        requires { slot_at self.old to slot ≡ Some Vacant }
        ensures { OpensAt self.old to (record { slot = slot; number = number; time = now })
            self.new }
    {
        self.given[to as usize] = number;
        self.table.open(to, slot, number, now);
    }
}

impl CreditSlots {
    ghost use Rattle.part_window.specs.SlotsState.{IsOpenedAt, opened_bytes_at, with_slot_changed};
    ghost use Rattle.part_window.specs.SlotsState.{with_written, as_committed, slot_count};
    ghost use Rattle.part_window.specs.CreditLending.{table_row};

    // The buffer of an opened slot.
    fn buffer_mut(&mut self, to: u16, slot: u16) -> &mut [u8]
        requires { IsOpenedAt self.old to slot }
        ensures* writes_back { sem 𝓛 (Lends table_row (Array byte 0) self.entry result
            (λ written. with_slot_changed self.old to slot (with_written written))) }
        ensures value { result.now ≡ opened_bytes_at self.old to slot }
        ensures len { length result.now ≡ BUFFER_BYTES }
    {
        self.table.buffer_mut(to, slot)
    }

    fn commit(&mut self, to: u16, slot: u16, len: usize)
        requires in_range { slot < slot_count self.old to }
        requires fits { len ≤ BUFFER_BYTES }
        ensures { self.new ≡ with_slot_changed self.old to slot (as_committed len) }
    {
        if let Some(time) = self.table.commit(to, slot, len) {
            let place = self.table.place(to, slot);
            let due = Due {
                time,
                node: to,
                slot,
            };
            self.order.insert(place, due);
        }
    }
}

impl CreditSlots {
    ghost use Rattle.part_window.specs.SlotsState.{committed_message_at, committed_number_at, with_slot, IsTakenAt};
    ghost use Rattle.part_window.specs.SlotsState.{vacant_count, is_exhausted, slot_count, held_count};
    ghost use Rattle.part_window.specs.SlotsState.{Vacant};

    /// Gives a credit back: true, and the slot is vacant, exactly where that slot of the node `to` is taken by the
    /// request with that number. Otherwise nothing changes.
    pub fn take_back(&mut self, to: u16, slot: u16, number: u64) -> bool
        requires { slot < slot_count self.old to }
        ensures answer { IsTrue result ↔ IsTakenAt self.old to slot number }
        ensures freed { OnTrue result (self.new ≡ with_slot self.old to slot Vacant) }
        ensures same { OnFalse result (self.new ≡ self.old) }
    {
        let Some(taken) = self.table.number(to, slot) else {
            return false;
        };
        if taken != number {
            return false;
        }
        let place = self.table.place(to, slot);
        self.table.vacate(to, slot);
        if let Some(due) = self.order.due(place) {
            self.order.remove(place, due);
        }
        true
    }

    /// Whether that slot of the node `to` is taken by the request with that number: whether `take_back` would give the
    /// credit back.
    pub fn is_taken(&self, to: u16, slot: u16, number: u64) -> bool
        requires { slot < slot_count self.now to }
        ensures { IsTrue result ↔ IsTakenAt self.now to slot number }
    {
        let Some(current) = self.table.number(to, slot) else {
            return false;
        };
        if current != number {
            return false;
        }
        true
    }

    /// The message of a slot of the node `to`: `None` exactly where the slot is vacant or not committed.
    pub fn bytes(&self, to: u16, slot: u16) -> Option<&[u8]>
        requires { slot < slot_count self.now to }
        ensures { option_copied result ≡ committed_message_at self.now to slot }
    {
        self.table.message(to, slot)
    }

    /// The number of the message in a slot of the node `to`: `None` exactly where `bytes` gives none.
    pub fn number(&self, to: u16, slot: u16) -> Option<u64>
        requires { slot < slot_count self.now to }
        ensures { result ≡ committed_number_at self.now to slot }
    {
        self.table.message_number(to, slot)
    }

    /// How many slots of the node `to` are vacant.
    pub fn free(&self, to: u16) -> u16
        requires { to < length self.now.peers }
        ensures { result ≡ vacant_count self.now to }
    {
        self.table.free(to)
    }

    /// Whether all numbers for the node `to` are given, so that no request to it is ever possible again.
    pub fn exhausted(&self, to: u16) -> bool
        requires { to < length self.now.peers }
        ensures { result ≡ is_exhausted self.now to }
    {
        self.given[to as usize] >= self.last
    }

    /// How many slots are taken, over all nodes: the number of requests that are not back.
    pub fn held(&self) -> usize
        ensures count { result ≡ held_count self.now }
        ensures small { result ≤ MAX_SLOTS }
    {
        self.table.held()
    }
}

impl CreditSlots {
    ghost use Rattle.part_window.specs.SlotsState.{slot_count, with_slot_changed};
    ghost use Rattle.part_window.specs.Due.{IsDueNext, IsDue, IsNextDue, as_retransmitted};

    /// Finds the request that is to be sent again at `now`, and notes that it is sent then: its node and its slot,
    /// whose message `bytes` gives.
    ///
    /// A request is due where it has a message and was last sent `resend` or more before `now`. Of those the one that
    /// was sent earliest goes first, then the one of the lower node, then the one in the lower slot. Its time becomes
    /// `now`, and nothing else changes. The times are in any one unit. `None` exactly where no request is due, and then
    /// nothing changes.
    pub fn due(&mut self, now: u64, resend: u64) -> Option<(u16, u16)>
        ensures next { IsDueNext self.old now resend result }
        ensures in_range { IfSome result (λ r. r.1 < slot_count self.new r.0) }
        ensures sent { MatchOption result (self.new ≡ self.old)
            (λ r. self.new ≡ with_slot_changed self.old r.0 r.1 (as_retransmitted now)) }
    {
        let Some((place, due)) = self.order.first() else {
            return None;
        };
        if due.time > now || now - due.time < resend {
            return None;
        }
        self.order.remove(place, due);
        self.order.insert(place, Due { time: now, ..due });
        self.table.send_again(due.node, due.slot, now);
        Some((due.node, due.slot))
    }

    /// Whether a request is due at `now`, so that `due` finds one. It changes nothing.
    pub fn is_due(&self, now: u64, resend: u64) -> bool
        ensures { IsDue self.now now resend result }
    {
        let Some((_place, due)) = self.order.first() else {
            return false;
        };
        due.time <= now && now - due.time >= resend
    }

    /// From which time on a request is due, while no call changes the table: at each time one is due exactly where this
    /// time has come. It is `resend` after the earliest sending, and `None` exactly where no request has a message, or
    /// that time is past the greatest one. A look at one entry, which changes nothing.
    pub fn next_due(&self, resend: u64) -> Option<u64>
        ensures { IsNextDue self.now resend result }
    {
        let Some((_place, due)) = self.order.first() else {
            return None;
        };
        due.time.checked_add(resend)
    }
}

/// A slot that was taken for a request, whose message is still to be written.
///
/// Where it is dropped uncommitted, the slot stays taken and has no message.
#[derive(Drop)]
pub struct Claimed<'a> {
    /// The slot, from 0.
    pub slot: u16,
    /// The request's number, from 1.
    pub number: u64,
    // The node and the slot again, so that no caller misleads `commit`.
    to: u16,
    at: u16,
    table: &'a mut CreditSlots,
}

impl<'a> Claimed<'a> {
    ghost use Rattle.part_window.specs.SlotsState.{slot_count, opened_bytes_at, IsOpenedAt};
    ghost use Rattle.part_window.specs.SlotsState.{with_slot_changed, as_committed};
    ghost use Rattle.part_window.specs.CreditLending.{claimed_row, with_claim_written, table_of};
    ghost use Rattle.part_window.specs.CreditLending.{node_of, slot_of};

    /// The slot's buffer, of `BUFFER_BYTES` bytes, to write the message at its beginning.
    pub fn buffer(&mut self) -> &mut [u8]
        requires { IsOpenedAt (table_of self.old) (node_of self.old) (slot_of self.old) }
        ensures* writes_back { sem 𝓛 (Lends claimed_row (Array byte 0) self.entry result
            (with_claim_written self.old)) }
        ensures value { result.now ≡ opened_bytes_at (table_of self.old) (node_of self.old)
            (slot_of self.old) }
        ensures len { length result.now ≡ BUFFER_BYTES }
    {
        let to = self.to;
        let slot = self.at;
        self.table.buffer_mut(to, slot)
    }

    /// Ends the claim: the slot's message is the first `len` bytes of its buffer.
    pub fn commit(self, len: usize)
        requires in_range { slot_of self < slot_count (table_of self) (node_of self) }
        requires some { 1 ≤ len }
        requires fits { len ≤ BUFFER_BYTES }
        ensures { let table_left = self.exit.1.1.1.1.0.now in
            table_left ≡ with_slot_changed (table_of self.entry)
            (node_of self.entry) (slot_of self.entry) (as_committed len) }
    {
        let to = self.to;
        let at = self.at;
        self.table.commit(to, at, len);
    }
}
