//! A table of the slots of several peers, each with a buffer that is lent while the slot is written.
//!
//! The peers' slots stand one after another, and so do their buffers, in one block. How many slots are taken, which
//! slots of a peer are vacant and where its slots begin is kept, and costs no search.
//!
//! What is proved: the table is a list of slots of each peer, each with a state (vacant, being written, with a message)
//! and a buffer of 8,296 bytes; each call is one equation on it (`specs/TableState.antt`). Only what stands in the
//! buffer of a slot that was just opened is left open. No call after `new` takes memory.

ghost use Rattle.std.specs.Prelude.{◌≡◌, ℕ, ◌+◌, ◌<◌, ◌≤◌, ◌^◌, length, slice_get, slice_set, IfOk};
ghost use Rattle.std.specs.Prelude.{Some, map, position, count_by, All, if◌then◌else◌, ◌==◌};
ghost use Rattle.std.specs.Option.{option_copied};
ghost use Rattle.std.specs.Borrow.{sem, Lends, Array, u8 as byte};
ghost use Rattle.part_window.specs.TableViews.{is_nothing, peer_counts, IsLaid, IsCounted, bit, one};
ghost use Rattle.std.specs.Prelude.{◌-◌, ◌++◌, vec_capacity};
ghost use Rattle.std.proofs.Math.ListN.{replicate};
ghost use Rattle.part_window.specs.declared.table.Contents.TheVariants.{Nothing};
ghost use Rattle.base_lists.specs.Update.{update};
ghost use Rattle.base_lists.specs.Cut.{start_of, count_at, total_of};

use crate::block::{Block, MAX_PARTS, PART_BYTES};
use crate::padded_list::append_blanks;
use std::alloc::{AllocError, Global};
use std::marker::Model;

/// The bytes of each slot's buffer: the greatest size of a message.
pub const BUFFER_BYTES: usize = PART_BYTES;

/// The most slots of all peers together: each has a part of one block.
pub const MAX_SLOTS: usize = MAX_PARTS;

// What stands in a slot: a message that is being written and one that is committed have a number and a time.
#[derive(Clone, Copy, Drop)]
enum Contents {
    Nothing,
    Draft(u64, u64),
    Message(u64, u64, u16),
}

impl Contents {
    fn is_nothing(self) -> bool
        ensures { result ≡ is_nothing self }
    {
        match self {
            Contents::Nothing => true,
            _ => false,
        }
    }
}

// The contents of each slot. Behind the last slot that was written nothing stands, and takes no memory that was touched.
// Its value is the list of all.
#[derive(Drop)]
struct ContentsList {
    written: Vec<Contents>,
    slots: usize,
}

impl Model for ContentsList {
    ghost use Rattle.std.specs.Prelude.{List, ◌≤◌, vec_len, vec_capacity};
    ghost use Rattle.part_window.specs.PaddedLists.{with_padding};
    ghost use Rattle.part_window.specs.declared.table.Contents.{Contents};
    ghost use Rattle.part_window.specs.declared.table.Contents.TheVariants.{Nothing};

    ghost Value = { List Contents };

    ghost view = { λ c. with_padding c.written.items Nothing c.slots };

    ghost invariant = { λ c. (vec_len c.written ≤ c.slots) × (c.slots ≤ vec_capacity c.written) };
}

// Appends slots in which nothing stands up to this length. It isn't inlined, since few writes need it.
#[inline(never)]
fn append_nothing(written: &mut Vec<Contents>, len: usize)
    requires { len ≤ vec_capacity written.old }
    ensures appended { written.new.items
        ≡ written.old.items ++ replicate (len - length written.old.items) Nothing }
    ensures same { vec_capacity written.new ≡ vec_capacity written.old }
{
    append_blanks(written, Contents::Nothing, len);
}

// Appends slots in which nothing stands up to this length, where the list is shorter.
fn lengthen(written: &mut Vec<Contents>, len: usize)
    requires { len ≤ vec_capacity written.old }
    ensures appended { written.new.items
        ≡ written.old.items ++ replicate (len - length written.old.items) Nothing }
    ensures same { vec_capacity written.new ≡ vec_capacity written.old }
{
    if written.len() < len {
        append_nothing(written, len);
    }
}

impl ContentsList {
    // Nothing stands in any of `slots` slots. No later call takes memory.
    fn new(alloc: Global, slots: usize) -> Result<ContentsList, AllocError>
        ensures { IfOk result (λ contents. contents ≡ replicate slots Nothing) }
    {
        let written = Vec::with_capacity(alloc, slots)?;
        Ok(ContentsList { written, slots })
    }

    // How many slots there are.
    fn len(&self) -> usize
        ensures { result ≡ length self.now }
    {
        self.slots
    }

    // What stands in the slot `index`, counted from 0.
    fn get(&self, index: usize) -> Contents
        requires { index < length self.now }
        ensures { slice_get self.now index ≡ Some result }
    {
        if index < self.written.len() {
            self.written[index]
        } else {
            Contents::Nothing
        }
    }

    // Writes what stands in the slot `index`, and gives what stood there. No other changes.
    fn replace(&mut self, index: usize, contents: Contents) -> Contents
        requires { index < length self.old }
        ensures written { self.new ≡ slice_set self.old index contents }
        ensures was { slice_get self.old index ≡ Some result }
    {
        lengthen(&mut self.written, index + 1);
        let was = self.written[index];
        self.written[index] = contents;
        was
    }
}

// The slots of a peer: where they begin, how many they are, and a bit for each one that is vacant.
#[derive(Clone, Copy, Drop)]
struct Peer {
    first: usize,
    count: u16,
    vacant: u32,
}

/// The slots of several peers. Its value is the number of slots of each peer, and the state of each slot in order.
#[derive(Drop)]
pub struct SlotTable {
    peers: Vec<Peer>,
    contents: ContentsList,
    block: Block,
    held: usize,
}

impl Model for SlotTable {
    ghost use Rattle.part_window.specs.TableState.{TableState};
    ghost use Rattle.part_window.specs.TableViews.{table_view, IsCounted, IsBuffered};

    ghost Value = { TableState };

    ghost view = { λ t. table_view t.peers.items t.contents t.block };

    ghost invariant = { λ t. IsCounted t.peers.items t.contents t.held
        × IsBuffered t.contents t.block };
}

// How many slots peer `node` has.
fn count_for(node: usize, me: u16, credits: u16) -> u16
    ensures { result ≡ if node == me then 0 else credits }
{
    if node == me as usize { 0 } else { credits }
}

// A bit for each of `count` slots.
fn low_ones(count: u16) -> u32
    requires { count ≤ 32 }
    ensures { result + 1 ≡ 2 ^ count }
{
    if count == 32 {
        u32::MAX
    } else {
        (1 << count) - 1
    }
}

// The bits of a peer's vacant slots, after slot `slot` became vacant, or no longer is.
fn marked(vacant: u32, slot: u16, was: bool, is: bool) -> u32
    requires in_range { slot < 32 }
    requires set { bit was slot ≤ vacant }
    requires fits { vacant + bit is slot < 2 ^ 32 + bit was slot }
    ensures { result + bit was slot ≡ vacant + bit is slot }
{
    if was && !is {
        vacant - (1 << slot)
    } else if is && !was {
        vacant + (1 << slot)
    } else {
        vacant
    }
}

// How many slots are taken, after one became vacant, or no longer is.
fn counted(held: usize, was: bool, is: bool) -> usize
    requires some { one is ≤ held + one was }
    requires fits { held < 65537 }
    ensures { result + one is ≡ held + one was }
{
    if was && !is {
        held + 1
    } else if is && !was {
        held - 1
    } else {
        held
    }
}

// The place of slot `slot` of peer `to`.
fn place_in(peers: &Vec<Peer>, to: u16, slot: u16) -> usize
    requires in_range { slot < count_at (peer_counts peers.now.items) to }
    requires laid { IsLaid peers.now.items }
    ensures place { result ≡ start_of (peer_counts peers.now.items) to + slot }
    ensures inside { result < total_of (peer_counts peers.now.items) }
{
    peers[to as usize].first + slot as usize
}

// A slot of a peer.
#[derive(Clone, Copy, Drop)]
struct Spot {
    to: u16,
    slot: u16,
}

// Puts these contents into a slot of a peer.
fn put(
    peers: &mut Vec<Peer>,
    contents: &mut ContentsList,
    held: &mut usize,
    at: Spot,
    new: Contents,
)
    requires in_range { at.slot < count_at (peer_counts peers.old.items) at.to }
    requires counted { IsCounted peers.old.items contents.old held.old }
    ensures counts { peer_counts peers.new.items ≡ peer_counts peers.old.items }
    ensures changed { contents.new ≡ update contents.old
        (start_of (peer_counts peers.old.items) at.to + at.slot) (λ _. new) }
    ensures counted { IsCounted peers.new.items contents.new held.new }
{
    let place = place_in(peers, at.to, at.slot);
    let was = contents.replace(place, new).is_nothing();
    let is = new.is_nothing();
    let vacant = peers[at.to as usize].vacant;
    peers[at.to as usize].vacant = marked(vacant, at.slot, was, is);
    *held = counted(*held, was, is);
}

impl SlotTable {
    ghost use Rattle.part_window.specs.TableState.{is_vacant, is_taken, HasSlot, slot_in, slots_of};
    ghost use Rattle.part_window.specs.TableState.{number_of, message_number, message_of, opened_time};
    ghost use Rattle.part_window.specs.TableState.{place_of, IsOpened, OpensSlot, with_change, as_committed};
    ghost use Rattle.part_window.specs.TableState.{as_retransmitted, with_written, opened_bytes_in, Vacant};
    ghost use Rattle.part_window.specs.TableState.{new_table, counts_of};
    ghost use Rattle.part_window.specs.TableLending.{table_row};
    ghost use Rattle.std.specs.Prelude.{IsSomeAnd, option_and_then};

    /// A table with as many vacant slots for each peer as its entry of `credits` says, and none for `me`,
    /// whatever its own entry. At most 2,048 entries, each peer at most 32 slots. The buffers' memory is
    /// reserved and not touched, and no later call takes memory.
    ///
    /// # Errors
    ///
    /// Where there is no memory for it.
    pub fn new(alloc: Global, credits: &[u16], me: u16) -> Result<SlotTable, AllocError>
        requires few { length credits.now ≤ 2048 }
        requires narrow { All (λ count. count ≤ 32) (counts_of credits.now me) }
        ensures { IfOk result (λ t. t ≡ new_table credits.now me) }
    {
        let mut peers = Vec::with_capacity(alloc, credits.len())?;
        let mut first = 0;
        for (node, &credits) in credits.iter().enumerate() {
            let count = count_for(node, me, credits);
            peers.push(Peer {
                first,
                count,
                vacant: low_ones(count),
            })?;
            first += count as usize;
        }
        Ok(SlotTable {
            peers,
            contents: ContentsList::new(alloc, first)?,
            block: Block::new(alloc, first)?,
            held: 0,
        })
    }

    /// How many slots there are, over all peers.
    pub fn slots(&self) -> usize
        ensures count { result ≡ length self.now.slots }
        ensures small { result ≤ MAX_SLOTS }
    {
        self.contents.len()
    }

    /// How many slots are taken, over all peers.
    pub fn held(&self) -> usize
        ensures count { result ≡ count_by is_taken self.now.slots }
        ensures small { result ≤ MAX_SLOTS }
    {
        self.held
    }

    /// How many slots of the peer `to` are vacant.
    pub fn free(&self, to: u16) -> u16
        requires { to < length self.now.counts }
        ensures { result ≡ count_by is_vacant (slots_of self.now to) }
    {
        self.peers[to as usize].vacant.count_ones() as u16
    }

    /// The lowest vacant slot of the peer `to`: `None` exactly where each is taken.
    pub fn first_vacant(&self, to: u16) -> Option<u16>
        requires { to < length self.now.counts }
        ensures { result ≡ position is_vacant (slots_of self.now to) }
    {
        let vacant = self.peers[to as usize].vacant;
        if vacant == 0 {
            None
        } else {
            Some(vacant.trailing_zeros() as u16)
        }
    }

    /// The place of a slot of the peer `to` among the slots of all, counted from 0.
    pub fn place(&self, to: u16, slot: u16) -> usize
        requires { HasSlot self.now to slot }
        ensures place { result ≡ place_of self.now to slot }
        ensures inside { result < length self.now.slots }
        ensures small { result < MAX_SLOTS }
    {
        place_in(&self.peers, to, slot)
    }

    /// The number with which a slot of the peer `to` is taken: `None` exactly where it is vacant.
    pub fn number(&self, to: u16, slot: u16) -> Option<u64>
        requires { HasSlot self.now to slot }
        ensures { result ≡ option_and_then number_of (slot_in self.now to slot) }
    {
        match self.contents.get(place_in(&self.peers, to, slot)) {
            Contents::Nothing => None,
            Contents::Draft(number, _) => Some(number),
            Contents::Message(number, _, _) => Some(number),
        }
    }

    /// The number of the message in a slot of the peer `to`: `None` exactly where it is not committed.
    pub fn message_number(&self, to: u16, slot: u16) -> Option<u64>
        requires { HasSlot self.now to slot }
        ensures { result ≡ option_and_then message_number (slot_in self.now to slot) }
    {
        match self.contents.get(place_in(&self.peers, to, slot)) {
            Contents::Message(number, _, _) => Some(number),
            _ => None,
        }
    }

    /// The message of a slot of the peer `to`: `None` exactly where it is not committed.
    pub fn message(&self, to: u16, slot: u16) -> Option<&[u8]>
        requires { HasSlot self.now to slot }
        ensures { option_copied result ≡ option_and_then message_of (slot_in self.now to slot) }
    {
        let place = place_in(&self.peers, to, slot);
        match self.contents.get(place) {
            Contents::Message(_, _, len) => Some(&self.block.part(place)[..len as usize]),
            _ => None,
        }
    }

    /// Opens a slot of the peer `to` with this number and time, whatever stood in it.
    pub fn open(&mut self, to: u16, slot: u16, number: u64, time: u64)
        requires { HasSlot self.old to slot }
        ensures { OpensSlot self.old to (record { slot = slot; number = number; time = time })
            self.new }
    {
        put(
            &mut self.peers,
            &mut self.contents,
            &mut self.held,
            Spot { to, slot },
            Contents::Draft(number, time),
        );
    }

    /// The buffer of an opened slot of the peer `to`, of `BUFFER_BYTES` bytes, to be written.
    pub fn buffer_mut(&mut self, to: u16, slot: u16) -> &mut [u8]
        requires in_range { HasSlot self.old to slot }
        requires opened { IsSomeAnd (slot_in self.old to slot) IsOpened }
        ensures* writes_back { sem 𝓛 (Lends table_row (Array byte 0) self.entry result
            (λ written. with_change self.old to slot (with_written written))) }
        ensures value { result.now ≡ opened_bytes_in self.old to slot }
        ensures len { length result.now ≡ BUFFER_BYTES }
    {
        let place = place_in(&self.peers, to, slot);
        self.block.part_mut(place)
    }

    /// Commits a slot of the peer `to`, where it is opened: its message is the first `len` bytes of its buffer.
    /// Gives the time with which it was opened: `None` exactly where it was not.
    pub fn commit(&mut self, to: u16, slot: u16, len: usize) -> Option<u64>
        requires in_range { HasSlot self.old to slot }
        requires fits { len ≤ BUFFER_BYTES }
        ensures changed { self.new ≡ with_change self.old to slot (as_committed len) }
        ensures time { result ≡ option_and_then opened_time (slot_in self.old to slot) }
    {
        let place = place_in(&self.peers, to, slot);
        let Contents::Draft(number, time) = self.contents.get(place) else {
            return None;
        };
        put(
            &mut self.peers,
            &mut self.contents,
            &mut self.held,
            Spot { to, slot },
            Contents::Message(number, time, len as u16),
        );
        Some(time)
    }

    /// Notes that the message of a slot of the peer `to`, where it has one, is sent at `now`.
    pub fn send_again(&mut self, to: u16, slot: u16, now: u64)
        requires { HasSlot self.old to slot }
        ensures { self.new ≡ with_change self.old to slot (as_retransmitted now) }
    {
        let place = place_in(&self.peers, to, slot);
        if let Contents::Message(number, _, len) = self.contents.get(place) {
            put(
                &mut self.peers,
                &mut self.contents,
                &mut self.held,
                Spot { to, slot },
                Contents::Message(number, now, len),
            );
        }
    }

    /// Makes a slot of the peer `to` vacant, whatever stood in it.
    pub fn vacate(&mut self, to: u16, slot: u16)
        requires { HasSlot self.old to slot }
        ensures { self.new ≡ with_change self.old to slot (λ _. Vacant) }
    {
        put(
            &mut self.peers,
            &mut self.contents,
            &mut self.held,
            Spot { to, slot },
            Contents::Nothing,
        );
    }
}
