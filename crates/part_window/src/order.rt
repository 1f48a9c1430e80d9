//! The order in which messages are sent again.

ghost use Rattle.std.specs.Prelude.{◌≡◌, ◌≢◌, ◌+◌, ◌<◌, ◌≤◌, length, map, slice_get, slice_set};
ghost use Rattle.std.specs.Prelude.{Some, None, IfSome, IfNone, IfOk, true, false, vec_capacity, ◌-◌, ◌++◌, ◌∷◌, []};
ghost use Rattle.std.proofs.Math.ListN.{replicate};
ghost use Rattle.base_lists.specs.Update.{update};
ghost use Rattle.part_window.specs.Ring.{IsOn};
ghost use Rattle.part_window.specs.Order.{due_view, next_at, listed_at, head_of, blank_entry, IsOrder, IsSpot};
ghost use Rattle.part_window.specs.declared.table.TheConstants.{MAX_SLOTS};

use crate::padded_list::append_blanks;
use std::alloc::{AllocError, Global};
use std::marker::Model;

// A message that is to be sent again: when it was last sent, and the slot in which it stands.
#[derive(Clone, Copy, Drop)]
pub(crate) struct Due {
    pub(crate) time: u64,
    pub(crate) node: u16,
    pub(crate) slot: u16,
}

// A place, and the places before and behind it where it is listed.
#[derive(Clone, Copy, Drop)]
struct DueEntry {
    time: u64,
    node: u16,
    slot: u16,
    previous: u32,
    next: u32,
    listed: bool,
}

// An entry of each place, and behind them the one where the ring begins and ends. Behind the last entry of a place that
// was written each is blank, and takes no memory that was touched. Its value is the list of all.
#[derive(Drop)]
struct Entries {
    written: Vec<DueEntry>,
    places: usize,
    head: DueEntry,
}

impl Model for Entries {
    ghost use Rattle.std.specs.Prelude.{List, [], ◌∷◌, ◌++◌, ◌≤◌, vec_len, vec_capacity};
    ghost use Rattle.part_window.specs.PaddedLists.{with_padding};
    ghost use Rattle.part_window.specs.Order.{blank_entry};
    ghost use Rattle.part_window.specs.declared.order.DueEntry.{DueEntry};

    ghost Value = { List DueEntry };

    ghost view = { λ e. with_padding e.written.items blank_entry e.places ++ e.head ∷ [] };

    ghost invariant = { λ e. (vec_len e.written ≤ e.places)
        × (e.places ≤ vec_capacity e.written) };
}

// The entry of a place that was never listed.
fn blank_entry() -> DueEntry
    ensures { result ≡ blank_entry }
{
    DueEntry {
        time: 0,
        node: 0,
        slot: 0,
        previous: 0,
        next: 0,
        listed: false,
    }
}

// Appends blank entries up to this length. It isn't inlined, since few writes need it.
#[inline(never)]
fn append_entries(written: &mut Vec<DueEntry>, len: usize)
    requires { len ≤ vec_capacity written.old }
    ensures appended { written.new.items
        ≡ written.old.items ++ replicate (len - length written.old.items) blank_entry }
    ensures same { vec_capacity written.new ≡ vec_capacity written.old }
{
    append_blanks(written, blank_entry(), len);
}

// Appends blank entries up to this length, where the list is shorter.
fn lengthen(written: &mut Vec<DueEntry>, len: usize)
    requires { len ≤ vec_capacity written.old }
    ensures appended { written.new.items
        ≡ written.old.items ++ replicate (len - length written.old.items) blank_entry }
    ensures same { vec_capacity written.new ≡ vec_capacity written.old }
{
    if written.len() < len {
        append_entries(written, len);
    }
}

impl Entries {
    // Blank entries of `places` places, and this one behind them.
    fn new(alloc: Global, places: usize, head: DueEntry) -> Result<Entries, AllocError>
        ensures { IfOk result (λ e. e ≡ replicate places blank_entry ++ head ∷ []) }
    {
        let written = Vec::with_capacity(alloc, places)?;
        Ok(Entries {
            written,
            places,
            head,
        })
    }

    // Where the last entry stands.
    fn head(&self) -> usize
        ensures { result + 1 ≡ length self.now }
    {
        self.places
    }

    // The entry of a place.
    fn get(&self, place: usize) -> DueEntry
        requires { place + 1 < length self.now }
        ensures { slice_get self.now place ≡ Some result }
    {
        if place < self.written.len() {
            self.written[place]
        } else {
            blank_entry()
        }
    }

    // The entry `index`, which is on the ring.
    fn on_ring(&self, index: usize) -> DueEntry
        requires { IsOn (head_of self.now) (listed_at self.now) index }
        ensures { slice_get self.now index ≡ Some result }
    {
        if index == self.places {
            self.head
        } else {
            self.written[index]
        }
    }

    // The entry of a place that is listed.
    fn listed(&self, place: usize) -> DueEntry
        requires listed { listed_at self.now place ≡ true }
        requires no_head { place ≢ head_of self.now }
        ensures { slice_get self.now place ≡ Some result }
    {
        self.written[place]
    }

    // Writes the entry of a place. No other changes.
    fn set(&mut self, place: usize, entry: DueEntry)
        requires { place + 1 < length self.old }
        ensures { self.new ≡ slice_set self.old place entry }
    {
        lengthen(&mut self.written, place + 1);
        self.written[place] = entry;
    }

    // Writes what is behind the entry `index`, which is on the ring.
    fn set_next(&mut self, index: usize, next: u32)
        requires { IsOn (head_of self.old) (listed_at self.old) index }
        ensures { self.new ≡ update self.old index (λ entry. record entry { next = next }) }
    {
        if index == self.places {
            self.head.next = next;
        } else {
            self.written[index].next = next;
        }
    }

    // Writes what is before the entry `index`, which is on the ring.
    fn set_previous(&mut self, index: usize, previous: u32)
        requires { IsOn (head_of self.old) (listed_at self.old) index }
        ensures { self.new ≡ update self.old index (λ entry. record entry { previous = previous }) }
    {
        if index == self.places {
            self.head.previous = previous;
        } else {
            self.written[index].previous = previous;
        }
    }

    // Notes that a listed place no longer is.
    fn set_unlisted(&mut self, place: usize)
        requires listed { listed_at self.old place ≡ true }
        requires no_head { place ≢ head_of self.old }
        ensures { self.new ≡ update self.old place (λ entry. record entry { listed = false }) }
    {
        self.written[place].listed = false;
    }
}

// Behind which place one with this time goes, and which is behind that one so far. Most times are the latest, and then
// it goes behind the last place.
fn seek(entries: &Entries, place: usize, time: u64) -> (usize, usize)
    requires order { IsOrder entries.now }
    requires inside { place < length entries.now }
    requires unlisted { listed_at entries.now place ≡ false }
    requires no_head { place ≢ head_of entries.now }
    ensures spot { IsSpot entries.now place time result.0 }
    ensures next { next_at entries.now result.0 ≡ result.1 }
{
    let head = entries.head();
    let mut next = head;
    let mut at = entries.on_ring(head).previous as usize;
    while at != head {
        let entry = entries.on_ring(at);
        if entry.time < time {
            return (at, next);
        }
        if entry.time == time && at < place {
            return (at, next);
        }
        next = at;
        at = entry.previous as usize;
    }
    (at, next)
}

// Lists a place behind another, and before the one that was behind that one.
fn link(entries: &mut Entries, place: usize, at: usize, next: usize, due: Due)
    requires order { IsOrder entries.old }
    requires inside { place + 1 < length entries.old }
    requires unlisted { listed_at entries.old place ≡ false }
    requires spot { IsSpot entries.old place due.time at }
    requires next { next_at entries.old at ≡ next }
    ensures order { IsOrder entries.new }
    ensures listed { map due_view entries.new
        ≡ slice_set (map due_view entries.old) place (Some due) }
{
    let entry = DueEntry {
        time: due.time,
        node: due.node,
        slot: due.slot,
        previous: at as u32,
        next: next as u32,
        listed: true,
    };
    entries.set(place, entry);
    entries.set_next(at, place as u32);
    entries.set_previous(next, place as u32);
}

// Takes a place out.
fn unlink(entries: &mut Entries, place: usize)
    requires order { IsOrder entries.old }
    requires listed { listed_at entries.old place ≡ true }
    ensures order { IsOrder entries.new }
    ensures unlisted { map due_view entries.new
        ≡ slice_set (map due_view entries.old) place None }
{
    let entry = entries.listed(place);
    entries.set_next(entry.previous as usize, entry.next);
    entries.set_previous(entry.next as usize, entry.previous);
    entries.set_unlisted(place);
}

/// The places whose messages may be sent again, in the order of their last sending and then of the places. Its value
/// is, for each place, the message that is listed there: its slot, and when it was last sent.
#[derive(Drop)]
pub(crate) struct Order {
    entries: Entries,
}

impl Model for Order {
    ghost use Rattle.std.specs.Prelude.{List, Option, map};
    ghost use Rattle.part_window.specs.Order.{due_view, IsOrder};
    ghost use Rattle.part_window.specs.declared.order.Due.{Due};

    ghost Value = { List (Option Due) };

    ghost view = { λ o. map due_view o.entries };

    ghost invariant = { λ o. IsOrder o.entries };
}

impl Order {
    ghost use Rattle.part_window.specs.Order.{IsFirst, NoneListed};

    /// No place is listed, of `places`.
    pub(crate) fn new(alloc: Global, places: usize) -> Result<Order, AllocError>
        requires { places ≤ MAX_SLOTS }
        ensures { IfOk result (λ o. o ≡ replicate (places + 1) None) }
    {
        let due = Due {
            time: 0,
            node: 0,
            slot: 0,
        };
        let head = DueEntry {
            time: due.time,
            node: due.node,
            slot: due.slot,
            previous: places as u32,
            next: places as u32,
            listed: false,
        };
        Ok(Order {
            entries: Entries::new(alloc, places, head)?,
        })
    }

    /// Lists a place.
    #[inline(always)]
    pub(crate) fn insert(&mut self, place: usize, due: Due)
        requires inside { place + 1 < length self.old }
        requires unlisted { slice_get self.old place ≡ Some None }
        ensures { self.new ≡ slice_set self.old place (Some due) }
    {
        let (at, next) = seek(&self.entries, place, due.time);
        link(&mut self.entries, place, at, next, due);
    }

    /// Takes a listed place out.
    #[inline(always)]
    pub(crate) fn remove(&mut self, place: usize, due: Due)
        requires { slice_get self.old place ≡ Some (Some due) }
        ensures { self.new ≡ slice_set self.old place None }
    {
        unlink(&mut self.entries, place);
    }

    /// What is listed at a place, if anything is.
    pub(crate) fn due(&self, place: usize) -> Option<Due>
        requires { place + 1 < length self.now }
        ensures { Some result ≡ slice_get self.now place }
    {
        let entry = self.entries.get(place);
        if entry.listed {
            Some(Due {
                time: entry.time,
                node: entry.node,
                slot: entry.slot,
            })
        } else {
            None
        }
    }

    /// The first place that is listed.
    pub(crate) fn first(&self) -> Option<(usize, Due)>
        ensures first { IfSome result (λ r. IsFirst self.now r.0 r.1.time) }
        ensures listed { IfSome result (λ r. slice_get self.now r.0 ≡ Some (Some r.1)) }
        ensures inside { IfSome result (λ r. r.0 + 1 < length self.now) }
        ensures none { IfNone result (NoneListed self.now) }
    {
        let head = self.entries.head();
        let place = self.entries.on_ring(head).next as usize;
        if place == head {
            None
        } else {
            let entry = self.entries.on_ring(place);
            let due = Due {
                time: entry.time,
                node: entry.node,
                slot: entry.slot,
            };
            Some((place, due))
        }
    }
}
