//! Places by the numbers of their operations: those that wait, as their record has an unissued chunk, and all that are
//! taken.

ghost use Rattle.std.specs.Prelude.{◌≡◌, ◌<◌, ◌≤◌, ◌==◌, ℕ, [], Option, Some, true, length, slice_get, remove};
ghost use Rattle.std.specs.Prelude.{IfOk, IfSome, IfNone};
ghost use Rattle.part_transfers.specs.declared.queue.Queued.{Queued};
ghost use Rattle.part_transfers.specs.Queue.{IsQueue, WaitsAt, IsNowhere, IsIndexFor, IsQueuedAs, Leaves, Enters, Changes};

use std::alloc::{AllocError, Global};
use std::collections::VecDeque;
use std::marker::Model;

/// A place that waits, and the number of its operation.
#[derive(Clone, Copy)]
pub(crate) struct Queued {
    pub number: u64,
    pub place: usize,
}

/// The places that wait, of 256: each once, by rising numbers of their operations.
#[derive(Drop)]
pub(crate) struct Queue {
    entries: VecDeque<Queued>,
}

impl Model for Queue {
    ghost use Rattle.std.specs.Prelude.{List, ◌≤◌};
    ghost use Rattle.std.specs.VecDeque.{deque_capacity};
    ghost use Rattle.part_transfers.specs.declared.queue.Queued.{Queued};
    ghost use Rattle.part_transfers.specs.Queue.{IsQueue};

    ghost Value = { List Queued };

    ghost view = { λ q. q.entries.items };

    ghost invariant = { λ q. (256 ≤ deque_capacity q.entries) × IsQueue q.entries.items };
}

impl Queue {
    /// No place waits. It takes the memory of 256 entries; no later call takes any.
    pub fn new(alloc: Global) -> Result<Queue, AllocError>
        ensures { IfOk result (λ queue. queue ≡ []) }
    {
        Ok(Queue {
            entries: VecDeque::with_capacity(alloc, 256)?,
        })
    }

    /// Whether no place waits.
    pub fn is_empty(&self) -> bool
        ensures { result ≡ (length self.now == 0) }
    {
        self.entries.is_empty()
    }

    /// How many places wait.
    pub fn len(&self) -> usize
        ensures len { result ≡ length self.now }
        ensures queue { IsQueue self.now }
    {
        self.entries.len()
    }

    /// The entry at an index, counted from the oldest one.
    pub fn at(&self, index: usize) -> Queued
        requires { index < length self.now }
        ensures here { slice_get self.now index ≡ Some result }
        ensures inside { result.place < 256 }
    {
        self.entries[index]
    }

    /// Where an entry of that number may stand: as far from the first one as the number is, or last. There it stands
    /// where no number between the first one and it is missing, and the last entry is found there too.
    fn guess(&self, number: u64) -> usize
        ensures { result ≤ length self.now }
    {
        if self.len() == 0 {
            return 0;
        }
        let far = number.saturating_sub(self.at(0).number);
        (far as usize).min(self.len() - 1)
    }

    /// Whether the entries before the index have smaller numbers, and those from it on don't.
    fn is_index_for(&self, index: usize, number: u64) -> bool
        requires { index ≤ length self.now }
        ensures { result ≡ true → IsIndexFor self.now number index }
    {
        (index == 0 || self.at(index - 1).number < number)
            && (index == self.len() || number <= self.at(index).number)
    }

    /// The index of the first entry whose number isn't smaller than that, by bisection.
    fn bisect(&self, number: u64) -> usize
        ensures { IsIndexFor self.now number result }
    {
        let mut from = 0;
        let mut end = self.len();
        while from < end {
            let middle = from + (end - from) / 2;
            if self.at(middle).number < number {
                from = middle + 1;
            } else {
                end = middle;
            }
        }
        from
    }

    /// The index of the first entry whose number isn't smaller than that: where an operation of that number goes, and
    /// where it stands. That of the first entry, of the last one, and the one behind it are found at once.
    fn index_for(&self, number: u64) -> usize
        ensures { IsIndexFor self.now number result }
    {
        let guess = self.guess(number);
        if self.is_index_for(guess, number) {
            return guess;
        }
        if guess < self.len() && self.is_index_for(guess + 1, number) {
            return guess + 1;
        }
        self.bisect(number)
    }

    /// The place that waits by that number.
    pub fn place_of(&self, number: u64) -> Option<usize>
        ensures found { IfSome result (λ place. (index : ℕ)
            × (slice_get self.now index ≡ Some (record { number = number; place = place }))) }
        ensures none { IfNone result ((index : ℕ) (entry : Queued)
            → slice_get self.now index ≡ Some entry → entry.number ≡ number → ⊥) }
    {
        let index = self.index_for(number);
        if index < self.len() {
            let entry = self.at(index);
            if entry.number == number {
                return Some(entry.place);
            }
        }
        None
    }

    /// From which index on, and before which one, the entries of that number stand.
    pub fn run_of(&self, number: u64) -> (usize, usize)
        ensures within { result.1 ≤ length self.now }
        ensures all { (index : ℕ) (entry : Queued) → slice_get self.now index ≡ Some entry
            → entry.number ≡ number → (result.0 ≤ index) × (index < result.1) }
    {
        let from = self.index_for(number);
        let many = self.len();
        for end in from..many {
            if self.at(end).number != number {
                return (from, end);
            }
        }
        (from, many)
    }

    /// The index of a place that waits by that number.
    fn index_of(&self, place: usize, number: u64) -> usize
        requires { IsQueuedAs self.now place (Some number) }
        ensures { WaitsAt self.now result place }
    {
        for index in self.index_for(number)..self.len() {
            if self.at(index).place == place {
                return index;
            }
        }
        unreachable!();
    }

    /// The entry at an index goes.
    pub fn remove(&mut self, index: usize)
        requires { index < length self.old }
        ensures is { self.new ≡ remove self.old index }
        ensures queue { IsQueue self.old }
    {
        self.entries.remove(index);
    }

    /// A place goes, if there is a number by which it waited.
    fn leave(&mut self, place: usize, was: Option<u64>)
        requires { IsQueuedAs self.old place was }
        ensures { Leaves place was self.old self.new }
    {
        let Some(number) = was else {
            return;
        };
        let index = self.index_of(place, number);
        self.remove(index);
    }

    /// A place comes, if there is a number by which it waits now.
    fn enter(&mut self, place: usize, now: Option<u64>)
        requires inside { place < 256 }
        requires absent { IsNowhere self.old place }
        ensures { Enters place now self.old self.new }
    {
        let Some(number) = now else {
            return;
        };
        let index = self.index_for(number);
        let entry = Queued { number, place };
        if self.entries.insert(index, entry).is_err() {
            unreachable!();
        }
    }

    /// A place that waited by one number waits by another; without a number it doesn't wait.
    pub fn change(&mut self, place: usize, was: Option<u64>, now: Option<u64>)
        requires inside { place < 256 }
        requires waited { IsQueuedAs self.old place was }
        ensures { Changes place was now self.old self.new }
    {
        if was == now {
            return;
        }
        self.leave(place, was);
        self.enter(place, now);
    }
}
