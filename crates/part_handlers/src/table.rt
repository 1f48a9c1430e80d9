//! The table of handlers.

ghost use Rattle.std.specs.Prelude.{◌≡◌, ◌<◌, ◌≤◌, ◌-◌, IfOk, IfSome, Some, None, position};
ghost use Rattle.std.specs.Prelude.{is_none, slice_get};
ghost use Rattle.std.specs.Bool.{OnTrue};
ghost use Rattle.part_handlers.specs.Registered.{no_entries, entry_at, has_entry, index_for};
ghost use Rattle.part_handlers.specs.Registered.{registering, reply_locks, locks_in_replies};

use crate::rules::Role;
use crate::serves::Serves;
use std::alloc::{AllocError, Global};
use std::error::Error;
use std::fmt;
use std::marker::Model;

/// A handler, as the table of handlers names it (GASNet 1.8.1, core API).
#[derive(Clone, Copy, PartialEq, Eq, Debug)]
pub struct Entry {
    /// The handler's index, from 128 to 255; 0 asks for any index that is free.
    pub index: u8,
    /// Which messages the handler may run for: requests, replies, or both (profile).
    pub serves: Serves,
    /// Bit k says that the handler may take the handler-safe lock k (profile).
    pub locks: u64,
}

impl Entry {
    /// The locks that the handler may take while it runs for a reply: bit k for lock k; none if it runs for none.
    fn locks_in_replies(self) -> u64
        ensures { result ≡ locks_in_replies (Some self) }
    {
        match self.serves {
            Serves::Requests => 0,
            Serves::Replies | Serves::Both => self.locks,
        }
    }
}

/// Why an entry isn't registered.
#[derive(Clone, Copy, PartialEq, Eq, Debug)]
pub enum EntryFault {
    /// The indexes 1 to 127 aren't the client's.
    Reserved,
    /// The index is registered.
    Taken,
    /// The entry asks for any index, and 128 to 255 are all registered.
    Full,
}

impl fmt::Display for EntryFault {
    fn fmt<W: fmt::Write>(&self, f: &mut fmt::Formatter<W>) -> fmt::Result {
        match *self {
            EntryFault::Reserved => write!(f, "the indexes 1 to 127 aren't the client's"),
            EntryFault::Taken => write!(f, "the index is registered"),
            EntryFault::Full => write!(f, "128 to 255 are all registered"),
        }
    }
}

impl Error for EntryFault {}

/// The lowest index of a client's handler.
const LOWEST: u8 = 128;

/// How many indexes a client's handlers have.
const ENTRIES: usize = 128;

/// The handler table: the handlers that a client registered, at most one entry for each index from 128 to 255.
#[derive(Drop)]
pub struct Table {
    places: Vec<Option<Entry>>,
    reply_locks: u64,
}

impl Model for Table {
    ghost use Rattle.std.specs.Prelude.{◌≡◌, length, List, Option};
    ghost use Rattle.part_handlers.specs.declared.table.Entry.{Entry};
    ghost use Rattle.part_handlers.specs.Registered.{IsTable};

    ghost Value = { List (Option Entry) };

    ghost view = { λ t. t.places.items };

    ghost invariant = { λ t. IsTable t.places.items t.reply_locks };
}

impl Table {
    /// An empty table, with room for each of the 128 indexes.
    ///
    /// It is refused for want of memory alone.
    pub fn new(alloc: Global) -> Result<Table, AllocError>
        ensures { IfOk result (λ table. table ≡ no_entries) }
    {
        let places = Vec::from_array(alloc, [None; ENTRIES])?;
        Ok(Table {
            places,
            reply_locks: 0,
        })
    }

    /// The entry of this index, if one is registered; none below 128.
    pub fn entry(&self, index: u8) -> Option<Entry>
        ensures { result ≡ entry_at self.now index }
    {
        if index < LOWEST {
            return None;
        }
        self.places[(index - LOWEST) as usize]
    }

    /// Whether a handler that may run for messages of this role is registered for this index; none is below 128.
    pub fn has(&self, role: Role, index: u8) -> bool
        ensures found { result ≡ has_entry self.now role index }
        ensures client { OnTrue result (128 ≤ index) }
    {
        match self.entry(index) {
            Some(entry) => entry.serves.includes(role),
            None => false,
        }
    }

    /// The locks that any handler of replies may take: bit k for lock k (profile).
    pub fn reply_locks(&self) -> u64
        ensures { result ≡ reply_locks self.now }
    {
        self.reply_locks
    }

    /// Registers an entry, and answers the index that it got: the one that it names or, where it names 0, the lowest
    /// free one from 128 up. It takes no memory.
    ///
    /// `Reserved` exactly where the index is 1 to 127; `Taken` exactly where it is registered; `Full` exactly where it
    /// is 0 and 128 to 255 are all registered. Then the table is unchanged.
    pub fn register(&mut self, entry: Entry) -> Result<u8, EntryFault>
        ensures index { result ≡ index_for self.old entry.index }
        ensures registered { self.new ≡ registering self.old entry result }
    {
        let index = self.index_for(entry.index)?;
        self.places[(index - LOWEST) as usize] = Some(Entry { index, ..entry });
        self.reply_locks |= entry.locks_in_replies();
        Ok(index)
    }

    /// The index for an entry that asks for this one.
    fn index_for(&self, asked: u8) -> Result<u8, EntryFault>
        ensures within { IfOk result (λ index. 128 ≤ index) }
        ensures free { IfOk result (λ index. slice_get self.now (index - 128) ≡ Some None) }
        ensures index { result ≡ index_for self.now asked }
    {
        if asked == 0 {
            return match self.first_free() {
                Some(place) => Ok(LOWEST + place as u8),
                None => Err(EntryFault::Full),
            };
        }
        if asked < LOWEST {
            return Err(EntryFault::Reserved);
        }
        match self.places[(asked - LOWEST) as usize] {
            Some(_) => Err(EntryFault::Taken),
            None => Ok(asked),
        }
    }

    /// The lowest place without an entry.
    fn first_free(&self) -> Option<usize>
        ensures within { IfSome result (λ place. place < 128) }
        ensures free { IfSome result (λ place. slice_get self.now place ≡ Some None) }
        ensures first { result ≡ position is_none self.now }
    {
        self.places.iter().position(|place| place.is_none())
    }

    /// An equal table.
    ///
    /// It is refused for want of memory alone.
    pub fn copy(&self) -> Result<Table, AllocError>
        ensures { IfOk result (λ table. table ≡ self.now) }
    {
        let places = self.places.clone()?;
        Ok(Table {
            places,
            reply_locks: self.reply_locks,
        })
    }
}
