//! The access regions of a node's threads (GASNet 1.8.1, extended API, implicit access regions).
//!
//! A thread begins a region, makes implicit operations, and ends the region; then one handle stands for all of them.
//! This crate knows which thread has begun a region, and under which name: the number of the first operation that
//! joined it (profile). Proved of it: what each call answers and leaves, as a function of the list of regions by
//! thread; a begun region's name is its first operation's number, whatever joins it later. After `new` no call takes
//! memory.

ghost use Rattle.std.specs.Prelude.{◌≡◌, ◌<◌, IfOk, OnErr, length, replicate, slice_set};
ghost use Rattle.std.specs.Prelude.{None, Some, true, false};
ghost use Rattle.part_transfers.specs.Regions.{region_of, has_begun, name_of, empty_region};
ghost use Rattle.part_transfers.specs.Regions.{after_operation};

use std::alloc::{AllocError, Global};
use std::error::Error;
use std::fmt;
use std::marker::Model;

/// A region that a thread has begun.
#[derive(Clone, Copy)]
pub struct Region {
    /// The number of the first operation that joined it; None while it is empty.
    pub name: Option<u64>,
}

/// The thread has begun a region already: regions don't nest.
#[derive(Clone, Copy, Debug)]
pub struct Nested;

impl fmt::Display for Nested {
    fn fmt<W: fmt::Write>(&self, f: &mut fmt::Formatter<W>) -> fmt::Result {
        write!(f, "the thread has begun a region already")
    }
}

impl Error for Nested {}

/// The thread has begun no region.
#[derive(Clone, Copy, Debug, PartialEq, Eq)]
pub struct NoRegion;

impl fmt::Display for NoRegion {
    fn fmt<W: fmt::Write>(&self, f: &mut fmt::Formatter<W>) -> fmt::Result {
        write!(f, "the thread has begun no region")
    }
}

impl Error for NoRegion {}

/// The regions of a node's threads. Its value is the list of what each thread has begun.
#[derive(Drop)]
pub struct Regions {
    threads: Vec<Option<Region>>,
}

impl Model for Regions {
    ghost use Rattle.std.specs.Prelude.{List, Option, ◌≤◌, length};
    ghost use Rattle.part_transfers.specs.declared.regions.Region.{Region};

    ghost Value = { List (Option Region) };

    ghost view = { λ regions. regions.threads.items };

    ghost invariant = { λ regions. length regions.threads.items ≤ 65535 };
}

impl Regions {
    /// So many threads, 0 up, none of which has begun a region.
    ///
    /// # Errors
    ///
    /// For want of memory alone.
    pub fn new(alloc: Global, threads: u16) -> Result<Regions, AllocError>
        ensures { IfOk result (λ regions. regions ≡ replicate threads None) }
    {
        Ok(Regions {
            threads: vec![in alloc; None; threads as usize]?,
        })
    }

    /// How many threads there are.
    pub fn threads(&self) -> u16
        ensures { result ≡ length self.now }
    {
        self.threads.len() as u16
    }

    /// The thread begins a region, which is empty.
    ///
    /// # Errors
    ///
    /// `Nested` exactly where it has begun one; nothing changes then.
    pub fn begin(&mut self, thread: u16) -> Result<(), Nested>
        requires { thread < length self.old }
        ensures begun { IfOk result (λ _. (has_begun self.old thread ≡ false)
            × (self.new ≡ slice_set self.old thread (Some empty_region))) }
        ensures nested { OnErr result ((has_begun self.old thread ≡ true) × (self.new ≡ self.old)) }
    {
        if self.is_begun(thread) {
            return Err(Nested);
        }
        self.threads[thread as usize] = Some(Region { name: None });
        Ok(())
    }

    /// Whether the thread has begun a region.
    pub fn is_begun(&self, thread: u16) -> bool
        requires { thread < length self.now }
        ensures { result ≡ has_begun self.now thread }
    {
        self.threads[thread as usize].is_some()
    }

    /// The name of the thread's region: None exactly where it has begun none, or an empty one.
    pub fn name(&self, thread: u16) -> Option<u64>
        requires { thread < length self.now }
        ensures { result ≡ name_of self.now thread }
    {
        self.threads[thread as usize]?.name
    }

    /// An operation of the thread has this number: its region gets it as a name, where it has begun one that is empty.
    /// Else nothing changes.
    pub fn add(&mut self, thread: u16, serial: u64)
        requires { thread < length self.old }
        ensures { self.new ≡ after_operation self.old thread serial }
    {
        if let Some(region) = self.threads[thread as usize] {
            if let None = region.name {
                self.threads[thread as usize] = Some(Region { name: Some(serial) });
            }
        }
    }

    /// The thread ends its region: the region's name, or None where it is empty.
    ///
    /// # Errors
    ///
    /// `NoRegion` exactly where the thread has begun none; nothing changes then.
    pub fn end(&mut self, thread: u16) -> Result<Option<u64>, NoRegion>
        requires { thread < length self.old }
        ensures ended { IfOk result (λ name. (has_begun self.old thread ≡ true)
            × (name ≡ name_of self.old thread) × (self.new ≡ slice_set self.old thread None)) }
        ensures none { OnErr result ((has_begun self.old thread ≡ false) × (self.new ≡ self.old)) }
    {
        match self.threads[thread as usize] {
            Some(region) => {
                self.threads[thread as usize] = None;
                Ok(region.name)
            }
            None => Err(NoRegion),
        }
    }
}
