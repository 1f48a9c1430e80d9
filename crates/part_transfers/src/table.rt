//! The records of a node's operations, in the 256 places of a slab.

ghost use Rattle.std.specs.Prelude.{◌≡◌, ◌<◌, ◌≤◌, ℕ, List, Option, None, Some, length, replicate, slice_get};
ghost use Rattle.std.specs.Prelude.{slice_set, remove, IfOk, IfSome, IfNone, Bool, true, not, ◌||◌, ◌&&◌};
ghost use Rattle.part_transfers.specs.declared.queue.Queued.{Queued};
ghost use Rattle.part_transfers.specs.declared.table.Pick.TheVariants as pick;
ghost use Rattle.part_transfers.specs.declared.table.Check.TheVariants.{Any, Open};
ghost use Rattle.part_transfers.specs.Syncs.{is_kind, flag_at};
ghost use Rattle.part_transfers.specs.Table.{taken_count, is_unissued, waits_by, passes, fits_pick, on_place, picks};
ghost use Rattle.part_transfers.specs.Table.{ready, smaller_target, IsLeast, IsFirstExhausted};
ghost use Rattle.part_transfers.specs.Table.{also, has_passing, AreMarks, IsPlaceOf, AreDropped, IsRecordOf};
ghost use Rattle.part_transfers.specs.Table.{regions_of};
ghost use Rattle.part_transfers.specs.Places.{record_places, IsIndexed};
ghost use Rattle.std.specs.List.{list_any};

use crate::flags::Flags;
use crate::operation::{ImplicitKinds, Transfer};
use crate::queue::Queue;
use slab::Slab;
use std::alloc::{AllocError, Global};
use std::marker::Model;

/// The record of an operation that isn't yet synchronised.
#[derive(Clone, Copy)]
pub(crate) struct OperationRecord {
    pub number: u64,
    pub thread: u16,
    pub transfer: Transfer,
    pub implicit: bool,
    pub region: Option<u64>,
    pub issued: u64,
    pub returned: u64,
}

/// Which records are meant.
#[derive(Clone, Copy)]
pub(crate) enum Pick {
    /// Those of the region of that name.
    Region(u64),
    /// The one with that number.
    Number(u64),
    /// The thread's implicit ones of that kind.
    Implicit { thread: u16, which: ImplicitKinds },
}

/// What is asked of a record.
#[derive(Clone, Copy)]
pub(crate) enum Check {
    Any,
    Others(u16),
    Unissued,
    Unfinished,
    /// Another thread's, or unfinished.
    Open(u16),
}

fn is_kind(which: ImplicitKinds, transfer: Transfer) -> bool
    ensures { result ≡ is_kind which transfer }
{
    match which {
        ImplicitKinds::Puts => !transfer.is_get(),
        ImplicitKinds::Gets => transfer.is_get(),
        ImplicitKinds::All => true,
    }
}

impl OperationRecord {
    /// Whether a chunk of it is unissued.
    pub fn is_unissued(&self) -> bool
        ensures { result ≡ is_unissued self.now }
    {
        self.issued < self.transfer.chunks()
    }

    /// Whether it passes.
    pub fn passes(&self, check: Check) -> bool
        ensures { result ≡ passes check self.now }
    {
        match check {
            Check::Any => true,
            Check::Others(thread) => self.thread != thread,
            Check::Unissued => self.is_unissued(),
            Check::Unfinished => self.is_unissued() || self.returned < self.issued,
            Check::Open(thread) => {
                self.thread != thread || (self.is_unissued() || self.returned < self.issued)
            }
        }
    }

    /// Whether it is meant.
    pub fn is_picked(&self, pick: Pick) -> bool
        ensures { result ≡ fits_pick pick self.now }
    {
        match pick {
            Pick::Region(name) => self.region == Some(name),
            Pick::Number(number) => self.number == number,
            Pick::Implicit { thread, which } => {
                self.implicit && self.thread == thread && is_kind(which, self.transfer)
            }
        }
    }
}

/// Whether a record that is meant stands there.
fn is_picked(place: Option<OperationRecord>, pick: Pick) -> bool
    ensures { result ≡ on_place (fits_pick pick) place }
{
    match place {
        Some(operation) => operation.is_picked(pick),
        None => false,
    }
}

/// Whether a record stands there, is marked, and passes.
fn picks(place: Option<OperationRecord>, mark: bool, check: Check) -> bool
    ensures { result ≡ picks mark check place }
{
    match place {
        Some(operation) => mark && operation.passes(check),
        None => false,
    }
}

/// The flag at a place; where there is none it isn't set.
pub(crate) fn flag_at(flags: &[bool], place: usize) -> bool
    ensures { result ≡ flag_at flags.now place }
{
    match flags.get(place) {
        Some(flag) => *flag,
        None => false,
    }
}

/// One or the other.
pub(crate) fn either(mark: bool, other: bool) -> bool
    ensures { result ≡ mark || other }
{
    mark || other
}

/// The number by which a place waits in the queue: its operation's, if a record with an unissued chunk stands there.
fn waits_by(place: Option<OperationRecord>) -> Option<u64>
    ensures { result ≡ waits_by place }
{
    match place {
        Some(operation) if operation.is_unissued() => Some(operation.number),
        _ => None,
    }
}

/// 1 if a record stands there that is in a region, or else 0.
fn regions_of(place: Option<OperationRecord>) -> usize
    ensures { result ≡ regions_of place }
{
    match place {
        Some(operation) if operation.region.is_some() => 1,
        _ => 0,
    }
}

/// The record there, if a chunk of it may be issued to its target.
fn ready<F: Flags>(place: Option<OperationRecord>, can: &F) -> Option<OperationRecord>
    ensures ready { (flag : ℕ → Bool) → F.stands can.now flag → result ≡ ready flag place }
    ensures unissued { IfSome result (λ there. (place ≡ Some there) × (is_unissued there ≡ true)) }
{
    if let Some(operation) = place {
        if operation.is_unissued() && can.is_set(operation.transfer.target()) {
            return Some(operation);
        }
    }
    None
}

/// The smaller one of a node that was found, if one was, and the target of the record there, where that one is meant,
/// has an unissued chunk, and its target's flag is set. No other flag is asked for.
fn smaller<F: Flags>(
    found: Option<u16>,
    place: Option<OperationRecord>,
    meant: bool,
    flags: &F,
) -> Option<u16>
    ensures { (flag : ℕ → Bool) → F.stands flags.now flag
        → result ≡ smaller_target flag meant found place }
{
    let Some(operation) = ready(place, flags) else {
        return found;
    };
    if !meant {
        return found;
    }
    let target = operation.transfer.target();
    match found {
        Some(node) => Some(target.min(node)),
        None => Some(target),
    }
}

/// Whether a record stands there that is meant, and passes.
fn is_match(place: Option<OperationRecord>, pick: Pick, check: Check) -> bool
    ensures { result ≡ on_place (λ there. fits_pick pick there && passes check there) place }
{
    match place {
        Some(operation) => operation.is_picked(pick) && operation.passes(check),
        None => false,
    }
}

/// Between which entries of the list of all those of the records that are meant stand.
fn run(standing: &Queue, pick: Pick) -> (usize, usize)
    ensures within { result.1 ≤ length standing.now }
    ensures all { (index : ℕ) (entry : Queued) (there : OperationRecord)
        → slice_get standing.now index ≡ Some entry → there.number ≡ entry.number
        → fits_pick pick there ≡ true → (result.0 ≤ index) × (index < result.1) }
{
    match pick {
        Pick::Number(number) => standing.run_of(number),
        _ => (0, standing.len()),
    }
}

/// The record of an entry of the list of all goes.
fn drop_at(
    records: &mut Slab<OperationRecord>,
    queue: &mut Queue,
    standing: &mut Queue,
    in_regions: &mut usize,
    index: usize,
)
    requires within { index < length standing.old }
    requires indexed { IsIndexed records.old queue.old standing.old in_regions.old }
    ensures indexed { IsIndexed records.new queue.new standing.new in_regions.new }
    ensures standing { standing.new ≡ remove standing.old index }
    ensures gone { (entry : Queued) → slice_get standing.old index ≡ Some entry
        → record_places records.new ≡ slice_set (record_places records.old) entry.place None }
{
    let place = standing.at(index).place;
    let removed = records.try_remove(place);
    queue.change(place, waits_by(removed), None);
    standing.remove(index);
    *in_regions -= regions_of(removed);
}

/// 256 places: the keys of a slab, which tells the next blank one. The places that are taken stand in a list by the
/// numbers of their operations, and those of the records with an unissued chunk in a queue.
#[derive(Drop)]
pub(crate) struct OperationTable {
    records: Slab<OperationRecord>,
    queue: Queue,
    standing: Queue,
    /// How many records are in a region.
    in_regions: usize,
}

impl Model for OperationTable {
    ghost use Rattle.std.specs.Prelude.{List, Option};
    ghost use Rattle.part_transfers.specs.Places.{record_places, IsIndexed};
    ghost use Rattle.part_transfers.specs.declared.table.OperationRecord.{OperationRecord};

    ghost Value = { List (Option OperationRecord) };

    ghost view = { λ t. record_places t.records };

    ghost invariant = { λ t. IsIndexed t.records t.queue t.standing t.in_regions };
}

impl OperationTable {
    /// All places are blank. It takes the memory of 256 records and of two lists of as many, and touches none of it; no
    /// later call takes any.
    pub fn new(alloc: Global) -> Result<OperationTable, AllocError>
        ensures { IfOk result (λ table. table ≡ replicate 256 None) }
    {
        let records = Slab::with_capacity(alloc, 256)?;
        // A slab may say that it has room for more: then some key would be no place.
        if records.capacity() != 256 {
            return Err(AllocError);
        }
        Ok(OperationTable {
            records,
            queue: Queue::new(alloc)?,
            standing: Queue::new(alloc)?,
            in_regions: 0,
        })
    }

    /// What stands in a place.
    pub fn at(&self, place: usize) -> Option<OperationRecord>
        requires { place < 256 }
        ensures { slice_get self.now place ≡ Some result }
    {
        self.records.get(place).copied()
    }

    /// A record takes a blank place, if there is one: which. The slab knows it, so no place is looked at.
    pub fn insert(&mut self, operation: OperationRecord) -> Option<usize>
        ensures blank { IfSome result (λ place. slice_get self.old place ≡ Some None) }
        ensures put { IfSome result (λ place.
            self.new ≡ slice_set self.old place (Some operation)) }
        ensures full { IfNone result ((taken_count self.old ≡ 256) × (self.new ≡ self.old)) }
        ensures many { length self.old ≡ 256 }
    {
        if self.records.len() == self.records.capacity() {
            return None;
        }
        let place = self.records.insert_reserved(operation);
        self.queue.change(place, None, waits_by(Some(operation)));
        self.standing.change(place, None, Some(operation.number));
        self.in_regions += regions_of(Some(operation));
        Some(place)
    }

    /// The record of an operation becomes another one: of the same number, in the same region.
    pub fn change(&mut self, place: usize, operation: OperationRecord)
        requires { IsRecordOf self.old place operation.number operation.region }
        ensures { self.new ≡ slice_set self.old place (Some operation) }
    {
        let was = self.at(place);
        self.queue
            .change(place, waits_by(was), waits_by(Some(operation)));
        self.records[place] = operation;
    }

    /// Whether no record has an unissued chunk.
    pub fn is_idle(&self) -> bool
        ensures { result ≡ not (list_any (on_place is_unissued) self.now) }
    {
        self.queue.is_empty()
    }

    /// The oldest record of which a chunk may be issued to its target. It looks only at the records with an unissued
    /// chunk, from the oldest one on, and at none behind the one that it finds; at none at all where no flag may be
    /// set. It asks for the flags of their targets alone.
    pub fn oldest<F: Flags>(&self, can: &F) -> Option<OperationRecord>
        ensures least { (flag : ℕ → Bool) → F.stands can.now flag → IsLeast flag self.now result }
        ensures unissued { IfSome result (λ there. (place : ℕ)
            × (slice_get self.now place ≡ Some (Some there)) × (is_unissued there ≡ true)) }
    {
        if !can.may_be_set() {
            return None;
        }
        for index in 0..self.queue.len() {
            let place = self.queue.at(index).place;
            if let Some(operation) = ready(self.at(place), can) {
                return Some(operation);
            }
        }
        None
    }

    /// Whether a region of that name stands. It looks at no record where none is in a region.
    pub fn has_region(&self, name: u64) -> bool
        ensures { result ≡ list_any (on_place (fits_pick (pick.Region name))) self.now }
    {
        if self.in_regions == 0 {
            return false;
        }
        self.any_passes(Pick::Region(name), Check::Any)
    }

    /// Whether some record that is meant passes. It looks at none behind the first one that does, and of a record that
    /// is meant by its number at that one alone.
    pub fn any_passes(&self, pick: Pick, check: Check) -> bool
        ensures { result ≡ has_passing (fits_pick pick) check self.now }
    {
        let (from, end) = run(&self.standing, pick);
        for index in from..end {
            let place = self.standing.at(index).place;
            if is_match(self.at(place), pick, check) {
                return true;
            }
        }
        false
    }

    /// Whether some record is meant, and all that are meant are the thread's own and complete. It goes through them
    /// once, up to the first one that isn't.
    pub fn is_settled(&self, pick: Pick, thread: u16) -> bool
        ensures { result ≡ has_passing (fits_pick pick) Any self.now
            && not (has_passing (fits_pick pick) (Open thread) self.now) }
    {
        let (from, end) = run(&self.standing, pick);
        let mut any = false;
        for index in from..end {
            let operation = self.at(self.standing.at(index).place);
            if is_match(operation, pick, Check::Open(thread)) {
                return false;
            }
            any = either(any, is_picked(operation, pick));
        }
        any
    }

    /// Marks the places of the records that are meant.
    pub fn mark(&self, pick: Pick, marks: &mut [bool; 256])
        ensures { (test : OperationRecord → Bool) → AreMarks test self.now marks.old
            → AreMarks (also test (fits_pick pick)) self.now marks.new }
    {
        let (from, end) = run(&self.standing, pick);
        for index in from..end {
            let place = self.standing.at(index).place;
            marks[place] = either(marks[place], is_picked(self.at(place), pick));
        }
    }

    /// Whether some record that is marked passes.
    pub fn has(&self, marks: &[bool; 256], check: Check) -> bool
        ensures { (test : OperationRecord → Bool) → AreMarks test self.now marks.now
            → result ≡ has_passing test check self.now }
    {
        for index in 0..self.standing.len() {
            let place = self.standing.at(index).place;
            if picks(self.at(place), flag_at(marks, place), check) {
                return true;
            }
        }
        false
    }

    /// The smallest node whose flag is set and to which a record that is meant has an unissued chunk. It goes once
    /// through those that may be meant, and asks for the flags of their targets alone.
    pub fn smallest_target<F: Flags>(&self, pick: Pick, flags: &F) -> Option<u16>
        ensures { (flag : ℕ → Bool) → F.stands flags.now flag
            → IsFirstExhausted flag (fits_pick pick) self.now result }
    {
        let (from, end) = run(&self.standing, pick);
        let mut found = None;
        for index in from..end {
            let place = self.at(self.standing.at(index).place);
            found = smaller(found, place, is_picked(place, pick), flags);
        }
        found
    }

    /// The smallest node whose flag is set and to which a record that is marked has an unissued chunk. It goes once
    /// through all records.
    pub fn smallest_marked<F: Flags>(&self, marks: &[bool; 256], flags: &F) -> Option<u16>
        ensures { (flag : ℕ → Bool) → F.stands flags.now flag → (test : OperationRecord → Bool)
            → AreMarks test self.now marks.now → IsFirstExhausted flag test self.now result }
    {
        let mut found = None;
        for index in 0..self.standing.len() {
            let place = self.standing.at(index).place;
            found = smaller(found, self.at(place), flag_at(marks, place), flags);
        }
        found
    }

    /// The place of the operation with that number, if it has an unissued chunk. It looks at no record.
    pub fn place_of(&self, number: u64) -> Option<usize>
        ensures found { IfSome result (λ place. IsPlaceOf self.now number Check.Unissued place) }
        ensures none { IfNone result
            ((place : ℕ) → IsPlaceOf self.now number Check.Unissued place → ⊥) }
        ensures within { IfSome result (λ place. place < 256) }
    {
        self.queue.place_of(number)
    }

    /// The records that are meant go.
    pub fn drop_picked(&mut self, pick: Pick)
        ensures { AreDropped (fits_pick pick) self.old self.new }
    {
        let (from, end) = run(&self.standing, pick);
        for index in (from..end).rev() {
            let place = self.standing.at(index).place;
            if is_picked(self.records.get(place).copied(), pick) {
                drop_at(
                    &mut self.records,
                    &mut self.queue,
                    &mut self.standing,
                    &mut self.in_regions,
                    index,
                );
            }
        }
    }

    /// The records that are marked go.
    pub fn drop_marked(&mut self, marks: &[bool; 256])
        ensures { (test : OperationRecord → Bool) → AreMarks test self.old marks.now
            → AreDropped test self.old self.new }
    {
        for index in (0..self.standing.len()).rev() {
            if flag_at(marks, self.standing.at(index).place) {
                drop_at(
                    &mut self.records,
                    &mut self.queue,
                    &mut self.standing,
                    &mut self.in_regions,
                    index,
                );
            }
        }
    }
}
