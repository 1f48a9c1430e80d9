//! The calls on the operations of a node.

ghost use Rattle.std.specs.Prelude.{◌≡◌, ◌<◌, ◌≤◌, length, ℕ, List, [], Option, None, Some, Bool, true, false, not};
ghost use Rattle.std.specs.Prelude.{IfOk, IfSome, IfNone};
ghost use Rattle.part_transfers.specs.declared.table.OperationRecord.{OperationRecord};
ghost use Rattle.std.specs.List.{list_any, list_all};
ghost use Rattle.part_transfers.specs.declared.operation.Handle.{Handle};
ghost use Rattle.std.specs.Prelude.{◌==◌};
ghost use Rattle.part_transfers.specs.Operation.{Operation, target, region_of, begin_answer, after_begin, has_next};
ghost use Rattle.part_transfers.specs.Operation.{has_unissued, next_chunk, issue, has_out, come_back, IsFreeSlot};
ghost use Rattle.part_transfers.specs.Syncs.{Choice, is_implicit, chosen, members, sync_answer, handle_answer};
ghost use Rattle.part_transfers.specs.Syncs.{after_handle, implicit_of, implicit_answer, left_by, issued_answer, fault_here};
ghost use Rattle.part_transfers.specs.Syncs.{fault_of, members_of, all_answer, whole_of, some_here, some_answer, is_whole};
ghost use Rattle.part_transfers.specs.Table.{AreMarks, also, is_unissued, fits_pick};
ghost use Rattle.part_transfers.specs.Stands.{HasOperations, ForItsOperations, room_of, Stands, Agrees, member_in};
ghost use Rattle.part_transfers.specs.Stands.{member_of, member_of_any};
ghost use Rattle.part_transfers.specs.Stands.{is_whole_in, whole_here, whole_in, CanMarkSent};
ghost use Rattle.part_transfers.specs.Stands.{next_of};

use crate::flags::Flags;
use crate::operation::{Handle, ImplicitKinds, MAX_CHUNK, Mode, Next, Synced, TooMany, Transfer};
use crate::slots::{ChunkSlots, Waiting};
use crate::table::{Check, OperationRecord, OperationTable, Pick, either};
use std::alloc::{AllocError, Global};

/// The operations of a node: a record for each one that isn't yet synchronised, at most 256.
#[derive(Drop)]
pub struct Transfers {
    given: u64,
    table: OperationTable,
    slots: ChunkSlots,
}

/// The next chunk of an operation that has one.
fn next_of(operation: OperationRecord) -> Next
    requires { is_unissued operation ≡ true }
    ensures { result ≡ next_of operation }
{
    let start = operation.issued * MAX_CHUNK;
    let len = (operation.transfer.size() - start).min(MAX_CHUNK);
    Next {
        number: operation.number,
        transfer: operation.transfer,
        start,
        len,
    }
}

/// The region that an operation of that number is in.
fn region_of(number: u64, mode: Mode) -> Option<u64>
    ensures { result ≡ region_of number mode }
{
    match mode {
        Mode::InRegion(None) => Some(number),
        Mode::InRegion(Some(name)) => Some(name),
        _ => None,
    }
}

fn is_implicit(mode: Mode) -> bool
    ensures { result ≡ is_implicit mode }
{
    match mode {
        Mode::Implicit => true,
        _ => false,
    }
}

impl Transfers {
    /// No operation began. It takes the memory of 256 records, of two lists of as many, and of an entry for each of
    /// `credits` slots of each node; `credits` is the greatest number of requests to one node that can be out. No later
    /// call takes any.
    pub fn new(alloc: Global, nodes: u16, credits: u16) -> Result<Transfers, AllocError>
        ensures stands { IfOk result (λ table. Stands table []) }
        ensures room { IfOk result (λ table.
            room_of table ≡ record { nodes = nodes; credits = credits }) }
    {
        Ok(Transfers {
            given: 0,
            table: OperationTable::new(alloc)?,
            slots: ChunkSlots::new(alloc, nodes, credits)?,
        })
    }

    /// An operation of another node begins: its handle. `TooMany` exactly where 256 records stand, or number 2^64 - 1
    /// was given. Nothing is issued yet. `InRegion(None)` names a new region by the operation's own number. (GASNet
    /// 1.8.1 extended API, gasnet_put_nb_bulk, gasnet_get_nbi and their like.)
    pub fn begin(&mut self, thread: u16, transfer: Transfer, mode: Mode) -> Result<Handle, TooMany>
        ensures answer { ForItsOperations self.old (λ operations.
            result ≡ begin_answer operations) }
        ensures stands { ForItsOperations self.old (λ operations.
            Stands self.new (after_begin thread transfer mode operations)) }
        ensures room { room_of self.new ≡ room_of self.old }
    {
        let Some(number) = self.given.checked_add(1) else {
            return Err(TooMany);
        };
        let operation = OperationRecord {
            number,
            thread,
            transfer,
            implicit: is_implicit(mode),
            region: region_of(number, mode),
            issued: 0,
            returned: 0,
        };
        let Some(_place) = self.table.insert(operation) else {
            return Err(TooMany);
        };
        self.given = number;
        Ok(Handle { serial: number })
    }

    /// The next chunk of the oldest operation that has an unissued chunk to a node whose flag is set, which can be
    /// asked. Chunks of one operation come in the order of their ranges. It looks at no operation whose chunks were all
    /// issued, and at none that began later than the one that it finds; it asks for the flags of their targets alone.
    pub fn next<F: Flags>(&self, can: &F) -> Option<Next>
        ensures next { (flag : ℕ → Bool) → F.stands can.now flag → ForItsOperations self.now (λ operations.
            result ≡ next_chunk flag 1 operations) }
        ensures can_mark_sent { IfSome result (λ next. CanMarkSent self.now next.number) }
    {
        match self.table.oldest(can) {
            Some(operation) => Some(next_of(operation)),
            None => None,
        }
    }

    /// Whether no operation has an unissued chunk. It looks at no record.
    pub fn is_idle(&self) -> bool
        ensures idle { ForItsOperations self.now (λ operations.
            result ≡ not (list_any has_next operations)) }
        ensures next { (can : ℕ → Bool) → ForItsOperations self.now (λ operations.
            result ≡ true → next_chunk can 1 operations ≡ None) }
    {
        self.table.is_idle()
    }

    /// The next chunk, as `next` gave it, was accepted as this request to its target, in this slot, in which no other
    /// chunk is out.
    pub fn mark_sent(&mut self, next: &Next, slot: u16, request: u64)
        requires stands { CanMarkSent self.old next.now.number }
        requires to_in { target next.now.transfer < (room_of self.old).nodes }
        requires slot_in { slot < (room_of self.old).credits }
        ensures stands { (can : ℕ → Bool) (bytes : List ℕ)
            → ForItsOperations self.old (λ operations. next_chunk can 1 operations ≡ Some next.now
            → IsFreeSlot operations (target next.now.transfer) slot
            → Stands self.new (issue (target next.now.transfer) slot request bytes operations)) }
        ensures room { room_of self.new ≡ room_of self.old }
    {
        let Some(place) = self.table.place_of(next.number) else {
            unreachable!();
        };
        let Some(mut operation) = self.table.at(place) else {
            unreachable!();
        };
        operation.issued += 1;
        self.table.change(place, operation);
        let waiting = Waiting { request, place };
        self.slots.set(next.transfer.target(), slot, Some(waiting));
    }

    /// The reply to that request of a node came, in that slot: whether a chunk went as it and wasn't back. If so it is
    /// back now.
    pub fn back(&mut self, to: u16, slot: u16, number: u64) -> bool
        requires { HasOperations self.old }
        ensures answer { ForItsOperations self.old (λ operations.
            result ≡ has_out to slot number operations) }
        ensures stands { ForItsOperations self.old (λ operations.
            Stands self.new (come_back to slot number operations)) }
        ensures room { room_of self.new ≡ room_of self.old }
    {
        let Some(waiting) = self.slots.at(to, slot) else {
            return false;
        };
        if waiting.request != number {
            return false;
        }
        let Some(mut operation) = self.table.at(waiting.place) else {
            unreachable!();
        };
        operation.returned += 1;
        self.table.change(waiting.place, operation);
        self.slots.set(to, slot, None);
        true
    }
}

impl Transfers {
    /// The members of a handle other than the invalid one.
    fn members(&self, handle: u64) -> Pick
        ensures { (there : OperationRecord)
            → fits_pick result there ≡ member_in self.now.table handle there }
    {
        if self.table.has_region(handle) {
            Pick::Region(handle)
        } else {
            Pick::Number(handle)
        }
    }

    /// Marks the members of a handle other than the invalid one.
    fn mark_members(&self, handle: u64, marks: &mut [bool; 256])
        ensures { (test : OperationRecord → Bool) → AreMarks test self.now.table marks.old
            → AreMarks (also test (member_in self.now.table handle)) self.now.table marks.new }
    {
        self.table.mark(self.members(handle), marks);
    }

    /// Whether each chunk of a handle's operations was issued. `Some(true)` for the invalid handle, and `None` where no
    /// operation and no region has the number. It doesn't ask whose the handle is.
    pub fn issued(&self, handle: Handle) -> Option<bool>
        ensures { ForItsOperations self.now (λ operations.
            result ≡ issued_answer handle.serial operations) }
    {
        if handle.serial == 0 {
            return Some(true);
        }
        let pick = self.members(handle.serial);
        if !self.table.any_passes(pick, Check::Any) {
            return None;
        }
        Some(!self.table.any_passes(pick, Check::Unissued))
    }

    /// Whether some chunk of the operation with the handle's number is unissued: of that one alone, also where it is in
    /// a region that has its number as a name. False where no operation has the number, as it is for the invalid
    /// handle. It doesn't ask whose the operation is. (What gasnet_put_nb and gasnet_put_nbi wait for; of a region
    /// `issued` speaks.)
    pub fn has_unissued(&self, handle: Handle) -> bool
        ensures { ForItsOperations self.now (λ operations.
            result ≡ has_unissued handle.serial operations) }
    {
        self.table.place_of(handle.serial).is_some()
    }

    /// Where what is marked is complete it goes.
    fn sync_marked<F: Flags>(&mut self, exhausted: &F, marks: &[bool; 256]) -> Synced
        ensures answer { (flag : ℕ → Bool) → F.stands exhausted.now flag → ForItsOperations self.old (λ operations.
            (choice : Choice) (test : OperationRecord → Bool)
            → AreMarks test self.old.table marks.now → Agrees choice test
            → result ≡ sync_answer flag (chosen choice 1 operations)) }
        ensures stands { ForItsOperations self.old (λ operations.
            (choice : Choice) (test : OperationRecord → Bool)
            → AreMarks test self.old.table marks.now → Agrees choice test
            → Stands self.new (left_by result choice operations)) }
        ensures room { room_of self.new ≡ room_of self.old }
    {
        if !self.table.has(marks, Check::Unfinished) {
            self.table.drop_marked(marks);
            return Synced::Ok;
        }
        match self.table.smallest_marked(marks, exhausted) {
            Some(node) => Synced::Exhausted(node),
            None => Synced::NotReady,
        }
    }

    /// Where what is meant is complete it goes. While it isn't, the first record that is unfinished answers.
    fn sync_picked<F: Flags>(&mut self, exhausted: &F, pick: Pick) -> Synced
        ensures answer { (flag : ℕ → Bool) → F.stands exhausted.now flag → ForItsOperations self.old (λ operations. (choice : Choice)
            → Agrees choice (fits_pick pick)
            → result ≡ sync_answer flag (chosen choice 1 operations)) }
        ensures stands { ForItsOperations self.old (λ operations. (choice : Choice)
            → Agrees choice (fits_pick pick)
            → Stands self.new (left_by result choice operations)) }
        ensures room { room_of self.new ≡ room_of self.old }
    {
        if !self.table.any_passes(pick, Check::Unfinished) {
            self.table.drop_picked(pick);
            return Synced::Ok;
        }
        match self.table.smallest_target(pick, exhausted) {
            Some(node) => Synced::Exhausted(node),
            None => Synced::NotReady,
        }
    }

    /// What is wrong with a handle that has these members, if anything is: no operation and no region has it, or
    /// another thread's has.
    fn fault(&self, thread: u16, pick: Pick) -> Option<Synced>
        ensures { ForItsOperations self.now (λ operations. (choice : Choice)
            → Agrees choice (fits_pick pick)
            → result ≡ fault_here thread (chosen choice 1 operations)) }
    {
        if !self.table.any_passes(pick, Check::Any) {
            return Some(Synced::BadHandle);
        }
        if self.table.any_passes(pick, Check::Others(thread)) {
            return Some(Synced::NotYours);
        }
        None
    }

    /// A sync of a handle that doesn't wait; `exhausted` has a flag for each node whose numbers are exhausted. The
    /// first of these that applies: `Ok` for the invalid handle; `BadHandle` where no operation and no region that
    /// stands has the number; `NotYours` where it belongs to another thread; `Ok` where the operation is complete, or
    /// all those of the region are, and their records go; `Exhausted` with the smallest exhausted node to which a chunk
    /// is unissued; else `NotReady`. (GASNet 1.8.1 extended API, gasnet_try_syncnb.)
    pub fn try_sync<F: Flags>(&mut self, exhausted: &F, thread: u16, handle: Handle) -> Synced
        ensures answer { (flag : ℕ → Bool) → F.stands exhausted.now flag → ForItsOperations self.old (λ operations.
            result ≡ handle_answer flag thread handle.serial operations) }
        ensures stands { ForItsOperations self.old (λ operations.
            Stands self.new (after_handle result handle.serial operations)) }
        ensures room { room_of self.new ≡ room_of self.old }
    {
        if handle.serial == 0 {
            return Synced::Ok;
        }
        let pick = self.members(handle.serial);
        if self.table.is_settled(pick, thread) {
            self.table.drop_picked(pick);
            return Synced::Ok;
        }
        match self.fault(thread, pick) {
            Some(fault) => fault,
            None => self.sync_picked(exhausted, pick),
        }
    }

    /// A sync of the thread's implicit operations outside regions that doesn't wait: `Ok`, `Exhausted` or `NotReady`,
    /// as with `try_sync`. (GASNet 1.8.1 extended API, gasnet_try_syncnbi_all and its like.)
    pub fn try_sync_implicit<F: Flags>(
        &mut self,
        exhausted: &F,
        thread: u16,
        which: ImplicitKinds,
    ) -> Synced
        ensures answer { (flag : ℕ → Bool) → F.stands exhausted.now flag → ForItsOperations self.old (λ operations.
            result ≡ implicit_answer flag thread which operations) }
        ensures stands { ForItsOperations self.old (λ operations.
            Stands self.new (left_by result (implicit_of thread which) operations)) }
        ensures room { room_of self.new ≡ room_of self.old }
    {
        self.sync_picked(exhausted, Pick::Implicit { thread, which })
    }
}

impl Transfers {
    /// What is wrong with a handle other than the invalid one, if anything is.
    fn fault_of(&self, thread: u16, handle: u64) -> Option<Synced>
        ensures { ForItsOperations self.now (λ operations.
            result ≡ fault_here thread (chosen (members handle operations) 1 operations)) }
    {
        self.fault(thread, self.members(handle))
    }

    /// The first fault of these handles.
    fn first_fault(&self, thread: u16, handles: &[Handle]) -> Option<Synced>
        ensures { ForItsOperations self.now (λ operations.
            result ≡ fault_of thread operations handles.now) }
    {
        for handle in handles {
            if handle.serial != 0 {
                let fault = self.fault_of(thread, handle.serial);
                if fault.is_some() {
                    return fault;
                }
            }
        }
        None
    }

    /// Marks the members of a handle; the invalid one has none.
    fn mark_handle(&self, handle: Handle, marks: &mut [bool; 256])
        ensures { (test : OperationRecord → Bool) → AreMarks test self.now.table marks.old
            → AreMarks (also test (member_of self.now.table handle)) self.now.table marks.new }
    {
        if handle.serial != 0 {
            self.mark_members(handle.serial, marks);
        }
    }

    /// Marks the members of these handles.
    fn mark_all(&self, handles: &[Handle], marks: &mut [bool; 256])
        ensures { (test : OperationRecord → Bool) → AreMarks test self.now.table marks.old
            → AreMarks (also test (member_of_any self.now.table handles.now)) self.now.table
            marks.new }
    {
        for handle in handles {
            self.mark_handle(*handle, marks);
        }
    }

    /// A sync of all of these handles that doesn't wait. The first of them that is `BadHandle` or `NotYours` decides;
    /// then it is `Ok` where all are complete or invalid, and their records go; then `Exhausted`, then `NotReady`, over
    /// all of them. Nothing changes unless it is `Ok` (profile). (GASNet 1.8.1 extended API, gasnet_try_syncnb_all.)
    pub fn try_sync_all<F: Flags>(
        &mut self,
        exhausted: &F,
        thread: u16,
        handles: &[Handle],
    ) -> Synced
        ensures answer { (flag : ℕ → Bool) → F.stands exhausted.now flag → ForItsOperations self.old (λ operations.
            result ≡ all_answer flag thread handles.now operations) }
        ensures stands { ForItsOperations self.old (λ operations.
            Stands self.new (left_by result (members_of handles.now operations) operations)) }
        ensures room { room_of self.new ≡ room_of self.old }
    {
        match self.first_fault(thread, handles) {
            Some(fault) => fault,
            None => {
                let mut marks = [false; 256];
                self.mark_all(handles, &mut marks);
                self.sync_marked(exhausted, &marks)
            }
        }
    }
}

/// Whether all of these handles are invalid.
fn all_invalid(handles: &[Handle]) -> bool
    ensures { result ≡ list_all (λ (handle : Handle). handle.serial == 0) handles.now }
{
    for handle in handles {
        if handle.serial != 0 {
            return false;
        }
    }
    true
}

impl Transfers {
    /// Whether all operations of a handle are complete; the invalid one has none.
    fn is_whole(&self, handle: Handle) -> bool
        ensures { result ≡ is_whole_in self.now.table handle }
    {
        if handle.serial == 0 {
            return false;
        }
        !self
            .table
            .any_passes(self.members(handle.serial), Check::Unfinished)
    }

    /// Whether each of the handle's operations that stand is complete: each chunk of it was issued and is back. True
    /// where it has none, false for the invalid handle; it doesn't ask whose the handle is.
    pub fn is_complete(&self, handle: Handle) -> bool
        ensures { ForItsOperations self.now (λ operations. result ≡ is_whole operations handle) }
    {
        self.is_whole(handle)
    }

    /// Whether one of these handles is complete.
    fn any_whole(&self, handles: &[Handle]) -> bool
        ensures { result ≡ list_any (is_whole_in self.now.table) handles.now }
    {
        for handle in handles {
            if self.is_whole(*handle) {
                return true;
            }
        }
        false
    }

    /// Marks the members of a handle that is complete.
    fn mark_if_whole(&self, handle: Handle, marks: &mut [bool; 256])
        ensures { (test : OperationRecord → Bool) → AreMarks test self.now.table marks.old
            → AreMarks (also test (whole_here self.now.table handle)) self.now.table marks.new }
    {
        if self.is_whole(handle) {
            self.mark_members(handle.serial, marks);
        }
    }

    /// Marks the members of those of these handles that are complete.
    fn mark_whole(&self, handles: &[Handle], marks: &mut [bool; 256])
        ensures { (test : OperationRecord → Bool) → AreMarks test self.now.table marks.old
            → AreMarks (also test (whole_in self.now.table handles.now)) self.now.table marks.new }
    {
        for handle in handles {
            self.mark_if_whole(*handle, marks);
        }
    }

    /// A sync of those of these handles that are complete, where none has a fault.
    fn sync_some<F: Flags>(&mut self, exhausted: &F, handles: &[Handle]) -> Synced
        ensures answer { (flag : ℕ → Bool) → F.stands exhausted.now flag → ForItsOperations self.old (λ operations.
            result ≡ some_here flag handles.now operations) }
        ensures stands { ForItsOperations self.old (λ operations.
            Stands self.new (left_by result (whole_of handles.now operations) operations)) }
        ensures room { room_of self.new ≡ room_of self.old }
    {
        let mut marks = [false; 256];
        if either(all_invalid(handles), self.any_whole(handles)) {
            self.mark_whole(handles, &mut marks);
            self.table.drop_marked(&marks);
            return Synced::Ok;
        }
        self.mark_all(handles, &mut marks);
        match self.table.smallest_marked(&marks, exhausted) {
            Some(node) => Synced::Exhausted(node),
            None => Synced::NotReady,
        }
    }

    /// A sync of some of these handles that doesn't wait: as `try_sync_all`, but `Ok` where all are invalid or at least
    /// one is complete, and the records of those that are complete go. (GASNet 1.8.1 extended API,
    /// gasnet_try_syncnb_some.)
    pub fn try_sync_some<F: Flags>(
        &mut self,
        exhausted: &F,
        thread: u16,
        handles: &[Handle],
    ) -> Synced
        ensures answer { (flag : ℕ → Bool) → F.stands exhausted.now flag → ForItsOperations self.old (λ operations.
            result ≡ some_answer flag thread handles.now operations) }
        ensures stands { ForItsOperations self.old (λ operations.
            Stands self.new (left_by result (whole_of handles.now operations) operations)) }
        ensures room { room_of self.new ≡ room_of self.old }
    {
        match self.first_fault(thread, handles) {
            Some(fault) => fault,
            None => self.sync_some(exhausted, handles),
        }
    }
}
