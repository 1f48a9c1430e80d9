//! Synchronisation, access regions and registers.

ghost use Rattle.std.specs.Prelude.{◌≡◌, ◌<◌, ◌≤◌, ℕ, List, map, take, length};
ghost use Rattle.part_transfers.specs.Operation.{Operation};
ghost use Rattle.part_transfers.specs.Stands.{Stands as TransfersStand};
ghost use Rattle.part_transfers.specs.Syncs.{issued_answer, handle_answer, after_handle};
ghost use Rattle.node_core.specs.CoreState.{CoreState};
ghost use Rattle.node_rules.specs.TransferCalls.{handle_in, with_invalid, whole_registers, transfer_does};
ghost use Rattle.node_rules.specs.TransferCalls.{SyncHandle, SyncAll, SyncSome, SyncImplicit};
ghost use Rattle.node_rules.specs.TransferCalls.{RegionBegin, RegionEnd};
ghost use Rattle.node_endpoint.specs.Parts.{IsWhole, PartDoes};

use crate::extended::Extended;
use crate::flags::Exhausted;
use arrayvec::ArrayVec;
use node_core::Core;
use node_rules::{Answer, Region};
use part_transfers::{Handle, ImplicitKinds, Synced};

/// The handles in these registers, in the first places.
fn handles_in(registers: &[Handle; 256], regs: &[u8]) -> [Handle; 256]
    requires { length regs.now ≤ 256 }
    ensures { take (length regs.now) result ≡ map (handle_in registers.now) regs.now }
{
    let mut handles = [Handle { serial: 0 }; 256];
    for (place, reg) in regs.iter().enumerate() {
        handles[place] = registers[*reg as usize];
    }
    handles
}

/// These registers become invalid.
fn empty(registers: &mut [Handle; 256], regs: &[u8])
    ensures { registers.new ≡ with_invalid regs.now registers.old }
{
    for reg in regs {
        registers[*reg as usize] = Handle { serial: 0 };
    }
}

impl Extended {
    /// The handle in a register.
    pub(crate) fn register(&self, reg: u8) -> Handle
        ensures { result ≡ handle_in self.now.registers reg }
    {
        self.registers[reg as usize]
    }

    /// Those of these registers whose operations are complete.
    fn whole_registers(&self, regs: &[u8]) -> ArrayVec<u8, 256>
        requires { length regs.now ≤ 256 }
        ensures { (operations : List Operation) → TransfersStand self.now.transfers operations
            → result.items ≡ whole_registers operations self.now.registers regs.now }
    {
        let mut whole = ArrayVec::new();
        for reg in regs {
            if self.transfers.is_complete(self.register(*reg)) {
                whole.push(*reg);
            }
        }
        whole
    }

    /// Tries to synchronise the operations of a handle.
    pub(crate) fn sync(&mut self, core: &Core, thread: u16, handle: Handle) -> Answer
        requires { IsWhole core.now self.old }
        ensures { PartDoes (record { core = core.now; extended = self.old }) thread
            (λ caller local. transfer_does caller (SyncHandle handle) local) result
            (record { core = core.now; extended = self.new }) }
    {
        Answer::Synced(self.transfers.try_sync(&Exhausted { core }, thread, handle))
    }

    /// Tries to synchronise the operations of all of these registers.
    pub(crate) fn sync_all(&mut self, core: &Core, thread: u16, regs: &[u8]) -> Answer
        requires whole { IsWhole core.now self.old }
        requires few { length regs.now ≤ 256 }
        ensures { PartDoes (record { core = core.now; extended = self.old }) thread
            (λ caller local. transfer_does caller (SyncAll regs.now) local) result
            (record { core = core.now; extended = self.new }) }
    {
        let handles = handles_in(&self.registers, regs);
        let says = self
            .transfers
            .try_sync_all(&Exhausted { core }, thread, &handles[..regs.len()]);
        if let Synced::Ok = says {
            empty(&mut self.registers, regs);
        }
        Answer::Synced(says)
    }

    /// Tries to synchronise the operations of some of these registers.
    pub(crate) fn sync_some(&mut self, core: &Core, thread: u16, regs: &[u8]) -> Answer
        requires whole { IsWhole core.now self.old }
        requires few { length regs.now ≤ 256 }
        ensures { PartDoes (record { core = core.now; extended = self.old }) thread
            (λ caller local. transfer_does caller (SyncSome regs.now) local) result
            (record { core = core.now; extended = self.new }) }
    {
        let handles = handles_in(&self.registers, regs);
        let whole = self.whole_registers(regs);
        let says = self
            .transfers
            .try_sync_some(&Exhausted { core }, thread, &handles[..regs.len()]);
        if let Synced::Ok = says {
            empty(&mut self.registers, whole.as_slice());
        }
        Answer::Synced(says)
    }

    /// Tries to synchronise a thread's implicit operations.
    pub(crate) fn sync_implicit(&mut self, core: &Core, thread: u16, which: ImplicitKinds) -> Answer
        requires whole { IsWhole core.now self.old }
        requires thread { thread < core.now.settings.threads }
        ensures { PartDoes (record { core = core.now; extended = self.old }) thread
            (λ caller local. transfer_does caller (SyncImplicit which) local) result
            (record { core = core.now; extended = self.new }) }
    {
        if self.regions.is_begun(thread) {
            return Answer::Region(Region::InRegion);
        }
        Answer::Synced(
            self.transfers
                .try_sync_implicit(&Exhausted { core }, thread, which),
        )
    }

    /// A thread begins a region.
    pub(crate) fn begin_region(&mut self, core: &Core, thread: u16) -> Answer
        requires whole { IsWhole core.now self.old }
        requires thread { thread < core.now.settings.threads }
        ensures { PartDoes (record { core = core.now; extended = self.old }) thread
            (λ caller local. transfer_does caller RegionBegin local) result
            (record { core = core.now; extended = self.new }) }
    {
        match self.regions.begin(thread) {
            Ok(()) => Answer::Region(Region::Begun),
            Err(_) => Answer::Region(Region::Nested),
        }
    }

    /// It ends its region; the register gets the region's handle.
    pub(crate) fn end_region(&mut self, core: &Core, thread: u16, reg: u8) -> Answer
        requires whole { IsWhole core.now self.old }
        requires thread { thread < core.now.settings.threads }
        ensures { PartDoes (record { core = core.now; extended = self.old }) thread
            (λ caller local. transfer_does caller (RegionEnd reg) local) result
            (record { core = core.now; extended = self.new }) }
    {
        let Ok(name) = self.regions.end(thread) else {
            return Answer::Region(Region::NoRegion);
        };
        let handle = Handle {
            serial: name.unwrap_or(0),
        };
        self.registers[reg as usize] = handle;
        match name {
            Some(_) => Answer::Region(Region::Handle(handle)),
            None => Answer::Region(Region::Done),
        }
    }
}
