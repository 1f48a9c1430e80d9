//! The beginnings of transfers.

ghost use Rattle.std.specs.Prelude.{◌≡◌, ◌<◌, ◌≤◌, ℕ, Option, Some, None, [], ◌∷◌, length, not, nat_lt, ◌||◌};
ghost use Rattle.wire_message.specs.Parameters.{Parameters};
ghost use Rattle.part_segment.specs.Image.{written_by};
ghost use Rattle.part_transfers.specs.declared.operation.Mode.TheVariants.{Explicit};
ghost use Rattle.node_rules.specs.EndpointLocal.{own_end, remote_end, has_byte};
ghost use Rattle.node_rules.specs.TransferCalls.{Begin, BeginImplicit, transfer_fault, transfer_does, own_write};
ghost use Rattle.node_rules.specs.TransferCalls.{with_name};
ghost use Rattle.node_endpoint.specs.Parts.{IsWhole, PartDoes, PartBegins};

use crate::extended::Extended;
use node_core::Core;
use node_rules::{Answer, Begun};
use part_handlers::Which;
use part_segment::Segment;
use part_transfers::{Handle, Mode, Regions, Transfer};

/// Whether a transfer's range of the local segment lies inside it.
fn own_fits(segment: &Segment, transfer: &Transfer) -> bool
    ensures { result ≡ not (nat_lt (length segment.now) (own_end transfer.now)) }
{
    match *transfer {
        Transfer::Put { local, len, .. } | Transfer::Get { local, len, .. } => {
            segment.contains(local, len)
        }
        Transfer::Memset { .. } => true,
    }
}

/// Whether its range of the target's segment, which is as long, lies inside that.
fn remote_fits(segment: &Segment, transfer: &Transfer) -> bool
    ensures { result ≡ not (nat_lt (length segment.now) (remote_end transfer.now)
        || not (has_byte transfer.now)) }
{
    match *transfer {
        Transfer::Put { remote, len, .. } | Transfer::Get { remote, len, .. } => {
            segment.contains(remote, len)
        }
        // That a byte is below 256 is for the proof: the record's transfer has a number.
        Transfer::Memset {
            remote,
            len,
            byte,
            ..
        } => u32::from(byte) < 256 && segment.contains(remote, len),
    }
}

/// The first part of a transfer that is bad, among so many nodes.
fn transfer_fault(nodes: u16, segment: &Segment, transfer: &Transfer) -> Option<Which>
    ensures { (settings : Parameters) → settings.nodes ≡ nodes
        → settings.segment ≡ length segment.now → result ≡ transfer_fault settings transfer.now }
{
    if transfer.target() >= nodes {
        return Some(Which::Node);
    }
    if !own_fits(segment, transfer) {
        return Some(Which::Source);
    }
    if !remote_fits(segment, transfer) {
        return Some(Which::Offset);
    }
    None
}

/// Does a transfer of the node to itself.
fn write_here(segment: &mut Segment, transfer: &Transfer)
    requires own { own_end transfer.now ≤ length segment.old }
    requires remote { remote_end transfer.now ≤ length segment.old }
    ensures { segment.new ≡ written_by segment.old (own_write segment.old transfer.now ∷ []) }
{
    let _done = match *transfer {
        Transfer::Put {
            remote,
            local,
            len,
            ..
        } => segment.copy_within(local, remote, len),
        Transfer::Get {
            remote,
            local,
            len,
            ..
        } => segment.copy_within(remote, local, len),
        Transfer::Memset {
            remote,
            len,
            byte,
            ..
        } => segment.fill(remote, len, byte),
    };
}

/// The region that the thread has begun gets the number of the operation as its name, where it is empty.
fn name_region(regions: &mut Regions, thread: u16, says: Begun)
    requires { thread < length regions.old }
    ensures { regions.new ≡ with_name thread says regions.old }
{
    if let Begun::Handle(handle) = says {
        regions.add(thread, handle.serial);
    }
}

impl Extended {
    /// Begins a transfer, or does it at once.
    fn begun(&mut self, core: &mut Core, thread: u16, transfer: &Transfer, mode: Mode) -> Begun
        requires { IsWhole core.old self.old }
        ensures { PartBegins (record { core = core.old; extended = self.old })
            (record { thread = thread; transfer = transfer.now; mode = mode }) result
            (record { core = core.new; extended = self.new }) }
    {
        if let Some(part) = transfer_fault(self.nodes, core.segment(), transfer) {
            return Begun::BadArg(part);
        }
        if transfer.size() == 0 {
            return Begun::Done;
        }
        if transfer.target() == self.me {
            write_here(core.segment_mut(), transfer);
            return Begun::Done;
        }
        match self.transfers.begin(thread, *transfer, mode) {
            Ok(handle) => Begun::Handle(handle),
            Err(_) => Begun::TooMany,
        }
    }

    /// Begins an explicit transfer; the register gets its handle.
    pub(crate) fn begin(
        &mut self,
        core: &mut Core,
        thread: u16,
        reg: Option<u8>,
        transfer: &Transfer,
    ) -> Answer
        requires { IsWhole core.old self.old }
        ensures { PartDoes (record { core = core.old; extended = self.old }) thread
            (λ caller local. transfer_does caller (Begin reg transfer.now) local) result
            (record { core = core.new; extended = self.new }) }
    {
        let says = self.begun(core, thread, transfer, Mode::Explicit);
        if let Some(reg) = reg {
            match says {
                Begun::Handle(handle) => self.registers[reg as usize] = handle,
                Begun::Done => self.registers[reg as usize] = Handle { serial: 0 },
                _ => {}
            }
        }
        Answer::Begun(says)
    }

    /// Begins an implicit transfer, in the region that the thread has begun, if any.
    pub(crate) fn begin_implicit(
        &mut self,
        core: &mut Core,
        thread: u16,
        transfer: &Transfer,
    ) -> Answer
        requires whole { IsWhole core.old self.old }
        requires thread { thread < core.old.settings.threads }
        ensures { PartDoes (record { core = core.old; extended = self.old }) thread
            (λ caller local. transfer_does caller (BeginImplicit transfer.now) local) result
            (record { core = core.new; extended = self.new }) }
    {
        let mode = if self.regions.is_begun(thread) {
            Mode::InRegion(self.regions.name(thread))
        } else {
            Mode::Implicit
        };
        let says = self.begun(core, thread, transfer, mode);
        name_region(&mut self.regions, thread, says);
        Answer::Started(says)
    }
}
