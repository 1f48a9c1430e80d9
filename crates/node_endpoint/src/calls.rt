//! The calls of threads that the rule table judges and that make no request.

ghost use Rattle.std.specs.Prelude.{◌≡◌, ◌<◌, ◌≤◌, ◌≢◌, Some, None};
ghost use Rattle.node_rules.specs.Called.{meant};
ghost use Rattle.node_endpoint.specs.EndpointState.{MayBeCalled};
ghost use Rattle.node_endpoint.specs.Parts.{IsWhole, PartDoes, judged_kind, allowed_does};

use crate::extended::Extended;
use node_core::Core;
use node_rules::{Answer, Call};
use part_handlers::CallKind;

/// As which kind of call the rule table judges a call that makes no request; None where it doesn't.
pub fn judged_kind(call: &Call<'_>) -> Option<CallKind>
    ensures { result ≡ judged_kind (meant call.now) }
{
    match call {
        Call::Poll => Some(CallKind::Poll),
        Call::Attempt { call } => Some(*call),
        Call::Begin { .. } | Call::BeginImplicit { .. } => Some(CallKind::Transfer),
        Call::IsIssued { .. } | Call::Sync { .. } | Call::SyncHandle { .. } => Some(CallKind::Sync),
        Call::SyncAll { .. } | Call::SyncSome { .. } | Call::SyncImplicit { .. } => {
            Some(CallKind::Sync)
        }
        Call::RegionBegin | Call::RegionEnd { .. } => Some(CallKind::Region),
        Call::Notify { .. } | Call::TryBarrier { .. } => Some(CallKind::Barrier),
        Call::Lock { .. } | Call::Unlock { .. } | Call::Cell { .. } | Call::SetCell { .. } => None,
        Call::Show { .. } | Call::Set { .. } | Call::Fill { .. } => None,
        Call::LoadWord { .. } | Call::SetWord { .. } => None,
        Call::Short { .. } | Call::Medium { .. } | Call::Long { .. } | Call::LongAsync { .. } =>
            None,
    }
}

impl Extended {
    /// Such a call, which the rule table allows.
    pub(crate) fn allowed(&mut self, core: &mut Core, thread: u16, call: &Call<'_>) -> Answer
        requires whole { IsWhole core.old self.old }
        requires may { MayBeCalled core.old.settings thread call.now }
        requires judged { judged_kind (meant call.now) ≢ None }
        ensures { PartDoes (record { core = core.old; extended = self.old }) thread
            (allowed_does (meant call.now)) result
            (record { core = core.new; extended = self.new }) }
    {
        match *call {
            Call::Poll => Answer::Polled,
            Call::Attempt { .. } => Answer::Allowed,
            Call::Begin { reg, transfer } => self.begin(core, thread, reg, &transfer),
            Call::BeginImplicit { transfer } => self.begin_implicit(core, thread, &transfer),
            Call::IsIssued { reg } => Answer::Issued(self.transfers.issued(self.register(reg))),
            Call::Sync { reg } => self.sync(core, thread, self.register(reg)),
            Call::SyncHandle { handle } => self.sync(core, thread, handle),
            Call::SyncAll { regs } => self.sync_all(core, thread, regs),
            Call::SyncSome { regs } => self.sync_some(core, thread, regs),
            Call::SyncImplicit { which } => self.sync_implicit(core, thread, which),
            Call::RegionBegin => self.begin_region(core, thread),
            Call::RegionEnd { reg } => self.end_region(core, thread, reg),
            Call::Notify { id, flags } => self.notify(core, id, flags),
            Call::TryBarrier { id, flags } => self.try_barrier(core, id, flags),
            _ => unreachable!(),
        }
    }
}
