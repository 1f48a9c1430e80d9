//! What a tick sends of the node's own accord.

ghost use Rattle.std.specs.Prelude.{◌≡◌, ◌≢◌, ◌<◌, ◌≤◌, ℕ, Bool, true, Some, None, IfSome};
ghost use Rattle.wire_message.specs.Parameters.{Parameters, AreInRange};
ghost use Rattle.part_handlers.specs.Runs.{Meaning};
ghost use Rattle.spec_node.specs.Step.{can_ask};
ghost use Rattle.spec_node.specs.NodeStep.{site_of};
ghost use Rattle.part_barrier.specs.BarrierState.{notification_at};
ghost use Rattle.part_transfers.specs.Operation.{next_chunk, target};
ghost use Rattle.part_transfers.specs.Stands.{CanMarkSent};
ghost use Rattle.node_core.specs.AskedFor.{work_of};
ghost use Rattle.node_core.specs.Library.{Notification, WorkFits};
ghost use Rattle.node_rules.specs.EndpointRules.{chunk_work};
ghost use Rattle.node_endpoint.specs.EndpointState.{ForItsRecord, job_here};
ghost use Rattle.node_endpoint.specs.Parts.{IsWhole, CanSend, PartSends, endpoint_of};

use crate::extended::Extended;
use crate::flags::Askable;
use node_core::{Asked, Core, LibraryRequest, SlotRef};
use node_rules::Ticked;
use part_transfers::{Next, Transfer};
use wire_message::BarrierNotification;

/// What a chunk asks of its target.
fn chunk_work(next: &Next) -> LibraryRequest
    requires { (settings : Parameters) × AreInRange settings
        × WorkFits settings (chunk_work next.now) }
    ensures { work_of result ≡ chunk_work next.now }
{
    let start = next.start;
    let len = next.len;
    match next.transfer {
        Transfer::Put { remote, local, .. } => LibraryRequest::Put {
            local: local + start,
            remote: remote + start,
            len,
        },
        Transfer::Get { remote, local, .. } => LibraryRequest::Get {
            local: local + start,
            remote: remote + start,
            len,
        },
        Transfer::Memset { remote, byte, .. } => LibraryRequest::Memset {
            remote: remote + start,
            len,
            byte,
        },
    }
}

impl Extended {
    /// The next chunk of the oldest operation whose target can be asked.
    pub(crate) fn next_chunk(&self, core: &Core) -> Option<Next>
        requires { IsWhole core.now self.now }
        ensures next { (meaning : Meaning) → ForItsRecord (endpoint_of core.now self.now) (λ node.
            result ≡ next_chunk
            (can_ask (site_of (job_here meaning (endpoint_of core.now self.now)) core.now.me) node)
            1 node.local.operations) }
        ensures can_mark_sent { IfSome result (λ next. CanMarkSent self.now.transfers next.number) }
    {
        if self.transfers.is_idle() {
            return None;
        }
        self.transfers.next(&Askable { core })
    }

    /// Sends a notification of the barrier to a node that can be asked.
    pub(crate) fn send_notification(
        &mut self,
        core: &mut Core,
        now: u64,
        to: u16,
        notification: &BarrierNotification,
    ) -> Ticked
        requires whole { IsWhole core.old self.old }
        requires can { CanSend core.old self.old to (Notification notification.now) }
        requires due { notification_at self.old.barrier to ≡ Some notification.now }
        ensures { PartSends (record { core = core.old; extended = self.old })
            (record { now = now; to = to; work = Notification notification.now }) result
            (record { core = core.new; extended = self.new }) }
    {
        let Asked::Accepted { slot, .. } = core.ask(
            now,
            to,
            &LibraryRequest::Notification(*notification),
        ) else {
            unreachable!()
        };
        self.barrier.sent(to);
        Ticked::Notification(SlotRef::of_request(to, slot))
    }

    /// Sends a chunk to a node that can be asked.
    pub(crate) fn send_chunk(&mut self, core: &mut Core, now: u64, next: &Next) -> Ticked
        requires whole { IsWhole core.old self.old }
        requires can { CanSend core.old self.old (target next.now.transfer) (chunk_work next.now) }
        requires can_mark_sent { CanMarkSent self.old.transfers next.now.number }
        requires next { (meaning : Meaning) → ForItsRecord (endpoint_of core.old self.old) (λ node.
            next_chunk
            (can_ask (site_of (job_here meaning (endpoint_of core.old self.old)) core.old.me) node)
            1 node.local.operations ≡ Some next.now) }
        ensures { PartSends (record { core = core.old; extended = self.old })
            (record { now = now; to = target next.now.transfer; work = chunk_work next.now }) result
            (record { core = core.new; extended = self.new }) }
    {
        let to = next.transfer.target();
        let Asked::Accepted { slot, number, .. } = core.ask(now, to, &chunk_work(next)) else {
            unreachable!()
        };
        self.transfers.mark_sent(next, slot, number);
        Ticked::Chunk(SlotRef::of_request(to, slot))
    }
}
