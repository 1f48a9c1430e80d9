//! The calls on the barrier, and the notification that goes next.

ghost use Rattle.std.specs.Prelude.{◌≡◌, ◌<◌, ◌≤◌, ℕ, Some, IfSome};
ghost use Rattle.part_handlers.specs.Runs.{Meaning};
ghost use Rattle.spec_node.specs.Step.{can_ask};
ghost use Rattle.spec_node.specs.NodeStep.{site_of};
ghost use Rattle.part_barrier.specs.BarrierState.{notification_at};
ghost use Rattle.node_rules.specs.BarrierCalls.{Notify, TryBarrier, barrier_does, exhausted_for};
ghost use Rattle.node_rules.specs.EndpointRules.{with_barrier, next_notification};
ghost use Rattle.node_endpoint.specs.EndpointState.{ForItsRecord, job_here};
ghost use Rattle.node_endpoint.specs.Parts.{IsWhole, PartDoes, endpoint_of, caller_in, found_notification};

use crate::extended::Extended;
use node_core::Core;
use node_rules::Answer;
use wire_message::BarrierNotification;

impl Extended {
    /// Notifies the present phase.
    pub(crate) fn notify(&mut self, core: &Core, id: i32, flags: u8) -> Answer
        requires { IsWhole core.now self.old }
        ensures { (thread : ℕ) → PartDoes (record { core = core.now; extended = self.old }) thread
            (λ caller local. with_barrier local
            (barrier_does caller (Notify id flags) local.barrier))
            result (record { core = core.now; extended = self.new }) }
    {
        Answer::Notified(self.barrier.notify(id, flags))
    }

    /// Tries the present phase.
    pub(crate) fn try_barrier(&mut self, core: &Core, id: i32, flags: u8) -> Answer
        requires { IsWhole core.now self.old }
        ensures { (thread : ℕ) → PartDoes (record { core = core.now; extended = self.old }) thread
            (λ caller local. with_barrier local
            (barrier_does caller (TryBarrier id flags) local.barrier))
            result (record { core = core.now; extended = self.new }) }
    {
        let exhausted = self.first_exhausted(core);
        Answer::Barrier(self.barrier.try_wait(id, flags, exhausted))
    }

    /// The least node to which a notification of the present phase must go, and for which no number is left.
    fn first_exhausted(&self, core: &Core) -> Option<u16>
        requires { IsWhole core.now self.now }
        ensures { (thread : ℕ) → ForItsRecord (endpoint_of core.now self.now) (λ node.
            result ≡ exhausted_for (caller_in core.now node thread) node.local.barrier) }
    {
        for node in 0..self.nodes {
            if self.has_exhausted(core, node) && self.barrier.owes(node) {
                return Some(node);
            }
        }
        None
    }

    /// The notification that is due to the least node that can be asked, with that node.
    pub(crate) fn next_notification(&self, core: &Core) -> Option<(u16, BarrierNotification)>
        requires { IsWhole core.now self.now }
        ensures next { (meaning : Meaning) → ForItsRecord (endpoint_of core.now self.now) (λ node.
            found_notification result ≡ next_notification core.now.settings core.now.me
            (can_ask (site_of (job_here meaning (endpoint_of core.now self.now)) core.now.me) node)
            node.local.barrier) }
        ensures due { IfSome result (λ found. notification_at self.now.barrier found.0 ≡ Some found.1) }
        ensures there { IfSome result (λ found. found.0 < core.now.settings.nodes) }
    {
        if self.barrier.has_notified_nothing() {
            return None;
        }
        for to in self.barrier.first_owed()..self.nodes {
            if let Some(notification) = self.barrier.notification_to(to) {
                if core.can_ask(to) {
                    return Some((to, notification));
                }
            }
        }
        None
    }
}
