//! What an endpoint keeps of the extended API.

ghost use Rattle.std.specs.Prelude.{◌≡◌, ◌≢◌, ◌<◌, ◌≤◌, ℕ, true, [], None, IfOk, length, replicate};
ghost use Rattle.wire_message.specs.Parameters.{credits_of, AreInRange};
ghost use Rattle.part_barrier.specs.Record.{opened_record};
ghost use Rattle.part_barrier.specs.Stands.{BarrierStands};
ghost use Rattle.part_transfers.specs.Stands.{room_of};
ghost use Rattle.part_transfers.specs.Stands.{Stands as TransfersStand, HasOperations};
ghost use Rattle.spec_node.specs.Step.{is_exhausted};
ghost use Rattle.node_rules.specs.BarrierCalls.{has_ranges};
ghost use Rattle.node_rules.specs.EndpointLocal.{invalid};
ghost use Rattle.node_endpoint.specs.EndpointState.{ForItsRecord};
ghost use Rattle.node_endpoint.specs.Parts.{IsWhole, Hears, endpoint_of};

use node_core::{Core, Delivered};
use part_barrier::Barrier;
use part_transfers::{Handle, Regions, Transfers};
use std::alloc::{AllocError, Global};
use wire_message::{BarrierNotification, Settings};

/// What an endpoint keeps beside its core: the operations of its node, the access regions that its threads have begun,
/// 256 registers of handles, and its barrier.
#[derive(Drop)]
pub struct Extended {
    pub(crate) nodes: u16,
    pub(crate) me: u16,
    pub(crate) transfers: Transfers,
    pub(crate) regions: Regions,
    pub(crate) registers: [Handle; 256],
    pub(crate) barrier: Barrier,
}

/// The greatest number of credits that a node has towards another one.
fn most_credits(settings: &Settings, me: u16) -> u16
    ensures { (to : ℕ) → to < settings.now.nodes → to ≢ me
        → credits_of settings.now me to ≤ result }
{
    let mut most = 0;
    for to in 0..settings.nodes() {
        if to != me {
            most = most.max(settings.credits(me, to));
        }
    }
    most
}

/// A notification of these parts: its numbers have their ranges.
fn notification_of(phase: u64, mask: [u64; 4], id: i32, flags: u8) -> BarrierNotification
    ensures is { result ≡ record { phase = phase; mask = mask; id = id; flags = flags } }
    ensures ranged { has_ranges result ≡ true }
{
    BarrierNotification {
        phase,
        mask,
        id,
        flags,
    }
}

impl Extended {
    /// No operation and no region has begun, each register has the invalid handle, and the barrier is in phase 0.
    pub(crate) fn new(alloc: Global, settings: &Settings, me: u16) -> Result<Extended, AllocError>
        requires { me < settings.now.nodes }
        ensures nodes { IfOk result (λ extended. extended.nodes ≡ settings.now.nodes) }
        ensures me_is { IfOk result (λ extended. extended.me ≡ me) }
        ensures transfers { IfOk result (λ extended. TransfersStand extended.transfers []) }
        ensures room_nodes { IfOk result (λ extended.
            (room_of extended.transfers).nodes ≡ settings.now.nodes) }
        ensures room { IfOk result (λ extended. (to : ℕ) → to < settings.now.nodes → to ≢ me
            → credits_of settings.now me to ≤ (room_of extended.transfers).credits) }
        ensures regions { IfOk result (λ extended.
            extended.regions ≡ replicate settings.now.threads None) }
        ensures registers { IfOk result (λ extended. extended.registers ≡ replicate 256 invalid) }
        ensures barrier { IfOk result (λ extended.
            BarrierStands settings.now.nodes me extended.barrier opened_record) }
        ensures barrier_nodes { IfOk result (λ extended.
            extended.barrier.nodes ≡ settings.now.nodes) }
        ensures range { AreInRange settings.now }
    {
        let nodes = settings.nodes();
        let barrier = Barrier::new(nodes, me)?;
        let regions = Regions::new(alloc, settings.threads())?;
        let transfers = Transfers::new(alloc, nodes, most_credits(settings, me))?;
        Ok(Extended {
            nodes,
            me,
            transfers,
            regions,
            registers: [Handle { serial: 0 }; 256],
            barrier,
        })
    }

    /// Whether no number is left for requests to a node; there are always some for the local one, which takes none.
    pub(crate) fn has_exhausted(&self, core: &Core, node: u16) -> bool
        requires whole { IsWhole core.now self.now }
        requires there { node < core.now.settings.nodes }
        ensures { ForItsRecord (endpoint_of core.now self.now) (λ record_.
            result ≡ is_exhausted core.now.settings record_ node) }
    {
        if node == self.me {
            return false;
        }
        core.exhausted(node)
    }

    /// Tells the transfers and the barrier what a delivery was answered.
    pub(crate) fn hear(&mut self, answer: &Delivered)
        requires { HasOperations self.old.transfers }
        ensures { Hears self.old answer.now self.new }
    {
        match answer {
            Delivered::Returned { to, slot, number } => {
                self.transfers.back(*to, *slot, *number);
            }
            Delivered::Notified(_, notification) => {
                let notification = notification_of(
                    notification.phase,
                    notification.mask,
                    notification.id,
                    notification.flags,
                );
                self.barrier.heard(&notification);
            }
            _ => {}
        }
    }
}
