//! A world of endpoints whose nodes run collectives.

ghost use Rattle.std.specs.Prelude.{◌≡◌, ◌<◌, [], length, IfOk};
ghost use Rattle.node_rules.specs.EndpointRules.{timed_event, transition};
ghost use Rattle.spec_network.specs.World.{IsAmong};
ghost use Rattle.sim_world.specs.Aims.{MayFall};
ghost use Rattle.sim_world.specs.Events.{StepsInWorld, event_of};
ghost use Rattle.part_collective_area.specs.Area.{IsArea};
ghost use Rattle.part_collective_area.specs.Served.{HasCollectives, ServesCollectives};
ghost use Rattle.law_collectives.specs.Groups.{opening_group};
ghost use Rattle.sim_group.specs.GroupState.{AreAt};
ghost use Rattle.sim_group.specs.Standing.{IsOf};
ghost use Rattle.sim_group.specs.Histories.{GrowsBeside, IsHistory, RunsHaveCollectives};
ghost use Rattle.part_handlers.specs.Runs.{Meaning};
ghost use Rattle.sim_group.specs.Opening.{AreIdle};

use crate::world_nodes::WorldNodes;
use node_collectives::Collectives;
use part_handlers::{Handlers, Table};
use sim_world::{World, WorldAnswer, WorldEvent};
use std::alloc::{AllocError, Global};
use std::marker::Model;
use wire_message::Settings;

/// A world of endpoints, and how far each of its nodes is with its collectives.
#[derive(Drop)]
pub struct Group {
    /// Its nodes.
    pub(crate) nodes: WorldNodes,
}

impl Model for Group {
    ghost use Rattle.sim_group.specs.GroupState.{GroupState, IsGroup, group_in};

    ghost Value = { GroupState };

    ghost view = { λ it. group_in it.nodes };

    ghost invariant = { λ it. IsGroup it.nodes.world it.nodes.collectives.items };
}

impl Group {
    /// A world in which nothing happened, whose nodes have started no collective. In each segment their area begins at
    /// `base`, and each part has room for `room` bytes of data.
    ///
    /// There is such an area, as `Collectives::new` has it, and the table has the handler of collectives. Want of
    /// memory is its one error. In each run from here, by any lawful handlers that serve collectives, a try to end a
    /// phase tells what the law of results says.
    pub fn new(
        alloc: Global,
        settings: &Settings,
        table: &Table,
        base: u64,
        room: u64,
    ) -> Result<Group, AllocError>
        requires area { IsArea settings.now.segment
            (record { nodes = settings.now.nodes; base = base; room = room }) }
        requires registered { HasCollectives table.now }
        ensures settings { IfOk result (λ it. it.world.settings ≡ settings.now) }
        ensures table { IfOk result (λ it. it.world.table ≡ table.now) }
        ensures opened { IfOk result (λ it. IsOf it
            (record { nodes = settings.now.nodes; base = base; room = room }) (opening_group settings.now)) }
        ensures history { IfOk result (λ it. (meaning : Meaning) → ServesCollectives meaning
            → IsHistory meaning it (record {
              area = record { nodes = settings.now.nodes; base = base; room = room };
              events = [];
            })) }
        ensures laws { IfOk result (λ it. RunsHaveCollectives it
            (record { nodes = settings.now.nodes; base = base; room = room })) }
    {
        let collectives = idle_nodes(alloc, settings, base, room)?;
        let world = World::new(alloc, settings, table)?;
        let nodes = WorldNodes { world, collectives };
        Ok(Group { nodes })
    }

    /// One event of the world at the time `now`, answered as `World::step` does. It leaves the collectives as they are.
    ///
    /// The node on which a call or a tick falls, and both nodes of a delivery, are there; so is the thread of a call,
    /// and a list of registers has at most 256. A history goes on by it where it writes nothing into an area but what
    /// the messages of collectives bring, and asks nobody for their handler (`IsGroupEvent`).
    pub fn event<H: Handlers>(
        &mut self,
        handlers: &H,
        now: u64,
        event: &WorldEvent<'_>,
    ) -> WorldAnswer
        requires among { IsAmong self.old.world.settings (event_of event.now) }
        requires called { MayFall self.old.world.settings event.now }
        ensures settings { self.new.world.settings ≡ self.old.world.settings }
        ensures table { self.new.world.table ≡ self.old.world.table }
        ensures steps { StepsInWorld (H.meaning handlers.now) self.old.world
            (transition now (event_of event.now) result) self.new.world }
        ensures same { self.new.nodes ≡ self.old.nodes }
        ensures history { GrowsBeside (H.meaning handlers.now) self.old (timed_event now (event_of event.now))
            result self.new }
    {
        self.nodes.world.step(handlers, now, event)
    }

    /// Its world.
    pub fn world(&self) -> &World
        ensures { result.now ≡ self.now.world }
    {
        &self.nodes.world
    }

    /// Its world, without the collectives.
    pub fn into_world(self) -> World
        ensures { result ≡ self.world }
    {
        self.nodes.world
    }
}

/// The collectives of each node of a job, none of which has started one. Want of memory is the one error.
pub fn idle_nodes(
    alloc: Global,
    settings: &Settings,
    base: u64,
    room: u64,
) -> Result<Vec<Collectives>, AllocError>
    requires { IsArea settings.now.segment
        (record { nodes = settings.now.nodes; base = base; room = room }) }
    ensures count { IfOk result (λ nodes. length nodes.items ≡ settings.now.nodes) }
    ensures at { IfOk result (λ nodes. AreAt settings.now nodes.items) }
    ensures idle { IfOk result (λ nodes.
        AreIdle (record { nodes = settings.now.nodes; base = base; room = room }) nodes.items) }
{
    let mut nodes = Vec::with_capacity(alloc, usize::from(settings.nodes()))?;
    for node in 0..settings.nodes() {
        let Some(one) = Collectives::new(settings, node, base, room) else {
            unreachable!();
        };
        nodes.push(one)?;
    }
    Ok(nodes)
}
