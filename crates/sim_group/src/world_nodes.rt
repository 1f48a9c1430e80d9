//! The nodes of a world, and the collectives of each.

ghost use Rattle.std.specs.Prelude.{◌≡◌, ◌<◌};
ghost use Rattle.law_collectives.specs.Groups.{End, OfEnd, Start, Step};
ghost use Rattle.sim_group.specs.GroupState.{IsGroup, group_in};
ghost use Rattle.sim_group.specs.Standing.{Does, DoesStart, DoesStep};

use node_collectives::{Collectives, EndAnswer, StartAnswer, StepAnswer};
use part_collective_area::Shape;
use part_handlers::Handlers;
use sim_world::{AtNode, World};

/// The nodes of a world, and how far each is with its collectives.
///
/// Its calls ask that there are collectives for each node, of a job with the world's settings (`IsGroup`). They are the
/// events of the groups of the laws, of each group for which it stands (`specs/Standing.antt`).
#[derive(Drop)]
pub struct WorldNodes {
    /// Their world.
    pub world: World,
    /// The collectives of each node; none where the job has none.
    pub collectives: Vec<Collectives>,
}

impl WorldNodes {
    /// `Collectives::start` of a node, by its thread at the time `now`, with the bytes at `from`.
    ///
    /// The answer is that of the group's start, in the order of `Collectives::start`. Where `NoMemory` comes nothing
    /// changed.
    pub fn start<H: Handlers>(
        &mut self,
        handlers: &H,
        now: u64,
        node: u16,
        thread: u16,
        shape: Shape,
        from: u64,
    ) -> StartAnswer
        requires group { IsGroup self.old.world self.old.collectives.items }
        requires node { node < self.old.world.settings.nodes }
        requires thread { thread < self.old.world.settings.threads }
        ensures settings { self.new.world.settings ≡ self.old.world.settings }
        ensures table { self.new.world.table ≡ self.old.world.table }
        ensures group { IsGroup self.new.world self.new.collectives.items }
        ensures does { DoesStart (H.meaning handlers.now) (group_in self.old)
            (Start now node thread shape from) result (group_in self.new) }
    {
        let mut caller = AtNode {
            world: &mut self.world,
            node,
            handlers,
            now,
        };
        self.collectives[usize::from(node)].start(&mut caller, thread, shape, from)
    }

    /// `Collectives::step` of a node, by its thread at the time `now`.
    ///
    /// The answer is that of the group's step which tries all nodes. Where `NoMemory` comes it did what a step does
    /// that tries only some first nodes.
    pub fn step<H: Handlers>(
        &mut self,
        handlers: &H,
        now: u64,
        node: u16,
        thread: u16,
    ) -> StepAnswer
        requires group { IsGroup self.old.world self.old.collectives.items }
        requires node { node < self.old.world.settings.nodes }
        requires thread { thread < self.old.world.settings.threads }
        ensures settings { self.new.world.settings ≡ self.old.world.settings }
        ensures table { self.new.world.table ≡ self.old.world.table }
        ensures group { IsGroup self.new.world self.new.collectives.items }
        ensures does { DoesStep (H.meaning handlers.now) (group_in self.old) (Step now node thread)
            result
            (group_in self.new) }
    {
        let mut caller = AtNode {
            world: &mut self.world,
            node,
            handlers,
            now,
        };
        self.collectives[usize::from(node)].step(&mut caller, thread)
    }

    /// `Collectives::try_end` of a node, by its thread at the time `now`. Its result goes to `dest`.
    ///
    /// The answer is that of the group's try, in the order of `Collectives::try_end`. `NoMemory` never comes.
    pub fn try_end<H: Handlers>(
        &mut self,
        handlers: &H,
        now: u64,
        node: u16,
        thread: u16,
        dest: u64,
    ) -> EndAnswer
        requires group { IsGroup self.old.world self.old.collectives.items }
        requires node { node < self.old.world.settings.nodes }
        requires thread { thread < self.old.world.settings.threads }
        ensures settings { self.new.world.settings ≡ self.old.world.settings }
        ensures table { self.new.world.table ≡ self.old.world.table }
        ensures group { IsGroup self.new.world self.new.collectives.items }
        ensures does { Does (H.meaning handlers.now) (group_in self.old) (End now node thread dest)
            (OfEnd result)
            (group_in self.new) }
    {
        let mut caller = AtNode {
            world: &mut self.world,
            node,
            handlers,
            now,
        };
        self.collectives[usize::from(node)].try_end(&mut caller, thread, dest)
    }
}
