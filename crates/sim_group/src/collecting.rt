//! The collectives of a group's nodes.

ghost use Rattle.std.specs.Prelude.{◌≡◌, ◌<◌};
ghost use Rattle.law_collectives.specs.Groups.{End, OfEnd, Start, Step};
ghost use Rattle.sim_group.specs.Standing.{Does, DoesStart, DoesStep};
ghost use Rattle.sim_group.specs.Histories.{Grows, GrowsByStart, GrowsByStep, TellsOfHistory};

use crate::group::Group;
use node_collectives::{EndAnswer, StartAnswer, StepAnswer};
use part_collective_area::Shape;
use part_handlers::Handlers;

impl Group {
    /// `Collectives::start` of a node, by its thread at the time `now`, with the bytes at `from`.
    ///
    /// The answer is that of the group's start, in the order of `Collectives::start`. Where `NoMemory` comes nothing
    /// changed.
    pub fn coll_start<H: Handlers>(
        &mut self,
        handlers: &H,
        now: u64,
        node: u16,
        thread: u16,
        shape: Shape,
        from: u64,
    ) -> StartAnswer
        requires node { node < self.old.world.settings.nodes }
        requires thread { thread < self.old.world.settings.threads }
        ensures settings { self.new.world.settings ≡ self.old.world.settings }
        ensures table { self.new.world.table ≡ self.old.world.table }
        ensures does { DoesStart (H.meaning handlers.now) self.old (Start now node thread shape from)
            result self.new }
        ensures history { GrowsByStart (H.meaning handlers.now) self.old
            (Start now node thread shape from) result self.new }
    {
        self.nodes.start(handlers, now, node, thread, shape, from)
    }

    /// `Collectives::step` of a node, by its thread at the time `now`.
    ///
    /// The answer is that of the group's step which tries all nodes. Where `NoMemory` comes it did what a step does
    /// that tries only some first nodes.
    pub fn coll_step<H: Handlers>(
        &mut self,
        handlers: &H,
        now: u64,
        node: u16,
        thread: u16,
    ) -> StepAnswer
        requires node { node < self.old.world.settings.nodes }
        requires thread { thread < self.old.world.settings.threads }
        ensures settings { self.new.world.settings ≡ self.old.world.settings }
        ensures table { self.new.world.table ≡ self.old.world.table }
        ensures does { DoesStep (H.meaning handlers.now) self.old (Step now node thread) result
            self.new }
        ensures history { GrowsByStep (H.meaning handlers.now) self.old (Step now node thread) result
            self.new }
    {
        self.nodes.step(handlers, now, node, thread)
    }

    /// `Collectives::try_end` of a node, by its thread at the time `now`. Its result goes to `dest`.
    ///
    /// The answer is that of the group's try, in the order of `Collectives::try_end`; `NoMemory` never comes. Whatever
    /// happened to the group before, `Ended` says that all nodes have started that phase with one shape, and that the
    /// bytes at `dest` are the node's result; `Mismatch(k)` says that all have started it, and that `k` is the first
    /// node whose shape isn't the local one.
    pub fn coll_end<H: Handlers>(
        &mut self,
        handlers: &H,
        now: u64,
        node: u16,
        thread: u16,
        dest: u64,
    ) -> EndAnswer
        requires node { node < self.old.world.settings.nodes }
        requires thread { thread < self.old.world.settings.threads }
        ensures settings { self.new.world.settings ≡ self.old.world.settings }
        ensures table { self.new.world.table ≡ self.old.world.table }
        ensures does { Does (H.meaning handlers.now) self.old (End now node thread dest) (OfEnd result)
            self.new }
        ensures history { Grows (H.meaning handlers.now) self.old (End now node thread dest) self.new }
        ensures law { TellsOfHistory (H.meaning handlers.now) self.old
            (record { now = now; node = node; thread = thread; dest = dest }) result }
    {
        self.nodes.try_end(handlers, now, node, thread, dest)
    }
}
