//! Rounds of ticks and deliveries.

ghost use Rattle.std.specs.Prelude.{◌≡◌, ◌<◌, ◌∷◌, [], OnOk, OnErr, IsOk};
ghost use Rattle.spec_network.specs.World.{IsAmong};
ghost use Rattle.node_rules.specs.EndpointRules.{timed_event};
ghost use Rattle.sim_world.specs.Events.{event_of, job_in, MaySend};
ghost use Rattle.sim_world.specs.Aims.{MayFall};
ghost use Rattle.sim_world.specs.Settling.{Moves, turn_events, row_events, pair_events};
ghost use Rattle.sim_world.specs.Settling.{tick_events, round_events, settle_events};

use crate::event::{WorldAnswer, WorldEvent};
use crate::world::World;
use part_handlers::Handlers;
use std::alloc::AllocError;

impl World {
    /// So many rounds, all at the time `now`. In a round each node ticks, in rising order; then
    /// each pair of nodes has its turn, in rising order of the first node and then of the other
    /// one: each request of the pair that isn't back is delivered, in rising order of numbers, and
    /// then its reply, where it was sent.
    ///
    /// Its events are those of `settle_events`, each by `step`. Want of memory is its one error: it
    /// comes at a tick that sends a request for the first time, and then the rest of the rounds isn't
    /// done.
    pub fn settle<H: Handlers>(
        &mut self,
        handlers: &H,
        now: u64,
        rounds: u32,
    ) -> Result<(), AllocError>
        ensures settings { self.new.settings ≡ self.old.settings }
        ensures table { self.new.table ≡ self.old.table }
        ensures moves { OnOk result (Moves (job_in (H.meaning handlers.now) self.old)
            (settle_events (job_in (H.meaning handlers.now) self.old) now rounds)
            self.old self.new) }
    {
        for turn in 0..rounds {
            // Only the loop's invariant speaks of a round's number.
            let _ = turn;
            self.round(handlers, now)?;
        }
        Ok(())
    }

    /// A round: the ticks, and then the turns of all pairs.
    fn round<H: Handlers>(&mut self, handlers: &H, now: u64) -> Result<(), AllocError>
        ensures settings { self.new.settings ≡ self.old.settings }
        ensures table { self.new.table ≡ self.old.table }
        ensures moves { OnOk result (Moves (job_in (H.meaning handlers.now) self.old)
            (round_events (job_in (H.meaning handlers.now) self.old) now) self.old self.new) }
    {
        self.ticks(handlers, now)?;
        self.pairs(handlers, now)
    }

    /// Each node ticks, in rising order.
    fn ticks<H: Handlers>(&mut self, handlers: &H, now: u64) -> Result<(), AllocError>
        ensures settings { self.new.settings ≡ self.old.settings }
        ensures table { self.new.table ≡ self.old.table }
        ensures moves { OnOk result (Moves (job_in (H.meaning handlers.now) self.old)
            (tick_events (job_in (H.meaning handlers.now) self.old) now) self.old self.new) }
    {
        for node in 0..self.nodes() {
            self.happens(handlers, now, &WorldEvent::Tick { node })?;
        }
        Ok(())
    }

    /// The turns of all pairs, in rising order of the first node and then of the other one. No
    /// delivery wants memory.
    fn pairs<H: Handlers>(&mut self, handlers: &H, now: u64) -> Result<(), AllocError>
        ensures settings { self.new.settings ≡ self.old.settings }
        ensures table { self.new.table ≡ self.old.table }
        ensures never { IsOk result }
        ensures moves { OnOk result (Moves (job_in (H.meaning handlers.now) self.old)
            (pair_events (job_in (H.meaning handlers.now) self.old) now) self.old self.new) }
    {
        for from in 0..self.nodes() {
            self.row(handlers, now, from)?;
        }
        Ok(())
    }

    /// The turns of the pairs of one node, in rising order of the other one. A pair all of whose
    /// requests are back has nothing to deliver, and its turn isn't made.
    fn row<H: Handlers>(&mut self, handlers: &H, now: u64, from: u16) -> Result<(), AllocError>
        requires { from < self.old.settings.nodes }
        ensures settings { self.new.settings ≡ self.old.settings }
        ensures table { self.new.table ≡ self.old.table }
        ensures never { IsOk result }
        ensures moves { OnOk result (Moves (job_in (H.meaning handlers.now) self.old)
            (row_events (job_in (H.meaning handlers.now) self.old) now from) self.old self.new) }
    {
        let mut to = self.next_out(from, 0);
        while to < self.nodes() {
            self.turn(handlers, now, from, to)?;
            to = self.next_out(from, to + 1);
        }
        Ok(())
    }

    /// The turn of a pair: each of its requests that isn't back is delivered, in rising order of
    /// numbers, and then its reply.
    fn turn<H: Handlers>(
        &mut self,
        handlers: &H,
        now: u64,
        from: u16,
        to: u16,
    ) -> Result<(), AllocError>
        requires from { from < self.old.settings.nodes }
        requires to { to < self.old.settings.nodes }
        ensures settings { self.new.settings ≡ self.old.settings }
        ensures table { self.new.table ≡ self.old.table }
        ensures never { IsOk result }
        ensures moves { OnOk result (Moves (job_in (H.meaning handlers.now) self.old)
            (λ world. turn_events now from to ((world from).asked to)) self.old self.new) }
    {
        if from == to {
            return Ok(());
        }
        let first = self.first_out(from, to);
        let accepted = self.accepted(from, to);
        for place in first - 1..accepted {
            let number = place + 1;
            if self.returned(from, to, number) {
                continue;
            }
            self.happens(handlers, now, &WorldEvent::Request { from, to, number })?;
            self.happens(handlers, now, &WorldEvent::Reply { from, to, number })?;
        }
        Ok(())
    }

    /// An event whose answer nobody asks for. It is refused at a request to another node alone, of a
    /// thread or of a tick.
    fn happens<H: Handlers>(
        &mut self,
        handlers: &H,
        now: u64,
        event: &WorldEvent<'_>,
    ) -> Result<(), AllocError>
        requires among { IsAmong self.old.settings (event_of event.now) }
        requires called { MayFall self.old.settings event.now }
        ensures settings { self.new.settings ≡ self.old.settings }
        ensures table { self.new.table ≡ self.old.table }
        ensures wants { OnErr result (MaySend (event_of event.now)) }
        ensures moves { OnOk result (Moves (job_in (H.meaning handlers.now) self.old)
            (λ world. timed_event now (event_of event.now) ∷ []) self.old self.new) }
    {
        match self.step(handlers, now, event) {
            WorldAnswer::NoMemory => Err(AllocError),
            _ => Ok(()),
        }
    }
}
