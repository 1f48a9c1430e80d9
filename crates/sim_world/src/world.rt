//! A world of endpoints.

ghost use Rattle.std.specs.Prelude.{◌≡◌, ◌≢◌, ◌<◌, ◌≤◌, ◌+◌, ◌*◌, ℕ, IfOk, length, Some};
ghost use Rattle.node_endpoint.specs.EndpointState.{IsNodeOf};
ghost use Rattle.sim_world.specs.Sizes.{AreOpening, AreEmpty};
ghost use Rattle.node_rules.specs.EndpointRules.{at_the_opening, transition};
ghost use Rattle.spec_network.specs.World.{IsAmong};
ghost use Rattle.spec_network.specs.Plain.{plain_of, IsFirstOut};
ghost use Rattle.spec_network.specs.Laws.{IsLawful};
ghost use Rattle.spec_node.specs.Credits.{greatest_holding};
ghost use Rattle.node_endpoint.specs.EndpointState.{EndpointStands};
ghost use Rattle.sim_world.specs.Stands.{WorldStands};
ghost use Rattle.sim_world.specs.Aims.{AimsAt, MayFall, IsTargetOf};
ghost use Rattle.sim_world.specs.EventScopes.{event_node};
ghost use Rattle.sim_world.specs.Events.{event_of, ForItsRecords, job_in, RunsHaveTheHeadline};
ghost use Rattle.sim_world.specs.Events.{RunsHaveTheLaws};
ghost use Rattle.law_transfers.specs.TransferLaws.{TransfersHold};
ghost use Rattle.law_barrier.specs.BarrierLaws.{BarrierHolds};
ghost use Rattle.sim_world.specs.Events.{StepsInWorld, StepsPlainly};
ghost use Rattle.sim_world.specs.Settling.{AreBack};

use crate::event::{WorldAnswer, WorldEvent};
use crate::exchanges::Exchanges;
use crate::step::{EventContext, happen};
use node_endpoint::Endpoint;
use node_rules::Call;
use part_handlers::{Handlers, Table};
use std::alloc::{AllocError, Global};
use std::marker::Model;
use wire_message::Settings;

/// The endpoints of a job, and of each request that they ever sent its slot, whether it ran, and
/// whether it is back. A message may be delivered at any time, any number of times, and in any
/// order; a message that is lost is never delivered. It is lent out of the slot where it stands: a
/// request that didn't run at its requester, a reply that wasn't taken at its responder. What ran
/// or is back is answered by its number alone.
#[derive(Drop)]
pub struct World {
    settings: Settings,
    table: Table,
    endpoints: Vec<Endpoint>,
    exchanges: Vec<Exchanges>,
    most: Vec<usize>,
}

impl Model for World {
    ghost use Rattle.sim_world.specs.WorldState.{WorldState};
    ghost use Rattle.sim_world.specs.Stands.{IsWholeWorld};

    ghost Value = { WorldState };

    ghost view = { λ w. record {
      settings = w.settings;
      table = w.table;
      endpoints = w.endpoints.items;
      exchanges = w.exchanges.items;
      most = w.most.items;
    } };

    ghost invariant = { λ w. IsWholeWorld (record {
      settings = w.settings;
      table = w.table;
      endpoints = w.endpoints.items;
      exchanges = w.exchanges.items;
      most = w.most.items;
    }) };
}

impl World {
    /// A world of endpoints that asked and ran nothing. It keeps copies of the table.
    ///
    /// Want of memory is its one error. Each run from here, by any lawful handlers and any
    /// events among the nodes, has the headline; and the laws of synchronised transfers and those of
    /// the barrier hold in it.
    pub fn new(alloc: Global, settings: &Settings, table: &Table) -> Result<World, AllocError>
        ensures settings { IfOk result (λ v. v.settings ≡ settings.now) }
        ensures table { IfOk result (λ v. v.table ≡ table.now) }
        ensures stands { IfOk result (λ v. WorldStands v (at_the_opening settings.now) (λ i. 0)) }
        ensures headline { IfOk result RunsHaveTheHeadline }
        ensures laws { IfOk result RunsHaveTheLaws }
    {
        let nodes = settings.nodes();
        let pairs = usize::from(nodes) * usize::from(nodes);
        let most = vec![in alloc; 0; usize::from(nodes)]?;
        let exchanges = no_exchanges(alloc, pairs)?;
        let copy = table.copy()?;
        let endpoints = opening_endpoints(alloc, settings, table)?;
        Ok(World {
            settings: *settings,
            table: copy,
            endpoints,
            exchanges,
            most,
        })
    }

    /// One event at the time `now`.
    ///
    /// The node on which a call or a tick falls, and both nodes of a delivery, are there; so is the
    /// thread of a call, and a list of registers has at most 256. `Unsent` comes exactly where that
    /// message was never sent. `NoMemory` comes only at a request to another node that would be
    /// accepted, of a thread or of a tick, and then the world stands for the same records. Else, read as a plain world,
    /// one without buffers, kept replies and times, it steps by the same event with the same
    /// answer. The laws of the headline hold of each state that it comes to. In each run of this
    /// job, by these handlers, what a synchronisation of transfers that answers `Ok` tells was done
    /// between the beginning and the answer; and a try of the barrier that ends a phase tells the
    /// outcome of the nodes' notifies.
    #[inline(always)]
    pub fn step<H: Handlers>(
        &mut self,
        handlers: &H,
        now: u64,
        event: &WorldEvent<'_>,
    ) -> WorldAnswer
        requires among { IsAmong self.old.settings (event_of event.now) }
        requires called { MayFall self.old.settings event.now }
        ensures settings { self.new.settings ≡ self.old.settings }
        ensures table { self.new.table ≡ self.old.table }
        ensures steps { StepsInWorld (H.meaning handlers.now) self.old
            (transition now (event_of event.now) result) self.new }
        ensures plain { StepsPlainly (H.meaning handlers.now) self.old
            (transition now (event_of event.now) result) }
        ensures lawful { ForItsRecords self.new (λ records most.
            IsLawful (job_in (H.meaning handlers.now) self.new) records) }
        ensures transfers { TransfersHold self.new.settings self.new.table
            (H.meaning handlers.now) }
        ensures barrier { BarrierHolds self.new.settings self.new.table (H.meaning handlers.now) }
    {
        // Reading a field gives the proof the invariant of the settings.
        let _ = &self.settings;
        self.step_as_recorded(handlers, now, event)
    }

    /// How many nodes there are.
    pub fn nodes(&self) -> u16
        ensures { result ≡ self.now.settings.nodes }
    {
        self.settings.nodes()
    }

    /// The node's own endpoint.
    pub fn endpoint(&self, node: u16) -> &Endpoint
        requires { node < self.now.settings.nodes }
        ensures node { IsNodeOf self.now.settings self.now.table node result.now }
        ensures stands { ForItsRecords self.now
            (λ records most. EndpointStands result.now (records node)) }
    {
        &self.endpoints[node as usize]
    }

    /// The greatest number of message buffers that the node held after any event so far; 0 at the
    /// opening. It is at most the sum, over the other nodes, of the credits of each pair that
    /// begins or ends at the node.
    pub fn most_held(&self, node: u16) -> usize
        requires { node < self.now.settings.nodes }
        ensures most { ForItsRecords self.now (λ records most. result ≡ most node) }
        ensures few { ForItsRecords self.now (λ records most.
            result ≤ greatest_holding self.now.settings node) }
    {
        self.most[node as usize]
    }

    /// How many requests of `from` to `to` were accepted.
    pub fn accepted(&self, from: u16, to: u16) -> u64
        requires from { from < self.now.settings.nodes }
        requires to { to < self.now.settings.nodes }
        ensures { ForItsRecords self.now (λ records most.
            result ≡ length ((plain_of records).requests from to)) }
    {
        self.exchanges[place_of(&self.settings, from, to)].len() as u64
    }

    /// The lowest number of a request of `from` to `to` that isn't back; where all that were
    /// accepted are back, the number after the last. It takes no search.
    pub fn first_out(&self, from: u16, to: u16) -> u64
        requires from { from < self.now.settings.nodes }
        requires to { to < self.now.settings.nodes }
        ensures number { 1 ≤ result }
        ensures out { ForItsRecords self.now
            (λ records most. IsFirstOut (plain_of records) from to result) }
    {
        self.exchanges[place_of(&self.settings, from, to)].first_out()
    }

    /// A node from `to` on, or the number of nodes: all requests of `from` to the nodes from `to` up
    /// to it are back. It looks at two numbers of each pair.
    pub(crate) fn next_out(&self, from: u16, to: u16) -> u16
        requires from { from < self.now.settings.nodes }
        requires to { to ≤ self.now.settings.nodes }
        ensures first { to ≤ result }
        ensures last { result ≤ self.now.settings.nodes }
        ensures back { ForItsRecords self.now (λ records most.
            (other : ℕ) → to ≤ other → other < result → AreBack ((records from).asked other)) }
    {
        for other in to..self.nodes() {
            if self.first_out(from, other) <= self.accepted(from, other) {
                return other;
            }
        }
        self.nodes()
    }

    /// Whether the request of `from` to `to` with that number was accepted and is back.
    pub fn returned(&self, from: u16, to: u16, number: u64) -> bool
        requires from { from < self.now.settings.nodes }
        requires to { to < self.now.settings.nodes }
        ensures { ForItsRecords self.now (λ records most.
            result ≡ (plain_of records).back from to number) }
    {
        match self.exchanges[place_of(&self.settings, from, to)].get(number) {
            Some(exchange) => exchange.back,
            None => false,
        }
    }
}

/// An endpoint for each node.
fn opening_endpoints(
    alloc: Global,
    settings: &Settings,
    table: &Table,
) -> Result<Vec<Endpoint>, AllocError>
    ensures count { IfOk result (λ endpoints. length endpoints.items ≡ settings.now.nodes) }
    ensures each { IfOk result (λ endpoints.
        AreOpening settings.now table.now endpoints.items) }
{
    let nodes = settings.nodes();
    let mut endpoints = Vec::with_capacity(alloc, usize::from(nodes))?;
    for node in 0..nodes {
        endpoints.push(Endpoint::new(alloc, settings, node, table)?)?;
    }
    Ok(endpoints)
}

/// No exchange, for each of that many pairs of nodes.
fn no_exchanges(alloc: Global, pairs: usize) -> Result<Vec<Exchanges>, AllocError>
    ensures { IfOk
        result (λ exchanges. (length exchanges.items ≡ pairs) × AreEmpty exchanges.items) }
{
    let mut exchanges = Vec::with_capacity(alloc, pairs)?;
    for _ in 0..pairs {
        exchanges.push(Exchanges::new(alloc))?;
    }
    Ok(exchanges)
}

/// The node of which a call is asked, where that is a request and the node is there; else the
/// node itself.
#[inline(always)]
fn target_of(settings: &Settings, node: u16, call: &Call<'_>) -> u16
    ensures { IsTargetOf settings.now node call.now result }
{
    match *call {
        Call::Short { to, .. }
        | Call::Medium { to, .. }
        | Call::Long { to, .. }
        | Call::LongAsync { to, .. }
            if to < settings.nodes() => { to }
        _ => node,
    }
}

/// The place of an ordered pair of nodes among all pairs.
fn place_of(settings: &Settings, from: u16, to: u16) -> usize
    ensures { result ≡ from * settings.now.nodes + to }
{
    usize::from(from) * usize::from(settings.nodes()) + usize::from(to)
}

/// The node on which an event falls.
#[inline(always)]
fn node_of(event: &WorldEvent<'_>) -> u16
    ensures { result ≡ event_node event.now }
{
    match event {
        WorldEvent::Call { node, .. } | WorldEvent::Tick { node } => *node,
        WorldEvent::Request { to, .. } => *to,
        WorldEvent::Reply { from, .. } => *from,
    }
}

impl World {
    /// The ordered pair of nodes whose message an event at the time `now` sends or delivers. A
    /// call or a tick that sends nothing to another node has its own node twice. None where a node
    /// is to deliver a message to itself, since it sends itself none.
    #[inline(always)]
    fn pair(&self, now: u64, event: &WorldEvent<'_>) -> Option<(u16, u16)>
        requires { IsAmong self.now.settings (event_of event.now) }
        ensures { AimsAt self.now (transition now event.now result) }
    {
        match event {
            WorldEvent::Call { node, call, .. } => {
                Some((*node, target_of(&self.settings, *node, call)))
            }
            WorldEvent::Tick { node } => {
                let target = self.endpoints[usize::from(*node)].next_target(now);
                Some((*node, target.unwrap_or(*node)))
            }
            WorldEvent::Request { from, to, .. } if *from != *to => Some((*from, *to)),
            WorldEvent::Reply { from, to, .. } if *from != *to => Some((*from, *to)),
            _ => None,
        }
    }

    /// One event at the time `now`, as the records of the nodes say it.
    #[inline(always)]
    fn step_as_recorded<H: Handlers>(
        &mut self,
        handlers: &H,
        now: u64,
        event: &WorldEvent<'_>,
    ) -> WorldAnswer
        requires among { IsAmong self.old.settings (event_of event.now) }
        requires called { MayFall self.old.settings event.now }
        ensures settings { self.new.settings ≡ self.old.settings }
        ensures table { self.new.table ≡ self.old.table }
        ensures steps { StepsInWorld (H.meaning handlers.now) self.old
            (transition now (event_of event.now) result) self.new }
    {
        let Some((from, to)) = self.pair(now, event) else {
            return WorldAnswer::Unsent;
        };
        let place = place_of(&self.settings, from, to);
        let node = usize::from(node_of(event));
        let context = EventContext {
            handlers,
            now,
            event,
            sends: from != to,
        };
        happen(
            context,
            &mut self.endpoints,
            &mut self.exchanges[place],
            &mut self.most[node],
        )
    }
}
