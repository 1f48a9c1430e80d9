//! The nodes of a run: their world, and the collectives of each.

ghost use Rattle.std.specs.Prelude.{◌≡◌, ◌<◌, IfOk, is_some, length, true};
ghost use Rattle.sim_world.specs.Events.{job_in};
ghost use Rattle.text_script.specs.Registration.{handlers_of, registry_of};
ghost use Rattle.sim_group.specs.GroupState.{AreAt, IsGroup, group_in};
ghost use Rattle.sim_group.specs.Opening.{AreIdle};
ghost use Rattle.sim_group.specs.Standing.{StandsFor};
ghost use Rattle.sim_run.specs.ScheduleRun.{Collects, HaveCollectives};
ghost use Rattle.sim_run.specs.Schedules.{area_in, opening_nodes};

use crate::schedule_line::CollectiveCall;
use node_collectives::Collectives;
use part_handlers::Handlers;
use sim_group::{WorldNodes, idle_nodes};
use sim_world::World;
use std::alloc::{AllocError, Global};
use text_script::{CollectiveAnswer, Script};
use text_steps::CollectiveText;

/// The collectives of each node of a job, none of which has started one; none where the job has none.
fn collectives_of(alloc: Global, script: &Script) -> Result<Vec<Collectives>, AllocError>
    ensures count { IfOk result (λ nodes. is_some script.now.collect ≡ true
        → length nodes.items ≡ script.now.settings.nodes) }
    ensures at { IfOk result (λ nodes. AreAt script.now.settings nodes.items) }
    ensures idle { IfOk result (λ nodes.
        AreIdle (area_in script.now.settings.nodes script.now.collect) nodes.items) }
{
    match script.collect() {
        Some((base, room)) => idle_nodes(alloc, script.settings(), base, room),
        None => Ok(Vec::new(alloc)),
    }
}

/// The nodes of a job before its first line. Want of memory is the one error.
pub fn opening_nodes(alloc: Global, script: &Script) -> Result<WorldNodes, AllocError>
    ensures settings { IfOk result (λ it. it.world.settings ≡ script.now.settings) }
    ensures table { IfOk result
        (λ it. it.world.table ≡ (registry_of (handlers_of script.now)).table) }
    ensures have { IfOk result (λ it. HaveCollectives script.now (group_in it)) }
    ensures stands { IfOk result (λ it. StandsFor (group_in it) (opening_nodes script.now).area
        (opening_nodes script.now).group (λ i. 0)) }
{
    let collectives = collectives_of(alloc, script)?;
    let world = World::new(alloc, script.settings(), script.table())?;
    Ok(WorldNodes { world, collectives })
}

/// Makes a call for the collectives of a node at the time `now`.
pub fn collect<H: Handlers>(
    nodes: &mut WorldNodes,
    handlers: &H,
    now: u64,
    asked: &CollectiveCall,
) -> CollectiveAnswer
    requires group { IsGroup nodes.old.world nodes.old.collectives.items }
    requires node { asked.now.node < nodes.old.world.settings.nodes }
    requires thread { asked.now.thread < nodes.old.world.settings.threads }
    ensures settings { nodes.new.world.settings ≡ nodes.old.world.settings }
    ensures table { nodes.new.world.table ≡ nodes.old.world.table }
    ensures group { IsGroup nodes.new.world nodes.new.collectives.items }
    ensures collects { Collects (job_in (H.meaning handlers.now) nodes.old.world) (group_in nodes.old)
        (record {
          time = now;
          node = asked.now.node;
          thread = asked.now.thread;
          call = asked.now.call;
        })
        result (group_in nodes.new) }
{
    let node = asked.node;
    let thread = asked.thread;
    match asked.call {
        CollectiveText::Start { shape, from } => {
            CollectiveAnswer::Start(nodes.start(handlers, now, node, thread, shape, from))
        }
        CollectiveText::Step => CollectiveAnswer::Step(nodes.step(handlers, now, node, thread)),
        CollectiveText::Try { dest } => {
            CollectiveAnswer::End(nodes.try_end(handlers, now, node, thread, dest))
        }
    }
}
