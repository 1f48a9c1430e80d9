//! The events of a schedule, as they are run.

ghost use Rattle.std.specs.Prelude.{◌≡◌, IfSome, Some, is_none};
ghost use Rattle.sim_world.specs.Aims.{MayFall};
ghost use Rattle.sim_world.specs.Events.{ForItsRecords, event_of};
ghost use Rattle.spec_network.specs.World.{IsAmong};
ghost use Rattle.text_script.specs.ScriptInvariant.{IsWithin};
ghost use Rattle.sim_run.specs.Schedules.{is_several, scheduled_event};

use sim_world::{World, WorldEvent};
use text_script::call_of;
use text_steps::{CollectiveText, ScheduledEvent};
use text_vis::VisText;

/// A transfer of many pieces that a thread of a node is to begin.
#[derive(Clone, Copy)]
pub struct Beginning<'a> {
    /// The node.
    pub node: u16,
    /// The thread.
    pub thread: u16,
    /// The plan, the piece to begin from, and the register of the handle.
    pub vis: &'a VisText,
}

/// A call of a thread of a node for its collectives.
#[derive(Clone, Copy)]
pub struct CollectiveCall {
    /// The node.
    pub node: u16,
    /// The thread.
    pub thread: u16,
    /// What is asked.
    pub call: CollectiveText,
}

/// The event of a world that an event of a schedule is. `None` for what is several events or none: a transfer of many
/// pieces, a call for collectives, and rounds.
///
/// Each `cN` is read from the cells of its node in this world. The arguments of a request are put into `args`.
pub fn world_event<'a>(
    event: &'a ScheduledEvent,
    world: &World,
    args: &'a mut [i32; 17],
) -> Option<WorldEvent<'a>>
    requires { IsWithin world.now.settings event.now }
    ensures event { ForItsRecords world.now (λ records most. IfSome result (λ one.
        scheduled_event records event.now ≡ Some (event_of one))) }
    ensures nodes { IfSome result (λ one. IsAmong world.now.settings (event_of one)) }
    ensures called { IfSome result (MayFall world.now.settings) }
    ensures several { is_none result ≡ is_several event.now }
{
    let one = match event {
        ScheduledEvent::Call { node, thread, call } => WorldEvent::Call {
            node: *node,
            thread: *thread,
            call: call_of(call, world.endpoint(*node).cells(), args),
        },
        ScheduledEvent::Request { from, to, number } => WorldEvent::Request {
            from: *from,
            to: *to,
            number: *number,
        },
        ScheduledEvent::Reply { from, to, number } => WorldEvent::Reply {
            from: *from,
            to: *to,
            number: *number,
        },
        ScheduledEvent::Tick { node } => WorldEvent::Tick { node: *node },
        ScheduledEvent::Vis { .. }
        | ScheduledEvent::Collective { .. }
        | ScheduledEvent::Settle { .. } => return None,
    };
    Some(one)
}
