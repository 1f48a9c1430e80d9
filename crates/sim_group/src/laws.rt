//! The laws that join calls of the code with events of groups.

ghost use Rattle.std.specs.Prelude.{◌≡◌, List};
ghost use Rattle.node_endpoint.specs.Making.{whole_after};
ghost use Rattle.node_endpoint.specs.Sites.{Site, ThreadCall, job_at};
ghost use Rattle.law_collectives.specs.Groups.{group_after};
ghost use Rattle.sim_group.specs.CallsOf.{RunsItsCalls};
ghost use Rattle.sim_group.specs.OfGroups.{EndIsOfGroup, StartIsOfGroup, StepIsOfGroup};
ghost use Rattle.sim_group.specs.Wholes.{GroupWhole, others_of};

use crate::at_group::AtGroup;
use node_endpoint::Caller;
use part_handlers::Handlers;

/// Carries, for the check alone, what joins the contracts of `node_collectives` with the laws. It has no code.
///
/// `start`, of a start at a node of a group: where it is refused, the group's start is refused so and leaves the group
/// as it is; else its call is the event of the group's start, and its answer is the group's. `step`, of each call of a
/// step: it is the event of the group's step, which ends with the same answer or goes on to the next node, and the node
/// is as far. `end`, of a try: its answer is the group's, its calls are events that leave the group's records, and the
/// nodes are as far. `made`, of any event of a group: what it leaves of the records is what a run of its calls leaves
/// of them.
pub fn calls_are_of_a_group()
    ensures start { StartIsOfGroup }
    ensures step { StepIsOfGroup }
    ensures end { EndIsOfGroup }
    ensures made { RunsItsCalls }
{}

/// Carries, for the check alone, that what calls at a node leave of a group is what as many events leave of it that no
/// collective makes. It has no code.
pub fn calls_are_other_events<H: Handlers + 'static>()
    ensures { (site : Site) (whole : GroupWhole) (calls : List ThreadCall)
        → (whole_after ⟦<AtGroup<'static, H> as Caller>⟧ site whole calls).group
        ≡ group_after (job_at site) whole.area whole.group (others_of site calls) }
{}
