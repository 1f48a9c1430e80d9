//! The law that joins calls at a node with runs of its world.

ghost use Rattle.std.specs.Prelude.{◌≡◌, List};
ghost use Rattle.spec_network.specs.World.{run};
ghost use Rattle.node_endpoint.specs.Making.{whole_after};
ghost use Rattle.node_endpoint.specs.Sites.{Site, ThreadCall, job_at};
ghost use Rattle.sim_world.specs.Wholes.{WorldWhole, events_of};

use crate::at_node::AtNode;
use node_endpoint::Caller;
use part_handlers::Handlers;

/// Carries, for the check alone, that what calls at a node leave of the records of a world is what a run of as many
/// events leaves of them. It has no code.
pub fn calls_are_a_run<H: Handlers + 'static>()
    ensures { (site : Site) (whole : WorldWhole) (calls : List ThreadCall)
        → (whole_after ⟦<AtNode<'static, H> as Caller>⟧ site whole calls).records
        ≡ run (job_at site) (events_of site calls) whole.records }
{}
