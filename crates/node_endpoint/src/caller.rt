//! What a layer above asks of a node: the trait of callers.

ghost use Rattle.std.specs.Prelude.{◌≡◌, ℕ, Bool};
ghost use Rattle.spec_node.specs.Record.{Node};
ghost use Rattle.node_core.specs.Kept.{segment_of};
ghost use Rattle.node_rules.specs.EndpointLocal.{EndpointLocal};
ghost use Rattle.node_rules.specs.declared.answer.Answer.{Answer as AnAnswer};
ghost use Rattle.node_endpoint.specs.EndpointState.{MayBeCalled};
ghost use Rattle.node_endpoint.specs.Sites.{Site, ThreadCall, IsThere, MayLack, called_by, answer_at, node_then};

use crate::{Answer, Call};
use part_segment::Segment;

/// How a call went.
#[derive(Clone, Copy)]
pub enum Called {
    /// The node answered it so.
    Answer(Answer),
    /// Memory ran out, and nothing was changed.
    NoMemory,
}

/// A node of a job at a time, whose threads make calls.
///
/// What it keeps stands for a whole: the record of that node alone, or the records of all nodes of a world.
pub trait Caller {
    /// The type of what it stands for.
    ghost Whole: { Type 0 };
    /// What it keeps stands for this whole.
    ghost stands: { Self → Whole → Type 0 };
    /// The job, the node and the time of its calls.
    ghost site: { Self → Site };
    /// The node's record in a whole.
    ghost record_in: { Site → Whole → Node EndpointLocal };
    /// The whole that a call of a thread leaves.
    ghost after: { Site → Whole → ThreadCall → Whole };
    /// Memory may run out at a request.
    ghost may_lack: { Bool };
    /// The ghost name of the reference that it was lent, which a call doesn't replace: so who lent it knows what became
    /// of what is behind it. Any number, where it was lent none.
    ghost lent: { Self → ℕ };

    /// Makes a call of a thread of the node. `NoMemory` comes at a request alone, and only from a caller that may lack
    /// memory; then nothing was changed.
    fn call(&mut self, thread: u16, call: &Call<'_>) -> Called
        requires there { IsThere (site self.old) }
        requires called { MayBeCalled (site self.old).settings thread call.now }
        ensures site { site self.new ≡ site self.old }
        ensures lent { lent self.new ≡ lent self.old }
        ensures answered { (answer : AnAnswer) → result ≡ Called.Answer answer
            → (whole : Whole) → stands self.old whole
            → (answer ≡ answer_at (site self.old) (record_in (site self.old) whole)
            (called_by thread call.now))
            × stands self.new (after (site self.old) whole (called_by thread call.now)) }
        ensures no_memory { result ≡ Called.NoMemory
            → (whole : Whole) → stands self.old whole
            → MayLack may_lack (called_by thread call.now) × stands self.new whole };

    /// The segment of the node.
    fn segment(&self) -> &Segment
        requires { IsThere (site self.now) }
        ensures { (whole : Whole) → stands self.now whole → result.now
            ≡ segment_of (site self.now).settings (record_in (site self.now) whole).local.core };

    /// In the whole that a call leaves, the node's record is the one that the record's own step leaves.
    ghost follows: { (at : Site) (whole : Whole) (call : ThreadCall)
        → record_in at (after at whole call) ≡ node_then at (record_in at whole) call };
}
