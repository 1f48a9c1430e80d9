//! The collectives of a node with one thread.

ghost use Rattle.std.specs.Prelude.{◌≡◌, IfSome, IfNone};
ghost use Rattle.part_collective_area.specs.Area.{IsArea};
ghost use Rattle.node_collectives.specs.CollectivesState.{IsFresh};
ghost use Rattle.gasnet_c.specs.CollectiveCalls.{AreOf, EndsFor, StartsAs, StartsFor, StepsFor};
ghost use Rattle.gasnet_c.specs.CollectiveCalls.{area_at, collective_kind_of, pair};

use crate::node::Node;
use crate::sender::Sender;
use crate::told::{Told, bad, tell_end, tell_start, tell_step};
use node_collectives::Collectives;
use part_collective_area::{CollectiveKind, Shape};

/// A collective, as a node starts it: `gasnet_c_collective`.
#[repr(C)]
#[derive(Clone, Copy, Drop)]
pub struct Collective {
    /// Where the bytes that the node gives begin in its segment.
    pub from: u64,
    /// How many bytes each node gives.
    pub len: u64,
    /// What is done with them, by number: 0 to 8, in the order of `part_collective_area`'s kinds.
    pub kind: u32,
    /// The root; 0 for a kind without one.
    pub root: u16,
}

/// The kind with this number.
fn kind_of(code: u32) -> Option<CollectiveKind>
    ensures { result ≡ collective_kind_of code }
{
    match code {
        0 => Some(CollectiveKind::Broadcast),
        1 => Some(CollectiveKind::Gather),
        2 => Some(CollectiveKind::AllGather),
        3 => Some(CollectiveKind::Sum),
        4 => Some(CollectiveKind::Min),
        5 => Some(CollectiveKind::Max),
        6 => Some(CollectiveKind::AllSum),
        7 => Some(CollectiveKind::AllMin),
        8 => Some(CollectiveKind::AllMax),
        _ => None,
    }
}

impl Node {
    /// Its collectives, of which it has started none. None exactly where the area isn't one.
    pub fn collectives(&self, base: u64, room: u64) -> Option<Collectives>
        ensures some { IfSome result (IsFresh self.now.core.settings self.now.core.me base room) }
        ensures none { IfNone result
            (IsArea self.now.core.settings.segment (area_at self.now.core.settings base room) → ⊥) }
    {
        Collectives::new(&self.settings, self.endpoint.me(), base, room)
    }

    /// Its thread starts a collective; it is bad where no kind has the number.
    #[tactic(auto, using(crate::proofs::CollectiveCalling::starts_kind, crate::proofs::CollectiveCalling::starts_none))]
    pub fn start(&mut self, collectives: &mut Collectives, now: u64, what: &Collective) -> Told
        requires of { AreOf (pair self.old collectives.old) }
        ensures starts { StartsFor now what.now (pair self.old collectives.old) result
            (pair self.new collectives.new) }
        ensures of { AreOf (pair self.new collectives.new) }
    {
        let Some(kind) = kind_of(what.kind) else {
            return bad();
        };
        let shape = Shape {
            kind,
            root: what.root,
            len: what.len,
        };
        self.start_shape(collectives, now, shape, what.from)
    }

    /// Its thread starts a collective of this shape, with the bytes at `from`.
    fn start_shape(
        &mut self,
        collectives: &mut Collectives,
        now: u64,
        shape: Shape,
        from: u64,
    ) -> Told
        requires of { AreOf (pair self.old collectives.old) }
        ensures starts { StartsAs now (record {
          thread = 0;
          shape = shape;
          from = from;
        }) (pair self.old collectives.old) result (pair self.new collectives.new) }
        ensures of { AreOf (pair self.new collectives.new) }
    {
        let mut sender = Sender {
            endpoint: &mut self.endpoint,
            now,
            sends: None,
        };
        let answer = collectives.start(&mut sender, 0, shape, from);
        tell_start(&answer)
    }

    /// Its thread makes a step of the collective. What it sends is copied into the buffer, where it fits.
    pub fn step(&mut self, collectives: &mut Collectives, now: u64, buffer: &mut [u8]) -> Told
        requires of { AreOf (pair self.old collectives.old) }
        ensures steps { StepsFor now buffer.new (pair self.old collectives.old) result
            (pair self.new collectives.new) }
        ensures of { AreOf (pair self.new collectives.new) }
    {
        let mut sender = Sender {
            endpoint: &mut self.endpoint,
            now,
            sends: None,
        };
        let answer = collectives.step(&mut sender, 0);
        let sends = sender.sends;
        tell_step(&self.endpoint, &answer, sends, buffer)
    }

    /// Its thread tries to end the collective, whose result goes to `dest`.
    pub fn try_end(&mut self, collectives: &mut Collectives, now: u64, dest: u64) -> Told
        requires of { AreOf (pair self.old collectives.old) }
        ensures ends { EndsFor now dest (pair self.old collectives.old) result
            (pair self.new collectives.new) }
        ensures of { AreOf (pair self.new collectives.new) }
    {
        let mut sender = Sender {
            endpoint: &mut self.endpoint,
            now,
            sends: None,
        };
        let answer = collectives.try_end(&mut sender, 0, dest);
        tell_end(&answer)
    }
}
