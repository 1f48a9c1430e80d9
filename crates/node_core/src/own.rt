//! Where the payloads of the local node's messages stand.

ghost use Rattle.std.specs.Prelude.{◌≡◌};
ghost use Rattle.node_core.specs.AskedFor.{asking_of};
ghost use Rattle.node_core.specs.Landed.{asked_place, replied_place};

use crate::asking::{Asking, Category};
use part_handlers::Reply;
use wire_message::Kind;

/// Where the payload of a Long request stands in the local segment: its first byte and its length.
pub fn place_asked(asking: &Asking<'_>) -> Option<(u64, u64)>
    ensures { result ≡ asked_place (asking_of asking.now) }
{
    match asking.category {
        Category::Short | Category::Medium => None,
        Category::Long => Some((asking.offset, asking.payload.len())),
    }
}

/// Where the payload of a Long reply stands in the local segment: its first byte and its length.
pub fn place_replied(reply: &Reply) -> Option<(u64, u64)>
    ensures { result ≡ replied_place reply.now }
{
    match reply.kind {
        Kind::LongRequest | Kind::LongReply => Some((reply.offset, reply.len as u64)),
        Kind::ShortRequest | Kind::MediumRequest => None,
        Kind::ShortReply | Kind::MediumReply | Kind::Ack => None,
    }
}
