//! Requests and replies written into the slots that keep them.

ghost use Rattle.std.specs.Prelude.{◌≡◌, ◌≢◌, ◌<◌, ◌≤◌, ◌+◌, true, length, IfOk, IfErr, OnErr};
ghost use Rattle.std.specs.Prelude.{IfSome, slice_get};
ghost use Rattle.wire_message.specs.Content.{IsMessage, IsWellAddressed, IsWellFormed};
ghost use Rattle.wire_message.specs.Content.{is_version};
ghost use Rattle.wire_message.specs.Content.{message_at_address, spelling};
ghost use Rattle.wire_message.specs.Reading.{outgoing_message};
ghost use Rattle.part_window.specs.SlotsState.{CanClaim, Refuses, with_request};
ghost use Rattle.part_window.specs.RepliesState.{JudgesAt, slot_count, with_reply};
ghost use Rattle.node_core.specs.AskedFor.{content_with};
ghost use Rattle.node_core.specs.CoreStep.{numbered_way};
ghost use Rattle.wire_message.specs.declared.limits.TheConstants.{MAX_PAYLOAD};

use crate::asking::{Asking, Category};
use part_window::{CreditSlots, Judged, NoClaim, ReplySlots};
use wire_message::{Address, Outgoing, long_request, medium_request, short_request, spell};

/// A request with this payload, at this address; a Short one has no payload.
fn outgoing<'a>(address: Address, asking: &Asking<'a>, payload: &'a [u8]) -> Outgoing<'a>
    requires address { IsWellAddressed address }
    requires handler { 1 ≤ asking.now.handler }
    requires count { length asking.now.args.now ≤ 16 }
    requires payload { length payload.now ≤ MAX_PAYLOAD }
    ensures value { outgoing_message result
        ≡ message_at_address address (content_with asking.now payload.now) }
    ensures formed { IsWellFormed (outgoing_message result) }
{
    match asking.category {
        Category::Short => short_request(address, asking.handler, asking.args),
        Category::Medium => medium_request(address, asking.handler, asking.args, payload),
        Category::Long => {
            long_request(address, asking.handler, asking.args, asking.offset, payload)
        }
    }
}

/// Takes the next slot and number of the receiver of an address, and keeps there a request for it with this payload;
/// answers the two.
///
/// The slot and the number that the address has are of no meaning.
pub fn keep_request(
    requests: &mut CreditSlots,
    way: Address,
    now: u64,
    asking: &Asking<'_>,
    payload: &[u8],
) -> Result<(u16, u64), NoClaim>
    requires node { way.to < length requests.old.peers }
    requires other { way.from ≢ way.to }
    requires version { is_version way.version ≡ true }
    requires handler { 1 ≤ asking.now.handler }
    requires count { length asking.now.args.now ≤ 16 }
    requires payload { length payload.now ≤ MAX_PAYLOAD }
    ensures which { IfOk result (λ r. IfSome (slice_get requests.old.peers way.to)
        (λ p. CanClaim p requests.old.last r.0 × (r.1 ≡ p.given + 1))) }
    ensures message { IfOk result (λ r.
        IsMessage (message_at_address (numbered_way way r) (content_with asking.now payload.now))) }
    ensures kept { IfOk result (λ r. requests.new ≡ with_request requests.old way.to
        (record { slot = r.0; number = r.1; time = now })
        (spelling (message_at_address (numbered_way way r) (content_with asking.now payload.now)))) }
    ensures refused { OnErr result (requests.new ≡ requests.old) }
    ensures when { IfErr result (λ e. IfSome (slice_get requests.old.peers way.to)
        (λ p. Refuses p requests.old.last e)) }
{
    let mut claimed = requests.claim(way.to, now)?;
    let slot = claimed.slot;
    let number = claimed.number;
    let address = Address {
        slot,
        number,
        ..way
    };
    let len = spell(&outgoing(address, asking, payload), claimed.buffer());
    claimed.commit(len);
    Ok((slot, number))
}

/// Keeps a reply of the library, or an Ack, to a request that is new in its slot.
pub fn keep_reply(replies: &mut ReplySlots, reply: &Outgoing<'_>)
    requires formed { IsWellFormed (outgoing_message reply.now) }
    requires slot { reply.now.slot < slot_count replies.old reply.now.to }
    requires new { JudgesAt replies.old reply.now.to reply.now.slot reply.now.number Judged.New }
    ensures message { IsMessage (outgoing_message reply.now) }
    ensures kept { replies.new ≡ with_reply replies.old reply.now.to reply.now.slot
        reply.now.number (spelling (outgoing_message reply.now)) }
{
    let mut place = replies.place(reply.to, reply.slot, reply.number);
    let len = spell(reply, place.buffer());
    place.commit(len);
}
