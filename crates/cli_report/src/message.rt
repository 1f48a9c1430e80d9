//! Which message a datagram is.

ghost use Rattle.std.specs.Prelude.{◌≡◌, MatchOption};
ghost use Rattle.wire_message.specs.Content.{is_request};
ghost use Rattle.cli_report.specs.Messages.{AreNoMessage, IsMessageOf, message_of_view};

use crate::unsent::Message;
use wire_message::{Kind, View, view};

/// Whether a kind of messages is one of requests.
fn is_request(kind: Kind) -> bool
    ensures { result ≡ is_request kind }
{
    match kind {
        Kind::ShortRequest | Kind::MediumRequest | Kind::LongRequest => true,
        Kind::ShortReply | Kind::MediumReply | Kind::LongReply | Kind::Ack => false,
    }
}

/// What is told of a message.
fn message_of_view(seen: View<'_>) -> Message
    ensures { result ≡ message_of_view seen.entry }
{
    Message {
        is_request: is_request(seen.kind),
        from: seen.from,
        slot: seen.slot,
        number: seen.number,
    }
}

/// Which message the bytes are, of version 2 or else of version 1.
pub fn message_of(bytes: &[u8]) -> Option<Message>
    ensures { MatchOption result (AreNoMessage bytes.now) (IsMessageOf bytes.now) }
{
    if let Ok(seen) = view(bytes, 2) {
        return Some(message_of_view(seen));
    }
    match view(bytes, 1) {
        Ok(seen) => Some(message_of_view(seen)),
        Err(_) => None,
    }
}
