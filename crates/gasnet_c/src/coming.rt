//! What a delivery would run.

ghost use Rattle.std.specs.Prelude.{◌≡◌, true};
ghost use Rattle.wire_message.specs.Content.{is_version};
ghost use Rattle.gasnet_c.specs.Peeking.{Peeks, TellsView, category_of, runs_by};

use node_core::Delivered;
use node_endpoint::Endpoint;
use wire_message::{Kind, View, view};

/// The client's handler that a delivery of some bytes would run, and where its message stands in them:
/// `gasnet_c_coming`.
#[repr(C)]
#[derive(Clone, Copy, Drop)]
pub struct Coming {
    /// 0: none; 1: that of a request; 2: that of a reply.
    pub runs: u32,
    /// The sender.
    pub from: u32,
    /// The index of the handler.
    pub handler: u32,
    /// 0 for a Short, 1 for a Medium, 2 for a Long.
    pub category: u32,
    /// How many arguments there are.
    pub count: u32,
    /// Where in the bytes the first argument stands: 4 bytes each, big-endian.
    pub args_at: u64,
    /// Where in the bytes the payload stands; the arguments end there.
    pub payload_at: u64,
    /// How many bytes the payload has.
    pub payload_len: u64,
    /// A Long's place in the local segment.
    pub place: u64,
}

/// No handler runs.
pub fn nothing() -> Coming
    ensures { result.runs ≡ 0 }
{
    Coming {
        runs: 0,
        from: 0,
        handler: 0,
        category: 0,
        count: 0,
        args_at: 0,
        payload_at: 0,
        payload_len: 0,
        place: 0,
    }
}

/// How the client's handler runs where a delivery is answered so, of a message for a handler of this index.
fn runs_by(answer: &Delivered, handler: u8) -> u32
    ensures { result ≡ runs_by answer.now handler }
{
    match answer {
        Delivered::Ran(_) if handler >= 128 => 1,
        Delivered::Returned { .. } if handler >= 128 => 2,
        _ => 0,
    }
}

/// The number of a kind's category.
fn category_of(kind: Kind) -> u32
    ensures { result ≡ category_of kind }
{
    match kind {
        Kind::ShortRequest | Kind::ShortReply | Kind::Ack => 0,
        Kind::MediumRequest | Kind::MediumReply => 1,
        Kind::LongRequest | Kind::LongReply => 2,
    }
}

/// What C is told of a message whose delivery runs this.
fn told_of(message: &View<'_>, runs: u32) -> Coming
    ensures runs { result.runs ≡ runs }
    ensures message { TellsView message.now result }
{
    let words = message.words.len();
    Coming {
        runs,
        from: u32::from(message.from),
        handler: u32::from(message.handler),
        category: category_of(message.kind),
        count: (words / 4).min(16) as u32,
        args_at: 40,
        payload_at: words as u64 + 40,
        payload_len: message.payload.len() as u64,
        place: message.offset,
    }
}

/// What a delivery of these bytes would run at an endpoint whose datagrams are of this version.
#[tactic(auto, using(crate::proofs::Peeked::peeks_read, crate::proofs::Peeked::peeks_unread))]
pub fn peeked(endpoint: &Endpoint, version: u8, bytes: &[u8]) -> Coming
    requires version { endpoint.now.core.settings.version ≡ version }
    requires known { is_version version ≡ true }
    ensures { Peeks endpoint.now bytes.now result }
{
    let answer = endpoint.would_deliver(bytes);
    let Ok(message) = view(bytes, version) else {
        return nothing();
    };
    let runs = runs_by(&answer, message.handler);
    told_of(&message, runs)
}
