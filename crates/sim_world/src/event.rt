//! The events of a world, and their answers.

use node_rules::{Answer, Call};

/// What may happen to a world. A message that is lost is one that is never delivered; a message may
/// be delivered any number of times, and in any order.
#[derive(Clone, Copy)]
pub enum WorldEvent<'a> {
    /// A thread of a node makes a call.
    Call {
        /// The node.
        node: u16,
        /// The thread of that node.
        thread: u16,
        /// The call.
        call: Call<'a>,
    },
    /// Request `number` of the pair, counted from 1, is delivered to `to`.
    Request {
        /// The node that sent it.
        from: u16,
        /// The node to which it is delivered.
        to: u16,
        /// The number of the request.
        number: u64,
    },
    /// The reply to that request of the pair is delivered to `from`.
    Reply {
        /// The node that sent the request, to which the reply is delivered.
        from: u16,
        /// The node that ran the request and sent the reply.
        to: u16,
        /// The number of the request.
        number: u64,
    },
    /// A tick of a node.
    Tick {
        /// The node.
        node: u16,
    },
}

/// What an event of a world is answered.
#[derive(Clone, Copy)]
pub enum WorldAnswer {
    /// The answer of the endpoint on which it fell.
    Node(Answer),
    /// That message was never sent.
    Unsent,
    /// Memory ran out; the world is as before.
    NoMemory,
}
