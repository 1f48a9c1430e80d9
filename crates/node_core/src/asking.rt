//! What a thread asks of a node.

ghost use Rattle.std.specs.Prelude.{◌≡◌};
ghost use Rattle.node_core.specs.ClientRules.{payload_len};
ghost use Rattle.node_core.specs.AskedFor.{payload_from};

/// The categories of requests (GASNet 1.8.1, core API, active messages).
#[derive(Clone, Copy, PartialEq, Eq)]
pub enum Category {
    /// Arguments alone.
    Short,
    /// A payload, which the handler sees in a buffer.
    Medium,
    /// A payload that goes to a place of the target's segment.
    Long,
}

/// The payload of a request, at most 8,192 bytes (profile). It is copied at the call.
#[derive(Clone, Copy)]
pub enum Payload<'a> {
    /// These bytes.
    Lent(&'a [u8]),
    /// A range of the local segment.
    Own {
        /// Its first byte.
        offset: u64,
        /// How many bytes it has.
        len: u64,
    },
}

impl Payload<'_> {
    /// How many bytes it has.
    pub(crate) fn len(&self) -> u64
        ensures { result ≡ payload_len (payload_from self.now) }
    {
        match *self {
            Payload::Lent(bytes) => bytes.len() as u64,
            Payload::Own { offset: _, len } => len,
        }
    }
}

/// A request, as a thread asks for it.
#[derive(Clone, Copy)]
pub struct Asking<'a> {
    /// The thread that asks.
    pub thread: u16,
    /// The node that it asks.
    pub to: u16,
    /// The category.
    pub category: Category,
    /// The index of the handler there.
    pub handler: u8,
    /// The handler's arguments, at most 16.
    pub args: &'a [i32],
    /// The payload; of no meaning in a Short request.
    pub payload: Payload<'a>,
    /// Where a Long's payload goes: its first byte in the target's segment; of no meaning in the others.
    pub offset: u64,
}
