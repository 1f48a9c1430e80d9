//! A reply as a handler asks for it.

ghost use Rattle.std.specs.Prelude.{◌≡◌, ◌≤◌, length};
ghost use Rattle.wire_message.specs.Message.{IsWellFormed};
ghost use Rattle.wire_message.specs.Reading.{outgoing_message};
ghost use Rattle.wire_message.specs.Content.{Content, IsWellAddressed, message_at_address};
ghost use Rattle.part_handlers.specs.Runs.{passes_end};
ghost use Rattle.part_handlers.specs.Asked.{IsSmall, asked_content};

use wire_message::{Address, Kind, Outgoing, long_reply, medium_reply, short_reply};

/// What a reply carries beside its arguments.
#[derive(Clone, Copy)]
pub(crate) enum Load<'a> {
    /// Nothing: a Short reply.
    Nothing,
    /// A Medium reply's payload.
    Medium(&'a [u8]),
    /// A Long reply's payload, and the byte of the requester's segment where it goes.
    Long { payload: &'a [u8], offset: u64 },
}

/// A reply as a handler asks for it.
#[derive(Clone, Copy)]
pub(crate) struct AskedReply<'a> {
    pub handler: u8,
    pub args: &'a [i32],
    pub load: Load<'a>,
}

impl<'a> AskedReply<'a> {
    /// The category.
    pub fn kind(&self) -> Kind
        ensures { result ≡ (asked_content self.now).kind }
    {
        match self.load {
            Load::Nothing => Kind::ShortReply,
            Load::Medium(_) => Kind::MediumReply,
            Load::Long { .. } => Kind::LongReply,
        }
    }

    /// The payload; empty for a Short reply.
    pub fn payload(&self) -> &'a [u8]
        ensures { result.now ≡ (asked_content self.now).payload }
    {
        match self.load {
            Load::Nothing => &[],
            Load::Medium(payload) | Load::Long { payload, .. } => payload,
        }
    }

    /// The byte of the requester's segment where a Long reply's payload goes; else 0.
    pub fn offset(&self) -> u64
        ensures { result ≡ (asked_content self.now).offset }
    {
        match self.load {
            Load::Nothing | Load::Medium(_) => 0,
            Load::Long { offset, .. } => offset,
        }
    }

    /// Whether the payload's place passes the end of a segment of this many bytes.
    pub fn passes_end(&self, segment: u64) -> bool
        ensures { result ≡ passes_end segment (asked_content self.now) }
    {
        match self.load {
            Load::Nothing | Load::Medium(_) => false,
            Load::Long { payload, offset } => {
                offset > segment || payload.len() as u64 > segment - offset
            }
        }
    }

    /// The reply's parts on their way to this address.
    pub fn outgoing(&self, address: Address) -> Outgoing<'a>
        requires address { IsWellAddressed address }
        requires small { IsSmall (asked_content self.now) }
        ensures value { outgoing_message result ≡ message_at_address address (asked_content self.now) }
        ensures formed { IsWellFormed (outgoing_message result) }
    {
        match self.load {
            Load::Nothing => short_reply(address, self.handler, self.args),
            Load::Medium(payload) => medium_reply(address, self.handler, self.args, payload),
            Load::Long { payload, offset } => {
                long_reply(address, self.handler, self.args, offset, payload)
            }
        }
    }
}
