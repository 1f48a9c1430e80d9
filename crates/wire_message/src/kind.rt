//! The kinds of messages, and the bytes that stand for them.

ghost use Rattle.std.specs.Prelude.{◌≡◌, ◌<◌, ◌≤◌};
ghost use Rattle.wire_message.specs.Content.{code, is_version, is_kind, is_ack};
ghost use Rattle.wire_message.specs.Content.{is_long, is_bare};
ghost use Rattle.wire_message.specs.Reading.{kind_of};

/// The category of a message and its way (GASNet 1.8.1, core API, active messages: Short, Medium and Long requests and
/// replies), or the library's own answer to a request whose handler sent no reply.
#[derive(Clone, Copy, PartialEq, Eq)]
pub enum Kind {
    /// A request with arguments alone.
    ShortRequest,
    /// A request with a payload, which its handler sees in a buffer of the library.
    MediumRequest,
    /// A request with a payload that goes to a place of the receiver's segment.
    LongRequest,
    /// A reply with arguments alone.
    ShortReply,
    /// A reply with a payload, which its handler sees in a buffer of the library.
    MediumReply,
    /// A reply with a payload that goes to a place of the receiver's segment.
    LongReply,
    /// The empty reply of the library itself (profile), which gives a request's credit back.
    Ack,
}

impl Kind {
    /// The byte that stands for the kind.
    pub(crate) fn code(self) -> u8
        ensures { result ≡ code self }
    {
        match self {
            Kind::ShortRequest => 0,
            Kind::MediumRequest => 1,
            Kind::LongRequest => 2,
            Kind::ShortReply => 3,
            Kind::MediumReply => 4,
            Kind::LongReply => 5,
            Kind::Ack => 6,
        }
    }

    /// The kind that a byte stands for.
    pub(crate) fn of_code(code: u8) -> Kind
        ensures { result ≡ kind_of code }
    {
        match code {
            0 => Kind::ShortRequest,
            1 => Kind::MediumRequest,
            2 => Kind::LongRequest,
            3 => Kind::ShortReply,
            4 => Kind::MediumReply,
            5 => Kind::LongReply,
            _ => Kind::Ack,
        }
    }
}

/// Whether it is a version of the layout.
pub(crate) fn is_version(version: u8) -> bool
    ensures { result ≡ is_version version }
{
    version == 1 || version == 2
}

/// Whether the byte stands for a kind.
pub(crate) fn is_kind(kind: u8) -> bool
    ensures { result ≡ is_kind kind }
{
    kind < 7
}

/// Whether the byte stands for an Ack.
pub(crate) fn is_ack(kind: u8) -> bool
    ensures { result ≡ is_ack kind }
{
    kind == 6
}

/// Whether the byte stands for a Long request or reply.
pub(crate) fn is_long(kind: u8) -> bool
    ensures { result ≡ is_long kind }
{
    kind == 2 || kind == 5
}

/// Whether the byte stands for a kind without a payload: a Short request or reply, or an Ack.
pub(crate) fn is_bare(kind: u8) -> bool
    ensures { result ≡ is_bare kind }
{
    kind == 0 || kind == 3 || kind == 6
}
