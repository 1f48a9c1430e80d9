//! Messages that were read.

ghost use Rattle.std.specs.Prelude.{◌≡◌, slice_get};
ghost use Rattle.wire_message.specs.Reading.{viewed_message};

use crate::kind::Kind;

/// A message that was read; arguments and payload are parts of the bytes that it was read from.
#[derive(Clone, Copy)]
pub struct View<'a> {
    /// The version of the layout, 1 or 2.
    pub version: u8,
    /// The category and way.
    pub kind: Kind,
    /// The job's number.
    pub job: u64,
    /// The sender's node.
    pub from: u16,
    /// The receiver's node; another one.
    pub to: u16,
    /// The slot of the request that this is, or is the reply to.
    pub slot: u16,
    /// The number of that request among those of its pair of nodes, from 1.
    pub number: u64,
    /// The index of the handler; 0 in an Ack alone.
    pub handler: u8,
    /// The arguments' bytes, four each; `arg` reads them.
    pub words: &'a [u8],
    /// The byte of the receiver's segment where the payload of a Long kind goes; else 0.
    pub offset: u64,
    /// The payload, at most 8,192 bytes; none in a Short kind or an Ack.
    pub payload: &'a [u8],
}

impl View<'_> {
    /// The argument at a place, from 0; None exactly where there is none.
    pub fn arg(&self, i: usize) -> Option<i32>
        ensures { result ≡ slice_get (viewed_message self.now).args i }
    {
        if i >= self.words.len() / 4 {
            return None;
        }
        let (_, rest) = self.words.split_at(4 * i);
        Some(i32::from_be_bytes([rest[0], rest[1], rest[2], rest[3]]))
    }
}
