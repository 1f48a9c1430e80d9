//! A batch of operations on words of a node's segment.

ghost use Rattle.std.specs.Prelude.{◌≡◌, ◌≤◌, None, length};
ghost use Rattle.node_atomics.specs.Words.{AllHave64Bits, Has64Bits};
ghost use Rattle.node_atomics.specs.BatchRequests.{BatchRequest, place_fault, batch_fault};
ghost use Rattle.node_atomics.specs.BatchRequests.{batch_arguments, spelled_ops};
ghost use Rattle.node_atomics.specs.Batches.{IsMade};

use crate::request::{MOST, are_aligned, are_inside, is_block_inside};
use crate::word::{Op, WordOp, spell};
use arrayvec::ArrayVec;
use std::error::Error;
use std::fmt;
use std::marker::Model;
use wire_message::{Settings, high_half, low_half};

/// Why there is no such batch.
#[derive(Clone, Copy, Debug)]
pub enum BatchFault {
    /// The target is no node of the job.
    Node,
    /// There are no operations, or more than 64.
    Count,
    /// A word passes the end of the target's segment.
    Offset,
    /// The block of the reply passes the end of the local segment.
    Local,
    /// A word's offset, or the block's, isn't a multiple of 8.
    Unaligned,
}

impl fmt::Display for BatchFault {
    fn fmt<W: fmt::Write>(&self, f: &mut fmt::Formatter<W>) -> fmt::Result {
        match *self {
            BatchFault::Node => write!(f, "the target is no node of the job"),
            BatchFault::Count => write!(f, "no operations, or more than 64"),
            BatchFault::Offset => write!(f, "a word passes the end of the target's segment"),
            BatchFault::Local => write!(
                f,
                "the block of the reply passes the end of the local segment"
            ),
            BatchFault::Unaligned => write!(f, "an offset isn't a multiple of 8"),
        }
    }
}

impl Error for BatchFault {}

/// A batch: 1 to 64 operations on words of the target's segment, which are done at one moment, and the place in the
/// local segment where what the words were comes back, with a tag behind it.
#[derive(Drop)]
pub struct Batch {
    pub(crate) settings: Settings,
    to: u16,
    local: u64,
    tag: u64,
    ops: ArrayVec<WordOp, MOST>,
}

impl Model for Batch {
    ghost use Rattle.node_atomics.specs.Batches.{BatchState, IsBatch};

    ghost Value = { BatchState };

    ghost view = { λ b. record {
      settings = b.settings;
      to = b.to;
      request = record { local = b.local; tag = b.tag; ops = b.ops.items };
    } };

    ghost invariant = { λ b. IsBatch (record {
      settings = b.settings;
      to = b.to;
      request = record { local = b.local; tag = b.tag; ops = b.ops.items };
    }) };
}

impl Batch {
    /// The batch with these operations, for that node of a job with these settings; its reply's block goes to `local`,
    /// and `tag` comes back with it. It takes no memory.
    ///
    /// # Errors
    ///
    /// The first of these that applies: `Node`, the target is no node; `Count`, no operations or more than 64;
    /// `Offset`, a word passes the end of the segment; `Local`, the block of 8 bytes for each operation and 8 more
    /// does; `Unaligned`, a word's offset or `local` isn't a multiple of 8.
    pub fn new(
        settings: &Settings,
        to: u16,
        local: u64,
        tag: u64,
        ops: &[WordOp],
    ) -> Result<Batch, BatchFault>
        ensures made { let request : BatchRequest = record { local = local; tag = tag; ops = ops.now } in
            IsMade (record { settings = settings.now; to = to; request = request })
            (batch_fault settings.now to request) result }
    {
        if to >= settings.nodes() {
            return Err(BatchFault::Node);
        }
        if ops.is_empty() || ops.len() > MOST {
            return Err(BatchFault::Count);
        }
        if let Some(fault) = fault_of_places(settings.segment(), local, ops) {
            return Err(fault);
        }
        Ok(Batch {
            settings: *settings,
            to,
            local,
            tag,
            ops: copy_of(ops),
        })
    }

    /// The node that it is for.
    pub fn to(&self) -> u16
        ensures { result ≡ self.now.to }
    {
        self.to
    }

    /// Where the block of its reply goes in the local segment.
    pub fn local(&self) -> u64
        ensures { result ≡ self.now.request.local }
    {
        self.local
    }

    /// What comes back behind the words.
    pub fn tag(&self) -> u64
        ensures { result ≡ self.now.request.tag }
    {
        self.tag
    }

    /// Its operations, in order.
    pub fn ops(&self) -> &[WordOp]
        ensures value { result.now ≡ self.now.request.ops }
    {
        self.ops.as_slice()
    }

    /// The arguments of its request: the place of the block and the tag, each as two words with the upper half first.
    pub fn arguments(&self) -> [i32; 4]
        ensures { result ≡ batch_arguments self.now.request.local self.now.request.tag }
    {
        [
            high_half(self.local),
            low_half(self.local),
            high_half(self.tag),
            low_half(self.tag),
        ]
    }

    /// The payload of its request: 32 bytes for each operation.
    pub fn payload(&self) -> ArrayVec<u8, 2048>
        ensures spelled { result.items ≡ spelled_ops self.now.request.ops }
    {
        spelled(self.ops.as_slice())
    }
}

/// What is wrong with the places of at most 64 operations and of a block, where each segment has so many bytes.
pub(crate) fn fault_of_places(segment: u64, local: u64, ops: &[WordOp]) -> Option<BatchFault>
    requires few { length ops.now ≤ 64 }
    ensures { result ≡ place_fault segment local ops.now }
{
    if !are_inside(segment, ops) {
        return Some(BatchFault::Offset);
    }
    if !is_block_inside(segment, local, ops) {
        return Some(BatchFault::Local);
    }
    if !are_aligned(local, ops) {
        return Some(BatchFault::Unaligned);
    }
    None
}

/// A copy of at most 64 operations.
fn copy_of(ops: &[WordOp]) -> ArrayVec<WordOp, MOST>
    requires few { length ops.now ≤ 64 }
    ensures same { result.items ≡ ops.now }
    ensures wide { AllHave64Bits ops.now }
{
    let mut copy = ArrayVec::new();
    for word in ops {
        copy.push(with_numbers(word.op, word.offset, word.a, word.b));
    }
    copy
}

/// An operation with these numbers, which have 64 bits each.
fn with_numbers(op: Op, offset: u64, a: u64, b: u64) -> WordOp
    ensures value { result ≡ record { op = op; offset = offset; a = a; b = b } }
    ensures wide { Has64Bits result }
{
    WordOp { op, offset, a, b }
}

/// The bytes of at most 64 operations, one after another.
fn spelled(ops: &[WordOp]) -> ArrayVec<u8, 2048>
    requires few { length ops.now ≤ 64 }
    ensures { result.items ≡ spelled_ops ops.now }
{
    let mut bytes = ArrayVec::new();
    for word in ops {
        spell(*word, &mut bytes);
    }
    bytes
}
