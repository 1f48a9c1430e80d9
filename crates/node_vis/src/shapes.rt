//! What is asked of a plan, what it is made of, why it is refused, and how its beginning is answered.

use part_handlers::Forbidden;
use std::error::Error;
use std::fmt;

/// Which segment is read, and which is written.
#[derive(Clone, Copy, Debug)]
pub enum Way {
    /// Bytes of the local segment are written into the target's.
    Put,
    /// Bytes of the target's segment are written into the local one.
    Get,
}

/// A level of a strided transfer: an index from 0 on, and how far it moves both sides.
#[derive(Clone, Copy, Debug)]
pub struct Level {
    /// How many values the index has.
    pub count: u64,
    /// The stride in the target's segment, in bytes.
    pub remote: u64,
    /// The stride in the local segment, in bytes.
    pub local: u64,
}

/// A strided transfer: `len` bytes for each vector of indexes below the counts of its levels, the last level fastest.
/// On each side they begin behind the first byte by the sum of each index times its level's stride.
#[derive(Clone, Copy)]
pub struct Strided<'a> {
    /// Which way the bytes go.
    pub way: Way,
    /// The target.
    pub to: u16,
    /// The first byte in the target's segment.
    pub remote: u64,
    /// The first byte in the local segment.
    pub local: u64,
    /// How many bytes go for each vector of indexes.
    pub len: u64,
    /// The levels, at most 4.
    pub levels: &'a [Level],
}

/// An indexed transfer: the bytes of the remote ranges, one range behind the other, with those of the local ranges. A
/// range is its first byte and its length.
#[derive(Clone, Copy)]
pub struct Indexed<'a> {
    /// Which way the bytes go.
    pub way: Way,
    /// The target.
    pub to: u16,
    /// The ranges of the target's segment, at most 256.
    pub remote: &'a [(u64, u64)],
    /// The ranges of the local segment, at most 256. They have as many bytes as the remote ones.
    pub local: &'a [(u64, u64)],
}

/// A piece of a plan: bytes that follow one another on both sides.
#[derive(Clone, Copy, Debug)]
pub struct Piece {
    /// The first byte in the target's segment.
    pub remote: u64,
    /// The first byte in the local segment.
    pub local: u64,
    /// How many bytes it has.
    pub len: u64,
}

/// Why a plan isn't made: the first reason of this order that applies. `NoMemory` may come in place of any.
#[derive(Clone, Copy, Debug)]
pub enum PlanFault {
    /// The target is no node.
    Node,
    /// There are more than 4 levels, or more than 256 ranges on a side.
    Shape,
    /// The ranges of the two sides have different numbers of bytes.
    Length,
    /// There are more than 65,536 vectors of indexes, or more than 1,024 pieces.
    Pieces,
    /// A byte lies outside the local segment.
    Source,
    /// A byte lies outside the target's segment.
    Offset,
    /// A byte would be written twice.
    Overlap,
    /// Memory ran out.
    NoMemory,
}

impl fmt::Display for PlanFault {
    fn fmt<W: fmt::Write>(&self, f: &mut fmt::Formatter<W>) -> fmt::Result {
        match *self {
            PlanFault::Node => write!(f, "the target is no node"),
            PlanFault::Shape => write!(f, "more than 4 levels, or more than 256 ranges on a side"),
            PlanFault::Length => write!(f, "the sides have different numbers of bytes"),
            PlanFault::Pieces => write!(
                f,
                "more than 65536 vectors of indexes, or more than 1024 pieces"
            ),
            PlanFault::Source => write!(f, "a byte lies outside the local segment"),
            PlanFault::Offset => write!(f, "a byte lies outside the target's segment"),
            PlanFault::Overlap => write!(f, "a byte would be written twice"),
            PlanFault::NoMemory => write!(f, "no memory"),
        }
    }
}

impl Error for PlanFault {}

/// How the beginning of a plan is answered.
#[derive(Clone, Copy, Debug)]
pub enum Vis {
    /// Each piece was begun.
    Whole,
    /// The pieces before `next` were begun, and `next` was refused: the node has as many operations as it can have, or
    /// has given its last number.
    Part {
        /// The piece to begin from the next time.
        next: usize,
    },
    /// The first piece was refused so.
    TooMany,
    /// The thread had begun a region already. No other call was made.
    Nested,
    /// The thread may not begin a region, since it holds a lock. No other call was made.
    Forbidden(Forbidden),
    /// Memory ran out. The calls before had their effect.
    NoMemory,
}
