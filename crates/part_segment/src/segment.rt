//! A node's segment.

ghost use Rattle.std.specs.Prelude.{◌≡◌, ◌+◌, ◌≤◌, IsTrue, ◌↔◌};

use crate::plain::Plain;
use crate::raw::{Bytes, Lease};
use std::alloc::{AllocError, Global};
use std::error::Error;
use std::fmt;
use std::marker::{Model, PhantomData};

/// The range passes the end of the segment.
#[derive(Clone, Copy, Debug, Drop)]
pub struct Outside;

impl fmt::Display for Outside {
    fn fmt<W: fmt::Write>(&self, f: &mut fmt::Formatter<W>) -> fmt::Result {
        write!(f, "the range passes the end of the segment")
    }
}

impl Error for Outside {}

/// Why a number is not read or written.
#[derive(Clone, Copy, Debug, Drop)]
pub enum TypedFault {
    /// Its bytes pass the end of the segment.
    Outside,
    /// They lie inside, and its offset is no multiple of its size.
    Unaligned,
}

impl fmt::Display for TypedFault {
    fn fmt<W: fmt::Write>(&self, f: &mut fmt::Formatter<W>) -> fmt::Result {
        match *self {
            TypedFault::Outside => write!(f, "the number passes the end of the segment"),
            TypedFault::Unaligned => write!(f, "the offset is no multiple of the size"),
        }
    }
}

impl Error for TypedFault {}

/// The place of a `T` in a segment.
#[derive(Clone, Copy, Drop)]
pub struct Offset<T> {
    /// Where its first byte stands, counted from 0.
    pub byte: u64,
    marker: PhantomData<T>,
}

impl<T> Offset<T> {
    /// The place whose first byte stands at `byte`.
    pub fn at(byte: u64) -> Offset<T>
        ensures { result.byte ≡ byte }
    {
        Offset {
            byte,
            marker: PhantomData,
        }
    }
}

/// A node's segment, the memory that other nodes' messages reach: bytes in one raw allocation, or in memory that was
/// given. Its value is the list of them.
///
/// Offsets and lengths are in bytes; a range of 0 bytes at the end lies inside.
pub struct Segment {
    bytes: Bytes,
    len: usize,
    // None where the bytes were given: whoever reserved them takes them back.
    block: Option<Leased>,
}

// The right to give the segment's own block back, and to whom.
struct Leased {
    lease: Lease<Global>,
    alloc: Global,
}

impl Model for Segment {
    ghost use Rattle.std.specs.Prelude.{◌≡◌, List, ℕ, length};

    ghost Value = { List ℕ };

    ghost view = { λ s. s.bytes.items };

    ghost use Rattle.std.specs.Prelude.{IfSome};

    ghost invariant = { λ s. (s.len ≡ length s.bytes.items)
        × IfSome s.block (λ block. (block.lease.alloc ≡ block.alloc)
        × (block.lease.at ≡ s.bytes.at) × (block.lease.len ≡ s.len)) };
}

impl Drop for Segment {
    fn drop(self) {
        let Segment { bytes, len, block } = self;
        if let Some(Leased { lease, alloc }) = block {
            bytes.free(len, lease, &alloc);
        }
    }
}

impl Segment {
    ghost use Rattle.std.specs.Prelude.{◌⊎◌, ℕ, ◌%◌, ◌<◌, length, replicate, IfOk, IfErr, IfSome};
    ghost use Rattle.std.specs.Prelude.{IfNone, OnErr, OnOk};
    ghost use Rattle.std.specs.Borrow.{sem, Lends, Array, u8 as byte};
    ghost use Rattle.part_segment.specs.Bytes.{IsInside, part, with_part, refill, with_lent};
    ghost use Rattle.part_segment.specs.Faults.{RefusesTyped};
    ghost use Rattle.part_segment.specs.Lending.{segment_row};

    /// A segment of `len` zeros, which are all written here. No later call takes memory.
    ///
    /// # Errors
    ///
    /// Where the memory cannot be had.
    pub fn new(alloc: Global, len: usize) -> Result<Segment, AllocError>
        ensures zeros { IfOk result (λ segment. segment ≡ replicate len 0) }
    {
        if len > isize::MAX as usize {
            return Err(AllocError);
        }
        match Bytes::zeroed(&alloc, len) {
            Some((bytes, lease)) => {
                let block = Some(Leased { lease, alloc });
                Ok(Segment { bytes, len, block })
            }
            None => Err(AllocError),
        }
    }

    /// A segment of the `len` bytes that were given. None of them is written here, and no call takes memory. Where it is
    /// dropped, they aren't given back to any allocator.
    pub fn of(bytes: Bytes, len: usize) -> Segment
        requires { len ≡ length bytes.items }
        ensures { result ≡ bytes.items }
    {
        Segment {
            bytes,
            len,
            block: None,
        }
    }

    /// All of it.
    pub fn bytes(&self) -> &[u8]
        ensures { result.now ≡ self.now }
    {
        self.bytes.all(self.len)
    }

    /// How many bytes it has.
    pub fn len(&self) -> u64
        ensures { result ≡ length self.now }
    {
        self.bytes().len() as u64
    }

    /// Whether `len` bytes from `offset` on lie inside.
    pub fn contains(&self, offset: u64, len: u64) -> bool
        ensures { IsTrue result ↔ IsInside self.now offset len }
    {
        fits(self.len(), offset, len)
    }

    /// The `len` bytes from `offset` on; none exactly where they pass the end.
    pub fn part(&self, offset: u64, len: u64) -> Option<&[u8]>
        ensures some { IfSome result (λ lent. IsInside self.now offset len
            × (lent.now ≡ part self.now offset len)) }
        ensures none { IfNone result (length self.now < offset + len) }
    {
        if !self.contains(offset, len) {
            return None;
        }
        Some(self.range(offset as usize, len as usize))
    }

    fn range(&self, offset: usize, len: usize) -> &[u8]
        requires { IsInside self.now offset len }
        ensures value { result.now ≡ part self.now offset len }
        ensures len { length result.now ≡ len }
    {
        &self.bytes()[offset..offset + len]
    }

    /// The `len` bytes from `offset` on, to be written. They lie inside: ask `contains` first. No other byte changes.
    #[tactic(auto, using(crate::proofs::Lengths::length_with_lent))]
    pub fn part_mut(&mut self, offset: u64, len: u64) -> &mut [u8]
        requires { IsInside self.old offset len }
        ensures* writes_back { sem 𝓛 (Lends segment_row (Array byte 0) self.entry result
            (with_lent self.old offset len)) }
        ensures value { result.now ≡ part self.old offset len }
        ensures len { length result.now ≡ len }
    {
        self.bytes.run_mut(offset as usize, len as usize)
    }

    /// All of it, to be written.
    #[tactic(auto, using(crate::proofs::Lengths::length_with_lent, crate::proofs::Lengths::with_lent_whole))]
    pub fn bytes_mut(&mut self) -> &mut [u8]
        ensures* writes_back { sem 𝓛 (Lends segment_row (Array byte 0) self.entry result
            (refill self.old)) }
        ensures value { result.now ≡ self.old }
        ensures len { length result.now ≡ length self.old }
    {
        let len = self.len;
        self.bytes.run_mut(0, len)
    }

    /// Copies `len` bytes from `from` on to `to`, as if through a copy: the ranges may share bytes.
    ///
    /// # Errors
    ///
    /// Exactly where one of the two ranges passes the end; then nothing changed.
    pub fn copy_within(&mut self, from: u64, to: u64, len: u64) -> Result<(), Outside>
        ensures ok { OnOk result (IsInside self.old from len × IsInside self.old to len
            × (self.new ≡ with_part self.old to (part self.old from len))) }
        ensures err { OnErr result ((length self.old < from + len ⊎ length self.old < to + len)
            × (self.new ≡ self.old)) }
    {
        if !self.contains(from, len) || !self.contains(to, len) {
            return Err(Outside);
        }
        let start = from as usize;
        self.bytes_mut()
            .copy_within(start..start + len as usize, to as usize);
        Ok(())
    }

    /// Writes `byte` to each of the `len` bytes from `offset` on.
    ///
    /// # Errors
    ///
    /// Exactly where the range passes the end; then nothing changed.
    pub fn fill(&mut self, offset: u64, len: u64, byte: u8) -> Result<(), Outside>
        ensures ok { OnOk result (IsInside self.old offset len
            × (self.new ≡ with_part self.old offset (replicate len byte))) }
        ensures err { OnErr result ((length self.old < offset + len) × (self.new ≡ self.old)) }
    {
        if !self.contains(offset, len) {
            return Err(Outside);
        }
        self.part_mut(offset, len).fill(byte);
        Ok(())
    }

    /// The number whose little-endian bytes stand at `at`.
    ///
    /// # Errors
    ///
    /// `Outside` exactly where its bytes pass the end, and `Unaligned` where they lie inside and the offset is no
    /// multiple of the number's size.
    pub fn load<T: Plain>(&self, at: Offset<T>) -> Result<T, TypedFault>
        ensures ok { IfOk result (λ value. IsInside self.now at.byte T.width
            × (at.byte % T.width ≡ 0) × (value ≡ T.value_of (part self.now at.byte T.width))) }
        ensures err { IfErr result (RefusesTyped (length self.now) at.byte T.width) }
    {
        let width = T::width();
        let Some(bytes) = self.part(at.byte, width) else {
            return Err(TypedFault::Outside);
        };
        if at.byte % width != 0 {
            return Err(TypedFault::Unaligned);
        }
        Ok(T::read(bytes))
    }

    /// Writes the number's little-endian bytes at `at`.
    ///
    /// # Errors
    ///
    /// As `load`; then nothing changed.
    pub fn store<T: Plain>(&mut self, at: Offset<T>, value: T) -> Result<(), TypedFault>
        ensures ok { OnOk result (IsInside self.old at.byte T.width × (at.byte % T.width ≡ 0)
            × (self.new ≡ with_part self.old at.byte (T.bytes_of value))) }
        ensures err { IfErr result (λ fault. RefusesTyped (length self.old) at.byte T.width fault
            × (self.new ≡ self.old)) }
    {
        let width = T::width();
        if !self.contains(at.byte, width) {
            return Err(TypedFault::Outside);
        }
        if at.byte % width != 0 {
            return Err(TypedFault::Unaligned);
        }
        value.write(self.part_mut(at.byte, width));
        Ok(())
    }
}

// Whether `len` bytes from `offset` on lie in `size` bytes.
fn fits(size: u64, offset: u64, len: u64) -> bool
    ensures { IsTrue result ↔ (offset + len ≤ size) }
{
    offset <= size && len <= size - offset
}
