//! The calls of a thread on its node's own segment.

ghost use Rattle.std.specs.Prelude.{◌≡◌};
ghost use Rattle.node_rules.specs.Memory.{OnSegment, Show, Set, Fill, LoadWord, SetWord, refused_as};

use node_rules::Local;
use part_segment::{Offset, Segment, TypedFault};

/// Whether a range lies inside, to be read there: `Outside` exactly where it passes the end.
pub fn show(segment: &Segment, offset: u64, len: u64) -> Local
    ensures { OnSegment segment.now (Show offset len) result segment.now }
{
    if segment.contains(offset, len) {
        Local::Shown { offset, len }
    } else {
        Local::Outside
    }
}

/// Writes these bytes from `offset` on: `Outside` exactly where they pass the end.
pub fn set(segment: &mut Segment, offset: u64, bytes: &[u8]) -> Local
    ensures { OnSegment segment.old (Set (record { offset = offset; bytes = bytes.now })) result
        segment.new }
{
    let len = bytes.len() as u64;
    if !segment.contains(offset, len) {
        return Local::Outside;
    }
    segment.part_mut(offset, len).copy_from_slice(bytes);
    Local::Done
}

/// Writes `byte` to each place of a range: `Outside` exactly where it passes the end.
pub fn fill(segment: &mut Segment, offset: u64, len: u64, byte: u8) -> Local
    ensures { OnSegment segment.old (Fill offset len byte) result segment.new }
{
    match segment.fill(offset, len, byte) {
        Ok(()) => Local::Done,
        Err(_) => Local::Outside,
    }
}

/// The number of 8 bytes there, little-endian: `Outside` exactly where they pass the end, then
/// `Unaligned` where the offset is no multiple of 8.
pub fn load_word(segment: &Segment, offset: u64) -> Local
    ensures { OnSegment segment.now (LoadWord offset) result segment.now }
{
    let at: Offset<u64> = Offset::at(offset);
    match segment.load(at) {
        Ok(value) => Local::Number(value),
        Err(fault) => refused(fault),
    }
}

/// The number there becomes `value`; refused as `load_word`.
pub fn set_word(segment: &mut Segment, offset: u64, value: u64) -> Local
    ensures { OnSegment segment.old (SetWord offset value) result segment.new }
{
    let at: Offset<u64> = Offset::at(offset);
    match segment.store(at, value) {
        Ok(()) => Local::Done,
        Err(fault) => refused(fault),
    }
}

/// How a number is refused.
fn refused(fault: TypedFault) -> Local
    ensures { result ≡ refused_as fault }
{
    match fault {
        TypedFault::Outside => Local::Outside,
        TypedFault::Unaligned => Local::Unaligned,
    }
}
