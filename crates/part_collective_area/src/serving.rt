//! The handler of collectives.

ghost use Rattle.std.specs.Prelude.{◌≡◌, ◌+◌, ◌≤◌, ◌==◌, ◌&&◌, nat_le, ℤ, List, ◌%◌, length};
ghost use Rattle.std.specs.Int.{w64, to_le_bytes};
ghost use Rattle.part_segment.specs.Bytes.{with_part};
ghost use Rattle.part_segment.specs.Image.{written_by};
ghost use Rattle.part_handlers.specs.Tokens.{stage};
ghost use Rattle.part_handlers.specs.declared.serves.Serves.TheVariants as served;
ghost use Rattle.part_collective_area.specs.Served.{AtStamped, header_at, number_at};

use part_handlers::{Entry, Serves, Token};
use part_segment::{Offset, Segment};
use wire_message::joined;

/// The handler of collectives.
const REQUEST: u8 = 254;

/// The entry of the handler of collectives. It lists no locks.
pub fn entry() -> Entry
    ensures { result ≡ record { index = 254; serves = served.Requests; locks = 0 } }
{
    Entry {
        index: REQUEST,
        serves: Serves::Requests,
        locks: 0,
    }
}

/// The number whose upper half is that argument, and its lower half the one behind it.
fn number_at(args: &[i32], place: usize) -> u64
    requires { place + 2 ≤ length args.now }
    ensures { result ≡ number_at args.now place }
{
    joined(args[place], args[place + 1])
}

/// Writes a word at an offset.
fn write_word(segment: &mut Segment, offset: u64, word: u64)
    requires inside { offset + 8 ≤ length segment.old }
    requires aligned { offset % 8 ≡ 0 }
    ensures written { segment.new ≡ with_part segment.old offset (to_le_bytes w64 word) }
    ensures same_length { length segment.new ≡ length segment.old }
{
    let _ = segment.store(Offset::at(offset), word);
}

/// Writes a stamp and the word of a shape in the 16 bytes before an offset.
fn write_header(segment: &mut Segment, offset: u64, stamp: u64, shape: u64)
    requires room { 16 ≤ offset }
    requires inside { offset ≤ length segment.old }
    requires aligned { offset % 8 ≡ 0 }
    ensures written { segment.new ≡ written_by segment.old (header_at offset stamp shape) }
    ensures same_length { length segment.new ≡ length segment.old }
{
    write_word(segment, offset - 16, stamp);
    write_word(segment, offset - 8, shape);
}

/// Whether a message with so many arguments, whose data begins at this offset, brings a header, in a segment of so many
/// bytes.
fn has_header(args: usize, offset: u64, segment: u64) -> bool
    ensures { result ≡ ((args == 4)
        && (nat_le 16 offset && ((offset % 8 == 0) && nat_le offset segment))) }
{
    args == 4 && offset >= 16 && offset % 8 == 0 && offset <= segment
}

/// Runs the handler of collectives with a token: writes what its message says, a stamp and a shape, in the 16 bytes
/// before the message's place. It takes no memory, and replies nothing.
///
/// Where the message has no place, its place isn't at a multiple of 8 or is below 16, or there aren't four arguments,
/// nothing happens.
pub fn serve(segment: &mut Segment, token: &mut Token<'_>)
    ensures served { (cells : List ℤ) → AtStamped (stage segment.old cells token.old)
        (stage segment.new cells token.new) }
    ensures token { token.new ≡ token.old }
{
    let Some((offset, _)) = token.place() else {
        return;
    };
    if !has_header(token.args().len(), offset, segment.len()) {
        return;
    }
    let stamp = number_at(token.args(), 0);
    let shape = number_at(token.args(), 2);
    write_header(segment, offset, stamp, shape);
}
