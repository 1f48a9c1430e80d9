//! Writing bytes as words of a line.

ghost use Rattle.std.specs.Prelude.{◌≡◌, ◌<◌, ◌≤◌, ◌*◌, length};
ghost use Rattle.std.specs.List.{flat_map};
ghost use Rattle.base_io.specs.Buffered.{GathersAll, outbox};
ghost use Rattle.base_text.specs.HexBytes.{bytes_word, hex_byte, hex_digit};

use base_io::{BufferedSink, Sink, Wrote};

/// How many bytes are turned into digits at once.
const PIECE: usize = 64;

/// The digit of a value below 16.
fn hex_digit(value: u8) -> u8
    requires { value < 16 }
    ensures { result ≡ hex_digit value }
{
    if value < 10 {
        return b'0' + value;
    }
    b'a' - 10 + value
}

/// Puts two digits for each byte into room for them.
fn put_digits(bytes: &[u8], digits: &mut [u8])
    requires { length digits.old ≡ 2 * length bytes.now }
    ensures { digits.new ≡ flat_map hex_byte bytes.now }
{
    'bytes: for i in 0..bytes.len() {
        digits[2 * i] = hex_digit(bytes[i] / 16);
        digits[2 * i + 1] = hex_digit(bytes[i] % 16);
    }
}

/// Writes two digits for each of a few bytes.
fn write_piece<K: Sink>(bytes: &[u8], sink: &mut BufferedSink<K>) -> Wrote
    requires { length bytes.now ≤ 64 }
    ensures { GathersAll (outbox K.taken K.faults sink.old) (outbox K.taken K.faults sink.new)
        (flat_map hex_byte bytes.now) result }
{
    let mut room = [0; 2 * PIECE];
    let (digits, _) = room.split_at_mut(2 * bytes.len());
    put_digits(bytes, digits);
    sink.write_all(digits)
}

/// Writes two digits for each byte.
///
/// `Fault` comes only where the sink failed; a prefix of the digits went in then. It takes no memory.
pub fn write_digits<K: Sink>(bytes: &[u8], sink: &mut BufferedSink<K>) -> Wrote
    ensures { GathersAll (outbox K.taken K.faults sink.old) (outbox K.taken K.faults sink.new)
        (flat_map hex_byte bytes.now) result }
{
    let mut rest = bytes;
    while !rest.is_empty() {
        let (piece, others) = rest.split_at(rest.len().min(PIECE));
        if let Wrote::Fault = write_piece(piece, sink) {
            return Wrote::Fault;
        }
        rest = others;
    }
    Wrote::Done
}

/// Writes the word of bytes: `x`, and two digits for each.
///
/// `Fault` comes only where the sink failed; a prefix of the word went in then. It takes no memory.
pub fn write_bytes<K: Sink>(bytes: &[u8], sink: &mut BufferedSink<K>) -> Wrote
    ensures { GathersAll (outbox K.taken K.faults sink.old) (outbox K.taken K.faults sink.new)
        (bytes_word bytes.now) result }
{
    if let Wrote::Fault = sink.write_all(b"x") {
        return Wrote::Fault;
    }
    write_digits(bytes, sink)
}
