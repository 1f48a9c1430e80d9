//! Reading a source to its end.

ghost use Rattle.std.specs.Prelude.{◌≤◌};
ghost use Rattle.base_io.specs.Faults.{Rose};
ghost use Rattle.base_io.specs.Whole.{ReadsAll, IsFault};

use crate::source::{Got, Source};
use std::alloc::Global;

/// What reading to the end gave.
#[derive(Drop)]
pub enum ReadAll {
    /// All the bytes.
    Bytes(Vec<u8>),
    /// More bytes than the limit.
    TooLong,
    /// The source failed.
    Fault,
    /// Memory ran out.
    NoMemory,
}

/// Reads all the bytes that are left, up to a limit, which is a number of bytes.
///
/// `Bytes` are all the bytes that were read, at most `limit`, and nothing is left where the source tells what is left.
/// `TooLong` comes exactly where more than `limit` bytes were read. `Fault` comes only where the source's count of
/// faults rose (or stands at its last value), and `NoMemory` where memory ran out; in both cases at most `limit` bytes
/// were read and are lost.
pub fn read_all<S: Source>(alloc: Global, source: &mut S, limit: usize) -> ReadAll
    ensures bytes { ReadsAll (S.left source.old) (S.left source.new) limit result }
    ensures later { S.faults source.old ≤ S.faults source.new }
    ensures fault { IsFault result → Rose (S.faults source.old) (S.faults source.new) }
{
    let mut bytes = Vec::new(alloc);
    let mut piece = [0u8; 32768];
    loop {
        match source.read(&mut piece) {
            Got::Failed => return ReadAll::Fault,
            Got::End => return ReadAll::Bytes(bytes),
            Got::Got(n) => {
                if n == 0 {
                    return ReadAll::Bytes(bytes);
                }
                if n > limit - bytes.len() {
                    return ReadAll::TooLong;
                }
                if bytes.extend_from_slice(&piece[..n]).is_err() {
                    return ReadAll::NoMemory;
                }
            }
        }
    }
}
