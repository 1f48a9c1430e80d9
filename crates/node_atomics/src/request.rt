//! What a message asks, and whether its places are good.

ghost use Rattle.std.specs.Prelude.{◌≡◌, ◌≤◌, ◌+◌, ◌/◌, ◌*◌, Some, None, IfSome, IfNone, length, not, nat_lt};
ghost use Rattle.node_atomics.specs.BatchRequests.{op_in, ops_said, number_in, number_of_halves, block_size};
ghost use Rattle.node_atomics.specs.BatchRequests.{are_inside, are_words_aligned, are_aligned};

use crate::word::{Op, WordOp};
use arrayvec::ArrayVec;
use wire_message::joined;

/// The most operations that a batch has.
pub(crate) const MOST: usize = 64;

/// Whether all words lie inside a segment of so many bytes.
pub(crate) fn are_inside(segment: u64, ops: &[WordOp]) -> bool
    ensures { result ≡ are_inside segment ops.now }
{
    ops.iter()
        .all(|word| segment >= 8 && word.offset <= segment - 8)
}

/// Whether the block of a reply lies inside a segment of so many bytes.
pub(crate) fn is_block_inside(segment: u64, local: u64, ops: &[WordOp]) -> bool
    requires few { length ops.now ≤ 64 }
    ensures { not result ≡ nat_lt segment (local + block_size ops.now) }
{
    let size = 8 * ops.len() as u64 + 8;
    segment >= size && local <= segment - size
}

/// Whether each word begins at a multiple of 8.
fn are_words_aligned(ops: &[WordOp]) -> bool
    ensures { result ≡ are_words_aligned ops.now }
{
    ops.iter().all(|word| word.offset % 8 == 0)
}

/// Whether each word, and the block, begins at a multiple of 8.
pub(crate) fn are_aligned(local: u64, ops: &[WordOp]) -> bool
    ensures { result ≡ are_aligned local ops.now }
{
    local % 8 == 0 && are_words_aligned(ops)
}

/// The number whose upper half is that argument, and its lower half the one behind it.
pub(crate) fn number_at(args: &[i32], place: usize) -> u64
    requires { place + 2 ≤ length args.now }
    ensures { result ≡ number_of_halves args.now place }
{
    joined(args[place], args[place + 1])
}

/// The number that 8 bytes from there on spell.
fn number_in(bytes: &[u8], at: usize) -> u64
    requires { at + 8 ≤ length bytes.now }
    ensures { result ≡ number_in bytes.now at }
{
    u64::from_be_bytes([
        bytes[at],
        bytes[at + 1],
        bytes[at + 2],
        bytes[at + 3],
        bytes[at + 4],
        bytes[at + 5],
        bytes[at + 6],
        bytes[at + 7],
    ])
}

/// The operation that 32 bytes spell, if they do.
fn op_in(bytes: &[u8]) -> Option<WordOp>
    requires { length bytes.now ≡ 32 }
    ensures { result ≡ op_in bytes.now }
{
    let op = Op::of_code(number_in(bytes, 0))?;
    Some(WordOp {
        op,
        offset: number_in(bytes, 8),
        a: number_in(bytes, 16),
        b: number_in(bytes, 24),
    })
}

/// The operations that a payload spells, if it spells 1 to 64.
pub(crate) fn ops_said(payload: &[u8]) -> Option<ArrayVec<WordOp, MOST>>
    ensures some { IfSome result (λ ops. ops_said payload.now ≡ Some ops.items) }
    ensures none { IfNone result (ops_said payload.now ≡ None) }
    ensures few { IfSome result (λ ops. length ops.items ≤ 64) }
{
    let count = payload.len() / 32;
    if payload.len() % 32 != 0 || count == 0 || count > MOST {
        return None;
    }
    let mut ops = ArrayVec::new();
    for k in 0..count {
        let word = op_in(&payload[32 * k..32 * k + 32])?;
        ops.push(word);
    }
    Some(ops)
}
