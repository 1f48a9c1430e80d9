//! The locks that a handler lists.

ghost use Rattle.std.specs.Prelude.{◌≡◌, length, true};
ghost use Rattle.text_calls.specs.Forms.{parts_at, U8};
ghost use Rattle.text_job.specs.Locks.{are_listed, listed_by};
ghost use Rattle.base_text.specs.Found.{Reads};

use base_text::{Miss, has_more};
use std::alloc::Global;
use text_calls::byte_at;

/// The greatest lock.
const LAST: u8 = 63;

/// Numbers of 8 bits to the end of the line.
pub fn locks_at(alloc: Global, bytes: &[u8]) -> Result<(Vec<u8>, &[u8]), Miss>
    ensures { Reads (λ x. (x.0.items, x.1.now)) result (parts_at U8 (length bytes.now) bytes.now) }
{
    let mut items = Vec::new(alloc);
    let mut rest = bytes;
    while has_more(items.len(), bytes.len(), rest) {
        let (lock, after) = byte_at(rest, 255)?;
        items.push(lock)?;
        rest = after;
    }
    Ok((items, rest))
}

/// Whether locks rise strictly, and none is above the greatest one.
pub fn are_listed(locks: &[u8]) -> bool
    ensures { result ≡ are_listed 0 locks.now }
{
    let mut least = 0;
    for lock in locks {
        if *lock < least {
            return false;
        }
        if LAST < *lock {
            return false;
        }
        least = *lock + 1;
    }
    true
}

/// Locks as a number, of which each lock has the bit of its number.
pub fn listed_by(locks: &[u8]) -> u64
    requires { are_listed 0 locks.now ≡ true }
    ensures { result ≡ listed_by locks.now }
{
    let mut listed: u64 = 0;
    for lock in locks {
        listed |= 1 << *lock;
    }
    listed
}
