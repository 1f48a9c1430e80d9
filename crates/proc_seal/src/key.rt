//! The key of a job, and the tags that it makes.

ghost use Rattle.std.specs.Prelude.{◌≡◌, bytes_eq, take};
ghost use Rattle.proc_seal.specs.Seal.{tag};

use crate::hmac::Hmac;
use std::marker::Model;

/// The bytes of a tag.
pub const TAG_BYTES: usize = 16;

/// A key, which has 32 bytes. Contracts see these.
#[derive(Drop)]
pub struct Key {
    secret: [u8; 32],
    hmac: Hmac,
}

impl Model for Key {
    ghost use Rattle.std.specs.Prelude.{ℕ, List};
    ghost use Rattle.proc_seal.specs.Hmac.{IsHmacOf};

    ghost Value = { List ℕ };

    ghost view = { λ k. k.secret };

    ghost invariant = { λ k. IsHmacOf k.hmac k.secret };
}

/// Whether two tags are the same. It looks at every byte, whichever differ.
fn are_same(one: &[u8; 16], other: &[u8; 16]) -> bool
    ensures { result ≡ bytes_eq one.now other.now }
{
    let mut same = true;
    for i in 0..16usize {
        same = same & (one[i] == other[i]);
    }
    same
}

/// The beginning of a code.
fn cut(code: &[u8; 32]) -> [u8; TAG_BYTES]
    ensures { result ≡ take 16 code.now }
{
    let mut tag = [0u8; TAG_BYTES];
    tag.copy_from_slice(&code[..TAG_BYTES]);
    tag
}

impl Key {
    /// The key with these bytes.
    pub fn new(secret: [u8; 32]) -> Key
        ensures { result ≡ secret }
    {
        let hmac = Hmac::new(&secret);
        Key { secret, hmac }
    }

    /// The tag of a datagram.
    pub fn tag(&self, datagram: &[u8]) -> [u8; TAG_BYTES]
        ensures { result ≡ tag self.now datagram.now }
    {
        cut(&self.hmac.code(datagram))
    }

    /// Whether this is the tag of a datagram. The time that it takes doesn't depend on which bytes differ.
    pub fn verifies(&self, datagram: &[u8], given: &[u8; TAG_BYTES]) -> bool
        ensures { result ≡ bytes_eq given.now (tag self.now datagram.now) }
    {
        are_same(given, &self.tag(datagram))
    }
}
