//! Keyed hashes.

ghost use Rattle.std.specs.Prelude.{◌≡◌, ◌≤◌, ◌-◌, ◌++◌, ℕ, List, length, map, bit_xor, replicate};
ghost use Rattle.proc_seal.specs.Hmac.{IsHmacOf, block_of, hmac};

use sha2::{Digest, Sha256};

/// HMAC-SHA-256 under a key, as the two hashers with which every code begins.
#[derive(Drop)]
pub struct Hmac {
    inner: Sha256,
    outer: Sha256,
}

/// Each byte with these bits turned.
fn turned(block: &[u8; 64], bits: u8) -> [u8; 64]
    ensures { result ≡ map (λ b. bit_xor b bits) block.now }
{
    let mut all = [0u8; 64];
    for i in 0..64usize {
        all[i] = block[i] ^ bits;
    }
    all
}

/// These bytes, filled up to a block with zeros.
fn filled(short: &[u8]) -> [u8; 64]
    requires { length short.now ≤ 64 }
    ensures { result ≡ short.now ++ replicate (64 - length short.now) 0 }
{
    let mut block = [0u8; 64];
    let (prefix, _) = block.split_at_mut(short.len());
    prefix.copy_from_slice(short);
    block
}

/// The block of a key.
fn block_of(key: &[u8]) -> [u8; 64]
    ensures { result ≡ block_of key.now }
{
    if key.len() > 64 {
        filled(&Sha256::digest(key))
    } else {
        filled(key)
    }
}

impl Hmac {
    /// HMAC under a key of any length.
    pub fn new(key: &[u8]) -> Hmac
        ensures { IsHmacOf result key.now }
    {
        let block = block_of(key);
        Hmac {
            inner: Sha256::new_with_prefix(&turned(&block, 0x36)),
            outer: Sha256::new_with_prefix(&turned(&block, 0x5c)),
        }
    }

    /// The code of a message, 32 bytes.
    pub fn code(&self, message: &[u8]) -> [u8; 32]
        ensures { (key : List ℕ) → IsHmacOf self.now key → result ≡ hmac key message.now }
    {
        let Ok(mut inner) = self.inner.clone() else {
            unreachable!();
        };
        inner.update(message);
        let digest = inner.finalize();
        let Ok(mut outer) = self.outer.clone() else {
            unreachable!();
        };
        outer.update(&digest);
        outer.finalize()
    }
}
