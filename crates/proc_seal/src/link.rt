//! A link whose datagrams are sealed.

ghost use Rattle.std.specs.Prelude.{◌≡◌, ◌≤◌, ◌+◌, length, take, map, option_map};
ghost use Rattle.std.specs.Prelude.{IfOk, IfSome};
ghost use Rattle.base_io.specs.Faults.{Rose};
ghost use Rattle.base_io.specs.Link.{SentTold, IsFailed, IsReceiveFailed};
ghost use Rattle.proc_seal.specs.Seal.{Sealing, sealed_under, opened_under, without_tag, opened_datagrams, OneTold};

use crate::dropped::Dropped;
use crate::key::{Key, TAG_BYTES};
use base_io::{Link, LinkAnswer, MAX_DATAGRAM, Received};
use std::alloc::{AllocError, Global};
use std::marker::Model;

/// The bytes of the buffer: the longest datagram, its tag, and one byte more.
const ROOM: usize = MAX_DATAGRAM + TAG_BYTES + 1;

/// How many unsealed datagrams a call of `receive` drops, at most.
const DROPS: u32 = 64;

/// A link that seals what it sends by the link behind it, and receives what that was sent sealed under the same key.
///
/// A datagram that isn't sealed so is dropped and counted. Where 64 of them came in a row `receive` answers `Empty`, and
/// so it does for a buffer of fewer than 8,296 bytes. To send a longer datagram than that is a fault.
#[derive(Drop)]
pub struct SealedLink<'a, L: Link> {
    inner: L,
    key: Key,
    dropped: &'a Dropped<'a>,
    buffer: Vec<u8>,
    refused: u64,
}

impl<'a, L: Link> Model for SealedLink<'a, L> {
    ghost use Rattle.std.specs.Prelude.{◌≡◌, vec_len};
    ghost use Rattle.proc_seal.specs.Seal.{Sealing};

    ghost Value = { Sealing L };

    ghost view = { λ s. record { inner = s.inner; key = s.key; refused = s.refused } };

    ghost invariant = { λ s. vec_len s.buffer ≡ 8313 };
}

impl<'a, L: Link> SealedLink<'a, L> {
    /// The link before this one, under a key. It counts in `dropped` what it drops.
    ///
    /// # Errors
    ///
    /// `AllocError` where memory ran out; the link behind is dropped then.
    pub fn new(
        alloc: Global,
        inner: L,
        key: Key,
        dropped: &'a Dropped<'a>,
    ) -> Result<SealedLink<'a, L>, AllocError>
    where
        L: Drop,
        ensures { let made : Sealing L = record { inner = inner; key = key; refused = 0 } in
            IfOk result (λ link. link ≡ made) }
    {
        let buffer = vec![in alloc; 0u8; ROOM]?;
        Ok(SealedLink {
            inner,
            key,
            dropped,
            buffer,
            refused: 0,
        })
    }
}

/// Seals a datagram into the beginning of a buffer, and answers how many bytes that are.
fn seal(key: &Key, datagram: &[u8], buffer: &mut [u8]) -> usize
    requires fits { length datagram.now ≤ MAX_DATAGRAM }
    requires room { length buffer.old ≡ 8313 }
    ensures room { length buffer.new ≡ 8313 }
    ensures bound { result ≤ 8313 }
    ensures sealed { take result buffer.new ≡ sealed_under key.now datagram.now }
{
    let len = datagram.len();
    let tag = key.tag(datagram);
    buffer[..len].copy_from_slice(datagram);
    buffer[len..len + TAG_BYTES].copy_from_slice(&tag);
    len + TAG_BYTES
}

/// Copies a datagram to the beginning of a buffer, where it was sealed so, and answers how many bytes it has.
fn open(key: &Key, whole: &[u8], into: &mut [u8]) -> Option<usize>
    requires { MAX_DATAGRAM ≤ length into.old }
    ensures opened { option_map (λ len. take len into.new) result ≡ opened_under key.now whole.now }
    ensures fits { IfSome result (λ len. len ≤ length into.new) }
{
    if whole.len() < TAG_BYTES || whole.len() > MAX_DATAGRAM + TAG_BYTES {
        return None;
    }
    let len = whole.len() - TAG_BYTES;
    let (datagram, behind) = whole.split_at(len);
    let mut tag = [0u8; TAG_BYTES];
    tag.copy_from_slice(behind);
    if !key.verifies(datagram, &tag) {
        return None;
    }
    into[..len].copy_from_slice(datagram);
    Some(len)
}

/// Receives one datagram by a link, and opens it into the beginning of a buffer. None where it is unsealed.
fn receive_one<L: Link>(
    link: &mut L,
    key: &Key,
    buffer: &mut [u8],
    into: &mut [u8],
) -> Option<Received>
    requires space { MAX_DATAGRAM ≤ length into.old }
    ensures received { OneTold result into.new (opened_datagrams key.now (L.received link.old))
        (opened_datagrams key.now (L.received link.new)) }
    ensures bound { L.bound link.new ≡ L.bound link.old }
    ensures sent { L.sent link.new ≡ L.sent link.old }
    ensures later { L.faults link.old ≤ L.faults link.new }
    ensures cause { IfSome result (λ answer. IsReceiveFailed answer
        → Rose (L.faults link.old) (L.faults link.new)) }
{
    match link.receive(buffer) {
        Received::Empty => Some(Received::Empty),
        Received::Failed => Some(Received::Failed),
        Received::Got(len) => match open(key, &buffer[..len], into) {
            Some(len) => Some(Received::Got(len)),
            None => None,
        },
    }
}

impl<L: Link> SealedLink<'_, L> {
    /// Sends a datagram sealed by the link behind.
    fn hand(&mut self, to: u16, bytes: &[u8]) -> LinkAnswer
        ensures seals { SentTold result (to, sealed_under self.old.key bytes.now)
            (L.sent self.old.inner) (L.sent self.new.inner) }
        ensures key { self.new.key ≡ self.old.key }
        ensures bound { L.bound self.new.inner ≡ L.bound self.old.inner }
        ensures received { L.received self.new.inner ≡ L.received self.old.inner }
        ensures later { L.faults self.old.inner + self.old.refused
            ≤ L.faults self.new.inner + self.new.refused }
        ensures cause { IsFailed result
            → Rose (L.faults self.old.inner + self.old.refused)
            (L.faults self.new.inner + self.new.refused) }
    {
        if bytes.len() > MAX_DATAGRAM {
            self.refused = self.refused.saturating_add(1);
            return LinkAnswer::Failed;
        }
        let len = seal(&self.key, bytes, self.buffer.as_mut_slice());
        self.inner.send(to, &self.buffer.as_slice()[..len])
    }
}

impl<L: Link> Link for SealedLink<'_, L> {
    ghost use Rattle.std.specs.Prelude.{◌+◌, None, option_map, map};
    ghost use Rattle.proc_seal.specs.Seal.{opened_datagrams, without_tag};

    ghost bound = { λ s. L.bound s.inner };

    ghost sent = { λ s. option_map (map without_tag) (L.sent s.inner) };

    ghost received = { λ s. opened_datagrams s.key (L.received s.inner) };

    ghost waiting = { λ _. None };

    ghost faults = { λ s. L.faults s.inner + s.refused };

    /// Binds the link behind.
    fn bind(&mut self, rank: u16, nodes: u16, port: u16) -> LinkAnswer {
        self.inner.bind(rank, nodes, port)
    }

    /// Sends a datagram sealed by the link behind.
    fn send(&mut self, to: u16, bytes: &[u8]) -> LinkAnswer
        ensures sent { SentTold result (to, bytes.now)
            (option_map (map without_tag) (L.sent self.old.inner))
            (option_map (map without_tag) (L.sent self.new.inner)) }
        ensures bound { L.bound self.new.inner ≡ L.bound self.old.inner }
        ensures received { opened_datagrams self.new.key (L.received self.new.inner)
            ≡ opened_datagrams self.old.key (L.received self.old.inner) }
        ensures later { L.faults self.old.inner + self.old.refused
            ≤ L.faults self.new.inner + self.new.refused }
        ensures cause { IsFailed result
            → Rose (L.faults self.old.inner + self.old.refused)
            (L.faults self.new.inner + self.new.refused) }
        ensures seals { SentTold result (to, sealed_under self.old.key bytes.now)
            (L.sent self.old.inner) (L.sent self.new.inner) }
    {
        self.hand(to, bytes)
    }

    /// Receives the first datagram that is sealed under the key.
    fn receive(&mut self, buf: &mut [u8]) -> Received {
        if buf.len() < MAX_DATAGRAM {
            return Received::Empty;
        }
        for _ in 0..DROPS {
            let buffer = self.buffer.as_mut_slice();
            if let Some(answer) = receive_one(&mut self.inner, &self.key, buffer, buf) {
                return answer;
            }
            self.dropped.note();
        }
        Received::Empty
    }
}
