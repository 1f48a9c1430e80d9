//! A small network in memory, that loses, repeats and reorders datagrams.

use std::alloc::{AllocError, Global};
use std::collections::VecDeque;

/// A datagram on its way.
#[derive(Drop)]
pub struct Datagram {
    /// The node that it is for.
    pub to: u16,
    /// Its bytes.
    pub bytes: Vec<u8>,
}

/// Datagrams on their way, in the order in which they will come. Of those that are handed to it each seventh is lost,
/// each third comes twice, and each second overtakes the others.
#[derive(Drop)]
pub struct LossyQueue {
    waiting: VecDeque<Datagram>,
    /// How many datagrams were handed in.
    pub sent: u64,
    /// How many of them were lost.
    pub lost: u64,
    /// How many of them come twice.
    pub repeated: u64,
}

impl LossyQueue {
    /// A queue with no datagram on its way.
    pub fn new(alloc: Global) -> LossyQueue {
        LossyQueue {
            waiting: VecDeque::new(alloc),
            sent: 0,
            lost: 0,
            repeated: 0,
        }
    }

    /// Hands in a datagram, of which the queue keeps a copy, or two, or none. It is refused for want of memory alone.
    pub fn send(&mut self, alloc: Global, to: u16, bytes: &[u8]) -> Result<(), AllocError> {
        self.sent = self.sent.saturating_add(1);
        if self.sent % 7 == 0 {
            self.lost = self.lost.saturating_add(1);
            return Ok(());
        }
        if self.sent % 3 == 0 {
            self.repeated = self.repeated.saturating_add(1);
            self.waiting.push_back(copy(alloc, to, bytes)?)?;
        }
        let datagram = copy(alloc, to, bytes)?;
        if self.sent % 2 == 0 {
            self.waiting.push_front(datagram)?;
        } else {
            self.waiting.push_back(datagram)?;
        }
        Ok(())
    }

    /// The next datagram that comes, if one is on its way.
    pub fn receive(&mut self) -> Option<Datagram> {
        self.waiting.pop_front()
    }
}

/// A datagram with a copy of these bytes.
fn copy(alloc: Global, to: u16, bytes: &[u8]) -> Result<Datagram, AllocError> {
    Ok(Datagram {
        to,
        bytes: bytes.to_vec(alloc)?,
    })
}
