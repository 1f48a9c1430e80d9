//! What is counted of dropped datagrams.

use std::sync::atomic::{AtomicU64, Ordering};

/// How many datagrams a link with seals dropped, and what stood at a place of the link behind at the last of them: it may
/// note there who sent it.
#[derive(Drop)]
pub struct Dropped<'a> {
    count: AtomicU64,
    sender: &'a AtomicU64,
    last: AtomicU64,
}

impl<'a> Dropped<'a> {
    /// None yet; the link behind notes the sender of each datagram at this place.
    pub fn new(sender: &'a AtomicU64) -> Dropped<'a> {
        Dropped {
            count: AtomicU64::new(0),
            sender,
            last: AtomicU64::new(0),
        }
    }

    /// One more.
    pub(crate) fn note(&self) {
        self.count.fetch_add(1, Ordering::SeqCst);
        self.last
            .store(self.sender.load(Ordering::SeqCst), Ordering::SeqCst);
    }

    /// How many.
    pub fn count(&self) -> u64 {
        self.count.load(Ordering::SeqCst)
    }

    /// What stood at the sender's place at the last of them.
    pub fn last_sender(&self) -> u64 {
        self.last.load(Ordering::SeqCst)
    }
}
