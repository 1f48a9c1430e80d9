//! The socket of a link.

use crate::link_fault::LinkFault;
use std::net::{SocketAddr, UdpSocket};
use std::sync::OnceLock;
use std::sync::atomic::{AtomicU64, Ordering};

/// Where a link keeps its socket, once it is bound, so that a waiter can watch it.
#[derive(Drop)]
pub struct LinkSocket {
    socket: OnceLock<UdpSocket>,
    strays: AtomicU64,
    sender: AtomicU64,
    orphaned: AtomicU64,
    fault: OnceLock<LinkFault>,
}

impl LinkSocket {
    /// The place of a socket, where none is yet.
    pub fn new() -> LinkSocket {
        LinkSocket {
            socket: OnceLock::new(),
            strays: AtomicU64::new(0),
            sender: AtomicU64::new(0),
            orphaned: AtomicU64::new(0),
            fault: OnceLock::new(),
        }
    }

    /// The address of the socket, if there is one and the system tells it.
    pub fn address(&self) -> Option<SocketAddr> {
        self.socket.get()?.local_addr().ok()
    }

    /// How many datagrams were dropped that no peer sent.
    pub fn strays(&self) -> u64 {
        self.strays.load(Ordering::SeqCst)
    }

    /// Why the link failed, the first time that it did.
    pub fn fault(&self) -> Option<LinkFault> {
        self.fault.get().copied()
    }

    /// Keeps why the link failed, where nothing is kept yet.
    pub(crate) fn note_fault(&self, fault: LinkFault) {
        let _ = self.fault.try_set(fault);
    }

    /// Where the rank of the peer stands whose datagram was received last, at first 0.
    pub fn sender(&self) -> &AtomicU64 {
        &self.sender
    }

    /// Keeps the rank of the peer whose datagram was received last.
    pub(crate) fn note_sender(&self, peer: u16) {
        self.sender.store(u64::from(peer), Ordering::SeqCst);
    }

    /// So many more were dropped.
    pub(crate) fn count_strays(&self, more: u32) {
        self.strays.fetch_add(u64::from(more), Ordering::SeqCst);
    }

    /// Notes that nobody reads standard output any more. From now on the link fails.
    pub(crate) fn orphan(&self) {
        self.orphaned.store(1, Ordering::SeqCst);
    }

    /// Whether that was noted.
    pub(crate) fn is_orphaned(&self) -> bool {
        self.orphaned.load(Ordering::SeqCst) != 0
    }

    /// The socket, if there is one.
    pub(crate) fn get(&self) -> Option<&UdpSocket> {
        self.socket.get()
    }

    /// Keeps a socket. Where there is one already it answers false, and this one is closed.
    pub(crate) fn keep(&self, socket: UdpSocket) -> bool {
        self.socket.try_set(socket).is_ok()
    }
}
