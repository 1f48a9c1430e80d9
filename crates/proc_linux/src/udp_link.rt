//! A link over a UDP socket.

ghost use Rattle.std.specs.Prelude.{◌≡◌, ◌≤◌, ◌↔◌, IfOk, IsTrue, OnOk};
ghost use Rattle.std.specs.Io.{ReadsAtMost};
ghost use Rattle.base_io.specs.Faults.{Rose};
ghost use Rattle.proc_linux.specs.Addresses.{HasPlace, IsAt};
ghost use Rattle.proc_linux.specs.Losses.{IsLoss};

use crate::arrivals::{Arrivals, Bound, take_first};
use crate::hosts::Hosts;
use crate::link_fault::LinkFault;
use crate::link_socket::LinkSocket;
use base_io::{Link, LinkAnswer, Received};
use std::io;
use std::io::ErrorKind;
use std::net::{Net, SocketAddr, UdpSocket};
use std::os::fd::AsRawFd;

/// The system's number for want of room in its queues.
const NO_ROOM: i32 = 105;

/// The bytes that are asked of the system for the receive buffer.
const RECEIVE_BYTES: i32 = 4_194_304;

/// What arrives at a socket, of which it tells nothing.
#[derive(Drop)]
struct SocketArrivals<'a> {
    socket: &'a UdpSocket,
}

impl Arrivals for SocketArrivals<'_> {
    ghost use Rattle.std.specs.Prelude.{None};

    ghost told = { λ _. None };

    /// Receives a datagram from the socket.
    fn take_next(&mut self, buf: &mut [u8]) -> io::Result<(usize, SocketAddr)> {
        self.socket.recv_from(buf)
    }
}

/// A link over a UDP socket that doesn't wait. The node of rank r has the port `port + r` at the address of its host.
///
/// It receives what its peers sent, the other nodes of the job: a datagram counts as a peer's where its source is that
/// node's address and port. Any other one is a stray, which is dropped and counted. Where 64 strays came in a row
/// `receive` answers `Empty`.
///
/// A datagram that the socket can't take now is lost, and so is one to a port that isn't open yet. Any other error of
/// the system is a fault. The link can be bound once; a call before, and a second `bind`, is a fault. So is each call
/// once nobody reads standard output any more, which the waiter notes. It tells what it was bound to, and nothing of
/// datagrams.
#[derive(Drop)]
pub struct UdpLink<'a, R: Net> {
    rt: R,
    socket: &'a LinkSocket,
    hosts: &'a Hosts,
    bound: Option<Bound>,
    faults: u64,
}

impl<'a, R: Net> UdpLink<'a, R> {
    /// A link to the nodes at these hosts, which isn't bound. It keeps its socket there; that place is for this link
    /// alone.
    pub fn new(rt: R, socket: &'a LinkSocket, hosts: &'a Hosts) -> UdpLink<'a, R> {
        UdpLink {
            rt,
            socket,
            hosts,
            bound: None,
            faults: 0,
        }
    }

    /// Opens the socket of a rank that has its place among so many nodes.
    fn open(&self, rank: u16, nodes: u16, port: u16) -> io::Result<()>
        ensures { OnOk result (HasPlace self.now.hosts.now.addresses.items port nodes rank) }
    {
        if rank >= nodes || port.checked_add(nodes - 1).is_none() || !self.hosts.fits(nodes) {
            return Err(io::Error::from(ErrorKind::InvalidInput));
        }
        let socket = UdpSocket::bind(&self.rt, self.address(port, rank)?)?;
        socket.set_nonblocking(true)?;
        widen(&socket);
        if !self.socket.keep(socket) {
            return Err(io::Error::from(ErrorKind::AlreadyExists));
        }
        Ok(())
    }

    /// The address of the node of a rank, where `port` is that of rank 0.
    fn address(&self, port: u16, rank: u16) -> io::Result<SocketAddr>
        ensures { IfOk result (IsAt self.now.hosts.now.addresses.items port rank) }
    {
        match self.hosts.address(port, rank) {
            Some(own) => Ok(own),
            None => Err(io::Error::from(ErrorKind::InvalidInput)),
        }
    }

    /// Takes the first datagram at the socket that a peer sent. The strays before it are dropped and counted.
    fn take(&self, buf: &mut [u8]) -> io::Result<usize>
        ensures { ReadsAtMost result buf.new }
    {
        let (Some(socket), Some(bound)) = (self.socket.get(), self.bound) else {
            return Err(io::Error::from(ErrorKind::NotConnected));
        };
        if self.socket.is_orphaned() {
            return Err(io::Error::from(ErrorKind::BrokenPipe));
        }
        let look = take_first(&mut SocketArrivals { socket }, buf, self.hosts, bound);
        self.socket.count_strays(look.strays);
        let (len, peer) = look.found?;
        self.socket.note_sender(peer);
        Ok(len)
    }

    /// Hands a datagram to the socket.
    fn hand(&self, to: u16, bytes: &[u8]) -> io::Result<()> {
        let (Some(socket), Some(bound)) = (self.socket.get(), self.bound) else {
            return Err(io::Error::from(ErrorKind::NotConnected));
        };
        match socket.send_to(bytes, self.address(bound.port, to)?) {
            Err(error) if !is_loss(&error) => Err(error),
            _ => Ok(()),
        }
    }
}

/// Asks the system for a wide receive buffer. It may give less.
fn widen(socket: &UdpSocket) {
    let mut value = [0u8; 16];
    value[..4].copy_from_slice(&RECEIVE_BYTES.to_ne_bytes());
    let _ = unsafe {
        libc::net::setsockopt(
            socket.as_raw_fd(),
            libc::net::SOL_SOCKET,
            libc::net::SO_RCVBUF,
            &value,
            4,
        )
    };
}

/// Whether an error says that a datagram was lost, or that none is there: the socket can't do it now, or a peer's port
/// isn't open.
fn is_loss(error: &io::Error) -> bool
    ensures { IsTrue result ↔ IsLoss error.now }
{
    matches!(
        error.kind(),
        ErrorKind::WouldBlock | ErrorKind::ConnectionRefused
    ) || error.raw_os_error() == Some(NO_ROOM)
}

impl<R: Net> Link for UdpLink<'_, R> {
    ghost use Rattle.std.specs.Prelude.{None};
    ghost use Rattle.std.specs.Option.{option_map};
    ghost use Rattle.proc_linux.specs.Arrivals.{told_bound};

    ghost bound = { λ l. option_map told_bound l.bound };

    ghost sent = { λ _. None };

    ghost received = { λ _. None };

    ghost waiting = { λ _. None };

    ghost faults = { λ l. l.faults };

    /// Opens the port of this rank at the address of its host. It is a fault where another socket has that port, this
    /// host hasn't that address, there aren't as many hosts as nodes, or a port would be past 65,535.
    fn bind(&mut self, rank: u16, nodes: u16, port: u16) -> LinkAnswer {
        if let Err(error) = self.open(rank, nodes, port) {
            let own = self.hosts.address(port, rank);
            self.socket.note_fault(LinkFault::of_bind(own, &error));
            self.faults = self.faults.saturating_add(1);
            return LinkAnswer::Failed;
        }
        self.bound = Some(Bound { rank, nodes, port });
        LinkAnswer::Done
    }

    /// Sends a datagram, which may be lost.
    fn send(&mut self, to: u16, bytes: &[u8]) -> LinkAnswer {
        if let Err(error) = self.hand(to, bytes) {
            self.socket.note_fault(LinkFault::of_call(&error));
            self.faults = self.faults.saturating_add(1);
            return LinkAnswer::Failed;
        }
        LinkAnswer::Done
    }

    /// Takes the first datagram at the socket that a peer sent.
    fn receive(&mut self, buf: &mut [u8]) -> Received {
        match self.take(buf) {
            Ok(len) => return Received::Got(len),
            Err(error) if is_loss(&error) => return Received::Empty,
            Err(error) => self.socket.note_fault(LinkFault::of_call(&error)),
        }
        self.faults = self.faults.saturating_add(1);
        Received::Failed
    }
}
