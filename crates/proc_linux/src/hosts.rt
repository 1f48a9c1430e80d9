//! The addresses of a job's nodes.

ghost use Rattle.std.specs.Prelude.{◌≡◌, ◌↔◌, [], IfOk, IsTrue};
ghost use Rattle.proc_linux.specs.Addresses.{AreFor, FindsPeer, IsAddress};
ghost use Rattle.proc_linux.specs.HostTexts.{NamesHosts, is_between};

use std::alloc::{AllocError, Global};
use std::net::{IpAddr, Ipv4Addr, SocketAddr};

/// The most nodes of a job.
const MOST: usize = 256;

/// This host.
const LOCAL: IpAddr = IpAddr::V4(Ipv4Addr::LOCALHOST);

/// Whether a byte stands between hosts: a comma, or white space of ASCII, which spaces and line ends are.
fn is_between(byte: u8) -> bool
    ensures { result ≡ is_between byte }
{
    byte == b',' || byte.is_ascii_whitespace()
}

/// The address of each node of a job, by its rank.
///
/// The node of rank r has the port `port + r` of its address, so several nodes may share a host.
#[derive(Drop)]
pub struct Hosts {
    addresses: Vec<IpAddr>,
}

impl Hosts {
    /// All nodes on this host, at 127.0.0.1.
    pub fn local(alloc: Global) -> Hosts
        ensures { result.addresses.items ≡ [] }
    {
        Hosts {
            addresses: Vec::new(alloc),
        }
    }

    /// The hosts that a text names: an IPv4 or IPv6 address for each node, by rank. Spaces, commas and line ends stand
    /// between them.
    ///
    /// None where a word is no address, where there are more than 256, and where there is none.
    ///
    /// # Errors
    ///
    /// `AllocError` where memory ran out.
    pub fn of_text(alloc: Global, text: &str) -> Result<Option<Hosts>, AllocError>
        ensures { IfOk result (NamesHosts text.now) }
    {
        let mut addresses = Vec::new(alloc);
        for word in text.as_bytes().split(|byte| is_between(*byte)) {
            if word.is_empty() {
                continue;
            }
            match IpAddr::parse_ascii(word) {
                Ok(address) if addresses.len() < MOST => addresses.push(address)?,
                _ => return Ok(None),
            }
        }
        if addresses.is_empty() {
            return Ok(None);
        }
        Ok(Some(Hosts { addresses }))
    }

    /// Whether they are the hosts of a job with so many nodes.
    pub(crate) fn fits(&self, nodes: u16) -> bool
        ensures { IsTrue result ↔ AreFor self.now.addresses.items nodes }
    {
        self.addresses.is_empty() || self.addresses.len() == usize::from(nodes)
    }

    /// The address of the node of a rank, where `port` is that of rank 0. None exactly where it has no host, or its port
    /// would be past 65,535.
    pub(crate) fn address(&self, port: u16, rank: u16) -> Option<SocketAddr>
        ensures { IsAddress self.now.addresses.items port rank result }
    {
        let own = port.checked_add(rank)?;
        if self.addresses.is_empty() {
            return Some(SocketAddr::new(LOCAL, own));
        }
        let ip = self.addresses.get(usize::from(rank))?;
        Some(SocketAddr::new(*ip, own))
    }

    /// The rank of the node of the job that has this address. None exactly where no node other than that of `rank` has
    /// it.
    pub(crate) fn peer(&self, from: SocketAddr, rank: u16, nodes: u16, port: u16) -> Option<u16>
        ensures { FindsPeer self.now.addresses.items port nodes rank from result }
    {
        let peer = from.port().checked_sub(port)?;
        if peer >= nodes || peer == rank {
            return None;
        }
        let address = self.address(port, peer)?;
        (address.ip() == from.ip()).then_some(peer)
    }
}
