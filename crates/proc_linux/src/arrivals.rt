//! Which of the datagrams that arrive is taken.

ghost use Rattle.std.specs.Prelude.{◌≡◌, ◌≤◌, List, Option, IfOk, length};
ghost use Rattle.base_io.specs.Told.{and_then};
ghost use Rattle.proc_linux.specs.Arrivals.{Arrival, TakesFirst, arrival_of};

use crate::hosts::Hosts;
use std::io;
use std::io::ErrorKind;
use std::net::SocketAddr;

/// How many strays a look drops, at most.
const DROPS: u32 = 64;

/// What datagrams arrive at, from anybody.
pub trait Arrivals {
    /// What was answered so far, in order, where it tells that.
    ghost told: { Self → Option (List Arrival) };

    /// Takes the next datagram into the beginning of the buffer: how many bytes it has, and who sent it.
    ///
    /// # Errors
    ///
    /// That none waits, or that of the system.
    fn take_next(&mut self, buf: &mut [u8]) -> io::Result<(usize, SocketAddr)>
        ensures within { IfOk result (λ got. got.0 ≤ length buf.new) }
        ensures told { told self.new ≡ and_then (told self.old) (arrival_of result buf.new) };
}

/// What a link is bound to.
#[derive(Clone, Copy)]
pub struct Bound {
    /// The rank of its node.
    pub rank: u16,
    /// The number of nodes of the job.
    pub nodes: u16,
    /// The port of rank 0.
    pub port: u16,
}

/// What a look for the datagram of a peer gave.
#[derive(Drop)]
pub struct Look {
    /// How many strays were dropped.
    pub strays: u32,
    /// How many bytes the datagram has, and the rank of the node that sent it; or why none was taken.
    pub found: io::Result<(usize, u16)>,
}

/// Takes the first datagram from a peer of the node that this is bound for. At most 64 strays before it are dropped.
pub fn take_first<A: Arrivals>(
    arrivals: &mut A,
    buf: &mut [u8],
    hosts: &Hosts,
    bound: Bound,
) -> Look
    ensures within { IfOk result.found (λ got. got.0 ≤ length buf.new) }
    ensures taken { TakesFirst hosts.now.addresses.items bound buf.new result
        (A.told arrivals.old) (A.told arrivals.new) }
{
    for strays in 0..DROPS {
        let (len, from) = match arrivals.take_next(buf) {
            Ok(got) => got,
            Err(error) => {
                return Look {
                    strays,
                    found: Err(error),
                };
            }
        };
        if let Some(peer) = hosts.peer(from, bound.rank, bound.nodes, bound.port) {
            return Look {
                strays,
                found: Ok((len, peer)),
            };
        }
    }
    Look {
        strays: DROPS,
        found: Err(io::Error::from(ErrorKind::WouldBlock)),
    }
}
