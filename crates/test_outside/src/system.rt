//! Sockets of 127.0.0.1, the system's clock, and processes.

use base_io::{Clock, Finished, Link, LinkAnswer, Received, Spawner, Started};
use proc_linux::{ChildEnd, ChildEnds, Hosts, LinkSocket, ProcessSpawner, SystemClock, UdpLink};
use std::net::UdpSocket;
use std::test::Fail;
use std::thread::sleep;
use std::time::{Duration, Instant};

/// Binds the links of both nodes of a job to the first two ports from 23,000 on that nothing else
/// has, and tells the first of them.
fn bind_both<L: Link>(near: &mut L, far: &mut L) -> Option<u16> {
    for step in 0..400 {
        let port = 23_000 + 2 * step;
        if near.bind(0, 2, port) == LinkAnswer::Done {
            return if far.bind(1, 2, port) == LinkAnswer::Done {
                Some(port)
            } else {
                None
            };
        }
    }
    None
}

/// What node 1 is sent in turn, and what a room of four bytes has of that.
const CARRIED: [(&[u8], &[u8]); 3] = [
    (&[7, 8, 9], &[7, 8, 9]),
    (&[], &[]),
    (&[1, 2, 3, 4, 5], &[1, 2, 3, 4]),
];

/// Whether what one node sends comes to the other.
fn carries<L: Link>(near: &mut L, far: &mut L) -> bool {
    let mut room = [0u8; 4];
    for (bytes, want) in CARRIED {
        let answers = (near.send(1, bytes), far.receive(&mut room));
        if answers != (LinkAnswer::Done, Received::Got(want.len())) || !room.starts_with(want) {
            return false;
        }
    }
    far.receive(&mut room) == Received::Empty
}

/// Sends two bytes to a port, from one that no node has.
fn send_as_stranger(rt: HostRuntime, port: u16) -> bool {
    match UdpSocket::bind(&rt, "127.0.0.1:0") {
        Ok(stranger) => stranger.send_to(&[1, 2], ("127.0.0.1", port)).is_ok(),
        Err(_) => false,
    }
}

/// Whether node 0 gets what node 1 sends, and not what it sends itself.
fn hears_its_peer<L: Link>(near: &mut L, far: &mut L) -> bool {
    let mut room = [0u8; 4];
    near.send(0, &[1, 2, 3]) == LinkAnswer::Done
        && far.send(0, &[1]) == LinkAnswer::Done
        && near.receive(&mut room) == Received::Got(1)
        && near.receive(&mut room) == Received::Empty
}

// The node itself, and a socket with another port, are no peers of node 0. Node 1 is.
#[test]
fn carries_what_peers_send(rt: HostRuntime) {
    let (near, far) = (LinkSocket::new(), LinkSocket::new());
    let hosts = Hosts::local(rt.alloc());
    let mut first = UdpLink::new(rt, &near, &hosts);
    let mut second = UdpLink::new(rt, &far, &hosts);
    let port = bind_both(&mut first, &mut second);
    let is_carried = port.is_some() && carries(&mut first, &mut second);
    let is_sent = port.is_some_and(|port| send_as_stranger(rt, port));
    let is_heard = hears_its_peer(&mut first, &mut second);
    assert!(rt; is_carried && is_sent && is_heard && near.strays() == 2);
}

#[test]
fn counts_milliseconds(rt: HostRuntime) -> Result<(), Fail> {
    let before = Instant::now(&rt)?;
    let mut clock = SystemClock::new(rt);
    let first = clock.now();
    sleep(&rt, Duration::from_millis(3));
    let last = clock.now();
    let most = before.elapsed(&rt)?.as_millis();
    assert!(rt; first.saturating_add(2) <= last && u128::from(last) <= most);
    Ok(())
}

/// The exit status that was kept of the child of rank 3.
fn code_kept(ends: &ChildEnds) -> Option<i32> {
    match ends.of(3) {
        Some(ChildEnd::Ended(status)) => status.code(),
        _ => None,
    }
}

/// Whether the child of rank 3 is started, ends with this status, and writes nothing.
fn ends_with<S: Spawner>(spawner: &mut S, code: u8, output: &mut Vec<u8>) -> bool {
    spawner.start(3, 21_000, b"gasnet 1\n") == Started::Started
        && spawner.finish(3, output) == Finished::Ended(code)
        && output.is_empty()
}

// `false` ends whether it was given its input or not.
#[test]
fn tells_how_a_child_ends(rt: HostRuntime) -> Result<(), Fail> {
    let program = String::from_str(rt.alloc(), "false")?;
    let ends = ChildEnds::new(rt.alloc());
    let mut spawner = ProcessSpawner::new(rt, rt.alloc(), program, &ends);
    let mut output = Vec::new(rt.alloc());
    let is_ended = ends_with(&mut spawner, 1, &mut output);
    assert!(rt; is_ended && code_kept(&ends) == Some(1));
    Ok(())
}
