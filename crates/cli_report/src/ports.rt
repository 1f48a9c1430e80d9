//! The blocks of ports of which a launch without a port takes one.

ghost use Rattle.std.specs.Prelude.{◌≡◌, ◌+◌, ◌*◌, ◌%◌, ◌<◌, IfOk, MatchOption, ℕ, Option, Some};
ghost use Rattle.std.specs.Prelude.{None, decimal, option_map, string_bytes};
ghost use Rattle.cli_report.specs.Ports.{ArePorts, HasNone, IsBlock, block_port, ports_line};

use std::alloc::{AllocError, Global};

/// The ports of a block: one that is held while a launch runs, and one for each of 256 nodes.
const BLOCK: u16 = 257;

/// How many blocks there are.
const BLOCKS: u16 = 88;

/// The first port of the first block.
const FIRST_PORT: u16 = 10_023;

/// The ports of a host.
pub trait Ports {
    /// What holds a port for a program.
    type Held: Drop;

    /// What a try to hold a port was found to give: none where it isn't free.
    ghost holds: { Self → ℕ → Option Self.Held → Type 0 };

    /// Holds a port, if it is free.
    fn hold(&self, port: u16) -> Option<Self::Held>
        ensures { holds self.now port result };

    /// A number that differs from launch to launch.
    fn number(&self) -> u32;
}

/// Ports that were free, of which no other launch takes one while the value lives.
#[derive(Drop)]
pub struct FreePorts<H> {
    /// The port of the node of rank 0.
    pub port: u16,
    /// What holds the port before it, by which other launches see that the block is taken.
    pub held: H,
}

/// The first port of the block at a place, counted from the one of a number. The first block begins
/// at port 10,023, and the last ends before the ports that the system gives out by itself.
fn block_port(number: u32, place: u16) -> u16
    ensures port { result ≡ block_port number place }
    ensures within { result < 65000 }
{
    let block = (u64::from(number) + u64::from(place)) % u64::from(BLOCKS);
    FIRST_PORT + BLOCK * (block as u16)
}

/// The ports of the block of this first port, if all of them are free.
fn block<P: Ports>(from: &P, first: u16) -> Option<FreePorts<P::Held>>
    requires { first < 65000 }
    ensures { MatchOption result (HasNone (P.holds from.now) first)
        (IsBlock (P.holds from.now) first) }
{
    let held = from.hold(first)?;
    for place in 1..BLOCK {
        match from.hold(first + place) {
            Some(held) => drop(held),
            None => return None,
        }
    }
    let port = first + 1;
    Some(FreePorts { port, held })
}

/// Ports for up to 256 nodes that are free on this host. None where no block of them is.
///
/// Between this call and the start of the nodes another program may take one of them.
pub(crate) fn free_ports<P: Ports>(from: &P) -> Option<FreePorts<P::Held>>
    ensures { ArePorts (P.holds from.now) result }
{
    let number = from.number();
    for place in 0..BLOCKS {
        if let Some(ports) = block(from, block_port(number, place)) {
            return Some(ports);
        }
    }
    None
}

/// The port of the node of rank 0.
pub(crate) fn port_of<H>(ports: &Option<FreePorts<H>>) -> Option<u16>
    ensures { result ≡ option_map (λ p. p.port) ports.now }
{
    match ports {
        Some(ports) => Some(ports.port),
        None => None,
    }
}

/// What is told of the ports that a launch got, by that of the node of rank 0. None were free where
/// it is none.
///
/// # Errors
///
/// `AllocError` where memory ran out.
pub(crate) fn ports_line(alloc: Global, port: Option<u16>) -> Result<String, AllocError>
    ensures { IfOk result (λ text. string_bytes text ≡ ports_line port) }
{
    match port {
        Some(port) => format!(in alloc; "gasnet_cli: launch {port}\n"),
        None => {
            let told = "gasnet_cli: no 257 ports in a row are free; expected launch PORT\n";
            String::from_str(alloc, told)
        }
    }
}

/// The word of a port.
///
/// # Errors
///
/// `AllocError` where memory ran out.
pub(crate) fn port_word(alloc: Global, port: u16) -> Result<String, AllocError>
    ensures { IfOk result (λ text. string_bytes text ≡ decimal port) }
{
    format!(in alloc; "{port}")
}
