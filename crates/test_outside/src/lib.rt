//! Tests of what no clause says: bytes from outside, and what the system does.
//!
//! `vectors` has messages as the page of formats spells them, and the codes of RFC 4231. `system`
//! has sockets of 127.0.0.1, the clock and processes.
#![tactic(auto)]

use base_io::MAX_DATAGRAM;
use wire_message::MAX_DATAGRAM as LONGEST;

// A sieve and a sealed link take every datagram of a job.
const _: () = prove!(MAX_DATAGRAM == LONGEST);

#[cfg(test)]
mod system;
#[cfg(test)]
mod vectors;
