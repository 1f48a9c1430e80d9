//! The real ones of the traits of `base_io`: a link over a UDP socket, a clock of the system, a waiter that watches
//! the link's socket, and a spawner of processes.
//!
//! `Hosts` has the addresses of a job's nodes. A link receives what comes from these addresses alone.
//!
//! Each holds the handle by which it asks the system, so that the traits' calls need none. What the system does is its
//! own: nothing tells what was sent, received, waits, or what a child gave. What is proved, by the names of clauses:
//!
//! - `UdpLink` meets `Link` [`bound`, `later`, `cause`]: it tells what it was bound to; its count of faults never
//!   falls, and a call fails only where that count rose, or stands at its last value. Which errors are losses is exact
//!   (`IsLoss`).
//! - `Hosts`: which hosts a text names (`NamesHosts`), the address of the node of a rank (`IsAddress`), and which node is
//!   the peer at an address (`FindsPeer`).
//! - `take_first` takes the first datagram of a peer, unless an error or 64 strays come before it. The strays are counted
//!   (`TakesFirst`). A socket doesn't tell what arrives at it.
//! - `SystemClock` meets `Clock` [`asked`, `said`]: it counts how often it was asked, and tells what it said last.
//! - `SocketWaiter` meets `Waiter`, which promises nothing.
//! - `ProcessSpawner` meets `Spawner` [`output`, `later`, `cause`]: where a child ended, bytes within the limit were
//!   appended; after another answer nothing was; its count of faults never falls, and `Failed` comes only where that
//!   count rose, or stands at its last value.
//! - Of a child: `child_command` [`program`, `words`] is the program with the words `node RANK PORT`; `feed` wrote all the
//!   input, unless the reader was gone (`Feeds`); `drain` read all that the pipe tells (`DrainsAll`); what was drained is
//!   appended, with the exit status that the system told (`HandsOn`).
//! - What is decided or told has definitions: what a thread does before a turn (`rest_before`), which events say that
//!   nobody reads (`TellUnread`), why a link failed (`bind_fault`, `call_fault`), which child's end is the last of its
//!   rank (`last_end`), which start failed first (`first_unstarted`), and where a file is kept (`kept_path`).
//!
//! `ChildEnds` keeps how the children of a spawner ended, and `LinkSocket` a link's socket and fault; no clause says
//! what their cells have.
//!
//! What the link, the clock and the spawner do with the system is tested in `test_outside`, and the waiter by the nodes
//! of the program that `tools/rows` runs.
#![tactic(auto)]

mod arrivals;
mod child_command;
mod child_ends;
mod drain;
mod feed;
mod hosts;
mod kept_file;
mod link_fault;
mod link_socket;
mod output;
mod process_spawner;
mod socket_waiter;
mod system_clock;
mod udp_link;

pub use child_ends::{ChildEnd, ChildEnds};
pub use hosts::Hosts;
pub use link_fault::LinkFault;
pub use link_socket::LinkSocket;
pub use process_spawner::ProcessSpawner;
pub use socket_waiter::SocketWaiter;
pub use system_clock::SystemClock;
pub use udp_link::UdpLink;
