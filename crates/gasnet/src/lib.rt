//! The endpoint of a GASNet node (core and extended API), for a program that carries its messages itself.
//!
//!     use gasnet::{Call, Endpoint, Event, Settings};
//!
//!     // A job of two nodes with one thread each: 4 credits a pair, 65,536 bytes of segment, resending after 10 units.
//!     let Some(settings) = Settings::new(1, job, 2, 4, 1, 65_536, u64::MAX, 10) else {
//!         return Ok(());
//!     };
//!     let mut node = Endpoint::new(alloc, &settings, 0, &table)?;
//!
//!     // A thread asks node 1 to run its handler 128 with one argument.
//!     let call = Call::Short { to: 1, handler: 128, args: &[5] };
//!     let answer = node.step(&handlers, now, &Event::Call { thread: 0, call });
//!
//!     // An event sends at most one message, and the answer names its slot.
//!     if let Some(slot) = answer.sends()
//!         && let Some(bytes) = node.message(slot)
//!     {
//!         network.send(slot.peer, bytes);
//!     }
//!
//!     // What comes from the network is an event, too, and so is time that passes.
//!     node.step(&handlers, now, &Event::Deliver { bytes: &datagram });
//!     node.step(&handlers, now, &Event::Tick);
//!
//! A layer of its own takes a `Caller` for the calls of a node's threads, as `Plan::begin` does, which begins the
//! pieces of a strided or indexed transfer; `AtEndpoint` is the caller at an endpoint.
//!
//! `docs/LIBRARY.md` is the guide, and `crates/example_ring` a whole program. A program lists this crate in `crates.txt`,
//! and imports its types from here, the definitions that its clauses cite from `Rattle.gasnet.specs`, and the lemmas
//! for its handlers from `Rattle.gasnet.proofs.Lawful`. There is no code here: each item is that of a crate below,
//! whose page says what is proved of it.
#![tactic(auto)]

pub use node_core::{Asked, Delivered, Payload, Side, SlotRef, Why};
pub use node_endpoint::{AtEndpoint, Called, Caller, Endpoint, make_call};
pub use node_rules::{Answer, Begun, Call, Event, Local, Region, Ticked};
pub use node_vis::{Indexed, Level, Piece, Plan, PlanFault, Strided, Vis, Way};
pub use part_barrier::{BarrierAnswer, Notified};
pub use part_handlers::{
    CallKind, Cells, Context, Entry, EntryFault, Fault, Forbidden, Handlers, Incoming, LockAnswer,
    LockFault, Log, Replied, Reply, Role, Serves, Table, Token, UnlockAnswer, Violation, Which,
};
pub use part_segment::{Bytes, Offset, Outside, Plain, Segment, TypedFault};
pub use part_transfers::{Handle, ImplicitKinds, Synced, Transfer};
pub use wire_message::{BarrierNotification, PairCredits, Refused, Settings};
