//! A node of a GASNet job as a static library for C: bytes and times go in, bytes and answers come out. C has the
//! socket, the clock and the client's handlers; the library calls nothing back. `c/include/gasnet_c.h` declares it.
//!
//! Each export but `gasnet_c_new`, `gasnet_c_free`, `gasnet_c_peek`, `gasnet_c_again`, `gasnet_c_next_due` and those of
//! collectives makes one event of the node's endpoint. Its clause `tells` says which: the endpoint made that step, with
//! some answer, and C is told the number of this answer and the datagram that is to be sent (`Tells`). A tick, a
//! request to another node and a call that is no request is that step whatever the handlers mean. Of a delivery, and of
//! a request to the local node, C ran the handlers before, and they mean what C says that they did (`asked_in`,
//! `both_replayed_by`). Operations on words are batches of one, which the library serves itself (`serving`):
//! `gasnet_c_atomic` asks one [`TellsBatch`], and `gasnet_c_serve` delivers what is for the handlers of batches and of
//! collectives.
//!
//! Collectives have a handle of their own. `gasnet_c_coll_start`, `gasnet_c_coll_step` and `gasnet_c_coll_end` are the
//! calls of `node_collectives` at a caller of the node [`StartsFor`, `StepsFor`, `EndsFor`], and C is told the number of
//! their answer, and the datagram that a step sends. C owes that both handles are of one node (`AreOfNode`).
//!
//! C's handlers may keep a state outside of the segment, and answer by it. Still one meaning of handlers holds of all
//! events of a run, as the laws of whole runs ask [`every_job`, `COfOneMeaning`]: no two runs of handlers find the
//! same, since messages of other nodes have numbers, and requests to the local node are counted in two cells. C owes
//! for it that handlers 252 to 254 are the library's own.
//!
//! A handle is dead or whole, and each call keeps it so. A dead one is told `GASNET_C_DEAD`, and stays as it is. What C
//! owes beside that, which nothing checks: the handle began as zeros, and C neither copies, reads nor writes it; each
//! pointer leads to as many values as its length says, and is never null; none of them leads into the handle or into
//! the segment; calls of a handle are made one at a time, each ordered before the next by a lock, a thread's start or
//! its join; and what stands at `gasnet_c_new` of the segment's memory.
#![tactic(auto)]

mod atomics;
mod barrier;
mod collective_node;
mod collectives;
mod collectives_handle;
mod collectives_place;
mod coming;
mod handle;
mod law;
mod memory;
mod messages;
mod node;
mod node_place;
mod opening;
mod replay;
mod retransmission;
mod sender;
mod serving;
mod stepping;
mod told;
mod transfers;

pub use atomics::{Operation, gasnet_c_atomic};
pub use barrier::{gasnet_c_notify, gasnet_c_try};
pub use collective_node::Collective;
pub use collectives::{
    gasnet_c_coll_end, gasnet_c_coll_free, gasnet_c_coll_new, gasnet_c_coll_start,
    gasnet_c_coll_step,
};
pub use collectives_handle::CollectivesHandle;
pub use collectives_place::CollectivesPlace;
pub use coming::Coming;
pub use handle::Handle;
pub use law::every_job;
pub use memory::Memory;
pub use messages::{Ask, gasnet_c_deliver, gasnet_c_peek, gasnet_c_request, gasnet_c_request_own};
pub use node_place::NodePlace;
pub use opening::{Setup, gasnet_c_free, gasnet_c_new};
pub use replay::{Reply, Run};
pub use retransmission::{gasnet_c_again, gasnet_c_next_due};
pub use serving::gasnet_c_serve;
pub use stepping::gasnet_c_tick;
pub use told::Told;
pub use transfers::{Move, gasnet_c_begin, gasnet_c_sync};
