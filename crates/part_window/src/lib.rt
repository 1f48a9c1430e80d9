//! The slots of messages, each with a buffer: those of a requester, and those of the replies that a node keeps.
//!
//! Credits, slots, sequence numbers and retransmission are this library's profile. GASNet 1.8.1, core API, asks only
//! that a request is delivered once.
//!
//! - `CreditSlots`: the credits of each peer, and the requests that are not back. It tells which is sent again next.
//! - `ReplySlots`: the last reply that was made in each slot of each other node.
//! - `SlotTable`: the slots of several peers, under both. Its buffers are a `Block`: parts of one size in one
//!   allocation, which is reserved, and touched as a part is first written. What is kept of each slot lies in a list
//!   that is blank at first, and touched as it is written. A core has two blocks more, of one part each, for requests to
//!   its own node.
//!
//! What is proved, by the names of clauses (in `src/`) and definitions (in `specs/`):
//!
//! - `CreditSlots::claim` [`claimed`, `refused`] takes the lowest vacant slot and the next number of the pair. It
//!   refuses with `Exhausted` exactly where the numbers are used up, and else with `NotYet` exactly where no slot is
//!   vacant; nothing has changed then [`writes_back`].
//! - `take_back` [`answer`, `freed`, `same`] frees a slot exactly where it is taken with that number.
//! - `due` [`next`, `sent`] names the request that is sent again next: of those last sent `resend` or more before now
//!   the one sent earliest, then of the lower node, then of the lower slot (`IsFirstDue`). It names none exactly where
//!   none is due (`NoneIsDue`); `is_due` tells which it is, and `next_due` from which time on one is (`IsNextDue`). That
//!   slot's time becomes now, and nothing else changes.
//! - `ReplySlots::judge` tells a request from a repeat by the last number of its slot (`JudgesAt`); `place` [`placed`]
//!   makes room for the reply of a new one.
//! - `new` of both gives each other node the slots of its own number of credits (`IsNew`). `held` is how many slots are
//!   taken, or had a request run in them; `number` is the number of a slot's message.
//! - The buffer that a claim or a place lends takes what is written, and nothing else (`Claimed::buffer`,
//!   `Place::buffer`, `commit`). No call after `new` takes memory: none has an answer for want of it.
//! - A table is a list of slots of each peer, each with a state (vacant, being written, with a message) and a buffer of
//!   8,296 bytes; each call is one equation on it (`specs/TableState.antt`). Only what stands in the buffer of a slot
//!   that was just opened is left open.
#![tactic(auto)]

mod block;
mod credits;
mod order;
mod padded_list;
mod replies;
mod table;

pub use block::{Block, MAX_PARTS, PART_BYTES};
pub use credits::{Claimed, CreditSlots, NoClaim};
pub use replies::{Judged, Place, ReplySlots};
pub use table::{BUFFER_BYTES, MAX_SLOTS, SlotTable};
