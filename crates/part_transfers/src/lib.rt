//! The operations of the extended API that a node began, cut into chunks of 8,192 bytes: puts, gets and memsets,
//! explicit, implicit and in access regions; and the regions that a node's threads have begun (`Regions`).
//!
//! `Transfers` keeps a record of each operation from its beginning until its synchronisation, at most 256 of them, in a
//! slab. It tells which chunk is to be issued next, is told as which request a chunk went and that the reply to a
//! request came, and answers the syncs. The operations with an unissued chunk stand in a queue, in the order in which
//! they began: the next chunk is found from its head on, and no other operation is looked at for it. A reply's
//! operation is found by its node, slot and number without a search, and a handle's by bisection in a list of all that
//! stand: where none is in a region, a sync by a handle looks at its operation alone. What it knows is said by
//! `Stands`: a table stands for the list of all operations that ever began. Each call says, for every list for which
//! the table stood, its answer by the definitions on that list, and for which list the table stands then.
//!
//! What sends a chunk, and what judges an operation before it begins (its node, its ranges, the rules on calls, a
//! transfer that is done at once) isn't here: it needs the node's active messages.
#![tactic(auto)]

mod flags;
mod operation;
mod queue;
mod regions;
mod slots;
mod table;
mod transfers;

pub use flags::Flags;
pub use operation::{Handle, ImplicitKinds, MAX_CHUNK, Mode, Next, Synced, TooMany, Transfer};
pub use regions::{Nested, NoRegion, Region, Regions};
pub use transfers::Transfers;
