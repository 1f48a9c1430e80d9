//! Remote atomics: batches of operations on 64-bit words of a node's segment, which act at one moment (this project's
//! shape, over the active messages of GASNet 1.8.1, core API).
//!
//!     use node_atomics::{Batch, Op, WordOp};
//!
//!     // Node 1's word at 0 rises by 5. What it was, and then the tag 7, come back to the local segment, at 64.
//!     let add = WordOp { op: Op::Add, offset: 0, a: 5, b: 0 };
//!     let batch = Batch::new(&settings, 1, 64, 7, &[add])?;
//!     let called = batch.ask(&mut caller, thread);
//!
//! A batch is one Medium request to handler 252, which does all its operations, and replies by a Long to handler 253:
//! what the words were. The nodes of a job register `entries`, and their handlers run both indexes by `serve`.
//! `docs/ATOMICS.md` is the guide; what holds of batches in every run is in `law_atomics`. What is proved here:
//!
//! - `apply` is the operation on a word (`applied`).
//! - `Batch::new` [`made`] answers the first fault of the stated order (`batch_fault`), or the batch. It takes no
//!   memory.
//! - `Batch::ask` [`made`]: the thread makes one call, the request of the batch, which is answered as its node's record
//!   says. [`said`]: that request asks this batch (`batch_of`), whatever stands in the local segment.
//! - `serve` [`served`] does, from whatever a handler's run did so far, what the message says: its operations in order,
//!   each on what the one before left, and the reply; nothing, where the message says no batch. The run stays lawful
//!   (`proofs/Lawful.antt`).
#![tactic(auto)]

mod asking;
mod batch;
mod request;
mod serving;
mod word;

pub use batch::{Batch, BatchFault};
pub use serving::{BATCH_HANDLER, BLOCK_HANDLER, entries, serve};
pub use word::{Op, WordOp, apply};
