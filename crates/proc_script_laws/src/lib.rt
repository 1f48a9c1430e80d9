//! What holds of the handlers and calls of a job's text.
//!
//! What is proved is named by the clauses of `fitting_law`: handlers whose words can be said in a text, with settings
//! that can be said, make a fitting job (`IsFittingJob` of `law_traces`). Each run is lawful; where a handler finds
//! numbers and bytes that fit their places in a message, it leaves and says such ones; and the table of handlers has
//! 128 places. So the traces of such a job are a run of the world in each order in which they can go, where their
//! scripts' calls fit too, as each call that can be said does [`calls`]. A job with atomics serves batches [`batches`],
//! so that the laws of batches hold of every run with its handlers [`atomics`]. A job with an area of collectives
//! serves these [`collectives`]. It has no code.
#![tactic(auto)]

mod laws;

pub use laws::fitting_law;
