//! The forms of lines, as tables: which words follow a name, and what value they make; and the calls of threads.
//!
//! A form is a row: a name, a shape and what makes a value of the words (`Forms`). Reading by a table is the inverse of
//! writing by it (`FormLaws`), for each table at once. The readers here read one word of a shape each (`part_at`), or a
//! list of them (`many_at`).
//!
//! `call_at` reads a call of a thread by the table of forms `calls`, and `call_form` tells whether a line has the words
//! of one (`Calls`). No two forms have one text (`CallLaws`).
#![tactic(auto)]

mod batches;
mod bundles;
mod calls;
mod forms;
mod kinds;
mod names;
mod number_words;
mod operand_lists;
mod operands;
mod own_calls;
mod payloads;
mod request_calls;
mod scheduled;
mod scope;
mod sync_calls;
mod tables;
mod transfer_calls;
mod values;

pub use bundles::are_bundles;
pub use calls::{call_at, call_form};
pub use forms::CallForm;
pub use kinds::{collective_kind_at, implicit_at, kind_at, op_at, role_at};
pub use names::{HasName, first_named};
pub use number_words::{byte_at, number_at, number_here, short_at};
pub use operand_lists::{operands_at, registers_at};
pub use operands::{NumberPlace, body_value_at, integer_at, value_at};
pub use payloads::{body_payload_at, bytes_at, payload_at};
pub use scheduled::{
    BatchText, BoxedBatch, BoxedLong, BoxedMedium, BoxedTransfer, LongText, MediumText,
    ScheduledCall,
};
pub use scope::{Scope, is_second};
pub use tables::WordCount;
pub use transfer_calls::{Fill, Move, boxed, fill_at, get_of, memset_of, move_at, put_of};
pub use values::{Operand, Operands, Payload, Registers};
