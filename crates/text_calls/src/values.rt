//! What words of a line say, as values.

ghost use Rattle.std.specs.Prelude.{◌≡◌, ◌≤◌, length};

use base_text::LineBytes;
use std::marker::Model;

/// A number as an action has it.
#[derive(Clone, Copy)]
pub enum Operand {
    /// The number itself.
    Number(i32),
    /// What the cell holds as the action begins.
    Cell(u8),
    /// An argument of the message that a handler runs for, or 0 where there is none; 0 to 15 where the job was read.
    Argument(u8),
}

/// A list of at most 17 operands.
#[derive(Drop)]
pub struct Operands {
    pub(crate) items: Vec<Operand>,
}

impl Model for Operands {
    ghost use Rattle.std.specs.Prelude.{◌≤◌, List, length};
    ghost use Rattle.text_calls.specs.declared.values.Operand.{Operand};

    ghost Value = { List Operand };

    ghost view = { λ v. v.items.items };

    ghost invariant = { λ v. length v.items.items ≤ 17 };
}

/// The payload of a message, as an action has it.
#[derive(Drop)]
pub enum Payload {
    /// These bytes.
    Bytes { bytes: LineBytes },
    /// A range of the local segment, in bytes.
    Range { offset: u64, len: u64 },
    /// The payload of the message that a handler runs for, and of a Long its place; in a handler's body alone.
    Message,
}

/// A list of at most 16 registers of a thread's handles; of at least one where the job was read.
#[derive(Drop)]
pub struct Registers {
    pub(crate) items: Vec<u8>,
}

impl Model for Registers {
    ghost use Rattle.std.specs.Prelude.{◌≤◌, ℕ, List, length};

    ghost Value = { List ℕ };

    ghost view = { λ r. r.items.items };

    ghost invariant = { λ r. length r.items.items ≤ 16 };
}

impl Operands {
    /// The operands, at most 17.
    pub fn items(&self) -> &[Operand]
        ensures items { result.now ≡ self.now }
        ensures few { length result.now ≤ 17 }
    {
        &self.items
    }
}

impl Registers {
    /// The registers, at most 16.
    pub fn items(&self) -> &[u8]
        ensures items { result.now ≡ self.now }
        ensures few { length result.now ≤ 16 }
    {
        &self.items
    }
}
