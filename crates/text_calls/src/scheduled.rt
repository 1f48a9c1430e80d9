//! Calls of threads, as values.

ghost use Rattle.std.specs.Prelude.{◌≡◌};
ghost use Rattle.node_atomics.specs.BatchRequests.{batch_arguments, spelled_ops};

use crate::{Operand, Operands, Payload, Registers};
use base_text::LineBytes;
use node_atomics::WordOp;
use part_handlers::CallKind;
use part_transfers::{ImplicitKinds, Transfer};
use std::marker::Model;

/// A Medium request of a schedule.
#[derive(Drop)]
pub struct MediumText {
    /// The node that it is sent to.
    pub to: u16,
    /// The handler that is to run there.
    pub handler: u8,
    /// What the handler sees.
    pub payload: Payload,
    /// The arguments.
    pub operands: Operands,
}

/// A Long request of a schedule.
#[derive(Drop)]
pub struct LongText {
    /// The node that it is sent to.
    pub to: u16,
    /// The handler that is to run there.
    pub handler: u8,
    /// What is written into the segment of that node.
    pub payload: Payload,
    /// Where it is written, in bytes from the segment's begin.
    pub offset: u64,
    /// The arguments.
    pub operands: Operands,
}

/// A Medium request in an allocation of its own, so that a line of a schedule stays small.
#[derive(Drop)]
pub struct BoxedMedium {
    pub(crate) inside: Box<MediumText>,
}

impl Model for BoxedMedium {
    ghost use Rattle.std.specs.Box.{box_value};
    ghost use Rattle.text_calls.specs.declared.scheduled.MediumText.{MediumText};

    ghost Value = { MediumText };

    ghost view = { λ b. box_value b.inside };
}

/// A Long request in an allocation of its own, so that a line of a schedule stays small.
#[derive(Drop)]
pub struct BoxedLong {
    pub(crate) inside: Box<LongText>,
}

impl Model for BoxedLong {
    ghost use Rattle.std.specs.Box.{box_value};
    ghost use Rattle.text_calls.specs.declared.scheduled.LongText.{LongText};

    ghost Value = { LongText };

    ghost view = { λ b. box_value b.inside };
}

/// A transfer in an allocation of its own, so that a line of a schedule stays small.
#[derive(Drop)]
pub struct BoxedTransfer {
    pub(crate) inside: Box<Transfer>,
}

impl Model for BoxedTransfer {
    ghost use Rattle.std.specs.Box.{box_value};
    ghost use Rattle.part_transfers.specs.declared.operation.Transfer.{Transfer};

    ghost Value = { Transfer };

    ghost view = { λ b. box_value b.inside };
}

/// A batch of remote atomics of a schedule: 1 to 16 operations where the job was read, and the message that asks them.
#[derive(Drop)]
pub struct BatchText {
    pub(crate) to: u16,
    pub(crate) local: u64,
    pub(crate) tag: u64,
    pub(crate) ops: Vec<WordOp>,
    pub(crate) arguments: [i32; 4],
    pub(crate) payload: Vec<u8>,
}

impl Model for BatchText {
    ghost use Rattle.std.specs.Prelude.{◌≡◌};
    ghost use Rattle.node_atomics.specs.BatchRequests.{batch_arguments, spelled_ops};
    ghost use Rattle.text_calls.specs.Batches.{BatchWords};

    ghost Value = { BatchWords };

    ghost view = { λ b. record {
      to = b.to;
      request = record { local = b.local; tag = b.tag; ops = b.ops.items };
    } };

    ghost invariant = { λ b. (b.arguments ≡ batch_arguments b.local b.tag)
        × (b.payload.items ≡ spelled_ops b.ops.items) };
}

/// A batch in an allocation of its own, so that a line of a schedule stays small.
#[derive(Drop)]
pub struct BoxedBatch {
    pub(crate) inside: Box<BatchText>,
}

impl Model for BoxedBatch {
    ghost use Rattle.std.specs.Box.{box_value};
    ghost use Rattle.text_calls.specs.Batches.{BatchWords};

    ghost Value = { BatchWords };

    ghost view = { λ b. box_value b.inside };
}

/// A call of a thread in a schedule.
#[derive(Drop)]
pub enum ScheduledCall {
    /// A Short request.
    Short {
        to: u16,
        handler: u8,
        operands: Operands,
    },
    /// A Medium request.
    Medium {
        text: BoxedMedium,
    },
    /// A Long request.
    Long {
        text: BoxedLong,
    },
    /// A Long request whose payload may be taken later.
    LongAsync {
        text: BoxedLong,
    },
    /// Locks a lock.
    Lock {
        lock: u8,
    },
    /// Unlocks a lock.
    Unlock {
        lock: u8,
    },
    /// A poll.
    Poll,
    /// A call that is judged alone.
    Attempt {
        call: CallKind,
    },
    /// The number in a cell.
    Cell {
        cell: u8,
    },
    /// Puts a number into a cell.
    SetCell {
        cell: u8,
        operand: Operand,
    },
    /// The bytes of a range of the local segment, at most 8,192 where the job was read.
    Show {
        offset: u64,
        len: u16,
    },
    /// Puts bytes into the local segment.
    Set {
        offset: u64,
        bytes: LineBytes,
    },
    /// Puts the same byte at each place of a range of the local segment.
    Fill {
        offset: u64,
        len: u64,
        byte: u8,
    },
    /// The number of 64 bits at a place of the local segment.
    Word {
        offset: u64,
    },
    /// Puts a number of 64 bits at a place of the local segment.
    SetWord {
        offset: u64,
        number: u64,
    },
    /// Begins an explicit transfer, whose handle is put into the register.
    Begin {
        register: u8,
        transfer: BoxedTransfer,
    },
    /// Begins an implicit transfer.
    BeginImplicit {
        transfer: BoxedTransfer,
    },
    /// Whether all of the transfer whose handle is in the register was sent.
    IsIssued {
        register: u8,
    },
    /// Synchronises the transfer or the region whose handle is in the register, where it is complete.
    Sync {
        register: u8,
    },
    /// Synchronises all of them, where each is complete.
    SyncAll {
        registers: Registers,
    },
    /// Synchronises those of them that are complete, where one is.
    SyncSome {
        registers: Registers,
    },
    /// Synchronises implicit transfers of the thread.
    SyncImplicit {
        which: ImplicitKinds,
    },
    /// Begins an access region.
    RegionBegin,
    /// Ends the access region, whose handle is put into the register.
    RegionEnd {
        register: u8,
    },
    /// Notifies the barrier.
    Notify {
        id: i32,
        flags: u8,
    },
    /// Passes the barrier, where it is complete.
    TryBarrier {
        id: i32,
        flags: u8,
    },
    /// A batch of remote atomics, as a Medium request.
    Atomic {
        batch: BoxedBatch,
    },
}

impl BoxedMedium {
    /// The request.
    pub fn text(&self) -> &MediumText
        ensures { result.now ≡ self.now }
    {
        &self.inside
    }
}

impl BoxedLong {
    /// The request.
    pub fn text(&self) -> &LongText
        ensures { result.now ≡ self.now }
    {
        &self.inside
    }
}

impl BoxedTransfer {
    /// The transfer.
    pub fn text(&self) -> &Transfer
        ensures { result.now ≡ self.now }
    {
        &self.inside
    }
}

impl BatchText {
    /// The node that it is for.
    pub fn to(&self) -> u16
        ensures { result ≡ self.now.to }
    {
        self.to
    }

    /// Where the block of its reply goes in the local segment, in bytes.
    pub fn local(&self) -> u64
        ensures { result ≡ self.now.request.local }
    {
        self.local
    }

    /// What comes back behind the words.
    pub fn tag(&self) -> u64
        ensures { result ≡ self.now.request.tag }
    {
        self.tag
    }

    /// Its operations, in order; 1 to 16 where the job was read.
    pub fn ops(&self) -> &[WordOp]
        ensures { result.now ≡ self.now.request.ops }
    {
        &self.ops
    }

    /// The arguments of its request: the place of the block and the tag, each as two words with the upper half first.
    pub fn arguments(&self) -> &[i32]
        ensures { result.now ≡ batch_arguments self.now.request.local self.now.request.tag }
    {
        &self.arguments
    }

    /// The payload of its request: 32 bytes for each operation.
    pub fn payload(&self) -> &[u8]
        ensures { result.now ≡ spelled_ops self.now.request.ops }
    {
        &self.payload
    }
}

impl BoxedBatch {
    /// The batch.
    pub fn text(&self) -> &BatchText
        ensures { result.now ≡ self.now }
    {
        &self.inside
    }
}
