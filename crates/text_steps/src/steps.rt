//! What handlers and threads do, as values.

use part_collective_area::Shape;
use part_handlers::CallKind;
use part_transfers::ImplicitKinds;
use text_calls::{BoxedTransfer, Operand, Operands, Payload, Registers, ScheduledCall};
use text_vis::BoxedVis;

/// What a handler's body does; each action in its turn.
#[derive(Drop)]
pub enum Action {
    /// The cell rises by the number, wrapping.
    Add { cell: u8, operand: Operand },
    /// The cell becomes the number.
    SetCell { cell: u8, operand: Operand },
    /// The cell becomes the number of the node that sent the message.
    Source { cell: u8 },
    /// The cell rises by the sum of the payload's bytes, and of a Long of the bytes at its place, wrapping.
    Sum { cell: u8 },
    /// The payload of a Medium is written there, in bytes from the begin of the local segment.
    Keep { offset: u64 },
    /// Locks a lock.
    Lock { lock: u8 },
    /// Unlocks a lock.
    Unlock { lock: u8 },
    /// A call that does nothing but be judged.
    Attempt { call: CallKind },
    /// A reply.
    Reply { reply: ReplyAction },
}

/// A reply of a handler's body.
#[derive(Drop)]
pub enum ReplyAction {
    /// A Short one.
    Short {
        handler: u8,
        operands: Operands,
    },
    /// A Medium one.
    Medium {
        handler: u8,
        payload: Payload,
        operands: Operands,
    },
    /// A Long one, written at the offset of the segment of the node that asked.
    Long {
        handler: u8,
        payload: Payload,
        offset: u64,
        operands: Operands,
    },
}

/// What a line or a step asks of the collectives of its node (this project's profile).
#[derive(Clone, Copy)]
pub enum CollectiveText {
    /// Starts a collective, to which the node gives the bytes from `from` on of its own segment.
    Start { shape: Shape, from: u64 },
    /// Sends to one node more.
    Step,
    /// Tries to end it, with the result at `dest` of the local segment.
    Try { dest: u64 },
}

/// What a line of the schedule asks for.
#[derive(Drop)]
pub enum ScheduledEvent {
    /// A thread of a node makes a call.
    Call {
        node: u16,
        thread: u16,
        call: ScheduledCall,
    },
    /// A thread of a node begins a transfer of many pieces.
    Vis {
        node: u16,
        thread: u16,
        vis: BoxedVis,
    },
    /// A thread of a node makes a call of collectives, in a job that has an area of them where it was read.
    Collective {
        node: u16,
        thread: u16,
        call: CollectiveText,
    },
    /// The delivery of a request.
    Request {
        from: u16,
        to: u16,
        number: u64,
    },
    /// The delivery of the reply to a request.
    Reply {
        from: u16,
        to: u16,
        number: u64,
    },
    /// A tick of a node.
    Tick {
        node: u16,
    },
    /// Rounds of ticks and deliveries.
    Settle {
        rounds: u32,
    },
}

/// A line of the schedule.
#[derive(Drop)]
pub struct TimedEvent {
    /// The time, in milliseconds.
    pub time: u64,
    /// What happens then.
    pub event: ScheduledEvent,
}

/// A put of a script that waits until all of it was sent: `remote` and `local` are offsets in the segment of the node
/// `to` and in the local one, `len` is how many bytes.
#[derive(Clone, Copy)]
pub struct PutText {
    /// The node that it is sent to.
    pub to: u16,
    /// Where it is written there.
    pub remote: u64,
    /// Where the bytes are read here.
    pub local: u64,
    /// How many bytes.
    pub len: u64,
}

/// A step that scripts alone have: it is tried again at each turn of its thread until it ends.
#[derive(Drop)]
pub enum WaitingStep {
    /// Waits until the cell holds the number at least.
    Until { cell: u8, operand: Operand },
    /// Waits until the word of 64 bits at a place of the local segment is this number.
    UntilWord { offset: u64, number: u64 },
    /// A transfer, until it is complete (GASNet 1.8.1, extended API: gasnet_put, gasnet_get and gasnet_memset).
    Transfer { transfer: BoxedTransfer },
    /// Begins an explicit put, whose handle is put into the register, and waits until all of it was sent
    /// (gasnet_put_nb).
    PutBegin { register: u8, put: PutText },
    /// Begins an implicit put, and waits until all of it was sent (gasnet_put_nbi).
    PutImplicit { put: PutText },
    /// Waits for the transfer or the region whose handle is in the register (gasnet_wait_syncnb).
    Wait { register: u8 },
    /// Waits for all of them (gasnet_wait_syncnb_all).
    WaitAll { registers: Registers },
    /// Waits for one of them at least (gasnet_wait_syncnb_some).
    WaitSome { registers: Registers },
    /// Waits for implicit transfers of the thread (gasnet_wait_syncnbi_puts, _gets and _all).
    WaitImplicit { which: ImplicitKinds },
    /// Waits at the barrier (gasnet_barrier_wait).
    BarrierWait { id: i32, flags: u8 },
    /// Starts a collective, sends to all nodes, and waits until it ends with the result at `dest` (this project's
    /// profile).
    Collective { shape: Shape, from: u64, dest: u64 },
}

/// A step of a script.
#[derive(Drop)]
pub enum ScriptStep {
    /// A call, as a line of a schedule has it.
    Call { call: ScheduledCall },
    /// Begins a transfer of many pieces.
    Vis { vis: BoxedVis },
    /// Makes a call of collectives.
    Collective { call: CollectiveText },
    /// What scripts alone have.
    Waiting { step: WaitingStep },
}
