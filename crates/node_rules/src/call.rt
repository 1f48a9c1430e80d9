//! The events of an endpoint.

ghost use Rattle.std.specs.Prelude.{◌≡◌};
ghost use Rattle.node_rules.specs.Called.{is_to_other, IsMeantBy};

use node_core::{Asking, Category, Payload};
use part_handlers::CallKind;
use part_transfers::{Handle, ImplicitKinds, MAX_CHUNK, Transfer};
use wire_message::MAX_PAYLOAD;

// A chunk of a transfer is what one message carries.
const _: () = prove!(MAX_CHUNK == MAX_PAYLOAD as u64);

/// A call of a client, as a thread of a node makes it.
#[derive(Clone, Copy)]
pub enum Call<'a> {
    /// A Short request for a handler of a node (GASNet 1.8.1, core API, `gasnet_AMRequestShort`).
    Short {
        /// The node that is to run the request.
        to: u16,
        /// The handler's index.
        handler: u8,
        /// The arguments.
        args: &'a [i32],
    },
    /// A Medium request, whose handler sees the payload in a buffer (GASNet 1.8.1, core API,
    /// `gasnet_AMRequestMedium`).
    Medium {
        /// The node that is to run the request.
        to: u16,
        /// The handler's index.
        handler: u8,
        /// The arguments.
        args: &'a [i32],
        /// The payload.
        payload: Payload<'a>,
    },
    /// A Long request, whose payload stands in the target's segment before its handler runs
    /// (GASNet 1.8.1, core API, `gasnet_AMRequestLong`).
    Long {
        /// The node that is to run the request.
        to: u16,
        /// The handler's index.
        handler: u8,
        /// The arguments.
        args: &'a [i32],
        /// The payload.
        payload: Payload<'a>,
        /// Where it goes in the target's segment: its first byte.
        offset: u64,
    },
    /// A Long request whose payload the library may read later (GASNet 1.8.1, core API,
    /// `gasnet_AMRequestLongAsync`). It is read at the call, as that of a `Long` (profile).
    LongAsync {
        /// The node that is to run the request.
        to: u16,
        /// The handler's index.
        handler: u8,
        /// The arguments.
        args: &'a [i32],
        /// The payload.
        payload: Payload<'a>,
        /// Where it goes in the target's segment: its first byte.
        offset: u64,
    },
    /// Takes a handler-safe lock (GASNet 1.8.1, core API, `gasnet_hsl_trylock`). It doesn't wait:
    /// where another one holds the lock the answer says so.
    Lock {
        /// The lock, 0 to 63.
        k: u8,
    },
    /// Gives a handler-safe lock back (GASNet 1.8.1, core API, `gasnet_hsl_unlock`).
    Unlock {
        /// The lock, 0 to 63.
        k: u8,
    },
    /// A poll (GASNet 1.8.1, core API, `gasnet_AMPoll`). Messages are delivered by events of their
    /// own, so it changes nothing.
    Poll,
    /// A call that is judged by the rule table, and does nothing else (profile).
    Attempt {
        /// The kind of call.
        call: CallKind,
    },
    /// Begins a transfer (GASNet 1.8.1, extended API, `gasnet_put_nb_bulk`, `gasnet_get_nb` and
    /// `gasnet_memset_nb`).
    Begin {
        /// The register that gets its handle, if any.
        reg: Option<u8>,
        /// The transfer.
        transfer: Transfer,
    },
    /// Begins an implicit transfer, or one in the access region that the thread has begun (GASNet
    /// 1.8.1, extended API, `gasnet_put_nbi_bulk` and its kin).
    BeginImplicit {
        /// The transfer.
        transfer: Transfer,
    },
    /// Whether each chunk of a register's operations was issued (profile).
    IsIssued {
        /// The register.
        reg: u8,
    },
    /// Tries to synchronise a register's operations (GASNet 1.8.1, extended API,
    /// `gasnet_try_syncnb`). The register keeps its handle.
    Sync {
        /// The register.
        reg: u8,
    },
    /// The same by a handle.
    SyncHandle {
        /// The handle.
        handle: Handle,
    },
    /// Tries to synchronise the operations of all of these registers (GASNet 1.8.1, extended API,
    /// `gasnet_try_syncnb_all`). Where that is so, the registers become invalid.
    SyncAll {
        /// The registers, at most 256.
        regs: &'a [u8],
    },
    /// Tries to synchronise the operations of some of these registers (GASNet 1.8.1, extended API,
    /// `gasnet_try_syncnb_some`). The registers of what was synchronised become invalid.
    SyncSome {
        /// The registers, at most 256.
        regs: &'a [u8],
    },
    /// Tries to synchronise the thread's implicit operations (GASNet 1.8.1, extended API,
    /// `gasnet_try_syncnbi_all` and its kin).
    SyncImplicit {
        /// Which of them.
        which: ImplicitKinds,
    },
    /// Begins an access region (GASNet 1.8.1, extended API, `gasnet_begin_nbi_accessregion`).
    RegionBegin,
    /// Ends it, and puts its handle into a register (GASNet 1.8.1, extended API,
    /// `gasnet_end_nbi_accessregion`).
    RegionEnd {
        /// The register.
        reg: u8,
    },
    /// Notifies the present phase of the barrier (GASNet 1.8.1, extended API,
    /// `gasnet_barrier_notify`).
    Notify {
        /// The identifier.
        id: i32,
        /// The flags: 0 where the barrier is named, 1 for ANONYMOUS, 2 for MISMATCH, 3 for both
        /// (profile).
        flags: u8,
    },
    /// Tries whether the present phase of the barrier is complete (GASNet 1.8.1, extended API,
    /// `gasnet_barrier_try`).
    TryBarrier {
        /// The identifier.
        id: i32,
        /// The flags, as in `Notify`.
        flags: u8,
    },
    /// The number in a cell (profile).
    Cell {
        /// The cell.
        c: u8,
    },
    /// Puts a number into a cell (profile).
    SetCell {
        /// The cell.
        c: u8,
        /// The number.
        value: i32,
    },
    /// Shows a range of the local segment (profile).
    Show {
        /// Its first byte.
        offset: u64,
        /// How many bytes it has.
        len: u64,
    },
    /// Writes bytes into the local segment (profile).
    Set {
        /// Where the first of them goes.
        offset: u64,
        /// The bytes.
        bytes: &'a [u8],
    },
    /// Writes one byte to each place of a range of the local segment (profile).
    Fill {
        /// The first byte of the range.
        offset: u64,
        /// How many bytes it has.
        len: u64,
        /// What is written.
        byte: u8,
    },
    /// The number of 8 bytes, little-endian, in the local segment (profile).
    LoadWord {
        /// Its first byte, a multiple of 8.
        offset: u64,
    },
    /// Writes a number of 8 bytes, little-endian, into the local segment (profile).
    SetWord {
        /// Its first byte, a multiple of 8.
        offset: u64,
        /// The number.
        value: u64,
    },
}

impl<'a> Call<'a> {
    /// What the thread asks, where the call is a request.
    pub fn asking(&self, thread: u16) -> Option<Asking<'a>>
        ensures { IsMeantBy self.now thread result }
    {
        let (to, category, handler, args, payload, offset) = match *self {
            Call::Short { to, handler, args } => {
                (to, Category::Short, handler, args, Payload::Lent(&[]), 0)
            }
            Call::Medium {
                to,
                handler,
                args,
                payload,
            } => (to, Category::Medium, handler, args, payload, 0),
            Call::Long {
                to,
                handler,
                args,
                payload,
                offset,
            }
            | Call::LongAsync {
                to,
                handler,
                args,
                payload,
                offset,
            } => { (to, Category::Long, handler, args, payload, offset) }
            _ => return None,
        };
        Some(Asking {
            thread,
            to,
            category,
            handler,
            args,
            payload,
            offset,
        })
    }

    /// Whether it is a request of this node to another one.
    #[inline(always)]
    pub fn is_to_other(&self, node: u16) -> bool
        ensures { result ≡ is_to_other node self.now }
    {
        match *self {
            Call::Short { to, .. }
            | Call::Medium { to, .. }
            | Call::Long { to, .. }
            | Call::LongAsync { to, .. } => to != node,
            _ => false,
        }
    }
}

/// What may happen to an endpoint.
#[derive(Clone, Copy)]
pub enum Event<'a> {
    /// A thread of the node makes a call.
    Call {
        /// The thread.
        thread: u16,
        /// The call.
        call: Call<'a>,
    },
    /// A datagram is delivered: any bytes.
    Deliver {
        /// Its bytes.
        bytes: &'a [u8],
    },
    /// A tick: what is due may be sent again.
    Tick,
}
