//! What the calls are asked, and what they answer.

ghost use Rattle.std.specs.Prelude.{◌≡◌};
ghost use Rattle.part_transfers.specs.Operation.{target, size, is_get, chunks};

use std::fmt;
use std::fmt::Debug;

/// The most bytes of a chunk: as many as the payload of a message may have.
pub const MAX_CHUNK: u64 = 8192;

/// What an operation of the extended API is called by. Number 0 is GASNET_INVALID_HANDLE: it stands for a finished
/// operation.
#[derive(Clone, Copy, Debug, PartialEq, Eq)]
pub struct Handle {
    /// The number of the operation, or the name of an access region; numbers are counted from 1.
    pub serial: u64,
}

/// A one-sided (RMA) transfer of contiguous bytes to or from another node's segment, in which no code of that node's
/// client takes part (GASNet 1.8.1 extended API, put, get and memset). Offsets and lengths are in bytes; `remote` is an
/// offset into the target's segment and `local` one into the local segment.
#[derive(Clone, Copy)]
pub enum Transfer {
    /// Bytes of the local segment are written into the target's (gasnet_put).
    Put {
        to: u16,
        remote: u64,
        local: u64,
        len: u64,
    },
    /// Bytes of the target's segment are written into the local one (gasnet_get).
    Get {
        to: u16,
        remote: u64,
        local: u64,
        len: u64,
    },
    /// Each byte of a range of the target's segment becomes `byte` (gasnet_memset). A sync takes it for a put.
    Memset {
        to: u16,
        remote: u64,
        len: u64,
        byte: u8,
    },
}

/// How an operation is synchronised. Fixed when it begins.
#[derive(Clone, Copy)]
pub enum Mode {
    /// By its handle (gasnet_put_nb_bulk and its like).
    Explicit,
    /// With the thread's implicit operations (gasnet_put_nbi_bulk and its like).
    Implicit,
    /// With its access region, by the region's name. `None` begins a new region, which is named by the operation's own
    /// number (gasnet_begin_nbi_accessregion).
    InRegion(Option<u64>),
}

/// Of which implicit operations a sync speaks.
#[derive(Clone, Copy, Debug)]
pub enum ImplicitKinds {
    /// Puts and memsets (gasnet_try_syncnbi_puts).
    Puts,
    /// Gets (gasnet_try_syncnbi_gets).
    Gets,
    /// All of them (gasnet_try_syncnbi_all).
    All,
}

/// The answer of a sync that doesn't wait (GASNet 1.8.1 extended API, gasnet_try_syncnb and its like).
#[derive(Clone, Copy, Debug, PartialEq, Eq)]
pub enum Synced {
    /// Each operation is complete: each of its chunks was issued and is back. Their handles are used up.
    Ok,
    /// Some chunk isn't back (GASNET_ERR_NOT_READY).
    NotReady,
    /// The handle belongs to another thread (profile).
    NotYours,
    /// No operation and no region that stands has the handle's number.
    BadHandle,
    /// Some chunk can't be issued any more: the numbers to this node are exhausted. It is the smallest such node
    /// (profile).
    Exhausted(u16),
}

/// No operation can begin: 256 records stand, or number 2^64 - 1 was given.
#[derive(Clone, Copy, PartialEq, Eq)]
pub struct TooMany;

impl fmt::Display for TooMany {
    fn fmt<W: fmt::Write>(&self, f: &mut fmt::Formatter<W>) -> fmt::Result {
        write!(f, "the node has as many operations as it can have")
    }
}

/// A chunk that is to be issued next: `len` bytes from `start` on in the ranges of the transfer.
#[derive(Clone, Copy)]
pub struct Next {
    /// The number of its operation.
    pub number: u64,
    /// The transfer that it is a chunk of.
    pub transfer: Transfer,
    /// Where it begins in the transfer's ranges, in bytes.
    pub start: u64,
    /// Its bytes: 8,192, or fewer for the last chunk.
    pub len: u64,
}

impl Transfer {
    /// The node that is written to, or read.
    pub fn target(&self) -> u16
        ensures { result ≡ target self.now }
    {
        match self {
            Transfer::Put { to, .. } | Transfer::Get { to, .. } | Transfer::Memset { to, .. } =>
                *to,
        }
    }

    /// The bytes that are transferred.
    pub fn size(&self) -> u64
        ensures { result ≡ size self.now }
    {
        match self {
            Transfer::Put { len, .. } | Transfer::Get { len, .. } | Transfer::Memset { len, .. } =>
                *len,
        }
    }

    /// Whether it is a get.
    pub fn is_get(&self) -> bool
        ensures { result ≡ is_get self.now }
    {
        match self {
            Transfer::Get { .. } => true,
            _ => false,
        }
    }

    /// In how many chunks it is cut.
    pub fn chunks(&self) -> u64
        ensures { result ≡ chunks (size self.now) }
    {
        self.size().div_ceil(MAX_CHUNK)
    }
}
