//! Who holds a lock, and what a call on locks answers.

ghost use Rattle.std.specs.Prelude.{◌≡◌};
ghost use Rattle.part_handlers.specs.Locks.{is_owner, is_thread};

use std::error::Error;
use std::fmt;

/// Who takes locks and gives them back.
#[derive(Clone, Copy)]
pub enum Owner {
    /// The client's thread with this number.
    Thread(u16),
    /// The handler that runs now. A node runs one handler at a time.
    Handler,
}

impl Owner {
    pub(crate) fn is(self, other: Owner) -> bool
        ensures { result ≡ is_owner self other }
    {
        match (self, other) {
            (Owner::Thread(thread), Owner::Thread(other_thread)) => thread == other_thread,
            (Owner::Handler, Owner::Handler) => true,
            _ => false,
        }
    }

    pub(crate) fn is_thread(self) -> bool
        ensures { result ≡ is_thread self }
    {
        matches!(self, Owner::Thread(_))
    }
}

/// A lock that is held, and who holds it.
#[derive(Clone, Copy)]
pub struct Held {
    /// The lock, 0 to 63.
    pub lock: u8,
    /// Who took it and has not given it back.
    pub owner: Owner,
}

/// What stands in an unused place.
impl Default for Held {
    fn default() -> Held {
        Held {
            lock: 0,
            owner: Owner::Handler,
        }
    }
}

/// Why a lock is not taken or not given back: the call breaks a rule (profile).
#[derive(Clone, Copy, PartialEq, Eq, Debug)]
pub enum LockFault {
    /// There is no such lock: locks are numbered from 0 to 63.
    BadIndex,
    /// The entry of the running handler does not list the lock.
    NotListed,
    /// The owner holds the lock already (GASNet 1.8.1, core API, handler-safe locks: they are not recursive).
    Recursive,
    /// The owner does not hold the lock.
    NotHeld,
    /// The owner took another lock after this one, and still holds it: locks are given back in the reverse order.
    OutOfOrder,
}

impl fmt::Display for LockFault {
    fn fmt<W: fmt::Write>(&self, f: &mut fmt::Formatter<W>) -> fmt::Result {
        match *self {
            LockFault::BadIndex => write!(f, "no such lock: they are numbered from 0 to 63"),
            LockFault::NotListed => write!(f, "the handler's entry doesn't list the lock"),
            LockFault::Recursive => write!(f, "the owner holds the lock already"),
            LockFault::NotHeld => write!(f, "the owner doesn't hold the lock"),
            LockFault::OutOfOrder => write!(
                f,
                "the owner took another lock after this one, and still holds it"
            ),
        }
    }
}

impl Error for LockFault {}

/// What a call that takes a lock answers.
#[derive(Clone, Copy, PartialEq, Eq, Debug)]
pub enum LockAnswer {
    /// The owner holds the lock from now on.
    Taken,
    /// Another owner holds it; it may be asked for again.
    Held,
    /// The call breaks a rule, and nothing changed.
    Refused(LockFault),
}

/// What a call that gives a lock back answers.
#[derive(Clone, Copy, PartialEq, Eq, Debug)]
pub enum UnlockAnswer {
    /// The lock is free from now on.
    Freed,
    /// The call breaks a rule, and nothing changed.
    Refused(LockFault),
}
