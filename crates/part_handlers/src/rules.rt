//! Which call is allowed where.

ghost use Rattle.std.specs.Prelude.{◌≡◌};
ghost use Rattle.part_handlers.specs.Locks.{holds};
ghost use Rattle.part_handlers.specs.Rules.{rule, communicates, context_of, owner_of};

use crate::{LockFault, Locks, Owner};
use std::error::Error;
use std::fmt;

/// What a handler is for: requests, or replies.
#[derive(Clone, Copy, Debug)]
pub enum Role {
    /// It runs for a request, and may send the reply.
    Request,
    /// It runs for a reply.
    Reply,
}

/// Who makes a call.
#[derive(Clone, Copy, PartialEq, Eq, Debug)]
pub enum Context {
    /// The client's thread with this number.
    Thread(u16),
    /// A handler that runs for a request.
    RequestHandler,
    /// A handler that runs for a reply.
    ReplyHandler,
}

/// The kinds of calls that the rule table tells apart.
#[derive(Clone, Copy, Debug)]
pub enum CallKind {
    /// A request of any category.
    Request,
    /// A reply of any category.
    Reply,
    /// A poll for messages.
    Poll,
    /// A put, a get or a memset.
    Transfer,
    /// A synchronisation, and the question whether an operation was issued.
    Sync,
    /// The beginning or the end of an access region.
    Region,
    /// A notify, a wait or a try of the barrier.
    Barrier,
    /// The question which node sent the message that a handler runs for.
    Source,
    /// Taking a handler-safe lock.
    Lock,
    /// Giving a handler-safe lock back.
    Unlock,
    /// A handler's return.
    Return,
}

/// Why the rule table forbids a call.
#[derive(Clone, Copy, PartialEq, Eq, Debug)]
pub enum Forbidden {
    /// A handler sends no request, doesn't poll, and uses no call of the extended API.
    InHandler,
    /// A thread has no message that it could reply to, or whose source it could ask for.
    NoToken,
    /// A request handler sends at most one reply.
    SecondReply,
    /// A reply handler sends no reply.
    ReplyInReply,
    /// A request handler holds no lock when it replies.
    ReplyUnderLock,
    /// A thread that holds a lock makes no call but lock calls (profile).
    UnderLock,
    /// A handler holds no lock when it returns.
    LockHeldAtReturn,
}

impl fmt::Display for Forbidden {
    fn fmt<W: fmt::Write>(&self, f: &mut fmt::Formatter<W>) -> fmt::Result {
        match *self {
            Forbidden::InHandler => write!(
                f,
                "a handler sends no request, polls not, and uses no call of the extended API"
            ),
            Forbidden::NoToken => write!(f, "a thread has no message to reply to"),
            Forbidden::SecondReply => write!(f, "a request handler sends at most one reply"),
            Forbidden::ReplyInReply => write!(f, "a reply handler sends no reply"),
            Forbidden::ReplyUnderLock => write!(
                f,
                "a request handler holds no lock when it replies"
            ),
            Forbidden::UnderLock => write!(
                f,
                "a thread that holds a lock makes no call but lock calls"
            ),
            Forbidden::LockHeldAtReturn => write!(f, "a handler holds no lock when it returns"),
        }
    }
}

impl Error for Forbidden {}

/// What was wrong with a call.
#[derive(Clone, Copy, PartialEq, Eq, Debug)]
pub enum Fault {
    /// The rule table forbids it.
    Rule(Forbidden),
    /// A lock wasn't taken, or not given back.
    Lock(LockFault),
}

impl fmt::Display for Fault {
    fn fmt<W: fmt::Write>(&self, f: &mut fmt::Formatter<W>) -> fmt::Result {
        match *self {
            Fault::Rule(rule) => write!(f, "{rule}"),
            Fault::Lock(lock) => write!(f, "{lock}"),
        }
    }
}

impl Error for Fault {}

/// A call that broke a rule, with who made it.
#[derive(Clone, Copy, PartialEq, Eq, Debug)]
pub struct Violation {
    /// Who made the call.
    pub context: Context,
    /// What was wrong with it.
    pub fault: Fault,
}

impl Role {
    /// Who makes the calls of a handler that runs for a message of this role.
    pub(crate) fn context(self) -> Context
        ensures { result ≡ context_of self }
    {
        match self {
            Role::Request => Context::RequestHandler,
            Role::Reply => Context::ReplyHandler,
        }
    }
}

impl Context {
    /// Who holds the locks of this context.
    fn owner(self) -> Owner
        ensures { result ≡ owner_of self }
    {
        match self {
            Context::Thread(thread) => Owner::Thread(thread),
            Context::RequestHandler | Context::ReplyHandler => Owner::Handler,
        }
    }
}

impl CallKind {
    /// Whether the call communicates, and isn't a reply.
    fn communicates(self) -> bool
        ensures { result ≡ communicates self }
    {
        matches!(
            self,
            CallKind::Request
                | CallKind::Poll
                | CallKind::Transfer
                | CallKind::Sync
                | CallKind::Region
                | CallKind::Barrier
        )
    }
}

/// How the rule table judges a call; `replied` says whether the handler has sent its reply (GASNet 1.8.1, core API:
/// what a handler may do, and handler-safe locks; line 7 is this project's profile).
///
/// The first of these lines that applies, else `Ok`. 'Holds' means that the context's owner, that thread or the
/// handler, holds a lock.
///
/// | Line | Who | Call | Besides | Refusal |
/// |---|---|---|---|---|
/// | 1 | either handler | `Request`, `Poll`, `Transfer`, `Sync`, `Region`, `Barrier` | | `InHandler` |
/// | 2 | thread | `Reply`, `Source` | | `NoToken` |
/// | 3 | reply handler | `Reply` | | `ReplyInReply` |
/// | 4 | request handler | `Reply` | it has replied | `SecondReply` |
/// | 5 | request handler | `Reply` | holds | `ReplyUnderLock` |
/// | 6 | either handler | `Return` | holds | `LockHeldAtReturn` |
/// | 7 | thread | `Request`, `Poll`, `Transfer`, `Sync`, `Region`, `Barrier` | holds | `UnderLock` |
pub fn allowed(
    context: Context,
    locks: &Locks,
    replied: bool,
    call: CallKind,
) -> Result<(), Forbidden>
    ensures { result ≡ rule context (holds (owner_of context) locks.now) replied call }
{
    judge(context, locks.holds(context.owner()), replied, call)
}

/// How the rule table judges a call of a context whose owner holds a lock or doesn't.
fn judge(context: Context, holds: bool, replied: bool, call: CallKind) -> Result<(), Forbidden>
    ensures { result ≡ rule context holds replied call }
{
    match (context, call) {
        (Context::RequestHandler | Context::ReplyHandler, _) if call.communicates() => {
            Err(Forbidden::InHandler)
        }
        (Context::Thread(_), CallKind::Reply | CallKind::Source) => Err(Forbidden::NoToken),
        (Context::ReplyHandler, CallKind::Reply) => Err(Forbidden::ReplyInReply),
        (Context::RequestHandler, CallKind::Reply) if replied => Err(Forbidden::SecondReply),
        (Context::RequestHandler, CallKind::Reply) if holds => Err(Forbidden::ReplyUnderLock),
        (Context::RequestHandler | Context::ReplyHandler, CallKind::Return) if holds => {
            Err(Forbidden::LockHeldAtReturn)
        }
        (Context::Thread(_), _) if call.communicates() && holds => Err(Forbidden::UnderLock),
        _ => Ok(()),
    }
}
