//! A turn of a thread.

ghost use Rattle.std.specs.Prelude.{◌≡◌, ◌<◌, ◌||◌, IsSome, true, not, is_some, option_copied};
ghost use Rattle.part_handlers.specs.Locks.{holds};
ghost use Rattle.node_endpoint.specs.EndpointState.{ForItsRecord};
ghost use Rattle.proc_machine.specs.Kept.{CanBeSaid};
ghost use Rattle.proc_machine.specs.Cursors.{progress_of};
ghost use Rattle.proc_machine.specs.Scripted.{TriesNext};
ghost use Rattle.law_traces.specs.Turn.{is_some_there};
ghost use Rattle.proc_steps.specs.Tries.{AreThere};
ghost use Rattle.proc_machine.specs.Turns.{TakesTurn};

use crate::cursor::Cursor;
use crate::outgoing::Outgoing;
use crate::parts::before_try;
use node_collectives::Collectives;
use node_endpoint::Endpoint;
use part_handlers::{Handlers, Owner};
use proc_steps::{Trial, Tried, attempt};

/// Which thread takes a turn, when, and what it got.
#[derive(Clone, Copy)]
pub struct ThreadTurn<'a> {
    /// The thread.
    pub thread: u16,
    /// The time.
    pub now: u64,
    /// The thread polls: it holds no lock.
    pub polls: bool,
    /// The bytes that it got, if it got any.
    pub got: Option<&'a [u8]>,
}

/// What a turn did.
#[derive(Drop)]
pub struct TurnDone {
    /// The slots of the messages that it sent.
    pub outgoing: Outgoing,
    /// The try of the thread's step.
    pub tried: Tried,
}

/// Something was got or sent, the script step ended or began, or the node's collectives changed.
pub fn is_change(done: &TurnDone, came: bool) -> bool
    ensures { result ≡ (came || is_some_there done.now.outgoing || is_some done.now.tried.ended
        || is_some done.now.tried.began) }
{
    came || done.outgoing.is_any() || done.tried.ended.is_some() || done.tried.began.is_some()
}

/// Tries the next step of a thread's script, if there is one.
fn try_next<H: Handlers>(
    endpoint: &mut Endpoint,
    handlers: &H,
    collectives: &mut Option<Collectives>,
    cursor: &Cursor<'_>,
    turn: ThreadTurn<'_>,
) -> Tried
    requires thread { turn.thread < endpoint.old.core.settings.threads }
    requires said { CanBeSaid endpoint.old.core.settings (progress_of cursor.now) }
    requires there { AreThere endpoint.old collectives.old }
    ensures tries { TriesNext (H.meaning handlers.now)
        (record { endpoint = endpoint.old; collectives = collectives.old })
        (record {
          now = turn.entry.now;
          thread = turn.entry.thread;
          progress = progress_of cursor.now;
        }) result
        (record { endpoint = endpoint.new; collectives = collectives.new }) }
    ensures there { AreThere endpoint.new collectives.new }
{
    match cursor.left.first() {
        Some(step) => attempt(
            endpoint,
            handlers,
            collectives,
            &Trial {
                time: turn.now,
                thread: turn.thread,
                step,
                began: cursor.began,
            },
        ),
        None => Tried {
            sent: None,
            ended: None,
            began: None,
        },
    }
}

/// A turn of a thread, with its script: where it polls, what was got is delivered, and the node ticks; then the next
/// step of the script is tried. `collectives` is how far the node's collectives are. Answers the messages that the turn
/// sent, and what the try did.
pub fn take_turn<H: Handlers>(
    endpoint: &mut Endpoint,
    handlers: &H,
    collectives: &mut Option<Collectives>,
    cursor: &mut Cursor<'_>,
    turn: ThreadTurn<'_>,
) -> TurnDone
    requires thread { turn.thread < endpoint.old.core.settings.threads }
    requires said { CanBeSaid endpoint.old.core.settings (progress_of cursor.old) }
    requires there { AreThere endpoint.old collectives.old }
    requires polls { ForItsRecord endpoint.old (λ node.
        turn.polls ≡ not (holds (Owner.Thread turn.thread) node.local.core.locks)) }
    requires got { IsSome turn.got → turn.polls ≡ true }
    ensures takes { TakesTurn (H.meaning handlers.now)
        (record { endpoint = endpoint.old; collectives = collectives.old }, progress_of cursor.old)
        (record {
          thread = turn.entry.thread;
          now = turn.entry.now;
          got = option_copied turn.entry.got;
        }) result (
          record { endpoint = endpoint.new; collectives = collectives.new },
          progress_of cursor.new,
        ) }
    ensures there { AreThere endpoint.new collectives.new }
{
    let mut outgoing = before_try(endpoint, handlers, turn.now, turn.polls, turn.got);
    let tried = try_next(endpoint, handlers, collectives, cursor, turn);
    outgoing.add(tried.sent);
    cursor.go_on(&tried);
    TurnDone { outgoing, tried }
}
