//! The body of a handler, as it runs.

ghost use Rattle.std.specs.Prelude.{length};
ghost use Rattle.part_handlers.specs.Tokens.{At, IsFresh, IsReadyToken, IsSegment, token_arrival, frame_of, stage};
ghost use Rattle.part_handlers.specs.Tokens.{start_of};
ghost use Rattle.part_handlers.specs.Runs.{IsPlaced, nothing_done};
ghost use Rattle.text_script.specs.Bodies.{acts};
ghost use Rattle.text_script.specs.ActionResult.{AtAction};

use crate::body_bytes::{keep, message_bytes};
use crate::body_numbers::{sum_with, value_of, wrapping_sum};
use crate::body_replies::do_reply;
use part_handlers::{Cells, Token};
use part_segment::Segment;
use text_steps::Action;

/// Does an action.
fn do_action(action: &Action, segment: &mut Segment, cells: &mut Cells, token: &mut Token<'_>)
    requires placed { IsPlaced (length segment.old) (token_arrival token.old).place }
    requires ready { IsReadyToken token.old }
    ensures at { AtAction action.now (stage segment.old cells.old token.old)
        (stage segment.new cells.new token.new) }
    ensures ready { IsReadyToken token.new }
{
    match action {
        Action::Add { cell, operand } => {
            let sum = wrapping_sum(cells.get(*cell), value_of(*operand, cells, token.args()));
            cells.set(*cell, sum);
        }
        Action::SetCell { cell, operand } => {
            let number = value_of(*operand, cells, token.args());
            cells.set(*cell, number);
        }
        Action::Source { cell } => cells.set(*cell, i32::from(token.source())),
        Action::Sum { cell } => {
            let sum = sum_with(cells.get(*cell), message_bytes(segment, token));
            cells.set(*cell, sum);
        }
        Action::Keep { offset } => keep(token.payload(), *offset, segment),
        Action::Lock { lock } => {
            let _ = token.lock(*lock);
        }
        Action::Unlock { lock } => {
            let _ = token.unlock(*lock);
        }
        Action::Attempt { call } => {
            let _ = token.attempt(*call);
        }
        Action::Reply { reply } => do_reply(reply, segment, cells, token),
    }
}

/// Does the actions in order. None of them ends the body, whatever is answered to it.
pub(crate) fn do_all(
    actions: &[Action],
    segment: &mut Segment,
    cells: &mut Cells,
    token: &mut Token<'_>,
)
    requires fresh { IsFresh token.old }
    requires segment { IsSegment token.old segment.old }
    ensures { let opening = stage segment.old cells.old token.old in
        At opening (acts (frame_of token.old) (start_of opening) (nothing_done (start_of opening)) actions.now)
        (stage segment.new cells.new token.new) }
{
    for action in actions {
        do_action(action, segment, cells, token);
    }
}
