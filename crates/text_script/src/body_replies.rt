//! The replies that a body asks for, as it runs.

ghost use Rattle.std.specs.Prelude.{◌≡◌, ◌≤◌, length, map};
ghost use Rattle.wire_message.specs.Content.{short_reply, medium_reply, long_reply};
ghost use Rattle.part_handlers.specs.Tokens.{IsReadyToken, token_arrival, stage};
ghost use Rattle.part_handlers.specs.Runs.{IsPlaced};
ghost use Rattle.text_script.specs.ActionResult.{AsksReply, AtReply};
ghost use Rattle.text_script.specs.Bodies.{operand_value};

use crate::body_bytes::payload_bytes;
use crate::body_numbers::values_of;
use part_handlers::{Cells, Token};
use part_segment::Segment;
use text_calls::Operand;
use text_steps::ReplyAction;

/// Asks for a Short reply.
fn reply_short(handler: u8, operands: &[Operand], cells: &Cells, token: &mut Token<'_>)
    requires few { length operands.now ≤ 17 }
    requires ready { IsReadyToken token.old }
    ensures asks { AsksReply (short_reply handler
        (map (operand_value cells.now (token_arrival token.old).args) operands.now)) token.old token.new }
    ensures ready { IsReadyToken token.new }
{
    let values = values_of(operands, cells, token.args());
    let _ = token.reply_short(handler, &values[..operands.len()]);
}

/// Asks for a Medium reply.
fn reply_medium(
    handler: u8,
    payload: &[u8],
    operands: &[Operand],
    cells: &Cells,
    token: &mut Token<'_>,
)
    requires few { length operands.now ≤ 17 }
    requires ready { IsReadyToken token.old }
    ensures asks { AsksReply (medium_reply handler
        (map (operand_value cells.now (token_arrival token.old).args) operands.now) payload.now)
        token.old token.new }
    ensures ready { IsReadyToken token.new }
{
    let values = values_of(operands, cells, token.args());
    let _ = token.reply_medium(handler, &values[..operands.len()], payload);
}

/// Where a Long reply goes: the requester's handler, and the byte of its segment.
#[derive(Clone, Copy)]
struct Aim {
    handler: u8,
    offset: u64,
}

/// Asks for a Long reply.
fn reply_long(aim: Aim, payload: &[u8], operands: &[Operand], cells: &Cells, token: &mut Token<'_>)
    requires few { length operands.now ≤ 17 }
    requires ready { IsReadyToken token.old }
    ensures asks { AsksReply (long_reply aim.handler
        (map (operand_value cells.now (token_arrival token.old).args) operands.now) aim.offset payload.now)
        token.old token.new }
    ensures ready { IsReadyToken token.new }
{
    let values = values_of(operands, cells, token.args());
    let _ = token.reply_long(aim.handler, &values[..operands.len()], payload, aim.offset);
}

/// Asks for a reply; does nothing at all where the range of its payload is outside the segment.
pub(crate) fn do_reply(reply: &ReplyAction, segment: &Segment, cells: &Cells, token: &mut Token<'_>)
    requires placed { IsPlaced (length segment.now) (token_arrival token.old).place }
    requires ready { IsReadyToken token.old }
    ensures at { AtReply reply.now (stage segment.now cells.now token.old)
        (stage segment.now cells.now token.new) }
    ensures ready { IsReadyToken token.new }
{
    match reply {
        ReplyAction::Short { handler, operands } => {
            reply_short(*handler, operands.items(), cells, token);
        }
        ReplyAction::Medium {
            handler,
            payload,
            operands,
        } => {
            if let Some(payload) = payload_bytes(payload, segment, token) {
                reply_medium(*handler, payload, operands.items(), cells, token);
            }
        }
        ReplyAction::Long {
            handler,
            payload,
            offset,
            operands,
        } => {
            if let Some(payload) = payload_bytes(payload, segment, token) {
                let aim = Aim {
                    handler: *handler,
                    offset: *offset,
                };
                reply_long(aim, payload, operands.items(), cells, token);
            }
        }
    }
}
