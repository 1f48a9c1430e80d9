//! Handlers that C ran already: what each of them did, as values that are replayed.

ghost use Rattle.std.specs.Prelude.{◌≡◌, length};
ghost use Rattle.gasnet_c.specs.Replayed.{left_write, overwritten_if, with_one_more};

use part_handlers::{Cells, Handlers, Role, Token};
use part_segment::Segment;
use wire_message::{high_half, joined, low_half};

/// The reply that a handler asked for: `gasnet_c_reply`.
#[repr(C)]
#[derive(Clone, Copy)]
pub struct Reply<'a> {
    /// Its arguments.
    pub args: &'a [i32],
    /// Its payload.
    pub payload: &'a [u8],
    /// Where a Long's payload goes in the requester's segment.
    pub offset: u64,
    /// 0 for a Short, 1 for a Medium, 2 for a Long; else there is none.
    pub category: u32,
    /// The index of its handler.
    pub handler: u8,
}

/// The reply that the handler of a delivery asked for. What it left in the segment stands there.
#[derive(Clone, Copy)]
pub struct Replying<'a> {
    /// The reply; a reply's handler asks for none.
    pub reply: Reply<'a>,
}

/// What a handler did: `gasnet_c_run`.
#[repr(C)]
#[derive(Clone, Copy)]
pub struct Run<'a> {
    /// The reply that it asked for; a reply's handler asks for none.
    pub reply: Reply<'a>,
    /// The bytes that it left at a Long's place; none where the payload stands there as it came.
    pub left: &'a [u8],
}

/// Nothing.
pub const NO_RUN: Run<'static> = Run {
    reply: Reply {
        args: &[],
        payload: &[],
        offset: 0,
        category: 3,
        handler: 0,
    },
    left: &[],
};

/// What the handler of a reply did that came from the local node: the bytes that it left at a Long's place.
#[derive(Clone, Copy)]
pub struct Left<'a> {
    /// The bytes; none where the payload stands there as it came.
    pub bytes: &'a [u8],
}

/// What the two handlers of a request to the local node did.
///
/// Both run in one event, the request's first. Each such request is counted in two cells, modulo 2^64, so that no two
/// of so many find the same cells, whatever the handlers keep outside of the segment.
#[derive(Clone, Copy)]
pub struct OwnRuns<'a> {
    /// What the request's handler did.
    pub request: Run<'a>,
    /// What its reply's handler did.
    pub reply: Left<'a>,
}

/// The cell of the low half of the count of requests to the local node. Nothing else uses cells here.
const LOW: u8 = 0;
/// The cell of its high half.
const HIGH: u8 = 1;

/// One more request to the local node is counted: the number in the two cells rises by 1, modulo 2^64.
fn count_one(cells: &mut Cells)
    ensures { cells.new ≡ with_one_more cells.old }
{
    let count = joined(cells.get(HIGH), cells.get(LOW)).wrapping_add(1);
    cells.set(LOW, low_half(count));
    cells.set(HIGH, high_half(count));
}

/// Writes bytes at a Long's place, where there are some and they fit.
fn leave(segment: &mut Segment, place: Option<(u64, u64)>, left: &[u8])
    ensures { segment.new ≡ overwritten_if
        (left_write (length segment.old) place left.now) segment.old }
{
    if let Some((offset, _)) = place {
        let len = left.len() as u64;
        if len == 0 || !segment.contains(offset, len) {
            return;
        }
        segment.part_mut(offset, len).copy_from_slice(left);
    }
}

impl Handlers for Replying<'_> {
    ghost use Rattle.gasnet_c.specs.Replayed.{asking};
    ghost use Rattle.gasnet_c.specs.Lawful.{asking_lawful};

    ghost meaning = { λ it handler frame start. asking it.reply frame start };

    ghost is_lawful = { λ it handler frame start. asking_lawful it.reply frame start };

    /// It asks for the reply that C's handler asked for.
    fn run(&self, _handler: u8, _segment: &mut Segment, _cells: &mut Cells, token: &mut Token<'_>) {
        let reply = &self.reply;
        match reply.category {
            0 => {
                let _ = token.reply_short(reply.handler, reply.args);
            }
            1 => {
                let _ = token.reply_medium(reply.handler, reply.args, reply.payload);
            }
            2 => {
                let _ = token.reply_long(reply.handler, reply.args, reply.payload, reply.offset);
            }
            _ => {}
        }
    }
}

impl Handlers for Run<'_> {
    ghost use Rattle.gasnet_c.specs.Replayed.{outcome_of_run};
    ghost use Rattle.gasnet_c.specs.Lawful.{replayed_lawful};

    ghost meaning = { λ it handler frame start. outcome_of_run it frame start };

    ghost is_lawful = { λ it handler frame start. replayed_lawful it frame start };

    /// It leaves what C's handler left, and asks for the reply that it asked for.
    fn run(&self, _handler: u8, segment: &mut Segment, _cells: &mut Cells, token: &mut Token<'_>) {
        leave(segment, token.place(), self.left);
        let reply = &self.reply;
        match reply.category {
            0 => {
                let _ = token.reply_short(reply.handler, reply.args);
            }
            1 => {
                let _ = token.reply_medium(reply.handler, reply.args, reply.payload);
            }
            2 => {
                let _ = token.reply_long(reply.handler, reply.args, reply.payload, reply.offset);
            }
            _ => {}
        }
    }
}

impl Handlers for Left<'_> {
    ghost use Rattle.gasnet_c.specs.Replayed.{leaving};
    ghost use Rattle.gasnet_c.specs.Lawful.{leaving_lawful};

    ghost meaning = { λ it handler frame start. leaving it.bytes.now frame start };

    ghost is_lawful = { λ it handler frame start. leaving_lawful it.bytes.now frame start };

    /// It leaves what C's handler left.
    fn run(&self, _handler: u8, segment: &mut Segment, _cells: &mut Cells, token: &mut Token<'_>) {
        leave(segment, token.place(), self.bytes);
    }
}

impl Handlers for OwnRuns<'_> {
    ghost use Rattle.gasnet_c.specs.Replayed.{both_replayed};
    ghost use Rattle.gasnet_c.specs.Lawful.{both_lawful};

    ghost meaning = { λ it handler frame start. both_replayed it frame start };

    ghost is_lawful = { λ it handler frame start. both_lawful it frame start };

    /// The request's handler is counted and does what it did; the reply's leaves what it left.
    fn run(&self, handler: u8, segment: &mut Segment, cells: &mut Cells, token: &mut Token<'_>) {
        match token.role() {
            Role::Request => {
                count_one(cells);
                self.request.run(handler, segment, cells, token);
            }
            Role::Reply => self.reply.run(handler, segment, cells, token),
        }
    }
}
