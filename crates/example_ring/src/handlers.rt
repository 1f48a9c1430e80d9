//! What the ring's handlers do: the program's own, written here and not in a script.

ghost use Rattle.std.specs.Prelude.{◌≡◌, ℤ, pos, slice_index_or};
ghost use Rattle.example_ring.specs.Ring.{cell_after_count};

use gasnet::{Cells, Handlers, Segment, Token};

/// The request handler of the message: its argument says how many times the message was passed on.
pub const MESSAGE: u8 = 128;
/// The reply handler that hears that the message came.
pub const PASSED: u8 = 129;
/// The cell that says how often the message was passed on when it came here last; 0 before.
pub const HOPS: u8 = 0;
/// The cell that counts how often the message came here.
pub const CAME: u8 = 1;
/// The cell that counts how often this node was told that its message came.
pub const TOLD: u8 = 2;

/// The handlers of every node of the ring.
#[derive(Clone, Copy)]
pub struct RingHandlers;

/// The first argument, or 0.
fn first(args: &[i32]) -> i32
    ensures { result ≡ slice_index_or args.now 0 (pos 0) }
{
    if args.is_empty() { 0 } else { args[0] }
}

/// A cell rises by 1, wrapping.
fn count(cells: &mut Cells, cell: u8)
    ensures { cells.new ≡ cell_after_count cells.old cell }
{
    cells.set(cell, cells.get(cell).wrapping_add(1));
}

impl Handlers for RingHandlers {
    ghost use Rattle.std.specs.Prelude.{[], ◌∷◌, ◌==◌, pos, if◌then◌else◌, slice_set, slice_index_or};
    ghost use Rattle.gasnet.specs.Messages.{short_reply};
    ghost use Rattle.gasnet.specs.Handlers.{replying, nothing_done};
    ghost use Rattle.gasnet.proofs.Lawful.{lawful-untouched, lawful-cells, lawful-replying};
    ghost use Rattle.gasnet.proofs.Lawful.{short_reply-content};
    ghost use Rattle.example_ring.specs.Ring.{ring_meaning};
    ghost use Rattle.example_ring.specs.Lawful.{ring_lawful};

    ghost meaning = { λ it handler frame start. ring_meaning handler frame start };

    ghost is_lawful = { λ it handler frame start. ring_lawful handler frame start };

    /// The message's handler notes it and replies how often it was passed on; the reply's counts.
    fn run(&self, handler: u8, _segment: &mut Segment, cells: &mut Cells, token: &mut Token<'_>) {
        if handler == MESSAGE {
            let hops = first(token.args());
            cells.set(HOPS, hops);
            count(cells, CAME);
            let _ = token.reply_short(PASSED, &[hops]);
        } else {
            count(cells, TOLD);
        }
    }
}
