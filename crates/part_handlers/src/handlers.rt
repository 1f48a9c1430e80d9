//! What runs with a token.

use crate::cells::Cells;
use crate::token::Token;
use part_segment::Segment;

/// The client's handlers (GASNet 1.8.1, core API, active messages).
///
/// Their meaning is a function of values: what the run of a handler gives, from the handler's index, what stays the
/// same while it runs, and what it finds.
pub trait Handlers {
    ghost use Rattle.std.specs.Prelude.{ℕ};
    ghost use Rattle.part_handlers.specs.Runs.{Frame, Start, Outcome, IsLawfulRun};
    ghost use Rattle.part_handlers.specs.Tokens.{At, IsFresh, IsSegment, frame_of, stage};
    ghost use Rattle.part_handlers.specs.Tokens.{start_of};

    /// What the run of a handler gives: the cells that it leaves, what it wrote into the segment, the locks that are
    /// held then, its reply, and the calls that were refused.
    ghost meaning: { Self → ℕ → Frame → Start → Outcome };

    /// Runs the handler of this index with a token as `Token::new` made it. It takes no memory.
    ///
    /// The segment has the length of the token's settings, and the place of a Long's payload lies inside it. Segment,
    /// cells and token are then what the meaning says; the segment has the same length.
    fn run(&self, handler: u8, segment: &mut Segment, cells: &mut Cells, token: &mut Token<'_>)
        requires fresh { IsFresh token.old }
        requires segment { IsSegment token.old segment.old }
        ensures { let opening = stage segment.old cells.old token.old in
            At opening (meaning self.now handler (frame_of token.old) (start_of opening))
            (stage segment.new cells.new token.new) };

    // A reply is one that the rule table and its parts let through; what is written lies inside the segment; the
    // threads' locks stay theirs.
    ghost is_lawful: { (it : Self) (handler : ℕ) (frame : Frame) (start : Start)
        → IsLawfulRun frame start (meaning it handler frame start) };
}
