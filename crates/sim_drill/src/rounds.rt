//! The rounds of the drill, as they are drawn.

ghost use Rattle.std.specs.Prelude.{◌≡◌};
ghost use Rattle.sim_drill.specs.Draws.{behind_round, deed_of, round_from};

use crate::draws::Draws;

/// What a round does.
#[derive(Clone, Copy)]
pub enum Deed {
    /// A Short request.
    Short,
    /// An implicit put, once those before it were tried.
    Put,
    /// A tick.
    Tick,
    /// The delivery of a request.
    Request,
    /// The delivery of a reply.
    Reply,
}

/// What a round draws.
#[derive(Clone, Copy)]
pub struct Round {
    /// What it does.
    pub deed: Deed,
    /// The node that calls or ticks, or whose request or its reply is delivered; 0 to 3.
    pub from: u16,
    /// The other node, 0 to 3.
    pub to: u16,
    /// By which the argument, the place or the number is told.
    pub rest: u32,
}

/// What a round does, by a number below 8.
fn deed_of(number: u32) -> Deed
    ensures { result ≡ deed_of number }
{
    match number {
        0 | 1 => Deed::Short,
        2 => Deed::Put,
        3 => Deed::Tick,
        4 | 5 => Deed::Request,
        _ => Deed::Reply,
    }
}

/// Draws a round.
pub fn draw_round(draws: &mut Draws) -> Round
    ensures draws { draws.new ≡ behind_round draws.old }
    ensures round { result ≡ round_from draws.old }
{
    let deed = deed_of(draws.draw() % 8);
    let from = draws.draw() % 4;
    let to = (from + 1 + draws.draw() % 3) % 4;
    let rest = draws.draw();
    Round {
        deed,
        from: from as u16,
        to: to as u16,
        rest,
    }
}
