//! Pairs of nodes with credits of their own.

ghost use Rattle.std.specs.Prelude.{◌≡◌};
ghost use Rattle.wire_message.specs.Parameters.{own_credits};

/// How many credits a node has towards another one.
#[derive(Clone, Copy, Debug)]
pub struct PairCredits {
    /// The node that sends requests.
    pub from: u16,
    /// The node that they are for.
    pub to: u16,
    /// How many may be under way.
    pub credits: u16,
}

/// The credits of the first pair that is this one; None exactly where there is none.
pub(crate) fn own_credits(pairs: &[PairCredits], from: u16, to: u16) -> Option<u16>
    ensures { result ≡ own_credits pairs.now from to }
{
    for pair in pairs {
        if pair.from == from && pair.to == to {
            return Some(pair.credits);
        }
    }
    None
}
