//! What the transfers ask of nodes, as their core tells it.

ghost use Rattle.node_endpoint.specs.NodeFlags.{AreAskable, AreExhausted};

use node_core::Core;
use part_transfers::Flags;

/// Which nodes can be asked: other ones, with a number and a credit left.
#[derive(Clone, Copy, Drop)]
pub(crate) struct Askable<'a> {
    pub core: &'a Core,
}

impl Flags for Askable<'_> {
    ghost stands = { λ it flag. AreAskable it.core.now flag };

    fn is_set(&self, node: u16) -> bool {
        self.core.can_ask(node)
    }

    fn may_be_set(&self) -> bool {
        self.core.can_ask_any()
    }
}

/// To which other nodes no number is left for requests.
#[derive(Clone, Copy, Drop)]
pub(crate) struct Exhausted<'a> {
    pub core: &'a Core,
}

impl Flags for Exhausted<'_> {
    ghost stands = { λ it flag. AreExhausted it.core.now flag };

    fn is_set(&self, node: u16) -> bool {
        self.core.is_exhausted(node)
    }

    fn may_be_set(&self) -> bool {
        true
    }
}
