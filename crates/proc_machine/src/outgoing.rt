//! The messages that a turn sent.

ghost use Rattle.std.specs.Prelude.{◌≡◌, ◌<◌, ◌≤◌, ◌+◌, ◌++◌, List, [], length, slice_get};
ghost use Rattle.std.specs.Option.{option_to_list};
ghost use Rattle.law_traces.specs.Turn.{is_some_there};

use node_core::{Side, SlotRef};
use std::marker::Model;

/// What stands at the places of the list that are empty.
const NO_SLOT: SlotRef = SlotRef {
    side: Side::Request,
    peer: 0,
    slot: 0,
};

/// The slots of the messages that a turn sent, in the order in which they go; at most three.
///
/// Contracts see it as the list of these slots.
#[derive(Drop)]
pub struct Outgoing {
    slots: [SlotRef; 3],
    count: u8,
}

impl Model for Outgoing {
    ghost use Rattle.std.specs.Prelude.{List, take, length, ◌≡◌, ◌≤◌};
    ghost use Rattle.spec_node.specs.declared.answer.SlotRef.{SlotRef as SlotState};

    ghost Value = { List SlotState };

    ghost view = { λ o. take o.count o.slots };

    ghost invariant = { λ o. (o.count ≤ 3) × (length o.slots ≡ 3) };
}

impl Outgoing {
    /// No message.
    pub fn none() -> Outgoing
        ensures { result ≡ [] }
    {
        Outgoing {
            slots: [NO_SLOT; 3],
            count: 0,
        }
    }

    /// Puts a message behind the others, if there is one.
    pub fn add(&mut self, slot: Option<SlotRef>)
        requires { length self.old < 3 }
        ensures slots { self.new ≡ self.old ++ option_to_list slot }
        ensures few { length self.new ≤ length self.old + 1 }
    {
        if let Some(slot) = slot {
            self.slots[usize::from(self.count)] = slot;
            self.count += 1;
        }
    }

    /// A message was sent.
    pub fn is_any(&self) -> bool
        ensures { result ≡ is_some_there self.now }
    {
        self.count() != 0
    }

    /// How many messages there are.
    pub fn count(&self) -> u8
        ensures count { result ≡ length self.now }
        ensures few { result ≤ 3 }
    {
        self.count
    }

    /// The slot of message `i`, counted from 0, if there are more than `i`.
    pub fn slot(&self, i: u8) -> Option<SlotRef>
        ensures { result ≡ slice_get self.now i }
    {
        if i < self.count {
            Some(self.slots[usize::from(i)])
        } else {
            None
        }
    }
}
