//! What a core tells of a delivery before it comes.

ghost use Rattle.std.specs.Prelude.{◌≡◌};
ghost use Rattle.wire_message.specs.Content.{IsMessage};
ghost use Rattle.wire_message.specs.Reading.{viewed_message};
ghost use Rattle.node_core.specs.CoreStep.{IsOurRequest, IsOurReply};
ghost use Rattle.node_core.specs.WouldDeliver.{WouldAnswer, WouldDeliver};
ghost use Rattle.node_core.specs.Sizes.{HasSegment};

use crate::answer::{Delivered, Side, SlotRef, Why};
use crate::library::LAST_OWN;
use crate::node::Core;
use part_window::Judged;
use wire_message::{Kind, View, view};

impl Core {
    /// What a delivery of these bytes would be answered. It changes nothing.
    pub fn would_deliver(&self, bytes: &[u8]) -> Delivered
        requires { HasSegment self.now }
        ensures { WouldDeliver self.now bytes.now result }
    {
        match view(bytes, self.settings.version()) {
            Ok(message) => self.would_receive(&message),
            Err(refused) => Delivered::Refused(Why::Bytes(refused)),
        }
    }

    /// What a message would be answered.
    fn would_receive(&self, message: &View<'_>) -> Delivered
        requires segment { HasSegment self.now }
        requires message { IsMessage (viewed_message message.now) }
        ensures { WouldAnswer self.now (viewed_message message.now) result }
    {
        if let Some(why) = self.refusal(message) {
            return Delivered::Refused(why);
        }
        match message.kind {
            Kind::ShortRequest | Kind::MediumRequest | Kind::LongRequest => self.would_run(message),
            Kind::ShortReply | Kind::MediumReply | Kind::LongReply | Kind::Ack => {
                self.would_take(message)
            }
        }
    }

    /// What a request that isn't refused would be answered.
    fn would_run(&self, message: &View<'_>) -> Delivered
        requires { IsOurRequest self.now (viewed_message message.now) }
        ensures { WouldAnswer self.now (viewed_message message.now) result }
    {
        let at = SlotRef {
            side: Side::Reply,
            peer: message.from,
            slot: message.slot,
        };
        match self
            .replies
            .judge(message.from, message.slot, message.number)
        {
            Judged::Duplicate => Delivered::Duplicate(at),
            Judged::Stale => Delivered::Stale,
            Judged::New => match self.awaited(message) {
                Some(lock) => Delivered::Deferred(lock),
                None if message.handler <= LAST_OWN => self.told(message, at),
                None => Delivered::Ran(at),
            },
        }
    }

    /// What a reply that isn't refused would be answered.
    fn would_take(&self, message: &View<'_>) -> Delivered
        requires { IsOurReply self.now (viewed_message message.now) }
        ensures { WouldAnswer self.now (viewed_message message.now) result }
    {
        let (to, slot, number) = (message.from, message.slot, message.number);
        if !self.requests.is_taken(to, slot, number) {
            return Delivered::Late;
        }
        match self.awaited(message) {
            Some(lock) => Delivered::Deferred(lock),
            None => Delivered::Returned { to, slot, number },
        }
    }
}
