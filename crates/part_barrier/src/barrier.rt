//! One node's barrier.

ghost use Rattle.std.specs.Prelude.{◌≡◌, ℕ, ◌<◌, ◌≤◌, None, IsTrue, IsSome, IfOk, IsOk};
ghost use Rattle.part_barrier.specs.Record.{opened_record, has_notified_nothing, notify_answer, notify_after};
ghost use Rattle.part_barrier.specs.Record.{try_answer, try_after, hear, notification_to, owes, send};
ghost use Rattle.part_barrier.specs.BarrierState.{last_due, now_due, notification_at};
ghost use Rattle.part_barrier.specs.Stands.{BarrierStands, ForItsBarrierRecord};

use crate::answer::{BarrierAnswer, Notified};
use crate::known::{Known, Notify, is_other, join, no_part, notification_of, own_part, part_of};
use crate::mask::{first_without, has_all, is_in, put_in};
use crate::rounds::{Place, targets};
use std::alloc::AllocError;
use std::marker::Model;
use wire_message::BarrierNotification;

/// The split-phase barrier of one node among up to 256 (GASNet 1.8.1, extended API, barriers).
///
/// Its phases are numbered from 0. What it keeps is of three of them: the present one, the next one, of which
/// notifications may come before this node notifies, and the one that ended last, whose notifications may have to go
/// still.
///
/// `goes_now` and `goes_last` are the nodes to which the route sends the notification of the present phase, and of the
/// one that ended last, whether it was sent or not. They are kept as notifies and notifications come, so no call
/// searches the rounds.
#[derive(Drop)]
pub struct Barrier {
    nodes: u16,
    me: u16,
    phase: u64,
    own: Option<Notify>,
    present: Known,
    next: Known,
    last: Known,
    sent_now: [u64; 4],
    sent_last: [u64; 4],
    goes_now: [u64; 4],
    goes_last: [u64; 4],
}

impl Model for Barrier {
    ghost use Rattle.part_barrier.specs.BarrierState.{BarrierState};

    ghost Value = { BarrierState };

    ghost use Rattle.part_barrier.specs.Views.{fields_view, IsBarrier};

    ghost view = { fields_view };

    ghost invariant = { IsBarrier };
}

impl Barrier {
    /// The barrier of node `me` among so many nodes, in phase 0. It takes no memory, so it is never an error.
    pub fn new(nodes: u16, me: u16) -> Result<Barrier, AllocError>
        requires few { nodes ≤ 256 }
        requires in_range { me < nodes }
        ensures stands { IfOk result (λ barrier. BarrierStands nodes me barrier opened_record) }
        ensures nodes { IfOk result (λ barrier. barrier.nodes ≡ nodes) }
        ensures never { IsOk result }
    {
        Ok(Barrier {
            nodes,
            me,
            phase: 0,
            own: None,
            present: no_part(),
            next: no_part(),
            last: no_part(),
            sent_now: [0; 4],
            sent_last: [0; 4],
            goes_now: [0; 4],
            goes_last: [0; 4],
        })
    }

    /// Notifies the present phase: `gasnet_barrier_notify`.
    ///
    /// The flags are 0 where it is named by the identifier, 1 for ANONYMOUS, 2 for MISMATCH, and 3 for both (profile).
    /// The first of these that is so: `BadFlags`, the flags are above 3; `Twice`, the phase was notified; `Exhausted`,
    /// the phase is 2^64 - 1. Else `Ok`. A refusal changes nothing.
    pub fn notify(&mut self, id: i32, flags: u8) -> Notified
        ensures answer { ForItsBarrierRecord self.old (λ nodes me kept.
            result ≡ notify_answer kept id flags) }
        ensures stands { ForItsBarrierRecord self.old (λ nodes me kept.
            BarrierStands nodes me self.new
            (notify_after kept id flags (notify_answer kept id flags))) }
        ensures nodes { self.new.nodes ≡ self.old.nodes }
    {
        if flags > 3 {
            return Notified::BadFlags;
        }
        if self.own.is_some() {
            return Notified::Twice;
        }
        if self.phase == u64::MAX {
            return Notified::Exhausted;
        }
        let own = Notify { id, flags };
        self.own = Some(own);
        self.present = join(&own_part(self.me, own), &self.present);
        let at = Place {
            nodes: self.nodes,
            me: self.me,
        };
        self.goes_now = targets(at, true, &self.present.mask);
        Notified::Ok
    }

    /// Tries whether the present phase is complete, and ends it then: `gasnet_barrier_try`.
    ///
    /// `exhausted` is the smallest node to which a notification of this phase must go, and for which the numbers of
    /// messages are exhausted. The first of these that is so: `BadFlags`, the flags are above 3; `NoNotify`, the phase
    /// wasn't notified; where all nodes are known to have notified it, `Mismatch` or `Ok`, and the phase ends;
    /// `Exhausted` with that node, where there is one; `NotReady`. It is a mismatch exactly where the notifies are one,
    /// or where the flags, or the identifier where it is named, differ from the local notify.
    pub fn try_wait(&mut self, id: i32, flags: u8, exhausted: Option<u16>) -> BarrierAnswer
        ensures answer { ForItsBarrierRecord self.old (λ nodes me kept.
            result ≡ try_answer nodes me kept
            (record { id = id; flags = flags; exhausted = exhausted })) }
        ensures stands { ForItsBarrierRecord self.old (λ nodes me kept.
            BarrierStands nodes me self.new (try_after kept (try_answer nodes me kept (record {
              id = id;
              flags = flags;
              exhausted = exhausted;
            })))) }
        ensures nodes { self.new.nodes ≡ self.old.nodes }
    {
        if flags > 3 {
            return BarrierAnswer::BadFlags;
        }
        let Some(own) = self.own else {
            return BarrierAnswer::NoNotify;
        };
        if !has_all(&self.present.mask, self.nodes) {
            return match exhausted {
                Some(node) => BarrierAnswer::Exhausted(node),
                None => BarrierAnswer::NotReady,
            };
        }
        let is_mismatch = self.present.combined.mismatch || is_other(own, id, flags);
        self.last = self.present;
        self.sent_last = self.sent_now;
        self.goes_last = self.goes_now;
        self.own = None;
        self.present = self.next;
        self.next = no_part();
        self.sent_now = [0; 4];
        self.goes_now = [0; 4];
        self.phase += 1;
        if is_mismatch {
            BarrierAnswer::Mismatch
        } else {
            BarrierAnswer::Ok
        }
    }

    /// Hears a notification that has come (profile). One of the present phase or the next one is kept, also before this
    /// node's own notify; any other one is old and changes nothing.
    pub fn heard(&mut self, notification: &BarrierNotification)
        ensures stands { ForItsBarrierRecord self.old (λ nodes me kept.
            BarrierStands nodes me self.new (hear kept notification.now)) }
        ensures nodes { self.new.nodes ≡ self.old.nodes }
    {
        if notification.phase == self.phase {
            self.present = join(&self.present, &part_of(notification));
            let at = Place {
                nodes: self.nodes,
                me: self.me,
            };
            self.goes_now = targets(at, self.own.is_some(), &self.present.mask);
        } else if notification.phase > self.phase && notification.phase - self.phase == 1 {
            self.next = join(&self.next, &part_of(notification));
        }
    }

    /// The notification of the phase that ended last that must go to the node still.
    fn last_due(&self, to: u16) -> Option<BarrierNotification>
        requires { to < self.now.nodes }
        ensures { result ≡ last_due self.now to }
    {
        if self.phase == 0 || !is_in(&self.goes_last, to) || is_in(&self.sent_last, to) {
            return None;
        }
        Some(notification_of(self.phase - 1, &self.last))
    }

    /// The notification of the present phase that must go to the node still.
    fn now_due(&self, to: u16) -> Option<BarrierNotification>
        requires { to < self.now.nodes }
        ensures { result ≡ now_due self.now to }
    {
        if !is_in(&self.goes_now, to) || is_in(&self.sent_now, to) {
            return None;
        }
        Some(notification_of(self.phase, &self.present))
    }

    /// The notification that must go to the node and wasn't sent; None exactly where there is none (profile).
    ///
    /// In round r, while 2^r is below n, a node that has notified sends what it knows to the node 2^r further, modulo
    /// n, once it knows the 2^r nodes up to itself. A notification of the phase that ended last goes before one of the
    /// present phase.
    pub fn notification_to(&self, to: u16) -> Option<BarrierNotification>
        requires { to < self.now.nodes }
        ensures state { result ≡ notification_at self.now to }
        ensures notification { ForItsBarrierRecord self.now (λ nodes me kept.
            result ≡ notification_to nodes me kept to) }
    {
        match self.last_due(to) {
            Some(notification) => Some(notification),
            None => self.now_due(to),
        }
    }

    /// A node below which no notification must go to any node. It looks at whole words of masks, so a search for the
    /// node to which a notification goes begins there.
    pub fn first_owed(&self) -> u16
        ensures { ForItsBarrierRecord self.now (λ nodes me kept.
            (to : ℕ) → to < result → notification_to nodes me kept to ≡ None) }
    {
        let now = first_without(&self.goes_now, &self.sent_now);
        if self.phase == 0 {
            return now;
        }
        now.min(first_without(&self.goes_last, &self.sent_last))
    }

    /// Whether this node has notified nothing so far: then no notification must go to any node. A node whose job has no
    /// barrier needs no more than that at each tick (profile).
    pub fn has_notified_nothing(&self) -> bool
        ensures exact { ForItsBarrierRecord self.now (λ nodes me kept.
            result ≡ has_notified_nothing kept) }
        ensures none { IsTrue result → ForItsBarrierRecord self.now (λ nodes me kept.
            (to : ℕ) → notification_to nodes me kept to ≡ None) }
    {
        self.phase == 0 && self.own.is_none()
    }

    /// Whether a notification of the present phase must go to the node, also while an older one must (profile).
    pub fn owes(&self, to: u16) -> bool
        requires { to < self.now.nodes }
        ensures { ForItsBarrierRecord self.now (λ nodes me kept. result ≡ owes nodes me kept to) }
    {
        self.now_due(to).is_some()
    }

    /// Records that `notification_to` of this node was sent to it (profile).
    pub fn sent(&mut self, to: u16)
        requires in_range { to < self.old.nodes }
        requires due { IsSome (notification_at self.old to) }
        ensures stands { ForItsBarrierRecord self.old (λ nodes me kept.
            BarrierStands nodes me self.new (send kept to (notification_to nodes me kept to))) }
        ensures nodes { self.new.nodes ≡ self.old.nodes }
    {
        if self.last_due(to).is_some() {
            put_in(&mut self.sent_last, to);
        } else {
            put_in(&mut self.sent_now, to);
        }
    }
}
