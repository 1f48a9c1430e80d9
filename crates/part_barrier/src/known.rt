//! What a node knows of a phase.

ghost use Rattle.std.specs.Prelude.{◌≡◌, ◌<◌, ◌≤◌};
ghost use Rattle.part_barrier.specs.Combinations.{one_notify, combine};
ghost use Rattle.part_barrier.specs.Record.{join, part_of, own_part, no_part, notification_of, is_other_try};
ghost use Rattle.part_barrier.specs.Views.{part};

use crate::mask::{put_in, union, words};
use wire_message::BarrierNotification;

/// What a node notifies of a phase.
#[derive(Clone, Copy, Drop)]
pub struct Notify {
    /// The identifier of the barrier, which counts where the notify is named.
    pub id: i32,
    /// 1 for ANONYMOUS and 2 for MISMATCH, 0 where it is named.
    pub flags: u8,
}

/// Several notifies, combined.
#[derive(Clone, Copy, Drop)]
pub struct Combination {
    /// One has MISMATCH, or two named identifiers differ.
    pub mismatch: bool,
    /// The least identifier that is named.
    pub id: Option<i32>,
}

/// Nodes, and their notifies combined.
#[derive(Clone, Copy, Drop)]
pub struct Known {
    /// Node 64 m + b is bit b of word m.
    pub mask: [u64; 4],
    /// What they notified.
    pub combined: Combination,
}

/// No node.
pub(crate) fn no_part() -> Known
    ensures { part result ≡ no_part }
{
    Known {
        mask: [0; 4],
        combined: Combination {
            mismatch: false,
            id: None,
        },
    }
}

/// One notify, as a combination.
fn one_notify(id: i32, flags: u8) -> Combination
    ensures { result ≡ one_notify id flags }
{
    Combination {
        mismatch: flags >> 1 & 1 == 1,
        id: if flags & 1 == 1 { None } else { Some(id) },
    }
}

/// Two combinations, combined.
fn combine(first: Combination, second: Combination) -> Combination
    ensures { result ≡ combine first second }
{
    let mismatch = first.mismatch || second.mismatch;
    match (first.id, second.id) {
        (Some(id), Some(other)) => Combination {
            mismatch: mismatch || id != other,
            id: Some(id.min(other)),
        },
        (Some(id), None) => Combination {
            mismatch,
            id: Some(id),
        },
        (None, id) => Combination { mismatch, id },
    }
}

/// What is known by both.
pub(crate) fn join(first: &Known, second: &Known) -> Known
    ensures { part result ≡ join (part first.now) (part second.now) }
{
    Known {
        mask: union(&first.mask, &second.mask),
        combined: combine(first.combined, second.combined),
    }
}

/// What a notification tells.
pub(crate) fn part_of(notification: &BarrierNotification) -> Known
    ensures { part result ≡ part_of notification.now }
{
    Known {
        mask: notification.mask,
        combined: one_notify(notification.id, notification.flags),
    }
}

/// What the node knows by its own notify.
pub(crate) fn own_part(me: u16, own: Notify) -> Known
    requires { me < 256 }
    ensures { part result ≡ own_part me (Some own) }
{
    let mut mask = [0; 4];
    put_in(&mut mask, me);
    Known {
        mask,
        combined: one_notify(own.id, own.flags),
    }
}

/// What is known, as a notification of the phase.
pub(crate) fn notification_of(phase: u64, known: &Known) -> BarrierNotification
    ensures { result ≡ notification_of phase (part known.now) }
{
    let anonymous = if known.combined.id.is_none() { 1 } else { 0 };
    let mismatch = if known.combined.mismatch { 2 } else { 0 };
    BarrierNotification {
        phase,
        mask: words(&known.mask),
        id: known.combined.id.unwrap_or(0),
        flags: anonymous + mismatch,
    }
}

/// Whether the try's flags, or its identifier where it is named, aren't those of the notify.
pub(crate) fn is_other(own: Notify, id: i32, flags: u8) -> bool
    ensures { result ≡ is_other_try own id flags }
{
    own.flags != flags || (flags & 1 == 0 && own.id != id)
}
