//! How far a node is with its collectives.

ghost use Rattle.std.specs.Prelude.{◌≡◌, ◌<◌, ◌≤◌, ◌+◌, ◌^◌, IfSome, IfNone};
ghost use Rattle.part_collective_area.specs.Area.{IsArea, part_place};
ghost use Rattle.node_collectives.specs.CollectivesState.{IsFresh, Stands, no_nodes, progress_of};
ghost use Rattle.node_collectives.specs.Progress.{is_open};

use crate::starting::is_past;
use part_collective_area::{CollectiveKind, Shape};
use std::marker::Model;
use wire_message::{MAX_PAYLOAD, Settings};

/// The most bytes of a part: those of a payload.
const MAX_ROOM: u64 = MAX_PAYLOAD as u64;

/// The collectives of a node: the settings of its job, its area, and how far it is. The node runs them in order, phase
/// 0 first, one at a time.
#[derive(Drop)]
pub struct Collectives {
    /// The settings of the job.
    pub(crate) settings: Settings,
    /// The node.
    pub(crate) me: u16,
    /// Where the area begins in each segment.
    pub(crate) base: u64,
    /// How many bytes of data a part has room for.
    pub(crate) room: u64,
    /// How many phases the node has started.
    pub(crate) started: u64,
    /// How many it has ended.
    pub(crate) ended: u64,
    /// The shape of the last one that it started.
    pub(crate) shape: Shape,
    /// The nodes to which that one was sent.
    pub(crate) sent: [bool; 256],
    /// The nodes for which no number was left when they were asked last in that phase.
    pub(crate) exhausted: [bool; 256],
}

impl Model for Collectives {
    ghost use Rattle.node_collectives.specs.CollectivesState.{CollectivesState, Stands};

    ghost Value = { CollectivesState };

    ghost view = { λ it. record {
      settings = it.settings;
      me = it.me;
      area = record { nodes = it.settings.nodes; base = it.base; room = it.room };
      started = it.started;
      ended = it.ended;
      shape = it.shape;
      sent = it.sent;
      exhausted = it.exhausted;
    } };

    ghost invariant = { λ it. Stands (record {
      settings = it.settings;
      me = it.me;
      area = record { nodes = it.settings.nodes; base = it.base; room = it.room };
      started = it.started;
      ended = it.ended;
      shape = it.shape;
      sent = it.sent;
      exhausted = it.exhausted;
    }) };
}

/// No node is marked.
pub(crate) fn no_nodes() -> [bool; 256]
    ensures { result ≡ no_nodes }
{
    [false; 256]
}

impl Collectives {
    /// The collectives of the node `me` of a job with these settings, of which it has started none. Its area begins at
    /// `base` in each segment, and each part has room for `room` bytes of data. It takes no memory.
    ///
    /// None exactly where `base` or `room` isn't a multiple of 8, `room` is 0 or above 8,192, or the area, which has
    /// twice as many parts as the job has nodes, each of 16 and `room` bytes, passes the end of a segment.
    pub fn new(settings: &Settings, me: u16, base: u64, room: u64) -> Option<Collectives>
        requires me { me < settings.now.nodes }
        ensures some { IfSome result (λ it. IsFresh settings.now me base room it) }
        ensures none { IfNone result (IsArea settings.now.segment
            (record { nodes = settings.now.nodes; base = base; room = room }) → ⊥) }
    {
        if base % 8 != 0 || room % 8 != 0 || room == 0 || room > MAX_ROOM {
            return None;
        }
        let size = 2 * u64::from(settings.nodes()) * (16 + room);
        if is_past(base, size, settings.segment()) {
            return None;
        }
        Some(Collectives {
            settings: *settings,
            me,
            base,
            room,
            started: 0,
            ended: 0,
            shape: Shape {
                kind: CollectiveKind::Broadcast,
                root: 0,
                len: 0,
            },
            sent: no_nodes(),
            exhausted: no_nodes(),
        })
    }

    /// Whether a phase is open: it is started, and not ended.
    pub(crate) fn is_open(&self) -> bool
        ensures open { result ≡ is_open (progress_of self.now) }
        ensures stands { Stands self.now }
    {
        self.ended < self.started
    }

    /// How many nodes the job has.
    pub(crate) fn nodes(&self) -> u16
        ensures nodes { result ≡ self.now.area.nodes }
        ensures some { 1 ≤ result }
    {
        self.settings.nodes()
    }

    /// Where the part of a node begins, of the phases with this remainder by 2.
    pub(crate) fn part(&self, parity: u64, node: u16) -> u64
        requires parity { parity < 2 }
        requires node { node < self.now.area.nodes }
        ensures place { result ≡ part_place self.now.area parity node }
        ensures inside { result + (16 + self.now.area.room) ≤ self.now.settings.segment }
        ensures small { self.now.settings.segment ≤ 2 ^ 40 }
    {
        self.base + (parity * u64::from(self.settings.nodes()) + u64::from(node)) * (16 + self.room)
    }
}
