//! Links that carry datagrams.

ghost use Rattle.std.specs.Prelude.{◌≡◌, ◌≤◌, ℕ, List, Option};
ghost use Rattle.base_io.specs.Faults.{Rose};
ghost use Rattle.base_io.specs.Link.{BoundTold, SentTold, ReceivedTold, WaitingTold, IsFailed};
ghost use Rattle.base_io.specs.Link.{IsReceiveFailed};

/// The most bytes of a datagram that a link before another one keeps or seals.
pub const MAX_DATAGRAM: usize = 8296;

/// What a link answers to `bind` and `send`.
#[derive(Clone, Copy, PartialEq, Eq)]
pub enum LinkAnswer {
    /// It was done.
    Done,
    /// The link failed, and did nothing.
    Failed,
}

/// What a link gave.
#[derive(Clone, Copy, PartialEq, Eq)]
pub enum Received {
    /// A datagram of that many bytes, at the beginning of the buffer.
    Got(usize),
    /// No datagram waits.
    Empty,
    /// The link failed, and gave nothing.
    Failed,
}

/// A link of a node that carries datagrams from and to the nodes of its job, and counts its faults.
///
/// A datagram may be lost, come more than once and come late. What waits, where the link tells it, changes by `receive`
/// alone. Each `Failed` comes only where the count of faults rose in that call, or stands at its last value; what the
/// link tells, beside that count, then stays as before.
pub trait Link {
    /// What it was bound to last: the rank of its node, the number of nodes, and the port of rank 0.
    ghost bound: { Self → Option (ℕ × ℕ × ℕ) };
    /// The datagrams sent, each with the rank of the node that it went to, in order, where the link tells them.
    ghost sent: { Self → Option (List (ℕ × List ℕ)) };
    /// The datagrams received, each as far as its buffer went, in order, where the link tells them.
    ghost received: { Self → Option (List (List ℕ)) };
    /// The datagrams that wait, in order, where the link tells them.
    ghost waiting: { Self → Option (List (List ℕ)) };
    /// How often it has failed; an implementation's count may stop at 2^64 - 1.
    ghost faults: { Self → ℕ };

    /// Makes it the link of the node of this rank, in a job of so many nodes, where rank r has the port `port + r`.
    fn bind(&mut self, rank: u16, nodes: u16, port: u16) -> LinkAnswer
        ensures bound { BoundTold result (rank, nodes, port) (bound self.old) (bound self.new) }
        ensures sent { sent self.new ≡ sent self.old }
        ensures received { received self.new ≡ received self.old }
        ensures waiting { waiting self.new ≡ waiting self.old }
        ensures later { faults self.old ≤ faults self.new }
        ensures cause { IsFailed result → Rose (faults self.old) (faults self.new) };

    /// Sends a datagram to the node of the rank `to`. `Done` doesn't say that it arrives.
    fn send(&mut self, to: u16, bytes: &[u8]) -> LinkAnswer
        ensures sent { SentTold result (to, bytes.now) (sent self.old) (sent self.new) }
        ensures bound { bound self.new ≡ bound self.old }
        ensures received { received self.new ≡ received self.old }
        ensures waiting { waiting self.new ≡ waiting self.old }
        ensures later { faults self.old ≤ faults self.new }
        ensures cause { IsFailed result → Rose (faults self.old) (faults self.new) };

    /// Receives one datagram into the beginning of the buffer, without waiting for it. One that is longer than the
    /// buffer is cut.
    ///
    /// Where the link tells what waits, `Got` gives the first of it, and `Empty` comes only where nothing waits.
    fn receive(&mut self, buf: &mut [u8]) -> Received
        ensures received { ReceivedTold result buf.new (received self.old) (received self.new) }
        ensures waiting { WaitingTold result buf.new (waiting self.old) (waiting self.new) }
        ensures bound { bound self.new ≡ bound self.old }
        ensures sent { sent self.new ≡ sent self.old }
        ensures later { faults self.old ≤ faults self.new }
        ensures cause { IsReceiveFailed result → Rose (faults self.old) (faults self.new) };
}
