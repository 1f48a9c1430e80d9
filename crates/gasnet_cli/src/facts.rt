//! What the system kept of a run, for `cli_report`.

ghost use Rattle.std.specs.Prelude.{◌≡◌};
ghost use Rattle.gasnet_cli.specs.Facts.{child_seen, link_seen};

use cli_report::{ChildSeen, Children, Facts, LinkSeen};
use proc_linux::{ChildEnd, ChildEnds, LinkFault, LinkSocket};
use proc_seal::Dropped;

/// How a child ended.
fn child_seen(end: ChildEnd) -> ChildSeen
    ensures { result ≡ child_seen end }
{
    match end {
        ChildEnd::Unstarted => ChildSeen::Unstarted,
        ChildEnd::Ended(status) => ChildSeen::Ended(status),
        ChildEnd::Lost => ChildSeen::Lost,
    }
}

/// Why a link failed.
fn link_seen(fault: LinkFault) -> LinkSeen
    ensures { result ≡ link_seen fault }
{
    match fault {
        LinkFault::NoAddress => LinkSeen::NoAddress,
        LinkFault::Unread => LinkSeen::Unread,
        LinkFault::Bind(address, code) => LinkSeen::Bind(address, code),
        LinkFault::Other(code) => LinkSeen::Other(code),
    }
}

/// How the children of a spawner ended. How they did isn't told.
#[derive(Drop)]
pub struct KeptEnds<'a> {
    ends: &'a ChildEnds,
}

impl<'a> KeptEnds<'a> {
    /// These ends.
    pub fn new(ends: &'a ChildEnds) -> KeptEnds<'a> {
        KeptEnds { ends }
    }
}

impl Children for KeptEnds<'_> {
    ghost ended = { λ _ _ _. Unit {0} };

    fn end_of(&self, rank: u16) -> Option<ChildSeen> {
        Some(child_seen(self.ends.of(rank)?))
    }
}

/// What the system kept of a link, and of the first child that couldn't be started.
pub fn facts_of(
    socket: &LinkSocket,
    unsealed: &Dropped<'_>,
    unstarted: Option<(u16, i32)>,
) -> Facts {
    Facts {
        address: socket.address(),
        strays: socket.strays(),
        others: unsealed.count(),
        last: unsealed.last_sender(),
        fault: socket.fault().map(link_seen),
        unstarted,
    }
}
