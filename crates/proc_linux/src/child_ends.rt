//! How the children of a spawner ended.

ghost use Rattle.std.specs.Prelude.{◌≡◌};
ghost use Rattle.proc_linux.specs.Ends.{last_end};

use std::alloc::Global;
use std::cell::RefCell;
use std::process::ExitStatus;

/// How a child ended.
#[derive(Clone, Copy, Drop)]
pub enum ChildEnd {
    /// It couldn't be started.
    Unstarted,
    /// The system says that it ended so.
    Ended(ExitStatus),
    /// Its output couldn't be read to its end: it was ended, if the system did so.
    Lost,
}

/// Where a spawner keeps how its children ended, so that it can be told afterwards.
#[derive(Drop)]
pub struct ChildEnds {
    ends: RefCell<Vec<(u16, ChildEnd)>>,
}

impl ChildEnds {
    /// The place of such ends, where none is yet.
    pub fn new(alloc: Global) -> ChildEnds {
        ChildEnds {
            ends: RefCell::new(Vec::new(alloc)),
        }
    }

    /// How the last child of a rank ended, where that was kept.
    pub fn of(&self, rank: u16) -> Option<ChildEnd> {
        let ends = self.ends.try_borrow().ok()?;
        last_end(&ends, rank)
    }

    /// Keeps how the child of a rank ended. Where memory runs out it is left out.
    pub(crate) fn keep(&self, rank: u16, end: ChildEnd) {
        if let Ok(mut ends) = self.ends.try_borrow_mut() {
            let _ = ends.push((rank, end));
        }
    }
}

/// How the last child of a rank ended, by all ends in order.
fn last_end(ends: &[(u16, ChildEnd)], rank: u16) -> Option<ChildEnd>
    ensures { result ≡ last_end rank ends.now }
{
    let mut last = None;
    for end in ends {
        if end.0 == rank {
            last = Some(end.1);
        }
    }
    last
}
