//! What a command is at.

use cli_report::{
    Counter, Counts, StandardError, Tells, counts_of, is_shown_at, progress_line, tell_made,
};
use std::alloc::AllocError;
use std::io::Eprint;
use std::rt::Clock;
use std::sync::Arc;
use std::sync::atomic::{AtomicU64, Ordering};
use std::thread;
use std::thread::Threads;
use std::time::Duration;

/// The milliseconds between two looks.
const LOOK: u64 = 100;

/// The looks of a second.
const SECOND: u64 = 10;

/// What a command read and wrote so far.
#[derive(Drop)]
pub struct Progress {
    is_shown: bool,
    counts: [AtomicU64; 4],
    shown: AtomicU64,
    over: AtomicU64,
}

impl Counts for Progress {
    ghost counted = { λ _ _ _. Unit {0} };

    fn counts_lines(&self) -> bool {
        self.is_shown
    }

    fn add(&self, counter: Counter, by: u64) {
        self.counts[counter.place()].fetch_add(by, Ordering::SeqCst);
    }

    fn count(&self, counter: Counter) -> u64 {
        self.counts[counter.place()].load(Ordering::SeqCst)
    }
}

/// Nothing counted.
fn zero() -> AtomicU64 {
    AtomicU64::new(0)
}

impl Progress {
    /// Nothing yet.
    pub fn new(is_shown: bool) -> Progress {
        Progress {
            is_shown,
            counts: [zero(), zero(), zero(), zero()],
            shown: zero(),
            over: zero(),
        }
    }

    /// Shows on a terminal what the command is at, each second from the second one on, until it is
    /// over.
    pub fn show<R: Eprint + Clock + AllocGlobal>(&self, rt: &R) {
        let mut person = StandardError::new(rt);
        for look in 1..u64::MAX {
            thread::sleep(rt, Duration::from_millis(LOOK));
            if self.over.load(Ordering::SeqCst) != 0 {
                return;
            }
            if is_shown_at(look) {
                self.shown.store(1, Ordering::SeqCst);
                let line = progress_line(rt.alloc(), look / SECOND, counts_of(self));
                tell_made(&mut person, &line);
            }
        }
    }

    /// The command is over: nothing more is shown, and what was shown is cleared.
    pub fn end<R: Eprint + Clock>(&self, rt: &R) {
        self.over.store(1, Ordering::SeqCst);
        if self.shown.load(Ordering::SeqCst) != 0 {
            thread::sleep(rt, Duration::from_millis(LOOK));
            let _ = StandardError::new(rt).tell("\r\x1b[K");
        }
    }
}

/// What a command is at, shown on standard error by a thread of its own where that is a terminal.
///
/// # Errors
///
/// `AllocError` where memory ran out.
pub fn shown_progress<R: Threads + Eprint + Clock + AllocGlobal + Clone + Send + Drop + 'static>(
    rt: &R,
    is_terminal: bool,
) -> Result<Arc<Progress>, AllocError> {
    let progress = Arc::new(rt.alloc(), Progress::new(is_terminal))?;
    if !is_terminal {
        return Ok(progress);
    }
    let theirs = Arc::try_clone(&progress)?;
    let handle = rt.clone()?;
    if let Ok(shows) = thread::spawn(rt, move || theirs.show(&handle)) {
        drop(shows);
    }
    Ok(progress)
}
