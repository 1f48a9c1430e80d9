//! A clock of the system.

ghost use Rattle.std.specs.Prelude.{◌≡◌, ◌/◌, ◌^◌, nat_lt, if◌then◌else◌};
ghost use Rattle.std.specs.Duration.{as_nanos};

use base_io::Clock;
use std::time::{Duration, Instant};

/// The milliseconds since this clock was made, by the system's clock that never goes back.
///
/// Where the system can't say the time, it says again what it said last, at first 0.
#[derive(Drop)]
pub struct SystemClock<R: std::time::Clock> {
    rt: R,
    begin: Option<Instant>,
    asked: u64,
    said: u64,
}

impl<R: std::time::Clock> SystemClock<R> {
    /// The clock that begins now.
    pub fn new(rt: R) -> SystemClock<R> {
        let begin = Instant::now(&rt).ok();
        SystemClock {
            rt,
            begin,
            asked: 0,
            said: 0,
        }
    }

    /// The time, where the system says it.
    fn time(&self) -> Option<u64> {
        let elapsed = self.begin?.elapsed(&self.rt).ok()?;
        millis(elapsed)
    }
}

/// The whole milliseconds of a duration. None exactly where they are 2^64 or more.
fn millis(elapsed: Duration) -> Option<u64>
    ensures { result ≡ (if nat_lt (as_nanos elapsed / 1000000) (2 ^ 64)
        then Some (as_nanos elapsed / 1000000) else None) }
{
    u64::try_from(elapsed.as_millis()).ok()
}

impl<R: std::time::Clock> Clock for SystemClock<R> {
    ghost use Rattle.std.specs.Prelude.{None};

    ghost asked = { λ c. c.asked };

    ghost said = { λ c. c.said };

    ghost fixed = { λ _. None };

    /// The milliseconds since the clock was made.
    fn now(&mut self) -> u64 {
        self.asked = self.asked.saturating_add(1);
        if let Some(time) = self.time() {
            self.said = time;
        }
        self.said
    }
}
