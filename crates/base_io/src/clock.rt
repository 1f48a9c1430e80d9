//! Clocks.

ghost use Rattle.std.specs.Prelude.{◌≡◌, ℕ, Option};
ghost use Rattle.std.specs.Option.{ForSome};
ghost use Rattle.base_io.specs.Clock.{FixedState};
ghost use Rattle.base_io.specs.Faults.{one_more};

use std::marker::Model;

/// A clock, which can't fail.
pub trait Clock {
    /// How often it was asked, up to 2^64 - 1.
    ghost asked: { Self → ℕ };
    /// What it said last.
    ghost said: { Self → ℕ };
    /// The one value that it always says, where it has one.
    ghost fixed: { Self → Option ℕ };

    /// The time, in milliseconds since some time of the clock's own.
    fn now(&mut self) -> u64
        ensures asked { asked self.new ≡ one_more (asked self.old) }
        ensures said { said self.new ≡ result }
        ensures fixed { fixed self.new ≡ fixed self.old }
        ensures one { ForSome (fixed self.old) (λ value. result ≡ value) };
}

/// The clock that always says one value.
#[derive(Drop)]
pub struct FixedClock {
    value: u64,
    asked: u64,
}

impl Model for FixedClock {
    ghost use Rattle.base_io.specs.Clock.{FixedState};

    ghost Value = { FixedState };

    ghost view = { λ s. record { value = s.value; asked = s.asked } };
}

impl FixedClock {
    /// The clock that always says this value, and wasn't asked yet.
    pub fn new(value: u64) -> FixedClock
        ensures { let made : FixedState = record { value = value; asked = 0 } in result ≡ made }
    {
        FixedClock { value, asked: 0 }
    }
}

impl Clock for FixedClock {
    ghost use Rattle.std.specs.Prelude.{Some};

    ghost asked = { λ s. s.asked };

    ghost said = { λ s. s.value };

    ghost fixed = { λ s. Some s.value };

    /// The clock's one value.
    fn now(&mut self) -> u64 {
        self.asked = self.asked.saturating_add(1);
        self.value
    }
}
