//! Numbers drawn from a seed.

ghost use Rattle.std.specs.Prelude.{◌≡◌};
ghost use Rattle.sim_drill.specs.Draws.{drawn, next};

use std::marker::Model;

/// A sequence of numbers, each made from the one before it.
#[derive(Drop)]
pub struct Draws {
    number: u64,
}

impl Model for Draws {
    ghost use Rattle.std.specs.Prelude.{ℕ};

    ghost Value = { ℕ };

    ghost view = { λ d. d.number };
}

impl Draws {
    /// Before the first draw from the seed.
    pub fn new(seed: u64) -> Draws
        ensures { result ≡ seed }
    {
        Draws { number: seed }
    }

    /// The next draw: the number goes on, and its top 32 bits are given.
    pub fn draw(&mut self) -> u32
        ensures state { self.new ≡ next self.old }
        ensures drawn { result ≡ drawn self.new }
    {
        self.number = following(self.number);
        (self.number >> 32) as u32
    }
}

/// The number after this one.
fn following(number: u64) -> u64
    ensures { result ≡ next number }
{
    number
        .wrapping_mul(6_364_136_223_846_793_005)
        .wrapping_add(1_442_695_040_888_963_407)
}
