//! Standard error, to which a person is told.

ghost use Rattle.std.specs.Prelude.{None};

use crate::telling::Tells;
use base_io::Wrote;
use std::io::Eprint;

/// Standard error. What it was told isn't known.
#[derive(Drop)]
pub struct StandardError<'a, H> {
    rt: &'a H,
}

impl<'a, H: Eprint> StandardError<'a, H> {
    /// Standard error of this handle.
    pub fn new(rt: &'a H) -> StandardError<'a, H> {
        StandardError { rt }
    }
}

impl<H: Eprint> Tells for StandardError<'_, H> {
    ghost told = { λ _. None };

    fn tell(&mut self, text: &str) -> Wrote {
        match eprint!(self.rt; "{text}") {
            Ok(()) => Wrote::Done,
            Err(_) => Wrote::Fault,
        }
    }
}
