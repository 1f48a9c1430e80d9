//! What standard error tells of a run while it goes on.

use cli_commands::Notes;
use cli_report::{StandardError, refused_line, tell_made};
use std::io::Eprint;

/// Standard error, to which notes go as lines.
#[derive(Drop)]
pub struct StandardNotes<'a, H> {
    rt: &'a H,
}

impl<'a, H: Eprint> StandardNotes<'a, H> {
    /// Standard error of this handle.
    pub fn new(rt: &'a H) -> StandardNotes<'a, H> {
        StandardNotes { rt }
    }
}

impl<H: Eprint + AllocGlobal> Notes for StandardNotes<'_, H> {
    fn rejected(&mut self, rank: u16, turns: usize) {
        let line = refused_line(self.rt.alloc(), rank, turns);
        tell_made(&mut StandardError::new(self.rt), &line);
    }
}
