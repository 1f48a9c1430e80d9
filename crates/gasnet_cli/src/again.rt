//! Standard input that can be read again, so that nobody has to keep it.

use cli_report::ReadsAgain;
use std::fs::{self, File};
use std::io::Read;
use std::rt::Files;

/// The name under which the system opens standard input once more, a file from its beginning.
const INPUT: &str = "/proc/self/fd/0";

/// What the system tells of standard input: first where in a file the next read begins.
const PLACE: &str = "/proc/self/fdinfo/0";

/// Standard input, where it is a file. What its bytes are isn't told.
#[derive(Drop)]
pub struct InputFile<'a, R> {
    rt: &'a R,
}

impl<'a, R: Files + AllocGlobal> InputFile<'a, R> {
    /// That of this handle.
    pub fn new(rt: &'a R) -> InputFile<'a, R> {
        InputFile { rt }
    }

    /// Whether standard input is a file of which nothing was read so far, and can be opened once
    /// more.
    pub fn is_unread(&self) -> bool {
        match fs::metadata(self.rt, INPUT) {
            Ok(about) if about.is_file() => {}
            _ => return false,
        }
        match fs::read_to_string(self.rt, PLACE) {
            Ok(told) => told.starts_with("pos:\t0\n") && File::open(self.rt, INPUT).is_ok(),
            Err(_) => false,
        }
    }
}

impl<R: Files + AllocGlobal> ReadsAgain for InputFile<'_, R> {
    ghost again = { λ _ _ _. Unit {0} };

    fn read_again(&self, most: usize) -> Vec<u8> {
        let mut bytes = Vec::new(self.rt.alloc());
        if let Ok(file) = File::open(self.rt, INPUT) {
            if file.take(most as u64).read_to_end(&mut bytes).is_err() {
                bytes.clear();
            }
        }
        bytes
    }
}
