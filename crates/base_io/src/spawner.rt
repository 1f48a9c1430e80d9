//! Spawners, which start and finish the nodes of a job as children.

ghost use Rattle.std.specs.Prelude.{◌≡◌, ◌≤◌, ℕ, Option, option_map};
ghost use Rattle.base_io.specs.Faults.{Rose};

/// What a spawner answers to `start`.
#[derive(Clone, Copy, PartialEq, Eq)]
pub enum Started {
    /// The child was started.
    Started,
    /// The spawner failed, and nothing was started.
    Failed,
}

/// What a spawner answers to `finish`.
#[derive(Clone, Copy, PartialEq, Eq)]
pub enum Finished {
    /// The child ended with this exit status, and its output was appended.
    Ended(u8),
    /// The spawner failed.
    Failed,
    /// Memory ran out.
    NoMemory,
}

/// How many bytes the output of a child may have.
pub const MAX_OUTPUT: usize = 67_108_864;

/// Starts the nodes of a job as children, finishes them, and counts its faults.
///
/// Each `Failed` comes only where the count of faults rose in that call, or stands at its last value. No call changes
/// what was told before.
pub trait Spawner {
    ghost use Rattle.base_io.specs.Spawner.{SpawnTold, ToldCall, StartTold, AppendsOutput};
    ghost use Rattle.base_io.specs.Spawner.{EndsPending, IsStartFailed, IsFinishFailed};
    ghost use Rattle.base_io.specs.Spawner.{child_end, told_end};
    ghost use Rattle.base_io.specs.Spawner.ToldCall.{Start};

    /// Its starts and finishes in order, with what each child was given and gave, where it tells them.
    ghost told: { Self → Option SpawnTold };
    /// How often it has failed; an implementation's count may stop at 2^64 - 1.
    ghost faults: { Self → ℕ };

    /// Starts the child of a rank, which is to listen at `port + rank`, and gives it these bytes as its input.
    ///
    /// It makes the room in which the child's finish is told.
    fn start(&mut self, rank: u16, port: u16, input: &[u8]) -> Started
        ensures told { StartTold result (Start rank port input.now)
            (told self.old) (told self.new) }
        ensures later { faults self.old ≤ faults self.new }
        ensures cause { IsStartFailed result → Rose (faults self.old) (faults self.new) };

    /// Waits until the child of a rank ends, and appends its output, of at most 67,108,864 bytes.
    ///
    /// A longer output is a fault. The first finish of a child that was started is told, with its answer, whatever that
    /// is; and only such a finish ends as `Ended`. After another answer nothing was appended.
    fn finish(&mut self, rank: u16, into: &mut Vec<u8>) -> Finished
        ensures told { let end = child_end rank result into.old.items into.new.items in
            told self.new ≡ option_map (told_end end) (told self.old) }
        ensures output { AppendsOutput result into.old.items into.new.items }
        ensures pending { EndsPending result rank (told self.old) }
        ensures later { faults self.old ≤ faults self.new }
        ensures cause { IsFinishFailed result → Rose (faults self.old) (faults self.new) };
}
