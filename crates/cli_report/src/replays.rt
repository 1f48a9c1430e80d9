//! The replays of what the nodes of a run gave.

ghost use Rattle.std.specs.Prelude.{◌≡◌, IfOk, List, ℕ, Option};
ghost use Rattle.cli_report.specs.declared.counted.KeptOutput.{KeptOutput};
ghost use Rattle.cli_report.specs.declared.findings.NodeFinding.{NodeFinding};
ghost use Rattle.cli_report.specs.declared.unsent.Gap.{Gap};
ghost use Rattle.cli_report.specs.declared.unsent.SentMessage.{SentMessage};

use crate::counted::KeptOutput;
use crate::findings::NodeFinding;
use crate::unsent::{Gap, SentMessage};
use std::alloc::{AllocError, Global};

/// The replays of what the nodes of a run gave. They have places, from 0 on.
pub trait Replays: Drop {
    /// These are the replays of the outputs in an input of a check.
    ghost of_check: { List ℕ → Self → Type 0 };
    /// These are the replays of what the nodes gave of a job with this text.
    ghost of_launch: { List ℕ → List KeptOutput → Self → Type 0 };
    /// How many there are.
    ghost places: { Self → ℕ };
    /// The rank of the node at a place.
    ghost ranks: { Self → ℕ → ℕ };
    /// What the output of the node at a place tells.
    ghost finds: { Self → ℕ → Option NodeFinding → Type 0 };
    /// The lines of the steps that ended in the replay at a place.
    ghost lines: { Self → ℕ → List ℕ };
    /// How many datagrams the replay at a place sent.
    ghost sends: { Self → ℕ → ℕ };
    /// What it sent as the datagram of a number, from 0 on.
    ghost sent: { Self → ℕ → ℕ → Option SentMessage → Type 0 };
    /// The first entry of the node at a place that got what no node sent to it, if it has one.
    ghost gaps: { Self → ℕ → Option Gap → Type 0 };

    /// The replays of the outputs in an input of a check.
    ///
    /// # Errors
    ///
    /// `AllocError` where memory ran out.
    fn of_input(alloc: Global, input: &[u8]) -> Result<Self, AllocError>
        ensures { IfOk result (of_check input.now) };

    /// The replays of what the nodes of a launch gave.
    ///
    /// # Errors
    ///
    /// `AllocError` where memory ran out.
    fn of_outputs(alloc: Global, job: &[u8], outputs: Vec<KeptOutput>) -> Result<Self, AllocError>
        ensures { IfOk result (of_launch job.now outputs.items) };

    /// How many there are.
    fn count(&self) -> usize
        ensures { result ≡ places self.now };

    /// The rank of the node at a place.
    fn rank(&self, place: usize) -> u16
        ensures { result ≡ ranks self.now place };

    /// What the output of the node at a place tells.
    fn finding(&self, place: usize) -> Option<NodeFinding>
        ensures { finds self.now place result };

    /// The lines of the steps that ended in the replay at a place.
    fn steps(&self, place: usize) -> &[u8]
        ensures { result.now ≡ lines self.now place };

    /// How many datagrams the replay at a place sent.
    fn sent_count(&self, place: usize) -> usize
        ensures { result ≡ sends self.now place };

    /// What it sent as the datagram of a number, from 0 on.
    fn sent_at(&self, place: usize, number: usize) -> Option<SentMessage>
        ensures { sent self.now place number result };

    /// The first entry of the node at a place that got what no node sent to it, if it has one.
    fn gap(&self, place: usize) -> Option<Gap>
        ensures { gaps self.now place result };
}
