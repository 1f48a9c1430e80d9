//! The machine of a node that records what is written of it: the lines of its steps, and the most that it held.

ghost use Rattle.std.specs.Prelude.{◌≡◌, ◌<◌, ℕ, IfOk, true};
ghost use Rattle.text_job.specs.JobText.{IsJob};
ghost use Rattle.text_job.specs.declared.job.Job.{Job as JobState};
ghost use Rattle.cli_check.specs.Merging.{ClosesRecorder};
ghost use Rattle.cli_check.specs.Recording.{RecorderStands, opening_record, text_of};
ghost use Rattle.cli_check.specs.Rejected.{IsEndpointAt};

use crate::steps::{StepAt, tell_step};
use base_io::{BufferedSink, MemorySink, Wrote};
use base_turns::{Machine, Turned};
use node_endpoint::Endpoint;
use proc_machine::NodeMachine;
use std::alloc::{AllocError, Global};
use std::marker::Model;
use text_script::Script;

/// What was recorded of a node.
#[derive(Drop)]
pub struct NodeReport {
    /// The text of the lines of its steps.
    pub text: MemorySink,
    /// The most message buffers that it held.
    pub most: usize,
}

/// The machine of a node, with the lines of the steps that ended in its turns, and the most message buffers that it
/// held.
#[derive(Drop)]
pub struct Recorder<'a> {
    node: NodeMachine<'a>,
    rank: u16,
    text: BufferedSink<MemorySink>,
    /// Whether the text has all of the lines: memory didn't run out.
    whole: bool,
    most: usize,
}

impl<'a> Model for Recorder<'a> {
    ghost use Rattle.cli_check.specs.Recording.{HasState, RecorderKept, text_of};

    ghost Value = { RecorderKept };

    ghost view = { λ r. record {
      node = r.node;
      rank = r.rank;
      text = text_of r.text;
      whole = r.whole;
      most = r.most;
    } };

    ghost invariant = { λ r. HasState (record {
      node = r.node;
      rank = r.rank;
      text = text_of r.text;
      whole = r.whole;
      most = r.most;
    }) };
}

/// The sink in memory behind, with all that went in, where this is the whole text.
///
/// It is refused where memory ran out, now or before.
fn whole_text(mut text: BufferedSink<MemorySink>, whole: bool) -> Result<MemorySink, AllocError>
    ensures whole { IfOk result (λ sink. whole ≡ true) }
    ensures taken { IfOk result (λ sink. sink.taken ≡ text_of text) }
{
    match text.flush() {
        Wrote::Done if whole => Ok(text.into_inner()),
        _ => Err(AllocError),
    }
}

impl<'a> Recorder<'a> {
    /// That of node `rank` of the job before all turns.
    ///
    /// It is refused for want of memory alone.
    pub fn new(alloc: Global, job: &'a Script, rank: u16) -> Result<Recorder<'a>, AllocError>
        requires job { IsJob job.now }
        requires rank { rank < job.now.settings.nodes }
        ensures { IfOk result (λ recorder. RecorderStands recorder (opening_record job.now rank)) }
    {
        let sink = MemorySink::new(alloc, Vec::new(alloc))?;
        let node = NodeMachine::new(alloc, job, rank)?;
        Ok(Recorder {
            node,
            rank,
            text: BufferedSink::new(sink),
            whole: true,
            most: 0,
        })
    }

    /// The endpoint of the node.
    pub fn endpoint(&self) -> &Endpoint
        ensures { (job : JobState) (rank : ℕ) → RecorderStands self.now (opening_record job rank)
            → IsEndpointAt job rank result.now }
    {
        self.node.endpoint()
    }

    /// The endpoint of the node, and what was recorded of it.
    ///
    /// It is refused where memory ran out, now or in an earlier turn.
    pub fn close(self) -> Result<(Endpoint, NodeReport), AllocError>
        ensures { IfOk result (λ closed. ClosesRecorder self.entry closed.0 closed.1) }
    {
        let Recorder {
            node,
            text,
            whole,
            most,
            ..
        } = self;
        let endpoint = node.into_endpoint();
        match whole_text(text, whole) {
            Ok(text) => Ok((endpoint, NodeReport { text, most })),
            Err(AllocError) => {
                drop(endpoint);
                Err(AllocError)
            }
        }
    }
}

impl<'a> Machine for Recorder<'a> {
    ghost use Rattle.proc_machine.specs.Kept.{are_done, polls_at};
    ghost use Rattle.proc_machine.specs.NodeState.{polls_in, sent_datagrams, turn_result};
    ghost use Rattle.cli_check.specs.Recording.{RecordedState, RecorderStands, record_after};

    ghost State = { RecordedState };

    ghost stands = { RecorderStands };

    ghost thread_count = { λ recorder. recorder.node.job.settings.threads };

    ghost polls_at = { λ recorder. polls_at recorder.node };

    ghost is_over = { λ recorder. are_done recorder.node.scripts };

    ghost polls_in = { λ state. polls_in state.node };

    ghost after = { record_after };

    ghost turned = { λ state. turn_result state.node };

    ghost sent = { λ state. sent_datagrams state.node };

    fn threads(&self) -> u16 {
        self.node.threads()
    }

    fn polls(&self, thread: u16) -> bool {
        self.node.polls(thread)
    }

    fn over(&self) -> bool {
        self.node.over()
    }

    fn turn(&mut self, thread: u16, now: u64, got: Option<&[u8]>) -> Turned {
        let turned = self.node.turn(thread, now, got);
        self.most = self.most.max(self.node.endpoint().held());
        let rank = self.rank;
        let told = tell_step(
            StepAt { rank, thread },
            turned.stepped,
            &self.node,
            &mut self.text,
        );
        self.whole = self.whole && told;
        turned
    }

    fn outgoing(&self, i: u8) -> Option<(u16, &[u8])> {
        self.node.outgoing(i)
    }
}
