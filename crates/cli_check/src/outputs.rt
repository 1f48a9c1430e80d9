//! The replays of the outputs of several nodes.

ghost use Rattle.std.specs.Prelude.{◌≡◌, MatchOption, option_map};
ghost use Rattle.text_job.specs.JobText.{IsJob};
ghost use Rattle.text_trace.specs.Sending.{AreAllSent, IsFirstUnsent};
ghost use Rattle.cli_check.specs.Turned.{turned_at};

use crate::input::{CheckInput, InputFault, LIMIT, input_of, wanted_of};
use crate::node_replay::{NodeReplay, replay_output};
use std::alloc::{AllocError, Global};
use text_job::{Job, JobFault, read_job};
use text_script::Script;
use text_trace::{Output, Replayed, TraceFault, first_unsent, read_output};

/// What a node gave.
#[derive(Drop)]
pub struct GivenOutput {
    /// Its rank.
    pub rank: u16,
    /// Its bytes.
    pub bytes: Vec<u8>,
}

/// What the outputs of nodes of a job tell, in rising order of ranks.
#[derive(Drop)]
pub struct NodeReplays {
    /// What each tells.
    pub nodes: Vec<NodeReplay>,
    /// For each what its turns sent.
    sent: Vec<Replayed>,
}

impl NodeReplays {
    /// Of no node yet.
    fn new(alloc: Global) -> NodeReplays {
        NodeReplays {
            nodes: Vec::new(alloc),
            sent: Vec::new(alloc),
        }
    }

    /// Replays an output of the node of this rank, if there is such a node.
    fn keep(
        &mut self,
        alloc: Global,
        job: &Script,
        rank: u16,
        output: Output,
    ) -> Result<(), AllocError>
        requires { IsJob job.now }
    {
        if rank >= job.settings().nodes() {
            return Ok(());
        }
        let (node, sent) = replay_output(alloc, job, rank, output)?;
        self.nodes.push(node)?;
        self.sent.push(sent)?;
        Ok(())
    }

    /// What the turns of the node at this place sent.
    pub fn sent(&self, place: usize) -> Option<&Replayed>
        ensures { option_map (λ turned. turned.now) result ≡ turned_at self.now place }
    {
        self.sent.get(place)
    }

    /// The first entry of a node, counted from 0, that got a datagram which the turns of no node sent to it.
    pub fn first_unsent(&self, node: &NodeReplay) -> Option<usize>
        ensures { MatchOption result
            (AreAllSent self.now.sent.items node.now.trace.rank node.now.trace.entries)
            (IsFirstUnsent self.now.sent.items node.now.trace.rank node.now.trace.entries) }
    {
        first_unsent(&self.sent, node.trace.rank, node.trace.entries.as_slice())
    }
}

/// The replays of outputs of nodes of a job.
fn replay_outputs(alloc: Global, job: Job, outputs: Vec<Output>) -> Result<NodeReplays, AllocError>
    requires { IsJob job }
{
    let mut replays = NodeReplays::new(alloc);
    let job = Script::new(alloc, job)?;
    for output in outputs {
        let rank = output.trace.rank;
        replays.keep(alloc, &job, rank, output)?;
    }
    Ok(replays)
}

/// The replays of the outputs in an input of a check. Of bytes that are none there are none.
///
/// # Errors
///
/// `AllocError` where memory ran out.
pub fn replay_input(alloc: Global, bytes: &[u8]) -> Result<NodeReplays, AllocError> {
    if bytes.len() > LIMIT {
        return Ok(NodeReplays::new(alloc));
    }
    match input_of(alloc, bytes) {
        Ok(CheckInput { job, outputs }) => replay_outputs(alloc, job, outputs),
        Err(InputFault::NoMemory) => Err(AllocError),
        Err(_) => Ok(NodeReplays::new(alloc)),
    }
}

/// The output that a node gave. None where its bytes begin with none, or are too many.
fn output_of(alloc: Global, job: &Job, given: &GivenOutput) -> Result<Option<Output>, AllocError> {
    if given.bytes.len() > LIMIT {
        return Ok(None);
    }
    match read_output(alloc, &given.bytes, wanted_of(job, given.rank)) {
        Ok((output, _)) => Ok(Some(output)),
        Err(TraceFault::Bad { .. }) => Ok(None),
        Err(TraceFault::NoMemory) => Err(AllocError),
    }
}

/// The outputs that nodes of a job gave, as far as they can be read.
fn outputs_of(alloc: Global, job: &Job, given: &[GivenOutput]) -> Result<Vec<Output>, AllocError> {
    let mut outputs = Vec::new(alloc);
    for one in given {
        if let Some(output) = output_of(alloc, job, one)? {
            outputs.push(output)?;
        }
    }
    Ok(outputs)
}

/// The replays of what nodes of a job gave, as far as it can be read. Of bytes that are no job's text there are none.
///
/// # Errors
///
/// `AllocError` where memory ran out.
pub fn replay_given(
    alloc: Global,
    text: &[u8],
    given: &[GivenOutput],
) -> Result<NodeReplays, AllocError> {
    match read_job(alloc, text) {
        Ok(job) => {
            let outputs = outputs_of(alloc, &job, given)?;
            replay_outputs(alloc, job, outputs)
        }
        Err(JobFault::Bad { .. }) => Ok(NodeReplays::new(alloc)),
        Err(JobFault::NoMemory) => Err(AllocError),
    }
}
