//! The replays of the outputs of nodes, for `cli_report`.

ghost use Rattle.std.specs.Prelude.{◌≡◌, length};
ghost use Rattle.gasnet_cli.specs.Replays.{IsFinding, IsFindingOf, IsGap, IsGapOf, IsSentMessage};
ghost use Rattle.gasnet_cli.specs.Replays.{IsSentOf, lines_at, rank_at, sends_at};

use base_turns::Entry;
use cli_check::{GivenOutput, NodeReplay, NodeReplays, replay_given, replay_input};
use cli_report::{Gap, KeptOutput, NodeFinding, Replays, SentMessage, message_of};
use std::alloc::{AllocError, Global};
use text_trace::Sent;

/// The replays of the outputs of nodes. Which outputs they are of isn't told.
#[derive(Drop)]
pub struct OutputReplays {
    replays: NodeReplays,
}

/// What the replay of a node's output tells, which took so many turns by itself.
fn finding_of(node: &NodeReplay, turns: usize) -> NodeFinding
    ensures { IsFindingOf node.now turns result }
{
    NodeFinding {
        rank: node.trace.rank,
        status: node.status.code(),
        over: node.over,
        violated: node.node.log().count() != 0,
        refused: node.refused,
        outstanding: node.outstanding,
        entries: node.trace.entries.as_slice().len(),
        turns,
    }
}

/// A datagram that the replay of a node of this rank sent.
fn sent_of(rank: u16, one: &Sent) -> SentMessage
    ensures { IsSentOf rank one.now result }
{
    SentMessage {
        from: rank,
        entry: one.entry,
        to: one.to,
        message: message_of(one.bytes.as_slice()),
    }
}

/// The gap of the node of this rank at an entry with this place, counted from 0.
fn gap_of(rank: u16, place: usize, item: &Entry) -> Gap
    ensures { IsGapOf rank place item.entry.now result }
{
    let message = match &item.got {
        Some(bytes) => message_of(bytes.as_slice()),
        None => None,
    };
    Gap {
        rank,
        entry: place.saturating_add(1),
        message,
    }
}

impl Replays for OutputReplays {
    ghost of_check = { λ _ _. Unit {0} };

    ghost of_launch = { λ _ _ _. Unit {0} };

    ghost places = { λ r. length r.replays.nodes.items };

    ghost ranks = { λ r place. rank_at r.replays place };

    ghost finds = { λ r place finding. IsFinding r.replays place finding };

    ghost lines = { λ r place. lines_at r.replays place };

    ghost sends = { λ r place. sends_at r.replays place };

    ghost sent = { λ r place number one. IsSentMessage r.replays place number one };

    ghost gaps = { λ r place gap. IsGap r.replays place gap };

    fn of_input(alloc: Global, input: &[u8]) -> Result<OutputReplays, AllocError> {
        let replays = replay_input(alloc, input)?;
        Ok(OutputReplays { replays })
    }

    fn of_outputs(
        alloc: Global,
        job: &[u8],
        outputs: Vec<KeptOutput>,
    ) -> Result<OutputReplays, AllocError> {
        let mut given = Vec::new(alloc);
        for KeptOutput { rank, bytes } in outputs {
            given.push(GivenOutput { rank, bytes })?;
        }
        let replays = replay_given(alloc, job, &given)?;
        Ok(OutputReplays { replays })
    }

    fn count(&self) -> usize {
        self.replays.nodes.len()
    }

    fn rank(&self, place: usize) -> u16 {
        match self.replays.nodes.get(place) {
            Some(node) => node.trace.rank,
            None => 0,
        }
    }

    fn finding(&self, place: usize) -> Option<NodeFinding> {
        let node = self.replays.nodes.get(place)?;
        let turns = match self.replays.sent(place) {
            Some(turned) => turned.turns,
            None => 0,
        };
        Some(finding_of(node, turns))
    }

    fn steps(&self, place: usize) -> &[u8] {
        match self.replays.nodes.get(place) {
            Some(node) => node.steps.taken(),
            None => &[],
        }
    }

    fn sent_count(&self, place: usize) -> usize {
        match self.replays.sent(place) {
            Some(turned) => turned.sent.len(),
            None => 0,
        }
    }

    fn sent_at(&self, place: usize, number: usize) -> Option<SentMessage> {
        let turned = self.replays.sent(place)?;
        let one = turned.sent.get(number)?;
        Some(sent_of(self.rank(place), one))
    }

    fn gap(&self, place: usize) -> Option<Gap> {
        let node = self.replays.nodes.get(place)?;
        let first = self.replays.first_unsent(node)?;
        let item = node.trace.entries.as_slice().get(first)?;
        Some(gap_of(node.trace.rank, first, item))
    }
}
