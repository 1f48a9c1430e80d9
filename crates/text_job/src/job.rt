//! What the text of a job says, as values.

ghost use Rattle.std.specs.Prelude.{◌≡◌, ◌≤◌, length, true};
ghost use Rattle.std.specs.Option.{option_map};
ghost use Rattle.wire_message.specs.Parameters.{as_version_2};
ghost use Rattle.text_job.specs.Locks.{are_listed, listed_by};
ghost use Rattle.text_job.specs.JobReading.{lines_of};
ghost use Rattle.text_job.specs.PlanPieces.{scripts_pieces};
ghost use Rattle.text_job.specs.StepPieces.{steps_pieces};
ghost use Rattle.text_job.specs.declared.plan_pieces.TheConstants.{PIECES};

use crate::locks::listed_by;
use part_handlers::Role;
use std::marker::Model;
use text_steps::{Action, ScriptStep, TimedEvent};
use wire_message::Settings;

/// The locks that a handler lists, each 0 to 63, in rising order.
#[derive(Drop)]
pub struct ListedLocks {
    pub(crate) items: Vec<u8>,
}

impl Model for ListedLocks {
    ghost use Rattle.std.specs.Prelude.{◌≡◌, ℕ, List, true};
    ghost use Rattle.text_job.specs.Locks.{are_listed};

    ghost Value = { List ℕ };

    ghost view = { λ l. l.items.items };

    ghost invariant = { λ l. are_listed 0 l.items.items ≡ true };
}

/// Where the area of collectives is in each segment: where it begins, and the room for data of each of its parts, in
/// bytes.
#[derive(Clone, Copy)]
pub struct CollectArea {
    /// Where it begins, a multiple of 8 where the job was read.
    pub base: u64,
    /// The room of a part, a multiple of 8 from 8 to 8,192 where the job was read.
    pub room: u64,
}

/// The steps of a script, at most 4,096 where the job was read.
#[derive(Drop)]
pub struct ScriptSteps {
    pub(crate) steps: Vec<ScriptStep>,
    pub(crate) pieces: usize,
}

impl Model for ScriptSteps {
    ghost use Rattle.std.specs.Prelude.{◌≡◌, List};
    ghost use Rattle.text_job.specs.StepPieces.{steps_pieces};
    ghost use Rattle.text_steps.specs.declared.steps.ScriptStep.{ScriptStep};

    ghost Value = { List ScriptStep };

    ghost view = { λ s. s.steps.items };

    ghost invariant = { λ s. s.pieces ≡ steps_pieces s.steps.items };
}

/// What a thread of a node does, step by step.
#[derive(Drop)]
pub struct NodeScript {
    /// The node, below the job's nodes where the job was read.
    pub node: u16,
    /// The thread, below the job's threads where the job was read.
    pub thread: u16,
    /// Its steps.
    pub steps: ScriptSteps,
}

/// The scripts of a job, no two of the same thread where it was read.
#[derive(Drop)]
pub struct NodeScripts {
    pub(crate) scripts: Vec<NodeScript>,
    pub(crate) pieces: usize,
}

impl Model for NodeScripts {
    ghost use Rattle.std.specs.Prelude.{◌≡◌, ◌≤◌, List};
    ghost use Rattle.text_job.specs.PlanPieces.{scripts_pieces};
    ghost use Rattle.text_job.specs.declared.job.NodeScript.{NodeScript};
    ghost use Rattle.text_job.specs.declared.plan_pieces.TheConstants.{PIECES};

    ghost Value = { List NodeScript };

    ghost view = { λ s. s.scripts.items };

    ghost invariant = { λ s. (s.pieces ≡ scripts_pieces s.scripts.items) × (s.pieces ≤ PIECES) };
}

/// The actions of a handler, at most 64 where the job was read.
#[derive(Drop)]
pub struct Body {
    pub(crate) actions: Vec<Action>,
}

impl Model for Body {
    ghost use Rattle.std.specs.Prelude.{List};
    ghost use Rattle.text_steps.specs.declared.steps.Action.{Action};

    ghost Value = { List Action };

    ghost view = { λ b. b.actions.items };
}

/// A handler, as the text names it: index 0 asks for the lowest free one.
#[derive(Drop)]
pub struct HandlerText {
    /// 0, or 128 to 255 where the job was read.
    pub index: u8,
    /// Whether it runs for requests or for replies.
    pub role: Role,
    /// The locks that it lists.
    pub locks: ListedLocks,
    /// What it does.
    pub body: Body,
}

/// The handlers of a job, at most 128 where it was read.
#[derive(Drop)]
pub struct HandlerTexts {
    pub(crate) texts: Vec<HandlerText>,
}

impl Model for HandlerTexts {
    ghost use Rattle.std.specs.Prelude.{List};
    ghost use Rattle.text_job.specs.declared.job.HandlerText.{HandlerText};

    ghost Value = { List HandlerText };

    ghost view = { λ h. h.texts.items };
}

/// The lines of a schedule, at most 65,536 where the job was read.
#[derive(Drop)]
pub struct Schedule {
    pub(crate) lines: Vec<TimedEvent>,
}

impl Model for Schedule {
    ghost use Rattle.std.specs.Prelude.{List};
    ghost use Rattle.text_steps.specs.declared.steps.TimedEvent.{TimedEvent};

    ghost Value = { List TimedEvent };

    ghost view = { λ s. s.lines.items };
}

/// Which datagrams a link's sieve loses, repeats and swaps, each number 0 to 65,535 where the job was read.
#[derive(Clone, Copy)]
pub struct SieveRule {
    /// Every so-manyth datagram is lost; none for 0.
    pub lose: u32,
    /// Every so-manyth datagram is sent twice; none for 0.
    pub repeat: u32,
    /// Every so-manyth datagram is held back until after the next one; none for 0.
    pub swap: u32,
}

/// A job: the settings of all nodes, its handlers, its scripts, and its schedule.
#[derive(Drop)]
pub struct Job {
    /// The numbers that all nodes know.
    pub settings: Settings,
    /// After how many quiet turns a node stops waiting, 1 to 1,000,000 where the job was read.
    pub patience: u32,
    /// What a link's sieve does.
    pub sieve: SieveRule,
    /// Whether the nodes serve batches of remote atomics: their two handlers are registered before all others.
    pub atomics: bool,
    /// The area of collectives, where the nodes run them: their handler is registered before the job's own.
    pub collect: Option<CollectArea>,
    /// The handlers, in the order in which they stand in the text.
    pub handlers: HandlerTexts,
    /// The scripts, in the order in which they stand in the text.
    pub scripts: NodeScripts,
    /// The lines of the schedule, where the text has one.
    pub schedule: Option<Schedule>,
}

/// The head of a job.
#[derive(Clone, Copy)]
pub(crate) struct Head {
    /// The numbers that all nodes know.
    pub settings: Settings,
    /// After how many quiet turns a node stops waiting.
    pub patience: u32,
    /// What a link's sieve does.
    pub sieve: SieveRule,
    /// Whether the nodes serve batches of remote atomics.
    pub atomics: bool,
    /// The area of collectives, where the nodes run them.
    pub collect: Option<CollectArea>,
}

impl ListedLocks {
    /// The locks, each 0 to 63, in rising order.
    pub fn items(&self) -> &[u8]
        ensures items { result.now ≡ self.now }
        ensures listed { are_listed 0 result.now ≡ true }
    {
        &self.items
    }

    /// The locks as a number, of which each lock has the bit of its number.
    pub fn listed(&self) -> u64
        ensures { result ≡ listed_by self.now }
    {
        listed_by(&self.items)
    }
}

impl Body {
    /// The actions, in their order.
    pub fn actions(&self) -> &[Action]
        ensures { result.now ≡ self.now }
    {
        &self.actions
    }
}

impl HandlerTexts {
    /// The handlers, in the order in which they stand in the text.
    pub fn texts(&self) -> &[HandlerText]
        ensures { result.now ≡ self.now }
    {
        &self.texts
    }
}

impl ScriptSteps {
    /// The steps, in their order.
    pub fn steps(&self) -> &[ScriptStep]
        ensures { result.now ≡ self.now }
    {
        &self.steps
    }

    /// The pieces of their plans in all.
    pub fn pieces(&self) -> usize
        ensures { result ≡ steps_pieces self.now }
    {
        self.pieces
    }
}

impl NodeScripts {
    /// The scripts, in the order in which they stand in the text.
    pub fn scripts(&self) -> &[NodeScript]
        ensures { result.now ≡ self.now }
    {
        &self.scripts
    }

    /// The pieces of their plans in all, at most 65,536.
    pub fn pieces(&self) -> usize
        ensures pieces { result ≡ scripts_pieces self.now }
        ensures few { result ≤ PIECES }
    {
        self.pieces
    }
}

impl Schedule {
    /// The lines, in their order.
    pub fn lines(&self) -> &[TimedEvent]
        ensures { result.now ≡ self.now }
    {
        &self.lines
    }
}

impl Job {
    /// The number of lines of the schedule, 0 where there is none.
    pub fn lines(&self) -> usize
        ensures { result ≡ length (lines_of self.now.schedule) }
    {
        match &self.schedule {
            Some(schedule) => schedule.lines.len(),
            None => 0,
        }
    }

    /// Where the area of collectives begins in each segment, and the room for data of each of its parts, in bytes. None
    /// exactly where the job has no line `collect`.
    pub fn collect(&self) -> Option<(u64, u64)>
        ensures { result ≡ option_map (λ area. (area.base, area.room)) self.now.collect }
    {
        match self.collect {
            Some(area) => Some((area.base, area.room)),
            None => None,
        }
    }

    /// The same job with datagrams of version 2, in whose limits its settings are too. It takes no memory.
    pub fn into_upgraded(mut self) -> Job
        ensures { result ≡ record self { settings = as_version_2 self.settings } }
    {
        self.settings = self.settings.upgraded();
        self
    }
}
