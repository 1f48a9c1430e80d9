//! The machine of a node.

ghost use Rattle.std.specs.Prelude.{◌≡◌, ◌<◌, IfOk, IsSome, true, find, option_copied};
ghost use Rattle.node_endpoint.specs.EndpointState.{IsNodeOf};
ghost use Rattle.text_job.specs.JobText.{IsJob};
ghost use Rattle.text_script.specs.Registration.{handlers_of, registry_of};
ghost use Rattle.proc_machine.specs.Cursors.{progress_of_all};
ghost use Rattle.proc_machine.specs.Kept.{polls_at};
ghost use Rattle.proc_machine.specs.Machines.{MachineTakes};
ghost use Rattle.proc_machine.specs.Openings.{AreFirst};
ghost use Rattle.proc_machine.specs.NodeState.{NodeStands, is_of, opening_collectives, opening_state, steps_of_thread};

use crate::cursor::{Cursor, are_done, cursor_at};
use crate::outgoing::Outgoing;
use crate::turn::{ThreadTurn, TurnDone, is_change, take_turn};
use base_turns::{Machine, Turned};
use law_traces::ScriptAnswer;
use node_collectives::Collectives;
use node_endpoint::Endpoint;
use proc_steps::Tried;
use std::alloc::{AllocError, Global};
use std::marker::Model;
use text_job::NodeScript;
use text_script::Script;
use text_steps::ScriptStep;

/// The machine of a node of a job: its endpoint, its collectives, and how far the scripts of its threads have come.
///
/// All memory is taken by `new`; the steps stay the job's.
#[derive(Drop)]
pub struct NodeMachine<'a> {
    job: &'a Script,
    endpoint: Endpoint,
    /// How far the node's collectives are, which all its threads run; None where the job has none.
    collectives: Option<Collectives>,
    /// For each thread what is left of its script.
    cursors: Vec<Cursor<'a>>,
    /// What its last turn sent that wasn't empty.
    outgoing: Outgoing,
    /// The answer of the script step that ended in that turn.
    answer: Option<ScriptAnswer>,
}

impl<'a> Model for NodeMachine<'a> {
    ghost use Rattle.proc_machine.specs.Kept.{MachineKept};

    ghost Value = { MachineKept };

    ghost use Rattle.proc_machine.specs.Kept.{IsMachine};
    ghost use Rattle.proc_machine.specs.Cursors.{progress_of_all};

    ghost view = { λ m. record {
      job = m.job.now;
      endpoint = m.endpoint;
      collectives = m.collectives;
      scripts = progress_of_all m.cursors.items;
      outgoing = m.outgoing;
      answer = m.answer;
    } };

    ghost invariant = { λ m. IsMachine (record {
      job = m.job.now;
      endpoint = m.endpoint;
      collectives = m.collectives;
      scripts = progress_of_all m.cursors.items;
      outgoing = m.outgoing;
      answer = m.answer;
    }) };
}

/// The script of the thread, if it has one.
fn script_of(scripts: &[NodeScript], node: u16, thread: u16) -> Option<&NodeScript>
    ensures { option_copied result ≡ find (is_of node thread) scripts.now }
{
    scripts
        .iter()
        .find(|script| script.node == node && script.thread == thread)
}

/// The steps of the thread's script; none where it has no script.
fn steps_of_thread(scripts: &[NodeScript], node: u16, thread: u16) -> &[ScriptStep]
    ensures { result.now ≡ steps_of_thread scripts.now node thread }
{
    match script_of(scripts, node, thread) {
        Some(script) => script.steps.steps(),
        None => &[],
    }
}

/// At the first steps of the scripts of a node's threads.
fn cursors_of(alloc: Global, job: &Script, me: u16) -> Result<Vec<Cursor<'_>>, AllocError>
    ensures { IfOk result (λ cursors.
        AreFirst job.now me job.now.settings.threads (progress_of_all cursors.items)) }
{
    let threads = job.settings().threads();
    let mut cursors = Vec::with_capacity(alloc, usize::from(threads))?;
    for thread in 0..threads {
        cursors.push(Cursor::new(steps_of_thread(job.scripts(), me, thread)))?;
    }
    Ok(cursors)
}

/// The collectives of a node of which none has started, where the job has an area of them.
fn collectives_of(job: &Script, me: u16) -> Option<Collectives>
    requires job { IsJob job.now }
    requires me { me < job.now.settings.nodes }
    ensures { result ≡ opening_collectives job.now me }
{
    match job.collect() {
        Some((base, room)) => Collectives::new(job.settings(), me, base, room),
        None => None,
    }
}

impl<'a> NodeMachine<'a> {
    /// The machine of node `me` of the job, which did nothing, at the first steps of its scripts.
    ///
    /// It is refused for want of memory alone.
    pub fn new(alloc: Global, job: &'a Script, me: u16) -> Result<NodeMachine<'a>, AllocError>
        requires job { IsJob job.now }
        requires me { me < job.now.settings.nodes }
        ensures { IfOk result (λ machine. NodeStands machine (opening_state job.now me)) }
    {
        let cursors = cursors_of(alloc, job, me)?;
        let endpoint = Endpoint::new(alloc, job.settings(), me, job.table())?;
        Ok(NodeMachine {
            job,
            endpoint,
            collectives: collectives_of(job, me),
            cursors,
            outgoing: Outgoing::none(),
            answer: None,
        })
    }

    /// The answer of the script step that ended in the last turn that wasn't empty; None exactly where none ended in
    /// it.
    pub fn answer(&self) -> Option<ScriptAnswer>
        ensures { result ≡ self.now.answer }
    {
        self.answer
    }

    /// The endpoint.
    pub fn endpoint(&self) -> &Endpoint
        ensures is { result.now ≡ self.now.endpoint }
        ensures node { IsNodeOf self.now.job.settings (registry_of (handlers_of self.now.job)).table
            result.now.core.me result.now }
    {
        &self.endpoint
    }

    /// A turn of a thread, but for what the machine keeps of it.
    fn take(&mut self, thread: u16, now: u64, got: Option<&[u8]>) -> TurnDone
        requires thread { thread < self.old.job.settings.threads }
        requires polls { IsSome got → polls_at self.old thread ≡ true }
        ensures { MachineTakes self.old
            (record { thread = thread; now = now; got = option_copied got.entry }) result self.new }
    {
        let polls = self.endpoint.polls(thread);
        let place = usize::from(thread);
        let mut cursor = cursor_at(&self.cursors, place);
        let done = take_turn(
            &mut self.endpoint,
            self.job.handlers(),
            &mut self.collectives,
            &mut cursor,
            ThreadTurn {
                thread,
                now,
                polls,
                got,
            },
        );
        self.cursors[place] = cursor;
        done
    }

    /// The endpoint alone.
    pub fn into_endpoint(self) -> Endpoint
        ensures is { result ≡ self.entry.endpoint }
        ensures node { IsNodeOf self.entry.job.settings
            (registry_of (handlers_of self.entry.job)).table
            result.core.me result }
    {
        let NodeMachine { endpoint, .. } = self;
        endpoint
    }
}

impl<'a> Machine for NodeMachine<'a> {
    ghost use Rattle.proc_machine.specs.Kept.{are_done, polls_at};
    ghost use Rattle.proc_machine.specs.NodeState.{NodeState, NodeStands, after_turn, polls_in, sent_datagrams};
    ghost use Rattle.proc_machine.specs.NodeState.{turn_result};

    ghost State = { NodeState };

    ghost stands = { NodeStands };

    ghost thread_count = { λ machine. machine.job.settings.threads };

    ghost polls_at = { polls_at };

    ghost is_over = { λ machine. are_done machine.scripts };

    ghost polls_in = { polls_in };

    ghost after = { after_turn };

    ghost turned = { turn_result };

    ghost sent = { sent_datagrams };

    fn threads(&self) -> u16 {
        self.job.settings().threads()
    }

    fn polls(&self, thread: u16) -> bool {
        self.endpoint.polls(thread)
    }

    fn over(&self) -> bool {
        are_done(&self.cursors)
    }

    fn turn(&mut self, thread: u16, now: u64, got: Option<&[u8]>) -> Turned {
        let came = got.is_some();
        let done = self.take(thread, now, got);
        if !is_change(&done, came) {
            return Turned {
                changed: false,
                stepped: false,
                sends: 0,
            };
        }
        let TurnDone { outgoing, tried } = done;
        let sends = outgoing.count();
        self.outgoing = outgoing;
        self.answer = tried.ended;
        Turned {
            changed: true,
            stepped: tried.ended.is_some(),
            sends,
        }
    }

    fn outgoing(&self, i: u8) -> Option<(u16, &[u8])> {
        match self.outgoing.slot(i) {
            Some(at) => match self.endpoint.message(at) {
                Some(bytes) => Some((at.peer, bytes)),
                None => None,
            },
            None => None,
        }
    }
}
