//! Running a job in a world.

ghost use Rattle.std.specs.Prelude.{◌≡◌, ◌<◌, ◌+◌, length, Some, slice_get, true};
ghost use Rattle.base_io.specs.Buffered.{outbox};
ghost use Rattle.node_rules.specs.EndpointRules.{timed_event};
ghost use Rattle.sim_world.specs.Aims.{MayFall};
ghost use Rattle.sim_world.specs.Events.{ForItsRecords, event_of, job_in};
ghost use Rattle.sim_world.specs.Settling.{Moves};
ghost use Rattle.spec_network.specs.World.{IsAmong};
ghost use Rattle.text_script.specs.Bodies.{script_meaning};
ghost use Rattle.text_job.specs.JobText.{IsJob};
ghost use Rattle.text_script.specs.Registration.{handlers_of, registry_of};
ghost use Rattle.text_job.specs.JobReading.{lines_of};
ghost use Rattle.text_steps.specs.declared.steps.TimedEvent.{TimedEvent};
ghost use Rattle.sim_run.specs.RunText.{node_of_event, run_lines};
ghost use Rattle.text_script.specs.ScriptInvariant.{IsWithin, MayBegin, MayCollect};
ghost use Rattle.sim_run.specs.Schedules.{begin_answer, begin_asked, begin_events, is_several, opening_nodes};
ghost use Rattle.sim_run.specs.RunLaws.{RunLaws};
ghost use Rattle.sim_run.specs.ScheduleRun.{WorldRecords, run_stage, begin_plan, event_plan, settle_plan};
ghost use Rattle.sim_run.specs.ScheduleRun.{GroupStood, HaveCollectives, IsOfSameJob, IsOfSameNodes};
ghost use Rattle.sim_run.specs.ScheduleRun.{RunsByScript, RunsLine, RunsLines, StandsForRun};
ghost use Rattle.sim_run.specs.ScheduleRun.{is_lacking, nodes_stage};
ghost use Rattle.sim_group.specs.GroupState.{IsGroup, group_in};
ghost use Rattle.sim_group.specs.Standing.{StandsFor};
ghost use Rattle.text_steps.specs.declared.steps.ScheduledEvent.TheVariants.{Collective};
ghost use Rattle.sim_run.specs.LinesWritten.{SaysLines, OnDone};
ghost use Rattle.sim_run.specs.RunEnds.{RunEnds};

use crate::nodes::{collect, opening_nodes};
use crate::output::{any_violation, write_event_answer, write_nodes, write_numbered};
use crate::said::Said;
use crate::schedule_line::{Beginning, CollectiveCall, world_event};
use base_io::{BufferedSink, Sink};
use node_collectives::{EndAnswer, StartAnswer, StepAnswer};
use node_vis::Vis;
use part_handlers::Handlers;
use sim_group::WorldNodes;
use sim_world::{AtNode, World, WorldAnswer, WorldEvent};
use std::alloc::{AllocError, Global};
use text_script::{CollectiveAnswer, Script, write_collective, write_vis};
use text_steps::ScheduledEvent;

/// The node on which an event falls.
fn node_of(event: &WorldEvent<'_>) -> u16
    ensures { result ≡ node_of_event (event_of event.now) }
{
    match event {
        WorldEvent::Call { node, .. } => *node,
        WorldEvent::Request { to, .. } => *to,
        WorldEvent::Reply { from, .. } => *from,
        WorldEvent::Tick { node } => *node,
    }
}

/// Where a line of the output stands.
#[derive(Clone, Copy)]
struct LinePlace {
    /// Its number, from 1.
    number: u64,
    /// The time of its events.
    now: u64,
}

/// Runs one event, and writes the line of its answer.
fn run_event<K: Sink>(
    world: &mut World,
    script: &Script,
    at: LinePlace,
    event: &WorldEvent<'_>,
    sink: &mut BufferedSink<K>,
) -> Said
    requires among { IsAmong world.old.settings (event_of event.now) }
    requires called { MayFall world.old.settings event.now }
    requires stood { WorldRecords world.old }
    ensures settings { world.new.settings ≡ world.old.settings }
    ensures table { world.new.table ≡ world.old.table }
    ensures runs { RunsByScript script.now
        (event_plan at.number (timed_event at.now (event_of event.now)))
        (run_stage K.taken K.faults world.old sink.old)
        (run_stage K.taken K.faults world.new sink.new)
        result }
{
    match world.step(script.handlers(), at.now, event) {
        WorldAnswer::NoMemory => Said::NoMemory,
        answer => Said::from_wrote(write_event_answer(
            world,
            node_of(event),
            at.number,
            &answer,
            sink,
        )),
    }
}

/// Begins the pieces of a plan at a node.
fn begin_pieces<H: Handlers>(
    world: &mut World,
    handlers: &H,
    now: u64,
    begin: &Beginning<'_>,
) -> Vis
    requires node { begin.now.node < world.old.settings.nodes }
    requires begins { MayBegin world.old.settings begin.now.thread begin.now.vis.now }
    ensures job { IsOfSameJob world.old world.new }
    ensures answered { ForItsRecords world.old (λ records most.
        result ≡ begin_answer (job_in (H.meaning handlers.now) world.old) records now begin.now.node
        (begin_asked begin.now.thread begin.now.vis.now)) }
    ensures moves { Moves (job_in (H.meaning handlers.now) world.old)
        (λ records. begin_events (job_in (H.meaning handlers.now) world.old) records now
        begin.now.node
        (begin_asked begin.now.thread begin.now.vis.now)) world.old world.new }
{
    let mut caller = AtNode {
        world,
        node: begin.node,
        handlers,
        now,
    };
    let words = &begin.vis.words;
    let from = usize::from(words.from);
    begin
        .vis
        .plan
        .begin(&mut caller, begin.thread, from, words.register)
}

/// Begins the pieces of a plan at a node, and writes the line of its answer.
fn run_vis<K: Sink>(
    world: &mut World,
    script: &Script,
    at: LinePlace,
    begin: &Beginning<'_>,
    sink: &mut BufferedSink<K>,
) -> Said
    requires node { begin.now.node < world.old.settings.nodes }
    requires begins { MayBegin world.old.settings begin.now.thread begin.now.vis.now }
    ensures settings { world.new.settings ≡ world.old.settings }
    ensures table { world.new.table ≡ world.old.table }
    ensures runs { RunsByScript script.now
        (begin_plan at.number at.now begin.now.node
        (begin_asked begin.now.thread begin.now.vis.now))
        (run_stage K.taken K.faults world.old sink.old)
        (run_stage K.taken K.faults world.new sink.new)
        result }
{
    match begin_pieces(world, script.handlers(), at.now, begin) {
        Vis::NoMemory => Said::NoMemory,
        answer => Said::from_wrote(write_vis(at.number, &answer, sink)),
    }
}

/// Runs so many rounds, and writes the line of their answer.
fn run_settle<K: Sink>(
    world: &mut World,
    script: &Script,
    at: LinePlace,
    rounds: u32,
    sink: &mut BufferedSink<K>,
) -> Said
    ensures settings { world.new.settings ≡ world.old.settings }
    ensures table { world.new.table ≡ world.old.table }
    ensures runs { RunsByScript script.now (settle_plan at.number at.now rounds)
        (run_stage K.taken K.faults world.old sink.old)
        (run_stage K.taken K.faults world.new sink.new)
        result }
{
    match world.settle(script.handlers(), at.now, rounds) {
        Err(AllocError) => Said::NoMemory,
        Ok(()) => Said::from_wrote(write_numbered(sink, at.number, b"settled")),
    }
}

/// Whether memory ran out.
fn is_lacking(answer: CollectiveAnswer) -> bool
    ensures { result ≡ is_lacking answer }
{
    match answer {
        CollectiveAnswer::Start(StartAnswer::NoMemory) => true,
        CollectiveAnswer::Step(StepAnswer::NoMemory) => true,
        CollectiveAnswer::End(EndAnswer::NoMemory) => true,
        _ => false,
    }
}

/// Makes a call for the collectives of a node, and writes the line of its answer.
fn run_collective<K: Sink>(
    nodes: &mut WorldNodes,
    script: &Script,
    at: LinePlace,
    asked: &CollectiveCall,
    sink: &mut BufferedSink<K>,
) -> Said
    requires group { IsGroup nodes.old.world nodes.old.collectives.items }
    requires node { asked.now.node < nodes.old.world.settings.nodes }
    requires thread { asked.now.thread < nodes.old.world.settings.threads }
    ensures job { IsOfSameNodes script.now (group_in nodes.old) (group_in nodes.new) }
    ensures runs { (line : TimedEvent) → line.time ≡ at.now
        → line.event ≡ Collective asked.now.node asked.now.thread asked.now.call
        → RunsLine (job_in (script_meaning (handlers_of script.now)) nodes.old.world) at.number line
        (nodes_stage K.taken K.faults nodes.old sink.old)
        (nodes_stage K.taken K.faults nodes.new sink.new)
        result }
{
    let answer = collect(nodes, script.handlers(), at.now, asked);
    if is_lacking(answer) {
        return Said::NoMemory;
    }
    Said::from_wrote(write_collective(at.number, answer, sink))
}

/// Runs an event of a schedule that is several events of the world or none, and writes its line.
fn run_several<K: Sink>(
    nodes: &mut WorldNodes,
    script: &Script,
    at: LinePlace,
    event: &ScheduledEvent,
    sink: &mut BufferedSink<K>,
) -> Said
    requires several { is_several event.now ≡ true }
    requires within { IsWithin nodes.old.world.settings event.now }
    requires collect { MayCollect script.now.collect event.now }
    requires have { HaveCollectives script.now (group_in nodes.old) }
    ensures job { IsOfSameNodes script.now (group_in nodes.old) (group_in nodes.new) }
    ensures runs { (line : TimedEvent) → line.time ≡ at.now → line.event ≡ event.now
        → RunsLine (job_in (script_meaning (handlers_of script.now)) nodes.old.world) at.number line
        (nodes_stage K.taken K.faults nodes.old sink.old)
        (nodes_stage K.taken K.faults nodes.new sink.new)
        result }
{
    match event {
        ScheduledEvent::Vis { node, thread, vis } => {
            let begin = Beginning {
                node: *node,
                thread: *thread,
                vis: vis.text(),
            };
            run_vis(&mut nodes.world, script, at, &begin, sink)
        }
        ScheduledEvent::Collective { node, thread, call } => {
            let asked = CollectiveCall {
                node: *node,
                thread: *thread,
                call: *call,
            };
            run_collective(nodes, script, at, &asked, sink)
        }
        ScheduledEvent::Settle { rounds } => {
            run_settle(&mut nodes.world, script, at, *rounds, sink)
        }
        _ => unreachable!(),
    }
}

/// Runs line `place` of the schedule, from 0, and writes its line, whose number is one more.
fn run_line<K: Sink>(
    nodes: &mut WorldNodes,
    script: &Script,
    place: usize,
    sink: &mut BufferedSink<K>,
) -> Said
    requires job { IsJob script.now }
    requires settings { nodes.old.world.settings ≡ script.now.settings }
    requires have { HaveCollectives script.now (group_in nodes.old) }
    requires stood { GroupStood (group_in nodes.old) }
    requires line { place < length (lines_of script.now.schedule) }
    ensures job { IsOfSameNodes script.now (group_in nodes.old) (group_in nodes.new) }
    ensures runs { (line : TimedEvent) → slice_get (lines_of script.now.schedule) place ≡ Some line
        → RunsLine (job_in (script_meaning (handlers_of script.now)) nodes.old.world) (place + 1)
        line
        (nodes_stage K.taken K.faults nodes.old sink.old)
        (nodes_stage K.taken K.faults nodes.new sink.new)
        result }
{
    let Some(timed) = script.timed(place) else {
        unreachable!()
    };
    let at = LinePlace {
        number: place as u64 + 1,
        now: timed.time,
    };
    let mut args = [0; 17];
    match world_event(&timed.event, &nodes.world, &mut args) {
        Some(event) => run_event(&mut nodes.world, script, at, &event, sink),
        None => run_several(nodes, script, at, &timed.event, sink),
    }
}

/// Runs the lines of the schedule in order, and writes a line for each, numbered from 1.
fn run_schedule<K: Sink>(
    nodes: &mut WorldNodes,
    script: &Script,
    sink: &mut BufferedSink<K>,
) -> Said
    requires job { IsJob script.now }
    requires settings { nodes.old.world.settings ≡ script.now.settings }
    requires have { HaveCollectives script.now (group_in nodes.old) }
    requires stood { GroupStood (group_in nodes.old) }
    ensures job { IsOfSameJob nodes.old.world nodes.new.world }
    ensures runs { RunsLines (job_in (script_meaning (handlers_of script.now)) nodes.old.world)
        (lines_of script.now.schedule)
        (nodes_stage K.taken K.faults nodes.old sink.old)
        (nodes_stage K.taken K.faults nodes.new sink.new)
        result }
{
    for place in 0..script.lines() {
        match run_line(nodes, script, place, sink) {
            Said::Done => {}
            ended => return ended,
        }
    }
    Said::Done
}

/// Runs a job among its nodes, which are at the opening, and writes its lines.
fn run_in<K: Sink>(nodes: &mut WorldNodes, script: &Script, sink: &mut BufferedSink<K>) -> Said
    requires job { IsJob script.now }
    requires settings { nodes.old.world.settings ≡ script.now.settings }
    requires table { nodes.old.world.table ≡ (registry_of (handlers_of script.now)).table }
    requires have { HaveCollectives script.now (group_in nodes.old) }
    requires stands { StandsFor (group_in nodes.old) (opening_nodes script.now).area
        (opening_nodes script.now).group (λ i. 0) }
    ensures lines { SaysLines (outbox K.taken K.faults sink.old) (outbox K.taken K.faults sink.new)
        (run_lines script.now) result }
    ensures world { OnDone result (StandsForRun script.now nodes.new.world) }
{
    match run_schedule(nodes, script, sink) {
        Said::Done => Said::from_wrote(write_nodes(&nodes.world, sink)),
        ended => ended,
    }
}

/// How the run of a job ended.
#[derive(Drop)]
pub enum RunEnd {
    /// All its lines were written.
    Done {
        /// Whether a node noted a violation.
        violated: bool,
        /// The world after the run.
        world: World,
    },
    /// The sink failed: a prefix of the text of its lines was written.
    Fault,
    /// Memory ran out: whole lines of it were written, or none.
    NoMemory,
}

/// Runs a job in a new world, and writes its lines: the answer to each line of the schedule, then the lines of each
/// node.
///
/// The laws hold of its run, however far it came.
#[tactic(auto, using(crate::proofs::RunLaws::run_laws))]
pub fn run_job<K: Sink>(alloc: Global, script: &Script, sink: &mut BufferedSink<K>) -> RunEnd
    requires { IsJob script.now }
    ensures run { RunEnds script.now (outbox K.taken K.faults sink.old)
        (outbox K.taken K.faults sink.new) result }
    ensures laws { RunLaws script.now }
{
    let Ok(mut nodes) = opening_nodes(alloc, script) else {
        return RunEnd::NoMemory;
    };
    match run_in(&mut nodes, script, sink) {
        Said::Done => {
            let violated = any_violation(&nodes.world);
            RunEnd::Done {
                violated,
                world: nodes.world,
            }
        }
        Said::Fault => RunEnd::Fault,
        Said::NoMemory => RunEnd::NoMemory,
    }
}
