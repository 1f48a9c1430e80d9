//! The run of the drill.

ghost use Rattle.std.specs.Prelude.{◌≡◌, ◌<◌, ◌+◌, ◌-◌, ◌^◌, ℕ, false, IfOk, OnOk};
ghost use Rattle.wire_message.specs.Parameters.{Parameters};
ghost use Rattle.base_io.specs.Buffered.{outbox};
ghost use Rattle.node_rules.specs.EndpointRules.{at_the_opening, timed_event};
ghost use Rattle.sim_world.specs.Aims.{MayFall};
ghost use Rattle.sim_world.specs.Events.{ForItsRecords, event_of};
ghost use Rattle.sim_world.specs.Stands.{WorldStands};
ghost use Rattle.spec_network.specs.World.{IsAmong};
ghost use Rattle.sim_run.specs.Schedules.{world_job};
ghost use Rattle.sim_run.specs.LinesWritten.{SaysLines, OnDone};
ghost use Rattle.sim_run.specs.RunLaws.{RunLaws};
ghost use Rattle.sim_run.specs.RunText.{is_violated};
ghost use Rattle.sim_run.specs.ScheduleRun.{StandsForRun};
ghost use Rattle.sim_drill.specs.Counting.{AreAtMost};
ghost use Rattle.sim_drill.specs.DrillEnds.{DrillEnds};
ghost use Rattle.sim_drill.specs.Drilling.{CountsEvent, CountsLines, IsDrilled, job_by, drill_stage};
ghost use Rattle.sim_drill.specs.Rounds.{bare_job, deed_lines, drill_job, drill_settings, delivered_number};
ghost use Rattle.sim_drill.specs.Rounds.{round_lines};
ghost use Rattle.sim_drill.specs.Rounds.{rounds_lines};
ghost use Rattle.sim_drill.specs.Summary.{drill_lines};
ghost use Rattle.sim_drill.specs.declared.rounds.Deed.TheVariants as Deed;

use crate::counts::Counts;
use crate::draws::Draws;
use crate::rounds::{Deed, Round, draw_round};
use crate::summary::write_drill;
use base_io::{BufferedSink, Sink};
use node_rules::Call;
use part_transfers::{ImplicitKinds, Transfer};
use sim_run::{RunEnd, Said, any_violation};
use sim_world::{World, WorldAnswer, WorldEvent};
use std::alloc::{AllocError, Global};
use text_job::{JobFault, read_job};
use text_script::Script;

/// How many rounds there are.
const ROUNDS: u64 = 20_000;

/// The text of the drill's job. Its schedule isn't read, but made as it runs.
const TEXT: &[u8] = b"gasnet 1
job 7
nodes 4
credits 2
threads 1
segment 65536
last 18446744073709551615
resend 8
patience 1
sieve 0 0 0
handler 128 request
add 0 a0
reply short 129 a0
end
handler 129 reply
add 1 a0
end
done
";

/// The job of the drill, with its handlers registered. Want of memory is its one error.
fn drill_script(alloc: Global) -> Result<Script, AllocError>
    ensures { IfOk result (λ script. script ≡ bare_job) }
{
    match read_job(alloc, TEXT) {
        Ok(job) => Script::new(alloc, job),
        Err(JobFault::NoMemory) => Err(AllocError),
        Err(JobFault::Bad { .. }) => unreachable!(),
    }
}

/// Runs one event, and counts its answer. Want of memory is its one error.
fn run_event(
    world: &mut World,
    counts: &mut Counts,
    script: &Script,
    now: u64,
    event: &WorldEvent<'_>,
) -> Result<(), AllocError>
    requires among { IsAmong world.old.settings (event_of event.now) }
    requires called { MayFall world.old.settings event.now }
    requires few { AreAtMost (2 ^ 64 - 2) counts.old }
    ensures settings { world.new.settings ≡ world.old.settings }
    ensures table { world.new.table ≡ world.old.table }
    ensures few { (most : ℕ) → AreAtMost most counts.old → AreAtMost (most + 1) counts.new }
    ensures runs { OnOk result (CountsEvent (job_by script.now world.old)
        (timed_event now (event_of event.now)) (drill_stage world.old counts.old)
        (drill_stage world.new counts.new)) }
{
    match world.step(script.handlers(), now, event) {
        WorldAnswer::NoMemory => Err(AllocError),
        answer => {
            counts.count(&answer);
            Ok(())
        }
    }
}

/// A Short request.
fn run_short(
    world: &mut World,
    counts: &mut Counts,
    script: &Script,
    now: u64,
    round: Round,
) -> Result<(), AllocError>
    requires drilled { IsDrilled world.old }
    requires from { round.from < 4 }
    requires few { AreAtMost (2 ^ 64 - 2) counts.old }
    ensures settings { world.new.settings ≡ world.old.settings }
    ensures table { world.new.table ≡ world.old.table }
    ensures few { (most : ℕ) → AreAtMost most counts.old → AreAtMost (most + 1) counts.new }
    ensures runs { OnOk result (CountsLines (job_by script.now world.old)
        (deed_lines now Deed.Short round) (drill_stage world.old counts.old)
        (drill_stage world.new counts.new)) }
{
    let args = [(round.rest % 1000) as i32];
    let event = WorldEvent::Call {
        node: round.from,
        thread: 0,
        call: Call::Short {
            to: round.to,
            handler: 128,
            args: &args,
        },
    };
    run_event(world, counts, script, now, &event)
}

/// A try of the implicit transfers, and then a put.
fn run_put(
    world: &mut World,
    counts: &mut Counts,
    script: &Script,
    now: u64,
    round: Round,
) -> Result<(), AllocError>
    requires drilled { IsDrilled world.old }
    requires from { round.from < 4 }
    requires few { AreAtMost (2 ^ 64 - 3) counts.old }
    ensures settings { world.new.settings ≡ world.old.settings }
    ensures table { world.new.table ≡ world.old.table }
    ensures few { (most : ℕ) → AreAtMost most counts.old → AreAtMost (most + 2) counts.new }
    ensures runs { OnOk result (CountsLines (job_by script.now world.old)
        (deed_lines now Deed.Put round) (drill_stage world.old counts.old)
        (drill_stage world.new counts.new)) }
{
    let tried = WorldEvent::Call {
        node: round.from,
        thread: 0,
        call: Call::SyncImplicit {
            which: ImplicitKinds::All,
        },
    };
    run_event(world, counts, script, now, &tried)?;
    let transfer = Transfer::Put {
        to: round.to,
        remote: u64::from(round.rest % 8) * 4096,
        local: 0,
        len: 4096,
    };
    let begun = WorldEvent::Call {
        node: round.from,
        thread: 0,
        call: Call::BeginImplicit { transfer },
    };
    run_event(world, counts, script, now, &begun)
}

/// The number of the message that a round delivers.
fn number_of(world: &World, round: Round) -> u64
    requires from { round.from < world.now.settings.nodes }
    requires to { round.to < world.now.settings.nodes }
    ensures { ForItsRecords world.now (λ records most. result ≡ delivered_number round records) }
{
    let accepted = world.accepted(round.from, round.to);
    accepted.saturating_sub(u64::from(round.rest % 4)).max(1)
}

/// The delivery of a request.
fn run_request(
    world: &mut World,
    counts: &mut Counts,
    script: &Script,
    now: u64,
    round: Round,
) -> Result<(), AllocError>
    requires drilled { IsDrilled world.old }
    requires from { round.from < 4 }
    requires to { round.to < 4 }
    requires few { AreAtMost (2 ^ 64 - 2) counts.old }
    ensures settings { world.new.settings ≡ world.old.settings }
    ensures table { world.new.table ≡ world.old.table }
    ensures few { (most : ℕ) → AreAtMost most counts.old → AreAtMost (most + 1) counts.new }
    ensures runs { OnOk result (CountsLines (job_by script.now world.old)
        (deed_lines now Deed.Request round) (drill_stage world.old counts.old)
        (drill_stage world.new counts.new)) }
{
    let event = WorldEvent::Request {
        from: round.from,
        to: round.to,
        number: number_of(world, round),
    };
    run_event(world, counts, script, now, &event)
}

/// The delivery of a reply.
fn run_reply(
    world: &mut World,
    counts: &mut Counts,
    script: &Script,
    now: u64,
    round: Round,
) -> Result<(), AllocError>
    requires drilled { IsDrilled world.old }
    requires from { round.from < 4 }
    requires to { round.to < 4 }
    requires few { AreAtMost (2 ^ 64 - 2) counts.old }
    ensures settings { world.new.settings ≡ world.old.settings }
    ensures table { world.new.table ≡ world.old.table }
    ensures few { (most : ℕ) → AreAtMost most counts.old → AreAtMost (most + 1) counts.new }
    ensures runs { OnOk result (CountsLines (job_by script.now world.old)
        (deed_lines now Deed.Reply round) (drill_stage world.old counts.old)
        (drill_stage world.new counts.new)) }
{
    let event = WorldEvent::Reply {
        from: round.from,
        to: round.to,
        number: number_of(world, round),
    };
    run_event(world, counts, script, now, &event)
}

/// A round at the time `now`. Want of memory is its one error.
fn run_round(
    world: &mut World,
    counts: &mut Counts,
    script: &Script,
    now: u64,
    round: Round,
) -> Result<(), AllocError>
    requires drilled { IsDrilled world.old }
    requires from { round.from < 4 }
    requires to { round.to < 4 }
    requires few { AreAtMost (2 ^ 64 - 3) counts.old }
    ensures settings { world.new.settings ≡ world.old.settings }
    ensures table { world.new.table ≡ world.old.table }
    ensures few { (most : ℕ) → AreAtMost most counts.old → AreAtMost (most + 2) counts.new }
    ensures runs { OnOk result (CountsLines (job_by script.now world.old)
        (round_lines now round) (drill_stage world.old counts.old)
        (drill_stage world.new counts.new)) }
{
    match round.deed {
        Deed::Short => run_short(world, counts, script, now, round),
        Deed::Put => run_put(world, counts, script, now, round),
        Deed::Tick => {
            let event = WorldEvent::Tick { node: round.from };
            run_event(world, counts, script, now, &event)
        }
        Deed::Request => run_request(world, counts, script, now, round),
        Deed::Reply => run_reply(world, counts, script, now, round),
    }
}

/// All rounds. Want of memory is its one error.
fn run_rounds(
    world: &mut World,
    counts: &mut Counts,
    script: &Script,
    seed: u64,
) -> Result<(), AllocError>
    requires script { script.now ≡ bare_job }
    requires drilled { IsDrilled world.old }
    requires none { AreAtMost 0 counts.old }
    ensures settings { world.new.settings ≡ world.old.settings }
    ensures table { world.new.table ≡ world.old.table }
    ensures runs { OnOk result (CountsLines (world_job bare_job)
        (rounds_lines (world_job bare_job) seed 20000)
        (drill_stage world.old counts.old) (drill_stage world.new counts.new)) }
{
    let mut draws = Draws::new(seed);
    for now in 0..ROUNDS {
        let round = draw_round(&mut draws);
        run_round(world, counts, script, now, round)?;
    }
    Ok(())
}

/// Runs the drill in its world, which is at the opening, and writes its lines.
fn drill_in<K: Sink>(
    world: &mut World,
    script: &Script,
    seed: u64,
    sink: &mut BufferedSink<K>,
) -> Said
    requires script { script.now ≡ bare_job }
    requires drilled { IsDrilled world.old }
    requires stands { WorldStands world.old (at_the_opening drill_settings) (λ i. 0) }
    ensures lines { SaysLines (outbox K.taken K.faults sink.old) (outbox K.taken K.faults sink.new)
        (drill_lines seed) result }
    ensures world { OnDone result (StandsForRun (drill_job seed) world.new) }
{
    let mut counts = Counts::new();
    match run_rounds(world, &mut counts, script, seed) {
        Err(AllocError) => Said::NoMemory,
        Ok(()) => Said::from_wrote(write_drill(seed, world, &counts, sink)),
    }
}

/// Runs the drill of a seed in a new world, and writes its lines: the seed, how many answers began with each of ten
/// words, and the lines of each node.
///
/// Want of memory may end it before it wrote. The laws hold of its run, however far it came.
#[tactic(auto, using(crate::proofs::DrillLaws::drill_laws, crate::proofs::Calm::drill_calm))]
pub fn run_drill<K: Sink>(alloc: Global, seed: u64, sink: &mut BufferedSink<K>) -> RunEnd
    ensures run { DrillEnds seed (outbox K.taken K.faults sink.old)
        (outbox K.taken K.faults sink.new) result }
    ensures laws { RunLaws (drill_job seed) }
    // No node notes a violation.
    ensures calm { is_violated (drill_job seed) ≡ false }
{
    let Ok(script) = drill_script(alloc) else {
        return RunEnd::NoMemory;
    };
    let Ok(mut world) = World::new(alloc, script.settings(), script.table()) else {
        return RunEnd::NoMemory;
    };
    match drill_in(&mut world, &script, seed, sink) {
        Said::Done => {
            let violated = any_violation(&world);
            RunEnd::Done { violated, world }
        }
        Said::Fault => RunEnd::Fault,
        Said::NoMemory => RunEnd::NoMemory,
    }
}
