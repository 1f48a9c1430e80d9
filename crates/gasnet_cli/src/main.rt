//! Runs GASNet active messages over lossy datagrams.
//!
//! The command `world` reads a job from standard input, runs its schedule over the endpoints of a
//! world, and writes one line for each line of the schedule, then those of each node, then `status
//! CODE NAME`. The code is the exit status. The command `drill SEED` does so with a schedule made
//! from a number, and writes a summary of the answers. The command `node RANK PORT` runs one node
//! of the job over a UDP socket, and writes the trace of what it did; `launch PORT` runs all nodes
//! of the job so, each as a child of its own, and then goes on as `check` does, which reads a job
//! with what its nodes wrote, checks whether their traces are one run, and writes that run's lines.
//!
//! The environment sets the hosts of the nodes, the key of the job, and what `launch` starts and
//! keeps ([`settings`]). Where it sets them wrongly no command runs: the exit status is 2.
//!
//! Standard error has what a person is told: why words, a job or the environment are refused, why a link or a launch
//! failed, which nodes of it failed and what their threads wait for, help, each step beside its answer, what a long
//! command is at, and how many datagrams a node dropped.
//!
//! What is proved of it stands on `run_streams` of `cli_commands`, which `run` calls with the words of
//! the command line and the two streams, whose bytes it looks at as they go by. A launch without a
//! port is made with the words of one that was free. `main` itself promises nothing.
#![tactic(auto)]

mod again;
mod facts;
mod notes;
mod ports;
mod progress;
mod replays;
mod run;
mod settings;
mod texts;

use crate::again::InputFile;
use crate::facts::{KeptEnds, facts_of};
use crate::notes::StandardNotes;
use crate::ports::SystemPorts;
use crate::progress::shown_progress;
use crate::replays::OutputReplays;
use crate::run::{Behind, run};
use crate::settings::SystemEnvironment;
use crate::texts::UserTexts;
use cli_commands::words_of;
use cli_report::{
    Command, CountedSpawner, FreePorts, Outcome, StandardError, is_node, tell_after, tell_fault,
    tell_help, with_port,
};
use cli_settings::{Refusal, SettingsTold, hosts_told, settings_told};
use proc_linux::{
    ChildEnds, Hosts, LinkSocket, ProcessSpawner, SocketWaiter, SystemClock, UdpLink,
};
use proc_seal::{Dropped, Key, SealedLink};
use std::alloc::AllocError;
use std::env;
use std::io::{IsTerminal, Print};
use std::net::UdpSocket;
use std::process::ExitCode;

/// Ends the program before any command, for what the environment sets.
fn refuse(rt: &HostRuntime, why: Refusal) -> ExitCode {
    tell_fault(rt.alloc(), why.text(), &mut StandardError::new(rt));
    let line = why.line();
    match println!(rt; "{line}") {
        Ok(()) => ExitCode::from(why.code()),
        Err(_) => ExitCode::from(5),
    }
}

/// What the environment sets, where all of it can be taken.
///
/// # Errors
///
/// The `Refusal` of the first that can't.
fn settings_of(rt: &HostRuntime) -> Result<(Hosts, SettingsTold), Refusal> {
    let environment = SystemEnvironment::new(rt);
    let hosts = hosts_told(rt.alloc(), &environment)?;
    let settings = settings_told(&environment)?;
    Ok((hosts, settings))
}

/// The spawner of the program that `launch` starts. How its children end is kept there.
fn spawner_of(
    rt: HostRuntime,
    told: SettingsTold,
    ends: &ChildEnds,
) -> ProcessSpawner<'_, HostRuntime> {
    let SettingsTold { agent, folder, .. } = told;
    let mut spawner = match agent {
        Some(agent) => ProcessSpawner::new(rt, rt.alloc(), agent, ends),
        None => ProcessSpawner::of_own_program(rt, ends),
    };
    if let Some(folder) = folder {
        spawner.keep_in(folder);
    }
    spawner
}

/// What a run has to its end.
#[derive(Drop)]
struct Begun {
    is_help: bool,
    hosts: Hosts,
    ports: Option<FreePorts<UdpSocket>>,
}

/// What a run begins with: the command, help where its words ask for it, what the environment sets, and a port where a
/// launch has none.
///
/// # Errors
///
/// The `Refusal` of the first that can't be taken.
fn begin(
    rt: &HostRuntime,
    person: &mut StandardError<'_, HostRuntime>,
) -> Result<(Command, SettingsTold, Begun), Refusal> {
    let alloc = rt.alloc();
    let Ok(words) = words_of(alloc, env::args(rt)) else {
        return Err(Refusal::NoMemory);
    };
    let is_help = tell_help::<UserTexts, _>(alloc, &words, person);
    let (hosts, told) = settings_of(rt)?;
    let (words, ports) = with_port(alloc, words, &SystemPorts::new(rt), person);
    let keeps_input = !InputFile::new(rt).is_unread();
    let command = Command::new(alloc, words, told.steps, keeps_input);
    let begun = Begun {
        is_help,
        hosts,
        ports,
    };
    Ok((command, told, begun))
}

fn main(rt: HostRuntime) -> ExitCode {
    let (alloc, mut person) = (rt.alloc(), StandardError::new(&rt));
    let (mut command, told, begun) = match begin(&rt, &mut person) {
        Ok(begun) => begun,
        Err(why) => return refuse(&rt, why),
    };
    let is_shown = !is_node(&command.words) && rt.stderr().is_terminal();
    let Ok(progress) = shown_progress(&rt, is_shown) else {
        return refuse(&rt, Refusal::NoMemory);
    };
    let (socket, ends) = (LinkSocket::new(), ChildEnds::new(alloc));
    let unsealed = Dropped::new(socket.sender());
    let secret = told.secret;
    let behind = Behind {
        spawner: CountedSpawner::new(alloc, spawner_of(rt, told, &ends), &*progress),
        clock: SystemClock::new(rt),
        waiter: SocketWaiter::new(rt, alloc, &socket),
        progress: &progress,
    };
    let link = UdpLink::new(rt, &socket, &begun.hosts);
    let mut notes = StandardNotes::new(&rt);
    let (status, spawner) = match secret {
        None => run(&rt, &mut command, link, behind, &mut notes),
        Some(secret) => match SealedLink::new(alloc, link, Key::new(secret), &unsealed) {
            Ok(link) => run(&rt, &mut command, link, behind, &mut notes),
            Err(AllocError) => return refuse(&rt, Refusal::NoMemory),
        },
    };
    progress.end(&rt);
    command.read_again(&InputFile::new(&rt));
    let (spawner, outputs) = spawner.into_parts();
    let facts = facts_of(&socket, &unsealed, spawner.unstarted());
    drop(spawner);
    let kept = KeptEnds::new(&ends);
    let outcome = Outcome::new(begun.is_help, outputs, facts, &kept);
    tell_after::<UserTexts, OutputReplays, _, _>(alloc, &command, outcome, &mut person);
    drop(begun.ports);
    status
}
