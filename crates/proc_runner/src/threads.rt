//! A node's threads, which take turns under one lock.

ghost use Rattle.std.specs.Prelude.{◌≡◌, ◌+◌, ◌≤◌, ◌<◌, IsSomeAnd};
ghost use Rattle.std.specs.Option.{ForSome};
ghost use Rattle.proc_runner.specs.StationState.{new_station, opening_of};
ghost use Rattle.proc_runner.specs.Facts.{HasFacts};
ghost use Rattle.proc_runner.specs.Leaving.{StationLeaves};

use crate::ends::{EndedStation, TurnAnswer};
use crate::held::{Crew, Held, StationName};
use crate::recorder::Recorder;
use crate::station::Station;
use base_io::{Clock, Link, Waiter};
use base_turns::Machine;
use std::alloc::Global;
use std::marker::Brand;
use std::sync::ledger::{Blank, Ledger, Share};
use std::sync::{Mutex, Wait};
use std::thread;
use std::thread::{JoinHandle, Scope, Threads};

// What a thread is given: its number, and its share of the node's ledger.
#[derive(Drop)]
pub struct Job<N: Crew> {
    thread: u16,
    share: Share<N>,
    ghost below: { thread < N.threads },
    ghost one_part: { share.parts ≡ 1 },
}

// What a thread gives back.
#[derive(Drop)]
pub struct Spent<N: Crew> {
    share: Share<N>,
    ghost one_part: { share.parts ≡ 1 },
}

// The work of a thread: its turns until an end.
fn work<N: StationName<M, L, C, K>, M: Machine, L: Link, C: Clock, K: Recorder, G: Waiter, R: Wait>(
    rt: &R,
    shared: &Mutex<Held<N, M, L, C, K>>,
    waiter: &G,
    job: Job<N>,
) -> Spent<N> {
    let Job { thread, share } = job;
    let mut mine = share;
    let mut quiet = false;
    for _ in rt.forever() {
        waiter.before_turn(thread, quiet);
        let mut held = shared.lock(rt);
        if let TurnAnswer::Ended(_) = held.turn(thread, &mut mine) {
            break;
        }
        quiet = held.was_quiet();
    }
    Spent { share: mine }
}

// Starts a thread for each number, does the work of those that couldn't be started, and waits for the others.
fn run_all<
    's,
    E,
    N: StationName<M, L, C, K> + Send + Sync + 's,
    M: Machine + Send + 's,
    L: Link + Send + 's,
    C: Clock + Send + 's,
    K: Recorder + Send + 's,
    G: Waiter + Sync + 's,
    R: Threads + Wait + Sync + 's,
>(
    scope: &'s Scope<'s, E>,
    rt: &'s R,
    alloc: Global,
    shared: &'s Mutex<Held<N, M, L, C, K>>,
    threads: u16,
    waiter: &'s G,
    all: Share<N>,
) -> Share<N>
    requires threads { threads ≡ N.threads }
    requires parts { all.parts ≡ threads + 1 }
    requires amount { all.amount ≡ 0 }
    ensures { result.parts ≡ threads + 1 }
{
    let mut all = all;
    let Ok(mut running) = Vec::with_capacity(alloc, usize::from(threads)) else {
        return all;
    };
    let Ok(mut refused) = Vec::with_capacity(alloc, usize::from(threads)) else {
        return all;
    };
    for thread in 0..threads {
        let share = all.split_off(1, 0);
        let job = Job { thread, share };
        match scope.spawn(move || work(rt, shared, waiter, job)) {
            Ok(child) => running.push_reserved(child),
            Err(error) => refused.push_reserved(error.value),
        }
    }
    while let Some(own) = refused.pop() {
        let Spent { share } = own();
        all.merge(share);
    }
    while let Some(child) = running.pop() {
        let Spent { share } = child.join(rt);
        all.merge(share);
    }
    all
}

// Runs the threads in a scope, which waits for them.
fn run_scope<
    'x,
    N: StationName<M, L, C, K> + Send + Sync,
    M: Machine + Send,
    L: Link + Send,
    C: Clock + Send,
    K: Recorder + Send,
    G: Waiter + Sync,
    R: Threads + Wait + Sync,
>(
    rt: &'x R,
    alloc: Global,
    shared: &'x Mutex<Held<N, M, L, C, K>>,
    threads: u16,
    waiter: &'x G,
    all: Share<N>,
) -> Share<N>
    requires threads { threads ≡ N.threads }
    requires parts { all.parts ≡ threads + 1 }
    requires amount { all.amount ≡ 0 }
    ensures { result.parts ≡ threads + 1 }
{
    thread::scope(
        thread::scope_env(),
        rt,
        move |scope| -> Share<N>
            requires threads { threads ≡ N.threads }
            requires parts { all.parts ≡ threads + 1 }
            requires amount { all.amount ≡ 0 }
            ensures { result.parts ≡ threads + 1 }
        { run_all(scope, rt, alloc, shared, threads, waiter, all) },
    )
}

// Puts the station under its name and its lock, and takes it out after its threads.
fn run_named<
    N: StationName<M, L, C, K> + Send + Sync,
    M: Machine + Send,
    L: Link + Send,
    C: Clock + Send,
    K: Recorder + Send,
    G: Waiter + Sync,
    R: Threads + Wait + Sync,
>(
    rt: &R,
    alloc: Global,
    station: Station<M, L, C, K>,
    blank: Blank,
    threads: u16,
    waiter: &G,
) -> Station<M, L, C, K>
    requires opened { IsSomeAnd N.opening (λ opening. station ≡ new_station opening) }
    requires threads { (M.thread_count station.machine ≡ threads) × (N.threads ≡ threads) }
    requires name { blank.name ≡ N.name }
    requires parts { (blank.parts ≡ N.parts) × (blank.parts ≡ threads + 1) }
    ensures facts { ForSome N.opening
        (λ opening. HasFacts M.Machine L.Link C.Clock K.Recorder opening result) }
{
    let (held, all) = Held::<N, M, L, C, K>::open(station, blank);
    let lock = Mutex::new(held);
    let mut all = run_scope(rt, alloc, &lock, threads, waiter, all);
    lock.into_inner().close(&mut all)
}

/// Runs the threads of a new station until an end, and waits for them.
///
/// Each thread calls the waiter without the lock, tells it whether its last turn was quiet, and then takes a turn under
/// the lock, until a turn answers an end. A thread whose script is over goes on taking turns. Where a thread can't be
/// started, its turns are taken here after the others were started. `threads` is the machine's number of threads.
///
/// While it runs, each thread holds a share of the node's ledger; `Held::turn` says what a turn does to it,
/// `Held::close` what all shares are together. Where memory for the list of threads can't be taken, no turn is taken,
/// and the end is `NoMemory`.
pub fn run_threads<
    R: Threads + Wait + Sync,
    M: Machine + Send,
    L: Link + Send,
    C: Clock + Send,
    K: Recorder + Send,
    G: Waiter + Sync,
>(
    rt: &R,
    alloc: Global,
    station: Station<M, L, C, K>,
    threads: u16,
    waiter: &G,
) -> EndedStation<M, L, C, K>
    requires new { (station ≡ new_station (opening_of station)) × (1 ≤ station.patience) }
    requires threads { M.thread_count station.machine ≡ threads }
    ensures { StationLeaves M.Machine L.Link C.Clock K.Recorder (opening_of station) result }
{
    let blank = Blank::new(u64::from(threads) + 1);
    run_named::<Brand, M, L, C, K, G, R>(rt, alloc, station, blank, threads, waiter).into_ended()
}
