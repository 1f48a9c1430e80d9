//! An order of the entries of several traces in which each can go in its turn.

ghost use Rattle.std.specs.Prelude.{◌≡◌, ℕ, ◌<◌, ◌≤◌, ◌^◌, List, length, All, IsTrue, true};
ghost use Rattle.std.specs.Prelude.{IsSomeAnd, IfSome, IfNone, OnOk, IsErrOf, slice_get, ◌↔◌};
ghost use Rattle.std.specs.Option.{option_to_list};
ghost use Rattle.base_turns.specs.Replay.{steps_of};
ghost use Rattle.base_turns.specs.Prefixes.{IsRun};
ghost use Rattle.text_trace.specs.Going.{CanTake, CanTakeNext, IsLeftAt, Judges, MayGo};
ghost use Rattle.text_trace.specs.Going.{Took, TookNext};
ghost use Rattle.text_trace.specs.Noted.{mark, AreAtNoted, Fit, GotNoted, IsNoted, Marks};
ghost use Rattle.text_trace.specs.Merged.{HaveThreads, Merges, StandFor, nodes_of};
ghost use Rattle.text_trace.specs.declared.merging.MergeFault.TheVariants.{NotARun};

use crate::trace::{Placed, Trace};
use crate::wanted::{Places, all_places, is_marked, is_noted, no_marks, note};
use base_turns::{Entry, Machine};
use std::alloc::Global;
use thiserror::Error;

/// Why there is no order.
#[derive(Clone, Copy, Debug, Drop, Error)]
pub enum MergeFault {
    /// No order exists.
    #[error("entry {entry} of node {node} can't go")]
    NotARun {
        /// The smallest node whose next entry can't ever go.
        node: u16,
        /// That entry, counted from 1.
        entry: u32,
    },
    /// Memory ran out.
    #[error("no memory")]
    NoMemory,
}

/// Whether an entry may go now.
fn may_go<M: Machine>(
    machine: &M,
    entries: &[Entry],
    at: usize,
    places: &[Places<'_>],
    marks: &[Vec<bool>],
    node: usize,
) -> bool
    requires threads { All (λ e. e.thread < M.thread_count machine.now) entries.now }
    requires node { node < length marks.now }
    requires marked { mark marks.now node at ≡ true
        → GotNoted places.now marks.now node entries.now at }
    ensures takes { IsTrue result → IsSomeAnd (slice_get entries.now at)
        (CanTake M.Machine machine.now) }
    ensures judges { (state : M.State) → M.stands machine.now state → IsTrue result
        ↔ MayGo (steps_of M.Machine) (record { state = state; entries = entries.now })
        (IsNoted places.now marks.now node) at }
{
    let Some(entry) = entries.get(at) else {
        return false;
    };
    // The datagram that is marked at this place is the one that the entry got.
    if is_marked(marks, node, at) {
        return machine.polls(entry.thread);
    }
    match &entry.got {
        None => true,
        Some(bytes) => machine.polls(entry.thread)
            && is_noted(places, marks, node, bytes.as_slice()),
    }
}

/// Whether a node's next entry may go now.
fn may_go_next<M: Machine>(
    machines: &[M],
    traces: &[Trace],
    prefix: &[usize],
    places: &[Places<'_>],
    marks: &[Vec<bool>],
    node: usize,
) -> bool
    requires nodes { length traces.now ≡ length machines.now }
    requires prefix { length prefix.now ≡ length machines.now }
    requires many { length machines.now ≤ 256 }
    requires threads { HaveThreads M.Machine machines.now traces.now }
    requires marks { length marks.now ≡ length machines.now }
    requires marked { AreAtNoted places.now marks.now traces.now }
    requires node { node < length machines.now }
    ensures takes { IsTrue result → CanTakeNext M.Machine machines.now traces.now prefix.now node }
    ensures judges { Judges M.Machine
        (record {
          machines = machines.now;
          traces = traces.now;
          prefix = prefix.now;
          places = places.now;
          marks = marks.now;
        })
        node result }
{
    may_go(
        &machines[node],
        traces[node].entries.as_slice(),
        prefix[node],
        places,
        marks,
        node,
    )
}

/// Marks a datagram that the last turn sent.
fn keep<M: Machine>(machine: &M, i: u8, places: &[Places<'_>], marks: &mut [Vec<bool>])
    requires { Fit places.now marks.old }
    ensures fit { Fit places.now marks.new }
    ensures marks { (r : M.State) → M.stands machine.now r
        → Marks places.now marks.old marks.new (option_to_list (slice_get (M.sent r) i)) }
{
    if let Some((to, bytes)) = machine.outgoing(i) {
        note(places, marks, to, bytes);
    }
}

/// Lets an entry go, and marks what it sends.
fn let_go<M: Machine>(machine: &mut M, next: &Entry, places: &[Places<'_>], marks: &mut [Vec<bool>])
    requires thread { next.now.thread < M.thread_count machine.old }
    requires takes { CanTake M.Machine machine.old next.now }
    requires fit { Fit places.now marks.old }
    ensures took { Took M.Machine places.now next.entry.now
        (record { machine = machine.old; marks = marks.old })
        (record { machine = machine.new; marks = marks.new }) }
    ensures fit { Fit places.now marks.new }
{
    let got = match &next.got {
        None => None,
        Some(bytes) => Some(bytes.as_slice()),
    };
    let turned = machine.turn(next.thread, next.now, got);
    for i in 0..turned.sends {
        keep(machine, i, places, marks);
    }
}

/// Lets a node's next entry go.
fn go_next<M: Machine>(
    machines: &mut [M],
    traces: &[Trace],
    prefix: &[usize],
    places: &[Places<'_>],
    marks: &mut [Vec<bool>],
    node: usize,
)
    requires nodes { length traces.now ≡ length machines.old }
    requires prefix { length prefix.now ≡ length machines.old }
    requires threads { HaveThreads M.Machine machines.old traces.now }
    requires node { node < length machines.old }
    requires takes { CanTakeNext M.Machine machines.old traces.now prefix.now node }
    requires fit { Fit places.now marks.old }
    ensures fit { Fit places.now marks.new }
    ensures took { TookNext M.Machine
        (record {
          machines = machines.old;
          traces = traces.now;
          prefix = prefix.now;
          places = places.now;
          marks = marks.old;
        })
        node machines.new marks.new }
{
    let next = &traces[node].entries.as_slice()[prefix[node]];
    let_go(&mut machines[node], next, places, marks)
}

/// The smallest node with an entry left.
fn first_left(traces: &[Trace], prefix: &[usize]) -> Option<usize>
    requires { length prefix.now ≡ length traces.now }
    ensures some { IfSome result (λ n. IsLeftAt traces.now prefix.now n
        × ((k : ℕ) → k < n → IsLeftAt traces.now prefix.now k → ⊥)) }
    ensures within { IfSome result (λ n. n < length traces.now) }
    ensures none { IfNone result ((k : ℕ) → k < length traces.now
        → IsLeftAt traces.now prefix.now k → ⊥) }
{
    for node in 0..traces.len() {
        if prefix[node] < traces[node].entries.as_slice().len() {
            return Some(node);
        }
    }
    None
}

/// An order of all entries in which each can go in its turn.
///
/// There is one trace for each machine, in order. An entry can go only where all entries before it in its trace have
/// gone; then it can go where it got nothing, or where its thread polls and its datagram equals one that was sent to
/// its node by an entry that has gone. Each machine takes the turns of its node's entries as they go: afterwards it
/// stands for their replay.
///
/// # Errors
///
/// `NotARun` only where no such order exists, with the smallest node whose next entry can't ever go. `NoMemory` where
/// memory ran out, whether there is such an order or not.
pub fn merge<M: Machine>(
    alloc: Global,
    machines: &mut [M],
    traces: &[Trace],
) -> Result<Vec<Placed>, MergeFault>
    requires nodes { length traces.now ≡ length machines.old }
    requires many { length machines.old ≤ 256 }
    requires entries { All (λ t. length t.entries < 2 ^ 32) traces.now }
    requires threads { HaveThreads M.Machine machines.old traces.now }
    // For whatever states the machines stood for, answer and machines are those of one prefix.
    ensures prefix { (f : List ℕ) × ((rs : List M.State) → StandFor M.Machine machines.old rs
        → Merges M.Machine (nodes_of rs traces.now) f result machines.new) }
    // An order comes only where some order is a run,
    ensures run { (rs : List M.State) → StandFor M.Machine machines.old rs
        → OnOk result (IsRun (steps_of M.Machine) (nodes_of rs traces.now)) }
    // and `NotARun` only where none is.
    ensures no_run { (rs : List M.State) → StandFor M.Machine machines.old rs
        → (node entry : ℕ) → IsErrOf result (NotARun node entry)
        → IsRun (steps_of M.Machine) (nodes_of rs traces.now) → ⊥ }
{
    let Ok(found) = all_places(alloc, traces) else {
        return Err(MergeFault::NoMemory);
    };
    let places = found.as_slice();
    let Ok(mut unmarked) = no_marks(alloc, traces) else {
        return Err(MergeFault::NoMemory);
    };
    let marks = unmarked.as_mut_slice();
    let Ok(mut counts) = vec![in alloc; 0usize; machines.len()] else {
        return Err(MergeFault::NoMemory);
    };
    let prefix = counts.as_mut_slice();
    let mut placed = Vec::new(alloc);
    let mut went = true;
    'rounds: while went {
        went = false;
        'nodes: for node in 0..machines.len() {
            'entries: while may_go_next(machines, traces, prefix, places, marks, node) {
                go_next(machines, traces, prefix, places, marks, node);
                let number = prefix[node] + 1;
                prefix[node] = number;
                went = true;
                let Ok(()) = placed.push(Placed {
                    node: node as u16,
                    entry: number as u32,
                }) else {
                    return Err(MergeFault::NoMemory);
                };
            }
        }
    }
    match first_left(traces, prefix) {
        None => Ok(placed),
        Some(node) => Err(MergeFault::NotARun {
            node: node as u16,
            entry: (prefix[node] + 1) as u32,
        }),
    }
}
