//! A spawner in memory, which tells all and fails where it is told to.

ghost use Rattle.std.specs.Prelude.{◌≡◌, ◌≤◌, ◌<◌, [], true, false, Some, OnOk, OnErr, IsTrue, ◌↔◌};
ghost use Rattle.std.specs.Prelude.{length, option_map};
ghost use Rattle.std.specs.List.{list_any};
ghost use Rattle.base_io.specs.Faults.{Rose};
ghost use Rattle.base_io.specs.MemorySpawner.{SpawnerState, StartsNext, EndsAs, spawner_called};
ghost use Rattle.base_io.specs.MemorySpawner.{ended_as, finished_as, told_calls, children_of};
ghost use Rattle.base_io.specs.MemorySpawner.{told_of};
ghost use Rattle.base_io.specs.Spawner.{SpawnTold, StartTold, AppendsOutput, EndsPending};
ghost use Rattle.base_io.specs.Spawner.{IsStartFailed, IsFinishFailed, child_end, told_end};
ghost use Rattle.base_io.specs.Spawner.{told_call, was_started as was_told_started};
ghost use Rattle.base_io.specs.Spawner.{is_pending as is_told_pending, is_start_of};
ghost use Rattle.base_io.specs.Spawner.{is_finish_of};
ghost use Rattle.base_io.specs.Spawner.ToldCall.{Start};

use crate::spawn_call::SpawnCall;
use crate::spawner::{Finished, MAX_OUTPUT, Spawner, Started};
use std::alloc::{AllocError, Global};
use std::marker::Model;

/// A spawner whose children are outputs and exit statuses that it was made with.
///
/// It numbers its calls from 1, whatever their kind, up to 2^64 - 1, and fails at those whose numbers it was given. The
/// rank of a child is its place. A start of a rank past the children, or of one that was started before, is a fault,
/// and so are want of memory in a start, and a finish of a child that wasn't started, was finished before, or has an
/// output over `MAX_OUTPUT`.
#[derive(Drop)]
pub struct MemorySpawner {
    alloc: Global,
    children: Vec<(Vec<u8>, u8)>,
    told: Vec<SpawnCall>,
    ends: Vec<(u16, Finished)>,
    fail: Vec<u64>,
    calls: u64,
    faults: u64,
}

impl Model for MemorySpawner {
    ghost use Rattle.std.specs.Prelude.{◌-◌, vec_capacity, vec_len};
    ghost use Rattle.base_io.specs.MemorySpawner.{SpawnerState, HasRoom, told_calls, children_of};
    ghost use Rattle.base_io.specs.MemorySpawner.{ends_of};

    ghost Value = { SpawnerState };

    ghost view = { λ s. record {
      children = children_of s.children.items;
      told = record {
        calls = told_calls s.told.items;
        ended = ends_of (children_of s.children.items) s.ends.items;
      };
      fail = s.fail.items;
      calls = s.calls;
      faults = s.faults;
    } };

    ghost invariant = { λ s. HasRoom (vec_len s.children) (told_calls s.told.items)
        (vec_capacity s.told - vec_len s.told) (vec_capacity s.ends - vec_len s.ends) };
}

impl MemorySpawner {
    /// A spawner of these children, each an output and an exit status, that fails at the calls with the numbers of
    /// `fail`, from 1.
    ///
    /// It takes no memory yet, and so is never refused.
    pub fn new(
        alloc: Global,
        children: Vec<(Vec<u8>, u8)>,
        fail: Vec<u64>,
    ) -> Result<MemorySpawner, AllocError>
        ensures { let made : SpawnerState = record {
          children = children_of children.items;
          told = record { calls = []; ended = [] };
          fail = fail.items;
          calls = 0;
          faults = 0;
        } in result ≡ Ok made }
    {
        Ok(MemorySpawner {
            alloc,
            children,
            told: Vec::new(alloc),
            ends: Vec::new(alloc),
            fail,
            calls: 0,
            faults: 0,
        })
    }

    /// Tells a start, and makes the room for the finishes that may follow.
    fn tell_start(&mut self, rank: u16, port: u16, input: &[u8]) -> Result<(), AllocError>
        requires child { rank < length self.old.children }
        requires fresh { was_told_started rank self.old.told.calls ≡ false }
        ensures ok { OnOk result (self.new
            ≡ record self.old { told = told_call (Start rank port input.now) self.old.told }) }
        ensures err { OnErr result (self.new ≡ self.old) }
    {
        let ranks = self.children.len();
        self.told.reserve(ranks + 1)?;
        self.ends.reserve(ranks)?;
        let input = input.to_vec(self.alloc)?;
        self.told
            .push_reserved(SpawnCall::Start { rank, port, input });
        Ok(())
    }

    /// How a child ends: its output is appended, unless it can't end.
    fn end(&self, rank: u16, into: &mut Vec<u8>) -> Finished
        ensures { EndsAs rank self.now result into.old.items into.new.items }
    {
        if self.fail.contains(&self.calls) || !is_pending(&self.told, rank) {
            return Finished::Failed;
        }
        let (output, status) = &self.children[usize::from(rank)];
        if output.len() > MAX_OUTPUT {
            return Finished::Failed;
        }
        if into.extend_from_slice(output).is_err() {
            return Finished::NoMemory;
        }
        Finished::Ended(*status)
    }

    /// Tells the end of a child, if it is its first.
    fn tell_end(&mut self, rank: u16, answer: Finished) -> Finished
        ensures answer { result ≡ answer }
        ensures ended { self.new ≡ ended_as rank answer self.old }
    {
        if !is_pending(&self.told, rank) {
            return answer;
        }
        self.told.push_reserved(SpawnCall::Finish { rank });
        self.ends.push_reserved((rank, answer));
        answer
    }
}

/// Whether a call started the child of this rank.
fn starts(call: &SpawnCall, rank: u16) -> bool
    ensures { result ≡ is_start_of rank (told_of call.now) }
{
    match call {
        SpawnCall::Start { rank: started, .. } => *started == rank,
        SpawnCall::Finish { .. } => false,
    }
}

/// Whether a call finished it.
fn finishes(call: &SpawnCall, rank: u16) -> bool
    ensures { result ≡ is_finish_of rank (told_of call.now) }
{
    match call {
        SpawnCall::Start { .. } => false,
        SpawnCall::Finish { rank: finished } => *finished == rank,
    }
}

/// Whether the child of this rank was started.
fn was_started(calls: &[SpawnCall], rank: u16) -> bool
    ensures { result ≡ list_any (λ call. is_start_of rank (told_of call)) calls.now }
{
    calls.iter().any(|call| starts(call, rank))
}

/// Whether it was finished.
fn was_finished(calls: &[SpawnCall], rank: u16) -> bool
    ensures { result ≡ list_any (λ call. is_finish_of rank (told_of call)) calls.now }
{
    calls.iter().any(|call| finishes(call, rank))
}

/// Whether it was started, and not finished yet.
fn is_pending(calls: &[SpawnCall], rank: u16) -> bool
    ensures { result ≡ is_told_pending rank (told_calls calls.now) }
{
    was_started(calls, rank) && !was_finished(calls, rank)
}

impl Spawner for MemorySpawner {
    ghost use Rattle.std.specs.Prelude.{Some};

    ghost told = { λ s. Some s.told };

    ghost faults = { λ s. s.faults };

    /// `Failed` where this call's number is listed, the rank has no child, or the child was started before, or where
    /// memory ran out.
    fn start(&mut self, rank: u16, port: u16, input: &[u8]) -> Started
        ensures told { StartTold result (Start rank port input.now)
            (Some self.old.told) (Some self.new.told) }
        ensures later { self.old.faults ≤ self.new.faults }
        ensures cause { IsStartFailed result → Rose self.old.faults self.new.faults }
        ensures exact { StartsNext rank (Start rank port input.now) self.old result self.new }
    {
        self.calls = self.calls.saturating_add(1);
        if self.fail.contains(&self.calls)
            || usize::from(rank) >= self.children.len()
            || was_started(&self.told, rank)
            || self.tell_start(rank, port, input).is_err()
        {
            self.faults = self.faults.saturating_add(1);
            return Started::Failed;
        }
        Started::Started
    }

    /// `Failed` exactly where this call's number is listed, the child wasn't started or was finished before, or its
    /// output is over the limit.
    fn finish(&mut self, rank: u16, into: &mut Vec<u8>) -> Finished
        ensures told { Some self.new.told ≡ option_map
            (told_end (child_end rank result into.old.items into.new.items)) (Some self.old.told) }
        ensures output { AppendsOutput result into.old.items into.new.items }
        ensures pending { EndsPending result rank (Some self.old.told) }
        ensures later { self.old.faults ≤ self.new.faults }
        ensures cause { IsFinishFailed result → Rose self.old.faults self.new.faults }
        ensures ends { EndsAs rank (spawner_called self.old) result into.old.items into.new.items }
        ensures exact { self.new ≡ finished_as rank result self.old }
    {
        self.calls = self.calls.saturating_add(1);
        match self.end(rank, into) {
            Finished::Ended(status) => self.tell_end(rank, Finished::Ended(status)),
            Finished::NoMemory => self.tell_end(rank, Finished::NoMemory),
            Finished::Failed => {
                self.faults = self.faults.saturating_add(1);
                self.tell_end(rank, Finished::Failed)
            }
        }
    }
}
