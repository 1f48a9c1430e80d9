//! Runs of pairs, joined where one continues the other, and what is wrong with them.

ghost use Rattle.std.specs.Prelude.{◌≡◌, ◌≤◌, [], IfOk, IfErr, length, map};
ghost use Rattle.node_vis.specs.Pieces.{AreFilled, continues, with_run};
ghost use Rattle.std.specs.List.{All, list_any};
ghost use Rattle.node_vis.specs.Plans.{IsInside};
ghost use Rattle.node_vis.specs.Runs.{ends_behind, EndsSoon, IsFull, IsJudged, piece_in, pieces_fault};

use crate::overlap::some_meet;
use crate::shapes::{Piece, PlanFault, Way};
use std::alloc::{AllocError, Global};
use std::marker::Model;
use wire_message::Settings;

/// How many pieces a plan has at most.
const MOST_PIECES: usize = 1024;

/// Bytes that follow one another on both sides, also behind the ends of the segments.
#[derive(Clone, Copy)]
pub struct Run {
    /// The first byte of the target's side.
    pub remote: u128,
    /// The first byte of the local side.
    pub local: u128,
    /// How many bytes it has.
    pub len: u128,
}

impl Run {
    /// Whether this run continues the other one on both sides.
    fn continues(&self, first: &Run) -> bool
        requires { EndsSoon first.now }
        ensures { result ≡ continues (piece_in first.now) (piece_in self.now) }
    {
        self.remote == first.remote + first.len && self.local == first.local + first.len
    }
}

/// The pieces of the pairs that were added so far, in order: at most 1,024.
#[derive(Drop)]
pub struct Runs {
    runs: Vec<Run>,
}

impl Model for Runs {
    ghost use Rattle.std.specs.Prelude.{List, map};
    ghost use Rattle.node_vis.specs.declared.shapes.Piece.{Piece};
    ghost use Rattle.node_vis.specs.Runs.{AreRuns, piece_in};

    ghost Value = { List Piece };

    ghost view = { λ runs. map piece_in runs.runs.items };

    ghost invariant = { λ runs. AreRuns runs.runs.items };
}

impl Runs {
    /// None.
    pub fn new(alloc: Global) -> Runs
        ensures { result ≡ [] }
    {
        Runs {
            runs: Vec::new(alloc),
        }
    }

    /// Adds the pairs of a run. It joins the last piece where it continues that, and an empty one is none.
    /// `Pieces` where it would be the 1,025th piece.
    pub fn add(&mut self, run: Run) -> Result<(), PlanFault>
        requires { EndsSoon run }
        ensures added { IfOk result (λ _. self.new ≡ with_run self.old (piece_in run)) }
        ensures full { IfErr result (IsFull (length (with_run self.old (piece_in run)))) }
    {
        if run.len == 0 {
            return Ok(());
        }
        let runs = self.runs.len();
        if runs > 0 {
            let last = self.runs[runs - 1];
            if run.continues(&last) {
                self.runs[runs - 1] = Run {
                    len: last.len + run.len,
                    ..last
                };
                return Ok(());
            }
        }
        if runs >= MOST_PIECES {
            return Err(PlanFault::Pieces);
        }
        let Ok(()) = self.runs.push(run) else {
            return Err(PlanFault::NoMemory);
        };
        Ok(())
    }

    /// Judges the pieces.
    pub fn judge(&self, alloc: Global, settings: &Settings, way: Way) -> Result<(), PlanFault>
        requires { AreFilled self.now }
        ensures { IsJudged (pieces_fault settings.now way self.now) result }
    {
        judged(alloc, settings, way, &self.runs)
    }

    /// The pieces, where they lie inside the segments.
    pub fn pieces(&self, alloc: Global, settings: &Settings) -> Result<Vec<Piece>, AllocError>
        requires { All (IsInside settings.now) self.now }
        ensures { IfOk result (λ pieces. pieces.items ≡ self.now) }
    {
        narrowed(alloc, settings, &self.runs)
    }
}

/// Whether some run ends behind the local segment.
fn some_source(settings: &Settings, runs: &[Run]) -> bool
    requires { All EndsSoon runs.now }
    ensures { result ≡ list_any (λ run. ends_behind settings.now.segment run.local run.len)
        runs.now }
{
    let segment = u128::from(settings.segment());
    for run in runs {
        if run.local + run.len > segment {
            return true;
        }
    }
    false
}

/// Whether some run ends behind the target's segment.
fn some_offset(settings: &Settings, runs: &[Run]) -> bool
    requires { All EndsSoon runs.now }
    ensures { result ≡ list_any (λ run. ends_behind settings.now.segment run.remote run.len)
        runs.now }
{
    let segment = u128::from(settings.segment());
    for run in runs {
        if run.remote + run.len > segment {
            return true;
        }
    }
    false
}

/// What is wrong with the pieces of the runs, if memory suffices to say so.
fn judged(alloc: Global, settings: &Settings, way: Way, runs: &[Run]) -> Result<(), PlanFault>
    requires ends { All EndsSoon runs.now }
    requires few { length runs.now ≤ 1024 }
    requires filled { AreFilled (map piece_in runs.now) }
    ensures { IsJudged (pieces_fault settings.now way (map piece_in runs.now)) result }
{
    if some_source(settings, runs) {
        return Err(PlanFault::Source);
    }
    if some_offset(settings, runs) {
        return Err(PlanFault::Offset);
    }
    let Ok(meets) = some_meet(alloc, way, runs) else {
        return Err(PlanFault::NoMemory);
    };
    if meets {
        return Err(PlanFault::Overlap);
    }
    Ok(())
}

/// The pieces of the runs, where these lie inside the segments.
#[tactic(auto, using(crate::proofs::Walking::map_more))]
fn narrowed(alloc: Global, settings: &Settings, runs: &[Run]) -> Result<Vec<Piece>, AllocError>
    requires { All (λ run. IsInside settings.now (piece_in run)) runs.now }
    ensures { IfOk result (λ pieces. pieces.items ≡ map piece_in runs.now) }
{
    // Reading the settings gives the proof that there is a node, and so a place for a piece.
    let _ = settings.nodes();
    let mut pieces = Vec::with_capacity(alloc, runs.len())?;
    for run in runs {
        pieces.push(Piece {
            remote: run.remote as u64,
            local: run.local as u64,
            len: run.len as u64,
        })?;
    }
    Ok(pieces)
}
