//! Plans.

ghost use Rattle.std.specs.Prelude.{Some, ◌≡◌, ◌≤◌, ◌<◌, IfOk, length, slice_get};
ghost use Rattle.node_vis.specs.Pairs.{strided_pairs, indexed_pairs};
ghost use Rattle.node_vis.specs.Pieces.{IsCut, pairs_of_pieces};
ghost use Rattle.node_vis.specs.Faults.{strided_fault, indexed_fault};
ghost use Rattle.node_vis.specs.Plans.{IsPlanned, strided_plan, indexed_plan};
ghost use Rattle.node_vis.specs.Beginning.{transfer_of};
ghost use Rattle.node_vis.specs.Runs.{pieces_fault};
ghost use Rattle.node_vis.specs.declared.shapes.Piece.{Piece as APiece};

use crate::levels::{few_vectors, strided_runs};
use crate::ranges::{indexed_runs, total};
use crate::runs::{Run, Runs};
use crate::shapes::{Indexed, Piece, PlanFault, Strided, Way};
use part_transfers::Transfer;
use std::alloc::Global;
use std::marker::Model;
use wire_message::Settings;

/// The pieces of a transfer that may be begun in a job of its settings: at most 1,024, each inside both segments.
/// None is empty, and no byte is written twice.
#[derive(Drop)]
pub struct Plan {
    settings: Settings,
    way: Way,
    to: u16,
    pieces: Vec<Piece>,
}

impl Model for Plan {
    ghost use Rattle.node_vis.specs.Plans.{PlanState, IsPlan};

    ghost Value = { PlanState };

    ghost view = { λ plan. record {
      settings = plan.settings;
      way = plan.way;
      to = plan.to;
      pieces = plan.pieces.items;
    } };

    ghost invariant = { λ plan. IsPlan (record {
      settings = plan.settings;
      way = plan.way;
      to = plan.to;
      pieces = plan.pieces.items;
    }) };
}

impl Plan {
    /// The plan of a strided transfer, in a job of these settings.
    ///
    /// # Errors
    ///
    /// The first reason of `PlanFault` that applies; `NoMemory` may come in place of any.
    pub fn strided(
        alloc: Global,
        settings: &Settings,
        transfer: &Strided<'_>,
    ) -> Result<Plan, PlanFault>
        ensures answer { IsPlanned (strided_fault settings.now transfer.now)
            (strided_plan settings.now transfer.now) result }
        ensures cut { IfOk result (λ plan. IsCut plan.pieces (strided_pairs transfer.now)) }
    {
        if transfer.to >= settings.nodes() {
            return Err(PlanFault::Node);
        }
        if transfer.levels.len() > 4 {
            return Err(PlanFault::Shape);
        }
        let Some(vectors) = few_vectors(transfer.levels) else {
            return Err(PlanFault::Pieces);
        };
        let first = Run {
            remote: u128::from(transfer.remote),
            local: u128::from(transfer.local),
            len: u128::from(transfer.len),
        };
        let runs = strided_runs(alloc, transfer.levels, vectors, first)?;
        planned(alloc, settings, transfer.way, transfer.to, &runs)
    }

    /// The plan of an indexed transfer, in a job of these settings.
    ///
    /// # Errors
    ///
    /// The first reason of `PlanFault` that applies; `NoMemory` may come in place of any.
    pub fn indexed(
        alloc: Global,
        settings: &Settings,
        transfer: &Indexed<'_>,
    ) -> Result<Plan, PlanFault>
        ensures answer { IsPlanned (indexed_fault settings.now transfer.now)
            (indexed_plan settings.now transfer.now) result }
        ensures cut { IfOk result (λ plan. IsCut plan.pieces (indexed_pairs transfer.now)) }
    {
        if transfer.to >= settings.nodes() {
            return Err(PlanFault::Node);
        }
        if transfer.remote.len() > 256 || transfer.local.len() > 256 {
            return Err(PlanFault::Shape);
        }
        if total(transfer.remote) != total(transfer.local) {
            return Err(PlanFault::Length);
        }
        let runs = indexed_runs(alloc, transfer.remote, transfer.local)?;
        planned(alloc, settings, transfer.way, transfer.to, &runs)
    }

    /// The transfer that a piece is.
    pub(crate) fn transfer(&self, place: usize) -> Transfer
        requires { place < length self.now.pieces }
        ensures { (piece : APiece) → slice_get self.now.pieces place ≡ Some piece
            → result ≡ transfer_of self.now piece }
    {
        let Piece { remote, local, len } = self.pieces[place];
        let to = self.to;
        match self.way {
            Way::Put => Transfer::Put {
                to,
                remote,
                local,
                len,
            },
            Way::Get => Transfer::Get {
                to,
                remote,
                local,
                len,
            },
        }
    }

    /// How many pieces it has.
    pub fn pieces(&self) -> usize
        ensures { result ≡ length self.now.pieces }
    {
        self.pieces.len()
    }

    /// Piece `x`, counted from 0. `None` exactly where `x` isn't below `pieces`.
    pub fn piece(&self, x: usize) -> Option<Piece>
        ensures { result ≡ slice_get self.now.pieces x }
    {
        self.pieces.get(x).copied()
    }
}

/// The plan of these pieces, or what is wrong with them.
fn planned(
    alloc: Global,
    settings: &Settings,
    way: Way,
    to: u16,
    runs: &Runs,
) -> Result<Plan, PlanFault>
    requires there { to < settings.now.nodes }
    requires pieces { IsCut runs.now (pairs_of_pieces runs.now) }
    ensures { IsPlanned (pieces_fault settings.now way runs.now) (record {
      settings = settings.now;
      way = way;
      to = to;
      pieces = runs.now;
    }) result }
{
    runs.judge(alloc, settings, way)?;
    let Ok(pieces) = runs.pieces(alloc, settings) else {
        return Err(PlanFault::NoMemory);
    };
    Ok(Plan {
        settings: *settings,
        way,
        to,
        pieces,
    })
}
