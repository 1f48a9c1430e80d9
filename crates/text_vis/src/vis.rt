//! Lines that begin transfers of many pieces, as values.

ghost use Rattle.std.specs.Prelude.{◌≡◌, ◌≤◌, length};

use node_vis::{Level, Plan, Way};
use std::marker::Model;

/// The levels of a strided transfer, at most 4.
#[derive(Drop)]
pub struct Levels {
    pub(crate) items: Vec<Level>,
}

impl Model for Levels {
    ghost use Rattle.std.specs.Prelude.{◌≤◌, List, length};
    ghost use Rattle.node_vis.specs.declared.shapes.Level.{Level};

    ghost Value = { List Level };

    ghost view = { λ l. l.items.items };

    ghost invariant = { λ l. length l.items.items ≤ 4 };
}

/// Ranges of a segment, at most 16, and at least one where the job was read: the first byte of each, and its length.
#[derive(Drop)]
pub struct SegmentRanges {
    pub(crate) items: Vec<(u64, u64)>,
}

impl Model for SegmentRanges {
    ghost use Rattle.std.specs.Prelude.{◌≤◌, ℕ, List, length};

    ghost Value = { List (ℕ × ℕ) };

    ghost view = { λ r. r.items.items };

    ghost invariant = { λ r. length r.items.items ≤ 16 };
}

/// Which bytes a transfer of many pieces moves, as a line says it; offsets and lengths are in bytes.
#[derive(Drop)]
pub enum VisShape {
    /// `len` bytes for each vector of indexes below the counts of the levels.
    Strided {
        remote: u64,
        local: u64,
        len: u64,
        levels: Levels,
    },
    /// The bytes of ranges there with those of ranges here.
    Indexed {
        remote: SegmentRanges,
        local: SegmentRanges,
    },
}

/// The words of a line that begins a transfer of many pieces.
#[derive(Drop)]
pub struct VisWords {
    /// The register of its handle.
    pub register: u8,
    /// The piece to begin from, at most as many as the plan has where the job was read.
    pub from: u16,
    /// Which way the bytes go.
    pub way: Way,
    /// The other node.
    pub to: u16,
    /// Which bytes.
    pub shape: VisShape,
}

/// A transfer of many pieces: what the line says, and the plan that was made of it for the job's settings.
#[derive(Drop)]
pub struct VisText {
    /// What the line says.
    pub words: VisWords,
    /// The plan of these words.
    pub plan: Plan,
}

/// A transfer of many pieces in an allocation of its own, so that a line of a schedule stays small.
#[derive(Drop)]
pub struct BoxedVis {
    pub(crate) inside: Box<VisText>,
}

impl Model for BoxedVis {
    ghost use Rattle.std.specs.Box.{box_value};
    ghost use Rattle.text_vis.specs.declared.vis.VisText.{VisText};

    ghost Value = { VisText };

    ghost view = { λ v. box_value v.inside };
}

impl Levels {
    /// The levels, at most 4.
    pub fn items(&self) -> &[Level]
        ensures items { result.now ≡ self.now }
        ensures few { length result.now ≤ 4 }
    {
        &self.items
    }
}

impl SegmentRanges {
    /// The ranges, at most 16.
    pub fn items(&self) -> &[(u64, u64)]
        ensures items { result.now ≡ self.now }
        ensures few { length result.now ≤ 16 }
    {
        &self.items
    }
}

impl BoxedVis {
    /// The transfer.
    pub fn text(&self) -> &VisText
        ensures { result.now ≡ self.now }
    {
        &self.inside
    }
}
