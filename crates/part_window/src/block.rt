//! Parts of one size in one allocation.

ghost use Rattle.std.specs.Prelude.{◌≡◌, ◌<◌, ◌≤◌, length, slice_get, Some, IfOk, IsOk};
ghost use Rattle.std.proofs.Math.ListN.{replicate};
ghost use Rattle.std.specs.Borrow.{sem, Lends, Array, u8 as byte};

use arrayvec::ArrayVec;
use std::alloc::{AllocError, Global};
use std::marker::Model;

/// The bytes of a part: as many as the longest datagram has.
pub const PART_BYTES: usize = 8296;

/// The most parts of a block.
pub const MAX_PARTS: usize = 65_536;

static ZEROS: [u8; PART_BYTES] = [0; PART_BYTES];

// A part, and the bytes up to the next one: 8,320 bytes together. An `ArrayVec` keeps its length
// while it is lent.
#[derive(Drop)]
struct Part {
    bytes: ArrayVec<u8, PART_BYTES>,
    gap: [u64; 2],
}

impl Model for Part {
    ghost use Rattle.std.specs.Prelude.{List, ℕ, ◌≡◌, length};
    ghost use Rattle.part_window.specs.declared.block.TheConstants.{PART_BYTES};

    ghost Value = { List ℕ };

    ghost view = { λ p. p.bytes.items };

    ghost invariant = { λ p. length p.bytes.items ≡ PART_BYTES };
}

impl Part {
    ghost use Rattle.part_window.specs.BlockLending.{part_row};
    ghost use Rattle.std.specs.List.{refill};

    fn zeros() -> Part
        ensures { result ≡ replicate PART_BYTES 0 }
    {
        Part {
            bytes: ArrayVec::from([0; PART_BYTES]),
            gap: [0; 2],
        }
    }

    fn bytes(&self) -> &[u8]
        ensures value { result.now ≡ self.now }
        ensures len { length result.now ≡ PART_BYTES }
    {
        self.bytes.as_slice()
    }

    fn bytes_mut(&mut self) -> &mut [u8]
        ensures* writes_back { sem 𝓛 (Lends part_row (Array byte 0) self.entry result
            (refill PART_BYTES self.old)) }
        ensures value { result.now ≡ self.old }
        ensures len { length result.now ≡ PART_BYTES }
    {
        self.bytes.as_mut_slice()
    }
}

/// Parts of `PART_BYTES` bytes in one allocation, all zero at first. Its value is the list of the parts,
/// each a list of bytes.
///
/// The memory is reserved and not touched: a part gets its place, and is cleared, when it is first lent to be written.
#[derive(Drop)]
pub struct Block {
    // For each part its place in `filled`, once it has one.
    places: Vec<Option<u16>>,
    filled: Vec<Part>,
}

impl Model for Block {
    ghost use Rattle.std.specs.Prelude.{List, ℕ};
    ghost use Rattle.part_window.specs.Blocks.{parts_of, IsPlaced};
    ghost use Rattle.std.specs.Prelude.{vec_len, vec_capacity};

    ghost Value = { List (List ℕ) };

    ghost view = { λ b. parts_of b.filled.items b.places.items };

    ghost invariant = { λ b. IsPlaced (vec_len b.filled) (vec_capacity b.filled) b.places.items };
}

impl Block {
    ghost use Rattle.part_window.specs.Blocks.{with_part};
    ghost use Rattle.part_window.specs.BlockLending.{block_row};

    /// `parts` parts of zeros, of which no later call takes memory. No parts take none. At most 65,536 parts.
    ///
    /// # Errors
    ///
    /// Where the memory cannot be reserved; never for no parts.
    pub fn new(alloc: Global, parts: usize) -> Result<Block, AllocError>
        requires { parts ≤ MAX_PARTS }
        ensures zeros { IfOk result (λ block. block ≡ replicate parts (replicate PART_BYTES 0)) }
        ensures no_parts { parts ≡ 0 → IsOk result }
    {
        if parts == 0 {
            return Ok(Block {
                places: Vec::new(alloc),
                filled: Vec::new(alloc),
            });
        }
        let places = vec![in alloc; None; parts]?;
        let filled = Vec::with_capacity(alloc, parts)?;
        Ok(Block { places, filled })
    }

    /// How many parts there are.
    pub fn parts(&self) -> usize
        ensures { result ≡ length self.now }
    {
        self.places.len()
    }

    /// The bytes of the part `index`, counted from 0.
    pub fn part(&self, index: usize) -> &[u8]
        requires { index < length self.now }
        ensures value { slice_get self.now index ≡ Some result.now }
        ensures len { length result.now ≡ PART_BYTES }
    {
        match self.places[index] {
            None => &ZEROS,
            Some(place) => self.filled[place as usize].bytes(),
        }
    }

    /// The bytes of the part `index`, counted from 0, to be written. No other part changes.
    pub fn part_mut(&mut self, index: usize) -> &mut [u8]
        requires { index < length self.old }
        ensures* writes_back { sem 𝓛 (Lends block_row (Array byte 0) self.entry result
            (with_part self.old index)) }
        ensures value { slice_get self.old index ≡ Some result.now }
        ensures len { length result.now ≡ PART_BYTES }
    {
        let place = fill(&mut self.places, &mut self.filled, index);
        self.filled[place as usize].bytes_mut()
    }
}

ghost use Rattle.std.specs.Prelude.{vec_len, vec_capacity};
ghost use Rattle.part_window.specs.Blocks.{parts_of, IsPlaced};

// The place of the part `index`, which it gets where it has none.
fn fill(places: &mut Vec<Option<u16>>, filled: &mut Vec<Part>, index: usize) -> u16
    requires in_range { index < length places.old.items }
    requires placed { IsPlaced (vec_len filled.old) (vec_capacity filled.old) places.old.items }
    ensures same { parts_of filled.new.items places.new.items
        ≡ parts_of filled.old.items places.old.items }
    ensures placed { IsPlaced (vec_len filled.new) (vec_capacity filled.new) places.new.items }
    ensures here { slice_get places.new.items index ≡ Some (Some result) }
{
    if let Some(place) = places[index] {
        return place;
    }
    let place = filled.len() as u16;
    filled.push_reserved(Part::zeros());
    places[index] = Some(place);
    place
}
