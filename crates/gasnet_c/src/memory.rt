//! The memory that C gives for a segment.

ghost use Rattle.std.specs.Prelude.{◌≡◌, ◌<◌, ◌^◌, List, ℕ, length, replicate};
ghost use Rattle.std.specs.Borrow.{full_share, Array, u8 as byte};
ghost use Rattle.std.specs.Ptr.{lies_at};

use part_segment::{Bytes, Segment};
use std::marker::Model;

/// The memory of a node's segment: `gasnet_c_memory`.
///
/// C owes that these bytes are there, and that nobody else reads or writes them from now on, but as stands at
/// `gasnet_c_new`. Whoever reserved them gets them back where the node is freed.
#[repr(C)]
#[derive(Drop)]
pub struct Memory {
    at: *mut u8,
    /// The bytes.
    pub ghost items: { List ℕ },
}

impl Model for Memory {
    ghost also_owns = { λ memory. lies_at (Array byte (length memory.items)) full_share memory.at
        memory.items };
}

impl Memory {
    /// A segment of it. Nothing is written.
    pub fn into_segment(self, len: usize) -> Segment
        requires few { len < 2 ^ 63 }
        requires zeros { self.items ≡ replicate len 0 }
        ensures { result ≡ replicate len 0 }
    {
        Segment::of(self.into_bytes(len), len)
    }

    /// Its bytes.
    fn into_bytes(self, len: usize) -> Bytes
        requires few { len < 2 ^ 63 }
        requires zeros { self.items ≡ replicate len 0 }
        ensures { result.items ≡ replicate len 0 }
    {
        let Memory { at } = self;
        unsafe { Bytes::given(at, len) }
    }
}
