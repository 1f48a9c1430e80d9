//! A box taken apart, so that a static library can hand its place to C and take it back.
//!
//! What is proved: `RawBox::of` takes a box apart, and `RawBox::into_box` makes it again, with the same value. Neither
//! costs anything when it runs.
#![tactic(auto)]

ghost use Rattle.std.specs.Prelude.{◌≡◌};
ghost use Rattle.std.specs.Box.{box_allocator};
ghost use Rattle.std.specs.Box.Ownership.{box_owns};

use std::alloc::Allocator;
use std::marker::{Model, PhantomData};

/// The place of a boxed value, and the right to give its block back to the allocator.
///
/// It has no drop: what isn't made a box again keeps its block for ever.
pub struct RawBox<T, A: Allocator> {
    /// Where the value lies.
    pub at: *mut T,
    /// It names the allocator's type.
    pub marker: PhantomData<A>,
    /// The allocator that takes the block back.
    pub ghost alloc: { A },
    /// The value.
    pub ghost value: { T },
}

impl<T, A: Allocator> Model for RawBox<T, A> {
    ghost also_owns = { λ raw. box_owns (A.dealloc_token raw.alloc) T.row raw.at raw.value };
}

impl<T: Drop, A: Allocator> RawBox<T, A> {
    /// Takes a box apart. The allocator's handle is forgotten.
    pub fn of(whole: Box<T, A>) -> RawBox<T, A>
        ensures value { result.value ≡ whole.value }
        ensures alloc { result.alloc ≡ box_allocator whole }
    {
        let at = Box::into_raw(whole);
        RawBox {
            at,
            marker: PhantomData,
        }
    }

    /// Makes the box again, with the handle of the allocator that it had.
    pub fn into_box(self, alloc: A) -> Box<T, A>
        requires { alloc ≡ self.alloc }
        ensures { result.value ≡ self.value }
    {
        let RawBox { at, marker: _ } = self;
        unsafe { Box::from_raw(alloc, at) }
    }
}
