//! Bytes in one raw allocation.

ghost use Rattle.std.specs.Prelude.{List, ℕ};
ghost use denote.RawPtr.{Ptr};
ghost use Rattle.part_segment.specs.Ownership.{bytes_own, bytes_shared, bytes_type};

use std::alloc::Allocator;
use std::marker::{Model, PhantomData, Send};
use std::slice::{from_raw_parts, from_raw_parts_mut};

/// The bytes `items`, which lie in one raw allocation at `at`. Whoever has them knows how many they are.
#[derive(Drop)]
pub struct Bytes {
    at: *mut u8,
    pub ghost items: { List ℕ },
}

impl Model for Bytes {
    ghost also_owns = { λ b. bytes_own b.at b.items };

    ghost also_shares = { λ b _ κ. bytes_shared b.at b.items κ };
}

// The right to give the allocation of `len` bytes at `at` back to `alloc`. It has no drop, so that it isn't lost.
pub(crate) struct Lease<A: Allocator> {
    marker: PhantomData<A>,
    pub ghost alloc: { A },
    pub ghost at: { Ptr },
    pub ghost len: { ℕ },
}

impl<A: Allocator> Model for Lease<A> {
    ghost also_owns = { λ l. A.dealloc_token l.alloc (bytes_type l.len) l.at };
}

// Both may go to another thread: nobody else has these bytes, and the allocator may take its block back there.
unsafe impl Send for Bytes {}

unsafe impl<A: Allocator + Send> Send for Lease<A> {}

impl Bytes {
    ghost use Rattle.std.specs.Prelude.{◌≡◌, ◌<◌, ◌^◌, length, replicate, IfSome};
    ghost use Rattle.std.specs.Borrow.{sem, full_share, Array, u8 as byte};
    ghost use Rattle.std.specs.Ptr.{lies_at};
    ghost use Rattle.part_segment.specs.Bytes.{IsInside, part};
    ghost use Rattle.part_segment.specs.RawLending.{LendsRun};

    // `len` zeros, and the right to give them back; none for want of memory.
    pub(crate) fn zeroed<A: Allocator>(alloc: &A, len: usize) -> Option<(Bytes, Lease<A>)>
        requires { len < 2 ^ 63 }
        ensures { IfSome result (λ made. (made.0.items ≡ replicate len 0)
            × (made.1.alloc ≡ alloc.now) × (made.1.at ≡ made.0.at) × (made.1.len ≡ len)) }
    {
        match alloc.allocate(len, 1) {
            Ok(at) => {
                unsafe {
                    clear(at, len);
                }
                let marker = PhantomData;
                Some((Bytes { at }, Lease { marker }))
            }
            Err(_) => None,
        }
    }

    /// The `len` zeros that lie at `at`. None of them is written here, so fresh pages of the system cost what is touched.
    ///
    /// From now on nobody else reads or writes them, until what has them is dropped. Then they are again those of
    /// whoever reserved them.
    pub unsafe fn given(at: *mut u8, len: usize) -> Bytes
        requires few { len < 2 ^ 63 }
        requires* zeros { sem 𝓛 (lies_at (Array byte len) full_share at (replicate len 0)) }
        ensures { result.items ≡ replicate len 0 }
    {
        Bytes { at }
    }

    // Gives the allocation back.
    pub(crate) fn free<A: Allocator>(self, len: usize, lease: Lease<A>, alloc: &A)
        requires { (lease.alloc ≡ alloc.now) × (lease.at ≡ self.at) × (lease.len ≡ len)
            × (len ≡ length self.items) }
    {
        let Bytes { at } = self;
        let Lease { marker: _ } = lease;
        unsafe { alloc.deallocate(at, len, 1) }
    }

    // All of them.
    pub(crate) fn all(&self, len: usize) -> &[u8]
        requires { len ≡ length self.now.items }
        ensures { result.now ≡ self.now.items }
    {
        unsafe { from_raw_parts(self.at, len) }
    }

    // The `len` bytes from `offset` on, to be written.
    pub(crate) fn run_mut(&mut self, offset: usize, len: usize) -> &mut [u8]
        requires { IsInside self.old.items offset len }
        ensures* writes_back { sem 𝓛 (LendsRun self.entry offset len result) }
        ensures value { result.now ≡ part self.old.items offset len }
    {
        unsafe { from_raw_parts_mut(self.at.add(offset), len) }
    }
}

ghost use Rattle.std.specs.Prelude.{replicate};
ghost use Rattle.std.specs.Borrow.{sem, full_share, Array, u8 as byte};
ghost use Rattle.std.specs.Ptr.{lies_at, room_at};

// Writes `len` zeros from `at` on.
unsafe fn clear(at: *mut u8, len: usize)
    requires* { sem 𝓛 (room_at (Array byte len) at) }
    ensures* { sem 𝓛 (lies_at (Array byte len) full_share at (replicate len 0)) }
{
    let mut i = 0;
    while i < len {
        *at.add(i) = 0;
        i += 1;
    }
}
