//! The functions that make, test or follow a raw pointer. None makes a number of one, and none
//! compares one with another. Their callers, `list` and `table`, have no `unsafe` code but the
//! taking of a chunk.
ghost use Rattle.std.specs.Prelude.{◌≡◌, ◌*◌, ◌^◌, ◌<◌, zero, None, Some, MatchBool};
ghost use Rattle.std.specs.Mem.{type_size};
ghost use Rattle.core.specs.Mem.Slots.{slots_ptr, lease_ptr, SamePlaces};
ghost use Rattle.term_arena.specs.Links.{target, Leads, IsReached};
ghost use denote.RawPtr.{InBlock, Testable, count_of, ◌+ₚ◌};

use super::PLACES;
use super::link::{Chunk, Link, Placed};
use core::slots::{Lease, Slots};
use std::alloc::Global;
use std::ptr;

/// The row, and where its first place is.
pub(super) fn start_of<T>(slots: Slots<T>) -> (Slots<T>, *mut T)
    ensures { SamePlaces slots result.0 × (result.1 ≡ slots_ptr slots) × InBlock result.1 }
{
    unsafe {
        let (start, len) = slots.into_raw_parts();
        (Slots::from_raw_parts(start, len), start)
    }
}

/// The right to give a block back, which shows that the block's first place is the first of what
/// was allocated: so its pointers may be compared with null.
pub(super) fn at_block_start<T>(lease: Lease<T, Global>) -> Lease<T, Global>
    ensures { (result ≡ lease) × (count_of (lease_ptr lease) ≡ zero) }
{
    lease
}

/// The link to a place of the chunk that begins at `start`. The place is that of a number.
pub(super) fn link_to<T>(start: *mut T, index: usize, _number: u64) -> Link
    requires { InBlock start × (index < PLACES) × (PLACES * type_size T.row < 2 ^ 63) }
    ensures { (result.place ≡ start +ₚ index * type_size T.row) × (result.number ≡ _number) }
{
    let place = unsafe { start.add(index) };
    Link {
        place: place as *mut Placed,
    }
}

/// The link to no node.
pub(super) fn no_link() -> Link
    ensures { target result ≡ None }
{
    Link {
        place: ptr::null_mut(),
    }
}

/// Whether the link leads to no node.
pub(super) fn is_end(link: &Link) -> bool
    requires { Testable link.now.place }
    ensures { MatchBool result (target link.now ≡ None) (target link.now ≡ Some link.now) }
{
    link.place.is_null()
}

/// The value that a link leads to.
pub(super) fn follow<'a, T>(_chunks: &'a [Chunk<T>], link: &'a Link) -> &'a T
    requires { Leads T.row _chunks.now link.now }
    ensures { IsReached _chunks.now link.now result.now }
{
    let place = link.place as *mut T;
    unsafe { &*place }
}
