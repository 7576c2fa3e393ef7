//! What lies in a chunk, and how a node leads to another. `raw` makes and follows links, `list` has
//! the chunks, and `table` the chains.
ghost use Rattle.std.specs.Prelude.{ℕ};
ghost use base.Fml.{ftrue};

use crate::entries::Entry;
use core::slots::{Lease, Slots};
use std::alloc::Global;
use std::marker::Model;

/// The way to the place of a node, or to none where the pointer is null. It owns nothing.
///
/// Proofs have the number of the node beside the pointer, so that a link says which node it leads
/// to without a comparison of pointers.
#[derive(Drop)]
pub(crate) struct Link {
    pub(super) place: *mut Placed,
    ghost number: { ℕ },
}

impl Model for Link {
    ghost also_owns = { λ _. ftrue };

    ghost also_shares = { λ _ _ _. ftrue };
}

/// An entry in its place: its number, and the link to the next node of its bucket.
#[derive(Drop)]
pub(crate) struct Placed {
    pub(super) entry: Entry,
    pub(super) number: u64,
    pub(super) next: Link,
}

/// A block of memory: its places, where they begin, and the right to give them back.
pub(crate) struct Chunk<T> {
    pub(super) slots: Slots<T>,
    pub(super) start: *mut T,
    pub(super) lease: Lease<T, Global>,
}
