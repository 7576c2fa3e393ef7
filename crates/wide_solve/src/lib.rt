//! The first bytes of a group whose conditions are tied together, and the values that each of its
//! bytes may take: the conditions as gates and clauses, and a search for their first model.
//!
//! A [`WideGroup`] has the gates of one group, for both.
#![tactic(auto)]

ghost use Rattle.std.specs.Prelude.{◌≡◌, ◌≢◌, ◌*◌, ◌^◌, ◌<◌, ◌≤◌, ℕ, List, length, slice_index, slice_index_or, All, IfOk, Err};
ghost use Rattle.term_model.specs.Conditions.{Hold};
ghost use Rattle.term_model.specs.Words.{AreBytes};
ghost use Rattle.term_arena.specs.Trees.{trees_of};
ghost use Rattle.group_model.specs.Group.{IsGroup, HasAt, IsGroupFirst};
ghost use Rattle.byte_sets.specs.ByteSet.{has};
ghost use Rattle.byte_sets.specs.declared.ByteSet.{ByteSet};
ghost use Rattle.wide_laws.specs.Roots.{conflicts_of, wide_values};
ghost use Rattle.wide_solve.specs.declared.error.WideError.TheVariants.{Spent};

mod bytes;
mod error;
mod fixed;
mod gates;
mod group;
mod order;
mod search;
mod sets;
mod values;

use byte_sets::Sets;
pub use bytes::Bytes;
pub use error::{Wide, WideError};
pub use group::WideGroup;
use group_model::Group;
use no_memory::NoMemory;
use std::alloc::Global;
use term_arena::Arena;

/// The group's first bytes under a mask: those that meet its conditions and come before all others
/// that do. Some bytes have to meet them. `Spent` comes where the search counts `budget` conflicts,
/// which it never does of a budget of as many as the places have choices of bytes.
pub fn first_wide(
    alloc: Global,
    arena: &Arena,
    group: &Group,
    mask: &[u8],
    budget: u32,
) -> Result<Wide, WideError>
    requires group { IsGroup arena.now group.now.places group.now.conditions }
    requires some { 0 < length group.now.places }
    requires possible { (y : List ℕ) × AreBytes y × Hold (trees_of arena.now group.now.conditions) y }
    requires masked { All (λ i. i < length mask.now) group.now.places }
    requires budget { 0 < budget }
    ensures first { IfOk result (λ wide. IsGroupFirst mask.now group.now.places (trees_of arena.now group.now.conditions) wide.bytes) }
    ensures count { IfOk result (λ wide. wide.conflicts ≡ conflicts_of mask.now (trees_of arena.now group.now.conditions) group.now.places) }
    ensures below { IfOk result (λ wide. wide.conflicts < budget) }
    ensures spent { (first width : ℕ) → result ≡ Err (Spent first width) →
        (budget ≤ conflicts_of mask.now (trees_of arena.now group.now.conditions) group.now.places)
        × (first ≡ slice_index group.now.places 0) × (width ≡ length group.now.places) }
    ensures enough { 2 ^ (8 * length group.now.places) ≤ budget → (first width : ℕ) → result ≢ Err (Spent first width) }
{
    let wide = WideGroup::new(alloc, arena, group)?;
    wide.first(alloc, mask, budget)
}

/// The values that each byte of the group may take, in the order of its places. `first` has a byte
/// for each place, and these meet the group's conditions.
pub fn wide_sets(
    alloc: Global,
    arena: &Arena,
    group: &Group,
    first: &[u8],
) -> Result<Sets, NoMemory>
    requires group { IsGroup arena.now group.now.places group.now.conditions }
    requires some { 0 < length group.now.places }
    requires long { length first.now ≡ length group.now.places }
    requires meets { (y : List ℕ) × AreBytes y × HasAt group.now.places first.now y × Hold (trees_of arena.now group.now.conditions) y }
    ensures count { IfOk result (λ sets. length sets ≡ length group.now.places) }
    ensures sets { IfOk result (λ sets. (y : List ℕ) → HasAt group.now.places first.now y →
        (k : ℕ) (d : ByteSet) → k < length group.now.places →
        has (slice_index_or sets k d)
        ≡ wide_values (trees_of arena.now group.now.conditions) y group.now.places (slice_index group.now.places k)) }
{
    let wide = WideGroup::new(alloc, arena, group)?;
    wide.sets(alloc, first)
}
