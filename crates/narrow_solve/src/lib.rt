//! The first bytes of a group of one place or two, and the values that each of its bytes may take,
//! found by trying values: at most 65,536 pairs. Nothing here takes memory: values are tried in
//! the caller's bytes.
#![tactic(auto)]

mod lanes;
mod one_place;
mod pairs;
mod table;
mod trial;

ghost use Rattle.std.specs.Prelude.{◌≡◌, ◌<◌, ℕ, List, length, map, take, slice_index, All};
ghost use Rattle.term_model.specs.Words.{AreBytes};
ghost use Rattle.term_model.specs.Conditions.{Hold};
ghost use Rattle.term_arena.specs.Trees.{trees_of};
ghost use Rattle.byte_sets.specs.ByteSet.{has};
ghost use Rattle.group_model.specs.Group.{HasAt, IsGroupFirst};
ghost use Rattle.narrow_solve.specs.Narrow.{IsNarrow, AreNarrowSets};

use byte_sets::ByteSet;
use group_model::Group;
use one_place::{first_at, values_at};
use pairs::{first_pair, values_beside};
use term_arena::{Arena, Scratch, Term};

/// The first bytes for the places of a group, given as slices.
fn first_for(
    arena: &Arena,
    places: &[u32],
    conditions: &[Term],
    mask: &[u8],
    trial: &mut [u8],
    scratch: &mut Scratch,
) -> [u8; 2]
    requires narrow { IsNarrow arena.now places.now conditions.now (length trial.old) scratch.old }
    requires masked { All (λ i. i < length mask.now) places.now }
    requires possible { (y : List ℕ) × AreBytes y × Hold (trees_of arena.now conditions.now) y }
    ensures first { IsGroupFirst mask.now places.now (trees_of arena.now conditions.now) (take (length places.now) result) }
    ensures alone { length places.now ≡ 1 → slice_index result 1 ≡ 0 }
    ensures keeps { scratch.new ≡ scratch.old }
{
    let low = places[0] as usize;
    if places.len() == 1 {
        return match first_at(arena, conditions, low, mask[low], trial, scratch) {
            Some(value) => [value, 0],
            None => unreachable!(),
        };
    }
    let high = places[1] as usize;
    match first_pair(arena, conditions, low, high, mask, trial, scratch) {
        Some((first, second)) => [first, second],
        None => unreachable!(),
    }
}

/// The group's first bytes under a mask: those that meet its conditions and come before all others
/// that do. The second is 0 for a group of one place. The group has one place or two, and some
/// bytes meet its conditions. The trial bytes and the scratch are working space; what the trial
/// bytes are afterwards is not told.
pub fn first_narrow(
    arena: &Arena,
    group: &Group,
    mask: &[u8],
    trial: &mut [u8],
    scratch: &mut Scratch,
) -> [u8; 2]
    requires narrow { IsNarrow arena.now group.now.places group.now.conditions (length trial.old) scratch.old }
    requires masked { All (λ i. i < length mask.now) group.now.places }
    requires possible { (y : List ℕ) × AreBytes y × Hold (trees_of arena.now group.now.conditions) y }
    ensures first { IsGroupFirst mask.now group.now.places (trees_of arena.now group.now.conditions) (take (length group.now.places) result) }
    ensures alone { length group.now.places ≡ 1 → slice_index result 1 ≡ 0 }
    ensures keeps { scratch.new ≡ scratch.old }
{
    first_for(
        arena,
        group.places.as_slice(),
        group.conditions.as_slice(),
        mask,
        trial,
        scratch,
    )
}

/// The sets for the places of a group, given as slices.
fn sets_for(
    arena: &Arena,
    places: &[u32],
    conditions: &[Term],
    first: [u8; 2],
    trial: &mut [u8],
    scratch: &mut Scratch,
) -> [ByteSet; 2]
    requires narrow { IsNarrow arena.now places.now conditions.now (length trial.old) scratch.old }
    requires meets { (y : List ℕ) × HasAt places.now first y × Hold (trees_of arena.now conditions.now) y }
    ensures sets { AreNarrowSets (trees_of arena.now conditions.now) places.now first (map has result) }
    ensures keeps { scratch.new ≡ scratch.old }
{
    let low = places[0] as usize;
    if places.len() == 1 {
        let values = values_at(arena, conditions, low, first[0], trial, scratch);
        return [values, ByteSet::full()];
    }
    let high = places[1] as usize;
    trial[low] = first[0];
    trial[high] = first[1];
    let lower = values_at(arena, conditions, low, first[0], trial, scratch);
    let higher = values_beside(
        arena, conditions, &lower, low, high, first[1], trial, scratch,
    );
    [lower, higher]
}

/// The values that each byte of the group may take. Of one place these are the values that meet the
/// conditions, and the second set is full. Of two places, the lower place's are the values that
/// meet them with the group's first byte at the higher place, and the higher place's are those that
/// meet them with every value of the lower place's set. `first` are the group's first bytes, or any
/// others that meet its conditions. The trial bytes and the scratch are working space; what the
/// trial bytes are afterwards is not told.
pub fn narrow_sets(
    arena: &Arena,
    group: &Group,
    first: [u8; 2],
    trial: &mut [u8],
    scratch: &mut Scratch,
) -> [ByteSet; 2]
    requires narrow { IsNarrow arena.now group.now.places group.now.conditions (length trial.old) scratch.old }
    requires meets { (y : List ℕ) × HasAt group.now.places first y × Hold (trees_of arena.now group.now.conditions) y }
    ensures sets { AreNarrowSets (trees_of arena.now group.now.conditions) group.now.places first (map has result) }
    ensures keeps { scratch.new ≡ scratch.old }
{
    sets_for(
        arena,
        group.places.as_slice(),
        group.conditions.as_slice(),
        first,
        trial,
        scratch,
    )
}
