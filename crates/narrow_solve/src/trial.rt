//! Values tried at one place of the trial bytes, one after the other.

ghost use Rattle.std.specs.Prelude.{◌≡◌, ◌<◌, ◌≤◌, ℕ, length, slice_set, All, IsTrue, MatchOption};
ghost use Rattle.term_model.specs.Places.{ReadsBelow};
ghost use Rattle.term_model.specs.Conditions.{holds};
ghost use Rattle.term_arena.specs.Trees.{tree_of, trees_of};
ghost use Rattle.input_laws.specs.Sets.{freed};
ghost use Rattle.byte_sets.specs.ByteSet.{has};
ghost use Rattle.narrow_solve.specs.Tried.{NoneAt, IsFirstAt};

use byte_sets::ByteSet;
use model_check::check_model;
use term_arena::{Arena, Scratch, Term};

/// The first value, in the order of its xor with `mask`, with which at `place` the conditions hold
/// of the trial bytes. These change at `place` alone.
pub(crate) fn first_tried(
    arena: &Arena,
    conditions: &[Term],
    place: usize,
    mask: u8,
    trial: &mut [u8],
    scratch: &mut Scratch,
) -> Option<u8>
    requires belong { All (λ t. t < length arena.now) conditions.now }
    requires room { length arena.now ≤ scratch.old }
    requires reads { All (λ t. ReadsBelow (length trial.old) (tree_of arena.now t)) conditions.now }
    requires within { place < length trial.old }
    ensures first { MatchOption result (NoneAt (holds (trees_of arena.now conditions.now)) trial.old place)
        (IsFirstAt (holds (trees_of arena.now conditions.now)) mask trial.old place) }
    ensures aside { (v : ℕ) → slice_set trial.new place v ≡ slice_set trial.old place v }
    ensures keeps { scratch.new ≡ scratch.old }
{
    for turn in 0..256u16 {
        let value = turn as u8 ^ mask;
        trial[place] = value;
        if check_model(arena, conditions, trial, scratch) {
            return Some(value);
        }
    }
    None
}

/// The values with which at `place` the conditions hold of the trial bytes, where `known` is one of
/// them. The trial bytes change at `place` alone.
pub(crate) fn values_tried(
    arena: &Arena,
    conditions: &[Term],
    place: usize,
    known: u8,
    trial: &mut [u8],
    scratch: &mut Scratch,
) -> ByteSet
    requires belong { All (λ t. t < length arena.now) conditions.now }
    requires room { length arena.now ≤ scratch.old }
    requires reads { All (λ t. ReadsBelow (length trial.old) (tree_of arena.now t)) conditions.now }
    requires within { place < length trial.old }
    requires passes { IsTrue (holds (trees_of arena.now conditions.now) (slice_set trial.old place known)) }
    ensures values { has result ≡ freed (holds (trees_of arena.now conditions.now)) trial.old place }
    ensures aside { (v : ℕ) → slice_set trial.new place v ≡ slice_set trial.old place v }
    ensures keeps { scratch.new ≡ scratch.old }
{
    let mut values = ByteSet::one(known);
    for turn in 0..256u16 {
        let value = turn as u8;
        trial[place] = value;
        if check_model(arena, conditions, trial, scratch) {
            values.insert(value);
        }
    }
    values
}
