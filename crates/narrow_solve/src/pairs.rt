//! Values tried at two places of the trial bytes.

ghost use Rattle.std.specs.Prelude.{◌≡◌, ◌<◌, ◌≤◌, ℕ, filter, length, slice_index, slice_set, All, IsTrue, MatchOption, IfSome};
ghost use Rattle.std.specs.List.{list_all};
ghost use Rattle.term_model.specs.Places.{ReadsBelow};
ghost use Rattle.term_model.specs.Conditions.{holds};
ghost use Rattle.term_arena.specs.Trees.{tree_of, trees_of};
ghost use Rattle.input_laws.specs.Inputs.{bytes};
ghost use Rattle.input_laws.specs.Narrow.{freed_beside};
ghost use Rattle.byte_sets.specs.ByteSet.{has};
ghost use Rattle.narrow_solve.specs.Tried.{NoPairAt, IsFirstPair};

use crate::one_place::first_at;
use byte_sets::ByteSet;
use model_check::check_model;
use term_arena::{Arena, Scratch, Term};

/// The first pair of values, in the order of the lower place's xor with the mask and then of the
/// higher place's, with which the conditions hold of the trial bytes. These change at the two
/// places alone.
pub(crate) fn first_pair(
    arena: &Arena,
    conditions: &[Term],
    low: usize,
    high: usize,
    mask: &[u8],
    trial: &mut [u8],
    scratch: &mut Scratch,
) -> Option<(u8, u8)>
    requires belong { All (λ t. t < length arena.now) conditions.now }
    requires room { length arena.now ≤ scratch.old }
    requires reads { All (λ t. ReadsBelow (length trial.old) (tree_of arena.now t)) conditions.now }
    requires apart { low < high }
    requires within { high < length trial.old }
    requires masked { high < length mask.now }
    ensures first { MatchOption result (NoPairAt (holds (trees_of arena.now conditions.now)) trial.old low high) (λ pair.
        IsFirstPair (holds (trees_of arena.now conditions.now)) (slice_index mask.now low)
        (slice_index mask.now high) trial.old low high pair.0 pair.1) }
    ensures bytes { IfSome result (λ pair. (pair.0 < 256) × (pair.1 < 256)) }
    ensures keeps { scratch.new ≡ scratch.old }
{
    let low_mask = mask[low];
    let high_mask = mask[high];
    for turn in 0..256u16 {
        let value = turn as u8 ^ low_mask;
        trial[low] = value;
        match first_at(arena, conditions, high, high_mask, trial, scratch) {
            Some(other) => return Some((value, other)),
            None => {}
        }
    }
    None
}

/// Whether the conditions hold of the trial bytes with each of the values at `place`. The trial
/// bytes change at `place` alone.
fn holds_with_each(
    arena: &Arena,
    conditions: &[Term],
    values: &ByteSet,
    place: usize,
    trial: &mut [u8],
    scratch: &mut Scratch,
) -> bool
    requires belong { All (λ t. t < length arena.now) conditions.now }
    requires room { length arena.now ≤ scratch.old }
    requires reads { All (λ t. ReadsBelow (length trial.old) (tree_of arena.now t)) conditions.now }
    requires within { place < length trial.old }
    ensures each { result ≡ list_all (λ v. holds (trees_of arena.now conditions.now) (slice_set trial.old place v))
        (filter (has values.now) bytes) }
    ensures aside { (v : ℕ) → slice_set trial.new place v ≡ slice_set trial.old place v }
    ensures keeps { scratch.new ≡ scratch.old }
{
    for turn in 0..256u16 {
        let value = turn as u8;
        if values.contains(value) {
            trial[place] = value;
            if !check_model(arena, conditions, trial, scratch) {
                return false;
            }
        }
    }
    true
}

/// The values of the higher place with which the conditions hold of the trial bytes with every one
/// of the lower place's values, where `known` is one of them.
pub(crate) fn values_beside(
    arena: &Arena,
    conditions: &[Term],
    lower: &ByteSet,
    low: usize,
    high: usize,
    known: u8,
    trial: &mut [u8],
    scratch: &mut Scratch,
) -> ByteSet
    requires belong { All (λ t. t < length arena.now) conditions.now }
    requires room { length arena.now ≤ scratch.old }
    requires reads { All (λ t. ReadsBelow (length trial.old) (tree_of arena.now t)) conditions.now }
    requires apart { low < high }
    requires within { high < length trial.old }
    requires passes { IsTrue (freed_beside (holds (trees_of arena.now conditions.now)) (has lower.now) trial.old low high known) }
    ensures values { has result
        ≡ freed_beside (holds (trees_of arena.now conditions.now)) (has lower.now) trial.old low high }
    ensures keeps { scratch.new ≡ scratch.old }
{
    let mut values = ByteSet::one(known);
    for turn in 0..256u16 {
        let value = turn as u8;
        trial[high] = value;
        if holds_with_each(arena, conditions, lower, low, trial, scratch) {
            values.insert(value);
        }
    }
    values
}
