//! The values of the byte at one place that meet conditions: all of them at once where the table of
//! terms has room for the conditions, and else one after the other.

ghost use Rattle.std.specs.Prelude.{◌≡◌, ◌<◌, ◌≤◌, ℕ, length, slice_set, All, IsTrue, MatchOption, IfSome};
ghost use Rattle.term_model.specs.Places.{ReadsBelow};
ghost use Rattle.term_model.specs.Conditions.{holds};
ghost use Rattle.term_arena.specs.Trees.{tree_of, trees_of};
ghost use Rattle.input_laws.specs.Sets.{freed};
ghost use Rattle.byte_sets.specs.ByteSet.{has};
ghost use Rattle.narrow_solve.specs.Tried.{NoneAt, IsFirstAt};
ghost use Rattle.narrow_solve.specs.Lanes.{AreKept, ArePassing};

use crate::lanes::Lanes;
use crate::table::Table;
use crate::trial::{first_tried, values_tried};
use byte_sets::ByteSet;
use term_arena::{Arena, Scratch, Term};

/// For each value of a byte, whether it passes.
type Passes = [bool; 256];

/// The values that passed and have the word 1.
fn kept(passes: &Passes, lanes: &Lanes) -> Passes
    ensures { AreKept passes.now lanes.now 256 result }
{
    let mut kept = [false; 256];
    for v in 0..256 {
        kept[v] = passes[v] & (lanes[v] == 1);
    }
    kept
}

/// The values with which at `place` the conditions hold of the input. None where the table has no
/// room for their terms, or there is no condition.
fn passing(arena: &Arena, conditions: &[Term], input: &[u8], place: usize) -> Option<Passes>
    requires belong { All (λ t. t < length arena.now) conditions.now }
    requires reads { All (λ t. ReadsBelow (length input.now) (tree_of arena.now t)) conditions.now }
    requires within { place < length input.now }
    ensures passing { IfSome result (ArePassing (holds (trees_of arena.now conditions.now)) input.now place) }
{
    let mut table = Table::new(*conditions.first()?);
    let mut passes = [true; 256];
    for condition in conditions {
        let k = table.walk(arena, *condition, input, place)?;
        passes = kept(&passes, table.lanes(k));
    }
    Some(passes)
}

/// The first value, in the order of its xor with `mask`, with which at `place` the conditions hold
/// of the trial bytes. These change at `place` alone.
pub(crate) fn first_at(
    arena: &Arena,
    conditions: &[Term],
    place: usize,
    mask: u8,
    trial: &mut [u8],
    scratch: &mut Scratch,
) -> Option<u8>
    requires belong { All (λ t. t < length arena.now) conditions.now }
    requires room { length arena.now ≤ scratch.old }
    requires reads { All (λ t. ReadsBelow (length trial.old) (tree_of arena.now t)) conditions.now }
    requires within { place < length trial.old }
    ensures first { MatchOption result (NoneAt (holds (trees_of arena.now conditions.now)) trial.old place)
        (IsFirstAt (holds (trees_of arena.now conditions.now)) mask trial.old place) }
    ensures aside { (v : ℕ) → slice_set trial.new place v ≡ slice_set trial.old place v }
    ensures keeps { scratch.new ≡ scratch.old }
{
    let Some(passes) = passing(arena, conditions, trial, place) else {
        return first_tried(arena, conditions, place, mask, trial, scratch);
    };
    for turn in 0..256u16 {
        let value = turn as u8 ^ mask;
        if passes[value as usize] {
            return Some(value);
        }
    }
    None
}

/// The values with which at `place` the conditions hold of the trial bytes, where `known` is one of
/// them. The trial bytes change at `place` alone.
pub(crate) fn values_at(
    arena: &Arena,
    conditions: &[Term],
    place: usize,
    known: u8,
    trial: &mut [u8],
    scratch: &mut Scratch,
) -> ByteSet
    requires belong { All (λ t. t < length arena.now) conditions.now }
    requires room { length arena.now ≤ scratch.old }
    requires reads { All (λ t. ReadsBelow (length trial.old) (tree_of arena.now t)) conditions.now }
    requires within { place < length trial.old }
    requires passes { IsTrue (holds (trees_of arena.now conditions.now) (slice_set trial.old place known)) }
    ensures values { has result ≡ freed (holds (trees_of arena.now conditions.now)) trial.old place }
    ensures aside { (v : ℕ) → slice_set trial.new place v ≡ slice_set trial.old place v }
    ensures keeps { scratch.new ≡ scratch.old }
{
    let Some(passes) = passing(arena, conditions, trial, place) else {
        return values_tried(arena, conditions, place, known, trial, scratch);
    };
    let mut values = ByteSet::one(known);
    for turn in 0..256u16 {
        let value = turn as u8;
        if passes[value as usize] {
            values.insert(value);
        }
    }
    values
}
