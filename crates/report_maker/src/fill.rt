//! The first input of a class, and the sets of its bytes, group by group.

ghost use Rattle.std.specs.Prelude.{◌≡◌, ◌≤◌, ◌<◌, ◌^◌, ℕ, All, Contains, None, false, find, length, map, slice_index, sum_by, IfOk, IfErr};
ghost use Rattle.input_laws.specs.Inputs.{IsInput};
ghost use Rattle.input_laws.specs.Sets.{set_at};
ghost use Rattle.byte_sets.specs.ByteSet.{has};
ghost use Rattle.set_laws.specs.Found.{group_conflicts, is_spent};
ghost use Rattle.report_laws.specs.Filled.{IsOpen, AreApart, IsDone, IsFilled};
ghost use Rattle.report_maker.specs.Counted.{conflicts_at, NamesGroup, NamesFirst};

use crate::error::MakeError;
use crate::put::put;
use byte_sets::ByteSet;
use group_model::Group;
use narrow_solve::{first_narrow, narrow_sets};
use std::alloc::Global;
use term_arena::{Arena, Scratch};
use wide_solve::WideGroup;

/// Puts the first bytes of a group of one place or two at its places, and their sets.
fn fill_narrow(
    arena: &Arena,
    group: &Group,
    mask: &[u8],
    input: &mut [u8],
    sets: &mut [ByteSet],
    trial: &mut [u8],
    scratch: &mut Scratch,
)
    requires open { IsOpen arena.now (length mask.now) group.now }
    requires narrow { length group.now.places ≤ 2 }
    requires inputs { length input.old ≡ length mask.now }
    requires each { length sets.old ≡ length mask.now }
    requires tried { length trial.old ≡ length mask.now }
    requires room { length arena.now ≤ scratch.old }
    ensures done { IsDone arena.now mask.now input.new (map has sets.new) group.now }
    ensures input_left { (i : ℕ) → (Contains group.now.places i → ⊥) →
        slice_index input.new i ≡ slice_index input.old i }
    ensures sets_left { (i : ℕ) → (Contains group.now.places i → ⊥) →
        set_at (map has sets.new) i ≡ set_at (map has sets.old) i }
    ensures keeps { scratch.new ≡ scratch.old }
{
    let places = group.places.as_slice();
    let first = first_narrow(arena, group, mask, trial, scratch);
    put(places, &first[..places.len()], input);
    let values = narrow_sets(arena, group, first, trial, scratch);
    put(places, &values[..places.len()], sets);
}

/// Puts the first bytes of a group of more than two places at its places, and their sets. Answers
/// how many conflicts the search for them counted.
fn fill_wide(
    alloc: Global,
    arena: &Arena,
    group: &Group,
    mask: &[u8],
    budget: u32,
    input: &mut [u8],
    sets: &mut [ByteSet],
) -> Result<u32, MakeError>
    requires open { IsOpen arena.now (length mask.now) group.now }
    requires wide { 2 < length group.now.places }
    requires budget { 0 < budget }
    requires inputs { length input.old ≡ length mask.now }
    requires each { length sets.old ≡ length mask.now }
    ensures done { IfOk result (λ _. IsDone arena.now mask.now input.new (map has sets.new) group.now) }
    ensures input_left { (i : ℕ) → (Contains group.now.places i → ⊥) →
        slice_index input.new i ≡ slice_index input.old i }
    ensures sets_left { (i : ℕ) → (Contains group.now.places i → ⊥) →
        set_at (map has sets.new) i ≡ set_at (map has sets.old) i }
    ensures count { IfOk result (λ conflicts. conflicts ≡ group_conflicts arena.now mask.now group.now) }
    ensures below { IfOk result (λ conflicts. conflicts < budget) }
    ensures spent { IfErr result (NamesGroup arena.now mask.now budget group.now) }
{
    let places = group.places.as_slice();
    let wide = WideGroup::new(alloc, arena, group)?;
    let first = wide.first(alloc, mask, budget)?;
    put(places, first.bytes.as_slice(), input);
    let values = wide.sets(alloc, first.bytes.as_slice())?;
    put(places, values.as_slice(), sets);
    Ok(first.conflicts)
}

/// Puts the group's first bytes at its places, and their sets. Answers how many conflicts the
/// search for them counted.
fn fill_group(
    alloc: Global,
    arena: &Arena,
    group: &Group,
    mask: &[u8],
    budget: u32,
    input: &mut [u8],
    sets: &mut [ByteSet],
    trial: &mut [u8],
    scratch: &mut Scratch,
) -> Result<u32, MakeError>
    requires open { IsOpen arena.now (length mask.now) group.now }
    requires budget { 0 < budget }
    requires inputs { length input.old ≡ length mask.now }
    requires each { length sets.old ≡ length mask.now }
    requires tried { length trial.old ≡ length mask.now }
    requires room { length arena.now ≤ scratch.old }
    ensures done { IfOk result (λ _. IsDone arena.now mask.now input.new (map has sets.new) group.now) }
    ensures input_left { (i : ℕ) → (Contains group.now.places i → ⊥) →
        slice_index input.new i ≡ slice_index input.old i }
    ensures sets_left { (i : ℕ) → (Contains group.now.places i → ⊥) →
        set_at (map has sets.new) i ≡ set_at (map has sets.old) i }
    ensures count { IfOk result (λ conflicts. conflicts ≡ conflicts_at arena.now mask.now group.now) }
    ensures below { IfOk result (λ conflicts. conflicts < budget) }
    ensures spent { IfErr result (NamesGroup arena.now mask.now budget group.now) }
    ensures unspent { IfOk result (λ _. is_spent arena.now mask.now budget group.now ≡ false) }
    ensures keeps { scratch.new ≡ scratch.old }
{
    if group.places.as_slice().len() > 2 {
        return fill_wide(alloc, arena, group, mask, budget, input, sets);
    }
    fill_narrow(arena, group, mask, input, sets, trial, scratch);
    Ok(0)
}

/// Puts the first bytes of all groups and their sets at the groups' places. Answers how many
/// conflicts the searches for them counted together.
fn fill_groups(
    alloc: Global,
    arena: &Arena,
    groups: &[Group],
    mask: &[u8],
    budget: u32,
    input: &mut [u8],
    sets: &mut [ByteSet],
    trial: &mut [u8],
    scratch: &mut Scratch,
) -> Result<u64, MakeError>
    requires few { length groups.now < 2 ^ 32 }
    requires open { All (IsOpen arena.now (length mask.now)) groups.now }
    requires apart { AreApart groups.now }
    requires budget { 0 < budget }
    requires start { IsFilled arena.now mask.now groups.now 0 input.old (map has sets.old) }
    requires tried { length trial.old ≡ length mask.now }
    requires room { length arena.now ≤ scratch.old }
    ensures input { IsInput (length mask.now) input.new }
    ensures filled { IfOk result (λ _. IsFilled arena.now mask.now groups.now (length groups.now) input.new (map has sets.new)) }
    ensures count { IfOk result (λ conflicts. conflicts ≡ sum_by (conflicts_at arena.now mask.now) groups.now) }
    ensures unspent { IfOk result (λ _. find (is_spent arena.now mask.now budget) groups.now ≡ None) }
    ensures spent { IfErr result (NamesFirst arena.now mask.now budget groups.now) }
{
    let mut conflicts = 0u64;
    for group in groups {
        let counted = fill_group(
            alloc, arena, group, mask, budget, input, sets, trial, scratch,
        )?;
        conflicts += u64::from(counted);
    }
    Ok(conflicts)
}

/// A first input, the set of each of its bytes, and how many conflicts the searches counted.
#[derive(Drop)]
pub struct FilledInput {
    pub input: Vec<u8>,
    pub sets: Vec<ByteSet>,
    pub conflicts: u64,
}

/// The input that has each group's first bytes, and the mask's bytes elsewhere, and the set of
/// each of its bytes.
pub fn fill_all(
    alloc: Global,
    arena: &Arena,
    groups: &[Group],
    mask: &[u8],
    budget: u32,
) -> Result<FilledInput, MakeError>
    requires few { length groups.now < 2 ^ 32 }
    requires open { All (IsOpen arena.now (length mask.now)) groups.now }
    requires apart { AreApart groups.now }
    requires budget { 0 < budget }
    ensures filled { IfOk result (λ made.
        IsFilled arena.now mask.now groups.now (length groups.now) made.input.items (map has made.sets.items)) }
    ensures input { IfOk result (λ made. IsInput (length mask.now) made.input.items) }
    ensures count { IfOk result (λ made. made.conflicts ≡ sum_by (conflicts_at arena.now mask.now) groups.now) }
    ensures unspent { IfOk result (λ _. find (is_spent arena.now mask.now budget) groups.now ≡ None) }
    ensures spent { IfErr result (NamesFirst arena.now mask.now budget groups.now) }
{
    let mut input = mask.to_vec(alloc)?;
    let mut sets = vec![in alloc; ByteSet::full(); mask.len()]?;
    let mut trial = mask.to_vec(alloc)?;
    let mut scratch = Scratch::for_arena(alloc, arena)?;
    let conflicts = fill_groups(
        alloc,
        arena,
        groups,
        mask,
        budget,
        input.as_mut_slice(),
        sets.as_mut_slice(),
        trial.as_mut_slice(),
        &mut scratch,
    )?;
    Ok(FilledInput {
        input,
        sets,
        conflicts,
    })
}
