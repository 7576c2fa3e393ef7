//! Groups of one comparison, the longest that is valued for all values of a byte at once, and a condition on inputs.

ghost use Rattle.std.specs.Prelude.{◌≡◌, ◌<◌, [], ◌∷◌, length, IfOk};
ghost use Rattle.term_model.specs.Conditions.{Hold};
ghost use Rattle.term_arena.specs.Trees.{tree_of, trees_of};
ghost use Rattle.group_model.specs.Group.{IsGroup};
ghost use Rattle.group_tests.specs.Eight.{IsEight};

use group_model::{Group, Places, Terms};
use model_check::check_model;
use narrow_solve::{first_narrow, narrow_sets};
use rv_word::AluOp;
use std::alloc::{AllocError, Global};
use std::test::Fail;
use term_arena::{Arena, Op, Scratch, Term};

/// The group of the condition that byte 0 is less than byte 1.
fn less_than_next(alloc: Global, arena: &mut Arena) -> Result<Group, AllocError>
    ensures group { IfOk result (λ g. IsGroup arena.new g.places g.conditions) }
    ensures places { IfOk result (λ g. g.places ≡ 0 ∷ 1 ∷ []) }
    ensures possible { IfOk result (λ g. Hold (trees_of arena.new g.conditions) (0 ∷ 1 ∷ [])) }
{
    let first = arena.input(0)?;
    let second = arena.input(1)?;
    let less = arena.intern(Op::Alu(AluOp::Sltu), first, second)?;
    Ok(Group {
        places: Places::from_vec(vec![in alloc; 0, 1]?),
        conditions: Terms::from_vec(vec![in alloc; less]?),
    })
}

/// Whether byte 0 is less than byte 1 at 0 and 1 first, then for 0 alone and for each value but 0.
fn has_joint_sets(alloc: Global) -> Result<bool, AllocError> {
    let mut arena = Arena::new(alloc)?;
    let group = less_than_next(alloc, &mut arena)?;
    let mut scratch = Scratch::for_arena(alloc, &arena)?;
    let mut trial = [0; 2];
    let first = first_narrow(&arena, &group, &[0, 0], &mut trial, &mut scratch);
    let sets = narrow_sets(&arena, &group, [0, 1], &mut trial, &mut scratch);
    Ok(
        first == [0, 1]
            && sets[0].size() == 1
            && sets[0].contains(0)
            && sets[1].size() == 255
            && !sets[1].contains(0),
    )
}

/// Byte 0 after so many operations that keep it.
fn kept_byte(arena: &mut Arena, operations: u32) -> Result<Term, AllocError>
    ensures belongs { IfOk result (λ t. t < length arena.new) }
    ensures kept { IfOk result (λ t. IsEight (tree_of arena.new t)) }
{
    let byte = arena.input(0)?;
    let mut kept = byte;
    for _ in 0..operations {
        kept = arena.intern(Op::Alu(AluOp::And), kept, byte)?;
    }
    Ok(kept)
}

/// The group of the condition that byte 0, after so many operations that keep it, is less than 10.
fn below_ten(alloc: Global, arena: &mut Arena, operations: u32) -> Result<Group, AllocError>
    ensures group { IfOk result (λ g. IsGroup arena.new g.places g.conditions) }
    ensures places { IfOk result (λ g. g.places ≡ 0 ∷ []) }
    ensures possible { IfOk result (λ g. Hold (trees_of arena.new g.conditions) (8 ∷ [])) }
{
    let kept = kept_byte(arena, operations)?;
    let ten = arena.constant(10)?;
    let less = arena.intern(Op::Alu(AluOp::Sltu), kept, ten)?;
    Ok(Group {
        places: Places::from_vec(vec![in alloc; 0]?),
        conditions: Terms::from_vec(vec![in alloc; less]?),
    })
}

/// Whether the group's first byte is 8 under the mask 12, and its set has ten values.
fn has_ten_values(alloc: Global, operations: u32) -> Result<bool, AllocError> {
    let mut arena = Arena::new(alloc)?;
    let group = below_ten(alloc, &mut arena, operations)?;
    let mut scratch = Scratch::for_arena(alloc, &arena)?;
    let mut trial = [0; 1];
    let first = first_narrow(&arena, &group, &[12], &mut trial, &mut scratch);
    let sets = narrow_sets(&arena, &group, [8, 0], &mut trial, &mut scratch);
    Ok(
        arena.len() == u64::from(operations) + 3
            && first == [8, 0]
            && sets[0].size() == 10
            && sets[0].contains(9)
            && sets[1].size() == 256,
    )
}

/// Whether the condition that two bytes are equal holds of equal ones alone, and an empty list of conditions of no bytes.
fn every_condition_counts(alloc: Global) -> Result<bool, AllocError> {
    let mut arena = Arena::new(alloc)?;
    let first = arena.input(0)?;
    let second = arena.input(1)?;
    let same = arena.intern(Op::Eq, first, second)?;
    let mut scratch = Scratch::for_arena(alloc, &arena)?;
    Ok(
        check_model(&arena, &[same], &[5, 5], &mut scratch)
            && !check_model(&arena, &[same], &[5, 6], &mut scratch)
            && check_model(&arena, &[], &[], &mut scratch),
    )
}

/// Groups of sixteen terms and of seventeen among them.
#[test]
fn narrow_groups_and_conditions(rt: HostRuntime) -> Result<(), Fail> {
    let alloc = rt.alloc();
    assert!(rt;
        has_joint_sets(alloc)?
            && has_ten_values(alloc, 13)?
            && has_ten_values(alloc, 14)?
            && every_condition_counts(alloc)?
    );
    Ok(())
}
