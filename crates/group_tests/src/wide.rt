//! Groups of three bytes: one whose search meets a conflict, and one whose condition always holds.

ghost use Rattle.std.specs.Prelude.{◌≡◌, ◌<◌, List, ℕ, [], ◌∷◌, IfOk};
ghost use Rattle.term_model.specs.Words.{AreBytes};
ghost use Rattle.term_model.specs.Conditions.{Hold};
ghost use Rattle.term_arena.specs.Trees.{trees_of, Extends};
ghost use Rattle.group_model.specs.Group.{IsGroup};
ghost use Rattle.group_tests.specs.Triples.{odd_or, sum};
ghost use Rattle.term_arena.specs.Trees.{IsTermOf};

use byte_sets::ByteSet;
use group_model::{Group, Places, Terms};
use rv_word::AluOp;
use std::alloc::{AllocError, Global};
use std::test::Fail;
use term_arena::{Arena, Op, Term};
use wide_solve::{WideError, first_wide, wide_sets};

/// The condition that bit 0 of byte `i`, or of byte `j` with that bit turned by the mask, is 1.
fn odd_or(arena: &mut Arena, i: u32, j: u32, mask: u32) -> Result<Term, AllocError>
    ensures term { IfOk result (IsTermOf arena.new (odd_or i j mask)) }
    ensures keeps { Extends arena.old arena.new }
{
    let second = arena.input(j)?;
    let turn = arena.constant(mask)?;
    let turned = arena.intern(Op::Alu(AluOp::Xor), second, turn)?;
    let first = arena.input(i)?;
    let either = arena.intern(Op::Alu(AluOp::Or), first, turned)?;
    let one = arena.constant(1)?;
    let odd = arena.intern(Op::Alu(AluOp::And), either, one)?;
    Ok(odd)
}

/// A sum of three bytes.
fn sum(arena: &mut Arena) -> Result<Term, AllocError>
    ensures { IfOk result (IsTermOf arena.new sum) }
{
    let first = arena.input(0)?;
    let second = arena.input(1)?;
    let two = arena.intern(Op::Alu(AluOp::Add), first, second)?;
    let third = arena.input(2)?;
    let three = arena.intern(Op::Alu(AluOp::Add), two, third)?;
    Ok(three)
}

/// The group of these conditions on the first three bytes.
fn group_of(alloc: Global, conditions: &[Term]) -> Result<Group, AllocError>
    ensures places { IfOk result (λ g. g.places ≡ 0 ∷ 1 ∷ 2 ∷ []) }
    ensures conditions { IfOk result (λ g. g.conditions ≡ conditions.now) }
{
    let places = vec![in alloc; 0, 1, 2]?;
    let terms = conditions.to_vec(alloc)?;
    Ok(Group {
        places: Places::from_vec(places),
        conditions: Terms::from_vec(terms),
    })
}

/// The lowest bits of three bytes: the first or the second is 1, the first is 1 or the second 0, and
/// the second or the third is 1.
fn triple(alloc: Global, arena: &mut Arena) -> Result<Group, AllocError>
    ensures group { IfOk result (λ g. IsGroup arena.new g.places g.conditions) }
    ensures places { IfOk result (λ g. g.places ≡ 0 ∷ 1 ∷ 2 ∷ []) }
    ensures possible { IfOk result (λ g. Hold (trees_of arena.new g.conditions) (1 ∷ 0 ∷ 1 ∷ [])) }
{
    let a = odd_or(arena, 0, 1, 0)?;
    let b = odd_or(arena, 0, 1, 1)?;
    let c = odd_or(arena, 1, 2, 0)?;
    let group = group_of(alloc, &[a, b, c])?;
    Ok(group)
}

/// The condition that a sum of three bytes equals itself.
fn same_sum(alloc: Global, arena: &mut Arena) -> Result<Group, AllocError>
    ensures group { IfOk result (λ g. IsGroup arena.new g.places g.conditions) }
    ensures places { IfOk result (λ g. g.places ≡ 0 ∷ 1 ∷ 2 ∷ []) }
    ensures possible { IfOk result (λ g. Hold (trees_of arena.new g.conditions) (7 ∷ 8 ∷ 9 ∷ [])) }
{
    let sum = sum(arena)?;
    let same = arena.intern(Op::Eq, sum, sum)?;
    let group = group_of(alloc, &[same])?;
    Ok(group)
}

/// What the search for the first bytes of a group of three answers.
#[derive(Clone, Copy, Debug, PartialEq, Eq)]
enum Answer {
    Found { bytes: [u8; 3], conflicts: u32 },
    Spent { first: u32, width: u32 },
    Nothing,
}

fn find_first(alloc: Global, arena: &Arena, group: &Group, mask: [u8; 3], budget: u32) -> Answer
    requires group { IsGroup arena.now group.now.places group.now.conditions }
    requires places { group.now.places ≡ 0 ∷ 1 ∷ 2 ∷ [] }
    requires possible { (y : List ℕ) × AreBytes y × Hold (trees_of arena.now group.now.conditions) y }
    requires budget { 0 < budget }
{
    match first_wide(alloc, arena, group, &mask, budget) {
        Ok(wide) => match wide.bytes.as_slice() {
            [a, b, c] => Answer::Found {
                bytes: [*a, *b, *c],
                conflicts: wide.conflicts,
            },
            _ => Answer::Nothing,
        },
        Err(WideError::Spent { first, width }) => Answer::Spent { first, width },
        Err(WideError::NoMemory) => Answer::Nothing,
    }
}

/// The set of the odd values.
fn odd() -> ByteSet {
    let mut set = ByteSet::one(1);
    for half in 0..128u8 {
        set.insert(2 * half + 1);
    }
    set
}

#[test]
fn a_search_with_one_conflict(rt: HostRuntime) -> Result<(), Fail> {
    let mut arena = Arena::new(rt.alloc())?;
    let group = triple(rt.alloc(), &mut arena)?;
    let found = find_first(rt.alloc(), &arena, &group, [0, 0, 0], 2);
    assert_eq!(rt;
        found,
        Answer::Found {
            bytes: [1, 0, 1],
            conflicts: 1
        }
    );
    let spent = find_first(rt.alloc(), &arena, &group, [0, 0, 0], 1);
    assert_eq!(rt; spent, Answer::Spent { first: 0, width: 3 });
    let sets = wide_sets(rt.alloc(), &arena, &group, &[1, 0, 1])?;
    assert_eq!(rt; sets.as_slice(), [odd(), ByteSet::full(), odd()].as_slice());
    Ok(())
}

#[test]
fn a_condition_that_always_holds(rt: HostRuntime) -> Result<(), Fail> {
    let mut arena = Arena::new(rt.alloc())?;
    let group = same_sum(rt.alloc(), &mut arena)?;
    let found = find_first(rt.alloc(), &arena, &group, [7, 8, 9], 1);
    assert_eq!(rt;
        found,
        Answer::Found {
            bytes: [7, 8, 9],
            conflicts: 0
        }
    );
    let sets = wide_sets(rt.alloc(), &arena, &group, &[7, 8, 9])?;
    let full = ByteSet::full();
    assert_eq!(rt; sets.as_slice(), [full, full, full].as_slice());
    Ok(())
}
