//! Conditions as a caller adds them.

ghost use Rattle.std.specs.Prelude.{◌<◌, length, IfOk, All};
ghost use Rattle.term_model.specs.Places.{ReadsBelow};
ghost use Rattle.term_arena.specs.Trees.{tree_of, Extends};
ghost use Rattle.normal_form.specs.Normal.{IsNormal};
ghost use Rattle.path_condition.specs.Listed.{Belong};

use crate::wanted::{Wanted, are};
use path_condition::Conditions;
use rv_word::AluOp;
use simplify::make;
use std::alloc::{AllocError, Global};
use std::test::Fail;
use term_arena::{Arena, Op, Scratch, Term};

/// The word of four bytes of the input from a place on.
fn word_at(arena: &mut Arena, place: u32) -> Result<Term, AllocError>
    requires { place < 100 }
    ensures belongs { IfOk result (λ t. t < length arena.new) }
    ensures normal { IfOk result (λ t. IsNormal (tree_of arena.new t)) }
    ensures keeps { Extends arena.old arena.new }
{
    let lowest = arena.input(place)?;
    let second = arena.input(place + 1)?;
    let third = arena.input(place + 2)?;
    let highest = arena.input(place + 3)?;
    let low = make(arena, Op::Pair, lowest, second)?;
    let high = make(arena, Op::Pair, third, highest)?;
    make(arena, Op::Half, low, high)
}

/// Whether a target that is a word of the input is told byte by byte.
fn is_target_told(alloc: Global) -> Result<bool, AllocError> {
    let mut arena = Arena::new(alloc)?;
    let sum = word_at(&mut arena, 28)?;
    let mut conditions = Conditions::new(alloc);
    conditions.add_target(&mut arena, sum, 0x6161_6160)?;
    let wanted = [
        Wanted::EvenByte(28, 0x60),
        Wanted::Byte(29, 0x61),
        Wanted::Byte(30, 0x61),
        Wanted::Byte(31, 0x61),
    ];
    are(&mut arena, conditions.list(), &wanted)
}

/// Whether a pin of a word of the input and 4 takes off what is added.
fn is_pin_told(alloc: Global) -> Result<bool, AllocError> {
    let mut arena = Arena::new(alloc)?;
    let word = word_at(&mut arena, 0)?;
    let four = arena.constant(4)?;
    let address = make(&mut arena, Op::Alu(AluOp::Add), word, four)?;
    let mut conditions = Conditions::new(alloc);
    conditions.add_pin(&mut arena, address, 0x0010_0077)?;
    let wanted = [
        Wanted::Byte(0, 0x73),
        Wanted::Byte(1, 0),
        Wanted::Byte(2, 0x10),
        Wanted::Byte(3, 0),
    ];
    are(&mut arena, conditions.list(), &wanted)
}

/// The list of one condition, that the first two bytes of the input are the same.
fn first_two_are_the_same(alloc: Global, arena: &mut Arena) -> Result<Conditions, AllocError>
    ensures listed { IfOk result (Belong arena.new) }
    ensures reads { IfOk result (λ c. All (λ t. ReadsBelow 2 (tree_of arena.new t)) c) }
{
    let first = arena.input(0)?;
    let second = arena.input(1)?;
    let same = arena.intern(Op::Eq, first, second)?;
    let mut conditions = Conditions::new(alloc);
    conditions.add_holds(arena, same)?;
    Ok(conditions)
}

/// Whether the list is tested on inputs.
fn is_tested(alloc: Global) -> Result<bool, AllocError> {
    let mut arena = Arena::new(alloc)?;
    let conditions = first_two_are_the_same(alloc, &mut arena)?;
    let mut scratch = Scratch::for_arena(alloc, &arena)?;
    Ok(
        conditions.test(&arena, &[5, 5], &mut scratch)
            && !conditions.test(&arena, &[5, 6], &mut scratch),
    )
}

#[test]
fn conditions_that_are_added(rt: HostRuntime) -> Result<(), Fail> {
    let alloc = rt.alloc();
    assert!(rt; is_target_told(alloc)? && is_pin_told(alloc)? && is_tested(alloc)?);
    Ok(())
}
