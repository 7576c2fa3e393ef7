//! Terms as a caller makes and values them.

ghost use Rattle.std.specs.Prelude.{◌≤◌, ◌<◌, length, IfOk};

use crate::normal::named;
use rv_word::AluOp;
use std::alloc::{AllocError, Global};
use std::test::Fail;
use term_arena::{Arena, Node, Op, Scratch, Term};

/// The term of a byte of the input.
fn byte(arena: &mut Arena, place: u32) -> Result<Term, AllocError>
    ensures below { IfOk result (λ t. t < length arena.new) }
    ensures grows { length arena.old ≤ length arena.new }
{
    arena.input(place)
}

/// The term of a constant.
fn word(arena: &mut Arena, value: u32) -> Result<Term, AllocError>
    ensures below { IfOk result (λ t. t < length arena.new) }
    ensures grows { length arena.old ≤ length arena.new }
{
    arena.constant(value)
}

/// The term of an operation on two terms.
fn applied(arena: &mut Arena, op: Op, a: Term, b: Term) -> Result<Term, AllocError>
    requires first { a < length arena.old }
    requires second { b < length arena.old }
    ensures below { IfOk result (λ t. t < length arena.new) }
    ensures grows { length arena.old ≤ length arena.new }
{
    arena.intern(op, a, b)
}

/// Whether a term is the equation of two terms.
fn is_equation(arena: &Arena, t: Term, a: Term, b: Term) -> bool
    requires { t < length arena.now }
{
    arena.node(t) == Node::Apply(Op::Eq, a, b)
}

/// Whether equal trees are one term, and a tree with its operands turned is another.
fn equal_trees_are_one(arena: &mut Arena) -> Result<bool, AllocError> {
    let a = byte(arena, 0)?;
    let b = word(arena, 5)?;
    let has_two = arena.len() == 2;
    let first = applied(arena, Op::Eq, a, b)?;
    Ok(
        has_two
            && first == applied(arena, Op::Eq, a, b)?
            && arena.len() == 3
            && is_equation(arena, first, a, b)
            && first != applied(arena, Op::Eq, b, a)?,
    )
}

#[test]
fn equal_trees_are_one_term(rt: HostRuntime) -> Result<(), Fail> {
    assert!(rt; equal_trees_are_one(&mut Arena::new(rt.alloc())?)?);
    Ok(())
}

/// The equation of the sum of the first byte and 5 with the pair of the first two bytes, the sum first.
fn sum_first(arena: &mut Arena) -> Result<Term, AllocError>
    ensures grows { length arena.old ≤ length arena.new }
{
    let low = byte(arena, 0)?;
    let five = word(arena, 5)?;
    let sum = applied(arena, Op::Alu(AluOp::Add), low, five)?;
    let high = byte(arena, 1)?;
    let pair = applied(arena, Op::Pair, low, high)?;
    applied(arena, Op::Eq, sum, pair)
}

/// The same, the pair first.
fn pair_first(arena: &mut Arena) -> Result<Term, AllocError>
    ensures grows { length arena.old ≤ length arena.new }
{
    let high = byte(arena, 1)?;
    let low = byte(arena, 0)?;
    let pair = applied(arena, Op::Pair, low, high)?;
    let five = word(arena, 5)?;
    let sum = applied(arena, Op::Alu(AluOp::Add), low, five)?;
    applied(arena, Op::Eq, sum, pair)
}

#[test]
fn trees_made_in_another_order_are_one_term(rt: HostRuntime) -> Result<(), Fail> {
    let mut arena = Arena::new(rt.alloc())?;
    let first = sum_first(&mut arena)?;
    assert!(rt; pair_first(&mut arena)? == first && arena.len() == 6);
    Ok(())
}

/// Terms in postfix order, as those of normal forms, and which of the bytes of each are zero, the lowest byte the lowest bit.
const ZERO_BYTES: &str = "\
ff00 = d
ff00 i0 pair = d
i0 ff00 half = 6
i0 ff00 or = c
i0 ff00 and = f
i0 8 sll = d
ff00 8 srl = e
i0 i0 sll = 0
";

/// Whether a term has these zero bytes.
fn has_zero_bytes(
    alloc: Global,
    arena: &mut Arena,
    term: &str,
    mask: &str,
) -> Result<bool, AllocError> {
    match named(alloc, arena, term, false)? {
        Some(t) => Ok(u8::from_str_radix(mask.trim(), 16) == Ok(arena.zero_bytes(t))),
        None => Ok(false),
    }
}

#[test]
fn zero_bytes_are_those_of_the_table(rt: HostRuntime) -> Result<(), Fail> {
    let mut arena = Arena::new(rt.alloc())?;
    let mut cases = 0u64;
    for line in ZERO_BYTES.lines() {
        let Some((term, mask)) = line.split_once('=') else {
            continue;
        };
        assert!(rt;
            has_zero_bytes(rt.alloc(), &mut arena, term, mask)?,
            "{line}"
        );
        cases = cases.wrapping_add(1);
    }
    assert!(rt; cases == 8);
    Ok(())
}

#[test]
fn a_deep_term_is_valued(rt: HostRuntime) -> Result<(), Fail> {
    let mut arena = Arena::new(rt.alloc())?;
    let mut t = arena.input(0)?;
    let second = arena.input(1)?;
    for _ in 0..1_000_000 {
        t = arena.intern(Op::Alu(AluOp::Xor), t, second)?;
    }
    assert!(rt; arena.len() == 1_000_002);
    let mut scratch = Scratch::for_arena(rt.alloc(), &arena)?;
    assert!(rt; arena.eval(t, &[3, 5], &mut scratch) == 3 && arena.zero_bytes(t) == 14);
    Ok(())
}

#[test]
fn a_node_under_many_is_valued_once_a_call(rt: HostRuntime) -> Result<(), Fail> {
    let mut arena = Arena::new(rt.alloc())?;
    let mut older = arena.input(0)?;
    let mut newer = arena.input(1)?;
    for _ in 2..=200 {
        let next = arena.intern(Op::Alu(AluOp::Xor), older, newer)?;
        older = newer;
        newer = next;
    }
    let mut scratch = Scratch::for_arena(rt.alloc(), &arena)?;
    assert!(rt;
        scratch.room() == 201
            && arena.eval(newer, &[3, 5], &mut scratch) == 6
            && arena.eval(newer, &[7, 2], &mut scratch) == 5
            && arena.eval(older, &[7, 2], &mut scratch) == 2
            && scratch.room() == 201
    );
    Ok(())
}

/// Whether a refusal of one more term leaves the arena as long as it was.
fn refusal_adds_nothing(arena: &mut Arena, place: u32) -> bool
    ensures grows { length arena.old ≤ length arena.new }
{
    let before = arena.len();
    arena.input(place).is_ok() || arena.len() == before
}

/// Whether an equation is the same once the arena has grown or refused to.
fn keeps_equation(
    arena: &mut Arena,
    place: u32,
    first: Term,
    a: Term,
    b: Term,
) -> Result<bool, AllocError>
    requires first { first < length arena.old }
    requires left { a < length arena.old }
    requires right { b < length arena.old }
    ensures grows { length arena.old ≤ length arena.new }
{
    Ok(
        refusal_adds_nothing(arena, place)
            && is_equation(arena, first, a, b)
            && first == applied(arena, Op::Eq, a, b)?,
    )
}

#[test]
fn a_refusal_leaves_each_term(rt: HostRuntime) -> Result<(), Fail> {
    let mut arena = Arena::new(rt.alloc())?;
    let a = byte(&mut arena, 0)?;
    let b = word(&mut arena, 5)?;
    let first = applied(&mut arena, Op::Eq, a, b)?;
    for place in 1..40 {
        assert!(rt; keeps_equation(&mut arena, place, first, a, b)?);
    }
    Ok(())
}

/// Ten thousand inputs, as many constants, and the sum of each pair.
fn many_terms(alloc: Global, arena: &mut Arena) -> Result<Vec<Term>, AllocError> {
    let mut terms = Vec::new(alloc);
    for i in 0..10_000 {
        let first = byte(arena, i)?;
        let second = word(arena, i)?;
        let sum = applied(arena, Op::Alu(AluOp::Add), first, second)?;
        terms.push(first)?;
        terms.push(second)?;
        terms.push(sum)?;
    }
    Ok(terms)
}

#[test]
fn many_terms_are_found_again(rt: HostRuntime) -> Result<(), Fail> {
    let mut arena = Arena::new(rt.alloc())?;
    let made = many_terms(rt.alloc(), &mut arena)?;
    assert!(rt; arena.len() == 30_000);
    let found = many_terms(rt.alloc(), &mut arena)?;
    assert!(rt; made == found && arena.len() == 30_000);
    Ok(())
}

/// Operations on two words, and the value that each has.
const VALUES: [(Op, u32, u32, u32); 12] = [
    (
        Op::Alu(AluOp::Mulhsu),
        0xffff_ffff,
        0xffff_ffff,
        0xffff_ffff,
    ),
    (Op::Alu(AluOp::Div), 0x8000_0000, 0xffff_ffff, 0x8000_0000),
    (Op::Alu(AluOp::Rem), 0x8000_0000, 0xffff_ffff, 0),
    (Op::Alu(AluOp::Div), 0x64, 0, 0xffff_ffff),
    (Op::Alu(AluOp::Divu), 0x64, 0, 0xffff_ffff),
    (Op::Eq, 7, 7, 1),
    (Op::Eq, 7, 8, 0),
    (Op::Byte, 0x0403_0201, 0, 1),
    (Op::Byte, 0x0403_0201, 6, 3),
    (Op::Byte, 0x0403_0201, 0xffff_ffff, 4),
    (Op::Pair, 0x1ff, 0x2ee, 0xeeff),
    (Op::Half, 0x1_2222, 0x3_4444, 0x4444_2222),
];

#[test]
fn operations_have_their_values(rt: HostRuntime) {
    for (op, a, b, value) in VALUES {
        assert!(rt; op.value(a, b) == value, "{a:x} and {b:x}");
    }
}
