//! Terms that are worked out by hand.

ghost use Rattle.std.specs.Prelude.{◌<◌, length, IfOk};

use rv_word::AluOp;
use std::alloc::AllocError;
use term_arena::{Arena, Op, Term};

/// A condition on bytes of the input, each told by its place.
#[derive(Clone, Copy)]
pub(crate) enum Wanted {
    /// A byte has a value.
    Byte(u32, u32),
    /// A byte whose lowest bit is cleared has a value.
    EvenByte(u32, u32),
    /// Byte `k` of the sum of the first two bytes has a value.
    SumByte(u32, u32),
    /// A byte is below a limit.
    Below(u32, u32),
    /// The sum of a byte and a number is below a limit.
    SumBelow(u32, u32, u32),
    /// A byte isn't 0.
    NotZero(u32),
}

/// The term that another has a value.
fn is(arena: &mut Arena, term: Term, value: u32) -> Result<Term, AllocError>
    requires { term < length arena.old }
    ensures { IfOk result (λ t. t < length arena.new) }
{
    let value = arena.constant(value)?;
    arena.intern(Op::Eq, term, value)
}

/// An operation on a byte and a number.
fn with_number(arena: &mut Arena, op: AluOp, place: u32, number: u32) -> Result<Term, AllocError>
    ensures { IfOk result (λ t. t < length arena.new) }
{
    let byte = arena.input(place)?;
    let number = arena.constant(number)?;
    arena.intern(Op::Alu(op), byte, number)
}

/// The term of a condition.
fn term_of(arena: &mut Arena, wanted: Wanted) -> Result<Term, AllocError> {
    match wanted {
        Wanted::Byte(place, value) => {
            let byte = arena.input(place)?;
            is(arena, byte, value)
        }
        Wanted::EvenByte(place, value) => {
            let even = with_number(arena, AluOp::And, place, 0xfe)?;
            is(arena, even, value)
        }
        Wanted::SumByte(k, value) => {
            let first = arena.input(0)?;
            let second = arena.input(1)?;
            let sum = arena.intern(Op::Alu(AluOp::Add), first, second)?;
            let k = arena.constant(k)?;
            let byte = arena.intern(Op::Byte, sum, k)?;
            is(arena, byte, value)
        }
        Wanted::Below(place, limit) => with_number(arena, AluOp::Sltu, place, limit),
        Wanted::SumBelow(place, number, limit) => {
            let sum = with_number(arena, AluOp::Add, place, number)?;
            let limit = arena.constant(limit)?;
            arena.intern(Op::Alu(AluOp::Sltu), sum, limit)
        }
        Wanted::NotZero(place) => {
            let byte = arena.input(place)?;
            let is_zero = is(arena, byte, 0)?;
            is(arena, is_zero, 0)
        }
    }
}

/// Whether terms are these, in the same order.
pub(crate) fn are(
    arena: &mut Arena,
    found: &[Term],
    wanted: &[Wanted],
) -> Result<bool, AllocError> {
    if found.len() != wanted.len() {
        return Ok(false);
    }
    for i in 0..wanted.len() {
        if term_of(arena, wanted[i])? != found[i] {
            return Ok(false);
        }
    }
    Ok(true)
}
