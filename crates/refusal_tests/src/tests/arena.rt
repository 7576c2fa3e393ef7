//! Terms of an arena.

ghost use Rattle.std.specs.Prelude.{◌<◌, length, IfOk};
ghost use Rattle.term_arena.specs.Trees.{Extends};

use no_memory::NoMemory;
use rv_machine::trace_of;
use rv_word::AluOp;
use std::alloc::Global;
use sym_replay::replay;
use term_arena::{Arena, Node, Op, Term};
use test_programs::words::OVERFLOW;
use test_programs::{ProgramError, program_image};

/// The first byte of the input, the number 5, and their sum.
#[derive(Clone, Copy)]
struct FirstTerms {
    byte: Term,
    five: Term,
    sum: Term,
}

fn make_first(arena: &mut Arena) -> Result<FirstTerms, NoMemory>
    ensures byte { IfOk result (λ k. k.byte < length arena.new) }
    ensures five { IfOk result (λ k. k.five < length arena.new) }
    ensures sum { IfOk result (λ k. k.sum < length arena.new) }
{
    let byte = arena.input(0)?;
    let five = arena.constant(5)?;
    let sum = arena.intern(Op::Alu(AluOp::Add), byte, five)?;
    Ok(FirstTerms { byte, five, sum })
}

/// Whether the three are what they were made as, and their trees are found again.
fn stand(arena: &mut Arena, k: FirstTerms) -> bool
    requires byte { k.byte < length arena.old }
    requires five { k.five < length arena.old }
    requires sum { k.sum < length arena.old }
    ensures keeps { Extends arena.old arena.new }
{
    let sum = Op::Alu(AluOp::Add);
    arena.node(k.byte) == Node::Input(0)
        && arena.node(k.five) == Node::Const(5)
        && arena.node(k.sum) == Node::Apply(sum, k.byte, k.five)
        && arena.zero_bytes(k.byte) == 14
        && arena.intern(sum, k.byte, k.five) == Ok(k.sum)
}

/// Another term: in turn a byte, a number and an operation on the last number.
fn another(arena: &mut Arena, last: Term, i: u32) -> Result<Term, NoMemory>
    requires last { last < length arena.old }
    ensures below { IfOk result (λ t. t < length arena.new) }
    ensures keeps { Extends arena.old arena.new }
{
    match i % 3 {
        0 => arena.input(i),
        1 => arena.constant(i),
        _ => arena.intern(Op::Pair, last, last),
    }
}

/// Whether terms stand after each refusal of a call that makes one.
pub(super) fn stand_after_calls(alloc: Global) -> Result<bool, NoMemory> {
    let mut arena = Arena::new(alloc)?;
    let known = make_first(&mut arena)?;
    let mut last = known.sum;
    for i in 6..5000 {
        let count = arena.len();
        last = match another(&mut arena, last, i) {
            Ok(t) => t,
            Err(_) => {
                if arena.len() != count || !stand(&mut arena, known) {
                    return Ok(false);
                }
                another(&mut arena, last, i)?
            }
        };
    }
    Ok(arena.len() == 4997 && stand(&mut arena, known))
}

/// Whether terms stand after a replay that is refused. The replay of an overwritten return address has four
/// conditions.
pub(super) fn stand_after_replay(alloc: Global) -> Result<bool, ProgramError> {
    let mut arena = Arena::new(alloc)?;
    let known = make_first(&mut arena)?;
    let image = program_image(alloc, &OVERFLOW, &[])?;
    let transcript = trace_of(alloc, &image, &[0x61; 64], 1000)?;
    let conditions = match replay(alloc, &image, &transcript, &mut arena) {
        Ok(conditions) => conditions,
        Err(_) => {
            if !stand(&mut arena, known) {
                return Ok(false);
            }
            replay(alloc, &image, &transcript, &mut arena)?
        }
    };
    Ok(conditions.list().len() == 4 && stand(&mut arena, known))
}
