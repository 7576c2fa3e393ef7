//! Values with all 256 values of one byte at once: lane `v` has the value with the byte `v`.
//!
//! An operation goes over the lanes in a loop of its own with no choice inside, which LLVM makes of
//! vector instructions.

ghost use Rattle.std.specs.Prelude.{◌<◌, ℕ, List, length};
ghost use Rattle.term_model.specs.Tree.{Const, Input};
ghost use Rattle.narrow_solve.specs.Lanes.{IsOperated, IsCounted, AreLanes};

use rv_word::AluOp;
use term_arena::Op;

/// A word for each value of the byte.
pub(crate) type Lanes = [u32; 256];

/// What the operation makes of the words of each lane.
#[inline(always)]
fn each(op: Op, first: &Lanes, second: &Lanes) -> Lanes
    ensures { IsOperated op first.now second.now 256 result }
{
    let mut lanes = [0; 256];
    for v in 0..256 {
        lanes[v] = op.value(first[v], second[v]);
    }
    lanes
}

/// What the operation makes of the words of each lane. An arm names its operation again, so that
/// the choice is made before the loop; the operations of the last arm are seldom met.
pub(crate) fn operate(op: Op, first: &Lanes, second: &Lanes) -> Lanes
    ensures { IsOperated op first.now second.now 256 result }
{
    match op {
        Op::Alu(AluOp::Add) => each(Op::Alu(AluOp::Add), first, second),
        Op::Alu(AluOp::Sub) => each(Op::Alu(AluOp::Sub), first, second),
        Op::Alu(AluOp::Sll) => each(Op::Alu(AluOp::Sll), first, second),
        Op::Alu(AluOp::Slt) => each(Op::Alu(AluOp::Slt), first, second),
        Op::Alu(AluOp::Sltu) => each(Op::Alu(AluOp::Sltu), first, second),
        Op::Alu(AluOp::Xor) => each(Op::Alu(AluOp::Xor), first, second),
        Op::Alu(AluOp::Srl) => each(Op::Alu(AluOp::Srl), first, second),
        Op::Alu(AluOp::Sra) => each(Op::Alu(AluOp::Sra), first, second),
        Op::Alu(AluOp::Or) => each(Op::Alu(AluOp::Or), first, second),
        Op::Alu(AluOp::And) => each(Op::Alu(AluOp::And), first, second),
        Op::Alu(AluOp::Mul) => each(Op::Alu(AluOp::Mul), first, second),
        Op::Eq => each(Op::Eq, first, second),
        Op::Byte => each(Op::Byte, first, second),
        Op::Pair => each(Op::Pair, first, second),
        Op::Half => each(Op::Half, first, second),
        _ => each(op, first, second),
    }
}

/// The lanes of a constant.
pub(crate) fn of_constant(value: u32) -> Lanes
    ensures { (input : List ℕ) (place : ℕ) → AreLanes (Const value) input place result }
{
    [value; 256]
}

/// The lanes of the byte itself.
fn of_byte() -> Lanes
    ensures { IsCounted 256 result }
{
    let mut lanes = [0; 256];
    for v in 0..256u32 {
        lanes[v as usize] = v;
    }
    lanes
}

/// The lanes of the input's byte at `i`, where the byte at `place` is the one that varies.
pub(crate) fn of_input(input: &[u8], i: usize, place: usize) -> Lanes
    requires read { i < length input.now }
    requires varied { place < length input.now }
    ensures { AreLanes (Input i) input.now place result }
{
    if i == place {
        of_byte()
    } else {
        [u32::from(input[i]); 256]
    }
}
