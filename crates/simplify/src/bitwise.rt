//! Rules for equal operands, bitwise operations and shifts.

ghost use Rattle.std.specs.Prelude.{◌≡◌, ◌<◌, length};
ghost use Rattle.term_arena.specs.Trees.{tree_of};
ghost use Rattle.normal_form.specs.ArithmeticRules.{passes_byte, drop_repeated_operand, cancel_repeated_operand};
ghost use Rattle.normal_form.specs.ArithmeticRules.{equal_to_itself, combine_bitwise_constants, drop_mask};
ghost use Rattle.normal_form.specs.ArithmeticRules.{combine_shifts, shift_all_out};
ghost use Rattle.normal_form.specs.Rules.{first_fit, bitwise_rules};
ghost use Rattle.simplify.specs.Written.{planned, AreBelow};

use crate::reading::{is_all_ones, is_zero_byte, same};
use crate::written::Written;
use rv_word::AluOp;
use term_arena::{Arena, Node, Term};
use term_model::Op;

/// Whether byte `k` of the mask `c` is FF, or byte `k` of the term is zero.
fn passes_byte(arena: &Arena, x: Term, c: u32, k: u32) -> bool
    requires { x < length arena.now }
    ensures { result ≡ passes_byte (tree_of arena.now x) c k }
{
    is_all_ones(c, k) || is_zero_byte(arena, x, k)
}

/// `And(x, x)` and `Or(x, x)` are `x`.
fn drop_repeated_operand(arena: &Arena, op: Op, a: Term, b: Term) -> Option<Written>
    requires first { a < length arena.now }
    requires second { b < length arena.now }
    ensures rule { planned arena.now result ≡ drop_repeated_operand op (tree_of arena.now a) (tree_of arena.now b) }
    ensures below { AreBelow (length arena.now) result }
{
    match op {
        Op::Alu(AluOp::And | AluOp::Or) if same(arena, a, b) => Some(Written::Known(a)),
        _ => None,
    }
}

/// `Xor(x, x)`, `Sub(x, x)`, `Slt(x, x)` and `Sltu(x, x)` are 0.
fn cancel_repeated_operand(arena: &Arena, op: Op, a: Term, b: Term) -> Option<Written>
    requires first { a < length arena.now }
    requires second { b < length arena.now }
    ensures rule { planned arena.now result ≡ cancel_repeated_operand op (tree_of arena.now a) (tree_of arena.now b) }
    ensures below { AreBelow (length arena.now) result }
{
    match op {
        Op::Alu(AluOp::Xor | AluOp::Sub | AluOp::Slt | AluOp::Sltu) if same(arena, a, b) => {
            Some(Written::Constant(0))
        }
        _ => None,
    }
}

/// `Eq(x, x)` is 1.
fn equal_to_itself(arena: &Arena, op: Op, a: Term, b: Term) -> Option<Written>
    requires first { a < length arena.now }
    requires second { b < length arena.now }
    ensures rule { planned arena.now result ≡ equal_to_itself op (tree_of arena.now a) (tree_of arena.now b) }
    ensures below { AreBelow (length arena.now) result }
{
    match op {
        Op::Eq if same(arena, a, b) => Some(Written::Constant(1)),
        _ => None,
    }
}

/// `And(And(x, c), d)` is `And(x, c and d)`, and so with `Or` and `Xor`.
fn combine_bitwise_constants(arena: &Arena, op: Op, a: Term, b: Term) -> Option<Written>
    requires first { a < length arena.now }
    requires second { b < length arena.now }
    ensures rule { planned arena.now result ≡ combine_bitwise_constants op (tree_of arena.now a) (tree_of arena.now b) }
    ensures below { AreBelow (length arena.now) result }
{
    let Node::Apply(inner, x, c) = arena.node(a) else {
        return None;
    };
    match (op, inner) {
        (Op::Alu(AluOp::And), Op::Alu(AluOp::And))
        | (Op::Alu(AluOp::Or), Op::Alu(AluOp::Or))
        | (Op::Alu(AluOp::Xor), Op::Alu(AluOp::Xor)) => match (arena.node(c), arena.node(b)) {
            (Node::Const(c), Node::Const(d)) => {
                Some(Written::WithConstant(op, x, op.value(c, d)))
            }
            _ => None,
        },
        _ => None,
    }
}

/// `And(x, c)` is `x`, where each byte of `c` is FF or is zero in `x`.
fn drop_mask(arena: &Arena, op: Op, a: Term, b: Term) -> Option<Written>
    requires first { a < length arena.now }
    requires second { b < length arena.now }
    ensures rule { planned arena.now result ≡ drop_mask op (tree_of arena.now a) (tree_of arena.now b) }
    ensures below { AreBelow (length arena.now) result }
{
    match (op, arena.node(b)) {
        (Op::Alu(AluOp::And), Node::Const(c))
            if passes_byte(arena, a, c, 0)
                && passes_byte(arena, a, c, 1)
                && passes_byte(arena, a, c, 2)
                && passes_byte(arena, a, c, 3) => { Some(Written::Known(a)) }
        _ => None,
    }
}

/// Two shifts to the left, or two to the right with zeros, are one, by less than 32 in all.
fn combine_shifts(arena: &Arena, op: Op, a: Term, b: Term) -> Option<Written>
    requires first { a < length arena.now }
    requires second { b < length arena.now }
    ensures rule { planned arena.now result ≡ combine_shifts op (tree_of arena.now a) (tree_of arena.now b) }
    ensures below { AreBelow (length arena.now) result }
{
    let Node::Apply(inner, x, c) = arena.node(a) else {
        return None;
    };
    match (op, inner) {
        (Op::Alu(AluOp::Sll), Op::Alu(AluOp::Sll)) | (Op::Alu(AluOp::Srl), Op::Alu(AluOp::Srl)) =>
            match (arena.node(c), arena.node(b)) {
                (Node::Const(c), Node::Const(d)) if c < 32 && d < 32 - c => {
                    Some(Written::WithConstant(op, x, c + d))
                }
                _ => None,
            },
        _ => None,
    }
}

/// Two such shifts by 32 or more in all leave 0.
fn shift_all_out(arena: &Arena, op: Op, a: Term, b: Term) -> Option<Written>
    requires first { a < length arena.now }
    requires second { b < length arena.now }
    ensures rule { planned arena.now result ≡ shift_all_out op (tree_of arena.now a) (tree_of arena.now b) }
    ensures below { AreBelow (length arena.now) result }
{
    let Node::Apply(inner, _, c) = arena.node(a) else {
        return None;
    };
    match (op, inner) {
        (Op::Alu(AluOp::Sll), Op::Alu(AluOp::Sll)) | (Op::Alu(AluOp::Srl), Op::Alu(AluOp::Srl)) =>
            match (arena.node(c), arena.node(b)) {
                (Node::Const(c), Node::Const(d)) if c >= 32 || d >= 32 - c => {
                    Some(Written::Constant(0))
                }
                _ => None,
            },
        _ => None,
    }
}

/// The first of these rules that fits.
#[tactic(auto, unfolding(normal_form::specs::Rules::bitwise_rules))]
pub(crate) fn bitwise_rules(arena: &Arena, op: Op, a: Term, b: Term) -> Option<Written>
    requires first { a < length arena.now }
    requires second { b < length arena.now }
    ensures rule { planned arena.now result ≡ first_fit bitwise_rules op (tree_of arena.now a) (tree_of arena.now b) }
    ensures below { AreBelow (length arena.now) result }
{
    drop_repeated_operand(arena, op, a, b)
        .or_else(|| cancel_repeated_operand(arena, op, a, b))
        .or_else(|| equal_to_itself(arena, op, a, b))
        .or_else(|| combine_bitwise_constants(arena, op, a, b))
        .or_else(|| drop_mask(arena, op, a, b))
        .or_else(|| combine_shifts(arena, op, a, b))
        .or_else(|| shift_all_out(arena, op, a, b))
}
