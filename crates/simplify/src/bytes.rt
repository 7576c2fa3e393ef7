//! Rules for the bytes of a word.

ghost use Rattle.std.specs.Prelude.{◌≡◌, ◌<◌, length};
ghost use Rattle.term_arena.specs.Trees.{tree_of};
ghost use Rattle.normal_form.specs.ByteRules.{byte_is_zero, byte_of_one_byte, byte_of_pair, byte_of_half};
ghost use Rattle.normal_form.specs.ByteRules.{byte_beside_zero, byte_under_mask, byte_of_left_shift};
ghost use Rattle.normal_form.specs.ByteRules.{byte_of_right_shift};
ghost use Rattle.normal_form.specs.Rules.{first_fit, byte_rules};
ghost use Rattle.simplify.specs.Written.{planned, AreBelow};

use crate::reading::{is_all_ones, is_byte_shift, is_one_byte, is_zero_byte};
use crate::written::Written;
use rv_word::AluOp;
use term_arena::{Arena, Node, Term};
use term_model::Op;

/// `Byte(x, k)` is 0, where byte `k` of `x` is zero.
fn byte_is_zero(arena: &Arena, op: Op, a: Term, b: Term) -> Option<Written>
    requires first { a < length arena.now }
    requires second { b < length arena.now }
    ensures rule { planned arena.now result ≡ byte_is_zero op (tree_of arena.now a) (tree_of arena.now b) }
    ensures below { AreBelow (length arena.now) result }
{
    match (op, arena.node(b)) {
        (Op::Byte, Node::Const(k)) if is_zero_byte(arena, a, k) => Some(Written::Constant(0)),
        _ => None,
    }
}

/// `Byte(x, 0)` is `x`, where `x` is one byte.
fn byte_of_one_byte(arena: &Arena, op: Op, a: Term, b: Term) -> Option<Written>
    requires first { a < length arena.now }
    requires second { b < length arena.now }
    ensures rule { planned arena.now result ≡ byte_of_one_byte op (tree_of arena.now a) (tree_of arena.now b) }
    ensures below { AreBelow (length arena.now) result }
{
    match (op, arena.node(b)) {
        (Op::Byte, Node::Const(0)) if is_one_byte(arena, a) => Some(Written::Known(a)),
        _ => None,
    }
}

/// `Byte(Pair(x, y), 0)` is `Byte(x, 0)`, and `Byte(Pair(x, y), 1)` is `Byte(y, 0)`.
fn byte_of_pair(arena: &Arena, op: Op, a: Term, b: Term) -> Option<Written>
    requires first { a < length arena.now }
    requires second { b < length arena.now }
    ensures rule { planned arena.now result ≡ byte_of_pair op (tree_of arena.now a) (tree_of arena.now b) }
    ensures below { AreBelow (length arena.now) result }
{
    if op != Op::Byte {
        return None;
    }
    let Node::Apply(inner, x, y) = arena.node(a) else {
        return None;
    };
    let Node::Const(k) = arena.node(b) else {
        return None;
    };
    match inner {
        Op::Pair if k == 0 => Some(Written::WithConstant(Op::Byte, x, 0)),
        Op::Pair if k == 1 => Some(Written::WithConstant(Op::Byte, y, 0)),
        _ => None,
    }
}

/// `Byte(Half(x, y), k)` is `Byte(x, k)` for `k` below 2, else `Byte(y, k - 2)`.
fn byte_of_half(arena: &Arena, op: Op, a: Term, b: Term) -> Option<Written>
    requires first { a < length arena.now }
    requires second { b < length arena.now }
    ensures rule { planned arena.now result ≡ byte_of_half op (tree_of arena.now a) (tree_of arena.now b) }
    ensures below { AreBelow (length arena.now) result }
{
    if op != Op::Byte {
        return None;
    }
    let Node::Apply(inner, x, y) = arena.node(a) else {
        return None;
    };
    let Node::Const(k) = arena.node(b) else {
        return None;
    };
    match inner {
        Op::Half if k < 2 => Some(Written::WithConstant(Op::Byte, x, k)),
        Op::Half => Some(Written::WithConstant(Op::Byte, y, k - 2)),
        _ => None,
    }
}

/// `Byte` of `Or(x, y)` or `Xor(x, y)` at `k` is `Byte(x, k)` where byte `k` of `y` is zero, else
/// `Byte(y, k)` where that of `x` is.
fn byte_beside_zero(arena: &Arena, op: Op, a: Term, b: Term) -> Option<Written>
    requires first { a < length arena.now }
    requires second { b < length arena.now }
    ensures rule { planned arena.now result ≡ byte_beside_zero op (tree_of arena.now a) (tree_of arena.now b) }
    ensures below { AreBelow (length arena.now) result }
{
    let Node::Apply(inner, x, y) = arena.node(a) else {
        return None;
    };
    match (op, inner, arena.node(b)) {
        (Op::Byte, Op::Alu(AluOp::Or | AluOp::Xor), Node::Const(k)) => {
            if is_zero_byte(arena, y, k) {
                Some(Written::WithConstant(Op::Byte, x, k))
            } else if is_zero_byte(arena, x, k) {
                Some(Written::WithConstant(Op::Byte, y, k))
            } else {
                None
            }
        }
        _ => None,
    }
}

/// `Byte(And(x, c), k)` is `Byte(x, k)`, where byte `k` of `c` is FF.
fn byte_under_mask(arena: &Arena, op: Op, a: Term, b: Term) -> Option<Written>
    requires first { a < length arena.now }
    requires second { b < length arena.now }
    ensures rule { planned arena.now result ≡ byte_under_mask op (tree_of arena.now a) (tree_of arena.now b) }
    ensures below { AreBelow (length arena.now) result }
{
    let Node::Apply(inner, x, c) = arena.node(a) else {
        return None;
    };
    match (op, inner) {
        (Op::Byte, Op::Alu(AluOp::And)) => match (arena.node(c), arena.node(b)) {
            (Node::Const(c), Node::Const(k)) if is_all_ones(c, k) => {
                Some(Written::WithConstant(Op::Byte, x, k))
            }
            _ => None,
        },
        _ => None,
    }
}

/// `Byte(Sll(x, 8j), k)` is `Byte(x, k - j)`, for `j` from 1 to 3 and `k` at least `j`.
fn byte_of_left_shift(arena: &Arena, op: Op, a: Term, b: Term) -> Option<Written>
    requires first { a < length arena.now }
    requires second { b < length arena.now }
    ensures rule { planned arena.now result ≡ byte_of_left_shift op (tree_of arena.now a) (tree_of arena.now b) }
    ensures below { AreBelow (length arena.now) result }
{
    let Node::Apply(inner, x, c) = arena.node(a) else {
        return None;
    };
    match (op, inner) {
        (Op::Byte, Op::Alu(AluOp::Sll)) => match (arena.node(c), arena.node(b)) {
            (Node::Const(c), Node::Const(k)) if is_byte_shift(c) && k >= c / 8 => {
                Some(Written::WithConstant(Op::Byte, x, k - c / 8))
            }
            _ => None,
        },
        _ => None,
    }
}

/// `Byte` of `Srl(x, 8j)` or `Sra(x, 8j)` at `k` is `Byte(x, k + j)`, for `j` from 1 to 3 and `k + j`
/// at most 3.
fn byte_of_right_shift(arena: &Arena, op: Op, a: Term, b: Term) -> Option<Written>
    requires first { a < length arena.now }
    requires second { b < length arena.now }
    ensures rule { planned arena.now result ≡ byte_of_right_shift op (tree_of arena.now a) (tree_of arena.now b) }
    ensures below { AreBelow (length arena.now) result }
{
    let Node::Apply(inner, x, c) = arena.node(a) else {
        return None;
    };
    match (op, inner) {
        (Op::Byte, Op::Alu(AluOp::Srl | AluOp::Sra)) => match (arena.node(c), arena.node(b)) {
            (Node::Const(c), Node::Const(k)) if is_byte_shift(c) && k <= 3 && k + c / 8 <= 3 => {
                Some(Written::WithConstant(Op::Byte, x, k + c / 8))
            }
            _ => None,
        },
        _ => None,
    }
}

/// The first of these rules that fits.
#[tactic(auto, unfolding(normal_form::specs::Rules::byte_rules))]
pub(crate) fn byte_rules(arena: &Arena, op: Op, a: Term, b: Term) -> Option<Written>
    requires first { a < length arena.now }
    requires second { b < length arena.now }
    ensures rule { planned arena.now result ≡ first_fit byte_rules op (tree_of arena.now a) (tree_of arena.now b) }
    ensures below { AreBelow (length arena.now) result }
{
    byte_is_zero(arena, op, a, b)
        .or_else(|| byte_of_one_byte(arena, op, a, b))
        .or_else(|| byte_of_pair(arena, op, a, b))
        .or_else(|| byte_of_half(arena, op, a, b))
        .or_else(|| byte_beside_zero(arena, op, a, b))
        .or_else(|| byte_under_mask(arena, op, a, b))
        .or_else(|| byte_of_left_shift(arena, op, a, b))
        .or_else(|| byte_of_right_shift(arena, op, a, b))
}
