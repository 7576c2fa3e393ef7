//! Rules for equality.

ghost use Rattle.std.specs.Prelude.{◌≡◌, ◌<◌, length};
ghost use Rattle.term_arena.specs.Trees.{tree_of};
ghost use Rattle.normal_form.specs.EqualityRules.{differs_at_byte, xor_across_equality, add_across_equality};
ghost use Rattle.normal_form.specs.EqualityRules.{difference_is_zero, truth_is_one, double_negation};
ghost use Rattle.normal_form.specs.EqualityRules.{truth_is_no_larger, zero_byte_differs};
ghost use Rattle.normal_form.specs.Rules.{first_fit, equality_rules};
ghost use Rattle.simplify.specs.Written.{planned, AreBelow};

use crate::reading::{is_truth, is_zero_byte};
use crate::written::Written;
use rv_word::{AluOp, byte_of};
use term_arena::{Arena, Node, Term};
use term_model::Op;

/// Whether byte `k` is zero in the term, and not in the constant.
fn differs_at_byte(arena: &Arena, x: Term, c: u32, k: u8) -> bool
    requires belongs { x < length arena.now }
    requires byte_number { k < 4 }
    ensures { result ≡ differs_at_byte (tree_of arena.now x) c k }
{
    byte_of(k, c) != 0 && is_zero_byte(arena, x, u32::from(k))
}

/// `Eq(Xor(x, c), d)` is `Eq(x, c xor d)`.
fn xor_across_equality(arena: &Arena, op: Op, a: Term, b: Term) -> Option<Written>
    requires first { a < length arena.now }
    requires second { b < length arena.now }
    ensures rule { planned arena.now result ≡ xor_across_equality op (tree_of arena.now a) (tree_of arena.now b) }
    ensures below { AreBelow (length arena.now) result }
{
    let Node::Apply(inner, x, c) = arena.node(a) else {
        return None;
    };
    match (op, inner) {
        (Op::Eq, Op::Alu(AluOp::Xor)) => match (arena.node(c), arena.node(b)) {
            (Node::Const(c), Node::Const(d)) => { Some(Written::WithConstant(Op::Eq, x, c ^ d)) }
            _ => None,
        },
        _ => None,
    }
}

/// `Eq(Add(x, c), d)` is `Eq(x, d - c)`.
fn add_across_equality(arena: &Arena, op: Op, a: Term, b: Term) -> Option<Written>
    requires first { a < length arena.now }
    requires second { b < length arena.now }
    ensures rule { planned arena.now result ≡ add_across_equality op (tree_of arena.now a) (tree_of arena.now b) }
    ensures below { AreBelow (length arena.now) result }
{
    let Node::Apply(inner, x, c) = arena.node(a) else {
        return None;
    };
    match (op, inner) {
        (Op::Eq, Op::Alu(AluOp::Add)) => match (arena.node(c), arena.node(b)) {
            (Node::Const(c), Node::Const(d)) => {
                Some(Written::WithConstant(Op::Eq, x, d.wrapping_sub(c)))
            }
            _ => None,
        },
        _ => None,
    }
}

/// `Eq(Xor(x, y), 0)` and `Eq(Sub(x, y), 0)` are `Eq(x, y)`.
fn difference_is_zero(arena: &Arena, op: Op, a: Term, b: Term) -> Option<Written>
    requires first { a < length arena.now }
    requires second { b < length arena.now }
    ensures rule { planned arena.now result ≡ difference_is_zero op (tree_of arena.now a) (tree_of arena.now b) }
    ensures below { AreBelow (length arena.now) result }
{
    let Node::Apply(inner, x, y) = arena.node(a) else {
        return None;
    };
    match (op, inner, arena.node(b)) {
        (Op::Eq, Op::Alu(AluOp::Xor | AluOp::Sub), Node::Const(0)) => {
            Some(Written::Operation(Op::Eq, x, y))
        }
        _ => None,
    }
}

/// `Eq(t, 1)` is `t`, where `t` is a truth term.
fn truth_is_one(arena: &Arena, op: Op, a: Term, b: Term) -> Option<Written>
    requires first { a < length arena.now }
    requires second { b < length arena.now }
    ensures rule { planned arena.now result ≡ truth_is_one op (tree_of arena.now a) (tree_of arena.now b) }
    ensures below { AreBelow (length arena.now) result }
{
    match (op, arena.node(b)) {
        (Op::Eq, Node::Const(1)) if is_truth(arena, a) => Some(Written::Known(a)),
        _ => None,
    }
}

/// `Eq(Eq(t, 0), 0)` is `t`, where `t` is a truth term.
fn double_negation(arena: &Arena, op: Op, a: Term, b: Term) -> Option<Written>
    requires first { a < length arena.now }
    requires second { b < length arena.now }
    ensures rule { planned arena.now result ≡ double_negation op (tree_of arena.now a) (tree_of arena.now b) }
    ensures below { AreBelow (length arena.now) result }
{
    let Node::Apply(inner, t, c) = arena.node(a) else {
        return None;
    };
    match (op, inner, arena.node(c), arena.node(b)) {
        (Op::Eq, Op::Eq, Node::Const(0), Node::Const(0)) if is_truth(arena, t) => {
            Some(Written::Known(t))
        }
        _ => None,
    }
}

/// `Eq(t, c)` is 0, where `t` is a truth term and `c` is above 1.
fn truth_is_no_larger(arena: &Arena, op: Op, a: Term, b: Term) -> Option<Written>
    requires first { a < length arena.now }
    requires second { b < length arena.now }
    ensures rule { planned arena.now result ≡ truth_is_no_larger op (tree_of arena.now a) (tree_of arena.now b) }
    ensures below { AreBelow (length arena.now) result }
{
    match (op, arena.node(b)) {
        (Op::Eq, Node::Const(c)) if is_truth(arena, a) && c > 1 => Some(Written::Constant(0)),
        _ => None,
    }
}

/// `Eq(x, c)` is 0, where a byte that is zero in `x` isn't zero in `c`.
fn zero_byte_differs(arena: &Arena, op: Op, a: Term, b: Term) -> Option<Written>
    requires first { a < length arena.now }
    requires second { b < length arena.now }
    ensures rule { planned arena.now result ≡ zero_byte_differs op (tree_of arena.now a) (tree_of arena.now b) }
    ensures below { AreBelow (length arena.now) result }
{
    match (op, arena.node(b)) {
        (Op::Eq, Node::Const(c))
            if differs_at_byte(arena, a, c, 0)
                || differs_at_byte(arena, a, c, 1)
                || differs_at_byte(arena, a, c, 2)
                || differs_at_byte(arena, a, c, 3) => { Some(Written::Constant(0)) }
        _ => None,
    }
}

/// The first of these rules that fits.
#[tactic(auto, unfolding(normal_form::specs::Rules::equality_rules))]
pub(crate) fn equality_rules(arena: &Arena, op: Op, a: Term, b: Term) -> Option<Written>
    requires first { a < length arena.now }
    requires second { b < length arena.now }
    ensures rule { planned arena.now result ≡ first_fit equality_rules op (tree_of arena.now a) (tree_of arena.now b) }
    ensures below { AreBelow (length arena.now) result }
{
    xor_across_equality(arena, op, a, b)
        .or_else(|| add_across_equality(arena, op, a, b))
        .or_else(|| difference_is_zero(arena, op, a, b))
        .or_else(|| truth_is_one(arena, op, a, b))
        .or_else(|| double_negation(arena, op, a, b))
        .or_else(|| truth_is_no_larger(arena, op, a, b))
        .or_else(|| zero_byte_differs(arena, op, a, b))
}
