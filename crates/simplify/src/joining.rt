//! Rules for words that are made of bytes.

ghost use Rattle.std.specs.Prelude.{◌≡◌, ◌<◌, length};
ghost use Rattle.term_arena.specs.Trees.{tree_of};
ghost use Rattle.normal_form.specs.ByteRules.{is_byte_of, pair_with_zero, half_with_zero, pair_of_own_bytes, half_of_own_bytes};
ghost use Rattle.normal_form.specs.Rules.{first_fit, joining_rules};
ghost use Rattle.simplify.specs.Written.{planned, AreBelow};

use crate::reading::{is_half_word, same};
use crate::written::Written;
use term_arena::{Arena, Node, Term};
use term_model::Op;

/// Whether the term `t` is `Byte(x, k)`.
fn is_byte_of(arena: &Arena, x: Term, k: u32, t: Term) -> bool
    requires first { x < length arena.now }
    requires second { t < length arena.now }
    ensures { result ≡ is_byte_of (tree_of arena.now x) k (tree_of arena.now t) }
{
    let Node::Apply(inner, y, j) = arena.node(t) else {
        return false;
    };
    match (inner, arena.node(j)) {
        (Op::Byte, Node::Const(j)) => j == k && same(arena, y, x),
        _ => false,
    }
}

/// `Pair(x, 0)` is `Byte(x, 0)`.
fn pair_with_zero(arena: &Arena, op: Op, a: Term, b: Term) -> Option<Written>
    requires first { a < length arena.now }
    requires second { b < length arena.now }
    ensures rule { planned arena.now result ≡ pair_with_zero op (tree_of arena.now a) (tree_of arena.now b) }
    ensures below { AreBelow (length arena.now) result }
{
    match (op, arena.node(b)) {
        (Op::Pair, Node::Const(0)) => Some(Written::WithConstant(Op::Byte, a, 0)),
        _ => None,
    }
}

/// `Half(x, 0)` is `x`, where the two upper bytes of `x` are zero.
fn half_with_zero(arena: &Arena, op: Op, a: Term, b: Term) -> Option<Written>
    requires first { a < length arena.now }
    requires second { b < length arena.now }
    ensures rule { planned arena.now result ≡ half_with_zero op (tree_of arena.now a) (tree_of arena.now b) }
    ensures below { AreBelow (length arena.now) result }
{
    match (op, arena.node(b)) {
        (Op::Half, Node::Const(0)) if is_half_word(arena, a) => Some(Written::Known(a)),
        _ => None,
    }
}

/// `Pair(Byte(x, 0), Byte(x, 1))` is `x`, where the two upper bytes of `x` are zero.
fn pair_of_own_bytes(arena: &Arena, op: Op, a: Term, b: Term) -> Option<Written>
    requires first { a < length arena.now }
    requires second { b < length arena.now }
    ensures rule { planned arena.now result ≡ pair_of_own_bytes op (tree_of arena.now a) (tree_of arena.now b) }
    ensures below { AreBelow (length arena.now) result }
{
    let Node::Apply(inner, x, _) = arena.node(a) else {
        return None;
    };
    match (op, inner) {
        (Op::Pair, Op::Byte)
            if is_byte_of(arena, x, 0, a) && is_byte_of(arena, x, 1, b) && is_half_word(arena, x) =>
            { Some(Written::Known(x)) }
        _ => None,
    }
}

/// `Half(Pair(Byte(x, 0), Byte(x, 1)), Pair(Byte(x, 2), Byte(x, 3)))` is `x`.
fn half_of_own_bytes(arena: &Arena, op: Op, a: Term, b: Term) -> Option<Written>
    requires first { a < length arena.now }
    requires second { b < length arena.now }
    ensures rule { planned arena.now result ≡ half_of_own_bytes op (tree_of arena.now a) (tree_of arena.now b) }
    ensures below { AreBelow (length arena.now) result }
{
    let Node::Apply(lower, p, q) = arena.node(a) else {
        return None;
    };
    let Node::Apply(upper, r, s) = arena.node(b) else {
        return None;
    };
    let Node::Apply(byte, x, _) = arena.node(p) else {
        return None;
    };
    match (op, lower, upper, byte) {
        (Op::Half, Op::Pair, Op::Pair, Op::Byte)
            if is_byte_of(arena, x, 0, p)
                && is_byte_of(arena, x, 1, q)
                && is_byte_of(arena, x, 2, r)
                && is_byte_of(arena, x, 3, s) => { Some(Written::Known(x)) }
        _ => None,
    }
}

/// The first of these rules that fits.
#[tactic(auto, unfolding(normal_form::specs::Rules::joining_rules))]
pub(crate) fn joining_rules(arena: &Arena, op: Op, a: Term, b: Term) -> Option<Written>
    requires first { a < length arena.now }
    requires second { b < length arena.now }
    ensures rule { planned arena.now result ≡ first_fit joining_rules op (tree_of arena.now a) (tree_of arena.now b) }
    ensures below { AreBelow (length arena.now) result }
{
    pair_with_zero(arena, op, a, b)
        .or_else(|| half_with_zero(arena, op, a, b))
        .or_else(|| pair_of_own_bytes(arena, op, a, b))
        .or_else(|| half_of_own_bytes(arena, op, a, b))
}
