//! Rules for arithmetic with a constant.

ghost use Rattle.std.specs.Prelude.{◌≡◌, ◌<◌, length};
ghost use Rattle.term_arena.specs.Trees.{tree_of};
ghost use Rattle.normal_form.specs.ArithmeticRules.{keeps_with_zero, is_zero_with_zero, drop_zero, subtract_by_adding};
ghost use Rattle.normal_form.specs.ArithmeticRules.{combine_added_constants, absorb_zero, drop_neutral_constant};
ghost use Rattle.normal_form.specs.ArithmeticRules.{remainder_by_one, or_with_all_ones};
ghost use Rattle.normal_form.specs.Rules.{first_fit, arithmetic_rules};
ghost use Rattle.simplify.specs.Written.{planned, AreBelow};

use crate::reading::is_zero;
use crate::written::Written;
use rv_word::AluOp;
use term_arena::{Arena, Node, Term};
use term_model::Op;

/// Whether the operation with 0 leaves its other operand.
fn keeps_with_zero(op: Op) -> bool
    ensures { result ≡ keeps_with_zero op }
{
    matches!(
        op,
        Op::Alu(
            AluOp::Add | AluOp::Sub | AluOp::Xor | AluOp::Or | AluOp::Sll | AluOp::Srl | AluOp::Sra
        )
    )
}

/// Whether the operation is 0 where its second operand is.
fn is_zero_with_zero(op: Op) -> bool
    ensures { result ≡ is_zero_with_zero op }
{
    matches!(
        op,
        Op::Alu(AluOp::And | AluOp::Mul | AluOp::Mulh | AluOp::Mulhu | AluOp::Mulhsu)
    )
}

/// `Add`, `Sub`, `Xor`, `Or` and the shifts of `(x, 0)` are `x`.
fn drop_zero(arena: &Arena, op: Op, a: Term, b: Term) -> Option<Written>
    requires first { a < length arena.now }
    requires second { b < length arena.now }
    ensures rule { planned arena.now result ≡ drop_zero op (tree_of arena.now a) (tree_of arena.now b) }
    ensures below { AreBelow (length arena.now) result }
{
    match arena.node(b) {
        Node::Const(0) if keeps_with_zero(op) => Some(Written::Known(a)),
        _ => None,
    }
}

/// `Sub(x, c)` is `Add(x, -c)`.
fn subtract_by_adding(arena: &Arena, op: Op, a: Term, b: Term) -> Option<Written>
    requires first { a < length arena.now }
    requires second { b < length arena.now }
    ensures rule { planned arena.now result ≡ subtract_by_adding op (tree_of arena.now a) (tree_of arena.now b) }
    ensures below { AreBelow (length arena.now) result }
{
    match (op, arena.node(b)) {
        (Op::Alu(AluOp::Sub), Node::Const(c)) => Some(Written::WithConstant(
            Op::Alu(AluOp::Add),
            a,
            c.wrapping_neg(),
        )),
        _ => None,
    }
}

/// `Add(Add(x, c), d)` is `Add(x, c + d)`.
fn combine_added_constants(arena: &Arena, op: Op, a: Term, b: Term) -> Option<Written>
    requires first { a < length arena.now }
    requires second { b < length arena.now }
    ensures rule { planned arena.now result ≡ combine_added_constants op (tree_of arena.now a) (tree_of arena.now b) }
    ensures below { AreBelow (length arena.now) result }
{
    let Node::Apply(inner, x, c) = arena.node(a) else {
        return None;
    };
    match (op, inner) {
        (Op::Alu(AluOp::Add), Op::Alu(AluOp::Add)) => match (arena.node(c), arena.node(b)) {
            (Node::Const(c), Node::Const(d)) => {
                Some(Written::WithConstant(op, x, c.wrapping_add(d)))
            }
            _ => None,
        },
        _ => None,
    }
}

/// `And`, `Mul`, `Mulh`, `Mulhu` and `Mulhsu` of `(x, 0)` are 0, and so is `Mulhsu(0, x)`.
fn absorb_zero(arena: &Arena, op: Op, a: Term, b: Term) -> Option<Written>
    requires first { a < length arena.now }
    requires second { b < length arena.now }
    ensures rule { planned arena.now result ≡ absorb_zero op (tree_of arena.now a) (tree_of arena.now b) }
    ensures below { AreBelow (length arena.now) result }
{
    match op {
        Op::Alu(AluOp::Mulhsu) => {
            (is_zero(arena, a) || is_zero(arena, b)).then_some(Written::Constant(0))
        }
        _ => (is_zero_with_zero(op) && is_zero(arena, b)).then_some(Written::Constant(0)),
    }
}

/// `And(x, FFFFFFFF)`, `Mul(x, 1)`, `Div(x, 1)` and `Divu(x, 1)` are `x`.
fn drop_neutral_constant(arena: &Arena, op: Op, a: Term, b: Term) -> Option<Written>
    requires first { a < length arena.now }
    requires second { b < length arena.now }
    ensures rule { planned arena.now result ≡ drop_neutral_constant op (tree_of arena.now a) (tree_of arena.now b) }
    ensures below { AreBelow (length arena.now) result }
{
    let Node::Const(c) = arena.node(b) else {
        return None;
    };
    match op {
        Op::Alu(AluOp::And) if c == u32::MAX => Some(Written::Known(a)),
        Op::Alu(AluOp::Mul | AluOp::Div | AluOp::Divu) if c == 1 => Some(Written::Known(a)),
        _ => None,
    }
}

/// `Rem(x, 1)` and `Remu(x, 1)` are 0.
fn remainder_by_one(arena: &Arena, op: Op, a: Term, b: Term) -> Option<Written>
    requires first { a < length arena.now }
    requires second { b < length arena.now }
    ensures rule { planned arena.now result ≡ remainder_by_one op (tree_of arena.now a) (tree_of arena.now b) }
    ensures below { AreBelow (length arena.now) result }
{
    match (op, arena.node(b)) {
        (Op::Alu(AluOp::Rem | AluOp::Remu), Node::Const(1)) => Some(Written::Constant(0)),
        _ => None,
    }
}

/// `Or(x, FFFFFFFF)` is FFFFFFFF.
fn or_with_all_ones(arena: &Arena, op: Op, a: Term, b: Term) -> Option<Written>
    requires first { a < length arena.now }
    requires second { b < length arena.now }
    ensures rule { planned arena.now result ≡ or_with_all_ones op (tree_of arena.now a) (tree_of arena.now b) }
    ensures below { AreBelow (length arena.now) result }
{
    match (op, arena.node(b)) {
        (Op::Alu(AluOp::Or), Node::Const(u32::MAX)) => Some(Written::Constant(u32::MAX)),
        _ => None,
    }
}

/// The first of these rules that fits.
#[tactic(auto, unfolding(normal_form::specs::Rules::arithmetic_rules))]
pub(crate) fn arithmetic_rules(arena: &Arena, op: Op, a: Term, b: Term) -> Option<Written>
    requires first { a < length arena.now }
    requires second { b < length arena.now }
    ensures rule { planned arena.now result
        ≡ first_fit arithmetic_rules op (tree_of arena.now a) (tree_of arena.now b) }
    ensures below { AreBelow (length arena.now) result }
{
    drop_zero(arena, op, a, b)
        .or_else(|| subtract_by_adding(arena, op, a, b))
        .or_else(|| combine_added_constants(arena, op, a, b))
        .or_else(|| absorb_zero(arena, op, a, b))
        .or_else(|| drop_neutral_constant(arena, op, a, b))
        .or_else(|| remainder_by_one(arena, op, a, b))
        .or_else(|| or_with_all_ones(arena, op, a, b))
}
