//! Rules that put operands in order.

ghost use Rattle.std.specs.Prelude.{◌≡◌, ◌<◌, length};
ghost use Rattle.term_arena.specs.Trees.{tree_of};
ghost use Rattle.normal_form.specs.ArithmeticRules.{commutes, is_shift, fold_constants, constant_to_the_right, reduce_shift_amount};
ghost use Rattle.normal_form.specs.Rules.{first_fit, ordering_rules};
ghost use Rattle.simplify.specs.Written.{planned, AreBelow};

use crate::reading::is_constant;
use crate::written::Written;
use rv_word::AluOp;
use term_arena::{Arena, Node, Term};
use term_model::Op;

/// Whether the operation is the same with its operands turned.
fn commutes(op: Op) -> bool
    ensures { result ≡ commutes op }
{
    match op {
        Op::Eq => true,
        Op::Alu(
            AluOp::Add
            | AluOp::Mul
            | AluOp::Mulh
            | AluOp::Mulhu
            | AluOp::And
            | AluOp::Or
            | AluOp::Xor,
        ) => true,
        _ => false,
    }
}

/// Whether the operation shifts.
fn is_shift(op: Op) -> bool
    ensures { result ≡ is_shift op }
{
    matches!(op, Op::Alu(AluOp::Sll | AluOp::Srl | AluOp::Sra))
}

/// An operation on two constants is the constant of its value.
fn fold_constants(arena: &Arena, op: Op, a: Term, b: Term) -> Option<Written>
    requires first { a < length arena.now }
    requires second { b < length arena.now }
    ensures rule { planned arena.now result ≡ fold_constants op (tree_of arena.now a) (tree_of arena.now b) }
    ensures below { AreBelow (length arena.now) result }
{
    match (arena.node(a), arena.node(b)) {
        (Node::Const(c), Node::Const(d)) => Some(Written::Constant(op.value(c, d))),
        _ => None,
    }
}

/// `op(c, x)` is `op(x, c)`, where the operation commutes and `x` is no constant.
fn constant_to_the_right(arena: &Arena, op: Op, a: Term, b: Term) -> Option<Written>
    requires first { a < length arena.now }
    requires second { b < length arena.now }
    ensures rule { planned arena.now result ≡ constant_to_the_right op (tree_of arena.now a) (tree_of arena.now b) }
    ensures below { AreBelow (length arena.now) result }
{
    match arena.node(a) {
        Node::Const(_) if commutes(op) && !is_constant(arena, b) => {
            Some(Written::Operation(op, b, a))
        }
        _ => None,
    }
}

/// A shift by `c` above 31 is the shift by `c` modulo 32.
fn reduce_shift_amount(arena: &Arena, op: Op, a: Term, b: Term) -> Option<Written>
    requires first { a < length arena.now }
    requires second { b < length arena.now }
    ensures rule { planned arena.now result ≡ reduce_shift_amount op (tree_of arena.now a) (tree_of arena.now b) }
    ensures below { AreBelow (length arena.now) result }
{
    match arena.node(b) {
        Node::Const(c) if is_shift(op) && c > 31 => Some(Written::WithConstant(op, a, c % 32)),
        _ => None,
    }
}

/// The first of these rules that fits.
#[tactic(auto, unfolding(normal_form::specs::Rules::ordering_rules))]
pub(crate) fn ordering_rules(arena: &Arena, op: Op, a: Term, b: Term) -> Option<Written>
    requires first { a < length arena.now }
    requires second { b < length arena.now }
    ensures rule { planned arena.now result ≡ first_fit ordering_rules op (tree_of arena.now a) (tree_of arena.now b) }
    ensures below { AreBelow (length arena.now) result }
{
    fold_constants(arena, op, a, b)
        .or_else(|| constant_to_the_right(arena, op, a, b))
        .or_else(|| reduce_shift_amount(arena, op, a, b))
}
