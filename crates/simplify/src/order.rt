//! Rules for the order of unsigned words.

ghost use Rattle.std.specs.Prelude.{◌≡◌, ◌<◌, length};
ghost use Rattle.term_arena.specs.Trees.{tree_of};
ghost use Rattle.normal_form.specs.OrderRules.{less_than_zero, less_than_one, more_than_zero, one_byte_is_less};
ghost use Rattle.normal_form.specs.Rules.{first_fit, order_rules};
ghost use Rattle.simplify.specs.Written.{planned, AreBelow};

use crate::reading::is_one_byte;
use crate::written::Written;
use rv_word::AluOp;
use term_arena::{Arena, Node, Term};
use term_model::Op;

/// `Sltu(x, 0)` is 0.
fn less_than_zero(arena: &Arena, op: Op, a: Term, b: Term) -> Option<Written>
    requires first { a < length arena.now }
    requires second { b < length arena.now }
    ensures rule { planned arena.now result ≡ less_than_zero op (tree_of arena.now a) (tree_of arena.now b) }
    ensures below { AreBelow (length arena.now) result }
{
    match (op, arena.node(b)) {
        (Op::Alu(AluOp::Sltu), Node::Const(0)) => Some(Written::Constant(0)),
        _ => None,
    }
}

/// `Sltu(x, 1)` is `Eq(x, 0)`.
fn less_than_one(arena: &Arena, op: Op, a: Term, b: Term) -> Option<Written>
    requires first { a < length arena.now }
    requires second { b < length arena.now }
    ensures rule { planned arena.now result ≡ less_than_one op (tree_of arena.now a) (tree_of arena.now b) }
    ensures below { AreBelow (length arena.now) result }
{
    match (op, arena.node(b)) {
        (Op::Alu(AluOp::Sltu), Node::Const(1)) => Some(Written::WithConstant(Op::Eq, a, 0)),
        _ => None,
    }
}

/// `Sltu(0, x)` is `Eq(Eq(x, 0), 0)`.
fn more_than_zero(arena: &Arena, op: Op, a: Term, b: Term) -> Option<Written>
    requires first { a < length arena.now }
    requires second { b < length arena.now }
    ensures rule { planned arena.now result ≡ more_than_zero op (tree_of arena.now a) (tree_of arena.now b) }
    ensures below { AreBelow (length arena.now) result }
{
    match (op, arena.node(a)) {
        (Op::Alu(AluOp::Sltu), Node::Const(0)) => Some(Written::NotZero(b)),
        _ => None,
    }
}

/// `Sltu(x, c)` is 1, where `x` is one byte and `c` is above 255.
fn one_byte_is_less(arena: &Arena, op: Op, a: Term, b: Term) -> Option<Written>
    requires first { a < length arena.now }
    requires second { b < length arena.now }
    ensures rule { planned arena.now result ≡ one_byte_is_less op (tree_of arena.now a) (tree_of arena.now b) }
    ensures below { AreBelow (length arena.now) result }
{
    match (op, arena.node(b)) {
        (Op::Alu(AluOp::Sltu), Node::Const(c)) if is_one_byte(arena, a) && c > 255 => {
            Some(Written::Constant(1))
        }
        _ => None,
    }
}

/// The first of these rules that fits.
#[tactic(auto, unfolding(normal_form::specs::Rules::order_rules))]
pub(crate) fn order_rules(arena: &Arena, op: Op, a: Term, b: Term) -> Option<Written>
    requires first { a < length arena.now }
    requires second { b < length arena.now }
    ensures rule { planned arena.now result ≡ first_fit order_rules op (tree_of arena.now a) (tree_of arena.now b) }
    ensures below { AreBelow (length arena.now) result }
{
    less_than_zero(arena, op, a, b)
        .or_else(|| less_than_one(arena, op, a, b))
        .or_else(|| more_than_zero(arena, op, a, b))
        .or_else(|| one_byte_is_less(arena, op, a, b))
}
