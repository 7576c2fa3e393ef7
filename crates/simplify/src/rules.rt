//! All rules, in the order in which they are tried.

ghost use Rattle.std.specs.Prelude.{◌≡◌, ◌<◌, length};
ghost use Rattle.term_arena.specs.Trees.{tree_of};
ghost use Rattle.normal_form.specs.Rules.{first_rule};
ghost use Rattle.simplify.specs.Written.{planned, AreBelow};

use crate::arithmetic::arithmetic_rules;
use crate::bitwise::bitwise_rules;
use crate::bytes::byte_rules;
use crate::equality::equality_rules;
use crate::joining::joining_rules;
use crate::order::order_rules;
use crate::ordering::ordering_rules;
use crate::written::Written;
use term_arena::{Arena, Term};
use term_model::Op;

/// What the first rule that fits writes, or none where the operation stays.
#[tactic(auto, unfolding(normal_form::specs::Rules::first_rule))]
pub(crate) fn first_rule(arena: &Arena, op: Op, a: Term, b: Term) -> Option<Written>
    requires first { a < length arena.now }
    requires second { b < length arena.now }
    ensures rule { planned arena.now result ≡ first_rule op (tree_of arena.now a) (tree_of arena.now b) }
    ensures below { AreBelow (length arena.now) result }
{
    ordering_rules(arena, op, a, b)
        .or_else(|| arithmetic_rules(arena, op, a, b))
        .or_else(|| bitwise_rules(arena, op, a, b))
        .or_else(|| equality_rules(arena, op, a, b))
        .or_else(|| order_rules(arena, op, a, b))
        .or_else(|| byte_rules(arena, op, a, b))
        .or_else(|| joining_rules(arena, op, a, b))
}
