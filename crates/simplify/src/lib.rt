//! The normal form of an operation on two terms of an arena, made by forty rewriting rules.
//!
//! `make` is the crate's one call. Its contract is `norm` of the crate `normal_form`, and each rule has one function
//! here, named as the rule is there, whose contract is that rule. Rules are tried in the order of `rules::first_rule`,
//! and again on what a rule writes, in a loop: nothing recurses down a term.
#![tactic(auto)]

ghost use Rattle.std.specs.Prelude.{◌≡◌, ◌<◌, ◌≤◌, List, ℕ, length, IfOk};
ghost use Rattle.term_model.specs.Value.{op_value, val};
ghost use Rattle.term_model.specs.Words.{AreBytes};
ghost use Rattle.term_arena.specs.Trees.{tree_of, Extends};
ghost use Rattle.normal_form.specs.Norm.{norm};
ghost use Rattle.normal_form.specs.Normal.{IsNormal};
ghost use Rattle.term_model.specs.ByteNumber.{TakesByteNumber};

mod arithmetic;
mod bitwise;
mod bytes;
mod equality;
mod joining;
mod order;
mod ordering;
mod reading;
mod rules;
mod steps;
mod written;

use no_memory::NoMemory;
use term_arena::{Arena, Term};
use term_model::Op;

/// The normal form of the operation `op` on the terms `a` and `b` of the arena.
///
/// The operands are normal, as is what `make` answers, and so are constants and input bytes; where the operation is
/// `Byte`, `b` is a constant below 4. An error comes only for want of memory. Terms that were in the arena keep their
/// trees, after an error too; the arena may have grown by terms that no one was given.
pub fn make(arena: &mut Arena, op: Op, a: Term, b: Term) -> Result<Term, NoMemory>
    requires first { a < length arena.old }
    requires second { b < length arena.old }
    requires first_is_normal { IsNormal (tree_of arena.old a) }
    requires second_is_normal { IsNormal (tree_of arena.old b) }
    requires byte_number { TakesByteNumber op (tree_of arena.old b) }
    ensures below { IfOk result (λ t. t < length arena.new) }
    ensures tree { IfOk result (λ t. tree_of arena.new t ≡ norm op (tree_of arena.old a) (tree_of arena.old b)) }
    ensures normal { IfOk result (λ t. IsNormal (tree_of arena.new t)) }
    ensures value { IfOk result (λ t. (input : List ℕ) → AreBytes input →
        val (tree_of arena.new t) input
        ≡ op_value op (val (tree_of arena.old a) input) (val (tree_of arena.old b) input)) }
    ensures keeps { Extends arena.old arena.new }
    ensures grows { length arena.old ≤ length arena.new }
{
    steps::normal_form(arena, op, a, b)
}
