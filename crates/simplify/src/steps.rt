//! The making of a normal form, a rule at a time.

ghost use Rattle.std.specs.Prelude.{◌≡◌, ◌<◌, ◌≤◌, length, IfOk};
ghost use Rattle.term_model.specs.declared.Op.TheVariants.{Eq};
ghost use Rattle.term_model.specs.Tree.{Const};
ghost use Rattle.term_arena.specs.Trees.{tree_of, Extends};
ghost use Rattle.normal_form.specs.Norm.{norm};
ghost use Rattle.simplify.specs.Steps.{IsStep, IsEqualityStep};

use crate::rules::first_rule;
use crate::written::Written;
use no_memory::NoMemory;
use term_arena::{Arena, Term};
use term_model::Op;

/// Where one rule leads.
#[derive(Clone, Copy, Debug)]
pub(crate) enum Step {
    /// The normal form is made.
    Made(Term),
    /// The rules are to be tried on this operation.
    Next(Op, Term, Term),
    /// The normal form is that of `Eq(Eq(t, 0), 0)`.
    NotZero(Term),
}

/// Applies the first rule that fits.
fn take_step(arena: &mut Arena, op: Op, a: Term, b: Term) -> Result<Step, NoMemory>
    requires first { a < length arena.old }
    requires second { b < length arena.old }
    ensures step { IfOk result (IsStep arena.new op (tree_of arena.old a) (tree_of arena.old b)) }
    ensures equality { op ≡ Eq → IfOk result IsEqualityStep }
    ensures keeps { Extends arena.old arena.new }
    ensures grows { length arena.old ≤ length arena.new }
{
    let Some(written) = first_rule(arena, op, a, b) else {
        let made = arena.intern(op, a, b)?;
        return Ok(Step::Made(made));
    };
    match written {
        Written::Known(t) => Ok(Step::Made(t)),
        Written::Constant(c) => {
            let made = arena.constant(c)?;
            Ok(Step::Made(made))
        }
        Written::Operation(next, s, t) => Ok(Step::Next(next, s, t)),
        Written::WithConstant(next, t, c) => {
            let constant = arena.constant(c)?;
            Ok(Step::Next(next, t, constant))
        }
        Written::NotZero(t) => Ok(Step::NotZero(t)),
    }
}

/// The normal form of `Eq(a, b)`. No rule writes anything but equalities for an equality.
fn equality(arena: &mut Arena, a: Term, b: Term) -> Result<Term, NoMemory>
    requires first { a < length arena.old }
    requires second { b < length arena.old }
    ensures below { IfOk result (λ t. t < length arena.new) }
    ensures tree { IfOk result (λ t. tree_of arena.new t ≡ norm Eq (tree_of arena.old a) (tree_of arena.old b)) }
    ensures keeps { Extends arena.old arena.new }
    ensures grows { length arena.old ≤ length arena.new }
{
    let mut first = a;
    let mut second = b;
    'steps: loop {
        match take_step(arena, Op::Eq, first, second)? {
            Step::Made(t) => return Ok(t),
            Step::Next(_, s, t) => {
                first = s;
                second = t;
            }
            Step::NotZero(_) => unreachable!(),
        }
    }
}

/// The normal form of `Eq(Eq(t, 0), 0)`.
fn is_not_zero(arena: &mut Arena, t: Term) -> Result<Term, NoMemory>
    requires { t < length arena.old }
    ensures below { IfOk result (λ made. made < length arena.new) }
    ensures tree { IfOk result (λ made.
        tree_of arena.new made ≡ norm Eq (norm Eq (tree_of arena.old t) (Const 0)) (Const 0)) }
    ensures keeps { Extends arena.old arena.new }
    ensures grows { length arena.old ≤ length arena.new }
{
    let zero = arena.constant(0)?;
    let is_zero = equality(arena, t, zero)?;
    equality(arena, is_zero, zero)
}

/// The normal form of an operation on two terms, which need not be normal.
pub(crate) fn normal_form(arena: &mut Arena, op: Op, a: Term, b: Term) -> Result<Term, NoMemory>
    requires first { a < length arena.old }
    requires second { b < length arena.old }
    ensures below { IfOk result (λ t. t < length arena.new) }
    ensures tree { IfOk result (λ t. tree_of arena.new t ≡ norm op (tree_of arena.old a) (tree_of arena.old b)) }
    ensures keeps { Extends arena.old arena.new }
    ensures grows { length arena.old ≤ length arena.new }
{
    let mut operation = op;
    let mut first = a;
    let mut second = b;
    'steps: loop {
        match take_step(arena, operation, first, second)? {
            Step::Made(t) => return Ok(t),
            Step::Next(next, s, t) => {
                operation = next;
                first = s;
                second = t;
            }
            Step::NotZero(t) => return is_not_zero(arena, t),
        }
    }
}
