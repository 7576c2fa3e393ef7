//! The search.

ghost use Rattle.std.specs.Prelude.{◌≡◌, ◌<◌, ◌≤◌, Bool, [], length, take, IfOk, Err};
ghost use Rattle.gate_net.specs.declared.literals.Lit.{Lit};
ghost use Rattle.gate_net.specs.Lits.{AreNamed};
ghost use Rattle.search_model.specs.Literals.{named};
ghost use Rattle.search_model.specs.Search.{search_end, conflict_count};
ghost use Rattle.search_model.specs.Model.{IsModel, Settles};
ghost use Rattle.clause_solver.specs.Solved.{SameFormula, IsFound};

use crate::closing::values;
use crate::descent::descend;
use crate::found::{Found, SolveError, Values};
use crate::learning::learn;
use gate_net::Lit;
use std::alloc::Global;
use unit_close::Closer;

/// The first model of the closer's clauses in the signs of the order, by at most `budget` conflicts.
///
/// The order's literals are those whose values are searched for, each with the sign to be tried first.
pub fn first_model(
    alloc: Global,
    closer: &mut Closer,
    order: &[Lit],
    budget: u32,
) -> Result<Found, SolveError>
    requires order { AreNamed closer.old.names order.now }
    requires budget { 0 < budget }
    requires fresh { closer.old.learned ≡ [] }
    requires settled { Settles named closer.old.formula order.now }
    ensures found { IfOk result (λ found. IsFound closer.old.formula order.now found) }
    ensures no_model { ((set : Lit → Bool) → IsModel named closer.old.formula set → ⊥) →
        IfOk result (λ found. found ≡ Found.Unsatisfiable) }
    ensures below { IfOk result (λ _. conflict_count named closer.old.formula order.now < budget) }
    ensures spent { result ≡ Err SolveError.Spent → budget ≤ conflict_count named closer.old.formula order.now }
    ensures learned { closer.new.learned
        ≡ take (length closer.new.learned) (search_end named closer.old.formula order.now).learned }
    ensures all_learned { IfOk result (λ _. closer.new.learned ≡ (search_end named closer.old.formula order.now).learned) }
    ensures spent_learned { result ≡ Err SolveError.Spent → length closer.new.learned ≡ budget }
    ensures kept { SameFormula closer.old closer.new }
{
    let mut decisions = Vec::new(alloc);
    for conflicts in 0..budget {
        if !descend(closer, order, &mut decisions)? {
            let values = Values::from_vec(values(alloc, closer, order)?);
            return Ok(Found::Model { values, conflicts });
        }
        if decisions.is_empty() {
            return Ok(Found::Unsatisfiable);
        }
        learn(alloc, closer, &mut decisions)?;
    }
    Err(SolveError::Spent)
}
