//! What the search asks of a closer.

ghost use Rattle.std.specs.Prelude.{◌≡◌, ◌<◌, List, false, map, IfOk};
ghost use Rattle.gate_net.specs.declared.literals.Lit.{Lit};
ghost use Rattle.gate_net.specs.Lits.{AreNamed};
ghost use Rattle.unit_close.specs.Closing.{clauses_of};
ghost use Rattle.unit_close.specs.Values.{IsClosure};
ghost use Rattle.search_model.specs.Literals.{named};
ghost use Rattle.search_model.specs.Tests.{in_closure, is_conflict, is_open};
ghost use Rattle.search_model.specs.Model.{AreFilled};
ghost use Rattle.clause_solver.specs.Solved.{SameClauses};

use gate_net::Lit;
use no_memory::NoMemory;
use std::alloc::Global;
use unit_close::{Closed, Closer};

/// Whether the closure of the clauses and the decisions is a conflict.
pub(crate) fn conflicts(closer: &mut Closer, decisions: &[Lit]) -> bool
    requires { AreNamed closer.old.names decisions.now }
    ensures conflict { result ≡ is_conflict named (clauses_of closer.old) decisions.now }
    ensures closure { result ≡ false → IsClosure (clauses_of closer.new) decisions.now closer.new.values }
    ensures filled { AreFilled closer.old.formula }
    ensures kept { SameClauses closer.old closer.new }
{
    match closer.close(decisions) {
        Closed::Conflict => true,
        Closed::Set => false,
    }
}

/// Whether the closure that the closer took last has neither the literal nor its negation.
pub(crate) fn is_open(closer: &Closer, l: Lit) -> bool
    requires { l.name < closer.now.names }
    ensures { (decisions : List Lit) → IsClosure (clauses_of closer.now) decisions closer.now.values →
        result ≡ is_open named (clauses_of closer.now) decisions l }
{
    match closer.value(l) {
        None => true,
        Some(_) => false,
    }
}

/// Whether the closure that the closer took last has the literal.
fn is_true(closer: &Closer, l: Lit) -> bool
    requires { l.name < closer.now.names }
    ensures { (decisions : List Lit) → IsClosure (clauses_of closer.now) decisions closer.now.values →
        result ≡ in_closure named (clauses_of closer.now) decisions l }
{
    match closer.value(l) {
        None => false,
        Some(value) => value,
    }
}

/// Whether the closure that the closer took last has each literal.
pub(crate) fn values(
    alloc: Global,
    closer: &Closer,
    literals: &[Lit],
) -> Result<Vec<bool>, NoMemory>
    requires { AreNamed closer.now.names literals.now }
    ensures { IfOk result (λ values. (decisions : List Lit) → IsClosure (clauses_of closer.now) decisions closer.now.values →
        values.items ≡ map (in_closure named (clauses_of closer.now) decisions) literals.now) }
{
    let mut values = Vec::new(alloc);
    for l in literals {
        values.push(is_true(closer, *l))?;
    }
    Ok(values)
}
