//! Decisions, one after another.

ghost use Rattle.std.specs.Prelude.{◌≡◌, false, None, find, IfOk};
ghost use Rattle.gate_net.specs.Lits.{AreNamed};
ghost use Rattle.unit_close.specs.Closing.{clauses_of};
ghost use Rattle.unit_close.specs.Values.{IsClosure};
ghost use Rattle.search_model.specs.Literals.{named};
ghost use Rattle.search_model.specs.Tests.{is_conflict, is_open};
ghost use Rattle.search_model.specs.Model.{AreFilled};
ghost use Rattle.clause_solver.specs.Solved.{SameClauses, IsReached, state_of};

use crate::closing::{conflicts, is_open};
use gate_net::Lit;
use no_memory::NoMemory;
use unit_close::Closer;

/// Decides the first open literal of the order until there is a conflict, or none is open. Whether there is a conflict.
pub(crate) fn descend(
    closer: &mut Closer,
    order: &[Lit],
    decisions: &mut Vec<Lit>,
) -> Result<bool, NoMemory>
    requires order { AreNamed closer.old.names order.now }
    requires decisions { AreNamed closer.old.names decisions.old.items }
    requires reached { IsReached closer.old.formula order.now (state_of closer.old decisions.old.items) }
    ensures reached { IsReached closer.old.formula order.now (state_of closer.new decisions.new.items) }
    ensures conflict { IfOk result (λ conflict. conflict ≡ is_conflict named (clauses_of closer.old) decisions.new.items) }
    ensures settled { IfOk result (λ conflict. conflict ≡ false →
        find (is_open named (clauses_of closer.old) decisions.new.items) order.now ≡ None) }
    ensures closure { IfOk result (λ conflict. conflict ≡ false →
        IsClosure (clauses_of closer.new) decisions.new.items closer.new.values) }
    ensures named { AreNamed closer.new.names decisions.new.items }
    ensures filled { AreFilled closer.old.formula }
    ensures kept { SameClauses closer.old closer.new }
{
    let mut conflict = conflicts(closer, decisions.as_slice());
    for l in order {
        if conflict {
            return Ok(true);
        }
        if is_open(closer, *l) {
            decisions.push(*l)?;
            conflict = conflicts(closer, decisions.as_slice());
        }
    }
    Ok(conflict)
}
