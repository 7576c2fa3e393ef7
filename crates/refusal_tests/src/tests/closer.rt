//! Clauses of a closer.

ghost use Rattle.std.specs.Prelude.{◌≡◌, ◌<◌, true};

use gate_net::{ClauseList, Formula, Lit};
use no_memory::NoMemory;
use std::alloc::Global;
use unit_close::{Closed, Closer};

/// The positive literal of a name.
fn literal(name: u64) -> Lit
    ensures { result ≡ record { name = name; positive = true } }
{
    Lit {
        name,
        positive: true,
    }
}

/// Whether a closer tells that a name is true, and nothing of the next.
fn has_values(closer: &Closer, last: u64) -> bool
    requires names { closer.now.names ≡ 65 }
    requires last { last < 64 }
{
    closer.value(literal(last)) == Some(true) && closer.value(literal(last + 1)).is_none()
}

/// Whether name 0 leads to the name `last`, and not to the next.
fn leads_to(closer: &mut Closer, last: u64) -> bool
    requires names { closer.old.names ≡ 65 }
    requires last { last < 64 }
    ensures { closer.new.names ≡ 65 }
{
    closer.close(&[literal(0)]) == Closed::Set && has_values(closer, last)
}

/// Adds the clause that leads from a name to the next.
fn add(closer: &mut Closer, name: u64) -> Result<(), NoMemory>
    requires names { closer.old.names ≡ 65 }
    requires name { name < 64 }
    ensures { closer.new.names ≡ 65 }
{
    closer.learn(&[literal(name).not(), literal(name + 1)])
}

/// Whether the closer tells what it told before if the clause from a name to the next is refused. It is added then.
fn stands_after(closer: &mut Closer, name: u64) -> Result<bool, NoMemory>
    requires names { closer.old.names ≡ 65 }
    requires name { name < 64 }
    ensures { closer.new.names ≡ 65 }
{
    if !leads_to(closer, name) {
        return Ok(false);
    }
    if add(closer, name).is_err() {
        if !has_values(closer, name) || !leads_to(closer, name) {
            return Ok(false);
        }
        add(closer, name)?;
    }
    Ok(true)
}

/// Whether the closer tells what it told before after each refusal of a clause.
pub(super) fn stand_after_calls(alloc: Global) -> Result<bool, NoMemory> {
    let formula = Formula {
        names: 65,
        clauses: ClauseList::from_vec(Vec::new(alloc)),
    };
    let mut closer = Closer::load(alloc, &formula)?;
    for i in 0..64 {
        if !stands_after(&mut closer, i)? {
            return Ok(false);
        }
    }
    let closed = closer.close(&[literal(0)]);
    Ok(closed == Closed::Set && closer.value(literal(64)) == Some(true))
}
