//! A list of conditions.

ghost use Rattle.std.specs.Prelude.{◌≡◌, ◌<◌, length};
ghost use Rattle.term_model.specs.Tree.{Input};
ghost use Rattle.term_arena.specs.Trees.{tree_of, Extends};
ghost use Rattle.path_condition.specs.Listed.{Belong};

use no_memory::NoMemory;
use path_condition::Conditions;
use std::alloc::Global;
use term_arena::{Arena, Term};

/// Adds in turn that the byte is `i`, and that it is `i - 1` once its lowest bit is cleared.
fn add(conditions: &mut Conditions, arena: &mut Arena, byte: Term, i: u32) -> Result<(), NoMemory>
    requires listed { Belong arena.old conditions.old }
    requires belongs { byte < length arena.old }
    requires input { tree_of arena.old byte ≡ Input 0 }
    ensures listed { Belong arena.new conditions.new }
    ensures keeps { Extends arena.old arena.new }
{
    if i % 2 == 0 {
        conditions.add_pin(arena, byte, i)
    } else {
        conditions.add_target(arena, byte, i.saturating_sub(1))
    }
}

/// Whether the list is as before after each refusal, and has one condition more after each answer.
pub(super) fn stand_after_calls(alloc: Global) -> Result<bool, NoMemory> {
    let mut arena = Arena::new(alloc)?;
    let byte = arena.input(0)?;
    let mut conditions = Conditions::new(alloc);
    let mut seen: Vec<Term> = Vec::new(alloc);
    for i in 0..100 {
        if add(&mut conditions, &mut arena, byte, i).is_err() {
            if conditions.list() != seen.as_slice() {
                return Ok(false);
            }
            add(&mut conditions, &mut arena, byte, i)?;
        }
        if let Some(t) = conditions.list().last() {
            seen.push(*t)?;
        }
    }
    Ok(conditions.list() == seen.as_slice() && seen.len() == 100)
}
