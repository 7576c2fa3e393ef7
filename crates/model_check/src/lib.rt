//! Whether conditions hold of an input, by evaluation of their terms.
#![tactic(auto)]

ghost use Rattle.std.specs.Prelude.{◌≡◌, ◌<◌, ◌≤◌, ◌↔◌, length, All, IsTrue};
ghost use Rattle.term_model.specs.Places.{ReadsBelow};
ghost use Rattle.term_model.specs.Conditions.{Hold, holds};
ghost use Rattle.term_arena.specs.Trees.{tree_of, trees_of};

use group_model::conditions_hold_by_test;
use term_arena::{Arena, Scratch, Term};

/// Whether each of the conditions has the value 1 on the input. The scratch is working space, and
/// keeps its room. It takes no memory.
pub fn check_model(arena: &Arena, conditions: &[Term], input: &[u8], scratch: &mut Scratch) -> bool
    requires belong { All (λ t. t < length arena.now) conditions.now }
    requires room { length arena.now ≤ scratch.old }
    requires reads { All (λ t. ReadsBelow (length input.now) (tree_of arena.now t)) conditions.now }
    ensures test { result ≡ holds (trees_of arena.now conditions.now) input.now }
    ensures exact { IsTrue result ↔ Hold (trees_of arena.now conditions.now) input.now }
    ensures keeps { scratch.new ≡ scratch.old }
{
    conditions_hold_by_test();
    for condition in conditions {
        if arena.eval(*condition, input, scratch) != 1 {
            return false;
        }
    }
    true
}
