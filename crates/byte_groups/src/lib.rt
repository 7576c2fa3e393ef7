//! Conditions divided into groups: the finest division of the places that they read in which each condition's places
//! lie in one group. Contracts see a `GroupList` as a list of groups.
//!
//! Union and find (Galler and Fischer, CACM 7(5), 1964). The terms under the conditions are taken once each, operands
//! before operations, and for each a place that it reads is kept (`leaves_of`). An operation joins those of its two
//! operands (`join_operands`), so no term needs a list of its places. Of two joined roots the higher points to the
//! lower, paths are halved, and at the end each place is labelled by the lowest of its group. Places and conditions
//! are then put in lists by their labels (`gathered`, `dealt`).
//!
//! Invariant (`AreParents`, `AreLabels`): each place points to itself or to a lower place, and at the end a test
//! gives one answer along these pointers exactly where it gives one on the places of each term. So nothing is joined
//! that needn't be.
#![tactic(auto)]

mod assembled;
mod dealt;
mod gathered;
mod joined;
mod labels;

ghost use Rattle.std.specs.Prelude.{◌≡◌, All, IfOk};
ghost use Rattle.group_model.specs.Conditions.{IsCondition};
ghost use Rattle.group_model.specs.Division.{AreGroups};
ghost use Rattle.reached_terms.specs.Reached.{AreReached};

use assembled::group_by_labels;
use gathered::marks_of;
pub use group_model::{Group, Places, Terms};
use joined::{labels_of, leaves_of, width_of};
use no_memory::NoMemory;
use reached_terms::reached;
use std::alloc::Global;
use std::marker::Model;
use term_arena::{Arena, Term};

/// Groups in a row.
#[derive(Debug, Drop)]
pub struct GroupList {
    items: Vec<Group>,
}

impl Model for GroupList {
    ghost use Rattle.std.specs.Prelude.{List};
    ghost use Rattle.group_model.specs.declared.Group.{Group};

    ghost Value = { List Group };

    ghost view = { λ g. g.items.items };
}

impl GroupList {
    ghost use Rattle.std.specs.Prelude.{◌≡◌};

    /// The vector's groups, in its order.
    pub fn from_vec(items: Vec<Group>) -> Self
        ensures { result ≡ items.items }
    {
        GroupList { items }
    }

    /// The groups, borrowed.
    pub fn as_slice(&self) -> &[Group]
        ensures { result.now ≡ self.now }
    {
        self.items.as_slice()
    }

    /// The groups as a vector.
    pub fn into_vec(self) -> Vec<Group>
        ensures { result.items ≡ self }
    {
        self.items
    }
}

/// The groups of conditions, where `terms` are those that stand under them.
fn divide(
    alloc: Global,
    arena: &Arena,
    conditions: &[Term],
    terms: &[Term],
) -> Result<Vec<Group>, NoMemory>
    requires conditions { All (IsCondition arena.now) conditions.now }
    requires reached { AreReached arena.now conditions.now terms.now }
    ensures { IfOk result (λ groups. AreGroups arena.now conditions.now groups.items) }
{
    let leaves = leaves_of(alloc, arena, terms)?;
    let width = width_of(arena, terms);
    let labels = labels_of(alloc, arena, terms, &leaves, width)?;
    let marks = marks_of(alloc, arena, terms, width)?;
    let mut numbers = vec![in alloc; None; width]?;
    group_by_labels(alloc, conditions, &leaves, &labels, &marks, &mut numbers)
}

/// The groups of conditions, each of which is a truth term that reads the input: the finest
/// division of the places that they read in which each condition's places lie in one group. Groups
/// stand in the order of their first places, and the conditions of a group in their order.
pub fn groups(alloc: Global, arena: &Arena, conditions: &[Term]) -> Result<GroupList, NoMemory>
    requires { All (IsCondition arena.now) conditions.now }
    ensures { IfOk result (AreGroups arena.now conditions.now) }
{
    let terms = reached(alloc, arena, conditions)?;
    let items = divide(alloc, arena, conditions, &terms)?;
    Ok(GroupList::from_vec(items))
}
