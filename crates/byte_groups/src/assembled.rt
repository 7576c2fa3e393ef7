//! Groups made of their places and their conditions.

ghost use Rattle.std.specs.Prelude.{◌≡◌, ◌≤◌, ◌^◌, ℕ, None, length, map, Contains, IfOk};
ghost use Rattle.std.specs.List.{zip};
ghost use Rattle.byte_groups.specs.Labels.{AreParents};
ghost use Rattle.byte_groups.specs.Joined.{IsLeafBelow};
ghost use Rattle.byte_groups.specs.Gathered.{number_at};
ghost use Rattle.byte_groups.specs.Grouped.{group_of, AreGrouped};

use crate::dealt::deal;
use crate::gathered::gather;
use group_model::{Group, Places, Terms};
use no_memory::NoMemory;
use std::alloc::Global;
use std::collections::BTreeMap;
use term_arena::Term;

/// The groups of these places and conditions.
fn assemble(
    alloc: Global,
    places: Vec<Vec<u32>>,
    conditions: Vec<Vec<Term>>,
) -> Result<Vec<Group>, NoMemory>
    ensures { IfOk result (λ groups. groups.items ≡ map group_of (zip places.items conditions.items)) }
{
    places
        .into_iter()
        .zip(conditions)
        .map(|(places, conditions)| Group {
            places: Places::from_vec(places),
            conditions: Terms::from_vec(conditions),
        })
        .collect(alloc)
}

/// The groups of the marked places by their labels, and of the conditions by the places that they
/// read. `numbers` is working space, with no number in it.
pub(crate) fn group_by_labels(
    alloc: Global,
    conditions: &[Term],
    leaves: &BTreeMap<Term, u32>,
    labels: &[u32],
    marks: &[bool],
    numbers: &mut [Option<usize>],
) -> Result<Vec<Group>, NoMemory>
    requires within { (t : ℕ) → Contains conditions.now t → IsLeafBelow (length labels.now) leaves.now t }
    requires below { AreParents labels.now }
    requires marks { length marks.now ≡ length labels.now }
    requires numbers { length numbers.old ≡ length labels.now }
    requires none { (l : ℕ) → number_at numbers.old l ≡ None }
    requires small { length labels.now ≤ 2 ^ 32 }
    ensures { IfOk result (λ groups. AreGrouped labels.now marks.now leaves.now conditions.now groups.items) }
{
    let places = gather(alloc, labels, marks, numbers)?;
    let dealt = deal(alloc, conditions, labels, numbers, leaves, places.len())?;
    assemble(alloc, places, dealt)
}
