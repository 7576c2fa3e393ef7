//! Places of terms, and the places that the terms join.

ghost use Rattle.std.specs.Prelude.{◌≡◌, ◌<◌, ◌≤◌, ◌^◌, ℕ, List, Bool, length, slice_index, Contains, IfOk};
ghost use Rattle.std.specs.Ordering.{nat_cmp};
ghost use Rattle.std.specs.BTreeMap.{get};
ghost use Rattle.term_arena.specs.Trees.{tree_of};
ghost use Rattle.group_model.specs.Division.{IsSteadyOn};
ghost use Rattle.reached_terms.specs.Reached.{OperandsPass, AreReached};
ghost use Rattle.byte_groups.specs.Joined.{IsLeaf};
ghost use Rattle.byte_groups.specs.Labels.{AreParents, IsSteadyAlong};
ghost use Rattle.byte_groups.specs.Joined.{HasLeaf, IsLeafBelow, AreLabels, ReadsUpTo};

use crate::labels::{flatten, join};
use no_memory::NoMemory;
use std::alloc::Global;
use std::collections::BTreeMap;
use term_arena::{Arena, Node, Term};

/// The place that the map has for a term.
pub(crate) fn leaf(leaves: &BTreeMap<Term, u32>, t: Term) -> Option<u32>
    ensures { result ≡ get nat_cmp leaves.now t }
{
    leaves.get(&t).copied()
}

/// A place that a term reads, or none where it reads none.
fn leaf_of(arena: &Arena, t: Term, leaves: &BTreeMap<Term, u32>) -> Option<u32>
    requires belongs { t < length arena.now }
    requires operands { OperandsPass arena.now (HasLeaf arena.now leaves.now) t }
    ensures { IsLeaf (tree_of arena.now t) result }
{
    match arena.node(t) {
        Node::Const(_) => None,
        Node::Input(place) => Some(place),
        Node::Apply(_, a, b) => match leaf(leaves, a) {
            Some(place) => Some(place),
            None => leaf(leaves, b),
        },
    }
}

/// A place that each of the terms reads, where it reads one.
pub(crate) fn leaves_of(
    alloc: Global,
    arena: &Arena,
    terms: &[Term],
) -> Result<BTreeMap<Term, u32>, NoMemory>
    requires { (conditions : List ℕ) × AreReached arena.now conditions terms.now }
    ensures { IfOk result (λ leaves. (t : ℕ) → Contains terms.now t → HasLeaf arena.now leaves t) }
{
    let mut leaves = BTreeMap::new(alloc);
    for done in 0..terms.len() {
        let t = terms[terms.len() - 1 - done];
        match leaf_of(arena, t, &leaves) {
            Some(place) => {
                leaves.insert(t, place)?;
            }
            None => {}
        }
    }
    Ok(leaves)
}

/// A number above the place of a term that is one, and 0 of any other.
fn end_of(arena: &Arena, t: Term) -> usize
    requires { t < length arena.now }
    ensures above { (n : ℕ) → result ≤ n → OperandsPass arena.now (ReadsUpTo arena.now n) t → ReadsUpTo arena.now n t }
    ensures small { result ≤ 2 ^ 32 }
{
    match arena.node(t) {
        Node::Input(place) => place as usize + 1,
        Node::Const(_) | Node::Apply(..) => 0,
    }
}

/// A number above each place that the terms read.
pub(crate) fn width_of(arena: &Arena, terms: &[Term]) -> usize
    requires { (conditions : List ℕ) × AreReached arena.now conditions terms.now }
    ensures above { (t : ℕ) → Contains terms.now t → ReadsUpTo arena.now result t }
    ensures small { result ≤ 2 ^ 32 }
{
    let mut width: usize = 0;
    for t in terms {
        width = width.max(end_of(arena, *t));
    }
    width
}

/// Joins the places of a term's operands, where it is an operation.
fn join_operands(arena: &Arena, t: Term, leaves: &BTreeMap<Term, u32>, parents: &mut [u32])
    requires belongs { t < length arena.now }
    requires operands { OperandsPass arena.now (HasLeaf arena.now leaves.now) t }
    requires within { OperandsPass arena.now (IsLeafBelow (length parents.old) leaves.now) t }
    requires parents { AreParents parents.old }
    ensures parents { AreParents parents.new }
    ensures later { (side : ℕ → Bool) → IsSteadyAlong side parents.old → IsSteadyOn side (tree_of arena.now t) →
        IsSteadyAlong side parents.new }
    ensures before { (side : ℕ → Bool) → IsSteadyAlong side parents.new → IsSteadyAlong side parents.old }
    ensures joined { (side : ℕ → Bool) → IsSteadyAlong side parents.new →
        OperandsPass arena.now (λ u. IsSteadyOn side (tree_of arena.now u)) t → IsSteadyOn side (tree_of arena.now t) }
{
    match arena.node(t) {
        Node::Const(_) | Node::Input(_) => {}
        Node::Apply(_, a, b) => {
            let Some(first) = leaf(leaves, a) else {
                return;
            };
            let Some(second) = leaf(leaves, b) else {
                return;
            };
            join(parents, first, second);
        }
    }
}

/// A label for each place below `width`: at first its own.
fn own_labels(alloc: Global, width: usize) -> Result<Vec<u32>, NoMemory>
    requires { width ≤ 2 ^ 32 }
    ensures long { IfOk result (λ labels. length labels.items ≡ width) }
    ensures own { IfOk result (λ labels. (k : ℕ) → k < width → slice_index labels.items k ≡ k) }
{
    let mut labels = Vec::new(alloc);
    for place in 0..width {
        labels.push(place as u32)?;
    }
    Ok(labels)
}

/// Gives places that the terms join one label, where each has its own.
fn join_all(arena: &Arena, terms: &[Term], leaves: &BTreeMap<Term, u32>, labels: &mut [u32])
    requires reached { (conditions : List ℕ) × AreReached arena.now conditions terms.now }
    requires leaves { (t : ℕ) → Contains terms.now t → HasLeaf arena.now leaves.now t }
    requires within { (t : ℕ) → Contains terms.now t → ReadsUpTo arena.now (length labels.old) t }
    requires own { (k : ℕ) → k < length labels.old → slice_index labels.old k ≡ k }
    ensures { AreLabels arena.now terms.now (length labels.old) labels.new }
{
    for t in terms {
        join_operands(arena, *t, leaves, labels);
    }
    flatten(labels);
}

/// A label for each place below `width`, the same for places that the terms join.
pub(crate) fn labels_of(
    alloc: Global,
    arena: &Arena,
    terms: &[Term],
    leaves: &BTreeMap<Term, u32>,
    width: usize,
) -> Result<Vec<u32>, NoMemory>
    requires reached { (conditions : List ℕ) × AreReached arena.now conditions terms.now }
    requires leaves { (t : ℕ) → Contains terms.now t → HasLeaf arena.now leaves.now t }
    requires within { (t : ℕ) → Contains terms.now t → ReadsUpTo arena.now width t }
    requires small { width ≤ 2 ^ 32 }
    ensures { IfOk result (λ labels. AreLabels arena.now terms.now width labels.items) }
{
    let mut labels = own_labels(alloc, width)?;
    join_all(arena, terms, leaves, &mut labels);
    Ok(labels)
}
