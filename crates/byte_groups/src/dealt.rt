//! Conditions dealt into lists.

ghost use Rattle.std.specs.Prelude.{◌≡◌, ◌<◌, ℕ, List, Option, Some, [], length, slice_index, Contains, IfSome, IfOk, OnOk, ◌++◌, ◌∷◌};
ghost use Rattle.byte_groups.specs.Joined.{IsLeafBelow};
ghost use Rattle.byte_groups.specs.Gathered.{number_at, lists_of};
ghost use Rattle.byte_groups.specs.Dealt.{number_of, AreDealt};

use crate::joined::leaf;
use no_memory::NoMemory;
use std::alloc::Global;
use std::collections::BTreeMap;
use term_arena::Term;

/// The number of the list of a term's places.
fn number_of(
    labels: &[u32],
    numbers: &[Option<usize>],
    leaves: &BTreeMap<Term, u32>,
    t: Term,
) -> Option<usize>
    requires within { IsLeafBelow (length labels.now) leaves.now t }
    requires labels { (k : ℕ) → k < length labels.now → slice_index labels.now k < length numbers.now }
    ensures { result ≡ number_of labels.now numbers.now leaves.now t }
{
    match leaf(leaves, t) {
        Some(place) => numbers[labels[place as usize] as usize],
        None => None,
    }
}

/// Puts a term at the end of the list of its number, where it has one.
fn deal_one(lists: &mut Vec<Vec<Term>>, number: Option<usize>, t: Term) -> Result<(), NoMemory>
    requires within { IfSome number (λ q. q < length lists.old.items) }
    ensures dealt { OnOk result ((of : ℕ → Option ℕ) (terms : List ℕ) → of t ≡ number →
        AreDealt of (length lists.old.items) terms (lists_of lists.old.items) →
        AreDealt of (length lists.old.items) (terms ++ t ∷ []) (lists_of lists.new.items)) }
    ensures long { OnOk result (length lists.new.items ≡ length lists.old.items) }
{
    match number {
        Some(number) => lists[number].push(t)?,
        None => {}
    }
    Ok(())
}

/// Lists with nothing in them.
fn empty_lists(alloc: Global, count: usize) -> Result<Vec<Vec<Term>>, NoMemory>
    ensures { IfOk result (λ lists. (of : ℕ → Option ℕ) → AreDealt of count [] (lists_of lists.items)) }
{
    let mut lists = Vec::new(alloc);
    for _ in 0..count {
        lists.push(Vec::new(alloc))?;
    }
    Ok(lists)
}

/// The conditions in `count` lists, by the numbers of the labels of the places that they read.
pub(crate) fn deal(
    alloc: Global,
    conditions: &[Term],
    labels: &[u32],
    numbers: &[Option<usize>],
    leaves: &BTreeMap<Term, u32>,
    count: usize,
) -> Result<Vec<Vec<Term>>, NoMemory>
    requires within { (t : ℕ) → Contains conditions.now t → IsLeafBelow (length labels.now) leaves.now t }
    requires labels { (k : ℕ) → k < length labels.now → slice_index labels.now k < length numbers.now }
    requires numbers { (l q : ℕ) → number_at numbers.now l ≡ Some q → q < count }
    ensures { IfOk result (λ lists.
        AreDealt (number_of labels.now numbers.now leaves.now) count conditions.now (lists_of lists.items)) }
{
    let mut lists = empty_lists(alloc, count)?;
    for t in conditions {
        let number = number_of(labels, numbers, leaves, *t);
        deal_one(&mut lists, number, *t)?;
    }
    Ok(lists)
}
