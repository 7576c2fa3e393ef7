//! Places gathered by their labels.

ghost use Rattle.std.specs.Prelude.{◌≡◌, ◌<◌, ◌⊎◌, ◌↔◌, ℕ, List, Bool, true, false, length, slice_index};
ghost use Rattle.std.specs.Prelude.{Contains, IfOk, OnOk, Some, None, ◌+◌, ◌≤◌, ◌^◌};
ghost use Rattle.term_arena.specs.Trees.{tree_of};
ghost use Rattle.term_model.specs.Places.{reads};
ghost use Rattle.byte_groups.specs.Labels.{AreParents};
ghost use Rattle.reached_terms.specs.Reached.{OperandsPass, AreReached};
ghost use Rattle.byte_groups.specs.Joined.{ReadsUpTo};
ghost use Rattle.byte_groups.specs.Gathered.{ReadsMarked, is_marked, number_at, lists_of, AreGathered};

use no_memory::NoMemory;
use std::alloc::Global;
use term_arena::{Arena, Node, Term};

/// Marks the place of a term that is one.
fn mark(arena: &Arena, t: Term, marks: &mut [bool])
    requires belongs { t < length arena.now }
    requires within { ReadsUpTo arena.now (length marks.old) t }
    ensures sound { (i : ℕ) → is_marked marks.new i ≡ true →
        (is_marked marks.old i ≡ true) ⊎ (reads (tree_of arena.now t) i ≡ true) }
    ensures keeps { (i : ℕ) → is_marked marks.old i ≡ true → is_marked marks.new i ≡ true }
    ensures all { (among : ℕ → Bool) → ((i : ℕ) → is_marked marks.new i ≡ true → among i ≡ true) →
        OperandsPass arena.now (ReadsMarked arena.now among) t → ReadsMarked arena.now among t }
{
    match arena.node(t) {
        Node::Input(place) => marks[place as usize] = true,
        Node::Const(_) | Node::Apply(..) => {}
    }
}

/// Marks the places that the terms read, where none is marked.
fn mark_all(arena: &Arena, terms: &[Term], marks: &mut [bool])
    requires reached { (conditions : List ℕ) × AreReached arena.now conditions terms.now }
    requires within { (t : ℕ) → Contains terms.now t → ReadsUpTo arena.now (length marks.old) t }
    requires none { (i : ℕ) → is_marked marks.old i ≡ false }
    ensures { (i : ℕ) → (is_marked marks.new i ≡ true)
        ↔ ((t : ℕ) × Contains terms.now t × (reads (tree_of arena.now t) i ≡ true)) }
{
    for t in terms {
        mark(arena, *t, marks);
    }
}

/// A mark for each place below `width`, set for those that the terms read.
pub(crate) fn marks_of(
    alloc: Global,
    arena: &Arena,
    terms: &[Term],
    width: usize,
) -> Result<Vec<bool>, NoMemory>
    requires reached { (conditions : List ℕ) × AreReached arena.now conditions terms.now }
    requires within { (t : ℕ) → Contains terms.now t → ReadsUpTo arena.now width t }
    ensures long { IfOk result (λ marks. length marks.items ≡ width) }
    ensures read { IfOk result (λ marks. (i : ℕ) → (is_marked marks.items i ≡ true)
        ↔ ((t : ℕ) × Contains terms.now t × (reads (tree_of arena.now t) i ≡ true))) }
{
    let mut marks = vec![in alloc; false; width]?;
    mark_all(arena, terms, &mut marks);
    Ok(marks)
}

/// Puts a place at the end of the list of its label, or into a new one, and numbers the label.
fn put(
    alloc: Global,
    place: u32,
    label: u32,
    numbers: &mut [Option<usize>],
    lists: &mut Vec<Vec<u32>>,
) -> Result<(), NoMemory>
    requires within { label < length numbers.old }
    requires numbered { (l q : ℕ) → number_at numbers.old l ≡ Some q → q < length lists.old.items }
    ensures { OnOk result ((labels : List ℕ) (marks : List Bool) → slice_index labels place ≡ label → is_marked marks place ≡ true →
        AreGathered labels marks numbers.old (lists_of lists.old.items) place →
        AreGathered labels marks numbers.new (lists_of lists.new.items) (place + 1)) }
{
    match numbers[label as usize] {
        Some(number) => lists[number].push(place)?,
        None => {
            let mut list = Vec::new(alloc);
            list.push(place)?;
            numbers[label as usize] = Some(lists.len());
            lists.push(list)?;
        }
    }
    Ok(())
}

/// The marked places in lists, one for each label in the order of first places. The labels' numbers
/// are those of their lists.
pub(crate) fn gather(
    alloc: Global,
    labels: &[u32],
    marks: &[bool],
    numbers: &mut [Option<usize>],
) -> Result<Vec<Vec<u32>>, NoMemory>
    requires below { AreParents labels.now }
    requires marks { length marks.now ≡ length labels.now }
    requires numbers { length numbers.old ≡ length labels.now }
    requires none { (l : ℕ) → number_at numbers.old l ≡ None }
    requires small { length labels.now ≤ 2 ^ 32 }
    ensures { IfOk result (λ lists.
        AreGathered labels.now marks.now numbers.new (lists_of lists.items) (length labels.now)) }
{
    let mut lists = Vec::new(alloc);
    for place in 0..labels.len() {
        if marks[place] {
            put(alloc, place as u32, labels[place], numbers, &mut lists)?;
        }
    }
    Ok(lists)
}
