//! The terms that stand under conditions, without recursion: from the highest number down.
#![tactic(auto)]

ghost use Rattle.std.specs.Prelude.{◌<◌, ◌⊎◌, ◌↔◌, ℕ, length, All, Contains, IfOk, OnOk};
ghost use Rattle.std.specs.Ordering.{nat_cmp};
ghost use Rattle.std.specs.BTreeMap.{ContainsKey};
ghost use Rattle.reached_terms.specs.Reached.{IsUnder, OperandsPass, AreReached, AreReachedPast};

use no_memory::NoMemory;
use std::alloc::Global;
use std::collections::{BTreeMap, BTreeSet};
use term_arena::{Arena, Node, Term};

/// The terms of a list as a set.
fn set_of(alloc: Global, terms: &[Term]) -> Result<BTreeSet<Term>, NoMemory>
    ensures { IfOk result (λ set. (t : ℕ) → Contains set.keys t ↔ Contains terms.now t) }
{
    let mut set = BTreeSet::new(alloc);
    for t in terms {
        set.insert(*t)?;
    }
    Ok(set)
}

/// Adds the operands of a term, where it is an operation.
fn add_operands(arena: &Arena, t: Term, pending: &mut BTreeSet<Term>) -> Result<(), NoMemory>
    requires belongs { t < length arena.now }
    ensures keeps { OnOk result ((u : ℕ) → Contains pending.old.keys u → Contains pending.new.keys u) }
    ensures adds { OnOk result ((u : ℕ) → Contains pending.new.keys u →
        Contains pending.old.keys u ⊎ IsUnder arena.now t u) }
    ensures operands { OnOk result (OperandsPass arena.now (Contains pending.new.keys) t) }
{
    let _shared = arena.len();
    match arena.node(t) {
        Node::Const(_) | Node::Input(_) => Ok(()),
        Node::Apply(_, a, b) => {
            pending.insert(a)?;
            pending.insert(b)?;
            Ok(())
        }
    }
}

/// The terms that stand under the conditions with no known term between, the conditions among them,
/// but those that are known, from the highest number down.
///
/// `known` has the known terms as its keys. What stands under known terms alone isn't visited.
pub fn reached_past<V>(
    alloc: Global,
    arena: &Arena,
    conditions: &[Term],
    known: &BTreeMap<Term, V>,
) -> Result<Vec<Term>, NoMemory>
    requires { All (λ t. t < length arena.now) conditions.now }
    ensures { IfOk result (λ terms. AreReachedPast arena.now (ContainsKey nat_cmp known.now) conditions.now terms.items) }
{
    let mut pending = set_of(alloc, conditions)?;
    let mut terms = Vec::new(alloc);
    while let Some(t) = pending.pop_last() {
        if !known.contains_key(&t) {
            terms.push(t)?;
            add_operands(arena, t, &mut pending)?;
        }
    }
    Ok(terms)
}

/// The terms that stand under the conditions, the conditions among them, from the highest number
/// down.
pub fn reached(alloc: Global, arena: &Arena, conditions: &[Term]) -> Result<Vec<Term>, NoMemory>
    requires { All (λ t. t < length arena.now) conditions.now }
    ensures { IfOk result (λ terms. AreReached arena.now conditions.now terms.items) }
{
    let none: BTreeMap<Term, ()> = BTreeMap::new(alloc);
    let terms = reached_past(alloc, arena, conditions, &none)?;
    Ok(terms)
}
