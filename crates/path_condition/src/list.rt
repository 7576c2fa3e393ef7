//! The list of conditions.

ghost use Rattle.std.specs.Prelude.{◌≡◌, ◌≤◌, ◌<◌, ◌%◌, ◌++◌, ◌∷◌, ◌↔◌, ◌||◌, take, ℕ, List, [], length, OnOk, OnErr, IsTrue, All, false};
ghost use Rattle.std.specs.List.{list_any};
ghost use Rattle.term_model.specs.Tree.{Const};
ghost use Rattle.term_model.specs.Value.{val};
ghost use Rattle.term_model.specs.Words.{AreBytes};
ghost use Rattle.term_model.specs.Places.{ReadsBelow};
ghost use Rattle.term_model.specs.Same.{same_tree};
ghost use Rattle.term_model.specs.Conditions.{Hold};
ghost use Rattle.term_arena.specs.Trees.{tree_of, Extends, IsShared, trees_of};
ghost use Rattle.normal_form.specs.Norm.{norm};
ghost use Rattle.normal_form.specs.Normal.{IsNormal};
ghost use Rattle.rv_machine.specs.Effects.{even};
ghost use Rattle.replay_law.specs.Forms.{with_condition, with_conditions, succeeds, equal, pin};
ghost use Rattle.replay_law.specs.Forms.{target as jump_target};
ghost use Rattle.path_condition.specs.Listed.{Belong, is_listed};

use crate::forms;
use no_memory::NoMemory;
use std::alloc::Global;
use std::collections::BTreeMap;
use std::marker::Model;
use term_arena::{Arena, Node, Scratch, Term};
use term_model::same_trees_are_equal;
use trace_conditions::{forms_say_what_they_name, lists_hold_together};

/// A list of terms of one arena, in the order in which they were added, none of them twice.
#[derive(Drop)]
pub struct Conditions {
    terms: Vec<Term>,
    places: BTreeMap<Term, usize>,
}

impl Model for Conditions {
    ghost use Rattle.std.specs.Prelude.{List, ℕ};
    ghost use Rattle.path_condition.specs.Places.{HasPlaces};

    ghost Value = { List ℕ };

    ghost view = { λ c. c.terms.items };

    ghost invariant = { λ c. HasPlaces c.terms.items c.places };
}

/// Terms of an arena are equal exactly where their trees are.
fn are_shared(arena: &Arena)
    ensures { IsShared arena.now }
{
    let _ = arena.len();
}

/// Whether a term is the constant 1.
#[tactic(auto, unfolding(term_model::specs::Same::same_tree))]
fn is_one(arena: &Arena, t: Term) -> bool
    requires { t < length arena.now }
    ensures { result ≡ same_tree (tree_of arena.now t) (Const 1) }
{
    matches!(arena.node(t), Node::Const(1))
}

impl Conditions {
    /// The empty list.
    pub fn new(alloc: Global) -> Conditions
        ensures empty { result ≡ [] }
    {
        Conditions {
            terms: Vec::new(alloc),
            places: BTreeMap::new(alloc),
        }
    }

    /// The terms of the list.
    pub fn list(&self) -> &[Term]
        ensures list { result.now ≡ self.now }
    {
        &self.terms
    }

    /// Whether a term is in the list.
    fn contains(&self, t: Term) -> bool
        ensures { result ≡ is_listed self.now t }
    {
        match self.places.get(&t) {
            Some(place) => *place < self.terms.len() && self.terms[*place] == t,
            None => false,
        }
    }

    /// Puts a term that isn't there at the end.
    fn append(&mut self, t: Term) -> Result<(), NoMemory>
        requires { is_listed self.old t ≡ false }
        ensures ok { OnOk result (self.new ≡ self.old ++ t ∷ []) }
        ensures err { OnErr result (self.new ≡ self.old) }
    {
        self.places.insert(t, self.terms.len())?;
        self.terms.push(t)?;
        Ok(())
    }

    /// Whether a term is the constant 1 or is there.
    fn has_no_need_of(&self, arena: &Arena, t: Term) -> bool
        requires listed { Belong arena.now self.now }
        requires belongs { t < length arena.now }
        ensures value { result
            ≡ (same_tree (tree_of arena.now t) (Const 1) || list_any (same_tree (tree_of arena.now t)) (trees_of arena.now self.now)) }
        ensures absent { result ≡ false → is_listed self.now t ≡ false }
    {
        are_shared(arena);
        same_trees_are_equal();
        is_one(arena, t) || self.contains(t)
    }

    /// Adds a term, unless it is the constant 1 or is there.
    fn add(&mut self, arena: &Arena, t: Term) -> Result<(), NoMemory>
        requires listed { Belong arena.now self.old }
        requires belongs { t < length arena.now }
        ensures trees { OnOk result (trees_of arena.now self.new
            ≡ with_condition (trees_of arena.now self.old) (tree_of arena.now t)) }
        ensures first { take (length self.old) self.new ≡ self.old }
        ensures listed { Belong arena.now self.new }
        ensures err { OnErr result (self.new ≡ self.old) }
    {
        if self.has_no_need_of(arena, t) {
            return Ok(());
        }
        self.append(t)
    }

    /// Adds terms one after the other, or none.
    fn add_all(&mut self, arena: &Arena, terms: &[Term]) -> Result<(), NoMemory>
        requires listed { Belong arena.now self.old }
        requires belong { Belong arena.now terms.now }
        ensures trees { OnOk result (trees_of arena.now self.new
            ≡ with_conditions (trees_of arena.now self.old) (trees_of arena.now terms.now)) }
        ensures listed { Belong arena.now self.new }
        ensures err { OnErr result (self.new ≡ self.old) }
    {
        let before = self.terms.len();
        for t in terms {
            match self.add(arena, *t) {
                Ok(()) => {}
                Err(error) => {
                    self.terms.truncate(before);
                    return Err(error);
                }
            }
        }
        Ok(())
    }

    /// Adds that a term has the value 1.
    pub fn add_holds(&mut self, arena: &Arena, t: Term) -> Result<(), NoMemory>
        requires listed { Belong arena.now self.old }
        requires belongs { t < length arena.now }
        ensures trees { OnOk result (trees_of arena.now self.new
            ≡ with_conditions (trees_of arena.now self.old) (succeeds (tree_of arena.now t))) }
        ensures meaning { OnOk result ((y : List ℕ) → Hold (trees_of arena.now self.new) y
            ↔ (Hold (trees_of arena.now self.old) y × (val (tree_of arena.now t) y ≡ 1))) }
        ensures listed { Belong arena.now self.new }
        ensures err { OnErr result (self.new ≡ self.old) }
    {
        lists_hold_together();
        self.add(arena, t)
    }

    /// Adds that two terms have one value, byte by byte.
    pub fn add_equal(&mut self, arena: &mut Arena, a: Term, b: Term) -> Result<(), NoMemory>
        requires listed { Belong arena.old self.old }
        requires first { a < length arena.old }
        requires second { b < length arena.old }
        requires normal_first { IsNormal (tree_of arena.old a) }
        requires normal_second { IsNormal (tree_of arena.old b) }
        ensures trees { OnOk result (trees_of arena.new self.new
            ≡ with_conditions (trees_of arena.old self.old) (equal norm (tree_of arena.old a) (tree_of arena.old b))) }
        ensures meaning { OnOk result ((y : List ℕ) → AreBytes y → Hold (trees_of arena.new self.new) y
            ↔ (Hold (trees_of arena.old self.old) y × (val (tree_of arena.old a) y ≡ val (tree_of arena.old b) y))) }
        ensures listed { Belong arena.new self.new }
        ensures keeps { Extends arena.old arena.new }
        ensures err { OnErr result (self.new ≡ self.old) }
    {
        forms_say_what_they_name();
        lists_hold_together();
        let terms = forms::equal(arena, a, b)?;
        self.add_all(arena, &terms)
    }

    /// Adds that a term has a value, byte by byte. A constant that is added to the term is taken off the value first.
    pub fn add_pin(&mut self, arena: &mut Arena, t: Term, value: u32) -> Result<(), NoMemory>
        requires listed { Belong arena.old self.old }
        requires belongs { t < length arena.old }
        requires normal { IsNormal (tree_of arena.old t) }
        ensures trees { OnOk result (trees_of arena.new self.new
            ≡ with_conditions (trees_of arena.old self.old) (pin norm (tree_of arena.old t) value)) }
        ensures meaning { OnOk result ((y : List ℕ) → AreBytes y → Hold (trees_of arena.new self.new) y
            ↔ (Hold (trees_of arena.old self.old) y × (val (tree_of arena.old t) y ≡ value))) }
        ensures listed { Belong arena.new self.new }
        ensures keeps { Extends arena.old arena.new }
        ensures err { OnErr result (self.new ≡ self.old) }
    {
        forms_say_what_they_name();
        lists_hold_together();
        let rest = forms::without_constants(arena, t, value);
        let terms = forms::bytes_are(arena, rest.term, rest.word)?;
        self.add_all(arena, &terms)
    }

    /// Adds that a sum with its lowest bit cleared is an even `target`, byte by byte. An even constant that is added to the
    /// sum is taken off the target first. An odd target is met by no sum.
    pub fn add_target(&mut self, arena: &mut Arena, sum: Term, target: u32) -> Result<(), NoMemory>
        requires listed { Belong arena.old self.old }
        requires belongs { sum < length arena.old }
        requires normal { IsNormal (tree_of arena.old sum) }
        ensures trees { OnOk result (trees_of arena.new self.new
            ≡ with_conditions (trees_of arena.old self.old) (jump_target norm (tree_of arena.old sum) target)) }
        ensures meaning { OnOk result (target % 2 ≡ 0 → (y : List ℕ) → AreBytes y → Hold (trees_of arena.new self.new) y
            ↔ (Hold (trees_of arena.old self.old) y × (even (val (tree_of arena.old sum) y) ≡ target))) }
        ensures listed { Belong arena.new self.new }
        ensures keeps { Extends arena.old arena.new }
        ensures err { OnErr result (self.new ≡ self.old) }
    {
        forms_say_what_they_name();
        lists_hold_together();
        let rest = forms::without_even_constants(arena, sum, target);
        let terms = forms::target_bytes(arena, rest.term, rest.word)?;
        self.add_all(arena, &terms)
    }

    /// Whether each condition has the value 1 on an input. The scratch is working space, and keeps its room.
    pub fn test(&self, arena: &Arena, input: &[u8], scratch: &mut Scratch) -> bool
        requires listed { Belong arena.now self.now }
        requires room { length arena.now ≤ scratch.old }
        requires reads { All (λ t. ReadsBelow (length input.now) (tree_of arena.now t)) self.now }
        ensures test { IsTrue result ↔ Hold (trees_of arena.now self.now) input.now }
        ensures keeps { scratch.new ≡ scratch.old }
    {
        for t in &self.terms {
            if arena.eval(*t, input, scratch) != 1 {
                return false;
            }
        }
        true
    }
}
