//! Conditions of an arena, which are terms that are to have the value 1, and groups of them: the
//! types, and what a group and its first bytes are. Nothing here works out a group.
//!
//! Contracts see `Places` as a list of numbers, and `Terms` as the list of its terms' numbers.
//!
//! A law is a function with an empty body whose contract is the law.
#![tactic(auto)]

ghost use Rattle.std.specs.Prelude.{◌≡◌, ◌↔◌, ℕ, List, true, IsTrue, All, Contains};
ghost use Rattle.term_model.specs.Tree.{Tree};
ghost use Rattle.term_model.specs.Places.{reads};
ghost use Rattle.term_model.specs.Conditions.{Hold, holds};
ghost use Rattle.input_laws.specs.Parts.{LooksAtItsPlaces};
ghost use Rattle.group_model.specs.Group.{is_among, part_of};

use std::marker::Model;
use term_arena::Term;

/// Places of an input, counted from 0.
#[derive(Debug, Drop)]
pub struct Places {
    items: Vec<u32>,
}

impl Model for Places {
    ghost use Rattle.std.specs.Prelude.{ℕ, List};

    ghost Value = { List ℕ };

    ghost view = { λ p. p.items.items };
}

impl Places {
    ghost use Rattle.std.specs.Prelude.{◌≡◌};

    /// The vector's places, in its order.
    pub fn from_vec(items: Vec<u32>) -> Self
        ensures { result ≡ items.items }
    {
        Places { items }
    }

    /// The places, borrowed.
    pub fn as_slice(&self) -> &[u32]
        ensures { result.now ≡ self.now }
    {
        self.items.as_slice()
    }

    /// The places as a vector.
    pub fn into_vec(self) -> Vec<u32>
        ensures { result.items ≡ self }
    {
        self.items
    }
}

/// Terms of an arena in a row.
#[derive(Debug, Drop)]
pub struct Terms {
    items: Vec<Term>,
}

impl Model for Terms {
    ghost use Rattle.std.specs.Prelude.{ℕ, List};

    ghost Value = { List ℕ };

    ghost view = { λ t. t.items.items };
}

impl Terms {
    ghost use Rattle.std.specs.Prelude.{◌≡◌};

    /// The vector's terms, in its order.
    pub fn from_vec(items: Vec<Term>) -> Self
        ensures { result ≡ items.items }
    {
        Terms { items }
    }

    /// The terms, borrowed.
    pub fn as_slice(&self) -> &[Term]
        ensures { result.now ≡ self.now }
    {
        self.items.as_slice()
    }

    /// The terms as a vector.
    pub fn into_vec(self) -> Vec<Term>
        ensures { result.items ≡ self }
    {
        self.items
    }
}

/// Conditions that belong together, and the places that they read.
#[derive(Debug, Drop)]
pub struct Group {
    /// The places, ascending.
    pub places: Places,
    /// The conditions, each a truth term of the arena that reads some of the places and no others.
    pub conditions: Terms,
}

/// The test of conditions passes exactly where each of them has the value 1.
pub fn conditions_hold_by_test()
    ensures test { (conditions : List Tree) (input : List ℕ) → IsTrue (holds conditions input) ↔ Hold conditions input }
{}

/// A group's test looks at its places alone, where its conditions read no others.
pub fn groups_look_at_their_places()
    ensures looks { (places : List ℕ) (conditions : List Tree) →
        All (λ t. (i : ℕ) → reads t i ≡ true → Contains places i) conditions →
        LooksAtItsPlaces (part_of places conditions) }
    ensures places { (places : List ℕ) (i : ℕ) → IsTrue (is_among places i) ↔ Contains places i }
{}
