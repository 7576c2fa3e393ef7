//! The arena: nodes by number, each tree once.

ghost use Rattle.std.specs.Prelude.{◌≡◌, ◌≤◌, ◌<◌, ◌↔◌, ◌/◌, ◌%◌, ◌^◌, ℕ, [], length, true, IfOk, OnErr};
ghost use Rattle.term_model.specs.Tree.{Const, Input, Apply};
ghost use Rattle.term_model.specs.Words.{HasWords};
ghost use Rattle.term_model.specs.ZeroBytes.{is_zero_byte};
ghost use Rattle.term_arena.specs.Trees.{tree_of, tree_from, IsNodeAt, Extends, AddsAtMost, IsShared};
ghost use Rattle.term_arena.specs.Mask.{each_byte, mask_of};

use crate::chunks::NodeTable;
use crate::entries::Entry;
use crate::nodes::{Node, Term};
use crate::zero_bytes::{self, ZeroBytes};
use no_memory::NoMemory;
use std::alloc::Global;
use std::marker::Model;
use term_model::Op;

/// Nodes by number, and the number of each node (hash consing).
#[derive(Drop)]
pub struct Arena {
    table: NodeTable,
}

impl Model for Arena {
    ghost use Rattle.std.specs.Prelude.{List};
    ghost use Rattle.std.specs.Coded.{coded_list};
    ghost use Rattle.term_model.specs.Tree.{Tree};
    ghost use Rattle.term_model.specs.Code.{tree_code};
    ghost use Rattle.term_arena.specs.Entries.{entry_trees, IsArena};

    ghost Value = { List Tree };

    ghost coded = { coded_list tree_code };

    ghost view = { λ a. entry_trees a.table };

    ghost invariant = { λ a. IsArena a.table };
}

impl Arena {
    /// An arena with no terms.
    pub fn new(alloc: Global) -> Result<Arena, NoMemory>
        ensures empty { IfOk result (λ arena. arena ≡ []) }
    {
        Ok(Arena {
            table: NodeTable::new(alloc)?,
        })
    }

    /// How many terms the arena has: those of the numbers below.
    ///
    /// Its clauses also tell what holds of every arena: terms with equal trees are equal, and each
    /// constant of a tree is a word.
    #[tactic(auto, using(crate::proofs::EntryLemmas::entry_count))]
    pub fn len(&self) -> u64
        ensures len { result ≡ length self.now }
        ensures shared { IsShared self.now }
        ensures words { (t : ℕ) → t < length self.now → HasWords (tree_of self.now t) }
    {
        self.table.len()
    }

    /// The top of a term's tree.
    #[tactic(auto, using(crate::proofs::EntryLemmas::entry_count))]
    pub fn node(&self, t: Term) -> Node
        requires belongs { t < length self.now }
        ensures top { tree_of self.now t ≡ tree_from self.now result }
        ensures place { IsNodeAt t result }
    {
        self.table.get(t.number()).node
    }

    /// The bytes of a term's value that its form shows to be zero under every input: bit k for
    /// byte k, where byte 0 is the lowest. The bits from 4 on are clear.
    #[tactic(auto, using(crate::proofs::EntryLemmas::entry_count))]
    pub fn zero_bytes(&self, t: Term) -> u8
        requires belongs { t < length self.now }
        ensures mask { result ≡ mask_of (is_zero_byte (tree_of self.now t)) }
        ensures each { (k : ℕ) → k < 4 → (result / 2 ^ k % 2 ≡ 1) ↔ (is_zero_byte (tree_of self.now t) k ≡ true) }
    {
        zero_bytes::mask(self.table.get(t.number()).zero_bytes)
    }

    /// The zero bytes of a node, from those of its operands.
    #[tactic(auto, using(crate::proofs::EntryLemmas::entry_count))]
    fn zero_bytes_of(&self, node: Node) -> ZeroBytes
        requires { IsNodeAt (length self.now) node }
        ensures { result ≡ each_byte (is_zero_byte (tree_from self.now node)) }
    {
        match node {
            Node::Const(v) => zero_bytes::of_constant(v),
            Node::Input(_) => zero_bytes::UPPER,
            Node::Apply(op, a, b) => {
                let first = self.table.get(a.number());
                let second = self.table.get(b.number());
                zero_bytes::after(
                    op,
                    first.zero_bytes,
                    second.zero_bytes,
                    second.node.constant(),
                )
            }
        }
    }

    /// The term of a node, which is there or is put at the end.
    fn place(&mut self, node: Node) -> Result<Term, NoMemory>
        requires { IsNodeAt (length self.old) node }
        ensures below { IfOk result (λ t. t < length self.new) }
        ensures tree { IfOk result (λ t. tree_of self.new t ≡ tree_from self.old node) }
        ensures keeps { Extends self.old self.new }
        ensures grows { length self.old ≤ length self.new }
        ensures adds { AddsAtMost self.old (tree_from self.old node) self.new }
        ensures err { OnErr result (self.new ≡ self.old) }
    {
        match self.table.find(&node) {
            Some(number) => return Ok(Term::new(number)),
            None => {}
        }
        let zero_bytes = self.zero_bytes_of(node);
        let number = self.table.push(Entry { node, zero_bytes })?;
        Ok(Term::new(number))
    }

    /// The term of a constant. After a refusal the arena is as before.
    pub fn constant(&mut self, v: u32) -> Result<Term, NoMemory>
        ensures below { IfOk result (λ t. t < length self.new) }
        ensures tree { IfOk result (λ t. tree_of self.new t ≡ Const v) }
        ensures keeps { Extends self.old self.new }
        ensures grows { length self.old ≤ length self.new }
        ensures adds { AddsAtMost self.old (Const v) self.new }
        ensures err { OnErr result (self.new ≡ self.old) }
    {
        self.place(Node::Const(v))
    }

    /// The term of the byte of the input at place `i`, counted from 0. After a refusal the arena is
    /// as before.
    pub fn input(&mut self, i: u32) -> Result<Term, NoMemory>
        ensures below { IfOk result (λ t. t < length self.new) }
        ensures tree { IfOk result (λ t. tree_of self.new t ≡ Input i) }
        ensures keeps { Extends self.old self.new }
        ensures grows { length self.old ≤ length self.new }
        ensures adds { AddsAtMost self.old (Input i) self.new }
        ensures err { OnErr result (self.new ≡ self.old) }
    {
        self.place(Node::Input(i))
    }

    /// The term of an operation on two terms. Nothing is simplified. After a refusal the arena is
    /// as before.
    pub fn intern(&mut self, op: Op, a: Term, b: Term) -> Result<Term, NoMemory>
        requires first { a < length self.old }
        requires second { b < length self.old }
        ensures below { IfOk result (λ t. t < length self.new) }
        ensures tree { IfOk result (λ t. tree_of self.new t ≡ Apply op (tree_of self.old a) (tree_of self.old b)) }
        ensures keeps { Extends self.old self.new }
        ensures grows { length self.old ≤ length self.new }
        ensures adds { AddsAtMost self.old (Apply op (tree_of self.old a) (tree_of self.old b)) self.new }
        ensures err { OnErr result (self.new ≡ self.old) }
    {
        self.place(Node::Apply(op, a, b))
    }
}
