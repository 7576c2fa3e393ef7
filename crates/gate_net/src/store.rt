//! The net: gates by name, each tree once.

ghost use Rattle.std.specs.Prelude.{◌≡◌, ◌≤◌, ◌<◌, ◌+◌, ◌⊎◌, [], ◌∷◌, length, IfOk, OnErr};
ghost use Rattle.gate_model.specs.Tree.{Yes, Bit, plain};
ghost use Rattle.gate_model.specs.Makers.{and_gate, xor_gate, or_gate, mux_gate};
ghost use Rattle.gate_model.specs.Made.{IsMade};
ghost use Rattle.gate_net.specs.Trees.{tree_of, tree_from, signed_of, IsGateAt, IsNet, Extends, AddsAtMost, AddsOnly, mux_trees};

use crate::literals::{Gate, Lit};
use crate::rules::{and_by_rule, xor_by_rule};
use indexmap::IndexSet;
use no_memory::NoMemory;
use std::alloc::Global;
use std::marker::Model;

/// Gates, each once (hash consing), in the order of making: a gate's name is its place.
#[derive(Drop)]
pub struct Net {
    gates: IndexSet<Gate>,
}

impl Model for Net {
    ghost use Rattle.std.specs.Prelude.{List};
    ghost use Rattle.std.specs.Coded.{coded_list};
    ghost use Rattle.gate_model.specs.Tree.{Tree};
    ghost use Rattle.gate_model.specs.Code.{tree_code};
    ghost use Rattle.gate_net.specs.Gates.{trees_of_gates, AreNetGates};

    ghost Value = { List Tree };

    ghost coded = { coded_list tree_code };

    ghost view = { λ n. trees_of_gates n.gates.keys };

    ghost invariant = { λ n. AreNetGates n.gates.keys };
}

impl Net {
    /// A net with the constant yes alone, under the name 0.
    pub fn new(alloc: Global) -> Result<Net, NoMemory>
        ensures yes { IfOk result (λ net. net ≡ Yes ∷ []) }
    {
        let mut gates = IndexSet::new(alloc);
        gates.insert(Gate::Yes)?;
        Ok(Net { gates })
    }

    /// How many names the net has: those of the numbers below.
    ///
    /// Its clauses also tell what holds of every net: the name 0 is yes, names with equal trees are
    /// equal, operands have lower names than their gate, and no rule simplifies a tree of the net.
    #[tactic(auto, using(crate::proofs::TreeLemmas::tree_count))]
    pub fn len(&self) -> u64
        ensures len { result ≡ length self.now }
        ensures net { IsNet self.now }
    {
        self.gates.len() as u64
    }

    /// The top of a name's tree.
    #[tactic(auto, using(crate::proofs::TreeLemmas::tree_count))]
    pub fn gate(&self, name: u64) -> Gate
        requires belongs { name < length self.now }
        ensures top { tree_of self.now name ≡ tree_from self.now result }
        ensures place { IsGateAt name result }
    {
        self.gates[name as usize]
    }

    /// The Lit of a gate, which is there or is put at the end.
    fn place(&mut self, gate: Gate) -> Result<Lit, NoMemory>
        requires at { IsGateAt (length self.old) gate }
        requires made { IsMade (tree_from self.old gate) }
        ensures below { IfOk result (λ l. l.name < length self.new) }
        ensures tree { IfOk result (λ l. signed_of self.new l ≡ plain (tree_from self.old gate)) }
        ensures keeps { Extends self.old self.new }
        ensures adds { AddsAtMost self.old (tree_from self.old gate) self.new }
        ensures err { OnErr result (self.new ≡ self.old) }
    {
        let (name, _) = self.gates.insert_full(gate)?;
        Ok(Lit {
            name: name as u64,
            positive: true,
        })
    }

    /// The Lit of a bit of a byte of the input: the byte's place, counted from 0, and the bit's
    /// number, where bit 0 is the lowest. After a refusal the net is as before.
    pub fn input_bit(&mut self, place: u32, bit: u8) -> Result<Lit, NoMemory>
        requires bit { bit < 8 }
        ensures below { IfOk result (λ l. l.name < length self.new) }
        ensures tree { IfOk result (λ l. signed_of self.new l ≡ plain (Bit place bit)) }
        ensures keeps { Extends self.old self.new }
        ensures adds { AddsAtMost self.old (Bit place bit) self.new }
        ensures err { OnErr result (self.new ≡ self.old) }
    {
        self.place(Gate::Bit { place, bit })
    }

    /// The Lit that is true exactly where both are, simplified. After a refusal the net is as
    /// before.
    pub fn and(&mut self, a: Lit, b: Lit) -> Result<Lit, NoMemory>
        requires first { a.name < length self.old }
        requires second { b.name < length self.old }
        ensures below { IfOk result (λ l. l.name < length self.new) }
        ensures tree { IfOk result (λ l. signed_of self.new l ≡ and_gate (signed_of self.old a) (signed_of self.old b)) }
        ensures keeps { Extends self.old self.new }
        ensures adds { AddsAtMost self.old (and_gate (signed_of self.old a) (signed_of self.old b)).tree self.new }
        ensures err { OnErr result (self.new ≡ self.old) }
    {
        let _net = self.len();
        match and_by_rule(a, b) {
            Some(answer) => Ok(answer),
            None => self.place(Gate::And(a, b)),
        }
    }

    /// The Lit that is true exactly where one of the two is, simplified. After a refusal the net
    /// is as before.
    pub fn xor(&mut self, a: Lit, b: Lit) -> Result<Lit, NoMemory>
        requires first { a.name < length self.old }
        requires second { b.name < length self.old }
        ensures below { IfOk result (λ l. l.name < length self.new) }
        ensures tree { IfOk result (λ l. signed_of self.new l ≡ xor_gate (signed_of self.old a) (signed_of self.old b)) }
        ensures keeps { Extends self.old self.new }
        ensures adds { AddsAtMost self.old (xor_gate (signed_of self.old a) (signed_of self.old b)).tree self.new }
        ensures err { OnErr result (self.new ≡ self.old) }
    {
        let _net = self.len();
        match xor_by_rule(a, b) {
            Some(answer) => Ok(answer),
            None => {
                let made = self.place(Gate::Xor(a.plain(), b.plain()))?;
                Ok(Lit {
                    name: made.name,
                    positive: a.positive == b.positive,
                })
            }
        }
    }

    /// The Lit that is true exactly where one of the two or both are, simplified. After a refusal
    /// the net is as before.
    pub fn or(&mut self, a: Lit, b: Lit) -> Result<Lit, NoMemory>
        requires first { a.name < length self.old }
        requires second { b.name < length self.old }
        ensures below { IfOk result (λ l. l.name < length self.new) }
        ensures tree { IfOk result (λ l. signed_of self.new l ≡ or_gate (signed_of self.old a) (signed_of self.old b)) }
        ensures keeps { Extends self.old self.new }
        ensures adds { AddsAtMost self.old (or_gate (signed_of self.old a) (signed_of self.old b)).tree self.new }
        ensures err { OnErr result (self.new ≡ self.old) }
    {
        let neither = self.and(a.not(), b.not())?;
        Ok(neither.not())
    }

    /// The Lit that is `a` where `c` is true, else `b`, simplified. After a refusal the gates of the
    /// two branches may be there.
    pub fn mux(&mut self, c: Lit, a: Lit, b: Lit) -> Result<Lit, NoMemory>
        requires choice { c.name < length self.old }
        requires first { a.name < length self.old }
        requires second { b.name < length self.old }
        ensures below { IfOk result (λ l. l.name < length self.new) }
        ensures tree { IfOk result (λ l. signed_of self.new l ≡ mux_gate (signed_of self.old c) (signed_of self.old a) (signed_of self.old b)) }
        ensures keeps { Extends self.old self.new }
        ensures adds { length self.new ≤ length self.old + 3 }
        ensures only { AddsOnly self.old (mux_trees (signed_of self.old c) (signed_of self.old a) (signed_of self.old b)) self.new }
        ensures rule { (c.name ≡ 0) ⊎ (a ≡ b) → self.new ≡ self.old }
    {
        let _net = self.len();
        if c == Lit::YES {
            return Ok(a);
        }
        if c == Lit::NO {
            return Ok(b);
        }
        if a == b {
            return Ok(a);
        }
        let first = self.and(c, a)?;
        let second = self.and(c.not(), b)?;
        self.or(first, second)
    }
}
