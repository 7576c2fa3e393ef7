//! The closer.

ghost use Rattle.std.specs.Prelude.{◌≡◌, ◌<◌, ◌↔◌, ◌++◌, ◌∷◌, [], List, Some, true, false, length, slice_get, IfOk, IfErr};
ghost use Rattle.gate_net.specs.declared.literals.Lit.{Lit};
ghost use Rattle.gate_net.specs.Lits.{negation, AreNamed};
ghost use Rattle.search_model.specs.Literals.{named};
ghost use Rattle.search_model.specs.Closure.{IsInClosure, IsConflict};
ghost use Rattle.search_model.specs.Model.{AreFilled};
ghost use Rattle.unit_close.specs.Values.{IsClosure};
ghost use Rattle.unit_close.specs.Closing.{Closing, clauses_of};
ghost use Rattle.unit_close.specs.declared.closed.Closed.{Closed};

use crate::clauses::Clauses;
use crate::closed::Closed;
use crate::decide::{close_trail, make_ready};
use crate::subsume::{add_learned, next_limit};
use crate::trail::Trail;
use crate::watches::Watches;
use gate_net::{Formula, Lit};
use no_memory::NoMemory;
use std::alloc::Global;
use std::marker::Model;

/// Clauses of a formula and learned ones, and the closure that the last close took.
#[derive(Drop)]
pub struct Closer {
    alloc: Global,
    /// The formula's clauses, then learned ones: of each learned clause a part, or the clause itself.
    watches: Watches,
    /// How many clauses are the formula's.
    given: usize,
    /// How many clauses are watched before those of which others are parts are left out.
    limit: usize,
    /// All learned clauses.
    learned: Clauses,
    trail: Trail,
    /// Whether the trail has what holds without a decision.
    is_started: bool,
}

impl Model for Closer {
    ghost use Rattle.unit_close.specs.Closing.{Closing};
    ghost use Rattle.unit_close.specs.Whole.{IsWhole, closing_of};

    ghost Value = { Closing };

    ghost view = { λ c. closing_of c.given c.watches c.learned c.trail };

    ghost invariant = { λ c. IsWhole c.given c.watches c.learned c.trail c.is_started };
}

impl Closer {
    /// A closer of the formula, with no learned clause.
    pub fn load(alloc: Global, formula: &Formula) -> Result<Closer, NoMemory>
        ensures names { IfOk result (λ closer. closer.names ≡ formula.now.names) }
        ensures formula { IfOk result (λ closer. closer.formula ≡ formula.now.clauses) }
        ensures learned { IfOk result (λ closer. closer.learned ≡ []) }
    {
        let trail = Trail::new(alloc, formula.names)?;
        let mut watches = Watches::new(alloc, formula.names)?;
        for clause in formula.clauses.as_slice() {
            watches.add(clause.as_slice())?;
        }
        let given = watches.len();
        Ok(Closer {
            alloc,
            watches,
            given,
            limit: next_limit(given, 0),
            learned: Clauses::new(alloc),
            trail,
            is_started: false,
        })
    }

    /// Takes the closure of all clauses and the decisions. It takes no memory.
    pub fn close(&mut self, decisions: &[Lit]) -> Closed
        requires { AreNamed self.old.names decisions.now }
        ensures conflict { result ≡ Closed.Conflict ↔ IsConflict named (clauses_of self.old) decisions.now }
        ensures closed { result ≡ Closed.Set → IsClosure (clauses_of self.old) decisions.now self.new.values }
        ensures filled { AreFilled self.old.formula }
        ensures names { self.new.names ≡ self.old.names }
        ensures formula { self.new.formula ≡ self.old.formula }
        ensures learned { self.new.learned ≡ self.old.learned }
    {
        match make_ready(&mut self.trail, &mut self.watches, self.is_started) {
            Closed::Conflict => {
                self.is_started = false;
                Closed::Conflict
            }
            Closed::Set => {
                self.is_started = true;
                close_trail(&mut self.trail, &mut self.watches, decisions)
            }
        }
    }

    /// The literal's value in the closure that the last close took, where it answered `Set` and nothing was learned
    /// since.
    pub fn value(&self, l: Lit) -> Option<bool>
        requires { l.name < self.now.names }
        ensures yes { (decisions : List Lit) → IsClosure (clauses_of self.now) decisions self.now.values →
            (result ≡ Some true ↔ IsInClosure named (clauses_of self.now) decisions l) }
        ensures no { (decisions : List Lit) → IsClosure (clauses_of self.now) decisions self.now.values →
            (result ≡ Some false ↔ IsInClosure named (clauses_of self.now) decisions (negation l)) }
    {
        match self.trail.value(l.name) {
            None => None,
            Some(b) => Some(b == l.positive),
        }
    }

    /// Puts a clause at the end of the learned ones. On an error nothing has changed.
    pub fn learn(&mut self, clause: &[Lit]) -> Result<(), NoMemory>
        requires { AreNamed self.old.names clause.now }
        ensures names { IfOk result (λ _. self.new.names ≡ self.old.names) }
        ensures formula { IfOk result (λ _. self.new.formula ≡ self.old.formula) }
        ensures learned { IfOk result (λ _. self.new.learned ≡ self.old.learned ++ clause.now ∷ []) }
        ensures err { IfErr result (λ _. self.new ≡ self.old) }
    {
        self.learned.push(clause)?;
        match add_learned(
            self.alloc,
            &mut self.watches,
            self.given,
            &mut self.limit,
            clause,
        ) {
            Ok(()) => {
                self.trail.clear();
                self.is_started = false;
                let _ = self.watches.len();
                Ok(())
            }
            Err(e) => {
                self.learned.pop();
                Err(e)
            }
        }
    }

    /// How many clauses were learned, those among them that are no longer watched.
    pub fn learned_len(&self) -> u64
        ensures { result ≡ length self.now.learned }
    {
        self.learned.len() as u64
    }

    /// The clause that was learned as number `i`, counted from 0, its literals in the order in which it was handed over.
    pub fn learned(&self, i: u64) -> &[Lit]
        requires { i < length self.now.learned }
        ensures { slice_get self.now.learned i ≡ Some result.now }
    {
        self.learned.clause(i as usize)
    }
}
