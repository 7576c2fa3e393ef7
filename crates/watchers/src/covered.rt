//! The program counters of a run, as a set.

ghost use Rattle.std.specs.Prelude.{◌≡◌, true, IfOk, IsTrue};
ghost use Rattle.std.specs.Ordering.{nat_cmp};
ghost use Rattle.std.specs.FinSet as set;
ghost use Rattle.watchers.specs.Counters.{covered_after, AreIn};

use crate::watch::{Step, Watched};
use no_memory::NoMemory;
use rv_event::Event;
use std::alloc::Global;
use std::collections::BTreeSet;
use std::marker::Model;

/// The least number of places for known program counters.
const LEAST_PLACES: usize = 1024;

/// The number of places from which on there are no more.
const MOST_PLACES: usize = 1 << 22;

/// The set of the program counters that were fed.
#[derive(Drop)]
pub struct Covered {
    counters: BTreeSet<u32>,
    /// Some counters of the set, each at the place that its address names, so that a loop's steps need no
    /// look-up in the set. There is no place at first, and then a power of two.
    known: Vec<u32>,
}

impl Model for Covered {
    ghost use Rattle.std.specs.Ordering.{nat_cmp};
    ghost use Rattle.std.specs.FinSet as set;
    ghost use Rattle.std.specs.Coded.{coded_ℕ};
    ghost use Rattle.watchers.specs.Counters.{AreIn};

    ghost Value = { set.FinSet nat_cmp };

    ghost coded = { set.code coded_ℕ };

    ghost view = { λ c. set.from_list c.counters.keys };

    ghost invariant = { λ c. AreIn (set.from_list c.counters.keys) c.known.items };
}

impl Watched for Covered {
    ghost use Rattle.watchers.specs.Counters.{covered_after};

    ghost after = { covered_after };
}

impl Covered {
    /// No program counter.
    pub fn new(alloc: Global) -> Covered
        ensures { result ≡ set.empty }
    {
        Covered {
            counters: BTreeSet::new(alloc),
            known: Vec::new(alloc),
        }
    }

    /// The number of program counters.
    pub fn count(&self) -> u64
        ensures { result ≡ set.len self.now }
    {
        self.counters.len() as u64
    }

    /// Puts a program counter into the set, by a look-up.
    #[inline(never)]
    fn look_up(&mut self, pc: u32) -> Result<(), NoMemory>
        ensures { IfOk result (λ _. self.new ≡ set.insert self.old pc) }
    {
        self.counters.insert(pc)?;
        remember(&mut self.known, pc, self.counters.len())?;
        Ok(())
    }

    /// Puts a program counter into the set.
    fn add(&mut self, pc: u32) -> Result<(), NoMemory>
        ensures { IfOk result (λ _. self.new ≡ set.insert self.old pc) }
    {
        if is_known(self.known.as_slice(), pc) {
            return Ok(());
        }
        self.look_up(pc)
    }
}

/// The place of a program counter among so many, a power of two. Where there is none it is any number.
fn place_of(pc: u32, places: usize) -> usize {
    (pc >> 2) as usize & places.wrapping_sub(1)
}

/// Whether a program counter stands at its place.
fn is_known(known: &[u32], pc: u32) -> bool
    ensures { (s : set.FinSet nat_cmp) → IsTrue result → AreIn s known.now → set.contains s pc ≡ true }
{
    let place = place_of(pc, known.len());
    place < known.len() && known[place] == pc
}

/// How many places there should be: twice as many where they are fewer than the set's counters.
fn enough_places(places: usize, counters: usize) -> usize {
    if places < counters && places < MOST_PLACES {
        (places * 2).max(LEAST_PLACES)
    } else {
        places
    }
}

/// Puts a program counter of the set at its place. New places all get it.
fn remember(known: &mut Vec<u32>, pc: u32, counters: usize) -> Result<(), NoMemory>
    ensures { (s : set.FinSet nat_cmp) → set.contains s pc ≡ true → AreIn s known.old.items → AreIn s known.new.items }
{
    known.resize(enough_places(known.len(), counters), pc)?;
    let place = place_of(pc, known.len());
    if place < known.len() {
        known[place] = pc;
    }
    Ok(())
}

/// Puts the event's program counter into the set.
pub fn covered_step(covered: Covered, event: Event) -> Result<Covered, NoMemory>
    ensures { IfOk result (λ after. after ≡ covered_after covered event) }
{
    let mut covered = covered;
    covered.add(event.pc)?;
    Ok(covered)
}

/// The step of [`covered_step`].
#[derive(Clone, Copy, Debug)]
pub struct CoveredStep;

impl Step<Covered> for CoveredStep {
    fn next(&self, state: Covered, event: Event) -> Result<Covered, NoMemory> {
        covered_step(state, event)
    }

    fn advance(&self, state: &mut Covered, event: Event) -> Result<(), NoMemory> {
        state.add(event.pc)
    }
}
