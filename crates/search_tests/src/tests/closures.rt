//! Closures of small formulas, of clauses that say a literal twice, of a long chain, and of learned clauses of which
//! others are parts.

ghost use Rattle.std.specs.Prelude.{◌≡◌, ◌<◌, IfOk, true, false};
ghost use Rattle.gate_net.specs.Lits.{AreNamed};

mod random;

use super::Sequence;
use gate_net::{Clause, ClauseList, Formula, Lit};
use std::alloc::{AllocError, Global};
use std::test::Fail;
use unit_close::{Closed, Closer};

fn yes(name: u64) -> Lit
    ensures { result ≡ record { name = name; positive = true } }
{
    Lit {
        name,
        positive: true,
    }
}

fn no(name: u64) -> Lit
    ensures { result ≡ record { name = name; positive = false } }
{
    Lit {
        name,
        positive: false,
    }
}

/// Each name but the last leads to the next, the last clause first.
fn chain(alloc: Global, names: u64) -> Result<Formula, AllocError>
    requires { 0 < names }
    ensures { IfOk result (λ f. f.names ≡ names) }
{
    let mut clauses = Vec::new(alloc);
    for i in (0..names - 1).rev() {
        clauses.push(Clause::from_vec(vec![in alloc; no(i), yes(i + 1)]?))?;
    }
    Ok(Formula {
        names,
        clauses: ClauseList::from_vec(clauses),
    })
}

/// Whether these decisions close so.
pub(super) fn closes(closer: &mut Closer, decisions: &[Lit], closed: Closed) -> bool
    requires { AreNamed closer.old.names decisions.now }
    ensures { closer.new.names ≡ closer.old.names }
{
    closer.close(decisions) == closed
}

/// Whether the last close told this of a literal.
fn tells(closer: &Closer, l: Lit, value: Option<bool>) -> bool
    requires { l.name < closer.now.names }
{
    closer.value(l) == value
}

/// Whether the closes of a chain of 20,000 names tell what leads to what.
fn chain_is_closed(closer: &mut Closer) -> bool
    requires { closer.old.names ≡ 20000 }
    ensures { closer.new.names ≡ 20000 }
{
    closes(closer, &[yes(0)], Closed::Set)
        && tells(closer, yes(19_999), Some(true))
        && closes(closer, &[yes(0), no(19_999)], Closed::Conflict)
        && closes(closer, &[], Closed::Set)
        && tells(closer, yes(19_999), None)
}

#[test]
fn a_chain_of_names(rt: HostRuntime) -> Result<(), Fail> {
    let formula = chain(rt.alloc(), 20_000)?;
    let mut closer = Closer::load(rt.alloc(), &formula)?;
    for _ in 0..100 {
        assert!(rt; chain_is_closed(&mut closer));
    }
    Ok(())
}

/// Whether a chain of four names is closed with clauses that repeat a literal, and with such decisions.
fn closes_with_repeats(closer: &mut Closer) -> Result<bool, AllocError>
    requires { closer.old.names ≡ 4 }
{
    closer.learn(&[])?;
    closer.learn(&[yes(1), no(1)])?;
    let is_first = closes(closer, &[], Closed::Set) && tells(closer, yes(0), None);
    closer.learn(&[no(3), no(3)])?;
    Ok(
        is_first
            && closes(closer, &[], Closed::Set)
            && tells(closer, yes(0), Some(false))
            && closes(closer, &[yes(0)], Closed::Conflict)
            && closes(closer, &[no(0), no(0)], Closed::Set),
    )
}

#[test]
fn clauses_that_repeat_a_literal(rt: HostRuntime) -> Result<(), Fail> {
    let formula = chain(rt.alloc(), 4)?;
    let mut closer = Closer::load(rt.alloc(), &formula)?;
    assert!(rt; closes_with_repeats(&mut closer)?);
    Ok(())
}

/// Whether a chain of four names is closed under decisions that begin as others did.
fn closes_again(closer: &mut Closer) -> bool
    requires { closer.old.names ≡ 4 }
{
    closes(closer, &[yes(2), yes(3), yes(1)], Closed::Set)
        && tells(closer, yes(0), None)
        && closes(closer, &[yes(2), yes(3), no(1), yes(0)], Closed::Conflict)
        && closes(closer, &[yes(2), no(1), no(1)], Closed::Set)
        && tells(closer, no(0), Some(true))
        && tells(closer, yes(3), Some(true))
        && closes(closer, &[yes(1), no(1)], Closed::Conflict)
}

#[test]
fn decisions_that_differ_late(rt: HostRuntime) -> Result<(), Fail> {
    let formula = chain(rt.alloc(), 4)?;
    let mut closer = Closer::load(rt.alloc(), &formula)?;
    assert!(rt; closes_again(&mut closer));
    Ok(())
}

impl Sequence {
    /// One of the literals of sixteen names.
    fn literal(&mut self) -> Lit
        ensures { result.name < 16 }
    {
        Lit {
            name: self.next() % 16,
            positive: self.next() % 2 == 0,
        }
    }

    /// Up to five literals.
    fn literals(&mut self, alloc: Global) -> Result<Vec<Lit>, AllocError>
        ensures { IfOk result (λ literals. AreNamed 16 literals.items) }
    {
        let mut literals = Vec::new(alloc);
        for _ in 0..self.next() % 6 {
            literals.push(self.literal())?;
        }
        Ok(literals)
    }

    /// A clause of two to seven literals, of which two are positive.
    fn clause(&mut self, alloc: Global) -> Result<Vec<Lit>, AllocError>
        ensures { IfOk result (λ clause. AreNamed 16 clause.items) }
    {
        let mut clause = self.literals(alloc)?;
        clause.push(yes(self.next() % 16))?;
        clause.push(yes(self.next() % 16))?;
        Ok(clause)
    }

    /// The positive literals of a clause, and some of the others.
    fn part(&mut self, alloc: Global, clause: &[Lit]) -> Result<Vec<Lit>, AllocError>
        requires { AreNamed 16 clause.now }
        ensures { IfOk result (λ part. AreNamed 16 part.items) }
    {
        let mut part = Vec::new(alloc);
        for l in clause {
            if l.positive || self.next() % 3 == 0 {
                part.push(*l)?;
            }
        }
        Ok(part)
    }
}

/// The place of a literal among those of sixteen names.
fn place(l: Lit) -> usize
    ensures { result < 32 }
{
    let even = 2 * (l.name % 16) as usize;
    if l.positive { even + 1 } else { even }
}

/// Whether the set has the negation of each literal of the clause but this one.
fn forces(set: &[bool; 32], clause: &[Lit], l: Lit) -> bool {
    for m in clause {
        if *m != l && !set[place(m.not())] {
            return false;
        }
    }
    true
}

/// Puts in what the clause forces.
fn pass(set: &mut [bool; 32], clause: &[Lit]) {
    for l in clause {
        if forces(set, clause, *l) {
            set[place(*l)] = true;
        }
    }
}

/// The closure, by so many passes over all clauses as there are literals.
fn scan(clauses: &[Clause], decisions: &[Lit]) -> [bool; 32] {
    let mut set = [false; 32];
    for d in decisions {
        set[place(*d)] = true;
    }
    for _ in 0..32 {
        for clause in clauses {
            pass(&mut set, clause.as_slice());
        }
    }
    set
}

/// What the set tells of each name, or none where it has a name's both literals.
fn values(set: &[bool; 32]) -> Option<[Option<bool>; 16]> {
    let mut values = [None; 16];
    for name in 0..16 {
        values[name] = match (set[2 * name], set[2 * name + 1]) {
            (true, true) => return None,
            (true, false) => Some(false),
            (false, true) => Some(true),
            (false, false) => None,
        };
    }
    Some(values)
}

/// What the closer tells of each name.
fn told(closer: &mut Closer, decisions: &[Lit]) -> Option<[Option<bool>; 16]>
    requires names { closer.old.names ≡ 16 }
    requires decisions { AreNamed 16 decisions.now }
    ensures { closer.new.names ≡ 16 }
{
    match closer.close(decisions) {
        Closed::Conflict => None,
        Closed::Set => {
            let mut values = [None; 16];
            for name in 0..16 {
                values[name] = closer.value(yes(name as u64));
            }
            Some(values)
        }
    }
}

/// Learns a clause.
fn learn(
    alloc: Global,
    closer: &mut Closer,
    clauses: &mut Vec<Clause>,
    clause: &[Lit],
) -> Result<(), AllocError>
    requires names { closer.old.names ≡ 16 }
    requires clause { AreNamed 16 clause.now }
    ensures { closer.new.names ≡ 16 }
{
    clauses.push(Clause::from_vec(clause.to_vec(alloc)?))?;
    closer.learn(clause)
}

/// Whether the closer tells what a scan of all clauses does, under some decisions.
fn agrees(closer: &mut Closer, clauses: &[Clause], decisions: &[Lit]) -> bool
    requires names { closer.old.names ≡ 16 }
    requires decisions { AreNamed 16 decisions.now }
    ensures { closer.new.names ≡ 16 }
{
    told(closer, decisions) == values(&scan(clauses, decisions))
}

/// Whether the closer tells what a scan does once a clause is learned too, under some decisions.
fn learns(
    alloc: Global,
    closer: &mut Closer,
    clauses: &mut Vec<Clause>,
    clause: &[Lit],
    decisions: &[Lit],
) -> Result<bool, AllocError>
    requires names { closer.old.names ≡ 16 }
    requires clause { AreNamed 16 clause.now }
    requires decisions { AreNamed 16 decisions.now }
    ensures { closer.new.names ≡ 16 }
{
    learn(alloc, closer, clauses, clause)?;
    Ok(agrees(closer, clauses.as_slice(), decisions))
}

/// Whether it does so for a clause of the sequence, and then for a part of it, which may be the same again.
fn learns_both(
    alloc: Global,
    sequence: &mut Sequence,
    closer: &mut Closer,
    clauses: &mut Vec<Clause>,
) -> Result<bool, AllocError>
    requires { closer.old.names ≡ 16 }
    ensures { closer.new.names ≡ 16 }
{
    let clause = sequence.clause(alloc)?;
    let decisions = sequence.literals(alloc)?;
    let first = learns(alloc, closer, clauses, &clause, &decisions)?;
    let part = sequence.part(alloc, &clause)?;
    let decisions = sequence.literals(alloc)?;
    Ok(first && learns(alloc, closer, clauses, &part, &decisions)?)
}

#[test]
fn clauses_of_which_others_are_parts(rt: HostRuntime) -> Result<(), Fail> {
    let mut sequence = Sequence { state: 1 };
    let mut clauses = Vec::new(rt.alloc());
    let formula = Formula {
        names: 16,
        clauses: ClauseList::from_vec(Vec::new(rt.alloc())),
    };
    let mut closer = Closer::load(rt.alloc(), &formula)?;
    for _ in 0..100 {
        assert!(rt; learns_both(rt.alloc(), &mut sequence, &mut closer, &mut clauses)?);
    }
    Ok(())
}
