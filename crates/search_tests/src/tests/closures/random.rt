//! Closures of random formulas, with clauses learned between, against plain scans of all clauses.

ghost use Rattle.std.specs.Prelude.{◌≡◌, ◌<◌, ◌≤◌, IfOk, length};
ghost use Rattle.gate_net.specs.Lits.{AreNamed};

use super::{Sequence, learn, scan, told, values};
use gate_net::{Clause, ClauseList, Formula, Lit};
use std::alloc::{AllocError, Global};
use std::test::Fail;
use unit_close::Closer;

/// One of the literals of so many names.
fn literal(sequence: &mut Sequence, names: u64) -> Lit
    requires some { 0 < names }
    requires few { names ≤ 16 }
    ensures { result.name < 16 }
{
    Lit {
        name: sequence.next() % names,
        positive: sequence.next() % 2 == 0,
    }
}

/// The literal again, its negation, or mostly another one.
fn again(sequence: &mut Sequence, names: u64, l: Lit) -> Lit
    requires some { 0 < names }
    requires few { names ≤ 16 }
    requires own { l.name < 16 }
    ensures { result.name < 16 }
{
    match sequence.next() % 12 {
        0 => l,
        1 => l.not(),
        _ => literal(sequence, names),
    }
}

/// A clause of one to four literals, which may have a literal twice, or its negation too.
fn clause(alloc: Global, sequence: &mut Sequence, names: u64) -> Result<Vec<Lit>, AllocError>
    requires some { 0 < names }
    requires few { names ≤ 16 }
    ensures named { IfOk result (λ clause. AreNamed 16 clause.items) }
    ensures filled { IfOk result (λ clause. 0 < length clause.items) }
{
    let first = literal(sequence, names);
    let mut clause = Vec::new(alloc);
    clause.push(first)?;
    for _ in 0..sequence.next() % 4 {
        clause.push(again(sequence, names, first))?;
    }
    Ok(clause)
}

/// Up to four literals.
fn decisions(alloc: Global, sequence: &mut Sequence, names: u64) -> Result<Vec<Lit>, AllocError>
    requires some { 0 < names }
    requires few { names ≤ 16 }
    ensures { IfOk result (λ decisions. AreNamed 16 decisions.items) }
{
    let mut decisions = Vec::new(alloc);
    for _ in 0..sequence.next() % 5 {
        decisions.push(literal(sequence, names))?;
    }
    Ok(decisions)
}

/// A formula over the first names of sixteen, whose clauses come into the row too.
fn formula(
    alloc: Global,
    sequence: &mut Sequence,
    names: u64,
    row: &mut Vec<Clause>,
) -> Result<Formula, AllocError>
    requires some { 0 < names }
    requires few { names ≤ 16 }
    ensures { IfOk result (λ formula. formula.names ≡ 16) }
{
    let mut clauses = Vec::new(alloc);
    for _ in 0..4 + sequence.next() % 12 {
        let clause = clause(alloc, sequence, names)?;
        row.push(Clause::from_vec(clause.to_vec(alloc)?))?;
        clauses.push(Clause::from_vec(clause))?;
    }
    Ok(Formula {
        names: 16,
        clauses: ClauseList::from_vec(clauses),
    })
}

/// Whether the closer tells what scans of all clauses do, under two lists of decisions. It counts those without a
/// conflict.
fn agrees_on_some(
    alloc: Global,
    sequence: &mut Sequence,
    names: u64,
    closer: &mut Closer,
    row: &[Clause],
    set: &mut u32,
) -> Result<bool, AllocError>
    requires some { 0 < names }
    requires few { names ≤ 16 }
    requires names { closer.old.names ≡ 16 }
    ensures { closer.new.names ≡ 16 }
{
    for _ in 0..2 {
        let decisions = decisions(alloc, sequence, names)?;
        let told = told(closer, decisions.as_slice());
        if told != values(&scan(row, decisions.as_slice())) {
            return Ok(false);
        }
        if told != None {
            *set = set.wrapping_add(1);
        }
    }
    Ok(true)
}

/// Whether a closer of one formula tells what scans of all clauses do, before and after each of three learned ones.
fn agrees_on_one(
    alloc: Global,
    sequence: &mut Sequence,
    set: &mut u32,
) -> Result<bool, AllocError> {
    let names = 8 + sequence.next() % 5;
    let mut row = Vec::new(alloc);
    let formula = formula(alloc, sequence, names, &mut row)?;
    let mut closer = Closer::load(alloc, &formula)?;
    for _ in 0..3 {
        if !agrees_on_some(alloc, sequence, names, &mut closer, row.as_slice(), set)? {
            return Ok(false);
        }
        let learned = clause(alloc, sequence, names)?;
        learn(alloc, &mut closer, &mut row, learned.as_slice())?;
    }
    agrees_on_some(alloc, sequence, names, &mut closer, row.as_slice(), set)
}

#[test]
fn random_formulas(rt: HostRuntime) -> Result<(), Fail> {
    let mut sequence = Sequence { state: 1 };
    let mut set = 0;
    for _ in 0..1000 {
        assert!(rt; agrees_on_one(rt.alloc(), &mut sequence, &mut set)?);
    }
    assert!(rt; 2000 < set && set < 6000);
    Ok(())
}
