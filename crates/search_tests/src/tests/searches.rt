//! The search against a trial of all assignments, and worked cases of search and closer. Clauses are rows of numbers:
//! n is the literal of the n-th name, and -n its negation.

ghost use Rattle.std.specs.Prelude.{◌≡◌, ◌<◌, ℕ, Bool, IfOk, length, Contains};
ghost use Rattle.gate_net.specs.Lits.{AreNamed};

use super::Sequence;
use super::closures::closes;
use clause_solver::{Found, SolveError, first_model};
use gate_net::{Clause, ClauseList, Formula, Lit};
use std::alloc::{AllocError, Global};
use std::test::Fail;
use unit_close::{Closed, Closer};

/// The place of a number's name among eight.
fn place(n: i64) -> usize
    ensures { result < 8 }
{
    n.unsigned_abs().wrapping_sub(1) as usize % 8
}

/// The literal of a number over this many names.
fn literal(names: u64, n: i64) -> Lit
    requires { 0 < names }
    ensures { result.name < names }
{
    Lit {
        name: n.unsigned_abs().wrapping_sub(1) % names,
        positive: n > 0,
    }
}

/// The formula of rows over this many names.
fn formula(alloc: Global, names: u64, rows: &[[i64; 3]]) -> Result<Formula, AllocError>
    requires { 0 < names }
    ensures { IfOk result (λ f. f.names ≡ names) }
{
    let mut clauses = Vec::new(alloc);
    for row in rows {
        let literals = vec![in alloc;
            literal(names, row[0]),
            literal(names, row[1]),
            literal(names, row[2]),
        ]?;
        clauses.push(Clause::from_vec(literals))?;
    }
    Ok(Formula {
        names,
        clauses: ClauseList::from_vec(clauses),
    })
}

/// Each name with its sign.
fn order(alloc: Global, signs: &[bool]) -> Result<Vec<Lit>, AllocError>
    ensures named { IfOk result (λ order. AreNamed (length signs.now) order.items) }
    ensures whole { IfOk result (λ order. (n : ℕ) → n < length signs.now →
        (sign : Bool) × Contains order.items (record { name = n; positive = sign })) }
{
    let mut order = Vec::new(alloc);
    for (i, sign) in signs.iter().enumerate() {
        order.push(Lit {
            name: i as u64,
            positive: *sign,
        })?;
    }
    Ok(order)
}

/// A closer of rows, and what the search finds there with each name in the order.
fn searched(
    alloc: Global,
    rows: &[[i64; 3]],
    signs: &[bool],
    budget: u32,
) -> Result<(Closer, Result<Found, SolveError>), AllocError>
    requires names { 0 < length signs.now }
    requires budget { 0 < budget }
{
    let formula = formula(alloc, signs.len() as u64, rows)?;
    let order = order(alloc, signs)?;
    let mut closer = Closer::load(alloc, &formula)?;
    let found = first_model(alloc, &mut closer, order.as_slice(), budget);
    Ok((closer, found))
}

/// What the search finds for rows, with each name in the order.
fn search(
    alloc: Global,
    rows: &[[i64; 3]],
    signs: &[bool],
    budget: u32,
) -> Result<Found, SolveError>
    requires names { 0 < length signs.now }
    requires budget { 0 < budget }
{
    searched(alloc, rows, signs, budget)?.1
}

/// How an assignment of eight names is counted: the first name is the highest digit, which is 0 where it has its sign.
const WEIGHTS: [u32; 8] = [128, 64, 32, 16, 8, 4, 2, 1];

/// Whether an assignment meets a row.
fn is_met(row: &[i64; 3], signs: &[bool; 8], assignment: u32) -> bool {
    for n in row {
        let has_sign = assignment & WEIGHTS[place(*n)] == 0;
        if (signs[place(*n)] == has_sign) == (*n > 0) {
            return true;
        }
    }
    false
}

/// Whether an assignment meets all rows.
fn are_met(rows: &[[i64; 3]], signs: &[bool; 8], assignment: u32) -> bool {
    for row in rows {
        if !is_met(row, signs, assignment) {
            return false;
        }
    }
    true
}

/// The first assignment that meets all rows.
fn first_by_trial(rows: &[[i64; 3]], signs: &[bool; 8]) -> Option<u32> {
    for assignment in 0..256 {
        if are_met(rows, signs, assignment) {
            return Some(assignment);
        }
    }
    None
}

impl Sequence {
    fn flip(&mut self) -> bool {
        self.next() % 2 == 0
    }

    /// One of the literals of eight names.
    fn number(&mut self) -> i64 {
        let n = (self.next() % 8) as i64 + 1;
        if self.flip() { n } else { -n }
    }

    /// A clause of one to three literals.
    fn row(&mut self) -> [i64; 3] {
        let a = self.number();
        let b = self.number();
        match self.next() % 8 {
            0 => [a, a, a],
            1 | 2 => [a, b, b],
            _ => [a, b, self.number()],
        }
    }

    fn rows(&mut self, alloc: Global) -> Result<Vec<[i64; 3]>, AllocError> {
        let mut rows = Vec::new(alloc);
        for _ in 0..10 + self.next() % 25 {
            rows.push(self.row())?;
        }
        Ok(rows)
    }

    fn signs(&mut self) -> [bool; 8] {
        [
            self.flip(),
            self.flip(),
            self.flip(),
            self.flip(),
            self.flip(),
            self.flip(),
            self.flip(),
            self.flip(),
        ]
    }
}

/// What the search finds, as the model's assignment and the count of conflicts. The first name is the assignment's
/// highest digit, which is 0 where it has its sign.
fn answer(found: &Found) -> Option<(u32, u32)> {
    match found {
        Found::Model { values, conflicts } => {
            let mut assignment = 0;
            for value in values.as_slice() {
                let digit = if *value { 0 } else { 1 };
                assignment = assignment << 1 | digit;
            }
            Some((assignment, *conflicts))
        }
        Found::Unsatisfiable => None,
    }
}

fn is_spent(found: &Result<Found, SolveError>) -> bool {
    match found {
        Err(SolveError::Spent) => true,
        _ => false,
    }
}

/// Whether the search of eight names is spent by a budget of its count, and finds the same by one more.
fn is_exact(
    alloc: Global,
    rows: &[[i64; 3]],
    signs: &[bool; 8],
    assignment: u32,
    conflicts: u32,
) -> Result<bool, SolveError> {
    if conflicts > 256 {
        return Ok(false);
    }
    if conflicts > 0 && !is_spent(&search(alloc, rows, signs, conflicts)) {
        return Ok(false);
    }
    let found = search(alloc, rows, signs, conflicts + 1)?;
    Ok(answer(&found) == Some((assignment, conflicts)))
}

/// Whether the search of eight names finds this assignment, or that there is none.
fn finds(
    alloc: Global,
    rows: &[[i64; 3]],
    signs: &[bool; 8],
    first: Option<u32>,
) -> Result<bool, SolveError> {
    let found = search(alloc, rows, signs, 257)?;
    match answer(&found) {
        Some((assignment, conflicts)) => Ok(
            first == Some(assignment) && is_exact(alloc, rows, signs, assignment, conflicts)?,
        ),
        None => Ok(first == None),
    }
}

#[test]
fn random_formulas(rt: HostRuntime) -> Result<(), Fail> {
    let mut sequence = Sequence { state: 1 };
    let mut with_model = 0_u32;
    for _ in 0..500 {
        let rows = sequence.rows(rt.alloc())?;
        let signs = sequence.signs();
        let first = first_by_trial(&rows, &signs);
        if first != None {
            with_model = with_model.wrapping_add(1);
        }
        assert!(rt; finds(rt.alloc(), &rows, &signs, first)?);
    }
    assert!(rt; 100 < with_model && with_model < 400);
    Ok(())
}

/// What a closer of two names puts in for the second, without decisions.
fn second(closer: &mut Closer) -> Option<bool>
    requires { closer.old.names ≡ 2 }
    ensures { closer.new.names ≡ 2 }
{
    match closer.close(&[]) {
        Closed::Set => closer.value(literal(2, 2)),
        Closed::Conflict => None,
    }
}

#[test]
fn a_closer_and_its_learned_clause(rt: HostRuntime) -> Result<(), Fail> {
    let formula = formula(rt.alloc(), 2, &[[1, 2, 2], [-1, 2, 2]])?;
    let mut closer = Closer::load(rt.alloc(), &formula)?;
    assert!(rt; second(&mut closer) == None);
    assert!(rt; closes(&mut closer, &[literal(2, -2)], Closed::Conflict));
    closer.learn(&[literal(2, 2)])?;
    assert!(rt; second(&mut closer) == Some(true));
    Ok(())
}

#[test]
fn unsatisfiable(rt: HostRuntime) -> Result<(), Fail> {
    let found = search(rt.alloc(), &[[1, 1, 1], [-1, -1, -1]], &[true], 1)?;
    assert_eq!(rt; answer(&found), None);
    Ok(())
}

/// Each clause over three names.
const ALL: [[i64; 3]; 8] = [
    [1, 2, 3],
    [1, 2, -3],
    [1, -2, 3],
    [1, -2, -3],
    [-1, 2, 3],
    [-1, 2, -3],
    [-1, -2, 3],
    [-1, -2, -3],
];

/// Each clause over the second and the third name.
const LAST_TWO: [[i64; 3]; 4] = [[2, 3, 3], [2, -3, -3], [-2, 3, 3], [-2, -3, -3]];

/// The signs of three names, clauses that no values meet, and what is learned. With the last two names alone the first
/// decision is dropped from the first conflict, and no decision is left of the second.
const LEARNED: [([bool; 3], &[[i64; 3]], &[&[i64]]); 4] = [
    ([true, true, true], &ALL, &[&[-1, -2], &[-1], &[-2]]),
    ([false, true, true], &ALL, &[&[1, -2], &[1], &[-2]]),
    ([true, true, true], &LAST_TWO, &[&[-2], &[]]),
    ([true, true, true], &[[1, 1, 1], [-1, -1, -1]], &[]),
];

/// Whether these are a clause's literals, in their order.
fn is_clause(literals: &[Lit], numbers: &[i64]) -> bool {
    if literals.len() != numbers.len() {
        return false;
    }
    for i in 0..numbers.len() {
        if literals[i] != literal(3, numbers[i]) {
            return false;
        }
    }
    true
}

/// Whether just these clauses were learned, in this order.
fn has_learned(closer: &Closer, clauses: &[&[i64]]) -> bool {
    if closer.learned_len() != clauses.len() as u64 {
        return false;
    }
    for i in 0..clauses.len() {
        if !is_clause(closer.learned(i as u64), clauses[i]) {
            return false;
        }
    }
    true
}

#[test]
fn learned_clauses_in_their_order(rt: HostRuntime) -> Result<(), Fail> {
    for (signs, rows, learned) in LEARNED {
        let (closer, found) = searched(rt.alloc(), rows, &signs, 9)?;
        assert!(rt; answer(&found?) == None && has_learned(&closer, learned));
    }
    Ok(())
}

/// Over the bits of three bytes, each from bit 7 down, the gates and(-8, -16), and(-8, 16) and and(-16, -24), of which
/// none holds.
const GATES: [[i64; 3]; 12] = [
    [-25, -8, -8],
    [-25, -16, -16],
    [25, 8, 16],
    [-26, -8, -8],
    [-26, 16, 16],
    [26, 8, -16],
    [-27, -16, -16],
    [-27, -24, -24],
    [27, 16, 24],
    [-25, -25, -25],
    [-26, -26, -26],
    [-27, -27, -27],
];

/// The search finds the lowest bit of the first byte and of the last, which are the 8th and the 24th of 27 names.
#[test]
fn one_conflict_among_three_bytes(rt: HostRuntime) -> Result<(), Fail> {
    let found = search(rt.alloc(), &GATES, &[false; 27], 2)?;
    assert_eq!(rt; answer(&found), Some((0b1000_0000_0000_0000_1000, 1)));
    assert!(rt; is_spent(&search(rt.alloc(), &GATES, &[false; 27], 1)));
    Ok(())
}
