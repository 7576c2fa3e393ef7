//! Watches without the learned clauses of which others are parts. Where such a clause forces a literal, its part forces
//! the same one, or is itself a conflict.

ghost use Rattle.std.specs.Prelude.{◌≡◌, ◌≤◌, ◌+◌, ◌++◌, ◌∷◌, [], length, take, drop, true, false, IfOk, IfErr, Contains};
ghost use Rattle.gate_net.specs.Lits.{AreNamed};
ghost use Rattle.unit_close.specs.Subsumed.{Subsumes, AreSubsuming, StandFor};

use crate::watches::Watches;
use gate_net::Lit;
use no_memory::NoMemory;
use std::alloc::Global;

/// How many clauses are learned at least before those that are watched are looked through again.
const FEW: usize = 64;

/// Whether the clause has the literal.
fn has_literal(clause: &[Lit], l: Lit) -> bool
    ensures yes { result ≡ true → Contains clause.now l }
    ensures no { result ≡ false → Contains clause.now l → ⊥ }
{
    for m in clause {
        if *m == l {
            return true;
        }
    }
    false
}

/// Whether the part has a literal, and the clause has each of the part's. Learned clauses mostly differ in their last
/// literals.
fn subsumes(part: &[Lit], clause: &[Lit]) -> bool
    ensures yes { result ≡ true → Subsumes part.now clause.now }
    ensures no { result ≡ false → Subsumes part.now clause.now → ⊥ }
{
    if part.is_empty() {
        return false;
    }
    for i in (0..part.len()).rev() {
        if !has_literal(clause, part[i]) {
            return false;
        }
    }
    true
}

/// A bit for each literal's name. A clause has all bits of its parts. This needs no contract: wrong bits only leave a
/// clause in the watches, or ask in vain whether it is subsumed.
fn signature(clause: &[Lit]) -> u64 {
    let mut bits = 0;
    for l in clause {
        bits |= 1_u64 << (l.name % 64) as u32;
    }
    bits
}

/// Whether one of the clauses after the first ones, with these signatures, is a part of the clause. The contract has one
/// direction: a clause that is left out has to be implied by one that stays, and one that stays in vain costs only time.
fn is_subsumed(watches: &Watches, given: usize, signatures: &[u64], clause: &[Lit]) -> bool
    requires { given + length signatures.now ≡ length watches.now.clauses }
    ensures { result ≡ true → AreSubsuming watches.now.clauses clause.now }
{
    let bits = signature(clause);
    let _ = watches.len();
    for (i, part) in signatures.iter().enumerate() {
        if *part & !bits == 0 && subsumes(watches.clause_at(given + i), clause) {
            return true;
        }
    }
    false
}

/// Watches of the first clauses alone.
fn first_clauses(alloc: Global, watches: &Watches, given: usize) -> Result<Watches, NoMemory>
    requires { given ≤ length watches.now.clauses }
    ensures names { IfOk result (λ first. first.names ≡ watches.now.names) }
    ensures loose { IfOk result (λ first. first.loose ≡ []) }
    ensures clauses { IfOk result (λ first. first.clauses ≡ take given watches.now.clauses) }
{
    let mut first = Watches::new(alloc, watches.names())?;
    for i in 0..given {
        first.add(watches.clause_at(i))?;
    }
    Ok(first)
}

/// The same clauses without those after the first ones of which another is a part. Those added last come first, since
/// they are mostly the parts.
fn thinned(alloc: Global, watches: &Watches, given: usize) -> Result<Watches, NoMemory>
    requires { given ≤ length watches.now.clauses }
    ensures names { IfOk result (λ thin. thin.names ≡ watches.now.names) }
    ensures loose { IfOk result (λ thin. thin.loose ≡ []) }
    ensures first { IfOk result (λ thin. take given thin.clauses ≡ take given watches.now.clauses) }
    ensures standing { IfOk result (λ thin. StandFor given thin.clauses (drop given watches.now.clauses)) }
{
    let mut thin = first_clauses(alloc, watches, given)?;
    let mut signatures = Vec::new(alloc);
    for i in (given..watches.len()).rev() {
        let clause = watches.clause_at(i);
        if !is_subsumed(&thin, given, signatures.as_slice(), clause) {
            signatures.push(signature(clause))?;
            thin.add(clause)?;
        }
    }
    Ok(thin)
}

/// Watches a learned clause too. Where the watches have `limit` clauses, those of which others are parts are left out
/// before. On an error nothing has changed.
pub fn add_learned(
    alloc: Global,
    watches: &mut Watches,
    given: usize,
    limit: &mut usize,
    clause: &[Lit],
) -> Result<(), NoMemory>
    requires named { AreNamed watches.old.names clause.now }
    requires loose { watches.old.loose ≡ [] }
    requires within { given ≤ length watches.old.clauses }
    ensures names { watches.new.names ≡ watches.old.names }
    ensures loose { watches.new.loose ≡ [] }
    ensures first { take given watches.new.clauses ≡ take given watches.old.clauses }
    ensures standing { IfOk result (λ _. StandFor given watches.new.clauses (drop given watches.old.clauses ++ clause.now ∷ [])) }
    ensures err { IfErr result (λ _. watches.new ≡ watches.old) }
{
    if watches.len() < *limit {
        return watches.add(clause);
    }
    let mut fresh = thinned(alloc, watches, given)?;
    let left = fresh.len() - given;
    fresh.add(clause)?;
    *limit = next_limit(given, left);
    *watches = fresh;
    Ok(())
}

/// How many clauses are watched before they are looked through again, where so many learned ones are left. This needs no
/// contract: any number is right, and settles only how often that is done.
pub fn next_limit(given: usize, left: usize) -> usize {
    given
        .saturating_add(left)
        .saturating_add((left / 8).max(FEW))
}
