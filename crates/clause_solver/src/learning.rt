//! What is learned from a conflict.

ghost use Rattle.std.specs.Prelude.{◌≡◌, ◌<◌, ◌≤◌, ◌+◌, ◌++◌, take, drop, map, length, false, IfOk, OnOk, OnErr};
ghost use Rattle.gate_net.specs.Lits.{negation, AreNamed};
ghost use Rattle.unit_close.specs.Closing.{clauses_of};
ghost use Rattle.search_model.specs.Literals.{named};
ghost use Rattle.search_model.specs.Search.{trim, learn};
ghost use Rattle.search_model.specs.Tests.{is_conflict};
ghost use Rattle.clause_solver.specs.Solved.{SameClauses, SameFormula, state_of, HaveSame, Trims};

use crate::closing::conflicts;
use gate_net::Lit;
use no_memory::NoMemory;
use smallvec::SmallVec;
use std::alloc::Global;
use unit_close::Closer;

/// The decisions that a conflict needs, and how many stood before the last of them.
#[derive(Drop)]
struct Trimmed {
    left: SmallVec<Lit, 16>,
    before: usize,
}

/// The literals of both lists.
fn joined(alloc: Global, first: &[Lit], second: &[Lit]) -> Result<Vec<Lit>, NoMemory>
    ensures { IfOk result (λ all. all.items ≡ first.now ++ second.now) }
{
    let mut all = Vec::with_capacity(alloc, first.len().saturating_add(second.len()))?;
    all.extend_from_slice(first)?;
    all.extend_from_slice(second)?;
    Ok(all)
}

/// Trims the decisions from `start` to `end`. Those left so far and those from `end` on don't conflict, and `base` has
/// just these. A conflict stays one with more decisions, so the first half goes at once where the rest conflicts
/// without it. Halves of halves share their bases, of which the closer keeps the closure.
fn trim_part(
    alloc: Global,
    closer: &mut Closer,
    base: &[Lit],
    decisions: &[Lit],
    start: usize,
    end: usize,
    trimmed: &mut Trimmed,
) -> Result<(), NoMemory>
    requires part { start < end }
    requires within { end ≤ length decisions.now }
    requires decisions { AreNamed closer.old.names decisions.now }
    requires base_named { AreNamed closer.old.names base.now }
    requires left { AreNamed closer.old.names trimmed.old.left.items }
    requires base { HaveSame base.now (trimmed.old.left.items ++ drop end decisions.now) }
    requires calm { is_conflict named (clauses_of closer.old) (trimmed.old.left.items ++ drop end decisions.now) ≡ false }
    ensures trimmed { IfOk result (λ _. Trims (is_conflict named (clauses_of closer.old)) decisions.now start end
        trimmed.old.left.items trimmed.old.before trimmed.new.left.items trimmed.new.before) }
    ensures more { IfOk result (λ _. take (length trimmed.old.left.items) trimmed.new.left.items ≡ trimmed.old.left.items) }
    ensures left { IfOk result (λ _. AreNamed closer.old.names trimmed.new.left.items) }
    ensures kept { SameClauses closer.old closer.new }
{
    if end - start == 1 {
        trimmed.left.push(decisions[start])?;
        trimmed.before = start;
        return Ok(());
    }
    let middle = start + (end - start) / 2;
    let later = joined(alloc, base, &decisions[middle..end])?;
    if conflicts(closer, later.as_slice()) {
        return trim_part(alloc, closer, base, decisions, middle, end, trimmed);
    }
    let count = trimmed.left.len();
    trim_part(
        alloc,
        closer,
        later.as_slice(),
        decisions,
        start,
        middle,
        trimmed,
    )?;
    let left = joined(alloc, base, &trimmed.left.as_slice()[count..])?;
    if conflicts(closer, left.as_slice()) {
        return Ok(());
    }
    trim_part(
        alloc,
        closer,
        left.as_slice(),
        decisions,
        middle,
        end,
        trimmed,
    )
}

/// Drops each decision, from the first on, without which those left and those after it still conflict.
fn trim(alloc: Global, closer: &mut Closer, decisions: &[Lit]) -> Result<Trimmed, NoMemory>
    requires { AreNamed closer.old.names decisions.now }
    ensures trimmed { IfOk result (λ r. trim named (clauses_of closer.old) decisions.now
        ≡ record { left = r.left.items; before = take r.before decisions.now }) }
    ensures left { IfOk result (λ r. AreNamed closer.old.names r.left.items) }
    ensures kept { SameClauses closer.old closer.new }
{
    let mut trimmed = Trimmed {
        left: SmallVec::new(alloc),
        before: 0,
    };
    if decisions.is_empty() {
        return Ok(trimmed);
    }
    if conflicts(closer, &[]) {
        return Ok(trimmed);
    }
    trim_part(
        alloc,
        closer,
        &[],
        decisions,
        0,
        decisions.len(),
        &mut trimmed,
    )?;
    Ok(trimmed)
}

/// The clause of the negations of the literals.
fn negations(alloc: Global, literals: &[Lit]) -> Result<SmallVec<Lit, 16>, NoMemory>
    ensures { IfOk result (λ clause. clause.items ≡ map negation literals.now) }
{
    let mut clause = SmallVec::new(alloc);
    for l in literals {
        clause.push(l.not())?;
    }
    Ok(clause)
}

/// Learns a clause from a conflict under the decisions, and keeps those that stood before the last one that the
/// conflict needs. On an error nothing is learned.
pub(crate) fn learn(
    alloc: Global,
    closer: &mut Closer,
    decisions: &mut Vec<Lit>,
) -> Result<(), NoMemory>
    requires { AreNamed closer.old.names decisions.old.items }
    ensures learned { OnOk result (state_of closer.new decisions.new.items
        ≡ learn named closer.old.formula (state_of closer.old decisions.old.items)) }
    ensures named { AreNamed closer.new.names decisions.new.items }
    ensures one { OnOk result (length closer.new.learned ≡ length closer.old.learned + 1) }
    ensures kept { SameFormula closer.old closer.new }
    ensures err { OnErr result (closer.new.learned ≡ closer.old.learned) }
{
    let trimmed = trim(alloc, closer, decisions.as_slice())?;
    let clause = negations(alloc, trimmed.left.as_slice())?;
    closer.learn(clause.as_slice())?;
    decisions.truncate(trimmed.before);
    Ok(())
}
