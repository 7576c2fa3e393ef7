//! The bits of a group that stay fixed in its sets.

ghost use Rattle.std.specs.Prelude.{◌≡◌, ◌≢◌, ◌<◌, ◌≤◌, ◌||◌, ◌++◌, ℕ, List, [], length, take, drop, false, All, IfOk, Contains};
ghost use Rattle.gate_model.specs.Makers.{no};
ghost use Rattle.gate_net.specs.declared.literals.Lit.{Lit};
ghost use Rattle.gate_net.specs.Lits.{AreNamed};
ghost use Rattle.gate_net.specs.Trees.{signed_of, all_signed_of};
ghost use Rattle.unit_close.specs.Closing.{clauses_of};
ghost use Rattle.unit_close.specs.Values.{IsClosure};
ghost use Rattle.search_model.specs.Literals.{named};
ghost use Rattle.search_model.specs.Tests.{in_closure, is_conflict};
ghost use Rattle.clause_solver.specs.Solved.{SameClauses, HaveSame};
ghost use Rattle.wide_solve.specs.Freeing.{Frees};
ghost use Rattle.wide_laws.specs.Formula.{order_of};
ghost use Rattle.wide_laws.specs.Sets.{fixed_from, has_roots, force_roots, yes_name};

use clause_form::gate_clauses;
use gate_net::{Lit, Net};
use no_memory::NoMemory;
use std::alloc::Global;
use unit_close::{Closed, Closer};

/// Whether the root is yes, or in the closure that the closer took last.
fn has_root(closer: &Closer, root: Lit) -> bool
    requires { root.name < closer.now.names }
    ensures { (decisions : List Lit) → IsClosure (clauses_of closer.now) decisions closer.now.values →
        result ≡ (named.same root yes_name || in_closure named (clauses_of closer.now) decisions root) }
{
    if root == Lit::YES {
        return true;
    }
    match closer.value(root) {
        None => false,
        Some(value) => value,
    }
}

/// Whether each root is yes, or in the closure that the closer took last.
fn has_each(closer: &Closer, roots: &[Lit]) -> bool
    requires { AreNamed closer.now.names roots.now }
    ensures { (decisions : List Lit) → IsClosure (clauses_of closer.now) decisions closer.now.values →
        result ≡ has_roots named yes_name (clauses_of closer.now) roots.now decisions }
{
    for root in roots {
        if !has_root(closer, *root) {
            return false;
        }
    }
    true
}

/// Whether the closure of the clauses and the bits has each root that isn't yes.
fn forces(closer: &mut Closer, roots: &[Lit], bits: &[Lit]) -> bool
    requires roots { AreNamed closer.old.names roots.now }
    requires bits { AreNamed closer.old.names bits.now }
    requires calm { is_conflict named (clauses_of closer.old) bits.now ≡ false }
    ensures roots { result ≡ has_roots named yes_name (clauses_of closer.old) roots.now bits.now }
    ensures kept { SameClauses closer.old closer.new }
{
    match closer.close(bits) {
        Closed::Conflict => unreachable!(),
        Closed::Set => has_each(closer, roots),
    }
}

/// The literals of both lists.
fn joined(alloc: Global, first: &[Lit], second: &[Lit]) -> Result<Vec<Lit>, NoMemory>
    ensures { IfOk result (λ all. all.items ≡ first.now ++ second.now) }
{
    let mut all = Vec::with_capacity(alloc, first.len().saturating_add(second.len()))?;
    all.extend_from_slice(first)?;
    all.extend_from_slice(second)?;
    Ok(all)
}

/// Frees bits of the order from `start` to `end`. Those kept so far and those from `end` on don't force the roots, and
/// `base` has just these. More bits force more, so the first half is freed at once where the rest forces the roots
/// without it.
fn free_part(
    alloc: Global,
    closer: &mut Closer,
    roots: &[Lit],
    base: &[Lit],
    order: &[Lit],
    start: usize,
    end: usize,
    kept: &mut Vec<Lit>,
) -> Result<(), NoMemory>
    requires part { start < end }
    requires within { end ≤ length order.now }
    requires roots { AreNamed closer.old.names roots.now }
    requires order { AreNamed closer.old.names order.now }
    requires calm { (bits : List Lit) → ((l : Lit) → Contains bits l → Contains order.now l) →
        is_conflict named (clauses_of closer.old) bits ≡ false }
    requires kept { AreNamed closer.old.names kept.old.items }
    requires own { (l : Lit) → Contains kept.old.items l → Contains order.now l }
    requires base_named { AreNamed closer.old.names base.now }
    requires base { HaveSame base.now (kept.old.items ++ drop end order.now) }
    requires needed { has_roots named yes_name (clauses_of closer.old) roots.now (kept.old.items ++ drop end order.now) ≡ false }
    ensures freed { IfOk result (λ _. Frees (has_roots named yes_name (clauses_of closer.old) roots.now) order.now start end
        kept.old.items kept.new.items) }
    ensures more { IfOk result (λ _. take (length kept.old.items) kept.new.items ≡ kept.old.items) }
    ensures named { IfOk result (λ _. AreNamed closer.old.names kept.new.items) }
    ensures own { IfOk result (λ _. (l : Lit) → Contains kept.new.items l → Contains order.now l) }
    ensures same { SameClauses closer.old closer.new }
{
    if end - start == 1 {
        kept.push(order[start])?;
        return Ok(());
    }
    let middle = start + (end - start) / 2;
    let later = joined(alloc, base, &order[middle..end])?;
    if forces(closer, roots, later.as_slice()) {
        return free_part(alloc, closer, roots, base, order, middle, end, kept);
    }
    let count = kept.len();
    free_part(
        alloc,
        closer,
        roots,
        later.as_slice(),
        order,
        start,
        middle,
        kept,
    )?;
    let now = joined(alloc, base, &kept.as_slice()[count..])?;
    if forces(closer, roots, now.as_slice()) {
        return Ok(());
    }
    free_part(
        alloc,
        closer,
        roots,
        now.as_slice(),
        order,
        middle,
        end,
        kept,
    )
}

/// Frees bits of the order, one after another, where the others force the roots. The bits that stay fixed.
fn bits_kept(
    alloc: Global,
    closer: &mut Closer,
    roots: &[Lit],
    order: &[Lit],
) -> Result<Vec<Lit>, NoMemory>
    requires roots { AreNamed closer.old.names roots.now }
    requires order { AreNamed closer.old.names order.now }
    requires calm { (bits : List Lit) → ((l : Lit) → Contains bits l → Contains order.now l) →
        is_conflict named (clauses_of closer.old) bits ≡ false }
    ensures named { IfOk result (λ kept. AreNamed closer.old.names kept.items) }
    ensures fixed { IfOk result (λ kept. kept.items
        ≡ fixed_from (has_roots named yes_name (clauses_of closer.old) roots.now) [] order.now) }
{
    let mut kept = Vec::new(alloc);
    if order.is_empty() {
        return Ok(kept);
    }
    if forces(closer, roots, &[]) {
        return Ok(kept);
    }
    free_part(alloc, closer, roots, &[], order, 0, order.len(), &mut kept)?;
    Ok(kept)
}

/// The bits of a group that stay fixed in its sets: one after another is freed where the others
/// force the roots. The order has the group's bits, signed by the first bytes.
pub(crate) fn fixed_bits(
    alloc: Global,
    net: &Net,
    roots: &[Lit],
    order: &[Lit],
) -> Result<Vec<Lit>, NoMemory>
    requires roots { AreNamed (length net.now) roots.now }
    requires possible { All (λ l. signed_of net.now l ≢ no) roots.now }
    requires order { AreNamed (length net.now) order.now }
    requires own { (first places : List ℕ) × (all_signed_of net.now order.now ≡ order_of first places) }
    ensures named { IfOk result (λ fixed. AreNamed (length net.now) fixed.items) }
    ensures fixed { IfOk result (λ fixed. all_signed_of net.now fixed.items
        ≡ fixed_from (force_roots (all_signed_of net.now roots.now)) [] (all_signed_of net.now order.now)) }
{
    let _net = net.len();
    let formula = gate_clauses(alloc, net, roots)?;
    let mut closer = Closer::load(alloc, &formula)?;
    bits_kept(alloc, &mut closer, roots, order)
}
