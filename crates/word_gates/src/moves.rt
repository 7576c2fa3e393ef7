//! Words of Lits that are moved, filled and negated: nothing here makes a gate.

ghost use Rattle.std.specs.Prelude.{◌≡◌, ℕ, ◌<◌, List, length, IfOk};
ghost use Rattle.gate_model.specs.Tree.{Tree};
ghost use Rattle.gate_model.specs.Makers.{tree_gates};
ghost use Rattle.gate_net.specs.Trees.{signed_of, all_signed_of};
ghost use Rattle.word_bits.specs.Circuits.{nots, shift_in, up, down};
ghost use Rattle.gate_net.specs.Lits.{AreNamed};
ghost use Rattle.word_gates.specs.Lits.{KeepBelow, AreMade};

use gate_net::Lit;
use no_memory::NoMemory;
use std::alloc::Global;

/// Each bit negated.
pub(crate) fn nots(alloc: Global, a: &[Lit]) -> Result<Vec<Lit>, NoMemory>
    ensures below { IfOk result (λ r. KeepBelow a.now r.items) }
    ensures width { IfOk result (λ r. length r.items ≡ length a.now) }
    ensures trees { IfOk result (λ r. (net : List Tree) → all_signed_of net r.items ≡ nots tree_gates (all_signed_of net a.now)) }
{
    let mut turned = Vec::new(alloc);
    for bit in a {
        turned.push(bit.not())?;
    }
    Ok(turned)
}

/// The bits moved up by `k` places, with no below.
pub(crate) fn up(alloc: Global, k: usize, a: &[Lit]) -> Result<Vec<Lit>, NoMemory>
    ensures below { IfOk result (λ r. KeepBelow a.now r.items) }
    ensures width { IfOk result (λ r. length r.items ≡ length a.now) }
    ensures trees { IfOk result (λ r. AreMade r.items (λ net. up tree_gates k (all_signed_of net a.now))) }
{
    let mut moved = vec![in alloc; Lit::NO; k]?;
    moved.extend_from_slice(a)?;
    moved.truncate(a.len());
    Ok(moved)
}

/// The bits moved down by `k` places, with `fill` above.
pub(crate) fn down(alloc: Global, fill: Lit, k: usize, a: &[Lit]) -> Result<Vec<Lit>, NoMemory>
    ensures below { IfOk result (λ r. (n : ℕ) → fill.name < n → AreNamed n a.now → AreNamed n r.items) }
    ensures width { IfOk result (λ r. length r.items ≡ length a.now) }
    ensures trees { IfOk result (λ r. AreMade r.items (λ net. down tree_gates (signed_of net fill) k (all_signed_of net a.now))) }
{
    let mut wide = Vec::from_slice(alloc, a)?;
    let fills = vec![in alloc; fill; k]?;
    wide.extend_from_slice(&fills)?;
    let moved = wide.split_off(k)?;
    Ok(moved)
}

/// The bits moved up by one place, with `lowest` below.
pub(crate) fn shift_in(alloc: Global, lowest: Lit, a: &[Lit]) -> Result<Vec<Lit>, NoMemory>
    ensures below { IfOk result (λ r. (n : ℕ) → lowest.name < n → AreNamed n a.now → AreNamed n r.items) }
    ensures width { IfOk result (λ r. length r.items ≡ length a.now) }
    ensures trees { IfOk result (λ r. AreMade r.items (λ net. shift_in tree_gates (signed_of net lowest) (all_signed_of net a.now))) }
{
    let mut moved = vec![in alloc; lowest; 1]?;
    moved.extend_from_slice(a)?;
    moved.truncate(a.len());
    Ok(moved)
}
