//! Products by rows.

ghost use Rattle.std.specs.Prelude.{◌≡◌, ℕ, ◌<◌, ◌+◌, length, IfOk};
ghost use Rattle.gate_model.specs.Makers.{tree_gates};
ghost use Rattle.gate_net.specs.Trees.{signed_of, all_signed_of, Extends};
ghost use Rattle.word_bits.specs.Circuits.{sum, under, up, product, upper_product, widened};
ghost use Rattle.gate_net.specs.Lits.{AreNamed};
ghost use Rattle.word_gates.specs.Lits.{AreMade, AreWord};

use crate::adders::sum;
use crate::bitwise::{BitGate, each};
use crate::moves::up;
use gate_net::{Lit, Net};
use no_memory::NoMemory;
use std::alloc::Global;

/// Each bit of the word, where `bit` is yes.
fn under(alloc: Global, net: &mut Net, bit: Lit, a: &[Lit]) -> Result<Vec<Lit>, NoMemory>
    requires bit { bit.name < length net.old }
    requires word { AreNamed (length net.old) a.now }
    ensures word { IfOk result (λ r. AreWord net.new (length a.now)
        (under tree_gates (signed_of net.old bit) (all_signed_of net.old a.now)) r.items) }
    ensures keeps { Extends net.old net.new }
{
    let bits = vec![in alloc; bit; a.len()]?;
    let made = each(alloc, net, BitGate::And, a, &bits)?;
    Ok(made)
}

/// Adds to `so_far` the row of `bit`: the word under it, moved up by `place` places.
#[tactic(auto, using(crate::proofs::NetLemmas::turns))]
fn add_row(
    alloc: Global,
    net: &mut Net,
    so_far: &[Lit],
    place: usize,
    bit: Lit,
    a: &[Lit],
) -> Result<Vec<Lit>, NoMemory>
    requires so_far { AreNamed (length net.old) so_far.now }
    requires bit { bit.name < length net.old }
    requires word { AreNamed (length net.old) a.now }
    requires width { length so_far.now ≡ length a.now }
    ensures word { IfOk result (λ r. AreWord net.new (length a.now)
        (sum tree_gates (tree_gates.no) (all_signed_of net.old so_far.now)
        (up tree_gates place (under tree_gates (signed_of net.old bit) (all_signed_of net.old a.now)))) r.items) }
    ensures keeps { Extends net.old net.new }
{
    let taken = under(alloc, net, bit, a)?;
    let _net = net.len();
    let row = up(alloc, place, &taken)?;
    let total = sum(alloc, net, Lit::NO, so_far, &row)?;
    Ok(total.bits)
}

/// The product, of as many bits as the first word has.
pub(crate) fn product(
    alloc: Global,
    net: &mut Net,
    a: &[Lit],
    b: &[Lit],
) -> Result<Vec<Lit>, NoMemory>
    requires first { AreNamed (length net.old) a.now }
    requires second { AreNamed (length net.old) b.now }
    ensures word { IfOk result (λ r. AreWord net.new (length a.now)
        (product tree_gates (all_signed_of net.old a.now) (all_signed_of net.old b.now)) r.items) }
    ensures keeps { Extends net.old net.new }
{
    let _net = net.len();
    let mut so_far = vec![in alloc; Lit::NO; a.len()]?;
    for i in 0..b.len() {
        so_far = add_row(alloc, net, &so_far, i, b[i], a)?;
    }
    Ok(so_far)
}

/// The word with as many bits more, all of them `fill`.
fn widened(alloc: Global, fill: Lit, a: &[Lit]) -> Result<Vec<Lit>, NoMemory>
    ensures below { IfOk result (λ r. (n : ℕ) → fill.name < n → AreNamed n a.now → AreNamed n r.items) }
    ensures trees { IfOk result (λ r. AreMade r.items (λ net. widened tree_gates (signed_of net fill) (all_signed_of net a.now))) }
    ensures width { IfOk result (λ r. length r.items ≡ length a.now + length a.now) }
{
    let fills = vec![in alloc; fill; a.len()]?;
    let mut wide = Vec::from_slice(alloc, a)?;
    wide.extend_from_slice(&fills)?;
    Ok(wide)
}

/// The upper half of the product of two words, each with bits of its own above.
pub(crate) fn upper_product(
    alloc: Global,
    net: &mut Net,
    above: Lit,
    other_above: Lit,
    a: &[Lit],
    b: &[Lit],
) -> Result<Vec<Lit>, NoMemory>
    requires above { above.name < length net.old }
    requires other_above { other_above.name < length net.old }
    requires first { AreNamed (length net.old) a.now }
    requires second { AreNamed (length net.old) b.now }
    ensures word { IfOk result (λ r. AreWord net.new (length a.now)
        (upper_product tree_gates (signed_of net.old above) (signed_of net.old other_above)
        (all_signed_of net.old a.now) (all_signed_of net.old b.now)) r.items) }
    ensures keeps { Extends net.old net.new }
{
    let _net = net.len();
    let first = widened(alloc, above, a)?;
    let second = widened(alloc, other_above, b)?;
    let mut whole = product(alloc, net, &first, &second)?;
    let upper = whole.split_off(a.len())?;
    Ok(upper)
}
