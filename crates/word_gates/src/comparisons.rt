//! Comparisons of words, and truth values as words.

ghost use Rattle.std.specs.Prelude.{◌≡◌, ℕ, ◌<◌, length, IfOk, List};
ghost use Rattle.gate_model.specs.Tree.{Tree};
ghost use Rattle.gate_model.specs.Makers.{tree_gates};
ghost use Rattle.gate_net.specs.Trees.{signed_of, all_signed_of, Extends};
ghost use Rattle.word_bits.specs.Circuits.{nots, sum, carry, sign, less, turn_sign, less_signed, equal, truth};
ghost use Rattle.gate_net.specs.Lits.{AreNamed};
ghost use Rattle.word_gates.specs.Lits.{KeepBelow, AreMade, IsBit, AreWord};

use crate::adders::{Total, sum};
use crate::moves::nots;
use gate_net::{Lit, Net};
use no_memory::NoMemory;
use std::alloc::Global;

/// The difference bit by bit, and its carry, which is no where the first word is less.
pub(crate) fn difference(
    alloc: Global,
    net: &mut Net,
    a: &[Lit],
    b: &[Lit],
) -> Result<Total, NoMemory>
    requires first { AreNamed (length net.old) a.now }
    requires second { AreNamed (length net.old) b.now }
    requires width { length a.now ≡ length b.now }
    ensures bits { IfOk result (λ s. AreWord net.new (length a.now)
        (sum tree_gates (tree_gates.yes) (all_signed_of net.old a.now) (nots tree_gates (all_signed_of net.old b.now))) s.bits.items) }
    ensures carry { IfOk result (λ s. IsBit net.new
        (carry tree_gates (tree_gates.yes) (all_signed_of net.old a.now) (nots tree_gates (all_signed_of net.old b.now))) s.carry) }
    ensures keeps { Extends net.old net.new }
{
    let _net = net.len();
    let turned = nots(alloc, b)?;
    let total = sum(alloc, net, Lit::YES, a, &turned)?;
    Ok(total)
}

/// Whether the first word is less, both unsigned.
pub(crate) fn less(alloc: Global, net: &mut Net, a: &[Lit], b: &[Lit]) -> Result<Lit, NoMemory>
    requires first { AreNamed (length net.old) a.now }
    requires second { AreNamed (length net.old) b.now }
    requires width { length a.now ≡ length b.now }
    ensures bit { IfOk result (λ l. IsBit net.new
        (less tree_gates (all_signed_of net.old a.now) (all_signed_of net.old b.now)) l) }
    ensures keeps { Extends net.old net.new }
{
    let total = difference(alloc, net, a, b)?;
    Ok(total.carry.not())
}

/// The word with its highest bit negated.
fn turn_sign(alloc: Global, a: &[Lit]) -> Result<Vec<Lit>, NoMemory>
    requires some { 0 < length a.now }
    ensures below { IfOk result (λ r. KeepBelow a.now r.items) }
    ensures width { IfOk result (λ r. length r.items ≡ length a.now) }
    ensures trees { IfOk result (λ r. AreMade r.items (λ net. turn_sign tree_gates (all_signed_of net a.now))) }
{
    let highest = sign(a).not();
    let mut turned = Vec::from_slice(alloc, a)?;
    turned.truncate(a.len() - 1);
    turned.push(highest)?;
    Ok(turned)
}

/// The highest bit of a word.
pub(crate) fn sign(a: &[Lit]) -> Lit
    requires some { 0 < length a.now }
    ensures below { (n : ℕ) → AreNamed n a.now → result.name < n }
    ensures tree { (net : List Tree) → signed_of net result ≡ sign tree_gates (all_signed_of net a.now) }
{
    a[a.len() - 1]
}

/// Whether the first word is less, both signed.
pub(crate) fn less_signed(
    alloc: Global,
    net: &mut Net,
    a: &[Lit],
    b: &[Lit],
) -> Result<Lit, NoMemory>
    requires some { 0 < length a.now }
    requires first { AreNamed (length net.old) a.now }
    requires second { AreNamed (length net.old) b.now }
    requires width { length a.now ≡ length b.now }
    ensures bit { IfOk result (λ l. IsBit net.new
        (less_signed tree_gates (all_signed_of net.old a.now) (all_signed_of net.old b.now)) l) }
    ensures keeps { Extends net.old net.new }
{
    let _net = net.len();
    let first = turn_sign(alloc, a)?;
    let second = turn_sign(alloc, b)?;
    less(alloc, net, &first, &second)
}

/// A truth value as a word.
pub(crate) fn truth(alloc: Global, bit: Lit) -> Result<Vec<Lit>, NoMemory>
    ensures below { IfOk result (λ r. (n : ℕ) → bit.name < n → AreNamed n r.items) }
    ensures trees { IfOk result (λ r. AreMade r.items (λ net. truth tree_gates (signed_of net bit))) }
    ensures width { IfOk result (λ r. length r.items ≡ 32) }
{
    let mut word = vec![in alloc; bit; 1]?;
    word.extend_from_slice(&[Lit::NO; 31])?;
    Ok(word)
}

/// Whether the words are equal.
pub(crate) fn equal(net: &mut Net, a: &[Lit], b: &[Lit]) -> Result<Lit, NoMemory>
    requires first { AreNamed (length net.old) a.now }
    requires second { AreNamed (length net.old) b.now }
    requires width { length a.now ≡ length b.now }
    ensures bit { IfOk result (λ l. IsBit net.new
        (equal tree_gates (all_signed_of net.old a.now) (all_signed_of net.old b.now)) l) }
    ensures keeps { Extends net.old net.new }
{
    let _net = net.len();
    let mut so_far = Lit::YES;
    for i in 0..a.len() {
        let differ = net.xor(a[i], b[i])?;
        so_far = net.and(so_far, differ.not())?;
    }
    Ok(so_far)
}
