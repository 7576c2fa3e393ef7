//! Signed words: negation, magnitude, signed division.

ghost use Rattle.std.specs.Prelude.{◌≡◌, ◌<◌, length, IfOk};
ghost use Rattle.gate_model.specs.Makers.{tree_gates, xor_gate};
ghost use Rattle.gate_net.specs.Trees.{signed_of, all_signed_of, Extends};
ghost use Rattle.word_bits.specs.Circuits.{nos, sign, equal, negate, signed_by, magnitude, quotient, quotient_signed, remainder, remainder_signed};
ghost use Rattle.gate_net.specs.Lits.{AreNamed};
ghost use Rattle.word_gates.specs.Lits.{AreWord, IsBit};

use crate::bitwise::{BitGate, each};
use crate::comparisons::{difference, equal, sign};
use crate::division::divide;
use gate_net::{Lit, Net};
use no_memory::NoMemory;
use std::alloc::Global;

/// The word's negative.
fn negate(alloc: Global, net: &mut Net, a: &[Lit]) -> Result<Vec<Lit>, NoMemory>
    requires word { AreNamed (length net.old) a.now }
    ensures word { IfOk result (λ r. AreWord net.new (length a.now)
        (negate tree_gates (all_signed_of net.old a.now)) r.items) }
    ensures keeps { Extends net.old net.new }
{
    let _net = net.len();
    let zeros = vec![in alloc; Lit::NO; a.len()]?;
    let total = difference(alloc, net, &zeros, a)?;
    Ok(total.bits)
}

/// The word, negated where `turned` is yes.
#[tactic(auto, using(crate::proofs::NetLemmas::turns))]
fn signed_by(alloc: Global, net: &mut Net, turned: Lit, a: &[Lit]) -> Result<Vec<Lit>, NoMemory>
    requires turned { turned.name < length net.old }
    requires word { AreNamed (length net.old) a.now }
    ensures word { IfOk result (λ r. AreWord net.new (length a.now)
        (signed_by tree_gates (signed_of net.old turned) (all_signed_of net.old a.now)) r.items) }
    ensures keeps { Extends net.old net.new }
{
    let negative = negate(alloc, net, a)?;
    let chosen = each(alloc, net, BitGate::Mux(turned), &negative, a)?;
    Ok(chosen)
}

/// The word without its sign.
fn magnitude(alloc: Global, net: &mut Net, a: &[Lit]) -> Result<Vec<Lit>, NoMemory>
    requires some { 0 < length a.now }
    requires word { AreNamed (length net.old) a.now }
    ensures word { IfOk result (λ r. AreWord net.new (length a.now)
        (magnitude tree_gates (all_signed_of net.old a.now)) r.items) }
    ensures keeps { Extends net.old net.new }
{
    let turned = sign(a);
    let made = signed_by(alloc, net, turned, a)?;
    Ok(made)
}

/// The unsigned remainder.
pub(crate) fn remainder(
    alloc: Global,
    net: &mut Net,
    a: &[Lit],
    b: &[Lit],
) -> Result<Vec<Lit>, NoMemory>
    requires first { AreNamed (length net.old) a.now }
    requires second { AreNamed (length net.old) b.now }
    ensures word { IfOk result (λ r. AreWord net.new (length b.now)
        (remainder tree_gates (all_signed_of net.old a.now) (all_signed_of net.old b.now)) r.items) }
    ensures keeps { Extends net.old net.new }
{
    let division = divide(alloc, net, a, b)?;
    let mut left = division.left;
    left.truncate(b.len());
    Ok(left)
}

/// Two words without their signs.
#[derive(Drop)]
struct Magnitudes {
    first: Vec<Lit>,
    second: Vec<Lit>,
}

/// Both words without their signs.
#[tactic(auto, using(crate::proofs::NetLemmas::turns))]
fn both_magnitudes(
    alloc: Global,
    net: &mut Net,
    a: &[Lit],
    b: &[Lit],
) -> Result<Magnitudes, NoMemory>
    requires some { 0 < length a.now }
    requires width { length a.now ≡ length b.now }
    requires first { AreNamed (length net.old) a.now }
    requires second { AreNamed (length net.old) b.now }
    ensures first { IfOk result (λ m. AreWord net.new (length a.now)
        (magnitude tree_gates (all_signed_of net.old a.now)) m.first.items) }
    ensures second { IfOk result (λ m. AreWord net.new (length b.now)
        (magnitude tree_gates (all_signed_of net.old b.now)) m.second.items) }
    ensures keeps { Extends net.old net.new }
{
    let first = magnitude(alloc, net, a)?;
    let second = magnitude(alloc, net, b)?;
    Ok(Magnitudes { first, second })
}

/// The quotient without its sign.
#[tactic(auto, using(crate::proofs::NetLemmas::turns))]
fn quotient_of_magnitudes(
    alloc: Global,
    net: &mut Net,
    a: &[Lit],
    b: &[Lit],
) -> Result<Vec<Lit>, NoMemory>
    requires some { 0 < length a.now }
    requires width { length a.now ≡ length b.now }
    requires first { AreNamed (length net.old) a.now }
    requires second { AreNamed (length net.old) b.now }
    ensures word { IfOk result (λ r. AreWord net.new (length a.now)
        (quotient tree_gates (magnitude tree_gates (all_signed_of net.old a.now)) (magnitude tree_gates (all_signed_of net.old b.now))) r.items) }
    ensures keeps { Extends net.old net.new }
{
    let words = both_magnitudes(alloc, net, a, b)?;
    let division = divide(alloc, net, &words.first, &words.second)?;
    Ok(division.quotient)
}

/// The remainder without its sign.
#[tactic(auto, using(crate::proofs::NetLemmas::turns))]
fn remainder_of_magnitudes(
    alloc: Global,
    net: &mut Net,
    a: &[Lit],
    b: &[Lit],
) -> Result<Vec<Lit>, NoMemory>
    requires some { 0 < length a.now }
    requires width { length a.now ≡ length b.now }
    requires first { AreNamed (length net.old) a.now }
    requires second { AreNamed (length net.old) b.now }
    ensures word { IfOk result (λ r. AreWord net.new (length b.now)
        (remainder tree_gates (magnitude tree_gates (all_signed_of net.old a.now)) (magnitude tree_gates (all_signed_of net.old b.now))) r.items) }
    ensures keeps { Extends net.old net.new }
{
    let words = both_magnitudes(alloc, net, a, b)?;
    let left = remainder(alloc, net, &words.first, &words.second)?;
    Ok(left)
}

/// The signed remainder, with the sign of the first word.
#[tactic(auto, using(crate::proofs::NetLemmas::turns))]
pub(crate) fn remainder_signed(
    alloc: Global,
    net: &mut Net,
    a: &[Lit],
    b: &[Lit],
) -> Result<Vec<Lit>, NoMemory>
    requires some { 0 < length a.now }
    requires width { length a.now ≡ length b.now }
    requires first { AreNamed (length net.old) a.now }
    requires second { AreNamed (length net.old) b.now }
    ensures word { IfOk result (λ r. AreWord net.new (length b.now)
        (remainder_signed tree_gates (all_signed_of net.old a.now) (all_signed_of net.old b.now)) r.items) }
    ensures keeps { Extends net.old net.new }
{
    let turned = sign(a);
    let left = remainder_of_magnitudes(alloc, net, a, b)?;
    let made = signed_by(alloc, net, turned, &left)?;
    Ok(made)
}

/// The quotient of the magnitudes, negated where the signs differ.
#[tactic(auto, using(crate::proofs::NetLemmas::turns))]
fn quotient_by_signs(
    alloc: Global,
    net: &mut Net,
    a: &[Lit],
    b: &[Lit],
) -> Result<Vec<Lit>, NoMemory>
    requires some { 0 < length a.now }
    requires width { length a.now ≡ length b.now }
    requires first { AreNamed (length net.old) a.now }
    requires second { AreNamed (length net.old) b.now }
    ensures word { IfOk result (λ r. AreWord net.new (length a.now)
        (signed_by tree_gates (xor_gate (sign tree_gates (all_signed_of net.old a.now)) (sign tree_gates (all_signed_of net.old b.now)))
        (quotient tree_gates (magnitude tree_gates (all_signed_of net.old a.now)) (magnitude tree_gates (all_signed_of net.old b.now)))) r.items) }
    ensures keeps { Extends net.old net.new }
{
    let first = sign(a);
    let second = sign(b);
    let quotient = quotient_of_magnitudes(alloc, net, a, b)?;
    let turned = net.xor(first, second)?;
    let made = signed_by(alloc, net, turned, &quotient)?;
    Ok(made)
}

/// Whether the word is 0.
fn is_zero(alloc: Global, net: &mut Net, b: &[Lit]) -> Result<Lit, NoMemory>
    requires word { AreNamed (length net.old) b.now }
    ensures zero { IfOk result (λ l. IsBit net.new
        (equal tree_gates (all_signed_of net.old b.now) (nos tree_gates (length (all_signed_of net.old b.now)))) l) }
    ensures keeps { Extends net.old net.new }
{
    let _net = net.len();
    let zeros = vec![in alloc; Lit::NO; b.len()]?;
    let zero = equal(net, b, &zeros)?;
    Ok(zero)
}

/// The signed quotient, and each bit yes where the second word is 0.
#[tactic(auto, using(crate::proofs::NetLemmas::turns))]
pub(crate) fn quotient_signed(
    alloc: Global,
    net: &mut Net,
    a: &[Lit],
    b: &[Lit],
) -> Result<Vec<Lit>, NoMemory>
    requires some { 0 < length a.now }
    requires width { length a.now ≡ length b.now }
    requires first { AreNamed (length net.old) a.now }
    requires second { AreNamed (length net.old) b.now }
    ensures word { IfOk result (λ r. AreWord net.new (length a.now)
        (quotient_signed tree_gates (all_signed_of net.old a.now) (all_signed_of net.old b.now)) r.items) }
    ensures keeps { Extends net.old net.new }
{
    let quotient = quotient_by_signs(alloc, net, a, b)?;
    let zero = is_zero(alloc, net, b)?;
    let ones = vec![in alloc; Lit::YES; b.len()]?;
    let _net = net.len();
    let chosen = each(alloc, net, BitGate::Mux(zero), &ones, &quotient)?;
    Ok(chosen)
}
