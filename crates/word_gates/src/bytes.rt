//! Bytes and halves of words.

ghost use Rattle.std.specs.Prelude.{◌≡◌, ℕ, ◌<◌, ◌≤◌, ◌+◌, length, IfOk};
ghost use Rattle.gate_model.specs.Makers.{tree_gates};
ghost use Rattle.gate_net.specs.Trees.{signed_of, all_signed_of, Extends};
ghost use Rattle.word_bits.specs.Circuits.{choose, byte_at, named_byte, pair, halves};
ghost use Rattle.gate_net.specs.Lits.{AreNamed};
ghost use Rattle.word_gates.specs.Lits.{AreMade, AreWord};

use crate::bitwise::{BitGate, each};
use gate_net::{Lit, Net};
use no_memory::NoMemory;
use std::alloc::Global;

/// Eight bits of the word from place `first` on where `choice` is yes, else those from `second` on.
fn one_of_bytes(
    alloc: Global,
    net: &mut Net,
    choice: Lit,
    a: &[Lit],
    first: usize,
    second: usize,
) -> Result<Vec<Lit>, NoMemory>
    requires choice { choice.name < length net.old }
    requires word { AreNamed (length net.old) a.now }
    requires first { first + 8 ≤ length a.now }
    requires second { second + 8 ≤ length a.now }
    ensures word { IfOk result (λ r. AreWord net.new 8
        (choose tree_gates (signed_of net.old choice) (byte_at tree_gates first (all_signed_of net.old a.now))
        (byte_at tree_gates second (all_signed_of net.old a.now))) r.items) }
    ensures keeps { Extends net.old net.new }
{
    let upper = &a[first..first + 8];
    let lower = &a[second..second + 8];
    let byte = each(alloc, net, BitGate::Mux(choice), upper, lower)?;
    Ok(byte)
}

/// The byte of the first word that the low two bits of the second name.
#[tactic(auto, using(crate::proofs::NetLemmas::turns, crate::proofs::NetLemmas::kept))]
pub(crate) fn named_byte(
    alloc: Global,
    net: &mut Net,
    a: &[Lit],
    b: &[Lit],
) -> Result<Vec<Lit>, NoMemory>
    requires first { AreNamed (length net.old) a.now }
    requires second { AreNamed (length net.old) b.now }
    requires first_width { length a.now ≡ 32 }
    requires second_width { length b.now ≡ 32 }
    ensures word { IfOk result (λ r. AreWord net.new 32
        (named_byte tree_gates (all_signed_of net.old a.now) (all_signed_of net.old b.now)) r.items) }
    ensures keeps { Extends net.old net.new }
{
    let upper = one_of_bytes(alloc, net, b[0], a, 24, 16)?;
    let lower = one_of_bytes(alloc, net, b[0], a, 8, 0)?;
    let mut byte = each(alloc, net, BitGate::Mux(b[1]), &upper, &lower)?;
    let _net = net.len();
    byte.extend_from_slice(&[Lit::NO; 24])?;
    Ok(byte)
}

/// The lowest bytes of two words, that of the first below.
pub(crate) fn pair(alloc: Global, a: &[Lit], b: &[Lit]) -> Result<Vec<Lit>, NoMemory>
    requires first_width { length a.now ≡ 32 }
    requires second_width { length b.now ≡ 32 }
    ensures below { IfOk result (λ r. (n : ℕ) → 0 < n → AreNamed n a.now → AreNamed n b.now → AreNamed n r.items) }
    ensures trees { IfOk result (λ r. AreMade r.items (λ net. pair tree_gates (all_signed_of net a.now) (all_signed_of net b.now))) }
    ensures width { IfOk result (λ r. length r.items ≡ 32) }
{
    let mut word = Vec::from_slice(alloc, &a[..8])?;
    word.extend_from_slice(&b[..8])?;
    word.extend_from_slice(&[Lit::NO; 16])?;
    Ok(word)
}

/// The lower halves of two words, that of the first below.
pub(crate) fn halves(alloc: Global, a: &[Lit], b: &[Lit]) -> Result<Vec<Lit>, NoMemory>
    requires first_width { length a.now ≡ 32 }
    requires second_width { length b.now ≡ 32 }
    ensures below { IfOk result (λ r. (n : ℕ) → 0 < n → AreNamed n a.now → AreNamed n b.now → AreNamed n r.items) }
    ensures trees { IfOk result (λ r. AreMade r.items (λ net. halves tree_gates (all_signed_of net a.now) (all_signed_of net b.now))) }
    ensures width { IfOk result (λ r. length r.items ≡ 32) }
{
    let mut word = Vec::from_slice(alloc, &a[..16])?;
    word.extend_from_slice(&b[..16])?;
    Ok(word)
}
