//! Sums bit by bit.

ghost use Rattle.std.specs.Prelude.{◌≡◌, ◌<◌, length, IfOk};
ghost use Rattle.gate_model.specs.Makers.{and_gate, xor_gate, or_gate, tree_gates};
ghost use Rattle.gate_net.specs.Trees.{signed_of, all_signed_of, Extends};
ghost use Rattle.word_bits.specs.Circuits.{sum, carry};
ghost use Rattle.gate_net.specs.Lits.{AreNamed};
ghost use Rattle.word_gates.specs.Lits.{IsBit, AreWord};

use gate_net::{Lit, Net};
use no_memory::NoMemory;
use std::alloc::Global;

/// A bit of a sum, and the carry into the next.
#[derive(Clone, Copy, Debug)]
pub(crate) struct Digit {
    pub(crate) sum: Lit,
    pub(crate) carry: Lit,
}

/// A sum bit by bit, and the carry out of it.
#[derive(Drop)]
pub(crate) struct Total {
    pub(crate) bits: Vec<Lit>,
    pub(crate) carry: Lit,
}

/// Adds two bits and a carry.
fn full_adder(net: &mut Net, a: Lit, b: Lit, carry: Lit) -> Result<Digit, NoMemory>
    requires first { a.name < length net.old }
    requires second { b.name < length net.old }
    requires carry { carry.name < length net.old }
    ensures sum { IfOk result (λ d. IsBit net.new
        (xor_gate (xor_gate (signed_of net.old a) (signed_of net.old b)) (signed_of net.old carry)) d.sum) }
    ensures carry { IfOk result (λ d. IsBit net.new
        (or_gate (and_gate (signed_of net.old a) (signed_of net.old b))
        (and_gate (signed_of net.old carry) (xor_gate (signed_of net.old a) (signed_of net.old b)))) d.carry) }
    ensures keeps { Extends net.old net.new }
{
    let differ = net.xor(a, b)?;
    let sum = net.xor(differ, carry)?;
    let both = net.and(a, b)?;
    let through = net.and(carry, differ)?;
    let carry = net.or(both, through)?;
    Ok(Digit { sum, carry })
}

/// Adds two words of one width bit by bit, with a carry in.
pub(crate) fn sum(
    alloc: Global,
    net: &mut Net,
    carry_in: Lit,
    a: &[Lit],
    b: &[Lit],
) -> Result<Total, NoMemory>
    requires carry { carry_in.name < length net.old }
    requires first { AreNamed (length net.old) a.now }
    requires second { AreNamed (length net.old) b.now }
    requires width { length a.now ≡ length b.now }
    ensures bits { IfOk result (λ s. AreWord net.new (length a.now)
        (sum tree_gates (signed_of net.old carry_in) (all_signed_of net.old a.now) (all_signed_of net.old b.now)) s.bits.items) }
    ensures carry { IfOk result (λ s. IsBit net.new
        (carry tree_gates (signed_of net.old carry_in) (all_signed_of net.old a.now) (all_signed_of net.old b.now)) s.carry) }
    ensures keeps { Extends net.old net.new }
{
    let mut bits = Vec::new(alloc);
    let mut so_far = carry_in;
    for i in 0..a.len() {
        let digit = full_adder(net, a[i], b[i], so_far)?;
        bits.push(digit.sum)?;
        so_far = digit.carry;
    }
    Ok(Total {
        bits,
        carry: so_far,
    })
}
