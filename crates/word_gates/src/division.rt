//! Division bit by bit.

ghost use Rattle.std.specs.Prelude.{◌≡◌, ◌+◌, length, IfOk};
ghost use Rattle.gate_model.specs.Makers.{tree_gates};
ghost use Rattle.gate_net.specs.Trees.{all_signed_of, Extends};
ghost use Rattle.word_bits.specs.Circuits.{nots, sum, carry, choose, rest_of, quotient};
ghost use Rattle.gate_net.specs.Lits.{AreNamed};
ghost use Rattle.word_gates.specs.Lits.{IsBit, AreWord};

use crate::bitwise::{BitGate, each};
use crate::comparisons::difference;
use crate::moves::shift_in;
use gate_net::{Lit, Net};
use no_memory::NoMemory;
use std::alloc::Global;

/// Whether a step takes the divisor off, and what it leaves.
#[derive(Drop)]
struct Taken {
    fits: Lit,
    left: Vec<Lit>,
}

/// A quotient, and what is left, which has a bit more than the divisor.
#[derive(Drop)]
pub(crate) struct Division {
    pub(crate) quotient: Vec<Lit>,
    pub(crate) left: Vec<Lit>,
}

/// Takes the divisor, which has a bit more, off what is left, where it can.
#[tactic(auto, using(crate::proofs::NetLemmas::turns))]
fn step(alloc: Global, net: &mut Net, divisor: &[Lit], left: &[Lit]) -> Result<Taken, NoMemory>
    requires divisor { AreNamed (length net.old) divisor.now }
    requires left { AreNamed (length net.old) left.now }
    requires width { length left.now ≡ length divisor.now }
    ensures fits { IfOk result (λ s. IsBit net.new
        (carry tree_gates (tree_gates.yes) (all_signed_of net.old left.now) (nots tree_gates (all_signed_of net.old divisor.now))) s.fits) }
    ensures left { IfOk result (λ s. AreWord net.new (length left.now)
        (choose tree_gates (carry tree_gates (tree_gates.yes) (all_signed_of net.old left.now) (nots tree_gates (all_signed_of net.old divisor.now)))
        (sum tree_gates (tree_gates.yes) (all_signed_of net.old left.now) (nots tree_gates (all_signed_of net.old divisor.now)))
        (all_signed_of net.old left.now)) s.left.items) }
    ensures keeps { Extends net.old net.new }
{
    let total = difference(alloc, net, left, divisor)?;
    let chosen = each(alloc, net, BitGate::Mux(total.carry), &total.bits, left)?;
    Ok(Taken {
        fits: total.carry,
        left: chosen,
    })
}

/// Divides, from the highest bit down.
pub(crate) fn divide(
    alloc: Global,
    net: &mut Net,
    a: &[Lit],
    b: &[Lit],
) -> Result<Division, NoMemory>
    requires first { AreNamed (length net.old) a.now }
    requires second { AreNamed (length net.old) b.now }
    ensures quotient { IfOk result (λ d. AreWord net.new (length a.now)
        (quotient tree_gates (all_signed_of net.old a.now) (all_signed_of net.old b.now)) d.quotient.items) }
    ensures left { IfOk result (λ d. AreWord net.new (length b.now + 1)
        (rest_of tree_gates (all_signed_of net.old a.now) (all_signed_of net.old b.now)) d.left.items) }
    ensures keeps { Extends net.old net.new }
{
    let _net = net.len();
    let mut divisor = Vec::from_slice(alloc, b)?;
    divisor.push(Lit::NO)?;
    let mut left = vec![in alloc; Lit::NO; divisor.len()]?;
    let mut quotient = Vec::new(alloc);
    for done in 0..a.len() {
        let lowest = a[a.len() - 1 - done];
        let shifted = shift_in(alloc, lowest, &left)?;
        let made = step(alloc, net, &divisor, &shifted)?;
        quotient.insert(0, made.fits)?;
        left = made.left;
    }
    Ok(Division { quotient, left })
}
