//! Gates at each place of two words.

ghost use Rattle.std.specs.Prelude.{◌≡◌, ◌<◌, length, IfOk};
ghost use Rattle.gate_model.specs.Makers.{tree_gates};
ghost use Rattle.gate_net.specs.Trees.{signed_of, all_signed_of, Extends};
ghost use Rattle.word_bits.specs.Circuits.{at_each};
ghost use Rattle.gate_net.specs.Lits.{AreNamed};
ghost use Rattle.word_gates.specs.Lits.{AreWord, IsBit};
ghost use Rattle.word_gates.specs.Places.{gate_of, BelongsTo};

use gate_net::{Lit, Net};
use no_memory::NoMemory;
use std::alloc::Global;

/// A gate on two bits.
#[derive(Clone, Copy, Debug)]
pub(crate) enum BitGate {
    And,
    Or,
    Xor,
    /// The first where the Lit is yes, otherwise the second.
    Mux(Lit),
}

/// Makes the gate of two bits.
fn make(net: &mut Net, gate: BitGate, a: Lit, b: Lit) -> Result<Lit, NoMemory>
    requires gate { BelongsTo (length net.old) gate }
    requires first { a.name < length net.old }
    requires second { b.name < length net.old }
    ensures bit { IfOk result (λ l. IsBit net.new
        (gate_of net.old gate (signed_of net.old a) (signed_of net.old b)) l) }
    ensures keeps { Extends net.old net.new }
{
    match gate {
        BitGate::And => net.and(a, b),
        BitGate::Or => net.or(a, b),
        BitGate::Xor => net.xor(a, b),
        BitGate::Mux(c) => net.mux(c, a, b),
    }
}

/// Makes the gate at each place of two words of one width.
pub(crate) fn each(
    alloc: Global,
    net: &mut Net,
    gate: BitGate,
    a: &[Lit],
    b: &[Lit],
) -> Result<Vec<Lit>, NoMemory>
    requires gate { BelongsTo (length net.old) gate }
    requires first { AreNamed (length net.old) a.now }
    requires second { AreNamed (length net.old) b.now }
    requires width { length a.now ≡ length b.now }
    ensures word { IfOk result (λ r. AreWord net.new (length a.now)
        (at_each tree_gates (gate_of net.old gate) (all_signed_of net.old a.now) (all_signed_of net.old b.now)) r.items) }
    ensures keeps { Extends net.old net.new }
{
    let mut bits = Vec::new(alloc);
    for i in 0..a.len() {
        let bit = make(net, gate, a[i], b[i])?;
        bits.push(bit)?;
    }
    Ok(bits)
}
