//! The gates of a constant, of a byte of the input, and of one operation.

ghost use Rattle.std.specs.Prelude.{◌≡◌, ℕ, ◌<◌, length, IfOk};
ghost use Rattle.gate_model.specs.Makers.{tree_gates};
ghost use Rattle.gate_net.specs.Trees.{all_signed_of, Extends};
ghost use Rattle.word_bits.specs.Operations.{constant_bits};
ghost use Rattle.blast_model.specs.Blast.{op_bits, input_bits};
ghost use Rattle.gate_net.specs.Lits.{AreNamed};
ghost use Rattle.word_gates.specs.Lits.{AreMade};

use crate::bytes::{halves, named_byte, pair};
use crate::processor::{alu, set_equal};
use gate_net::{Lit, Net};
use no_memory::NoMemory;
use std::alloc::Global;
use term_model::Op;

/// The Lits of the 32 bits of a constant, the lowest first. They are yes and no, so no net is asked for.
pub fn constant(alloc: Global, v: u32) -> Result<Vec<Lit>, NoMemory>
    ensures below { IfOk result (λ r. (n : ℕ) → 0 < n → AreNamed n r.items) }
    ensures trees { IfOk result (λ r. AreMade r.items (λ net. constant_bits tree_gates v)) }
    ensures width { IfOk result (λ r. length r.items ≡ 32) }
{
    let mut bits = Vec::new(alloc);
    let mut rest = v;
    for place in 0..32u32 {
        bits.push(Lit {
            name: 0,
            positive: rest % 2 == 1,
        })?;
        rest /= 2;
    }
    Ok(bits)
}

/// The Lits of the 32 bits of a byte of the input, the lowest first. The upper 24 are no.
///
/// After a refusal each earlier Lit of the net has its tree, and new gates may be there.
pub fn input(alloc: Global, net: &mut Net, place: u32) -> Result<Vec<Lit>, NoMemory>
    ensures below { IfOk result (λ r. AreNamed (length net.new) r.items) }
    ensures trees { IfOk result (λ r. all_signed_of net.new r.items ≡ input_bits place) }
    ensures width { IfOk result (λ r. length r.items ≡ 32) }
    ensures keeps { Extends net.old net.new }
{
    let mut bits = Vec::new(alloc);
    for bit in 0..8 {
        let made = net.input_bit(place, bit)?;
        bits.push(made)?;
    }
    let _net = net.len();
    bits.extend_from_slice(&[Lit::NO; 24])?;
    Ok(bits)
}

/// The Lits of the 32 bits that an operation makes of two words, the lowest first.
///
/// After a refusal each earlier Lit of the net has its tree, and new gates may be there.
pub fn operation(
    alloc: Global,
    net: &mut Net,
    op: Op,
    a: &[Lit],
    b: &[Lit],
) -> Result<Vec<Lit>, NoMemory>
    requires first { AreNamed (length net.old) a.now }
    requires second { AreNamed (length net.old) b.now }
    requires first_width { length a.now ≡ 32 }
    requires second_width { length b.now ≡ 32 }
    ensures below { IfOk result (λ r. AreNamed (length net.new) r.items) }
    ensures trees { IfOk result (λ r. all_signed_of net.new r.items
        ≡ op_bits tree_gates op (all_signed_of net.old a.now) (all_signed_of net.old b.now)) }
    ensures width { IfOk result (λ r. length r.items ≡ 32) }
    ensures keeps { Extends net.old net.new }
{
    match op {
        Op::Alu(f) => alu(alloc, net, f, a, b),
        Op::Eq => set_equal(alloc, net, a, b),
        Op::Byte => named_byte(alloc, net, a, b),
        Op::Pair => {
            let _net = net.len();
            let word = pair(alloc, a, b)?;
            Ok(word)
        }
        Op::Half => {
            let _net = net.len();
            let word = halves(alloc, a, b)?;
            Ok(word)
        }
    }
}
