//! Gates of a net.

ghost use Rattle.std.specs.Prelude.{◌<◌, length, IfOk};
ghost use Rattle.gate_net.specs.Trees.{Extends};

use bit_blast::bits;
use gate_net::{Gate, Lit, Net};
use no_memory::NoMemory;
use rv_word::AluOp;
use std::alloc::Global;
use term_arena::{Arena, Op};

/// Two bits of the input, both of them, and one of them alone.
#[derive(Clone, Copy)]
struct FirstGates {
    a: Lit,
    b: Lit,
    both: Lit,
    one: Lit,
}

fn make_first(net: &mut Net) -> Result<FirstGates, NoMemory>
    ensures a { IfOk result (λ k. k.a.name < length net.new) }
    ensures b { IfOk result (λ k. k.b.name < length net.new) }
    ensures both { IfOk result (λ k. k.both.name < length net.new) }
    ensures one { IfOk result (λ k. k.one.name < length net.new) }
{
    let a = net.input_bit(0, 0)?;
    let b = net.input_bit(0, 1)?;
    let both = net.and(a, b)?;
    let one = net.xor(a, b)?;
    Ok(FirstGates { a, b, both, one })
}

/// Whether the four are what they were made as, and a tree is found again.
fn stand(net: &mut Net, k: FirstGates) -> bool
    requires a { k.a.name < length net.old }
    requires b { k.b.name < length net.old }
    requires both { k.both.name < length net.old }
    requires one { k.one.name < length net.old }
    ensures keeps { Extends net.old net.new }
{
    net.gate(k.a.name) == Gate::Bit { place: 0, bit: 0 }
        && net.gate(k.b.name) == Gate::Bit { place: 0, bit: 1 }
        && net.gate(k.both.name) == Gate::And(k.a, k.b)
        && net.gate(k.one.name) == Gate::Xor(k.a, k.b)
        && net.and(k.a, k.b) == Ok(k.both)
}

/// Another gate: in turn a bit and what is made of the last gate.
fn another(net: &mut Net, a: Lit, last: Lit, i: u32) -> Result<Lit, NoMemory>
    requires a { a.name < length net.old }
    requires last { last.name < length net.old }
    ensures below { IfOk result (λ l. l.name < length net.new) }
    ensures keeps { Extends net.old net.new }
{
    match i % 5 {
        0 => net.input_bit(i, 0),
        1 => net.and(last, a),
        2 => net.xor(last, a),
        3 => net.or(last, a),
        _ => net.mux(a, last, last.not()),
    }
}

/// Whether gates stand after each refusal of a call that makes one. A refused choice may leave parts of it.
pub(super) fn stand_after_calls(alloc: Global) -> Result<bool, NoMemory> {
    let mut net = Net::new(alloc)?;
    let known = make_first(&mut net)?;
    let mut last = known.a;
    for i in 5..500 {
        let count = net.len();
        last = match another(&mut net, known.a, last, i) {
            Ok(l) => l,
            Err(_) => {
                if (i % 5 != 4 && net.len() != count) || !stand(&mut net, known) {
                    return Ok(false);
                }
                another(&mut net, known.a, last, i)?
            }
        };
    }
    Ok(stand(&mut net, known))
}

/// Whether gates stand after a refusal of a sum's bits. The lowest bit of a sum of two bytes is one of their lowest
/// bits alone.
pub(super) fn stand_after_bits(alloc: Global) -> Result<bool, NoMemory> {
    let mut arena = Arena::new(alloc)?;
    let first = arena.input(0)?;
    let second = arena.input(1)?;
    let sum = arena.intern(Op::Alu(AluOp::Add), first, second)?;
    let mut net = Net::new(alloc)?;
    let known = make_first(&mut net)?;
    let word = match bits(alloc, &arena, sum, &mut net) {
        Ok(word) => word,
        Err(_) => {
            if !stand(&mut net, known) {
                return Ok(false);
            }
            bits(alloc, &arena, sum, &mut net)?
        }
    };
    let other = net.input_bit(1, 0)?;
    let lowest = net.xor(known.a, other)?;
    Ok(word[0] == lowest && stand(&mut net, known))
}
