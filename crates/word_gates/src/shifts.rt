//! Shifts by stages.

ghost use Rattle.std.specs.Prelude.{◌<◌, ◌≤◌, length, IfOk};
ghost use Rattle.gate_model.specs.Makers.{tree_gates};
ghost use Rattle.gate_net.specs.Trees.{signed_of, all_signed_of, Extends};
ghost use Rattle.word_bits.specs.Circuits.{choose, up, down, shift_left, shift_right};
ghost use Rattle.gate_net.specs.Lits.{AreNamed};
ghost use Rattle.word_gates.specs.Lits.{AreWord};

use crate::bitwise::{BitGate, each};
use crate::moves::{down, up};
use gate_net::{Lit, Net};
use no_memory::NoMemory;
use std::alloc::Global;

/// The word moved up by so many places where `choice` is yes, with no below.
fn stage_up(
    alloc: Global,
    net: &mut Net,
    choice: Lit,
    distance: usize,
    a: &[Lit],
) -> Result<Vec<Lit>, NoMemory>
    requires choice { choice.name < length net.old }
    requires word { AreNamed (length net.old) a.now }
    ensures word { IfOk result (λ r. AreWord net.new (length a.now)
        (choose tree_gates (signed_of net.old choice) (up tree_gates distance (all_signed_of net.old a.now)) (all_signed_of net.old a.now)) r.items) }
    ensures keeps { Extends net.old net.new }
{
    let _net = net.len();
    let moved = up(alloc, distance, a)?;
    let chosen = each(alloc, net, BitGate::Mux(choice), &moved, a)?;
    Ok(chosen)
}

/// The first word shifted up by the low five bits of the second.
#[tactic(auto, using(crate::proofs::NetLemmas::turns))]
pub(crate) fn shift_left(
    alloc: Global,
    net: &mut Net,
    a: &[Lit],
    b: &[Lit],
) -> Result<Vec<Lit>, NoMemory>
    requires first { AreNamed (length net.old) a.now }
    requires second { AreNamed (length net.old) b.now }
    requires width { 5 ≤ length b.now }
    ensures word { IfOk result (λ r. AreWord net.new (length a.now)
        (shift_left tree_gates (all_signed_of net.old a.now) (all_signed_of net.old b.now)) r.items) }
    ensures keeps { Extends net.old net.new }
{
    let by_1 = stage_up(alloc, net, b[0], 1, a)?;
    let by_2 = stage_up(alloc, net, b[1], 2, &by_1)?;
    let by_4 = stage_up(alloc, net, b[2], 4, &by_2)?;
    let by_8 = stage_up(alloc, net, b[3], 8, &by_4)?;
    let by_16 = stage_up(alloc, net, b[4], 16, &by_8)?;
    Ok(by_16)
}

/// The word moved down by so many places where `choice` is yes, with `fill` above.
fn stage_down(
    alloc: Global,
    net: &mut Net,
    fill: Lit,
    choice: Lit,
    distance: usize,
    a: &[Lit],
) -> Result<Vec<Lit>, NoMemory>
    requires fill { fill.name < length net.old }
    requires choice { choice.name < length net.old }
    requires word { AreNamed (length net.old) a.now }
    ensures word { IfOk result (λ r. AreWord net.new (length a.now)
        (choose tree_gates (signed_of net.old choice)
        (down tree_gates (signed_of net.old fill) distance (all_signed_of net.old a.now)) (all_signed_of net.old a.now)) r.items) }
    ensures keeps { Extends net.old net.new }
{
    let _net = net.len();
    let moved = down(alloc, fill, distance, a)?;
    let chosen = each(alloc, net, BitGate::Mux(choice), &moved, a)?;
    Ok(chosen)
}

/// The first word shifted down by the low five bits of the second, with `fill` above.
#[tactic(auto, using(crate::proofs::NetLemmas::turns))]
pub(crate) fn shift_right(
    alloc: Global,
    net: &mut Net,
    fill: Lit,
    a: &[Lit],
    b: &[Lit],
) -> Result<Vec<Lit>, NoMemory>
    requires fill { fill.name < length net.old }
    requires first { AreNamed (length net.old) a.now }
    requires second { AreNamed (length net.old) b.now }
    requires width { 5 ≤ length b.now }
    ensures word { IfOk result (λ r. AreWord net.new (length a.now)
        (shift_right tree_gates (signed_of net.old fill) (all_signed_of net.old a.now) (all_signed_of net.old b.now)) r.items) }
    ensures keeps { Extends net.old net.new }
{
    let by_1 = stage_down(alloc, net, fill, b[0], 1, a)?;
    let by_2 = stage_down(alloc, net, fill, b[1], 2, &by_1)?;
    let by_4 = stage_down(alloc, net, fill, b[2], 4, &by_2)?;
    let by_8 = stage_down(alloc, net, fill, b[3], 8, &by_4)?;
    let by_16 = stage_down(alloc, net, fill, b[4], 16, &by_8)?;
    Ok(by_16)
}
