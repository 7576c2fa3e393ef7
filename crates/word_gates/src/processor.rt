//! The operations of the processor on words of 32 bits.

ghost use Rattle.std.specs.Prelude.{◌≡◌, length, IfOk};
ghost use Rattle.gate_model.specs.Makers.{tree_gates};
ghost use Rattle.gate_net.specs.Trees.{all_signed_of, Extends};
ghost use Rattle.word_bits.specs.Circuits.{nots, sum, sign, less, less_signed, equal, truth, shift_right, upper_product, quotient};
ghost use Rattle.word_bits.specs.Operations.{alu_bits};
ghost use Rattle.gate_net.specs.Lits.{AreNamed};
ghost use Rattle.word_gates.specs.Lits.{AreWord};

use crate::adders::sum;
use crate::bitwise::{BitGate, each};
use crate::comparisons::{difference, equal, less, less_signed, sign, truth};
use crate::division::divide;
use crate::products::{product, upper_product};
use crate::shifts::{shift_left, shift_right};
use crate::signed::{quotient_signed, remainder, remainder_signed};
use gate_net::{Lit, Net};
use no_memory::NoMemory;
use rv_word::AluOp;
use std::alloc::Global;

/// The sum.
fn add(alloc: Global, net: &mut Net, a: &[Lit], b: &[Lit]) -> Result<Vec<Lit>, NoMemory>
    requires first { AreNamed (length net.old) a.now }
    requires second { AreNamed (length net.old) b.now }
    requires first_width { length a.now ≡ 32 }
    requires second_width { length b.now ≡ 32 }
    ensures word { IfOk result (λ r. AreWord net.new 32
        (sum tree_gates (tree_gates.no) (all_signed_of net.old a.now) (all_signed_of net.old b.now)) r.items) }
    ensures keeps { Extends net.old net.new }
{
    let _net = net.len();
    let total = sum(alloc, net, Lit::NO, a, b)?;
    Ok(total.bits)
}

/// The difference.
fn subtract(alloc: Global, net: &mut Net, a: &[Lit], b: &[Lit]) -> Result<Vec<Lit>, NoMemory>
    requires first { AreNamed (length net.old) a.now }
    requires second { AreNamed (length net.old) b.now }
    requires first_width { length a.now ≡ 32 }
    requires second_width { length b.now ≡ 32 }
    ensures word { IfOk result (λ r. AreWord net.new 32
        (sum tree_gates (tree_gates.yes) (all_signed_of net.old a.now) (nots tree_gates (all_signed_of net.old b.now))) r.items) }
    ensures keeps { Extends net.old net.new }
{
    let total = difference(alloc, net, a, b)?;
    Ok(total.bits)
}

/// 1 where the first word is less, unsigned.
fn set_less(alloc: Global, net: &mut Net, a: &[Lit], b: &[Lit]) -> Result<Vec<Lit>, NoMemory>
    requires first { AreNamed (length net.old) a.now }
    requires second { AreNamed (length net.old) b.now }
    requires first_width { length a.now ≡ 32 }
    requires second_width { length b.now ≡ 32 }
    ensures word { IfOk result (λ r. AreWord net.new 32
        (truth tree_gates (less tree_gates (all_signed_of net.old a.now) (all_signed_of net.old b.now))) r.items) }
    ensures keeps { Extends net.old net.new }
{
    let bit = less(alloc, net, a, b)?;
    let _net = net.len();
    let word = truth(alloc, bit)?;
    Ok(word)
}

/// 1 where the first word is less, signed.
fn set_less_signed(alloc: Global, net: &mut Net, a: &[Lit], b: &[Lit]) -> Result<Vec<Lit>, NoMemory>
    requires first { AreNamed (length net.old) a.now }
    requires second { AreNamed (length net.old) b.now }
    requires first_width { length a.now ≡ 32 }
    requires second_width { length b.now ≡ 32 }
    ensures word { IfOk result (λ r. AreWord net.new 32
        (truth tree_gates (less_signed tree_gates (all_signed_of net.old a.now) (all_signed_of net.old b.now))) r.items) }
    ensures keeps { Extends net.old net.new }
{
    let bit = less_signed(alloc, net, a, b)?;
    let _net = net.len();
    let word = truth(alloc, bit)?;
    Ok(word)
}

/// 1 where the words are equal.
pub(crate) fn set_equal(
    alloc: Global,
    net: &mut Net,
    a: &[Lit],
    b: &[Lit],
) -> Result<Vec<Lit>, NoMemory>
    requires first { AreNamed (length net.old) a.now }
    requires second { AreNamed (length net.old) b.now }
    requires first_width { length a.now ≡ 32 }
    requires second_width { length b.now ≡ 32 }
    ensures word { IfOk result (λ r. AreWord net.new 32
        (truth tree_gates (equal tree_gates (all_signed_of net.old a.now) (all_signed_of net.old b.now))) r.items) }
    ensures keeps { Extends net.old net.new }
{
    let bit = equal(net, a, b)?;
    let _net = net.len();
    let word = truth(alloc, bit)?;
    Ok(word)
}

/// The first word shifted down, with no above.
fn shift_right_zeros(
    alloc: Global,
    net: &mut Net,
    a: &[Lit],
    b: &[Lit],
) -> Result<Vec<Lit>, NoMemory>
    requires first { AreNamed (length net.old) a.now }
    requires second { AreNamed (length net.old) b.now }
    requires first_width { length a.now ≡ 32 }
    requires second_width { length b.now ≡ 32 }
    ensures word { IfOk result (λ r. AreWord net.new 32
        (shift_right tree_gates (tree_gates.no) (all_signed_of net.old a.now) (all_signed_of net.old b.now)) r.items) }
    ensures keeps { Extends net.old net.new }
{
    let _net = net.len();
    let word = shift_right(alloc, net, Lit::NO, a, b)?;
    Ok(word)
}

/// The first word shifted down, with its sign above.
fn shift_right_signs(
    alloc: Global,
    net: &mut Net,
    a: &[Lit],
    b: &[Lit],
) -> Result<Vec<Lit>, NoMemory>
    requires first { AreNamed (length net.old) a.now }
    requires second { AreNamed (length net.old) b.now }
    requires first_width { length a.now ≡ 32 }
    requires second_width { length b.now ≡ 32 }
    ensures word { IfOk result (λ r. AreWord net.new 32
        (shift_right tree_gates (sign tree_gates (all_signed_of net.old a.now)) (all_signed_of net.old a.now) (all_signed_of net.old b.now)) r.items) }
    ensures keeps { Extends net.old net.new }
{
    let fill = sign(a);
    let word = shift_right(alloc, net, fill, a, b)?;
    Ok(word)
}

/// The upper half of the product of signed words.
fn upper_signed(alloc: Global, net: &mut Net, a: &[Lit], b: &[Lit]) -> Result<Vec<Lit>, NoMemory>
    requires first { AreNamed (length net.old) a.now }
    requires second { AreNamed (length net.old) b.now }
    requires first_width { length a.now ≡ 32 }
    requires second_width { length b.now ≡ 32 }
    ensures word { IfOk result (λ r. AreWord net.new 32
        (upper_product tree_gates (sign tree_gates (all_signed_of net.old a.now)) (sign tree_gates (all_signed_of net.old b.now))
        (all_signed_of net.old a.now) (all_signed_of net.old b.now)) r.items) }
    ensures keeps { Extends net.old net.new }
{
    let above = sign(a);
    let other_above = sign(b);
    let word = upper_product(alloc, net, above, other_above, a, b)?;
    Ok(word)
}

/// The upper half of the product of a signed and an unsigned word.
fn upper_mixed(alloc: Global, net: &mut Net, a: &[Lit], b: &[Lit]) -> Result<Vec<Lit>, NoMemory>
    requires first { AreNamed (length net.old) a.now }
    requires second { AreNamed (length net.old) b.now }
    requires first_width { length a.now ≡ 32 }
    requires second_width { length b.now ≡ 32 }
    ensures word { IfOk result (λ r. AreWord net.new 32
        (upper_product tree_gates (sign tree_gates (all_signed_of net.old a.now)) (tree_gates.no)
        (all_signed_of net.old a.now) (all_signed_of net.old b.now)) r.items) }
    ensures keeps { Extends net.old net.new }
{
    let _net = net.len();
    let above = sign(a);
    let word = upper_product(alloc, net, above, Lit::NO, a, b)?;
    Ok(word)
}

/// The upper half of the product of unsigned words.
fn upper_unsigned(alloc: Global, net: &mut Net, a: &[Lit], b: &[Lit]) -> Result<Vec<Lit>, NoMemory>
    requires first { AreNamed (length net.old) a.now }
    requires second { AreNamed (length net.old) b.now }
    requires first_width { length a.now ≡ 32 }
    requires second_width { length b.now ≡ 32 }
    ensures word { IfOk result (λ r. AreWord net.new 32
        (upper_product tree_gates (tree_gates.no) (tree_gates.no) (all_signed_of net.old a.now) (all_signed_of net.old b.now)) r.items) }
    ensures keeps { Extends net.old net.new }
{
    let _net = net.len();
    let word = upper_product(alloc, net, Lit::NO, Lit::NO, a, b)?;
    Ok(word)
}

/// The unsigned quotient.
fn quotient_unsigned(
    alloc: Global,
    net: &mut Net,
    a: &[Lit],
    b: &[Lit],
) -> Result<Vec<Lit>, NoMemory>
    requires first { AreNamed (length net.old) a.now }
    requires second { AreNamed (length net.old) b.now }
    requires first_width { length a.now ≡ 32 }
    requires second_width { length b.now ≡ 32 }
    ensures word { IfOk result (λ r. AreWord net.new 32
        (quotient tree_gates (all_signed_of net.old a.now) (all_signed_of net.old b.now)) r.items) }
    ensures keeps { Extends net.old net.new }
{
    let division = divide(alloc, net, a, b)?;
    Ok(division.quotient)
}

/// What an operation of the processor makes of two words.
pub(crate) fn alu(
    alloc: Global,
    net: &mut Net,
    op: AluOp,
    a: &[Lit],
    b: &[Lit],
) -> Result<Vec<Lit>, NoMemory>
    requires first { AreNamed (length net.old) a.now }
    requires second { AreNamed (length net.old) b.now }
    requires first_width { length a.now ≡ 32 }
    requires second_width { length b.now ≡ 32 }
    ensures word { IfOk result (λ r. AreWord net.new 32
        (alu_bits tree_gates op (all_signed_of net.old a.now) (all_signed_of net.old b.now)) r.items) }
    ensures keeps { Extends net.old net.new }
{
    match op {
        AluOp::Add => add(alloc, net, a, b),
        AluOp::Sub => subtract(alloc, net, a, b),
        AluOp::Sll => shift_left(alloc, net, a, b),
        AluOp::Slt => set_less_signed(alloc, net, a, b),
        AluOp::Sltu => set_less(alloc, net, a, b),
        AluOp::Xor => each(alloc, net, BitGate::Xor, a, b),
        AluOp::Srl => shift_right_zeros(alloc, net, a, b),
        AluOp::Sra => shift_right_signs(alloc, net, a, b),
        AluOp::Or => each(alloc, net, BitGate::Or, a, b),
        AluOp::And => each(alloc, net, BitGate::And, a, b),
        AluOp::Mul => product(alloc, net, a, b),
        AluOp::Mulh => upper_signed(alloc, net, a, b),
        AluOp::Mulhsu => upper_mixed(alloc, net, a, b),
        AluOp::Mulhu => upper_unsigned(alloc, net, a, b),
        AluOp::Div => quotient_signed(alloc, net, a, b),
        AluOp::Divu => quotient_unsigned(alloc, net, a, b),
        AluOp::Rem => remainder_signed(alloc, net, a, b),
        AluOp::Remu => remainder(alloc, net, a, b),
    }
}
