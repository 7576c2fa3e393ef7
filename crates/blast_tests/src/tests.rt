//! Bits of terms as a caller makes them.

ghost use Rattle.std.specs.Prelude.{◌≤◌, ◌<◌, length, IfOk};
ghost use Rattle.bit_blast.specs.Rows.{AreRows};

use bit_blast::{Rows, bits, bits_with};
use gate_net::{Gate, Lit, Net};
use rv_word::{AluOp, alu};
use std::alloc::{AllocError, Global};
use std::test::Fail;
use term_arena::{Arena, Op, Term};
use word_gates::{constant, input, operation};

/// The operations of the processor.
const OPERATIONS: [AluOp; 18] = [
    AluOp::Add,
    AluOp::Sub,
    AluOp::Sll,
    AluOp::Slt,
    AluOp::Sltu,
    AluOp::Xor,
    AluOp::Srl,
    AluOp::Sra,
    AluOp::Or,
    AluOp::And,
    AluOp::Mul,
    AluOp::Mulh,
    AluOp::Mulhsu,
    AluOp::Mulhu,
    AluOp::Div,
    AluOp::Divu,
    AluOp::Rem,
    AluOp::Remu,
];

/// Words at the ends of the ranges, and two between.
const CORNERS: [u32; 7] = [0, 1, 2, 0x64, 0x7fff_ffff, 0x8000_0000, 0xffff_ffff];

/// The word that the four bytes of the input from a place on are.
fn word(arena: &mut Arena, place: u32) -> Result<Term, AllocError>
    requires { place < 100 }
    ensures belongs { IfOk result (λ t. t < length arena.new) }
    ensures grows { length arena.old ≤ length arena.new }
{
    let a = arena.input(place)?;
    let b = arena.input(place + 1)?;
    let low = arena.intern(Op::Pair, a, b)?;
    let c = arena.input(place + 2)?;
    let d = arena.input(place + 3)?;
    let high = arena.intern(Op::Pair, c, d)?;
    arena.intern(Op::Half, low, high)
}

/// The value of a Lit, from those of the names.
fn value_of(values: &[bool], l: Lit) -> bool {
    values.get(l.name as usize).copied().unwrap_or(false) == l.positive
}

/// The value of a gate, from those of the names below it.
fn gate_value(values: &[bool], gate: Gate, input: &[u8]) -> bool {
    match gate {
        Gate::Yes => true,
        Gate::Bit { place, bit } => {
            let byte = input.get(place as usize).copied().unwrap_or(0);
            byte.checked_shr(u32::from(bit)).unwrap_or(0) % 2 == 1
        }
        Gate::And(a, b) => value_of(values, a) && value_of(values, b),
        Gate::Xor(a, b) => value_of(values, a) != value_of(values, b),
    }
}

/// The number that the Lits are on an input.
fn number(alloc: Global, net: &Net, word: &[Lit], input: &[u8]) -> Result<u32, AllocError> {
    let mut values = Vec::new(alloc);
    for name in 0..net.len() {
        let value = gate_value(&values, net.gate(name), input);
        values.push(value)?;
    }
    let mut number: u32 = 0;
    for l in word.iter().rev() {
        number = number
            .wrapping_mul(2)
            .wrapping_add(u32::from(value_of(&values, *l)));
    }
    Ok(number)
}

/// The bytes of two words.
fn bytes_of(a: u32, b: u32) -> [u8; 8] {
    let first = a.to_le_bytes();
    let second = b.to_le_bytes();
    [
        first[0], first[1], first[2], first[3], second[0], second[1], second[2], second[3],
    ]
}

/// What an operation's bits are on two words of the input.
fn bits_on(alloc: Global, op: AluOp, a: u32, b: u32) -> Result<u32, AllocError> {
    let mut arena = Arena::new(alloc)?;
    let first = word(&mut arena, 0)?;
    let second = word(&mut arena, 4)?;
    let t = arena.intern(Op::Alu(op), first, second)?;
    let mut net = Net::new(alloc)?;
    let made = bits(alloc, &arena, t, &mut net)?;
    number(alloc, &net, &made, &bytes_of(a, b))
}

/// The sum of a constant and a byte of the input, without a term.
fn sum_with_input(alloc: Global, word: u32, byte: u8) -> Result<u32, AllocError> {
    let mut net = Net::new(alloc)?;
    let first = constant(alloc, word)?;
    let second = input(alloc, &mut net, 0)?;
    let sum = operation(alloc, &mut net, Op::Alu(AluOp::Add), &first, &second)?;
    number(alloc, &net, &sum, &[byte])
}

#[test]
fn gates_of_one_operation(rt: HostRuntime) -> Result<(), Fail> {
    for (word, byte, sum) in [(0, 0, 0), (2, 255, 257), (0xffff_ff80, 0x80, 0)] {
        assert_eq!(rt;
            sum_with_input(rt.alloc(), word, byte)?,
            sum,
            "at {word:x} {byte:x}"
        );
    }
    Ok(())
}

#[test]
fn bits_of_operations_are_those_of_numbers(rt: HostRuntime) -> Result<(), Fail> {
    for op in OPERATIONS {
        let mut arena = Arena::new(rt.alloc())?;
        let first = word(&mut arena, 0)?;
        let second = word(&mut arena, 4)?;
        let t = arena.intern(Op::Alu(op), first, second)?;
        let mut net = Net::new(rt.alloc())?;
        let made = bits(rt.alloc(), &arena, t, &mut net)?;
        for a in CORNERS {
            for b in CORNERS {
                let value = number(rt.alloc(), &net, &made, &bytes_of(a, b))?;
                assert_eq!(rt; value, alu(op, a, b), "at {op:?} {a:x} {b:x}");
            }
        }
    }
    Ok(())
}

#[test]
fn bits_at_the_edges_of_division(rt: HostRuntime) -> Result<(), Fail> {
    let minimum = 0x8000_0000;
    let ones = 0xffff_ffff;
    for (op, a, b, value) in [
        (AluOp::Mulhsu, ones, ones, ones),
        (AluOp::Div, minimum, ones, minimum),
        (AluOp::Rem, minimum, ones, 0),
        (AluOp::Div, 0x64, 0, ones),
        (AluOp::Divu, 0x64, 0, ones),
    ] {
        assert_eq!(rt; bits_on(rt.alloc(), op, a, b)?, value, "at {op:?}");
    }
    Ok(())
}

#[test]
fn an_equation_with_a_constant_needs_no_xor(rt: HostRuntime) -> Result<(), Fail> {
    let mut arena = Arena::new(rt.alloc())?;
    let byte = arena.input(0)?;
    let letter = arena.constant(0x41)?;
    let equal = arena.intern(Op::Eq, byte, letter)?;
    let mut net = Net::new(rt.alloc())?;
    let _made = bits(rt.alloc(), &arena, equal, &mut net)?;
    assert_eq!(rt; net.len(), 1 + 8 + 7);
    for name in 0..net.len() {
        assert_eq!(rt; matches!(net.gate(name), Gate::Xor(..)), false);
    }
    Ok(())
}

#[test]
fn three_times_a_word_is_a_sum(rt: HostRuntime) -> Result<(), Fail> {
    let mut arena = Arena::new(rt.alloc())?;
    let t = word(&mut arena, 0)?;
    let three = arena.constant(3)?;
    let product = arena.intern(Op::Alu(AluOp::Mul), t, three)?;
    let one = arena.constant(1)?;
    let twice = arena.intern(Op::Alu(AluOp::Sll), t, one)?;
    let sum = arena.intern(Op::Alu(AluOp::Add), t, twice)?;
    let equal = arena.intern(Op::Eq, product, sum)?;
    let mut net = Net::new(rt.alloc())?;
    let made = bits(rt.alloc(), &arena, equal, &mut net)?;
    assert_eq!(rt; made[0], Lit::YES);
    Ok(())
}

/// Blasts a term so many times with the same rows.
fn blast_times(
    alloc: Global,
    arena: &Arena,
    t: Term,
    net: &mut Net,
    rows: &mut Rows,
    times: u32,
) -> Result<[Lit; 32], AllocError>
    requires belongs { t < length arena.now }
    requires rows { AreRows arena.now net.old rows.old }
{
    let mut word = [Lit::NO; 32];
    for _ in 0..times {
        word = bits_with(alloc, arena, t, net, rows)?;
    }
    Ok(word)
}

#[test]
fn a_deep_term_is_blasted_once(rt: HostRuntime) -> Result<(), Fail> {
    let mut arena = Arena::new(rt.alloc())?;
    let mut t = arena.input(0)?;
    let second = arena.input(1)?;
    for _ in 0..100_000 {
        t = arena.intern(Op::Alu(AluOp::Xor), t, second)?;
    }
    let mut net = Net::new(rt.alloc())?;
    let mut rows = Rows::new(rt.alloc());
    let made = bits_with(rt.alloc(), &arena, t, &mut net, &mut rows)?;
    assert_eq!(rt; net.len(), 800_017);
    let again = blast_times(rt.alloc(), &arena, t, &mut net, &mut rows, 100_000)?;
    assert_eq!(rt; again, made);
    assert_eq!(rt; net.len(), 800_017);
    Ok(())
}
