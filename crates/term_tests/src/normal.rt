//! The rules of normal forms by worked cases, and normal forms of operations on constants.

ghost use Rattle.std.specs.Prelude.{◌≡◌, ◌<◌, All, length, IfOk, IfSome, true};
ghost use Rattle.term_arena.specs.Trees.{tree_of, Extends};
ghost use Rattle.normal_form.specs.Normal.{IsNormal};
ghost use Rattle.term_model.specs.ByteNumber.{TakesByteNumber};
ghost use Rattle.term_tests.specs.Operands.{IsOperand};

use rv_word::AluOp;
use simplify::make;
use std::alloc::{AllocError, Global};
use std::test::Fail;
use term_arena::{Arena, Node, Op, Term};

/// A case a line: a term, and after the sign the tree of its normal form. Both are in postfix order: `i0` is the
/// input byte at place 0, a number is a constant in hexadecimal, and a word is an operation on the two terms before it.
const CASES: &str = "\
2 3 add = 5
2 3 sub = ffffffff
1234 1 byte = 12
5 i0 i1 mul add = i0 i1 mul 5 add
5 i0 i1 mul eq = i0 i1 mul 5 eq
5 i0 i1 mul mulhsu = 5 i0 i1 mul mulhsu
i0 i1 mul 21 sll = i0 i1 mul 1 sll
i0 i1 mul 28 sra = i0 i1 mul 8 sra
i0 i1 mul 0 add = i0 i1 mul
i0 i1 mul 20 sra = i0 i1 mul
i0 i1 mul 1 sub = i0 i1 mul ffffffff add
i0 i1 mul 80000000 sub = i0 i1 mul 80000000 add
i0 i1 mul 5 add 7 add = i0 i1 mul c add
i0 i1 mul 5 add 5 sub = i0 i1 mul
i0 i1 mul 0 and = 0
i0 i1 mul 0 mulhsu = 0
0 i0 i1 mul mulhsu = 0
i0 i1 mul ffffffff and = i0 i1 mul
i0 i1 mul 1 div = i0 i1 mul
i0 i1 mul 1 divu = i0 i1 mul
i0 i1 mul 1 rem = 0
i0 i1 mul 1 remu = 0
i0 i1 mul ffffffff or = ffffffff
ffffffff i0 i1 mul or = ffffffff
i0 i1 mul i0 i1 mul and = i0 i1 mul
i0 i1 mul i0 i1 mul or = i0 i1 mul
i0 i1 mul i0 i1 mul slt = 0
i0 i1 mul i0 i1 mul sub = 0
i0 i1 mul i0 i1 mul eq = 1
i0 i0 eq = 1
i0 i1 mul ff0 and ff and = i0 i1 mul f0 and
i0 i1 mul f or f0 or = i0 i1 mul ff or
i0 i1 mul 3 xor 5 xor = i0 i1 mul 6 xor
i0 ff and = i0
i0 i1 pair ffff and = i0 i1 pair
i0 7f and = i0 7f and
i0 i1 mul 3 sll 4 sll = i0 i1 mul 7 sll
i0 i1 mul 1 srl 1e srl = i0 i1 mul 1f srl
i0 i1 mul 10 sll 10 sll = 0
i0 i1 mul 1f srl 1 srl = 0
i0 i1 mul 1 sra 1 sra = i0 i1 mul 1 sra 1 sra
i0 i1 mul 5 xor 3 eq = i0 i1 mul 6 eq
i0 i1 mul 5 xor 5 eq = i0 i1 mul 0 eq
i0 i1 mul 5 add 3 eq = i0 i1 mul fffffffe eq
i0 i1 mul 5 add 7 eq = i0 i1 mul 2 eq
i0 5 add 5 eq = i0 0 eq
i0 i1 mul i2 xor 0 eq = i0 i1 mul i2 eq
i0 i1 mul i2 sub 0 eq = i0 i1 mul i2 eq
i0 i1 eq 1 eq = i0 i1 eq
i0 i1 mul 1 and 1 eq = i0 i1 mul 1 and
i0 i1 slt 0 eq 0 eq = i0 i1 slt
i0 i1 mul 1 and 0 eq 0 eq = i0 i1 mul 1 and
i0 i1 eq 2 eq = 0
i0 i1 mul 1 and 3 eq = 0
i0 100 eq = 0
i0 i1 pair 10000 eq = 0
i0 ff eq = i0 ff eq
i0 i1 mul 0 sltu = 0
i0 0 sltu = 0
i0 i1 mul 1 sltu = i0 i1 mul 0 eq
i0 1 sltu = i0 0 eq
0 i0 i1 mul sltu = i0 i1 mul 0 eq 0 eq
0 i0 i1 eq sltu = i0 i1 eq
0 i3 sltu = i3 0 eq 0 eq
i0 100 sltu = 1
i0 ffffffff sltu = 1
i0 ff sltu = i0 ff sltu
i0 1 byte = 0
i0 i1 pair 2 byte = 0
i0 0 byte = i0
i0 i1 eq 0 byte = i0 i1 eq
i0 i1 mul i2 i3 mul pair 0 byte = i0 i1 mul 0 byte
i0 i1 mul i2 i3 mul pair 1 byte = i2 i3 mul 0 byte
i0 i1 mul i2 i3 mul half 1 byte = i0 i1 mul 1 byte
i0 i1 mul i2 i3 mul half 3 byte = i2 i3 mul 1 byte
i0 i1 mul i2 or 2 byte = i0 i1 mul 2 byte
i2 i0 i1 mul xor 3 byte = i0 i1 mul 3 byte
i0 i1 mul ff00 and 1 byte = i0 i1 mul 1 byte
i0 i1 mul ff0000 and 2 byte = i0 i1 mul 2 byte
i0 i1 mul 8 sll 1 byte = i0 i1 mul 0 byte
i0 i1 mul 10 sll 3 byte = i0 i1 mul 1 byte
i0 i1 mul 8 srl 0 byte = i0 i1 mul 1 byte
i0 i1 mul 10 sra 1 byte = i0 i1 mul 3 byte
i0 i1 mul 10 sra 2 byte = i0 i1 mul 10 sra 2 byte
i0 i1 mul 0 pair = i0 i1 mul 0 byte
i0 0 pair = i0
i0 i1 pair 0 half = i0 i1 pair
i0 0 half = i0
i0 i1 pair i2 i3 pair or 0 byte i0 i1 pair i2 i3 pair or 1 byte pair = i0 i1 pair i2 i3 pair or
i0 i1 pair i2 i3 pair xor 0 byte i0 i1 pair i2 i3 pair xor 1 byte pair = i0 i1 pair i2 i3 pair xor
i0 i1 mul 0 byte i0 i1 mul 1 byte pair = i0 i1 mul 0 byte i0 i1 mul 1 byte pair
i0 i1 mul 0 byte i0 i1 mul 1 byte pair i0 i1 mul 2 byte i0 i1 mul 3 byte pair half = i0 i1 mul
i0 i1 add 0 byte i0 i1 add 1 byte pair i0 i1 add 2 byte i0 i1 add 3 byte pair half = i0 i1 add
i0 i1 mul 0 byte i0 i1 mul 1 byte pair i0 i1 mul 2 byte i0 i1 add 3 byte pair half = i0 i1 mul 0 byte i0 i1 mul 1 byte pair i0 i1 mul 2 byte i0 i1 add 3 byte pair half
";

fn operation(word: &str) -> Option<Op> {
    let op = match word {
        "eq" => Op::Eq,
        "byte" => Op::Byte,
        "pair" => Op::Pair,
        "half" => Op::Half,
        "add" => Op::Alu(AluOp::Add),
        "sub" => Op::Alu(AluOp::Sub),
        "sll" => Op::Alu(AluOp::Sll),
        "slt" => Op::Alu(AluOp::Slt),
        "sltu" => Op::Alu(AluOp::Sltu),
        "xor" => Op::Alu(AluOp::Xor),
        "srl" => Op::Alu(AluOp::Srl),
        "sra" => Op::Alu(AluOp::Sra),
        "or" => Op::Alu(AluOp::Or),
        "and" => Op::Alu(AluOp::And),
        "mul" => Op::Alu(AluOp::Mul),
        "mulhsu" => Op::Alu(AluOp::Mulhsu),
        "div" => Op::Alu(AluOp::Div),
        "divu" => Op::Alu(AluOp::Divu),
        "rem" => Op::Alu(AluOp::Rem),
        "remu" => Op::Alu(AluOp::Remu),
        _ => return None,
    };
    Some(op)
}

/// The term of an input byte or of a constant.
fn leaf(arena: &mut Arena, word: &str) -> Result<Option<Term>, AllocError>
    ensures below { IfOk result (λ made. IfSome made (λ t. t < length arena.new)) }
    ensures normal { IfOk result (λ made. IfSome made (λ t. IsNormal (tree_of arena.new t))) }
    ensures keeps { Extends arena.old arena.new }
{
    let made = match word.strip_prefix("i") {
        Some(place) => match u32::from_str_radix(place, 16) {
            Ok(place) => Some(arena.input(place)?),
            Err(_) => None,
        },
        None => match u32::from_str_radix(word, 16) {
            Ok(c) => Some(arena.constant(c)?),
            Err(_) => None,
        },
    };
    Ok(made)
}

/// Whether the second operand names a byte, where the operation takes one.
fn takes_byte_number(arena: &Arena, op: Op, b: Term) -> bool
    requires { b < length arena.now }
    ensures { result ≡ true → TakesByteNumber op (tree_of arena.now b) }
{
    match op {
        Op::Byte => match arena.node(b) {
            Node::Const(k) => k < 4,
            Node::Input(_) | Node::Apply(..) => false,
        },
        Op::Alu(_) | Op::Eq | Op::Pair | Op::Half => true,
    }
}

/// The term of an operation, in normal form or as it is.
fn operated(
    arena: &mut Arena,
    op: Op,
    a: Option<Term>,
    b: Option<Term>,
    is_normal: bool,
) -> Result<Option<Term>, AllocError>
    requires first { IfSome a (IsOperand is_normal arena.old) }
    requires second { IfSome b (IsOperand is_normal arena.old) }
    ensures operand { IfOk result (λ made. IfSome made (IsOperand is_normal arena.new)) }
    ensures keeps { Extends arena.old arena.new }
{
    let Some(a) = a else {
        return Ok(None);
    };
    let Some(b) = b else {
        return Ok(None);
    };
    if !is_normal {
        let made = arena.intern(op, a, b)?;
        return Ok(Some(made));
    }
    if !takes_byte_number(arena, op, b) {
        return Ok(None);
    }
    let made = make(arena, op, a, b)?;
    Ok(Some(made))
}

/// The term that a word names: a leaf, or an operation on the two terms that it takes from the stack.
#[tactic(auto, using(crate::proofs::OperandLemmas::operands_stay))]
fn word_term(
    arena: &mut Arena,
    stack: &mut Vec<Term>,
    word: &str,
    is_normal: bool,
) -> Result<Option<Term>, AllocError>
    requires { All (IsOperand is_normal arena.old) stack.old.items }
    ensures stack { All (IsOperand is_normal arena.new) stack.new.items }
    ensures operand { IfOk result (λ made. IfSome made (IsOperand is_normal arena.new)) }
{
    let Some(op) = operation(word) else {
        return leaf(arena, word);
    };
    let b = stack.pop();
    let a = stack.pop();
    operated(arena, op, a, b, is_normal)
}

/// The term that a text in postfix order names, each operation in it in normal form or as it is.
pub(crate) fn named(
    alloc: Global,
    arena: &mut Arena,
    text: &str,
    is_normal: bool,
) -> Result<Option<Term>, AllocError>
    ensures { IfOk result (λ made. IfSome made (IsOperand is_normal arena.new)) }
{
    let mut stack: Vec<Term> = Vec::new(alloc);
    for word in text.split_whitespace() {
        let Some(term) = word_term(arena, &mut stack, word, is_normal)? else {
            return Ok(None);
        };
        stack.push(term)?;
    }
    Ok(stack.pop())
}

#[test]
fn each_rule_gives_the_normal_form(rt: HostRuntime) -> Result<(), Fail> {
    let mut arena = Arena::new(rt.alloc())?;
    let mut cases = 0u64;
    for line in CASES.lines() {
        let Some((term, wanted)) = line.split_once('=') else {
            continue;
        };
        let made = named(rt.alloc(), &mut arena, term, true)?;
        let wanted = named(rt.alloc(), &mut arena, wanted, false)?;
        assert!(rt; made.is_some() && made == wanted, "{line}");
        cases = cases.wrapping_add(1);
    }
    assert!(rt; cases == 94);
    Ok(())
}
