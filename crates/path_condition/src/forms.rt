//! The terms of the conditions.

ghost use Rattle.std.specs.Prelude.{◌≡◌, ◌<◌, length, IfOk, IfSome, option_map};
ghost use Rattle.rv_word.specs.declared.AluOp.TheVariants.{And};
ghost use Rattle.rv_word.specs.Word.{byte_of as byte_number};
ghost use Rattle.term_model.specs.declared.Op.TheVariants.{Alu, Eq};
ghost use Rattle.term_model.specs.Tree.{Const};
ghost use Rattle.term_arena.specs.Trees.{tree_of, Extends, trees_of};
ghost use Rattle.normal_form.specs.Norm.{norm};
ghost use Rattle.normal_form.specs.Normal.{IsNormal};
ghost use Rattle.replay_law.specs.Forms as shape;
ghost use Rattle.path_condition.specs.Listed.{Belong};
ghost use Rattle.path_condition.specs.Sums.{constant_of, sum_of, even_sum_of, named, IsNormalTermOf};

use no_memory::NoMemory;
use rv_word::{AluOp, byte_of};
use simplify::make;
use term_arena::{Arena, Node, Op, Term};

/// A term and a word.
#[derive(Clone, Copy, Debug)]
pub(crate) struct Sum {
    pub(crate) term: Term,
    pub(crate) word: u32,
}

/// The normal form of byte `k` of a term, where byte 0 is the lowest.
pub fn byte_term(arena: &mut Arena, t: Term, k: u8) -> Result<Term, NoMemory>
    requires belongs { t < length arena.old }
    requires normal { IsNormal (tree_of arena.old t) }
    requires byte { k < 4 }
    ensures made { IfOk result (IsNormalTermOf arena.new (shape.byte_term norm k (tree_of arena.old t))) }
    ensures keeps { Extends arena.old arena.new }
{
    let number = arena.constant(u32::from(k))?;
    make(arena, Op::Byte, t, number)
}

/// Byte `k` of a term is that of a value.
fn byte_is(arena: &mut Arena, t: Term, value: u32, k: u8) -> Result<Term, NoMemory>
    requires belongs { t < length arena.old }
    requires normal { IsNormal (tree_of arena.old t) }
    requires byte { k < 4 }
    ensures made { IfOk result (IsNormalTermOf arena.new (shape.byte_is norm (tree_of arena.old t) value k)) }
    ensures keeps { Extends arena.old arena.new }
{
    let byte = byte_term(arena, t, k)?;
    let wanted = arena.constant(u32::from(byte_of(k, value)))?;
    make(arena, Op::Eq, byte, wanted)
}

/// Byte `k` of two terms is the same.
fn same_byte(arena: &mut Arena, a: Term, b: Term, k: u8) -> Result<Term, NoMemory>
    requires first { a < length arena.old }
    requires second { b < length arena.old }
    requires normal_first { IsNormal (tree_of arena.old a) }
    requires normal_second { IsNormal (tree_of arena.old b) }
    requires byte { k < 4 }
    ensures made { IfOk result (IsNormalTermOf arena.new (shape.same_byte norm (tree_of arena.old a) (tree_of arena.old b) k)) }
    ensures keeps { Extends arena.old arena.new }
{
    let first = byte_term(arena, a, k)?;
    let second = byte_term(arena, b, k)?;
    make(arena, Op::Eq, first, second)
}

/// The lowest byte of a sum is that of a target, its lowest bit aside.
fn low_byte_is(arena: &mut Arena, sum: Term, target: u32) -> Result<Term, NoMemory>
    requires belongs { sum < length arena.old }
    requires normal { IsNormal (tree_of arena.old sum) }
    ensures made { IfOk result (IsNormalTermOf arena.new (norm Eq (norm (Alu And) (shape.byte_term norm 0
        (tree_of arena.old sum)) (Const 254)) (Const (byte_number 0 target)))) }
    ensures keeps { Extends arena.old arena.new }
{
    let byte = byte_term(arena, sum, 0)?;
    let mask = arena.constant(0xfe)?;
    let even = make(arena, Op::Alu(AluOp::And), byte, mask)?;
    let wanted = arena.constant(u32::from(byte_of(0, target)))?;
    make(arena, Op::Eq, even, wanted)
}

/// Two terms are equal, byte by byte.
pub(crate) fn equal(arena: &mut Arena, a: Term, b: Term) -> Result<[Term; 4], NoMemory>
    requires first { a < length arena.old }
    requires second { b < length arena.old }
    requires normal_first { IsNormal (tree_of arena.old a) }
    requires normal_second { IsNormal (tree_of arena.old b) }
    ensures belong { IfOk result (Belong arena.new) }
    ensures trees { IfOk result (λ ts.
        trees_of arena.new ts ≡ shape.equal norm (tree_of arena.old a) (tree_of arena.old b)) }
    ensures keeps { Extends arena.old arena.new }
{
    let lowest = same_byte(arena, a, b, 0)?;
    let second = same_byte(arena, a, b, 1)?;
    let third = same_byte(arena, a, b, 2)?;
    let highest = same_byte(arena, a, b, 3)?;
    Ok([lowest, second, third, highest])
}

/// A term has a value, byte by byte.
pub(crate) fn bytes_are(arena: &mut Arena, t: Term, value: u32) -> Result<[Term; 4], NoMemory>
    requires belongs { t < length arena.old }
    requires normal { IsNormal (tree_of arena.old t) }
    ensures belong { IfOk result (Belong arena.new) }
    ensures trees { IfOk result (λ ts. trees_of arena.new ts ≡ shape.bytes_are norm (tree_of arena.old t) value) }
    ensures keeps { Extends arena.old arena.new }
{
    let lowest = byte_is(arena, t, value, 0)?;
    let second = byte_is(arena, t, value, 1)?;
    let third = byte_is(arena, t, value, 2)?;
    let highest = byte_is(arena, t, value, 3)?;
    Ok([lowest, second, third, highest])
}

/// A sum is a target once its lowest bit is cleared, byte by byte.
pub(crate) fn target_bytes(arena: &mut Arena, sum: Term, target: u32) -> Result<[Term; 4], NoMemory>
    requires belongs { sum < length arena.old }
    requires normal { IsNormal (tree_of arena.old sum) }
    ensures belong { IfOk result (Belong arena.new) }
    ensures trees { IfOk result (λ ts. trees_of arena.new ts ≡ shape.target_bytes norm (tree_of arena.old sum) target) }
    ensures keeps { Extends arena.old arena.new }
{
    let lowest = low_byte_is(arena, sum, target)?;
    let second = byte_is(arena, sum, target, 1)?;
    let third = byte_is(arena, sum, target, 2)?;
    let highest = byte_is(arena, sum, target, 3)?;
    Ok([lowest, second, third, highest])
}

/// The constant that a term is.
fn constant_of(arena: &Arena, t: Term) -> Option<u32>
    requires { t < length arena.now }
    ensures { result ≡ constant_of (tree_of arena.now t) }
{
    match arena.node(t) {
        Node::Const(word) => Some(word),
        _ => None,
    }
}

/// The term and the constant that a term is the sum of, where it is one.
fn added_constant(arena: &Arena, t: Term) -> Option<Sum>
    requires { t < length arena.now }
    ensures sum { option_map (named arena.now) result ≡ sum_of (tree_of arena.now t) }
    ensures below { IfSome result (λ s. s.term < t) }
{
    let Node::Apply(op, term, constant) = arena.node(t) else {
        return None;
    };
    if !matches!(op, Op::Alu(AluOp::Add)) {
        return None;
    }
    let word = constant_of(arena, constant)?;
    Some(Sum { term, word })
}

/// The same, where the constant is even.
fn added_even_constant(arena: &Arena, t: Term) -> Option<Sum>
    requires { t < length arena.now }
    ensures sum { option_map (named arena.now) result ≡ even_sum_of (tree_of arena.now t) }
    ensures below { IfSome result (λ s. s.term < t) }
{
    let sum = added_constant(arena, t)?;
    if sum.word % 2 == 0 { Some(sum) } else { None }
}

/// What a pin says once each added constant is taken off.
pub(crate) fn without_constants(arena: &Arena, t: Term, value: u32) -> Sum
    requires belongs { t < length arena.now }
    requires normal { IsNormal (tree_of arena.now t) }
    ensures belongs { result.term < length arena.now }
    ensures normal { IsNormal (tree_of arena.now result.term) }
    ensures pin { shape.bytes_are norm (tree_of arena.now result.term) result.word
        ≡ shape.pin norm (tree_of arena.now t) value }
{
    let mut term = t;
    let mut word = value;
    while let Some(sum) = added_constant(arena, term) {
        term = sum.term;
        word = word.wrapping_sub(sum.word);
    }
    Sum { term, word }
}

/// What a target condition says once each added even constant is taken off.
pub(crate) fn without_even_constants(arena: &Arena, sum: Term, target: u32) -> Sum
    requires belongs { sum < length arena.now }
    requires normal { IsNormal (tree_of arena.now sum) }
    ensures belongs { result.term < length arena.now }
    ensures normal { IsNormal (tree_of arena.now result.term) }
    ensures target { shape.target_bytes norm (tree_of arena.now result.term) result.word
        ≡ shape.target norm (tree_of arena.now sum) target }
{
    let mut term = sum;
    let mut word = target;
    while let Some(sum) = added_even_constant(arena, term) {
        term = sum.term;
        word = word.wrapping_sub(sum.word);
    }
    Sum { term, word }
}
