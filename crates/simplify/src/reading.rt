//! What the rules ask of a term: whether it is a constant, a truth, the same as another, and which of its bytes are
//! zero.

ghost use Rattle.std.specs.Prelude.{◌≡◌, ◌<◌, length, nat_eq};
ghost use Rattle.rv_word.specs.Word.{byte_of};
ghost use Rattle.term_model.specs.Tree.{is_const};
ghost use Rattle.term_model.specs.Truth.{is_truth};
ghost use Rattle.term_model.specs.Same.{same_tree};
ghost use Rattle.term_model.specs.ZeroBytes.{is_byte_shift, is_zero_byte, is_one_byte, is_half_word};
ghost use Rattle.normal_form.specs.ArithmeticRules.{is_zero};
ghost use Rattle.term_arena.specs.Trees.{tree_of};

use rv_word::{AluOp, byte_of};
use term_arena::{Arena, Node, Term};
use term_model::Op;

/// Whether the term is a constant.
pub(crate) fn is_constant(arena: &Arena, t: Term) -> bool
    requires { t < length arena.now }
    ensures { result ≡ is_const (tree_of arena.now t) }
{
    matches!(arena.node(t), Node::Const(_))
}

/// Whether the term is the constant 0.
pub(crate) fn is_zero(arena: &Arena, t: Term) -> bool
    requires { t < length arena.now }
    ensures { result ≡ is_zero (tree_of arena.now t) }
{
    matches!(arena.node(t), Node::Const(0))
}

/// Whether the term is a truth: a comparison, or a single bit.
pub(crate) fn is_truth(arena: &Arena, t: Term) -> bool
    requires { t < length arena.now }
    ensures { result ≡ is_truth (tree_of arena.now t) }
{
    let Node::Apply(op, _, c) = arena.node(t) else {
        return false;
    };
    match op {
        Op::Eq | Op::Alu(AluOp::Slt | AluOp::Sltu) => true,
        Op::Alu(AluOp::And) => matches!(arena.node(c), Node::Const(1)),
        _ => false,
    }
}

/// Whether the terms have equal trees.
pub(crate) fn same(arena: &Arena, s: Term, t: Term) -> bool
    requires first { s < length arena.now }
    requires second { t < length arena.now }
    ensures { result ≡ same_tree (tree_of arena.now s) (tree_of arena.now t) }
{
    let _shared = arena.len();
    s == t
}

/// Whether `k` is the number of a byte, from 0 to 3, and that byte of the term is zero under every input.
pub(crate) fn is_zero_byte(arena: &Arena, t: Term, k: u32) -> bool
    requires { t < length arena.now }
    ensures { result ≡ is_zero_byte (tree_of arena.now t) k }
{
    k < 4 && arena.zero_bytes(t) >> k & 1 == 1
}

/// Whether all bytes but the lowest are zero.
pub(crate) fn is_one_byte(arena: &Arena, t: Term) -> bool
    requires { t < length arena.now }
    ensures { result ≡ is_one_byte (tree_of arena.now t) }
{
    is_zero_byte(arena, t, 1) && is_zero_byte(arena, t, 2) && is_zero_byte(arena, t, 3)
}

/// Whether the two upper bytes are zero.
pub(crate) fn is_half_word(arena: &Arena, t: Term) -> bool
    requires { t < length arena.now }
    ensures { result ≡ is_half_word (tree_of arena.now t) }
{
    is_zero_byte(arena, t, 2) && is_zero_byte(arena, t, 3)
}

/// Whether `c` is a shift by one, two or three whole bytes.
pub(crate) fn is_byte_shift(c: u32) -> bool
    ensures { result ≡ is_byte_shift c }
{
    c == 8 || c == 16 || c == 24
}

/// Whether `k` is the number of a byte, from 0 to 3, and that byte of `c` is FF.
pub(crate) fn is_all_ones(c: u32, k: u32) -> bool
    ensures { result ≡ nat_eq (byte_of k c) 255 }
{
    k < 4 && byte_of(k as u8, c) == 0xff
}
