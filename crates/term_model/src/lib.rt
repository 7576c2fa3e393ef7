//! Terms over the bytes of an input, as trees: constants, bytes of the input, and operations on
//! two terms. This crate defines the value of a term, the bytes of it that are zero whatever the
//! input is, the places that it reads, and which terms are truth values, and proves the laws that
//! tie these to each other. It has no trees that a program holds: `Op` is its only type.
//!
//! A law is a function with an empty body whose contract is the law.
#![tactic(auto)]

ghost use Rattle.std.specs.Prelude.{◌≡◌, ◌<◌, ◌^◌, ◌↔◌, ℕ, List, true, false};
ghost use Rattle.term_model.specs.Tree.{Tree};
ghost use Rattle.term_model.specs.Value.{op_value, val, byte_of};
ghost use Rattle.term_model.specs.Words.{HasWords, AreBytes};
ghost use Rattle.term_model.specs.Places.{reads, ReadsBelow, ReadsNothing, AreAlikeFor};
ghost use Rattle.term_model.specs.ZeroBytes.{is_zero_byte};
ghost use Rattle.term_model.specs.Truth.{is_truth};
ghost use Rattle.term_model.specs.Same.{same_tree};
ghost use Rattle.term_model.specs.Order.{variant_place, alu_place};

use rv_word::{AluOp, alu, byte_of};
use std::cmp::Ordering;

/// An operation on two words.
#[derive(Clone, Copy, Debug, PartialEq, Eq)]
pub enum Op {
    /// An operation of the processor.
    Alu(AluOp),
    /// 1 where the words are equal, else 0.
    Eq,
    /// The byte of the first word that the second names, modulo 4, where byte 0 is the lowest.
    Byte,
    /// The lowest bytes of two words, the first word's below.
    Pair,
    /// The lower halves of two words, the first word's below.
    Half,
}

impl Op {
    /// What the operation makes of the words `a` and `b`.
    pub fn value(self, a: u32, b: u32) -> u32
        ensures value { result ≡ op_value self a b }
    {
        match self {
            Op::Alu(op) => alu(op, a, b),
            Op::Eq => u32::from(a == b),
            Op::Byte => u32::from(byte_of((b % 4) as u8, a)),
            Op::Pair => a % 0x100 + 0x100 * (b % 0x100),
            Op::Half => a % 0x1_0000 + 0x1_0000 * (b % 0x1_0000),
        }
    }

    /// The place of the operation's variant among the variants.
    fn variant_place(self) -> u8
        ensures { result ≡ variant_place self }
    {
        match self {
            Op::Alu(_) => 0,
            Op::Eq => 1,
            Op::Byte => 2,
            Op::Pair => 3,
            Op::Half => 4,
        }
    }

    /// The place of an operation of the processor among those, and 0 of any other operation.
    fn alu_place(self) -> u8
        ensures { result ≡ alu_place self }
    {
        match self {
            Op::Alu(op) => op as u8,
            Op::Eq | Op::Byte | Op::Pair | Op::Half => 0,
        }
    }
}

/// The order of the declarations, an operation of the processor as in `AluOp`.
impl Ord for Op {
    ghost use Rattle.std.specs.Cmp.Rules.{comparing};
    ghost use Rattle.std.proofs.Common.{rules};
    ghost use Rattle.term_model.specs.Order.{op_cmp, op_ties};

    ghost cmp = { op_cmp };

    ghost total = { Prim.search (comparing, rules) };

    ghost matches_partial_cmp = { Prim.search (comparing, rules) };

    ghost matches_eq = { op_ties };

    fn cmp(&self, other: &Op) -> Ordering {
        self.variant_place()
            .cmp(&other.variant_place())
            .then(self.alu_place().cmp(&other.alu_place()))
    }
}

impl PartialOrd for Op {
    ghost use Rattle.std.specs.Cmp.{partial_order_from_own_ties};
    ghost use Rattle.std.specs.Cmp.Rules.{comparing};
    ghost use Rattle.std.specs.Ordering.{as_partial_cmp};
    ghost use Rattle.std.proofs.Common.{rules};
    ghost use Rattle.term_model.specs.Order.{op_cmp, op_ties};

    ghost partial_cmp = { as_partial_cmp op_cmp };

    ghost laws = { partial_order_from_own_ties (Prim.search (comparing, rules)) op_ties };

    fn partial_cmp(&self, other: &Op) -> Option<Ordering> {
        Some(self.cmp(other))
    }
}

/// The value of a term is a word, where its constants are words and the input's numbers bytes.
pub fn values_are_words()
    ensures words { (t : Tree) (input : List ℕ) → HasWords t → AreBytes input → val t input < 2 ^ 32 }
{}

/// Each byte that is named as zero is zero under every input.
pub fn zero_bytes_are_zero()
    ensures zero { (t : Tree) (k : ℕ) (input : List ℕ) → HasWords t → AreBytes input → is_zero_byte t k ≡ true →
        byte_of k (val t input) ≡ 0 }
{}

/// A truth term has the value 0 or 1.
pub fn truths_are_bits()
    ensures bits { (t : Tree) (input : List ℕ) → is_truth t ≡ true → val t input < 2 }
{}

/// The test for equal trees holds exactly of equal trees.
pub fn same_trees_are_equal()
    ensures equal { (s t : Tree) → same_tree s t ≡ true → s ≡ t }
    ensures itself { (t : Tree) → same_tree t t ≡ true }
{}

/// The value of a term rests on the bytes at the places that it reads, and on nothing else.
pub fn values_follow_what_is_read()
    ensures value { (t : Tree) (x y : List ℕ) → AreAlikeFor t x y → val t x ≡ val t y }
{}

/// What `ReadsBelow` and `ReadsNothing` say of the places that a term reads, one by one.
pub fn places_are_those_read()
    ensures below { (n : ℕ) (t : Tree) → ReadsBelow n t ↔ ((i : ℕ) → reads t i ≡ true → i < n) }
    ensures nothing { (t : Tree) → ReadsNothing t ↔ ((i : ℕ) → reads t i ≡ false) }
{}
