//! Values of registers and bytes: numbers, or terms over the input.

ghost use Rattle.std.specs.Prelude.{◌≡◌, ◌<◌, true, IfOk, IfSome};
ghost use Rattle.term_model.specs.declared.Op.TheVariants.{Byte};
ghost use Rattle.term_model.specs.Tree.{Const};
ghost use Rattle.term_arena.specs.Trees.{tree_of, Extends};
ghost use Rattle.normal_form.specs.Norm.{norm};
ghost use Rattle.term_model.specs.ByteNumber.{TakesByteNumber};
ghost use Rattle.path_condition.specs.Sums.{IsNormalTermOf};
ghost use Rattle.sym_replay.specs.declared.value.Value.TheVariants as values;
ghost use Rattle.sym_replay.specs.Values.{value_tree, IsTermIn, IsValueIn, IsValueOf, IsSameNumber, IsOwnByte};

use no_memory::NoMemory;
use simplify::make;
use term_arena::{Arena, Node, Op, Term};

/// What a register or a byte of memory holds.
#[derive(Clone, Copy, Debug)]
pub(crate) enum Value {
    /// A number, which stands for its constant and is no term of the arena.
    Known(u32),
    /// A term of the arena.
    Term(Term),
}

impl Value {
    /// The term of a value. A number is interned.
    pub(crate) fn interned(&self, arena: &mut Arena) -> Result<Term, NoMemory>
        requires { IsValueIn arena.old self.now }
        ensures term { IfOk result (IsNormalTermOf arena.new (value_tree arena.old self.now)) }
        ensures keeps { Extends arena.old arena.new }
    {
        match self {
            Value::Known(word) => arena.constant(*word),
            Value::Term(t) => Ok(*t),
        }
    }

    /// Whether a value is known to be a number.
    pub(crate) fn is_number(&self, number: u32) -> bool
        ensures { result ≡ true → self.now ≡ values.Known number }
    {
        match self {
            Value::Known(word) => *word == number,
            Value::Term(_) => false,
        }
    }
}

/// The value of a term, which is known where the term is a constant.
fn value_of(arena: &Arena, t: Term) -> Value
    requires { IsTermIn arena.now t }
    ensures { IsValueOf arena.now (tree_of arena.now t) result }
{
    match arena.node(t) {
        Node::Const(word) => Value::Known(word),
        _ => Value::Term(t),
    }
}

/// The numbers of two values, where both are known.
fn both_known(a: &Value, b: &Value) -> Option<(u32, u32)>
    ensures { IfSome result (λ known. (a.now ≡ values.Known known.0) × (b.now ≡ values.Known known.1)) }
{
    match a {
        Value::Known(x) => match b {
            Value::Known(y) => Some((*x, *y)),
            Value::Term(_) => None,
        },
        Value::Term(_) => None,
    }
}

/// Whether two values are one known number.
pub(crate) fn are_same_number(a: &Value, b: &Value) -> bool
    ensures { result ≡ true → IsSameNumber a.now b.now }
{
    match both_known(a, b) {
        Some((x, y)) => x == y,
        None => false,
    }
}

/// The normal form of an operation on two values, as terms.
#[inline(never)]
fn made_of_terms(arena: &mut Arena, op: Op, a: &Value, b: &Value) -> Result<Value, NoMemory>
    requires first { IsValueIn arena.old a.now }
    requires second { IsValueIn arena.old b.now }
    requires byte_number { TakesByteNumber op (value_tree arena.old b.now) }
    ensures value { IfOk result (IsValueOf arena.new (norm op (value_tree arena.old a.now) (value_tree arena.old b.now))) }
    ensures keeps { Extends arena.old arena.new }
{
    let first = a.interned(arena)?;
    let second = b.interned(arena)?;
    let t = make(arena, op, first, second)?;
    Ok(value_of(arena, t))
}

/// The normal form of an operation on two values. The arena is asked only where one of them is a term.
#[inline(always)]
pub(crate) fn made(arena: &mut Arena, op: Op, a: &Value, b: &Value) -> Result<Value, NoMemory>
    requires first { IsValueIn arena.old a.now }
    requires second { IsValueIn arena.old b.now }
    requires byte_number { TakesByteNumber op (value_tree arena.old b.now) }
    ensures value { IfOk result (IsValueOf arena.new (norm op (value_tree arena.old a.now) (value_tree arena.old b.now))) }
    ensures keeps { Extends arena.old arena.new }
{
    match both_known(a, b) {
        Some((x, y)) => Ok(Value::Known(op.value(x, y))),
        None => made_of_terms(arena, op, a, b),
    }
}

/// The bytes of a term but the lowest, in the form of [`Arena::zero_bytes`].
const UPPER_BYTES: u8 = 0b1110;

/// Whether byte 0 of a term is the term, as its form shows: its upper bytes are zero.
fn is_own_byte(arena: &Arena, t: Term) -> bool
    requires { IsTermIn arena.now t }
    ensures { result ≡ true → IsOwnByte (tree_of arena.now t) }
{
    match arena.node(t) {
        Node::Const(_) => false,
        Node::Input(_) => true,
        Node::Apply(_, _, _) => arena.zero_bytes(t) == UPPER_BYTES,
    }
}

/// Whether byte `k` of a value is the value, a term.
fn has_own_byte(arena: &Arena, v: &Value, k: u8) -> bool
    requires { IsValueIn arena.now v.now }
    ensures { result ≡ true → norm Byte (value_tree arena.now v.now) (Const k) ≡ value_tree arena.now v.now }
{
    if k != 0 {
        return false;
    }
    match v {
        Value::Known(_) => false,
        Value::Term(t) => is_own_byte(arena, *t),
    }
}

/// Byte `k` of a value. Where it is the value, the arena makes nothing.
pub(crate) fn byte_of_value(arena: &mut Arena, v: &Value, k: u8) -> Result<Value, NoMemory>
    requires value { IsValueIn arena.old v.now }
    requires byte { k < 4 }
    ensures value { IfOk result (IsValueOf arena.new (norm Byte (value_tree arena.old v.now) (Const k))) }
    ensures keeps { Extends arena.old arena.new }
{
    if has_own_byte(arena, v, k) {
        return Ok(*v);
    }
    let number = Value::Known(u32::from(k));
    made(arena, Op::Byte, v, &number)
}
