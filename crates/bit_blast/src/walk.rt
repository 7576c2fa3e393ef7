//! The rows of terms, each after those of its operands.

ghost use Rattle.std.specs.Prelude.{◌≡◌, ◌<◌, ℕ, List, [], length, Some, Contains, IfOk, OnOk, OnErr};
ghost use Rattle.std.specs.Ordering.{nat_cmp};
ghost use Rattle.std.specs.BTreeMap.{get, ContainsKey, Updates};
ghost use Rattle.gate_model.specs.Tree.{Tree};
ghost use Rattle.gate_net.specs.Lits.{AreNamed};
ghost use Rattle.gate_net.specs.Trees.{all_signed_of, Extends};
ghost use Rattle.term_model.specs.Tree as terms;
ghost use Rattle.term_model.specs.Value.{val};
ghost use Rattle.term_model.specs.Words.{AreBytes};
ghost use Rattle.term_arena.specs.Trees.{tree_of, Extends as ArenaExtends};
ghost use Rattle.reached_terms.specs.Reached.{OperandsPass, AreReachedPast};
ghost use Rattle.word_bits.specs.Numbers.{value};
ghost use Rattle.blast_model.specs.Blast.{gates};
ghost use Rattle.blast_laws.specs.Laws.{bits_on};
ghost use Rattle.bit_blast.specs.Rows.{IsRow, AreRows, KeepRows, row_of};

use gate_net::{Lit, Net};
use no_memory::NoMemory;
use reached_terms::reached_past;
use std::alloc::Global;
use std::collections::BTreeMap;
use std::marker::Model;
use term_arena::{Arena, Node, Term};
use word_gates::{constant, input, operation};

/// The bits of terms that were made in a net, to be lent to one call of `bits_with` after the
/// other: a row of 32 Lits for each term, the lowest first.
///
/// Contracts see the terms that have a row, from the lowest number up, each with its Lits.
#[derive(Drop)]
pub struct Rows {
    lits: BTreeMap<Term, [Lit; 32]>,
}

impl Model for Rows {
    ghost use Rattle.std.specs.Prelude.{ℕ, List};
    ghost use Rattle.gate_net.specs.declared.literals.Lit.{Lit};

    ghost Value = { List (ℕ × List Lit) };

    ghost view = { λ r. r.lits.entries };
}

impl Rows {
    /// No rows.
    pub fn new(alloc: Global) -> Rows
        ensures none { result ≡ [] }
        ensures rows { (arena : List terms.Tree) (net : List Tree) → AreRows arena net result }
    {
        Rows {
            lits: BTreeMap::new(alloc),
        }
    }
}

/// Rows stay those of their terms where the arena and the net grow.
pub fn rows_stay()
    ensures { (arena arena' : List terms.Tree) (net net' : List Tree) (rows : List (ℕ × List Lit)) →
        ArenaExtends arena arena' → Extends net net' → AreRows arena net rows → AreRows arena' net' rows }
{}

/// The row of a term that has one.
fn row(rows: &BTreeMap<Term, [Lit; 32]>, t: Term) -> [Lit; 32]
    requires { ContainsKey nat_cmp rows.now t }
    ensures { get nat_cmp rows.now t ≡ Some result }
{
    match rows.get(&t) {
        Some(row) => *row,
        None => unreachable!(),
    }
}

/// Puts the row of a term.
fn put(rows: &mut BTreeMap<Term, [Lit; 32]>, t: Term, made: &[Lit]) -> Result<(), NoMemory>
    requires width { length made.now ≡ 32 }
    ensures puts { OnOk result (Updates nat_cmp rows.old rows.new t (Some made.now)) }
    ensures err { OnErr result (rows.new.entries ≡ rows.old.entries) }
{
    let mut row = [Lit::NO; 32];
    row.copy_from_slice(made);
    rows.insert(t, row)?;
    Ok(())
}

/// Makes the bits of a term from those of its operands.
fn make_row(
    alloc: Global,
    arena: &Arena,
    t: Term,
    rows: &BTreeMap<Term, [Lit; 32]>,
    net: &mut Net,
) -> Result<Vec<Lit>, NoMemory>
    requires belongs { t < length arena.now }
    requires rows { AreRows arena.now net.old rows.now.entries }
    requires operands { OperandsPass arena.now (ContainsKey nat_cmp rows.now) t }
    ensures row { IfOk result (λ r. IsRow net.new (tree_of arena.now t) r.items) }
    ensures keeps { Extends net.old net.new }
{
    let _net = net.len();
    match arena.node(t) {
        Node::Const(v) => constant(alloc, v),
        Node::Input(place) => input(alloc, net, place),
        Node::Apply(op, a, b) => {
            let first = row(rows, a);
            let second = row(rows, b);
            operation(alloc, net, op, &first, &second)
        }
    }
}

/// Makes the rows of terms that have none, from the last term back. What is made before a refusal
/// stays.
fn make_rows(
    alloc: Global,
    arena: &Arena,
    terms: &[Term],
    net: &mut Net,
    rows: &mut BTreeMap<Term, [Lit; 32]>,
) -> Result<(), NoMemory>
    requires reached { (conditions : List ℕ) × AreReachedPast arena.now (ContainsKey nat_cmp rows.old) conditions terms.now }
    requires rows { AreRows arena.now net.old rows.old.entries }
    ensures made { OnOk result ((t : ℕ) → Contains terms.now t → ContainsKey nat_cmp rows.new t) }
    ensures kept { KeepRows rows.old.entries rows.new.entries }
    ensures rows { AreRows arena.now net.new rows.new.entries }
    ensures keeps { Extends net.old net.new }
{
    let _net = net.len();
    for done in 0..terms.len() {
        let t = terms[terms.len() - 1 - done];
        let made = make_row(alloc, arena, t, rows, net)?;
        put(rows, t, &made)?;
    }
    Ok(())
}

/// The Lits of the 32 bits of a term, the lowest first, where the rows have those of terms that
/// were blasted in this net before. The rows take up those of each term that it stands on, so that
/// no term is blasted twice.
///
/// After a refusal each earlier Lit of the net has its tree, and new gates and rows may be there.
pub fn bits_with(
    alloc: Global,
    arena: &Arena,
    t: Term,
    net: &mut Net,
    rows: &mut Rows,
) -> Result<[Lit; 32], NoMemory>
    requires belongs { t < length arena.now }
    requires rows { AreRows arena.now net.old rows.old }
    ensures below { IfOk result (λ word. AreNamed (length net.new) word) }
    ensures trees { IfOk result (λ word. all_signed_of net.new word ≡ gates (tree_of arena.now t)) }
    ensures value { IfOk result (λ word. (bytes : List ℕ) → AreBytes bytes →
        value (bits_on bytes (all_signed_of net.new word)) ≡ val (tree_of arena.now t) bytes) }
    ensures keeps { Extends net.old net.new }
    ensures row { IfOk result (λ word. row_of rows.new t ≡ Some word) }
    ensures kept { KeepRows rows.old rows.new }
    ensures rows { AreRows arena.now net.new rows.new }
{
    let _arena = arena.len();
    let _net = net.len();
    let terms = reached_past(alloc, arena, &[t], &rows.lits)?;
    make_rows(alloc, arena, &terms, net, &mut rows.lits)?;
    Ok(row(&rows.lits, t))
}

/// The Lits of the 32 bits of a term, the lowest first.
///
/// After a refusal each earlier Lit of the net has its tree, and new gates may be there.
pub fn bits(alloc: Global, arena: &Arena, t: Term, net: &mut Net) -> Result<[Lit; 32], NoMemory>
    requires belongs { t < length arena.now }
    ensures below { IfOk result (λ word. AreNamed (length net.new) word) }
    ensures trees { IfOk result (λ word. all_signed_of net.new word ≡ gates (tree_of arena.now t)) }
    ensures value { IfOk result (λ word. (bytes : List ℕ) → AreBytes bytes →
        value (bits_on bytes (all_signed_of net.new word)) ≡ val (tree_of arena.now t) bytes) }
    ensures keeps { Extends net.old net.new }
{
    let mut rows = Rows::new(alloc);
    let word = bits_with(alloc, arena, t, net, &mut rows)?;
    Ok(word)
}
