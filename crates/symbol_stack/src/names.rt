//! The names of program counters, found by a search.

ghost use Rattle.std.specs.Prelude.{◌≡◌, ◌-◌, ◌<◌, ◌≤◌, Some, None, length, slice_index_or, IfOk, IfSome, option_copied};
ghost use Rattle.std.specs.List.{AllWithin, slice_get};
ghost use Rattle.std.specs.List.Sorted.{IsPermutation};
ghost use Rattle.elf32.specs.declared.symbols.Symbol.{Symbol as Function};
ghost use Rattle.symbol_stack.specs.Names.{name_of, IsName, IsNameOf};
ghost use Rattle.symbol_stack.specs.Rows.{end_of, rows_of, AreInOrder, AreOuter, AreRowsOf};
ghost use Rattle.symbol_stack.specs.declared.names.Row.{Row as Place};

use elf32::Symbol;
use no_memory::NoMemory;
use std::alloc::Global;
use std::marker::Model;

/// A function by where it begins and ends. Rows are ordered as their fields stand: of two functions that
/// begin together the one that stands first in the list comes last.
#[derive(Clone, Copy, Debug, PartialEq, Eq, PartialOrd, Ord)]
struct Row {
    start: u32,
    /// How many functions stand behind it in the list.
    behind: usize,
    /// The address after its last byte, where one of size 0 counts as one byte.
    end: u64,
}

/// A list of functions, in which the names of program counters are found by a search. Contracts see the list.
#[derive(Drop)]
pub struct Names<'a> {
    symbols: &'a [Symbol],
    /// The functions, sorted.
    rows: Vec<Row>,
    /// For each row, the number of rows up to the last one before it that ends above its end, or 0.
    outer: Vec<usize>,
}

impl<'a> Model for Names<'a> {
    ghost use Rattle.std.specs.Prelude.{List};
    ghost use Rattle.elf32.specs.declared.symbols.Symbol.{Symbol as Function};
    ghost use Rattle.symbol_stack.specs.Rows.{AreRowsOf};

    ghost Value = { List Function };

    ghost view = { λ n. n.symbols.now };

    ghost invariant = { λ n. AreRowsOf n.symbols.now n.rows.items n.outer.items };
}

/// The address after a function's last byte.
fn end_of(symbol: &Symbol) -> u64
    ensures { result ≡ end_of symbol.now }
{
    u64::from(symbol.value) + u64::from(symbol.size.max(1))
}

/// The rows of functions, in the list's order.
fn rows_of(alloc: Global, symbols: &[Symbol]) -> Result<Vec<Row>, NoMemory>
    ensures { IfOk result (λ rows. rows.items ≡ rows_of symbols.now) }
{
    let mut rows = Vec::new(alloc);
    for i in 0..symbols.len() {
        let symbol = &symbols[i];
        rows.push(Row {
            start: symbol.value,
            behind: symbols.len() - 1 - i,
            end: end_of(symbol),
        })?;
    }
    Ok(rows)
}

/// The rows sorted.
fn sorted(rows: Vec<Row>) -> Vec<Row>
    ensures permutation { IsPermutation rows.items result.items }
    ensures order { AreInOrder result.items }
{
    let mut rows = rows;
    rows.sort_unstable();
    rows
}

/// The number of rows up to the last one, of the first `count`, that ends above an address, or 0. Each step
/// passes a row with all those before it that end no later.
fn reaching(rows: &[Row], outer: &[usize], count: usize, address: u64) -> usize
    requires outer { AreOuter rows.now outer.now }
    requires within { count ≤ length outer.now }
    requires long { length outer.now ≤ length rows.now }
    ensures fewer { result ≤ count }
    ensures passed { AllWithin (λ r. r.end ≤ address) rows.now result count }
    ensures found { (d : Place) → 0 < result → address < (slice_index_or rows.now (result - 1) d).end }
{
    let mut reached = count;
    while reached > 0 && rows[reached - 1].end <= address {
        reached = outer[reached - 1];
    }
    reached
}

/// For each row, the number of rows up to the last one before it that ends above its end, or 0.
fn outer_of(alloc: Global, rows: &[Row]) -> Result<Vec<usize>, NoMemory>
    ensures outer { IfOk result (λ outer. AreOuter rows.now outer.items) }
    ensures long { IfOk result (λ outer. length outer.items ≡ length rows.now) }
{
    let mut outer = Vec::new(alloc);
    for i in 0..rows.len() {
        let reached = reaching(rows, outer.as_slice(), i, rows[i].end);
        outer.push(reached)?;
    }
    Ok(outer)
}

/// How many rows begin at an address or below.
fn begun(rows: &[Row], address: u32) -> usize
    requires { AreInOrder rows.now }
    ensures within { result ≤ length rows.now }
    ensures begun { AllWithin (λ r. r.start ≤ address) rows.now 0 result }
    ensures later { AllWithin (λ r. address < r.start) rows.now result (length rows.now) }
{
    rows.partition_point(|row| row.start <= address)
}

/// The place of a program counter's function in the list, by its sorted rows.
fn place_of(symbols: &[Symbol], rows: &[Row], outer: &[usize], pc: u32) -> Option<usize>
    requires { AreRowsOf symbols.now rows.now outer.now }
    ensures within { IfSome result (λ place. place < length symbols.now) }
    ensures some { IfSome result (λ place. (s : Function) → slice_get symbols.now place ≡ Some s → IsName symbols.now pc s) }
    ensures none { result ≡ None → IsNameOf symbols.now pc None }
{
    let reached = reaching(rows, outer, begun(rows, pc), u64::from(pc));
    if reached == 0 {
        return None;
    }
    Some(symbols.len() - 1 - rows[reached - 1].behind)
}

impl<'a> Names<'a> {
    /// Sorts functions.
    pub fn new(alloc: Global, symbols: &'a [Symbol]) -> Result<Names<'a>, NoMemory>
        ensures { IfOk result (λ names. names ≡ symbols.entry.now) }
    {
        let rows = sorted(rows_of(alloc, symbols)?);
        let outer = outer_of(alloc, rows.as_slice())?;
        Ok(Names {
            symbols,
            rows,
            outer,
        })
    }

    /// The function of a program counter: of those that have it the one that begins last, and of these the
    /// first in the list. A function of size 0 has its first address alone.
    pub fn name_of(&self, pc: u32) -> Option<&Symbol>
        ensures { option_copied result ≡ name_of self.now pc }
    {
        let place = place_of(
            self.symbols,
            self.rows.as_slice(),
            self.outer.as_slice(),
            pc,
        )?;
        Some(&self.symbols[place])
    }
}
