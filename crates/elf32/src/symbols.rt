//! The function symbols of a file.

ghost use Rattle.std.specs.List.{list_all};
ghost use Rattle.std.specs.Prelude.{nat_le, ◌&&◌, ◌≡◌, ◌≢◌, ◌+◌, ◌≤◌, ◌++◌, ◌∷◌, All, Some, None, false, length, IfSome, IfOk, OnOk};
ghost use Rattle.elf32.specs.Rules.{refusal};
ghost use Rattle.elf32.specs.Symbols.{name_at, is_name, symbol_at, symbols_in, symbols, checked_name, one_or_none, ends_past};

use crate::bytes::Bytes;
use crate::header::word_in;
use crate::sections::{Section, lacks_sections, string_table, symbol_table};
use no_memory::NoMemory;
use std::alloc::Global;
use std::marker::Model;

/// The bytes of a symbol table's entry.
const ENTRY_SIZE: usize = 16;

/// The most bytes of a name.
const MOST_NAME: usize = 255;

/// A function of a program: its first address, how many bytes it has, and its name.
#[derive(Drop)]
pub struct Symbol {
    pub value: u32,
    pub size: u32,
    pub name: Bytes,
}

/// Symbols in a row.
#[derive(Drop)]
pub struct Symbols {
    items: Vec<Symbol>,
}

impl Model for Symbols {
    ghost use Rattle.std.specs.Prelude.{List};
    ghost use Rattle.elf32.specs.declared.symbols.Symbol.{Symbol};

    ghost Value = { List Symbol };

    ghost view = { λ s. s.items.items };
}

impl Symbols {
    /// The symbols of a vector.
    pub fn from_vec(v: Vec<Symbol>) -> Self
        ensures { result ≡ v.items }
    {
        Symbols { items: v }
    }

    /// The symbols as a slice.
    pub fn as_slice(&self) -> &[Symbol]
        ensures { result.now ≡ self.now }
    {
        &self.items
    }

    /// The vector of the symbols.
    pub fn into_vec(self) -> Vec<Symbol>
        ensures { result.items ≡ self }
    {
        self.items
    }
}

/// Whether bytes are printed characters of ASCII but the space.
fn is_printed(bytes: &[u8]) -> bool
    ensures { result ≡ list_all (λ b. nat_le 33 b && nat_le b 126) bytes.now }
{
    bytes.iter().all(|b| 33 <= *b && *b <= 126)
}

/// Whether bytes are a name: 1 to 255 printed characters of ASCII but the space.
fn is_name(bytes: &[u8]) -> bool
    ensures { result ≡ is_name bytes.now }
{
    0 < bytes.len() && bytes.len() <= MOST_NAME && is_printed(bytes)
}

/// The parts before and after the first zero.
fn split_at_zero<'a>(bytes: &'a [u8]) -> Option<(&'a [u8], &'a [u8])>
    ensures some { IfSome result (λ parts.
        (bytes.entry.now ≡ parts.0.now ++ 0 ∷ parts.1.now) × All (λ b. b ≢ 0) parts.0.now) }
    ensures none { result ≡ None → All (λ b. b ≢ 0) bytes.entry.now }
{
    let place = bytes.iter().position(|b| *b == 0)?;
    let (front, rest) = bytes.split_at(place);
    let (_, back) = rest.split_at(1);
    Some((front, back))
}

/// The name at a place of a string table. No more bytes are looked at than a name and its zero have.
fn name_at<'a>(strings: &'a [u8], place: usize) -> Option<&'a [u8]>
    ensures some { IfSome result (λ name. checked_name (name_at strings.entry.now place) ≡ Some name.now) }
    ensures none { result ≡ None → checked_name (name_at strings.entry.now place) ≡ None }
{
    if place >= strings.len() {
        return None;
    }
    let (_, rest) = strings.split_at(place);
    let (first, _) = rest.split_at(rest.len().min(MOST_NAME + 1));
    let (name, _) = split_at_zero(first)?;
    if !is_name(name) {
        return None;
    }
    Some(name)
}

/// Adds the function of a symbol table's entry, where it is one.
#[tactic(auto, unfolding(crate::specs::Symbols::symbol_at))]
fn push_symbol(
    alloc: Global,
    list: &mut Vec<Symbol>,
    bytes: &[u8],
    strings: &[u8],
    place: usize,
) -> Result<(), NoMemory>
    requires { place + 16 ≤ length bytes.now }
    ensures { OnOk result (list.new.items ≡ list.old.items ++ one_or_none (symbol_at bytes.now strings.now place)) }
{
    if bytes[place + 12] % 16 != 2 {
        return Ok(());
    }
    let Some(name) = name_at(strings, word_in(bytes, place) as usize) else {
        return Ok(());
    };
    let name = Vec::from_slice(alloc, name)?;
    list.push(Symbol {
        value: word_in(bytes, place + 4),
        size: word_in(bytes, place + 8),
        name: Bytes::from_vec(name),
    })?;
    Ok(())
}

/// The functions of a symbol table with a string table.
fn symbols_in(
    alloc: Global,
    bytes: &[u8],
    table: Section,
    strings: Section,
) -> Result<Vec<Symbol>, NoMemory>
    requires table { ends_past (length bytes.now) table ≡ false }
    requires strings { ends_past (length bytes.now) strings ≡ false }
    ensures { IfOk result (λ v. v.items ≡ symbols_in bytes.now table strings) }
{
    let mut list = Vec::new(alloc);
    let strings = strings.bytes(bytes);
    for i in 0..table.size / 16 {
        let place = table.offset as usize + ENTRY_SIZE * i as usize;
        push_symbol(alloc, &mut list, bytes, strings, place)?;
    }
    Ok(list)
}

/// Reads the function symbols of a file that breaks no rule of [`crate::ElfError`]: of its first section
/// of type SHT_SYMTAB each whole entry whose type is STT_FUNC and whose name, in the section that
/// sh_link names, has 1 to 255 printed characters of ASCII but the space. There are none where the file
/// lacks section headers or one of the two sections.
#[tactic(auto, using(crate::proofs::Accepted::has_header), unfolding(crate::specs::Symbols::symbols))]
pub fn read_symbols(alloc: Global, bytes: &[u8]) -> Result<Symbols, NoMemory>
    requires { refusal bytes.now ≡ None }
    ensures { IfOk result (λ s. s ≡ symbols bytes.now) }
{
    if lacks_sections(bytes) {
        return Ok(Symbols::from_vec(Vec::new(alloc)));
    }
    let Some(table) = symbol_table(bytes) else {
        return Ok(Symbols::from_vec(Vec::new(alloc)));
    };
    let Some(strings) = string_table(bytes, table) else {
        return Ok(Symbols::from_vec(Vec::new(alloc)));
    };
    Ok(Symbols::from_vec(symbols_in(alloc, bytes, table, strings)?))
}
