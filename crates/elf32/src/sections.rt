//! The fields of section headers, all of them little-endian.

ghost use Rattle.std.specs.Prelude.{◌≡◌, ◌+◌, ◌≤◌, length, find, false};
ghost use Rattle.std.specs.List.{slice_get};
ghost use Rattle.elf32.specs.Symbols.{section_at, sections, lacks_sections, ends_past, has_symbols, bytes_of};
ghost use Rattle.elf32.specs.Symbols.{table_in, strings_for};

use crate::header::{half_in, word_in};

/// The bytes of a section header.
const SECTION_HEADER_SIZE: usize = 40;

/// The places of the ELF header's fields (System V gABI, "ELF Header").
const E_SHOFF: usize = 32;

const E_SHENTSIZE: usize = 46;

const E_SHNUM: usize = 48;

/// A section header (System V gABI, "Section Header"): its sh_type, sh_offset, sh_size and sh_link.
#[derive(Clone, Copy, Debug)]
pub struct Section {
    pub kind: u32,
    pub offset: u32,
    pub size: u32,
    pub link: u32,
}

/// The section header at a place.
#[tactic(auto, unfolding(crate::specs::Symbols::section_at))]
fn section_at(bytes: &[u8], place: usize) -> Section
    requires { place + 40 ≤ length bytes.now }
    ensures { result ≡ section_at bytes.now place }
{
    Section {
        kind: word_in(bytes, place + 4),
        offset: word_in(bytes, place + 16),
        size: word_in(bytes, place + 20),
        link: word_in(bytes, place + 24),
    }
}

/// Whether there are no section headers, or they have another size, or they end past the file.
pub fn lacks_sections(bytes: &[u8]) -> bool
    requires { 52 ≤ length bytes.now }
    ensures { result ≡ lacks_sections bytes.now }
{
    let count = usize::from(half_in(bytes, E_SHNUM));
    let end = word_in(bytes, E_SHOFF) as usize + SECTION_HEADER_SIZE * count;
    count == 0
        || usize::from(half_in(bytes, E_SHENTSIZE)) != SECTION_HEADER_SIZE
        || end > bytes.len()
}

/// The section of a number.
#[tactic(auto, unfolding(crate::specs::Symbols::sections))]
fn numbered_section(bytes: &[u8], number: u32) -> Option<Section>
    requires header { 52 ≤ length bytes.now }
    requires table { lacks_sections bytes.now ≡ false }
    ensures { result ≡ slice_get (sections bytes.now) number }
{
    if number >= u32::from(half_in(bytes, E_SHNUM)) {
        return None;
    }
    let start = word_in(bytes, E_SHOFF) as usize;
    Some(section_at(bytes, start + SECTION_HEADER_SIZE * number as usize))
}

impl Section {
    /// Whether the section ends past a file of so many bytes.
    fn ends_past(&self, size: usize) -> bool
        ensures { result ≡ ends_past size self.now }
    {
        self.offset as usize + self.size as usize > size
    }

    /// The bytes of a section within the file.
    pub fn bytes<'a>(&self, bytes: &'a [u8]) -> &'a [u8]
        requires { ends_past (length bytes.now) self.now ≡ false }
        ensures { result.now ≡ bytes_of bytes.entry.now self.now }
    {
        let start = self.offset as usize;
        &bytes[start..start + self.size as usize]
    }
}

/// The first section with symbols.
#[tactic(auto, unfolding(crate::specs::Symbols::sections))]
fn first_with_symbols(bytes: &[u8]) -> Option<Section>
    requires header { 52 ≤ length bytes.now }
    requires table { lacks_sections bytes.now ≡ false }
    ensures { result ≡ find has_symbols (sections bytes.now) }
{
    let start = word_in(bytes, E_SHOFF) as usize;
    for i in 0..usize::from(half_in(bytes, E_SHNUM)) {
        let found = section_at(bytes, start + SECTION_HEADER_SIZE * i);
        if found.kind == 2 {
            return Some(found);
        }
    }
    None
}

/// The symbol table, where the file has it.
pub fn symbol_table(bytes: &[u8]) -> Option<Section>
    requires header { 52 ≤ length bytes.now }
    requires table { lacks_sections bytes.now ≡ false }
    ensures { result ≡ table_in bytes.now (find has_symbols (sections bytes.now)) }
{
    let table = first_with_symbols(bytes)?;
    if table.ends_past(bytes.len()) {
        return None;
    }
    Some(table)
}

/// The string table of a symbol table, where the file has it.
pub fn string_table(bytes: &[u8], table: Section) -> Option<Section>
    requires header { 52 ≤ length bytes.now }
    requires table { lacks_sections bytes.now ≡ false }
    ensures { result ≡ strings_for bytes.now (slice_get (sections bytes.now) table.link) }
{
    let strings = numbered_section(bytes, table.link)?;
    if strings.kind != 3 || strings.ends_past(bytes.len()) {
        return None;
    }
    Some(strings)
}
