//! The rules of a file, tested in their order.

ghost use Rattle.std.specs.Prelude.{◌≡◌, ◌≢◌, Err, ◌≤◌, ◌%◌, ◌∷◌, false, length, OnOk, IfErr, Some, None};
ghost use Rattle.std.specs.List.{list_any};
ghost use Rattle.elf32.specs.declared.error.ElfError.TheVariants.{NoMemory};
ghost use Rattle.elf32.specs.Fields.{e_entry, e_phnum, headers, HasTable};
ghost use Rattle.elf32.specs.Spans.{stack, share, overlap};
ghost use Rattle.elf32.specs.Rules.{lacks_magic, lacks_table, has_other_instructions, refusal, is_dynamic, is_load};
ghost use Rattle.elf32.specs.Rules.{is_outside, is_loaded, span_of, spans_of, memory_size, segment_refusal};

use crate::error::ElfError;
use crate::header::{
    E_FLAGS, E_MACHINE, E_PHENTSIZE, E_PHNUM, E_PHOFF, E_TYPE, EI_CLASS, EI_DATA, FILE_HEADER_SIZE,
    Header, PROGRAM_HEADER_SIZE, half_in, word_in,
};
use crate::span::{Span, stack};

/// The program headers that a file may have.
pub const MOST_HEADERS: usize = 64;

/// The bytes that all segments may take in memory, 64 MiB.
const MOST_MEMORY: u64 = 0x0400_0000;

/// The addresses, 4 GiB.
const ADDRESSES: u64 = 0x1_0000_0000;

/// Whether the first bytes aren't the magic number.
fn lacks_magic(bytes: &[u8]) -> bool
    requires { 52 ≤ length bytes.now }
    ensures { result ≡ lacks_magic bytes.now }
{
    !(bytes[0] == 0x7f && bytes[1] == b'E' && bytes[2] == b'L' && bytes[3] == b'F')
}

/// Whether the flags ask for compressed instructions or the embedded register set.
fn has_other_instructions(bytes: &[u8]) -> bool
    requires { 52 ≤ length bytes.now }
    ensures { result ≡ has_other_instructions bytes.now }
{
    // EF_RISCV_RVC is bit 0, EF_RISCV_RVE is bit 3
    let flags = word_in(bytes, E_FLAGS);
    flags % 2 == 1 || flags / 8 % 2 == 1
}

/// Whether the table of program headers is too long, of another form, or not within the file.
fn lacks_table(bytes: &[u8]) -> bool
    requires { 52 ≤ length bytes.now }
    ensures { result ≡ lacks_table bytes.now }
{
    let count = usize::from(half_in(bytes, E_PHNUM));
    let size = usize::from(half_in(bytes, E_PHENTSIZE));
    let end = word_in(bytes, E_PHOFF) as usize + PROGRAM_HEADER_SIZE * count;
    count > MOST_HEADERS || count > 0 && (size != PROGRAM_HEADER_SIZE || end > bytes.len())
}

/// Tests the rules of the ELF header.
#[tactic(auto, unfolding(crate::specs::Rules::refusal))]
pub fn check_header(bytes: &[u8]) -> Result<(), ElfError>
    ensures refused { IfErr result (λ e. refusal bytes.now ≡ Some e) }
    ensures passed { OnOk result (refusal bytes.now
        ≡ segment_refusal (length bytes.now) (e_entry bytes.now) (headers bytes.now)) }
    ensures memory { result ≢ Err NoMemory }
    ensures long { OnOk result (52 ≤ length bytes.now) }
    ensures few { OnOk result (e_phnum bytes.now ≤ 64) }
    ensures table { OnOk result (HasTable bytes.now) }
{
    if bytes.len() < FILE_HEADER_SIZE {
        return Err(ElfError::Short);
    }
    if lacks_magic(bytes) {
        return Err(ElfError::NotElf);
    }
    // ELFCLASS32
    if bytes[EI_CLASS] != 1 {
        return Err(ElfError::Class);
    }
    // ELFDATA2LSB
    if bytes[EI_DATA] != 1 {
        return Err(ElfError::Data);
    }
    // ET_EXEC
    if half_in(bytes, E_TYPE) != 2 {
        return Err(ElfError::Kind);
    }
    // EM_RISCV
    if half_in(bytes, E_MACHINE) != 243 {
        return Err(ElfError::Machine);
    }
    if has_other_instructions(bytes) {
        return Err(ElfError::Flags);
    }
    if lacks_table(bytes) {
        return Err(ElfError::Table);
    }
    Ok(())
}

impl Header {
    /// Whether it is for a dynamic linker.
    pub fn is_dynamic(&self) -> bool
        ensures { result ≡ is_dynamic self.now }
    {
        // PT_DYNAMIC, PT_INTERP
        self.kind == 2 || self.kind == 3
    }

    /// Whether it is of a segment to be loaded.
    pub fn is_load(&self) -> bool
        ensures { result ≡ is_load self.now }
    {
        // PT_LOAD
        self.kind == 1
    }

    /// Whether it is of a segment to be loaded that has a byte in memory.
    pub fn is_loaded(&self) -> bool
        ensures { result ≡ is_loaded self.now }
    {
        self.is_load() && self.memsz > 0
    }

    /// Whether it is of a segment that isn't within a file of this length, or not within memory.
    pub fn is_outside(&self, file_length: usize) -> bool
        ensures { result ≡ is_outside file_length self.now }
    {
        let file_end = self.offset as usize + self.filesz as usize;
        let memory_end = u64::from(self.vaddr) + u64::from(self.memsz);
        self.is_load()
            && (self.filesz > self.memsz || file_end > file_length || memory_end > ADDRESSES)
    }

    /// The addresses of its segment.
    pub fn span(&self) -> Span
        ensures { result ≡ span_of self.now }
    {
        Span {
            base: self.vaddr,
            size: self.memsz,
        }
    }
}

/// Whether a header is for a dynamic linker.
fn has_dynamic(headers: &[Header]) -> bool
    ensures { result ≡ list_any is_dynamic headers.now }
{
    headers.iter().any(|h| h.is_dynamic())
}

/// Whether a segment isn't within the file or not within memory.
fn has_outside(file_length: usize, headers: &[Header]) -> bool
    ensures { result ≡ list_any (is_outside file_length) headers.now }
{
    headers.iter().any(|h| h.is_outside(file_length))
}

/// The bytes that all segments take.
fn memory_size(headers: &[Header]) -> u64
    requires { length headers.now ≤ 64 }
    ensures { result ≡ memory_size headers.now }
{
    let mut total: u64 = 0;
    for h in headers {
        if h.is_load() {
            total += u64::from(h.memsz);
        }
    }
    total
}

/// Whether an address of the span lies in the segment of one of the headers.
fn shares_with_any(span: &Span, headers: &[Header]) -> bool
    ensures { result ≡ list_any (share span.now) (spans_of headers.now) }
{
    headers
        .iter()
        .filter(|h| h.is_loaded())
        .map(|h| h.span())
        .any(|other| span.shares(&other))
}

/// Whether the segments of two of the headers share an address.
#[tactic(auto, unfolding(crate::specs::Spans::overlap))]
fn any_overlap(headers: &[Header]) -> bool
    ensures { result ≡ overlap (spans_of headers.now) }
{
    for i in 0..headers.len() {
        if headers[i].is_loaded() && shares_with_any(&headers[i].span(), &headers[i + 1..]) {
            return true;
        }
    }
    false
}

/// Tests the rules of the program headers and of the entry point.
#[tactic(auto, unfolding(crate::specs::Rules::segment_refusal, crate::specs::Spans::overlap))]
pub fn check_segments(file_length: usize, entry: u32, headers: &[Header]) -> Result<(), ElfError>
    requires few { length headers.now ≤ 64 }
    ensures refused { IfErr result (λ e. segment_refusal file_length entry headers.now ≡ Some e) }
    ensures passed { OnOk result (segment_refusal file_length entry headers.now ≡ None) }
    ensures memory { result ≢ Err NoMemory }
    ensures inside { OnOk result (list_any (is_outside file_length) headers.now ≡ false) }
    ensures apart { OnOk result (overlap (stack ∷ spans_of headers.now) ≡ false) }
    ensures small { OnOk result (memory_size headers.now ≤ 67108864) }
    ensures aligned { OnOk result (entry % 4 ≡ 0) }
{
    if has_dynamic(headers) {
        return Err(ElfError::Dynamic);
    }
    if has_outside(file_length, headers) {
        return Err(ElfError::Segment);
    }
    if shares_with_any(&stack(), headers) || any_overlap(headers) {
        return Err(ElfError::Overlap);
    }
    if memory_size(headers) > MOST_MEMORY {
        return Err(ElfError::TooBig);
    }
    if entry % 4 != 0 {
        return Err(ElfError::Entry);
    }
    Ok(())
}
