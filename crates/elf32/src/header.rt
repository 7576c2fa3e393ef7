//! The fields of the ELF header and of program headers, all of them little-endian.

ghost use Rattle.std.specs.Prelude.{◌≡◌, ◌+◌, ◌*◌, ◌≤◌, ◌<◌, length};
ghost use Rattle.elf32.specs.Fields.{half_in, word_in, header_at, headers_at};

use byteorder::{ByteOrder, LittleEndian};

/// The bytes of an ELF header.
pub const FILE_HEADER_SIZE: usize = 52;

/// The bytes of a program header.
pub const PROGRAM_HEADER_SIZE: usize = 32;

/// The places of the ELF header's fields (System V gABI, "ELF Header").
pub const EI_CLASS: usize = 4;

pub const EI_DATA: usize = 5;

pub const E_TYPE: usize = 16;

pub const E_MACHINE: usize = 18;

pub const E_ENTRY: usize = 24;

pub const E_PHOFF: usize = 28;

pub const E_FLAGS: usize = 36;

pub const E_PHENTSIZE: usize = 42;

pub const E_PHNUM: usize = 44;

/// A program header (System V gABI, "Program Header"), but for p_paddr and p_align.
#[derive(Clone, Copy)]
pub struct Header {
    pub kind: u32,
    pub offset: u32,
    pub vaddr: u32,
    pub filesz: u32,
    pub memsz: u32,
    pub flags: u32,
}

/// A program header that is still to be read.
pub const UNREAD: Header = Header {
    kind: 0,
    offset: 0,
    vaddr: 0,
    filesz: 0,
    memsz: 0,
    flags: 0,
};

/// The field of two bytes at a place.
pub fn half_in(bytes: &[u8], place: usize) -> u16
    requires { place + 2 ≤ length bytes.now }
    ensures { result ≡ half_in bytes.now place }
{
    LittleEndian::read_u16(&bytes[place..])
}

/// The field of four bytes at a place.
pub fn word_in(bytes: &[u8], place: usize) -> u32
    requires { place + 4 ≤ length bytes.now }
    ensures { result ≡ word_in bytes.now place }
{
    LittleEndian::read_u32(&bytes[place..])
}

/// The program header at a place.
#[tactic(auto, unfolding(crate::specs::Fields::header_at))]
fn header_at(bytes: &[u8], place: usize) -> Header
    requires { place + 32 ≤ length bytes.now }
    ensures { result ≡ header_at bytes.now place }
{
    Header {
        kind: word_in(bytes, place),
        offset: word_in(bytes, place + 4),
        vaddr: word_in(bytes, place + 8),
        filesz: word_in(bytes, place + 16),
        memsz: word_in(bytes, place + 20),
        flags: word_in(bytes, place + 24),
    }
}

/// Reads the program headers of the table at `start`, as many as `headers` is long.
pub fn read_headers(bytes: &[u8], start: usize, headers: &mut [Header])
    requires { 0 < length headers.old → start + 32 * length headers.old ≤ length bytes.now }
    ensures { headers.new ≡ headers_at bytes.now start (length headers.old) }
{
    for (i, header) in headers.iter_mut().enumerate() {
        *header = header_at(bytes, start + PROGRAM_HEADER_SIZE * i);
    }
}
