//! What files are read as, and files that are built.

ghost use Rattle.std.specs.Prelude.{◌≡◌};
ghost use Rattle.elf32.specs.Segments.{total_size};

use crate::files::{ACCEPTED, Change, FILE, Held, Row};
use crate::linked::LINKED;
use elf32::{Image, Segment, read_image, read_symbols};
use rv_assemble::{Bytes, Region};
use std::alloc::Global;
use std::test::Fail;
use test_programs::words::{COMPARE, EBREAK, NOP};
use test_programs::{ProgramError, program_file, zeros};

/// Whether a segment is this one.
fn is_held(segment: &Segment, wanted: Held) -> bool {
    let (base, size, rights, held) = wanted;
    segment.base == base
        && segment.size == size
        && segment.rights == rights
        && segment.bytes.as_slice().len() == held
}

/// Whether a file is read as an image with this entry point and these segments.
pub(crate) fn has_image(
    alloc: Global,
    file: &[u8],
    entry: u32,
    wanted: &[Held],
) -> Result<bool, Fail> {
    let image = read_image(alloc, file)?;
    let segments = image.segments.as_slice();
    if image.entry != entry || segments.len() != wanted.len() {
        return Ok(false);
    }
    for i in 0..wanted.len() {
        if !is_held(&segments[i], wanted[i]) {
            return Ok(false);
        }
    }
    Ok(true)
}

/// Whether a segment of a file's image has these bytes.
fn has_bytes(alloc: Global, file: &[u8], number: usize, wanted: &[u8]) -> Result<bool, Fail> {
    let image = read_image(alloc, file)?;
    match image.segments.as_slice().get(number) {
        Some(segment) => Ok(segment.bytes.as_slice() == wanted),
        None => Ok(false),
    }
}

/// Puts the first bytes of a number at a place.
fn put(file: &mut [u8], place: usize, size: usize, value: u32) {
    let bytes = value.to_le_bytes();
    for i in 0..size.min(4) {
        let at = place.saturating_add(i);
        if at < file.len() {
            file[at] = bytes[i];
        }
    }
}

/// The plain file with other fields, and where there is a second segment, with both headers at its end.
fn file_of(alloc: Global, changes: &[Change], second: Option<(u32, u32)>) -> Result<Vec<u8>, Fail> {
    let mut file = FILE.to_vec(alloc)?;
    for (place, size, value) in changes {
        put(file.as_mut_slice(), *place, *size, *value);
    }
    if let Some((base, size)) = second {
        file.extend_from_slice(&FILE[52..84])?;
        for field in [1, 0, base, base, 0, size, 4, 1] {
            file.extend_from_slice(&field.to_le_bytes())?;
        }
    }
    Ok(file)
}

/// Whether a row's file is read as its image.
fn holds(alloc: Global, row: &Row) -> Result<bool, Fail> {
    let (changes, second, entry, segments) = *row;
    let file = file_of(alloc, changes, second)?;
    has_image(alloc, file.as_slice(), entry, segments)
}

/// The number of the first row that doesn't hold.
fn first_wrong_row(alloc: Global) -> Result<Option<usize>, Fail> {
    let mut number = 0usize;
    for row in &ACCEPTED {
        if !holds(alloc, row)? {
            return Ok(Some(number));
        }
        number = number.saturating_add(1);
    }
    Ok(None)
}

#[test]
fn files_that_break_no_rule(rt: HostRuntime) -> Result<(), Fail> {
    assert_eq!(rt; first_wrong_row(rt.alloc())?, None);
    Ok(())
}

/// The bytes that a program's segments take: a sum that can't overflow, since they take at most 64 MiB.
fn memory_size(image: &Image) -> u32
    ensures { result ≡ total_size image.now.segments }
{
    let segments = image.segments.as_slice();
    let mut total = 0;
    for segment in segments {
        total += segment.size;
    }
    total
}

/// Whether the linked file has the segments that readelf prints, and both files have their bytes.
fn are_read(alloc: Global) -> Result<bool, Fail> {
    let segments = [
        (0x0001_0000, 76, 5, 76),
        (0x0001_1000, 6, 4, 6),
        (0x0001_2000, 4, 6, 4),
        (0x0001_3000, 8, 6, 0),
    ];
    Ok(
        has_image(alloc, &LINKED, 0x0001_0000, &segments)?
            && has_bytes(alloc, &LINKED, 1, b"hello\n")?
            && has_bytes(alloc, &FILE, 0, &FILE[84..])?
            && memory_size(&read_image(alloc, &FILE)?) == 40,
    )
}

/// A program that does nothing, of so many instructions.
fn idle(alloc: Global, count: usize) -> Result<Vec<u32>, Fail> {
    let mut words = Vec::new(alloc);
    words.resize(count, NOP)?;
    Ok(words)
}

/// Whether the longest file is built and read, and one instruction more is too long.
fn is_longest(alloc: Global) -> Result<bool, Fail> {
    let file = program_file(alloc, idle(alloc, 4_194_283)?.as_slice(), &[])?;
    let longer = program_file(alloc, idle(alloc, 4_194_284)?.as_slice(), &[]);
    Ok(
        file.as_slice().len() == 16_777_216
            && has_image(
                alloc,
                file.as_slice(),
                0x0001_0000,
                &[(0x0001_0000, 0x00ff_ffac, 5, 16_777_132)],
            )?
            && matches!(longer, Err(ProgramError::TooLong)),
    )
}

/// Whether a file is built of words and regions, of so many bytes, and has these segments.
fn is_built(
    alloc: Global,
    words: &[u32],
    regions: &[Region],
    length: usize,
    wanted: &[Held],
) -> Result<bool, Fail> {
    let file = program_file(alloc, words, regions)?;
    Ok(file.as_slice().len() == length && has_image(alloc, file.as_slice(), 0x0001_0000, wanted)?)
}

/// Whether a file of one instruction is built with two regions in descending order, and one without a byte.
fn has_regions(alloc: Global) -> Result<bool, Fail> {
    let mut regions = Vec::new(alloc);
    regions.push(Region {
        base: 0x0003_0000,
        size: 8,
        rights: 6,
        bytes: Bytes::from_vec(b"\x01\x02\x03".to_vec(alloc)?),
    })?;
    regions.push(zeros(alloc, 0x0002_0000, 4, 7))?;
    regions.push(zeros(alloc, 0x0004_0000, 0, 1))?;
    let wanted = [
        (0x0001_0000, 4, 5, 4),
        (0x0002_0000, 4, 7, 0),
        (0x0003_0000, 8, 6, 3),
    ];
    is_built(alloc, &[EBREAK], regions.as_slice(), 187, &wanted)
}

/// A symbol table of an empty entry and of a function `f` of 4 bytes at 00010008, its names, and three section headers:
/// none, the table at 96, and the names at 128.
static SYMBOLS: [u32; 39] = [
    0,
    0,
    0,
    0, // no symbol
    1,
    0x0001_0008,
    4,
    0x12, // f
    0x6600, // its name, between zeros
    0,
    0,
    0,
    0,
    0,
    0,
    0,
    0,
    0,
    0, // SHT_NULL
    0,
    2,
    0,
    0,
    96,
    32,
    2,
    0,
    0,
    0, // SHT_SYMTAB, whose names are those of section 2
    0,
    3,
    0,
    0,
    128,
    3,
    0,
    0,
    0,
    0, // SHT_STRTAB
];

/// A program whose section headers name a function.
fn with_symbols(alloc: Global) -> Result<Vec<u8>, Fail> {
    // jal x1,8; ebreak; ebreak
    let file = program_file(alloc, &[0x0080_00ef, EBREAK, EBREAK], &[])?;
    let mut bytes = file.as_slice().to_vec(alloc)?;
    for word in &SYMBOLS {
        bytes.extend_from_slice(&word.to_le_bytes())?;
    }
    put(bytes.as_mut_slice(), 32, 4, 132);
    put(bytes.as_mut_slice(), 46, 2, 40);
    put(bytes.as_mut_slice(), 48, 2, 3);
    Ok(bytes)
}

/// Whether a file that is accepted has so many symbols, of which the first is `f`.
fn has_symbols(alloc: Global, file: &[u8], count: usize) -> Result<bool, Fail> {
    let _ = read_image(alloc, file)?;
    let symbols = read_symbols(alloc, file)?;
    if symbols.as_slice().len() != count {
        return Ok(false);
    }
    match symbols.as_slice() {
        [first, ..] => Ok(
            first.value == 0x0001_0008
                && first.size == 4
                && first.name.as_slice() == b"f".as_slice(),
        ),
        [] => Ok(true),
    }
}

/// Whether the symbols of a file are read, and none where a name has no end or there are no section headers.
fn tells_symbols(alloc: Global) -> Result<bool, Fail> {
    let file = with_symbols(alloc)?;
    let mut endless = file.as_slice().to_vec(alloc)?;
    put(endless.as_mut_slice(), 130, 1, 0x66);
    Ok(
        has_symbols(alloc, file.as_slice(), 1)?
            && has_symbols(alloc, endless.as_slice(), 0)?
            && has_symbols(alloc, &FILE, 0)?,
    )
}

/// The first file that isn't read or built as it should be.
fn first_wrong(alloc: Global) -> Result<Option<&'static str>, Fail> {
    let plain = program_file(alloc, &COMPARE, &[])?;
    if plain.as_slice() != FILE.as_slice() {
        return Ok(Some("the plain file"));
    }
    if !are_read(alloc)? {
        return Ok(Some("the linked file"));
    }
    if !is_longest(alloc)? {
        return Ok(Some("the longest file"));
    }
    if !has_regions(alloc)? {
        return Ok(Some("regions"));
    }
    if !tells_symbols(alloc)? {
        return Ok(Some("symbols"));
    }
    if !is_built(alloc, &[], &[], 84, &[])? {
        return Ok(Some("no code"));
    }
    Ok(None)
}

#[test]
fn files_that_are_read_and_built(rt: HostRuntime) -> Result<(), Fail> {
    assert_eq!(rt; first_wrong(rt.alloc())?, None);
    Ok(())
}
