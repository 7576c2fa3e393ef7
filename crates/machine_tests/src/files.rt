//! The plain file, and files near it that break no rule.

/// A program that reads four bytes and compares the first with 65, as the layout gives it.
pub(crate) const FILE: [u8; 124] = [
    0x7f, 0x45, 0x4c, 0x46, 0x01, 0x01, 0x01, 0x00, 0x00, 0x00, 0x00, 0x00, 0x00, 0x00, 0x00, 0x00,
    0x02, 0x00, 0xf3, 0x00, 0x01, 0x00, 0x00, 0x00, 0x00, 0x00, 0x01, 0x00, 0x34, 0x00, 0x00, 0x00,
    0x00, 0x00, 0x00, 0x00, 0x00, 0x00, 0x00, 0x00, 0x34, 0x00, 0x20, 0x00, 0x01, 0x00, 0x00, 0x00,
    0x00, 0x00, 0x00, 0x00, 0x01, 0x00, 0x00, 0x00, 0x54, 0x00, 0x00, 0x00, 0x00, 0x00, 0x01, 0x00,
    0x00, 0x00, 0x01, 0x00, 0x28, 0x00, 0x00, 0x00, 0x28, 0x00, 0x00, 0x00, 0x05, 0x00, 0x00, 0x00,
    0x01, 0x00, 0x00, 0x00, 0x93, 0x05, 0x01, 0x00, 0x13, 0x06, 0x40, 0x00, 0x93, 0x08, 0xf0, 0x03,
    0x73, 0x00, 0x00, 0x00, 0x83, 0x42, 0x01, 0x00, 0x13, 0x03, 0x10, 0x04, 0x63, 0x86, 0x62, 0x00,
    0x93, 0x08, 0xd0, 0x05, 0x73, 0x00, 0x00, 0x00, 0x73, 0x00, 0x10, 0x00,
];

/// A field with another value: its place in the plain file, its bytes and the value.
pub(crate) type Change = (usize, usize, u32);

/// A segment of an image: its base, its size, its rights, and how many bytes it holds.
pub(crate) type Held = (u32, u32, u32, usize);

/// Other fields of the plain file, a second segment's base and size, and the entry point and the segments of the image
/// that the file has.
pub(crate) type Row = (&'static [Change], Option<(u32, u32)>, u32, &'static [Held]);

/// The segment of the plain file.
const CODE: Held = (0x0001_0000, 40, 5, 40);

// The places of fields of the ELF header.
const ENTRY: usize = 24;

const PHOFF: usize = 28;

const FLAGS: usize = 36;

const PHENTSIZE: usize = 42;

const PHNUM: usize = 44;

// The places of the fields of the one program header.
const P_TYPE: usize = 52;

const P_OFFSET: usize = 56;

const P_VADDR: usize = 60;

const P_FILESZ: usize = 68;

const P_MEMSZ: usize = 72;

const P_FLAGS: usize = 76;

/// Two program headers, which stand at the end.
const TWO_HEADERS: [Change; 2] = [(PHOFF, 4, 124), (PHNUM, 2, 2)];

/// Files that break no rule.
pub(crate) const ACCEPTED: [Row; 19] = [
    (&[], None, 0x0001_0000, &[CODE]),
    // fields that aren't tested, a float ABI among them
    (&[(FLAGS, 4, 0xffff_fff6)], None, 0x0001_0000, &[CODE]),
    (
        &[(6, 1, 9), (20, 4, 7), (40, 2, 9)],
        None,
        0x0001_0000,
        &[CODE],
    ),
    (
        &[(32, 4, 0xffff_ffff), (46, 2, 9), (48, 4, 9)],
        None,
        0x0001_0000,
        &[CODE],
    ),
    (&[(64, 4, 9), (80, 4, 9)], None, 0x0001_0000, &[CODE]),
    // rights are three bits
    (
        &[(P_FLAGS, 4, 0xffff_fffa)],
        None,
        0x0001_0000,
        &[(0x0001_0000, 40, 2, 40)],
    ),
    // each limit reached
    (
        &[(P_MEMSZ, 4, 0x0400_0000)],
        None,
        0x0001_0000,
        &[(0x0001_0000, 0x0400_0000, 5, 40)],
    ),
    (
        &[(P_VADDR, 4, 0x7fef_ffd8)],
        None,
        0x0001_0000,
        &[(0x7fef_ffd8, 40, 5, 40)],
    ),
    (
        &[(P_VADDR, 4, 0x8000_0000)],
        None,
        0x0001_0000,
        &[(0x8000_0000, 40, 5, 40)],
    ),
    (
        &[(P_VADDR, 4, 0xffff_ffd8)],
        None,
        0x0001_0000,
        &[(0xffff_ffd8, 40, 5, 40)],
    ),
    (&[(ENTRY, 4, 0xffff_fffc)], None, 0xffff_fffc, &[CODE]),
    // headers that load nothing
    (&[(P_TYPE, 4, 4), (P_MEMSZ, 4, 27)], None, 0x0001_0000, &[]),
    (
        &[(P_FILESZ, 4, 0), (P_MEMSZ, 4, 0), (P_OFFSET, 4, 124)],
        None,
        0x0001_0000,
        &[],
    ),
    (
        &[(PHNUM, 2, 0), (PHOFF, 4, 0xffff_fff0), (PHENTSIZE, 2, 0)],
        None,
        0x0001_0000,
        &[],
    ),
    (&[(PHNUM, 2, 2)], None, 0x0001_0000, &[CODE]),
    // a second segment: next to the first, empty within it, and up to 64 MiB in all
    (
        &TWO_HEADERS,
        Some((0x0001_0028, 1)),
        0x0001_0000,
        &[CODE, (0x0001_0028, 1, 4, 0)],
    ),
    (
        &TWO_HEADERS,
        Some((0x0000_fff0, 0x10)),
        0x0001_0000,
        &[(0x0000_fff0, 16, 4, 0), CODE],
    ),
    (&TWO_HEADERS, Some((0x0001_0010, 0)), 0x0001_0000, &[CODE]),
    (
        &TWO_HEADERS,
        Some((0x0002_0000, 0x03ff_ffd8)),
        0x0001_0000,
        &[CODE, (0x0002_0000, 0x03ff_ffd8, 4, 0)],
    ),
];
