//! The demonstration cases: their words by another assembler, and their inputs.

use crate::images::has_image;
use rv_assemble::{DemoCase, DemoKind, demo_case};
use std::alloc::Global;
use std::test::Fail;

/// Counts the bytes below 128 among three.
const SINGLE: [u32; 13] = [
    0x0002_05b7, // lui x11,0x20
    0x0000_0637, // lui x12,0x0
    0x0036_0613, // addi x12,x12,3
    0x03f0_0893, // addi x17,x0,63
    0x0000_0073, // ecall
    0x00c5_86b3, // add x13,x11,x12
    0x0005_c283, // lbu x5,0(x11)
    0x0802_b313, // sltiu x6,x5,128
    0x0003_0463, // beq x6,x0,0x10028
    0x0013_8393, // addi x7,x7,1
    0x0015_8593, // addi x11,x11,1
    0xfed5_96e3, // bne x11,x13,0x10018
    0x0010_0073, // ebreak
];

/// Tests the lowest bits of three bytes.
const TRIPLE: [u32; 26] = [
    0x0002_05b7, // lui x11,0x20
    0x0000_0637, // lui x12,0x0
    0x0036_0613, // addi x12,x12,3
    0x03f0_0893, // addi x17,x0,63
    0x0000_0073, // ecall
    0x0000_06b7, // lui x13,0x0
    0x0036_8693, // addi x13,x13,3
    0x00d5_86b3, // add x13,x11,x13
    0x0005_c283, // lbu x5,0(x11)
    0x0015_c303, // lbu x6,1(x11)
    0x0025_c383, // lbu x7,2(x11)
    0x0062_e433, // or x8,x5,x6
    0x0014_7413, // andi x8,x8,1
    0x0204_0663, // beq x8,x0,0x10060
    0xfff3_4493, // xori x9,x6,-1
    0x0092_e433, // or x8,x5,x9
    0x0014_7413, // andi x8,x8,1
    0x0004_0e63, // beq x8,x0,0x10060
    0x0073_6433, // or x8,x6,x7
    0x0014_7413, // andi x8,x8,1
    0x0004_0863, // beq x8,x0,0x10060
    0x0035_8593, // addi x11,x11,3
    0xfcd5_94e3, // bne x11,x13,0x10020
    0x0010_0073, // ebreak
    0x05d0_0893, // addi x17,x0,93
    0x0000_0073, // ecall
];

/// Numbers of bytes, the two words that load each into x12, and those that load the bytes of all whole
/// groups of three into x13.
const SIZES: [(u32, [u32; 2], [u32; 2]); 7] = [
    (3, [0x0000_0637, 0x0036_0613], [0x0000_06b7, 0x0036_8693]),
    (4, [0x0000_0637, 0x0046_0613], [0x0000_06b7, 0x0036_8693]),
    (4095, [0x0000_1637, 0xfff6_0613], [0x0000_16b7, 0xfff6_8693]),
    (4096, [0x0000_1637, 0x0006_0613], [0x0000_16b7, 0xfff6_8693]),
    (4097, [0x0000_1637, 0x0016_0613], [0x0000_16b7, 0xfff6_8693]),
    (
        65535,
        [0x0001_0637, 0xfff6_0613],
        [0x0001_06b7, 0xfff6_8693],
    ),
    (
        65536,
        [0x0001_0637, 0x0006_0613],
        [0x0001_06b7, 0xfff6_8693],
    ),
];

/// Whether a program has these words, which take so many bytes, and a region of `n` bytes beside them.
fn has_words(
    alloc: Global,
    program: &[u8],
    words: &[u32],
    size: u32,
    n: u32,
) -> Result<bool, Fail> {
    let mut code = Vec::new(alloc);
    for word in words {
        code.extend_from_slice(&word.to_le_bytes())?;
    }
    let segments = [
        (0x0001_0000, size, 5, size as usize),
        (0x0002_0000, n, 6, 0),
    ];
    Ok(program.ends_with(code.as_slice()) && has_image(alloc, program, 0x0001_0000, &segments)?)
}

/// The case for a number of bytes, or for the nearest that has one.
fn case_near(alloc: Global, kind: DemoKind, n: u32) -> Result<DemoCase, Fail> {
    Ok(demo_case(alloc, kind, n.max(3).min(65_536))?)
}

/// Whether the case of bytes alone has its program and as long an input.
fn is_single(alloc: Global, n: u32, size: [u32; 2]) -> Result<bool, Fail> {
    let case = case_near(alloc, DemoKind::Single, n)?;
    let mut words = SINGLE;
    (words[1], words[2]) = (size[0], size[1]);
    let input = case.input.as_slice();
    Ok(
        case.program.as_slice().len() == 168
            && has_words(alloc, case.program.as_slice(), &words, 52, n)?
            && input.len() == n as usize
            && input.starts_with(&[0x0b, 0x30, 0x55]),
    )
}

/// Whether all bytes are 255.
fn are_ones(bytes: &[u8]) -> bool {
    for byte in bytes {
        if *byte != 0xff {
            return false;
        }
    }
    true
}

/// Whether the case of triples has its program and as long an input, whose bytes are all 255.
fn is_triple(alloc: Global, n: u32, size: [u32; 2], end: [u32; 2]) -> Result<bool, Fail> {
    let case = case_near(alloc, DemoKind::Triple, n)?;
    let mut words = TRIPLE;
    (words[1], words[2]) = (size[0], size[1]);
    (words[5], words[6]) = (end[0], end[1]);
    Ok(
        case.program.as_slice().len() == 220
            && has_words(alloc, case.program.as_slice(), &words, 104, n)?
            && case.input.as_slice().len() == n as usize
            && are_ones(case.input.as_slice()),
    )
}

/// The first number of bytes whose cases differ.
fn first_wrong(alloc: Global) -> Result<Option<u32>, Fail> {
    for (n, size, end) in &SIZES {
        if !is_single(alloc, *n, *size)? || !is_triple(alloc, *n, *size, *end)? {
            return Ok(Some(*n));
        }
    }
    Ok(None)
}

#[test]
fn cases_have_their_programs_and_inputs(rt: HostRuntime) -> Result<(), Fail> {
    assert_eq!(rt; first_wrong(rt.alloc())?, None);
    Ok(())
}

/// Whether the input of bytes alone begins again after 256 bytes.
fn repeats(alloc: Global) -> Result<bool, Fail> {
    let case = case_near(alloc, DemoKind::Single, 4096)?;
    let input = case.input.as_slice();
    let first = [0x0b, 0x30, 0x55, 0x7a, 0x9f, 0xc4, 0xe9, 0x0e];
    Ok(
        input.len() == 4096
            && input.starts_with(&first)
            && input[256..].starts_with(&first)
            && input.ends_with(&[0x9c, 0xc1, 0xe6]),
    )
}

#[test]
fn an_input_repeats_after_256_bytes(rt: HostRuntime) -> Result<(), Fail> {
    assert!(rt; repeats(rt.alloc())?);
    Ok(())
}
