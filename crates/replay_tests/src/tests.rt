//! The conditions of small runs, compared with what is worked out by hand.

use crate::wanted::{Wanted, are};
use elf32::Image;
use rv_machine::trace_of;
use std::alloc::Global;
use std::test::Fail;
use sym_replay::replay;
use term_arena::Arena;
use test_programs::words::{BRANCH_TO_THE_NEXT, JUMP_TO_TWO, OVERFLOW, RUN_THE_INPUT, SUM_OF_TWO};
use test_programs::{program_image, zeros};

/// Reads two bytes, and adds its number to each in a loop. Where a sum is no less than 98 it stops early.
const COUNTED_BYTES: [u32; 14] = [
    0x0001_0593, // addi x11,x2,0
    0x0020_0613, // addi x12,x0,2
    0x03f0_0893, // addi x17,x0,63
    0x0000_0073, // ecall
    0x0000_0313, // addi x6,x0,0
    0x0620_0413, // addi x8,x0,98
    0x0061_04b3, // add x9,x2,x6
    0x0004_c283, // lbu x5,0(x9)
    0x0062_83b3, // add x7,x5,x6
    0x0083_e463, // bltu x7,x8,0x1002c
    0x0010_0073, // ebreak
    0x0013_0313, // addi x6,x6,1
    0xfec3_14e3, // bne x6,x12,0x10018
    0x0010_0073, // ebreak
];

/// Reads a byte into a word that it has stored, compares the word, stores a zero over the byte, and compares it again.
const PATCHED_WORD: [u32; 12] = [
    0x1234_5437, // lui x8,0x12345
    0x0081_2223, // sw x8,4(x2)
    0x0041_0593, // addi x11,x2,4
    0x0010_0613, // addi x12,x0,1
    0x03f0_0893, // addi x17,x0,63
    0x0000_0073, // ecall
    0x0041_2303, // lw x6,4(x2)
    0x0083_1463, // bne x6,x8,0x10024
    0x0001_0223, // sb x0,4(x2)
    0x0041_2303, // lw x6,4(x2)
    0xfe83_1ee3, // bne x6,x8,0x10024
    0x0010_0073, // ebreak
];

/// Reads a byte into the heap and compares it with 0, moves the break past it and back, and compares it again.
const MOVED_BREAK: [u32; 21] = [
    0x0d60_0893, // addi x17,x0,214
    0x0000_0073, // ecall
    0x0005_0413, // addi x8,x10,0
    0x0104_0513, // addi x10,x8,16
    0x0000_0073, // ecall
    0x0000_0513, // addi x10,x0,0
    0x0004_0593, // addi x11,x8,0
    0x0010_0613, // addi x12,x0,1
    0x03f0_0893, // addi x17,x0,63
    0x0000_0073, // ecall
    0x0004_4283, // lbu x5,0(x8)
    0x0002_9463, // bne x5,x0,0x10034
    0x0010_0073, // ebreak
    0x0d60_0893, // addi x17,x0,214
    0x0004_0513, // addi x10,x8,0
    0x0000_0073, // ecall
    0x0104_0513, // addi x10,x8,16
    0x0000_0073, // ecall
    0x0004_4283, // lbu x5,0(x8)
    0xfe02_94e3, // bne x5,x0,0x10034
    0x0010_0073, // ebreak
];

/// What a run shows, its program's words and input, and its conditions.
type Run = (
    &'static str,
    &'static [u32],
    &'static [u8],
    &'static [Wanted],
);

/// Runs of at most 1,000 steps.
const RUNS: [Run; 8] = [
    (
        "a sum is pinned by its bytes",
        &SUM_OF_TWO,
        &[0x32, 0x32],
        &[
            Wanted::SumByte(0, 0x64),
            Wanted::SumByte(1, 0),
            Wanted::SumByte(2, 0),
            Wanted::SumByte(3, 0),
        ],
    ),
    (
        "a return address is pinned but for one bit",
        &OVERFLOW,
        &[0x61; 64],
        &[
            Wanted::EvenByte(28, 0x60),
            Wanted::Byte(29, 0x61),
            Wanted::Byte(30, 0x61),
            Wanted::Byte(31, 0x61),
        ],
    ),
    (
        "a branch to the next that isn't taken",
        &BRANCH_TO_THE_NEXT,
        &[0],
        &[],
    ),
    (
        "a branch to the next that is taken",
        &BRANCH_TO_THE_NEXT,
        &[0x55],
        &[],
    ),
    (
        "a misaligned jump shows nothing",
        &JUMP_TO_TWO,
        &[0x61],
        &[],
    ),
    (
        "bytes beside a counter are terms with numbers",
        &COUNTED_BYTES,
        &[0x61, 0x60],
        &[Wanted::Below(0, 98), Wanted::SumBelow(1, 1, 98)],
    ),
    (
        "a word has read and known bytes",
        &PATCHED_WORD,
        &[0],
        &[Wanted::Byte(0, 0)],
    ),
    (
        "bytes that the break moves past are known",
        &MOVED_BREAK,
        &[0x61],
        &[Wanted::NotZero(0)],
    ),
];

/// Whether the run of an image on an input of up to 64 bytes has these conditions.
fn has_conditions(
    alloc: Global,
    arena: &mut Arena,
    image: &Image,
    input: &[u8],
    wanted: &[Wanted],
) -> Result<bool, Fail> {
    if input.len() > 64 {
        return Ok(false);
    }
    let transcript = trace_of(alloc, image, input, 1000)?;
    let conditions = replay(alloc, image, &transcript, arena)?;
    Ok(are(arena, conditions.list(), wanted)?)
}

/// The first run whose conditions differ.
fn first_wrong(alloc: Global) -> Result<Option<&'static str>, Fail> {
    for (what, words, input, wanted) in &RUNS {
        let image = program_image(alloc, words, &[])?;
        let mut arena = Arena::new(alloc)?;
        if !has_conditions(alloc, &mut arena, &image, input, wanted)? {
            return Ok(Some(what));
        }
    }
    Ok(None)
}

#[test]
fn conditions_of_runs(rt: HostRuntime) -> Result<(), Fail> {
    assert_eq!(rt; first_wrong(rt.alloc())?, None);
    Ok(())
}

/// Whether bytes that are fetched are those of the word, an EBREAK.
fn fetched_bytes_are_known(alloc: Global) -> Result<bool, Fail> {
    let image = program_image(alloc, &RUN_THE_INPUT, &[zeros(alloc, 0x2_0000, 4, 7)])?;
    let mut arena = Arena::new(alloc)?;
    let wanted = [
        Wanted::Byte(0, 0x73),
        Wanted::Byte(1, 0),
        Wanted::Byte(2, 0x10),
        Wanted::Byte(3, 0),
    ];
    has_conditions(alloc, &mut arena, &image, &[0x73, 0, 0x10, 0], &wanted)
}

/// Whether a run that reads nothing makes no term.
fn no_term_is_made(alloc: Global) -> Result<bool, Fail> {
    let image = program_image(alloc, &JUMP_TO_TWO, &[])?;
    let mut arena = Arena::new(alloc)?;
    Ok(has_conditions(alloc, &mut arena, &image, &[], &[])? && arena.len() == 0)
}

#[test]
fn what_is_fetched_and_what_is_not_read(rt: HostRuntime) -> Result<(), Fail> {
    assert!(rt; fetched_bytes_are_known(rt.alloc())? && no_term_is_made(rt.alloc())?);
    Ok(())
}
