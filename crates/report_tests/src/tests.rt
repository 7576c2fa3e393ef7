//! How many groups the bytes of an input are in, and how many conflicts their searches count.

use crate::programs::{
    CHECKSUM, DECIMAL, LOOK_UP, PRODUCT, SUM_OF_FOUR, THREE_TIMES, TWO_TRIPLES_AND_A_BYTE,
};
use elf32::read_image;
use report_maker::{Made, make_report};
use rv_event::End;
use rv_machine::trace_of;
use std::alloc::Global;
use std::test::Fail;
use test_programs::words::{
    BELOW_TEN, BRANCH_TO_THE_NEXT, COMPARE_WORD, DIVIDE, EBREAK, EQUAL_PAIR, JOINED_TRIPLE,
    JUMP_TO_TWO, LOAD_X0, MARKED_BYTES, OVERFLOW, PAIRS_AND_A_BYTE, RISING_PAIR, RUN_THE_INPUT,
    SUM_OF_TWO,
};
use test_programs::{program_file, zeros};

/// A program's words, a region of zeros beside them (base, size and rights), an input and a seed, and of the report
/// how many groups there are, and how many conflicts the searches for the first bytes count.
type Row = (
    &'static [u32],
    Option<(u32, u32, u32)>,
    &'static [u8],
    u64,
    u32,
    u64,
);

/// What a report doesn't say of runs whose reports are cases of the tool.
const ROWS: [Row; 45] = [
    // one byte is tested at a time: each is a group of its own
    (&BELOW_TEN, None, b"\x07", 0, 1, 0),
    (&DIVIDE, None, b"\x00", 0, 1, 0),
    (&COMPARE_WORD, None, b"xV4\x12", 0, 4, 0),
    (&OVERFLOW, None, &[0x61; 64], 0, 4, 0),
    // two bytes are tested together
    (&SUM_OF_TWO, None, b"22", 0, 1, 0),
    (&RISING_PAIR, None, b"\x10 ", 0, 1, 0),
    (&EQUAL_PAIR, None, b"22", 0, 1, 0),
    (&PAIRS_AND_A_BYTE, None, b"x\x10. x\x07!", 0, 3, 0),
    // no condition is on the input: there is no group
    (&BRANCH_TO_THE_NEXT, None, b"U", 0, 0, 0),
    (&LOAD_X0, None, b"", 0, 0, 0),
    (&JUMP_TO_TWO, None, b"", 0, 0, 0),
    // the order of a seed
    (&BRANCH_TO_THE_NEXT, None, b"U", 1, 0, 0),
    (&SUM_OF_TWO, None, b"22", 1, 1, 0),
    (&MARKED_BYTES, None, b"abcAefg\x05hijk", 1, 2, 0),
    (&PAIRS_AND_A_BYTE, None, b"x\x10. x\x07!", 1, 3, 0),
    // more than two bytes are tested together, by two inputs of each class
    (&SUM_OF_FOUR, None, b"dd22", 0, 1, 14),
    (&SUM_OF_FOUR, None, b"KKKK", 0, 1, 14),
    (&LOOK_UP, None, &[1, 2, 3], 0, 1, 0),
    (&LOOK_UP, None, &[200, 100, 10], 0, 1, 0),
    (&PRODUCT, None, &[7, 9, 63], 0, 1, 0),
    (&PRODUCT, None, &[16, 16, 0], 0, 1, 0),
    (&DECIMAL, None, b"300", 0, 1, 7),
    (&DECIMAL, None, b"999", 0, 1, 7),
    // the same in the order of a seed
    (&SUM_OF_FOUR, None, b"dd22", 1, 1, 19),
    (&SUM_OF_FOUR, None, b"KKKK", 1, 1, 19),
    (&LOOK_UP, None, &[1, 2, 3], 1, 1, 0),
    (&LOOK_UP, None, &[200, 100, 10], 1, 1, 0),
    (&PRODUCT, None, &[7, 9, 63], 1, 1, 0),
    (&PRODUCT, None, &[16, 16, 0], 1, 1, 0),
    (&DECIMAL, None, b"300", 1, 1, 0),
    (&DECIMAL, None, b"999", 1, 1, 0),
    // conditions that hold of each choice, and three groups of one input, of which two are wide
    (&THREE_TIMES, None, &[1, 2, 3], 0, 1, 0),
    (&THREE_TIMES, None, &[200, 0, 77], 0, 1, 0),
    (&THREE_TIMES, None, &[1, 2, 3], 1, 1, 0),
    (&THREE_TIMES, None, &[200, 0, 77], 1, 1, 0),
    (
        &TWO_TRIPLES_AND_A_BYTE,
        None,
        &[50, 1, 20, 2, 30, 200, 9],
        0,
        3,
        0,
    ),
    (
        &TWO_TRIPLES_AND_A_BYTE,
        None,
        &[100, 0, 0, 0, 0, 255, 0],
        0,
        3,
        0,
    ),
    (
        &TWO_TRIPLES_AND_A_BYTE,
        None,
        &[50, 1, 20, 2, 30, 200, 9],
        1,
        3,
        666,
    ),
    (
        &TWO_TRIPLES_AND_A_BYTE,
        None,
        &[100, 0, 0, 0, 0, 255, 0],
        1,
        3,
        666,
    ),
    // a checksum ties all bytes together
    (&CHECKSUM, None, b"123456789abcdefg", 0, 1, 0),
    (
        &CHECKSUM,
        None,
        &[
            84, 104, 101, 32, 113, 117, 105, 99, 107, 32, 98, 114, 111, 119, 253, 55,
        ],
        0,
        1,
        0,
    ),
    // three bytes that are joined by tests of two at a time
    (
        &JOINED_TRIPLE,
        Some((0x2_0000, 3, 6)),
        &[0xff, 0xff, 0xff],
        0,
        1,
        1,
    ),
    (&JOINED_TRIPLE, Some((0x2_0000, 3, 6)), &[1, 0, 1], 0, 1, 1),
    (
        &JOINED_TRIPLE,
        Some((0x2_0000, 3, 6)),
        &[0xfd, 0xfe, 3],
        0,
        1,
        1,
    ),
    // the input is run: each byte of the word that is fetched is fixed
    (
        &RUN_THE_INPUT,
        Some((0x2_0000, 4, 7)),
        &[0x73, 0, 0x10, 0],
        0,
        4,
        0,
    ),
];

/// What is made of the run of a program's file on an input of at most 65,536 bytes, if it ends in a trap.
fn made_of(alloc: Global, file: &[u8], input: &[u8], seed: u64) -> Result<Option<Made>, Fail> {
    if file.len() > 16_777_216 || input.len() > 65_536 {
        return Ok(None);
    }
    let image = read_image(alloc, file)?;
    let transcript = trace_of(alloc, &image, input, 1_000_000)?;
    match transcript.end {
        End::Trap(_) => Ok(Some(make_report(alloc, &image, file, &transcript, seed, 10_000)?)),
        _ => Ok(None),
    }
}

/// Whether so many groups and conflicts are made of the run of a file.
fn has_counts(
    alloc: Global,
    file: &[u8],
    input: &[u8],
    seed: u64,
    groups: u32,
    conflicts: u64,
) -> Result<bool, Fail> {
    match made_of(alloc, file, input, seed)? {
        Some(made) => Ok(made.groups == groups && made.conflicts == conflicts),
        None => Ok(false),
    }
}

/// Whether a row's program has its groups and conflicts.
fn holds(alloc: Global, row: &Row) -> Result<bool, Fail> {
    let (words, region, input, seed, groups, conflicts) = *row;
    let file = match region {
        Some((base, size, rights)) => {
            program_file(alloc, words, &[zeros(alloc, base, size, rights)])?
        }
        None => program_file(alloc, words, &[])?,
    };
    has_counts(alloc, file.as_slice(), input, seed, groups, conflicts)
}

/// The number of the first row that doesn't hold.
fn first_wrong(alloc: Global) -> Result<Option<usize>, Fail> {
    let mut number = 0usize;
    for row in &ROWS {
        if !holds(alloc, row)? {
            return Ok(Some(number));
        }
        number = number.saturating_add(1);
    }
    Ok(None)
}

#[test]
fn groups_and_conflicts(rt: HostRuntime) -> Result<(), Fail> {
    assert_eq!(rt; first_wrong(rt.alloc())?, None);
    Ok(())
}

/// Whether there is no group where the one word of a program stands for no instruction.
fn an_illegal_word_has_no_group(alloc: Global) -> Result<bool, Fail> {
    let mut file = program_file(alloc, &[EBREAK], &[])?.into_vec();
    file.truncate(84);
    file.extend_from_slice(&[0; 4])?;
    has_counts(alloc, file.as_slice(), &[], 0, 0, 0)
}

#[test]
fn a_word_that_is_illegal(rt: HostRuntime) -> Result<(), Fail> {
    assert!(rt; an_illegal_word_has_no_group(rt.alloc())?);
    Ok(())
}
