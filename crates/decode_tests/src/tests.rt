//! The instruction table word by word, and the operations at their corners.

use crate::values::{OPERATIONS, RESULTS};
use crate::words::{
    AUIPC, BRANCHES, FENCES, ILLEGAL, IMMEDIATES, JAL, JALR, LOADS, LUI, REGISTERS, STORES,
};
use decode_cache::DecodeCache;
use rv_decode::{Instr, decode, encode};
use rv_word::{alu, byte_of};

/// Whether the word stands for the instruction, and the instruction's word is this one.
fn stands_for(word: u32, expected: Instr) -> bool {
    match decode(word) {
        Some(i) => i == expected && encode(&i) == word,
        None => false,
    }
}

// Each of these is the first word that doesn't stand for its instruction.

fn wrong_upper_immediate() -> Option<u32> {
    for (word, rd, imm) in LUI {
        if !stands_for(word, Instr::Lui { rd, imm }) {
            return Some(word);
        }
    }
    for (word, rd, imm) in AUIPC {
        if !stands_for(word, Instr::Auipc { rd, imm }) {
            return Some(word);
        }
    }
    None
}

fn wrong_jump() -> Option<u32> {
    for (word, rd, offset) in JAL {
        if !stands_for(word, Instr::Jal { rd, offset }) {
            return Some(word);
        }
    }
    for (word, rd, rs1, imm) in JALR {
        if !stands_for(word, Instr::Jalr { rd, rs1, imm }) {
            return Some(word);
        }
    }
    None
}

fn wrong_branch() -> Option<u32> {
    for (word, cond, rs1, rs2, offset) in BRANCHES {
        let expected = Instr::Branch {
            cond,
            rs1,
            rs2,
            offset,
        };
        if !stands_for(word, expected) {
            return Some(word);
        }
    }
    None
}

fn wrong_load_or_store() -> Option<u32> {
    for (word, width, rd, rs1, imm) in LOADS {
        let expected = Instr::Load {
            width,
            rd,
            rs1,
            imm,
        };
        if !stands_for(word, expected) {
            return Some(word);
        }
    }
    for (word, width, rs1, rs2, imm) in STORES {
        let expected = Instr::Store {
            width,
            rs1,
            rs2,
            imm,
        };
        if !stands_for(word, expected) {
            return Some(word);
        }
    }
    None
}

fn wrong_operation() -> Option<u32> {
    for (word, op, rd, rs1, imm) in IMMEDIATES {
        if !stands_for(word, Instr::AluImm { op, rd, rs1, imm }) {
            return Some(word);
        }
    }
    for (word, op, rd, rs1, rs2) in REGISTERS {
        if !stands_for(word, Instr::AluReg { op, rd, rs1, rs2 }) {
            return Some(word);
        }
    }
    None
}

fn wrong_fence_or_call() -> Option<u32> {
    for bits in FENCES {
        if !stands_for(bits, Instr::Fence { bits }) {
            return Some(bits);
        }
    }
    for (word, expected) in [(0x0000_0073, Instr::Ecall), (0x0010_0073, Instr::Ebreak)] {
        if !stands_for(word, expected) {
            return Some(word);
        }
    }
    None
}

/// The first word of all, or the first of an illegal list that stands for an instruction.
fn wrong_word() -> Option<u32> {
    let kinds = [
        wrong_upper_immediate(),
        wrong_jump(),
        wrong_branch(),
        wrong_load_or_store(),
        wrong_operation(),
        wrong_fence_or_call(),
    ];
    for wrong in kinds {
        if wrong.is_some() {
            return wrong;
        }
    }
    None
}

#[test]
fn words_of_instructions(rt: HostRuntime) {
    assert_eq!(rt; wrong_word(), None);
}

/// The first illegal word that stands for an instruction.
fn legal_word() -> Option<u32> {
    for words in ILLEGAL {
        for word in words {
            if decode(*word).is_some() {
                return Some(*word);
            }
        }
    }
    None
}

#[test]
fn illegal_words(rt: HostRuntime) {
    assert_eq!(rt; legal_word(), None);
}

/// Whether each operation makes its value of two words.
fn have_values(a: u32, b: u32, expected: [u32; 18]) -> bool {
    for i in 0..18 {
        if alu(OPERATIONS[i], a, b) != expected[i] {
            return false;
        }
    }
    true
}

/// The first word of the first two of which an operation makes another value.
fn wrong_result() -> Option<u32> {
    for (a, b, expected) in RESULTS {
        if !have_values(a, b, expected) {
            return Some(a);
        }
    }
    None
}

#[test]
fn results(rt: HostRuntime) {
    assert_eq!(rt; wrong_result(), None);
}

/// Whether the bytes of a word are told, the lowest first.
fn are_bytes() -> bool {
    let word = 0x1234_5678;
    byte_of(0, word) == 0x78
        && byte_of(1, word) == 0x56
        && byte_of(2, word) == 0x34
        && byte_of(3, word) == 0x12
}

/// Whether a word that was decoded before is what it was, and another at its address what it is.
fn are_decoded_again() -> bool {
    let mut cache = DecodeCache::new();
    for (address, word, expected) in [
        (0x10000, 0x0010_0073, Some(Instr::Ebreak)),
        (0x10000, 0x0010_0073, Some(Instr::Ebreak)),
        (0x10000, 0x0000_0073, Some(Instr::Ecall)),
        (0x10004, 0, None),
        (0x10000, 0x0000_0073, Some(Instr::Ecall)),
    ] {
        if cache.decode(address, word) != expected {
            return false;
        }
    }
    true
}

#[test]
fn bytes_and_words_decoded_before(rt: HostRuntime) {
    assert!(rt; are_bytes() && are_decoded_again());
}
