//! The instructions of the demonstration programs.

ghost use Rattle.std.specs.Prelude.{◌≡◌, ◌≤◌, ◌<◌, ◌^◌};
ghost use Rattle.rv_assemble.specs.Demo.{hi, lo, single_code, triple_code};

use crate::mnemonics::{add, addi, andi, beq, bne, lbu, lui, or, sltiu, xori};
use rv_decode::Instr;

/// The upper twenty bits, for an ADDI after them.
fn hi(v: u32) -> u32
    requires { v < 2 ^ 20 }
    ensures value { result ≡ hi v }
    ensures small { result ≤ 256 }
{
    (v + 2048) / 4096
}

/// What the ADDI adds, from -2048 up to 2047.
fn lo(v: u32) -> i32
    requires { v < 2 ^ 20 }
    ensures { result ≡ lo v }
{
    v as i32 - 4096 * hi(v) as i32
}

/// Reads `n` bytes and counts those below 128 one by one.
#[tactic(auto, unfolding(crate::specs::Demo::single_code))]
pub fn single_code(n: u32) -> [Instr; 13]
    requires { n ≤ 65536 }
    ensures { result ≡ single_code n }
{
    [
        lui(11, 32),
        lui(12, hi(n)),
        addi(12, 12, lo(n)),
        addi(17, 0, 63),
        Instr::Ecall,
        add(13, 11, 12),
        lbu(5, 0, 11),
        sltiu(6, 5, 128),
        beq(6, 0, 8),
        addi(7, 7, 1),
        addi(11, 11, 1),
        bne(11, 13, -20),
        Instr::Ebreak,
    ]
}

/// Reads `n` bytes and tests the lowest bits of so many groups of three.
#[tactic(auto, unfolding(crate::specs::Demo::triple_code))]
pub fn triple_code(n: u32, groups: u32) -> [Instr; 26]
    requires bytes { n ≤ 65536 }
    requires tested { groups ≤ 65536 }
    ensures { result ≡ triple_code n groups }
{
    [
        lui(11, 32),
        lui(12, hi(n)),
        addi(12, 12, lo(n)),
        addi(17, 0, 63),
        Instr::Ecall,
        lui(13, hi(3 * groups)),
        addi(13, 13, lo(3 * groups)),
        add(13, 11, 13),
        lbu(5, 0, 11),
        lbu(6, 1, 11),
        lbu(7, 2, 11),
        or(8, 5, 6),
        andi(8, 8, 1),
        beq(8, 0, 44),
        xori(9, 6, -1),
        or(8, 5, 9),
        andi(8, 8, 1),
        beq(8, 0, 28),
        or(8, 6, 7),
        andi(8, 8, 1),
        beq(8, 0, 16),
        addi(11, 11, 3),
        bne(11, 13, -56),
        Instr::Ebreak,
        addi(17, 0, 93),
        Instr::Ecall,
    ]
}
