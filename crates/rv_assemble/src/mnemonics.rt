//! Instructions by the standard's mnemonics.

ghost use Rattle.std.specs.Prelude.{◌≡◌, ◌<◌, ◌^◌};
ghost use Rattle.rv_assemble.specs.Demo.{lui, addi, sltiu, xori, andi, add, or, lbu, beq, bne};

use rv_decode::{Cond, Instr, Width};
use rv_word::AluOp;

/// LUI of the upper twenty bits.
pub fn lui(rd: u8, upper: u32) -> Instr
    requires { upper < 2 ^ 19 }
    ensures { result ≡ lui rd upper }
{
    Instr::Lui {
        rd,
        imm: (4096 * upper) as i32,
    }
}

pub fn addi(rd: u8, rs1: u8, imm: i32) -> Instr
    ensures { result ≡ addi rd rs1 imm }
{
    let op = AluOp::Add;
    Instr::AluImm { op, rd, rs1, imm }
}

pub fn sltiu(rd: u8, rs1: u8, imm: i32) -> Instr
    ensures { result ≡ sltiu rd rs1 imm }
{
    let op = AluOp::Sltu;
    Instr::AluImm { op, rd, rs1, imm }
}

pub fn xori(rd: u8, rs1: u8, imm: i32) -> Instr
    ensures { result ≡ xori rd rs1 imm }
{
    let op = AluOp::Xor;
    Instr::AluImm { op, rd, rs1, imm }
}

pub fn andi(rd: u8, rs1: u8, imm: i32) -> Instr
    ensures { result ≡ andi rd rs1 imm }
{
    let op = AluOp::And;
    Instr::AluImm { op, rd, rs1, imm }
}

pub fn add(rd: u8, rs1: u8, rs2: u8) -> Instr
    ensures { result ≡ add rd rs1 rs2 }
{
    let op = AluOp::Add;
    Instr::AluReg { op, rd, rs1, rs2 }
}

pub fn or(rd: u8, rs1: u8, rs2: u8) -> Instr
    ensures { result ≡ or rd rs1 rs2 }
{
    let op = AluOp::Or;
    Instr::AluReg { op, rd, rs1, rs2 }
}

/// LBU from the value of `rs1` plus `offset`.
pub fn lbu(rd: u8, offset: i32, rs1: u8) -> Instr
    ensures { result ≡ lbu rd offset rs1 }
{
    Instr::Load {
        width: Width::Bu,
        rd,
        rs1,
        imm: offset,
    }
}

pub fn beq(rs1: u8, rs2: u8, offset: i32) -> Instr
    ensures { result ≡ beq rs1 rs2 offset }
{
    Instr::Branch {
        cond: Cond::Eq,
        rs1,
        rs2,
        offset,
    }
}

pub fn bne(rs1: u8, rs2: u8, offset: i32) -> Instr
    ensures { result ≡ bne rs1 rs2 offset }
{
    Instr::Branch {
        cond: Cond::Ne,
        rs1,
        rs2,
        offset,
    }
}
