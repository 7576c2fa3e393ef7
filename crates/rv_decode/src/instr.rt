//! Instructions.

use rv_word::AluOp;

/// The condition of a branch, on the values of its two source registers.
#[derive(Clone, Copy, Debug, PartialEq, Eq)]
pub enum Cond {
    /// BEQ: they are equal.
    Eq,
    /// BNE: they are not equal.
    Ne,
    /// BLT: the first is less than the second, both signed.
    Lt,
    /// BGE: the first is not less than the second, both signed.
    Ge,
    /// BLTU: the first is less than the second, both unsigned.
    Ltu,
    /// BGEU: the first is not less than the second, both unsigned.
    Geu,
}

/// What a load or a store moves.
#[derive(Clone, Copy, Debug, PartialEq, Eq)]
pub enum Width {
    /// One byte; a load extends it by its sign.
    B,
    /// Two bytes; a load extends them by their sign.
    H,
    /// Four bytes.
    W,
    /// One byte, which a load extends by zeros. No store has this width.
    Bu,
    /// Two bytes, which a load extends by zeros. No store has this width.
    Hu,
}

/// An instruction. A register is its number, from 0 to 31. An immediate or an offset is the
/// number that is added, compared or put into a register, in full and with its sign.
#[derive(Clone, Copy, Debug, PartialEq, Eq)]
pub enum Instr {
    /// LUI: `imm`, a multiple of 4096, into `rd`.
    Lui {
        rd: u8,
        imm: i32,
    },
    /// AUIPC: the program counter plus `imm`, a multiple of 4096, into `rd`.
    Auipc {
        rd: u8,
        imm: i32,
    },
    /// JAL: a jump by `offset` bytes, even, from -2^20 up to 2^20 - 2.
    Jal {
        rd: u8,
        offset: i32,
    },
    /// JALR: a jump to the value of `rs1` plus `imm`, from -2048 up to 2047.
    Jalr {
        rd: u8,
        rs1: u8,
        imm: i32,
    },
    /// BEQ, BNE, BLT, BGE, BLTU, BGEU: a jump by `offset` bytes, even, from -4096 up to 4094,
    /// where the condition holds of `rs1` and `rs2`.
    Branch {
        cond: Cond,
        rs1: u8,
        rs2: u8,
        offset: i32,
    },
    /// LB, LH, LW, LBU, LHU: from the value of `rs1` plus `imm`, from -2048 up to 2047.
    Load {
        width: Width,
        rd: u8,
        rs1: u8,
        imm: i32,
    },
    /// SB, SH, SW: the low bytes of `rs2` to the value of `rs1` plus `imm`, from -2048 up to 2047.
    Store {
        width: Width,
        rs1: u8,
        rs2: u8,
        imm: i32,
    },
    /// ADDI, SLTI, SLTIU, XORI, ORI, ANDI with `imm` from -2048 up to 2047; SLLI, SRLI, SRAI with
    /// `imm` from 0 up to 31. The standard has no other operation on a register and an immediate.
    AluImm {
        op: AluOp,
        rd: u8,
        rs1: u8,
        imm: i32,
    },
    /// ADD to AND, and MUL to REMU: an operation on two registers.
    AluReg {
        op: AluOp,
        rd: u8,
        rs1: u8,
        rs2: u8,
    },
    /// FENCE and FENCE.I. `bits` is the whole word, since its other fields are kept for later use.
    Fence {
        bits: u32,
    },
    /// ECALL.
    Ecall,
    /// EBREAK.
    Ebreak,
}
