//! From a word to its instruction.

ghost use Rattle.std.specs.Prelude.{◌≡◌, IfSome, IfNone, is_some, if◌then◌else◌};
ghost use Rattle.rv_decode.specs.declared.instr.Instr.{Instr};
ghost use Rattle.rv_decode.specs.Table.{decoded, rows_matched};
ghost use Rattle.rv_decode.specs.Rows.{IsRow, IsWellFormed};
ghost use Rattle.rv_decode.specs.Opcodes.{condition_of, load_width_of, store_width_of, immediate_op_of, shift_of};
ghost use Rattle.rv_decode.specs.Opcodes.{base_op_of, multiply_op_of, register_op_of, branch_of, load_of, store_of};
ghost use Rattle.rv_decode.specs.Opcodes.{alu_immediate_of, alu_register_of, instruction_of};

use crate::fields::{
    b_offset, funct3, funct7, i_immediate, j_offset, opcode, rd, rs1, rs2, s_immediate, u_immediate,
};
use crate::instr::{Cond, Instr, Width};
use rv_word::AluOp;

/// The condition of a branch.
fn condition(funct3: u32) -> Option<Cond>
    ensures { result ≡ condition_of funct3 }
{
    match funct3 {
        0 => Some(Cond::Eq),
        1 => Some(Cond::Ne),
        4 => Some(Cond::Lt),
        5 => Some(Cond::Ge),
        6 => Some(Cond::Ltu),
        7 => Some(Cond::Geu),
        _ => None,
    }
}

/// What a load reads.
fn load_width(funct3: u32) -> Option<Width>
    ensures { result ≡ load_width_of funct3 }
{
    match funct3 {
        0 => Some(Width::B),
        1 => Some(Width::H),
        2 => Some(Width::W),
        4 => Some(Width::Bu),
        5 => Some(Width::Hu),
        _ => None,
    }
}

/// What a store writes.
fn store_width(funct3: u32) -> Option<Width>
    ensures { result ≡ store_width_of funct3 }
{
    match funct3 {
        0 => Some(Width::B),
        1 => Some(Width::H),
        2 => Some(Width::W),
        _ => None,
    }
}

/// The operation on a register and an immediate, but for the shifts.
fn immediate_op(funct3: u32) -> Option<AluOp>
    ensures { result ≡ immediate_op_of funct3 }
{
    match funct3 {
        0 => Some(AluOp::Add),
        2 => Some(AluOp::Slt),
        3 => Some(AluOp::Sltu),
        4 => Some(AluOp::Xor),
        6 => Some(AluOp::Or),
        7 => Some(AluOp::And),
        _ => None,
    }
}

/// The shift by an amount that stands in the word.
fn shift(funct7: u32, funct3: u32) -> Option<AluOp>
    ensures { result ≡ shift_of funct7 funct3 }
{
    match (funct3, funct7) {
        (1, 0) => Some(AluOp::Sll),
        (5, 0) => Some(AluOp::Srl),
        (5, 0x20) => Some(AluOp::Sra),
        _ => None,
    }
}

/// The operation of RV32I on two registers where funct7 is 0.
fn base_op(funct3: u32) -> Option<AluOp>
    ensures { result ≡ base_op_of funct3 }
{
    match funct3 {
        0 => Some(AluOp::Add),
        1 => Some(AluOp::Sll),
        2 => Some(AluOp::Slt),
        3 => Some(AluOp::Sltu),
        4 => Some(AluOp::Xor),
        5 => Some(AluOp::Srl),
        6 => Some(AluOp::Or),
        7 => Some(AluOp::And),
        _ => None,
    }
}

/// The operation of the extension M.
fn multiply_op(funct3: u32) -> Option<AluOp>
    ensures { result ≡ multiply_op_of funct3 }
{
    match funct3 {
        0 => Some(AluOp::Mul),
        1 => Some(AluOp::Mulh),
        2 => Some(AluOp::Mulhsu),
        3 => Some(AluOp::Mulhu),
        4 => Some(AluOp::Div),
        5 => Some(AluOp::Divu),
        6 => Some(AluOp::Rem),
        7 => Some(AluOp::Remu),
        _ => None,
    }
}

/// The operation on two registers.
fn register_op(funct7: u32, funct3: u32) -> Option<AluOp>
    ensures { result ≡ register_op_of funct7 funct3 }
{
    match (funct7, funct3) {
        (0, _) => base_op(funct3),
        (0x20, 0) => Some(AluOp::Sub),
        (0x20, 5) => Some(AluOp::Sra),
        (1, _) => multiply_op(funct3),
        _ => None,
    }
}

/// The branch of a word of opcode 0x63.
#[tactic(auto, unfolding(crate::specs::Opcodes::branch_of))]
fn branch(word: u32) -> Option<Instr>
    ensures { result ≡ branch_of word }
{
    let cond = condition(funct3(word))?;
    Some(Instr::Branch {
        cond,
        rs1: rs1(word),
        rs2: rs2(word),
        offset: b_offset(word),
    })
}

/// The load of a word of opcode 0x03.
#[tactic(auto, unfolding(crate::specs::Opcodes::load_of))]
fn load(word: u32) -> Option<Instr>
    ensures { result ≡ load_of word }
{
    let width = load_width(funct3(word))?;
    Some(Instr::Load {
        width,
        rd: rd(word),
        rs1: rs1(word),
        imm: i_immediate(word),
    })
}

/// The store of a word of opcode 0x23.
#[tactic(auto, unfolding(crate::specs::Opcodes::store_of))]
fn store(word: u32) -> Option<Instr>
    ensures { result ≡ store_of word }
{
    let width = store_width(funct3(word))?;
    Some(Instr::Store {
        width,
        rs1: rs1(word),
        rs2: rs2(word),
        imm: s_immediate(word),
    })
}

/// The operation of a word of opcode 0x13.
#[tactic(auto, unfolding(crate::specs::Opcodes::alu_immediate_of))]
fn alu_immediate(word: u32) -> Option<Instr>
    ensures { result ≡ alu_immediate_of word }
{
    let funct3 = funct3(word);
    let (rd, rs1) = (rd(word), rs1(word));
    if funct3 == 1 || funct3 == 5 {
        let op = shift(funct7(word), funct3)?;
        let imm = i32::from(rs2(word));
        Some(Instr::AluImm { op, rd, rs1, imm })
    } else {
        let op = immediate_op(funct3)?;
        let imm = i_immediate(word);
        Some(Instr::AluImm { op, rd, rs1, imm })
    }
}

/// The operation of a word of opcode 0x33.
#[tactic(auto, unfolding(crate::specs::Opcodes::alu_register_of))]
fn alu_register(word: u32) -> Option<Instr>
    ensures { result ≡ alu_register_of word }
{
    let op = register_op(funct7(word), funct3(word))?;
    Some(Instr::AluReg {
        op,
        rd: rd(word),
        rs1: rs1(word),
        rs2: rs2(word),
    })
}

/// The instruction of a word, by its opcode.
#[tactic(auto, unfolding(crate::specs::Opcodes::instruction_of))]
fn instruction(word: u32) -> Option<Instr>
    ensures { result ≡ instruction_of word }
{
    let (funct3, rd) = (funct3(word), rd(word));
    match opcode(word) {
        0x37 => Some(Instr::Lui {
            rd,
            imm: u_immediate(word),
        }),
        0x17 => Some(Instr::Auipc {
            rd,
            imm: u_immediate(word),
        }),
        0x6f => Some(Instr::Jal {
            rd,
            offset: j_offset(word),
        }),
        0x67 if funct3 == 0 => Some(Instr::Jalr {
            rd,
            rs1: rs1(word),
            imm: i_immediate(word),
        }),
        0x63 => branch(word),
        0x03 => load(word),
        0x23 => store(word),
        0x13 => alu_immediate(word),
        0x33 => alu_register(word),
        0x0f if funct3 < 2 => Some(Instr::Fence { bits: word }),
        0x73 if word == 0x0000_0073 => Some(Instr::Ecall),
        0x73 if word == 0x0010_0073 => Some(Instr::Ebreak),
        _ => None,
    }
}

/// The instruction that a word stands for, by the row of the standard's listing that the word
/// matches. `None` says that no row matches: the word is illegal.
pub fn decode(word: u32) -> Option<Instr>
    ensures value { result ≡ decoded word }
    ensures rows { rows_matched word ≡ (if is_some result then 1 else 0) }
    ensures row { IfSome result (IsRow word) }
    ensures well_formed { IfSome result IsWellFormed }
    ensures none { IfNone result ((i : Instr) → IsRow word i → ⊥) }
{
    instruction(word)
}
