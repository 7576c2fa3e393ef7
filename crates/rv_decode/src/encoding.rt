//! From an instruction to its word.

ghost use Rattle.std.specs.Prelude.{◌≡◌, ℕ, ◌<◌, ◌^◌, Some};
ghost use Rattle.rv_decode.specs.Fields.{opcode_of, rd_of, funct3_of, rs1_of, rs2_of, funct7_of, i_immediate};
ghost use Rattle.rv_decode.specs.Fields.{s_immediate, b_offset, u_immediate, j_offset};
ghost use Rattle.rv_decode.specs.Table.{decoded};
ghost use Rattle.rv_decode.specs.Opcodes.{condition_of, load_width_of, store_width_of, register_op_of, branch_of};
ghost use Rattle.rv_decode.specs.Opcodes.{load_of, store_of, alu_immediate_of, alu_register_of, instruction_of};
ghost use Rattle.rv_decode.specs.Rows.{IsWithin, IsMultiple, IsStored, IsImmediate, IsWellFormed};

use crate::fields::field;
use crate::instr::{Cond, Instr, Width};
use rv_word::AluOp;

/// The word of format R.
fn r_word(opcode: u32, rd: u8, funct3: u32, rs1: u8, rs2: u8, funct7: u32) -> u32
    requires opcode { opcode < 2 ^ 7 }
    requires rd { rd < 2 ^ 5 }
    requires funct3 { funct3 < 2 ^ 3 }
    requires rs1 { rs1 < 2 ^ 5 }
    requires rs2 { rs2 < 2 ^ 5 }
    requires funct7 { funct7 < 2 ^ 7 }
    ensures opcode { opcode_of result ≡ opcode }
    ensures rd { rd_of result ≡ rd }
    ensures funct3 { funct3_of result ≡ funct3 }
    ensures rs1 { rs1_of result ≡ rs1 }
    ensures rs2 { rs2_of result ≡ rs2 }
    ensures funct7 { funct7_of result ≡ funct7 }
{
    let low = opcode + (u32::from(rd) << 7) + (funct3 << 12) + (u32::from(rs1) << 15);
    low + (u32::from(rs2) << 20) + (funct7 << 25)
}

/// The word of format I.
fn i_word(opcode: u32, rd: u8, funct3: u32, rs1: u8, imm: i32) -> u32
    requires opcode { opcode < 2 ^ 7 }
    requires rd { rd < 2 ^ 5 }
    requires funct3 { funct3 < 2 ^ 3 }
    requires rs1 { rs1 < 2 ^ 5 }
    requires imm { IsWithin 2048 imm }
    ensures opcode { opcode_of result ≡ opcode }
    ensures rd { rd_of result ≡ rd }
    ensures funct3 { funct3_of result ≡ funct3 }
    ensures rs1 { rs1_of result ≡ rs1 }
    ensures imm { i_immediate result ≡ imm }
{
    let low = opcode + (u32::from(rd) << 7) + (funct3 << 12) + (u32::from(rs1) << 15);
    low + (field(imm.cast_unsigned(), 0, 12) << 20)
}

/// The word of format B.
fn b_word(opcode: u32, funct3: u32, rs1: u8, rs2: u8, offset: i32) -> u32
    requires opcode { opcode < 2 ^ 7 }
    requires funct3 { funct3 < 2 ^ 3 }
    requires rs1 { rs1 < 2 ^ 5 }
    requires rs2 { rs2 < 2 ^ 5 }
    requires offset { IsWithin 4096 offset }
    requires even { IsMultiple 2 offset }
    ensures opcode { opcode_of result ≡ opcode }
    ensures funct3 { funct3_of result ≡ funct3 }
    ensures rs1 { rs1_of result ≡ rs1 }
    ensures rs2 { rs2_of result ≡ rs2 }
    ensures offset { b_offset result ≡ offset }
{
    let bits = offset.cast_unsigned();
    let low = opcode + (field(bits, 11, 1) << 7) + (field(bits, 1, 4) << 8);
    let middle = (funct3 << 12) + (u32::from(rs1) << 15) + (u32::from(rs2) << 20);
    low + middle + (field(bits, 5, 6) << 25) + (field(bits, 12, 1) << 31)
}

/// The word of format U.
fn u_word(opcode: u32, rd: u8, imm: i32) -> u32
    requires opcode { opcode < 2 ^ 7 }
    requires rd { rd < 2 ^ 5 }
    requires imm { IsMultiple 4096 imm }
    ensures opcode { opcode_of result ≡ opcode }
    ensures rd { rd_of result ≡ rd }
    ensures imm { u_immediate result ≡ imm }
{
    opcode + (u32::from(rd) << 7) + imm.cast_unsigned()
}

/// The word of format J.
fn j_word(opcode: u32, rd: u8, offset: i32) -> u32
    requires opcode { opcode < 2 ^ 7 }
    requires rd { rd < 2 ^ 5 }
    requires offset { IsWithin (2 ^ 20) offset }
    requires even { IsMultiple 2 offset }
    ensures opcode { opcode_of result ≡ opcode }
    ensures rd { rd_of result ≡ rd }
    ensures offset { j_offset result ≡ offset }
{
    let bits = offset.cast_unsigned();
    let low = opcode + (u32::from(rd) << 7) + (field(bits, 12, 8) << 12);
    low + (field(bits, 11, 1) << 20) + (field(bits, 1, 10) << 21) + (field(bits, 20, 1) << 31)
}

/// The word of format S.
fn s_word(opcode: u32, funct3: u32, rs1: u8, rs2: u8, imm: i32) -> u32
    requires opcode { opcode < 2 ^ 7 }
    requires funct3 { funct3 < 2 ^ 3 }
    requires rs1 { rs1 < 2 ^ 5 }
    requires rs2 { rs2 < 2 ^ 5 }
    requires imm { IsWithin 2048 imm }
    ensures opcode { opcode_of result ≡ opcode }
    ensures funct3 { funct3_of result ≡ funct3 }
    ensures rs1 { rs1_of result ≡ rs1 }
    ensures rs2 { rs2_of result ≡ rs2 }
    ensures imm { s_immediate result ≡ imm }
{
    let bits = imm.cast_unsigned();
    let low = opcode + (field(bits, 0, 5) << 7) + (funct3 << 12);
    let high = (u32::from(rs2) << 20) + (field(bits, 5, 7) << 25);
    low + (u32::from(rs1) << 15) + high
}

/// The funct3 of a branch.
fn condition_code(cond: Cond) -> u32
    ensures small { result < 8 }
    ensures row { condition_of result ≡ Some cond }
{
    match cond {
        Cond::Eq => 0,
        Cond::Ne => 1,
        Cond::Lt => 4,
        Cond::Ge => 5,
        Cond::Ltu => 6,
        Cond::Geu => 7,
    }
}

/// The funct3 of a load.
fn load_code(width: Width) -> u32
    ensures small { result < 8 }
    ensures row { load_width_of result ≡ Some width }
{
    match width {
        Width::B => 0,
        Width::H => 1,
        Width::W => 2,
        Width::Bu => 4,
        Width::Hu => 5,
    }
}

/// The funct3 of a store.
fn store_code(width: Width) -> u32
    requires { IsStored width }
    ensures small { result < 8 }
    ensures row { store_width_of result ≡ Some width }
{
    load_code(width)
}

/// The funct7 and the funct3 of an operation on two registers.
fn register_code(op: AluOp) -> (u32, u32)
    ensures high { result.0 < 128 }
    ensures low { result.1 < 8 }
    ensures row { register_op_of result.0 result.1 ≡ Some op }
{
    match op {
        AluOp::Add => (0, 0),
        AluOp::Sll => (0, 1),
        AluOp::Slt => (0, 2),
        AluOp::Sltu => (0, 3),
        AluOp::Xor => (0, 4),
        AluOp::Srl => (0, 5),
        AluOp::Or => (0, 6),
        AluOp::And => (0, 7),
        AluOp::Sub => (0x20, 0),
        AluOp::Sra => (0x20, 5),
        AluOp::Mul => (1, 0),
        AluOp::Mulh => (1, 1),
        AluOp::Mulhsu => (1, 2),
        AluOp::Mulhu => (1, 3),
        AluOp::Div => (1, 4),
        AluOp::Divu => (1, 5),
        AluOp::Rem => (1, 6),
        AluOp::Remu => (1, 7),
    }
}

/// The word of a branch.
#[tactic(auto, unfolding(crate::specs::Opcodes::branch_of))]
fn branch_word(cond: Cond, rs1: u8, rs2: u8, offset: i32) -> u32
    requires rs1 { rs1 < 32 }
    requires rs2 { rs2 < 32 }
    requires offset { IsWithin 4096 offset }
    requires even { IsMultiple 2 offset }
    ensures opcode { opcode_of result ≡ 0x63 }
    ensures row { branch_of result ≡ Some (Instr.Branch cond rs1 rs2 offset) }
{
    b_word(0x63, condition_code(cond), rs1, rs2, offset)
}

/// The word of a load.
#[tactic(auto, unfolding(crate::specs::Opcodes::load_of))]
fn load_word(width: Width, rd: u8, rs1: u8, imm: i32) -> u32
    requires rd { rd < 32 }
    requires rs1 { rs1 < 32 }
    requires imm { IsWithin 2048 imm }
    ensures opcode { opcode_of result ≡ 0x03 }
    ensures row { load_of result ≡ Some (Instr.Load width rd rs1 imm) }
{
    i_word(0x03, rd, load_code(width), rs1, imm)
}

/// The word of a store.
#[tactic(auto, unfolding(crate::specs::Opcodes::store_of))]
fn store_word(width: Width, rs1: u8, rs2: u8, imm: i32) -> u32
    requires width { IsStored width }
    requires rs1 { rs1 < 32 }
    requires rs2 { rs2 < 32 }
    requires imm { IsWithin 2048 imm }
    ensures opcode { opcode_of result ≡ 0x23 }
    ensures row { store_of result ≡ Some (Instr.Store width rs1 rs2 imm) }
{
    s_word(0x23, store_code(width), rs1, rs2, imm)
}

/// The word of an operation on a register and an immediate.
#[tactic(auto, unfolding(crate::specs::Opcodes::alu_immediate_of))]
fn alu_immediate_word(op: AluOp, rd: u8, rs1: u8, imm: i32) -> u32
    requires rd { rd < 32 }
    requires rs1 { rs1 < 32 }
    requires imm { IsImmediate op imm }
    ensures opcode { opcode_of result ≡ 0x13 }
    ensures row { alu_immediate_of result ≡ Some (Instr.AluImm op rd rs1 imm) }
{
    match op {
        AluOp::Add => i_word(0x13, rd, 0, rs1, imm),
        AluOp::Slt => i_word(0x13, rd, 2, rs1, imm),
        AluOp::Sltu => i_word(0x13, rd, 3, rs1, imm),
        AluOp::Xor => i_word(0x13, rd, 4, rs1, imm),
        AluOp::Or => i_word(0x13, rd, 6, rs1, imm),
        AluOp::And => i_word(0x13, rd, 7, rs1, imm),
        AluOp::Sll => r_word(0x13, rd, 1, rs1, imm as u8, 0),
        AluOp::Srl => r_word(0x13, rd, 5, rs1, imm as u8, 0),
        AluOp::Sra => r_word(0x13, rd, 5, rs1, imm as u8, 0x20),
        _ => unreachable!(),
    }
}

/// The word of an operation on two registers.
#[tactic(auto, unfolding(crate::specs::Opcodes::alu_register_of))]
fn alu_register_word(op: AluOp, rd: u8, rs1: u8, rs2: u8) -> u32
    requires rd { rd < 32 }
    requires rs1 { rs1 < 32 }
    requires rs2 { rs2 < 32 }
    ensures opcode { opcode_of result ≡ 0x33 }
    ensures row { alu_register_of result ≡ Some (Instr.AluReg op rd rs1 rs2) }
{
    let (funct7, funct3) = register_code(op);
    r_word(0x33, rd, funct3, rs1, rs2, funct7)
}

/// The word of an instruction.
#[tactic(auto, unfolding(crate::specs::Opcodes::instruction_of))]
fn word_of(i: &Instr) -> u32
    requires { IsWellFormed i.now }
    ensures { instruction_of result ≡ Some i.now }
{
    match *i {
        Instr::Lui { rd, imm } => u_word(0x37, rd, imm),
        Instr::Auipc { rd, imm } => u_word(0x17, rd, imm),
        Instr::Jal { rd, offset } => j_word(0x6f, rd, offset),
        Instr::Jalr { rd, rs1, imm } => i_word(0x67, rd, 0, rs1, imm),
        Instr::Branch {
            cond,
            rs1,
            rs2,
            offset,
        } => branch_word(cond, rs1, rs2, offset),
        Instr::Load {
            width,
            rd,
            rs1,
            imm,
        } => load_word(width, rd, rs1, imm),
        Instr::Store {
            width,
            rs1,
            rs2,
            imm,
        } => store_word(width, rs1, rs2, imm),
        Instr::AluImm { op, rd, rs1, imm } => alu_immediate_word(op, rd, rs1, imm),
        Instr::AluReg { op, rd, rs1, rs2 } => alu_register_word(op, rd, rs1, rs2),
        Instr::Fence { bits } => bits,
        Instr::Ecall => 0x0000_0073,
        Instr::Ebreak => 0x0010_0073,
    }
}

/// The word of a well-formed instruction: the only one below 2^32 that stands for it. So decoding
/// what `encode` gives is the instruction again, and encoding what [`decode`](crate::decode)
/// answers is the word again.
pub fn encode(i: &Instr) -> u32
    requires well_formed { IsWellFormed i.now }
    ensures row { decoded result ≡ Some i.now }
    ensures only { (word : ℕ) → word < 2 ^ 32 → decoded word ≡ Some i.now → result ≡ word }
{
    word_of(i)
}
