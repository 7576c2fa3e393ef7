//! Instruction words as GNU as assembles them, with their meaning as GNU objdump tells it
//! (binutils 2.40, for `rv32im_zifencei`; the words that are no instruction of it for
//! `rv64gc_zba_zbb_zbs`).

use rv_decode::{Cond, Width};
use rv_word::AluOp;

/// LUI: word, rd, immediate.
pub(crate) const LUI: [(u32, u8, i32); 5] = [
    (0x0000_0037, 0, 0), // lui x0,0x0
    (0x0000_10b7, 1, 4096), // lui x1,0x1
    (0x1234_5537, 10, 305418240), // lui x10,0x12345
    (0xffff_ffb7, 31, -4096), // lui x31,0xfffff
    (0x8000_08b7, 17, -2147483648), // lui x17,0x80000
];

/// AUIPC: word, rd, immediate.
pub(crate) const AUIPC: [(u32, u8, i32); 4] = [
    (0x0000_0017, 0, 0), // auipc x0,0x0
    (0x7fff_f297, 5, 2147479552), // auipc x5,0x7ffff
    (0x8000_0797, 15, -2147483648), // auipc x15,0x80000
    (0xffff_ff97, 31, -4096), // auipc x31,0xfffff
];

/// JAL: word, rd, offset.
pub(crate) const JAL: [(u32, u8, i32); 8] = [
    (0x0000_006f, 0, 0), // jal x0,.+0
    (0x0080_00ef, 1, 8), // jal x1,.+8
    (0xffdf_f0ef, 1, -4), // jal x1,.-4
    (0x7fff_ffef, 31, 1048574), // jal x31,.+1048574
    (0x8000_016f, 2, -1048576), // jal x2,.-1048576
    (0x0010_02ef, 5, 2048), // jal x5,.+2048
    (0x0000_136f, 6, 4096), // jal x6,.+4096
    (0x6aaa_a3ef, 7, 698026), // jal x7,.+698026
];

/// JALR: word, rd, rs1, immediate.
pub(crate) const JALR: [(u32, u8, u8, i32); 4] = [
    (0x0000_8067, 0, 1, 0), // jalr x0,0(x1)
    (0x004f_80e7, 1, 31, 4), // jalr x1,4(x31)
    (0x8002_8fe7, 31, 5, -2048), // jalr x31,-2048(x5)
    (0x7ff0_03e7, 7, 0, 2047), // jalr x7,2047(x0)
];

/// Branches: word, condition, rs1, rs2, offset.
pub(crate) const BRANCHES: [(u32, Cond, u8, u8, i32); 13] = [
    (0x0000_0063, Cond::Eq, 0, 0, 0), // beq x0,x0,.+0
    (0x01f0_8463, Cond::Eq, 1, 31, 8), // beq x1,x31,.+8
    (0x80b5_0063, Cond::Eq, 10, 11, -4096), // beq x10,x11,.-4096
    (0x7e62_9fe3, Cond::Ne, 5, 6, 4094), // bne x5,x6,.+4094
    (0xfe1f_9fe3, Cond::Ne, 31, 1, -2), // bne x31,x1,.-2
    (0x0083_c0e3, Cond::Lt, 7, 8, 2048), // blt x7,x8,.+2048
    (0x8008_40e3, Cond::Lt, 16, 0, -2048), // blt x16,x0,.-2048
    (0x4100_5063, Cond::Ge, 0, 16, 1024), // bge x0,x16,.+1024
    (0x00a4_df63, Cond::Ge, 9, 10, 30), // bge x9,x10,.+30
    (0xfec5_e1e3, Cond::Ltu, 11, 12, -30), // bltu x11,x12,.-30
    (0x01ef_e163, Cond::Ltu, 31, 30, 2), // bltu x31,x30,.+2
    (0x2ae6_f5e3, Cond::Geu, 13, 14, 2730), // bgeu x13,x14,.+2730
    (0xaa31_75e3, Cond::Geu, 2, 3, -1366), // bgeu x2,x3,.-1366
];

/// Loads: word, width, rd, rs1, immediate.
pub(crate) const LOADS: [(u32, Width, u8, u8, i32); 11] = [
    (0x0000_0003, Width::B, 0, 0, 0), // lb x0,0(x0)
    (0x7ff1_0283, Width::B, 5, 2, 2047), // lb x5,2047(x2)
    (0xffff_8f83, Width::B, 31, 31, -1), // lb x31,-1(x31)
    (0x8003_9303, Width::H, 6, 7, -2048), // lh x6,-2048(x7)
    (0x0100_9403, Width::H, 8, 1, 16), // lh x8,16(x1)
    (0x0045_2483, Width::W, 9, 10, 4), // lw x9,4(x10)
    (0xaaa8_af83, Width::W, 31, 17, -1366), // lw x31,-1366(x17)
    (0x0011_4083, Width::Bu, 1, 2, 1), // lbu x1,1(x2)
    (0xffba_ca03, Width::Bu, 20, 21, -5), // lbu x20,-5(x21)
    (0x0022_5183, Width::Hu, 3, 4, 2), // lhu x3,2(x4)
    (0x555e_df03, Width::Hu, 30, 29, 1365), // lhu x30,1365(x29)
];

/// Stores: word, width, rs1, rs2, immediate.
pub(crate) const STORES: [(u32, Width, u8, u8, i32); 8] = [
    (0x0000_0023, Width::B, 0, 0, 0), // sb x0,0(x0)
    (0x0051_0fa3, Width::B, 2, 5, 31), // sb x5,31(x2)
    (0xfff0_8fa3, Width::B, 1, 31, -1), // sb x31,-1(x1)
    (0x0263_9023, Width::H, 7, 6, 32), // sh x6,32(x7)
    (0x808f_9023, Width::H, 31, 8, -2048), // sh x8,-2048(x31)
    (0x7e95_2fa3, Width::W, 10, 9, 2047), // sw x9,2047(x10)
    (0xaa18_2523, Width::W, 16, 1, -1366), // sw x1,-1366(x16)
    (0x0100_2223, Width::W, 0, 16, 4), // sw x16,4(x0)
];

/// Operations on a register and an immediate: word, operation, rd, rs1, immediate.
pub(crate) const IMMEDIATES: [(u32, AluOp, u8, u8, i32); 24] = [
    (0x0000_0013, AluOp::Add, 0, 0, 0), // addi x0,x0,0
    (0x0010_0093, AluOp::Add, 1, 0, 1), // addi x1,x0,1
    (0xff01_0113, AluOp::Add, 2, 2, -16), // addi x2,x2,-16
    (0x7ff7_8f93, AluOp::Add, 31, 15, 2047), // addi x31,x15,2047
    (0x8000_0893, AluOp::Add, 17, 0, -2048), // addi x17,x0,-2048
    (0x0052_2193, AluOp::Slt, 3, 4, 5), // slti x3,x4,5
    (0xfff3_2293, AluOp::Slt, 5, 6, -1), // slti x5,x6,-1
    (0x0014_3393, AluOp::Sltu, 7, 8, 1), // sltiu x7,x8,1
    (0xfff5_3493, AluOp::Sltu, 9, 10, -1), // sltiu x9,x10,-1
    (0xfff6_4593, AluOp::Xor, 11, 12, -1), // xori x11,x12,-1
    (0x5557_4693, AluOp::Xor, 13, 14, 1365), // xori x13,x14,1365
    (0x0078_6793, AluOp::Or, 15, 16, 7), // ori x15,x16,7
    (0x8009_6893, AluOp::Or, 17, 18, -2048), // ori x17,x18,-2048
    (0x0ffa_7993, AluOp::And, 19, 20, 255), // andi x19,x20,255
    (0xf00b_7a93, AluOp::And, 21, 22, -256), // andi x21,x22,-256
    (0x0000_1013, AluOp::Sll, 0, 0, 0), // slli x0,x0,0x0
    (0x01fc_1b93, AluOp::Sll, 23, 24, 31), // slli x23,x24,0x1f
    (0x0103_1293, AluOp::Sll, 5, 6, 16), // slli x5,x6,0x10
    (0x000d_5c93, AluOp::Srl, 25, 26, 0), // srli x25,x26,0x0
    (0x01fe_5d93, AluOp::Srl, 27, 28, 31), // srli x27,x28,0x1f
    (0x0011_5093, AluOp::Srl, 1, 2, 1), // srli x1,x2,0x1
    (0x400f_5e93, AluOp::Sra, 29, 30, 0), // srai x29,x30,0x0
    (0x41f0_df93, AluOp::Sra, 31, 1, 31), // srai x31,x1,0x1f
    (0x4112_5193, AluOp::Sra, 3, 4, 17), // srai x3,x4,0x11
];

/// Operations on two registers: word, operation, rd, rs1, rs2.
pub(crate) const REGISTERS: [(u32, AluOp, u8, u8, u8); 37] = [
    (0x0000_0033, AluOp::Add, 0, 0, 0), // add x0,x0,x0
    (0x0031_00b3, AluOp::Add, 1, 2, 3), // add x1,x2,x3
    (0x01df_0fb3, AluOp::Add, 31, 30, 29), // add x31,x30,x29
    (0x4062_8233, AluOp::Sub, 4, 5, 6), // sub x4,x5,x6
    (0x410f_8033, AluOp::Sub, 0, 31, 16), // sub x0,x31,x16
    (0x0094_13b3, AluOp::Sll, 7, 8, 9), // sll x7,x8,x9
    (0x01f0_1fb3, AluOp::Sll, 31, 0, 31), // sll x31,x0,x31
    (0x00c5_a533, AluOp::Slt, 10, 11, 12), // slt x10,x11,x12
    (0x0088_20b3, AluOp::Slt, 1, 16, 8), // slt x1,x16,x8
    (0x00f7_36b3, AluOp::Sltu, 13, 14, 15), // sltu x13,x14,x15
    (0x0060_32b3, AluOp::Sltu, 5, 0, 6), // sltu x5,x0,x6
    (0x0128_c833, AluOp::Xor, 16, 17, 18), // xor x16,x17,x18
    (0x01ff_cfb3, AluOp::Xor, 31, 31, 31), // xor x31,x31,x31
    (0x015a_59b3, AluOp::Srl, 19, 20, 21), // srl x19,x20,x21
    (0x0082_5133, AluOp::Srl, 2, 4, 8), // srl x2,x4,x8
    (0x418b_db33, AluOp::Sra, 22, 23, 24), // sra x22,x23,x24
    (0x4044_5833, AluOp::Sra, 16, 8, 4), // sra x16,x8,x4
    (0x01bd_6cb3, AluOp::Or, 25, 26, 27), // or x25,x26,x27
    (0x0000_e033, AluOp::Or, 0, 1, 0), // or x0,x1,x0
    (0x01ee_fe33, AluOp::And, 28, 29, 30), // and x28,x29,x30
    (0x0100_ffb3, AluOp::And, 31, 1, 16), // and x31,x1,x16
    (0x0231_00b3, AluOp::Mul, 1, 2, 3), // mul x1,x2,x3
    (0x0208_0fb3, AluOp::Mul, 31, 16, 0), // mul x31,x16,x0
    (0x0262_9233, AluOp::Mulh, 4, 5, 6), // mulh x4,x5,x6
    (0x021f_9833, AluOp::Mulh, 16, 31, 1), // mulh x16,x31,x1
    (0x0294_23b3, AluOp::Mulhsu, 7, 8, 9), // mulhsu x7,x8,x9
    (0x03f0_a033, AluOp::Mulhsu, 0, 1, 31), // mulhsu x0,x1,x31
    (0x02c5_b533, AluOp::Mulhu, 10, 11, 12), // mulhu x10,x11,x12
    (0x0277_bf33, AluOp::Mulhu, 30, 15, 7), // mulhu x30,x15,x7
    (0x02f7_46b3, AluOp::Div, 13, 14, 15), // div x13,x14,x15
    (0x03f0_40b3, AluOp::Div, 1, 0, 31), // div x1,x0,x31
    (0x0328_d833, AluOp::Divu, 16, 17, 18), // divu x16,x17,x18
    (0x0224_5fb3, AluOp::Divu, 31, 8, 2), // divu x31,x8,x2
    (0x035a_69b3, AluOp::Rem, 19, 20, 21), // rem x19,x20,x21
    (0x02b5_6533, AluOp::Rem, 10, 10, 11), // rem x10,x10,x11
    (0x038b_fb33, AluOp::Remu, 22, 23, 24), // remu x22,x23,x24
    (0x026f_f2b3, AluOp::Remu, 5, 31, 6), // remu x5,x31,x6
];

/// Fences.
pub(crate) const FENCES: [u32; 6] = [
    0x0ff0_000f, // fence iorw,iorw
    0x0310_000f, // fence rw,w
    0x0230_000f, // fence r,rw
    0x8330_000f, // fence.tso
    0x0840_000f, // fence i,o
    0x0000_100f, // fence.i
];

/// Two instructions of the extension C each.
const COMPRESSED: [u32; 6] = [
    0x0001_0001, // c.addi x0,0; c.addi x0,0
    0x8082_4505, // c.li x10,1; c.jr x1
    0xc0c0_4080, // c.lw x8,0(x9); c.sw x8,4(x9)
    0x831e_12fd, // c.addi x5,-1; c.mv x6,x7
    0x952e_9002, // c.ebreak; c.add x10,x11
    0xc001_a001, // c.j 14; c.beqz x8,16
];

/// Instructions of the extensions F and D.
const FLOATING: [u32; 10] = [
    0x0001_2087, // flw f1,0(x2)
    0x0011_2227, // fsw f1,4(x2)
    0x0082_3187, // fld f3,8(x4)
    0x0032_3827, // fsd f3,16(x4)
    0x0031_70d3, // fadd.s f1,f2,f3
    0x1262_f253, // fmul.d f4,f5,f6
    0x2031_70c3, // fmadd.s f1,f2,f3,f4
    0xc003_72d3, // fcvt.w.s x5,f6
    0xe004_03d3, // fmv.x.w x7,f8
    0xa0b5_24d3, // feq.s x9,f10,f11
];

/// Instructions of the extension A.
const ATOMIC: [u32; 4] = [
    0x1001_20af, // lr.w x1,(x2)
    0x1842_a1af, // sc.w x3,x4,(x5)
    0x0074_232f, // amoadd.w x6,x7,(x8)
    0x08a5_a4af, // amoswap.w x9,x10,(x11)
];

/// System instructions but ECALL and EBREAK, and words that differ from these in one field.
const SYSTEM: [u32; 15] = [
    0x3001_10f3, // csrrw x1,mstatus,x2
    0xc000_21f3, // csrrs x3,cycle,x0
    0x3042_b273, // csrrc x4,mie,x5
    0x3403_d373, // csrrwi x6,mscratch,7
    0x3444_e473, // csrrsi x8,mip,9
    0x0035_f573, // csrrci x10,fcsr,11
    0x1050_0073, // wfi
    0x3020_0073, // mret
    0x1020_0073, // sret
    0x1200_0073, // sfence.vma x0,x0
    0x0000_00f3, // .insn i 0x73, 0, x1, x0, 0
    0x0010_00f3, // .insn i 0x73, 0, x1, x0, 1
    0x0010_8073, // .insn i 0x73, 0, x0, x1, 1
    0x0020_0073, // .insn i 0x73, 0, x0, x0, 2
    0x0000_4073, // .insn i 0x73, 4, x0, x0, 0
];

/// Instructions of RV64 and of Zba, Zbb and Zbs, and words with a funct7, a funct3 or an opcode that RV32IM has not.
const OTHER: [u32; 39] = [
    0x0081_3083, // ld x1,8(x2)
    0x0042_6183, // lwu x3,4(x4)
    0x0053_3823, // sd x5,16(x6)
    0x0094_039b, // addiw x7,x8,9
    0x00c5_853b, // addw x10,x11,x12
    0x40f7_06bb, // subw x13,x14,x15
    0x0328_883b, // mulw x16,x17,x18
    0x0201_1093, // slli x1,x2,0x20
    0x0212_5193, // srli x3,x4,0x21
    0x43f3_5293, // srai x5,x6,0x3f
    0x4031_70b3, // andn x1,x2,x3
    0x4062_e233, // orn x4,x5,x6
    0x4094_43b3, // xnor x7,x8,x9
    0x20c5_a533, // sh1add x10,x11,x12
    0x60f7_16b3, // rol x13,x14,x15
    0x6008_9813, // clz x16,x17
    0x2949_9913, // bseti x18,x19,0x14
    0x0b7b_6ab3, // max x21,x22,x23
    0x0431_00b3, // .insn r 0x33, 0, 2, x1, x2, x3
    0x4231_00b3, // .insn r 0x33, 0, 0x21, x1, x2, x3
    0x4062_9233, // .insn r 0x33, 1, 0x20, x4, x5, x6
    0x4094_33b3, // .insn r 0x33, 3, 0x20, x7, x8, x9
    0x80c5_d533, // .insn r 0x33, 5, 0x40, x10, x11, x12
    0x4031_1093, // .insn r 0x13, 1, 0x20, x1, x2, x3
    0x2062_d213, // .insn r 0x13, 5, 0x10, x4, x5, x6
    0x0294_1393, // .insn r 0x13, 1, 1, x7, x8, x9
    0x0001_10e7, // .insn i 0x67, 1, x1, x2, 0
    0x0041_70e7, // .insn i 0x67, 7, x1, x2, 4
    0x0001_7083, // .insn i 0x03, 7, x1, 0(x2)
    0x0011_4023, // .insn s 0x23, 4, x1, 0(x2)
    0x0011_7423, // .insn s 0x23, 7, x1, 8(x2)
    0x0020_a463, // .insn sb 0x63, 2, x1, x2, .+8
    0xfe20_bce3, // .insn sb 0x63, 3, x1, x2, .-8
    0x0000_200f, // .insn i 0x0f, 2, x0, x0, 0
    0x0000_700f, // .insn i 0x0f, 7, x0, x0, 0
    0x0031_008b, // .insn r 0x0b, 0, 0, x1, x2, x3
    0x0031_00db, // .insn r 0x5b, 0, 0, x1, x2, x3
    0x0000_0000, // .word 0x00000000
    0xffff_ffff, // .word 0xffffffff
];

/// Words that are no instruction of RV32IM.
pub(crate) const ILLEGAL: [&[u32]; 5] = [&COMPRESSED, &FLOATING, &ATOMIC, &SYSTEM, &OTHER];
