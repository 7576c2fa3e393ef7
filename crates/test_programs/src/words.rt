//! The words of programs that the tests of more than one crate run. Each starts at 00010000.

/// `ebreak`.
pub const EBREAK: u32 = 0x0010_0073;

/// `addi x0,x0,0`, which does nothing.
pub const NOP: u32 = 0x0000_0013;

/// Reads four bytes, and meets an EBREAK where the first is 65. Else it exits with the answer of the read.
pub const COMPARE: [u32; 10] = [
    0x0001_0593, // addi x11,x2,0
    0x0040_0613, // addi x12,x0,4
    0x03f0_0893, // addi x17,x0,63
    0x0000_0073, // ecall
    0x0001_4283, // lbu x5,0(x2)
    0x0410_0313, // addi x6,x0,65
    0x0062_8663, // beq x5,x6,0x10024
    0x05d0_0893, // addi x17,x0,93
    0x0000_0073, // ecall
    0x0010_0073, // ebreak
];

/// Reads a byte, and meets an EBREAK where it is below 10. Else it exits.
pub const BELOW_TEN: [u32; 10] = [
    0x0001_0593, // addi x11,x2,0
    0x0010_0613, // addi x12,x0,1
    0x03f0_0893, // addi x17,x0,63
    0x0000_0073, // ecall
    0x0001_4283, // lbu x5,0(x2)
    0x00a0_0313, // addi x6,x0,10
    0x0062_e663, // bltu x5,x6,0x10024
    0x05d0_0893, // addi x17,x0,93
    0x0000_0073, // ecall
    0x0010_0073, // ebreak
];

/// Reads two bytes, and meets an EBREAK where they add up to 100. Else it exits.
pub const SUM_OF_TWO: [u32; 12] = [
    0x0001_0593, // addi x11,x2,0
    0x0020_0613, // addi x12,x0,2
    0x03f0_0893, // addi x17,x0,63
    0x0000_0073, // ecall
    0x0001_4283, // lbu x5,0(x2)
    0x0011_4303, // lbu x6,1(x2)
    0x0062_83b3, // add x7,x5,x6
    0x0640_0413, // addi x8,x0,100
    0x0083_8663, // beq x7,x8,0x1002c
    0x05d0_0893, // addi x17,x0,93
    0x0000_0073, // ecall
    0x0010_0073, // ebreak
];

/// Reads two bytes, and meets an EBREAK where the first is below the second. Else it exits.
pub const RISING_PAIR: [u32; 10] = [
    0x0001_0593, // addi x11,x2,0
    0x0020_0613, // addi x12,x0,2
    0x03f0_0893, // addi x17,x0,63
    0x0000_0073, // ecall
    0x0001_4283, // lbu x5,0(x2)
    0x0011_4303, // lbu x6,1(x2)
    0x0062_e663, // bltu x5,x6,0x10024
    0x05d0_0893, // addi x17,x0,93
    0x0000_0073, // ecall
    0x0010_0073, // ebreak
];

/// Reads two bytes, and meets an EBREAK where they are equal. Else it exits.
pub const EQUAL_PAIR: [u32; 10] = [
    0x0001_0593, // addi x11,x2,0
    0x0020_0613, // addi x12,x0,2
    0x03f0_0893, // addi x17,x0,63
    0x0000_0073, // ecall
    0x0001_4283, // lbu x5,0(x2)
    0x0011_4303, // lbu x6,1(x2)
    0x0062_8663, // beq x5,x6,0x10024
    0x05d0_0893, // addi x17,x0,93
    0x0000_0073, // ecall
    0x0010_0073, // ebreak
];

/// Reads 64 bytes to a buffer of 28, and returns to what they made of the return address.
pub const OVERFLOW: [u32; 9] = [
    0xfe01_0113, // addi x2,x2,-32
    0x0011_2e23, // sw x1,28(x2)
    0x0001_0593, // addi x11,x2,0
    0x0400_0613, // addi x12,x0,64
    0x03f0_0893, // addi x17,x0,63
    0x0000_0073, // ecall
    0x01c1_2083, // lw x1,28(x2)
    0x0201_0113, // addi x2,x2,32
    0x0000_8067, // jalr x0,0(x1)
];

/// Reads a byte, and meets an EBREAK where 100 divided by it is 2^32 - 1. Else it exits.
pub const DIVIDE: [u32; 12] = [
    0x0001_0593, // addi x11,x2,0
    0x0010_0613, // addi x12,x0,1
    0x03f0_0893, // addi x17,x0,63
    0x0000_0073, // ecall
    0x0001_4283, // lbu x5,0(x2)
    0x0640_0313, // addi x6,x0,100
    0x0253_53b3, // divu x7,x6,x5
    0xfff0_0413, // addi x8,x0,-1
    0x0083_8663, // beq x7,x8,0x1002c
    0x05d0_0893, // addi x17,x0,93
    0x0000_0073, // ecall
    0x0010_0073, // ebreak
];

/// Reads four bytes to 00020000, and jumps there.
pub const RUN_THE_INPUT: [u32; 6] = [
    0x0002_05b7, // lui x11,0x20
    0x0040_0613, // addi x12,x0,4
    0x03f0_0893, // addi x17,x0,63
    0x0000_0073, // ecall
    0x0002_02b7, // lui x5,0x20
    0x0002_8067, // jalr x0,0(x5) # 0x20000
];

/// Reads a byte, and branches to the next instruction, an EBREAK, where it is 0.
pub const BRANCH_TO_THE_NEXT: [u32; 7] = [
    0x0001_0593, // addi x11,x2,0
    0x0010_0613, // addi x12,x0,1
    0x03f0_0893, // addi x17,x0,63
    0x0000_0073, // ecall
    0x0001_4283, // lbu x5,0(x2)
    0x0002_8263, // beq x5,x0,0x10018
    0x0010_0073, // ebreak
];

/// Reads four bytes, and meets an EBREAK where they are the word 12345678. Else it exits.
pub const COMPARE_WORD: [u32; 11] = [
    0x0001_0593, // addi x11,x2,0
    0x0040_0613, // addi x12,x0,4
    0x03f0_0893, // addi x17,x0,63
    0x0000_0073, // ecall
    0x0001_2283, // lw x5,0(x2)
    0x1234_5337, // lui x6,0x12345
    0x6783_0313, // addi x6,x6,1656 # 0x12345678
    0x0062_8663, // beq x5,x6,0x10028
    0x05d0_0893, // addi x17,x0,93
    0x0000_0073, // ecall
    0x0010_0073, // ebreak
];

/// `lw x0,0(x0)`, where there is no memory.
pub const LOAD_X0: [u32; 1] = [
    0x0000_2003, // lw x0,0(x0) # 0x0
];

/// `jalr x0,2(x0)`.
pub const JUMP_TO_TWO: [u32; 1] = [
    0x0020_0067, // jalr x0,2(x0) # 0x2
];

/// Reads twelve bytes, and meets an EBREAK where the fourth is 65 and the eighth is below 16. Else it exits.
pub const MARKED_BYTES: [u32; 13] = [
    0x0001_0593, // addi x11,x2,0
    0x00c0_0613, // addi x12,x0,12
    0x03f0_0893, // addi x17,x0,63
    0x0000_0073, // ecall
    0x0031_4283, // lbu x5,3(x2)
    0x0410_0313, // addi x6,x0,65
    0x0062_9863, // bne x5,x6,0x10028
    0x0071_4283, // lbu x5,7(x2)
    0x0100_0313, // addi x6,x0,16
    0x0062_e663, // bltu x5,x6,0x10030
    0x05d0_0893, // addi x17,x0,93
    0x0000_0073, // ecall
    0x0010_0073, // ebreak
];

/// Reads seven bytes, and meets an EBREAK where the first is the fifth, the second is below the fourth
/// and the sixth is below 10. Else it exits.
pub const PAIRS_AND_A_BYTE: [u32; 16] = [
    0x0001_0593, // addi x11,x2,0
    0x0070_0613, // addi x12,x0,7
    0x03f0_0893, // addi x17,x0,63
    0x0000_0073, // ecall
    0x0001_4283, // lbu x5,0(x2)
    0x0041_4303, // lbu x6,4(x2)
    0x0062_9e63, // bne x5,x6,0x10034
    0x0011_4283, // lbu x5,1(x2)
    0x0031_4303, // lbu x6,3(x2)
    0x0062_f863, // bgeu x5,x6,0x10034
    0x0051_4283, // lbu x5,5(x2)
    0x00a0_0313, // addi x6,x0,10
    0x0062_e663, // bltu x5,x6,0x1003c
    0x05d0_0893, // addi x17,x0,93
    0x0000_0073, // ecall
    0x0010_0073, // ebreak
];

/// Reads three bytes to 00020000, and meets an EBREAK where these lowest bits are 1: of the first or the
/// second, of the first or the second's complement, and of the second or the third. Else it exits.
pub const JOINED_TRIPLE: [u32; 26] = [
    0x0002_05b7, // lui x11,0x20
    0x0000_0637, // lui x12,0x0
    0x0036_0613, // addi x12,x12,3 # 0x3
    0x03f0_0893, // addi x17,x0,63
    0x0000_0073, // ecall
    0x0000_06b7, // lui x13,0x0
    0x0036_8693, // addi x13,x13,3 # 0x3
    0x00d5_86b3, // add x13,x11,x13
    0x0005_c283, // lbu x5,0(x11) # 0x20000
    0x0015_c303, // lbu x6,1(x11)
    0x0025_c383, // lbu x7,2(x11)
    0x0062_e433, // or x8,x5,x6
    0x0014_7413, // andi x8,x8,1
    0x0204_0663, // beq x8,x0,0x10060
    0xfff3_4493, // xori x9,x6,-1
    0x0092_e433, // or x8,x5,x9
    0x0014_7413, // andi x8,x8,1
    0x0004_0e63, // beq x8,x0,0x10060
    0x0073_6433, // or x8,x6,x7
    0x0014_7413, // andi x8,x8,1
    0x0004_0863, // beq x8,x0,0x10060
    0x0035_8593, // addi x11,x11,3
    0xfcd5_94e3, // bne x11,x13,0x10020
    0x0010_0073, // ebreak
    0x05d0_0893, // addi x17,x0,93
    0x0000_0073, // ecall
];
