//! The words of the programs that are run here alone.

/// Reads three bytes as a word, and meets an EBREAK where three times the word is the word and twice the word.
/// Else it exits.
pub const THREE_TIMES: [u32; 13] = [
    0x0001_0593, // addi x11,x2,0
    0x0030_0613, // addi x12,x0,3
    0x03f0_0893, // addi x17,x0,63
    0x0000_0073, // ecall
    0x0001_2283, // lw x5,0(x2)
    0x0030_0313, // addi x6,x0,3
    0x0262_83b3, // mul x7,x5,x6
    0x0012_9413, // slli x8,x5,0x1
    0x0082_8433, // add x8,x5,x8
    0x0083_8663, // beq x7,x8,0x10030
    0x05d0_0893, // addi x17,x0,93
    0x0000_0073, // ecall
    0x0010_0073, // ebreak
];

/// Reads four bytes, and meets an EBREAK where they add up to 300. Else it exits.
pub const SUM_OF_FOUR: [u32; 16] = [
    0x0001_0593, // addi x11,x2,0
    0x0040_0613, // addi x12,x0,4
    0x03f0_0893, // addi x17,x0,63
    0x0000_0073, // ecall
    0x0001_4283, // lbu x5,0(x2)
    0x0011_4303, // lbu x6,1(x2)
    0x0062_82b3, // add x5,x5,x6
    0x0021_4303, // lbu x6,2(x2)
    0x0062_82b3, // add x5,x5,x6
    0x0031_4303, // lbu x6,3(x2)
    0x0062_82b3, // add x5,x5,x6
    0x12c0_0313, // addi x6,x0,300
    0x0062_8663, // beq x5,x6,0x1003c
    0x05d0_0893, // addi x17,x0,93
    0x0000_0073, // ecall
    0x0010_0073, // ebreak
];

/// Reads 16 bytes, and meets an EBREAK where their CRC-16/IBM-3740 (polynomial 1021 from FFFF; 29B1 of the text
/// `123456789`) is 8D6E, that of the text `123456789abcdefg`. Else it exits.
pub const CHECKSUM: [u32; 32] = [
    0x0001_0593, // addi x11,x2,0
    0x0100_0613, // addi x12,x0,16
    0x03f0_0893, // addi x17,x0,63
    0x0000_0073, // ecall
    0x0001_0693, // addi x13,x2,0
    0x0101_0713, // addi x14,x2,16
    0x0001_02b7, // lui x5,0x10
    0xfff2_8293, // addi x5,x5,-1 # 0xffff
    0x0000_13b7, // lui x7,0x1
    0x0213_8393, // addi x7,x7,33 # 0x1021
    0x0006_c303, // lbu x6,0(x13)
    0x0083_1313, // slli x6,x6,0x8
    0x0062_c2b3, // xor x5,x5,x6
    0x0080_0413, // addi x8,x0,8
    0x00f2_d493, // srli x9,x5,0xf
    0x0014_f493, // andi x9,x9,1
    0x4090_04b3, // sub x9,x0,x9
    0x0074_f4b3, // and x9,x9,x7
    0x0012_9293, // slli x5,x5,0x1
    0x0092_c2b3, // xor x5,x5,x9
    0xfff4_0413, // addi x8,x8,-1
    0xfe04_12e3, // bne x8,x0,0x10038
    0x0016_8693, // addi x13,x13,1
    0xfce6_96e3, // bne x13,x14,0x10028
    0x0102_9293, // slli x5,x5,0x10
    0x0102_d293, // srli x5,x5,0x10
    0x0000_9337, // lui x6,0x9
    0xd6e3_0313, // addi x6,x6,-658 # 0x8d6e
    0x0062_8663, // beq x5,x6,0x1007c
    0x05d0_0893, // addi x17,x0,93
    0x0000_0073, // ecall
    0x0010_0073, // ebreak
];

/// Reads three bytes, and looks up the byte of its own code at 00010000 and their sum modulo 16; meets an EBREAK
/// where that is 48, the byte at 6. Else it exits.
pub const LOOK_UP: [u32; 18] = [
    0x0001_0593, // addi x11,x2,0
    0x0030_0613, // addi x12,x0,3
    0x03f0_0893, // addi x17,x0,63
    0x0000_0073, // ecall
    0x0001_4283, // lbu x5,0(x2)
    0x0011_4303, // lbu x6,1(x2)
    0x0062_82b3, // add x5,x5,x6
    0x0021_4303, // lbu x6,2(x2)
    0x0062_82b3, // add x5,x5,x6
    0x00f2_f293, // andi x5,x5,15
    0x0001_0337, // lui x6,0x10
    0x0053_0333, // add x6,x6,x5
    0x0003_4383, // lbu x7,0(x6) # 0x10000
    0x0300_0413, // addi x8,x0,48
    0x0083_8663, // beq x7,x8,0x10044
    0x05d0_0893, // addi x17,x0,93
    0x0000_0073, // ecall
    0x0010_0073, // ebreak
];

/// Reads three bytes, and meets an EBREAK where the lowest byte of the product of the first two is the third. Else it exits.
pub const PRODUCT: [u32; 13] = [
    0x0001_0593, // addi x11,x2,0
    0x0030_0613, // addi x12,x0,3
    0x03f0_0893, // addi x17,x0,63
    0x0000_0073, // ecall
    0x0001_4283, // lbu x5,0(x2)
    0x0011_4303, // lbu x6,1(x2)
    0x0021_4403, // lbu x8,2(x2)
    0x0262_83b3, // mul x7,x5,x6
    0x0ff3_f393, // andi x7,x7,255
    0x0083_8663, // beq x7,x8,0x10030
    0x05d0_0893, // addi x17,x0,93
    0x0000_0073, // ecall
    0x0010_0073, // ebreak
];

/// Reads three decimal digits in a loop, and meets an EBREAK where their number is above 255. Else it exits.
pub const DECIMAL: [u32; 21] = [
    0x0001_0593, // addi x11,x2,0
    0x0030_0613, // addi x12,x0,3
    0x03f0_0893, // addi x17,x0,63
    0x0000_0073, // ecall
    0x0001_0693, // addi x13,x2,0
    0x0031_0713, // addi x14,x2,3
    0x0000_0293, // addi x5,x0,0
    0x0090_0393, // addi x7,x0,9
    0x00a0_0413, // addi x8,x0,10
    0x0006_c303, // lbu x6,0(x13)
    0xfd03_0313, // addi x6,x6,-48
    0x0063_ee63, // bltu x7,x6,0x10048
    0x0282_82b3, // mul x5,x5,x8
    0x0062_82b3, // add x5,x5,x6
    0x0016_8693, // addi x13,x13,1
    0xfee6_94e3, // bne x13,x14,0x10024
    0x0ff0_0413, // addi x8,x0,255
    0x0054_6663, // bltu x8,x5,0x10050
    0x05d0_0893, // addi x17,x0,93
    0x0000_0073, // ecall
    0x0010_0073, // ebreak
];

/// Reads seven bytes, and meets an EBREAK where the bytes 0, 2 and 4 add up to 100, the lowest bits of 1, 3 and 5
/// have an odd sum, byte 5 is 128 or more, and byte 6 is below 10. Else it exits.
pub const TWO_TRIPLES_AND_A_BYTE: [u32; 29] = [
    0x0001_0593, // addi x11,x2,0
    0x0070_0613, // addi x12,x0,7
    0x03f0_0893, // addi x17,x0,63
    0x0000_0073, // ecall
    0x0001_4283, // lbu x5,0(x2)
    0x0021_4303, // lbu x6,2(x2)
    0x0041_4383, // lbu x7,4(x2)
    0x0062_82b3, // add x5,x5,x6
    0x0072_82b3, // add x5,x5,x7
    0x0640_0413, // addi x8,x0,100
    0x0482_9263, // bne x5,x8,0x1006c
    0x0011_4283, // lbu x5,1(x2)
    0x0031_4303, // lbu x6,3(x2)
    0x0051_4383, // lbu x7,5(x2)
    0x0062_c2b3, // xor x5,x5,x6
    0x0072_c2b3, // xor x5,x5,x7
    0x0012_f293, // andi x5,x5,1
    0x0202_8463, // beq x5,x0,0x1006c
    0x0800_0413, // addi x8,x0,128
    0x0283_e063, // bltu x7,x8,0x1006c
    0x0061_4283, // lbu x5,6(x2)
    0x00a0_0413, // addi x8,x0,10
    0x0082_fa63, // bgeu x5,x8,0x1006c
    0x0010_0073, // ebreak
    0x0010_0073, // ebreak
    0x0010_0073, // ebreak
    0x0010_0073, // ebreak
    0x05d0_0893, // addi x17,x0,93
    0x0000_0073, // ecall
];
