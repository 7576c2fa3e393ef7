//! The fields of an instruction word ("Base Instruction Formats" and "Immediate Encoding
//! Variants" of the RISC-V Unprivileged ISA).

ghost use Rattle.std.specs.Prelude.{◌≡◌, ◌<◌, ◌^◌};
ghost use Rattle.rv_decode.specs.Fields.{field, opcode_of, rd_of, funct3_of, rs1_of, rs2_of, funct7_of, sign_extended};
ghost use Rattle.rv_decode.specs.Fields.{i_immediate, s_immediate, b_offset, u_immediate, j_offset};

/// The `count` bits of a word from bit `low` up.
pub fn field(word: u32, low: u32, count: u32) -> u32
    requires low { low < 32 }
    requires count { count < 32 }
    ensures { result ≡ field word low count }
{
    (word >> low) & ((1 << count) - 1)
}

/// Bits 6..0.
pub fn opcode(word: u32) -> u32
    ensures { result ≡ opcode_of word }
{
    field(word, 0, 7)
}

/// The register that is written, bits 11..7.
pub fn rd(word: u32) -> u8
    ensures { result ≡ rd_of word }
{
    field(word, 7, 5) as u8
}

/// Bits 14..12.
pub fn funct3(word: u32) -> u32
    ensures { result ≡ funct3_of word }
{
    field(word, 12, 3)
}

/// The first register that is read, bits 19..15.
pub fn rs1(word: u32) -> u8
    ensures { result ≡ rs1_of word }
{
    field(word, 15, 5) as u8
}

/// The second register that is read, bits 24..20.
pub fn rs2(word: u32) -> u8
    ensures { result ≡ rs2_of word }
{
    field(word, 20, 5) as u8
}

/// Bits 31..25.
pub fn funct7(word: u32) -> u32
    ensures { result ≡ funct7_of word }
{
    field(word, 25, 7)
}

/// What a number of `count` bits stands for in two's complement.
pub fn sign_extended(count: u32, n: u32) -> i32
    requires count { count < 32 }
    requires some { 0 < count }
    requires n { n < 2 ^ count }
    ensures { result ≡ sign_extended count n }
{
    if n < 1 << (count - 1) {
        n as i32
    } else {
        n.wrapping_sub(1 << count).cast_signed()
    }
}

/// The immediate of format I, from -2048 up to 2047.
pub fn i_immediate(word: u32) -> i32
    ensures { result ≡ i_immediate word }
{
    sign_extended(12, field(word, 20, 12))
}

/// The immediate of format S, from -2048 up to 2047.
pub fn s_immediate(word: u32) -> i32
    ensures { result ≡ s_immediate word }
{
    sign_extended(12, (field(word, 25, 7) << 5) + field(word, 7, 5))
}

/// The offset of format B, even, from -4096 up to 4094.
pub fn b_offset(word: u32) -> i32
    ensures { result ≡ b_offset word }
{
    let high = field(word, 31, 1) << 12;
    let middle = (field(word, 7, 1) << 11) + (field(word, 25, 6) << 5);
    sign_extended(13, high + middle + (field(word, 8, 4) << 1))
}

/// The immediate of format U, a multiple of 4096.
pub fn u_immediate(word: u32) -> i32
    ensures { result ≡ u_immediate word }
{
    (field(word, 12, 20) << 12).cast_signed()
}

/// The offset of format J, even, from -2^20 up to 2^20 - 2.
pub fn j_offset(word: u32) -> i32
    ensures { result ≡ j_offset word }
{
    let high = (field(word, 31, 1) << 20) + (field(word, 12, 8) << 12);
    sign_extended(
        21,
        high + (field(word, 20, 1) << 11) + (field(word, 21, 10) << 1),
    )
}
