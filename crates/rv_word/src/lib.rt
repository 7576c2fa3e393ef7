//! The eighteen operations on words of 32 bits that RV32I and the extension M name ("Integer
//! Computational Instructions" and "M" of the RISC-V Unprivileged ISA), an integer as a word, and the bytes of
//! a word.
//!
//! Nothing here takes memory, and no call has a case that it refuses: a division by zero and the
//! overflow of a signed division have the values that the standard gives them.
#![tactic(auto)]

ghost use Rattle.std.specs.Prelude.{◌≡◌, ◌<◌};
ghost use Rattle.std.specs.Int.{int_shr};
ghost use Rattle.rv_word.specs.Word.{alu, bits, byte_of};

/// An operation on two words.
#[derive(Clone, Copy, Debug, PartialEq, Eq)]
pub enum AluOp {
    /// The sum, modulo 2^32.
    Add,
    /// The difference, modulo 2^32.
    Sub,
    /// The first operand shifted to the left by the low five bits of the second.
    Sll,
    /// 1 where the first operand is less than the second, both signed, else 0.
    Slt,
    /// 1 where the first operand is less than the second, both unsigned, else 0.
    Sltu,
    /// Exclusive or, bit by bit.
    Xor,
    /// The first operand shifted to the right by the low five bits of the second, with zeros.
    Srl,
    /// The first operand shifted to the right by the low five bits of the second, with its sign.
    Sra,
    /// Or, bit by bit.
    Or,
    /// And, bit by bit.
    And,
    /// The lower 32 bits of the product.
    Mul,
    /// The upper 32 bits of the product, both operands signed.
    Mulh,
    /// The upper 32 bits of the product, the first operand signed and the second unsigned.
    Mulhsu,
    /// The upper 32 bits of the product, both operands unsigned.
    Mulhu,
    /// The signed quotient, rounded towards zero. By 0 it is -1, and -2^31 by -1 is -2^31.
    Div,
    /// The unsigned quotient, rounded down. By 0 it is 2^32 - 1.
    Divu,
    /// The remainder of `Div`, with the sign of the first operand. By 0 it is the first operand,
    /// and of -2^31 by -1 it is 0.
    Rem,
    /// The remainder of `Divu`. By 0 it is the first operand.
    Remu,
}

/// An integer as a word, in two's complement.
#[tactic(auto, using(crate::proofs::Words::bits_is))]
pub fn bits(integer: i32) -> u32
    ensures { result ≡ bits integer }
{
    integer.cast_unsigned()
}

/// The upper 32 bits of a product of 64.
fn upper(product: i64) -> u32
    ensures { result ≡ bits (int_shr product 32) }
{
    ((product >> 32) as i32).cast_unsigned()
}

/// What the operation makes of the words `a` and `b`.
pub fn alu(op: AluOp, a: u32, b: u32) -> u32
    ensures value { result ≡ alu op a b }
{
    match op {
        AluOp::Add => a.wrapping_add(b),
        AluOp::Sub => a.wrapping_sub(b),
        AluOp::Sll => a.wrapping_shl(b),
        AluOp::Slt => u32::from(a.cast_signed() < b.cast_signed()),
        AluOp::Sltu => u32::from(a < b),
        AluOp::Xor => a ^ b,
        AluOp::Srl => a.wrapping_shr(b),
        AluOp::Sra => a.cast_signed().wrapping_shr(b).cast_unsigned(),
        AluOp::Or => a | b,
        AluOp::And => a & b,
        AluOp::Mul => a.wrapping_mul(b),
        AluOp::Mulh => upper(i64::from(a.cast_signed()) * i64::from(b.cast_signed())),
        AluOp::Mulhsu => upper(i64::from(a.cast_signed()) * i64::from(b)),
        AluOp::Mulhu => ((u64::from(a) * u64::from(b)) >> 32) as u32,
        AluOp::Div => {
            if b == 0 {
                u32::MAX
            } else {
                a.cast_signed()
                    .wrapping_div(b.cast_signed())
                    .cast_unsigned()
            }
        }
        AluOp::Divu => { if b == 0 { u32::MAX } else { a / b } }
        AluOp::Rem => {
            if b == 0 {
                a
            } else {
                a.cast_signed()
                    .wrapping_rem(b.cast_signed())
                    .cast_unsigned()
            }
        }
        AluOp::Remu => { if b == 0 { a } else { a % b } }
    }
}

/// Byte `k` of the word `a`, from 0, the lowest, to 3.
pub fn byte_of(k: u8, a: u32) -> u8
    requires byte_number { k < 4 }
    ensures value { result ≡ byte_of k a }
{
    ((a >> (8 * k)) & 0xff) as u8
}
