//! The instructions of RV32I and of the extension M with FENCE.I, and the words that stand for
//! them ("RV32/64G Instruction Set Listings" of the RISC-V Unprivileged ISA): from a word to its
//! instruction by [`decode`], and back by [`encode`].
//!
//! Nothing here takes memory.
#![tactic(auto)]

pub mod decoding;
pub mod encoding;
pub mod fields;
pub mod instr;

pub use decoding::decode;
pub use encoding::encode;
pub use instr::{Cond, Instr, Width};
