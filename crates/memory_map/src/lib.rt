//! The memory of a machine: at each address of 32 bits a byte with rights, or nothing. Addresses wrap:
//! the address after the last is 0 (RISC-V Unprivileged ISA 20191213, "Introduction", section "Memory").
//! Half words and words are little-endian.
//!
//! Contracts see a [`Memory`] as one finite map from addresses to cells. The code keeps the stack and
//! the segments of a program as regions, so that an access within one region takes one look-up.
#![tactic(auto)]

mod heap;
mod memory;
mod parts;
mod region;

pub use heap::Heap;
pub use memory::Memory;
