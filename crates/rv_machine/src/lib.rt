//! A machine that runs programs of RV32IM with Zifencei, in the RISC-V unprivileged ISA's version
//! 20191213, with the calls read, write, exit, exit_group and brk of the environment, and one answer
//! to any other.
//!
//! [`trace_of`] gives what a program's run on an input tells. [`Machine`] goes step by step and takes
//! no memory after its start.
#![tactic(auto)]

mod access;
mod machine;
mod trace;

pub use machine::{Machine, Stepped};
pub use trace::{Run, trace_of};
