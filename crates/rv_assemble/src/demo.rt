//! The demonstration cases.

ghost use Rattle.std.specs.Prelude.{◌≡◌, ◌≤◌, ◌<◌, length, IfOk, None};
ghost use Rattle.std.specs.List.{All};
ghost use Rattle.rv_decode.specs.Rows.{IsWellFormed};
ghost use Rattle.elf32.specs.Rules.{refusal};
ghost use Rattle.rv_assemble.specs.Parts.{IsFile};
ghost use Rattle.rv_assemble.specs.Demo.{demo_code, demo_region, demo_regions, demo_byte, demo_input};

use crate::assemble::build;
use crate::bytes::Bytes;
use crate::demo_code::{single_code, triple_code};
use crate::error::BuildError;
use crate::region::Region;
use no_memory::NoMemory;
use rv_decode::Instr;
use std::alloc::{AllocError, Global};

/// Which of the two demonstration programs.
#[derive(Clone, Copy, Debug, PartialEq, Eq)]
pub enum DemoKind {
    /// It branches on each byte by itself, by whether it is below 128.
    Single,
    /// It branches on the lowest bits of three bytes together, which a search has to solve.
    Triple,
}

/// A program file, and an input on which it meets an EBREAK.
#[derive(Drop)]
pub struct DemoCase {
    pub program: Bytes,
    pub input: Bytes,
}

/// The region for `n` bytes.
fn demo_region(alloc: Global, n: u32) -> Region
    ensures { result ≡ demo_region n }
{
    Region {
        base: 0x0002_0000,
        size: n,
        rights: 6,
        bytes: Bytes::from_vec(Vec::new(alloc)),
    }
}

/// The file of at most 26 instructions and of the region for `n` bytes.
fn file_of_few(alloc: Global, code: &[Instr], n: u32) -> Result<Bytes, NoMemory>
    requires formed { All IsWellFormed code.now }
    requires few { length code.now ≤ 26 }
    requires small { n ≤ 65536 }
    ensures file { IfOk result (λ b. IsFile code.now (demo_regions n) b) }
    ensures accepted { IfOk result (λ b. refusal b ≡ None) }
    ensures short { IfOk result (λ b. length b ≤ 220) }
{
    let regions = [demo_region(alloc, n)];
    match build(alloc, code, &regions) {
        Ok(file) => Ok(file),
        Err(BuildError::NoMemory) => Err(AllocError),
        Err(BuildError::TooLong) => unreachable!(),
    }
}

/// The program file for `n` bytes.
#[tactic(auto, using(crate::proofs::DemoLemmas::codes))]
fn demo_program(alloc: Global, kind: DemoKind, n: u32) -> Result<Bytes, NoMemory>
    requires { n ≤ 65536 }
    ensures file { IfOk result (λ b. IsFile (demo_code kind n) (demo_regions n) b) }
    ensures accepted { IfOk result (λ b. refusal b ≡ None) }
    ensures short { IfOk result (λ b. length b ≤ 220) }
{
    match kind {
        DemoKind::Single => file_of_few(alloc, &single_code(n), n),
        DemoKind::Triple => file_of_few(alloc, &triple_code(n, n / 3), n),
    }
}

/// Byte `i` of the input.
fn demo_byte(kind: DemoKind, i: u32) -> u8
    requires { i < 65536 }
    ensures { result ≡ demo_byte kind i }
{
    match kind {
        DemoKind::Single => ((37 * i + 11) % 256) as u8,
        DemoKind::Triple => 0xff,
    }
}

/// The input of `n` bytes.
fn demo_input(alloc: Global, kind: DemoKind, n: u32) -> Result<Vec<u8>, NoMemory>
    requires { n ≤ 65536 }
    ensures { IfOk result (λ input. input.items ≡ demo_input kind n) }
{
    let mut input = Vec::with_capacity(alloc, n as usize)?;
    for i in 0..n {
        input.push(demo_byte(kind, i))?;
    }
    Ok(input)
}

/// The case of a kind for an input of `n` bytes, from 3 up to 65,536. The program reads them to 00020000.
pub fn demo_case(alloc: Global, kind: DemoKind, n: u32) -> Result<DemoCase, NoMemory>
    requires least { 3 ≤ n }
    requires most { n ≤ 65536 }
    ensures program { IfOk result (λ case. IsFile (demo_code kind n) (demo_regions n) case.program) }
    ensures accepted { IfOk result (λ case. refusal case.program ≡ None) }
    ensures short { IfOk result (λ case. length case.program ≤ 220) }
    ensures input { IfOk result (λ case. case.input ≡ demo_input kind n) }
    ensures count { IfOk result (λ case. length case.input ≡ n) }
{
    let program = demo_program(alloc, kind, n)?;
    let input = Bytes::from_vec(demo_input(alloc, kind, n)?);
    Ok(DemoCase { program, input })
}
