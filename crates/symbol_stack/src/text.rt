//! The text of a stack.

ghost use Rattle.std.specs.Prelude.{◌≡◌, ◌++◌, IfOk, OnOk};
ghost use Rattle.symbol_stack.specs.Names.{name_of};
ghost use Rattle.symbol_stack.specs.Text.{word_digits, name_text, counter_line, more_line, text};

use crate::names::Names;
use elf32::{Bytes, Symbols};
use itoa::Buffer;
use no_memory::NoMemory;
use std::alloc::Global;

/// The most calls that are told.
const MOST_TOLD: usize = 64;

/// Adds the eight digits of a word.
fn push_word(out: &mut Vec<u8>, word: u32) -> Result<(), NoMemory>
    ensures { OnOk result (out.new.items ≡ out.old.items ++ word_digits word) }
{
    let mut digits = [0; 8];
    hex::encode_to_slice(word.to_be_bytes(), &mut digits).unwrap();
    out.extend_from_slice(digits.as_slice())?;
    Ok(())
}

/// Adds the name of a program counter and its offset, or `?`.
fn push_name(out: &mut Vec<u8>, names: &Names<'_>, pc: u32) -> Result<(), NoMemory>
    ensures { OnOk result (out.new.items ≡ out.old.items ++ name_text (name_of names.now pc) pc) }
{
    let Some(symbol) = names.name_of(pc) else {
        out.push(b'?')?;
        return Ok(());
    };
    out.extend_from_slice(symbol.name.as_slice())?;
    out.push(b'+')?;
    push_word(out, pc.saturating_sub(symbol.value))
}

/// Adds the line of a program counter.
fn push_counter(out: &mut Vec<u8>, names: &Names<'_>, word: &[u8], pc: u32) -> Result<(), NoMemory>
    ensures { OnOk result (out.new.items ≡ out.old.items ++ counter_line names.now word.now pc) }
{
    out.extend_from_slice(word)?;
    push_word(out, pc)?;
    out.push(b' ')?;
    push_name(out, names, pc)?;
    out.push(b'\n')?;
    Ok(())
}

/// Adds the line that counts the calls that aren't told.
fn push_more(out: &mut Vec<u8>, count: usize) -> Result<(), NoMemory>
    ensures { OnOk result (out.new.items ≡ out.old.items ++ more_line count) }
{
    if count == 0 {
        return Ok(());
    }
    let mut digits = Buffer::new();
    out.extend_from_slice(b"more ")?;
    out.extend_from_slice(digits.format(count).as_bytes())?;
    out.push(b'\n')?;
    Ok(())
}

/// The text of a stack, by names that are sorted.
fn named_text(alloc: Global, names: &Names<'_>, stack: &[u32], pc: u32) -> Result<Bytes, NoMemory>
    ensures { IfOk result (λ told. told ≡ text names.now stack.now pc) }
{
    let mut out = Vec::new(alloc);
    push_counter(&mut out, names, b"at ", pc)?;
    for i in 0..stack.len().min(MOST_TOLD) {
        push_counter(&mut out, names, b"from ", stack[stack.len() - 1 - i])?;
    }
    push_more(&mut out, stack.len().saturating_sub(MOST_TOLD))?;
    Ok(Bytes::from_vec(out))
}

/// The text of a stack: a line `at PC NAME+OFFSET`, a line `from PC NAME+OFFSET` for each of the last 64
/// calls, from the last back, and a line `more N` where others are left. Where no function has a program
/// counter, `?` stands for the name and the offset.
pub fn stack_text(
    alloc: Global,
    symbols: &Symbols,
    stack: &[u32],
    pc: u32,
) -> Result<Bytes, NoMemory>
    ensures { IfOk result (λ told. told ≡ text symbols.now stack.now pc) }
{
    let names = Names::new(alloc, symbols.as_slice())?;
    named_text(alloc, &names, stack, pc)
}
