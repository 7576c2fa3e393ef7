//! The files of a transcript.

use crate::item::{NewFile, Part, Step};
use crate::problem::{Malformed, Problem, on_line};
use crate::text::{read_decimal, read_hex, read_hex_number, split_word};
use fault_io::{FileList, NamedFile};
use rv_assemble::{Bytes, Region};
use std::alloc::Global;
use test_programs::program_file;

/// A file and its name.
#[derive(Drop)]
struct Held<'a> {
    name: &'a str,
    bytes: Vec<u8>,
}

/// The files so far.
#[derive(Drop)]
pub struct Files<'a> {
    held: Vec<Held<'a>>,
}

impl<'a> Files<'a> {
    /// No file.
    pub fn new(alloc: Global) -> Self {
        Files {
            held: Vec::new(alloc),
        }
    }

    /// The bytes of the file of a name.
    pub fn get(&self, name: &str) -> Option<&[u8]> {
        for file in self.held.iter() {
            if file.name == name {
                return Some(file.bytes.as_slice());
            }
        }
        None
    }

    /// Holds a file, in the place of an earlier one of its name.
    pub fn put(&mut self, name: &'a str, bytes: Vec<u8>) -> Result<(), Problem> {
        for file in self.held.iter_mut() {
            if file.name == name {
                file.bytes = bytes;
                return Ok(());
            }
        }
        self.held.push(Held { name, bytes })?;
        Ok(())
    }

    /// Copies of the files that a command's words name.
    pub fn named_in(&self, alloc: Global, words: &[&str]) -> Result<FileList, Problem> {
        let mut files = Vec::new(alloc);
        for file in self.held.iter() {
            if is_among(words, file.name) {
                files.push(NamedFile {
                    name: fault_io::Bytes::from_vec(file.name.as_bytes().to_vec(alloc)?),
                    bytes: fault_io::Bytes::from_vec(file.bytes.as_slice().to_vec(alloc)?),
                })?;
            }
        }
        Ok(FileList::from_vec(files))
    }
}

/// Whether a name is one of the words.
fn is_among(words: &[&str], name: &str) -> bool {
    for word in words {
        if *word == name {
            return true;
        }
    }
    false
}

/// A file that is being made: its bytes, and the code and the regions that are to follow.
#[derive(Drop)]
struct Maker {
    bytes: Vec<u8>,
    words: Vec<u32>,
    regions: Vec<Region>,
}

/// Adds the last word so many times more.
fn repeat_last(words: &mut Vec<u32>, count: u32) -> Result<(), Problem> {
    let Some(word) = words.as_slice().last().copied() else {
        return Err(Problem::Program);
    };
    for _ in 1..count {
        words.push(word)?;
    }
    Ok(())
}

/// Adds words of code, up to a comment. `x9` after a word is that word nine times.
fn add_code(words: &mut Vec<u32>, text: &str) -> Result<(), Problem> {
    for word in text.split_whitespace() {
        if word.starts_with('#') {
            return Ok(());
        }
        match word.strip_prefix('x') {
            Some(count) => repeat_last(words, read_decimal(count)?)?,
            None => words.push(read_hex_number(word)?)?,
        }
    }
    Ok(())
}

/// A region: its base, its size, its rights and its bytes.
fn read_region(alloc: Global, text: &str) -> Result<Region, Problem> {
    let (base, rest) = split_word(text);
    let (size, rest) = split_word(rest);
    let (rights, bytes) = split_word(rest);
    Ok(Region {
        base: read_hex_number(base)?,
        size: read_decimal(size)?,
        rights: read_decimal(rights)?,
        bytes: Bytes::from_vec(read_hex(alloc, bytes)?),
    })
}

/// Makes a program of the code and the regions, if there are any.
fn assemble(maker: &mut Maker, alloc: Global) -> Result<(), Problem> {
    if maker.words.is_empty() {
        return Ok(());
    }
    let file = program_file(alloc, maker.words.as_slice(), maker.regions.as_slice())?;
    maker.bytes.extend_from_slice(file.as_slice())?;
    maker.words.clear();
    maker.regions = Vec::new(alloc);
    Ok(())
}

/// Adds one byte so many times.
fn fill(bytes: &mut Vec<u8>, count: u32, byte: &str) -> Result<(), Problem> {
    let Ok(byte) = u8::from_str_radix(byte, 16) else {
        return Err(Problem::Hex);
    };
    let more = bytes.len().saturating_add(count as usize);
    bytes.resize(more, byte)?;
    Ok(())
}

/// Puts bytes in the place of those at a place.
fn put_at(bytes: &mut Vec<u8>, place: u32, others: &[u8]) -> Result<(), Problem> {
    let place = place as usize;
    for (index, other) in others.iter().enumerate() {
        let here = place.saturating_add(index);
        if here >= bytes.len() {
            return Err(Problem::Place);
        }
        bytes[here] = *other;
    }
    Ok(())
}

/// The bytes with another line in the place of that of a number.
fn with_line(alloc: Global, bytes: &[u8], number: u32, text: &str) -> Result<Vec<u8>, Problem> {
    let mut changed = Vec::new(alloc);
    let mut line = 1u32;
    for byte in bytes {
        if line != number {
            changed.push(*byte)?;
        }
        if *byte == b'\n' {
            if line == number {
                changed.extend_from_slice(text.as_bytes())?;
                changed.push(b'\n')?;
            }
            line = line.saturating_add(1);
        }
    }
    if line <= number {
        return Err(Problem::Place);
    }
    Ok(changed)
}

/// Adds a line of text and its end.
fn add_line(bytes: &mut Vec<u8>, text: &str) -> Result<(), Problem> {
    bytes.extend_from_slice(text.as_bytes())?;
    bytes.push(b'\n')?;
    Ok(())
}

/// Takes a step that isn't of code or a region.
fn take_plain(
    bytes: &mut Vec<u8>,
    alloc: Global,
    files: &Files<'_>,
    part: Part<'_>,
    round: u32,
) -> Result<(), Problem> {
    match part {
        Part::Code(_) | Part::Region(_) => {}
        Part::Hex(words) => bytes.extend_from_slice(read_hex(alloc, words)?.as_slice())?,
        Part::Text(text) => bytes.extend_from_slice(text.as_bytes())?,
        Part::Line(text) => add_line(bytes, text)?,
        Part::Fill(count, byte) => fill(bytes, count.in_round(round), byte)?,
        Part::Copy(name) => match files.get(name) {
            Some(other) => bytes.extend_from_slice(other)?,
            None => return Err(Problem::NoFile),
        },
        Part::At(place, words) => {
            put_at(
                bytes,
                place.in_round(round),
                read_hex(alloc, words)?.as_slice(),
            )?;
        }
        Part::Keep(count) => bytes.truncate(count.in_round(round) as usize),
        Part::Change(number, text) => {
            *bytes = with_line(alloc, bytes.as_slice(), number.in_round(round), text)?;
        }
    }
    Ok(())
}

/// Takes a step.
fn take(
    maker: &mut Maker,
    alloc: Global,
    files: &Files<'_>,
    part: Part<'_>,
    round: u32,
) -> Result<(), Problem> {
    match part {
        Part::Code(text) => add_code(&mut maker.words, text),
        Part::Region(text) => {
            maker.regions.push(read_region(alloc, text)?)?;
            Ok(())
        }
        _ => {
            assemble(maker, alloc)?;
            take_plain(&mut maker.bytes, alloc, files, part, round)
        }
    }
}

/// Takes the steps of a file.
fn take_all(
    maker: &mut Maker,
    alloc: Global,
    files: &Files<'_>,
    steps: &[Step<'_>],
    round: u32,
) -> Result<(), Malformed> {
    for step in steps {
        on_line(step.line, take(maker, alloc, files, step.part, round))?;
    }
    Ok(())
}

/// Makes a file in a round and holds it.
pub fn make_file<'a>(
    alloc: Global,
    files: &mut Files<'a>,
    file: &NewFile<'a>,
    round: u32,
) -> Result<(), Malformed> {
    let mut maker = Maker {
        bytes: Vec::new(alloc),
        words: Vec::new(alloc),
        regions: Vec::new(alloc),
    };
    take_all(&mut maker, alloc, files, file.steps.as_slice(), round)?;
    on_line(file.line, assemble(&mut maker, alloc))?;
    let Maker { bytes, .. } = maker;
    on_line(file.line, files.put(file.name, bytes))
}
