//! Runs a command over files and sinks in memory.

use crate::files::Files;
use crate::item::{Case, Source};
use crate::problem::Problem;
use crate::text::Number;
use crate::watched::{WatchedFolder, WatchedSink};
use crash_tool::tool::run_tool;
use fault_io::{MemFolder, MemSink, ReadList};
use std::alloc::Global;

/// What a command said, what it fetched, and how many pieces it put on out and on err.
#[derive(Drop)]
pub struct Said {
    pub status: u8,
    pub out: Vec<u8>,
    pub err: Vec<u8>,
    pub fetched: Vec<u8>,
    pub out_puts: u32,
    pub err_puts: u32,
}

/// A word of a command: `*` is the round's number.
fn word_of(alloc: Global, word: &str, round: u32) -> Result<String, Problem> {
    if word == "*" {
        return Ok(round.to_string(alloc)?);
    }
    Ok(String::from_str(alloc, word)?)
}

/// The words of a command in a round.
fn words_of(alloc: Global, words: &[&str], round: u32) -> Result<Vec<String>, Problem> {
    let mut made = Vec::new(alloc);
    for word in words {
        made.push(word_of(alloc, word, round)?)?;
    }
    Ok(made)
}

/// The numbers of the reads that fail in a round.
fn failing_of(alloc: Global, numbers: &[Number], round: u32) -> Result<ReadList, Problem> {
    let mut failing = Vec::new(alloc);
    for number in numbers {
        failing.push(u64::from(number.in_round(round)))?;
    }
    Ok(ReadList::from_vec(failing))
}

/// The folder of a command in a round.
fn folder_of(
    alloc: Global,
    files: &Files<'_>,
    case: &Case<'_>,
    round: u32,
) -> Result<WatchedFolder<MemFolder>, Problem> {
    let list = files.named_in(alloc, case.words.as_slice())?;
    let failing = failing_of(alloc, case.failing.as_slice(), round)?;
    let piece = case.piece.in_round(round).max(1);
    Ok(WatchedFolder {
        folder: MemFolder::new(list, piece, failing),
        fetched: Vec::new(alloc),
    })
}

/// A sink with room for so many bytes.
fn sink_of(alloc: Global, room: u32) -> Result<WatchedSink<MemSink>, Problem> {
    Ok(WatchedSink {
        sink: MemSink::new(alloc, room)?,
        puts: 0,
    })
}

/// What a command says in a round.
pub fn run(alloc: Global, files: &Files<'_>, case: &Case<'_>, round: u32) -> Result<Said, Problem> {
    let words = words_of(alloc, case.words.as_slice(), round)?;
    let mut folder = folder_of(alloc, files, case, round)?;
    let mut out = sink_of(alloc, case.out_room.in_round(round))?;
    let mut err = sink_of(alloc, case.err_room.in_round(round))?;
    let status = run_tool(alloc, words.as_slice(), &mut folder, &mut out, &mut err);
    Ok(Said {
        status,
        out: out.sink.as_slice().to_vec(alloc)?,
        err: err.sink.as_slice().to_vec(alloc)?,
        fetched: folder.fetched,
        out_puts: out.puts,
        err_puts: err.puts,
    })
}

/// What out is to have in a round, where it stands in the transcript: the first bytes that have room.
pub fn wanted_out(
    alloc: Global,
    files: &Files<'_>,
    case: &Case<'_>,
    round: u32,
) -> Result<Vec<u8>, Problem> {
    let mut text = Vec::new(alloc);
    match case.source {
        Source::Lines => {
            for line in case.lines.iter() {
                text.extend_from_slice(line.as_bytes())?;
                text.push(b'\n')?;
            }
        }
        Source::File(name) => match files.get(name) {
            Some(bytes) => text.extend_from_slice(bytes)?,
            None => return Err(Problem::NoFile),
        },
        Source::Digest(_, _) => {}
    }
    text.truncate(case.out_room.in_round(round) as usize);
    Ok(text)
}
