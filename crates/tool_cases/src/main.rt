//! Runs the cases of a transcript, which it reads from standard input, against the tool over files
//! and sinks in memory. It prints each case that differs, and how many hold.
#![tactic(auto)]

mod compare;
mod files;
mod item;
mod parse;
mod problem;
mod run;
mod text;
mod watched;

use crate::compare::{Wanted, holds, wanted_of};
use crate::files::{Files, make_file};
use crate::item::{Case, Item, Section};
use crate::parse::parse;
use crate::problem::{Malformed, Problem, on_line};
use crate::run::{Said, run};
use std::alloc::Global;
use std::io::{self, BufReader};

/// The cases that were tried, and those that differ.
#[derive(Clone, Copy)]
struct Tally {
    tried: u64,
    differing: u64,
}

/// Prints a text under a heading.
fn print_text(rt: &impl Print, heading: &str, bytes: &[u8]) -> io::Result<()> {
    match std::str::from_utf8(bytes) {
        Ok(text) => println!(rt; "  {heading}: {text:?}"),
        Err(_) => println!(rt; "  {heading}: {bytes:?}"),
    }
}

/// Prints a case that differs.
fn print_difference(
    rt: &impl Print,
    case: &Case<'_>,
    round: u32,
    said: &Said,
    wanted: &Wanted,
) -> io::Result<()> {
    println!(rt; "line {}, round {round}: {}", case.line, case.title)?;
    println!(rt; "  $ {}", case.command)?;
    println!(rt; "  status {}, wanted {}", said.status, wanted.status)?;
    print_text(rt, "out", said.out.as_slice())?;
    print_text(rt, "wanted", wanted.out.as_slice())?;
    print_text(rt, "err", said.err.as_slice())?;
    print_text(rt, "wanted", wanted.err.as_slice())?;
    println!(rt;
        "  {} pieces on out, {} on err",
        said.out_puts, said.err_puts
    )?;
    print_text(rt, "fetched", said.fetched.as_slice())
}

/// Tries a case in a round: whether it holds.
fn try_case<'a>(
    rt: &impl Print,
    alloc: Global,
    files: &mut Files<'a>,
    case: &Case<'a>,
    round: u32,
) -> Result<bool, Problem> {
    let said = run(alloc, files, case, round)?;
    let wanted = wanted_of(alloc, files, case, round)?;
    let is_met = holds(alloc, case, &said, &wanted)?;
    if !is_met {
        let _ = print_difference(rt, case, round, &said, &wanted);
    }
    if let Some(name) = case.saved {
        files.put(name, said.out)?;
    }
    Ok(is_met)
}

/// Goes through an item in a round.
fn go_through<'a>(
    rt: &impl Print,
    alloc: Global,
    files: &mut Files<'a>,
    item: &Item<'a>,
    round: u32,
    tally: &mut Tally,
) -> Result<(), Malformed> {
    match item {
        Item::File(file) => make_file(alloc, files, file, round),
        Item::Case(case) => {
            tally.tried = tally.tried.saturating_add(1);
            if !on_line(case.line, try_case(rt, alloc, files, case, round))? {
                tally.differing = tally.differing.saturating_add(1);
            }
            Ok(())
        }
    }
}

/// Goes through a section, once for each number of its range.
fn go_round<'a>(
    rt: &impl Print,
    alloc: Global,
    files: &mut Files<'a>,
    section: &Section<'a>,
    tally: &mut Tally,
) -> Result<(), Malformed> {
    for round in section.first..=section.last {
        for item in section.items.iter() {
            go_through(rt, alloc, files, item, round, tally)?;
        }
    }
    Ok(())
}

/// Tries every case of a transcript.
fn try_all(rt: &impl Print, alloc: Global, text: &str) -> Result<Tally, Malformed> {
    let mut tally = Tally {
        tried: 0,
        differing: 0,
    };
    let mut files = Files::new(alloc);
    for section in parse(alloc, text)?.iter() {
        go_round(rt, alloc, &mut files, section, &mut tally)?;
    }
    Ok(tally)
}

fn main(rt: HostRuntime) -> io::Result<()> {
    let alloc = rt.alloc();
    let text = io::read_to_string(alloc, BufReader::new(alloc, rt.reader())?)?;
    match try_all(&rt, alloc, text.as_str()) {
        Ok(tally) if tally.differing == 0 => println!(rt; "{} cases hold", tally.tried),
        Ok(tally) => println!(rt; "{} of {} cases differ", tally.differing, tally.tried),
        Err(malformed) => println!(rt; "{malformed}"),
    }
}
