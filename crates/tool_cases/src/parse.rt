//! From a transcript's text to its sections.

use crate::item::{Answer, Case, Course, Item, NewFile, Part, Section, Source, Step};
use crate::problem::{Malformed, Problem, on_line};
use crate::text::{Number, read_decimal, read_number, split_word, split_words};
use std::alloc::Global;

/// The room of a sink where a command names none.
const ROOM: Number = Number::Fixed(65_536);

/// The bytes that a read gives where a command says nothing of it.
const PIECE: Number = Number::Fixed(33_554_432);

fn new_case<'a>(
    alloc: Global,
    line: u32,
    title: &'a str,
    command: &'a str,
) -> Result<Case<'a>, Problem> {
    Ok(Case {
        line,
        title,
        command,
        words: split_words(alloc, command)?,
        piece: PIECE,
        failing: Vec::new(alloc),
        out_room: ROOM,
        err_room: ROOM,
        answers: Vec::new(alloc),
        source: Source::Lines,
        lines: Vec::new(alloc),
        is_open_before: false,
        is_open_after: false,
        course: None,
        saved: None,
    })
}

fn new_section<'a>(alloc: Global, first: u32, last: u32, is_loop: bool) -> Section<'a> {
    Section {
        first,
        last,
        is_loop,
        items: Vec::new(alloc),
    }
}

/// A number and what follows it.
fn read_numbered(rest: &str) -> Result<(Number, &str), Problem> {
    let (word, rest) = split_word(rest);
    Ok((read_number(word)?, rest))
}

/// What follows a bar: nothing, or the text after one space.
fn after_bar(line: &str) -> Option<&str> {
    if line == "|" {
        return Some("");
    }
    line.strip_prefix("| ")
}

/// A step of a file.
fn read_part(line: &str) -> Result<Part<'_>, Problem> {
    if let Some(text) = after_bar(line) {
        return Ok(Part::Line(text));
    }
    let (word, rest) = split_word(line);
    let part = match word {
        "code" => Part::Code(rest),
        "region" => Part::Region(rest),
        "hex" => Part::Hex(rest),
        "text" => Part::Text(rest),
        "copy" => Part::Copy(rest),
        "keep" => Part::Keep(read_number(rest)?),
        "fill" => {
            let (count, byte) = read_numbered(rest)?;
            Part::Fill(count, byte)
        }
        "at" => {
            let (place, bytes) = read_numbered(rest)?;
            Part::At(place, bytes)
        }
        "line" => {
            let (number, text) = read_numbered(rest)?;
            Part::Change(number, text)
        }
        _ => return Err(Problem::Part),
    };
    Ok(part)
}

/// A range of rounds, as `0..51`.
fn read_range(word: &str) -> Result<(u32, u32), Problem> {
    match word.split_once("..") {
        Some((first, last)) => Ok((read_decimal(first)?, read_decimal(last)?)),
        None => {
            let round = read_decimal(word)?;
            Ok((round, round))
        }
    }
}

/// A status before its colon.
fn read_status(word: &str) -> Result<u8, Problem> {
    match word.parse::<u8>() {
        Ok(status) => Ok(status),
        Err(_) => Err(Problem::Detail),
    }
}

/// An answer, as `8: still running` for all rounds or `0..51 6: not a program: E1 short`.
fn read_answer(line: &str) -> Result<Answer<'_>, Problem> {
    let Some((front, text)) = line.split_once(':') else {
        return Err(Problem::Detail);
    };
    let text = text.strip_prefix(' ').unwrap_or(text);
    let (range, status) = split_word(front);
    if status.is_empty() {
        let status = read_status(range)?;
        return Ok(Answer {
            first: 0,
            last: u32::MAX,
            status,
            line: text,
        });
    }
    let (first, last) = read_range(range)?;
    Ok(Answer {
        first,
        last,
        status: read_status(status)?,
        line: text,
    })
}

/// The numbers of reads that fail.
fn add_failing(case: &mut Case<'_>, words: &str) -> Result<(), Problem> {
    for word in words.split_whitespace() {
        case.failing.push(read_number(word)?)?;
    }
    Ok(())
}

/// A count of bytes and a digest.
fn read_digest(words: &str) -> Result<Source<'_>, Problem> {
    let (count, digest) = split_word(words);
    Ok(Source::Digest(read_decimal(count)?, digest))
}

/// A course, as `1 0 px`: pieces on out and on err, and the names that are fetched.
fn read_course(words: &str) -> Result<Course<'_>, Problem> {
    let (out, rest) = split_word(words);
    let (err, fetched) = split_word(rest);
    Ok(Course {
        fetched,
        out: read_decimal(out)?,
        err: read_decimal(err)?,
    })
}

/// Three points: the text goes on, before the first line or after the last.
fn open(case: &mut Case<'_>) {
    if case.lines.is_empty() && !case.is_open_before {
        case.is_open_before = true;
    } else {
        case.is_open_after = true;
    }
}

/// What a command says by a word and the rest of its line.
fn add_word<'a>(case: &mut Case<'a>, line: &'a str) -> Result<(), Problem> {
    let (word, rest) = split_word(line);
    match word {
        "..." => open(case),
        "reads" => case.piece = read_number(rest)?,
        "failing" => add_failing(case, rest)?,
        "room" => case.out_room = read_number(rest)?,
        "err-room" => case.err_room = read_number(rest)?,
        "out" => case.source = Source::File(rest),
        "digest" => case.source = read_digest(rest)?,
        "course" => case.course = Some(read_course(rest)?),
        "save" => case.saved = Some(rest),
        _ => case.answers.push(read_answer(line)?)?,
    }
    Ok(())
}

/// A line that belongs to a command.
fn add_detail<'a>(case: &mut Case<'a>, line: &'a str) -> Result<(), Problem> {
    match after_bar(line) {
        Some(text) => case.lines.push(text)?,
        None => add_word(case, line)?,
    }
    Ok(())
}

/// A step of a file, with its line.
fn add_step<'a>(file: &mut NewFile<'a>, line: u32, text: &'a str) -> Result<(), Problem> {
    let part = read_part(text)?;
    file.steps.push(Step { line, part })?;
    Ok(())
}

/// A line that belongs to the last item.
fn add_to_last<'a>(section: &mut Section<'a>, line: u32, text: &'a str) -> Result<(), Problem> {
    match section.items.last_mut() {
        Some(Item::File(file)) => add_step(file, line, text),
        Some(Item::Case(case)) => add_detail(case, text),
        None => Err(Problem::Beginning),
    }
}

/// A new file, whose first step may stand on its line.
fn new_file<'a>(alloc: Global, line: u32, rest: &'a str) -> Result<NewFile<'a>, Problem> {
    let (name, first) = split_word(rest);
    let mut file = NewFile {
        line,
        name,
        steps: Vec::new(alloc),
    };
    if !first.is_empty() {
        add_step(&mut file, line, first)?;
    }
    Ok(file)
}

/// The sections so far, the one that is being read, and the title in force.
#[derive(Drop)]
struct Reader<'a> {
    done: Vec<Section<'a>>,
    section: Section<'a>,
    title: &'a str,
}

/// Puts the section away and begins another.
fn begin<'a>(reader: &mut Reader<'a>, section: Section<'a>) -> Result<(), Problem> {
    let before = std::mem::replace(&mut reader.section, section);
    reader.done.push(before)?;
    Ok(())
}

/// A loop's first and last number.
fn begin_loop(reader: &mut Reader<'_>, alloc: Global, rest: &str) -> Result<(), Problem> {
    if reader.section.is_loop {
        return Err(Problem::Loop);
    }
    let (first, last) = read_range(rest)?;
    begin(reader, new_section(alloc, first, last, true))
}

fn end_loop(reader: &mut Reader<'_>, alloc: Global) -> Result<(), Problem> {
    if !reader.section.is_loop {
        return Err(Problem::Loop);
    }
    begin(reader, new_section(alloc, 0, 0, false))
}

/// A line that isn't empty and no comment.
fn add_line<'a>(
    reader: &mut Reader<'a>,
    alloc: Global,
    line: u32,
    text: &'a str,
) -> Result<(), Problem> {
    let (word, rest) = split_word(text);
    match word {
        "case" => reader.title = rest,
        "each" => begin_loop(reader, alloc, rest)?,
        "end" => end_loop(reader, alloc)?,
        "file" => {
            let file = new_file(alloc, line, rest)?;
            reader.section.items.push(Item::File(file))?;
        }
        "$" => {
            let case = new_case(alloc, line, reader.title, rest)?;
            reader.section.items.push(Item::Case(case))?;
        }
        _ => add_to_last(&mut reader.section, line, text)?,
    }
    Ok(())
}

/// Puts the last section away, which is no loop without its end.
fn end_text(reader: &mut Reader<'_>, alloc: Global) -> Result<(), Problem> {
    if reader.section.is_loop {
        return Err(Problem::Loop);
    }
    begin(reader, new_section(alloc, 0, 0, false))
}

/// The sections of a transcript.
pub fn parse(alloc: Global, text: &str) -> Result<Vec<Section<'_>>, Malformed> {
    let mut reader = Reader {
        done: Vec::new(alloc),
        section: new_section(alloc, 0, 0, false),
        title: "",
    };
    let mut number = 0u32;
    for line in text.split('\n') {
        number = number.saturating_add(1);
        let line = line.trim_start();
        if line.is_empty() || line.starts_with('#') {
            continue;
        }
        on_line(number, add_line(&mut reader, alloc, number, line))?;
    }
    on_line(number, end_text(&mut reader, alloc))?;
    Ok(reader.done)
}
