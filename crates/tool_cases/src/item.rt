//! What stands in a transcript: files, commands and what they are to say.

use crate::text::Number;

/// A step by which a file comes to be.
#[derive(Clone, Copy)]
pub enum Part<'a> {
    /// More words of a program's code.
    Code(&'a str),
    /// A region of that program.
    Region(&'a str),
    /// Bytes in hexadecimal.
    Hex(&'a str),
    /// Text without a line end.
    Text(&'a str),
    /// A line of text with its end.
    Line(&'a str),
    /// One byte so many times.
    Fill(Number, &'a str),
    /// The bytes of an earlier file.
    Copy(&'a str),
    /// Bytes in the place of those at a place.
    At(Number, &'a str),
    /// Only the first so many bytes.
    Keep(Number),
    /// A line in the place of that of a number, counted from 1.
    Change(Number, &'a str),
}

/// A part and the number of its line.
#[derive(Clone, Copy)]
pub struct Step<'a> {
    pub line: u32,
    pub part: Part<'a>,
}

/// A file under a name.
#[derive(Drop)]
pub struct NewFile<'a> {
    pub line: u32,
    pub name: &'a str,
    pub steps: Vec<Step<'a>>,
}

/// The status and the line on err, for the rounds of a range.
#[derive(Clone, Copy)]
pub struct Answer<'a> {
    pub first: u32,
    pub last: u32,
    pub status: u8,
    pub line: &'a str,
}

/// What out is to have.
#[derive(Clone, Copy)]
pub enum Source<'a> {
    /// The lines that stand with the command.
    Lines,
    /// The bytes of a file.
    File(&'a str),
    /// So many bytes with this digest.
    Digest(u32, &'a str),
}

/// What is asked of the folder and put on the sinks.
#[derive(Clone, Copy)]
pub struct Course<'a> {
    pub fetched: &'a str,
    pub out: u32,
    pub err: u32,
}

/// A command and what it is to say.
#[derive(Drop)]
pub struct Case<'a> {
    pub line: u32,
    pub title: &'a str,
    /// The command as it stands, and its words without their quotes.
    pub command: &'a str,
    pub words: Vec<&'a str>,
    pub piece: Number,
    pub failing: Vec<Number>,
    pub out_room: Number,
    pub err_room: Number,
    pub answers: Vec<Answer<'a>>,
    pub source: Source<'a>,
    pub lines: Vec<&'a str>,
    /// Whether out may have more before the lines, and after them.
    pub is_open_before: bool,
    pub is_open_after: bool,
    pub course: Option<Course<'a>>,
    pub saved: Option<&'a str>,
}

/// A file or a command.
#[derive(Drop)]
pub enum Item<'a> {
    File(NewFile<'a>),
    Case(Case<'a>),
}

/// Items that are gone through once for each number of a range.
#[derive(Drop)]
pub struct Section<'a> {
    pub first: u32,
    pub last: u32,
    pub is_loop: bool,
    pub items: Vec<Item<'a>>,
}
