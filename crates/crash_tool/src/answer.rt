//! What the tool has to say: a text, or a refusal with its status and its line.

ghost use Rattle.std.specs.Prelude.{◌≡◌, ◌≤◌, [], ◌∷◌, ◌++◌, length};
ghost use Rattle.std.specs.Fmt.{decimal};
ghost use Rattle.crash_tool.specs.declared.answer.Refusal.TheVariants.{NoMemory, NotAProgram, Spent};
ghost use Rattle.crash_tool.specs.Refusals.{status_of, line_of};
ghost use Rattle.crash_tool.specs.Refusals.{of_words, IsOfRule, of_report, of_read, of_receive};

use arrayvec::ArrayString;
use elf32::ElfError;
use itoa::Buffer;
use receiver_replay::ReceiveError;
use report_format::{Bytes, ReadError};
use report_maker::ReportError;
use std::alloc::AllocError;
use tool_words::WordsError;

/// A file that the words name.
#[derive(Clone, Copy, Debug, PartialEq, Eq)]
pub enum Role {
    Program,
    Input,
    Report,
}

/// Why there is no text, in the order of the statuses.
#[derive(Clone, Copy, Debug, PartialEq, Eq)]
pub enum Refusal {
    /// Memory could not be had.
    NoMemory,
    /// The words are not a command.
    Usage,
    /// A read failed, or the folder lacks the file.
    CannotRead(Role),
    /// A program of more than 16,777,216 bytes, an input of more than 65,536, or a report of more
    /// than 8,388,608.
    TooLong(Role),
    /// The program's file breaks a rule, of which this is the first.
    NotAProgram(ElfError),
    /// The run ended by an exit.
    NoCrash,
    /// The run did not end within the limit of steps.
    StillRunning,
    /// The search for the first bytes of a group of more than two counted as many conflicts as it
    /// may. It is the first such group.
    Spent {
        /// The group's first byte.
        first: u32,
        /// How many bytes the group has.
        width: u32,
    },
    /// The bytes are not the text of a report.
    NotAReport {
        /// The first line, counted from 1, that no report text with the same earlier lines has.
        line: u32,
    },
    /// The program is not the one that the report names.
    WrongProgram,
    /// The run on the report's input gives another report, or another end.
    Differs {
        /// The first line of the report, counted from 1, that the run does not give.
        line: u32,
    },
}

/// What the tool has to say, before it says it: a text, or a refusal.
pub type Answer = Result<Bytes, Refusal>;

impl From<AllocError> for Refusal {
    ghost from_gives = { λ _ refusal. refusal ≡ NoMemory };

    fn from(_error: AllocError) -> Refusal {
        Refusal::NoMemory
    }
}

impl From<WordsError> for Refusal {
    ghost from_gives = { λ error refusal. refusal ≡ of_words error };

    fn from(error: WordsError) -> Refusal {
        match error {
            WordsError::NoMemory => Refusal::NoMemory,
            WordsError::Usage => Refusal::Usage,
        }
    }
}

impl From<ElfError> for Refusal {
    ghost from_gives = { λ rule refusal. IsOfRule rule refusal };

    fn from(rule: ElfError) -> Refusal {
        match rule {
            ElfError::NoMemory => Refusal::NoMemory,
            _ => Refusal::NotAProgram(rule),
        }
    }
}

impl From<ReportError> for Refusal {
    ghost from_gives = { λ error refusal. refusal ≡ of_report error };

    fn from(error: ReportError) -> Refusal {
        match error {
            ReportError::Program(rule) => Refusal::NotAProgram(rule),
            ReportError::StillRunning => Refusal::StillRunning,
            ReportError::NoCrash => Refusal::NoCrash,
            ReportError::Spent { first, width } => Refusal::Spent { first, width },
            ReportError::NoMemory => Refusal::NoMemory,
        }
    }
}

impl From<ReadError> for Refusal {
    ghost from_gives = { λ error refusal. refusal ≡ of_read error };

    fn from(error: ReadError) -> Refusal {
        match error {
            ReadError::Line(line) => Refusal::NotAReport { line },
            ReadError::NoMemory => Refusal::NoMemory,
        }
    }
}

impl From<ReceiveError> for Refusal {
    ghost from_gives = { λ error refusal. refusal ≡ of_receive error };

    fn from(error: ReceiveError) -> Refusal {
        match error {
            ReceiveError::WrongProgram => Refusal::WrongProgram,
            ReceiveError::Program(rule) => Refusal::NotAProgram(rule),
            ReceiveError::StillRunning => Refusal::StillRunning,
            ReceiveError::NoCrash => Refusal::NoCrash,
            ReceiveError::Spent { first, width } => Refusal::Spent { first, width },
            ReceiveError::Differs { line } => Refusal::Differs { line },
            ReceiveError::NoMemory => Refusal::NoMemory,
        }
    }
}

/// A line of err.
pub type Line = ArrayString<96>;

/// The status of a refusal.
pub fn status_of(refusal: Refusal) -> u8
    ensures { result ≡ status_of refusal }
{
    match refusal {
        Refusal::NoMemory => 1,
        Refusal::Usage => 2,
        Refusal::CannotRead(_) => 3,
        Refusal::TooLong(_) => 5,
        Refusal::NotAProgram(_) => 6,
        Refusal::NoCrash => 7,
        Refusal::StillRunning => 8,
        Refusal::Spent { .. } => 9,
        Refusal::NotAReport { .. } => 10,
        Refusal::WrongProgram => 11,
        Refusal::Differs { .. } => 12,
    }
}

/// A line that ends in a number, with its line end. It takes no memory.
fn numbered_line(text: &str, number: u32) -> Line
    requires { length text.now ≤ 64 }
    ensures { result.bytes ≡ text.now ++ decimal number ++ 10 ∷ [] }
{
    let mut digits = Buffer::new();
    let mut line = ArrayString::new();
    line.push_str(text);
    line.push_str(digits.format(number));
    line.push_str("\n");
    line
}

/// The line of a group that spends the conflicts, with its line end.
#[tactic(auto, unfolding(crate::specs::Refusals::message_of))]
fn spent_line(first: u32, width: u32) -> Line
    ensures { result.bytes ≡ line_of (Spent first width) }
{
    let mut digits = Buffer::new();
    let mut line = ArrayString::new();
    line.push_str("conflicts spent: first ");
    line.push_str(digits.format(first));
    line.push_str(" width ");
    line.push_str(digits.format(width));
    line.push_str("\n");
    line
}

/// A line without a number.
fn plain_line(text: &str) -> Line
    requires { length text.now ≤ 96 }
    ensures { result.bytes ≡ text.now }
{
    let mut line = ArrayString::new();
    line.push_str(text);
    line
}

/// The line of a refusal, with its line end. It takes no memory.
#[tactic(auto, unfolding(crate::specs::Refusals::message_of))]
pub fn line_of(refusal: Refusal) -> Line
    ensures { result.bytes ≡ line_of refusal }
{
    match refusal {
        Refusal::NoMemory => plain_line("no memory\n"),
        Refusal::Usage => plain_line(
            "usage: crash_cli ACTION FIRST SECOND [--seed N] [--steps N] [--conflicts N]\n",
        ),
        Refusal::CannotRead(Role::Program) => plain_line("cannot read program\n"),
        Refusal::CannotRead(Role::Input) => plain_line("cannot read input\n"),
        Refusal::CannotRead(Role::Report) => plain_line("cannot read report\n"),
        Refusal::TooLong(Role::Program) => plain_line("program too long\n"),
        Refusal::TooLong(Role::Input) => plain_line("input too long\n"),
        Refusal::TooLong(Role::Report) => plain_line("report too long\n"),
        Refusal::NotAProgram(rule) => plain_line(rule_line(rule)),
        Refusal::NoCrash => plain_line("no crash\n"),
        Refusal::StillRunning => plain_line("still running\n"),
        Refusal::Spent { first, width } => spent_line(first, width),
        Refusal::NotAReport { line } => numbered_line("not a report: line ", line),
        Refusal::WrongProgram => plain_line("wrong program\n"),
        Refusal::Differs { line } => numbered_line("differs: line ", line),
    }
}

/// The line of a file that breaks a rule.
#[tactic(auto, unfolding(crate::specs::Refusals::message_of, crate::specs::Refusals::rule_name))]
fn rule_line(rule: ElfError) -> &'static str
    ensures line { result.now ≡ line_of (NotAProgram rule) }
    ensures short { length result.now ≤ 96 }
{
    match rule {
        ElfError::Short => "not a program: E1 short\n",
        ElfError::NotElf => "not a program: E2 not-elf\n",
        ElfError::Class => "not a program: E3 class\n",
        ElfError::Data => "not a program: E4 data\n",
        ElfError::Kind => "not a program: E5 kind\n",
        ElfError::Machine => "not a program: E6 machine\n",
        ElfError::Flags => "not a program: E7 flags\n",
        ElfError::Table => "not a program: E8 table\n",
        ElfError::Dynamic => "not a program: E9 dynamic\n",
        ElfError::Segment => "not a program: E10 segment\n",
        ElfError::Overlap => "not a program: E11 overlap\n",
        ElfError::TooBig => "not a program: E12 too-big\n",
        ElfError::Entry => "not a program: E13 entry\n",
        ElfError::NoMemory => "not a program: \n",
    }
}
