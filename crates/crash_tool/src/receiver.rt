//! The answers to a receiver, who has a program and the text of a report, and the run of a program.

ghost use Rattle.std.specs.Prelude.{◌≡◌, ◌≤◌, length, IfOk, IfErr};
ghost use Rattle.elf32.specs.Rules.{refusal};
ghost use Rattle.crash_tool.specs.Answers.{run_answer};
ghost use Rattle.crash_tool.specs.Made.{transcript_under};
ghost use Rattle.crash_tool.specs.Received.{IsByReading, replay_answer, check_answer, IsAccepted};
ghost use Rattle.tool_words.specs.Words.{AreWithin};
ghost use Rattle.crash_tool.specs.Call.{IsBut, IsOfFiles};

use crate::answer::Answer;
use crate::run_text::{no_counters, run_text};
use elf32::read_image;
use receiver_replay::{check_report, replay_report};
use report_format::{Bytes, read_report};
use rv_machine::Machine;
use std::alloc::Global;
use tool_words::Options;
use watched_run::watch_run;

/// The run of a program on an input, however it ends.
pub fn run(alloc: Global, program: &[u8], options: Options, input: &[u8]) -> Answer
    requires few { length input.now ≤ 65536 }
    ensures answer { IsBut (λ answer.
        answer ≡ run_answer (refusal program.now) (transcript_under program.now options input.now)) result }
    ensures kind { IfErr result IsOfFiles }
{
    let image = read_image(alloc, program)?;
    let mut machine = Machine::start(alloc, &image)?;
    let mut counters = no_counters(alloc);
    let run = watch_run(&mut machine, input, options.steps, &mut counters)?;
    Ok(run_text(alloc, run, &counters)?)
}

/// The run on a report's input, where the run is the report's.
pub fn replay(alloc: Global, program: &[u8], text: &[u8]) -> Answer
    ensures answer { IsBut (IsByReading (replay_answer program.now) text.now) result }
    ensures kind { IfErr result IsOfFiles }
{
    let report = read_report(alloc, text)?;
    let mut counters = no_counters(alloc);
    let run = replay_report(alloc, program, &report, &mut counters)?;
    Ok(run_text(alloc, run, &counters)?)
}

/// Whether a report is the one that the program gives on the report's input.
pub fn check(alloc: Global, program: &[u8], options: Options, text: &[u8]) -> Answer
    requires options { AreWithin options }
    ensures answer { IsBut (IsByReading (check_answer program.now options) text.now) result }
    ensures accepted { IfOk result (λ _. IsAccepted program.now options text.now) }
    ensures kind { IfErr result IsOfFiles }
{
    let report = read_report(alloc, text)?;
    check_report(
        alloc,
        program,
        &report,
        text,
        options.steps,
        options.conflicts,
    )?;
    Ok(Bytes::from_vec(b"check ok\n".to_vec(alloc)?))
}
