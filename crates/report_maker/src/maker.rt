//! The report of a run.

ghost use Rattle.std.specs.Prelude.{◌≡◌, ◌≤◌, ◌<◌, ℕ, List, None, Some, Err, length, map, IfOk};
ghost use Rattle.elf32.specs.Loads.{loaded_program, program_of};
ghost use Rattle.rv_event.specs.declared.event.End.TheVariants as ends;
ghost use Rattle.rv_event.specs.declared.event.Trap.{Trap as Crash};
ghost use Rattle.replay_law.specs.Crash.{IsProgram, IsTrapped, IsCrash};
ghost use Rattle.trace_conditions.specs.Conditions.{conditions_of};
ghost use Rattle.input_laws.specs.Sets.{IsChoice};
ghost use Rattle.byte_sets.specs.ByteSet.{has};
ghost use Rattle.report_format.specs.Text.{IsReport, content_of};
ghost use Rattle.report_laws.specs.Divided.{AreDivided};
ghost use Rattle.report_laws.specs.Made.{number_of_groups, number_of_conflicts, spent_of, report_with, report_of};
ghost use Rattle.report_maker.specs.declared.error.MakeError.TheVariants.{Spent};

use crate::error::MakeError;
use crate::fill::fill_all;
use crate::mask::order_mask;
use byte_groups::{GroupList, groups};
use byte_sets::ByteSet;
use elf32::Image;
use no_memory::NoMemory;
use report_format::laws::reports_are_in_range;
use report_format::{Bytes, Report, Sets};
use report_laws::{choices_have_the_trace, groups_make_the_report};
use rv_event::{End, Transcript, Trap};
use sha2::{Digest, Sha256};
use std::alloc::Global;
use sym_replay::replay;
use term_arena::Arena;

/// A report, and how its bytes were divided.
#[derive(Debug, Drop)]
pub struct Made {
    /// The report.
    pub report: Report,
    /// The number of groups of bytes that the conditions of the trace tie together, those of one
    /// byte among them: 0 to 65,536. A byte that no condition reads is in no group.
    pub groups: u32,
    /// How many conflicts the searches for the first bytes of all groups of more than two bytes
    /// counted together.
    pub conflicts: u64,
}

/// The groups of the conditions of a trace.
fn divide(
    alloc: Global,
    image: &Image,
    transcript: &Transcript,
    arena: &mut Arena,
) -> Result<GroupList, NoMemory>
    requires program { IsProgram (program_of image.now) }
    requires traced { (limit : ℕ) × (x : List ℕ) × IsCrash (program_of image.now) limit x transcript.now }
    ensures { IfOk result (λ groups.
        AreDivided arena.new (conditions_of (program_of image.now) transcript.now) transcript.now.n groups) }
{
    groups_make_the_report();
    let conditions = replay(alloc, image, transcript, arena)?;
    groups(alloc, arena, conditions.list())
}

/// The trap that ended a run.
fn trap_of(end: End) -> Trap
    requires { IsTrapped end }
    ensures { end ≡ ends.Trap result }
{
    match end {
        End::Trap(trap) => trap,
        _ => unreachable!(),
    }
}

/// The report of a program and a trace that says this input and these sets.
fn report_with(
    program: &[u8],
    transcript: &Transcript,
    seed: u64,
    input: Vec<u8>,
    sets: Vec<ByteSet>,
) -> Report
    requires short { length program.now ≤ 16777216 }
    requires few { length input.items ≤ 65536 }
    requires events { length transcript.now.events ≤ 10000000 }
    requires some { 0 < length transcript.now.events }
    requires trapped { IsTrapped transcript.now.end }
    requires choice { IsChoice (map has sets.items) input.items }
    ensures says { (trap : Crash) → transcript.now.end ≡ ends.Trap trap →
        content_of result ≡ report_with program.now seed transcript.now trap input.items (map has sets.items) }
    ensures input { result.input ≡ input.items }
    ensures sets { result.sets ≡ sets.items }
{
    Report {
        length: program.len() as u32,
        digest: Sha256::digest(program),
        trap: trap_of(transcript.end),
        steps: transcript.events.len() as u32,
        seed,
        input: Bytes::from_vec(input),
        sets: Sets::from_vec(sets),
    }
}

/// The report of a program of at most 16,777,216 bytes, whose image is given, and the trace of a
/// run on some input of at most 65,536 bytes, which ended in a trap after at most 10,000,000 events.
/// The input itself is not given.
///
/// `budget` bounds the conflicts that the search for the first bytes of a group of more than two
/// bytes may count. `Spent` comes exactly where a group reaches it, and names the first such group.
pub fn make_report(
    alloc: Global,
    image: &Image,
    program: &[u8],
    transcript: &Transcript,
    seed: u64,
    budget: u32,
) -> Result<Made, MakeError>
    requires short { length program.now ≤ 16777216 }
    requires few { transcript.now.n ≤ 65536 }
    requires events { length transcript.now.events ≤ 10000000 }
    requires entry { image.now.entry ≡ (loaded_program program.now).entry }
    requires segments { image.now.segments ≡ (loaded_program program.now).segments }
    requires traced { (limit : ℕ) × (x : List ℕ) × IsCrash (loaded_program program.now) limit x transcript.now }
    requires budget { 0 < budget }
    ensures report { IfOk result (λ made. (limit : ℕ) (x : List ℕ) (trap : Crash) →
        IsCrash (loaded_program program.now) limit x transcript.now → transcript.now.end ≡ ends.Trap trap →
        content_of made.report ≡ report_of program.now seed limit transcript.now trap) }
    ensures range { IfOk result (λ made. IsReport (content_of made.report)) }
    ensures groups { IfOk result (λ made. made.groups ≡ number_of_groups (loaded_program program.now) transcript.now) }
    ensures conflicts { IfOk result (λ made. made.conflicts ≡ number_of_conflicts (loaded_program program.now) seed transcript.now) }
    ensures unspent { IfOk result (λ _. spent_of (loaded_program program.now) seed transcript.now budget ≡ None) }
    ensures spent { (first width : ℕ) → result ≡ Err (Spent first width) →
        spent_of (loaded_program program.now) seed transcript.now budget ≡ Some (first, width) }
{
    groups_make_the_report();
    choices_have_the_trace();
    let mut arena = Arena::new(alloc)?;
    let divided = divide(alloc, image, transcript, &mut arena)?;
    let groups = divided.as_slice();
    let mask = order_mask(alloc, seed, transcript.n)?;
    let filled = fill_all(alloc, &arena, groups, mask.as_slice(), budget)?;
    let report = report_with(program, transcript, seed, filled.input, filled.sets);
    reports_are_in_range(&report);
    Ok(Made {
        report,
        groups: groups.len() as u32,
        conflicts: filled.conflicts,
    })
}
