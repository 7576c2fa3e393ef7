//! The top call: from words and files to a status, a text on out and a line on err.

ghost use Rattle.std.specs.Prelude.{◌≡◌, ◌≢◌, ◌⊎◌, ℕ, ◌≤◌, List, [], ◌∷◌, ◌++◌, map, length, None, Some, Err, IfSome, IfOk, IfErr};
ghost use Rattle.std.specs.String.{string_bytes};
ghost use Rattle.fault_io.specs.Faults.{Rose, NoFault};
ghost use Rattle.report_format.specs.Text.{Content};
ghost use Rattle.report_format.specs.Reading.{IsTextOf};
ghost use Rattle.receiver_replay.specs.Right.{IsRight};
ghost use Rattle.crash_tool.specs.Refusals.{status, out_of, err_of, IsLineOf, IsGiven};
ghost use Rattle.tool_words.specs.Words.{make_of, asked_of, task_of, task_value, OnFiles, AreWithin};
ghost use Rattle.crash_tool.specs.Made.{transcript_under};
ghost use Rattle.crash_tool.specs.Outcome.{outcome};
ghost use Rattle.crash_tool.specs.Answers.{IsAnswerTo, ReadsFiles, files_for, IsDone, read_of, limit_of};
ghost use Rattle.crash_tool.specs.Call.{change, Gives, TakesLine, TakesNothing, Takes, TakesPrefix, HasFault, HasNoFault};
ghost use Rattle.crash_tool.specs.Call.{OfRight, IsReadFault, IsRightBut, IsReadBut, IsCannotRead, IsStatusBut};
ghost use Rattle.crash_tool.specs.Call.{IsReceived};
ghost use Rattle.crash_tool.specs.Requests.{request, AsksFor};

use crate::actions::{answer_of, limit_of, role_of};
use crate::answer::{Answer, Refusal, Role};
use crate::demo::demo;
use crate::say::say;
use fault_io::{Bytes, FetchFault, Fetched, Folder, Sink};
use std::alloc::Global;
use tool_words::{Action, Asked, Task, read_words};

/// The bytes of a file, or why there are none.
fn read<F: Folder>(alloc: Global, folder: &mut F, name: &str, role: Role) -> Result<Bytes, Refusal>
    ensures files { F.files folder.new ≡ F.files folder.old }
    ensures counts { F.faults folder.old ≤ F.faults folder.new }
    ensures told { IfSome (F.files folder.old) (λ held.
        IsReadBut (read_of role (held name.now)) (Rose (F.faults folder.old) (F.faults folder.new)) result) }
    ensures untold { F.files folder.old ≡ None →
        IfErr result (λ e. IsCannotRead e → Rose (F.faults folder.old) (F.faults folder.new)) }
    ensures asked { F.asked folder.new ≡ F.asked folder.old ++ request name.now role ∷ [] }
    ensures refused { IfErr result (λ e. (e ≡ Refusal.NoMemory) ⊎ ((e ≡ Refusal.CannotRead role) ⊎ (e ≡ Refusal.TooLong role))) }
    ensures no_usage { IfErr result (λ e. e ≢ Refusal.Usage) }
    ensures given { IfErr result IsGiven }
    ensures within { IfOk result (λ bytes. length bytes ≤ limit_of role) }
{
    match folder.fetch(alloc, name, limit_of(role)) {
        Ok(Fetched::Whole(bytes)) => Ok(bytes),
        Ok(Fetched::TooLong) => Err(Refusal::TooLong(role)),
        Ok(Fetched::Missing) => Err(Refusal::CannotRead(role)),
        Err(FetchFault::Failed) => Err(Refusal::CannotRead(role)),
        Err(FetchFault::NoMemory) => Err(Refusal::NoMemory),
    }
}

/// The answer to an action: the program is read first, and the second file only where the program
/// was read.
#[tactic(auto, using(crate::proofs::AnswerLemmas::no_read_fault, crate::proofs::AnswerLemmas::no_usage, crate::proofs::AnswerLemmas::of_files))]
fn answer_task<F: Folder>(alloc: Global, task: &Task, folder: &mut F) -> Answer
    requires options { AreWithin task.now.options }
    ensures files { F.files folder.new ≡ F.files folder.old }
    ensures counts { F.faults folder.old ≤ F.faults folder.new }
    ensures told { IfSome (F.files folder.old) (λ held.
        IsRightBut (IsDone (task_value task.now) held) (Rose (F.faults folder.old) (F.faults folder.new)) result) }
    ensures received { IfSome (F.files folder.old) (IsReceived (task_value task.now) result) }
    ensures untold { F.files folder.old ≡ None → IsReadFault result → Rose (F.faults folder.old) (F.faults folder.new) }
    ensures asked { AsksFor (Some (OnFiles (task_value task.now))) (F.files folder.old) (Rose (F.faults folder.old) (F.faults folder.new))
        (F.asked folder.old) (F.asked folder.new) (status result) }
    ensures no_usage { result ≢ Err Refusal.Usage }
    ensures given { IfErr result IsGiven }
{
    let program = read(alloc, folder, task.program, Role::Program)?;
    let second = read(alloc, folder, task.second, role_of(task.action))?;
    answer_of(
        alloc,
        task.action,
        program.as_slice(),
        task.options,
        second.as_slice(),
    )
}

/// What to say, from the words and the files.
#[tactic(auto, using(crate::proofs::AnswerLemmas::no_read_fault, crate::proofs::AnswerLemmas::no_usage, crate::proofs::AnswerLemmas::of_files))]
fn decide<F: Folder>(alloc: Global, words: &[String], folder: &mut F) -> Answer
    ensures files { F.files folder.new ≡ F.files folder.old }
    ensures counts { F.faults folder.old ≤ F.faults folder.new }
    ensures told { IfSome (files_for (asked_of (map string_bytes words.now)) (F.files folder.old)) (λ held.
        IsRightBut (IsAnswerTo (asked_of (map string_bytes words.now)) held) (Rose (F.faults folder.old) (F.faults folder.new)) result) }
    ensures received { IfSome (task_of (map string_bytes words.now)) (λ task.
        IfSome (F.files folder.old) (IsReceived task result)) }
    ensures untold { F.files folder.old ≡ None → IsReadFault result → Rose (F.faults folder.old) (F.faults folder.new) }
    ensures reads { IsReadFault result → ReadsFiles (asked_of (map string_bytes words.now)) }
    ensures asked { AsksFor (asked_of (map string_bytes words.now)) (F.files folder.old) (Rose (F.faults folder.old) (F.faults folder.new))
        (F.asked folder.old) (F.asked folder.new) (status result) }
    ensures usage { result ≡ Err Refusal.Usage → asked_of (map string_bytes words.now) ≡ None }
    ensures words { asked_of (map string_bytes words.now) ≡ None →
        (result ≡ Err Refusal.Usage) ⊎ (result ≡ Err Refusal.NoMemory) }
    ensures given { IfErr result IsGiven }
{
    match read_words(alloc, words)? {
        Asked::Files(task) => answer_task(alloc, &task, folder),
        Asked::Demo {
            kind,
            size,
            options,
        } => demo(alloc, kind, size, options),
    }
}

/// Does all that the program does, and answers its status. Every crash is served: a report comes
/// of it, or status 9 where the bytes of one group spend the conflicts of `--conflicts`.
///
/// `words` are the words after the program's name. At status 0 the text is on `out` and nothing on
/// `err`. At any other status one line is put on `err`, and nothing is on `out` but at status 4,
/// where a write to `out` failed and it has a first part of the text. A line that cannot be put on
/// `err` changes no status. Status 1, for want of memory, may come at any time before the first
/// put on `out`.
pub fn run_tool<F: Folder, O: Sink, E: Sink>(
    alloc: Global,
    words: &[String],
    folder: &mut F,
    out: &mut O,
    err: &mut E,
) -> u8
    // Each status has its cause.
    ensures usage { result ≡ 2 → asked_of (map string_bytes words.now) ≡ None }
    ensures words { asked_of (map string_bytes words.now) ≡ None → (result ≡ 2) ⊎ (result ≡ 1) }
    ensures read { result ≡ 3 → F.files folder.old ≡ None → Rose (F.faults folder.old) (F.faults folder.new) }
    ensures reads { result ≡ 3 → ReadsFiles (asked_of (map string_bytes words.now)) }
    ensures write { result ≡ 4 → HasFault (change O.holds O.faults out.old out.new) }
    ensures told { IfSome (files_for (asked_of (map string_bytes words.now)) (F.files folder.old)) (λ held.
        IsStatusBut (IsAnswerTo (asked_of (map string_bytes words.now)) held)
        (Rose (F.faults folder.old) (F.faults folder.new))
        (HasFault (change O.holds O.faults out.old out.new)) result) }

    // What is on out.
    ensures text { IfSome (files_for (asked_of (map string_bytes words.now)) (F.files folder.old)) (λ held. result ≡ 0 →
        OfRight (IsAnswerTo (asked_of (map string_bytes words.now)) held)
        (λ answer. Takes (change O.holds O.faults out.old out.new) (out_of answer))) }
    ensures part { IfSome (files_for (asked_of (map string_bytes words.now)) (F.files folder.old)) (λ held. result ≡ 4 →
        OfRight (IsAnswerTo (asked_of (map string_bytes words.now)) held)
        (λ answer. TakesPrefix (change O.holds O.faults out.old out.new) (out_of answer))) }
    ensures nothing { result ≢ 0 → result ≢ 4 → TakesNothing (change O.holds O.faults out.old out.new) }

    // What is on err.
    ensures quiet { result ≡ 0 → TakesNothing (change E.holds E.faults err.old err.new) }
    ensures line { result ≢ 0 → (line : List ℕ) × IsLineOf result line
        × TakesLine (change E.holds E.faults err.old err.new) line }
    ensures line_told { IfSome (files_for (asked_of (map string_bytes words.now)) (F.files folder.old)) (λ held.
        result ≢ 0 → result ≢ 1 → result ≢ 4 → (result ≡ 3 → NoFault (F.faults folder.old) (F.faults folder.new)) →
        OfRight (IsAnswerTo (asked_of (map string_bytes words.now)) held)
        (λ answer. TakesLine (change E.holds E.faults err.old err.new) (err_of answer))) }

    // Without want of memory and failing reads or writes: all of it is what words and files fix.
    ensures complete { IfSome (files_for (asked_of (map string_bytes words.now)) (F.files folder.old)) (λ held.
        result ≢ 1 → NoFault (F.faults folder.old) (F.faults folder.new) →
        HasNoFault (change O.holds O.faults out.old out.new) → HasNoFault (change E.holds E.faults err.old err.new) →
        OfRight (IsAnswerTo (asked_of (map string_bytes words.now)) held) (λ answer.
        Gives answer (change O.holds O.faults out.old out.new) (change E.holds E.faults err.old err.new) result)) }

    // The folder is asked for the program and then for the second file, each at most once and with
    // its limit, and for nothing else.
    ensures asked { AsksFor (asked_of (map string_bytes words.now)) (F.files folder.old) (Rose (F.faults folder.old) (F.faults folder.new))
        (F.asked folder.old) (F.asked folder.new) result }

    // The folder keeps its files, and no count of faults falls.
    ensures files { F.files folder.new ≡ F.files folder.old }
    ensures counts { (F.faults folder.old ≤ F.faults folder.new) × (O.faults out.old ≤ O.faults out.new)
        × (E.faults err.old ≤ E.faults err.new) }

    // Where a report is accepted, what it says is right, whoever wrote it.
    ensures received { IfSome (task_of (map string_bytes words.now)) (λ task. IfSome (F.files folder.old) (λ held. (p bytes : List ℕ) →
        task.action ≡ Action.Check → held task.program ≡ Some p → held task.second ≡ Some bytes → result ≡ 0 →
        (report : Content) × IsTextOf report bytes × IsRight p report task.options.steps)) }

    // And where both files of `make` are held, it is what program, options, input length and trace fix.
    ensures headline { IfSome (make_of (map string_bytes words.now)) (λ make. IfSome (F.files folder.old) (λ held. (p x : List ℕ) →
        held make.program ≡ Some p → held make.input ≡ Some x →
        result ≢ 1 → NoFault (F.faults folder.old) (F.faults folder.new) →
        HasNoFault (change O.holds O.faults out.old out.new) → HasNoFault (change E.holds E.faults err.old err.new) →
        Gives (outcome p make.options (length x) (transcript_under p make.options x))
        (change O.holds O.faults out.old out.new) (change E.holds E.faults err.old err.new) result)) }
{
    let answer = decide(alloc, words, folder);
    say(out, err, &answer)
}
