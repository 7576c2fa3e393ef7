//! What follows from the definitions of the answers alone.

ghost use Rattle.std.specs.Prelude.{◌≡◌, ◌<◌, ◌≤◌, ℕ, List, length, All, Ok, Option, Some};
ghost use Rattle.fault_io.specs.Files.{Files};
ghost use Rattle.elf32.specs.Loads.{loaded_program};
ghost use Rattle.report_laws.specs.Made.{first_input};
ghost use Rattle.crash_tool.specs.Refusals.{Answer};
ghost use Rattle.tool_words.specs.declared.words.Options.{Options};
ghost use Rattle.tool_words.specs.declared.words.Action.TheVariants.{Make, Check};
ghost use Rattle.tool_words.specs.Words.{AreWithin, Asked, Task};
ghost use Rattle.crash_tool.specs.Answers.{IsAnswerTo, IsDone};
ghost use Rattle.crash_tool.specs.Made.{transcript_under};
ghost use Rattle.crash_tool.specs.Outcome.{outcome};
ghost use Rattle.crash_tool.specs.Received.{IsByReading, check_answer, check_line};

/// Two inputs of equal length and trace have one outcome: equal bytes on out and on err, and an
/// equal status.
pub fn equal_traces_have_one_outcome()
    ensures { (p x y : List ℕ) (o : Options) → length x ≡ length y → transcript_under p o x ≡ transcript_under p o y →
        outcome p o (length x) (transcript_under p o x) ≡ outcome p o (length y) (transcript_under p o y) }
{}

/// The input that a report gives in place of the original has the original's length and trace, and
/// so the same outcome: `make` on it gives the same report.
pub fn a_report_reproduces_itself()
    ensures same { (p x : List ℕ) (o : Options) → All (λ byte. byte < 256) x →
        let y = first_input (loaded_program p) o.seed o.steps (transcript_under p o x) in
        outcome p o (length y) (transcript_under p o y) ≡ outcome p o (length x) (transcript_under p o x) }
{}

/// Words have one answer over the files that are held.
pub fn words_and_files_have_one_answer()
    ensures { (asked : Option Asked) (held : Files) (a b : Answer) → IsAnswerTo asked held a → IsAnswerTo asked held b → a ≡ b }
{
    report_text_laws::a_text_has_one_report();
    report_text_laws::a_text_fails_at_one_line();
    rv_assemble::code_has_one_file();
}

/// What `make` writes, `check` accepts: where the outcome of a program and an input under some options is
/// a text, the answer to `check` of that text and the same program is `check ok`, under as many steps and
/// as many conflicts or more, and under any seed. So it is over files that are held: no report is too long.
pub fn what_make_writes_is_accepted()
    ensures answer { (p x text : List ℕ) (o more : Options) →
        All (λ byte. byte < 256) p → All (λ byte. byte < 256) x → AreWithin o →
        o.steps ≤ more.steps → o.conflicts ≤ more.conflicts →
        outcome p o (length x) (transcript_under p o x) ≡ Ok text →
        IsByReading (check_answer p more) text (Ok check_line) }
    ensures files { (p x text : List ℕ) (make check : Task) (held later : Files) →
        All (λ byte. byte < 256) p → All (λ byte. byte < 256) x → AreWithin make.options →
        make.options.steps ≤ check.options.steps → make.options.conflicts ≤ check.options.conflicts →
        make.action ≡ Make → held make.program ≡ Some p → held make.second ≡ Some x → IsDone make held (Ok text) →
        check.action ≡ Check → later check.program ≡ Some p → later check.second ≡ Some text →
        IsDone check later (Ok check_line) }
{
    report_laws::reports_of_runs_are_in_range();
    report_text_laws::a_text_fits_a_file();
    receiver_replay::laws::a_report_that_is_made_is_accepted();
}
