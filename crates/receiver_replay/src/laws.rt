//! What follows from the definitions alone. Each function here calls other laws or has an empty body,
//! and its contract is a law.

ghost use Rattle.std.specs.Prelude.{◌≡◌, ◌<◌, ◌≤◌, ℕ, List, None, Ok, All};
ghost use Rattle.elf32.specs.Rules.{refusal};
ghost use Rattle.elf32.specs.Loads.{loaded_program};
ghost use Rattle.rv_event.specs.declared.event.End.TheVariants as ends;
ghost use Rattle.rv_event.specs.declared.event.Trap.{Trap as Crash};
ghost use Rattle.rv_machine.specs.Trace.{transcript_of};
ghost use Rattle.report_laws.specs.Made.{report_of};
ghost use Rattle.report_maker.specs.Made.{Made, made};
ghost use Rattle.receiver_replay.specs.Received.{checked};
ghost use Rattle.receiver_replay.specs.Right.{IsRight};

/// What the report of a run says of that run holds, the run of its own input included.
pub fn a_report_of_a_run_is_right()
    ensures { (p x : List ℕ) (seed limit : ℕ) (trap : Crash) →
        All (λ byte. byte < 256) p → All (λ byte. byte < 256) x → refusal p ≡ None →
        (transcript_of (loaded_program p) x limit).end ≡ ends.Trap trap →
        IsRight p (report_of p seed limit (transcript_of (loaded_program p) x limit) trap) limit }
{
    report_laws::files_are_programs();
    report_laws::choices_have_the_trace();
    report_laws::revealed_bounds_the_class();
}

/// The report that is made under a limit of steps and a budget of conflicts is accepted under any
/// limit and any budget that are at least these.
pub fn a_report_that_is_made_is_accepted()
    ensures { (p x : List ℕ) (seed steps conflicts more_steps more_conflicts : ℕ) (what : Made) →
        All (λ byte. byte < 256) x →
        made p seed steps conflicts (transcript_of (loaded_program p) x steps) ≡ Ok what →
        steps ≤ more_steps → conflicts ≤ more_conflicts →
        checked p what.report more_steps more_conflicts ≡ Ok tt }
{}
