//! What a report says of a trace, by definitions alone, and what follows from them: its input comes
//! first, every choice from its sets has the trace, and its bound on the class.
//!
//! Each function here has an empty body or calls other laws, and its contract is a law.
#![tactic(auto)]

ghost use Rattle.std.specs.Prelude.{◌≡◌, ◌*◌, ◌^◌, ◌<◌, ◌≤◌, ℕ, Bool, List, None, false, length, All, filter, find, option_map, sum_by};
ghost use Rattle.elf32.specs.Loads.{Program, loaded_program};
ghost use Rattle.elf32.specs.Rules.{refusal};
ghost use Rattle.rv_event.specs.declared.event.End.TheVariants as ends;
ghost use Rattle.rv_event.specs.declared.event.Trap.{Trap};
ghost use Rattle.rv_event.specs.declared.transcript.Transcript.{Transcript};
ghost use Rattle.term_model.specs.Tree.{Tree};
ghost use Rattle.term_arena.specs.Trees.{trees_of};
ghost use Rattle.rv_machine.specs.Trace.{transcript_of};
ghost use Rattle.rv_machine.specs.Class.{in_class};
ghost use Rattle.replay_law.specs.Crash.{IsProgram, IsCrash, AreProper};
ghost use Rattle.trace_conditions.specs.Conditions.{conditions_of};
ghost use Rattle.input_laws.specs.Inputs.{IsInput, class_size};
ghost use Rattle.input_laws.specs.Order.{IsFirst};
ghost use Rattle.input_laws.specs.Sets.{IsChoice, size, revealed};
ghost use Rattle.group_model.specs.declared.Group.{Group};
ghost use Rattle.group_model.specs.Division.{AreGroups};
ghost use Rattle.group_laws.specs.Groups.{has_wide_group};
ghost use Rattle.set_laws.specs.ByClass.{sets_by_groups};
ghost use Rattle.set_laws.specs.Spent.{is_wide, wide_groups, place_and_width};
ghost use Rattle.set_laws.specs.Found.{group_conflicts, is_spent};
ghost use Rattle.report_format.specs.Text.{IsReport};
ghost use Rattle.report_laws.specs.Mask.{mask};
ghost use Rattle.report_laws.specs.Made.{first_input, sets_of, number_of_groups, number_of_conflicts, spent_of, report_of};
ghost use Rattle.report_laws.specs.Divided.{AreDivided};
ghost use Rattle.report_laws.specs.Filled.{IsOpen, IsFilled};

/// The mask of a seed for `n` bytes is an input of `n` bytes.
pub fn the_mask_is_an_input()
    ensures { (seed n : ℕ) → IsInput n (mask seed n) }
{}

/// What a file of bytes loads, where it breaks no rule, is a program: its entry point is a multiple
/// of 4, and its segments hold bytes.
pub fn files_are_programs()
    ensures { (bytes : List ℕ) → All (λ byte. byte < 256) bytes → refusal bytes ≡ None → IsProgram (loaded_program bytes) }
{}

/// Of all inputs with the length and the trace of some input, the report's comes first in the
/// seed's order: it has that length and that trace, and comes before every other that has them.
pub fn the_input_comes_first()
    ensures first { (program : Program) (seed limit : ℕ) (x : List ℕ) → All (λ byte. byte < 256) x →
        IsFirst (length x) (mask seed (length x)) (in_class program limit (transcript_of program x limit))
        (first_input program seed limit (transcript_of program x limit)) }
    ensures same_trace { (program : Program) (seed limit : ℕ) (x : List ℕ) → All (λ byte. byte < 256) x →
        transcript_of program (first_input program seed limit (transcript_of program x limit)) limit ≡ transcript_of program x limit }
{}

/// Where the trace of an input ends in a trap, every choice from the report's sets has the trace.
/// The report's input is such a choice, so no set is empty.
pub fn choices_have_the_trace()
    ensures choices { (program : Program) (seed limit : ℕ) (x : List ℕ) (t : Transcript) →
        IsProgram program → IsCrash program limit x t → (y : List ℕ) →
        IsChoice (sets_of program seed limit t) y → transcript_of program y limit ≡ t }
    ensures own { (program : Program) (seed limit : ℕ) (x : List ℕ) (t : Transcript) →
        IsProgram program → IsCrash program limit x t →
        IsChoice (sets_of program seed limit t) (first_input program seed limit t) }
    ensures filled { (program : Program) (seed limit : ℕ) (x : List ℕ) (t : Transcript) →
        IsProgram program → IsCrash program limit x t →
        All (λ set. 0 < size set) (sets_of program seed limit t) }
{
    trace_conditions::conditions_hold_of_the_class();
    trace_conditions::conditions_are_proper();
}

/// What the report of a run says is within the ranges of a report text, where program, input, limit of
/// steps and seed are within theirs.
pub fn reports_of_runs_are_in_range()
    ensures { (p x : List ℕ) (seed limit : ℕ) (trap : Trap) →
        All (λ byte. byte < 256) p → All (λ byte. byte < 256) x → refusal p ≡ None →
        length p ≤ 16777216 → length x ≤ 65536 → limit ≤ 10000000 → seed < 2 ^ 64 →
        (transcript_of (loaded_program p) x limit).end ≡ ends.Trap trap →
        IsReport (report_of p seed limit (transcript_of (loaded_program p) x limit) trap) }
{
    files_are_programs();
    choices_have_the_trace();
    machine_laws::traps_are_of_words();
    set_laws::sets_have_bytes_alone();
}

/// Where the trace of an input ends in a trap, the number of inputs with the trace times 2 to the
/// bits revealed is at least the number of all inputs of the length.
pub fn revealed_bounds_the_class()
    ensures { (program : Program) (seed limit : ℕ) (x : List ℕ) (t : Transcript) →
        IsProgram program → IsCrash program limit x t →
        256 ^ t.n ≤ class_size (in_class program limit t) t.n * 2 ^ revealed (sets_of program seed limit t) }
{
    trace_conditions::conditions_hold_of_the_class();
    trace_conditions::conditions_are_proper();
}

/// Where no group has more than two bytes, the report's sets are the values with which an input of
/// the class stays in it: at the first byte of a group beside the report's other bytes, and at the
/// second beside every value of the first.
pub fn narrow_sets_are_by_the_class()
    ensures { (program : Program) (seed limit : ℕ) (x : List ℕ) (t : Transcript) →
        IsProgram program → IsCrash program limit x t → has_wide_group (conditions_of program t) t.n ≡ false →
        sets_of program seed limit t
        ≡ sets_by_groups (in_class program limit t) (conditions_of program t) (first_input program seed limit t) }
{
    trace_conditions::conditions_hold_of_the_class();
    trace_conditions::conditions_are_proper();
}

/// No group is spent under a budget of conflicts that is at least the number of choices of bytes
/// for each group.
pub fn large_budgets_are_never_spent()
    ensures { (program : Program) (seed limit : ℕ) (x : List ℕ) (t : Transcript) (budget : ℕ) →
        IsProgram program → IsCrash program limit x t →
        All (λ places. 2 ^ (8 * length places) ≤ budget) (wide_groups (conditions_of program t) t.n) →
        spent_of program seed t budget ≡ None }
{
    trace_conditions::conditions_hold_of_the_class();
    trace_conditions::conditions_are_proper();
}

/// The groups of the conditions in an arena make the report: an input and sets that are filled in
/// group by group are the report's, and the groups' conflicts and the first of them that is spent
/// are the trace's.
pub fn groups_make_the_report()
    ensures divided { (trees conditions : List Tree) (n : ℕ) (terms : List ℕ) (groups : List Group) →
        trees_of trees terms ≡ conditions → AreProper n (trees_of trees terms) → All (λ t. t < length trees) terms →
        AreGroups trees terms groups → AreDivided trees conditions n groups }
    ensures open { (program : Program) (limit : ℕ) (x : List ℕ) (t : Transcript) (trees : List Tree) (groups : List Group) →
        IsProgram program → IsCrash program limit x t →
        AreDivided trees (conditions_of program t) t.n groups → t.n < 2 ^ 32 →
        All (IsOpen trees t.n) groups }
    ensures number { (program : Program) (t : Transcript) (trees : List Tree) (groups : List Group) →
        AreDivided trees (conditions_of program t) t.n groups → length groups ≡ number_of_groups program t }
    ensures few { (program : Program) (t : Transcript) (trees : List Tree) (groups : List Group) →
        AreDivided trees (conditions_of program t) t.n groups → length groups ≤ t.n }
    ensures conflicts { (program : Program) (seed : ℕ) (t : Transcript) (trees : List Tree) (groups : List Group) →
        AreDivided trees (conditions_of program t) t.n groups →
        number_of_conflicts program seed t
        ≡ sum_by (group_conflicts trees (mask seed t.n)) (filter (λ g. is_wide g.places) groups) }
    ensures spent { (program : Program) (seed : ℕ) (t : Transcript) (trees : List Tree) (groups : List Group) (budget : ℕ) →
        AreDivided trees (conditions_of program t) t.n groups →
        spent_of program seed t budget
        ≡ option_map (λ g. place_and_width g.places) (find (is_spent trees (mask seed t.n) budget) groups) }
    ensures input { (program : Program) (seed limit : ℕ) (x : List ℕ) (t : Transcript) (trees : List Tree) (groups : List Group)
        (input : List ℕ) (sets : List (ℕ → Bool)) →
        IsProgram program → IsCrash program limit x t →
        AreDivided trees (conditions_of program t) t.n groups → IsInput t.n input →
        IsFilled trees (mask seed t.n) groups (length groups) input sets →
        input ≡ first_input program seed limit t }
    ensures sets { (program : Program) (seed limit : ℕ) (x : List ℕ) (t : Transcript) (trees : List Tree) (groups : List Group)
        (input : List ℕ) (sets : List (ℕ → Bool)) →
        IsProgram program → IsCrash program limit x t →
        AreDivided trees (conditions_of program t) t.n groups → IsInput t.n input →
        IsFilled trees (mask seed t.n) groups (length groups) input sets →
        sets ≡ sets_of program seed limit t }
{
    trace_conditions::conditions_hold_of_the_class();
}
