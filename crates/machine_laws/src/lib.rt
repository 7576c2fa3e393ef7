//! What holds of every run of a machine, by its definitions alone.
#![tactic(auto)]

ghost use Rattle.std.specs.Prelude.{◌≡◌, ℕ, ◌<◌, ◌%◌, ◌^◌, List, length, All, IsTrue};
ghost use Rattle.elf32.specs.Loads.{Program};
ghost use Rattle.elf32.specs.declared.segments.Segment.{Segment};
ghost use Rattle.rv_event.specs.declared.event.End.TheVariants as ends;
ghost use Rattle.rv_event.specs.declared.event.Trap.{Trap};
ghost use Rattle.rv_machine.specs.State.{State, start};
ghost use Rattle.rv_machine.specs.Effects.{step};
ghost use Rattle.rv_machine.specs.Trace.{trace_from, transcript_of};
ghost use Rattle.rv_machine.specs.Class.{in_class};
ghost use Rattle.machine_laws.specs.Calls.{IsNoCall};
ghost use Rattle.machine_laws.specs.Kept.{IsState, Keeps};

/// A run without calls doesn't look at its input: every input of the same length has the same run.
pub fn a_run_without_calls_ignores_its_input()
    ensures same { (program : Program) (limit : ℕ) (x y : List ℕ) → length x ≡ length y →
        All IsNoCall (transcript_of program x limit).events →
        transcript_of program y limit ≡ transcript_of program x limit }
    ensures class { (program : Program) (limit : ℕ) (x y : List ℕ) → length x ≡ length y →
        All IsNoCall (transcript_of program x limit).events →
        IsTrue (in_class program limit (transcript_of program x limit) y) }
{}

/// A step on an input of bytes keeps what holds of each state, and its end is never Limit.
pub fn keeps_state()
    ensures { (input : List ℕ) (s : State) → All (λ b. b < 256) input → IsState input s →
        Keeps (IsState input) (step input s).next }
{}

/// The same holds at the start of a program, on every input, where the entry is a word and a multiple of
/// 4 and the segments hold bytes.
pub fn starts_in_state()
    ensures { (input : List ℕ) (entry : ℕ) (segments : List Segment) → entry < 2 ^ 32 → entry % 4 ≡ 0 →
        All (λ s. All (λ b. b < 256) s.bytes) segments → IsState input (start entry segments) }
{}

/// An exit that a run ends with has a code below 128, from whatever state the run starts.
pub fn exits_are_below_128()
    ensures run { (input : List ℕ) (s : State) (limit code : ℕ) →
        (trace_from limit input s).end ≡ ends.Exit code → code < 128 }
    ensures program { (program : Program) (input : List ℕ) (limit code : ℕ) →
        (transcript_of program input limit).end ≡ ends.Exit code → code < 128 }
{}

/// The trap that ends a run on bytes has a word for its program counter and for its value, where the
/// program's entry is a word and a multiple of 4 and its segments hold bytes.
pub fn traps_are_of_words()
    ensures { (program : Program) (input : List ℕ) (limit : ℕ) (trap : Trap) →
        program.entry < 2 ^ 32 → program.entry % 4 ≡ 0 →
        All (λ s. All (λ b. b < 256) s.bytes) program.segments → All (λ b. b < 256) input →
        (transcript_of program input limit).end ≡ ends.Trap trap → (trap.pc < 2 ^ 32) × (trap.value < 2 ^ 32) }
{}
