//! The conditions of a run, and the law that they hold of exactly the inputs that have it.
//!
//! The conditions of a run are terms over the bytes of the input, made from the program and from what the run tells: its
//! events and its end. The input that it was made with is not among what they are made from. A run is followed over
//! registers and bytes of memory that are terms. Each fetched word, data address, target, outcome of a branch and value
//! of a call that the events show gives the conditions that another input has to meet to show the same.
//!
//! Nothing here runs: each function has an empty body, and its clauses are laws over the definitions, for any maker of
//! terms that keeps values. The tests `is_made` stand for the terms that the maker takes and gives.
#![tactic(auto)]

ghost use Rattle.std.specs.Prelude.{◌≡◌, ◌↔◌, ℕ, List, Bool, true, IsTrue};
ghost use Rattle.elf32.specs.Loads.{Program};
ghost use Rattle.rv_event.specs.declared.transcript.Transcript as runs;
ghost use Rattle.term_model.specs.Tree.{Tree};
ghost use Rattle.term_model.specs.Conditions.{Hold};
ghost use Rattle.rv_machine.specs.Class.{in_class};
ghost use Rattle.input_laws.specs.Inputs.{IsInput};
ghost use Rattle.replay_law.specs.Making.{Making, IsMaker, IsCarefulMaker};
ghost use Rattle.replay_law.specs.Follow.{conditions};
ghost use Rattle.replay_law.specs.Crash.{IsProgram, IsCrash, AreProper};

use rv_event::same_transcripts_are_equal;
use term_model::same_trees_are_equal;

/// The conditions of a run that a trap ends hold of exactly the inputs of its length that have this run.
pub fn conditions_hold_of_the_class()
    ensures class { (made : Making) (is_made : Tree → Bool) → IsMaker made (λ t. is_made t ≡ true) →
        (program : Program) (limit : ℕ) (x y : List ℕ) (run : runs.Transcript) →
        IsProgram program → IsCrash program limit x run → IsInput run.n y →
        Hold (conditions made program run) y ↔ IsTrue (in_class program limit run y) }
{
    same_trees_are_equal();
    same_transcripts_are_equal();
}

/// Each condition of a run that a trap ends is a truth term that reads some byte of the input, and only such bytes.
pub fn conditions_are_proper()
    ensures proper { (made : Making) (is_made : Tree → Bool) → IsMaker made (λ t. is_made t ≡ true) →
        IsCarefulMaker made (λ t. is_made t ≡ true) →
        (program : Program) (limit : ℕ) (x : List ℕ) (run : runs.Transcript) →
        IsProgram program → IsCrash program limit x run →
        AreProper run.n (conditions made program run) }
{
    same_trees_are_equal();
    same_transcripts_are_equal();
}
