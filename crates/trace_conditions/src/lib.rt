//! The conditions of a run by terms in normal form, and the law that the whole product rests on.
//!
//! `conditions_of` makes the conditions of a program's run from the program and from what the run tells. Where a trap
//! ended the run, they hold of exactly the inputs of its length that have this run: a byte of the input that they leave
//! free is one that the run doesn't tell.
#![tactic(auto)]

ghost use Rattle.std.specs.Prelude.{◌≡◌, ◌↔◌, ℕ, ◌<◌, ◌%◌, ◌^◌, List, IsTrue};
ghost use Rattle.elf32.specs.Loads.{Program};
ghost use Rattle.rv_event.specs.declared.transcript.Transcript as runs;
ghost use Rattle.term_model.specs.Tree.{Tree};
ghost use Rattle.term_model.specs.Value.{val};
ghost use Rattle.term_model.specs.Words.{AreBytes};
ghost use Rattle.term_model.specs.Conditions.{Hold};
ghost use Rattle.normal_form.specs.Norm.{norm};
ghost use Rattle.normal_form.specs.Normal.{IsNormal};
ghost use Rattle.rv_machine.specs.Class.{in_class};
ghost use Rattle.rv_machine.specs.Effects.{even};
ghost use Rattle.input_laws.specs.Inputs.{IsInput};
ghost use Rattle.replay_law.specs.Forms.{equal, pin, target, with_conditions};
ghost use Rattle.replay_law.specs.Crash.{IsProgram, IsCrash, AreProper};
ghost use Rattle.trace_conditions.specs.Conditions.{conditions_of};

use normal_form::{closed_terms_are_constants, normal_form_is_normal, normal_form_keeps_the_value};
use rv_event::same_transcripts_are_equal;
use term_model::{same_trees_are_equal, values_are_words};

/// The conditions of a run that a trap ended hold of an input of its length exactly where the program's run on that input
/// tells the same.
pub fn conditions_hold_of_the_class()
    ensures class { (program : Program) (limit : ℕ) (x y : List ℕ) (run : runs.Transcript) →
        IsProgram program → IsCrash program limit x run → IsInput run.n y →
        Hold (conditions_of program run) y ↔ IsTrue (in_class program limit run y) }
{
    normal_form_is_normal();
    normal_form_keeps_the_value();
    values_are_words();
    same_trees_are_equal();
    same_transcripts_are_equal();
}

/// Each condition of a run that a trap ended is a truth term whose constants are words, and which reads
/// some byte of the input, and only such bytes.
pub fn conditions_are_proper()
    ensures proper { (program : Program) (limit : ℕ) (x : List ℕ) (run : runs.Transcript) →
        IsProgram program → IsCrash program limit x run →
        AreProper run.n (conditions_of program run) }
{
    normal_form_is_normal();
    normal_form_keeps_the_value();
    closed_terms_are_constants();
    values_are_words();
    same_trees_are_equal();
}

/// What each form of condition says of an input: that two terms have one value, that a term has a value, or that a sum has
/// a value once its lowest bit is cleared.
pub fn forms_say_what_they_name()
    ensures equal { (a b : Tree) (y : List ℕ) → IsNormal a → IsNormal b → AreBytes y →
        Hold (equal norm a b) y ↔ (val a y ≡ val b y) }
    ensures pin { (t : Tree) (value : ℕ) (y : List ℕ) → IsNormal t → value < 2 ^ 32 → AreBytes y →
        Hold (pin norm t value) y ↔ (val t y ≡ value) }
    ensures target { (sum : Tree) (value : ℕ) (y : List ℕ) → IsNormal sum → value < 2 ^ 32 → value % 2 ≡ 0 →
        AreBytes y → Hold (target norm sum value) y ↔ (even (val sum y) ≡ value) }
{
    normal_form_is_normal();
    normal_form_keeps_the_value();
    values_are_words();
}

/// Conditions with more, of which those that add nothing are left out, hold of an input exactly where both lists do.
pub fn lists_hold_together()
    ensures together { (ts more : List Tree) (y : List ℕ) →
        Hold (with_conditions ts more) y ↔ (Hold ts y × Hold more y) }
{
    same_trees_are_equal();
}
