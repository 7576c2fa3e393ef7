//! Laws of the closure of clauses, and of the search for a model of them, for any literals that have negations: names
//! of a formula, or signed trees of gates.
//!
//! Each function here has an empty body, and its contract is a law.
#![tactic(auto)]

ghost use Rattle.std.specs.Prelude.{◌≡◌, ◌↔◌, ◌⊎◌, ◌<◌, ◌≤◌, ◌^◌, ℕ, Bool, true, false, List, [], Some, None, length, take, Contains};
ghost use Rattle.gate_net.specs.declared.literals.Lit.{Lit};
ghost use Rattle.search_model.specs.Literals.{AreLiterals, named};
ghost use Rattle.search_model.specs.Closure.{IsInClosure, IsConflict};
ghost use Rattle.search_model.specs.Tests.{in_closure, is_conflict};
ghost use Rattle.search_model.specs.Search.{State, trim, turn, after, search_end, conflict_count, ends_in_conflict, values_found};
ghost use Rattle.search_model.specs.Turns.{Learns, EndsInModel, EndsUnsatisfiable, Turn, Ends, Turns, Comes, HasCounted};
ghost use Rattle.search_model.specs.Numbers.{HasNumber};
ghost use Rattle.search_model.specs.Growing.{IsMonotone, trim_by_passes};
ghost use Rattle.search_model.specs.Model.{AreFilled, Satisfies, IsModel, IsFirstModel, Settles};

/// Names with a sign are literals.
pub fn names_are_literals()
    ensures { AreLiterals named }
{}

/// The tests by passes over the clauses tell the least set, and whether it is a conflict.
pub fn tests_tell_the_closure()
    ensures closure { (clauses : List (List Lit)) (decisions : List Lit) (l : Lit) →
        (in_closure named clauses decisions l ≡ true) ↔ IsInClosure named clauses decisions l }
    ensures conflict { (clauses : List (List Lit)) (decisions : List Lit) →
        (is_conflict named clauses decisions ≡ true) ↔ IsConflict named clauses decisions }
{}

/// A conflict stays one with more decisions, in any order, and so trimming by passes of growing lists leaves the same.
pub fn passes_trim_the_same()
    ensures grows { (clauses : List (List Lit)) → IsMonotone (is_conflict named clauses) }
    ensures trim { (clauses : List (List Lit)) (decisions : List Lit) →
        trim_by_passes named clauses decisions ≡ trim named clauses decisions }
{}

/// The function `turn` is what a turn does in the words of the closure, and each state has exactly one turn or is an
/// end.
pub fn turns_are_the_search()
    ensures next { (clauses : List (List Lit)) (order : List Lit) (s t : State Lit) →
        (turn named clauses order s ≡ Some t) ↔ Turn named clauses order s t }
    ensures end { (clauses : List (List Lit)) (order : List Lit) (s : State Lit) →
        (turn named clauses order s ≡ None) ↔ Ends named clauses order s }
    ensures one_next { (clauses : List (List Lit)) (order : List Lit) (s t u : State Lit) →
        Turn named clauses order s t → Turn named clauses order s u → t ≡ u }
    ensures next_or_end { (clauses : List (List Lit)) (order : List Lit) (s : State Lit) →
        ((t : State Lit) × Turn named clauses order s t) ⊎ Ends named clauses order s }
    ensures end_is_last { (clauses : List (List Lit)) (order : List Lit) (s t : State Lit) →
        Ends named clauses order s → Turn named clauses order s t → ⊥ }
{}

/// The search ends: its turns come to one end, and the states after so many turns are those that the turns come to.
pub fn search_ends()
    ensures comes { (clauses : List (List Lit)) (order : List Lit) →
        Comes named clauses order (search_end named clauses order) }
    ensures ends { (clauses : List (List Lit)) (order : List Lit) →
        Ends named clauses order (search_end named clauses order) }
    ensures one_end { (clauses : List (List Lit)) (order : List Lit) (s : State Lit) →
        Comes named clauses order s → Ends named clauses order s → s ≡ search_end named clauses order }
    ensures after { (clauses : List (List Lit)) (order : List Lit) (n : ℕ) (s : State Lit) →
        Turns named clauses order n s → after named clauses order n ≡ s }
    ensures learned { (clauses : List (List Lit)) (order : List Lit) (s : State Lit) →
        Comes named clauses order s → s.learned ≡ take (length s.learned) (search_end named clauses order).learned }
{}

/// The count is that of the conflicts that the turns counted, and the end is told by its last conflict.
pub fn count_is_of_the_conflicts()
    ensures counted { (clauses : List (List Lit)) (order : List Lit) (n count : ℕ) (s : State Lit)
        (run : Turns named clauses order n s) → HasCounted named clauses order n s run count ↔ (count ≡ length s.learned) }
    ensures at_the_end { (clauses : List (List Lit)) (order : List Lit) (n count : ℕ)
        (run : Turns named clauses order n (search_end named clauses order)) →
        HasCounted named clauses order n (search_end named clauses order) run count →
        count ≡ conflict_count named clauses order }
    ensures model { (clauses : List (List Lit)) (order : List Lit) →
        (ends_in_conflict named clauses order ≡ false) ↔ EndsInModel named clauses order (search_end named clauses order) }
    ensures unsatisfiable { (clauses : List (List Lit)) (order : List Lit) →
        (ends_in_conflict named clauses order ≡ true)
        ↔ EndsUnsatisfiable named clauses order (search_end named clauses order) }
{}

/// Each model of the clauses meets the learned clauses.
pub fn learned_clauses_are_implied()
    ensures { (clauses : List (List Lit)) (order : List Lit) (s : State Lit) → Comes named clauses order s →
        (set : Lit → Bool) → IsModel named clauses set → (c : List Lit) → Contains s.learned c → Satisfies set c }
{}

/// Each conflict that leaves a decision has one number, and a greater one than each such conflict before it. After a
/// conflict that leaves none the search ends as unsatisfiable.
pub fn conflicts_rise()
    ensures numbered { (clauses : List (List Lit)) (order : List Lit) (s t : State Lit) → Comes named clauses order s →
        (learns : Learns named clauses order s t) → (learns.left ≡ [] → ⊥) → (n : ℕ) × HasNumber named clauses order s t n }
    ensures one_number { (clauses : List (List Lit)) (order : List Lit) (s t : State Lit) (n k : ℕ) →
        HasNumber named clauses order s t n → HasNumber named clauses order s t k → n ≡ k }
    ensures rises { (clauses : List (List Lit)) (order : List Lit) (i j n k : ℕ) (s t u v : State Lit) →
        Turns named clauses order i s → HasNumber named clauses order s t n →
        Turns named clauses order j u → HasNumber named clauses order u v k → i < j → n < k }
    ensures within { (clauses : List (List Lit)) (order : List Lit) (s t : State Lit) (n : ℕ) →
        HasNumber named clauses order s t n → (0 < n) × (n < 2 ^ length order) }
    ensures none_left { (clauses : List (List Lit)) (order : List Lit) (s t : State Lit) →
        (learns : Learns named clauses order s t) → learns.left ≡ [] → EndsUnsatisfiable named clauses order t }
{}

/// The conflicts that the search counts are at most as many as the order has signs, and fewer
/// where there is a model.
pub fn conflicts_are_bounded()
    ensures most { (clauses : List (List Lit)) (order : List Lit) →
        conflict_count named clauses order ≤ 2 ^ length order }
    ensures with_model { (clauses : List (List Lit)) (order : List Lit) (set : Lit → Bool) →
        IsModel named clauses set → conflict_count named clauses order < 2 ^ length order }
{}

/// Where the search ends in a conflict there is no model, and else it ends in the first one.
pub fn end_tells_the_models()
    ensures none { (clauses : List (List Lit)) (order : List Lit) →
        ends_in_conflict named clauses order ≡ true → (set : Lit → Bool) → IsModel named clauses set → ⊥ }
    ensures first { (clauses : List (List Lit)) (order : List Lit) →
        AreFilled clauses → Settles named clauses order →
        ends_in_conflict named clauses order ≡ false →
        IsFirstModel named clauses order (values_found named clauses order) }
    ensures unsatisfiable { (clauses : List (List Lit)) (order : List Lit) →
        AreFilled clauses → Settles named clauses order →
        ((set : Lit → Bool) → IsModel named clauses set → ⊥) →
        ends_in_conflict named clauses order ≡ true }
{}
