//! Laws that join the search for a model of gate trees' clauses to the bytes of a group of conditions.
//!
//! Each function here has an empty body, and its contract is a law.
#![tactic(auto)]

ghost use Rattle.std.specs.Prelude.{◌≡◌, ◌≢◌, ◌↔◌, All, ◌*◌, ◌^◌, ◌<◌, ℕ, Bool, List, [], true, false, length, slice_index, Contains};
ghost use Rattle.term_model.specs.Tree as term;
ghost use Rattle.term_model.specs.Conditions.{Hold};
ghost use Rattle.term_model.specs.Words.{HasWords, AreBytes};
ghost use Rattle.term_arena.specs.Trees.{tree_of, trees_of};
ghost use Rattle.group_model.specs.Group.{IsAscending, IsGroup, IsGroupFirst, part_of};
ghost use Rattle.input_laws.specs.Sets.{set_at};
ghost use Rattle.input_laws.specs.Parts.{KeepPart};
ghost use Rattle.gate_model.specs.Tree.{Tree, Signed};
ghost use Rattle.gate_model.specs.Makers.{no};
ghost use Rattle.gate_model.specs.Clauses.{IsClause, IsGateClause};
ghost use Rattle.gate_net.specs.declared.literals.Lit.{Lit};
ghost use Rattle.gate_net.specs.Lits.{AreNamed};
ghost use Rattle.gate_net.specs.Trees.{all_signed_of, IsNet};
ghost use Rattle.gate_net.specs.Formulas.{signed_clauses};
ghost use Rattle.search_model.specs.Literals.{AreLiterals, named};
ghost use Rattle.search_model.specs.Closure.{IsInClosure, IsConflict};
ghost use Rattle.search_model.specs.Tests.{in_closure, is_conflict};
ghost use Rattle.search_model.specs.Search.{State, search_end, conflict_count, ends_in_conflict, values_found};
ghost use Rattle.search_model.specs.Turns.{Ends, Turns, Comes, HasCounted};
ghost use Rattle.search_model.specs.Model.{Settles};
ghost use Rattle.wide_laws.specs.Formula.{signed_trees, gate_formula, formula_of, order_of};
ghost use Rattle.wide_laws.specs.Bytes.{AreRoots, bytes_of};
ghost use Rattle.wide_laws.specs.Sets.{fixed_from, fixed_bits, IsSound, has_roots, force_roots, yes_name, agreeing};
ghost use Rattle.wide_laws.specs.Roots.{AreConditions, roots_of, wide_values};

/// Signed trees are literals.
pub fn trees_are_literals()
    ensures { AreLiterals signed_trees }
{}

/// Over signed trees too the tests tell the least set, the search comes to its one end, and its count is that of the
/// conflicts that the turns counted.
pub fn the_search_of_trees_is_its_turns()
    ensures closure { (clauses : List (List Signed)) (decisions : List Signed) (l : Signed) →
        (in_closure signed_trees clauses decisions l ≡ true) ↔ IsInClosure signed_trees clauses decisions l }
    ensures conflict { (clauses : List (List Signed)) (decisions : List Signed) →
        (is_conflict signed_trees clauses decisions ≡ true) ↔ IsConflict signed_trees clauses decisions }
    ensures comes { (clauses : List (List Signed)) (order : List Signed) →
        Comes signed_trees clauses order (search_end signed_trees clauses order) }
    ensures ends { (clauses : List (List Signed)) (order : List Signed) →
        Ends signed_trees clauses order (search_end signed_trees clauses order) }
    ensures one_end { (clauses : List (List Signed)) (order : List Signed) (s : State Signed) →
        Comes signed_trees clauses order s → Ends signed_trees clauses order s → s ≡ search_end signed_trees clauses order }
    ensures count { (clauses : List (List Signed)) (order : List Signed) (n count : ℕ)
        (run : Turns signed_trees clauses order n (search_end signed_trees clauses order)) →
        HasCounted signed_trees clauses order n (search_end signed_trees clauses order) run count →
        count ≡ conflict_count signed_trees clauses order }
{}

/// Bit 0 of the gate trees of a condition tells whether it holds: so conditions have these bits as
/// roots. None of them is the constant no where some bytes meet the conditions. A group of terms of
/// an arena has conditions on its places.
pub fn conditions_have_roots()
    ensures roots { (places : List ℕ) (conditions : List term.Tree) →
        AreConditions places conditions → AreRoots places conditions (roots_of conditions) }
    ensures possible { (places : List ℕ) (conditions : List term.Tree) (y : List ℕ) →
        AreConditions places conditions → AreBytes y → Hold conditions y →
        All (λ r. r ≢ no) (roots_of conditions) }
    ensures group { (trees : List term.Tree) (places terms : List ℕ) →
        ((t : ℕ) → t < length trees → HasWords (tree_of trees t)) →
        IsGroup trees places terms → AreConditions places (trees_of trees terms) }
{}

/// Where some bytes meet the conditions, the search on the formula of their roots ends in a model,
/// whose bytes come before all others that meet them. It counts fewer conflicts than the places
/// have choices of bytes.
pub fn search_finds_first_bytes()
    ensures first { (mask places : List ℕ) (conditions : List term.Tree) (roots : List Signed) (y : List ℕ) →
        AreRoots places conditions roots → IsAscending places →
        AreBytes y → Hold conditions y →
        IsGroupFirst mask places conditions
        (bytes_of mask places (values_found signed_trees (formula_of roots) (order_of mask places))) }
    ensures model { (mask places : List ℕ) (conditions : List term.Tree) (roots : List Signed) (y : List ℕ) →
        AreRoots places conditions roots →
        AreBytes y → Hold conditions y →
        ends_in_conflict signed_trees (formula_of roots) (order_of mask places) ≡ false }
    ensures count { (mask places : List ℕ) (conditions : List term.Tree) (roots : List Signed) (y : List ℕ) →
        AreRoots places conditions roots →
        AreBytes y → Hold conditions y →
        conflict_count signed_trees (formula_of roots) (order_of mask places) < 2 ^ (8 * length places) }
    ensures settled { (mask places : List ℕ) (conditions : List term.Tree) (roots : List Signed) (y : List ℕ) →
        AreRoots places conditions roots →
        AreBytes y → Hold conditions y →
        Settles signed_trees (formula_of roots) (order_of mask places) }
{}

/// However bits are freed, as long as the others fix the roots: bytes that agree with the first bytes
/// at the bits that stay fixed meet the conditions. Bits that force the roots by the clauses of the
/// gates fix them.
pub fn choices_meet_the_conditions()
    ensures meet { (places : List ℕ) (conditions : List term.Tree) (roots : List Signed) (frees : List Signed → Bool) (first y : List ℕ) →
        AreRoots places conditions roots → IsSound roots frees →
        AreBytes first → Hold conditions first → AreBytes y →
        ((place : ℕ) → Contains places place →
        agreeing (fixed_bits frees first places) first place (slice_index y place) ≡ true) →
        Hold conditions y }
    ensures sound { (roots : List Signed) → IsSound roots (force_roots roots) }
{}

/// Clauses over the names of a net that stand for the formula of roots give the search what the
/// formula itself gives: its count, its end and the values found, and the order settles them.
pub fn names_find_what_trees_find()
    ensures count { (trees : List Tree) (roots order : List Lit) (clauses : List (List Lit)) →
        IsNet trees → All (AreNamed (length trees)) clauses → AreNamed (length trees) order →
        ((c : List Signed) → Contains (signed_clauses trees clauses) c ↔ IsClause (all_signed_of trees roots) c) →
        conflict_count signed_trees (formula_of (all_signed_of trees roots)) (all_signed_of trees order)
        ≡ conflict_count named clauses order }
    ensures values { (trees : List Tree) (roots order : List Lit) (clauses : List (List Lit)) →
        IsNet trees → All (AreNamed (length trees)) clauses → AreNamed (length trees) order →
        ((c : List Signed) → Contains (signed_clauses trees clauses) c ↔ IsClause (all_signed_of trees roots) c) →
        values_found signed_trees (formula_of (all_signed_of trees roots)) (all_signed_of trees order)
        ≡ values_found named clauses order }
    ensures settled { (trees : List Tree) (roots order : List Lit) (clauses : List (List Lit)) →
        IsNet trees → All (AreNamed (length trees)) clauses → AreNamed (length trees) order →
        ((c : List Signed) → Contains (signed_clauses trees clauses) c ↔ IsClause (all_signed_of trees roots) c) →
        Settles signed_trees (formula_of (all_signed_of trees roots)) (all_signed_of trees order) →
        Settles named clauses order }
    ensures formula { (roots : List Signed) (c : List Signed) →
        Contains (formula_of roots) c ↔ IsClause roots c }
{}

/// Clauses over the names of a net that stand for those of the gates under roots tell which bits
/// stay fixed as the clauses of the gates do. Under bits of the first bytes their closure is no conflict.
/// The clauses of the gates are those of the gates under the roots.
pub fn names_fix_what_trees_fix()
    ensures fixed { (trees : List Tree) (roots order : List Lit) (clauses : List (List Lit)) →
        IsNet trees → All (AreNamed (length trees)) clauses → AreNamed (length trees) roots → AreNamed (length trees) order →
        ((c : List Signed) → Contains (signed_clauses trees clauses) c ↔ IsGateClause (all_signed_of trees roots) c) →
        all_signed_of trees (fixed_from (has_roots named yes_name clauses roots) [] order)
        ≡ fixed_from (force_roots (all_signed_of trees roots)) [] (all_signed_of trees order) }
    ensures calm { (trees : List Tree) (roots order bits : List Lit) (clauses : List (List Lit)) (first places : List ℕ) →
        IsNet trees → All (AreNamed (length trees)) clauses → AreNamed (length trees) order →
        ((c : List Signed) → Contains (signed_clauses trees clauses) c ↔ IsGateClause (all_signed_of trees roots) c) →
        all_signed_of trees order ≡ order_of first places → ((l : Lit) → Contains bits l → Contains order l) →
        is_conflict named clauses bits ≡ false }
    ensures gates { (roots : List Signed) (c : List Signed) →
        Contains (gate_formula roots) c ↔ IsGateClause roots c }
{}

/// Sets with these bytes at the places of a group keep the group's test, and have its first bytes.
pub fn agreeing_bytes_keep_the_test()
    ensures keep { (places : List ℕ) (conditions : List term.Tree) (roots : List Signed) (frees : List Signed →
        Bool) (first : List ℕ) (sets : List (ℕ → Bool)) →
        AreRoots places conditions roots → IsSound roots frees → AreBytes first → Hold conditions first →
        All (λ i. i < length sets) places →
        ((place : ℕ) → Contains places place → set_at sets place ≡ agreeing (fixed_bits frees first places) first place) →
        KeepPart sets (part_of places conditions) }
    ensures own { (places : List ℕ) (conditions : List term.Tree) (roots fixed : List Signed) (first : List ℕ) (place : ℕ) →
        AreRoots places conditions roots → AreBytes first → Hold conditions first →
        agreeing fixed first place (slice_index first place) ≡ true }
{}

/// The values of a group's places that the bits leave: sets with them keep the group's test and have
/// its own bytes, and they are the same whatever bytes stand at other places.
pub fn wide_values_keep_the_test()
    ensures keep { (places : List ℕ) (conditions : List term.Tree) (first : List ℕ) (sets : List (ℕ → Bool)) →
        AreConditions places conditions → AreBytes first → Hold conditions first →
        All (λ i. i < length sets) places →
        ((place : ℕ) → Contains places place → set_at sets place ≡ wide_values conditions first places place) →
        KeepPart sets (part_of places conditions) }
    ensures own { (places : List ℕ) (conditions : List term.Tree) (first : List ℕ) (place : ℕ) →
        AreBytes first → wide_values conditions first places place (slice_index first place) ≡ true }
    ensures look { (places : List ℕ) (conditions : List term.Tree) (first other : List ℕ) (place : ℕ) →
        ((p : ℕ) → Contains places p → slice_index first p ≡ slice_index other p) → Contains places place →
        wide_values conditions first places place ≡ wide_values conditions other places place }
{}
