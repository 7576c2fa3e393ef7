//! Laws on the values that each byte of the first input may take, and on the conflicts that the search counts for the
//! groups of its bytes. Both follow from the conditions alone, and are found group by group.
//!
//! Each function here has an empty body, and its contract is a law.
#![tactic(auto)]

ghost use Rattle.std.specs.Prelude.{◌≡◌, ◌*◌, ◌^◌, ◌<◌, ◌≤◌, ℕ, Bool, List, true, false, None, All, Contains};
ghost use Rattle.std.specs.Prelude.{IsTrue, length, filter, find, nat_lt, option_map, slice_index, sum_by};
ghost use Rattle.term_model.specs.Tree.{Tree};
ghost use Rattle.term_model.specs.Places.{ReadsBelow};
ghost use Rattle.term_model.specs.Truth.{is_truth};
ghost use Rattle.term_model.specs.Words.{HasWords};
ghost use Rattle.term_model.specs.Conditions.{Hold, holds};
ghost use Rattle.term_arena.specs.Trees.{tree_of, trees_of};
ghost use Rattle.input_laws.specs.Inputs.{IsInput, class_size};
ghost use Rattle.input_laws.specs.Sets.{IsByteSet, IsChoice, size, set_at, freed, revealed};
ghost use Rattle.input_laws.specs.Narrow.{freed_beside};
ghost use Rattle.group_model.specs.declared.Group.{Group};
ghost use Rattle.group_model.specs.Group.{IsAscending};
ghost use Rattle.group_model.specs.Division.{IsGrouped, AreGroups};
ghost use Rattle.group_laws.specs.Groups.{has_wide_group};
ghost use Rattle.group_laws.specs.Parts.{IsByConditions};
ghost use Rattle.wide_laws.specs.Roots.{wide_values};
ghost use Rattle.set_laws.specs.Sets.{values_in, sets_from};
ghost use Rattle.set_laws.specs.ByClass.{sets_by_groups};
ghost use Rattle.set_laws.specs.Spent.{is_wide, wide_groups, conflicts_in, all_conflicts, first_spent, place_and_width};
ghost use Rattle.set_laws.specs.Found.{HasValues, group_conflicts, is_spent};

/// The values of a place, by the number of its group's places.
pub fn values_are_by_the_size_of_the_group()
    ensures one { (conditions : List Tree) (places first : List ℕ) →
        length places ≡ 1 →
        let place = slice_index places 0 in
        values_in conditions places first place ≡ freed (holds conditions) first place }
    ensures low { (conditions : List Tree) (places first : List ℕ) →
        length places ≡ 2 →
        let low = slice_index places 0 in
        values_in conditions places first low ≡ freed (holds conditions) first low }
    ensures high { (conditions : List Tree) (places first : List ℕ) →
        length places ≡ 2 → IsAscending places →
        let low = slice_index places 0 in
        let high = slice_index places 1 in
        values_in conditions places first high ≡ freed_beside (holds conditions) (freed (holds conditions) first low) first low high }
    ensures wide { (conditions : List Tree) (places first : List ℕ) (i : ℕ) →
        2 < length places → values_in conditions places first i ≡ wide_values conditions first places i }
{}

/// Sets that are full at the places of no group, and at those of each group are the values by its
/// conditions, are the sets that the conditions and the first input give.
pub fn sets_are_found_by_groups()
    ensures { (trees : List Tree) (terms : List ℕ) (groups : List Group) (n : ℕ) (first : List ℕ) (sets : List (ℕ → Bool)) →
        AreGroups trees terms groups →
        All (λ t. ReadsBelow n (tree_of trees t)) terms →
        length first ≡ n → length sets ≡ n →
        ((i : ℕ) → i < n → (IsGrouped groups i → ⊥) → set_at sets i ≡ (λ v. nat_lt v 256)) →
        All (HasValues trees first sets) groups →
        sets ≡ sets_from (trees_of trees terms) first }
{}

/// The conflicts that the search counts for all wide groups, and the first group that they spend,
/// are those of the groups in their order.
pub fn conflicts_are_counted_by_groups()
    ensures all { (trees : List Tree) (terms : List ℕ) (groups : List Group) (n : ℕ) (mask : List ℕ) →
        AreGroups trees terms groups →
        All (λ t. ReadsBelow n (tree_of trees t)) terms →
        all_conflicts (trees_of trees terms) mask n
        ≡ sum_by (group_conflicts trees mask) (filter (λ g. is_wide g.places) groups) }
    ensures spent { (trees : List Tree) (terms : List ℕ) (groups : List Group) (n : ℕ) (mask : List ℕ) (budget : ℕ) →
        AreGroups trees terms groups →
        All (λ t. ReadsBelow n (tree_of trees t)) terms →
        first_spent (trees_of trees terms) mask n budget
        ≡ option_map (λ g. place_and_width g.places) (find (is_spent trees mask budget) groups) }
{}

/// Where some input meets the conditions, the search counts fewer conflicts for a group than its
/// places have choices of bytes. So no group is spent under a budget that is at least that.
pub fn large_budgets_are_never_spent()
    ensures count { (conditions : List Tree) (n : ℕ) (mask y places : List ℕ) →
        All (λ t. is_truth t ≡ true) conditions → All HasWords conditions → All (ReadsBelow n) conditions →
        IsInput n y → Hold conditions y → Contains (wide_groups conditions n) places →
        conflicts_in conditions mask places < 2 ^ (8 * length places) }
    ensures never { (conditions : List Tree) (n : ℕ) (mask y : List ℕ) (budget : ℕ) →
        All (λ t. is_truth t ≡ true) conditions → All HasWords conditions → All (ReadsBelow n) conditions →
        IsInput n y → Hold conditions y →
        All (λ places. 2 ^ (8 * length places) ≤ budget) (wide_groups conditions n) →
        first_spent conditions mask n budget ≡ None }
{}

/// No set has a number that is no byte.
pub fn sets_have_bytes_alone()
    ensures { (conditions : List Tree) (y : List ℕ) → All IsByteSet (sets_from conditions y) }
{}

/// The sets of an input that meets the conditions have its own bytes, so none is empty.
pub fn sets_have_own_bytes()
    ensures own { (conditions : List Tree) (n : ℕ) (y : List ℕ) →
        IsInput n y → Hold conditions y → IsChoice (sets_from conditions y) y }
    ensures filled { (conditions : List Tree) (n : ℕ) (y : List ℕ) →
        IsInput n y → Hold conditions y → All (λ set. 0 < size set) (sets_from conditions y) }
{}

/// Every choice from the sets of an input that meets the conditions meets them, so the sets bound
/// the size of the class.
pub fn choices_meet_the_conditions()
    ensures choices { (conditions : List Tree) (n : ℕ) (y z : List ℕ) →
        All (λ t. is_truth t ≡ true) conditions → All HasWords conditions → All (ReadsBelow n) conditions →
        IsInput n y → Hold conditions y → IsChoice (sets_from conditions y) z → Hold conditions z }
    ensures bound { (conditions : List Tree) (n : ℕ) (y : List ℕ) (member : List ℕ → Bool) →
        All (λ t. is_truth t ≡ true) conditions → All HasWords conditions → All (ReadsBelow n) conditions →
        IsByConditions n member conditions → IsInput n y → IsTrue (member y) →
        256 ^ n ≤ class_size member n * 2 ^ revealed (sets_from conditions y) }
{}

/// Where no group has more than two places, the sets are those that any test of inputs gives which
/// passes exactly where the conditions hold: the values with which a place's others stay as they
/// are, and at the higher of two places the values that pass beside every value of the lower.
pub fn sets_of_narrow_groups_are_by_the_class()
    ensures { (conditions : List Tree) (n : ℕ) (y : List ℕ) (member : List ℕ → Bool) →
        All (ReadsBelow n) conditions → has_wide_group conditions n ≡ false →
        IsByConditions n member conditions → IsInput n y → IsTrue (member y) →
        sets_from conditions y ≡ sets_by_groups member conditions y }
{}
