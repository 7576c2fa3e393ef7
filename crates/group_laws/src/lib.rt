//! Laws on the groups of conditions, and laws that join them to the whole input: the groups are the
//! one finest division, and where each group has its first bytes the input is the first member.
//!
//! In each law `terms` are the conditions, as terms of an arena whose trees are `trees`, `groups`
//! are their groups, and `member` is a test of inputs that passes exactly where the conditions
//! hold. Each function here has an empty body, and its contract is a law: a crate above calls the
//! function where its own proof needs the law.
#![tactic(auto)]

ghost use Rattle.std.specs.Prelude.{◌≡◌, ◌^◌, ◌<◌, ◌≤◌, ◌≢◌, ◌↔◌, ℕ, Bool, List, true, Some, length, slice_index};
ghost use Rattle.std.specs.Prelude.{slice_index_or, map, nat_lt, All, Contains};
ghost use Rattle.std.specs.List.{list_any};
ghost use Rattle.term_model.specs.Tree.{Tree};
ghost use Rattle.term_model.specs.Places.{reads, ReadsBelow};
ghost use Rattle.term_model.specs.Words.{AreBytes};
ghost use Rattle.term_model.specs.Conditions.{Hold};
ghost use Rattle.term_arena.specs.Trees.{tree_of, trees_of};
ghost use Rattle.input_laws.specs.Inputs.{IsInput};
ghost use Rattle.input_laws.specs.Order.{IsFirst, first};
ghost use Rattle.input_laws.specs.Parts.{LooksAtItsPlaces, IsByParts, IsFree};
ghost use Rattle.group_model.specs.declared.Group.{Group};
ghost use Rattle.group_model.specs.Conditions.{IsCondition};
ghost use Rattle.group_model.specs.Group.{IsGroup};
ghost use Rattle.group_model.specs.Division.{IsGrouped, IsSteadyOn, AreGroups};
ghost use Rattle.group_laws.specs.Groups.{first_of, groups_of, has_wide_group};
ghost use Rattle.group_laws.specs.Parts.{IsByConditions, parts_of, HasFirst};

/// The first places of groups, as the conditions alone give them, divide the places below n as
/// finely as can be: a group's first place is the least and its own, the places that a condition
/// reads are of one group, and no group can be cut, for a test that is steady on each condition is
/// steady on each group.
pub fn firsts_are_the_finest_division()
    ensures least { (conditions : List Tree) (n i : ℕ) → i < n → first_of conditions n i ≤ i }
    ensures own { (conditions : List Tree) (n i : ℕ) → i < n →
        first_of conditions n (first_of conditions n i) ≡ first_of conditions n i }
    ensures whole { (conditions : List Tree) (n : ℕ) (t : Tree) (i j : ℕ) →
        Contains conditions t → reads t i ≡ true → reads t j ≡ true → i < n → j < n →
        first_of conditions n i ≡ first_of conditions n j }
    ensures uncut { (conditions : List Tree) (n : ℕ) (side : ℕ → Bool) →
        ((t : Tree) → Contains conditions t → IsSteadyOn side t) →
        (i : ℕ) → i < n → side i ≡ side (first_of conditions n i) }
{}

/// Conditions have one finest division, as an ordered list.
pub fn division_is_one()
    ensures { (trees : List Tree) (terms : List ℕ) (groups others : List Group) →
        AreGroups trees terms groups → AreGroups trees terms others → groups ≡ others }
{}

/// The places of the groups of a finest division are those that follow from the conditions alone.
/// So are their number, and whether some group has more than two places.
pub fn groups_by_conditions()
    ensures places { (trees : List Tree) (terms : List ℕ) (groups : List Group) (n : ℕ) →
        AreGroups trees terms groups →
        All (λ t. ReadsBelow n (tree_of trees t)) terms →
        groups_of (trees_of trees terms) n ≡ map (λ g. g.places) groups }
    ensures wide { (trees : List Tree) (terms : List ℕ) (groups : List Group) (n : ℕ) →
        AreGroups trees terms groups →
        All (λ t. ReadsBelow n (tree_of trees t)) terms →
        has_wide_group (trees_of trees terms) n ≡ list_any (λ g. nat_lt 2 (length g.places)) groups }
{}

/// The groups are parts: an input is a member exactly where it passes each group's test, and each
/// test looks at its group's places alone.
pub fn groups_are_parts()
    ensures by_parts { (trees : List Tree) (terms : List ℕ) (groups : List Group) (n : ℕ) (member : List ℕ → Bool) →
        AreGroups trees terms groups →
        All (IsCondition trees) terms →
        IsByConditions n member (trees_of trees terms) →
        IsByParts n member (parts_of trees groups) }
    ensures look { (trees : List Tree) (terms : List ℕ) (groups : List Group) →
        AreGroups trees terms groups →
        All LooksAtItsPlaces (parts_of trees groups) }
    ensures free { (trees : List Tree) (groups : List Group) (i : ℕ) →
        IsFree (parts_of trees groups) i ↔ (IsGrouped groups i → ⊥) }
{}

/// Each group has places and conditions that make a group, and where there is a member, some bytes
/// meet its conditions.
pub fn each_is_a_group()
    ensures below { (trees : List Tree) (terms : List ℕ) (groups : List Group) (n : ℕ) →
        AreGroups trees terms groups →
        All (λ t. ReadsBelow n (tree_of trees t)) terms →
        All (λ g. All (λ i. i < n) g.places) groups }
    ensures groups { (trees : List Tree) (terms : List ℕ) (groups : List Group) (n : ℕ) →
        AreGroups trees terms groups →
        All (IsCondition trees) terms →
        All (λ t. ReadsBelow n (tree_of trees t)) terms → n < 2 ^ 32 →
        All (λ g. IsGroup trees g.places g.conditions) groups }
    ensures possible { (trees : List Tree) (terms : List ℕ) (groups : List Group) (n : ℕ) (y : List ℕ) →
        AreGroups trees terms groups →
        IsInput n y → Hold (trees_of trees terms) y →
        All (λ g. AreBytes y × Hold (trees_of trees g.conditions) y) groups }
    ensures few { (trees : List Tree) (terms : List ℕ) (groups : List Group) →
        All (IsCondition trees) terms → AreGroups trees terms groups →
        All (λ g. length g.places < 2 ^ 32 → IsGroup trees g.places g.conditions) groups }
{}

/// An input that has each group's first bytes at its places, and the mask's bytes at all other
/// places, is the first member.
pub fn first_by_groups()
    ensures is_first { (trees : List Tree) (terms : List ℕ) (groups : List Group) (n : ℕ) (mask y : List ℕ) (member : List ℕ → Bool) →
        AreGroups trees terms groups →
        All (IsCondition trees) terms →
        All (λ t. ReadsBelow n (tree_of trees t)) terms →
        IsByConditions n member (trees_of trees terms) →
        IsInput n y →
        All (HasFirst trees mask y) groups →
        ((i : ℕ) → i < n → (IsGrouped groups i → ⊥) → slice_index y i ≡ slice_index mask i) →
        IsFirst n mask member y }
    ensures found { (n : ℕ) (mask y : List ℕ) (member : List ℕ → Bool) →
        IsInput n mask → IsFirst n mask member y → first mask member ≡ Some y }
{}

/// What a group has at its places stays where nothing changes but at the places of another group.
pub fn other_groups_stay()
    ensures { (trees : List Tree) (terms : List ℕ) (groups : List Group) (mask y z : List ℕ) (j k : ℕ) (d : Group) →
        AreGroups trees terms groups →
        j < length groups → k < length groups → j ≢ k →
        HasFirst trees mask y (slice_index_or groups j d) →
        ((i : ℕ) → (Contains (slice_index_or groups k d).places i → ⊥) → slice_index z i ≡ slice_index y i) →
        HasFirst trees mask z (slice_index_or groups j d) }
{}
