//! Laws on inputs, on their order under a mask, and on sets of bytes, for any test of membership.
//!
//! An input is a list of bytes, `member` any test of inputs, and a set of bytes a test of numbers.
//! Each function here has an empty body, and its contract is a law: a crate above calls the
//! function where its own proof needs the law.
#![tactic(auto)]

ghost use Rattle.std.specs.Prelude.{◌≡◌, ◌*◌, ◌^◌, ◌<◌, ◌≤◌, ◌≢◌, ◌↔◌, ℕ, Bool, List, Some, None, length, replicate};
ghost use Rattle.std.specs.Prelude.{All, AllPairs, Contains, nat_lt, slice_index, IsTrue, IsFalse};
ghost use Rattle.input_laws.specs.Inputs.{IsInput, all_inputs, class_size};
ghost use Rattle.input_laws.specs.Order.{ComesBefore, IsFirst, inputs_in_order, first};
ghost use Rattle.input_laws.specs.Sets.{IsChoice, size, set_at, floor_log2, revealed, IsByteByByte, TakesLeast, IsByteSet, freed, freed_sets};
ghost use Rattle.input_laws.specs.Parts.{Part, LooksAtItsPlaces, TakesFirstOf, IsByParts, IsFree, KeepPart};
ghost use Rattle.input_laws.specs.Narrow.{IsOnly, IsPair, freed_beside};

/// The list of all inputs of `n` bytes has `256 ^ n` items, and they are the inputs of `n` bytes,
/// each once.
pub fn all_inputs_are_listed()
    ensures many { (n : ℕ) → length (all_inputs n) ≡ 256 ^ n }
    ensures each { (n : ℕ) → All (IsInput n) (all_inputs n) }
    ensures once { (n : ℕ) → AllPairs (λ y z. y ≢ z) (all_inputs n) }
    ensures every { (n : ℕ) (y : List ℕ) → IsInput n y → Contains (all_inputs n) y }
{}

/// The list of inputs in the order of a mask of bytes has `256 ^ n` items, and they are the inputs
/// that are as long as the mask. Each comes before every later one, so each is there once.
pub fn inputs_stand_in_order()
    ensures many { (mask : List ℕ) → length (inputs_in_order mask) ≡ 256 ^ length mask }
    ensures each { (mask : List ℕ) → All (λ byte. byte < 256) mask →
        All (IsInput (length mask)) (inputs_in_order mask) }
    ensures every { (mask y : List ℕ) → All (λ byte. byte < 256) mask →
        IsInput (length mask) y → Contains (inputs_in_order mask) y }
    ensures in_order { (mask : List ℕ) → AllPairs (ComesBefore mask) (inputs_in_order mask) }
    ensures once { (mask : List ℕ) → AllPairs (λ y z. y ≢ z) (inputs_in_order mask) }
{}

/// What `first` gives under a mask of bytes is the member that comes before every other, and it
/// gives none exactly where no input as long as the mask is a member.
pub fn first_is_first()
    ensures some { (mask : List ℕ) (member : List ℕ → Bool) (y : List ℕ) →
        All (λ byte. byte < 256) mask →
        (first mask member ≡ Some y) ↔ IsFirst (length mask) mask member y }
    ensures none { (mask : List ℕ) (member : List ℕ → Bool) →
        All (λ byte. byte < 256) mask →
        (first mask member ≡ None)
        ↔ ((y : List ℕ) → IsInput (length mask) y → IsFalse (member y)) }
{}

/// A member that comes before every other is the only one.
pub fn first_is_unique()
    ensures { (n : ℕ) (mask : List ℕ) (member : List ℕ → Bool) (y z : List ℕ) →
        IsFirst n mask member y → IsFirst n mask member z → y ≡ z }
{}

/// Where there is a member, one comes before every other.
pub fn first_is_there()
    ensures { (n : ℕ) (mask : List ℕ) (member : List ℕ → Bool) (y : List ℕ) →
        IsInput n y → IsTrue (member y) → (z : List ℕ) × IsFirst n mask member z }
{}

/// Where every input of `n` bytes is a member, the first one is the mask itself, each byte of it
/// can take all 256 values, and these sets reveal nothing.
pub fn everything_is_a_member()
    ensures mask_is_first { (n : ℕ) (mask : List ℕ) (member : List ℕ → Bool) →
        IsInput n mask → ((y : List ℕ) → IsInput n y → IsTrue (member y)) →
        first mask member ≡ Some mask }
    ensures sets_are_full { (n : ℕ) (y : List ℕ) (member : List ℕ → Bool) →
        IsInput n y → ((z : List ℕ) → IsInput n z → IsTrue (member z)) →
        freed_sets member y ≡ replicate n (λ value. nat_lt value 256) }
    ensures nothing_revealed { (n : ℕ) → revealed (replicate n (λ value. nat_lt value 256)) ≡ 0 }
{}

/// What `ilog2` says of its result makes it the logarithm to base 2, rounded down.
pub fn logarithm_is_settled()
    ensures { (n k : ℕ) → 2 ^ k ≤ n → n < 2 * 2 ^ k → floor_log2 n ≡ k }
{}

/// Where every choice from the sets is a member, and no set is empty, the size of the class times
/// `2 ^ revealed` is at least the number of all inputs.
pub fn revealed_is_bound()
    ensures { (member : List ℕ → Bool) (sets : List (ℕ → Bool)) →
        All (λ set. 0 < size set) sets →
        ((y : List ℕ) → IsChoice sets y → IsTrue (member y)) →
        256 ^ length sets ≤ class_size member (length sets) * 2 ^ revealed sets }
{}

/// Where each byte has a set of its own, the first member takes from each set the byte whose xor
/// with the mask's is least.
pub fn first_takes_least()
    ensures { (mask : List ℕ) (member : List ℕ → Bool) (sets : List (ℕ → Bool)) (y : List ℕ) →
        IsByteByByte member sets →
        IsFirst (length sets) mask member y ↔ TakesLeast mask sets y }
{}

/// Where each byte has a set of its own, the bytes that a place of the first member can take, with
/// the others as they are, are the set of that place.
pub fn freed_sets_are_sets()
    ensures { (mask : List ℕ) (member : List ℕ → Bool) (sets : List (ℕ → Bool)) (y : List ℕ) →
        All IsByteSet sets → IsByteByByte member sets →
        IsFirst (length sets) mask member y → freed_sets member y ≡ sets }
{}

/// A set with a byte in it is not empty.
pub fn set_with_a_byte_is_filled()
    ensures { (set : ℕ → Bool) (byte : ℕ) → byte < 256 → IsTrue (set byte) → 0 < size set }
{}

/// No freed set of a member is empty.
pub fn freed_sets_are_filled()
    ensures { (member : List ℕ → Bool) (n : ℕ) (y : List ℕ) →
        IsInput n y → IsTrue (member y) → All (λ set. 0 < size set) (freed_sets member y) }
{}

/// An input that on each part's places is that part's first, and has the mask's byte at each free
/// place, is the first member.
pub fn first_by_parts()
    ensures { (n : ℕ) (mask : List ℕ) (member : List ℕ → Bool) (parts : List Part) (y : List ℕ) →
        IsByParts n member parts → All LooksAtItsPlaces parts →
        IsInput n y → All (TakesFirstOf n mask y) parts →
        ((k : ℕ) → k < n → IsFree parts k → slice_index y k ≡ slice_index mask k) →
        IsFirst n mask member y }
{}

/// Where the sets keep each part's test, every choice from them is a member.
pub fn choices_by_parts()
    ensures { (member : List ℕ → Bool) (parts : List Part) (sets : List (ℕ → Bool)) →
        IsByParts (length sets) member parts → All (KeepPart sets) parts →
        (y : List ℕ) → IsChoice sets y → IsTrue (member y) }
{}

/// The bytes that pass at a part's only place keep its test.
pub fn only_place_keeps()
    ensures { (part : Part) (sets : List (ℕ → Bool)) (own : List ℕ) (i : ℕ) →
        IsOnly part i → LooksAtItsPlaces part → IsInput (length sets) own →
        i < length sets → IsTrue (part.places i) →
        set_at sets i ≡ freed part.test own i → KeepPart sets part }
{}

/// At a part's two places, where the higher place's set has the bytes that pass with every byte of
/// the lower place's set, the two sets keep its test.
pub fn two_places_keep()
    ensures { (part : Part) (sets : List (ℕ → Bool)) (own : List ℕ) (i j : ℕ) →
        IsPair part i j → LooksAtItsPlaces part → IsInput (length sets) own →
        i < j → j < length sets → IsTrue (part.places i) → IsTrue (part.places j) →
        set_at sets j ≡ freed_beside part.test (set_at sets i) own i j → KeepPart sets part }
{}
