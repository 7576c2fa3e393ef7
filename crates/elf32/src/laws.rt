//! What the rules and the order of the segments mean, in other words than the definitions'.

ghost use Rattle.std.specs.Prelude.{◌≡◌, ◌≤◌, ◌%◌, ◌↔◌, List, ℕ, None, true};
ghost use Rattle.std.specs.List.Sorted.{IsPermutation, IsNonDecreasingBy};
ghost use Rattle.elf32.specs.declared.span.Span.{Span};
ghost use Rattle.elf32.specs.Fields.{headers};
ghost use Rattle.elf32.specs.Spans.{share, overlap, HaveCommon, TwoHaveCommon};
ghost use Rattle.elf32.specs.Rules.{refusal};
ghost use Rattle.elf32.specs.Segments.{AreApart, AreOffStack, AreSized, total_size};
ghost use Rattle.elf32.specs.Loads.{segments_of, loaded_program};

/// The test of two ranges of addresses is true exactly where some address lies in both.
pub fn share_is_a_common_address()
    ensures { (s t : Span) → (share s t ≡ true) ↔ HaveCommon s t }
{}

/// The test of a list of ranges is true exactly where some address lies in two of them.
pub fn overlap_is_a_common_address()
    ensures { (ss : List Span) → (overlap ss ≡ true) ↔ TwoHaveCommon ss }
{}

/// A file loads the segments of its PT_LOAD headers that have a size, in ascending order of base.
pub fn segments_are_in_order()
    ensures members { (bytes : List ℕ) → IsPermutation (segments_of bytes (headers bytes)) (loaded_program bytes).segments }
    ensures ascending { (bytes : List ℕ) → IsNonDecreasingBy (λ s. s.base) (loaded_program bytes).segments }
{}

/// What a file loads that breaks no rule has the facts that every [`Image`](crate::Image) keeps.
pub fn accepted_files_fit()
    ensures aligned { (bytes : List ℕ) → refusal bytes ≡ None → (loaded_program bytes).entry % 4 ≡ 0 }
    ensures apart { (bytes : List ℕ) → refusal bytes ≡ None → AreApart (loaded_program bytes).segments }
    ensures off_stack { (bytes : List ℕ) → refusal bytes ≡ None → AreOffStack (loaded_program bytes).segments }
    ensures sized { (bytes : List ℕ) → refusal bytes ≡ None → AreSized (loaded_program bytes).segments }
    ensures small { (bytes : List ℕ) → refusal bytes ≡ None → total_size (loaded_program bytes).segments ≤ 67108864 }
{}
