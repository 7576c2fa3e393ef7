//! What is true of every text. The contract here is a law.

ghost use Rattle.std.specs.Prelude.{◌≡◌, ℕ, Bool, List};
ghost use Rattle.text_lines.specs.Lines.{IsLines, FailsAt, passing, PassUnbroken, IsOrFails};

/// Where a test says which lines have the form of their place, and no line with a line end passes,
/// a text is lines that pass, or fails at a line; never both, and only one list of lines or one line.
pub fn a_text_is_lines_or_fails_at_one_line()
    ensures some { (test : ℕ → List ℕ → Bool) → PassUnbroken test → (least most : ℕ) (text : List ℕ) → IsOrFails test least most text }
    ensures either { (test : ℕ → List ℕ → Bool) → PassUnbroken test → (least most number : ℕ) (lines : List (List ℕ)) (text : List ℕ) →
        IsLines (passing test) least most lines text → FailsAt (passing test) least most number text → ⊥ }
    ensures one { (test : ℕ → List ℕ → Bool) → PassUnbroken test → (least most : ℕ) (lines others : List (List ℕ)) (text : List ℕ) →
        IsLines (passing test) least most lines text → IsLines (passing test) least most others text → lines ≡ others }
    ensures once { (test : ℕ → List ℕ → Bool) → PassUnbroken test → (least most m n : ℕ) (text : List ℕ) →
        FailsAt (passing test) least most m text → FailsAt (passing test) least most n text → m ≡ n }
{}
