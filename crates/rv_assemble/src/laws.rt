//! What the definition of a file means.

ghost use Rattle.std.specs.Prelude.{◌≡◌, List, ℕ};
ghost use Rattle.rv_decode.specs.declared.instr.Instr.{Instr};
ghost use Rattle.rv_assemble.specs.declared.region.Region.{Region};
ghost use Rattle.rv_assemble.specs.Parts.{Spells, IsFile};

/// Instructions have one text, and instructions and regions have one file.
pub fn code_has_one_file()
    ensures text { (code : List Instr) (a b : List ℕ) → Spells a code → Spells b code → a ≡ b }
    ensures file { (code : List Instr) (regions : List Region) (a b : List ℕ) → IsFile code regions a →
        IsFile code regions b → a ≡ b }
{}
