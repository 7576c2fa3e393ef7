//! What follows from the text of reports alone: a text has one report and a limit of bytes, and another
//! text fails at one line. Each function here has an empty body, and its contract is a law.
#![tactic(auto)]

ghost use Rattle.std.specs.Prelude.{◌≡◌, ◌≤◌, ℕ, List, length};
ghost use Rattle.report_format.specs.Text.{Content, IsReport, lines, text};
ghost use Rattle.report_format.specs.Reading.{FailsAt};

/// Two reports with the same lines, or with one text, say the same.
pub fn a_text_has_one_report()
    ensures lines { (a b : Content) → IsReport a → IsReport b → lines a ≡ lines b → a ≡ b }
    ensures text { (a b : Content) → IsReport a → IsReport b → text a ≡ text b → a ≡ b }
{}

/// The line at which bytes fail to be the text of a report is the only such line.
pub fn a_text_fails_at_one_line()
    ensures { (bytes : List ℕ) (m n : ℕ) → FailsAt m bytes → FailsAt n bytes → m ≡ n }
{}

/// The text of a report has at most 8,388,608 bytes.
pub fn a_text_fits_a_file()
    ensures { (content : Content) → IsReport content → length (text content) ≤ 8388608 }
{}
