//! The first line at which a text and a report differ.

ghost use Rattle.std.specs.Prelude.{◌≡◌, ◌≤◌, IfOk};
ghost use Rattle.report_format.specs.Text.{Content, content_of, lines};
ghost use Rattle.report_format.specs.Reading.{IsTextOf};
ghost use Rattle.receiver_replay.specs.Difference.{first_difference, byte_difference, line_ends};

use no_memory::NoMemory;
use report_format::laws::reports_are_in_range;
use report_format::{Report, write_report};
use std::alloc::Global;

/// The line of the first byte at which two texts differ.
#[tactic(auto, using(crate::proofs::DifferenceLemmas::at_first, crate::proofs::DifferenceLemmas::right_is_over, crate::proofs::DifferenceLemmas::bytes_differ))]
fn differing_line(left: &[u8], right: &[u8]) -> Option<u32>
    requires few { line_ends left.now ≤ 100000 }
    ensures { result ≡ byte_difference 1 left.now right.now }
{
    let mut line = 1u32;
    for (index, byte) in left.iter().enumerate() {
        if index == right.len() || *byte != right[index] {
            return Some(line);
        }
        if *byte == b'\n' {
            line += 1;
        }
    }
    if left.len() < right.len() {
        return Some(line);
    }
    None
}

/// The first line of a report's text that is not that of another report's. The first is given as the
/// text that it is, and only the other is written.
pub fn first_difference(alloc: Global, text: &[u8], other: &Report) -> Result<Option<u32>, NoMemory>
    requires text { (content : Content) × IsTextOf content text.now }
    ensures { IfOk result (λ line. (content : Content) → IsTextOf content text.now →
        line ≡ first_difference 1 (lines content) (lines (content_of other.now))) }
{
    reports_are_in_range(other);
    let others = write_report(alloc, other)?;
    Ok(differing_line(text, others.as_slice()))
}
