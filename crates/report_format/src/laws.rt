//! What is true of every report. The contracts here are laws.

ghost use Rattle.std.specs.Prelude.{◌<◌, ◌^◌, All};
ghost use Rattle.report_format.specs.Text.{IsReport, content_of};

use crate::Report;

/// The bytes of a slice are below 256.
fn bytes_are_small(bytes: &[u8])
    ensures { All (λ byte. byte < 256) bytes.now }
{}

/// Words and seeds are below the ends of their types.
fn words_are_small(pc: u32, value: u32, seed: u64)
    ensures pc { pc < 2 ^ 32 }
    ensures value { value < 2 ^ 32 }
    ensures seed { seed < 2 ^ 64 }
{}

/// What a report says is within the ranges of a report text.
pub fn reports_are_in_range(report: &Report)
    ensures { IsReport (content_of report.now) }
{
    bytes_are_small(&report.digest);
    words_are_small(report.trap.pc, report.trap.value, report.seed);
}
