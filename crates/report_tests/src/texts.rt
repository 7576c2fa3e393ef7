//! Texts that are read and written again.

use report_format::{Report, read_report, write_report};
use std::alloc::Global;
use std::test::Fail;

/// The text of a report of a run on four bytes, of which one is fixed, and of other reports.
const TEXTS: [&[u8]; 7] = [
    b"crash-report 1
program 124 ab00000000000000000000000000000000000000000000000000000000000001
trap breakpoint 00010024 00000000
steps 8
seed 0
input 4
data 41000000
set 0 1 0000000000000000020000000000000000000000000000000000000000000000
revealed 8 of 32
end
",
    b"crash-report 1
program 16777216 ab00000000000000000000000000000000000000000000000000000000000001
trap illegal 00000003 ffffffff
steps 10000000
seed 18446744073709551615
input 0
revealed 0 of 0
end
",
    b"crash-report 1
program 16777216 ab00000000000000000000000000000000000000000000000000000000000001
trap fetch 00010010 00010010
steps 1
seed 0
input 33
data 3031323334353637383961626364656630313233343536373839616263646566
data 67
revealed 0 of 264
end
",
    b"crash-report 1
program 16777216 ab00000000000000000000000000000000000000000000000000000000000001
trap misaligned 00010024 00000002
steps 8
seed 7
input 1
data 00
set 0 10 ff03000000000000000000000000000000000000000000000000000000000000
revealed 5 of 8
end
",
    b"crash-report 1
program 16777216 ab00000000000000000000000000000000000000000000000000000000000001
trap load 00010024 00000000
steps 8
seed 0
input 3
data 000fff
set 0 255 fffffffffffffffffffffffffffffffffffffffffffffffffffffffffffffff7
set 2 1 0000000000000000000000000000000000000000000000000000000000000080
revealed 9 of 24
end
",
    b"crash-report 1
program 16777216 ab00000000000000000000000000000000000000000000000000000000000001
trap store 00010024 7ffffffc
steps 8
seed 0
input 1
data ff
revealed 0 of 8
end
",
    b"crash-report 1
program 16777216 ab00000000000000000000000000000000000000000000000000000000000001
trap abort 00010018 000000c8
steps 7
seed 0
input 1
data c8
set 0 1 0000000000000000000000000000000000000000000000000001000000000000
revealed 8 of 8
end
",
];

/// Whether a report has the values that the first text says.
fn has_its_values(report: &Report) -> bool {
    let digest = report.digest;
    let sets = report.sets.as_slice();
    report.length == 124
        && digest[0] == 0xab
        && report.trap.pc == 0x0001_0024
        && report.steps == 8
        && report.seed == 0
        && report.input.as_slice() == b"\x41\0\0\0".as_slice()
        && sets.len() == 4
        && sets[0].size() == 1
        && sets[0].contains(0x41)
        && sets[3].size() == 256
}

/// Whether a text is read as a report, and that report written as the text.
fn is_read_and_written(alloc: Global, text: &[u8]) -> Result<bool, Fail> {
    let report = read_report(alloc, text)?;
    let written = write_report(alloc, &report)?;
    Ok(written.as_slice() == text)
}

/// The number of the first text that isn't written as it was read.
fn first_wrong(alloc: Global) -> Result<Option<usize>, Fail> {
    let mut number = 0usize;
    for text in &TEXTS {
        if !is_read_and_written(alloc, text)? {
            return Ok(Some(number));
        }
        number = number.saturating_add(1);
    }
    Ok(None)
}

#[test]
fn a_report_is_read_and_written_again(rt: HostRuntime) -> Result<(), Fail> {
    assert_eq!(rt; first_wrong(rt.alloc())?, None);
    Ok(())
}

#[test]
fn a_report_has_what_its_text_says(rt: HostRuntime) -> Result<(), Fail> {
    let report = read_report(rt.alloc(), TEXTS[0])?;
    assert!(rt; has_its_values(&report));
    Ok(())
}
