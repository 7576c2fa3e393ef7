//! Numbers in decimal.

use decimal_text::read_decimal;

/// Texts, and the number that each is the text of.
const CASES: [(&str, Option<u64>); 12] = [
    ("0", Some(0)),
    ("10", Some(10)),
    ("18446744073709551615", Some(u64::MAX)),
    ("", None),
    ("+1", None),
    ("-1", None),
    ("01", None),
    ("00", None),
    (" 1", None),
    ("1 ", None),
    ("1a", None),
    ("18446744073709551616", None),
];

#[test]
fn numbers_have_one_spelling(rt: HostRuntime) {
    for (text, number) in CASES {
        assert!(rt; read_decimal(text.as_bytes()) == number, "{text}");
    }
}
