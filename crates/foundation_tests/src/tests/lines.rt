//! Texts of lines, and fields of a line.

use text_lines::{after, is_name, read_number, read_number_between, read_word, split_line};

/// Whether a line is `add N` with an N from 1 to 20.
fn is_addition(line: &[u8]) -> bool {
    match after(line, b"add ") {
        Some(digits) => read_number_between(digits, 1, 20).is_some(),
        None => false,
    }
}

/// The first line, counted from 1, that is no addition or is the fourth, or 0 where there is none.
fn failing_line(text: &[u8]) -> u32 {
    let mut rest = text;
    for number in 1..4u32 {
        if rest.is_empty() {
            return 0;
        }
        let Some((line, following)) = split_line(rest) else {
            return number;
        };
        if !is_addition(line) {
            return number;
        }
        rest = following;
    }
    if rest.is_empty() { 0 } else { 4 }
}

/// Texts, and the line at which each fails.
const TEXTS: [(&str, u32); 12] = [
    ("", 0),
    ("add 1\n", 0),
    ("add 20\nadd 2\nadd 3\n", 0),
    ("add 1", 1),
    ("add 1\nadd 2", 2),
    ("add 01\n", 1),
    ("add 0\n", 1),
    ("add 21\n", 1),
    ("add 18446744073709551617\n", 1),
    ("add 1\r\n", 1),
    ("add 1\n\nadd 2\n", 2),
    ("add 1\nadd 2\nadd 3\nadd 4\n", 4),
];

#[test]
fn lines_are_read_to_the_first_that_fails(rt: HostRuntime) {
    for (text, line) in TEXTS {
        assert!(rt; failing_line(text.as_bytes()) == line, "{text}");
    }
}

/// Fields, the number up to 20 and the word that each is the text of, and whether it is a name.
const FIELDS: [(&str, Option<u64>, Option<u32>, bool); 11] = [
    ("0", Some(0), None, true),
    ("20", Some(20), None, true),
    ("21", None, None, true),
    ("07", None, None, true),
    ("00000010", None, Some(16), true),
    ("0123cdef", None, Some(0x0123cdef), true),
    ("0123CDEF", None, None, true),
    ("123cdef", None, None, true),
    ("!~", None, None, true),
    ("", None, None, false),
    ("a b", None, None, false),
];

#[test]
fn fields_have_one_spelling(rt: HostRuntime) {
    for (text, number, word, name) in FIELDS {
        let field = text.as_bytes();
        let told = (read_number(field, 20), read_word(field), is_name(field));
        assert!(rt; told == (number, word, name), "{text}");
    }
}

#[test]
fn names_have_up_to_255_bytes(rt: HostRuntime) {
    let long = is_name(&[b'x'; 255]);
    let longer = is_name(&[b'x'; 256]);
    assert!(rt; long && !longer);
}
