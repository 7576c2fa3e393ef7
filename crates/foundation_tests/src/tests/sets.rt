//! Sets of bytes.

use byte_sets::{ByteSet, Version, revealed};

/// Whether the set has so many values, and of five these.
fn has(set: &ByteSet, size: u32, values: [bool; 5]) -> bool {
    let found = [0, 10, 11, 127, 255].map(|value| set.contains(value));
    set.size() == size && found == values
}

/// Whether the full set has all values.
fn full_has_all() -> bool {
    let full = ByteSet::full();
    has(&full, 256, [true; 5]) && full.to_bytes() == [255; 32]
}

/// Whether a set has what was put in, once.
fn has_what_was_put_in() -> bool {
    let mut set = ByteSet::one(255);
    let is_one = has(&set, 1, [false, false, false, false, true]);
    set.insert(0);
    set.insert(0);
    set.insert(10);
    let bytes = set.to_bytes();
    is_one
        && has(&set, 3, [true, true, false, false, true])
        && (bytes[0], bytes[1], bytes[2], bytes[31]) == (1, 4, 0, 128)
}

/// The values 0 to `last`.
fn values_to(last: u8) -> ByteSet {
    let mut set = ByteSet::one(0);
    for value in 0..last {
        set.insert(value + 1);
    }
    set
}

/// Whether the set of the values 0 to `last` reveals so many bits.
fn reveals(last: u8, bits: u32) -> bool {
    let set = values_to(last);
    set.size() > 0 && revealed(&[set]) == bits
}

#[test]
fn sets_and_what_they_reveal(rt: HostRuntime) {
    let mut holds = full_has_all() && has_what_was_put_in();
    for (last, bits) in [(0, 8), (9, 5), (127, 1), (254, 1), (255, 0)] {
        holds = holds && reveals(last, bits);
    }
    assert!(rt; holds);
}

/// A version and its copy are one, and the two versions are not.
#[test]
fn versions_are_two(rt: HostRuntime) {
    for (first, second, same) in [
        (Version::One, Version::One, true),
        (Version::One, Version::Two, false),
        (Version::Two, Version::One, false),
        (Version::Two, Version::Two, true),
    ] {
        let copy = first;
        assert!(rt; (copy == second) == same && copy == first);
    }
}
