//! Words, numbers and bytes as they stand in a line.

use crate::problem::Problem;
use std::alloc::Global;

/// A number, or that of the loop's round.
#[derive(Clone, Copy)]
pub enum Number {
    Fixed(u32),
    Round,
}

impl Number {
    /// Its value in a round.
    pub fn in_round(self, round: u32) -> u32 {
        match self {
            Number::Fixed(number) => number,
            Number::Round => round,
        }
    }
}

/// A number in decimal.
pub fn read_decimal(word: &str) -> Result<u32, Problem> {
    match word.parse::<u32>() {
        Ok(number) => Ok(number),
        Err(_) => Err(Problem::Number),
    }
}

/// A number in decimal, or `*`, the round's.
pub fn read_number(word: &str) -> Result<Number, Problem> {
    if word == "*" {
        return Ok(Number::Round);
    }
    Ok(Number::Fixed(read_decimal(word)?))
}

/// A number in hexadecimal.
pub fn read_hex_number(word: &str) -> Result<u32, Problem> {
    match u32::from_str_radix(word, 16) {
        Ok(number) => Ok(number),
        Err(_) => Err(Problem::Hex),
    }
}

/// The first word of a line, and what follows one space after it.
pub fn split_word(line: &str) -> (&str, &str) {
    match line.split_once(' ') {
        Some((word, rest)) => (word, rest),
        None => (line, ""),
    }
}

/// Adds the words that spaces part.
fn push_words<'a>(words: &mut Vec<&'a str>, text: &'a str) -> Result<(), Problem> {
    for word in text.split_whitespace() {
        words.push(word)?;
    }
    Ok(())
}

/// The words of a command. Every second piece between quotes is one word, whatever is in it.
pub fn split_words(alloc: Global, line: &str) -> Result<Vec<&str>, Problem> {
    let mut words = Vec::new(alloc);
    let mut is_quoted = false;
    for piece in line.split('\'') {
        if is_quoted {
            words.push(piece)?;
        } else {
            push_words(&mut words, piece)?;
        }
        is_quoted = !is_quoted;
    }
    if !is_quoted {
        return Err(Problem::Quote);
    }
    Ok(words)
}

/// Adds the bytes of a word in hexadecimal.
fn push_hex(bytes: &mut Vec<u8>, alloc: Global, word: &str) -> Result<(), Problem> {
    match hex::decode(alloc, word) {
        Ok(more) => bytes.extend_from_slice(more.as_slice())?,
        Err(_) => return Err(Problem::Hex),
    }
    Ok(())
}

/// The bytes of words in hexadecimal.
pub fn read_hex(alloc: Global, words: &str) -> Result<Vec<u8>, Problem> {
    let mut bytes = Vec::new(alloc);
    for word in words.split_whitespace() {
        push_hex(&mut bytes, alloc, word)?;
    }
    Ok(bytes)
}
