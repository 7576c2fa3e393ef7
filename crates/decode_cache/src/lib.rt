//! Instructions of words that were decoded before, so that the words of a loop are decoded once.
//!
//! Nothing here takes memory.
#![tactic(auto)]

ghost use Rattle.std.specs.Prelude.{◌≡◌, IfSome, All};
ghost use Rattle.rv_decode.specs.Table.{decoded};
ghost use Rattle.rv_decode.specs.Rows.{IsWellFormed};
ghost use Rattle.decode_cache.specs.Entries.{IsDecoded};

use rv_decode::{Instr, decode};
use std::marker::Model;

/// How many words are kept.
const PLACES: usize = 1024;

/// A word and its instruction, where it has one.
#[derive(Clone, Copy, Debug)]
struct Entry {
    word: u32,
    instr: Option<Instr>,
}

/// The words that were decoded last at each place, with their instructions. Contracts see nothing of
/// it: an answer is the word's own.
#[derive(Drop)]
pub struct DecodeCache {
    entries: [Entry; PLACES],
}

impl Model for DecodeCache {
    ghost use Rattle.std.specs.Prelude.{⊤, All};
    ghost use Rattle.decode_cache.specs.Entries.{IsDecoded};

    ghost Value = { ⊤ };

    ghost view = { λ _. tt };

    ghost invariant = { λ c. All IsDecoded c.entries };
}

/// The entry of a word.
#[inline(never)]
fn entry_of(word: u32) -> Entry
    ensures decoded { IsDecoded result }
    ensures word { result.word ≡ word }
{
    Entry {
        word,
        instr: decode(word),
    }
}

impl DecodeCache {
    /// A cache that holds the word 0 at each place.
    pub fn new() -> DecodeCache {
        DecodeCache {
            entries: [entry_of(0); PLACES],
        }
    }

    /// The instruction that a word stands for, or `None` where it is illegal. The address of the word only
    /// says where it is kept.
    #[inline(always)]
    pub fn decode(&mut self, address: u32, word: u32) -> Option<Instr>
        ensures value { result ≡ decoded word }
        ensures well_formed { IfSome result IsWellFormed }
    {
        let place = (address >> 2) as usize % PLACES;
        if self.entries[place].word != word {
            self.entries[place] = entry_of(word);
        }
        self.entries[place].instr
    }
}
