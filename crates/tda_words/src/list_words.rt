// Words from bytes.
ghost use Rattle.std.specs.Prelude.{◌≡◌, ◌≤◌, ◌%◌, ◌^◌, length};
ghost use Rattle.tda_words.specs.Words.{words_of};

use crate::Words;
use std::marker::Model;

/// The words of a list of bytes: each four bytes are a word, the least byte first.
#[derive(Debug, Drop)]
pub struct ListWords<'a> {
    bytes: &'a [u8],
    taken: u64,
}

impl<'a> Model for ListWords<'a> {
    ghost use Rattle.std.specs.Prelude.{◌≡◌, ◌+◌, ◌≤◌, ◌/◌, ◌%◌, ◌^◌, length};
    ghost use Rattle.tda_words.specs.Words.{Supply, AreWords, words_of};

    ghost Value = { Supply };

    ghost view = { λ s. record { words = words_of s.bytes.now; taken = s.taken } };

    ghost invariant = { λ s. (length s.bytes.now % 4 ≡ 0) × AreWords (words_of s.bytes.now) s.taken };
}

impl<'a> ListWords<'a> {
    /// The words of these bytes, whose number is a multiple of 4 and at most 2^28.
    pub fn new(bytes: &'a [u8]) -> ListWords<'a>
        requires whole { length bytes.now % 4 ≡ 0 }
        requires limit { length bytes.now ≤ 2 ^ 28 }
        ensures { result ≡ record { words = words_of bytes.now; taken = 0 } }
    {
        ListWords { bytes, taken: 0 }
    }
}

impl<'a> Words for ListWords<'a> {
    ghost words = { λ s. s.words };

    ghost taken = { λ s. s.taken };

    fn next(&mut self) -> Option<u32> {
        let [first, second, third, fourth, rest @ ..] = self.bytes else {
            return None;
        };
        let word = u32::from_le_bytes([*first, *second, *third, *fourth]);
        self.bytes = rest;
        self.taken += 1;
        Some(word)
    }

    fn left(&self) -> u64 {
        self.bytes.len() as u64 / 4
    }

    fn taken(&self) -> u64 {
        self.taken
    }
}
