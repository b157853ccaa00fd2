// Words from a seed.
ghost use Rattle.std.specs.Prelude.{◌≡◌, ◌≤◌, ◌^◌};
ghost use Rattle.rand_chacha.specs.ChaCha.{key_of};
ghost use Rattle.tda_words.specs.Words.{stream_words};

use crate::Words;
use rand_chacha::ChaCha20Rng;
use rand_core::SeedableRng;
use rand_core::utils::NextWord;
use std::marker::Model;

/// The words that ChaCha20 makes of a seed (RFC 8439, sections 2.3 and 2.4, with a block counter of 64 bits), as many as
/// a budget allows.
#[derive(Debug, Drop)]
pub struct SeedWords {
    generator: ChaCha20Rng,
    left: u64,
    taken: u64,
}

impl Model for SeedWords {
    ghost use Rattle.std.specs.Prelude.{◌≡◌, ◌+◌, ◌≤◌, ◌^◌};
    ghost use Rattle.tda_words.specs.Words.{Supply, stream_words};

    ghost Value = { Supply };

    ghost view = { λ s. record { words = stream_words s.generator.key s.generator.word_pos s.left; taken = s.taken } };

    ghost invariant = { λ s. (s.generator.stream ≡ 0) × (s.generator.word_pos + s.left ≤ 2 ^ 65) × (s.left + s.taken ≤ 2 ^ 32) };
}

impl SeedWords {
    /// The words of this key's stream 0 at the places from `place` to `place + budget - 1`. The budget is at most 2^32.
    pub fn new(seed: &[u8; 32], place: u64, budget: u64) -> SeedWords
        requires { budget ≤ 2 ^ 32 }
        ensures { result ≡ record { words = stream_words (key_of seed.now) place budget; taken = 0 } }
    {
        let mut generator = ChaCha20Rng::from_seed(*seed);
        generator.set_word_pos(u128::from(place));
        SeedWords {
            generator,
            left: budget,
            taken: 0,
        }
    }
}

impl Words for SeedWords {
    ghost words = { λ s. s.words };

    ghost taken = { λ s. s.taken };

    fn next(&mut self) -> Option<u32> {
        if self.left == 0 {
            return None;
        }
        let word = self.generator.next_word();
        self.left -= 1;
        self.taken += 1;
        Some(word)
    }

    fn left(&self) -> u64 {
        self.left
    }

    fn taken(&self) -> u64 {
        self.taken
    }
}
