// Takes words that are there.
ghost use Rattle.std.specs.Prelude.{◌≡◌, ◌<◌, ◌∷◌, length};

use tda_words::{SeedWords, Words};

// Takes the next word, where one is left.
pub(crate) fn take_word(words: &mut SeedWords) -> u32
    requires { 0 < length words.old.words }
    ensures { words.old.words ≡ result ∷ words.new.words }
{
    match words.next() {
        Some(word) => word,
        None => unreachable!(),
    }
}
