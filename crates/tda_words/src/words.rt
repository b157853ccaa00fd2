// What draws take their words from.
ghost use Rattle.std.specs.Prelude.{◌≡◌, ℕ, List, length};
ghost use Rattle.tda_words.specs.Words.{Gives, Counts, AreWords};

/// A source of 32-bit words, which are given one after another. It can always tell what is left: its end is exact.
/// The words given and left together are at most 2^32.
pub trait Words {
    /// The words left, the next one first.
    ghost words: { Self → List ℕ };

    /// How many words were given.
    ghost taken: { Self → ℕ };

    /// Gives and takes the first word left. `None` comes exactly where none is left, and then nothing changes.
    fn next(&mut self) -> Option<u32>
        ensures gives { Gives result (words self.old) (words self.new) }
        ensures counts { Counts result (taken self.old) (taken self.new) };

    /// How many words are left.
    fn left(&self) -> u64
        ensures value { result ≡ length (words self.now) }
        ensures known { AreWords (words self.now) (taken self.now) };

    /// How many words were given.
    fn taken(&self) -> u64
        ensures value { result ≡ taken self.now }
        ensures known { AreWords (words self.now) (taken self.now) };
}
