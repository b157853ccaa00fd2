// Texts by number, each found by its bytes.
ghost use Rattle.std.specs.Prelude.{◌≡◌, ◌≢◌, ◌++◌, ◌∷◌, [], OnErr, OnOk, position, All};
ghost use Rattle.std.specs.Str.{bytes_eq};

use indexmap::IndexSet;
use std::alloc::Global;
use std::marker::Model;
use tda_io::NoMemory;

/// Texts in order, no two of them equal, each found by its bytes in a time that does not grow with their number. They are
/// numbered from 0.
#[derive(Drop)]
pub struct Texts {
    texts: IndexSet<Vec<u8>>,
}

impl Model for Texts {
    ghost use Rattle.std.specs.Prelude.{ℕ, List, map};

    ghost Value = { List (List ℕ) };

    ghost view = { λ s. map (λ v. v.items) s.texts.keys };
}

impl Texts {
    /// No texts.
    pub fn new(alloc: Global) -> Texts
        ensures { result ≡ [] }
    {
        Texts {
            texts: IndexSet::new(alloc),
        }
    }

    /// The number of a text, if it is there.
    pub fn find(&self, text: &[u8]) -> Option<usize>
        ensures { result ≡ position (bytes_eq text.now) self.now }
    {
        self.texts.get_index_of(text)
    }

    /// Adds a new text, with the next number. Where memory runs out, nothing changes.
    pub fn push(&mut self, alloc: Global, text: &[u8]) -> Result<(), NoMemory>
        requires { All (λ known. text.now ≢ known) self.old }
        ensures ok { OnOk result (self.new ≡ self.old ++ text.now ∷ []) }
        ensures err { OnErr result (self.new ≡ self.old) }
    {
        self.texts.insert(Vec::from_slice(alloc, text)?)?;
        Ok(())
    }
}
