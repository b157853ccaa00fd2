// An index of codes.
ghost use Rattle.std.specs.Prelude.{◌≡◌, ℕ, List, [], Some, None, OnOk, if◌then◌else◌};
ghost use Rattle.std.specs.Str.{bytes_eq};
ghost use Rattle.tda_io.specs.Csv.{or_else};
ghost use Rattle.tda_spine.specs.Index.{found};

use indexmap::IndexMap;
use std::alloc::Global;
use std::marker::Model;
use tda_io::NoMemory;

/// The place of each code that was added, which is that of its first adding.
#[derive(Drop)]
pub(crate) struct CodeIndex<'a> {
    places: IndexMap<&'a [u8], usize>,
}

impl<'a> Model for CodeIndex<'a> {
    ghost use Rattle.std.specs.Prelude.{map};
    ghost use Rattle.tda_spine.specs.Index.{Codes};

    ghost Value = { Codes };

    ghost view = { λ x. map (λ e. (e.0.now, e.1)) x.places.entries };
}

impl<'a> CodeIndex<'a> {
    pub(crate) fn new(alloc: Global) -> Self
        ensures { result ≡ [] }
    {
        CodeIndex {
            places: IndexMap::new(alloc),
        }
    }

    /// The place of a code.
    pub(crate) fn find(&self, code: &[u8]) -> Option<usize>
        ensures { result ≡ found self.now code.now }
    {
        self.places.get(code).copied()
    }

    /// Adds a code at a place, unless it was added before.
    pub(crate) fn add_first(&mut self, code: &'a [u8], place: usize) -> Result<(), NoMemory>
        ensures { OnOk result ((c : List ℕ) → found self.new c ≡ or_else (found self.old c) (if bytes_eq c code.now then Some place else None)) }
    {
        if !self.places.contains_key(code) {
            self.places.insert(code, place)?;
        }
        Ok(())
    }
}
