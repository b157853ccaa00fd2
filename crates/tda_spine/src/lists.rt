// Lists of units, one for each number of a range.
ghost use Rattle.std.specs.Prelude.{◌≡◌, ◌<◌, ◌++◌, ◌∷◌, ℕ, [], length, slice_set, slice_index_or, IfOk, OnOk, map};
ghost use Rattle.std.specs.List.{range_with_len};

use std::alloc::Global;
use std::marker::Model;
use tda_io::NoMemory;

/// A list of units for each number below a count.
#[derive(Debug, Drop)]
pub(crate) struct Lists {
    lists: Vec<Vec<u32>>,
}

impl Model for Lists {
    ghost use Rattle.std.specs.Prelude.{ℕ, List, map};

    ghost Value = { List (List ℕ) };

    ghost view = { λ s. map (λ v. v.items) s.lists.items };
}

impl Lists {
    /// An empty list for each number below the count.
    pub(crate) fn new(alloc: Global, count: usize) -> Result<Lists, NoMemory>
        ensures { IfOk result (λ lists. lists ≡ map (λ _. []) (range_with_len 0 count)) }
    {
        let mut lists = Vec::new(alloc);
        for _ in 0..count {
            lists.push(Vec::new(alloc))?;
        }
        Ok(Lists { lists })
    }

    /// The list of a number.
    pub(crate) fn get(&self, at: usize) -> &[u32]
        requires { at < length self.now }
        ensures { result.now ≡ slice_index_or self.now at [] }
    {
        self.lists[at].as_slice()
    }

    /// Appends a unit to the list of a number.
    pub(crate) fn push(&mut self, at: usize, unit: u32) -> Result<(), NoMemory>
        requires { at < length self.old }
        ensures { OnOk result (self.new ≡ slice_set self.old at (slice_index_or self.old at [] ++ unit ∷ [])) }
    {
        self.lists[at].push(unit)?;
        Ok(())
    }
}
