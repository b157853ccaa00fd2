// Groups in order, each with the next larger one, and of each cell the smallest.
ghost use Rattle.std.specs.Prelude.{◌≡◌, ◌<◌, ◌≤◌, ◌^◌, ℕ, None, Some, length, slice_index_or, All, Contains, IfOk, IfSome, MatchOption, if◌then◌else◌};
ghost use Rattle.tda_schema.specs.Parts.{holds};
ghost use Rattle.tda_groups.specs.Chains.{smallest_of, next_of};
ghost use Rattle.tda_groups.specs.Order.{AreGroups, IsSmallest, IsNext, IsCellSet, group_at};

use crate::cell_set::CellSet;
use std::alloc::Global;
use std::marker::Model;
use tda_io::NoMemory;

/// Groups in order. A cell's groups are its smallest one and those on the way from it to the whole.
#[derive(Debug, Drop)]
pub(crate) struct Chains {
    groups: Vec<CellSet>,
    next: Vec<Option<u32>>,
    smallest: Vec<Option<u32>>,
}

impl Model for Chains {
    ghost use Rattle.std.specs.Prelude.{ℕ, List};
    ghost use Rattle.tda_groups.specs.Order.{AreLinked};

    ghost Value = { List (List ℕ) };

    ghost view = { λ c. c.groups.items };

    ghost invariant = { λ c. AreLinked c.groups.items c.next.items c.smallest.items };
}

// Puts the group's number at each of its cells.
fn mark(smallest: &mut [Option<u32>], cells: &[u32], group: u32)
    requires { All (λ j. j < length smallest.old) cells.now }
    ensures { (j : ℕ) → j < length smallest.old → slice_index_or smallest.new j None ≡ (if holds cells.now j then Some group else slice_index_or smallest.old j None) }
{
    for cell in cells {
        smallest[*cell as usize] = Some(group);
    }
}

impl Chains {
    /// Links groups of cells below a count.
    pub(crate) fn new(alloc: Global, groups: Vec<CellSet>, cells: u32) -> Result<Chains, NoMemory>
        requires groups { AreGroups groups.items }
        requires few { length groups.items < 2 ^ 32 }
        requires cells { All (λ xs. All (λ j. j < cells) xs) groups.items }
        ensures { IfOk result (λ c. c ≡ groups.items) }
    {
        let mut smallest = vec![in alloc; None; cells as usize]?;
        let mut next = Vec::new(alloc);
        for (number, group) in groups.iter().enumerate() {
            next.push(smallest[group.first() as usize])?;
            mark(&mut smallest, group.as_slice(), number as u32);
        }
        Ok(Chains {
            groups,
            next,
            smallest,
        })
    }

    /// How many groups there are.
    pub(crate) fn len(&self) -> usize
        ensures count { result ≡ length self.now }
        ensures limit { result < 2 ^ 32 }
        ensures groups { AreGroups self.now }
    {
        self.groups.len()
    }

    /// The cells of a group.
    pub(crate) fn members(&self, group: u32) -> &[u32]
        requires { group < length self.now }
        ensures value { result.now ≡ group_at self.now group }
        ensures set { IsCellSet result.now }
    {
        self.groups[group as usize].as_slice()
    }

    /// The smallest group that has the cell, which is one of the whole.
    pub(crate) fn smallest(&self, cell: u32) -> u32
        requires { Contains (group_at self.now 0) cell }
        ensures least { IsSmallest self.now cell result }
        ensures value { result ≡ smallest_of self.now cell }
    {
        self.smallest[cell as usize].unwrap()
    }

    /// The least group that holds this one and is another, None for the whole alone.
    pub(crate) fn next(&self, group: u32) -> Option<u32>
        requires { group < length self.now }
        ensures least { MatchOption result (group ≡ 0) (IsNext self.now group) }
        ensures value { IfSome result (λ h. h ≡ next_of self.now group) }
    {
        self.next[group as usize]
    }

    /// The number of the group that is this set, on the way from the smallest group of its first cell to the whole.
    pub(crate) fn find(&self, set: &[u32]) -> u32
        requires some { 1 ≤ length set.now }
        requires known { Contains self.now set.now }
        ensures here { result < length self.now }
        ensures value { group_at self.now result ≡ set.now }
    {
        let groups = &self.groups;
        let mut group = self.smallest(set[0]);
        while groups[group as usize].len() < set.len() {
            group = self.next(group).unwrap();
        }
        group
    }
}
