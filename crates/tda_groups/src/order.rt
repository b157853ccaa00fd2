// Groups out of sets: each once and in order.
ghost use Rattle.std.specs.Prelude.{◌≡◌, ◌↔◌, ◌-◌, ◌<◌, ◌≤◌, ℕ, [], List, length, filter, slice_index_or, All, Contains, IfOk, IsTrue};
ghost use Rattle.std.specs.List.{AllPairs, AllAdjacentBelow};
ghost use Rattle.std.specs.List.Sorted.{IsPermutation, IsStrictlyIncreasing};
ghost use Rattle.tda_sets.specs.Nested.{AreAllNested};
ghost use Rattle.tda_groups.specs.Order.{has_cells, ComesBefore, ComesNoLater, IsCellSet};

use crate::cell_set::CellSet;
use std::alloc::Global;
use std::cmp::Reverse;
use tda_io::NoMemory;

// Leaves out the sets of no cells.
fn drop_empty(sets: &mut Vec<CellSet>)
    ensures { sets.new.items ≡ filter has_cells sets.old.items }
{
    sets.retain(|set| !set.is_empty());
}

// Orders sets by their first cells, and those with one first cell from the largest down.
fn sort_sets(sets: &mut Vec<CellSet>)
    ensures permutation { IsPermutation sets.old.items sets.new.items }
    ensures sorted { AllAdjacentBelow ComesNoLater sets.new.items (length sets.new.items) }
{
    sets.sort_unstable_by_key(|set| (set.first(), Reverse(set.len())));
}

// Whether the set is the last group.
fn is_last(groups: &[CellSet], set: &CellSet) -> bool
    ensures { IsTrue result ↔ ((0 < length groups.now) × (slice_index_or groups.now (length groups.now - 1) [] ≡ set.now)) }
{
    match groups.last() {
        Some(last) => last.as_slice() == set.as_slice(),
        None => false,
    }
}

// Each of the sets once. The count is how many of them are expected.
fn distinct(alloc: Global, count: usize, sets: Vec<CellSet>) -> Result<Vec<CellSet>, NoMemory>
    requires sets { All IsCellSet sets.items }
    requires nested { AreAllNested sets.items sets.items }
    requires sorted { AllAdjacentBelow ComesNoLater sets.items (length sets.items) }
    ensures ordered { IfOk result (λ groups. AllPairs ComesBefore groups.items) }
    ensures exact { IfOk result (λ groups. (xs : List ℕ) → Contains groups.items xs ↔ Contains sets.items xs) }
{
    let mut groups = Vec::with_capacity(alloc, count)?;
    for set in sets {
        if !is_last(&groups, &set) {
            groups.push(set)?;
        }
    }
    Ok(groups)
}

/// Each of the sets that has a cell, once: by first cells, and of two with one first cell the larger first. The
/// count is how many groups are expected.
pub(crate) fn ordered(
    alloc: Global,
    count: usize,
    mut sets: Vec<CellSet>,
) -> Result<Vec<CellSet>, NoMemory>
    requires ascending { All IsStrictlyIncreasing sets.items }
    requires nested { AreAllNested sets.items sets.items }
    ensures sets { IfOk result (λ groups. All IsCellSet groups.items) }
    ensures ordered { IfOk result (λ groups. AllPairs ComesBefore groups.items) }
    ensures exact { IfOk result (λ groups. (xs : List ℕ) → Contains groups.items xs ↔ (Contains sets.items xs × (1 ≤ length xs))) }
{
    drop_empty(&mut sets);
    sort_sets(&mut sets);
    distinct(alloc, count, sets)
}
