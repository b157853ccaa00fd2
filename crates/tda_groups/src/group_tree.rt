// The tree of a level's groups.
ghost use Rattle.std.specs.Prelude.{◌≡◌, ◌<◌, ◌≤◌, ◌∷◌, ◌++◌, [], Some, length, map, slice_get, All, Contains, IfOk, IfSome, IsSome, MatchOption};
ghost use Rattle.std.specs.List.{range_with_len};
ghost use Rattle.tda_schema.specs.Stated.{level_at, queries_at, query_at};
ghost use Rattle.tda_model.specs.Cells.{all_cells};
ghost use Rattle.tda_model.specs.Schema as model;
ghost use Rattle.tda_model.specs.Groups.{kind_cells, kind_count, class_cells, classes_of};
ghost use Rattle.tda_groups.specs.Sources.{named_cells, class_sets};
ghost use Rattle.tda_groups.specs.Chains.{smallest_of, next_of};
ghost use Rattle.tda_groups.specs.Order.{AreGroups, IsSmallest, IsNext, IsCellSet, group_at};
ghost use Rattle.std.specs.List.Sorted.{IsStrictlyIncreasing};
ghost use Rattle.tda_groups.specs.Tree.{kind_at, class_at, place_in, IsGroupAt, IsTreeOf};

use crate::cell_set::CellSet;
use crate::chains::Chains;
use crate::order::ordered;
use crate::sources::{class_sets, kind_sets, source_sets};
use std::alloc::Global;
use std::marker::Model;
use tda_io::NoMemory;
use tda_schema::Schema;

/// The groups of a level: the different sets among all possible cells, those of each kind, and the classes of each
/// query of the level. They are numbered by their first cells, and of two with one first cell the larger comes first; group 0
/// is that of all possible cells.
#[derive(Debug, Drop)]
pub struct GroupTree {
    chains: Chains,
    kinds: Vec<Option<u32>>,
    classes: Vec<Vec<Option<u32>>>,
}

impl Model for GroupTree {
    ghost use Rattle.std.specs.Prelude.{map};
    ghost use Rattle.tda_groups.specs.Tree.{Tree};

    ghost Value = { Tree };

    ghost view = { λ t. record { groups = t.chains; kinds = t.kinds.items; classes = map (λ row. row.items) t.classes.items } };
}

// The number of each set among the groups, None where it has no cell.
fn places(alloc: Global, chains: &Chains, sets: &[CellSet]) -> Result<Vec<Option<u32>>, NoMemory>
    requires groups { AreGroups chains.now }
    requires known { All (λ xs. 1 ≤ length xs → Contains chains.now xs) sets.now }
    ensures { IfOk result (λ v. v.items ≡ map (place_in chains.now) sets.now) }
{
    let mut places = Vec::new(alloc);
    for set in sets {
        let place = if set.is_empty() {
            None
        } else {
            Some(chains.find(set.as_slice()))
        };
        places.push(place)?;
    }
    Ok(places)
}

// For each query and cell the group of the class that the cell names.
fn class_places(
    alloc: Global,
    schema: &Schema,
    level: usize,
    chains: &Chains,
) -> Result<Vec<Vec<Option<u32>>>, NoMemory>
    requires level { level < length schema.now.levels }
    requires groups { AreGroups chains.now }
    requires known { All (λ q. All (λ xs. 1 ≤ length xs → Contains chains.now xs) (class_sets schema.now q)) (queries_at schema.now level) }
    ensures { IfOk result (λ v. map (λ row. row.items) v.items ≡ map (λ q. map (place_in chains.now) (class_sets schema.now q)) (queries_at schema.now level)) }
{
    let mut classes = Vec::new(alloc);
    for query in 0..schema.queries(level) {
        let sets = class_sets(alloc, schema, level, query)?;
        classes.push(places(alloc, chains, &sets)?)?;
    }
    Ok(classes)
}

/// The tree of a level's groups.
pub fn tree(alloc: Global, schema: &Schema, level: usize) -> Result<GroupTree, NoMemory>
    requires { level < length schema.now.levels }
    ensures { IfOk result (IsTreeOf schema.now (level_at schema.now level)) }
{
    let count = schema.groups(level) as usize;
    let groups = ordered(alloc, count, source_sets(alloc, schema, level)?)?;
    let chains = Chains::new(alloc, groups, schema.cells())?;
    let kinds = places(alloc, &chains, &kind_sets(alloc, schema)?)?;
    let classes = class_places(alloc, schema, level, &chains)?;
    Ok(GroupTree {
        chains,
        kinds,
        classes,
    })
}

impl GroupTree {
    /// How many groups there are.
    pub fn len(&self) -> u32
        ensures count { result ≡ length self.now.groups }
        ensures groups { AreGroups self.now.groups }
    {
        self.chains.len() as u32
    }

    /// The smallest group that has a possible cell.
    pub fn smallest(&self, cell: u32) -> u32
        requires { Contains (group_at self.now.groups 0) cell }
        ensures least { IsSmallest self.now.groups cell result }
        ensures value { result ≡ smallest_of self.now.groups cell }
    {
        self.chains.smallest(cell)
    }

    /// The next larger group: the least one that holds all cells of this one and more. None for group 0 alone.
    pub fn next(&self, group: u32) -> Option<u32>
        requires { group < length self.now.groups }
        ensures least { MatchOption result (group ≡ 0) (IsNext self.now.groups group) }
        ensures value { IfSome result (λ h. h ≡ next_of self.now.groups group) }
    {
        self.chains.next(group)
    }

    /// The cells of a group, ascending.
    pub fn members(&self, group: u32) -> &[u32]
        requires { group < length self.now.groups }
        ensures value { result.now ≡ group_at self.now.groups group }
        ensures set { IsCellSet result.now }
    {
        self.chains.members(group)
    }

    /// The group of the possible cells of a kind. In the tree of a level of a schema each kind of the schema has one.
    pub fn kind_group(&self, kind: u16) -> u32
        requires { IsSome (kind_at self.now kind) }
        ensures value { kind_at self.now kind ≡ Some result }
        ensures cells { (s : model.Schema) (l : model.Level) → IsTreeOf s l self.now → kind < kind_count s → IsGroupAt self.now result (kind_cells s kind) }
    {
        self.kinds[usize::from(kind)].unwrap()
    }

    /// The group of a class of a query, which is named by its first possible cell. In the tree of a level each class of
    /// each of its queries has one.
    pub fn class_group(&self, query: usize, class: u32) -> u32
        requires { IsSome (class_at self.now query class) }
        ensures value { class_at self.now query class ≡ Some result }
        ensures cells { (s : model.Schema) (l : model.Level) (q : model.Query) → IsTreeOf s l self.now → slice_get l.queries query ≡ Some q → Contains (classes_of s q) class → IsGroupAt self.now result (class_cells s q class) }
    {
        self.classes[query][class as usize].unwrap()
    }
}
