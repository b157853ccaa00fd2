// The lists of a tree of units.
ghost use Rattle.std.specs.Prelude.{◌≡◌, ◌<◌, ◌≤◌, ◌^◌, ◌++◌, ℕ, Some, length, IfOk, OnOk};
ghost use Rattle.tda_model.specs.Spine.{Spine, IsTree, level_of, nation_of, parents_of, preorder_from};
ghost use Rattle.tda_spine.specs.Sound.{spine_of, children_lists, level_lists, block_lists, IsClimbed};

use crate::lists::Lists;
use crate::unit::SpineUnit;
use std::alloc::Global;
use tda_io::NoMemory;

// The children of each unit.
fn children(alloc: Global, depth: usize, units: &[SpineUnit]) -> Result<Lists, NoMemory>
    requires few { length units.now ≤ 2 ^ 17 }
    requires tree { IsTree (spine_of depth units.now) (nation_of (spine_of depth units.now)) }
    ensures { IfOk result (λ lists. lists ≡ children_lists (spine_of depth units.now)) }
{
    let mut lists = Lists::new(alloc, units.len())?;
    for (number, unit) in units.iter().enumerate() {
        if let Some(parent) = unit.parent {
            lists.push(parent as usize, number as u32)?;
        }
    }
    Ok(lists)
}

// The units of each level.
fn levels(alloc: Global, depth: usize, units: &[SpineUnit]) -> Result<Lists, NoMemory>
    requires few { length units.now ≤ 2 ^ 17 }
    requires within { (u : ℕ) → u < length units.now → level_of (spine_of depth units.now) u < depth }
    ensures { IfOk result (λ lists. lists ≡ level_lists (spine_of depth units.now)) }
{
    let mut lists = Lists::new(alloc, depth)?;
    for (number, unit) in units.iter().enumerate() {
        lists.push(unit.level, number as u32)?;
    }
    Ok(lists)
}

// Appends the units with children at and below a unit, over so many levels, each before its children.
fn walk(children: &Lists, unit: u32, steps: usize, order: &mut Vec<u32>) -> Result<(), NoMemory>
    requires spine { (sp : Spine) × (children.now ≡ children_lists sp) }
    requires unit { unit < length children.now }
    ensures { OnOk result ((sp : Spine) → children.now ≡ children_lists sp → order.new.items ≡ order.old.items ++ preorder_from sp steps unit) }
{
    let under = children.get(unit as usize);
    if steps == 0 || under.is_empty() {
        return Ok(());
    }
    order.push(unit)?;
    for child in under {
        walk(children, *child, steps - 1, order)?;
    }
    Ok(())
}

// Appends a block to its own list and to the list of each unit over it.
fn climb(lists: &mut Lists, units: &[SpineUnit], block: u32) -> Result<(), NoMemory>
    requires tree { (depth : ℕ) × IsTree (spine_of depth units.now) (nation_of (spine_of depth units.now)) }
    requires block { block < length units.now }
    requires lists { length lists.old ≡ length units.now }
    ensures { OnOk result (IsClimbed units.now block lists.old lists.new) }
{
    let mut over = Some(block);
    while let Some(unit) = over {
        lists.push(unit as usize, block)?;
        let row = &units[unit as usize];
        over = row.parent;
    }
    Ok(())
}

// The blocks of each unit.
fn blocks(alloc: Global, depth: usize, units: &[SpineUnit]) -> Result<Lists, NoMemory>
    requires few { length units.now ≤ 2 ^ 17 }
    requires tree { IsTree (spine_of depth units.now) (nation_of (spine_of depth units.now)) }
    ensures { IfOk result (λ lists. lists ≡ block_lists (spine_of depth units.now)) }
{
    let mut lists = Lists::new(alloc, units.len())?;
    let last = depth - 1;
    for (number, unit) in units.iter().enumerate() {
        if unit.level == last {
            climb(&mut lists, units, number as u32)?;
        }
    }
    Ok(lists)
}

/// The lists of a tree of units.
#[derive(Drop)]
pub(crate) struct Tree {
    pub(crate) children: Lists,
    pub(crate) levels: Lists,
    pub(crate) blocks: Lists,
    pub(crate) parents: Vec<u32>,
}

impl Tree {
    /// The lists of a tree that has so many levels.
    pub(crate) fn new(alloc: Global, depth: usize, units: &[SpineUnit]) -> Result<Tree, NoMemory>
        requires few { length units.now ≤ 2 ^ 17 }
        requires tree { IsTree (spine_of depth units.now) (nation_of (spine_of depth units.now)) }
        ensures children { IfOk result (λ tree. tree.children ≡ children_lists (spine_of depth units.now)) }
        ensures levels { IfOk result (λ tree. tree.levels ≡ level_lists (spine_of depth units.now)) }
        ensures blocks { IfOk result (λ tree. tree.blocks ≡ block_lists (spine_of depth units.now)) }
        ensures parents { IfOk result (λ tree. tree.parents.items ≡ parents_of (spine_of depth units.now)) }
    {
        let children = children(alloc, depth, units)?;
        let levels = levels(alloc, depth, units)?;
        let blocks = blocks(alloc, depth, units)?;
        let nation = levels.get(0)[0];
        let mut parents = Vec::new(alloc);
        walk(&children, nation, depth, &mut parents)?;
        Ok(Tree {
            children,
            levels,
            blocks,
            parents,
        })
    }
}
