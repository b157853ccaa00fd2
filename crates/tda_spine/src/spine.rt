// An accepted spine and its readers.
ghost use Rattle.std.specs.Prelude.{◌≡◌, ◌≢◌, ◌<◌, ◌≤◌, ◌^◌, ℕ, List, length, map, slice_get, Contains, Some, IfOk, IfSome, IfNone, IsNone, true, ◌↔◌};
ghost use Rattle.std.specs.List.{AllPairs};
ghost use Rattle.tda_io.specs.Texts.{name_test};
ghost use Rattle.tda_model.specs.Spine.{IsUnit, level_of, parent_of, code_of, children_of, blocks_of, units_at, nation_of, parents_of};
ghost use Rattle.tda_spine.specs.Sound.{spine_of, IsSound, IsInner, FollowParents, unit_named};

use crate::tree::Tree;
use crate::unit::SpineUnit;
use std::alloc::Global;
use std::marker::Model;
use tda_io::NoMemory;
use tda_schema::Texts;

/// The units of the nation in file order, with the tree that they form. Units are numbered from 0.
#[derive(Drop)]
pub struct Spine {
    depth: usize,
    units: Vec<SpineUnit>,
    codes: Texts,
    tree: Tree,
}

impl Model for Spine {
    ghost use Rattle.std.specs.Prelude.{map};
    ghost use Rattle.tda_model.specs.Spine as model;

    ghost Value = { model.Spine };

    ghost view = { λ s. record { depth = s.depth; units = s.units.items } };

    ghost use Rattle.tda_spine.specs.Kept.{Keeps};

    ghost invariant = { λ s. Keeps s.depth s.units.items s.codes s.tree };
}

// The codes of the units, in order.
fn codes_of(alloc: Global, units: &[SpineUnit]) -> Result<Texts, NoMemory>
    requires { (u v : ℕ) → u < v → v < length units.now → code_of (spine_of 0 units.now) u ≡ code_of (spine_of 0 units.now) v → ⊥ }
    ensures { IfOk result (λ codes. codes ≡ map (λ x. x.code) units.now) }
{
    let mut codes = Texts::new(alloc);
    for unit in units {
        codes.push(alloc, unit.code.as_bytes())?;
    }
    Ok(codes)
}

impl Spine {
    // The spine of these units.
    pub(crate) fn new(alloc: Global, depth: usize, units: Vec<SpineUnit>) -> Result<Spine, NoMemory>
        requires { IsSound (spine_of depth units.items) }
        ensures { IfOk result (λ spine. spine ≡ spine_of depth units.items) }
    {
        let codes = codes_of(alloc, &units)?;
        let tree = Tree::new(alloc, depth, &units)?;
        Ok(Spine {
            depth,
            units,
            codes,
            tree,
        })
    }

    /// How many units there are, at least 2 and at most 131,072.
    pub fn units(&self) -> u32
        ensures count { result ≡ length self.now.units }
        ensures sound { IsSound self.now }
    {
        self.units.len() as u32
    }

    /// The code of a unit, as the file writes it: 1 to 16 letters, digits, `_`, `-`, `.` and `+`, the first a letter or
    /// a digit.
    pub fn code(&self, unit: u32) -> &str
        requires { IsUnit self.now unit }
        ensures code { result.now ≡ code_of self.now unit }
        ensures coded { name_test 16 result.now ≡ true }
    {
        let unit = &self.units[unit as usize];
        unit.code.as_str()
    }

    /// The unit whose code these bytes are, and None where there is none.
    pub fn find(&self, bytes: &[u8]) -> Option<u32>
        ensures value { result ≡ unit_named self.now bytes.now }
        ensures found { IfSome result (λ u. IsUnit self.now u × (code_of self.now u ≡ bytes.now)) }
        ensures absent { IfNone result ((u : ℕ) → IsUnit self.now u → code_of self.now u ≡ bytes.now → ⊥) }
    {
        let Some(unit) = self.codes.find(bytes) else {
            return None;
        };
        Some(unit as u32)
    }

    /// The level of a unit, 0 for the nation.
    pub fn level(&self, unit: u32) -> usize
        requires { IsUnit self.now unit }
        ensures { result ≡ level_of self.now unit }
    {
        let unit = &self.units[unit as usize];
        unit.level
    }

    /// The unit above a unit, and None for the nation alone.
    pub fn parent(&self, unit: u32) -> Option<u32>
        requires { IsUnit self.now unit }
        ensures value { result ≡ parent_of self.now unit }
        ensures top { IsNone result ↔ (unit ≡ nation_of self.now) }
    {
        let unit = &self.units[unit as usize];
        unit.parent
    }

    /// The units just below a unit, in file order.
    pub fn children(&self, unit: u32) -> &[u32]
        requires { IsUnit self.now unit }
        ensures { result.now ≡ children_of self.now unit }
    {
        self.tree.children.get(unit as usize)
    }

    /// The units of the last level that are a unit or lie below it, in file order. A block's own list is itself.
    pub fn blocks(&self, unit: u32) -> &[u32]
        requires { IsUnit self.now unit }
        ensures { result.now ≡ blocks_of self.now unit }
    {
        self.tree.blocks.get(unit as usize)
    }

    /// The units of a level, in file order.
    pub fn at_level(&self, level: usize) -> &[u32]
        requires { level < self.now.depth }
        ensures { result.now ≡ units_at self.now level }
    {
        self.tree.levels.get(level)
    }

    /// The unit of the first level, which alone has no parent.
    pub fn nation(&self) -> u32
        ensures nation { result ≡ nation_of self.now }
        ensures sound { IsSound self.now }
    {
        self.tree.levels.get(0)[0]
    }

    /// The units with children, a unit before its children and children in file order.
    pub fn parents(&self) -> &[u32]
        ensures value { result.now ≡ parents_of self.now }
        ensures exact { (u : ℕ) → Contains result.now u ↔ IsInner self.now u }
        ensures once { AllPairs (λ u v. u ≢ v) result.now }
        ensures first { slice_get result.now 0 ≡ Some (nation_of self.now) }
        ensures order { FollowParents self.now result.now }
    {
        self.tree.parents.as_slice()
    }
}

#[cfg(test)]
mod tests;
