// How large the networks of fits are.
ghost use Rattle.std.specs.Prelude.{◌≡◌, ◌<◌, ◌≤◌, ◌^◌, None, Some, IfSome, length, max};
ghost use Rattle.tda_model.specs.Cells.{possible_cells};
ghost use Rattle.tda_model.specs.Sizes as model;
ghost use Rattle.tda_model.specs.Sizes.{nodes_limit, arcs_limit};
ghost use Rattle.tda_spine.specs.Judged.{IsWithinLimits, fits_of};
ghost use Rattle.tda_spine.specs.Largest.{IsLargest};
ghost use Rattle.tda_spine.specs.Sound.{IsInner, IsSound};

use crate::Spine;
use crate::size::count_possible;
use tda_schema::Schema;

/// How many nodes and arcs the network of a fit has: at most 2,048 and 65,536.
#[derive(Clone, Copy, Debug, PartialEq, Eq)]
pub struct FitSize {
    pub nodes: u32,
    pub arcs: usize,
}

// The greater of each number.
fn larger(one: FitSize, other: FitSize) -> FitSize
    ensures nodes { result.nodes ≡ max one.nodes other.nodes }
    ensures arcs { result.arcs ≡ max one.arcs other.arcs }
{
    FitSize {
        nodes: one.nodes.max(other.nodes),
        arcs: one.arcs.max(other.arcs),
    }
}

// Of the nation's fit.
fn root_size(states: u64, kinds: u64, possible: u64, groups: u64) -> FitSize
    requires few_nodes { (model.root_fit_size states kinds possible groups).nodes ≤ nodes_limit }
    requires few_arcs { (model.root_fit_size states kinds possible groups).arcs ≤ arcs_limit }
    ensures nodes { result.nodes ≡ (model.root_fit_size states kinds possible groups).nodes }
    ensures arcs { result.arcs ≡ (model.root_fit_size states kinds possible groups).arcs }
{
    FitSize {
        nodes: (1 + states + kinds + groups) as u32,
        arcs: (states + states * kinds + possible + groups) as usize,
    }
}

// Of the fit of so many children.
fn split_size(children: u64, possible: u64, groups: u64) -> FitSize
    requires few_nodes { (model.split_size children possible groups).nodes ≤ nodes_limit }
    requires few_arcs { (model.split_size children possible groups).arcs ≤ arcs_limit }
    ensures nodes { result.nodes ≡ (model.split_size children possible groups).nodes }
    ensures arcs { result.arcs ≡ (model.split_size children possible groups).arcs }
{
    FitSize {
        nodes: (1 + possible + children * groups) as u32,
        arcs: (possible + children * possible + children * groups) as usize,
    }
}

impl Spine {
    // The size of a fit, where so many cells are possible.
    fn size_of(&self, schema: &Schema, fit: Option<u32>, possible: u64) -> FitSize
        requires belong { IsWithinLimits schema.now self.now }
        requires sound { IsSound self.now }
        requires fit { IfSome fit (IsInner self.now) }
        requires possible { possible ≡ length (possible_cells schema.now) }
        ensures nodes { result.nodes ≡ (model.fit_size schema.now self.now fit).nodes }
        ensures arcs { result.arcs ≡ (model.fit_size schema.now self.now fit).arcs }
    {
        match fit {
            None => root_size(
                self.at_level(1).len() as u64,
                u64::from(schema.kinds()),
                possible,
                u64::from(schema.groups(0)),
            ),
            Some(parent) => split_size(
                self.children(parent).len() as u64,
                possible,
                u64::from(schema.groups(self.level(parent) + 1)),
            ),
        }
    }

    /// How large the network of a fit is: that of the nation where no unit is named, and else that of the children of
    /// the unit, which has children. The spine was read for this schema. It passes the schema's cells once.
    pub fn fit_size(&self, schema: &Schema, fit: Option<u32>) -> FitSize
        requires belong { IsWithinLimits schema.now self.now }
        requires fit { IfSome fit (IsInner self.now) }
        ensures nodes { result.nodes ≡ (model.fit_size schema.now self.now fit).nodes }
        ensures arcs { result.arcs ≡ (model.fit_size schema.now self.now fit).arcs }
    {
        let _ = self.units();
        self.size_of(schema, fit, count_possible(schema))
    }

    /// The greatest numbers of nodes and of arcs that a fit of the spine has. It passes the schema's cells once, and
    /// each unit with children once.
    pub fn largest_fit(&self, schema: &Schema) -> FitSize
        requires { IsWithinLimits schema.now self.now }
        ensures nodes { IsLargest (λ fit. (model.fit_size schema.now self.now fit).nodes) (fits_of self.now) result.nodes }
        ensures arcs { IsLargest (λ fit. (model.fit_size schema.now self.now fit).arcs) (fits_of self.now) result.arcs }
    {
        let _ = self.units();
        let possible = count_possible(schema);
        let mut largest = self.size_of(schema, None, possible);
        for parent in self.parents() {
            largest = larger(largest, self.size_of(schema, Some(*parent), possible));
        }
        largest
    }
}
