// How large the fits of a spine are.
ghost use Rattle.std.specs.Prelude.{◌≡◌, ◌+◌, ◌<◌, ◌≤◌, ◌^◌, None, Some, true, length};
ghost use Rattle.tda_model.specs.Cells.{possible_cells};
ghost use Rattle.tda_model.specs.Sizes.{fit_size, root_fit_size, split_size};
ghost use Rattle.tda_spine.specs.Judged as spec;
ghost use Rattle.tda_spine.specs.Sound.{IsInner, IsSound};

use crate::Spine;
use tda_schema::Schema;

// The most nodes and arcs of one fit.
const NODES: u64 = 1 << 11;

const ARCS: u64 = 1 << 16;

// Whether a fit of this size is too large.
fn is_too_large(nodes: u64, arcs: u64) -> bool
    ensures { result ≡ spec.is_too_large (record { nodes = nodes; arcs = arcs }) }
{
    nodes > NODES || arcs > ARCS
}

// Whether the fit of the nation is too large.
fn is_large_root(states: u64, kinds: u64, possible: u64, groups: u64) -> bool
    requires states { states < 2 ^ 30 }
    requires kinds { kinds < 2 ^ 16 }
    requires possible { possible < 2 ^ 32 }
    requires groups { groups < 2 ^ 32 }
    ensures { result ≡ spec.is_too_large (root_fit_size states kinds possible groups) }
{
    is_too_large(
        1 + states + kinds + groups,
        states + states * kinds + possible + groups,
    )
}

// Whether the fit of so many children is too large.
fn is_large_split(children: u64, possible: u64, groups: u64) -> bool
    requires children { children < 2 ^ 30 }
    requires possible { possible ≤ 2 ^ 32 }
    requires groups { groups < 2 ^ 32 }
    ensures { result ≡ spec.is_too_large (split_size children possible groups) }
{
    is_too_large(
        1 + possible + children * groups,
        possible + children * possible + children * groups,
    )
}

/// How many cells are possible.
pub(crate) fn count_possible(schema: &Schema) -> u64
    ensures count { result ≡ length (possible_cells schema.now) }
    ensures few { result < 2 ^ 32 }
{
    let mut count = 0;
    for cell in 0..schema.cells() {
        if schema.possible(cell) {
            count += 1;
        }
    }
    count
}

impl Spine {
    // Whether the fit of the nation is too large.
    fn has_large_root(&self, schema: &Schema, possible: u64) -> bool
        requires sound { IsSound self.now }
        requires depth { self.now.depth ≡ length schema.now.levels }
        requires possible { possible ≡ length (possible_cells schema.now) }
        requires few { possible < 2 ^ 32 }
        ensures { result ≡ spec.is_too_large (fit_size schema.now self.now None) }
    {
        is_large_root(
            self.at_level(1).len() as u64,
            u64::from(schema.kinds()),
            possible,
            u64::from(schema.groups(0)),
        )
    }

    // Whether the fit of a unit's children is too large.
    fn has_large_split(&self, schema: &Schema, parent: u32, possible: u64) -> bool
        requires sound { IsSound self.now }
        requires depth { self.now.depth ≡ length schema.now.levels }
        requires parent { IsInner self.now parent }
        requires possible { possible ≡ length (possible_cells schema.now) }
        requires few { possible < 2 ^ 32 }
        ensures { result ≡ spec.is_too_large (fit_size schema.now self.now (Some parent)) }
    {
        is_large_split(
            self.children(parent).len() as u64,
            possible,
            u64::from(schema.groups(self.level(parent) + 1)),
        )
    }

    /// The first fit, in fit order, that is too large.
    pub(crate) fn first_large_fit(&self, schema: &Schema) -> Option<Option<u32>>
        requires sound { IsSound self.now }
        requires depth { self.now.depth ≡ length schema.now.levels }
        ensures { result ≡ spec.first_large_fit schema.now self.now }
    {
        let possible = count_possible(schema);
        if self.has_large_root(schema, possible) {
            return Some(None);
        }
        for parent in self.parents() {
            if self.has_large_split(schema, *parent, possible) {
                return Some(Some(*parent));
            }
        }
        None
    }
}
