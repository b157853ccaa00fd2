// The parts of a schema with its names looked up.
ghost use Rattle.std.specs.Prelude.{◌≡◌, ◌∷◌, All, map, IfOk};
ghost use Rattle.tda_io.specs.Due.{Gives};
ghost use Rattle.tda_model.specs.Cells.{is_possible, all_cells};
ghost use Rattle.tda_schema.specs.Classes as classes;
ghost use Rattle.tda_schema.specs.Columns.{columns_of};
ghost use Rattle.tda_schema.specs.Levels as levels;
ghost use Rattle.tda_schema.specs.Parts.{ArePartsOf};
ghost use Rattle.tda_schema.specs.Read as spec;
ghost use Rattle.tda_schema.specs.Stated.{IsLevelOf, IsLookedUp, IsQueryOf};

use crate::SchemaFault;
use crate::cells::possible_cells;
use crate::classes::{kind_family, query_family, query_parts, whole_family};
use crate::columns::Columns;
use crate::groups::{count_groups, count_places, is_nested};
use crate::kinds::has_kinds;
use crate::parts::{LevelParts, Parts, QueryParts};
use crate::stated::{Level, Query, Stated};
use std::alloc::Global;
use tda_io::NoMemory;
use tda_sets::Family;

// The classes of each query of a level.
fn query_families(
    alloc: Global,
    stated: &Stated,
    columns: &Columns,
    possible: &[bool],
    queries: &[Query],
) -> Result<Vec<Family>, NoMemory>
    requires looked_up { IsLookedUp stated.now }
    requires columns { columns.now ≡ columns_of stated.now.attributes }
    requires possible { possible.now ≡ map (is_possible stated.now) (all_cells stated.now) }
    requires queries { All (IsQueryOf stated.now) queries.now }
    ensures { IfOk result (λ v. v.items ≡ map (classes.query_family stated.now) queries.now) }
{
    let mut families = Vec::new(alloc);
    for query in queries {
        families.push(query_family(alloc, stated, columns, possible, query)?)?;
    }
    Ok(families)
}

// The families of a level, lent: all possible cells, the kinds, and the classes of each query.
fn lend<'a>(
    alloc: Global,
    whole: &'a Family,
    kinds: &'a Family,
    queries: &'a [Family],
) -> Result<Vec<&'a Family>, NoMemory>
    ensures { IfOk result (λ v. map (λ f. f.now) v.items ≡ whole.now ∷ kinds.now ∷ queries.now) }
{
    let mut families = Vec::new(alloc);
    families.push(whole)?;
    families.push(kinds)?;
    for query in queries {
        families.push(query)?;
    }
    Ok(families)
}

// What the queries of a level come to, out of their families.
fn parts_of_queries(alloc: Global, families: Vec<Family>) -> Result<Vec<QueryParts>, NoMemory>
    ensures { IfOk result (λ v. v.items ≡ map classes.family_parts families.items) }
{
    let mut queries = Vec::new(alloc);
    for family in families {
        queries.push(query_parts(alloc, family)?)?;
    }
    Ok(queries)
}

// What a level comes to, or that its groups aren't nested.
fn level_parts(
    alloc: Global,
    stated: &Stated,
    columns: &Columns,
    possible: &[bool],
    whole: &Family,
    kinds: &Family,
    level: &Level,
) -> Result<LevelParts, SchemaFault>
    requires looked_up { IsLookedUp stated.now }
    requires columns { columns.now ≡ columns_of stated.now.attributes }
    requires possible { possible.now ≡ map (is_possible stated.now) (all_cells stated.now) }
    requires whole { whole.now ≡ classes.whole_family stated.now }
    requires kinds { kinds.now ≡ classes.kind_family stated.now }
    requires level { IsLevelOf stated.now level.now }
    ensures { Gives SchemaFault.NoMemory (λ p. p) result (levels.level_parted stated.now level.now) }
{
    let families = query_families(alloc, stated, columns, possible, &level.queries)?;
    let groups = {
        let lent = lend(alloc, whole, kinds, &families)?;
        if !is_nested(alloc, &lent)? {
            return Err(SchemaFault::NotNested);
        }
        count_groups(alloc, &lent)?
    };
    let queries = parts_of_queries(alloc, families)?;
    let places = count_places(&queries);
    Ok(LevelParts {
        queries,
        groups,
        places,
    })
}

// What the levels come to, or that the groups of one aren't nested.
fn levels_parts(
    alloc: Global,
    stated: &Stated,
    columns: &Columns,
    possible: &[bool],
) -> Result<Vec<LevelParts>, SchemaFault>
    requires looked_up { IsLookedUp stated.now }
    requires columns { columns.now ≡ columns_of stated.now.attributes }
    requires possible { possible.now ≡ map (is_possible stated.now) (all_cells stated.now) }
    ensures { Gives SchemaFault.NoMemory (λ v. v.items) result (levels.levels_parted stated.now stated.now.levels) }
{
    let whole = whole_family(alloc, stated, possible)?;
    let kinds = kind_family(alloc, stated, columns, &whole)?;
    let mut parts = Vec::new(alloc);
    for level in &stated.levels {
        parts.push(level_parts(alloc, stated, columns, possible, &whole, &kinds, level)?)?;
    }
    Ok(parts)
}

/// The parts of a schema, or why it has none.
pub(crate) fn parts_of(alloc: Global, stated: &Stated) -> Result<Parts, SchemaFault>
    requires { IsLookedUp stated.now }
    ensures value { Gives SchemaFault.NoMemory (λ p. p) result (spec.parted stated.now) }
    ensures parts { IfOk result (ArePartsOf stated.now) }
{
    let columns = Columns::new(alloc, &stated.attributes)?;
    let possible = possible_cells(alloc, stated, &columns)?;
    let levels = levels_parts(alloc, stated, &columns, &possible)?;
    if !has_kinds(alloc, stated, &columns, &possible)? {
        return Err(SchemaFault::KindWithoutCell);
    }
    Ok(Parts { possible, levels })
}
