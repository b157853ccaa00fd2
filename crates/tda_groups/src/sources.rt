// The sets of which each is a group of a level: all possible cells, those of each kind, the classes of each query.
ghost use Rattle.std.specs.Prelude.{◌≡◌, ◌<◌, ◌++◌, ◌∷◌, [], length, map, All, IfOk, OnOk};
ghost use Rattle.std.specs.List.{range_with_len, flat_map};
ghost use Rattle.tda_model.specs.Cells.{possible_cells};
ghost use Rattle.tda_model.specs.Bounds.{HasKinds};
ghost use Rattle.tda_schema.specs.Stated.{level_at, queries_at, query_at};
ghost use Rattle.tda_groups.specs.Sources.{kind_sets, class_sets, source_sets};

use crate::cell_set::CellSet;
use std::alloc::Global;
use tda_io::NoMemory;
use tda_schema::Schema;

// So many sets of no cells.
fn empty_sets(alloc: Global, count: usize) -> Result<Vec<CellSet>, NoMemory>
    ensures { IfOk result (λ sets. sets.items ≡ map (λ _. []) (range_with_len 0 count)) }
{
    let mut sets = Vec::new(alloc);
    for _ in 0..count {
        sets.push(CellSet::new(alloc))?;
    }
    Ok(sets)
}

// All possible cells.
fn possible_cells(alloc: Global, schema: &Schema) -> Result<CellSet, NoMemory>
    ensures { IfOk result (λ set. set ≡ possible_cells schema.now) }
{
    let mut set = CellSet::new(alloc);
    for cell in 0..schema.cells() {
        if schema.possible(cell) {
            set.push(cell)?;
        }
    }
    Ok(set)
}

/// The possible cells of each kind.
pub(crate) fn kind_sets(alloc: Global, schema: &Schema) -> Result<Vec<CellSet>, NoMemory>
    ensures value { IfOk result (λ sets. sets.items ≡ kind_sets schema.now) }
    ensures each_has_a_cell { HasKinds schema.now }
{
    let mut sets = empty_sets(alloc, usize::from(schema.kinds()))?;
    for cell in 0..schema.cells() {
        if schema.possible(cell) {
            sets[usize::from(schema.kind_of(cell))].push(cell)?;
        }
    }
    Ok(sets)
}

/// For each cell the class of a query over all possible cells that is named by it, and no cells where none is.
pub(crate) fn class_sets(
    alloc: Global,
    schema: &Schema,
    level: usize,
    query: usize,
) -> Result<Vec<CellSet>, NoMemory>
    requires level { level < length schema.now.levels }
    requires query { query < length (queries_at schema.now level) }
    requires over_all { (query_at schema.now level query).only ≡ [] }
    ensures { IfOk result (λ sets. sets.items ≡ class_sets schema.now (query_at schema.now level query)) }
{
    let mut sets = empty_sets(alloc, schema.cells() as usize)?;
    for cell in 0..schema.cells() {
        if schema.possible(cell) {
            sets[schema.class_of(level, query, cell) as usize].push(cell)?;
        }
    }
    Ok(sets)
}

// Appends the classes of each query.
fn append_classes(
    alloc: Global,
    schema: &Schema,
    level: usize,
    sets: &mut Vec<CellSet>,
) -> Result<(), NoMemory>
    requires { level < length schema.now.levels }
    ensures sets { OnOk result (sets.new.items ≡ sets.old.items ++ flat_map (class_sets schema.now) (queries_at schema.now level)) }
    ensures over_all { All (λ q. q.only ≡ []) (queries_at schema.now level) }
{
    for query in 0..schema.queries(level) {
        let mut classes = class_sets(alloc, schema, level, query)?;
        sets.append(&mut classes)?;
    }
    Ok(())
}

/// All sets of a level. Some can be equal, and some without a cell.
pub(crate) fn source_sets(
    alloc: Global,
    schema: &Schema,
    level: usize,
) -> Result<Vec<CellSet>, NoMemory>
    requires { level < length schema.now.levels }
    ensures value { IfOk result (λ sets. sets.items ≡ source_sets schema.now (level_at schema.now level)) }
    ensures kinds { OnOk result (HasKinds schema.now) }
    ensures over_all { OnOk result (All (λ q. q.only ≡ []) (queries_at schema.now level)) }
{
    let mut sets = Vec::new(alloc);
    sets.push(possible_cells(alloc, schema)?)?;
    sets.append(&mut kind_sets(alloc, schema)?)?;
    append_classes(alloc, schema, level, &mut sets)?;
    Ok(sets)
}
