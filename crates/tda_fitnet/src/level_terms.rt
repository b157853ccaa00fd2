// The terms of a level's groups.
ghost use Rattle.std.specs.Prelude.{◌≡◌, ◌*◌, ◌<◌, ◌≤◌, length, slice_index_or, IfOk};
ghost use Rattle.tda_schema.specs.Stated.{level_at, queries_at};
ghost use Rattle.tda_places.specs.Spots.{before_query, class_count};
ghost use Rattle.tda_groups.specs.Tree.{IsTreeOf};
ghost use Rattle.tda_fitnet.specs.TermTable.{TermTable, row_at, place_at, IsRowOf, IsTableOf};

use std::alloc::Global;
use std::marker::Model;
use tda_groups::GroupTree;
use tda_io::NoMemory;
use tda_schema::Schema;

/// For each query of a level its weight, and for each group the class that has just the group's cells: where the
/// class's place stands among the places of a unit.
#[derive(Drop)]
pub(crate) struct LevelTerms {
    weights: Vec<u64>,
    places: Vec<Vec<Option<u32>>>,
}

impl Model for LevelTerms {
    ghost use Rattle.std.specs.Prelude.{map};
    ghost use Rattle.tda_fitnet.specs.TermTable.{TermTable};

    ghost Value = { TermTable };

    ghost view = { λ t. record { weights = t.weights.items; places = map (λ row. row.items) t.places.items } };
}

// For each group where the class of a query that has just the group's cells stands among a unit's places, and None
// where no class has them. So many places stand before those of the query.
fn query_places(
    alloc: Global,
    schema: &Schema,
    level: usize,
    tree: &GroupTree,
    query: usize,
    before: u32,
) -> Result<Vec<Option<u32>>, NoMemory>
    requires level { level < length schema.now.levels }
    requires query { query < length (queries_at schema.now level) }
    requires tree { IsTreeOf schema.now (level_at schema.now level) tree.now }
    requires before { before ≡ before_query schema.now level query }
    requires few { before ≤ query * 4096 }
    ensures { IfOk result (λ row. IsRowOf schema.now level tree.now.groups query
        (class_count schema.now level query) row.items) }
{
    // There are at most 8 queries and 4,096 cells.
    let _ = schema.queries(level);
    let _ = schema.cells();
    let mut row = vec![in alloc; None; tree.len() as usize]?;
    for (rank, class) in schema.classes(level, query).iter().enumerate() {
        row[tree.class_group(query, *class) as usize] = Some(before + rank as u32);
    }
    Ok(row)
}

/// The terms of the groups of a level, of which this is the tree.
pub(crate) fn level_terms(
    alloc: Global,
    schema: &Schema,
    level: usize,
    tree: &GroupTree,
) -> Result<LevelTerms, NoMemory>
    requires level { level < length schema.now.levels }
    requires tree { IsTreeOf schema.now (level_at schema.now level) tree.now }
    ensures { IfOk result (IsTableOf schema.now level tree.now.groups) }
{
    // There are at most 4,096 cells.
    let _ = schema.cells();
    let mut weights = Vec::new(alloc);
    let mut places = Vec::new(alloc);
    let mut before = 0;
    for query in 0..schema.queries(level) {
        weights.push(schema.weight(level, query))?;
        places.push(query_places(alloc, schema, level, tree, query, before)?)?;
        before += schema.classes(level, query).len() as u32;
    }
    Ok(LevelTerms { weights, places })
}

impl LevelTerms {
    /// How many queries there are.
    pub(crate) fn queries(&self) -> usize
        ensures { result ≡ length self.now.places }
    {
        self.places.len()
    }

    /// The weight of a query.
    pub(crate) fn weight(&self, query: usize) -> u64
        requires { query < length self.now.weights }
        ensures { result ≡ slice_index_or self.now.weights query 0 }
    {
        self.weights[query]
    }

    /// Where the class of a query that has just the cells of a group stands among a unit's places, and None where no
    /// class has them.
    pub(crate) fn place(&self, query: usize, group: u32) -> Option<u32>
        requires query { query < length self.now.places }
        requires group { group < length (row_at self.now query) }
        ensures { result ≡ place_at self.now query group }
    {
        self.places[query][group as usize]
    }
}
