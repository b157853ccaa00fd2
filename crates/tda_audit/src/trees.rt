// The trees of groups of all levels.
ghost use Rattle.std.specs.Prelude.{ℕ, ◌<◌, length, IfOk, OnOk};
ghost use Rattle.tda_audit.specs.Trees.{AreTrees, HasFewQueries};

use std::alloc::Global;
use tda_groups::{GroupTree, tree};
use tda_io::NoMemory;
use tda_schema::Schema;

// The tree of each level, in order.
pub(crate) fn level_trees(alloc: Global, schema: &Schema) -> Result<Vec<GroupTree>, NoMemory>
    ensures trees { IfOk result (λ trees. AreTrees schema.now trees.items) }
    ensures few { OnOk result ((level : ℕ) → level < length schema.now.levels → HasFewQueries schema.now level) }
{
    let mut trees = Vec::new(alloc);
    for level in 0..schema.levels() {
        // A level has few queries.
        let _ = schema.queries(level);
        trees.push(tree(alloc, schema, level)?)?;
    }
    Ok(trees)
}
