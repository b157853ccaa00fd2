// The sums of a query's classes.
ghost use Rattle.std.specs.Prelude.{◌≡◌, ◌<◌, All, length, slice_index};
ghost use Rattle.tda_model.specs.Cells.{cell_count};
ghost use Rattle.tda_model.specs.Groups.{classes_of};
ghost use Rattle.tda_out.specs.Counts.{count_at};
ghost use Rattle.tda_schema.specs.Stated.{queries_at, query_at};
ghost use Rattle.tda_hist.specs.TrueTable.{class_sum};
ghost use Rattle.tda_measure.specs.Steps.{HasCounts};

use tda_out::Tables;
use tda_schema::Schema;

/// Writes the sum of each class of a query in the table of a unit, under the class's first cell. One pass is made over
/// the cells.
pub(crate) fn write_sums(
    schema: &Schema,
    level: usize,
    query: usize,
    tables: &Tables,
    unit: u32,
    sums: &mut [u64],
)
    requires level { level < length schema.now.levels }
    requires query { query < length (queries_at schema.now level) }
    requires counts { HasCounts schema.now tables.now unit }
    requires size { length sums.old ≡ cell_count schema.now }
    ensures sums { All (λ c. slice_index sums.new c ≡ class_sum schema.now (query_at schema.now level query) (count_at tables.now unit) c) (classes_of schema.now (query_at schema.now level query)) }
    ensures size { length sums.new ≡ cell_count schema.now }
{
    // Each query is over all possible cells.
    let _ = schema.queries(level);
    sums.fill(0);
    for cell in 0..schema.cells() {
        if schema.possible(cell) {
            sums[schema.class_of(level, query, cell) as usize] += tables.get(unit, cell);
        }
    }
}
