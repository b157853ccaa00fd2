// Which kinds have a possible cell.
ghost use Rattle.std.specs.Prelude.{◌≡◌, ◌==◌, ◌<◌, ◌&&◌, All, false, length, map, slice_index, slice_index_or, IfOk};
ghost use Rattle.std.specs.List.{list_all, list_any, range_with_len};
ghost use Rattle.tda_model.specs.Cells.{is_possible, all_cells};
ghost use Rattle.tda_schema.specs.Columns.{columns_of};
ghost use Rattle.tda_schema.specs.Parts as spec;
ghost use Rattle.tda_schema.specs.Stated.{IsLookedUp};

use crate::cells::count_values;
use crate::columns::Columns;
use crate::stated::Stated;
use std::alloc::Global;
use tda_io::NoMemory;

// For each kind below a count whether a cell that is possible is of it.
fn kind_marks(
    alloc: Global,
    count: usize,
    kinds: &[u16],
    possible: &[bool],
) -> Result<Vec<bool>, NoMemory>
    requires one_each { length possible.now ≡ length kinds.now }
    requires kinds { All (λ k. k < count) kinds.now }
    ensures { IfOk result (λ marks. marks.items ≡ map (λ k. list_any (λ i. slice_index_or possible.now i false && (slice_index kinds.now i == k)) (range_with_len 0 (length kinds.now))) (range_with_len 0 count)) }
{
    let mut marks = vec![in alloc; false; count]?;
    for (cell, kind) in kinds.iter().enumerate() {
        if possible[cell] {
            marks[usize::from(*kind)] = true;
        }
    }
    Ok(marks)
}

fn all_marked(marks: &[bool]) -> bool
    ensures { result ≡ list_all (λ m. m) marks.now }
{
    marks.iter().all(|mark| *mark)
}

/// Whether each kind, a value of the first attribute, has a possible cell.
pub(crate) fn has_kinds(
    alloc: Global,
    stated: &Stated,
    columns: &Columns,
    possible: &[bool],
) -> Result<bool, NoMemory>
    requires looked_up { IsLookedUp stated.now }
    requires columns { columns.now ≡ columns_of stated.now.attributes }
    requires possible { possible.now ≡ map (is_possible stated.now) (all_cells stated.now) }
    ensures { IfOk result (λ b. b ≡ spec.has_kinds stated.now) }
{
    let count = count_values(stated, 0);
    let marks = kind_marks(alloc, count, columns.of(0), possible)?;
    Ok(all_marked(&marks))
}
