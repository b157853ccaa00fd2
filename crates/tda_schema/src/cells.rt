// Which cells of a schema are possible.
ghost use Rattle.std.specs.Prelude.{◌≡◌, ◌==◌, ◌<◌, ◌≤◌, ◌&&◌, All, false, not, length, map, slice_index, slice_index_or, IfOk, OnOk};
ghost use Rattle.std.specs.List.{list_any, range_with_len};
ghost use Rattle.tda_model.specs.Cells.{cell_count, value_at, is_listed, is_possible, all_cells};
ghost use Rattle.tda_schema.specs.Columns.{columns_of};
ghost use Rattle.tda_schema.specs.Readers.{values_of};
ghost use Rattle.tda_schema.specs.Stated.{IsListedOf, IsLookedUp};

use crate::columns::Columns;
use crate::stated::{Listed, Stated};
use std::alloc::Global;
use tda_io::NoMemory;

// For each value below a count whether it is among these.
fn value_marks(alloc: Global, count: usize, values: &[u16]) -> Result<Vec<bool>, NoMemory>
    requires { All (λ v. v < count) values.now }
    ensures { IfOk result (λ marks. marks.items ≡ map (λ v. list_any (λ w. w == v) values.now) (range_with_len 0 count)) }
{
    let mut marks = vec![in alloc; false; count]?;
    for value in values {
        marks[usize::from(*value)] = true;
    }
    Ok(marks)
}

// Leaves out of some cells those whose value isn't marked.
fn keep_marked(cells: &mut [bool], column: &[u16], marks: &[bool])
    requires one_each { length column.now ≡ length cells.old }
    requires values { All (λ v. v < length marks.now) column.now }
    ensures { cells.new ≡ map (λ i. slice_index_or cells.old i false && slice_index_or marks.now (slice_index column.now i) false) (range_with_len 0 (length cells.old)) }
{
    for (cell, value) in column.iter().enumerate() {
        if !marks[usize::from(*value)] {
            cells[cell] = false;
        }
    }
}

// Leaves out of some cells those that are in others.
fn leave_out(cells: &mut [bool], others: &[bool])
    requires { length others.now ≡ length cells.old }
    ensures { cells.new ≡ map (λ i. slice_index_or cells.old i false && not (slice_index_or others.now i false)) (range_with_len 0 (length cells.old)) }
{
    for (cell, other) in others.iter().enumerate() {
        if *other {
            cells[cell] = false;
        }
    }
}

// How many values an attribute has.
pub(crate) fn count_values(stated: &Stated, attribute: usize) -> usize
    requires { attribute < length stated.now.attributes }
    ensures { result ≡ length (values_of stated.now attribute) }
{
    stated.attributes[attribute].values.len()
}

// Leaves out of some cells those that don't have a listed value.
fn keep_listed(
    alloc: Global,
    stated: &Stated,
    columns: &Columns,
    listed: &Listed,
    cells: &mut [bool],
) -> Result<(), NoMemory>
    requires looked_up { IsLookedUp stated.now }
    requires columns { columns.now ≡ columns_of stated.now.attributes }
    requires listed { IsListedOf stated.now listed.now }
    requires cells { length cells.old ≡ cell_count stated.now }
    ensures { OnOk result (cells.new ≡ map (λ i. slice_index_or cells.old i false && list_any (λ v. v == value_at stated.now i listed.now.attribute) listed.now.values) (all_cells stated.now)) }
{
    let count = count_values(stated, listed.attribute);
    let marks = value_marks(alloc, count, &listed.values)?;
    keep_marked(cells, columns.of(listed.attribute), &marks);
    Ok(())
}

// The cells that a zero row matches: at each of its keys they have a listed value.
fn matched_cells(
    alloc: Global,
    stated: &Stated,
    columns: &Columns,
    row: &[Listed],
) -> Result<Vec<bool>, NoMemory>
    requires looked_up { IsLookedUp stated.now }
    requires columns { columns.now ≡ columns_of stated.now.attributes }
    requires row { All (IsListedOf stated.now) row.now }
    ensures { IfOk result (λ v. v.items ≡ map (is_listed stated.now row.now) (all_cells stated.now)) }
{
    let mut matched = vec![in alloc; true; columns.of(0).len()]?;
    for listed in row {
        keep_listed(alloc, stated, columns, listed, &mut matched)?;
    }
    Ok(matched)
}

/// For each cell whether it is possible: no zero row matches it.
pub(crate) fn possible_cells(
    alloc: Global,
    stated: &Stated,
    columns: &Columns,
) -> Result<Vec<bool>, NoMemory>
    requires looked_up { IsLookedUp stated.now }
    requires columns { columns.now ≡ columns_of stated.now.attributes }
    ensures { IfOk result (λ v. v.items ≡ map (is_possible stated.now) (all_cells stated.now)) }
{
    let mut possible = vec![in alloc; true; columns.of(0).len()]?;
    for row in &stated.zeros {
        let matched = matched_cells(alloc, stated, columns, row)?;
        leave_out(&mut possible, &matched);
    }
    Ok(possible)
}
