// Reads a spine.
ghost use Rattle.std.specs.Prelude.{◌≡◌, ◌≤◌, ◌<◌, ◌^◌, [], None, length, IfOk};
ghost use Rattle.tda_io.specs.Csv as csv;
ghost use Rattle.tda_io.specs.Due.{Gives};
ghost use Rattle.tda_spine.specs.Judged as spec;
ghost use Rattle.tda_spine.specs.Judged.{IsWithinLimits};
ghost use Rattle.tda_spine.specs.Rows.{spine_in};
ghost use Rattle.tda_spine.specs.Sound.{IsSound};

use crate::judge::first_fault;
use crate::rows::SpineRows;
use crate::units::units_of;
use crate::whole::{count_children, tree_fault};
use crate::{Spine, SpineFault};
use std::alloc::Global;
use tda_io::{RowFault, Rows, has_header, read_rows};
use tda_schema::Schema;

// The spine of rows without a fault.
fn spine_of(alloc: Global, schema: &Schema, rows: &SpineRows) -> Result<Spine, SpineFault>
    requires { csv.first_fault (spec.row_fault schema.now rows.now) [] rows.now ≡ None }
    ensures gives { Gives SpineFault.NoMemory (λ spine. spine) result (spec.judged_spine schema.now (spine_in schema.now rows.now)) }
    ensures sound { IfOk result (λ spine. IsSound spine) }
    ensures limits { IfOk result (IsWithinLimits schema.now) }
{
    let children = count_children(alloc, rows)?;
    if let Some(fault) = tree_fault(schema, rows, &children) {
        return Err(fault);
    }
    let units = units_of(alloc, schema, rows)?;
    let spine = Spine::new(alloc, schema.levels(), units)?;
    match spine.first_large_fit(schema) {
        Some(fit) => Err(SpineFault::FitTooLarge(fit)),
        None => Ok(spine),
    }
}

// The spine of rows, of which the first has to be the header.
fn judged(alloc: Global, schema: &Schema, rows: &Rows) -> Result<Spine, SpineFault>
    requires { length rows.now < 2 ^ 30 }
    ensures gives { Gives SpineFault.NoMemory (λ spine. spine) result (csv.judged (spec.format schema.now) rows.now) }
    ensures sound { IfOk result (λ spine. IsSound spine) }
    ensures limits { IfOk result (IsWithinLimits schema.now) }
{
    if !has_header(rows, &["unit", "level", "parent"]) {
        return Err(SpineFault::BadHeader(1));
    }
    let rows = SpineRows::new(alloc, rows)?;
    if let Some(fault) = first_fault(schema, &rows) {
        return Err(fault);
    }
    spine_of(alloc, schema, &rows)
}

/// The spine that a text of at most 2^28 bytes is, for a schema. Its rows after the header `unit,level,parent` are the
/// units in order, each with its code, the name of its level and the code of its parent, which the nation alone lacks.
///
/// Rows are numbered from 1, the header being row 1, and units from 0, in file order. The first of these is answered.
/// `BadRow` names the first row whose width isn't that of row 1. `BadHeader(1)`: row 1 is another header, or there is no
/// row. The first row that has a fault is named with the first that it has: `BadCode` where its first field is no unit
/// code, `Repeated` where an earlier row has its code, `UnknownParent` where it names a parent that is no row's code,
/// `WrongLevel` where its level is no level's name, where a unit of the first level has a parent, or where another has
/// none or one that isn't of the level just above; the parent's row is the first with the parent's code, be it a later
/// one, or one with a fault.
/// Then the file is judged as a whole: `NoNation` where there isn't exactly one unit of the first level; `Childless`
/// names the first unit above the last level that has no child; `TooMany` where there are more than 131,072 units,
/// 4,194,304 units times cells (impossible ones too) or 2,097,152 places; `FitTooLarge` names the first fit in fit order
/// that has more than 2,048 nodes or 65,536 arcs, None being that of the nation, and a unit that of its children.
/// `NoMemory` where memory ran out.
pub fn read_spine(alloc: Global, schema: &Schema, bytes: &[u8]) -> Result<Spine, SpineFault>
    requires { length bytes.now ≤ 2 ^ 28 }
    ensures gives { Gives SpineFault.NoMemory (λ spine. spine) result (spec.read schema.now bytes.now) }
    ensures sound { IfOk result (λ spine. IsSound spine) }
    ensures limits { IfOk result (IsWithinLimits schema.now) }
{
    match read_rows(alloc, bytes) {
        Ok(rows) => judged(alloc, schema, &rows),
        Err(RowFault::BadWidth(row)) => Err(SpineFault::BadRow(row)),
        Err(RowFault::NoMemory) => Err(SpineFault::NoMemory),
    }
}
