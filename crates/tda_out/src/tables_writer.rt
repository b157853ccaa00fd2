// Writes the file of tables.
ghost use Rattle.std.specs.Prelude.{◌≡◌, ◌+◌, ◌*◌, ◌++◌, ◌<◌, ◌^◌, ℕ, All, length, take, slice_index, true, OnOk, OnErr};
ghost use Rattle.std.specs.List.{flat_map, range_with_len};
ghost use Rattle.tda_io.specs.Texts.{name_test};
ghost use Rattle.tda_model.specs.Cells.{cell_count};
ghost use Rattle.tda_model.specs.Spine.{IsUnit};
ghost use Rattle.tda_model.specs.TablesText.{count_row, tables_header};
ghost use Rattle.tda_out.specs.Written.{units_text, IsDetermined, MakeUpFile};

use tda_io::{NoMemory, push_field, push_int};
use tda_schema::Schema;
use tda_spine::Spine;

// Appends the header.
fn push_header(out: &mut Vec<u8>) -> Result<(), NoMemory>
    ensures ok { OnOk result (out.new.items ≡ out.old.items ++ tables_header) }
    ensures err { OnErr result (take (length out.old.items) out.new.items ≡ out.old.items) }
{
    push_field(out, b"unit", false)?;
    push_field(out, b"cell", false)?;
    push_field(out, b"count", true)
}

/// Appends the header of the file of tables, `unit,cell,count`. After `NoMemory` nothing was appended.
pub fn write_tables_header(out: &mut Vec<u8>) -> Result<(), NoMemory>
    ensures ok { OnOk result (out.new.items ≡ out.old.items ++ tables_header) }
    ensures err { OnErr result (out.new.items ≡ out.old.items) }
{
    let before = out.len();
    let header = push_header(out);
    if header.is_err() {
        out.truncate(before);
    }
    header
}

// Appends the row of a count, and nothing for a count of 0.
fn push_count(out: &mut Vec<u8>, code: &str, cell: usize, count: u64) -> Result<(), NoMemory>
    requires { name_test 16 code.now ≡ true }
    ensures ok { OnOk result (out.new.items ≡ out.old.items ++ count_row code.now cell count) }
    ensures err { OnErr result (take (length out.old.items) out.new.items ≡ out.old.items) }
{
    if count == 0 {
        return Ok(());
    }
    push_field(out, code.as_bytes(), false)?;
    push_int(out, cell as i128)?;
    out.push(b',')?;
    push_int(out, i128::from(count))?;
    out.push(b'\n')?;
    Ok(())
}

// Appends the rows of a unit.
fn push_unit(out: &mut Vec<u8>, code: &str, counts: &[u64]) -> Result<(), NoMemory>
    requires { name_test 16 code.now ≡ true }
    ensures ok { OnOk result (out.new.items ≡ out.old.items ++ flat_map (λ j. count_row code.now j (slice_index counts.now j)) (range_with_len 0 (length counts.now))) }
    ensures err { OnErr result (take (length out.old.items) out.new.items ≡ out.old.items) }
{
    for (cell, count) in counts.iter().enumerate() {
        push_count(out, code, cell, *count)?;
    }
    Ok(())
}

// Appends the rows of these units.
fn push_units(
    schema: &Schema,
    spine: &Spine,
    units: &[u32],
    counts: &[u64],
    out: &mut Vec<u8>,
) -> Result<(), NoMemory>
    requires units { All (IsUnit spine.now) units.now }
    requires counts { length counts.now ≡ length units.now * cell_count schema.now }
    ensures ok { OnOk result (out.new.items ≡ out.old.items ++ units_text schema.now spine.now units.now counts.now) }
    ensures err { OnErr result (take (length out.old.items) out.new.items ≡ out.old.items) }
{
    let cells = schema.cells() as usize;
    for (place, unit) in units.iter().enumerate() {
        let start = place * cells;
        push_unit(out, spine.code(*unit), &counts[start..start + cells])?;
    }
    Ok(())
}

/// Appends the rows of these units, whose counts stand unit by unit and cell by cell. A count of 0 has no row, and a row
/// has at most 33 bytes where no count passes 2^30.
///
/// The header, then the rows of the nation, then for each unit with children in fit order the rows of its children are
/// the file of tables. Equal files are of equal counts. After `NoMemory` nothing was appended.
pub fn write_tables(
    schema: &Schema,
    spine: &Spine,
    units: &[u32],
    counts: &[u64],
    out: &mut Vec<u8>,
) -> Result<(), NoMemory>
    requires units { All (IsUnit spine.now) units.now }
    requires counts { length counts.now ≡ length units.now * cell_count schema.now }
    ensures ok { OnOk result (out.new.items ≡ out.old.items ++ units_text schema.now spine.now units.now counts.now) }
    ensures err { OnErr result (out.new.items ≡ out.old.items) }
    ensures whole { MakeUpFile schema.now spine.now }
    ensures determined { IsDetermined schema.now spine.now }
{
    // Units have codes of their own, and there are at most 4,096 cells.
    let _ = spine.units();
    let _ = schema.cells();
    let before = out.len();
    let rows = push_units(schema, spine, units, counts, out);
    if rows.is_err() {
        out.truncate(before);
    }
    rows
}
