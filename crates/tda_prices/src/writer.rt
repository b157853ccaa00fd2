// Writes prices.
ghost use Rattle.std.specs.Prelude.{◌≡◌, ◌+◌, ◌*◌, ◌++◌, ◌≤◌, length, nat_abs, take, All, IfSome, None, OnErr, OnOk, Some};
ghost use Rattle.std.specs.Fmt.{decimal};
ghost use Rattle.tda_io.specs.Texts.{row_text, IsPlain};
ghost use Rattle.tda_model.specs.Cells.{possible_cells};
ghost use Rattle.tda_model.specs.Groups.{kind_count};
ghost use Rattle.tda_model.specs.Sizes.{groups_at};
ghost use Rattle.tda_model.specs.Spine.{IsUnit, children_of, level_of, units_at};
ghost use Rattle.tda_spine.specs.Sound.{IsInner};
ghost use Rattle.tda_prices.specs.Items as items;
ghost use Rattle.tda_prices.specs.Numbered.{number_row};
ghost use Rattle.tda_prices.specs.Parts.{cell_rows, child_rows, group_rows, kind_rows, numbered_text, state_rows};
ghost use Rattle.tda_prices.specs.Places.{fields_of};
ghost use Rattle.tda_prices.specs.PricesText.{header, fit_text, price_limit, MakeUpFile};

use crate::place::{NOTHING, Place, fit_name};
use tda_io::{NoMemory, push_field, push_int};
use tda_schema::Schema;
use tda_spine::Spine;

// Appends the header.
fn push_header(out: &mut Vec<u8>) -> Result<(), NoMemory>
    ensures ok { OnOk result (out.new.items ≡ out.old.items ++ row_text header) }
    ensures err { OnErr result (take (length out.old.items) out.new.items ≡ out.old.items) }
{
    push_field(out, b"fit", false)?;
    push_field(out, b"part", false)?;
    push_field(out, b"unit", false)?;
    push_field(out, b"item", false)?;
    push_field(out, b"price", true)
}

/// Appends the header of the file of prices, `fit,part,unit,item,price`. After `NoMemory` nothing was appended.
pub fn write_prices_header(out: &mut Vec<u8>) -> Result<(), NoMemory>
    ensures ok { OnOk result (out.new.items ≡ out.old.items ++ row_text header) }
    ensures err { OnErr result (out.new.items ≡ out.old.items) }
{
    let before = out.len();
    let written = push_header(out);
    if written.is_err() {
        out.truncate(before);
    }
    written
}

// Appends the canonical decimal of a number.
fn push_number(number: u32, out: &mut Vec<u8>) -> Result<(), NoMemory>
    ensures ok { OnOk result (out.new.items ≡ out.old.items ++ decimal number) }
    ensures err { OnErr result (out.new.items ≡ out.old.items) }
{
    push_int(out, i128::from(number))
}

// Appends the row of a price.
fn push_price(place: Place, price: i128, out: &mut Vec<u8>) -> Result<(), NoMemory>
    requires fit { IsPlain place.fit.now }
    requires part { IsPlain place.part.now }
    requires unit { IsPlain place.unit.now }
    ensures ok { OnOk result (out.new.items ≡ out.old.items ++ row_text (number_row (fields_of place.entry) price)) }
    ensures err { OnErr result (take (length out.old.items) out.new.items ≡ out.old.items) }
{
    push_field(out, place.fit.as_bytes(), false)?;
    push_field(out, place.part.as_bytes(), false)?;
    push_field(out, place.unit.as_bytes(), false)?;
    push_number(place.item, out)?;
    out.push(b',')?;
    push_int(out, price)?;
    out.push(b'\n')?;
    Ok(())
}

// Appends the rows of the states.
fn push_states(spine: &Spine, prices: &[i128], out: &mut Vec<u8>) -> Result<(), NoMemory>
    requires count { length prices.now ≡ length (units_at spine.now 1) }
    requires near { All (λ z. nat_abs z ≤ price_limit) prices.now }
    ensures ok { OnOk result (out.new.items ≡ out.old.items ++ numbered_text (state_rows spine.now) prices.now) }
    ensures err { OnErr result (take (length out.old.items) out.new.items ≡ out.old.items) }
{
    // A spine has a first level.
    let _ = spine.units();
    for (index, state) in spine.at_level(1).iter().enumerate() {
        let place = Place {
            fit: NOTHING,
            part: "state",
            unit: spine.code(*state),
            item: 0,
        };
        push_price(place, prices[index], out)?;
    }
    Ok(())
}

// Appends the rows of the kinds.
fn push_kinds(
    schema: &Schema,
    spine: &Spine,
    prices: &[i128],
    out: &mut Vec<u8>,
) -> Result<(), NoMemory>
    requires count { length prices.now ≡ kind_count schema.now }
    requires near { All (λ z. nat_abs z ≤ price_limit) prices.now }
    ensures ok { OnOk result (out.new.items ≡ out.old.items ++ numbered_text (kind_rows schema.now spine.now) prices.now) }
    ensures err { OnErr result (take (length out.old.items) out.new.items ≡ out.old.items) }
{
    for kind in 0..schema.kinds() {
        let place = Place {
            fit: NOTHING,
            part: "kind",
            unit: NOTHING,
            item: u32::from(kind),
        };
        push_price(place, prices[kind as usize], out)?;
    }
    Ok(())
}

// Appends the rows of the possible cells.
fn push_cells(
    schema: &Schema,
    spine: &Spine,
    parent: u32,
    prices: &[i128],
    out: &mut Vec<u8>,
) -> Result<(), NoMemory>
    requires parent { IsUnit spine.now parent }
    requires count { length prices.now ≡ length (possible_cells schema.now) }
    requires near { All (λ z. nat_abs z ≤ price_limit) prices.now }
    ensures ok { OnOk result (out.new.items ≡ out.old.items ++ numbered_text (cell_rows schema.now spine.now parent) prices.now) }
    ensures err { OnErr result (take (length out.old.items) out.new.items ≡ out.old.items) }
{
    let mut index = 0;
    for cell in 0..schema.cells() {
        if schema.possible(cell) {
            let place = Place {
                fit: spine.code(parent),
                part: "cell",
                unit: NOTHING,
                item: cell,
            };
            push_price(place, prices[index], out)?;
            index += 1;
        }
    }
    Ok(())
}

// Appends the rows of a unit's groups.
fn push_groups(
    schema: &Schema,
    spine: &Spine,
    fit: Option<u32>,
    unit: u32,
    prices: &[i128],
    out: &mut Vec<u8>,
) -> Result<(), NoMemory>
    requires belong { spine.now.depth ≡ length schema.now.levels }
    requires fit { IfSome fit (IsUnit spine.now) }
    requires unit { IsUnit spine.now unit }
    requires count { length prices.now ≡ groups_at schema.now (level_of spine.now unit) }
    requires near { All (λ z. nat_abs z ≤ price_limit) prices.now }
    ensures ok { OnOk result (out.new.items ≡ out.old.items ++ numbered_text (group_rows schema.now spine.now fit unit) prices.now) }
    ensures err { OnErr result (take (length out.old.items) out.new.items ≡ out.old.items) }
{
    // Each unit is of one of the levels.
    let _ = spine.units();
    for group in 0..schema.groups(spine.level(unit)) {
        let place = Place {
            fit: fit_name(spine, fit),
            part: "group",
            unit: spine.code(unit),
            item: group,
        };
        push_price(place, prices[group as usize], out)?;
    }
    Ok(())
}

// Appends the rows of the nation's fit.
fn push_root(
    schema: &Schema,
    spine: &Spine,
    prices: &[i128],
    out: &mut Vec<u8>,
) -> Result<(), NoMemory>
    requires belong { spine.now.depth ≡ length schema.now.levels }
    requires count { length prices.now ≡ items.price_count schema.now spine.now None }
    requires near { All (λ z. nat_abs z ≤ price_limit) prices.now }
    ensures ok { OnOk result (out.new.items ≡ out.old.items ++ fit_text schema.now spine.now None prices.now) }
    ensures err { OnErr result (take (length out.old.items) out.new.items ≡ out.old.items) }
{
    // A spine has a first level.
    let _ = spine.units();
    let (of_states, others) = prices.split_at(spine.at_level(1).len());
    let (of_kinds, of_groups) = others.split_at(schema.kinds() as usize);
    push_states(spine, of_states, out)?;
    push_kinds(schema, spine, of_kinds, out)?;
    push_groups(schema, spine, None, spine.nation(), of_groups, out)
}

// Appends the rows of the groups of a unit's children.
fn push_children(
    schema: &Schema,
    spine: &Spine,
    parent: u32,
    groups: usize,
    prices: &[i128],
    out: &mut Vec<u8>,
) -> Result<(), NoMemory>
    requires belong { spine.now.depth ≡ length schema.now.levels }
    requires parent { IsInner spine.now parent }
    requires groups { groups ≡ groups_at schema.now (level_of spine.now parent + 1) }
    requires count { length prices.now ≡ length (children_of spine.now parent) * groups }
    requires near { All (λ z. nat_abs z ≤ price_limit) prices.now }
    ensures ok { OnOk result (out.new.items ≡ out.old.items ++ numbered_text (child_rows schema.now spine.now parent) prices.now) }
    ensures err { OnErr result (take (length out.old.items) out.new.items ≡ out.old.items) }
{
    // Children are units.
    let _ = spine.units();
    for (index, child) in spine.children(parent).iter().enumerate() {
        let start = index * groups;
        let of_child = &prices[start..start + groups];
        push_groups(schema, spine, Some(parent), *child, of_child, out)?;
    }
    Ok(())
}

// Appends the rows of the fit of a unit's children.
fn push_split(
    schema: &Schema,
    spine: &Spine,
    parent: u32,
    prices: &[i128],
    out: &mut Vec<u8>,
) -> Result<(), NoMemory>
    requires belong { spine.now.depth ≡ length schema.now.levels }
    requires parent { IsInner spine.now parent }
    requires count { length prices.now ≡ items.price_count schema.now spine.now (Some parent) }
    requires near { All (λ z. nat_abs z ≤ price_limit) prices.now }
    ensures ok { OnOk result (out.new.items ≡ out.old.items ++ fit_text schema.now spine.now (Some parent) prices.now) }
    ensures err { OnErr result (take (length out.old.items) out.new.items ≡ out.old.items) }
{
    // The spine is a tree.
    let _ = spine.units();
    let groups = schema.groups(spine.level(parent) + 1) as usize;
    let cells = prices.len() - spine.children(parent).len() * groups;
    let (of_cells, of_groups) = prices.split_at(cells);
    push_cells(schema, spine, parent, of_cells, out)?;
    push_children(schema, spine, parent, groups, of_groups, out)
}

/// Appends the rows of a fit with its prices, in the order that `read_prices` tells: None is the fit of the nation, Some
/// that of a unit's children. Each price is within 2^96 of 0, and a row has at most 76 bytes.
///
/// The header, then the rows of each fit in fit order are the file of prices. After `NoMemory` nothing was appended.
pub fn write_prices(
    schema: &Schema,
    spine: &Spine,
    fit: Option<u32>,
    prices: &[i128],
    out: &mut Vec<u8>,
) -> Result<(), NoMemory>
    requires belong { spine.now.depth ≡ length schema.now.levels }
    requires fit { IfSome fit (IsInner spine.now) }
    requires count { length prices.now ≡ items.price_count schema.now spine.now fit }
    requires near { All (λ z. nat_abs z ≤ price_limit) prices.now }
    ensures ok { OnOk result (out.new.items ≡ out.old.items ++ fit_text schema.now spine.now fit prices.now) }
    ensures err { OnErr result (out.new.items ≡ out.old.items) }
    ensures whole { MakeUpFile schema.now spine.now }
{
    let before = out.len();
    let written = match fit {
        None => push_root(schema, spine, prices, out),
        Some(parent) => push_split(schema, spine, parent, prices, out),
    };
    if written.is_err() {
        out.truncate(before);
    }
    written
}
