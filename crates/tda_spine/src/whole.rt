// What is wrong with the units of a spine's file as a whole, before they are made: a file may name far more of them than
// a spine may have.
ghost use Rattle.std.specs.Prelude.{◌≡◌, ◌+◌, ◌<◌, ◌^◌, ℕ, [], length, nat_lt, All, IfOk, IfSome, slice_index, slice_index_or, if◌then◌else◌};
ghost use Rattle.tda_model.specs.Schema.{Schema};
ghost use Rattle.tda_model.specs.Sizes.{place_count, places_limit};
ghost use Rattle.tda_model.specs.Spine.{level_of, units_at};
ghost use Rattle.tda_spine.specs.Counts.{is_named, child_counts};
ghost use Rattle.tda_spine.specs.Judged as spec;
ghost use Rattle.tda_spine.specs.Rows.{spine_in};

use crate::SpineFault;
use crate::rows::SpineRows;
use std::alloc::{AllocError, Global};
use tda_schema::Schema;

// The most units, units times cells, and places of a release.
const UNITS: u64 = 1 << 17;

const COUNTS: u64 = 1 << 22;

const PLACES: u64 = 1 << 21;

// Counts one more child of a parent.
fn count_parent(counts: &mut [u32], parent: Option<u32>)
    requires parent { IfSome parent (λ p. p < length counts.old) }
    requires room { All (λ n. n < 2 ^ 30) counts.old }
    ensures { (p : ℕ) → p < length counts.old →
        slice_index counts.new p ≡ slice_index counts.old p + (if is_named p parent then 1 else 0) }
{
    if let Some(parent) = parent {
        counts[parent as usize] += 1;
    }
}

/// How many children each unit has, whatever the levels are named.
pub(crate) fn count_children(alloc: Global, rows: &SpineRows) -> Result<Vec<u32>, AllocError>
    ensures { (s : Schema) → IfOk result (λ counts. counts.items ≡ child_counts (spine_in s rows.now)) }
{
    let mut counts = vec![in alloc; 0; rows.len()]?;
    for unit in 0..rows.len() {
        count_parent(&mut counts, rows.parent_place(unit));
    }
    Ok(counts)
}

// The level of a unit.
fn level(schema: &Schema, rows: &SpineRows, unit: usize) -> usize
    requires { unit < length rows.now }
    ensures level { result ≡ level_of (spine_in schema.now rows.now) unit }
    ensures in_range { result < length schema.now.levels }
{
    // There is a first level.
    let _ = schema.levels();
    schema.find_level(rows.level(unit)).unwrap_or(0)
}

// Whether there is not exactly one unit of the first level.
fn has_no_nation(schema: &Schema, rows: &SpineRows) -> bool
    ensures { result ≡ spec.has_no_nation (spine_in schema.now rows.now) }
{
    let mut nations = 0_usize;
    for unit in 0..rows.len() {
        if level(schema, rows, unit) == 0 {
            nations += 1;
        }
    }
    nations != 1
}

// Whether a unit above the last level has no child.
fn is_childless(schema: &Schema, rows: &SpineRows, children: &[u32], unit: usize) -> bool
    requires few { length rows.now < 2 ^ 30 }
    requires unit { unit < length rows.now }
    requires counted { children.now ≡ child_counts (spine_in schema.now rows.now) }
    ensures { result ≡ spec.is_childless (spine_in schema.now rows.now) unit }
{
    let depth = schema.levels();
    level(schema, rows, unit) + 1 < depth && children[unit] == 0
}

// The first unit above the last level that has no child.
fn first_childless(schema: &Schema, rows: &SpineRows, children: &[u32]) -> Option<u32>
    requires { children.now ≡ child_counts (spine_in schema.now rows.now) }
    ensures { result ≡ spec.first_childless (spine_in schema.now rows.now) }
{
    for unit in 0..rows.len() {
        if is_childless(schema, rows, children, unit) {
            return Some(unit as u32);
        }
    }
    None
}

// Whether there are more places than a release may have.
fn has_too_many_places(schema: &Schema, rows: &SpineRows) -> bool
    ensures { result ≡ nat_lt places_limit (place_count schema.now (spine_in schema.now rows.now)) }
{
    let mut left = PLACES;
    for unit in 0..rows.len() {
        let places = schema.places(level(schema, rows, unit));
        if places > left {
            return true;
        }
        left -= places;
    }
    false
}

// Whether there are more units, units times cells, or places than a release may have.
fn has_too_many(schema: &Schema, rows: &SpineRows) -> bool
    ensures { result ≡ spec.has_too_many schema.now (spine_in schema.now rows.now) }
{
    let units = rows.len() as u64;
    units > UNITS || units * u64::from(schema.cells()) > COUNTS || has_too_many_places(schema, rows)
}

/// The fault of units that form no tree, or are too many.
pub(crate) fn tree_fault(schema: &Schema, rows: &SpineRows, children: &[u32]) -> Option<SpineFault>
    requires { children.now ≡ child_counts (spine_in schema.now rows.now) }
    ensures { result ≡ spec.tree_fault schema.now (spine_in schema.now rows.now) }
{
    if has_no_nation(schema, rows) {
        return Some(SpineFault::NoNation);
    }
    if let Some(unit) = first_childless(schema, rows, children) {
        return Some(SpineFault::Childless(unit));
    }
    if has_too_many(schema, rows) {
        return Some(SpineFault::TooMany);
    }
    None
}
