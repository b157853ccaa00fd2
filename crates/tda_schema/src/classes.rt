// The classes of queries, as families of sets of possible cells.
ghost use Rattle.std.specs.Prelude.{◌≡◌, ◌==◌, ◌<◌, ◌≤◌, All, length, map, string_bytes, IfOk, IsTrue};
ghost use Rattle.std.specs.List.{list_any, position_or_len};
ghost use Rattle.std.specs.Str.{bytes_eq};
ghost use Rattle.tda_model.specs.Schema.{Attribute_values, Recode_labels};
ghost use Rattle.tda_model.specs.Cells.{cell_count, is_possible, all_cells};
ghost use Rattle.tda_schema.specs.Classes as spec;
ghost use Rattle.tda_schema.specs.Columns.{columns_of};
ghost use Rattle.tda_schema.specs.Digits.{AreDigits, labelled_alike};
ghost use Rattle.tda_schema.specs.Stated.{entry_of, IsEntryOf, IsLookedUp, IsQueryOf};

use crate::cells::count_values;
use crate::columns::Columns;
use crate::parts::QueryParts;
use crate::stated::{Entry, Query, Stated, position_in};
use std::alloc::Global;
use tda_io::NoMemory;
use tda_sets::Family;

// Each of so many values is its own digit.
fn value_digits(alloc: Global, count: usize) -> Result<Vec<u16>, NoMemory>
    requires { count ≤ 128 }
    ensures { IfOk result (λ v. AreDigits count (λ x y. x == y) v.items) }
{
    let mut digits = Vec::new(alloc);
    for value in 0..count {
        digits.push(value as u16)?;
    }
    Ok(digits)
}

// Where the first of equal labels stands.
fn first_label(labels: &[String], label: &str) -> usize
    requires { IsTrue (list_any (λ l. bytes_eq l label.now) (map string_bytes labels.now)) }
    ensures { result ≡ position_or_len (λ l. bytes_eq l label.now) (map string_bytes labels.now) }
{
    position_in(labels, label.as_bytes()).unwrap()
}

// The digit of a value is the first value with its label.
fn label_digits(alloc: Global, labels: &[String]) -> Result<Vec<u16>, NoMemory>
    requires { length labels.now ≤ 128 }
    ensures { IfOk result (λ v. AreDigits (length labels.now) (labelled_alike (map string_bytes labels.now)) v.items) }
{
    let mut digits = Vec::new(alloc);
    for label in labels {
        digits.push(first_label(labels, label.as_str()) as u16)?;
    }
    Ok(digits)
}

// Splits each set of a family by the values of an attribute.
fn split_by_values(
    alloc: Global,
    stated: &Stated,
    columns: &Columns,
    family: &Family,
    attribute: usize,
) -> Result<Family, NoMemory>
    requires looked_up { IsLookedUp stated.now }
    requires columns { columns.now ≡ columns_of stated.now.attributes }
    requires cells { length family.now ≡ cell_count stated.now }
    requires attribute { attribute < length stated.now.attributes }
    ensures { IfOk result (λ f. f ≡ spec.split_by stated.now family.now (Attribute_values attribute)) }
{
    let digits = value_digits(alloc, count_values(stated, attribute))?;
    family.split(alloc, columns.of(attribute), &digits)
}

// Splits each set of a family by the labels of a recode.
fn split_by_labels(
    alloc: Global,
    stated: &Stated,
    columns: &Columns,
    family: &Family,
    recode: usize,
) -> Result<Family, NoMemory>
    requires looked_up { IsLookedUp stated.now }
    requires columns { columns.now ≡ columns_of stated.now.attributes }
    requires cells { length family.now ≡ cell_count stated.now }
    requires recode { recode < length stated.now.recodes }
    ensures { IfOk result (λ f. f ≡ spec.split_by stated.now family.now (Recode_labels recode)) }
{
    let recode = &stated.recodes[recode];
    let digits = label_digits(alloc, &recode.labels)?;
    family.split(alloc, columns.of(recode.of), &digits)
}

// Splits each set of a family by an entry of a query.
fn split_by(
    alloc: Global,
    stated: &Stated,
    columns: &Columns,
    family: &Family,
    entry: Entry,
) -> Result<Family, NoMemory>
    requires looked_up { IsLookedUp stated.now }
    requires columns { columns.now ≡ columns_of stated.now.attributes }
    requires cells { length family.now ≡ cell_count stated.now }
    requires entry { IsEntryOf stated.now (entry_of entry) }
    ensures { IfOk result (λ f. f ≡ spec.split_by stated.now family.now (entry_of entry)) }
{
    match entry {
        Entry::Values(attribute) => split_by_values(alloc, stated, columns, family, attribute),
        Entry::Labels(recode) => split_by_labels(alloc, stated, columns, family, recode),
    }
}

/// All possible cells as one set.
pub(crate) fn whole_family(
    alloc: Global,
    stated: &Stated,
    possible: &[bool],
) -> Result<Family, NoMemory>
    requires looked_up { IsLookedUp stated.now }
    requires possible { possible.now ≡ map (is_possible stated.now) (all_cells stated.now) }
    ensures { IfOk result (λ f. f ≡ spec.whole_family stated.now) }
{
    Family::whole(alloc, possible)
}

/// The possible cells of each kind.
pub(crate) fn kind_family(
    alloc: Global,
    stated: &Stated,
    columns: &Columns,
    whole: &Family,
) -> Result<Family, NoMemory>
    requires looked_up { IsLookedUp stated.now }
    requires columns { columns.now ≡ columns_of stated.now.attributes }
    requires whole { whole.now ≡ spec.whole_family stated.now }
    ensures { IfOk result (λ f. f ≡ spec.kind_family stated.now) }
{
    split_by_values(alloc, stated, columns, whole, 0)
}

// The possible cells that are alike at each of some entries.
fn entries_family(
    alloc: Global,
    stated: &Stated,
    columns: &Columns,
    possible: &[bool],
    by: &[Entry],
) -> Result<Family, NoMemory>
    requires looked_up { IsLookedUp stated.now }
    requires columns { columns.now ≡ columns_of stated.now.attributes }
    requires possible { possible.now ≡ map (is_possible stated.now) (all_cells stated.now) }
    requires by { All (IsEntryOf stated.now) (map entry_of by.now) }
    ensures { IfOk result (λ f. f ≡ spec.entries_family stated.now (map entry_of by.now)) }
{
    let mut family = whole_family(alloc, stated, possible)?;
    for entry in by {
        family = split_by(alloc, stated, columns, &family, *entry)?;
    }
    Ok(family)
}

/// The classes of a query over all possible cells.
pub(crate) fn query_family(
    alloc: Global,
    stated: &Stated,
    columns: &Columns,
    possible: &[bool],
    query: &Query,
) -> Result<Family, NoMemory>
    requires looked_up { IsLookedUp stated.now }
    requires columns { columns.now ≡ columns_of stated.now.attributes }
    requires possible { possible.now ≡ map (is_possible stated.now) (all_cells stated.now) }
    requires query { IsQueryOf stated.now query.now }
    ensures { IfOk result (λ f. f ≡ spec.query_family stated.now query.now) }
{
    entries_family(alloc, stated, columns, possible, &query.by)
}

/// The classes of a query out of its family.
pub(crate) fn query_parts(alloc: Global, family: Family) -> Result<QueryParts, NoMemory>
    ensures { IfOk result (λ p. p ≡ spec.family_parts family) }
{
    let classes = family.firsts(alloc)?;
    Ok(QueryParts {
        class_of: family.into_names(),
        classes,
    })
}
