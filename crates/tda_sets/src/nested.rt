// When the sets of families are nested: two have no number in common, or the one holds the other.
ghost use Rattle.std.specs.Prelude.{◌≡◌, ◌↔◌, ◌<◌, All, Some, None, true, length, map, slice_index_or, IfOk, IsTrue};
ghost use Rattle.std.specs.List.{list_all, range_with_len};
ghost use Rattle.tda_sets.specs.Family.{IsFamily, sets_of};
ghost use Rattle.tda_sets.specs.Nested as spec;

use crate::Family;
use std::alloc::Global;
use tda_io::NoMemory;

/// For each set of a family, by its least member, whether it is kept: all its members are together in
/// the other family.
pub(crate) fn kept_sets(
    alloc: Global,
    names: &[Option<u32>],
    others: &[Option<u32>],
) -> Result<Vec<bool>, NoMemory>
    requires family { IsFamily names.now }
    requires one_length { length names.now ≡ length others.now }
    ensures { IfOk result (λ kept. kept.items ≡ map (spec.is_kept names.now others.now) (range_with_len 0 (length names.now))) }
{
    let mut kept = vec![in alloc; true; names.len()]?;
    for (number, name) in names.iter().enumerate() {
        if let Some(first) = name {
            let first = *first as usize;
            if others[first] != others[number] {
                kept[first] = false;
            }
        }
    }
    Ok(kept)
}

// Whether one of the two sets that meet in a number is kept, where two meet.
fn meets_well(
    one: &[Option<u32>],
    other: &[Option<u32>],
    one_kept: &[bool],
    other_kept: &[bool],
    number: usize,
) -> bool
    requires one { IsFamily one.now }
    requires other { IsFamily other.now }
    requires one_length { length one.now ≡ length other.now }
    requires one_kept { one_kept.now ≡ map (spec.is_kept one.now other.now) (range_with_len 0 (length one.now)) }
    requires other_kept { other_kept.now ≡ map (spec.is_kept other.now one.now) (range_with_len 0 (length one.now)) }
    requires number { number < length one.now }
    ensures { result ≡ spec.meets_well one.now other.now number }
{
    let Some(first) = one[number] else {
        return true;
    };
    let Some(second) = other[number] else {
        return true;
    };
    one_kept[first as usize] || other_kept[second as usize]
}

fn all_meet_well(
    one: &[Option<u32>],
    other: &[Option<u32>],
    one_kept: &[bool],
    other_kept: &[bool],
) -> bool
    requires one { IsFamily one.now }
    requires other { IsFamily other.now }
    requires one_length { length one.now ≡ length other.now }
    requires one_kept { one_kept.now ≡ map (spec.is_kept one.now other.now) (range_with_len 0 (length one.now)) }
    requires other_kept { other_kept.now ≡ map (spec.is_kept other.now one.now) (range_with_len 0 (length one.now)) }
    ensures { result ≡ list_all (spec.meets_well one.now other.now) (range_with_len 0 (length one.now)) }
{
    for number in 0..one.len() {
        if !meets_well(one, other, one_kept, other_kept, number) {
            return false;
        }
    }
    true
}

/// Whether each set of the one family and each of the other are nested. Both are of the same numbers.
pub fn are_nested(alloc: Global, one: &Family, other: &Family) -> Result<bool, NoMemory>
    requires { length one.now ≡ length other.now }
    ensures { IfOk result (λ b. IsTrue b ↔ spec.AreAllNested (sets_of one.now) (sets_of other.now)) }
{
    let one_kept = kept_sets(alloc, one.names(), other.names())?;
    let other_kept = kept_sets(alloc, other.names(), one.names())?;
    Ok(all_meet_well(one.names(), other.names(), &one_kept, &other_kept))
}

// Whether the sets of a family are nested with those of each of the others.
fn is_nested_with(alloc: Global, family: &Family, others: &[&Family]) -> Result<bool, NoMemory>
    requires { All (λ f. length family.now ≡ length f.now) others.now }
    ensures { IfOk result (λ b. IsTrue b ↔ spec.AreAllNested (sets_of family.now) (spec.all_sets (map (λ f. f.now) others.now))) }
{
    for other in others {
        if !are_nested(alloc, family, other)? {
            return Ok(false);
        }
    }
    Ok(true)
}

/// Whether the sets of all the families are nested with one another. They are of the same numbers.
pub fn all_are_nested(alloc: Global, families: &[&Family]) -> Result<bool, NoMemory>
    requires { All (λ f. All (λ g. length f.now ≡ length g.now) families.now) families.now }
    ensures { IfOk result (λ b. IsTrue b ↔ spec.AreAllNested (spec.all_sets (map (λ f. f.now) families.now)) (spec.all_sets (map (λ f. f.now) families.now))) }
{
    for (place, family) in families.iter().enumerate() {
        if !is_nested_with(alloc, family, &families[..place])? {
            return Ok(false);
        }
    }
    Ok(true)
}
