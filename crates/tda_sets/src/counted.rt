// How many different sets families have.
ghost use Rattle.std.specs.Prelude.{◌≡◌, ◌*◌, ◌<◌, ◌≤◌, ◌^◌, All, Some, None, true, false, not, ◌&&◌, length, map, filter, slice_index_or, IfOk, OnOk};
ghost use Rattle.std.specs.List.{range_with_len};
ghost use Rattle.tda_model.specs.Groups.{each_once};
ghost use Rattle.tda_sets.specs.Family.{IsFamily, is_in};
ghost use Rattle.tda_sets.specs.Nested.{is_kept, all_sets};
ghost use Rattle.tda_sets.specs.Counted as spec;

use crate::Family;
use crate::nested::kept_sets;
use std::alloc::Global;
use tda_io::NoMemory;

// Whether a number is the least member of its set.
fn is_least(names: &[Option<u32>], number: usize) -> bool
    requires few { length names.now ≤ 2 ^ 32 }
    requires number { number < length names.now }
    ensures { result ≡ is_in names.now number number }
{
    names[number] == Some(number as u32)
}

// Which numbers are least members.
fn least_members(alloc: Global, names: &[Option<u32>]) -> Result<Vec<bool>, NoMemory>
    requires { length names.now ≤ 2 ^ 32 }
    ensures { IfOk result (λ v. v.items ≡ map (λ r. is_in names.now r r) (range_with_len 0 (length names.now))) }
{
    let mut marks = Vec::new(alloc);
    for number in 0..names.len() {
        marks.push(is_least(names, number))?;
    }
    Ok(marks)
}

// Whether a number is the least member of a set of both families.
fn is_shared(
    names: &[Option<u32>],
    others: &[Option<u32>],
    kept: &[bool],
    others_kept: &[bool],
    number: usize,
) -> bool
    requires few { length names.now ≤ 2 ^ 32 }
    requires one_length { length names.now ≡ length others.now }
    requires kept { kept.now ≡ map (is_kept names.now others.now) (range_with_len 0 (length names.now)) }
    requires others_kept { others_kept.now ≡ map (is_kept others.now names.now) (range_with_len 0 (length names.now)) }
    requires number { number < length names.now }
    ensures { result ≡ spec.is_shared names.now others.now number }
{
    if !is_least(names, number) {
        return false;
    }
    if !is_least(others, number) {
        return false;
    }
    kept[number] && others_kept[number]
}

// Of the marked least members those whose sets aren't sets of the other family.
fn not_shared(
    alloc: Global,
    marks: &[bool],
    family: &Family,
    other: &Family,
) -> Result<Vec<bool>, NoMemory>
    requires one_length { length family.now ≡ length other.now }
    requires one_each { length marks.now ≡ length family.now }
    ensures left { IfOk result (λ v. v.items ≡ map (λ r. slice_index_or marks.now r false && not (spec.is_shared family.now other.now r)) (range_with_len 0 (length family.now))) }
    ensures family { OnOk result (IsFamily other.now) }
{
    let names = family.names();
    let others = other.names();
    let kept = kept_sets(alloc, names, others)?;
    let others_kept = kept_sets(alloc, others, names)?;
    let mut left = Vec::new(alloc);
    for (number, mark) in marks.iter().enumerate() {
        let stays = *mark && !is_shared(names, others, &kept, &others_kept, number);
        left.push(stays)?;
    }
    Ok(left)
}

// How many marks there are.
fn count_marks(marks: &[bool]) -> usize
    ensures { result ≡ length (filter (λ m. m) marks.now) }
{
    marks.iter().filter(|mark| **mark).count()
}

// How many sets of the family aren't sets of earlier families.
fn count_fresh(alloc: Global, family: &Family, earlier: &[&Family]) -> Result<usize, NoMemory>
    requires { All (λ f. length family.now ≡ length f.now) earlier.now }
    ensures count { IfOk result (λ n. n ≡ spec.fresh_count (map (λ f. f.now) earlier.now) family.now) }
    ensures family { IsFamily family.now }
    ensures earlier { OnOk result (All (λ f. IsFamily f.now) earlier.now) }
{
    let mut marks = least_members(alloc, family.names())?;
    for other in earlier {
        marks = not_shared(alloc, &marks, family, other)?;
    }
    Ok(count_marks(&marks))
}

/// How many different sets the families have, which are of the same numbers. There are at most 65,536
/// families.
pub fn count_sets(alloc: Global, families: &[&Family]) -> Result<usize, NoMemory>
    requires one_length { All (λ f. All (λ g. length f.now ≡ length g.now) families.now) families.now }
    requires few { length families.now ≤ 2 ^ 16 }
    ensures { IfOk result (λ n. n ≡ length (each_once (all_sets (map (λ f. f.now) families.now)))) }
{
    let mut count = 0;
    for (place, family) in families.iter().enumerate() {
        count += count_fresh(alloc, family, &families[..place])?;
    }
    Ok(count)
}
