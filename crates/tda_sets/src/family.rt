// Families of disjoint sets of numbers.
ghost use Rattle.std.specs.Prelude.{◌≡◌, ◌≤◌, ◌<◌, ◌^◌, All, Some, None, true, false, length, map, slice_set, slice_index_or, unwrap_or, IfOk, IfSome, if◌then◌else◌};
ghost use Rattle.std.specs.List.{range_with_len};
ghost use Rattle.tda_sets.specs.Family as spec;

use std::alloc::Global;
use std::marker::Model;
use tda_io::NoMemory;

/// Disjoint sets of the numbers below a count. A set is named by its least member.
#[derive(Debug, Drop)]
pub struct Family {
    names: Vec<Option<u32>>,
}

impl Model for Family {
    ghost use Rattle.tda_sets.specs.Family.{Names, IsFamily};

    ghost Value = { Names };

    ghost view = { λ f. f.names.items };

    ghost invariant = { λ f. IsFamily f.names.items };
}

// The number that stands at a place; where none does, this one is put there.
fn first_at(firsts: &mut [Option<u32>], place: usize, number: u32) -> u32
    requires { place < length firsts.old }
    ensures value { result ≡ unwrap_or (slice_index_or firsts.old place None) number }
    ensures after { firsts.new ≡ slice_set firsts.old place (Some result) }
{
    let first = firsts[place].unwrap_or(number);
    firsts[place] = Some(first);
    first
}

// One key for all that are marked.
fn marks_as_keys(alloc: Global, marks: &[bool]) -> Result<Vec<Option<usize>>, NoMemory>
    ensures { IfOk result (λ keys. keys.items ≡ map (λ m. if m then Some 0 else None) marks.now) }
{
    let keys = marks
        .iter()
        .map(|marked| if *marked { Some(0) } else { None })
        .collect(alloc)?;
    Ok(keys)
}

// A key for each number in a set, by its set and the digit of its value.
fn split_keys(
    alloc: Global,
    names: &[Option<u32>],
    values: &[u16],
    digits: &[u16],
) -> Result<Vec<Option<usize>>, NoMemory>
    requires one_each { length values.now ≡ length names.now }
    requires values { All (λ v. v < length digits.now) values.now }
    requires few { length digits.now ≤ 2 ^ 16 }
    ensures { IfOk result (λ keys. keys.items ≡ map (spec.split_key names.now values.now digits.now) (range_with_len 0 (length names.now))) }
{
    let mut keys = Vec::new(alloc);
    for (number, name) in names.iter().enumerate() {
        let key = match name {
            Some(first) => {
                let digit = digits[usize::from(values[number])];
                Some(*first as usize * digits.len() + usize::from(digit))
            }
            None => None,
        };
        keys.push(key)?;
    }
    Ok(keys)
}

impl Family {
    /// The family in which numbers of equal key are in one set, and those with no key in none. The keys
    /// are below the bound; time and memory grow with it and with the count.
    pub fn by_keys(alloc: Global, keys: &[Option<usize>], bound: usize) -> Result<Family, NoMemory>
        requires few { length keys.now ≤ 2 ^ 32 }
        requires in_range { All (λ key. IfSome key (λ k. k < bound)) keys.now }
        ensures { IfOk result (λ f. f ≡ spec.family_of (length keys.now) (spec.is_member keys.now) (spec.are_together keys.now)) }
    {
        let mut firsts = vec![in alloc; None; bound]?;
        let mut names = Vec::new(alloc);
        for (number, key) in keys.iter().enumerate() {
            let name = match key {
                Some(key) => Some(first_at(&mut firsts, *key, number as u32)),
                None => None,
            };
            names.push(name)?;
        }
        Ok(Family { names })
    }

    /// The family of one set: the numbers that are marked.
    pub fn whole(alloc: Global, marks: &[bool]) -> Result<Family, NoMemory>
        requires { length marks.now ≤ 2 ^ 32 }
        ensures { IfOk result (λ f. f ≡ spec.family_of (length marks.now) (λ i. slice_index_or marks.now i false) (λ i j. true)) }
    {
        let keys = marks_as_keys(alloc, marks)?;
        Family::by_keys(alloc, &keys, 1)
    }

    /// Splits each set: two numbers of a set stay in one where their values have one digit. There is a
    /// value for each number, and a digit, below the number of digits, for each value.
    pub fn split(&self, alloc: Global, values: &[u16], digits: &[u16]) -> Result<Family, NoMemory>
        requires one_each { length values.now ≡ length self.now }
        requires values { All (λ v. v < length digits.now) values.now }
        requires digits { All (λ d. d < length digits.now) digits.now }
        requires few { length digits.now ≤ 2 ^ 16 }
        ensures { IfOk result (λ f. f ≡ spec.family_of (length self.now) (spec.is_member self.now) (spec.are_alike self.now values.now digits.now)) }
    {
        let keys = split_keys(alloc, &self.names, values, digits)?;
        Family::by_keys(alloc, &keys, self.names.len() * digits.len())
    }

    /// For each number the least member of its set, and none where it is in no set.
    pub fn names(&self) -> &[Option<u32>]
        ensures value { result.now ≡ self.now }
        ensures family { spec.IsFamily self.now }
    {
        &self.names
    }

    /// The names, with no copy.
    pub fn into_names(self) -> Vec<Option<u32>>
        ensures { result.items ≡ self }
    {
        self.names
    }

    /// The least members of the sets, in order.
    pub fn firsts(&self, alloc: Global) -> Result<Vec<u32>, NoMemory>
        ensures { IfOk result (λ v. v.items ≡ spec.firsts self.now) }
    {
        let mut firsts = Vec::new(alloc);
        for (number, name) in self.names.iter().enumerate() {
            if *name == Some(number as u32) {
                firsts.push(number as u32)?;
            }
        }
        Ok(firsts)
    }
}
