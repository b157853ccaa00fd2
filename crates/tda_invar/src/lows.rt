// The least persons of units.
ghost use Rattle.std.specs.Prelude.{◌≡◌, ◌<◌, ◌≤◌, ◌^◌, All, IfOk, List, ℕ, length, sum_by};
ghost use Rattle.tda_model.specs.Bounds.{low};
ghost use Rattle.tda_model.specs.Spine.{children_of, IsUnit};
ghost use Rattle.tda_spine.specs.Sound.{IsSound};
ghost use Rattle.tda_invar.specs.Facilities.{facilities_limit, own_need};
ghost use Rattle.tda_invar.specs.KindTable.{number_at, number_limit, table_of, HasRow};
ghost use Rattle.tda_invar.specs.Known.{known};

use crate::kind_table::{HOUSEHOLD, KindTable};
use std::alloc::Global;
use tda_io::NoMemory;
use tda_spine::Spine;

// How many persons of a kind the facilities in a unit need: one each, and nobody in households.
fn own_need(facilities: &KindTable, unit: u32, kind: u16) -> u64
    requires unit { unit < facilities.now.units }
    requires kind { kind < facilities.now.kinds }
    ensures need { result ≡ own_need facilities.now unit kind }
    ensures limit { result ≤ number_limit }
{
    if kind == HOUSEHOLD {
        0
    } else {
        facilities.get(unit, kind)
    }
}

// How many persons of each kind the facilities in each unit need.
fn own_needs(alloc: Global, facilities: &KindTable) -> Result<KindTable, NoMemory>
    requires { facilities.now.units ≤ 2 ^ 17 }
    ensures { IfOk result (λ needs. needs ≡ table_of facilities.now.units facilities.now.kinds (own_need facilities.now)) }
{
    let units = facilities.units();
    let kinds = usize::from(facilities.kinds());
    let mut numbers = Vec::with_capacity(alloc, units * kinds)?;
    for place in 0..units * kinds {
        let unit = (place / kinds) as u32;
        let kind = (place % kinds) as u16;
        numbers.push(own_need(facilities, unit, kind))?;
    }
    Ok(KindTable::new(units, facilities.kinds(), numbers))
}

// Makes each number of a unit that of its children together.
fn sum_children(numbers: &mut KindTable, spine: &Spine, unit: u32)
    requires sound { IsSound spine.now }
    requires units { numbers.old.units ≡ length spine.now.units }
    requires unit { IsUnit spine.now unit }
    requires room { (k : ℕ) → k < numbers.old.kinds → sum_by (λ c. number_at numbers.old c k) (children_of spine.now unit) ≤ number_limit }
    ensures { HasRow numbers.old numbers.new unit numbers.old.kinds (λ k. sum_by (λ c. number_at numbers.old c k) (children_of spine.now unit)) }
{
    let children = spine.children(unit);
    for kind in 0..numbers.kinds() {
        let sum = numbers.sum(children, kind);
        numbers.set(unit, kind, sum);
    }
}

/// How many persons of each kind each unit has at least, by the facilities of its blocks. A unit's parent comes before it
/// in fit order, so that from the last parent to the nation each has whole children.
pub(crate) fn lows_of(
    alloc: Global,
    spine: &Spine,
    facilities: &KindTable,
) -> Result<KindTable, NoMemory>
    requires units { facilities.now.units ≡ length spine.now.units }
    requires limit { All (λ n. n ≤ facilities_limit) facilities.now.numbers }
    ensures { (totals : List ℕ) → IfOk result (λ lows. lows ≡ table_of (length spine.now.units) facilities.now.kinds (low spine.now (known spine.now facilities.now totals))) }
{
    // There are at most 2^17 units, and they are a tree.
    let _ = spine.units();
    let mut lows = own_needs(alloc, facilities)?;
    let parents = spine.parents();
    for place in (0..parents.len()).rev() {
        sum_children(&mut lows, spine, parents[place]);
    }
    Ok(lows)
}
