// Joins facilities and totals.
ghost use Rattle.std.specs.Prelude.{◌≡◌, ◌<◌, ◌≤◌, ◌^◌, List, IfOk, length, map};
ghost use Rattle.tda_io.specs.Due.{Gives};
ghost use Rattle.tda_model.specs.Schema as model;
ghost use Rattle.tda_model.specs.Spine.{unit_numbers};
ghost use Rattle.tda_spine.specs.Sound.{IsSound};
ghost use Rattle.tda_invar.specs.KindTable.{NumberTable};
ghost use Rattle.tda_invar.specs.Facilities.{IsTableOf};
ghost use Rattle.tda_invar.specs.Totals.{AreTotalsOf};
ghost use Rattle.tda_invar.specs.Known.{known, known_of, join_fault, join_due, lows_of, unit_total, IsJoined, AlwaysExists};

use crate::kind_table::KindTable;
use crate::lows::lows_of;
use crate::totals::STATES;
use crate::{Facilities, Invariants, JoinFault, Totals};
use std::alloc::Global;
use tda_io::NoMemory;
use tda_schema::Schema;
use tda_spine::Spine;

// The total of each unit that is a state.
fn unit_totals(alloc: Global, spine: &Spine, totals: &Totals) -> Result<Vec<Option<u64>>, NoMemory>
    requires { AreTotalsOf spine.now totals.now }
    ensures { (facilities : NumberTable) → IfOk result (λ all. all.items ≡ map (unit_total spine.now (known spine.now facilities totals.now)) (unit_numbers spine.now)) }
{
    let mut all = vec![in alloc; None; spine.units() as usize]?;
    for (place, state) in spine.at_level(STATES).iter().enumerate() {
        all[*state as usize] = Some(totals.nth(place));
    }
    Ok(all)
}

// The fault of the first state whose total is below what its facilities need.
fn first_short(spine: &Spine, lows: &KindTable, totals: &Totals) -> Option<JoinFault>
    requires units { lows.now.units ≡ length spine.now.units }
    requires totals { AreTotalsOf spine.now totals.now }
    ensures { (s : model.Schema) (facilities : NumberTable) → lows.now ≡ lows_of s spine.now (known spine.now facilities totals.now) → result ≡ join_fault s spine.now (known spine.now facilities totals.now) }
{
    // There is a level of states.
    let _ = spine.units();
    for (place, state) in spine.at_level(STATES).iter().enumerate() {
        let total = totals.nth(place);
        let needed = lows.row_sum(*state);
        if total < needed {
            return Some(JoinFault::Short {
                state: *state,
                total,
                needed,
            });
        }
    }
    None
}

/// Joins facilities and totals of one schema and spine to the bounds of units.
///
/// `Short` names the first state, in file order, whose total is below the sum of its facilities of all kinds.
/// `NoMemory` where memory ran out. On a refusal facilities and totals are dropped. After `Ok` no fit is infeasible: the
/// nation has a table, each table that a unit with children can have splits into tables that its children can have, and
/// below the nation a unit can have, of the tables that count at most 2^30 persons, exactly those within its bounds. Each
/// unit's low of a kind is at most its high, and that at most 2^30.
pub fn join(
    alloc: Global,
    schema: &Schema,
    spine: &Spine,
    facilities: Facilities,
    totals: Totals,
) -> Result<Invariants, JoinFault>
    requires table { IsTableOf schema.now spine.now facilities }
    requires totals { AreTotalsOf spine.now totals }
    ensures short { Gives JoinFault.NoMemory (λ _. tt) result (join_due schema.now spine.now (known spine.now facilities totals)) }
    ensures kept { IfOk result (λ inv. (inv.facilities ≡ facilities) × (inv.totals ≡ totals)) }
    ensures joined { IfOk result (IsJoined schema.now spine.now) }
    ensures exists { IfOk result (λ inv. AlwaysExists schema.now spine.now (known_of spine.now inv)) }
{
    // Each kind has a possible cell, and the units are a tree.
    let _ = (schema.kinds(), spine.units());
    let lows = lows_of(alloc, spine, facilities.table())?;
    if let Some(fault) = first_short(spine, &lows, &totals) {
        return Err(fault);
    }
    let unit_totals = unit_totals(alloc, spine, &totals)?;
    Ok(Invariants::new(facilities, totals, lows, unit_totals))
}
