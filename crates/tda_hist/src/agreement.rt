// Whether persons and facilities agree.
ghost use Rattle.std.specs.Prelude.{◌≡◌, ◌<◌, length, slice_get, OnOk, None};
ghost use Rattle.tda_model.specs.Groups.{kind_count};
ghost use Rattle.tda_model.specs.Spine.{IsUnit};
ghost use Rattle.tda_invar.specs.Facilities.{IsTableOf};
ghost use Rattle.tda_invar.specs.Known.{known, join_fault};
ghost use Rattle.tda_out.specs.Counts.{count_at, AreCountsOf};
ghost use Rattle.tda_hist.specs.TrueTable.{state_persons, BlocksAddUp};
ghost use Rattle.tda_hist.specs.Agreement.{faults_at, block_faults, agree_due};

use crate::HistFault;
use crate::sums::kind_sum;
use tda_invar::Facilities;
use tda_out::Tables;
use tda_schema::Schema;
use tda_spine::Spine;

// The first kind, that of households, which any block may have.
const HOUSEHOLD: u16 = 0;

// What is wrong with a block and a kind.
fn fault_at(
    schema: &Schema,
    spine: &Spine,
    tables: &Tables,
    facilities: &Facilities,
    block: u32,
    kind: u16,
) -> Option<HistFault>
    requires tables { AreCountsOf schema.now spine.now tables.now }
    requires facilities { IsTableOf schema.now spine.now facilities.now }
    requires block { IsUnit spine.now block }
    requires kind { kind < kind_count schema.now }
    ensures { result ≡ slice_get (faults_at schema.now facilities.now (count_at tables.now) block kind) 0 }
{
    if kind == HOUSEHOLD {
        return None;
    }
    let found = kind_sum(schema, spine, tables, block, kind);
    let needed = facilities.get(block, kind);
    if found > 0 && needed == 0 {
        Some(HistFault::NoFacility { block, kind })
    } else if found < needed {
        Some(HistFault::Short {
            block,
            kind,
            found,
            needed,
        })
    } else {
        None
    }
}

// The first fault of a block.
fn block_fault(
    schema: &Schema,
    spine: &Spine,
    tables: &Tables,
    facilities: &Facilities,
    block: u32,
) -> Option<HistFault>
    requires tables { AreCountsOf schema.now spine.now tables.now }
    requires facilities { IsTableOf schema.now spine.now facilities.now }
    requires block { IsUnit spine.now block }
    ensures { result ≡ slice_get (block_faults schema.now facilities.now (count_at tables.now) block) 0 }
{
    for kind in 0..schema.kinds() {
        if let Some(fault) = fault_at(schema, spine, tables, facilities, block, kind) {
            return Some(fault);
        }
    }
    None
}

/// Whether the persons of each block agree with its facilities. Kinds are those of quarters but the first, that of
/// households, which any block may have.
///
/// `NoFacility` where persons of a kind live in a block that has no facility of it. `Short` where fewer persons of a kind
/// live in a block than it has facilities of it. The first in the order block, kind is answered, blocks in file order.
/// After `Ok`, where each unit's table is those of its blocks together, no state is short of persons for its facilities,
/// so that `tda_invar::join` accepts the facilities with the totals of the states.
pub fn agree(
    schema: &Schema,
    spine: &Spine,
    tables: &Tables,
    facilities: &Facilities,
) -> Result<(), HistFault>
    requires belong { spine.now.depth ≡ length schema.now.levels }
    requires tables { AreCountsOf schema.now spine.now tables.now }
    requires facilities { IsTableOf schema.now spine.now facilities.now }
    ensures due { result ≡ agree_due schema.now spine.now facilities.now (count_at tables.now) }
    ensures join { BlocksAddUp schema.now spine.now (count_at tables.now) → OnOk result (join_fault schema.now spine.now (known spine.now facilities.now (state_persons schema.now spine.now (count_at tables.now))) ≡ None) }
{
    // There are at least two levels, and the blocks are the units of the last.
    let _ = spine.units();
    for block in spine.at_level(schema.levels() - 1) {
        if let Some(fault) = block_fault(schema, spine, tables, facilities, *block) {
            return Err(fault);
        }
    }
    Ok(())
}
