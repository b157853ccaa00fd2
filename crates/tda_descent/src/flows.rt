// Flows of a fit's network: one to begin with, and what is read off one.
ghost use Rattle.std.specs.Prelude.{◌≡◌, ◌*◌, ◌≤◌, length, slice_index, IfOk};
ghost use Rattle.tda_model.specs.Bounds.{persons_limit};
ghost use Rattle.tda_model.specs.Cells.{cell_count};
ghost use Rattle.tda_model.specs.Spine.{level_of};
ghost use Rattle.tda_model.specs.Tables.{Attainable, persons_in};
ghost use Rattle.tda_spine.specs.Judged.{IsWithinLimits};
ghost use Rattle.tda_spine.specs.Sound.{IsInner};
ghost use Rattle.tda_invar.specs.Known.{IsJoined, known_of};
ghost use Rattle.tda_flow.specs.Flow.{IsCirculation};
ghost use Rattle.tda_fitnet.specs.Layout.{arc_number};
ghost use Rattle.tda_fitnet.specs.Fits.{AreListedShares};
ghost use Rattle.tda_fitnet.specs.FitNetwork.{net_at, IsRootFit, IsSplitFit, flow_counts, flow_shares};

use std::alloc::Global;
use tda_fitnet::{FitNet, root_start, split_start, to_counts, to_shares};
use tda_invar::Invariants;
use tda_io::NoMemory;
use tda_schema::Schema;
use tda_spine::Spine;

// A circulation of the network of the nation's fit.
pub(crate) fn root_flow(
    alloc: Global,
    fit: &FitNet,
    schema: &Schema,
    spine: &Spine,
    inv: &Invariants,
) -> Result<Vec<u64>, NoMemory>
    requires belong { IsWithinLimits schema.now spine.now }
    requires joined { IsJoined schema.now spine.now inv.now }
    requires fit { IsRootFit schema.now spine.now inv.now fit.now }
    ensures { IfOk result (λ flow. IsCirculation (net_at fit.now) flow.items) }
{
    let mut flow = vec![in alloc; 0; fit.net().arcs()]?;
    root_start(fit, schema, spine, inv, &mut flow);
    Ok(flow)
}

// A circulation of the network of the split of a unit's table.
pub(crate) fn split_flow(
    alloc: Global,
    fit: &FitNet,
    schema: &Schema,
    spine: &Spine,
    inv: &Invariants,
    parent: u32,
    table: &[u64],
    shares: &[u64],
) -> Result<Vec<u64>, NoMemory>
    requires belong { IsWithinLimits schema.now spine.now }
    requires joined { IsJoined schema.now spine.now inv.now }
    requires parent { IsInner spine.now parent }
    requires size { length table.now ≡ cell_count schema.now }
    requires can_be { Attainable schema.now spine.now (known_of spine.now inv.now) parent (slice_index table.now) }
    requires few { persons_in schema.now (slice_index table.now) ≤ persons_limit }
    requires fit { IsSplitFit schema.now spine.now inv.now parent (slice_index table.now) fit.now }
    requires shares { level_of spine.now parent ≡ 0 → AreListedShares schema.now spine.now (known_of spine.now inv.now) (slice_index table.now) shares.now }
    ensures { IfOk result (λ flow. IsCirculation (net_at fit.now) flow.items) }
{
    let mut flow = vec![in alloc; 0; fit.net().arcs()]?;
    split_start(fit, schema, spine, inv, parent, table, shares, &mut flow);
    Ok(flow)
}

// The counts of all units of a fit, so many in all.
pub(crate) fn flow_counts(
    alloc: Global,
    fit: &FitNet,
    flow: &[u64],
    len: usize,
) -> Result<Vec<u64>, NoMemory>
    requires flow { length flow.now ≡ arc_number fit.now.layout }
    requires len { len ≡ fit.now.layout.units * fit.now.all_cells }
    ensures { IfOk result (λ counts. counts.items ≡ flow_counts fit.now flow.now) }
{
    let mut counts = vec![in alloc; 0; len]?;
    to_counts(fit, flow, &mut counts);
    Ok(counts)
}

// The shares of all states and kinds, so many in all.
pub(crate) fn flow_shares(
    alloc: Global,
    fit: &FitNet,
    flow: &[u64],
    len: usize,
) -> Result<Vec<u64>, NoMemory>
    requires flow { length flow.now ≡ arc_number fit.now.layout }
    requires len { len ≡ fit.now.layout.states * fit.now.layout.kinds }
    ensures { IfOk result (λ shares. shares.items ≡ flow_shares fit.now flow.now) }
{
    let mut shares = vec![in alloc; 0; len]?;
    to_shares(fit, flow, &mut shares);
    Ok(shares)
}
