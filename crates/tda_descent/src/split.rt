// The fit of a unit's children.
ghost use Rattle.std.specs.Prelude.{◌≡◌, ◌+◌, ◌≤◌, ℕ, Some, List, length, slice_index, IfOk, IsTrue};
ghost use Rattle.tda_model.specs.Bounds.{persons_limit};
ghost use Rattle.tda_model.specs.Cells.{cell_count};
ghost use Rattle.tda_model.specs.Release.{Inputs, CanBe};
ghost use Rattle.tda_model.specs.Sizes.{fit_size};
ghost use Rattle.tda_model.specs.Spine.{IsUnit, level_of, children_of};
ghost use Rattle.tda_model.specs.Tables.{Table, Tables, persons_in};
ghost use Rattle.tda_schema.specs.Stated.{level_at};
ghost use Rattle.tda_spine.specs.Judged.{IsWithinLimits};
ghost use Rattle.tda_spine.specs.Sound.{IsInner};
ghost use Rattle.tda_invar.specs.Known.{IsJoined, known_of};
ghost use Rattle.tda_places.specs.Measurements.{AreMeasurementsOf};
ghost use Rattle.tda_groups.specs.Tree.{IsTreeOf};
ghost use Rattle.tda_loss.specs.Curve.{value_of};
ghost use Rattle.tda_loss.specs.declared.Curve.{Curve};
ghost use Rattle.tda_loss.specs.Kept.{IsKept};
ghost use Rattle.tda_fitnet.specs.Inputs.{inputs_of};
ghost use Rattle.tda_fitnet.specs.Fits.{AreListedShares};
ghost use Rattle.tda_fitnet.specs.FitNetwork.{net_at, split_fit, flow_counts};
ghost use Rattle.tda_descent.specs.Solved.{IsSolved};
ghost use Rattle.tda_descent.specs.Made.{IsMadeOf, IsSplitOf};

use crate::fit::Fit;
use crate::flows::{flow_counts, split_flow};
use crate::made::fit_of;
use crate::solved::{Begin, solve};
use std::alloc::Global;
use tda_fitnet::{FitNet, split_net};
use tda_flow::Solver;
use tda_groups::GroupTree;
use tda_invar::Invariants;
use tda_io::NoMemory;
use tda_loss::Loss;
use tda_places::Measurements;
use tda_schema::Schema;
use tda_spine::Spine;

// Reads the fit off its solved net.
fn read_split<F: Fn(i64) -> i128>(
    alloc: Global,
    schema: &Schema,
    spine: &Spine,
    fit: &FitNet,
    loss: &Loss<F>,
    parent: u32,
    flow: &[u64],
    prices: Vec<i128>,
) -> Result<Fit, NoMemory>
    requires belong { IsWithinLimits schema.now spine.now }
    requires parent { IsUnit spine.now parent }
    requires kept { IsKept F.pre F.post loss.now }
    requires fit { (i : Inputs) × (groups : List (List ℕ)) × (x : Table) × (i.schema ≡ schema.now) × (i.spine ≡ spine.now) × (fit.now ≡ split_fit i groups parent x) }
    requires solved { IsSolved (value_of loss.now.curve) (net_at fit.now) flow.now prices.items }
    ensures parent { IfOk result (λ made. made.parent ≡ Some parent) }
    ensures units { IfOk result (λ made. made.units.items ≡ children_of spine.now parent) }
    ensures counts { IfOk result (λ made. made.counts.items ≡ flow_counts fit.now flow.now) }
    ensures made { IfOk result (λ made. IsMadeOf (value_of loss.now.curve) (net_at fit.now) flow.now made) }
{
    let net = fit.net();
    let children = spine.children(parent);
    let counts = flow_counts(alloc, fit, flow, children.len() * schema.cells() as usize)?;
    let units = Vec::from_slice(alloc, children)?;
    Ok(fit_of(net, loss, flow, prices, Some(parent), units, counts))
}

// Fits the children of a unit: of all tables that they can have and that add up to the unit's, those of least
// deviation. The tree is that of the children's level. Where the unit is the nation, the shares are those of its own
// fit.
pub(crate) fn fit_split<S: Solver, F: Fn(i64) -> i128>(
    alloc: Global,
    schema: &Schema,
    tree: &GroupTree,
    spine: &Spine,
    inv: &Invariants,
    m: &Measurements,
    loss: &Loss<F>,
    solver: &mut S,
    parent: u32,
    table: &[u64],
    shares: &[u64],
) -> Result<Fit, NoMemory>
    requires belong { IsWithinLimits schema.now spine.now }
    requires joined { IsJoined schema.now spine.now inv.now }
    requires measured { AreMeasurementsOf schema.now spine.now m.now }
    requires parent { IsInner spine.now parent }
    requires tree { IsTreeOf schema.now (level_at schema.now (level_of spine.now parent + 1)) tree.now }
    requires size { length table.now ≡ cell_count schema.now }
    requires can_be { CanBe (inputs_of schema.now spine.now inv.now m.now) parent (slice_index table.now) }
    requires few { persons_in schema.now (slice_index table.now) ≤ persons_limit }
    requires shares { level_of spine.now parent ≡ 0 → AreListedShares schema.now spine.now (known_of spine.now inv.now) (slice_index table.now) shares.now }
    requires kept { IsKept F.pre F.post loss.now }
    requires takes { IsTrue (S.takes_curve solver.old loss.now.curve) }
    requires nodes { (fit_size schema.now spine.now (Some parent)).nodes ≤ S.most_nodes solver.old }
    requires arcs { (fit_size schema.now spine.now (Some parent)).arcs ≤ S.most_arcs solver.old }
    ensures split { IfOk result (λ fit. (family : Tables) × IsSplitOf loss.now.curve (inputs_of schema.now spine.now inv.now m.now) parent (slice_index table.now) family fit) }
    ensures same_nodes { S.most_nodes solver.new ≡ S.most_nodes solver.old }
    ensures same_arcs { S.most_arcs solver.new ≡ S.most_arcs solver.old }
    ensures same_curves { (c : Curve) → S.takes_curve solver.new c ≡ S.takes_curve solver.old c }
{
    let fit = split_net(alloc, schema, tree, spine, inv, m, parent, table)?;
    let mut flow = split_flow(alloc, &fit, schema, spine, inv, parent, table, shares)?;
    let prices = solve(alloc, fit.net(), loss, solver, &mut flow, Begin::Guess)?;
    read_split(alloc, schema, spine, &fit, loss, parent, &flow, prices)
}
