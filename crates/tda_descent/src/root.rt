// The fit of the nation.
ghost use Rattle.std.specs.Prelude.{◌≡◌, ◌∷◌, ◌≤◌, ℕ, None, [], List, length, IfOk, IsTrue};
ghost use Rattle.tda_model.specs.Release.{Inputs};
ghost use Rattle.tda_model.specs.Sizes.{fit_size};
ghost use Rattle.tda_model.specs.Spine.{IsTree, nation_of};
ghost use Rattle.tda_model.specs.Tables.{Table};
ghost use Rattle.tda_schema.specs.Stated.{level_at};
ghost use Rattle.tda_spine.specs.Judged.{IsWithinLimits};
ghost use Rattle.tda_invar.specs.Known.{IsJoined};
ghost use Rattle.tda_places.specs.Measurements.{AreMeasurementsOf};
ghost use Rattle.tda_groups.specs.Tree.{IsTreeOf};
ghost use Rattle.tda_loss.specs.Curve.{value_of};
ghost use Rattle.tda_loss.specs.declared.Curve.{Curve};
ghost use Rattle.tda_loss.specs.Kept.{IsKept};
ghost use Rattle.tda_fitnet.specs.Inputs.{inputs_of};
ghost use Rattle.tda_fitnet.specs.FitNetwork.{net_at, root_fit, flow_counts, flow_shares};
ghost use Rattle.tda_descent.specs.Solved.{IsSolved};
ghost use Rattle.tda_descent.specs.Made.{IsMadeOf, IsRootOf};

use crate::fit::Fit;
use crate::flows::{flow_counts, flow_shares, root_flow};
use crate::made::fit_of;
use crate::solved::{Begin, solve};
use std::alloc::Global;
use tda_fitnet::{FitNet, root_net};
use tda_flow::Solver;
use tda_groups::GroupTree;
use tda_invar::Invariants;
use tda_io::NoMemory;
use tda_loss::Loss;
use tda_places::Measurements;
use tda_schema::Schema;
use tda_spine::Spine;

// The fit of the nation, with how many persons of each kind each state then has.
#[derive(Drop)]
pub(crate) struct RootFit {
    pub(crate) fit: Fit,
    pub(crate) shares: Vec<u64>,
}

// Reads the fit off its solved net.
fn read_root<F: Fn(i64) -> i128>(
    alloc: Global,
    schema: &Schema,
    spine: &Spine,
    fit: &FitNet,
    loss: &Loss<F>,
    flow: &[u64],
    prices: Vec<i128>,
) -> Result<RootFit, NoMemory>
    requires belong { IsWithinLimits schema.now spine.now }
    requires tree { IsTree spine.now (nation_of spine.now) }
    requires kept { IsKept F.pre F.post loss.now }
    requires fit { (i : Inputs) × (groups : List (List ℕ)) × (i.schema ≡ schema.now) × (i.spine ≡ spine.now) × (fit.now ≡ root_fit i groups) }
    requires solved { IsSolved (value_of loss.now.curve) (net_at fit.now) flow.now prices.items }
    ensures parent { IfOk result (λ root. root.fit.parent ≡ None) }
    ensures units { IfOk result (λ root. root.fit.units.items ≡ nation_of spine.now ∷ []) }
    ensures counts { IfOk result (λ root. root.fit.counts.items ≡ flow_counts fit.now flow.now) }
    ensures made { IfOk result (λ root. IsMadeOf (value_of loss.now.curve) (net_at fit.now) flow.now root.fit) }
    ensures shares { IfOk result (λ root. root.shares.items ≡ flow_shares fit.now flow.now) }
{
    let net = fit.net();
    let states = spine.at_level(1).len();
    let kinds = usize::from(schema.kinds());
    let shares = flow_shares(alloc, fit, flow, states * kinds)?;
    let counts = flow_counts(alloc, fit, flow, schema.cells() as usize)?;
    let units = vec![in alloc; spine.nation()]?;
    let fit = fit_of(net, loss, flow, prices, None, units, counts);
    Ok(RootFit { fit, shares })
}

// Fits the nation: of all tables that it can have, one of least deviation. The tree is that of the first level.
pub(crate) fn fit_root<S: Solver, F: Fn(i64) -> i128>(
    alloc: Global,
    schema: &Schema,
    tree: &GroupTree,
    spine: &Spine,
    inv: &Invariants,
    m: &Measurements,
    loss: &Loss<F>,
    solver: &mut S,
) -> Result<RootFit, NoMemory>
    requires belong { IsWithinLimits schema.now spine.now }
    requires joined { IsJoined schema.now spine.now inv.now }
    requires measured { AreMeasurementsOf schema.now spine.now m.now }
    requires tree { IsTreeOf schema.now (level_at schema.now 0) tree.now }
    requires kept { IsKept F.pre F.post loss.now }
    requires takes { IsTrue (S.takes_curve solver.old loss.now.curve) }
    requires nodes { (fit_size schema.now spine.now None).nodes ≤ S.most_nodes solver.old }
    requires arcs { (fit_size schema.now spine.now None).arcs ≤ S.most_arcs solver.old }
    ensures root { IfOk result (λ root. (x : Table) × IsRootOf loss.now.curve (inputs_of schema.now spine.now inv.now m.now) x root.shares.items root.fit) }
    ensures same_nodes { S.most_nodes solver.new ≡ S.most_nodes solver.old }
    ensures same_arcs { S.most_arcs solver.new ≡ S.most_arcs solver.old }
    ensures same_curves { (c : Curve) → S.takes_curve solver.new c ≡ S.takes_curve solver.old c }
{
    let fit = root_net(alloc, schema, tree, spine, inv, m)?;
    let mut flow = root_flow(alloc, &fit, schema, spine, inv)?;
    let prices = solve(alloc, fit.net(), loss, solver, &mut flow, Begin::Zero)?;
    read_root(alloc, schema, spine, &fit, loss, &flow, prices)
}
