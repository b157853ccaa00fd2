// The nets of the fits of nations, arc by arc.
ghost use Rattle.std.specs.Prelude.{◌<◌, ◌≤◌, ◌^◌, length};
ghost use Rattle.tda_spine.specs.Judged.{IsWithinLimits};
ghost use Rattle.tda_invar.specs.Known.{IsJoined};
ghost use Rattle.tda_places.specs.Measurements.{AreMeasurementsOf};
ghost use Rattle.tda_fitnet.specs.Layout.{arc_number};

use crate::nations::{DORMITORY, HOUSES, Nation, PRISON, TWINS, Way};
use std::alloc::Global;
use std::process::Abort;
use std::test::Fail;
use tda_fitnet::{FitNet, root_net};
use tda_flow::Term;
use tda_groups::tree;
use tda_invar::{Invariants, join, read_facilities, read_totals};
use tda_places::{Measurements, read_measurements};
use tda_schema::{Schema, read_schema};
use tda_spine::{Spine, read_spine};

fn has_terms(rt: &impl Abort, terms: &[Term], due: &[(u64, i64)]) {
    assert_eq!(rt; terms.len(), due.len());
    for (term, (weight, target)) in terms.iter().zip(due) {
        assert!(rt; term.weight == *weight && term.target == *target);
    }
}

// An arc but for its terms.
fn has_way(rt: &impl Abort, fit: &FitNet, k: usize, due: &Way)
    requires { k < arc_number fit.now.layout }
{
    let arc = fit.net().arc(k);
    assert!(rt; fit.arc_name(k) == due.0, "name of arc {k}");
    assert!(rt;
        (arc.from, arc.to, arc.low, arc.high) == (due.1, due.2, due.3, due.4),
        "arc {k}"
    );
    has_terms(rt, fit.net().terms(k), due.5);
}

/// A net has just these arcs, in this order.
pub(crate) fn has_ways(rt: &impl Abort, fit: &FitNet, ways: &[Way]) {
    assert_eq!(rt; fit.net().arcs(), ways.len());
    for (k, due) in ways.iter().enumerate() {
        assert!(rt; k < fit.net().arcs());
        has_way(rt, fit, k, due);
    }
}

fn has_net(
    rt: &impl Abort,
    alloc: Global,
    schema: &Schema,
    spine: &Spine,
    inv: &Invariants,
    m: &Measurements,
    nation: &Nation,
) -> Result<(), Fail>
    requires belong { IsWithinLimits schema.now spine.now }
    requires joined { IsJoined schema.now spine.now inv.now }
    requires measured { AreMeasurementsOf schema.now spine.now m.now }
{
    assert!(rt; 0 < schema.levels());
    let tree = tree(alloc, schema, 0)?;
    let fit = root_net(alloc, schema, &tree, spine, inv, m)?;
    assert_eq!(rt; fit.net().nodes(), nation.size.nodes);
    assert_eq!(rt; fit.net().arcs(), nation.size.arcs);
    has_ways(rt, &fit, nation.root);
    Ok(())
}

fn has_sizes(rt: &impl Abort, schema: &Schema, spine: &Spine, nation: &Nation)
    requires { IsWithinLimits schema.now spine.now }
{
    assert!(rt; spine.fit_size(schema, None) == nation.size);
    assert!(rt; spine.largest_fit(schema) == nation.largest);
}

fn of_spine(
    rt: &impl Abort,
    alloc: Global,
    schema: &Schema,
    spine: &Spine,
    nation: &Nation,
) -> Result<(), Fail>
    requires { IsWithinLimits schema.now spine.now }
{
    has_sizes(rt, schema, spine, nation);
    assert!(rt;
        nation.facilities.len() < 1000
            && nation.totals.len() < 1000
            && nation.measurements.len() < 1000
    );
    let facilities = read_facilities(alloc, schema, spine, nation.facilities.as_bytes())?;
    let totals = read_totals(alloc, spine, nation.totals.as_bytes())?;
    let inv = join(alloc, schema, spine, facilities, totals)?;
    let m = read_measurements(alloc, schema, spine, nation.measurements.as_bytes())?;
    has_net(rt, alloc, schema, spine, &inv, &m, nation)
}

fn of_nation(rt: &impl Abort, alloc: Global, nation: &Nation) -> Result<(), Fail> {
    assert!(rt; nation.schema.len() < 1000 && nation.spine.len() < 1000);
    let schema = read_schema(alloc, nation.schema.as_bytes())?;
    let spine = read_spine(alloc, &schema, nation.spine.as_bytes())?;
    of_spine(rt, alloc, &schema, &spine, nation)
}

#[test]
fn net_of_a_nation_of_houses(rt: HostRuntime) -> Result<(), Fail> {
    of_nation(&rt, rt.alloc(), &HOUSES)
}

#[test]
fn net_of_queries_with_one_class(rt: HostRuntime) -> Result<(), Fail> {
    of_nation(&rt, rt.alloc(), &TWINS)
}

#[test]
fn net_of_a_nation_with_a_prison(rt: HostRuntime) -> Result<(), Fail> {
    of_nation(&rt, rt.alloc(), &PRISON)
}

#[test]
fn net_of_a_nation_with_a_dormitory(rt: HostRuntime) -> Result<(), Fail> {
    of_nation(&rt, rt.alloc(), &DORMITORY)
}
