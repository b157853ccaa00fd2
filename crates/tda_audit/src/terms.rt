// What the persons of a unit's group cost.
ghost use Rattle.std.specs.Prelude.{◌≡◌, ◌<◌, length, IfSome, OnOk};
ghost use Rattle.tda_model.specs.Spine.{IsUnit, level_of};
ghost use Rattle.tda_schema.specs.Stated.{level_at, queries_at, query_at};
ghost use Rattle.tda_invar.specs.Known.{JoinedLists};
ghost use Rattle.tda_places.specs.Measurements.{AreMeasurementsOf};
ghost use Rattle.tda_flow.specs.Network.{IsNetTerm, AreNetTerms};
ghost use Rattle.tda_groups.specs.Order.{group_at};
ghost use Rattle.tda_groups.specs.Tree.{IsTreeOf};
ghost use Rattle.tda_fitnet.specs.Terms.{query_terms, terms_of};
ghost use Rattle.tda_fitnet.specs.Inputs.{inputs_of};
ghost use Rattle.tda_audit.specs.Options.{listed};

use tda_flow::Term;
use tda_groups::GroupTree;
use tda_io::NoMemory;
use tda_places::{Measurements, Place};
use tda_schema::Schema;
use tda_spine::Spine;

// The term of a query at a unit's group, where one of the query's classes has just the group's cells. The class is that of
// the group's first cell.
fn query_term(
    schema: &Schema,
    spine: &Spine,
    tree: &GroupTree,
    m: &Measurements,
    unit: u32,
    query: usize,
    group: u32,
) -> Option<Term>
    requires belong { spine.now.depth ≡ length schema.now.levels }
    requires unit { IsUnit spine.now unit }
    requires level { level_of spine.now unit < length schema.now.levels }
    requires query { query < length (queries_at schema.now (level_of spine.now unit)) }
    requires tree { IsTreeOf schema.now (level_at schema.now (level_of spine.now unit)) tree.now }
    requires group { group < length tree.now.groups }
    requires measured { AreMeasurementsOf schema.now spine.now m.now }
    ensures net { IfSome result IsNetTerm }
    ensures terms { (inv : JoinedLists) → listed result ≡ query_terms (inputs_of schema.now spine.now inv m.now) unit query (query_at schema.now (level_of spine.now unit) query) (group_at tree.now.groups group) }
{
    let level = spine.level(unit);
    let _queries = schema.queries(level);
    let class = schema.class_of(level, query, tree.members(group)[0]);
    if tree.class_group(query, class) == group {
        let place = Place {
            unit,
            query: query as u32,
            class,
        };
        Some(Term {
            weight: schema.weight(level, query),
            target: m.at(schema, spine, place),
        })
    } else {
        None
    }
}

// Writes the terms of a unit's group, in place of others.
pub(crate) fn write_terms(
    terms: &mut Vec<Term>,
    schema: &Schema,
    spine: &Spine,
    tree: &GroupTree,
    m: &Measurements,
    unit: u32,
    group: u32,
) -> Result<(), NoMemory>
    requires belong { spine.now.depth ≡ length schema.now.levels }
    requires unit { IsUnit spine.now unit }
    requires level { level_of spine.now unit < length schema.now.levels }
    requires tree { IsTreeOf schema.now (level_at schema.now (level_of spine.now unit)) tree.now }
    requires group { group < length tree.now.groups }
    requires measured { AreMeasurementsOf schema.now spine.now m.now }
    ensures net { OnOk result (AreNetTerms terms.new.items) }
    ensures terms { (inv : JoinedLists) → OnOk result (terms.new.items ≡ terms_of (inputs_of schema.now spine.now inv m.now) (level_at schema.now (level_of spine.now unit)) unit (group_at tree.now.groups group)) }
{
    terms.clear();
    let level = spine.level(unit);
    for query in 0..schema.queries(level) {
        if let Some(term) = query_term(schema, spine, tree, m, unit, query, group) {
            terms.push(term)?;
        }
    }
    Ok(())
}
