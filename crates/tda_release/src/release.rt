// The fits of a release, and their texts.
ghost use Rattle.std.specs.Prelude.{◌≤◌, All, IfOk};
ghost use Rattle.tda_model.specs.Sizes.{fit_size};
ghost use Rattle.tda_spine.specs.Judged.{IsWithinLimits, fits_of};
ghost use Rattle.tda_invar.specs.Known.{IsJoined};
ghost use Rattle.tda_places.specs.Measurements.{AreMeasurementsOf};
ghost use Rattle.tda_fitnet.specs.Inputs.{inputs_of};
ghost use Rattle.tda_release.specs.Texts.{AreReadBack, AreTextsOf};

use std::alloc::Global;
use tda_descent::{Fit, descend};
use tda_invar::Invariants;
use tda_io::NoMemory;
use tda_loss::{Curve, Loss, square};
use tda_out::{write_tables, write_tables_header};
use tda_places::Measurements;
use tda_prices::{write_prices, write_prices_header};
use tda_scale::Scale;
use tda_schema::Schema;
use tda_spine::Spine;

/// The files of tables and of prices as far as fits were made, and the deviation of these fits.
#[derive(Debug, Drop)]
pub struct Texts {
    pub tables: Vec<u8>,
    pub prices: Vec<u8>,
    pub deviation: u128,
}

impl Texts {
    ghost use Rattle.std.specs.Prelude.{◌≡◌, IfOk, IsTrue, OnOk, length};
    ghost use Rattle.tda_descent.specs.Kept.{IsFormed};
    ghost use Rattle.tda_release.specs.Texts.{AreHeaders, HasFit};

    // The headers alone.
    fn new(alloc: Global) -> Result<Texts, NoMemory>
        ensures { IfOk result AreHeaders }
    {
        let mut tables = Vec::new(alloc);
        write_tables_header(&mut tables)?;
        let mut prices = Vec::new(alloc);
        write_prices_header(&mut prices)?;
        Ok(Texts {
            tables,
            prices,
            deviation: 0,
        })
    }

    // Appends the rows of a fit.
    fn push(&mut self, schema: &Schema, spine: &Spine, fit: &Fit) -> Result<(), NoMemory>
        requires belong { spine.now.depth ≡ length schema.now.levels }
        requires formed { IsFormed schema.now spine.now fit.now }
        ensures { OnOk result (HasFit schema.now spine.now fit.now self.old self.new) }
    {
        // The units are a tree.
        let _ = spine.units();
        write_tables(schema, spine, &fit.units, &fit.counts, &mut self.tables)?;
        write_prices(schema, spine, fit.parent, &fit.prices, &mut self.prices)?;
        self.deviation = self.deviation.saturating_add(fit.deviation);
        Ok(())
    }

    // Appends the rows of a fit, and answers whether memory sufficed.
    fn keep(&mut self, schema: &Schema, spine: &Spine, fit: &Fit) -> bool
        requires belong { spine.now.depth ≡ length schema.now.levels }
        requires formed { IsFormed schema.now spine.now fit.now }
        ensures { IsTrue result → HasFit schema.now spine.now fit.now self.old self.new }
    {
        self.push(schema, spine, fit).is_ok()
    }
}

// A solver that is as large as the largest fit.
fn new_solver(alloc: Global, schema: &Schema, spine: &Spine) -> Result<Scale, NoMemory>
    requires { IsWithinLimits schema.now spine.now }
    ensures nodes { IfOk result (λ s. All (λ fit. (fit_size schema.now spine.now fit).nodes ≤ s.nodes) (fits_of spine.now)) }
    ensures arcs { IfOk result (λ s. All (λ fit. (fit_size schema.now spine.now fit).arcs ≤ s.arcs) (fits_of spine.now)) }
{
    // The units are a tree.
    let _ = spine.units();
    let largest = spine.largest_fit(schema);
    Scale::new(alloc, largest.nodes, largest.arcs)
}

/// The files of a release: at each fit the tables are least ones, as its prices show. Both files are within the limits of
/// their readers, and are read back as tables and prices of which an audit says Yes.
pub fn release_texts(
    alloc: Global,
    schema: &Schema,
    spine: &Spine,
    invariants: &Invariants,
    measurements: &Measurements,
) -> Result<Texts, NoMemory>
    requires limits { IsWithinLimits schema.now spine.now }
    requires joined { IsJoined schema.now spine.now invariants.now }
    requires measured { AreMeasurementsOf schema.now spine.now measurements.now }
    ensures texts { IfOk result (AreTextsOf (inputs_of schema.now spine.now invariants.now measurements.now)) }
    ensures read_back { IfOk result (AreReadBack (inputs_of schema.now spine.now invariants.now measurements.now)) }
{
    let mut solver = new_solver(alloc, schema, spine)?;
    let loss = Loss::new(Curve::Square, square);
    let mut texts = Texts::new(alloc)?;
    // The units are a tree, each level's queries are known, and the common denominator is small, as are cells and kinds.
    let _ = spine.units();
    let _ = schema.levels();
    let _ = schema.cells();
    let _ = schema.kinds();
    let _ = schema.common();
    let fitted = descend(
        alloc,
        schema,
        spine,
        invariants,
        measurements,
        &loss,
        &mut solver,
        &mut |fit: &Fit| texts.keep(schema, spine, fit),
    );
    match fitted {
        Ok(()) => Ok(texts),
        Err(_) => Err(NoMemory),
    }
}
