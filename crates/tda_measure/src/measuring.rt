// Measures.
ghost use Rattle.std.specs.Prelude.{◌≡◌, ◌≢◌, ◌<◌, ◌≤◌, ◌^◌, [], ◌∷◌, All, IfErr, IfOk, OnOk, length, map, slice_index};
ghost use Rattle.tda_model.specs.Bounds.{persons_limit};
ghost use Rattle.tda_model.specs.Cells.{cell_count};
ghost use Rattle.tda_model.specs.Groups.{classes_of};
ghost use Rattle.tda_noise.specs.Answers.{CountsTaken};
ghost use Rattle.tda_out.specs.Counts.{count_at, AreCountsOf};
ghost use Rattle.tda_places.specs.Measurements.{AreMeasurementsOf};
ghost use Rattle.tda_schema.specs.Stated.{queries_at, query_at};
ghost use Rattle.tda_measure.specs.Measured.{AreMeasured, HaveFewPersons};
ghost use Rattle.tda_measure.specs.Noise.{variances_of, IsDetermined, IsNoise, NoiseStops};
ghost use Rattle.tda_measure.specs.Steps.{written_step, unit_steps, level_steps, Adds, Stops, HasCounts};
ghost use Rattle.tda_measure.specs.declared.stop.MeasureStop.TheVariants as stop;

use crate::MeasureStop;
use crate::shares::variance_of;
use crate::sums::write_sums;
use std::alloc::Global;
use tda_frac::Frac;
use tda_noise::{Draw, gaussian};
use tda_out::Tables;
use tda_places::Measurements;
use tda_schema::Schema;
use tda_spine::Spine;
use tda_words::Words;

// Measures a place: draws a number, adds it to the sum and appends that.
fn measure_place<W: Words>(
    sum: u64,
    variance: Frac,
    numbers: &mut Vec<i64>,
    w: &mut W,
) -> Result<(), MeasureStop>
    requires sum { sum ≤ persons_limit }
    requires numerator { 1 ≤ variance.num }
    requires numerator_limit { variance.num ≤ 2 ^ 20 }
    requires denominator { 1 ≤ variance.den }
    requires denominator_limit { variance.den ≤ 2 ^ 24 }
    ensures ok { OnOk result (Adds (record { sum = sum; variance = variance } ∷ []) (W.words w.old) numbers.old.items numbers.new.items (W.words w.new)) }
    ensures err { IfErr result (λ why. why ≢ stop.NoMemory → Stops (record { sum = sum; variance = variance } ∷ []) (W.words w.old) numbers.old.items why (W.words w.new)) }
    ensures counts { CountsTaken (W.words w.old) (W.taken w.old) (W.words w.new) (W.taken w.new) }
{
    match gaussian(w, variance) {
        Draw::Value(number) => {
            numbers.push(sum as i64 + number)?;
            Ok(())
        }
        Draw::OutOfWords => Err(MeasureStop::OutOfWords(numbers.len() as u64)),
        Draw::TooLarge(magnitude) => Err(MeasureStop::TooLarge(numbers.len() as u64, magnitude)),
    }
}

// Measures the places of a unit at a query. The sum of each class stands under its first cell.
fn measure_query<W: Words>(
    schema: &Schema,
    level: usize,
    query: usize,
    sums: &[u64],
    numbers: &mut Vec<i64>,
    w: &mut W,
) -> Result<(), MeasureStop>
    requires level { level < length schema.now.levels }
    requires query { query < length (queries_at schema.now level) }
    requires size { length sums.now ≡ cell_count schema.now }
    requires few { All (λ c. slice_index sums.now c ≤ persons_limit) (classes_of schema.now (query_at schema.now level query)) }
    ensures ok { OnOk result (Adds (map (written_step (query_at schema.now level query) sums.now) (classes_of schema.now (query_at schema.now level query))) (W.words w.old) numbers.old.items numbers.new.items (W.words w.new)) }
    ensures err { IfErr result (λ why. why ≢ stop.NoMemory → Stops (map (written_step (query_at schema.now level query) sums.now) (classes_of schema.now (query_at schema.now level query))) (W.words w.old) numbers.old.items why (W.words w.new)) }
    ensures counts { CountsTaken (W.words w.old) (W.taken w.old) (W.words w.new) (W.taken w.new) }
{
    // Each query is over all possible cells.
    let _ = schema.queries(level);
    let variance = variance_of(schema, level, query);
    for class in schema.classes(level, query) {
        measure_place(sums[*class as usize], variance, numbers, w)?;
    }
    Ok(())
}

// Measures the places of a unit, with room for the sums of a query.
fn measure_unit<W: Words>(
    schema: &Schema,
    tables: &Tables,
    level: usize,
    unit: u32,
    sums: &mut [u64],
    numbers: &mut Vec<i64>,
    w: &mut W,
) -> Result<(), MeasureStop>
    requires level { level < length schema.now.levels }
    requires counts { HasCounts schema.now tables.now unit }
    requires size { length sums.old ≡ cell_count schema.now }
    ensures ok { OnOk result (Adds (unit_steps schema.now level (count_at tables.now unit)) (W.words w.old) numbers.old.items numbers.new.items (W.words w.new)) }
    ensures err { IfErr result (λ why. why ≢ stop.NoMemory → Stops (unit_steps schema.now level (count_at tables.now unit)) (W.words w.old) numbers.old.items why (W.words w.new)) }
    ensures counts { CountsTaken (W.words w.old) (W.taken w.old) (W.words w.new) (W.taken w.new) }
    ensures size { length sums.new ≡ cell_count schema.now }
{
    for query in 0..schema.queries(level) {
        write_sums(schema, level, query, tables, unit, sums);
        measure_query(schema, level, query, sums, numbers, w)?;
    }
    Ok(())
}

// Measures the places of a level.
fn measure_level<W: Words>(
    schema: &Schema,
    spine: &Spine,
    tables: &Tables,
    level: usize,
    sums: &mut [u64],
    numbers: &mut Vec<i64>,
    w: &mut W,
) -> Result<(), MeasureStop>
    requires belong { spine.now.depth ≡ length schema.now.levels }
    requires tables { AreCountsOf schema.now spine.now tables.now }
    requires few { HaveFewPersons schema.now spine.now (count_at tables.now) }
    requires level { level < length schema.now.levels }
    requires size { length sums.old ≡ cell_count schema.now }
    ensures ok { OnOk result (Adds (level_steps schema.now spine.now (count_at tables.now) level) (W.words w.old) numbers.old.items numbers.new.items (W.words w.new)) }
    ensures err { IfErr result (λ why. why ≢ stop.NoMemory → Stops (level_steps schema.now spine.now (count_at tables.now) level) (W.words w.old) numbers.old.items why (W.words w.new)) }
    ensures counts { CountsTaken (W.words w.old) (W.taken w.old) (W.words w.new) (W.taken w.new) }
    ensures size { length sums.new ≡ cell_count schema.now }
{
    for unit in spine.at_level(level) {
        measure_unit(schema, tables, level, *unit, sums, numbers, w)?;
    }
    Ok(())
}

/// Measures at each place: the number of persons of the place's class in the table of its unit, plus a discrete Gaussian
/// number of variance one over the share of its query. The numbers are drawn place after place, by level, then unit in
/// file order, then query, then class, each on the words that the one before it left. Each unit's table counts at most
/// 2^30 persons, so that measurements are within 2^31.
///
/// `Ok` exactly where each place has a number; what the last draw leaves is left. `OutOfWords(i)` where place i is the
/// first without a number and no draw stands at the front of its words; then none are left. `TooLarge(i, m)` where at the
/// first such place i the magnitude m passes 2^30; what that draw leaves is left. `NoMemory` where memory ran out.
pub fn measure<W: Words>(
    alloc: Global,
    schema: &Schema,
    spine: &Spine,
    tables: &Tables,
    w: &mut W,
) -> Result<Measurements, MeasureStop>
    requires belong { spine.now.depth ≡ length schema.now.levels }
    requires tables { AreCountsOf schema.now spine.now tables.now }
    requires few { HaveFewPersons schema.now spine.now (count_at tables.now) }
    ensures ok { IfOk result (λ m. AreMeasured schema.now spine.now (count_at tables.now) (W.words w.old) m (W.words w.new)) }
    ensures each { IfOk result (AreMeasurementsOf schema.now spine.now) }
    ensures err { IfErr result (λ why. why ≢ stop.NoMemory → NoiseStops (variances_of schema.now spine.now) (W.words w.old) why (W.words w.new)) }
    ensures counts { CountsTaken (W.words w.old) (W.taken w.old) (W.words w.new) (W.taken w.new) }
    ensures one { IsDetermined (IsNoise (variances_of schema.now spine.now)) }
{
    // Each query has a share above 0, and the units are a tree.
    let _ = schema.levels();
    let _ = spine.units();
    let mut sums = vec![in alloc; 0; schema.cells() as usize]?;
    let places = tda_places::count(schema, spine);
    let mut numbers = Vec::with_capacity(alloc, places as usize)?;
    for level in 0..schema.levels() {
        measure_level(schema, spine, tables, level, &mut sums, &mut numbers, w)?;
    }
    Ok(Measurements::from_list(schema, spine, numbers))
}
