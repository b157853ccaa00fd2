// What `measure` answers.
ghost use Rattle.std.specs.Prelude.{◌≡◌, ◌<◌, ◌≤◌, ◌^◌, ◌++◌, codes, length, string_bytes, sum, IfOk, OnOk, Ok, Err};
ghost use Rattle.tda_frac.specs.Fraction.{IsAtMost, text_of};
ghost use Rattle.tda_model.specs.Bounds.{persons_limit};
ghost use Rattle.tda_model.specs.Sizes.{place_count, places_limit};
ghost use Rattle.tda_schema.specs.Shares.{frac_of, spent_of};
ghost use Rattle.tda_invar.specs.Totals as totals_file;
ghost use Rattle.tda_invar.specs.Totals.{totals_text};
ghost use Rattle.tda_ledger.specs.LedgerText.{ledger_text};
ghost use Rattle.tda_out.specs.Counts.{count_at, AreCountsOf};
ghost use Rattle.tda_hist.specs.TrueTable.{state_persons};
ghost use Rattle.tda_places.specs.Measurements as measurements_file;
ghost use Rattle.tda_places.specs.Measurements.{measurements_text, AreMeasurementsOf};
ghost use Rattle.tda_places.specs.Places.{places_of};
ghost use Rattle.tda_measure.specs.Noise.{variances_of, IsDetermined, IsNoise};
ghost use Rattle.tda_inputs.specs.Reading.{noise_words};
ghost use Rattle.tda_tool.specs.Measuring.{place_text, measured_ending};
ghost use Rattle.tda_tool.specs.Ending.{out_of_words_ending, too_large_ending};
ghost use Rattle.tda_tool.specs.Answer.{IsOutput, ReportsAlone, Tells, AreMeasuredFiles, AreMeasuredBack, AnswersBy, AnswersNoise, MeasuresWith, ComesTo, CanBeMeasured};

use crate::answer::{Answer, Cause, Output};
use crate::draw::{Drawn, draw};
use std::alloc::Global;
use tda_hist::state_totals;
use tda_inputs::Counted;
use tda_invar::write_totals;
use tda_io::NoMemory;
use tda_ledger::{make_ledger, write_ledger};
use tda_measure::MeasureStop;
use tda_places::{Measurements, count, place_at, write_measurements};
use tda_schema::Schema;

// A place as it is printed: the unit's code, the query's name and the class's number.
fn place_text(alloc: Global, counted: &Counted, index: u64) -> Result<String, NoMemory>
    requires belong { counted.now.spine.depth ≡ length counted.now.schema.levels }
    requires index { index < length (places_of counted.now.schema counted.now.spine) }
    ensures { IfOk result (λ t. string_bytes t ≡ place_text counted.now.schema counted.now.spine index) }
{
    let schema = &counted.schema;
    let spine = &counted.spine;
    let place = place_at(schema, spine, index);
    let code = spine.code(place.unit);
    let query = schema.query_name(spine.level(place.unit), place.query as usize);
    let class = place.class;
    Ok(format!(in alloc; "{code} {query} {class}")?)
}

// That the words end before the number of a place.
fn out_of_words(alloc: Global, counted: &Counted, index: u64) -> Result<Answer, NoMemory>
    requires belong { counted.now.spine.depth ≡ length counted.now.schema.levels }
    requires index { index < length (places_of counted.now.schema counted.now.spine) }
    ensures cause { IfOk result (λ a. a.cause ≡ Cause.OutOfWords) }
    ensures alone { IfOk result (ReportsAlone (out_of_words_ending (place_text counted.now.schema counted.now.spine index))) }
{
    let place = place_text(alloc, counted, index)?;
    let report = format!(in alloc; "out of words {place}\n")?.into_bytes();
    Ok(Answer::alone(alloc, Cause::OutOfWords, report))
}

// That a magnitude passes its limit in the draw of a place.
fn too_large(
    alloc: Global,
    counted: &Counted,
    index: u64,
    magnitude: i64,
) -> Result<Answer, NoMemory>
    requires belong { counted.now.spine.depth ≡ length counted.now.schema.levels }
    requires index { index < length (places_of counted.now.schema counted.now.spine) }
    ensures cause { IfOk result (λ a. a.cause ≡ Cause.TooLarge) }
    ensures alone { IfOk result (ReportsAlone (too_large_ending (place_text counted.now.schema counted.now.spine index) magnitude)) }
{
    let place = place_text(alloc, counted, index)?;
    let report = format!(in alloc; "too large {place} {magnitude}\n")?.into_bytes();
    Ok(Answer::alone(alloc, Cause::TooLarge, report))
}

// The file of the measurements.
fn measurements_output(
    alloc: Global,
    counted: &Counted,
    m: &Measurements,
) -> Result<Output, NoMemory>
    requires belong { counted.now.spine.depth ≡ length counted.now.schema.levels }
    requires measured { AreMeasurementsOf counted.now.schema counted.now.spine m.now }
    ensures output { IfOk result (IsOutput (codes "measurements") (measurements_text counted.now.schema counted.now.spine m.now)) }
    ensures read { IfOk result (λ o. measurements_file.read counted.now.schema counted.now.spine (measurements_text counted.now.schema counted.now.spine m.now) ≡ Ok m.now) }
    ensures short { IfOk result (λ o. place_count counted.now.schema counted.now.spine ≤ places_limit → length (measurements_text counted.now.schema counted.now.spine m.now) ≤ 2 ^ 30) }
{
    let mut text = Vec::new(alloc);
    write_measurements(&counted.schema, &counted.spine, m, &mut text)?;
    Ok(Output {
        name: "measurements",
        text,
    })
}

// The file of the states' totals.
fn totals_output(alloc: Global, counted: &Counted) -> Result<Output, NoMemory>
    requires tables { AreCountsOf counted.now.schema counted.now.spine counted.now.tables }
    requires few { sum (state_persons counted.now.schema counted.now.spine (count_at counted.now.tables)) ≤ persons_limit }
    ensures output { IfOk result (IsOutput (codes "totals") (totals_text counted.now.spine (state_persons counted.now.schema counted.now.spine (count_at counted.now.tables)))) }
    ensures read { IfOk result (λ o. totals_file.read counted.now.spine (totals_text counted.now.spine (state_persons counted.now.schema counted.now.spine (count_at counted.now.tables))) ≡ Ok (state_persons counted.now.schema counted.now.spine (count_at counted.now.tables))) }
    ensures short { IfOk result (λ o. length (totals_text counted.now.spine (state_persons counted.now.schema counted.now.spine (count_at counted.now.tables))) ≤ 2 ^ 28) }
{
    let totals = state_totals(alloc, &counted.schema, &counted.spine, &counted.tables)?;
    let mut text = Vec::new(alloc);
    write_totals(&counted.spine, &totals, &mut text)?;
    Ok(Output {
        name: "totals",
        text,
    })
}

// The file of the ledger, whose sum is at most the total.
fn ledger_output(alloc: Global, counted: &Counted) -> Result<Output, NoMemory>
    ensures output { IfOk result (IsOutput (codes "ledger") (ledger_text counted.now.schema)) }
    ensures within { IfOk result (λ o. IsAtMost (frac_of (spent_of counted.now.schema)) (frac_of counted.now.schema.total)) }
{
    let ledger = make_ledger(alloc, &counted.schema)?;
    let mut text = Vec::new(alloc);
    write_ledger(&counted.schema, &ledger, &mut text)?;
    Ok(Output {
        name: "ledger",
        text,
    })
}

/// Appends what all queries spend together.
pub(crate) fn push_spent(schema: &Schema, out: &mut Vec<u8>) -> Result<(), NoMemory>
    ensures { OnOk result (out.new.items ≡ out.old.items ++ text_of (frac_of (spent_of schema.now))) }
{
    match schema.spent().push(out) {
        Ok(()) => Ok(()),
        Err(_) => Err(NoMemory),
    }
}

// The line that tells how many places were measured, what that spends, and how many words were taken.
fn line(alloc: Global, counted: &Counted, taken: u64) -> Result<Vec<u8>, NoMemory>
    requires belong { counted.now.spine.depth ≡ length counted.now.schema.levels }
    ensures { IfOk result (λ v. v.items ≡ (measured_ending counted.now.schema counted.now.spine taken).report) }
{
    let places = count(&counted.schema, &counted.spine);
    let mut line = format!(in alloc; "ok measure places={places} spent=")?.into_bytes();
    push_spent(&counted.schema, &mut line)?;
    let words = format!(in alloc; " words={taken}\n")?;
    line.extend_from_slice(words.as_bytes())?;
    Ok(line)
}

/// The files of the measurements, the totals and the ledger, whose sum is at most the total.
pub(crate) fn measured_outputs(
    alloc: Global,
    counted: &Counted,
    m: &Measurements,
) -> Result<Vec<Output>, NoMemory>
    requires belong { counted.now.spine.depth ≡ length counted.now.schema.levels }
    requires measured { AreMeasurementsOf counted.now.schema counted.now.spine m.now }
    requires tables { AreCountsOf counted.now.schema counted.now.spine counted.now.tables }
    requires few { sum (state_persons counted.now.schema counted.now.spine (count_at counted.now.tables)) ≤ persons_limit }
    ensures outputs { IfOk result (λ v. AreMeasuredFiles counted.now.schema counted.now.spine m.now (state_persons counted.now.schema counted.now.spine (count_at counted.now.tables)) v.items) }
    ensures within { IfOk result (λ v. IsAtMost (frac_of (spent_of counted.now.schema)) (frac_of counted.now.schema.total)) }
    ensures back { IfOk result (λ v. AreMeasuredBack counted.now.schema counted.now.spine m.now (state_persons counted.now.schema counted.now.spine (count_at counted.now.tables))) }
{
    let mut outputs = Vec::new(alloc);
    outputs.push(measurements_output(alloc, counted, m)?)?;
    outputs.push(totals_output(alloc, counted)?)?;
    outputs.push(ledger_output(alloc, counted)?)?;
    Ok(outputs)
}

// That all is measured.
fn done(alloc: Global, counted: &Counted, drawn: &Drawn) -> Result<Answer, NoMemory>
    requires counted { CanBeMeasured counted.now }
    requires measured { AreMeasurementsOf counted.now.schema counted.now.spine drawn.now.measurements }
    ensures cause { IfOk result (λ a. a.cause ≡ Cause.Done) }
    ensures made { IfOk result (Tells counted.now.schema counted.now.spine drawn.now.measurements (state_persons counted.now.schema counted.now.spine (count_at counted.now.tables)) drawn.now.taken) }
{
    let outputs = measured_outputs(alloc, counted, &drawn.measurements)?;
    let report = line(alloc, counted, drawn.taken)?;
    Ok(Answer {
        cause: Cause::Done,
        outputs,
        report,
    })
}

/// That the noise stops at a place.
pub(crate) fn stopped(
    alloc: Global,
    counted: &Counted,
    stop: MeasureStop,
) -> Result<Answer, NoMemory>
    requires belong { counted.now.spine.depth ≡ length counted.now.schema.levels }
    requires stops { ComesTo counted.now (noise_words counted.now.noise) (Err stop) }
    ensures { IfOk result (λ a. AnswersBy ⊥ a.cause counted.now (noise_words counted.now.noise) a) }
{
    match stop {
        MeasureStop::OutOfWords(index) => out_of_words(alloc, counted, index),
        MeasureStop::TooLarge(index, magnitude) => too_large(alloc, counted, index, magnitude),
        MeasureStop::NoMemory => Err(NoMemory),
    }
}

/// The measurements, the totals of the states and the ledger, or the place at which the noise stops.
pub(crate) fn measured(alloc: Global, counted: &Counted) -> Result<Answer, NoMemory>
    requires { CanBeMeasured counted.now }
    ensures noise { IfOk result (AnswersNoise MeasuresWith counted.now (noise_words counted.now.noise)) }
    ensures one { IfOk result (λ a. IsDetermined (IsNoise (variances_of counted.now.schema counted.now.spine))) }
{
    match draw(alloc, counted) {
        Ok(drawn) => done(alloc, counted, &drawn),
        Err(stop) => stopped(alloc, counted, stop),
    }
}
