// What `fit` answers.
ghost use Rattle.std.specs.Prelude.{◌≡◌, IfOk};
ghost use Rattle.tda_invar.specs.Known.{known_of};
ghost use Rattle.tda_tool.specs.Ending.{fit_ending};
ghost use Rattle.tda_inputs.specs.Accepted.{inputs_by};
ghost use Rattle.tda_inputs.specs.Reading.{AreInputs};
ghost use Rattle.tda_tool.specs.Answer.{IsFitted};

use crate::answer::{Answer, Cause, Output};
use std::alloc::Global;
use tda_invar::Invariants;
use tda_io::NoMemory;
use tda_places::Measurements;
use tda_release::release_texts;
use tda_schema::Schema;
use tda_spine::Spine;

// The line that tells how many fits were made, and their deviation.
fn line(alloc: Global, spine: &Spine, deviation: u128) -> Result<Vec<u8>, NoMemory>
    ensures { IfOk result (λ v. v.items ≡ (fit_ending spine.now deviation).report) }
{
    let fits = spine.parents().len() + 1;
    let mut line = format!(in alloc; "ok fit fits={fits} deviation={deviation}")?.into_bytes();
    line.push(b'\n')?;
    Ok(line)
}

/// The tables, their prices, and how many fits there are, with their deviation.
pub(crate) fn fitted(
    alloc: Global,
    schema: &Schema,
    spine: &Spine,
    invariants: &Invariants,
    measurements: &Measurements,
) -> Result<Answer, NoMemory>
    requires { AreInputs schema.now spine.now invariants.now measurements.now }
    ensures cause { IfOk result (λ a. a.cause ≡ Cause.Done) }
    ensures made { IfOk result (IsFitted (inputs_by schema.now spine.now (known_of spine.now invariants.now) measurements.now)) }
{
    let texts = release_texts(alloc, schema, spine, invariants, measurements)?;
    let report = line(alloc, spine, texts.deviation)?;
    let mut outputs = Vec::new(alloc);
    outputs.push(Output {
        name: "tables",
        text: texts.tables,
    })?;
    outputs.push(Output {
        name: "prices",
        text: texts.prices,
    })?;
    Ok(Answer {
        cause: Cause::Done,
        outputs,
        report,
    })
}
