// What `audit` answers.
ghost use Rattle.std.specs.Prelude.{◌≡◌, ◌≢◌, IfOk};
ghost use Rattle.tda_loss.specs.declared.Curve.TheVariants.{Square};
ghost use Rattle.tda_audit.specs.Answers.{YesTells};
ghost use Rattle.tda_inputs.specs.Reading.{case_in, IsEvidence};
ghost use Rattle.tda_refusal.specs.Verdicts.{VerdictIsKnown};
ghost use Rattle.tda_tool.specs.Auditing.{verdict_on, yes_ending, no_ending, tables_in};
ghost use Rattle.tda_release.specs.Certified.{total_deviation};
ghost use Rattle.tda_tool.specs.Answer.{IsAudit};

use crate::answer::{Answer, Cause};
use std::alloc::Global;
use tda_audit::{Verdict, audit, deviation};
use tda_inputs::Evidence;
use tda_io::NoMemory;
use tda_loss::{Curve, Loss, square};
use tda_refusal::push_verdict;
use tda_schema::Schema;
use tda_spine::Spine;

// The line that tells how many fits there are, and their deviation.
fn line(alloc: Global, spine: &Spine, deviation: u128) -> Result<Vec<u8>, NoMemory>
    ensures { IfOk result (λ v. v.items ≡ (yes_ending spine.now deviation).report) }
{
    let fits = spine.parents().len() + 1;
    let mut line = format!(in alloc; "ok audit fits={fits} deviation={deviation}")?.into_bytes();
    line.push(b'\n')?;
    Ok(line)
}

// The deviation of tables that are certified.
fn deviation_of(evidence: &Evidence) -> u128
    requires evidence { IsEvidence evidence.now }
    requires tells { YesTells Square (case_in evidence.now).inputs }
    requires yes { verdict_on (case_in evidence.now) ≡ Verdict.Yes }
    ensures { result ≡ total_deviation (case_in evidence.now).inputs (tables_in (case_in evidence.now)) }
{
    let inputs = &evidence.inputs;
    let loss = Loss::new(Curve::Square, square);
    deviation(
        &inputs.schema,
        &inputs.spine,
        &inputs.measurements,
        &evidence.tables,
        &loss,
    )
}

// The verdict.
fn verdict(alloc: Global, evidence: &Evidence) -> Result<Verdict, NoMemory>
    requires { IsEvidence evidence.now }
    ensures verdict { IfOk result (λ v. v ≡ verdict_on (case_in evidence.now)) }
    ensures tells { IfOk result (λ v. YesTells Square (case_in evidence.now).inputs) }
{
    let inputs = &evidence.inputs;
    let loss = Loss::new(Curve::Square, square);
    audit(
        alloc,
        &inputs.schema,
        &inputs.spine,
        &inputs.invariants,
        &inputs.measurements,
        &evidence.tables,
        &evidence.prices,
        &loss,
    )
}

// That the tables are certified, and how far they are from the measurements.
fn certified(alloc: Global, evidence: &Evidence) -> Result<Answer, NoMemory>
    requires evidence { IsEvidence evidence.now }
    requires tells { YesTells Square (case_in evidence.now).inputs }
    requires yes { verdict_on (case_in evidence.now) ≡ Verdict.Yes }
    ensures { IfOk result (IsAudit (case_in evidence.now)) }
{
    let deviation = deviation_of(evidence);
    let report = line(alloc, &evidence.inputs.spine, deviation)?;
    Ok(Answer::alone(alloc, Cause::Done, report))
}

// The line that tells what fails.
fn failing_line(
    alloc: Global,
    schema: &Schema,
    spine: &Spine,
    verdict: Verdict,
) -> Result<Vec<u8>, NoMemory>
    requires { VerdictIsKnown schema.now spine.now verdict }
    ensures { IfOk result (λ v. v.items ≡ (no_ending schema.now spine.now verdict).report) }
{
    let mut line = Vec::new(alloc);
    push_verdict(schema, spine, verdict, &mut line)?;
    line.push(b'\n')?;
    Ok(line)
}

// That a condition fails.
fn against(alloc: Global, evidence: &Evidence, verdict: Verdict) -> Result<Answer, NoMemory>
    requires evidence { IsEvidence evidence.now }
    requires tells { YesTells Square (case_in evidence.now).inputs }
    requires verdict { verdict ≡ verdict_on (case_in evidence.now) }
    requires no { verdict ≢ Verdict.Yes }
    ensures { IfOk result (IsAudit (case_in evidence.now)) }
{
    let inputs = &evidence.inputs;
    let report = failing_line(alloc, &inputs.schema, &inputs.spine, verdict)?;
    Ok(Answer::alone(alloc, Cause::Against, report))
}

/// The verdict on tables and prices: their deviation, or the first condition that fails.
pub(crate) fn audited(alloc: Global, evidence: &Evidence) -> Result<Answer, NoMemory>
    requires { IsEvidence evidence.now }
    ensures { IfOk result (IsAudit (case_in evidence.now)) }
{
    let verdict = verdict(alloc, evidence)?;
    if verdict == Verdict::Yes {
        certified(alloc, evidence)
    } else {
        against(alloc, evidence, verdict)
    }
}
