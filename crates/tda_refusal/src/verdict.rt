// What an audit answers, and how that is printed.
ghost use Rattle.std.specs.Prelude.{◌≡◌, ◌++◌, take, length, IfSome, OnOk, OnErr};
ghost use Rattle.tda_model.specs.Spine.{IsUnit};
ghost use Rattle.tda_refusal.specs.Refusal.{coded, numbered};
ghost use Rattle.tda_refusal.specs.Verdicts as spec;

use crate::text::{kind_name, or_cut, push_coded, push_numbered};
use tda_audit::Verdict;
use tda_fitnet::ArcName;
use tda_flow::Side;
use tda_io::NoMemory;
use tda_schema::Schema;
use tda_spine::Spine;

// How a fit is named.
fn fit_name(spine: &Spine, fit: Option<u32>) -> &str
    requires { IfSome fit (IsUnit spine.now) }
    ensures { result.now ≡ spec.fit_name spine.now fit }
{
    match fit {
        Some(parent) => spine.code(parent),
        None => "-",
    }
}

fn side_name(side: Side) -> &'static str
    ensures { result.now ≡ spec.side_name side }
{
    match side {
        Side::Up => "up",
        Side::Down => "down",
    }
}

// Appends a space and a word.
fn push_word(word: &str, out: &mut Vec<u8>) -> Result<(), NoMemory>
    ensures ok { OnOk result (out.new.items ≡ coded out.old.items word.now) }
    ensures err { OnErr result (out.new.items ≡ out.old.items) }
{
    push_coded(out, "", word)
}

// Appends two words, each after a space.
fn push_words(first: &str, second: &str, out: &mut Vec<u8>) -> Result<(), NoMemory>
    ensures ok { OnOk result (out.new.items ≡ coded (coded out.old.items first.now) second.now) }
    ensures err { OnErr result (take (length out.old.items) out.new.items ≡ out.old.items) }
{
    push_word(first, out)?;
    push_word(second, out)
}

// Appends two words and a number, each after a space.
fn push_place(first: &str, second: &str, number: u32, out: &mut Vec<u8>) -> Result<(), NoMemory>
    ensures ok { OnOk result (out.new.items ≡ numbered (coded (coded out.old.items first.now) second.now) number) }
    ensures err { OnErr result (take (length out.old.items) out.new.items ≡ out.old.items) }
{
    push_words(first, second, out)?;
    push_numbered(out, "", u64::from(number))
}

// Appends what an arc stands for.
fn push_arc(schema: &Schema, spine: &Spine, arc: ArcName, out: &mut Vec<u8>) -> Result<(), NoMemory>
    requires { spec.ArcIsKnown schema.now spine.now arc }
    ensures ok { OnOk result (out.new.items ≡ spec.with_arc schema.now spine.now out.old.items arc) }
    ensures err { OnErr result (take (length out.old.items) out.new.items ≡ out.old.items) }
{
    match arc {
        ArcName::Fixed => push_word("fixed", out),
        ArcName::Share { state, kind } => {
            push_words("share", spine.code(state), out)?;
            push_word(kind_name(schema, kind), out)
        }
        ArcName::Give { unit, cell } => push_place("give", spine.code(unit), cell, out),
        ArcName::Group { unit, group } => push_place("group", spine.code(unit), group, out),
    }
}

// Appends a name and, each after a space, a unit's code and a cell's number.
fn push_cell(name: &str, code: &str, cell: u32, out: &mut Vec<u8>) -> Result<(), NoMemory>
    ensures ok { OnOk result (out.new.items ≡ out.old.items ++ numbered (coded name.now code.now) cell) }
    ensures err { OnErr result (take (length out.old.items) out.new.items ≡ out.old.items) }
{
    push_coded(out, name, code)?;
    push_numbered(out, "", u64::from(cell))
}

// Appends what fails.
fn push_failure(
    schema: &Schema,
    spine: &Spine,
    verdict: Verdict,
    out: &mut Vec<u8>,
) -> Result<(), NoMemory>
    requires { spec.VerdictIsKnown schema.now spine.now verdict }
    ensures ok { OnOk result (out.new.items ≡ out.old.items ++ spec.verdict_text schema.now spine.now verdict) }
    ensures err { OnErr result (take (length out.old.items) out.new.items ≡ out.old.items) }
{
    match verdict {
        Verdict::Yes => Ok(()),
        Verdict::Sum { unit, cell } => push_cell("no sum", spine.code(unit), cell, out),
        Verdict::Impossible { unit, cell } => push_cell(
            "no impossible",
            spine.code(unit),
            cell,
            out,
        ),
        Verdict::Total { state } => push_coded(out, "no total", spine.code(state)),
        Verdict::Kind { unit, kind } => {
            push_coded(out, "no kind", spine.code(unit))?;
            push_word(kind_name(schema, kind), out)
        }
        Verdict::Arc { fit, arc, side } => {
            push_coded(out, "no arc", fit_name(spine, fit))?;
            push_arc(schema, spine, arc, out)?;
            push_word(side_name(side), out)
        }
    }
}

/// Appends `no` and what fails first: `sum` or `impossible` with a unit's code and a cell's number, `total` with a state's
/// code, `kind` with a unit's code and the kind's name, or `arc` with the fit (`-` is the nation's, else the parent's
/// code), what the arc stands for, and the side. Nothing is appended for `Yes`, and no line feed. The units that it names
/// are the spine's, and the kinds the schema's. After `NoMemory` the bytes are as they were.
pub fn push_verdict(
    schema: &Schema,
    spine: &Spine,
    verdict: Verdict,
    out: &mut Vec<u8>,
) -> Result<(), NoMemory>
    requires { spec.VerdictIsKnown schema.now spine.now verdict }
    ensures ok { OnOk result (out.new.items ≡ out.old.items ++ spec.verdict_text schema.now spine.now verdict) }
    ensures err { OnErr result (out.new.items ≡ out.old.items) }
{
    let before = out.len();
    let pushed = push_failure(schema, spine, verdict, out);
    or_cut(out, before, pushed)
}
