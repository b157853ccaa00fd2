// Writes a ledger.
ghost use Rattle.std.specs.Prelude.{◌≡◌, ◌<◌, ◌++◌, ◌∷◌, length, take, drop, codes, IsTrue, OnOk, OnErr};
ghost use Rattle.std.specs.List.{flat_map};
ghost use Rattle.tda_frac.specs.Fraction.{text_of};
ghost use Rattle.tda_io.specs.Texts.{IsPlain};
ghost use Rattle.tda_model.specs.TablesText.{row_text};
ghost use Rattle.tda_ledger.specs.Ledger.{ledger_of, rows_of, IsRowOf};
ghost use Rattle.tda_ledger.specs.LedgerText as spec;

use crate::{Ledger, LedgerRow};
use tda_frac::Frac;
use tda_io::{NoMemory, push_field};
use tda_schema::Schema;

// Appends the header.
fn push_header(out: &mut Vec<u8>) -> Result<(), NoMemory>
    ensures ok { OnOk result (out.new.items ≡ out.old.items ++ spec.ledger_header) }
    ensures err { OnErr result (take (length out.old.items) out.new.items ≡ out.old.items) }
{
    push_field(out, b"level", false)?;
    push_field(out, b"query", false)?;
    push_field(out, b"share", true)
}

// Appends a fraction.
fn push_fraction(out: &mut Vec<u8>, fraction: Frac) -> Result<(), NoMemory>
    ensures ok { OnOk result (out.new.items ≡ out.old.items ++ text_of fraction) }
    ensures err { OnErr result (out.new.items ≡ out.old.items) }
{
    match fraction.push(out) {
        Ok(()) => Ok(()),
        Err(_) => Err(NoMemory),
    }
}

// Appends a row of two texts and a fraction.
fn push_row(out: &mut Vec<u8>, first: &[u8], second: &[u8], share: Frac) -> Result<(), NoMemory>
    requires first { IsPlain first.now }
    requires second { IsPlain second.now }
    ensures ok { OnOk result (out.new.items ≡ out.old.items ++ spec.share_row first.now second.now share) }
    ensures err { OnErr result (take (length out.old.items) out.new.items ≡ out.old.items) }
{
    push_field(out, first, false)?;
    push_field(out, second, false)?;
    push_fraction(out, share)?;
    out.push(b'\n')?;
    Ok(())
}

// Appends the row of a query.
fn push_query(schema: &Schema, row: LedgerRow, out: &mut Vec<u8>) -> Result<(), NoMemory>
    requires { IsRowOf schema.now row }
    ensures ok { OnOk result (out.new.items ≡ out.old.items ++ spec.query_row schema.now row) }
    ensures err { OnErr result (take (length out.old.items) out.new.items ≡ out.old.items) }
{
    let level = schema.level_name(row.level);
    let query = schema.query_name(row.level, row.query);
    push_row(out, level.as_bytes(), query.as_bytes(), row.share)
}

// Appends the rows of the queries.
fn push_queries(schema: &Schema, ledger: &Ledger, out: &mut Vec<u8>) -> Result<(), NoMemory>
    requires { ledger.now ≡ ledger_of schema.now }
    ensures ok { OnOk result (out.new.items ≡ out.old.items ++ flat_map (spec.query_row schema.now) (rows_of schema.now)) }
    ensures err { OnErr result (take (length out.old.items) out.new.items ≡ out.old.items) }
{
    for i in 0..ledger.len() {
        push_query(schema, ledger.row(i), out)?;
    }
    Ok(())
}

// Appends the file of a ledger.
fn push_all(schema: &Schema, ledger: &Ledger, out: &mut Vec<u8>) -> Result<(), NoMemory>
    requires { ledger.now ≡ ledger_of schema.now }
    ensures ok { OnOk result (out.new.items ≡ out.old.items ++ spec.ledger_text schema.now) }
    ensures err { OnErr result (take (length out.old.items) out.new.items ≡ out.old.items) }
{
    push_header(out)?;
    push_queries(schema, ledger, out)?;
    push_row(out, b"-", b"spent", ledger.spent())?;
    push_row(out, b"-", b"total", ledger.total())
}

/// Appends the file of the ledger of a schema: the header `level,query,share`, a row for each query with the names of
/// its level and of it, the sum of the shares and the total. Fractions are in lowest terms and always have their
/// denominator. After `NoMemory` nothing was appended.
pub fn write_ledger(schema: &Schema, ledger: &Ledger, out: &mut Vec<u8>) -> Result<(), NoMemory>
    requires { ledger.now ≡ ledger_of schema.now }
    ensures ok { OnOk result (out.new.items ≡ out.old.items ++ spec.ledger_text schema.now) }
    ensures err { OnErr result (out.new.items ≡ out.old.items) }
{
    let before = out.len();
    let written = push_all(schema, ledger, out);
    if written.is_err() {
        out.truncate(before);
    }
    written
}
