// Makes the ledger of a schema.
ghost use Rattle.std.specs.Prelude.{◌≡◌, ◌<◌, ◌++◌, length, OnOk, IfOk};
ghost use Rattle.tda_frac.specs.Fraction.{IsAtMost};
ghost use Rattle.tda_ledger.specs.Ledger as spec;

use crate::{Ledger, LedgerRow};
use std::alloc::Global;
use tda_io::NoMemory;
use tda_schema::Schema;

// Appends the rows of a level.
fn push_level(schema: &Schema, level: usize, rows: &mut Vec<LedgerRow>) -> Result<(), NoMemory>
    requires { level < length schema.now.levels }
    ensures { OnOk result (rows.new.items ≡ rows.old.items ++ spec.level_rows schema.now level) }
{
    for query in 0..schema.queries(level) {
        let share = schema.share(level, query);
        rows.push(LedgerRow {
            level,
            query,
            share,
        })?;
    }
    Ok(())
}

/// The ledger of a schema. What is spent is at most the total.
pub fn make_ledger(alloc: Global, schema: &Schema) -> Result<Ledger, NoMemory>
    ensures value { IfOk result (λ l. l ≡ spec.ledger_of schema.now) }
    ensures within { IfOk result (λ l. IsAtMost l.spent l.total) }
{
    let mut rows = Vec::new(alloc);
    for level in 0..schema.levels() {
        push_level(schema, level, &mut rows)?;
    }
    Ok(Ledger {
        rows,
        spent: schema.spent(),
        total: schema.total(),
    })
}
