// What a row of the file of tables says, or what is wrong with it.
ghost use Rattle.std.specs.Prelude.{◌≡◌, ◌<◌, ◌≤◌, ◌^◌, ℕ, length, true, None, Some, IfErr, IfNone, IfOk, IfSome};
ghost use Rattle.tda_model.specs.Bounds.{persons_limit};
ghost use Rattle.tda_model.specs.Cells.{cell_count};
ghost use Rattle.tda_model.specs.Spine.{IsUnit};
ghost use Rattle.tda_prices.specs.Ranks.{AreRanks};
ghost use Rattle.tda_prices.specs.TablesRead as spec;
ghost use Rattle.tda_prices.specs.TablesRead.{comes_late, count_in, fault_after, names, spot_by, spot_in};

use crate::TabFault;
use tda_io::{PERSONS, RowReader, read_int};
use tda_schema::Schema;
use tda_spine::Spine;

// A count of a unit and a cell. The spot is where the two stand among all units in order and their cells.
#[derive(Clone, Copy, Debug, PartialEq, Eq)]
pub(crate) struct Counted {
    pub(crate) spot: u64,
    pub(crate) unit: u32,
    pub(crate) cell: u32,
    pub(crate) count: u64,
}

// The number from least to most whose canonical decimal a text is.
fn number_within(least: u32, most: u32, text: &[u8]) -> Option<u32>
    ensures value { result ≡ spec.number_within least most text.now }
    ensures most { IfSome result (λ n. n ≤ most) }
{
    let number = u32::try_from(read_int(text)?).ok()?;
    if least <= number && number <= most {
        Some(number)
    } else {
        None
    }
}

// The cell that a text names.
fn cell_named(schema: &Schema, text: &[u8]) -> Option<u32>
    ensures cell { IfSome result (λ cell. cell < cell_count schema.now) }
    ensures some { IfSome result (λ cell. spec.number_within 0 (cell_count schema.now) text.now ≡ Some cell) }
    ensures none { IfNone result ((unit : ℕ) → spot_by schema.now (Some unit) (spec.number_within 0 (cell_count schema.now) text.now) ≡ None) }
{
    let cells = schema.cells();
    let cell = number_within(0, cells, text)?;
    if cell < cells { Some(cell) } else { None }
}

// Whether a spot doesn't come after the last one.
fn is_late(last: Option<u64>, spot: u64) -> bool
    ensures { result ≡ comes_late last (Some spot) }
{
    match last {
        Some(last) => spot <= last,
        None => false,
    }
}

/// The count in the row that was read last, or the row's fault; last is where the row before it stands.
pub(crate) fn judge(
    schema: &Schema,
    spine: &Spine,
    ranks: &[u32],
    last: Option<u64>,
    row: &RowReader,
) -> Result<Counted, TabFault>
    requires ranks { AreRanks spine.now ranks.now }
    requires width { length row.now.row ≡ 3 }
    ensures unit { IfOk result (λ c. IsUnit spine.now c.unit) }
    ensures cell { IfOk result (λ c. c.cell < cell_count schema.now) }
    ensures limit { IfOk result (λ c. c.count ≤ persons_limit) }
    ensures named { IfOk result (λ c. names spine.now c.unit c.cell row.now.row ≡ true) }
    ensures count { IfOk result (λ c. count_in row.now.row ≡ Some c.count) }
    ensures spot { IfOk result (λ c. spot_in schema.now spine.now row.now.row ≡ Some c.spot) }
    ensures fine { IfOk result (λ _. fault_after schema.now spine.now row.now.number last row.now.row ≡ None) }
    ensures err { IfErr result (λ f. fault_after schema.now spine.now row.now.number last row.now.row ≡ Some f) }
{
    // Units have codes of their own.
    let _ = spine.units();
    let number = row.number();
    let Some(unit) = spine.find(row.field(0)) else {
        return Err(TabFault::WrongPlace(number));
    };
    let Some(cell) = cell_named(schema, row.field(1)) else {
        return Err(TabFault::WrongPlace(number));
    };
    let spot = u64::from(ranks[unit as usize]) * u64::from(schema.cells()) + u64::from(cell);
    if is_late(last, spot) {
        return Err(TabFault::WrongPlace(number));
    }
    match number_within(1, PERSONS as u32, row.field(2)) {
        Some(count) => Ok(Counted {
            spot,
            unit,
            cell,
            count: u64::from(count),
        }),
        None => Err(TabFault::BadNumber(number)),
    }
}
