// What a row says, or what is wrong with it.
ghost use Rattle.std.specs.Prelude.{◌≡◌, ◌≤◌, length, nat_abs, take, Some, None, IfErr, IfOk, IfSome};
ghost use Rattle.std.specs.Fmt.{decimal};
ghost use Rattle.std.specs.Str.{bytes_eq};
ghost use Rattle.tda_prices.specs.Left as spec;
ghost use Rattle.tda_prices.specs.Left.{price_in_row, placed_fault};
ghost use Rattle.tda_prices.specs.Numbered.{number_named};
ghost use Rattle.tda_prices.specs.Places.{fields_of};
ghost use Rattle.tda_prices.specs.PricesText.{price_limit};

use crate::PriFault;
use crate::place::Place;
use tda_io::{RowReader, read_int};

// How far from 0 a price may be.
const LIMIT: u128 = 1 << 96;

// The number within the limit that a text is the canonical decimal of.
fn price_named(text: &[u8]) -> Option<i128>
    ensures value { result ≡ number_named price_limit text.now }
    ensures limit { IfSome result (λ z. nat_abs z ≤ price_limit) }
{
    let number = read_int(text)?;
    if number.unsigned_abs() <= LIMIT {
        Some(number)
    } else {
        None
    }
}

// Whether a text is the canonical decimal of a number.
fn is_decimal(text: &[u8], number: u32) -> bool
    ensures { result ≡ bytes_eq (decimal number) text.now }
{
    read_int(text) == Some(i128::from(number))
}

// Whether the row that was read last names a place.
fn names_place(place: Place, row: &RowReader) -> bool
    requires { length row.now.row ≡ 5 }
    ensures { result ≡ spec.names_place (fields_of place.entry) row.now.row }
{
    place.fit.as_bytes() == row.field(0)
        && place.part.as_bytes() == row.field(1)
        && place.unit.as_bytes() == row.field(2)
        && is_decimal(row.field(3), place.item)
}

/// The price in the row that was read last, whose place this is, or the row's fault.
pub(crate) fn judge(place: Place, row: &RowReader) -> Result<i128, PriFault>
    requires { length row.now.row ≡ 5 }
    ensures price { IfOk result (λ z. price_in_row row.now.row ≡ Some z) }
    ensures limit { IfOk result (λ z. nat_abs z ≤ price_limit) }
    ensures fine { IfOk result (λ _. placed_fault row.now.number (fields_of place.entry) row.now.row ≡ None) }
    ensures err { IfErr result (λ f. placed_fault row.now.number (fields_of place.entry) row.now.row ≡ Some f) }
{
    if !names_place(place, row) {
        return Err(PriFault::WrongPlace(row.number()));
    }
    match price_named(row.field(4)) {
        Some(price) => Ok(price),
        None => Err(PriFault::BadNumber(row.number())),
    }
}

/// The fault of the row that was read last, which comes after the last place.
pub(crate) fn past_fault(row: &RowReader) -> PriFault
    requires { length row.now.row ≡ 5 }
    ensures { result ≡ spec.past_fault row.now.number row.now.row }
{
    match price_named(row.field(4)) {
        Some(_) => PriFault::TooMany(row.number()),
        None => PriFault::BadNumber(row.number()),
    }
}
