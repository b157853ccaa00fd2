// Reads totals.
ghost use Rattle.std.specs.Prelude.{◌≡◌, ◌≢◌, ◌+◌, ◌*◌, ◌<◌, ◌≤◌, ◌^◌, [], None, Some, All, is_some, length, map, find, not, slice_index_or, sum_by, take, unwrap_or, IfErr, IfOk};
ghost use Rattle.tda_io.specs.Csv as csv;
ghost use Rattle.tda_io.specs.Csv.{after_header};
ghost use Rattle.tda_io.specs.Due.{Gives};
ghost use Rattle.tda_io.specs.Rows.{row_width};
ghost use Rattle.tda_model.specs.Bounds.{persons_limit};
ghost use Rattle.tda_spine.specs.Sound.{IsSound};
ghost use Rattle.tda_invar.specs.Entries.{Gathered, Says};
ghost use Rattle.tda_invar.specs.Totals as spec;
ghost use Rattle.tda_invar.specs.Totals.{names, persons_of, AreTotalsOf};
ghost use Rattle.tda_invar.specs.declared.tot_fault.TotFault.TheVariants as fault;

use crate::fields::{count_named, field, unit_at};
use crate::totals::STATES;
use crate::{TotFault, Totals};
use std::alloc::{AllocError, Global};
use tda_io::{PERSONS, RowFault, Rows, has_header, read_rows};
use tda_spine::Spine;

// What a row says: how many persons live in a state.
#[derive(Clone, Copy)]
struct StateTotal {
    state: u32,
    count: u64,
}

// Whether a unit has an entry.
fn has_entry(entries: &[Option<u64>], unit: u32) -> bool
    requires { unit < length entries.now }
    ensures { result ≡ is_some (slice_index_or entries.now unit None) }
{
    entries[unit as usize].is_some()
}

// What a row says, or its fault, beside what the rows before it say of each unit.
fn judge(
    spine: &Spine,
    entries: &[Option<u64>],
    rows: &Rows,
    row: usize,
) -> Result<StateTotal, TotFault>
    requires sound { IsSound spine.now }
    requires gathered { Gathered (length spine.now.units) (names spine.now) persons_of (take row (after_header rows.now)) entries.now }
    requires small { length rows.now < 2 ^ 63 }
    requires row { row + 1 < length rows.now }
    requires width { row_width rows.now ≡ 2 }
    ensures ok { IfOk result (λ t. Says (length spine.now.units) (names spine.now) persons_of (take row (after_header rows.now)) (slice_index_or (after_header rows.now) row []) t.state t.count) }
    ensures fine { IfOk result (λ _. spec.row_fault spine.now (take row (after_header rows.now)) (slice_index_or (after_header rows.now) row []) ≡ None) }
    ensures err { IfErr result (λ f. spec.row_fault spine.now (take row (after_header rows.now)) (slice_index_or (after_header rows.now) row []) ≡ Some f) }
{
    let number = row as u64 + 2;
    let Some(state) = unit_at(spine, STATES, field(rows, row, 0)) else {
        return Err(TotFault::UnknownState(number));
    };
    if has_entry(entries, state) {
        return Err(TotFault::Repeated(number));
    }
    let Some(count) = count_named(field(rows, row, 1), PERSONS) else {
        return Err(TotFault::BadCount(number));
    };
    Ok(StateTotal { state, count })
}

// What all rows say of each unit, or the fault of the first row that has one.
fn entries_of(alloc: Global, spine: &Spine, rows: &Rows) -> Result<Vec<Option<u64>>, TotFault>
    requires some { 0 < length rows.now }
    requires small { length rows.now < 2 ^ 63 }
    requires width { row_width rows.now ≡ 2 }
    ensures sound { IsSound spine.now }
    ensures fine { IfOk result (λ _. csv.first_fault (spec.row_fault spine.now) [] (after_header rows.now) ≡ None) }
    ensures ok { IfOk result (λ entries. Gathered (length spine.now.units) (names spine.now) persons_of (after_header rows.now) entries.items) }
    ensures err { IfErr result (λ f. f ≢ fault.NoMemory → csv.first_fault (spec.row_fault spine.now) [] (after_header rows.now) ≡ Some f) }
{
    let mut entries = vec![in alloc; None; spine.units() as usize]?;
    for row in 0..rows.len() - 1 {
        let total = judge(spine, &entries, rows, row)?;
        entries[total.state as usize] = Some(total.count);
    }
    Ok(entries)
}

// The first of these states that has no entry.
fn first_missing(states: &[u32], entries: &[Option<u64>]) -> Option<u32>
    requires { All (λ u. u < length entries.now) states.now }
    ensures { result ≡ find (λ u. not (is_some (slice_index_or entries.now u None))) states.now }
{
    for state in states {
        if !has_entry(entries, *state) {
            return Some(*state);
        }
    }
    None
}

// All entries together.
fn sum_of(entries: &[Option<u64>]) -> u64
    requires { sum_by (λ e. unwrap_or e 0) entries.now < 2 ^ 64 }
    ensures { result ≡ sum_by (λ e. unwrap_or e 0) entries.now }
{
    entries.iter().map(|entry| entry.unwrap_or(0)).sum()
}

// The entries of these states, 0 where there is none.
fn numbers_of(
    alloc: Global,
    states: &[u32],
    entries: &[Option<u64>],
) -> Result<Vec<u64>, AllocError>
    requires { All (λ u. u < length entries.now) states.now }
    ensures { IfOk result (λ numbers. numbers.items ≡ map (λ u. unwrap_or (slice_index_or entries.now u None) 0) states.now) }
{
    let mut numbers = Vec::with_capacity(alloc, states.len())?;
    for state in states {
        numbers.push(entries[*state as usize].unwrap_or(0))?;
    }
    Ok(numbers)
}

// The totals of rows, of which the first has to be the header.
fn judged(alloc: Global, spine: &Spine, rows: &Rows) -> Result<Totals, TotFault>
    requires small { length rows.now < 2 ^ 63 }
    ensures given { Gives TotFault.NoMemory (λ t. t) result (csv.judged (spec.format spine.now) rows.now) }
    ensures totals { IfOk result (AreTotalsOf spine.now) }
{
    if !has_header(rows, &["state", "total"]) {
        return Err(TotFault::BadHeader(1));
    }
    let entries = entries_of(alloc, spine, rows)?;
    let states = spine.at_level(STATES);
    if let Some(state) = first_missing(states, &entries) {
        return Err(TotFault::Missing(state));
    }
    if sum_of(&entries) > PERSONS {
        return Err(TotFault::TooManyPersons);
    }
    let numbers = numbers_of(alloc, states, &entries)?;
    Ok(Totals::from_list(spine, numbers))
}

/// The totals of a spine's states, from a text of at most 2^28 bytes with the header `state,total` and a row for each
/// state.
///
/// Rows are numbered from 1, the header being row 1. The first of these is answered. `BadRow` names the first row whose
/// width isn't that of row 1. `BadHeader(1)`: row 1 is another header, or there is no row. The first row that has a fault
/// is named with the first that it has: `UnknownState` where its first field is not the code of a unit of level 1,
/// `Repeated` where an earlier row has its state, `BadCount` where its second field is no canonical decimal from 0 to
/// 2^30. Then the file is judged as a whole: `Missing` names the first state, in the spine's order, that has no row;
/// `TooManyPersons` where all totals together are above 2^30. `NoMemory` where memory ran out.
pub fn read_totals(alloc: Global, spine: &Spine, bytes: &[u8]) -> Result<Totals, TotFault>
    requires { length bytes.now ≤ 2 ^ 28 }
    ensures given { Gives TotFault.NoMemory (λ t. t) result (spec.read spine.now bytes.now) }
    ensures totals { IfOk result (AreTotalsOf spine.now) }
{
    match read_rows(alloc, bytes) {
        Ok(rows) => judged(alloc, spine, &rows),
        Err(RowFault::BadWidth(row)) => Err(TotFault::BadRow(row)),
        Err(RowFault::NoMemory) => Err(TotFault::NoMemory),
    }
}
