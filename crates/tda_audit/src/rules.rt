// What is published, judged in tables.
ghost use Rattle.std.specs.Prelude.{◌≡◌, ℕ, ◌==◌, ◌<◌, ◌≤◌, ◌^◌, ◌&&◌, ◌||◌, [], not, nat_lt, length, find, slice_index, slice_index_or, sum_by, All, IfOk};
ghost use Rattle.std.specs.List.{range_with_len};
ghost use Rattle.tda_model.specs.Bounds.{low, high};
ghost use Rattle.tda_model.specs.Cells.{all_cells, cell_count, is_possible};
ghost use Rattle.tda_model.specs.Groups.{kind_count};
ghost use Rattle.tda_model.specs.Schema as model;
ghost use Rattle.tda_model.specs.Spine as model_spine;
ghost use Rattle.tda_model.specs.Spine.{IsUnit, children_of};
ghost use Rattle.tda_model.specs.Tables.{Published, kind_sum, persons_in};
ghost use Rattle.tda_invar.specs.Known.{IsJoined, known_of};
ghost use Rattle.tda_out.specs.Counts.{AreCountsOf, count_at};
ghost use Rattle.tda_audit.specs.Verdicts.{all_sums, all_impossible, all_totals, all_kinds, all_rules, breaks};

use crate::verdict::Verdict;
use std::alloc::Global;
use tda_invar::Invariants;
use tda_io::NoMemory;
use tda_out::Tables;
use tda_schema::Schema;
use tda_spine::Spine;

// The counts of a cell in at most 2^17 units together.
fn count_in(tables: &Tables, units: &[u32], cell: u32) -> u64
    requires units { All (λ u. u < length tables.now) units.now }
    requires cells { All (λ row. cell < length row) tables.now }
    requires few { length units.now ≤ 2 ^ 17 }
    ensures { result ≡ sum_by (λ u. count_at tables.now u cell) units.now }
{
    let mut sum = 0;
    for unit in units {
        sum += tables.get(*unit, cell);
    }
    sum
}

// The first cell of a unit whose count isn't that of the unit's children together.
fn unsummed_cell(schema: &Schema, spine: &Spine, tables: &Tables, unit: u32) -> Option<u32>
    requires counts { AreCountsOf schema.now spine.now tables.now }
    requires unit { IsUnit spine.now unit }
    ensures { result ≡ find (λ j. not (count_at tables.now unit j == sum_by (λ v. count_at tables.now v j) (children_of spine.now unit))) (all_cells schema.now) }
{
    // The children are units, and few.
    let _ = spine.units();
    let children = spine.children(unit);
    for cell in 0..schema.cells() {
        if tables.get(unit, cell) != count_in(tables, children, cell) {
            return Some(cell);
        }
    }
    None
}

// The first count that isn't that of the unit's children together.
fn wrong_sum(schema: &Schema, spine: &Spine, tables: &Tables) -> Option<Verdict>
    requires belong { spine.now.depth ≡ length schema.now.levels }
    requires counts { AreCountsOf schema.now spine.now tables.now }
    ensures { (known : Published) → result ≡ find (breaks schema.now spine.now known (count_at tables.now)) (all_sums schema.now spine.now) }
{
    for unit in 0..spine.units() {
        if spine.level(unit) + 1 < schema.levels() {
            if let Some(cell) = unsummed_cell(schema, spine, tables, unit) {
                return Some(Verdict::Sum { unit, cell });
            }
        }
    }
    None
}

// The first cell of a unit that has a count and isn't possible.
fn impossible_cell(schema: &Schema, tables: &Tables, unit: u32) -> Option<u32>
    requires unit { unit < length tables.now }
    requires cells { cell_count schema.now ≡ length (slice_index_or tables.now unit []) }
    ensures { result ≡ find (λ j. not (is_possible schema.now j) && not (count_at tables.now unit j == 0)) (all_cells schema.now) }
{
    for cell in 0..schema.cells() {
        if !schema.possible(cell) && tables.get(unit, cell) != 0 {
            return Some(cell);
        }
    }
    None
}

// The first count in a cell that isn't possible.
fn wrong_cell(schema: &Schema, spine: &Spine, tables: &Tables) -> Option<Verdict>
    requires counts { AreCountsOf schema.now spine.now tables.now }
    ensures { (known : Published) → result ≡ find (breaks schema.now spine.now known (count_at tables.now)) (all_impossible schema.now spine.now) }
{
    for unit in 0..spine.units() {
        if let Some(cell) = impossible_cell(schema, tables, unit) {
            return Some(Verdict::Impossible { unit, cell });
        }
    }
    None
}

// The persons of a unit.
fn persons(schema: &Schema, tables: &Tables, unit: u32) -> u64
    requires unit { unit < length tables.now }
    requires cells { cell_count schema.now ≡ length (slice_index_or tables.now unit []) }
    ensures { result ≡ persons_in schema.now (count_at tables.now unit) }
{
    let mut sum = 0;
    for cell in 0..schema.cells() {
        sum += tables.get(unit, cell);
    }
    sum
}

// The first state whose counts don't add up to its total.
fn wrong_total(schema: &Schema, spine: &Spine, inv: &Invariants, tables: &Tables) -> Option<Verdict>
    requires joined { IsJoined schema.now spine.now inv.now }
    requires counts { AreCountsOf schema.now spine.now tables.now }
    ensures { result ≡ find (breaks schema.now spine.now (known_of spine.now inv.now) (count_at tables.now)) (all_totals schema.now spine.now) }
{
    // There is a level of states.
    let _ = spine.units();
    for state in spine.at_level(1) {
        if inv.total(*state) != Some(persons(schema, tables, *state)) {
            return Some(Verdict::Total { state: *state });
        }
    }
    None
}

// Counts a unit's persons by kind.
pub(crate) fn count_kinds(schema: &Schema, tables: &Tables, unit: u32, counts: &mut [u64])
    requires unit { unit < length tables.now }
    requires cells { cell_count schema.now ≡ length (slice_index_or tables.now unit []) }
    requires size { length counts.old ≡ kind_count schema.now }
    ensures size { length counts.new ≡ kind_count schema.now }
    ensures sums { (k : ℕ) → k < kind_count schema.now → slice_index counts.new k ≡ kind_sum schema.now k (count_at tables.now unit) }
{
    counts.fill(0);
    for cell in 0..schema.cells() {
        counts[usize::from(schema.kind_of(cell))] += tables.get(unit, cell);
    }
}

// The first kind of which a unit has too few persons, or too many.
fn unbounded_kind(inv: &Invariants, unit: u32, counts: &[u64]) -> Option<u16>
    requires unit { unit < inv.now.lows.units }
    requires size { length counts.now ≡ inv.now.lows.kinds }
    requires few { length counts.now ≤ 128 }
    ensures { (s : model.Schema) (sp : model_spine.Spine) → IsJoined s sp inv.now → result ≡ find (λ k. nat_lt (slice_index counts.now k) (low sp (known_of sp inv.now) unit k) || nat_lt (high sp (known_of sp inv.now) unit k) (slice_index counts.now k)) (range_with_len 0 (length counts.now)) }
{
    for (kind, count) in counts.iter().enumerate() {
        let kind = kind as u16;
        if *count < inv.low(unit, kind) || inv.high(unit, kind) < *count {
            return Some(kind);
        }
    }
    None
}

// The first unit and kind of which there are too few persons, or too many. There is a count for each kind.
fn wrong_kind(
    schema: &Schema,
    spine: &Spine,
    inv: &Invariants,
    tables: &Tables,
    counts: &mut [u64],
) -> Option<Verdict>
    requires joined { IsJoined schema.now spine.now inv.now }
    requires counts { AreCountsOf schema.now spine.now tables.now }
    requires size { length counts.old ≡ kind_count schema.now }
    ensures { result ≡ find (breaks schema.now spine.now (known_of spine.now inv.now) (count_at tables.now)) (all_kinds schema.now spine.now) }
{
    // There are few kinds.
    let _ = schema.kinds();
    for unit in 0..spine.units() {
        count_kinds(schema, tables, unit, counts);
        if let Some(kind) = unbounded_kind(inv, unit, counts) {
            return Some(Verdict::Kind { unit, kind });
        }
    }
    None
}

// The first that breaks what is published.
pub(crate) fn broken_rule(
    alloc: Global,
    schema: &Schema,
    spine: &Spine,
    inv: &Invariants,
    tables: &Tables,
) -> Result<Option<Verdict>, NoMemory>
    requires belong { spine.now.depth ≡ length schema.now.levels }
    requires joined { IsJoined schema.now spine.now inv.now }
    requires counts { AreCountsOf schema.now spine.now tables.now }
    ensures { IfOk result (λ o. o ≡ find (breaks schema.now spine.now (known_of spine.now inv.now) (count_at tables.now)) (all_rules schema.now spine.now)) }
{
    if let Some(verdict) = wrong_sum(schema, spine, tables) {
        return Ok(Some(verdict));
    }
    if let Some(verdict) = wrong_cell(schema, spine, tables) {
        return Ok(Some(verdict));
    }
    if let Some(verdict) = wrong_total(schema, spine, inv, tables) {
        return Ok(Some(verdict));
    }
    let mut counts = vec![in alloc; 0; usize::from(schema.kinds())]?;
    Ok(wrong_kind(schema, spine, inv, tables, &mut counts))
}
