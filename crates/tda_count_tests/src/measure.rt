// What is measured on words, how many of them are taken, and where the noise stops.
ghost use Rattle.std.specs.Prelude.{◌≡◌, ◌≤◌, ◌*◌, ◌%◌, ◌^◌, length, IfOk};
ghost use Rattle.tda_out.specs.Counts.{count_at, AreCountsOf};
ghost use Rattle.tda_measure.specs.Measured.{HaveFewPersons};

use std::alloc::{AllocError, Global};
use std::test::Fail;
use tda_fixtures::{BLOCK_TOTALS, ONE_CELL, OUTER_LEVELS, TWINS, TWO_BLOCKS};
use tda_hist::count;
use tda_measure::{MeasureStop, measure};
use tda_out::Tables;
use tda_places::Measurements;
use tda_records::read_records;
use tda_schema::{Schema, read_schema};
use tda_spine::{Spine, read_spine};
use tda_words::{ListWords, Words};

// One query of the blocks, whose noise has variance 2^20.
const SMALL_SHARE: &str = r#"version = 1
total = "1"

[[attribute]]
name = "kind"
values = ["house"]

[[level]]
name = "nation"

[[level]]
name = "state"

[[level]]
name = "block"
query = [{ name = "total", by = [], share = "1/1048576" }]
"#;

// Two persons in B1 and three in B2, and nobody.
const PERSONS: &str = "block,kind\nB1,house\nB1,house\nB2,house\nB2,house\nB2,house\n";

const NOBODY: &str = "block,kind\n";

// The first measurements, then 0, or the stop; and how many words are left and were taken.
#[derive(Clone, Copy, Debug, PartialEq, Eq)]
struct Outcome {
    measured: Result<[i64; 4], MeasureStop>,
    left: u64,
    taken: u64,
}

// A schema, records and words, and what comes of them.
const MEASURED: [(&str, &str, &[u32], Outcome); 11] = [
    (
        BLOCK_TOTALS,
        PERSONS,
        &[1, 1, 0, 1, 1, 7, 1, 1, 0, 1, 1, 7],
        Outcome {
            measured: Ok([3, 4, 0, 0]),
            left: 0,
            taken: 12,
        },
    ),
    (
        BLOCK_TOTALS,
        NOBODY,
        &[1, 1, 0, 1, 0, 7, 1, 1, 0, 1, 0, 7],
        Outcome {
            measured: Ok([-1, -1, 0, 0]),
            left: 0,
            taken: 12,
        },
    ),
    // The second number is drawn on the words that the first one left, and the last two words aren't taken.
    (
        BLOCK_TOTALS,
        PERSONS,
        &[1, 1, 0, 1, 1, 7, 1, 1, 0, 1, 0, 7, 5, 6],
        Outcome {
            measured: Ok([3, 2, 0, 0]),
            left: 2,
            taken: 12,
        },
    ),
    (
        BLOCK_TOTALS,
        PERSONS,
        &[0, 0, 0, 1, 1, 7, 0, 0, 0, 0, 1, 0, 1, 1, 0, 0, 1, 7],
        Outcome {
            measured: Ok([2, 5, 0, 0]),
            left: 0,
            taken: 18,
        },
    ),
    (
        ONE_CELL,
        PERSONS,
        &[1, 1, 0, 1, 1, 7],
        Outcome {
            measured: Ok([0, 0, 0, 0]),
            left: 6,
            taken: 0,
        },
    ),
    (
        TWINS,
        PERSONS,
        &[
            1, 1, 0, 1, 1, 7, 1, 1, 0, 1, 0, 7, 1, 1, 0, 1, 1, 7, 1, 1, 0, 1, 1, 7,
        ],
        Outcome {
            measured: Ok([3, 1, 4, 4]),
            left: 0,
            taken: 24,
        },
    ),
    (
        OUTER_LEVELS,
        PERSONS,
        &[1, 1, 0, 1, 1, 7, 1, 1, 0, 1, 0, 7, 1, 1, 0, 1, 0, 7],
        Outcome {
            measured: Ok([6, 1, 2, 0]),
            left: 0,
            taken: 18,
        },
    ),
    (
        BLOCK_TOTALS,
        PERSONS,
        &[],
        Outcome {
            measured: Err(MeasureStop::OutOfWords(0)),
            left: 0,
            taken: 0,
        },
    ),
    (
        BLOCK_TOTALS,
        PERSONS,
        &[1, 1, 0, 1, 1, 7],
        Outcome {
            measured: Err(MeasureStop::OutOfWords(1)),
            left: 0,
            taken: 6,
        },
    ),
    // A minus zero begins a new attempt, for which the words don't suffice.
    (
        BLOCK_TOTALS,
        PERSONS,
        &[0, 0, 0, 1, 0, 7],
        Outcome {
            measured: Err(MeasureStop::OutOfWords(0)),
            left: 0,
            taken: 6,
        },
    ),
    (
        BLOCK_TOTALS,
        PERSONS,
        &[1, 1, 0, 1, 1, 7, 0, 0],
        Outcome {
            measured: Err(MeasureStop::OutOfWords(1)),
            left: 0,
            taken: 8,
        },
    ),
];

// The bytes of words, each with the least byte first.
fn bytes_of(alloc: Global, words: &[u32]) -> Result<Vec<u8>, AllocError>
    ensures whole { IfOk result (λ bytes. length bytes.items % 4 ≡ 0) }
    ensures size { IfOk result (λ bytes. length bytes.items ≡ 4 * length words.now) }
{
    let mut bytes = Vec::new(alloc);
    for word in words {
        bytes.extend_from_slice(word.to_le_bytes().as_slice())?;
    }
    Ok(bytes)
}

// The first measurements, then 0.
fn first_numbers(measurements: &Measurements, count: u64) -> [i64; 4]
    requires { count ≤ length measurements.now }
{
    let mut numbers = [0; 4];
    for index in 0..4 {
        if index < count {
            numbers[index as usize] = measurements.get(index);
        }
    }
    numbers
}

// What comes of measuring these tables on the words of these bytes.
fn measure_tables(
    alloc: Global,
    schema: &Schema,
    spine: &Spine,
    tables: &Tables,
    bytes: &[u8],
) -> Outcome
    requires belong { spine.now.depth ≡ length schema.now.levels }
    requires tables { AreCountsOf schema.now spine.now tables.now }
    requires few { HaveFewPersons schema.now spine.now (count_at tables.now) }
    requires whole { length bytes.now % 4 ≡ 0 }
    requires limit { length bytes.now ≤ 2 ^ 28 }
{
    let places = tda_places::count(schema, spine);
    let mut words = ListWords::new(bytes);
    let measured = match measure(alloc, schema, spine, tables, &mut words) {
        Ok(measurements) => Ok(first_numbers(&measurements, places)),
        Err(stop) => Err(stop),
    };
    Outcome {
        measured,
        left: words.left(),
        taken: words.taken(),
    }
}

// The same of the tables of records.
fn measure_records(
    alloc: Global,
    schema: &Schema,
    spine: &Spine,
    records: &str,
    bytes: &[u8],
) -> Result<Outcome, Fail>
    requires belong { spine.now.depth ≡ length schema.now.levels }
    requires records { length records.now ≤ 2 ^ 28 }
    requires whole { length bytes.now % 4 ≡ 0 }
    requires limit { length bytes.now ≤ 2 ^ 28 }
{
    let records = read_records(alloc, schema, spine, records.as_bytes())?;
    let tables = count(alloc, schema, spine, &records)?;
    Ok(measure_tables(alloc, schema, spine, &tables, bytes))
}

// The same on two blocks.
fn measure_on(alloc: Global, schema: &Schema, records: &str, bytes: &[u8]) -> Result<Outcome, Fail>
    requires records { length records.now ≤ 2 ^ 28 }
    requires whole { length bytes.now % 4 ≡ 0 }
    requires limit { length bytes.now ≤ 2 ^ 28 }
{
    let spine = read_spine(alloc, schema, TWO_BLOCKS.as_bytes())?;
    measure_records(alloc, schema, &spine, records, bytes)
}

// The same under the schema of a text.
fn measure_under(alloc: Global, schema: &str, records: &str, bytes: &[u8]) -> Result<Outcome, Fail>
    requires schema { length schema.now ≤ 2 ^ 28 }
    requires records { length records.now ≤ 2 ^ 28 }
    requires whole { length bytes.now % 4 ≡ 0 }
    requires limit { length bytes.now ≤ 2 ^ 28 }
{
    let schema = read_schema(alloc, schema.as_bytes())?;
    measure_on(alloc, &schema, records, bytes)
}

#[test]
fn sums_and_noise(rt: HostRuntime) -> Result<(), Fail> {
    for (schema, records, words, due) in MEASURED {
        assert!(rt; schema.len() < 1000 && records.len() < 1000 && words.len() < 100);
        let bytes = bytes_of(rt.alloc(), words)?;
        let found = measure_under(rt.alloc(), schema, records, &bytes)?;
        assert!(rt; found == due, "{found:?} on {words:?}");
    }
    Ok(())
}

// Two words, and then the same three so many times.
fn repeated(alloc: Global, times: u32) -> Result<Vec<u8>, AllocError> {
    let mut bytes = bytes_of(alloc, &[0, 0])?;
    for _ in 0..times {
        bytes.extend_from_slice(&[0, 0, 0, 0, 0, 0, 0, 0, 1, 0, 0, 0])?;
    }
    Ok(bytes)
}

// The scale is 1025, and each three words are a further 1025 of the magnitude.
#[test]
fn magnitude_past_the_limit(rt: HostRuntime) -> Result<(), Fail> {
    let bytes = repeated(rt.alloc(), 1_047_553)?;
    assert!(rt; bytes.len() == 12_570_644);
    let found = measure_under(rt.alloc(), SMALL_SHARE, PERSONS, &bytes)?;
    let due = Outcome {
        measured: Err(MeasureStop::TooLarge(0, 1_073_741_825)),
        left: 0,
        taken: 3_142_661,
    };
    assert!(rt; found == due, "{found:?}");
    Ok(())
}
