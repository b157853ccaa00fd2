// What schemas tell: each reader once, and the groups of schemas with several cells.
ghost use Rattle.std.specs.Prelude.{◌≡◌, ◌<◌, ◌≤◌, ◌^◌, true, length};
ghost use Rattle.tda_schema.specs.Stated.{queries_at};

use std::alloc::{AllocError, Global};
use std::process::Abort;
use std::test::Fail;
use tda_fixtures::{DEMO, ONE_CELL};
use tda_schema::SchemaFault::{Denominator, NotNested, OverTotal};
use tda_schema::{Schema, SchemaFault, Texts, read_schema};

// What one attribute of one value tells.
fn tells_one_cell(rt: &impl Abort, schema: &Schema) {
    assert_eq!(rt; schema.attributes(), 1);
    assert_eq!(rt; schema.attribute_name(0), "kind");
    assert_eq!(rt; schema.values(0), 1);
    assert_eq!(rt; schema.value_name(0, 0), "house");
    assert_eq!(rt; schema.find_value(0, b"house"), Some(0));
    assert_eq!(rt; schema.find_value(0, b"prison"), None);
    assert_eq!(rt; schema.cells(), 1);
    assert_eq!(rt; schema.cell_of(&[0]), 0);
    assert_eq!(rt; schema.kinds(), 1);
    assert_eq!(rt; schema.kind_of(0), 0);
    assert!(rt; schema.possible(0));
}

// What three levels without a query tell.
fn tells_three_levels(rt: &impl Abort, schema: &Schema) {
    assert_eq!(rt; schema.levels(), 3);
    for (level, name) in ["nation", "state", "block"].iter().enumerate() {
        assert_eq!(rt; schema.level_name(level), *name);
        assert_eq!(rt; schema.find_level(name.as_bytes()), Some(level));
        assert_eq!(rt; sizes(schema, level), Some((0, 1, 0)));
    }
    assert_eq!(rt; schema.find_level(b"county"), None);
    assert_eq!(rt; spent(schema), (1, 0, 1));
}

#[test]
fn tells_what_a_schema_says(rt: HostRuntime) -> Result<(), Fail> {
    let schema = read_schema(rt.alloc(), ONE_CELL.as_bytes())?;
    tells_one_cell(&rt, &schema);
    tells_three_levels(&rt, &schema);
    Ok(())
}

#[test]
fn texts_have_their_numbers(rt: HostRuntime) -> Result<(), Fail> {
    let mut texts = Texts::new(rt.alloc());
    texts.push(rt.alloc(), b"age0")?;
    let numbers = (texts.find(b"age0"), texts.find(b"age"), texts.find(b""));
    assert_eq!(rt; numbers, (Some(0), None, None));
    Ok(())
}

// How many queries, groups and places a level has.
fn sizes(schema: &Schema, level: usize) -> Option<(usize, u32, u64)> {
    if level >= schema.levels() {
        return None;
    }
    Some((
        schema.queries(level),
        schema.groups(level),
        schema.places(level),
    ))
}

fn is_query(schema: &Schema, level: usize, query: usize) -> bool
    ensures level { result ≡ true → level < length schema.now.levels }
    ensures query { result ≡ true → query < length (queries_at schema.now level) }
{
    level < schema.levels() && query < schema.queries(level)
}

// Whether a query has this name.
fn is_named(schema: &Schema, level: usize, query: usize, name: &str) -> bool {
    is_query(schema, level, query) && schema.query_name(level, query) == name
}

// The weight of a query, and its share.
fn paid(schema: &Schema, level: usize, query: usize) -> Option<(u64, u64, u64)> {
    if !is_query(schema, level, query) {
        return None;
    }
    let share = schema.share(level, query);
    Some((schema.weight(level, query), share.num(), share.den()))
}

// Whether a query has these classes.
fn has_classes(schema: &Schema, level: usize, query: usize, classes: &[u32]) -> bool {
    is_query(schema, level, query) && schema.classes(level, query) == classes
}

// The class of a possible cell.
fn class(schema: &Schema, level: usize, query: usize, cell: u32) -> Option<u32> {
    if !is_query(schema, level, query) || cell >= schema.cells() || !schema.possible(cell) {
        return None;
    }
    Some(schema.class_of(level, query, cell))
}

// The common denominator and the sum of the shares.
fn spent(schema: &Schema) -> (u64, u64, u64) {
    (schema.common(), schema.spent().num(), schema.spent().den())
}

// Of each level of the demo its queries, groups and places, and its second query with its weight and share.
const LEVELS: [(usize, u32, u64, &str, (u64, u64, u64)); 5] = [
    (2, 14, 13, "detail", (1, 1, 16)),
    (2, 14, 13, "detail", (1, 1, 16)),
    (2, 8, 6, "kindage", (1, 1, 16)),
    (2, 14, 11, "detail", (2, 1, 8)),
    (2, 14, 11, "detail", (4, 1, 4)),
];

// Of each possible cell of the demo the first cell of its kind and age.
const CELLS: [Option<u32>; 13] = [
    Some(0),
    Some(1),
    Some(0),
    Some(1),
    Some(4),
    Some(5),
    Some(4),
    Some(5),
    None,
    Some(9),
    None,
    Some(9),
    None,
];

fn tells_levels_of_the_demo(rt: &impl Abort, schema: &Schema) {
    for (level, (queries, groups, places, name, share)) in LEVELS.iter().enumerate() {
        assert_eq!(rt; sizes(schema, level), Some((*queries, *groups, *places)));
        assert!(rt; is_named(schema, level, 1, name));
        assert_eq!(rt; paid(schema, level, 1), Some(*share));
    }
}

fn tells_classes_of_the_demo(rt: &impl Abort, schema: &Schema) {
    assert!(rt; has_classes(schema, 2, 0, &[0]));
    assert!(rt; has_classes(schema, 2, 1, &[0, 1, 4, 5, 9]));
    for (cell, first) in (0..13).zip(CELLS) {
        assert_eq!(rt; class(schema, 2, 1, cell), first);
    }
}

// The cell of three values, and its kind.
fn cell_and_kind(schema: &Schema, kind: u16, sex: u16, age: u16) -> Option<(u32, u16)> {
    if schema.attributes() != 3 {
        return None;
    }
    let known = usize::from(kind) < schema.values(0)
        && usize::from(sex) < schema.values(1)
        && usize::from(age) < schema.values(2);
    if !known {
        return None;
    }
    let cell = schema.cell_of(&[kind, sex, age]);
    Some((cell, schema.kind_of(cell)))
}

// Values of the demo's attributes, with their cell and its kind: the last attribute counts fastest.
const VALUES: [(u16, u16, u16, u32, u16); 5] = [
    (0, 0, 0, 0, 0),
    (0, 1, 0, 2, 0),
    (1, 0, 1, 5, 1),
    (2, 0, 1, 9, 2),
    (2, 1, 1, 11, 2),
];

fn tells_cells_of_the_demo(rt: &impl Abort, schema: &Schema) {
    for (kind, sex, age, cell, kind_of_cell) in VALUES {
        let found = cell_and_kind(schema, kind, sex, age);
        assert_eq!(rt; found, Some((cell, kind_of_cell)));
    }
}

// An attribute's name, and that of a value of it.
fn names(schema: &Schema, a: usize, v: u16) -> Option<(&str, &str)> {
    if a >= schema.attributes() || usize::from(v) >= schema.values(a) {
        return None;
    }
    Some((schema.attribute_name(a), schema.value_name(a, v)))
}

// Where an attribute has a value of this name.
fn found(schema: &Schema, a: usize, name: &str) -> Option<u16> {
    if a >= schema.attributes() {
        return None;
    }
    schema.find_value(a, name.as_bytes())
}

// An attribute and a value of it, and the names of both.
const NAMES: [(usize, u16, &str, &str); 4] = [
    (0, 0, "kind", "house"),
    (0, 2, "kind", "prison"),
    (1, 1, "sex", "m"),
    (2, 1, "age", "adult"),
];

fn tells_names_of_the_demo(rt: &impl Abort, schema: &Schema) {
    for (a, v, attribute, value) in NAMES {
        assert!(rt; names(schema, a, v) == Some((attribute, value)));
        assert_eq!(rt; found(schema, a, value), Some(v));
    }
    assert_eq!(rt; found(schema, 2, "prison"), None);
}

#[test]
fn tells_the_demo(rt: HostRuntime) -> Result<(), Fail> {
    let schema = read_schema(rt.alloc(), DEMO.as_bytes())?;
    assert_eq!(rt; (schema.cells(), schema.kinds()), (12, 3));
    assert_eq!(rt; (schema.total().num(), schema.total().den()), (1, 1));
    assert_eq!(rt; spent(&schema), (16, 1, 1));
    tells_levels_of_the_demo(&rt, &schema);
    tells_classes_of_the_demo(&rt, &schema);
    tells_cells_of_the_demo(&rt, &schema);
    tells_names_of_the_demo(&rt, &schema);
    Ok(())
}

// The demo with a further query of the county by sex alone, and room for its share.
fn by_sex(alloc: Global) -> Result<String, AllocError> {
    let (head, rest) = DEMO.split_once("\"1\"").unwrap_or((DEMO, ""));
    let (middle, tail) = rest
        .split_once("{ name = \"kindage\"")
        .unwrap_or((rest, ""));
    format!(in alloc;
        "{head}\"2\"{middle}{{ name = \"sex\", by = [\"sex\"], share = \"1/16\" }}, {{ name = \"kindage\"{tail}"
    )
}

#[test]
fn refuses_classes_across_kinds(rt: HostRuntime) -> Result<(), Fail> {
    let text = by_sex(rt.alloc())?;
    assert!(rt; text.len() <= 4000);
    let fault = read_schema(rt.alloc(), text.as_bytes()).err();
    assert!(rt; fault == Some(NotNested));
    Ok(())
}

// Two queries of a recode whose labels repeat, with equal classes.
const RECODED: &str = r#"
version = 1
total = "1/2"
attribute = [{ name = "k", values = ["h", "d"] }, { name = "a", values = ["0", "1", "2"] }]
recode = [{ name = "r", of = "a", map = ["x", "y", "x"] }]
level = [
    { name = "n" },
    { name = "b", query = [{ name = "one", by = ["r", "k"], share = "1/3" }, { name = "two", by = ["k", "r"], share = "1/6" }] },
]
"#;

fn tells_levels_of_a_recode(rt: &impl Abort, schema: &Schema) {
    assert_eq!(rt; sizes(schema, 0), Some((0, 3, 0)));
    assert_eq!(rt; sizes(schema, 1), Some((2, 7, 8)));
    assert!(rt; is_named(schema, 1, 0, "one") && is_named(schema, 1, 1, "two"));
    assert_eq!(rt; paid(schema, 1, 0), Some((2, 1, 3)));
    assert_eq!(rt; paid(schema, 1, 1), Some((1, 1, 6)));
}

fn tells_classes_of_a_recode(rt: &impl Abort, schema: &Schema) {
    assert!(rt; has_classes(schema, 1, 0, &[0, 1, 3, 4]));
    assert!(rt; has_classes(schema, 1, 1, &[0, 1, 3, 4]));
    for (cell, first) in (0..6).zip([0, 1, 0, 3, 4, 3]) {
        assert_eq!(rt; class(schema, 1, 0, cell), Some(first));
        assert_eq!(rt; class(schema, 1, 1, cell), Some(first));
    }
}

#[test]
fn tells_a_recode(rt: HostRuntime) -> Result<(), Fail> {
    let schema = read_schema(rt.alloc(), RECODED.as_bytes())?;
    assert_eq!(rt; spent(&schema), (6, 1, 2));
    tells_levels_of_a_recode(&rt, &schema);
    tells_classes_of_a_recode(&rt, &schema);
    Ok(())
}

// A total and the shares of two queries; and the common denominator and the sum of the shares, or the fault.
const PAID: [(&str, &str, &str, Result<(u64, u64, u64), SchemaFault>); 3] = [
    ("1/2", "1/3", "1/6", Ok((6, 1, 2))),
    ("499/1000", "1/3", "1/6", Err(OverTotal)),
    ("1", "1/1048573", "1/2", Err(Denominator)),
];

// A schema of one cell whose block has two queries.
fn two_queries(alloc: Global, total: &str, one: &str, two: &str) -> Result<String, AllocError> {
    format!(in alloc;
        "version = 1\ntotal = '{total}'\nattribute = [{{name = 'kind', values = ['house']}}]\nlevel = [{{name = 'nation'}}, {{name = 'state'}}, {{name = 'block', query = [{{name = 'one', by = [], share = '{one}'}}, {{name = 'two', by = [], share = '{two}'}}]}}]"
    )
}

// The common denominator and the sum of the shares of a schema, or the fault of a text that is none.
fn spent_by(alloc: Global, text: &str) -> Result<(u64, u64, u64), SchemaFault>
    requires { length text.now ≤ 2 ^ 28 }
{
    let schema = read_schema(alloc, text.as_bytes())?;
    Ok(spent(&schema))
}

#[test]
fn tells_what_is_spent(rt: HostRuntime) -> Result<(), Fail> {
    for (total, one, two, due) in PAID {
        let text = two_queries(rt.alloc(), total, one, two)?;
        assert!(rt; text.len() <= 1000);
        assert!(rt; spent_by(rt.alloc(), &text) == due, "{text}");
    }
    Ok(())
}
