// Which documents are schemas, and which fault any other has.
ghost use Rattle.std.specs.Prelude.{◌≤◌, ◌^◌, length};

use std::alloc::{AllocError, Global};
use std::process::Abort;
use std::test::Fail;
use tda_fixtures::DEMO;
use tda_schema::SchemaFault::{self, *};
use tda_schema::read_schema;

// Keys that may be left out, arrays in line, and numbers in other forms.
const ACCEPTED: [&str; 4] = [
    DEMO,
    "version = 1\ntotal = '1'\nattribute = [{name = 'k', values = ['h']}]\nlevel = [{name = 'n'}, {name = 'b'}]",
    "version = 0x1\ntotal = '1'\nattribute = [{name = 'k', values = ['h']}]\nlevel = [{name = 'n', query = []}, {name = 'b'}]\nrecode = []\nzero = []",
    "version = +1\ntotal = \"\\u0031\"\n'attribute' = [{name = 'k', values = [\"h\",],},]\n[[level]]\nname = '1'\n[[level]]\nname = '2'",
];

// What is no document, and keys. A key that isn't listed is told before one that is missing earlier in the document, and
// both before a value of another type. What is no element of an array has no keys of its own, and so hasn't a zero row.
const KEYS: [(&str, SchemaFault); 19] = [
    ("version =", BadToml),
    ("version = 1\nversion = 1", BadToml),
    ("", MissingKey),
    (
        "version = 1\nattribute = [{name = 'k', values = ['h']}]\nlevel = [{name = 'n'}, {name = 'b'}]",
        MissingKey,
    ),
    (
        "version = 1\ntotal = '1'\nattribute = [{name = 'k', values = ['h']}]",
        MissingKey,
    ),
    (
        "version = 1\ntotal = '1'\nattribute = [{name = 'k'}]\nlevel = [{name = 'n'}, {name = 'b'}]",
        MissingKey,
    ),
    (
        "version = 1\ntotal = '1'\nattribute = [{name = 'k', values = ['h']}]\nlevel = [{name = 'n'}, {}]",
        MissingKey,
    ),
    (
        "version = 1\ntotal = '1'\nattribute = [{name = 'k', values = ['h']}]\nrecode = [{name = 'r', of = 'k'}]\nlevel = [{name = 'n'}, {name = 'b'}]",
        MissingKey,
    ),
    (
        "version = 1\ntotal = '1'\nattribute = [{name = 'k', values = ['h']}]\nlevel = [{name = 'n', query = [{name = 'q', by = []}]}, {name = 'b'}]",
        MissingKey,
    ),
    (
        "version = 1\ntotal = '1'\nattribute = [{name = 'k', values = ['h']}]\nlevel = [{name = 'n'}, {name = 'b'}]\nlevels = []",
        UnknownKey,
    ),
    (
        "version = 1\ntotal = '1'\nattribute = [{name = 'k', values = ['h'], value = 'h'}]\nlevel = [{name = 'n'}, {name = 'b'}]",
        UnknownKey,
    ),
    (
        "version = 1\ntotal = '1'\nattribute = [{name = 'k', values = ['h']}]\nrecode = [{name = 'r', of = 'k', map = ['x'], by = []}]\nlevel = [{name = 'n'}, {name = 'b'}]",
        UnknownKey,
    ),
    (
        "version = 1\ntotal = '1'\nattribute = [{name = 'k', values = ['h']}]\nlevel = [{name = 'n'}, {name = 'b', queries = []}]",
        UnknownKey,
    ),
    (
        "version = 1\ntotal = '1'\nattribute = [{name = 'k', values = ['h']}]\nlevel = [{name = 'n'}, {name = 'b', query = [{name = 'q', by = [], share = '1', only = {}}]}]",
        UnknownKey,
    ),
    (
        "attribute = [{}]\nlevel = [{name = 'n', query = [{name = 'q', by = [], share = '1', weight = 1}]}]",
        UnknownKey,
    ),
    (
        "version = 2\nlevel = [1, {name = 2, query = {}, key = 1}]",
        UnknownKey,
    ),
    (
        "version = 2\ntotal = '1'\nattribute = []\nlevel = [1, {}]",
        MissingKey,
    ),
    (
        "version = 1\ntotal = '1'\nattribute = []\nlevel = [{name = 'n', query = {key = 1}}]",
        WrongType,
    ),
    (
        "version = 1\ntotal = '1'\nattribute = [{name = 'k', values = ['h']}]\nlevel = [{name = 'n'}, {name = 'b'}]\nzero = [{key = 'h'}]",
        WrongType,
    ),
];

// Values of another type: a version that is no integer or another one, a table where an array of tables is wanted, by a
// dotted key, in line or under its header, and texts and arrays of texts.
const TYPES: [(&str, SchemaFault); 19] = [
    (
        "version = 2\ntotal = '1'\nattribute = []\nlevel = []",
        WrongType,
    ),
    (
        "version = 1.0\ntotal = '1'\nattribute = []\nlevel = []",
        WrongType,
    ),
    (
        "version = '1'\ntotal = '1'\nattribute = []\nlevel = []",
        WrongType,
    ),
    (
        "version = true\ntotal = '1'\nattribute = []\nlevel = []",
        WrongType,
    ),
    (
        "version = 1\ntotal = 1\nattribute = []\nlevel = []",
        WrongType,
    ),
    (
        "version = 1\ntotal = '1'\nattribute = {name = 'k', values = ['h']}\nlevel = []",
        WrongType,
    ),
    (
        "version = 1\ntotal = '1'\nattribute.name = 'k'\nattribute.values = ['h']\nlevel = []",
        WrongType,
    ),
    (
        "version = 1\ntotal = '1'\nattribute = []\n[level]\nname = 'n'",
        WrongType,
    ),
    (
        "version = 1\ntotal = '1'\nattribute = []\n[[level]]\nname = 'n'\n[level.query]\nname = 'q'",
        WrongType,
    ),
    (
        "version = 1\ntotal = '1'\nattribute = ['k']\nlevel = []",
        WrongType,
    ),
    (
        "version = 1\ntotal = '1'\nattribute = [{name = 'k', values = 'h'}]\nlevel = []",
        WrongType,
    ),
    (
        "version = 1\ntotal = '1'\nattribute = [{name = 'k', values = [1]}]\nlevel = []",
        WrongType,
    ),
    (
        "version = 1\ntotal = '1'\nattribute = []\nrecode = [{name = 'r', of = ['k'], map = []}]\nlevel = []",
        WrongType,
    ),
    (
        "version = 1\ntotal = '1'\nattribute = []\nrecode = [{name = 'r', of = 'k', map = [1]}]\nlevel = []",
        WrongType,
    ),
    (
        "version = 1\ntotal = '1'\nattribute = []\nzero = {}\nlevel = []",
        WrongType,
    ),
    (
        "version = 1\ntotal = '1'\nattribute = []\nzero = [{k = [1]}]\nlevel = []",
        WrongType,
    ),
    (
        "version = 1\ntotal = '1'\nattribute = []\nlevel = [{name = 1}]",
        WrongType,
    ),
    (
        "version = 1\ntotal = '1'\nattribute = []\nlevel = [{name = 'n', query = [{name = 'q', by = [], share = 1}]}]",
        WrongType,
    ),
    (
        "version = 1\ntotal = '1'\nattribute = []\nlevel = [{name = 'n', query = [{name = 'q', by = 'k', share = '1'}]}]",
        WrongType,
    ),
];

// Attributes, recodes and levels with names that are none, and names that stand twice. Names are judged before repetition,
// repetition before sizes. One name may serve as an attribute's, a value's, a level's and a query's, and labels may repeat.
const NAMES: [(&str, &str, &str, Option<SchemaFault>); 20] = [
    (
        "{name = 'k', values = ['k']}",
        "{name = 'r', of = 'k', map = ['k']}",
        "{name = 'k', query = [{name = 'k', by = ['k'], share = '1/2'}]}, {name = 'b'}",
        None,
    ),
    (
        "{name = 'k', values = ['h', 'd']}",
        "{name = 'r', of = 'k', map = ['x', 'x']}",
        "{name = 'n', query = [{name = 'q', by = [], share = '1/2'}]}, {name = 'b', query = [{name = 'q', by = [], share = '1/2'}]}",
        None,
    ),
    (
        "{name = 'a23456789.123456789-123456789_1+', values = ['0']}",
        "",
        "{name = 'n'}, {name = 'b'}",
        None,
    ),
    (
        "{name = 'a23456789.123456789-123456789_1+4', values = ['0']}",
        "",
        "{name = 'n'}, {name = 'b'}",
        Some(BadName),
    ),
    (
        "{name = '', values = ['h']}",
        "",
        "{name = 'n'}, {name = 'b'}",
        Some(BadName),
    ),
    (
        "{name = 'k', values = ['-h']}",
        "",
        "{name = 'n'}, {name = 'b'}",
        Some(BadName),
    ),
    (
        "{name = 'k', values = ['h']}",
        "{name = 'r s', of = 'k', map = ['h']}",
        "{name = 'n'}, {name = 'b'}",
        Some(BadName),
    ),
    (
        "{name = 'k', values = ['h']}",
        "{name = 'r', of = 'k', map = ['h/d']}",
        "{name = 'n'}, {name = 'b'}",
        Some(BadName),
    ),
    (
        "{name = 'k', values = ['h']}",
        "",
        "{name = 'n'}, {name = 'é'}",
        Some(BadName),
    ),
    (
        "{name = 'k', values = ['h']}",
        "",
        "{name = 'n', query = [{name = '_', by = [], share = '1'}]}, {name = 'b'}",
        Some(BadName),
    ),
    (
        "{name = 'k', values = ['h', 'h']}, {name = '-', values = []}",
        "",
        "{name = 'n'}",
        Some(BadName),
    ),
    (
        "{name = 'k', values = ['h', 'd', 'h']}",
        "",
        "{name = 'n'}",
        Some(Repeated),
    ),
    (
        "{name = 'k', values = ['h']}, {name = 'k', values = ['h']}",
        "",
        "{name = 'n'}, {name = 'b'}",
        Some(Repeated),
    ),
    (
        "{name = 'k', values = ['h']}",
        "{name = 'k', of = 'k', map = ['h']}",
        "{name = 'n'}, {name = 'b'}",
        Some(Repeated),
    ),
    (
        "{name = 'k', values = ['h']}",
        "{name = 'r', of = 'k', map = ['h']}, {name = 'r', of = 'k', map = ['h']}",
        "{name = 'n'}, {name = 'b'}",
        Some(Repeated),
    ),
    (
        "{name = 'k', values = ['h']}",
        "",
        "{name = 'n'}, {name = 'b'}, {name = 'n'}",
        Some(Repeated),
    ),
    (
        "{name = 'k', values = ['h']}",
        "",
        "{name = 'n', query = [{name = 'q', by = [], share = '1'}, {name = 'q', by = ['k'], share = '1'}]}, {name = 'b'}",
        Some(Repeated),
    ),
    (
        "{name = 'k', values = ['h']}",
        "",
        "{name = 'n'}",
        Some(BadSize),
    ),
    (
        "{name = 'k', values = []}",
        "",
        "{name = 'n'}, {name = 'b'}",
        Some(BadSize),
    ),
    (
        "",
        "{name = 'r', of = 'k', map = []}",
        "{name = 'n'}, {name = 'b'}",
        Some(BadSize),
    ),
];

// Recodes, zero rows and queries over the attributes `k` with the values `h` and `d`, and `a` with `0`, `1` and `2`.
// Entries of a query that concern one attribute are told before a map of the wrong length, and that before unknown names;
// an entry that names a recode concerns what the recode's `of` says, also where that is no attribute.
const REFERENCES: [(&str, &str, &str, Option<SchemaFault>); 31] = [
    (
        "{name = 'r', of = 'a', map = ['x', 'y', 'x']}",
        "{a = ['0', '0'], k = ['d']}",
        "{name = 'q', by = ['r', 'k'], share = '1'}",
        None,
    ),
    ("", "{k = []}, {a = ['2']}", "", None),
    (
        "",
        "",
        "{name = 'q', by = ['k', 'k'], share = '1'}",
        Some(Repeated),
    ),
    (
        "{name = 'r', of = 'a', map = ['x', 'y', 'x']}",
        "",
        "{name = 'q', by = ['a', 'k', 'r'], share = '1'}",
        Some(Repeated),
    ),
    (
        "{name = 'r', of = 'a', map = ['x', 'y', 'x']}, {name = 's', of = 'a', map = ['x']}",
        "",
        "{name = 'q', by = ['s', 'r'], share = '1'}",
        Some(Repeated),
    ),
    (
        "{name = 'r', of = 'z', map = ['x']}",
        "",
        "{name = 'q', by = ['r', 'z'], share = '1'}",
        Some(Repeated),
    ),
    (
        "{name = 'r', of = 's', map = ['x']}, {name = 's', of = 'a', map = ['x', 'y', 'x']}",
        "",
        "{name = 'q', by = ['r', 's'], share = '1'}",
        Some(UnknownName),
    ),
    (
        "{name = 'r', of = 'a', map = ['x', 'y']}",
        "{z = ['0']}",
        "",
        Some(BadSize),
    ),
    (
        "{name = 'r', of = 'a', map = ['x', 'y', 'x', 'y']}",
        "",
        "",
        Some(BadSize),
    ),
    (
        "{name = 'r', of = 'z', map = ['x', 'y', 'x', 'y']}",
        "",
        "",
        Some(UnknownName),
    ),
    (
        "{name = 'r', of = 'r', map = ['x', 'y', 'x']}",
        "",
        "",
        Some(UnknownName),
    ),
    ("", "{z = []}", "", Some(UnknownName)),
    (
        "{name = 'r', of = 'a', map = ['x', 'y', 'x']}",
        "{r = ['x']}",
        "",
        Some(UnknownName),
    ),
    ("", "{a = ['0', '3']}", "", Some(UnknownName)),
    ("", "{k = ['0']}", "", Some(UnknownName)),
    ("", "{a = ['']}", "", Some(UnknownName)),
    ("", "{name = ['k']}", "", Some(UnknownName)),
    (
        "",
        "",
        "{name = 'q', by = ['z'], share = '1'}",
        Some(UnknownName),
    ),
    (
        "",
        "",
        "{name = 'q', by = ['k', ''], share = '0'}",
        Some(UnknownName),
    ),
    // A recode's classes cross no kind where its attribute is the kind.
    (
        "{name = 'r', of = 'k', map = ['x', 'x']}",
        "",
        "{name = 'p', by = ['r'], share = '1/2'}, {name = 'q', by = ['k', 'a'], share = '1/2'}",
        None,
    ),
    // Classes by age cross the kinds, and so the groups, unless there is one kind in each, or one cell.
    (
        "",
        "",
        "{name = 'q', by = ['a'], share = '1'}",
        Some(NotNested),
    ),
    (
        "",
        "{k = ['d'], a = ['0', '2']}, {k = ['h'], a = ['1']}",
        "{name = 'q', by = ['a'], share = '1'}",
        None,
    ),
    (
        "{name = 'r', of = 'a', map = ['x', 'x', 'y']}, {name = 's', of = 'a', map = ['x', 'y', 'y']}",
        "",
        "{name = 'p', by = ['k', 'r'], share = '1/2'}, {name = 'q', by = ['k', 's'], share = '1/2'}",
        Some(NotNested),
    ),
    (
        "{name = 'r', of = 'a', map = ['x', 'x', 'y']}, {name = 's', of = 'a', map = ['x', 'y', 'y']}",
        "{a = ['1']}",
        "{name = 'p', by = ['k', 'r'], share = '1/2'}, {name = 'q', by = ['k', 's'], share = '1/2'}",
        None,
    ),
    // Equal classes, of queries and of a kind, are one group.
    (
        "{name = 'r', of = 'k', map = ['x', 'y']}",
        "",
        "{name = 'p', by = ['r'], share = '1/2'}, {name = 'q', by = ['k'], share = '1/2'}",
        None,
    ),
    // A key without values matches no cell, and so its row none.
    (
        "",
        "{k = ['h', 'd'], a = []}",
        "{name = 'q', by = ['a'], share = '1'}",
        Some(NotNested),
    ),
    // Groups that aren't nested are told before a kind without a cell.
    (
        "{name = 'r', of = 'a', map = ['x', 'x', 'y']}, {name = 's', of = 'a', map = ['x', 'y', 'y']}",
        "{k = ['d']}",
        "{name = 'p', by = ['r'], share = '1/2'}, {name = 'q', by = ['s'], share = '1/2'}",
        Some(NotNested),
    ),
    // A kind without a cell, by a row for it, by rows for its cells, and by a row that matches each cell.
    ("", "{k = ['d']}", "", Some(KindWithoutCell)),
    (
        "",
        "{k = ['h', 'd'], a = ['0']}, {k = ['h'], a = ['2', '1']}",
        "{name = 'q', by = ['a'], share = '1'}",
        Some(KindWithoutCell),
    ),
    ("", "{}", "", Some(KindWithoutCell)),
    (
        "",
        "{}",
        "{name = 'q', by = ['a'], share = '2'}",
        Some(OverTotal),
    ),
];

// A total, and the shares of queries.
const SHARES: [(&str, &[&str], Option<SchemaFault>); 45] = [
    ("1", &[], None),
    ("0", &[], None),
    ("16", &["16/1"], None),
    ("1", &["2/4", "1/2"], None),
    ("1/2", &["1/3", "1/6"], None),
    ("1/3", &["1/3"], None),
    ("2/6", &["3/9"], None),
    ("0/1048577", &[], None),
    ("1/1048576", &[], None),
    ("1", &["1/1048576"], None),
    ("1", &["2/2097152", "3/4"], None),
    ("2097152/2097152", &["1/2"], None),
    ("16", &["2", "2", "2", "2", "2", "2", "2", "2"], None),
    ("17", &[], Some(BadShare)),
    ("33/2", &[], Some(BadShare)),
    ("", &[], Some(BadShare)),
    ("a", &[], Some(BadShare)),
    ("-1", &[], Some(BadShare)),
    ("1.0", &[], Some(BadShare)),
    ("1/0", &[], Some(BadShare)),
    ("0/0", &[], Some(BadShare)),
    ("01", &[], Some(BadShare)),
    ("1/", &[], Some(BadShare)),
    ("1/2/3", &[], Some(BadShare)),
    ("1 ", &[], Some(BadShare)),
    ("+1", &[], Some(BadShare)),
    (
        "18446744073709551616/18446744073709551616",
        &[],
        Some(BadShare),
    ),
    ("16", &["17"], Some(BadShare)),
    ("16", &["16000001/1000000"], Some(BadShare)),
    ("16", &["0"], Some(BadShare)),
    ("16", &["0/5"], Some(BadShare)),
    ("16", &["1", "1/01"], Some(BadShare)),
    ("1/2", &["1", "x"], Some(BadShare)),
    ("17", &["1/1048577"], Some(BadShare)),
    ("1/1048577", &[], Some(Denominator)),
    ("1", &["1/1048577"], Some(Denominator)),
    ("1", &["1/1048573", "1/2"], Some(Denominator)),
    ("1/2", &["1", "1/1048577"], Some(Denominator)),
    (
        "1",
        &[
            "1/1021", "1/1019", "1/1013", "1/1009", "1/997", "1/991", "1/983", "1/977",
        ],
        Some(Denominator),
    ),
    (
        "1",
        &["1/18446744073709551615", "1/18446744073709551614"],
        Some(Denominator),
    ),
    ("499/1000", &["1/3", "1/6"], Some(OverTotal)),
    ("0", &["1/1048576"], Some(OverTotal)),
    ("1", &["1/2", "1/2", "1/1048576"], Some(OverTotal)),
    ("1/1048575", &["1/1048574"], Some(OverTotal)),
    (
        "15",
        &["2", "2", "2", "2", "2", "2", "2", "2"],
        Some(OverTotal),
    ),
];

// How many values each attribute has, how many recodes, zero rows, levels, and queries of the first level there are: sizes
// at their limits and past them.
const SIZES: [(&[u16], u16, u16, u16, u16, Option<SchemaFault>); 22] = [
    (&[1], 0, 0, 2, 0, None),
    (&[128], 0, 0, 7, 8, None),
    (&[128, 32], 64, 4096, 2, 0, None),
    (&[64, 64], 0, 0, 2, 0, None),
    (&[4, 4, 4, 4, 2, 2, 2, 2], 0, 0, 2, 0, None),
    (&[1, 1, 1, 1, 1, 1, 1, 1], 0, 0, 2, 0, None),
    (&[], 0, 0, 2, 0, Some(BadSize)),
    (&[1, 1, 1, 1, 1, 1, 1, 1, 1], 0, 0, 2, 0, Some(BadSize)),
    (&[0], 0, 0, 2, 0, Some(BadSize)),
    (&[2, 0], 0, 0, 2, 0, Some(BadSize)),
    (&[129], 0, 0, 2, 0, Some(BadSize)),
    (&[41, 100], 0, 0, 2, 0, Some(BadSize)),
    (&[128, 33], 0, 0, 2, 0, Some(BadSize)),
    (
        &[128, 128, 128, 128, 128, 128, 128, 128],
        0,
        0,
        2,
        0,
        Some(BadSize),
    ),
    (&[3], 65, 0, 2, 0, Some(BadSize)),
    (&[3], 0, 4097, 2, 0, Some(BadSize)),
    (&[3], 0, 0, 0, 0, Some(BadSize)),
    (&[3], 0, 0, 1, 0, Some(BadSize)),
    (&[3], 0, 0, 8, 0, Some(BadSize)),
    (&[3], 0, 0, 2, 9, Some(BadSize)),
    (&[3], 65, 4097, 8, 9, Some(BadSize)),
    (&[1], 64, 4096, 7, 8, None),
];

fn named(
    alloc: Global,
    attributes: &str,
    recodes: &str,
    levels: &str,
) -> Result<String, AllocError> {
    format!(in alloc;
        "version = 1\ntotal = '1'\nattribute = [{attributes}]\nrecode = [{recodes}]\nlevel = [{levels}]"
    )
}

fn referring(
    alloc: Global,
    recodes: &str,
    zeros: &str,
    queries: &str,
) -> Result<String, AllocError> {
    let attributes = "{name = 'k', values = ['h', 'd']}, {name = 'a', values = ['0', '1', '2']}";
    format!(in alloc;
        "version = 1\ntotal = '1'\nattribute = [{attributes}]\nrecode = [{recodes}]\nzero = [{zeros}]\nlevel = [{{name = 'n', query = [{queries}]}}, {{name = 'b'}}]"
    )
}

fn paying(alloc: Global, total: &str, shares: &[&str]) -> Result<String, AllocError> {
    let mut queries = String::new(alloc);
    for (number, share) in shares.iter().enumerate() {
        write!(
            queries,
            "{{name = 'q{number}', by = [], share = '{share}'}},"
        )?;
    }
    format!(in alloc;
        "version = 1\ntotal = '{total}'\nattribute = [{{name = 'k', values = ['h']}}]\nlevel = [{{name = 'n', query = [{queries}]}}, {{name = 'b'}}]"
    )
}

fn push_attributes(text: &mut String, values: &[u16]) -> Result<(), AllocError> {
    for (number, count) in values.iter().enumerate() {
        write!(text, "[[attribute]]\nname = 'a{number}'\nvalues = [")?;
        for value in 0..*count {
            write!(text, "'{value}',")?;
        }
        text.push_str("]\n")?;
    }
    Ok(())
}

fn push_recodes(text: &mut String, recodes: u16, labels: u16) -> Result<(), AllocError> {
    for number in 0..recodes {
        write!(text, "[[recode]]\nname = 'r{number}'\nof = 'a0'\nmap = [")?;
        for label in 0..labels {
            write!(text, "'{label}',")?;
        }
        text.push_str("]\n")?;
    }
    Ok(())
}

fn push_levels(text: &mut String, levels: u16, queries: u16) -> Result<(), AllocError> {
    for number in 0..levels {
        write!(text, "[[level]]\nname = 'l{number}'\n")?;
        if number == 0 {
            for query in 0..queries {
                write!(
                    text,
                    "[[level.query]]\nname = 'q{query}'\nby = []\nshare = '1/8'\n"
                )?;
            }
        }
    }
    Ok(())
}

fn sized(
    alloc: Global,
    values: &[u16],
    recodes: u16,
    zeros: u16,
    levels: u16,
    queries: u16,
) -> Result<String, AllocError> {
    let mut text = String::from_str(alloc, "version = 1\ntotal = '1'\n")?;
    if values.is_empty() {
        text.push_str("attribute = []\n")?;
    }
    if levels == 0 {
        text.push_str("level = []\n")?;
    }
    push_attributes(&mut text, values)?;
    push_recodes(&mut text, recodes, values.first().copied().unwrap_or(0))?;
    for _ in 0..zeros {
        text.push_str("[[zero]]\na0 = []\n")?;
    }
    push_levels(&mut text, levels, queries)?;
    Ok(text)
}

// The fault of a text that is no schema.
fn fault_of(alloc: Global, text: &[u8]) -> Option<SchemaFault>
    requires { length text.now ≤ 2 ^ 28 }
{
    read_schema(alloc, text).err()
}

// The same of a text whose length is looked at.
fn fault_of_any(alloc: Global, text: &str) -> Result<Option<SchemaFault>, Fail> {
    if text.len() > 1_000_000 {
        return Err("a text that is too long".into());
    }
    Ok(fault_of(alloc, text.as_bytes()))
}

fn are_refused(rt: &impl Abort, alloc: Global, rows: &[(&str, SchemaFault)]) -> Result<(), Fail> {
    for (number, (text, due)) in rows.iter().enumerate() {
        let fault = fault_of_any(alloc, text)?;
        assert!(rt; fault == Some(*due), "document {number}");
    }
    Ok(())
}

fn are_accepted(rt: &impl Abort, alloc: Global, rows: &[&str]) -> Result<(), Fail> {
    for (number, text) in rows.iter().enumerate() {
        let fault = fault_of_any(alloc, text)?;
        assert!(rt; fault == None, "document {number}");
    }
    Ok(())
}

#[test]
fn tells_keys_and_types(rt: HostRuntime) -> Result<(), Fail> {
    are_refused(&rt, rt.alloc(), &KEYS)?;
    are_refused(&rt, rt.alloc(), &TYPES)?;
    assert!(rt; fault_of(rt.alloc(), &[0xff]) == Some(BadToml));
    are_accepted(&rt, rt.alloc(), &ACCEPTED)
}

#[test]
fn tells_names(rt: HostRuntime) -> Result<(), Fail> {
    for (number, (attributes, recodes, levels, due)) in NAMES.iter().enumerate() {
        let text = named(rt.alloc(), attributes, recodes, levels)?;
        let fault = fault_of_any(rt.alloc(), &text)?;
        assert!(rt; fault == *due, "document {number}");
    }
    Ok(())
}

#[test]
fn tells_references(rt: HostRuntime) -> Result<(), Fail> {
    for (number, (recodes, zeros, queries, due)) in REFERENCES.iter().enumerate() {
        let text = referring(rt.alloc(), recodes, zeros, queries)?;
        let fault = fault_of_any(rt.alloc(), &text)?;
        assert!(rt; fault == *due, "document {number}");
    }
    Ok(())
}

#[test]
fn tells_shares(rt: HostRuntime) -> Result<(), Fail> {
    for (number, (total, shares, due)) in SHARES.iter().enumerate() {
        let text = paying(rt.alloc(), total, shares)?;
        let fault = fault_of_any(rt.alloc(), &text)?;
        assert!(rt; fault == *due, "document {number}");
    }
    Ok(())
}

#[test]
fn tells_sizes(rt: HostRuntime) -> Result<(), Fail> {
    for (number, (values, recodes, zeros, levels, queries, due)) in SIZES.iter().enumerate() {
        let text = sized(rt.alloc(), values, *recodes, *zeros, *levels, *queries)?;
        let fault = fault_of_any(rt.alloc(), &text)?;
        assert!(rt; fault == *due, "document {number}");
    }
    Ok(())
}
