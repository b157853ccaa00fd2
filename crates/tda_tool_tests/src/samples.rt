// Files and runs that the tests share.
ghost use Rattle.std.specs.Prelude.{◌≡◌, IfOk};

use std::alloc::Global;
use std::test::Fail;
use tda_io::{MemFile, MemInbox, MemOutbox};
use tda_tool::tool;

// The words of `fit`.
pub(crate) const FIT: &str =
    "fit --schema a --spine b --facilities c --totals d --measurements e --tables t --prices p";

// The words of `measure` but for the source of its words.
pub(crate) const MEASURE: &str =
    "measure --schema a --spine b --facilities c --records d --measurements m --totals t --ledger l";

// The words of `run` but for the source of its words.
pub(crate) const RUN: &str =
    "run --schema a --spine b --facilities c --records d --measurements m --totals t --ledger l --tables x --prices p";

pub(crate) const SCHEMA: &str =
    "version = 1\ntotal = \"1\"\n\n[[attribute]]\nname = \"kind\"\nvalues = [\"house\"]\n\n[[level]]\nname = \"nation\"\n\n[[level]]\nname = \"state\"\n\n[[level]]\nname = \"block\"\n";

// One household cell, and the total of each block measured with share 1.
pub(crate) const HOUSES: &str =
    "version = 1\ntotal = \"1\"\n\n[[attribute]]\nname = \"kind\"\nvalues = [\"house\"]\n\n[[level]]\nname = \"nation\"\n\n[[level]]\nname = \"state\"\n\n[[level]]\nname = \"block\"\nquery = [{ name = \"total\", by = [], share = \"1\" }]\n";

pub(crate) const RECORDS: &str = "block,kind\nB1,house\nB1,house\nB2,house\nB2,house\nB2,house\n";

// Six words that give the noise 1, twice.
pub(crate) const ONES: [u8; 48] = [
    1, 0, 0, 0, 1, 0, 0, 0, 0, 0, 0, 0, 1, 0, 0, 0, 1, 0, 0, 0, 7, 0, 0, 0, 1, 0, 0, 0, 1, 0, 0, 0,
    0, 0, 0, 0, 1, 0, 0, 0, 1, 0, 0, 0, 7, 0, 0, 0,
];

// Twice the six words that give the noise -1.
pub(crate) const MINUS_ONES: [u8; 48] = [
    1, 0, 0, 0, 1, 0, 0, 0, 0, 0, 0, 0, 1, 0, 0, 0, 0, 0, 0, 0, 7, 0, 0, 0, 1, 0, 0, 0, 1, 0, 0, 0,
    0, 0, 0, 0, 1, 0, 0, 0, 0, 0, 0, 0, 7, 0, 0, 0,
];

// Two kinds of quarters, and a state whose first block has a dormitory.
pub(crate) const DORMITORY: &str =
    "version = 1\ntotal = \"1\"\n\n[[attribute]]\nname = \"kind\"\nvalues = [\"house\", \"dorm\"]\n\n[[level]]\nname = \"nation\"\nquery = [{ name = \"kind\", by = [\"kind\"], share = \"1/2\" }]\n\n[[level]]\nname = \"state\"\n\n[[level]]\nname = \"block\"\nquery = [{ name = \"kind\", by = [\"kind\"], share = \"1/2\" }]\n";

// With two sexes, of whom one has no dormitory: each kind's persons are in its first possible cell.
pub(crate) const WOMEN: &str =
    "version = 1\ntotal = \"1\"\nattribute = [{ name = \"kind\", values = [\"house\", \"dorm\"] }, { name = \"sex\", values = [\"f\", \"m\"] }]\nzero = [{ kind = [\"dorm\"], sex = [\"f\"] }]\nlevel = [{ name = \"nation\" }, { name = \"state\" }, { name = \"block\" }]\n";

pub(crate) const SPINE: &str =
    "unit,level,parent\nUS,nation,\nS1,state,US\nB1,block,S1\nB2,block,S1\n";

pub(crate) const CHILDLESS: &str = "unit,level,parent\nUS,nation,\nS1,state,US\n";

pub(crate) const FACILITIES: &str = "block,kind,count\n";

pub(crate) const DORM: &str = "block,kind,count\nB1,dorm,2\n";

// The words between spaces.
pub(crate) fn words_of(alloc: Global, line: &str) -> Result<Vec<String>, Fail> {
    if line.is_empty() {
        return Ok(Vec::new(alloc));
    }
    let mut words = Vec::new(alloc);
    for word in line.split(' ') {
        words.push(String::from_str(alloc, word)?)?;
    }
    Ok(words)
}

// An inbox with these files under the names `a`, `b`, `c` and so on, whose read of this number fails.
pub(crate) fn inbox_of(alloc: Global, files: &[&[u8]], fail: u64) -> Result<MemInbox, Fail>
    ensures { IfOk result (λ inbox. inbox.faults ≡ 0) }
{
    let mut held = Vec::new(alloc);
    for (name, bytes) in ["a", "b", "c", "d", "e", "f", "g"].into_iter().zip(files) {
        held.push(MemFile {
            name: String::from_str(alloc, name)?,
            bytes: bytes.to_vec(alloc)?,
        })?;
    }
    Ok(MemInbox::new(alloc, held, vec![in alloc; fail]?))
}

// The status, and each name that was begun with its text.
pub(crate) fn shown(
    alloc: Global,
    line: &str,
    files: &[&[u8]],
    fail_read: u64,
    fail_write: u64,
) -> Result<String, Fail> {
    shown_but(alloc, line, files, "", fail_read, fail_write)
}

// The same without the text of one name.
pub(crate) fn shown_but(
    alloc: Global,
    line: &str,
    files: &[&[u8]],
    hidden: &str,
    fail_read: u64,
    fail_write: u64,
) -> Result<String, Fail> {
    let words = words_of(alloc, line)?;
    let mut inbox = inbox_of(alloc, files, fail_read)?;
    let mut outbox = MemOutbox::new(alloc, vec![in alloc; fail_write]?);
    let status = tool(alloc, &words, &mut inbox, &mut outbox);
    let mut shown = format!(in alloc; "{status}")?;
    for file in outbox.files() {
        shown.push_str("|")?;
        shown.push_str(file.name.as_str())?;
        if file.name.as_str() != hidden {
            shown.push_str("=")?;
            shown.push_str(std::str::from_utf8(file.bytes.as_slice()).unwrap_or("no text"))?;
        }
    }
    Ok(shown)
}
