// Audits of what `fit` and `run` read and wrote.
use crate::samples::{
    DORM, DORMITORY, FACILITIES, FIT, HOUSES, MINUS_ONES, ONES, RECORDS, RUN, SPINE, inbox_of,
    words_of,
};
use std::alloc::Global;
use std::test::Fail;
use tda_io::{MemFile, MemInbox, MemOutbox};
use tda_tool::tool;

const AFTER_FIT: &str =
    "audit --schema a --spine b --facilities c --totals d --measurements e --tables t --prices p";

const AFTER_RUN: &str =
    "audit --schema a --spine b --facilities c --totals t --measurements m --tables x --prices p";

// These files, and those that the command wrote which read them.
fn files_after(alloc: Global, line: &str, files: &[&[u8]]) -> Result<Vec<MemFile>, Fail> {
    let words = words_of(alloc, line)?;
    let mut inbox = inbox_of(alloc, files, 0)?;
    let mut outbox = MemOutbox::new(alloc, vec![in alloc; 0]?);
    let _ = tool(alloc, &words, &mut inbox, &mut outbox);
    let mut held = Vec::new(alloc);
    for (name, bytes) in ["a", "b", "c", "d", "e"].into_iter().zip(files) {
        held.push(MemFile {
            name: String::from_str(alloc, name)?,
            bytes: bytes.to_vec(alloc)?,
        })?;
    }
    for file in outbox.files() {
        held.push(MemFile {
            name: String::from_str(alloc, file.name.as_str())?,
            bytes: file.bytes.to_vec(alloc)?,
        })?;
    }
    Ok(held)
}

// What an audit of these files ends with: its status and its report.
fn answer(alloc: Global, line: &str, held: Vec<MemFile>) -> Result<String, Fail> {
    let words = words_of(alloc, line)?;
    let mut inbox = MemInbox::new(alloc, held, vec![in alloc; 0]?);
    let mut outbox = MemOutbox::new(alloc, vec![in alloc; 0]?);
    let status = tool(alloc, &words, &mut inbox, &mut outbox);
    let mut shown = format!(in alloc; "{status} ")?;
    for file in outbox.files() {
        shown.push_str(std::str::from_utf8(file.bytes.as_slice()).unwrap_or("no text"))?;
    }
    Ok(shown)
}

#[test]
fn an_audit_of_what_fit_wrote_says_yes(rt: HostRuntime) -> Result<(), Fail> {
    let table = [
        (
            [
                HOUSES,
                FACILITIES,
                "unit,query,class,value\nB1,total,0,3\nB2,total,0,4\n",
            ],
            "0 ok audit fits=3 deviation=2\n",
        ),
        (
            [
                DORMITORY,
                DORM,
                "unit,query,class,value\nUS,kind,0,3\nUS,kind,1,2\nB1,kind,0,3\nB1,kind,1,-10\nB2,kind,0,2\nB2,kind,1,0\n",
            ],
            "0 ok audit fits=3 deviation=146\n",
        ),
    ];
    for ([schema, facilities, measured], want) in table {
        let alloc = rt.alloc();
        let files: [&[u8]; 5] = [
            schema.as_bytes(),
            SPINE.as_bytes(),
            facilities.as_bytes(),
            b"state,total\nS1,5\n",
            measured.as_bytes(),
        ];
        let held = files_after(alloc, FIT, &files)?;
        let shown = answer(alloc, AFTER_FIT, held)?;
        assert_eq!(rt; shown.as_str(), want);
    }
    Ok(())
}

#[test]
fn an_audit_of_what_run_wrote_says_yes(rt: HostRuntime) -> Result<(), Fail> {
    let table: [(&str, &[u8]); 2] = [(RECORDS, &ONES), ("block,kind\n", &MINUS_ONES)];
    for (records, words) in table {
        let alloc = rt.alloc();
        let line = format!(in alloc; "{RUN} --words e")?;
        let files: [&[u8]; 5] = [
            HOUSES.as_bytes(),
            SPINE.as_bytes(),
            FACILITIES.as_bytes(),
            records.as_bytes(),
            words,
        ];
        let held = files_after(alloc, line.as_str(), &files)?;
        let shown = answer(alloc, AFTER_RUN, held)?;
        assert_eq!(rt; shown.as_str(), "0 ok audit fits=3 deviation=2\n");
    }
    Ok(())
}
