// Runs of `run`.
use crate::samples::{FACILITIES, HOUSES, MINUS_ONES, ONES, RECORDS, RUN, SPINE, shown_but};
use std::alloc::Global;
use std::test::Fail;

// What a command with these words comes to on the houses, records, and words or a seed. Prices aren't shown: others would do.
fn ran_by(
    alloc: Global,
    line: &str,
    records: &str,
    words: &[u8],
    fail_read: u64,
    fail_write: u64,
) -> Result<String, Fail> {
    let files = [
        HOUSES.as_bytes(),
        SPINE.as_bytes(),
        FACILITIES.as_bytes(),
        records.as_bytes(),
        words,
    ];
    shown_but(alloc, line, &files, "p", fail_read, fail_write)
}

// The same with a file of words.
fn ran(
    alloc: Global,
    records: &str,
    words: &[u8],
    fail_read: u64,
    fail_write: u64,
) -> Result<String, Fail> {
    let line = format!(in alloc; "{RUN} --words e")?;
    ran_by(alloc, line.as_str(), records, words, fail_read, fail_write)
}

// A release of the five persons, each block measured one too many, without its prices and its report.
const RELEASE: &str =
    "m=unit,query,class,value\nB1,total,0,3\nB2,total,0,4\n|t=state,total\nS1,5\n|l=level,query,share\nblock,total,1/1\n-,spent,1/1\n-,total,1/1\n|x=unit,cell,count\nUS,0,5\nS1,0,5\nB1,0,2\nB2,0,3\n|p";

#[test]
fn run_releases_what_it_measures(rt: HostRuntime) -> Result<(), Fail> {
    let shown = ran(rt.alloc(), RECORDS, &ONES, 0, 0)?;
    let alloc = rt.alloc();
    let want = format!(in alloc;
        "0|{RELEASE}|-=ok run places=2 spent=1/1 words=12 fits=3 deviation=2\n"
    )?;
    assert!(rt; shown.as_str() == want.as_str());
    Ok(())
}

#[test]
fn nobody_is_released_where_nobody_lives(rt: HostRuntime) -> Result<(), Fail> {
    let shown = ran(rt.alloc(), "block,kind\n", &MINUS_ONES, 0, 0)?;
    assert_eq!(rt;
        shown.as_str(),
        "0|m=unit,query,class,value\nB1,total,0,-1\nB2,total,0,-1\n|t=state,total\nS1,0\n|l=level,query,share\nblock,total,1/1\n-,spent,1/1\n-,total,1/1\n|x=unit,cell,count\n|p|-=ok run places=2 spent=1/1 words=12 fits=3 deviation=2\n"
    );
    Ok(())
}

// Words of the noise, or a seed, that aren't accepted or don't suffice.
#[test]
fn run_needs_words_enough(rt: HostRuntime) -> Result<(), Fail> {
    let words = [
        (&ONES[..0], "6|-=out of words B1 total 0\n"),
        (&ONES[..3], "3|-=refused words BadLength\n"),
        (&ONES[..44], "6|-=out of words B2 total 0\n"),
    ];
    for (bytes, want) in words {
        let shown = ran(rt.alloc(), RECORDS, bytes, 0, 0)?;
        assert_eq!(rt; shown.as_str(), want);
    }
    let seeds = [
        (&ONES[..33], "3|-=refused seed TooLong\n"),
        (&ONES[..31], "3|-=refused seed BadLength\n"),
        (&ONES[..32], "6|-=out of words B1 total 0\n"),
    ];
    for (bytes, want) in seeds {
        let alloc = rt.alloc();
        let line = format!(in alloc; "{RUN} --seed e --place 0 --budget 0")?;
        let shown = ran_by(alloc, line.as_str(), RECORDS, bytes, 0, 0)?;
        assert_eq!(rt; shown.as_str(), want);
    }
    Ok(())
}

#[test]
fn each_failing_read_of_run_has_its_status(rt: HostRuntime) -> Result<(), Fail> {
    let table = [
        (1, "4|-=read schema\n"),
        (2, "4|-=read spine\n"),
        (3, "4|-=read facilities\n"),
        (4, "4|-=read records\n"),
        (5, "4|-=read words\n"),
    ];
    for (read, want) in table {
        let shown = ran(rt.alloc(), RECORDS, &ONES, read, 0)?;
        assert_eq!(rt; shown.as_str(), want, "at {read}");
    }
    Ok(())
}

// The report is begun only after the prices have ended, with the sixteenth call.
#[test]
fn each_failing_write_of_run_leaves_the_first_outputs(rt: HostRuntime) -> Result<(), Fail> {
    let alloc = rt.alloc();
    let all = format!(in alloc; "5|{RELEASE}")?;
    for write in 1..19 {
        let shown = ran(rt.alloc(), RECORDS, &ONES, 0, write)?;
        let with_report = shown.as_str().strip_prefix(all.as_str());
        match with_report {
            Some(report) => assert!(rt;
                write >= 14 && (report.is_empty() || write > 16),
                "at {write}"
            ),
            None => assert!(rt;
                write < 14 && all.as_str().starts_with(shown.as_str()),
                "at {write}"
            ),
        }
    }
    let third = ran(rt.alloc(), RECORDS, &ONES, 0, 3)?;
    assert_eq!(rt;
        third.as_str(),
        "5|m=unit,query,class,value\nB1,total,0,3\nB2,total,0,4\n"
    );
    Ok(())
}

// Two outputs of one name; an output over an input; an output that is left out.
#[test]
fn other_words_of_run_are_no_command(rt: HostRuntime) -> Result<(), Fail> {
    let table = [
        "run --schema a --spine b --facilities c --records d --words e --measurements m --totals m --ledger l --tables x --prices p",
        "run --schema a --spine b --facilities c --records d --words e --measurements m --totals t --ledger l --tables d --prices p",
        "run --schema a --spine b --facilities c --records d --words e --measurements m --totals t --ledger l --tables x",
        "run --schema a --spine b --facilities c --records d --measurements m --totals t --ledger l --tables x --prices p",
    ];
    for line in table {
        let shown = ran_by(rt.alloc(), line, RECORDS, &ONES, 0, 0)?;
        assert_eq!(rt; shown.as_str(), "2|-=words\n", "at {line}");
    }
    Ok(())
}
