// Runs of `measure`.
ghost use Rattle.std.specs.Prelude.{◌≤◌};

use crate::samples::{
    CHILDLESS, DORM, DORMITORY, FACILITIES, HOUSES, MEASURE, ONES, RECORDS, SCHEMA, SPINE, WOMEN,
    shown,
};
use std::alloc::Global;
use std::test::Fail;

// What `measure` on these files and words comes to.
fn measured(
    alloc: Global,
    texts: [&str; 4],
    words: &[u8],
    fail_read: u64,
    fail_write: u64,
) -> Result<String, Fail> {
    let [schema, spine, facilities, records] = texts;
    let files = [
        schema.as_bytes(),
        spine.as_bytes(),
        facilities.as_bytes(),
        records.as_bytes(),
        words,
    ];
    let line = format!(in alloc; "{MEASURE} --words e")?;
    shown(alloc, line.as_str(), &files, fail_read, fail_write)
}

#[test]
fn measure_adds_noise_to_true_counts(rt: HostRuntime) -> Result<(), Fail> {
    let table = [
        (
            [HOUSES, SPINE, FACILITIES, RECORDS],
            "0|m=unit,query,class,value\nB1,total,0,3\nB2,total,0,4\n|t=state,total\nS1,5\n|l=level,query,share\nblock,total,1/1\n-,spent,1/1\n-,total,1/1\n|-=ok measure places=2 spent=1/1 words=12\n",
        ),
        (
            [HOUSES, SPINE, FACILITIES, "block,kind\n"],
            "0|m=unit,query,class,value\nB1,total,0,1\nB2,total,0,1\n|t=state,total\nS1,0\n|l=level,query,share\nblock,total,1/1\n-,spent,1/1\n-,total,1/1\n|-=ok measure places=2 spent=1/1 words=12\n",
        ),
        (
            [
                HOUSES,
                SPINE,
                FACILITIES,
                "block,kind\n\"B2\",\"house\"\r\n",
            ],
            "0|m=unit,query,class,value\nB1,total,0,1\nB2,total,0,2\n|t=state,total\nS1,1\n|l=level,query,share\nblock,total,1/1\n-,spent,1/1\n-,total,1/1\n|-=ok measure places=2 spent=1/1 words=12\n",
        ),
        (
            [SCHEMA, SPINE, FACILITIES, RECORDS],
            "0|m=unit,query,class,value\n|t=state,total\nS1,5\n|l=level,query,share\n-,spent,0/1\n-,total,1/1\n|-=ok measure places=0 spent=0/1 words=0\n",
        ),
    ];
    for (texts, want) in table {
        let shown = measured(rt.alloc(), texts, &ONES, 0, 0)?;
        assert_eq!(rt; shown.as_str(), want);
    }
    Ok(())
}

#[test]
fn noise_stops_at_its_place(rt: HostRuntime) -> Result<(), Fail> {
    let files = [HOUSES, SPINE, FACILITIES, RECORDS];
    let table = [
        (0, "6|-=out of words B1 total 0\n"),
        (3, "3|-=refused words BadLength\n"),
        (4, "6|-=out of words B1 total 0\n"),
        (24, "6|-=out of words B2 total 0\n"),
        (44, "6|-=out of words B2 total 0\n"),
        (47, "3|-=refused words BadLength\n"),
    ];
    for (length, want) in table {
        assert!(rt; length <= 48);
        let shown = measured(rt.alloc(), files, &ONES[..length], 0, 0)?;
        assert_eq!(rt; shown.as_str(), want, "at {length}");
    }
    Ok(())
}

// The same schema with so small a share that a magnitude rises in steps of 1,025.
const SMALL_SHARE: &str =
    "version = 1\ntotal = \"1\"\n\n[[attribute]]\nname = \"kind\"\nvalues = [\"house\"]\n\n[[level]]\nname = \"nation\"\n\n[[level]]\nname = \"state\"\n\n[[level]]\nname = \"block\"\nquery = [{ name = \"total\", by = [], share = \"1/1048576\" }]\n";

// The words 0, 0 and then 0, 0, 1 as often as the magnitude takes to pass 2^30.
fn rising_words(alloc: Global) -> Result<Vec<u8>, Fail> {
    let mut bytes = Vec::from_slice(alloc, &[0; 8])?;
    for _ in 0..1_047_553 {
        bytes.extend_from_slice(&[0, 0, 0, 0, 0, 0, 0, 0, 1, 0, 0, 0])?;
    }
    Ok(bytes)
}

#[test]
fn a_magnitude_passes_its_limit(rt: HostRuntime) -> Result<(), Fail> {
    let words = rising_words(rt.alloc())?;
    let files = [SMALL_SHARE, SPINE, FACILITIES, RECORDS];
    let shown = measured(rt.alloc(), files, &words, 0, 0)?;
    assert_eq!(rt; shown.as_str(), "7|-=too large B1 total 0 1073741825\n");
    Ok(())
}

// A schema, a spine, facilities and records, and what `measure` comes to with three bytes of words.
const QUARTERED: [([&str; 4], &str); 9] = [
    (
        [
            DORMITORY,
            SPINE,
            DORM,
            "block,kind\nB1,dorm\nB1,dorm\nB2,dorm\n",
        ],
        "3|-=refused records NoFacility B2 dorm\n",
    ),
    (
        [DORMITORY, SPINE, DORM, "block,kind\nB1,dorm\n"],
        "3|-=refused records Short B1 dorm 1 2\n",
    ),
    (
        [DORMITORY, SPINE, DORM, "block,kind\nB1,dorm\nB2,tent\n"],
        "3|-=refused records UnknownValue 3\n",
    ),
    (
        [DORMITORY, SPINE, DORM, "block,kind\nS1,house\n"],
        "3|-=refused records UnknownBlock 2\n",
    ),
    (
        [DORMITORY, SPINE, DORM, "block,kind\nB1\n"],
        "3|-=refused records BadRow 2\n",
    ),
    (
        [DORMITORY, SPINE, DORM, ""],
        "3|-=refused records BadHeader 1\n",
    ),
    (
        [WOMEN, SPINE, DORM, "block,kind,sex\nB1,dorm,f\n"],
        "3|-=refused records ImpossibleCell 2\n",
    ),
    (
        [DORMITORY, SPINE, DORM, "block,kind\nB1,dorm\nB1,dorm\n"],
        "3|-=refused words BadLength\n",
    ),
    (
        [HOUSES, CHILDLESS, DORM, ""],
        "3|-=refused spine Childless 3\n",
    ),
];

#[test]
fn records_go_with_the_facilities(rt: HostRuntime) -> Result<(), Fail> {
    for (texts, want) in QUARTERED {
        let shown = measured(rt.alloc(), texts, &ONES[..3], 0, 0)?;
        assert_eq!(rt; shown.as_str(), want);
    }
    Ok(())
}

// What `measure` comes to on these files and a seed of so many zero bytes, from a place on with a budget.
fn seeded(
    alloc: Global,
    texts: [&str; 4],
    length: usize,
    place: u64,
    budget: u64,
) -> Result<String, Fail>
    requires { length ≤ 33 }
{
    let seed = [0; 33];
    let [schema, spine, facilities, records] = texts;
    let files = [
        schema.as_bytes(),
        spine.as_bytes(),
        facilities.as_bytes(),
        records.as_bytes(),
        &seed[..length],
    ];
    let line = format!(in alloc; "{MEASURE} --seed e --place {place} --budget {budget}")?;
    shown(alloc, line.as_str(), &files, 0, 0)
}

// The measured blocks of the houses by a seed whose words suffice.
fn houses(first: i64, second: i64, words: u64, alloc: Global) -> Result<String, Fail> {
    Ok(format!(in alloc;
        "0|m=unit,query,class,value\nB1,total,0,{first}\nB2,total,0,{second}\n|t=state,total\nS1,5\n|l=level,query,share\nblock,total,1/1\n-,spent,1/1\n-,total,1/1\n|-=ok measure places=2 spent=1/1 words={words}\n"
    )?)
}

#[test]
fn a_seed_has_32_bytes(rt: HostRuntime) -> Result<(), Fail> {
    let files = [HOUSES, SPINE, FACILITIES, RECORDS];
    let table = [
        (33, 0, 9, "3|-=refused seed TooLong\n"),
        (31, 0, 9, "3|-=refused seed BadLength\n"),
        (0, 0, 9, "3|-=refused seed BadLength\n"),
        (32, 0, 0, "6|-=out of words B1 total 0\n"),
        (32, u64::MAX, 1, "6|-=out of words B1 total 0\n"),
        (32, u64::MAX, 12, "6|-=out of words B1 total 0\n"),
        (32, u64::MAX, 13, "6|-=out of words B2 total 0\n"),
        (32, u64::MAX, 31, "6|-=out of words B2 total 0\n"),
    ];
    for (length, place, budget, want) in table {
        assert!(rt; length <= 33);
        let shown = seeded(rt.alloc(), files, length, place, budget)?;
        assert_eq!(rt; shown.as_str(), want, "at {length} {place} {budget}");
    }
    Ok(())
}

#[test]
fn a_stream_goes_on_past_its_last_place(rt: HostRuntime) -> Result<(), Fail> {
    let files = [HOUSES, SPINE, FACILITIES, RECORDS];
    // The place, the budget, what is measured of the two blocks, and the words that are taken.
    let table = [
        (0, 4294967296, 3, 4, 47),
        (u64::MAX, 4294967296, 0, 3, 32),
        (u64::MAX, 32, 0, 3, 32),
    ];
    for (place, budget, first, second, words) in table {
        let shown = seeded(rt.alloc(), files, 32, place, budget)?;
        let want = houses(first, second, words, rt.alloc())?;
        assert!(rt; shown.as_str() == want.as_str(), "at {place} {budget}");
    }
    Ok(())
}

// Two levels are measured; the cell of men in dormitories isn't possible.
const TWO_LEVELS: &str =
    "version = 1\ntotal = \"1\"\nattribute = [{ name = \"kind\", values = [\"house\", \"dorm\"] }, { name = \"sex\", values = [\"f\", \"m\"] }]\nzero = [{ kind = [\"dorm\"], sex = [\"m\"] }]\n[[level]]\nname = \"nation\"\nquery = [{ name = \"kind\", by = [\"kind\"], share = \"1/4\" }]\n[[level]]\nname = \"state\"\n[[level]]\nname = \"block\"\nquery = [{ name = \"detail\", by = [\"kind\", \"sex\"], share = \"1/4\" }]\n";

#[test]
fn each_class_is_measured(rt: HostRuntime) -> Result<(), Fail> {
    let table = [
        (
            [SCHEMA, SPINE, FACILITIES, RECORDS],
            0,
            "0|m=unit,query,class,value\n|t=state,total\nS1,5\n|l=level,query,share\n-,spent,0/1\n-,total,1/1\n|-=ok measure places=0 spent=0/1 words=0\n",
        ),
        (
            [
                DORMITORY,
                SPINE,
                DORM,
                "block,kind\nB1,dorm\nB2,house\nB1,dorm\nB1,house\nB2,house\nB2,house\n",
            ],
            180,
            "0|m=unit,query,class,value\nUS,kind,0,5\nUS,kind,1,1\nB1,kind,0,0\nB1,kind,1,3\nB2,kind,0,4\nB2,kind,1,-2\n|t=state,total\nS1,6\n|l=level,query,share\nnation,kind,1/2\nblock,kind,1/2\n-,spent,1/1\n-,total,1/1\n|-=ok measure places=6 spent=1/1 words=180\n",
        ),
        (
            [
                TWO_LEVELS,
                SPINE,
                DORM,
                "block,kind,sex\nB1,house,m\nB1,dorm,f\nB1,dorm,f\nB2,house,f\nB2,house,m\n",
            ],
            128,
            "0|m=unit,query,class,value\nUS,kind,0,1\nUS,kind,2,3\nB1,detail,0,0\nB1,detail,1,2\nB1,detail,2,2\nB2,detail,0,-4\nB2,detail,1,2\nB2,detail,2,2\n|t=state,total\nS1,5\n|l=level,query,share\nnation,kind,1/4\nblock,detail,1/4\n-,spent,1/2\n-,total,1/1\n|-=ok measure places=8 spent=1/2 words=128\n",
        ),
    ];
    for (texts, budget, want) in table {
        let shown = seeded(rt.alloc(), texts, 32, 0, budget)?;
        assert_eq!(rt; shown.as_str(), want, "with {budget} words");
    }
    Ok(())
}

#[test]
fn each_failing_call_of_measure_has_its_status(rt: HostRuntime) -> Result<(), Fail> {
    let files = [HOUSES, SPINE, FACILITIES, RECORDS];
    let table = [
        (1, 0, "4|-=read schema\n"),
        (2, 0, "4|-=read spine\n"),
        (3, 0, "4|-=read facilities\n"),
        (4, 0, "4|-=read records\n"),
        (5, 0, "4|-=read words\n"),
        (0, 1, "5"),
        (
            0,
            3,
            "5|m=unit,query,class,value\nB1,total,0,3\nB2,total,0,4\n",
        ),
        (
            0,
            4,
            "5|m=unit,query,class,value\nB1,total,0,3\nB2,total,0,4\n",
        ),
        (
            0,
            10,
            "5|m=unit,query,class,value\nB1,total,0,3\nB2,total,0,4\n|t=state,total\nS1,5\n|l=level,query,share\nblock,total,1/1\n-,spent,1/1\n-,total,1/1\n",
        ),
        (5, 1, "5"),
    ];
    for (read, write, want) in table {
        let shown = measured(rt.alloc(), files, &ONES, read, write)?;
        assert_eq!(rt; shown.as_str(), want, "at {read} {write}");
    }
    Ok(())
}
