// The demo's files beside those that another program made of the same numbers and sizes.
ghost use Rattle.std.specs.Prelude.{◌<◌, ◌≤◌, ◌^◌};

use crate::demo_files;
use std::alloc::Global;
use std::process::Abort;
use std::test::Fail;

const FIRST_UNITS: &str = "unit,level,parent
US,nation,
S1,state,US
S1C1,county,S1
S1C1T1,tract,S1C1
S1C1T1B1,block,S1C1T1
S1C1T2,tract,S1C1
S1C1T2B1,block,S1C1T2
S1C1T3,tract,S1C1
";

const FIRST_FACILITIES: &str = "block,kind,count
S1C1T1B1,dorm,1
S1C1T1B1,prison,1
S1C1T4B1,dorm,1
S1C2T2B1,prison,1
S1C2T3B1,dorm,1
";

const FIRST_RECORDS: &str = "block,kind,sex,age
S1C1T1B1,dorm,f,adult
S1C1T1B1,prison,m,adult
S1C1T1B1,prison,f,adult
S1C1T1B1,dorm,m,adult
S1C1T1B1,house,m,adult
S1C1T1B1,house,f,minor
S1C1T1B1,house,f,minor
S1C1T2B1,house,m,minor
S1C1T2B1,house,m,minor
S1C1T2B1,house,f,minor
S1C1T2B1,house,m,adult
";

// A number and a size, how many rows the files have with their headers, and how many bytes the records.
#[derive(Drop)]
struct Sizes {
    number: u64,
    size: u32,
    spine: usize,
    facilities: usize,
    records: usize,
    bytes: usize,
}

fn rows(text: &[u8]) -> usize {
    text.iter().filter(|byte| **byte == b'\n').count()
}

fn has_sizes(rt: &impl Abort, alloc: Global, sizes: &Sizes) -> Result<(), Fail>
    requires number { sizes.now.number < 2 ^ 32 }
    requires some { 1 ≤ sizes.now.size }
    requires few { sizes.now.size ≤ 64 }
{
    let files = demo_files(alloc, sizes.number, sizes.size)?;
    assert_eq!(rt; rows(&files.spine), sizes.spine);
    assert_eq!(rt; rows(&files.facilities), sizes.facilities);
    assert_eq!(rt; rows(&files.records), sizes.records);
    assert_eq!(rt; files.records.len(), sizes.bytes);
    Ok(())
}

#[test]
fn begins_as_elsewhere(rt: HostRuntime) -> Result<(), Fail> {
    let files = demo_files(rt.alloc(), 1, 1)?;
    assert!(rt; files.spine.starts_with(FIRST_UNITS.as_bytes()));
    assert!(rt; files.facilities.starts_with(FIRST_FACILITIES.as_bytes()));
    assert!(rt; files.records.starts_with(FIRST_RECORDS.as_bytes()));
    assert_eq!(rt; files.seed[0], 1);
    assert_eq!(rt; files.place, 1_099_511_627_776);
    assert_eq!(rt; files.budget, 4_294_967_296);
    Ok(())
}

#[test]
fn has_rows_of_size_one(rt: HostRuntime) -> Result<(), Fail> {
    let sizes = Sizes {
        number: 1,
        size: 1,
        spine: 58,
        facilities: 14,
        records: 211,
        bytes: 4842,
    };
    has_sizes(&rt, rt.alloc(), &sizes)
}

#[test]
fn has_rows_of_size_two(rt: HostRuntime) -> Result<(), Fail> {
    let sizes = Sizes {
        number: 1,
        size: 2,
        spine: 82,
        facilities: 27,
        records: 409,
        bytes: 9387,
    };
    has_sizes(&rt, rt.alloc(), &sizes)
}

#[test]
fn has_rows_of_size_eight(rt: HostRuntime) -> Result<(), Fail> {
    let sizes = Sizes {
        number: 1,
        size: 8,
        spine: 226,
        facilities: 104,
        records: 1625,
        bytes: 37318,
    };
    has_sizes(&rt, rt.alloc(), &sizes)
}

#[test]
fn has_rows_of_size_sixty_four(rt: HostRuntime) -> Result<(), Fail> {
    let sizes = Sizes {
        number: 4294967295,
        size: 64,
        spine: 1570,
        facilities: 821,
        records: 12431,
        bytes: 296161,
    };
    has_sizes(&rt, rt.alloc(), &sizes)
}
