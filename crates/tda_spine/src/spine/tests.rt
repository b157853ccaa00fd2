// Spines read back by their readers.
ghost use Rattle.tda_model.specs.Spine.{IsUnit};

use crate::{Spine, read_spine};
use std::alloc::Global;
use std::test::Fail;
use tda_schema::read_schema;

// Whether the readers say this of a unit.
fn says(
    spine: &Spine,
    unit: u32,
    code: &str,
    level: usize,
    parent: Option<u32>,
    children: &[u32],
    blocks: &[u32],
) -> bool
    requires { IsUnit spine.now unit }
{
    spine.code(unit) == code
        && spine.find(code.as_bytes()) == Some(unit)
        && spine.level(unit) == level
        && spine.parent(unit) == parent
        && spine.children(unit) == children
        && spine.blocks(unit) == blocks
}

fn mixed(alloc: Global) -> Result<Spine, Fail> {
    let schema = read_schema(
        alloc,
        b"version = 1\ntotal = \"1\"\n[[attribute]]\nname = \"kind\"\nvalues = [\"house\"]\n[[level]]\nname = \"nation\"\n[[level]]\nname = \"state\"\n[[level]]\nname = \"county\"\n[[level]]\nname = \"block\"\n",
    )?;
    let spine = read_spine(
        alloc,
        &schema,
        b"unit,level,parent\nC3,county,S2\nB1,block,C1\nS1,state,US\nC1,county,S1\nUS,nation,\nB3,block,C3\nS2,state,US\nC2,county,S1\nB2,block,C2\n",
    )?;
    Ok(spine)
}

#[test]
fn one_cell(rt: HostRuntime) -> Result<(), Fail> {
    let schema = read_schema(
        rt.alloc(),
        b"version = 1\ntotal = \"1\"\n[[attribute]]\nname = \"kind\"\nvalues = [\"house\"]\n[[level]]\nname = \"nation\"\n[[level]]\nname = \"state\"\n[[level]]\nname = \"block\"\n",
    )?;
    let spine = read_spine(
        rt.alloc(),
        &schema,
        b"unit,level,parent\nUS,nation,\nS1,state,US\nB1,block,S1\nB2,block,S1\n",
    )?;
    assert!(rt; spine.units() == 4);
    assert_eq!(rt; spine.nation(), 0);
    assert_eq!(rt; spine.parents(), [0, 1].as_slice());
    assert_eq!(rt; spine.at_level(1), [1].as_slice());
    assert_eq!(rt; spine.children(1), [2, 3].as_slice());
    assert_eq!(rt; spine.blocks(0), [2, 3].as_slice());
    assert_eq!(rt; spine.find(b"B2"), Some(3));
    assert_eq!(rt; spine.find(b"B"), None);
    Ok(())
}

#[test]
fn children_before_parents(rt: HostRuntime) -> Result<(), Fail> {
    let spine = mixed(rt.alloc())?;
    assert!(rt; spine.units() == 9);
    assert_eq!(rt; spine.nation(), 4);
    assert_eq!(rt; spine.parents(), [4, 2, 3, 7, 6, 0].as_slice());
    assert_eq!(rt; spine.at_level(1), [2, 6].as_slice());
    Ok(())
}

#[test]
fn units_of_each_level(rt: HostRuntime) -> Result<(), Fail> {
    let spine = mixed(rt.alloc())?;
    assert!(rt; spine.units() == 9);
    assert!(rt; says(&spine, 4, "US", 0, None, &[2, 6], &[1, 5, 8]));
    assert!(rt; says(&spine, 2, "S1", 1, Some(4), &[3, 7], &[1, 8]));
    assert!(rt; says(&spine, 0, "C3", 2, Some(6), &[5], &[5]));
    assert!(rt; says(&spine, 8, "B2", 3, Some(7), &[], &[8]));
    Ok(())
}
