// Families of six numbers: their sets, whether these are nested, and how many there are.
ghost use Rattle.std.specs.Prelude.{◌<◌, All, IfSome, IsTrue};

use std::alloc::Global;
use std::test::Fail;
use tda_io::NoMemory;
use tda_sets::{Family, all_are_nested, are_nested, count_sets};

const BOUND: usize = 3;

// Keys, the least member of each number's set, and those of all sets.
const KEYS: [([Option<usize>; 6], [Option<u32>; 6], &[u32]); 4] = [
    (
        [Some(2), None, Some(0), Some(2), Some(0), Some(1)],
        [Some(0), None, Some(2), Some(0), Some(2), Some(5)],
        &[0, 2, 5],
    ),
    (
        [None, Some(2), Some(1), Some(1), Some(2), None],
        [None, Some(1), Some(2), Some(2), Some(1), None],
        &[1, 2],
    ),
    ([Some(1); 6], [Some(0); 6], &[0]),
    ([None; 6], [None; 6], &[]),
];

// Sets 0-1-2 and 3-4, named twice; then 0-1, 2 and 3-4-5; then 0-3 alone; then no set.
const WIDE: [Option<usize>; 6] = [Some(0), Some(0), Some(0), Some(1), Some(1), None];

const AGAIN: [Option<usize>; 6] = [Some(2), Some(2), Some(2), Some(0), Some(0), None];

const FINE: [Option<usize>; 6] = [Some(0), Some(0), Some(1), Some(2), Some(2), Some(2)];

const ACROSS: [Option<usize>; 6] = [Some(0), None, None, Some(0), None, None];

const EMPTY: [Option<usize>; 6] = [None; 6];

fn are_below(keys: &[Option<usize>]) -> bool
    ensures { IsTrue result → All (λ key. IfSome key (λ k. k < 3)) keys.now }
{
    keys.iter().all(|key| match key {
        Some(key) => *key < BOUND,
        None => true,
    })
}

#[test]
fn sets_of_keys(rt: HostRuntime) -> Result<(), Fail> {
    for (keys, names, firsts) in KEYS {
        assert!(rt; are_below(&keys));
        let family = Family::by_keys(rt.alloc(), &keys, BOUND)?;
        assert_eq!(rt; family.names(), names.as_slice());
        assert_eq!(rt; family.firsts(rt.alloc())?.as_slice(), firsts);
        assert_eq!(rt; family.into_names().as_slice(), names.as_slice());
    }
    Ok(())
}

#[test]
fn one_set_and_its_parts(rt: HostRuntime) -> Result<(), Fail> {
    let marks = [false, true, true, false, true, true];
    let whole = Family::whole(rt.alloc(), &marks)?;
    let one = [None, Some(1), Some(1), None, Some(1), Some(1)];
    assert_eq!(rt; whole.names(), one.as_slice());
    assert!(rt; whole.names().len() == 6);
    let halves = whole.split(rt.alloc(), &[0, 2, 1, 1, 0, 1], &[1, 0, 1])?;
    let two = [None, Some(1), Some(2), None, Some(1), Some(2)];
    assert_eq!(rt; halves.names(), two.as_slice());
    assert!(rt; halves.names().len() == 6);
    let parts = halves.split(rt.alloc(), &[0, 0, 1, 1, 1, 1], &[0, 1])?;
    let three = [None, Some(1), Some(2), None, Some(4), Some(2)];
    assert_eq!(rt; parts.names(), three.as_slice());
    Ok(())
}

// A family by keys that are below the bound.
fn family(alloc: Global, keys: [Option<usize>; 6]) -> Result<Family, NoMemory>
    requires { All (λ key. IfSome key (λ k. k < 3)) keys }
{
    Family::by_keys(alloc, &keys, BOUND)
}

#[test]
fn nested_families(rt: HostRuntime) -> Result<(), Fail> {
    let wide = family(rt.alloc(), WIDE)?;
    let again = family(rt.alloc(), AGAIN)?;
    let fine = family(rt.alloc(), FINE)?;
    let across = family(rt.alloc(), ACROSS)?;
    let empty = family(rt.alloc(), EMPTY)?;
    // Whether the first two are nested, whether all are, and how many sets there are.
    let rows = [
        (&wide, &fine, &again, true, true, 5),
        (&wide, &again, &empty, true, true, 2),
        (&fine, &wide, &across, true, false, 6),
        (&across, &fine, &empty, false, false, 4),
        (&empty, &across, &wide, true, false, 3),
        (&empty, &empty, &empty, true, true, 0),
    ];
    for (one, other, last, two_nested, all_nested, count) in rows {
        let len = one.names().len();
        assert!(rt; other.names().len() == len && last.names().len() == len);
        assert_eq!(rt; are_nested(rt.alloc(), one, other)?, two_nested);
        let families = [one, other, last];
        assert_eq!(rt; all_are_nested(rt.alloc(), &families)?, all_nested);
        assert_eq!(rt; count_sets(rt.alloc(), &families)?, count);
    }
    Ok(())
}
