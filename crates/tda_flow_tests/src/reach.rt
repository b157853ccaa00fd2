// What a search finds from a start, and a step along the walk that it found.
ghost use Rattle.std.specs.Prelude.{◌≡◌, length, IfOk};
ghost use Rattle.tda_flow.specs.Network.{arc_count};

use std::alloc::Global;
use std::test::Fail;
use tda_flow::{Arc, Net, Turn, Work, move_along, reach};
use tda_io::NoMemory;

const FLOW: [u64; 5] = [2, 0, 4, 0, 0];

const FORTH_0: Turn = Turn {
    arc: 0,
    back: false,
};

const FORTH_1: Turn = Turn {
    arc: 1,
    back: false,
};

const BACK_2: Turn = Turn { arc: 2, back: true };

const FORTH_3: Turn = Turn {
    arc: 3,
    back: false,
};

const FORTH_4: Turn = Turn {
    arc: 4,
    back: false,
};

// A start and a step, and for each node its rank and its last turn. Arc 1 has room for a step of 3, arc 2 can be
// passed backwards by 4, and nothing leads to node 4.
const ROWS: [(u32, u64, [Option<u32>; 5], [Option<Turn>; 5]); 5] = [
    (
        0,
        1,
        [Some(0), Some(1), Some(2), Some(2), None],
        [None, Some(FORTH_0), Some(FORTH_1), Some(BACK_2), None],
    ),
    (
        0,
        4,
        [Some(0), Some(1), Some(3), Some(2), None],
        [None, Some(FORTH_0), Some(FORTH_3), Some(BACK_2), None],
    ),
    (
        0,
        5,
        [Some(0), Some(1), None, None, None],
        [None, Some(FORTH_0), None, None, None],
    ),
    (
        0,
        9,
        [Some(0), None, None, None, None],
        [None, None, None, None, None],
    ),
    (
        4,
        1,
        [Some(1), Some(2), Some(3), Some(3), Some(0)],
        [
            Some(FORTH_4),
            Some(FORTH_0),
            Some(FORTH_1),
            Some(BACK_2),
            None,
        ],
    ),
];

fn arc(from: u32, to: u32) -> Arc
    ensures from { result.from ≡ from }
    ensures to { result.to ≡ to }
    ensures low { result.low ≡ 0 }
    ensures high { result.high ≡ 10 }
{
    Arc {
        from,
        to,
        low: 0,
        high: 10,
    }
}

fn five_arcs(alloc: Global) -> Result<Net, NoMemory>
    ensures nodes { IfOk result (λ net. net.nodes ≡ 5) }
    ensures arcs { IfOk result (λ net. arc_count net ≡ 5) }
{
    let mut net = Net::new(alloc, 5);
    net.push_arc(arc(0, 1))?;
    net.push_arc(arc(1, 2))?;
    net.push_arc(arc(3, 1))?;
    net.push_arc(arc(3, 2))?;
    net.push_arc(arc(4, 0))?;
    Ok(net)
}

fn bounds(alloc: Global) -> Result<Work, NoMemory>
    ensures nodes { IfOk result (λ work. length work.ranks ≡ 5) }
    ensures arcs { IfOk result (λ work. length work.low ≡ 5) }
{
    let mut work = Work::new(alloc, 5, 5)?;
    for arc in 0..5 {
        work.set_bounds(arc, 0, 10);
    }
    work.set_bounds(1, 0, 3);
    Ok(work)
}

type Found = ([Option<u32>; 5], [Option<Turn>; 5]);

fn found_in(work: &Work) -> Found
    requires { length work.now.ranks ≡ 5 }
{
    (
        [
            work.rank(0),
            work.rank(1),
            work.rank(2),
            work.rank(3),
            work.rank(4),
        ],
        [
            work.last(0),
            work.last(1),
            work.last(2),
            work.last(3),
            work.last(4),
        ],
    )
}

// What a search finds for a start below 5 and a step from 1 to 10.
fn found_from(alloc: Global, start: u32, delta: u64) -> Result<Option<Found>, NoMemory> {
    if 5 <= start || delta < 1 || 10 < delta {
        return Ok(None);
    }
    let net = five_arcs(alloc)?;
    let mut work = bounds(alloc)?;
    reach(&net, &FLOW, start, delta, &mut work);
    Ok(Some(found_in(&work)))
}

#[test]
fn walks_from_a_start(rt: HostRuntime) -> Result<(), Fail> {
    for (start, delta, ranks, lasts) in ROWS {
        let found = found_from(rt.alloc(), start, delta)?;
        assert_eq!(rt; found, Some((ranks, lasts)), "from {start} by {delta}");
    }
    let work = bounds(rt.alloc())?;
    assert_eq!(rt; found_in(&work), ([None; 5], [None; 5]));
    assert_eq!(rt; (work.low(1), work.high(1), work.high(2)), (0, 3, 10));
    Ok(())
}

// The least walk to node 2 for a step of 4.
const WALK: [Turn; 3] = [FORTH_0, BACK_2, FORTH_3];

#[test]
fn a_step_along_a_walk(rt: HostRuntime) -> Result<(), Fail> {
    let net = five_arcs(rt.alloc())?;
    let mut work = bounds(rt.alloc())?;
    reach(&net, &FLOW, 0, 4, &mut work);
    let mut walk = [FORTH_4; 3];
    assert_eq!(rt; work.rank(2), Some(3));
    work.trace(&net, 2, &mut walk);
    assert_eq!(rt; walk, WALK);
    assert_eq!(rt; (BACK_2.start(&net), BACK_2.end(&net)), (1, 3));
    let mut flow = FLOW;
    move_along(&mut flow, &WALK, 4);
    assert_eq!(rt; flow, [6, 0, 0, 4, 0]);
    Ok(())
}
