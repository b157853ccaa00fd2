// What the judge of prices says, and what nets hold.
ghost use Rattle.std.specs.Prelude.{◌≤◌, ◌^◌, false, slice_index, IsTrue, EachIndex};
ghost use Rattle.tda_flow.specs.Certificate.{ArePrices};

use std::alloc::Global;
use tda_flow::{Arc, BadArc, Net, Side, Term, certified, is_circulation, step_cost};
use tda_io::{NoMemory, PERSONS};
use tda_loss::{Curve, Loss, square};

// Five units go from the hub to node 1.
const THERE: Arc = Arc {
    from: 0,
    to: 1,
    low: 5,
    high: 5,
};

// They come back over two arcs.
const BACK: Arc = Arc {
    from: 1,
    to: 0,
    low: 0,
    high: PERSONS,
};

const THREE: Term = Term {
    weight: 1,
    target: 3,
};

const FOUR: Term = Term {
    weight: 1,
    target: 4,
};

// The greatest price.
const MOST: i128 = 1 << 96;

// The first way back would rather have 3 units, the second one 4.
fn two_ways_back(alloc: Global) -> Result<Net, NoMemory> {
    let mut net = Net::new(alloc, 2);
    net.push_arc(THERE)?;
    net.push_arc(BACK)?;
    net.push_term(THREE)?;
    net.push_arc(BACK)?;
    net.push_term(FOUR)?;
    Ok(net)
}

// An arc without terms, and one with two.
fn two_terms(alloc: Global) -> Result<Net, NoMemory> {
    let mut net = Net::new(alloc, 2);
    net.push_arc(THERE)?;
    net.push_arc(BACK)?;
    net.push_term(FOUR)?;
    net.push_term(THREE)?;
    Ok(net)
}

// Whether each flow is at most 2^30.
fn are_few(flow: &[u64]) -> bool
    ensures { IsTrue result → EachIndex flow.now (λ k. slice_index flow.now k ≤ 2 ^ 30) }
{
    flow.iter().all(|x| *x <= PERSONS)
}

// Whether there is one price per node, each at most 2^96 either way.
fn are_prices(net: &Net, prices: &[i128]) -> bool
    ensures { IsTrue result → ArePrices net.now prices.now }
{
    prices.len() == net.nodes() as usize && prices.iter().all(|p| -MOST <= *p && *p <= MOST)
}

// What the judge says by squares. None where there isn't one small flow per arc, one price per node, or
// the flow is no circulation.
fn judged(net: &Net, flow: &[u64], prices: &[i128]) -> Option<Result<(), BadArc>> {
    if flow.len() != net.arcs() || !are_few(flow) || !are_prices(net, prices) {
        return None;
    }
    if !is_circulation(net, flow) {
        return None;
    }
    let loss = Loss::new(Curve::Square, |d: i64| square(d));
    Some(certified(net, &loss, flow, prices))
}

// What one unit more costs on an arc by squares. None where the arc or the flow is out of range.
fn step_on(net: &Net, arc: usize, x: u64) -> Option<i128> {
    if arc >= net.arcs() || x > PERSONS {
        return None;
    }
    let loss = Loss::new(Curve::Square, |d: i64| square(d));
    Some(step_cost(net.terms(arc), &loss, x))
}

fn bad(arc: usize, side: Side) -> Option<Result<(), BadArc>> {
    Some(Err(BadArc { arc, side }))
}

#[test]
fn first_bad_arcs(rt: HostRuntime) {
    let net = two_ways_back(rt.alloc()).expect(&rt, "memory");
    let rows = [
        ([5, 2, 3], [0, 2], Some(Ok(()))),
        ([5, 2, 3], [0, 1], Some(Ok(()))),
        ([5, 2, 3], [0, 3], Some(Ok(()))),
        ([5, 2, 3], [0, 0], bad(1, Side::Up)),
        ([5, 2, 3], [0, 4], bad(1, Side::Down)),
        ([5, 3, 2], [0, 2], bad(1, Side::Down)),
        // More goes to node 1 than comes from it, or too little goes there.
        ([5, 2, 2], [0, 2], None),
        ([4, 2, 2], [0, 2], None),
    ];
    for (flow, prices, want) in rows {
        assert_eq!(rt;
            judged(&net, &flow, &prices),
            want,
            "at {flow:?} and {prices:?}"
        );
    }
}

#[test]
fn arcs_and_terms_in_order(rt: HostRuntime) {
    let net = two_terms(rt.alloc()).expect(&rt, "memory");
    assert_eq!(rt; (net.nodes(), net.arcs()), (2, 2));
    let rows = [(THERE, [].as_slice()), (BACK, [FOUR, THREE].as_slice())];
    for (i, (arc, terms)) in rows.iter().enumerate() {
        if i < net.arcs() {
            assert_eq!(rt; net.arc(i), *arc);
            assert_eq!(rt; net.terms(i), *terms);
        }
    }
    assert_eq!(rt; step_on(&net, 0, 3), Some(0));
    assert_eq!(rt; step_on(&net, 1, 3), Some(0));
    assert_eq!(rt; step_on(&net, 1, 5), Some(8));
}
