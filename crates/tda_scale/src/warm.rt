// A start from prices that were handed in: each arc at its least flow for them, the nearest to the one
// that it has.
ghost use Rattle.std.specs.Prelude.{◌≡◌, ◌≢◌, ℕ, ◌+◌, ◌-◌, ◌*◌, ◌<◌, ◌≤◌, ◌^◌, length, slice_index, slice_set, IsTrue, pos, neg_ℤ, ◌+ℤ◌, ◌-ℤ◌, ◌*ℤ◌, ◌≤ℤ◌, ◌<ℤ◌};
ghost use Rattle.tda_loss.specs.Curve.{IsWithin};
ghost use Rattle.tda_flow.specs.Network.{arc_count};
ghost use Rattle.tda_flow.specs.Certificate.{price_at};
ghost use Rattle.tda_scale.specs.Spots.{spot_at, priced_spot};
ghost use Rattle.tda_scale.specs.Searching.{price_of, AreFresh};
ghost use Rattle.tda_scale.specs.Priced.{IsPriced};
ghost use Rattle.tda_scale.specs.Slopes.{IsSlight};
ghost use Rattle.tda_scale.specs.Tracked.{IsTracked, AreSame};
ghost use Rattle.tda_scale.specs.Adjusted.{KeepsAt};
ghost use Rattle.tda_scale.specs.Phase.{square, AreWithin};
ghost use Rattle.tda_scale.specs.Fields.{IsBody};
ghost use Rattle.tda_scale.specs.Warm.{ArePriced};
ghost use Rattle.tda_scale.specs.Quotes.{up_rate, down_rate};

use crate::adjust::gap_at;
use crate::pieces::send;
use crate::quotes::Body;
use crate::scale::step_size;
use crate::slopes::Slope;
use crate::spots::Spot;
use tda_flow::{Arc, Turn};

// The greatest price that a solve may begin with, either way.
const MOST: i128 = 1 << 88;

// The flow from `low` to `high` that is nearest to `x` among those from `least` to `most`, or else the
// bound nearest to these.
fn nearest(x: u64, least: i128, most: i128, low: u64, high: u64) -> u64
    requires order { low ≤ high }
    requires high { high ≤ 2 ^ 30 }
    requires x { x ≤ 2 ^ 30 }
    requires least { least ≤ℤ most }
    ensures low { low ≤ result }
    ensures high { result ≤ high }
    ensures up { result < high → least ≤ℤ pos result }
    ensures down { low < result → pos result ≤ℤ most }
{
    let x = i128::from(x);
    let flow = if x < least {
        least
    } else if most < x {
        most
    } else {
        x
    };
    if flow < i128::from(low) {
        low
    } else if i128::from(high) < flow {
        high
    } else {
        flow as u64
    }
}

// The greatest whole number q with n · q at most z.
fn floor_div(z: i128, n: u64) -> i128
    requires some { 1 ≤ n }
    requires few { n ≤ 2 ^ 28 }
    requires near { IsWithin (2 ^ 94) z }
    ensures low { (pos n *ℤ result) ≤ℤ z }
    ensures high { z <ℤ (pos n *ℤ result +ℤ pos n) }
    ensures near { IsWithin (2 ^ 95) result }
{
    z.div_euclid(i128::from(n))
}

// The gap and the pull, less the weight.
fn rest_of(slope: Slope, gap: i128) -> i128
    requires slope { IsSlight slope }
    requires gap { IsWithin (2 ^ 93) gap }
    ensures value { result ≡ gap +ℤ slope.pull -ℤ pos slope.weight }
    ensures near { IsWithin (2 ^ 94) result }
{
    gap + i128::from(slope.pull) - i128::from(slope.weight)
}

// The least whole number q with n · q at least z.
fn least_of(z: i128, n: u64) -> i128
    requires some { 1 ≤ n }
    requires few { n ≤ 2 ^ 28 }
    requires near { IsWithin (2 ^ 94) z }
    ensures low { z ≤ℤ (pos n *ℤ result) }
    ensures high { (pos n *ℤ result) <ℤ (z +ℤ pos n) }
    ensures near { IsWithin (2 ^ 96) result }
{
    -floor_div(-z, n)
}

// The greatest whole number q with n · q at most z + n.
fn most_of(z: i128, n: u64) -> i128
    requires some { 1 ≤ n }
    requires few { n ≤ 2 ^ 28 }
    requires near { IsWithin (2 ^ 94) z }
    ensures low { z <ℤ (pos n *ℤ result) }
    ensures high { (pos n *ℤ result) ≤ℤ (z +ℤ pos n) }
    ensures near { IsWithin (2 ^ 96) result }
{
    floor_div(z, n) + 1
}

// A least flow of an arc for a gap between the prices of its ends, the nearest to the flow `x`.
// With the weight w and the pull, the unit from x to x + 1 costs w · (2x + 1) - pull.
fn least_flow(slope: Slope, arc: Arc, gap: i128, x: u64) -> u64
    requires slope { IsSlight slope }
    requires high { arc.high ≤ 2 ^ 30 }
    requires x_low { arc.low ≤ x }
    requires x_high { x ≤ arc.high }
    requires gap { IsWithin (2 ^ 93) gap }
    ensures low { arc.low ≤ result }
    ensures high { result ≤ arc.high }
    ensures up { result + 1 ≤ arc.high → gap ≤ℤ up_rate slope 1 result }
    ensures down { arc.low + 1 ≤ result → neg_ℤ gap ≤ℤ down_rate slope 1 result }
{
    let rest = rest_of(slope, gap);
    if slope.weight > 0 {
        let least = least_of(rest, 2 * slope.weight);
        let most = most_of(rest, 2 * slope.weight);
        return nearest(x, least, most, arc.low, arc.high);
    }
    if rest < 0 {
        return arc.low;
    }
    if rest > 0 {
        return arc.high;
    }
    x
}

// What a pass over the arcs strives for, within their least flows: the smallest ones, the greatest ones, or those
// that even out what the ends have too much and too little.
#[derive(Clone, Copy, Debug, PartialEq, Eq)]
pub(crate) enum Aim {
    Least,
    Most,
    Even,
}

// A flow that is changed by `more`, and 0 where that is below it.
fn changed(flow: u64, more: i64) -> u64 {
    let sum = i128::from(flow) + i128::from(more);
    if sum < 0 || sum > 1 << 30 {
        return 0;
    }
    sum as u64
}

// The change of a flow that evens out its ends. An arc that costs nothing only fills what its end lacks, any other
// takes on what its start has too much.
fn evening(slope: Slope, from: i64, to: i64) -> i64 {
    if slope.weight > 0 {
        return from;
    }
    if to >= 0 || from <= 0 || to == i64::MIN {
        return 0;
    }
    from.min(-to)
}

// The flow that a pass strives for.
fn wanted(aim: Aim, slope: Slope, arc: Arc, had: u64, from: i64, to: i64) -> u64 {
    match aim {
        Aim::Least => arc.low,
        Aim::Most if slope.weight > 0 => arc.high,
        Aim::Most => had,
        Aim::Even => changed(had, evening(slope, from, to)),
    }
}

// The flow nearest to `x` within the bounds of an arc.
fn bounded(x: u64, arc: Arc) -> u64
    requires order { arc.low ≤ arc.high }
    ensures low { arc.low ≤ result }
    ensures high { result ≤ arc.high }
{
    if x < arc.low {
        arc.low
    } else if arc.high < x {
        arc.high
    } else {
        x
    }
}

// The flow that a pass strives for, within the bounds of an arc.
fn aimed(aim: Aim, slope: Slope, arc: Arc, had: u64, spots: &[Spot]) -> u64
    requires order { arc.low ≤ arc.high }
    requires from { arc.from < length spots.now }
    requires to { arc.to < length spots.now }
    ensures low { arc.low ≤ result }
    ensures high { result ≤ arc.high }
{
    let from = spots[arc.from as usize].excess;
    let to = spots[arc.to as usize].excess;
    bounded(wanted(aim, slope, arc, had, from, to), arc)
}

// Brings arc `i` to a least flow for the prices.
fn settle_arc(body: &Body, aim: Aim, i: usize, flow: &mut [u64], spots: &mut [Spot])
    requires arc { i < arc_count body.now.net.now }
    requires body { IsBody body.now }
    requires tracked { IsTracked body.now.net.now flow.old spots.old }
    requires small { (v : ℕ) → IsWithin (2 ^ 92) (spot_at spots.old v).price }
    ensures kept { KeepsAt square body.now.net.now 1 flow.new (price_of spots.new) i }
    ensures flow { (k : ℕ) → k ≢ i → slice_index flow.new k ≡ slice_index flow.old k }
    ensures tracked { IsTracked body.now.net.now flow.new spots.new }
    ensures same { AreSame spots.old spots.new }
{
    let arc = body.net.arc(i);
    let had = flow[i];
    let near = aimed(aim, body.slopes[i], arc, had, spots);
    let least = least_flow(body.slopes[i], arc, gap_at(arc, spots), near);
    let back = least < had;
    let turn = Turn { arc: i, back };
    let from = turn.start(body.net);
    let to = turn.end(body.net);
    send(
        body.net,
        &[turn],
        from,
        to,
        least.abs_diff(had),
        flow,
        spots,
    );
}

// Brings all arcs to least flows for the prices.
fn settle(body: &Body, aim: Aim, flow: &mut [u64], spots: &mut [Spot])
    requires body { IsBody body.now }
    requires tracked { IsTracked body.now.net.now flow.old spots.old }
    requires small { (v : ℕ) → IsWithin (2 ^ 92) (spot_at spots.old v).price }
    ensures priced { IsPriced square body.now.net.now 1 flow.new (price_of spots.new) }
    ensures tracked { IsTracked body.now.net.now flow.new spots.new }
    ensures same { AreSame spots.old spots.new }
{
    for i in 0..body.net.arcs() {
        settle_arc(body, aim, i, flow, spots);
    }
}

// The passes over the arcs before the last one.
const AIMS: [Aim; 5] = [Aim::Least, Aim::Even, Aim::Most, Aim::Even, Aim::Even];

// Brings all arcs to least flows for the prices, of which those are chosen that leave the nodes little too much and
// too little.
fn settle_all(body: &Body, flow: &mut [u64], spots: &mut [Spot])
    requires body { IsBody body.now }
    requires tracked { IsTracked body.now.net.now flow.old spots.old }
    requires small { (v : ℕ) → IsWithin (2 ^ 92) (spot_at spots.old v).price }
    ensures priced { IsPriced square body.now.net.now 1 flow.new (price_of spots.new) }
    ensures tracked { IsTracked body.now.net.now flow.new spots.new }
    ensures same { AreSame spots.old spots.new }
{
    for k in 0..AIMS.len() {
        settle(body, AIMS[k], flow, spots);
    }
    settle(body, Aim::Even, flow, spots);
}

// Gives a node its price.
fn set_price(v: usize, price: i128, spots: &mut [Spot])
    requires node { v < length spots.old }
    ensures { spots.new ≡ slice_set spots.old v (priced_spot (spot_at spots.old v) price) }
{
    let spot = spots[v];
    spots[v] = Spot { price, ..spot };
}

// Gives all nodes their prices.
fn set_prices(prices: &[i128], spots: &mut [Spot])
    requires { length prices.now ≡ length spots.old }
    ensures { ArePriced prices.now (length prices.now) spots.old spots.new }
{
    for (v, price) in prices.iter().enumerate() {
        set_price(v, *price, spots);
    }
}

// Whether a solve begins with these prices: not all are 0, and none passes 2^88 either way.
fn are_warm(prices: &[i128]) -> bool
    ensures { IsTrue result → (v : ℕ) → v < length prices.now → IsWithin (2 ^ 88) (price_at prices.now v) }
{
    prices.iter().any(|p| *p != 0) && prices.iter().all(|p| -MOST <= *p && *p <= MOST)
}

// The most that a node has too much.
fn greatest_excess(spots: &[Spot]) -> i64
    ensures most { (v : ℕ) → v < length spots.now → (spot_at spots.now v).excess ≤ℤ result }
{
    let mut most = 0;
    for spot in spots {
        most = spot.excess.max(most);
    }
    most
}

// How many phases there are where the first step size is the least power of two that is at least
// `most`, and at most 2^30.
fn phases_for(most: i64) -> u32
    ensures some { 1 ≤ result }
    ensures few { result ≤ 31 }
    ensures covers { result < 31 → most ≤ℤ pos (2 ^ (result - 1)) }
{
    let mut phases = 1;
    while phases < 31 && (step_size(phases - 1) as i64) < most {
        phases += 1;
    }
    phases
}

// Begins with the prices that were handed in, and answers how many phases there are to be.
fn warm(body: &Body, prices: &[i128], flow: &mut [u64], spots: &mut [Spot]) -> u32
    requires body { IsBody body.now }
    requires tracked { IsTracked body.now.net.now flow.old spots.old }
    requires fresh { AreFresh spots.old }
    requires count { length prices.now ≡ length spots.old }
    requires small { (v : ℕ) → v < length prices.now → IsWithin (2 ^ 88) (price_at prices.now v) }
    ensures priced { IsPriced square body.now.net.now 1 flow.new (price_of spots.new) }
    ensures tracked { IsTracked body.now.net.now flow.new spots.new }
    ensures fresh { AreFresh spots.new }
    ensures small { AreWithin (2 ^ 88) spots.new }
    ensures some { 1 ≤ result }
    ensures few { result ≤ 31 }
{
    set_prices(prices, spots);
    settle_all(body, flow, spots);
    phases_for(greatest_excess(spots))
}

// Begins a solve, and answers how many phases there are to be: with the prices that were handed in, or
// else with all prices 0 and the flow as it is, where the first step size is 2^30.
pub(crate) fn start(body: &Body, prices: &[i128], flow: &mut [u64], spots: &mut [Spot]) -> u32
    requires body { IsBody body.now }
    requires tracked { IsTracked body.now.net.now flow.old spots.old }
    requires fresh { AreFresh spots.old }
    requires count { length prices.now ≡ length spots.old }
    requires small { AreWithin (2 ^ 88) spots.old }
    ensures priced { IsPriced square body.now.net.now (2 ^ result) flow.new (price_of spots.new) }
    ensures tracked { IsTracked body.now.net.now flow.new spots.new }
    ensures fresh { AreFresh spots.new }
    ensures small { AreWithin (2 ^ 88) spots.new }
    ensures some { 1 ≤ result }
    ensures few { result ≤ 31 }
{
    let _nodes = body.net.nodes();
    if are_warm(prices) {
        warm(body, prices, flow, spots)
    } else {
        31
    }
}
