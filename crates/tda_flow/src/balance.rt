// Whether a flow is a circulation.
ghost use Rattle.std.specs.Prelude.{◌≡◌, ℕ, ◌<◌, ◌≤◌, ◌^◌, length, slice_index, IsTrue, ◌↔◌, pos, neg_ℤ, cond, ◌-ℤ◌};
ghost use Rattle.tda_flow.specs.Flow.{IsCirculation, IsWithinBounds, into, out_of};
ghost use Rattle.tda_flow.specs.Network.{arc_count};

use crate::net::Net;

// The amount `x` that passes a turn over its arc, as what comes into the node where the turn begins.
fn come_in(back: bool, x: u64) -> i64
    requires { x ≤ 2 ^ 30 }
    ensures { result ≡ cond back (pos x) (neg_ℤ (pos x)) }
{
    if back { x as i64 } else { -(x as i64) }
}

// How much more comes into node `v` than goes out of it. It passes the turns at the node alone. At most
// 2^21 turns of at most 2^30 each give at most 2^51 either way.
fn surplus(net: &Net, flow: &[u64], v: u32) -> i64
    requires count { length flow.now ≡ arc_count net.now }
    requires few { (k : ℕ) → k < length flow.now → slice_index flow.now k ≤ 2 ^ 30 }
    ensures { result ≡ into net.now flow.now v -ℤ out_of net.now flow.now v }
{
    let _arcs = net.arcs();
    let mut sum: i64 = 0;
    let mut next = net.first_turn(v);
    while let Some(turn) = next {
        sum += come_in(turn.back, flow[turn.arc]);
        next = net.next_turn(turn);
    }
    sum
}

// Whether at node `v` what comes in goes out.
fn balances(net: &Net, flow: &[u64], v: u32) -> bool
    requires count { length flow.now ≡ arc_count net.now }
    requires few { (k : ℕ) → k < length flow.now → slice_index flow.now k ≤ 2 ^ 30 }
    ensures { IsTrue result ↔ (into net.now flow.now v ≡ out_of net.now flow.now v) }
{
    surplus(net, flow, v) == 0
}

// Whether each flow is within the bounds of its arc.
fn keeps_bounds(net: &Net, flow: &[u64]) -> bool
    requires { length flow.now ≡ arc_count net.now }
    ensures { IsTrue result ↔ IsWithinBounds net.now flow.now }
{
    for i in 0..net.arcs() {
        let arc = net.arc(i);
        if flow[i] < arc.low || arc.high < flow[i] {
            return false;
        }
    }
    true
}

/// Whether the flow is a circulation of the net: each flow within the bounds of its arc, and at each
/// node as much coming in as going out. There is one flow per arc, each at most 2^30.
///
/// It passes each arc once for its bounds and once for each of its ends.
pub fn is_circulation(net: &Net, flow: &[u64]) -> bool
    requires count { length flow.now ≡ arc_count net.now }
    requires few { (k : ℕ) → k < length flow.now → slice_index flow.now k ≤ 2 ^ 30 }
    ensures { IsTrue result ↔ IsCirculation net.now flow.now }
{
    if !keeps_bounds(net, flow) {
        return false;
    }
    for v in 0..net.nodes() {
        if !balances(net, flow, v) {
            return false;
        }
    }
    true
}
