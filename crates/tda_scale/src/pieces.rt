// Pieces of flow that are sent along walks.
ghost use Rattle.std.specs.Prelude.{◌≡◌, ℕ, ◌<◌, ◌≤◌, ◌^◌, length, slice_set, pos, neg_ℤ};
ghost use Rattle.tda_loss.specs.Curve.{IsWithin};
ghost use Rattle.tda_flow.specs.Walk.{IsWalk, IsApart, moved, net_space};
ghost use Rattle.tda_scale.specs.Spots.{spot_at, gained_spot};
ghost use Rattle.tda_scale.specs.Tracked.{IsTracked, IsShift};

use crate::spots::Spot;
use tda_flow::{Net, Turn, move_along};

// Adds to what a node has too much.
fn gain(node: u32, more: i64, spots: &mut [Spot])
    requires node { node < length spots.old }
    requires excess { IsWithin (2 ^ 61) (spot_at spots.old node).excess }
    requires more { IsWithin (2 ^ 30) more }
    ensures { spots.new ≡ slice_set spots.old node (gained_spot (spot_at spots.old node) more) }
{
    let spot = spots[node as usize];
    spots[node as usize] = Spot {
        excess: spot.excess + more,
        ..spot
    };
}

// Takes a step from what one node has too much, and gives it to another.
fn shift(from: u32, to: u32, step: u64, spots: &mut [Spot])
    requires from { from < length spots.old }
    requires to { to < length spots.old }
    requires step { step ≤ 2 ^ 30 }
    requires small { (v : ℕ) → IsWithin (2 ^ 60) (spot_at spots.old v).excess }
    ensures { IsShift step from to spots.old spots.new }
{
    gain(from, -(step as i64), spots);
    gain(to, step as i64, spots);
}

// Sends a step along a walk with room for it that passes no arc twice.
pub(crate) fn send(
    net: &Net,
    walk: &[Turn],
    from: u32,
    to: u32,
    step: u64,
    flow: &mut [u64],
    spots: &mut [Spot],
)
    requires walk { IsWalk (net_space net.now flow.old step) from walk.now to }
    requires apart { IsApart walk.now }
    requires from { from < net.now.nodes }
    requires to { to < net.now.nodes }
    requires step { step ≤ 2 ^ 30 }
    requires tracked { IsTracked net.now flow.old spots.old }
    ensures flow { flow.new ≡ moved walk.now step flow.old }
    ensures tracked { IsTracked net.now flow.new spots.new }
    ensures shift { IsShift step from to spots.old spots.new }
{
    let _arcs = net.arcs();
    move_along(flow, walk, step);
    shift(from, to, step, spots);
}
