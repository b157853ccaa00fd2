// The usable turns of a circulation, and what one unit along each of them costs.
ghost use Rattle.std.specs.Prelude.{◌≡◌, ◌+◌, ◌*◌, ◌<◌, ◌≤◌, ◌^◌, ◌↔◌, length, vec_len, vec_capacity, IsSome, IfSome};
ghost use Rattle.tda_loss.specs.Curve.{value_of, IsWithin};
ghost use Rattle.tda_loss.specs.Kept.{IsKept};
ghost use Rattle.tda_flow.specs.Network.{arc_count};
ghost use Rattle.tda_flow.specs.Flow.{IsCirculation};
ghost use Rattle.tda_flow.specs.Turns.{turn_number};
ghost use Rattle.tda_flow.specs.Walk.{IsUsable, net_space, turn_cost};
ghost use Rattle.tda_cancel.specs.Steps.{IsStep, AreSteps};

use tda_flow::{Net, Turn, step_cost};
use tda_loss::Loss;

// One unit along a usable turn: where it begins and ends, and what it adds to the cost.
#[derive(Clone, Copy, Debug, PartialEq, Eq)]
pub(crate) struct Step {
    pub(crate) turn: Turn,
    pub(crate) from: u32,
    pub(crate) to: u32,
    pub(crate) cost: i128,
}

// What one unit along a turn adds to the cost, None where it would leave the bounds of the arc.
fn unit_cost<F: Fn(i64) -> i128>(
    net: &Net,
    loss: &Loss<F>,
    flow: &[u64],
    turn: Turn,
) -> Option<i128>
    requires kept { IsKept F.pre F.post loss.now }
    requires flow { IsCirculation net.now flow.now }
    requires arc { turn.arc < arc_count net.now }
    ensures usable { IsSome result ↔ IsUsable (net_space net.now flow.now 1) turn }
    ensures value { IfSome result (λ cost. cost ≡ turn_cost (value_of loss.now.curve) net.now 1 flow.now turn) }
    ensures near { IfSome result (λ cost. IsWithin (2 ^ 61) cost) }
{
    let arc = net.arc(turn.arc);
    let terms = net.terms(turn.arc);
    let x = flow[turn.arc];
    if turn.back {
        if x <= arc.low {
            return None;
        }
        Some(-step_cost(terms, loss, x - 1))
    } else {
        if arc.high <= x {
            return None;
        }
        Some(step_cost(terms, loss, x))
    }
}

// The step along a turn, None where the turn isn't usable.
fn step_along<F: Fn(i64) -> i128>(
    net: &Net,
    loss: &Loss<F>,
    flow: &[u64],
    turn: Turn,
) -> Option<Step>
    requires kept { IsKept F.pre F.post loss.now }
    requires flow { IsCirculation net.now flow.now }
    requires arc { turn.arc < arc_count net.now }
    ensures usable { IsSome result ↔ IsUsable (net_space net.now flow.now 1) turn }
    ensures turn { IfSome result (λ step. step.turn ≡ turn) }
    ensures step { IfSome result (IsStep (value_of loss.now.curve) net.now flow.now) }
{
    let cost = unit_cost(net, loss, flow, turn)?;
    Some(Step {
        turn,
        from: turn.start(net),
        to: turn.end(net),
        cost,
    })
}

// Adds the step along the turn to those along the turns before it, where the turn is usable.
fn push_step<F: Fn(i64) -> i128>(
    net: &Net,
    loss: &Loss<F>,
    flow: &[u64],
    turn: Turn,
    steps: &mut Vec<Step>,
)
    requires kept { IsKept F.pre F.post loss.now }
    requires flow { IsCirculation net.now flow.now }
    requires arc { turn.arc < arc_count net.now }
    requires steps { AreSteps (value_of loss.now.curve) net.now flow.now (turn_number turn) steps.old.items }
    requires room { turn_number turn < vec_capacity steps.old }
    ensures steps { AreSteps (value_of loss.now.curve) net.now flow.now (turn_number turn + 1) steps.new.items }
    ensures room { vec_capacity steps.old ≤ vec_capacity steps.new }
{
    if let Some(step) = step_along(net, loss, flow, turn) {
        steps.push(step).unwrap();
    }
}

// Lists the steps along all usable turns, arc by arc. The list has room for two steps per arc.
pub(crate) fn list_steps<F: Fn(i64) -> i128>(
    net: &Net,
    loss: &Loss<F>,
    flow: &[u64],
    steps: &mut Vec<Step>,
)
    requires kept { IsKept F.pre F.post loss.now }
    requires flow { IsCirculation net.now flow.now }
    requires room { 2 * arc_count net.now ≤ vec_capacity steps.old }
    ensures steps { AreSteps (value_of loss.now.curve) net.now flow.now (2 * arc_count net.now) steps.new.items }
    ensures room { vec_capacity steps.old ≤ vec_capacity steps.new }
{
    steps.clear();
    for arc in 0..net.arcs() {
        push_step(net, loss, flow, Turn { arc, back: false }, steps);
        push_step(net, loss, flow, Turn { arc, back: true }, steps);
    }
}
