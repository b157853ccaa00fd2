// The guess.
ghost use Rattle.std.specs.Prelude.{◌≡◌, ◌^◌, length, All, IfOk};
ghost use Rattle.tda_loss.specs.Curve.{IsWithin};

use crate::answer::answer_all;
use crate::level::{move_all, price_of};
use crate::state::{State, begin};
use std::alloc::Global;
use tda_flow::Net;
use tda_io::NoMemory;

// The greatest price, either way.
const MOST: i128 = 1 << 88;

// How often the prices of the cells move.
const ROUNDS: usize = 3;

// A price no further from 0 than the greatest.
fn bounded(price: i128) -> i128
    ensures { IsWithin (2 ^ 88) result }
{
    if price < -MOST {
        return -MOST;
    }
    if price > MOST {
        return MOST;
    }
    price
}

// The price of a node.
fn node_price(net: &Net, state: &State, node: usize) -> i128 {
    let shape = state.shape;
    if node == 0 {
        return 0;
    }
    if node <= shape.cells {
        return price_of(state, 0, shape.smallest(net, node - 1));
    }
    let place = node.wrapping_sub(shape.cells).wrapping_sub(1);
    if shape.groups == 0 {
        return 0;
    }
    price_of(state, place / shape.groups, place % shape.groups)
}

// The prices of all nodes.
fn write_prices(alloc: Global, net: &Net, state: &State) -> Result<Vec<i128>, NoMemory>
    ensures count { IfOk result (λ prices. length prices.items ≡ net.now.nodes) }
    ensures near { IfOk result (λ prices. All (IsWithin (2 ^ 88)) prices.items) }
{
    let mut prices = Vec::new(alloc);
    for node in 0..net.nodes() {
        prices.push(bounded(node_price(net, state, node as usize)))?;
    }
    Ok(prices)
}

// The rounds of a guess.
fn run(state: &mut State) {
    for round in 0..ROUNDS {
        answer_all(state);
        move_all(state, round + 1 == ROUNDS);
    }
}

/// Prices for a solver to begin a split with, from the net of the split alone: one for each node, none above 2^88 either
/// way. The better they are the less a solver has to do, and nothing is claimed of that.
pub fn guess(alloc: Global, net: &Net) -> Result<Vec<i128>, NoMemory>
    ensures count { IfOk result (λ prices. length prices.items ≡ net.now.nodes) }
    ensures near { IfOk result (λ prices. All (IsWithin (2 ^ 88)) prices.items) }
{
    let mut state = begin(alloc, net)?;
    run(&mut state);
    write_prices(alloc, net, &state)
}
