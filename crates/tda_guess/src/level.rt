// How the prices of the cells move.
use crate::numbers::{FAR, ONE, minus, nearest, plus, ratio, read, times, write};
use crate::state::{Group, Hold, NO_GROUP, NO_POOL, NO_REPLY, Pool, State};

// The price of a unit's group, in whole numbers, and 0 where there is none.
pub(crate) fn price_of(state: &State, unit: usize, k: usize) -> i128 {
    if k >= state.shape.groups {
        return 0;
    }
    let pool = read(&state.pools, k, NO_POOL);
    if pool.own {
        return nearest(pool.price);
    }
    nearest(read(&state.replies, state.shape.place(unit, k), NO_REPLY).price)
}

// The greatest flow of least cost at a gap between prices.
fn most(group: Group, gap: i128) -> i128 {
    let rest = plus(plus(times(2, group.pull), gap), group.weight);
    ratio(rest, times(2, group.weight))
        .min(group.high)
        .max(group.low)
}

// The most that all units take of a group's cells at a price.
fn total(state: &State, k: usize, price: i128) -> i128 {
    let next = read(&state.pools, k, NO_POOL).next;
    let mut sum: i128 = 0;
    for unit in 0..state.shape.units {
        let group = read(&state.groups, state.shape.place(unit, k), NO_GROUP);
        let gap = minus(price_of(state, unit, next), price);
        sum = sum.wrapping_add(most(group, gap));
    }
    sum
}

// Two prices, of which the first takes the count and the other doesn't.
fn bracket(state: &State, k: usize, pool: Pool) -> (i128, i128) {
    let start = nearest(pool.price);
    let up = total(state, k, start) >= pool.count;
    let mut edge = start;
    let mut step: i128 = if up { 1 } else { -1 };
    for _ in 0..48 {
        let next = plus(start, step);
        let takes = total(state, k, next) >= pool.count;
        if takes && !up {
            return (next, edge);
        }
        if up && !takes {
            return (edge, next);
        }
        edge = next;
        step = times(2, step);
    }
    (edge, edge)
}

// The greatest price at which all units can take the count of a group's cells.
fn level(state: &State, k: usize, pool: Pool) -> i128 {
    let (mut low, mut high) = bracket(state, k, pool);
    for _ in 0..48 {
        if minus(high, low) <= 1 {
            break;
        }
        let middle = plus(low, minus(high, low) / 2);
        if total(state, k, middle) >= pool.count {
            low = middle;
        } else {
            high = middle;
        }
    }
    low
}

// The least price at which no unit takes more of a group's cells.
fn closing(state: &State, k: usize, pool: Pool) -> i128 {
    let mut top = -FAR;
    for unit in 0..state.shape.units {
        let group = read(&state.groups, state.shape.place(unit, k), NO_GROUP);
        let price = plus(price_of(state, unit, pool.next), times(2, group.pull));
        top = top.max(price);
    }
    top
}

// Adds up what a unit takes of a group.
fn tally(state: &mut State, k: usize, unit: usize) {
    let pool = read(&state.pools, k, NO_POOL);
    let reply = read(&state.replies, state.shape.place(unit, k), NO_REPLY);
    let free = if reply.hold == Hold::Free { 1 } else { 0 };
    let left = if pool.own {
        minus(pool.left, reply.flow)
    } else {
        pool.left
    };
    let free = plus(pool.free, free);
    write(&mut state.pools, k, Pool { left, free, ..pool });
}

// Adds up what all units take of a group, and passes what is left to the next one.
fn tally_group(state: &mut State, k: usize) {
    for unit in 0..state.shape.units {
        tally(state, k, unit);
    }
    let pool = read(&state.pools, k, NO_POOL);
    let next = read(&state.pools, pool.next, NO_POOL);
    let left = plus(next.left, pool.left);
    write(&mut state.pools, pool.next, Pool { left, ..next });
}

// Adds up what is left of all counts, the smaller groups first.
fn tally_all(state: &mut State) {
    for k in (0..state.shape.groups).rev() {
        tally_group(state, k);
    }
}

// Begins to add up.
fn reset(pools: &mut [Pool]) {
    for pool in pools {
        let left = if pool.count > 0 {
            times(pool.count, ONE)
        } else {
            0
        };
        *pool = Pool {
            left,
            free: 0,
            ..*pool
        };
    }
}

// How far the price of a group moves by what is left.
fn shift(state: &State, k: usize, pool: Pool) -> i128 {
    let above = read(&state.pools, pool.next, NO_POOL).shift;
    let weight = read(&state.groups, k, NO_GROUP).weight;
    if pool.own || weight == 0 || pool.free == 0 {
        return above;
    }
    let pressed = times(times(2, weight), pool.left);
    minus(above, ratio(pressed, pool.free))
}

// Moves the price of a group's cells.
fn move_pool(state: &mut State, k: usize, last: bool) {
    let pool = read(&state.pools, k, NO_POOL);
    let shift = if last { 0 } else { shift(state, k, pool) };
    let weight = read(&state.groups, k, NO_GROUP).weight;
    let level = if !pool.own {
        0
    } else if weight == 0 || pool.count <= 0 {
        closing(state, k, pool)
    } else {
        level(state, k, pool)
    };
    let price = plus(times(level, ONE), shift);
    write(
        &mut state.pools,
        k,
        Pool {
            price,
            shift,
            ..pool
        },
    );
}

// Moves the prices of all cells, the larger groups first. The last time they are those at which the units can take
// all counts.
pub(crate) fn move_all(state: &mut State, last: bool) {
    reset(&mut state.pools);
    tally_all(state);
    move_pools(state, last);
}

fn move_pools(state: &mut State, last: bool) {
    for k in 0..state.shape.groups {
        move_pool(state, k, last);
    }
}
