// How a unit's tree answers the prices of the cells.
use crate::numbers::{FAR, ONE, WHOLE, minus, plus, ratio, read, times, write};
use crate::state::{Group, Hold, NO_GROUP, NO_POOL, NO_REPLY, NO_RISE, Pool, Reply, Rise, State};

// The flow of a bound in parts.
fn bound(group: Group, hold: Hold) -> i128 {
    if hold == Hold::High {
        return times(group.high, ONE);
    }
    times(group.low, ONE)
}

// The pull in parts.
fn pull(group: Group) -> i128 {
    times(group.pull, ONE)
}

// What a group of cells passes on.
fn cell_rise(group: Group, hold: Hold, pool: Pool) -> Rise {
    if pool.count <= 0 {
        return NO_RISE;
    }
    let top = minus(pool.price, times(2, pull(group)));
    if hold == Hold::Low || group.weight == 0 {
        let base = bound(group, Hold::Low);
        return Rise {
            base,
            slope: 0,
            top,
        };
    }
    let base = ratio(minus(pull(group), pool.price / 2), group.weight);
    let slope = ratio(WHOLE, times(2, group.weight));
    Rise { base, slope, top }
}

// 1 + 2 · weight · slope.
fn strain(group: Group, rise: Rise) -> i128 {
    plus(WHOLE, times(times(2, rise.slope), group.weight))
}

// What another group passes on.
fn group_rise(group: Group, hold: Hold, rise: Rise) -> Rise {
    let top = minus(rise.top, times(2, pull(group)));
    if hold != Hold::Free {
        let base = bound(group, hold);
        return Rise {
            base,
            slope: 0,
            top,
        };
    }
    let drawn = times(times(2, rise.slope), pull(group));
    let base = ratio(plus(times(rise.base, WHOLE), drawn), strain(group, rise));
    let slope = ratio(times(rise.slope, WHOLE), strain(group, rise));
    Rise { base, slope, top }
}

// Passes a group's rise to the next one.
fn pass_rise(state: &mut State, unit: usize, k: usize) {
    let place = state.shape.place(unit, k);
    let group = read(&state.groups, place, NO_GROUP);
    let hold = read(&state.replies, place, NO_REPLY).hold;
    let pool = read(&state.pools, k, NO_POOL);
    let more = if pool.own {
        cell_rise(group, hold, pool)
    } else {
        group_rise(group, hold, read(&state.rises, k, NO_RISE))
    };
    let had = read(&state.rises, pool.next, NO_RISE);
    let sum = Rise {
        base: plus(had.base, more.base),
        slope: plus(had.slope, more.slope),
        top: had.top.min(more.top),
    };
    write(&mut state.rises, pool.next, sum);
}

// The reply of a group of cells.
fn cell_reply(group: Group, pool: Pool, above: i128) -> Reply {
    let price = pool.price;
    let half = minus(above, price) / 2;
    let flow = ratio(plus(pull(group), half), group.weight);
    let low = bound(group, Hold::Low);
    if pool.count <= 0 || group.weight == 0 || flow <= low {
        return Reply {
            price,
            flow: low,
            hold: Hold::Low,
        };
    }
    Reply {
        price,
        flow,
        hold: Hold::Free,
    }
}

// The reply of another group whose flow was free.
fn free_reply(group: Group, rise: Rise, above: i128) -> Reply {
    let drawn = times(rise.slope, plus(above, times(2, pull(group))));
    let drawn = if group.weight == 0 {
        times(rise.slope, above)
    } else {
        drawn
    };
    let flow = ratio(plus(times(rise.base, WHOLE), drawn), strain(group, rise));
    let fall = times(2, minus(times(group.weight, flow), pull(group)));
    let price = minus(above, fall);
    let price = if rise.slope == 0 && rise.top < FAR / 2 {
        price.max(rise.top)
    } else {
        price
    };
    let low = bound(group, Hold::Low);
    let high = bound(group, Hold::High);
    if flow < low {
        return Reply {
            price,
            flow: low,
            hold: Hold::Low,
        };
    }
    if flow > high {
        return Reply {
            price,
            flow: high,
            hold: Hold::High,
        };
    }
    Reply {
        price,
        flow,
        hold: Hold::Free,
    }
}

// The reply of another group whose flow was at a bound.
fn bound_reply(group: Group, hold: Hold, rise: Rise, above: i128) -> Reply {
    let flow = bound(group, hold);
    let price = if rise.slope > 0 {
        ratio(times(minus(flow, rise.base), WHOLE), rise.slope)
    } else if rise.top < FAR / 2 {
        rise.top
    } else {
        above
    };
    let fall = times(2, minus(times(group.weight, flow), pull(group)));
    let gap = minus(above, price);
    let leaves = if hold == Hold::High {
        fall > gap
    } else {
        fall < gap
    };
    let hold = if leaves && group.low != group.high {
        Hold::Free
    } else {
        hold
    };
    Reply { price, flow, hold }
}

// Settles a group of a unit, and answers whether its hold changed.
fn reply(state: &mut State, unit: usize, k: usize) -> bool {
    let place = state.shape.place(unit, k);
    let group = read(&state.groups, place, NO_GROUP);
    let had = read(&state.replies, place, NO_REPLY);
    let pool = read(&state.pools, k, NO_POOL);
    let rise = read(&state.rises, k, NO_RISE);
    let above = if pool.next < state.shape.groups {
        read(&state.replies, state.shape.place(unit, pool.next), NO_REPLY).price
    } else {
        0
    };
    let new = if pool.own {
        cell_reply(group, pool, above)
    } else if had.hold == Hold::Free {
        free_reply(group, rise, above)
    } else {
        bound_reply(group, had.hold, rise, above)
    };
    write(&mut state.replies, place, new);
    new.hold != had.hold
}

// Passes the rises of a unit up, the smaller groups first.
fn rise_all(state: &mut State, unit: usize) {
    for rise in &mut state.rises {
        *rise = NO_RISE;
    }
    pass_all(state, unit);
}

fn pass_all(state: &mut State, unit: usize) {
    for k in (0..state.shape.groups).rev() {
        pass_rise(state, unit, k);
    }
}

// Settles the groups of a unit, the larger ones first, and answers whether a hold changed.
fn reply_all(state: &mut State, unit: usize) -> bool {
    let mut moved = false;
    for k in 0..state.shape.groups {
        let changed = reply(state, unit, k);
        moved = moved || changed;
    }
    moved
}

// Settles a unit in at most six passes.
fn answer(state: &mut State, unit: usize) {
    for _ in 0..6 {
        rise_all(state, unit);
        if !reply_all(state, unit) {
            break;
        }
    }
}

// Settles all units.
pub(crate) fn answer_all(state: &mut State) {
    for unit in 0..state.shape.units {
        answer(state, unit);
    }
}
