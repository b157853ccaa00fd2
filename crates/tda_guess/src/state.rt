// What a guess keeps.
use crate::numbers::{FAR, read, write};
use crate::shape::{Shape, shape_of};
use std::alloc::Global;
use tda_flow::Net;
use tda_io::NoMemory;

// A unit's group: the sum of its weights, the sum of weight · target, and its bounds.
#[derive(Clone, Copy, Debug, PartialEq, Eq)]
pub(crate) struct Group {
    pub(crate) weight: i128,
    pub(crate) pull: i128,
    pub(crate) low: i128,
    pub(crate) high: i128,
}

// Whether a flow is at a bound.
#[derive(Clone, Copy, Debug, PartialEq, Eq)]
pub(crate) enum Hold {
    Low,
    Free,
    High,
}

// A unit's group as it answers: its price and flow in parts.
#[derive(Clone, Copy, Debug, PartialEq, Eq)]
pub(crate) struct Reply {
    pub(crate) price: i128,
    pub(crate) flow: i128,
    pub(crate) hold: Hold,
}

// What comes into a unit's group for its price: base + slope · price, and nothing from the price `top` on
// where the slope is 0.
#[derive(Clone, Copy, Debug, PartialEq, Eq)]
pub(crate) struct Rise {
    pub(crate) base: i128,
    pub(crate) slope: i128,
    pub(crate) top: i128,
}

// A group in all units: the next larger one, the count of the cells whose smallest group it is, their price in
// parts, and what the units leave of the count.
#[derive(Clone, Copy, Debug, PartialEq, Eq)]
pub(crate) struct Pool {
    pub(crate) next: usize,
    pub(crate) own: bool,
    pub(crate) count: i128,
    pub(crate) price: i128,
    pub(crate) left: i128,
    pub(crate) free: i128,
    pub(crate) shift: i128,
}

pub(crate) const NO_GROUP: Group = Group {
    weight: 0,
    pull: 0,
    low: 0,
    high: 0,
};

pub(crate) const NO_REPLY: Reply = Reply {
    price: 0,
    flow: 0,
    hold: Hold::Low,
};

pub(crate) const NO_RISE: Rise = Rise {
    base: 0,
    slope: 0,
    top: FAR,
};

pub(crate) const NO_POOL: Pool = Pool {
    next: usize::MAX,
    own: false,
    count: 0,
    price: 0,
    left: 0,
    free: 0,
    shift: 0,
};

#[derive(Drop)]
pub(crate) struct State {
    pub(crate) shape: Shape,
    pub(crate) groups: Vec<Group>,
    pub(crate) replies: Vec<Reply>,
    pub(crate) rises: Vec<Rise>,
    pub(crate) pools: Vec<Pool>,
}

// How a group begins.
fn first_reply(group: Group) -> Reply {
    let hold = if group.low == group.high {
        Hold::High
    } else if group.weight == 0 || group.pull > 0 {
        Hold::Free
    } else {
        Hold::Low
    };
    Reply { hold, ..NO_REPLY }
}

// Reads the groups of all units.
fn read_groups(net: &Net, state: &mut State) -> Result<(), NoMemory> {
    for place in 0..state.shape.all_groups() {
        let group = state.shape.group(net, place);
        state.groups.push(group)?;
        state.replies.push(first_reply(group))?;
    }
    Ok(())
}

// Links the groups.
fn link_groups(net: &Net, state: &mut State) -> Result<(), NoMemory> {
    for group in 0..state.shape.groups {
        let next = state.shape.next(net, group);
        state.pools.push(Pool { next, ..NO_POOL })?;
        state.rises.push(NO_RISE)?;
    }
    Ok(())
}

// Adds the cells' counts to their smallest groups.
fn count_pools(net: &Net, state: &mut State) {
    for cell in 0..state.shape.cells {
        let group = state.shape.smallest(net, cell);
        let pool = read(&state.pools, group, NO_POOL);
        let count = pool.count.wrapping_add(state.shape.count(net, cell));
        let more = Pool {
            own: true,
            count,
            ..pool
        };
        write(&mut state.pools, group, more);
    }
}

// A guess before its first round.
pub(crate) fn begin(alloc: Global, net: &Net) -> Result<State, NoMemory> {
    let mut state = State {
        shape: shape_of(net),
        groups: Vec::new(alloc),
        replies: Vec::new(alloc),
        rises: Vec::new(alloc),
        pools: Vec::new(alloc),
    };
    read_groups(net, &mut state)?;
    link_groups(net, &mut state)?;
    count_pools(net, &mut state);
    Ok(state)
}
