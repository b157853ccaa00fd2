// What a solver keeps for its searches.
ghost use Rattle.std.specs.Prelude.{◌≡◌, ℕ, ◌≤◌, ◌^◌, IfOk, replicate, vec_len, vec_capacity};
ghost use Rattle.tda_scale.specs.Spots.{no_spot};
ghost use Rattle.tda_scale.specs.Phase.{HasRoom};

use crate::queue::Queue;
use crate::spots::{Mark, Quote, Spot};
use std::alloc::Global;
use tda_flow::Turn;
use tda_io::NoMemory;

// The places of a walk before a search has found one.
const NOWHERE: Turn = Turn {
    arc: 0,
    back: false,
};

// A node that a solve begins with.
const FRESH: Spot = Spot {
    price: 0,
    excess: 0,
    label: 0,
    via: NOWHERE,
    depth: 0,
    mark: Mark::Fresh,
};

// An arc without room.
const FULL: Quote = Quote {
    up: None,
    down: None,
};

// Makes a list one of `count` times the same item, where it has room for that.
fn refill<T: Copy>(list: &mut Vec<T>, item: T, count: usize)
    requires { count ≤ vec_capacity list.old }
    ensures items { list.new.items ≡ replicate count item }
    ensures room { vec_capacity list.old ≤ vec_capacity list.new }
{
    list.clear();
    for _ in 0..count {
        list.push(item).unwrap();
    }
}

// The nodes and arcs of a net, the nodes from which a search of this phase found none, the queue and the
// nodes of a search, and the walk that it found.
#[derive(Drop)]
pub(crate) struct Tables {
    pub(crate) spots: Vec<Spot>,
    pub(crate) quotes: Vec<Quote>,
    pub(crate) shut: Vec<bool>,
    pub(crate) queue: Queue,
    pub(crate) found: Vec<u32>,
    pub(crate) walk: Vec<Turn>,
}

impl Tables {
    // Tables for nets of at most so many nodes and arcs.
    pub(crate) fn new(alloc: Global, nodes: u32, arcs: usize) -> Result<Tables, NoMemory>
        requires nodes { nodes ≤ 65536 }
        requires arcs { arcs ≤ 2 ^ 20 }
        ensures { IfOk result (HasRoom nodes arcs) }
    {
        let nodes = nodes as usize;
        Ok(Tables {
            spots: Vec::with_capacity(alloc, nodes)?,
            quotes: Vec::with_capacity(alloc, arcs)?,
            shut: Vec::with_capacity(alloc, nodes)?,
            queue: Queue::new(alloc, 2 * arcs + 1)?,
            found: Vec::with_capacity(alloc, nodes)?,
            walk: vec![in alloc; NOWHERE; nodes]?,
        })
    }
    // Makes the tables those of a net of so many nodes and arcs. All prices are 0, and no node has
    // anything too much.
    pub(crate) fn begin(&mut self, nodes: u32, arcs: usize)
        requires { HasRoom nodes arcs self.old }
        ensures spots { self.new.spots.items ≡ replicate nodes no_spot }
        ensures quotes { vec_len self.new.quotes ≡ arcs }
        ensures shut { vec_len self.new.shut ≡ nodes }
        ensures room { (n m : ℕ) → HasRoom n m self.old → HasRoom n m self.new }
    {
        refill(&mut self.spots, FRESH, nodes as usize);
        refill(&mut self.quotes, FULL, arcs);
        refill(&mut self.shut, false, nodes as usize);
    }
}
