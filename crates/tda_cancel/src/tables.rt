// What a solver keeps, and one improvement of a circulation by it.
ghost use Rattle.std.specs.Prelude.{◌≡◌, ℕ, ◌<◌, ◌≤◌, ◌^◌, ◌<ℤ◌, length, slice_range, vec_len, IsTrue, IsFalse, IfOk, IfNone, IfSome};
ghost use Rattle.tda_loss.specs.Curve.{value_of, IsWithin};
ghost use Rattle.tda_loss.specs.Kept.{IsKept};
ghost use Rattle.tda_flow.specs.Network.{arc_count};
ghost use Rattle.tda_flow.specs.Flow.{IsCirculation, cost};
ghost use Rattle.tda_cancel.specs.Steps.{AreBetween};
ghost use Rattle.tda_cancel.specs.Rows.{cost_at, IsSettled};
ghost use Rattle.tda_cancel.specs.Trace.{IsLosing};
ghost use Rattle.tda_cancel.specs.Room.{HasRoom, NoneLowers};

use crate::rows::settle;
use crate::steps::{Step, list_steps};
use crate::trace::close_walk;
use std::alloc::Global;
use tda_flow::{Net, Turn, move_along};
use tda_io::NoMemory;
use tda_loss::Loss;

// The places of a walk before a search has found one.
const NOWHERE: Turn = Turn {
    arc: 0,
    back: false,
};

// The steps of a circulation, two rows of costs, a table of last steps with a row for each node, and
// the walk that they spell with its marks at the nodes.
#[derive(Drop)]
pub(crate) struct Tables {
    pub(crate) steps: Vec<Step>,
    pub(crate) costs: Vec<i128>,
    pub(crate) before: Vec<i128>,
    pub(crate) lasts: Vec<Option<u32>>,
    pub(crate) marks: Vec<Option<usize>>,
    pub(crate) walk: Vec<Turn>,
}

impl Tables {
    // Tables for nets of at most so many nodes and arcs.
    pub(crate) fn new(alloc: Global, nodes: u32, arcs: usize) -> Result<Tables, NoMemory>
        requires nodes { nodes ≤ 2048 }
        requires arcs { arcs ≤ 65536 }
        ensures { IfOk result (HasRoom nodes arcs) }
    {
        let nodes = nodes as usize;
        Ok(Tables {
            steps: Vec::with_capacity(alloc, 2 * arcs)?,
            costs: vec![in alloc; 0; nodes]?,
            before: vec![in alloc; 0; nodes]?,
            lasts: vec![in alloc; None; nodes * nodes]?,
            marks: vec![in alloc; None; nodes]?,
            walk: vec![in alloc; NOWHERE; nodes]?,
        })
    }
}

// Finds a closed walk of negative cost that passes no node twice, and answers where it begins and ends
// among the turns of the tables' walk. None where there is no such walk, and then the tables have costs
// of the nodes that no step lowers.
fn losing_walk(nodes: usize, tables: &mut Tables) -> Option<(usize, usize)>
    requires steps { AreBetween nodes tables.old.steps.items }
    requires few { length tables.old.steps.items ≤ 2 ^ 21 }
    requires some { 1 ≤ nodes }
    requires nodes { nodes ≤ 2048 }
    requires room { HasRoom nodes 0 tables.old }
    ensures steps { tables.new.steps ≡ tables.old.steps }
    ensures settled { IfNone result (IsSettled tables.old.steps.items tables.new.costs.items) }
    ensures near { (v : ℕ) → v < nodes → IsWithin (2 ^ 73) (cost_at tables.new.costs.items v) }
    ensures order { IfSome result (λ ends. ends.0 ≤ ends.1) }
    ensures within { IfSome result (λ ends. ends.1 ≤ vec_len tables.new.walk) }
    ensures losing { IfSome result (λ ends. IsLosing tables.old.steps.items (slice_range tables.new.walk.items ends.0 ends.1)) }
    ensures room { (n m : ℕ) → HasRoom n m tables.old → HasRoom n m tables.new }
{
    let costs = &mut tables.costs;
    let before = &mut tables.before;
    let start = settle(nodes, &tables.steps, costs, before, &mut tables.lasts)?;
    let marks = &mut tables.marks;
    let walk = &mut tables.walk;
    let ends = close_walk(nodes, &tables.steps, &tables.lasts, start, marks, walk);
    Some(ends)
}

// Moves one unit along a closed walk of negative cost. Where there is none it leaves the flow, and the
// tables have costs of the nodes that no usable turn lowers.
pub(crate) fn improve<F: Fn(i64) -> i128>(
    net: &Net,
    loss: &Loss<F>,
    flow: &mut [u64],
    tables: &mut Tables,
) -> bool
    requires kept { IsKept F.pre F.post loss.now }
    requires flow { IsCirculation net.now flow.old }
    requires nodes { net.now.nodes ≤ 2048 }
    requires arcs { arc_count net.now ≤ 65536 }
    requires room { HasRoom net.now.nodes (arc_count net.now) tables.old }
    ensures flow { IsCirculation net.now flow.new }
    ensures same { IsFalse result → flow.new ≡ flow.old }
    ensures cheaper { IsTrue result → cost (value_of loss.now.curve) net.now flow.new <ℤ cost (value_of loss.now.curve) net.now flow.old }
    ensures settled { IsFalse result → NoneLowers (value_of loss.now.curve) net.now flow.new (cost_at tables.new.costs.items) }
    ensures near { (v : ℕ) → v < net.now.nodes → IsWithin (2 ^ 73) (cost_at tables.new.costs.items v) }
    ensures room { (n m : ℕ) → HasRoom n m tables.old → HasRoom n m tables.new }
{
    let nodes = net.nodes() as usize;
    list_steps(net, loss, flow, &mut tables.steps);
    let Some((first, end)) = losing_walk(nodes, tables) else {
        return false;
    };
    move_along(flow, &tables.walk[first..end], 1);
    true
}
