// The solver.
ghost use Rattle.std.specs.Prelude.{◌≡◌, ℕ, ◌<◌, ◌≤◌, ◌^◌, length, true, IfOk, ◌-ℤ◌};
ghost use Rattle.tda_loss.specs.Curve.{IsWithin};
ghost use Rattle.tda_flow.specs.Certificate.{price_at};
ghost use Rattle.tda_cancel.specs.Rows.{cost_at};

use crate::tables::{Tables, improve};
use std::alloc::Global;
use std::marker::Model;
use tda_flow::{Net, Solver};
use tda_io::NoMemory;
use tda_loss::{Curve, Loss};

/// A solver by closed walks of negative cost, for every curve.
///
/// It looks for a closed walk of single units whose cost is negative and that passes no node twice,
/// moves one unit along it, and begins again. Where there is none, least costs of walks are the prices.
/// One search makes at most as many rows of its table as there are nodes, and each row passes every
/// node and every arc: nodes · (nodes + arcs) in all. It ends as soon as a row repeats the one before.
/// Each unit that is moved along a walk takes a search, and one more finds that there is none.
#[derive(Drop)]
pub struct Cancel {
    nodes: u32,
    arcs: usize,
    tables: Tables,
}

impl Model for Cancel {
    ghost use Rattle.tda_cancel.specs.Size.{Size};

    ghost Value = { Size };

    ghost use Rattle.tda_cancel.specs.Inside.{size_of, IsCancel};

    ghost view = { size_of };

    ghost invariant = { IsCancel };
}

impl Cancel {
    /// A solver of nets of up to `nodes` nodes and `arcs` arcs, which are at most 2,048 and 65,536.
    ///
    /// All its memory is taken here: nodes² entries of 8 bytes, and some 100 bytes for each node and
    /// arc. `NoMemory` comes only where that can't be had.
    pub fn new(alloc: Global, nodes: u32, arcs: usize) -> Result<Cancel, NoMemory>
        requires nodes { nodes ≤ 2048 }
        requires arcs { arcs ≤ 65536 }
        ensures { IfOk result (λ solver. solver ≡ record { nodes = nodes; arcs = arcs }) }
    {
        let tables = Tables::new(alloc, nodes, arcs)?;
        Ok(Cancel {
            nodes,
            arcs,
            tables,
        })
    }
}

// Writes the costs less that of the hub.
fn write_prices(costs: &[i128], prices: &mut [i128])
    requires some { 1 ≤ length costs.now }
    requires count { length prices.old ≡ length costs.now }
    requires near { (v : ℕ) → v < length costs.now → IsWithin (2 ^ 73) (cost_at costs.now v) }
    ensures { (v : ℕ) → v < length costs.now → price_at prices.new v ≡ cost_at costs.now v -ℤ cost_at costs.now 0 }
{
    let hub = costs[0];
    for (v, price) in prices.iter_mut().enumerate() {
        *price = costs[v] - hub;
    }
}

impl Solver for Cancel {
    ghost most_nodes = { λ s. s.nodes };

    ghost most_arcs = { λ s. s.arcs };

    ghost takes_curve = { λ _ _. true };

    fn nodes(&self) -> u32 {
        self.nodes
    }

    fn arcs(&self) -> usize {
        self.arcs
    }

    fn takes(&self, _curve: Curve) -> bool {
        true
    }

    fn solve<F: Fn(i64) -> i128>(
        &mut self,
        net: &Net,
        loss: &Loss<F>,
        flow: &mut [u64],
        prices: &mut [i128],
    ) {
        while improve(net, loss, flow, &mut self.tables) {}
        let nodes = net.nodes() as usize;
        write_prices(&self.tables.costs[..nodes], prices);
    }
}
