// Solving the net of a fit.
ghost use Rattle.std.specs.Prelude.{◌≡◌, ◌≤◌, IfOk, IsTrue, length};
ghost use Rattle.tda_loss.specs.Curve.{value_of};
ghost use Rattle.tda_loss.specs.declared.Curve.{Curve};
ghost use Rattle.tda_loss.specs.Kept.{IsKept};
ghost use Rattle.tda_flow.specs.Network.{arc_count};
ghost use Rattle.tda_flow.specs.Flow.{IsCirculation};
ghost use Rattle.tda_descent.specs.Solved.{IsSolved};

use std::alloc::Global;
use tda_flow::{Net, Solver};
use tda_guess::guess;
use tda_io::NoMemory;
use tda_loss::Loss;

// Where a solver begins: with all prices 0, or with a guess from the net alone.
#[derive(Clone, Copy, Debug, PartialEq, Eq)]
pub(crate) enum Begin {
    Zero,
    Guess,
}

// The prices that a solver begins with.
fn first_prices(alloc: Global, net: &Net, begin: Begin) -> Result<Vec<i128>, NoMemory>
    ensures { IfOk result (λ prices. length prices.items ≡ net.now.nodes) }
{
    if begin == Begin::Guess {
        return guess(alloc, net);
    }
    Ok(vec![in alloc; 0; net.nodes() as usize]?)
}

// Makes a circulation a least one, and gives prices that certify it. A solver stays as large, and takes the
// same curves.
pub(crate) fn solve<S: Solver, F: Fn(i64) -> i128>(
    alloc: Global,
    net: &Net,
    loss: &Loss<F>,
    solver: &mut S,
    flow: &mut [u64],
    begin: Begin,
) -> Result<Vec<i128>, NoMemory>
    requires nodes { net.now.nodes ≤ S.most_nodes solver.old }
    requires arcs { arc_count net.now ≤ S.most_arcs solver.old }
    requires takes { IsTrue (S.takes_curve solver.old loss.now.curve) }
    requires kept { IsKept F.pre F.post loss.now }
    requires flow { IsCirculation net.now flow.old }
    ensures solved { IfOk result (λ prices. IsSolved (value_of loss.now.curve) net.now flow.new prices.items) }
    ensures same_nodes { S.most_nodes solver.new ≡ S.most_nodes solver.old }
    ensures same_arcs { S.most_arcs solver.new ≡ S.most_arcs solver.old }
    ensures same_curves { (c : Curve) → S.takes_curve solver.new c ≡ S.takes_curve solver.old c }
{
    let mut prices = first_prices(alloc, net, begin)?;
    solver.solve(net, loss, flow, &mut prices);
    Ok(prices)
}
