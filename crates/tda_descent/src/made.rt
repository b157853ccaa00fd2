// A fit, as it is read off a solved net.
ghost use Rattle.std.specs.Prelude.{◌≡◌};
ghost use Rattle.tda_loss.specs.Curve.{value_of};
ghost use Rattle.tda_loss.specs.Kept.{IsKept};
ghost use Rattle.tda_descent.specs.Solved.{IsSolved};
ghost use Rattle.tda_descent.specs.Made.{IsMadeOf};

use crate::deviation::flow_deviation;
use crate::fit::Fit;
use tda_flow::Net;
use tda_loss::Loss;

// The fit of these units, whose counts were read off the flow. The hub's price is left out.
pub(crate) fn fit_of<F: Fn(i64) -> i128>(
    net: &Net,
    loss: &Loss<F>,
    flow: &[u64],
    mut prices: Vec<i128>,
    parent: Option<u32>,
    units: Vec<u32>,
    counts: Vec<u64>,
) -> Fit
    requires kept { IsKept F.pre F.post loss.now }
    requires solved { IsSolved (value_of loss.now.curve) net.now flow.now prices.items }
    ensures parent { result.parent ≡ parent }
    ensures units { result.units.items ≡ units.items }
    ensures counts { result.counts.items ≡ counts.items }
    ensures made { IsMadeOf (value_of loss.now.curve) net.now flow.now result }
{
    let deviation = flow_deviation(net, loss, flow);
    let _nodes = net.nodes();
    prices.remove(0);
    Fit {
        parent,
        units,
        counts,
        prices,
        deviation,
    }
}
