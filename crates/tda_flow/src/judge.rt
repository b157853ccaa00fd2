// The judge of a circulation by prices.
ghost use Rattle.std.specs.Prelude.{◌≡◌, ◌<◌, IfErr, IsOk, IsTrue, ◌↔◌};
ghost use Rattle.tda_loss.specs.Curve.{value_of};
ghost use Rattle.tda_loss.specs.Kept.{IsKept};
ghost use Rattle.tda_flow.specs.Network.{arc_count};
ghost use Rattle.tda_flow.specs.Flow.{IsCirculation, IsLeast};
ghost use Rattle.tda_flow.specs.Certificate.{IsCertified, IsCertifiedElsewhere, IsBadUp, IsBadDown, ArePrices, gap};
ghost use Rattle.tda_flow.specs.Judged.{IsFirstBad};

use crate::net::Net;
use crate::terms::step_cost;
use tda_loss::Loss;

/// Which way a flow would change.
#[derive(Clone, Copy, Debug, PartialEq, Eq)]
pub enum Side {
    /// One unit more.
    Up,
    /// One unit less.
    Down,
}

/// An arc whose flow could change by one unit at a gain, by the prices.
#[derive(Clone, Copy, Debug, PartialEq, Eq)]
pub struct BadArc {
    pub arc: usize,
    pub side: Side,
}

// How much higher the price is at the end of arc `i` than at its start: at most 2^97 either way.
fn gap_at(net: &Net, prices: &[i128], i: usize) -> i128
    requires arc { i < arc_count net.now }
    requires prices { ArePrices net.now prices.now }
    ensures { result ≡ gap net.now prices.now i }
{
    let arc = net.arc(i);
    prices[arc.to as usize] - prices[arc.from as usize]
}

// Whether one more unit on arc `i` costs less than it brings.
fn is_bad_up<F: Fn(i64) -> i128>(
    net: &Net,
    loss: &Loss<F>,
    flow: &[u64],
    prices: &[i128],
    i: usize,
) -> bool
    requires kept { IsKept F.pre F.post loss.now }
    requires arc { i < arc_count net.now }
    requires flow { IsCirculation net.now flow.now }
    requires prices { ArePrices net.now prices.now }
    ensures { IsTrue result ↔ IsBadUp (value_of loss.now.curve) net.now flow.now prices.now i }
{
    flow[i] < net.arc(i).high && step_cost(net.terms(i), loss, flow[i]) < gap_at(net, prices, i)
}

// Whether the last unit on arc `i` costs more than it brings.
fn is_bad_down<F: Fn(i64) -> i128>(
    net: &Net,
    loss: &Loss<F>,
    flow: &[u64],
    prices: &[i128],
    i: usize,
) -> bool
    requires kept { IsKept F.pre F.post loss.now }
    requires arc { i < arc_count net.now }
    requires flow { IsCirculation net.now flow.now }
    requires prices { ArePrices net.now prices.now }
    ensures { IsTrue result ↔ IsBadDown (value_of loss.now.curve) net.now flow.now prices.now i }
{
    net.arc(i).low < flow[i] && gap_at(net, prices, i) < step_cost(net.terms(i), loss, flow[i] - 1)
}

/// Whether the prices certify the circulation, and else the first arc at which they don't, Up before
/// Down. There is one price per node, each at most 2^96 either way.
///
/// Up is bad where the flow is below the arc's high bound and one more unit costs less than
/// price(to) - price(from). Down is bad where the flow is above the low bound and the last unit costs
/// more than that. A certified circulation is a least one: this is the optimality condition by reduced
/// costs, asked of the unit steps of a convex cost (Ahuja, Magnanti and Orlin, sections 9.3 and 14.3).
/// Prices that certify one circulation certify every circulation of the same cost.
pub fn certified<F: Fn(i64) -> i128>(
    net: &Net,
    loss: &Loss<F>,
    flow: &[u64],
    prices: &[i128],
) -> Result<(), BadArc>
    requires kept { IsKept F.pre F.post loss.now }
    requires flow { IsCirculation net.now flow.now }
    requires prices { ArePrices net.now prices.now }
    ensures ok { IsOk result ↔ IsCertified (value_of loss.now.curve) net.now flow.now prices.now }
    ensures bad { IfErr result (λ bad. IsFirstBad (value_of loss.now.curve) net.now flow.now prices.now bad) }
    ensures least { IsOk result → IsLeast (value_of loss.now.curve) net.now flow.now }
    ensures same { IsCertifiedElsewhere (value_of loss.now.curve) net.now flow.now prices.now → IsOk result }
{
    for i in 0..net.arcs() {
        if is_bad_up(net, loss, flow, prices, i) {
            return Err(BadArc {
                arc: i,
                side: Side::Up,
            });
        }
        if is_bad_down(net, loss, flow, prices, i) {
            return Err(BadArc {
                arc: i,
                side: Side::Down,
            });
        }
    }
    Ok(())
}
