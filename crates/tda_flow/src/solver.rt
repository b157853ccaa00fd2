// What makes a circulation a least one.
ghost use Rattle.std.specs.Prelude.{◌≡◌, ℕ, ◌≤◌, Bool, IsTrue, length, pos};
ghost use Rattle.tda_loss.specs.Curve.{value_of};
ghost use Rattle.tda_loss.specs.declared.Curve.{Curve};
ghost use Rattle.tda_loss.specs.Kept.{IsKept};
ghost use Rattle.tda_flow.specs.Network.{arc_count};
ghost use Rattle.tda_flow.specs.Flow.{IsCirculation};
ghost use Rattle.tda_flow.specs.Certificate.{IsCertified, ArePrices, price_at};

use crate::net::Net;
use tda_loss::{Curve, Loss};

/// A solver of nets. It was made for so many nodes and arcs, and solves without memory.
pub trait Solver {
    ghost most_nodes: { Self → ℕ };

    ghost most_arcs: { Self → ℕ };

    ghost takes_curve: { Self → Curve → Bool };

    /// How many nodes a net may have.
    fn nodes(&self) -> u32
        ensures { result ≡ most_nodes self.now };

    /// How many arcs a net may have.
    fn arcs(&self) -> usize
        ensures { result ≡ most_arcs self.now };

    /// Whether it solves nets whose loss has this curve.
    fn takes(&self, curve: Curve) -> bool
        ensures { result ≡ takes_curve self.now curve };

    /// Makes the circulation `flow` a least one, and writes prices that certify it. The hub's price
    /// is 0, and all are at most 2^96 either way.
    ///
    /// The net has no more nodes and arcs than the solver was made for, the loss has a curve that the
    /// solver takes, and there is one price per node. The solver stays as large, and takes the same
    /// curves.
    fn solve<F: Fn(i64) -> i128>(
        &mut self,
        net: &Net,
        loss: &Loss<F>,
        flow: &mut [u64],
        prices: &mut [i128],
    )
        requires nodes { net.now.nodes ≤ most_nodes self.old }
        requires arcs { arc_count net.now ≤ most_arcs self.old }
        requires takes { IsTrue (takes_curve self.old loss.now.curve) }
        requires kept { IsKept F.pre F.post loss.now }
        requires flow { IsCirculation net.now flow.old }
        requires prices { length prices.old ≡ net.now.nodes }
        ensures flow { IsCirculation net.now flow.new }
        ensures certified { IsCertified (value_of loss.now.curve) net.now flow.new prices.new }
        ensures hub { price_at prices.new 0 ≡ pos 0 }
        ensures prices { ArePrices net.now prices.new }
        ensures same_nodes { most_nodes self.new ≡ most_nodes self.old }
        ensures same_arcs { most_arcs self.new ≡ most_arcs self.old }
        ensures same_curves { (c : Curve) → takes_curve self.new c ≡ takes_curve self.old c };
}
