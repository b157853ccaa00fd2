// What a step costs per unit on each arc at the flow that it has.
ghost use Rattle.std.specs.Prelude.{◌≡◌, ℕ, ◌+◌, ◌*◌, ◌<◌, ◌≤◌, ◌^◌, length, slice_index, slice_set, drop, All, pos, ◌-ℤ◌};
ghost use Rattle.tda_loss.specs.Curve.{IsWithin};
ghost use Rattle.tda_flow.specs.Network.{arc_count, arc_at, terms_at};
ghost use Rattle.tda_scale.specs.Slopes.{IsSlope, IsSlight, AreSlopes, slope_at};
ghost use Rattle.tda_scale.specs.Quotes.{IsQuoteOf, AreQuotes, AreQuotesBut};
ghost use Rattle.tda_scale.specs.Fields.{IsBody};

use crate::slopes::Slope;
use crate::spots::Quote;
use tda_flow::{Arc, Net, Turn};

// The weight times `double`, less the pull: at most 2^60 either way.
fn rate(slope: Slope, double: u64) -> i64
    requires slope { IsSlight slope }
    requires few { double ≤ 2 ^ 31 }
    ensures value { result ≡ pos (double * slope.weight) -ℤ slope.pull }
    ensures near { IsWithin (2 ^ 60) result }
{
    (double * slope.weight) as i64 - slope.pull
}

// What a step costs per unit on an arc of this slope that has the flow `x`.
pub(crate) fn quote_at(slope: Slope, arc: Arc, x: u64, step: u64) -> Quote
    requires slope { IsSlight slope }
    requires low { arc.low ≤ 2 ^ 30 }
    requires high { arc.high ≤ 2 ^ 30 }
    requires flow { x ≤ arc.high }
    requires step { step ≤ 2 ^ 30 }
    ensures { IsQuoteOf slope arc step x result }
{
    let up = if x + step <= arc.high {
        Some(rate(slope, 2 * x + step))
    } else {
        None
    };
    let down = if arc.low + step <= x {
        Some(-rate(slope, 2 * x - step))
    } else {
        None
    };
    Quote { up, down }
}

// A net with the slopes of its arcs.
#[derive(Drop)]
pub(crate) struct Body<'a> {
    pub(crate) net: &'a Net,
    pub(crate) slopes: &'a [Slope],
}

// Makes the quotes anew of the arcs that a walk passes.
pub(crate) fn requote(body: &Body, step: u64, flow: &[u64], walk: &[Turn], quotes: &mut [Quote])
    requires body { IsBody body.now }
    requires step { step ≤ 2 ^ 30 }
    requires flow { (k : ℕ) → k < arc_count body.now.net.now → slice_index flow.now k ≤ (arc_at body.now.net.now k).high }
    requires flows { length flow.now ≡ arc_count body.now.net.now }
    requires arcs { All (λ t. t.arc < arc_count body.now.net.now) walk.now }
    requires others { AreQuotesBut body.now.net.now body.now.slopes.now step flow.now walk.now quotes.old }
    ensures { AreQuotes body.now.net.now body.now.slopes.now step flow.now quotes.new }
{
    for turn in walk {
        let i = turn.arc;
        quotes[i] = quote_at(body.slopes[i], body.net.arc(i), flow[i], step);
    }
}
