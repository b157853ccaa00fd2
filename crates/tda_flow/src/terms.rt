// What one more unit costs on an arc.
ghost use Rattle.std.specs.Prelude.{◌≡◌, ◌+◌, ◌≤◌, ◌^◌, ◌-ℤ◌};
ghost use Rattle.tda_loss.specs.Curve.{value_of, IsWithin};
ghost use Rattle.tda_loss.specs.Kept.{IsKept};
ghost use Rattle.tda_flow.specs.Network.{AreNetTerms, IsNetTerm};
ghost use Rattle.tda_flow.specs.Flow.{arc_cost, term_cost};

use crate::net::Term;
use tda_loss::Loss;

// What one unit more than `x` costs at a term. A target is at most 2^31 either way, so the distance is
// at most 2^32, the step of the curve at most 2^33 + 1 and the product, by a weight of at most 2^24, at
// most 2^58.
fn term_step<F: Fn(i64) -> i128>(term: Term, loss: &Loss<F>, x: u64) -> i128
    requires term { IsNetTerm term }
    requires kept { IsKept F.pre F.post loss.now }
    requires few { x ≤ 2 ^ 30 }
    ensures value { result ≡ term_cost (value_of loss.now.curve) term (x + 1) -ℤ term_cost (value_of loss.now.curve) term x }
    ensures near { IsWithin (2 ^ 58) result }
{
    let distance = x as i64 - term.target;
    i128::from(term.weight) * loss.step(distance)
}

/// What one unit more than `x` costs on an arc with these terms of a net, where `x` is at most 2^30: the
/// sum over the terms of weight · (value(x + 1 - target) - value(x - target)). By at most 8 terms it is
/// at most 2^61 either way.
pub fn step_cost<F: Fn(i64) -> i128>(terms: &[Term], loss: &Loss<F>, x: u64) -> i128
    requires terms { AreNetTerms terms.now }
    requires kept { IsKept F.pre F.post loss.now }
    requires few { x ≤ 2 ^ 30 }
    ensures value { result ≡ arc_cost (value_of loss.now.curve) terms.now (x + 1) -ℤ arc_cost (value_of loss.now.curve) terms.now x }
    ensures near { IsWithin (2 ^ 61) result }
{
    let mut sum: i128 = 0;
    for term in terms {
        sum += term_step(*term, loss, x);
    }
    sum
}
