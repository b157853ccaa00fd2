// What a flow costs.
ghost use Rattle.std.specs.Prelude.{◌≡◌, ◌+◌, ◌*◌, ◌≤◌, ◌^◌, pos, length};
ghost use Rattle.tda_loss.specs.Curve.{value_of};
ghost use Rattle.tda_loss.specs.Kept.{IsKept};
ghost use Rattle.tda_flow.specs.Network.{AreNetTerms, IsNetTerm, IsSound, arc_count};
ghost use Rattle.tda_flow.specs.Flow.{IsCirculation, arc_cost, term_cost, cost};

use tda_flow::{Net, Term};
use tda_loss::Loss;

// What `x` costs at a term. A target is at most 2^31 either way, so the distance is at most 2^32 and the
// curve's value at most 2^64.
fn term_deviation<F: Fn(i64) -> i128>(term: Term, loss: &Loss<F>, x: u64) -> u128
    requires term { IsNetTerm term }
    requires kept { IsKept F.pre F.post loss.now }
    requires few { x ≤ 2 ^ 30 }
    ensures value { pos result ≡ term_cost (value_of loss.now.curve) term x }
    ensures limit { result ≤ 2 ^ 88 }
{
    let distance = x as i64 - term.target;
    u128::from(term.weight) * loss.value(distance).unsigned_abs()
}

// What `x` costs at all terms of an arc, of which there are at most 8.
fn arc_deviation<F: Fn(i64) -> i128>(terms: &[Term], loss: &Loss<F>, x: u64) -> u128
    requires terms { AreNetTerms terms.now }
    requires kept { IsKept F.pre F.post loss.now }
    requires few { x ≤ 2 ^ 30 }
    ensures value { pos result ≡ arc_cost (value_of loss.now.curve) terms.now x }
    ensures limit { result ≤ 2 ^ 91 }
{
    let mut sum = 0;
    for term in terms {
        sum += term_deviation(*term, loss, x);
    }
    sum
}

// The deviation of what a circulation stands for: what it costs.
pub(crate) fn flow_deviation<F: Fn(i64) -> i128>(net: &Net, loss: &Loss<F>, flow: &[u64]) -> u128
    requires kept { IsKept F.pre F.post loss.now }
    requires flow { IsCirculation net.now flow.now }
    ensures value { pos result ≡ cost (value_of loss.now.curve) net.now flow.now }
    ensures limit { result ≤ 2 ^ 91 * arc_count net.now }
{
    let mut sum = 0;
    for arc in 0..net.arcs() {
        sum += arc_deviation(net.terms(arc), loss, flow[arc]);
    }
    sum
}
