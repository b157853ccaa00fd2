// What a step costs on an arc by the square: a slope in the flow.
//
// From the flow x, a step of size d costs d · (weight · (2x + d) - pull), where the weight is the sum of
// the terms' weights and the pull twice the sum of weight · target.
ghost use Rattle.std.specs.Prelude.{◌≡◌, ℕ, ◌<◌, ◌≤◌, ◌^◌, length, pos, ◌+ℤ◌, ◌*ℤ◌, vec_len, vec_capacity};
ghost use Rattle.tda_loss.specs.Curve.{IsWithin};
ghost use Rattle.tda_flow.specs.Network.{IsNetTerm, AreNetTerms, arc_count};
ghost use Rattle.tda_scale.specs.Slopes.{IsSlope, IsSlight, AreSlopes};

use tda_flow::{Net, Term};

// The sum of the weights of an arc's terms, and twice the sum of their weight · target.
#[derive(Clone, Copy)]
pub(crate) struct Slope {
    pub(crate) weight: u64,
    pub(crate) pull: i64,
}

// The weight times the target: at most 2^55 either way.
fn moment(term: Term) -> i64
    requires { IsNetTerm term }
    ensures value { result ≡ pos term.weight *ℤ term.target }
    ensures near { IsWithin (2 ^ 55) result }
{
    term.weight as i64 * term.target
}

// The slope of an arc with these terms. By at most 8 terms the weight is at most 2^27, and the pull at
// most 2^59 either way.
fn slope_of(terms: &[Term]) -> Slope
    requires { AreNetTerms terms.now }
    ensures value { IsSlope terms.now result }
    ensures small { IsSlight result }
{
    let mut weight = 0;
    let mut pull: i64 = 0;
    for term in terms {
        weight += term.weight;
        pull += 2 * moment(*term);
    }
    Slope { weight, pull }
}

// Writes the slopes of all arcs into a list with room for them.
pub(crate) fn list_slopes(net: &Net, slopes: &mut Vec<Slope>)
    requires { arc_count net.now ≤ vec_capacity slopes.old }
    ensures slopes { AreSlopes net.now slopes.new.items }
    ensures room { vec_capacity slopes.old ≤ vec_capacity slopes.new }
{
    slopes.clear();
    for i in 0..net.arcs() {
        slopes.push(slope_of(net.terms(i))).unwrap();
    }
}
