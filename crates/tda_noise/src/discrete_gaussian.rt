// Discrete Gaussian numbers.
ghost use Rattle.std.specs.Prelude.{◌≡◌, ◌≤◌, ◌<◌, ◌^◌, ℕ, nat_abs};
ghost use Rattle.tda_noise.specs.Draws.{IsKept, IsGaussian, IsScale};
ghost use Rattle.tda_noise.specs.Answers.{Answers, CountsTaken, IsWithinLimit, outcome_of};
ghost use Rattle.tda_noise.specs.Outcomes.{ComesToOne};

use crate::draw::Draw;
use crate::{exp_coin, laplace};
use tda_frac::Frac;
use tda_words::Words;

/// A discrete Gaussian number of this variance, a/b in lowest terms with `a` from 1 to 2^20 and `b` from 1 to 2^24
/// (Canonne, Kamath and Steinke, algorithm 3): with t = floor(sqrt(a/b)) + 1, a Laplace number Y of scale t, kept
/// with chance e^-((|Y| - a/(b * t))^2 * b/(2 * a)). Where Y isn't kept, it begins again with the next words.
///
/// A number is within 2^30. `TooLarge(m)` exactly where a Laplace magnitude m passes 2^30 first. `OutOfWords`
/// exactly where the words end before a number or such an m: then none are left.
#[tactic(auto, using(crate::proofs::Outcomes::gaussian_comes_to_one))]
pub fn gaussian<W: Words>(w: &mut W, variance: Frac) -> Draw
    requires numerator { 1 ≤ variance.num }
    requires numerator_limit { variance.num ≤ 2 ^ 20 }
    requires denominator { 1 ≤ variance.den }
    requires denominator_limit { variance.den ≤ 2 ^ 24 }
    ensures within { IsWithinLimit result }
    ensures drawn { Answers (IsGaussian variance.num variance.den) (outcome_of result) (W.words w.old) (W.words w.new) }
    ensures counts { CountsTaken (W.words w.old) (W.taken w.old) (W.words w.new) (W.taken w.new) }
    ensures one { ComesToOne (IsGaussian variance.num variance.den) }
{
    let a = variance.num();
    let b = variance.den();
    let root = (a / b).isqrt();
    let t = root + 1;
    loop {
        let number = match laplace(w, 1, t) {
            Draw::Value(number) => number,
            Draw::TooLarge(magnitude) => return Draw::TooLarge(magnitude),
            Draw::OutOfWords => return Draw::OutOfWords,
        };
        match is_kept(w, a, b, t, number) {
            Some(true) => return Draw::Value(number),
            Some(false) => {}
            None => return Draw::OutOfWords,
        }
    }
}

// Whether the Laplace number is kept. As (t - 1)^2 * b is at most a, t * b is at most 2^25 and t^2 * a * b at most
// 2^46. So the denominator is at most 2^47, and the square at most 2^110.
fn is_kept<W: Words>(w: &mut W, a: u64, b: u64, t: u64, number: i64) -> Option<bool>
    requires numerator { 1 ≤ a }
    requires numerator_limit { a ≤ 2 ^ 20 }
    requires denominator { 1 ≤ b }
    requires denominator_limit { b ≤ 2 ^ 24 }
    requires scale { IsScale a b t }
    requires magnitude { nat_abs number ≤ 2 ^ 30 }
    ensures drawn { Answers (IsKept a b t number) result (W.words w.old) (W.words w.new) }
    ensures counts { CountsTaken (W.words w.old) (W.taken w.old) (W.words w.new) (W.taken w.new) }
{
    let a = u128::from(a);
    let b = u128::from(b);
    let t = u128::from(t);
    let distance = (u128::from(number.unsigned_abs()) * t * b).abs_diff(a);
    exp_coin(w, distance * distance, 2 * a * b * (t * t))
}
