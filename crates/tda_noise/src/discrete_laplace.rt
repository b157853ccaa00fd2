// Discrete Laplace numbers.
ghost use Rattle.std.specs.Prelude.{◌≡◌, ◌≤◌, ◌<◌, ◌^◌, ℕ};
ghost use Rattle.tda_noise.specs.Draws.{IsMagnitude, MagnitudeAttempt, LaplaceAttempt, IsLaplace};
ghost use Rattle.tda_noise.specs.Answers.{Answers, CountsTaken, IsWithinLimit, found, attempt_of, outcome_of};
ghost use Rattle.tda_noise.specs.Outcomes.{ComesToOne};

use crate::draw::{Draw, Stop};
use crate::{coin, exp_coin, uniform_below};
use tda_words::Words;

// The greatest magnitude U + t * V.
const MAGNITUDE_LIMIT: u64 = 1 << 30;

/// A discrete Laplace number of scale t/s, for `s` and `t` from 1 to 2^20 (Canonne, Kamath and Steinke,
/// algorithm 2): with U uniform below `t`, kept with chance e^-(U/t), and V the number of true coins of chance
/// 1/e before a false one, the whole part of (U + t * V)/s with the sign of a fair coin. Where U isn't kept, and
/// at a minus zero, it begins again with the next words.
///
/// A number is within 2^30. `TooLarge(m)` exactly where m = U + t * V passes 2^30 first. `OutOfWords` exactly
/// where the words end before a number or such an m: then none are left.
#[tactic(auto, using(crate::proofs::Outcomes::laplace_comes_to_one))]
pub fn laplace<W: Words>(w: &mut W, s: u64, t: u64) -> Draw
    requires divisor { 1 ≤ s }
    requires divisor_limit { s ≤ 2 ^ 20 }
    requires scale { 1 ≤ t }
    requires scale_limit { t ≤ 2 ^ 20 }
    ensures within { IsWithinLimit result }
    ensures drawn { Answers (IsLaplace s t) (outcome_of result) (W.words w.old) (W.words w.new) }
    ensures counts { CountsTaken (W.words w.old) (W.taken w.old) (W.words w.new) (W.taken w.new) }
    ensures one { ComesToOne (IsLaplace s t) }
{
    loop {
        match laplace_attempt(w, s, t) {
            Ok(None) => {}
            Ok(Some(number)) => return Draw::Value(number),
            Err(Stop::TooLarge(magnitude)) => return Draw::TooLarge(magnitude),
            Err(Stop::OutOfWords) => return Draw::OutOfWords,
        }
    }
}

// One attempt. `None` where it is refused.
fn laplace_attempt<W: Words>(w: &mut W, s: u64, t: u64) -> Result<Option<i64>, Stop>
    requires divisor { 1 ≤ s }
    requires scale { 1 ≤ t }
    requires scale_limit { t ≤ 2 ^ 20 }
    ensures drawn { Answers (LaplaceAttempt s t) (attempt_of result) (W.words w.old) (W.words w.new) }
    ensures counts { CountsTaken (W.words w.old) (W.taken w.old) (W.words w.new) (W.taken w.new) }
{
    let Some(magnitude) = magnitude_attempt(w, t)? else {
        return Ok(None);
    };
    let part = magnitude / s;
    match coin(w, 1, 2) {
        Some(false) => Ok(Some(part as i64)),
        Some(true) => {
            if part > 0 {
                Ok(Some(-(part as i64)))
            } else {
                Ok(None)
            }
        }
        None => Err(Stop::OutOfWords),
    }
}

// A U and its magnitude. `None` where U isn't kept.
fn magnitude_attempt<W: Words>(w: &mut W, t: u64) -> Result<Option<u64>, Stop>
    requires scale { 1 ≤ t }
    requires scale_limit { t ≤ 2 ^ 20 }
    ensures drawn { Answers (MagnitudeAttempt t) (attempt_of result) (W.words w.old) (W.words w.new) }
    ensures counts { CountsTaken (W.words w.old) (W.taken w.old) (W.words w.new) (W.taken w.new) }
{
    let Some(u) = uniform_below(w, u128::from(t)) else {
        return Err(Stop::OutOfWords);
    };
    match exp_coin(w, u, u128::from(t)) {
        Some(true) => Ok(Some(magnitude_from(w, u as u64, t)?)),
        Some(false) => Ok(None),
        None => Err(Stop::OutOfWords),
    }
}

// u + t * V.
fn magnitude_from<W: Words>(w: &mut W, u: u64, t: u64) -> Result<u64, Stop>
    requires start { u < t }
    requires scale_limit { t ≤ 2 ^ 20 }
    ensures drawn { Answers (IsMagnitude u t) (found result) (W.words w.old) (W.words w.new) }
    ensures counts { CountsTaken (W.words w.old) (W.taken w.old) (W.words w.new) (W.taken w.new) }
{
    let mut magnitude = u;
    loop {
        match exp_coin(w, 1, 1) {
            Some(true) => magnitude += t,
            Some(false) => return Ok(magnitude),
            None => return Err(Stop::OutOfWords),
        }
        if magnitude > MAGNITUDE_LIMIT {
            return Err(Stop::TooLarge(magnitude as i64));
        }
    }
}
