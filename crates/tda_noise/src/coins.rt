// Coins: of chance n/d, and of chance e^-(n/d).
ghost use Rattle.std.specs.Prelude.{◌≡◌, ◌≤◌, ◌^◌, ℕ};
ghost use Rattle.tda_noise.specs.Draws.{IsCoin, IsSmallExponential, IsExponential};
ghost use Rattle.tda_noise.specs.Answers.{Answers, CountsTaken};
ghost use Rattle.tda_noise.specs.Outcomes.{ComesToOne};

use crate::uniform_below;
use tda_words::Words;

/// A coin of chance n/d, for `n` at most `d` and `d` from 1 to 2^100: true exactly where a uniform number below
/// `d` is below `n`. `None` exactly where the words end before it: then none are left.
#[tactic(auto, using(crate::proofs::Outcomes::coin_comes_to_one))]
pub fn coin<W: Words>(w: &mut W, n: u128, d: u128) -> Option<bool>
    requires chance { n ≤ d }
    requires some { 1 ≤ d }
    requires limit { d ≤ 2 ^ 100 }
    ensures drawn { Answers (IsCoin n d) result (W.words w.old) (W.words w.new) }
    ensures counts { CountsTaken (W.words w.old) (W.taken w.old) (W.words w.new) (W.taken w.new) }
    ensures one { ComesToOne (IsCoin n d) }
{
    let number = uniform_below(w, d)?;
    Some(number < n)
}

/// A coin of chance e^-(n/d), for `d` from 1 to 2^64 and `n` at most 2^120 (Canonne, Kamath and Steinke,
/// algorithm 1). Where `n` is at most `d`, coins of chance n/d, n/(2 * d), n/(3 * d) and so on are tossed until one is
/// false, and it is true exactly where that one has an odd number. Where `n` is greater, it is false as soon as one of
/// floor(n/d) such coins of chance 1/e is, and after that many true ones it is a coin of chance e^-((n mod d)/d).
///
/// `None` exactly where the words end before it: then none are left.
#[tactic(auto, using(crate::proofs::Outcomes::exponential_comes_to_one))]
pub fn exp_coin<W: Words>(w: &mut W, n: u128, d: u128) -> Option<bool>
    requires some { 1 ≤ d }
    requires limit { d ≤ 2 ^ 64 }
    requires numerator { n ≤ 2 ^ 120 }
    ensures drawn { Answers (IsExponential n d) result (W.words w.old) (W.words w.new) }
    ensures counts { CountsTaken (W.words w.old) (W.taken w.old) (W.words w.new) (W.taken w.new) }
    ensures one { ComesToOne (IsExponential n d) }
{
    if n <= d {
        return small_exp_coin(w, n, d);
    }
    for _ in 0..n / d {
        if !small_exp_coin(w, 1, 1)? {
            return Some(false);
        }
    }
    small_exp_coin(w, n % d, d)
}

// The same for `n` at most `d`. Each toss takes a word, so there are no more tosses than words left. These are at
// most 2^32, so that `d * toss` is at most 2^96.
fn small_exp_coin<W: Words>(w: &mut W, n: u128, d: u128) -> Option<bool>
    requires chance { n ≤ d }
    requires some { 1 ≤ d }
    requires limit { d ≤ 2 ^ 64 }
    ensures drawn { Answers (IsSmallExponential n d) result (W.words w.old) (W.words w.new) }
    ensures counts { CountsTaken (W.words w.old) (W.taken w.old) (W.words w.new) (W.taken w.new) }
{
    for toss in 1..=w.left() {
        if !coin(w, n, d * u128::from(toss))? {
            return Some(toss % 2 == 1);
        }
    }
    None
}
