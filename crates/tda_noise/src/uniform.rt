// Uniform numbers, by rejection.
ghost use Rattle.std.specs.Prelude.{◌≡◌, ◌≤◌, ◌^◌, ℕ};
ghost use Rattle.tda_noise.specs.Draws.{IsPiece, IsUniform};
ghost use Rattle.tda_noise.specs.Pieces.{IsEven};
ghost use Rattle.tda_noise.specs.Answers.{Answers, CountsTaken};
ghost use Rattle.tda_noise.specs.Outcomes.{ComesToOne};

use tda_words::Words;

/// A number below `n`, which is from 1 to 2^100. With k the number of binary digits of `n - 1`, it is the k low
/// digits of a piece of words, as many as hold k digits and at least one, of which the first is the least
/// significant; a piece whose number isn't below `n` is refused, and the next words are taken.
///
/// `None` exactly where the words end before such a piece: then none are left.
#[tactic(auto, using(crate::proofs::Outcomes::uniform_comes_to_one, crate::proofs::Pieces::even_pieces))]
pub fn uniform_below<W: Words>(w: &mut W, n: u128) -> Option<u128>
    requires some { 1 ≤ n }
    requires limit { n ≤ 2 ^ 100 }
    ensures drawn { Answers (IsUniform n) result (W.words w.old) (W.words w.new) }
    ensures counts { CountsTaken (W.words w.old) (W.taken w.old) (W.words w.new) (W.taken w.new) }
    // Each list of words comes to one number with one rest, or to none.
    ensures one { ComesToOne (IsUniform n) }
    // No number is favoured: each is given by as many pieces as any other.
    ensures even { IsEven n }
{
    let digits = u128::BITS - (n - 1).leading_zeros();
    loop {
        let number = low_digits(w, digits)?;
        if number < n {
            return Some(number);
        }
    }
}

// So many low digits, at most 100, of the next piece of words.
fn low_digits<W: Words>(w: &mut W, digits: u32) -> Option<u128>
    requires { digits ≤ 100 }
    ensures drawn { Answers (IsPiece digits) result (W.words w.old) (W.words w.new) }
    ensures counts { CountsTaken (W.words w.old) (W.taken w.old) (W.words w.new) (W.taken w.new) }
{
    let mut number: u128 = 0;
    for i in 0..digits.div_ceil(32).max(1) {
        let word = w.next()?;
        number += u128::from(word) << (32 * i);
    }
    Some(number & ((1 << digits) - 1))
}
