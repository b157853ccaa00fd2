//! Curves that weigh a distance, and functions kept beside the fact that they answer one.
#![tactic(auto)]

ghost use Rattle.std.specs.Prelude.{◌≡◌, ◌^◌};
ghost use Rattle.tda_loss.specs.Curve.{value_of, step, IsWithin, IsCurve};
ghost use Rattle.tda_loss.specs.Kept.{Answers, IsKept};

/// How a distance is weighed. A curve is at least 0 and at most the square of the distance, its
/// steps don't fall, and a step is at most twice the distance and one.
#[derive(Clone, Copy, Debug, PartialEq, Eq)]
pub enum Curve {
    /// The square of the distance.
    Square,
}

/// A curve, with a function that answers its values.
///
/// The function may be called at every distance up to 2^33 either way, and answers the curve's value
/// there. A loss that was made by `new` keeps this fact, and each call that uses a loss asks for it.
#[derive(Drop)]
pub struct Loss<F: Fn(i64) -> i128> {
    curve: Curve,
    eval: F,
}

impl<F: Fn(i64) -> i128> Loss<F> {
    /// Keeps the function `eval` beside the curve that it answers.
    pub fn new(curve: Curve, eval: F) -> Loss<F>
        requires { Answers curve (F.pre eval) (F.post eval) }
        ensures curve { result.curve ≡ curve }
        ensures kept { IsKept F.pre F.post result }
    {
        Loss { curve, eval }
    }

    /// The curve, which keeps the laws of curves.
    pub fn curve(&self) -> Curve
        ensures value { result ≡ self.now.curve }
        ensures laws { IsCurve (value_of result) }
    {
        self.curve
    }

    /// The curve's value at the distance `d`, of at most 2^33 either way.
    pub fn value(&self, d: i64) -> i128
        requires kept { IsKept F.pre F.post self.now }
        requires near { IsWithin (2 ^ 33) d }
        ensures { result ≡ value_of self.now.curve d }
    {
        (self.eval)(d)
    }

    /// What one more adds to the value: value(d + 1) - value(d), at a distance of at most 2^32 either
    /// way.
    pub fn step(&self, d: i64) -> i128
        requires kept { IsKept F.pre F.post self.now }
        requires near { IsWithin (2 ^ 32) d }
        ensures { result ≡ step (value_of self.now.curve) d }
    {
        self.value(d + 1) - self.value(d)
    }
}

/// The square of a distance of at most 2^33 either way, for a loss by `Curve::Square`. It is at most
/// 2^66.
pub fn square(d: i64) -> i128
    requires { IsWithin (2 ^ 33) d }
    ensures { result ≡ value_of Curve.Square d }
{
    i128::from(d) * i128::from(d)
}
