// Divisors and multiples.
ghost use Rattle.std.specs.Prelude.{◌<◌, ◌≤◌, ◌^◌, ◌↔◌, ℕ, IfSome, IsSome};
ghost use Rattle.std.specs.Int.{IsGcd};
ghost use Rattle.tda_frac.specs.Whole.{IsLcm};

// The greatest common divisor, by remainders. That of 0 and 0 is 0.
pub(crate) fn gcd(a: u64, b: u64) -> u64
    ensures divisor { IsGcd a b result }
    ensures some { 1 ≤ b → 1 ≤ result }
{
    let mut greater = a;
    let mut divisor = b;
    while divisor != 0 {
        let rest = greater % divisor;
        greater = divisor;
        divisor = rest;
    }
    greater
}

/// The least common multiple of two numbers of at least 1: the one that divides each other common
/// multiple. None exactly where it is 2^64 or more.
pub fn lcm(a: u64, b: u64) -> Option<u64>
    requires a { 1 ≤ a }
    requires b { 1 ≤ b }
    ensures multiple { IfSome result (IsLcm a b) }
    ensures fits { IsSome result ↔ ((m : ℕ) × IsLcm a b m × (m < 2 ^ 64)) }
{
    (a / gcd(a, b)).checked_mul(b)
}
