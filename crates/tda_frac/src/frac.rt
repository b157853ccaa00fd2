// Fractions in lowest terms.
ghost use Rattle.std.specs.Prelude.{◌≡◌, ◌<◌, ◌≤◌, ◌^◌, ◌*◌, ◌++◌, ◌↔◌, ℕ, IfSome, IsSome, IsNone, IsTrue, OnOk, OnErr};
ghost use Rattle.tda_frac.specs.Fraction.{Fraction, IsReduced, FitsU64, IsFrac, IsFracOf, IsOnlyReduced, IsAtMost, IsTextOf, sum_of, reciprocal_of, text_of, IsProduct};

use crate::NoMemory;
use crate::text::{read_whole, split_at_slash};
use crate::whole::gcd;
use itoa::Buffer;
use std::marker::Model;

/// A fraction of two numbers below 2^64 in lowest terms, with a denominator of at least 1. Two are
/// equal exactly where they are one rational number.
#[derive(Clone, Copy, Debug, PartialEq, Eq)]
pub struct Frac {
    num: u64,
    den: u64,
}

impl Model for Frac {
    ghost use Rattle.tda_frac.specs.Fraction.{Fraction, IsReduced};

    ghost Value = { Fraction };

    ghost view = { λ a. record { num = a.num; den = a.den } };

    ghost invariant = { λ a. IsReduced (record { num = a.num; den = a.den }) };

    ghost inverse = { λ f. record { num = f.num; den = f.den } };
}

impl Frac {
    /// The fraction num/den in lowest terms. None exactly where `den` is 0.
    pub fn new(num: u64, den: u64) -> Option<Frac>
        ensures none { IsNone result ↔ (den ≡ 0) }
        ensures value { IfSome result (λ f. IsFracOf f (record { num = num; den = den })) }
    {
        if den == 0 {
            return None;
        }
        let common = gcd(num, den);
        Some(Frac {
            num: num / common,
            den: den / common,
        })
    }

    /// The fraction that the bytes are the text of: `n` or `n/d`, each a canonical decimal below
    /// 2^64, with `d` at least 1, in lowest terms or not. None exactly otherwise.
    pub fn parse(bytes: &[u8]) -> Option<Frac>
        ensures valid { IsSome result ↔ ((g : Fraction) × IsTextOf bytes.now g) }
        ensures value { (g : Fraction) → IsTextOf bytes.now g → IfSome result (λ f. IsFracOf f g) }
    {
        match split_at_slash(bytes) {
            Some((num, den)) => Frac::new(read_whole(num)?, read_whole(den)?),
            None => Frac::new(read_whole(bytes)?, 1),
        }
    }

    /// The numerator in lowest terms.
    pub fn num(self) -> u64
        ensures value { result ≡ self.num }
        ensures reduced { IsFrac self }
        ensures only { IsOnlyReduced self }
    {
        self.num
    }

    /// The denominator in lowest terms, at least 1.
    pub fn den(self) -> u64
        ensures value { result ≡ self.den }
        ensures reduced { IsFrac self }
        ensures only { IsOnlyReduced self }
    {
        self.den
    }

    /// The exact sum. None exactly where the sum in lowest terms has a number of 2^64 or more.
    ///
    /// By Knuth's method (The Art of Computer Programming, volume 2, section 4.5.1): where the sum is
    /// taken over the least common denominator, what is left to cancel divides the greatest common
    /// divisor of the denominators. So a numerator of 2^128 or more has no sum that fits.
    pub fn add(self, other: Frac) -> Option<Frac>
        ensures sum { IfSome result (λ f. IsFracOf f (sum_of self other)) }
        ensures fits { IsSome result ↔ ((f : Fraction) × IsFracOf f (sum_of self other)) }
    {
        let common = gcd(self.den, other.den);
        let left = u128::from(self.num) * u128::from(other.den / common);
        let right = u128::from(other.num) * u128::from(self.den / common);
        let sum = left.checked_add(right)?;
        let shared = gcd((sum % u128::from(common)) as u64, common);
        let den = u128::from(self.den / common) * u128::from(other.den / shared);
        Frac::from_lowest_terms(sum / u128::from(shared), den)
    }

    // The fraction of two numbers that are in lowest terms, where both are below 2^64.
    fn from_lowest_terms(num: u128, den: u128) -> Option<Frac>
        requires { IsReduced (record { num = num; den = den }) }
        ensures value { IfSome result (λ f. f ≡ record { num = num; den = den }) }
        ensures fits { IsSome result ↔ FitsU64 (record { num = num; den = den }) }
    {
        Some(Frac {
            num: u64::try_from(num).ok()?,
            den: u64::try_from(den).ok()?,
        })
    }

    /// Whether this is at most the other, as rational numbers. The cross products stay below 2^128.
    pub fn le(self, other: Frac) -> bool
        ensures { IsTrue result ↔ IsAtMost self other }
    {
        u128::from(self.num) * u128::from(other.den) <= u128::from(other.num) * u128::from(self.den)
    }

    /// One over this fraction. None exactly at 0.
    pub fn flip(self) -> Option<Frac>
        ensures none { IsNone result ↔ (self.num ≡ 0) }
        ensures value { IfSome result (λ f. IsFracOf f (reciprocal_of self)) }
    {
        if self.num == 0 {
            return None;
        }
        Some(Frac {
            num: self.den,
            den: self.num,
        })
    }

    /// This fraction times `l`. None exactly where that isn't a whole number below 2^64.
    pub fn weight(self, l: u64) -> Option<u64>
        ensures product { IfSome result (IsProduct self l) }
        ensures whole { IsSome result ↔ ((w : ℕ) × IsProduct self l w × (w < 2 ^ 64)) }
    {
        let product = u128::from(self.num) * u128::from(l);
        let den = u128::from(self.den);
        if product % den == 0 {
            u64::try_from(product / den).ok()
        } else {
            None
        }
    }

    /// Appends `n/d` in canonical decimals, always with the denominator. After `NoMemory` the bytes
    /// are as they were.
    pub fn push(self, out: &mut Vec<u8>) -> Result<(), NoMemory>
        ensures ok { OnOk result (out.new.items ≡ out.old.items ++ text_of self) }
        ensures err { OnErr result (out.new.items ≡ out.old.items) }
    {
        let mut num_buffer = Buffer::new();
        let num = num_buffer.format(self.num).as_bytes();
        let mut den_buffer = Buffer::new();
        let den = den_buffer.format(self.den).as_bytes();
        out.reserve(num.len() + 1 + den.len())?;
        out.extend_from_slice(num).unwrap();
        out.push(b'/').unwrap();
        out.extend_from_slice(den).unwrap();
        Ok(())
    }
}
