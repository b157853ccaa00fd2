// The variances of the noise.
ghost use Rattle.std.specs.Prelude.{◌≡◌, ◌<◌, ◌≤◌, ◌^◌, length};
ghost use Rattle.tda_frac.specs.Fraction.{reciprocal_of};
ghost use Rattle.tda_schema.specs.Shares.{frac_of};
ghost use Rattle.tda_schema.specs.Stated.{queries_at, query_at};

use tda_frac::Frac;
use tda_schema::Schema;

/// The variance of the noise of a query: one over its share, which is above 0 and at most 16, with a denominator of at
/// most 2^20.
pub(crate) fn variance_of(schema: &Schema, level: usize, query: usize) -> Frac
    requires level { level < length schema.now.levels }
    requires query { query < length (queries_at schema.now level) }
    ensures value { result ≡ reciprocal_of (frac_of (query_at schema.now level query).share) }
    ensures numerator { 1 ≤ result.num }
    ensures numerator_limit { result.num ≤ 2 ^ 20 }
    ensures denominator { 1 ≤ result.den }
    ensures denominator_limit { result.den ≤ 2 ^ 24 }
{
    let share = schema.share(level, query);
    // The fraction is the only one in lowest terms.
    let _ = share.num();
    match share.flip() {
        Some(variance) => variance,
        None => unreachable!(),
    }
}
