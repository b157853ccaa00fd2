// The prices of all fits.
ghost use Rattle.std.specs.Prelude.{◌≡◌, ◌<◌, ◌≤◌, All, length, nat_abs, pos, slice_index, slice_index_or, IfNone, IfSome};
ghost use Rattle.tda_spine.specs.Sound.{IsInner};
ghost use Rattle.tda_prices.specs.Items as items;
ghost use Rattle.tda_prices.specs.Items.{prices_of};
ghost use Rattle.tda_prices.specs.Kept.{ArePricesOf};
ghost use Rattle.tda_prices.specs.Priced.{price_in};
ghost use Rattle.tda_prices.specs.PricesText.{price_limit};

use crate::price_count;
use std::marker::Model;
use tda_schema::Schema;
use tda_spine::Spine;

/// The prices of all fits, one after the other in fit order, each within 2^96 of 0. Sixteen bytes are kept for each.
#[derive(Debug, Drop)]
pub struct Prices {
    numbers: Vec<i128>,
    // Where those of the split at each unit begin, by unit. Those of the nation's fit stand first.
    starts: Vec<u64>,
}

impl Model for Prices {
    ghost use Rattle.std.specs.Prelude.{All, nat_abs, ◌≤◌};
    ghost use Rattle.tda_prices.specs.Kept.{PriceList};
    ghost use Rattle.tda_prices.specs.PricesText.{price_limit};

    ghost Value = { PriceList };

    ghost view = { λ p. record { numbers = p.numbers.items; starts = p.starts.items } };

    ghost invariant = { λ p. All (λ z. nat_abs z ≤ price_limit) p.numbers.items };
}

impl Prices {
    // The prices of all fits, and where those of the split at each unit begin.
    pub(crate) fn new(numbers: Vec<i128>, starts: Vec<u64>) -> Prices
        requires { All (λ z. nat_abs z ≤ price_limit) numbers.items }
        ensures { result ≡ record { numbers = numbers.items; starts = starts.items } }
    {
        Prices { numbers, starts }
    }

    // Where the prices of a fit begin.
    fn start(&self, fit: Option<u32>) -> u64
        requires { IfSome fit (λ p. p < length self.now.starts) }
        ensures none { IfNone fit (result ≡ 0) }
        ensures some { IfSome fit (λ p. result ≡ slice_index self.now.starts p) }
    {
        match fit {
            Some(parent) => self.starts[parent as usize],
            None => 0,
        }
    }

    /// The prices of a fit, in the order of its rows, each within 2^96 of 0. The fit None is that of the nation, Some that
    /// of a unit's children. Its prices are counted at each call.
    pub fn of_fit(&self, schema: &Schema, spine: &Spine, fit: Option<u32>) -> &[i128]
        requires belong { spine.now.depth ≡ length schema.now.levels }
        requires prices { ArePricesOf schema.now spine.now self.now }
        requires fit { IfSome fit (IsInner spine.now) }
        ensures prices { result.now ≡ prices_of schema.now spine.now (price_in schema.now spine.now self.now.numbers) fit }
        ensures limit { All (λ z. nat_abs z ≤ price_limit) result.now }
    {
        // The spine is a tree.
        let _ = spine.units();
        let start = self.start(fit) as usize;
        let count = price_count(schema, spine, fit) as usize;
        &self.numbers[start..start + count]
    }

    /// The price of a fit at an index, in the order of the fit's rows, within 2^96 of 0. The fit None is that of the
    /// nation, Some that of a unit's children.
    pub fn get(&self, schema: &Schema, spine: &Spine, fit: Option<u32>, index: u64) -> i128
        requires prices { ArePricesOf schema.now spine.now self.now }
        requires fit { IfSome fit (IsInner spine.now) }
        requires index { index < items.price_count schema.now spine.now fit }
        ensures price { result ≡ slice_index_or (prices_of schema.now spine.now (price_in schema.now spine.now self.now.numbers) fit) index (pos 0) }
        ensures limit { nat_abs result ≤ price_limit }
    {
        // The spine is a tree.
        let _ = schema;
        let _ = spine.units();
        self.numbers[(self.start(fit) + index) as usize]
    }
}
