// How a row names an item of a fit.
ghost use Rattle.std.specs.Prelude.{◌≡◌, true, IfSome};
ghost use Rattle.tda_io.specs.Texts.{name_test};
ghost use Rattle.tda_model.specs.Spine.{IsUnit};
ghost use Rattle.tda_prices.specs.PricesText.{fit_field};

use tda_spine::Spine;

// The fields of a row before its price.
#[derive(Clone, Copy, Debug)]
pub(crate) struct Place<'a> {
    pub(crate) fit: &'a str,
    pub(crate) part: &'a str,
    pub(crate) unit: &'a str,
    pub(crate) item: u32,
}

// What stands where there is no unit.
pub(crate) const NOTHING: &str = "-";

// How rows name a fit.
pub(crate) fn fit_name(spine: &Spine, fit: Option<u32>) -> &str
    requires { IfSome fit (IsUnit spine.now) }
    ensures { result.now ≡ fit_field spine.now fit }
{
    match fit {
        Some(parent) => spine.code(parent),
        None => NOTHING,
    }
}
