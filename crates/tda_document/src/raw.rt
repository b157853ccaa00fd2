// A schema as it is written, over the text of its document.
use std::marker::Model;

#[derive(Debug, Drop)]
pub struct RawAttribute<'a> {
    pub name: &'a str,
    pub values: Vec<&'a str>,
}

impl<'a> Model for RawAttribute<'a> {
    ghost use Rattle.std.specs.Prelude.{map};
    ghost use Rattle.tda_model.specs.Schema as model;

    ghost Value = { model.Attribute };

    ghost view = { λ a. record { name = a.name.now; values = map (λ s. s.now) a.values.items } };
}

#[derive(Debug, Drop)]
pub struct RawRecode<'a> {
    pub name: &'a str,
    pub of: &'a str,
    pub labels: Vec<&'a str>,
}

impl<'a> Model for RawRecode<'a> {
    ghost use Rattle.std.specs.Prelude.{map};
    ghost use Rattle.tda_document.specs.Raw as raw;

    ghost Value = { raw.RawRecode };

    ghost view = { λ r. record { name = r.name.now; of = r.of.now; labels = map (λ s. s.now) r.labels.items } };
}

#[derive(Debug, Drop)]
pub struct RawListed<'a> {
    pub name: &'a str,
    pub values: Vec<&'a str>,
}

impl<'a> Model for RawListed<'a> {
    ghost use Rattle.std.specs.Prelude.{map};
    ghost use Rattle.tda_document.specs.Raw as raw;

    ghost Value = { raw.RawListed };

    ghost view = { λ l. record { name = l.name.now; values = map (λ s. s.now) l.values.items } };
}

#[derive(Debug, Drop)]
pub struct RawQuery<'a> {
    pub name: &'a str,
    pub by: Vec<&'a str>,
    pub share: &'a str,
}

impl<'a> Model for RawQuery<'a> {
    ghost use Rattle.std.specs.Prelude.{map};
    ghost use Rattle.tda_document.specs.Raw as raw;

    ghost Value = { raw.RawQuery };

    ghost view = { λ q. record { name = q.name.now; by = map (λ s. s.now) q.by.items; share = q.share.now } };
}

#[derive(Debug, Drop)]
pub struct RawLevel<'a> {
    pub name: &'a str,
    pub queries: Vec<RawQuery<'a>>,
}

impl<'a> Model for RawLevel<'a> {
    ghost use Rattle.tda_document.specs.Raw as raw;

    ghost Value = { raw.RawLevel };

    ghost view = { λ l. record { name = l.name.now; queries = l.queries.items } };
}

#[derive(Debug, Drop)]
pub struct RawSchema<'a> {
    pub total: &'a str,
    pub attributes: Vec<RawAttribute<'a>>,
    pub recodes: Vec<RawRecode<'a>>,
    pub zeros: Vec<Vec<RawListed<'a>>>,
    pub levels: Vec<RawLevel<'a>>,
}

impl<'a> Model for RawSchema<'a> {
    ghost use Rattle.std.specs.Prelude.{map};
    ghost use Rattle.tda_document.specs.Raw as raw;

    ghost Value = { raw.RawSchema };

    ghost view = { λ s. record {
      total = s.total.now;
      attributes = s.attributes.items;
      recodes = s.recodes.items;
      zeros = map (λ r. r.items) s.zeros.items;
      levels = s.levels.items;
    } };
}
