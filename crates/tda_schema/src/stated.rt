// What a schema states, with its names looked up.
ghost use Rattle.std.specs.Prelude.{◌≡◌, ◌<◌, length, position, Some, slice_get, string_bytes};
ghost use Rattle.std.specs.Str.{bytes_eq};

use std::marker::Model;
use tda_frac::Frac;

#[derive(Debug, Drop)]
pub(crate) struct Attribute {
    pub(crate) name: String,
    pub(crate) values: Vec<String>,
}

impl Model for Attribute {
    ghost use Rattle.std.specs.Prelude.{map, string_bytes};
    ghost use Rattle.tda_model.specs.Schema as model;

    ghost Value = { model.Attribute };

    ghost view = { λ a. record { name = string_bytes a.name; values = map string_bytes a.values.items } };
}

/// Where a text stands among texts.
pub(crate) fn position_in(texts: &[String], bytes: &[u8]) -> Option<usize>
    ensures { result ≡ position (λ t. bytes_eq (string_bytes t) bytes.now) texts.now }
{
    texts.iter().position(|text| text.as_bytes() == bytes)
}

impl Attribute {
    /// The number of the value of this text, if there is one: the values are looked at one after the other.
    pub(crate) fn find(&self, bytes: &[u8]) -> Option<usize>
        ensures { result ≡ position (λ v. bytes_eq v bytes.now) self.now.values }
    {
        position_in(&self.values, bytes)
    }

    /// The text of a value.
    pub(crate) fn value(&self, v: usize) -> &str
        requires { v < length self.now.values }
        ensures { slice_get self.now.values v ≡ Some result.now }
    {
        self.values[v].as_str()
    }
}

/// A label for each value of the attribute `of`.
#[derive(Debug, Drop)]
pub(crate) struct Recode {
    pub(crate) name: String,
    pub(crate) of: usize,
    pub(crate) labels: Vec<String>,
}

impl Model for Recode {
    ghost use Rattle.std.specs.Prelude.{map, string_bytes};
    ghost use Rattle.tda_model.specs.Schema as model;

    ghost Value = { model.Recode };

    ghost view = { λ r. record { name = string_bytes r.name; of = r.of; labels = map string_bytes r.labels.items } };
}

/// An attribute and some of its values: a key of a zero row.
#[derive(Debug, Drop)]
pub(crate) struct Listed {
    pub(crate) attribute: usize,
    pub(crate) values: Vec<u16>,
}

impl Model for Listed {
    ghost use Rattle.tda_model.specs.Schema as model;

    ghost Value = { model.Listed };

    ghost view = { λ l. record { attribute = l.attribute; values = l.values.items } };
}

/// What a query counts by: an attribute's values, or a recode's labels.
#[derive(Clone, Copy, Debug, PartialEq, Eq)]
pub(crate) enum Entry {
    Values(usize),
    Labels(usize),
}

/// A query over all possible cells.
#[derive(Debug, Drop)]
pub(crate) struct Query {
    pub(crate) name: String,
    pub(crate) by: Vec<Entry>,
    pub(crate) share: Frac,
}

impl Model for Query {
    ghost use Rattle.std.specs.Prelude.{[], map, string_bytes};
    ghost use Rattle.tda_model.specs.Schema as model;
    ghost use Rattle.tda_schema.specs.Stated.{entry_of, fraction_of};

    ghost Value = { model.Query };

    ghost view = { λ q. record { name = string_bytes q.name; by = map entry_of q.by.items; only = []; share = fraction_of q.share } };
}

#[derive(Debug, Drop)]
pub(crate) struct Level {
    pub(crate) name: String,
    pub(crate) queries: Vec<Query>,
}

impl Model for Level {
    ghost use Rattle.std.specs.Prelude.{string_bytes};
    ghost use Rattle.tda_model.specs.Schema as model;

    ghost Value = { model.Level };

    ghost view = { λ l. record { name = string_bytes l.name; queries = l.queries.items } };
}

#[derive(Debug, Drop)]
pub(crate) struct Stated {
    pub(crate) total: Frac,
    pub(crate) attributes: Vec<Attribute>,
    pub(crate) recodes: Vec<Recode>,
    pub(crate) zeros: Vec<Vec<Listed>>,
    pub(crate) levels: Vec<Level>,
}

impl Model for Stated {
    ghost use Rattle.std.specs.Prelude.{map};
    ghost use Rattle.tda_model.specs.Schema as model;
    ghost use Rattle.tda_schema.specs.Stated.{fraction_of};

    ghost Value = { model.Schema };

    ghost view = { λ s. record {
      total = fraction_of s.total;
      attributes = s.attributes.items;
      recodes = s.recodes.items;
      zeros = map (λ r. r.items) s.zeros.items;
      levels = s.levels.items;
    } };
}
