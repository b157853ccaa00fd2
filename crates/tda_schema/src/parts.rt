// What a schema comes to: its possible cells, the classes of its queries and the groups of its levels.
use std::marker::Model;

/// The classes of a query, each by the number of its first cell.
#[derive(Debug, Drop)]
pub(crate) struct QueryParts {
    /// For each cell the first cell of its class; none where the cell isn't possible.
    pub(crate) class_of: Vec<Option<u32>>,
    /// The first cells of the classes, in order.
    pub(crate) classes: Vec<u32>,
}

impl Model for QueryParts {
    ghost use Rattle.tda_schema.specs.Parts as parts;

    ghost Value = { parts.QueryParts };

    ghost view = { λ p. record { class_of = p.class_of.items; classes = p.classes.items } };
}

/// A level's queries in order, how many groups it has, and how many places each of its units has.
#[derive(Debug, Drop)]
pub(crate) struct LevelParts {
    pub(crate) queries: Vec<QueryParts>,
    pub(crate) groups: u32,
    pub(crate) places: u64,
}

impl Model for LevelParts {
    ghost use Rattle.tda_schema.specs.Parts as parts;

    ghost Value = { parts.LevelParts };

    ghost view = { λ p. record { queries = p.queries.items; groups = p.groups; places = p.places } };
}

/// For each cell whether it is possible, and the levels' parts from the nation to the block.
#[derive(Debug, Drop)]
pub(crate) struct Parts {
    pub(crate) possible: Vec<bool>,
    pub(crate) levels: Vec<LevelParts>,
}

impl Model for Parts {
    ghost use Rattle.tda_schema.specs.Parts as parts;

    ghost Value = { parts.Parts };

    ghost view = { λ p. record { possible = p.possible.items; levels = p.levels.items } };
}
