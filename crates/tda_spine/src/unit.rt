// A unit of a spine.
use std::marker::Model;

/// A unit: its code, its level, and the number of its parent, which the nation alone lacks.
#[derive(Debug, Drop)]
pub(crate) struct SpineUnit {
    pub(crate) code: String,
    pub(crate) level: usize,
    pub(crate) parent: Option<u32>,
}

impl Model for SpineUnit {
    ghost use Rattle.std.specs.Prelude.{string_bytes};
    ghost use Rattle.tda_model.specs.Spine as model;

    ghost Value = { model.SpineUnit };

    ghost view = { λ u. record { code = string_bytes u.code; level = u.level; parent = u.parent } };
}
