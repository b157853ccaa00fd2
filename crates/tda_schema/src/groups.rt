// The groups of a level: whether they are nested, how many there are, and a unit's places.
ghost use Rattle.std.specs.Prelude.{◌≡◌, ◌≤◌, All, length, map, sum_by, IfOk};
ghost use Rattle.tda_model.specs.Schema.{Schema, Level};
ghost use Rattle.tda_model.specs.Groups.{each_once, group_count};
ghost use Rattle.tda_model.specs.Bounds.{HasKinds};
ghost use Rattle.tda_sets.specs.Nested.{all_sets};
ghost use Rattle.tda_schema.specs.Classes.{AreFamiliesOf};
ghost use Rattle.tda_schema.specs.Parts.{level_is_nested};

use crate::parts::QueryParts;
use std::alloc::Global;
use tda_io::NoMemory;
use tda_sets::{Family, all_are_nested, count_sets};

/// Whether the groups of a level are nested, by its families.
pub(crate) fn is_nested(alloc: Global, families: &[&Family]) -> Result<bool, NoMemory>
    requires { All (λ f. All (λ g. length f.now ≡ length g.now) families.now) families.now }
    ensures { IfOk result (λ b. (s : Schema) (l : Level) → AreFamiliesOf s l (map (λ f. f.now) families.now) → b ≡ level_is_nested s l) }
{
    all_are_nested(alloc, families)
}

/// How many different sets the families have: as many as the level has groups, where each kind has a
/// possible cell.
pub(crate) fn count_groups(alloc: Global, families: &[&Family]) -> Result<u32, NoMemory>
    requires one_length { All (λ f. All (λ g. length f.now ≡ length g.now) families.now) families.now }
    requires cells { All (λ f. length f.now ≤ 4096) families.now }
    requires few { length families.now ≤ 16 }
    ensures sets { IfOk result (λ n. n ≡ length (each_once (all_sets (map (λ f. f.now) families.now)))) }
    ensures groups { IfOk result (λ n. (s : Schema) (l : Level) → AreFamiliesOf s l (map (λ f. f.now) families.now) → HasKinds s → n ≡ group_count s l) }
{
    let count = count_sets(alloc, families)?;
    Ok(count as u32)
}

/// How many classes some queries have, so the places of each unit of their level.
pub(crate) fn count_places(queries: &[QueryParts]) -> u64
    requires classes { All (λ q. length q.classes ≤ 4096) queries.now }
    requires few { length queries.now ≤ 16 }
    ensures { result ≡ sum_by (λ q. length q.classes) queries.now }
{
    let mut places = 0;
    for query in queries {
        places += query.classes.len() as u64;
    }
    places
}
