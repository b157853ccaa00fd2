// The draws of the noise.
ghost use Rattle.std.specs.Prelude.{◌≡◌};
ghost use Rattle.tda_measure.specs.Noise.{variances_of, IsDetermined, IsNoise};
ghost use Rattle.tda_inputs.specs.Reading.{noise_words};
ghost use Rattle.tda_tool.specs.Answer.{CanBeMeasured, ComesTo};

use std::alloc::Global;
use tda_inputs::{Counted, Noise};
use tda_measure::{MeasureStop, measure};
use tda_places::Measurements;
use tda_words::{ListWords, SeedWords, Words};

/// Measurements, and how many words their noise took.
#[derive(Drop)]
pub(crate) struct Drawn {
    pub(crate) measurements: Measurements,
    pub(crate) taken: u64,
}

// Measures with these words.
fn draw_with<W: Words>(alloc: Global, counted: &Counted, w: &mut W) -> Result<Drawn, MeasureStop>
    requires fresh { W.taken w.old ≡ 0 }
    requires counted { CanBeMeasured counted.now }
    ensures drawn { ComesTo counted.now (W.words w.old) result }
    ensures one { IsDetermined (IsNoise (variances_of counted.now.schema counted.now.spine)) }
{
    match measure(alloc, &counted.schema, &counted.spine, &counted.tables, w) {
        Ok(measurements) => Ok(Drawn {
            measurements,
            taken: w.taken(),
        }),
        Err(stop) => Err(stop),
    }
}

/// Measures with the words of the noise, each place once.
pub(crate) fn draw(alloc: Global, counted: &Counted) -> Result<Drawn, MeasureStop>
    requires { CanBeMeasured counted.now }
    ensures drawn { ComesTo counted.now (noise_words counted.now.noise) result }
    ensures one { IsDetermined (IsNoise (variances_of counted.now.schema counted.now.spine)) }
{
    match &counted.noise {
        Noise::Words(bytes) => draw_with(alloc, counted, &mut ListWords::new(bytes)),
        Noise::Seed {
            seed,
            place,
            budget,
        } => draw_with(alloc, counted, &mut SeedWords::new(seed, *place, *budget)),
    }
}
