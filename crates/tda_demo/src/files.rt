// The demo's files.
ghost use Rattle.std.specs.Prelude.{◌≡◌, ◌<◌, ◌≤◌, ◌^◌, IfOk};
ghost use Rattle.tda_demo.specs.Demo.{spine_text, facilities_text, records_text};
ghost use Rattle.tda_demo.specs.Persons as spec;
ghost use Rattle.tda_demo.specs.Text.{schema_text};

use crate::facility_rows::facilities_file;
use crate::person_rows::{records_file, seed};
use crate::schema::schema_file;
use crate::spine_rows::spine_file;
use std::alloc::Global;
use std::marker::Model;
use tda_io::NoMemory;

/// The files of a demo, and the key, place and number of the words of its noise. Contracts see the files as lists of bytes.
#[derive(Debug, Drop)]
pub struct DemoFiles {
    pub schema: Vec<u8>,
    pub spine: Vec<u8>,
    pub facilities: Vec<u8>,
    pub records: Vec<u8>,
    pub seed: [u8; 32],
    pub place: u64,
    pub budget: u64,
}

impl Model for DemoFiles {
    ghost use Rattle.tda_demo.specs.Demo.{Files};

    ghost Value = { Files };

    ghost view = { λ f. record { schema = f.schema.items; spine = f.spine.items; facilities = f.facilities.items; records = f.records.items; seed = f.seed; place = f.place; budget = f.budget } };
}

/// The files of the demo of a number, below 2^32, and a size, from 1 to 64: 33 + 24 · size units, of which each tract has
/// `size` blocks.
///
/// The facilities and the number of persons go by the block's number. The persons are made from the words of the number's
/// seed from place 0 on, and the noise takes its words from place 2^40 on, so that no word is used twice.
pub fn demo_files(alloc: Global, number: u64, size: u32) -> Result<DemoFiles, NoMemory>
    requires number { number < 2 ^ 32 }
    requires some { 1 ≤ size }
    requires few { size ≤ 64 }
    ensures schema { IfOk result (λ f. f.schema ≡ schema_text) }
    ensures spine { IfOk result (λ f. f.spine ≡ spine_text size) }
    ensures facilities { IfOk result (λ f. f.facilities ≡ facilities_text size) }
    ensures records { IfOk result (λ f. f.records ≡ records_text number size) }
    ensures seed { IfOk result (λ f. f.seed ≡ spec.seed number) }
    ensures place { IfOk result (λ f. f.place ≡ 2 ^ 40) }
    ensures budget { IfOk result (λ f. f.budget ≡ 2 ^ 32) }
{
    Ok(DemoFiles {
        schema: schema_file(alloc)?,
        spine: spine_file(alloc, size)?,
        facilities: facilities_file(alloc, size)?,
        records: records_file(alloc, number, size)?,
        seed: seed(number),
        place: 1 << 40,
        budget: 1 << 32,
    })
}
