// The words of the noise.
ghost use Rattle.std.specs.Prelude.{◌-◌, ◌^◌, ◌<◌, map, string_bytes};
ghost use Rattle.tda_command.specs.Words.{source_of};
ghost use Rattle.tda_inputs.specs.Survey.{noise_from};
ghost use Rattle.tda_inputs.specs.Files.{IsRead};
ghost use Rattle.tda_inputs.specs.Reading.{AsksFile, CountsRead, GivesNoise, source_path};

use crate::reading::{File, SEED, Stop, read_bytes, refused};
use std::alloc::Global;
use tda_command::{Number, Source, number_of, source_of};
use tda_io::Inbox;
use tda_refusal::Plain;

/// Where words are taken from, accepted.
#[derive(Debug, Drop)]
pub enum Noise {
    /// The bytes of a file, four to a word.
    Words(Vec<u8>),
    /// As many words of a seed as the budget, from a place of its stream on.
    Seed {
        seed: [u8; SEED],
        place: u64,
        budget: u64,
    },
}

// Reads and judges a file of words.
fn read_words_file<I: Inbox>(alloc: Global, words: &[String], inbox: &mut I) -> Result<Noise, Stop>
    requires reads { IsRead (map string_bytes words.now) File.Words }
    requires room { I.faults inbox.old < 2 ^ 64 - 1 }
    ensures noise { GivesNoise (map string_bytes words.now) File.Words (noise_from (map string_bytes words.now) Source.Words) (I.told inbox.old) result }
    ensures asked { AsksFile (map string_bytes words.now) File.Words (I.told inbox.old) (I.told inbox.new) result }
    ensures cause { CountsRead (I.faults inbox.old) (I.faults inbox.new) result }
{
    let bytes = read_bytes(alloc, words, File::Words, inbox)?;
    if bytes.len() % 4 == 0 {
        Ok(Noise::Words(bytes))
    } else {
        Err(refused(alloc, File::Words, Plain::BadLength))
    }
}

// Reads and judges a seed.
fn read_seed_file<I: Inbox>(alloc: Global, words: &[String], inbox: &mut I) -> Result<Noise, Stop>
    requires reads { IsRead (map string_bytes words.now) File.Seed }
    requires room { I.faults inbox.old < 2 ^ 64 - 1 }
    ensures noise { GivesNoise (map string_bytes words.now) File.Seed (noise_from (map string_bytes words.now) Source.Seed) (I.told inbox.old) result }
    ensures asked { AsksFile (map string_bytes words.now) File.Seed (I.told inbox.old) (I.told inbox.new) result }
    ensures cause { CountsRead (I.faults inbox.old) (I.faults inbox.new) result }
{
    let bytes = read_bytes(alloc, words, File::Seed, inbox)?;
    if bytes.len() != SEED {
        return Err(refused(alloc, File::Seed, Plain::BadLength));
    }
    let mut seed = [0; SEED];
    seed.copy_from_slice(&bytes);
    Ok(Noise::Seed {
        seed,
        place: number_of(words, Number::Place),
        budget: number_of(words, Number::Budget),
    })
}

/// Reads and judges the file of words, or the seed, that the words of the command name.
pub(crate) fn read_noise<I: Inbox>(
    alloc: Global,
    words: &[String],
    inbox: &mut I,
) -> Result<Noise, Stop>
    requires reads { IsRead (map string_bytes words.now) (source_path (source_of (map string_bytes words.now))) }
    requires room { I.faults inbox.old < 2 ^ 64 - 1 }
    ensures noise { let ws = map string_bytes words.now in
        GivesNoise ws (source_path (source_of ws)) (noise_from ws (source_of ws)) (I.told inbox.old) result }
    ensures asked { let ws = map string_bytes words.now in AsksFile ws (source_path (source_of ws)) (I.told inbox.old) (I.told inbox.new) result }
    ensures cause { CountsRead (I.faults inbox.old) (I.faults inbox.new) result }
{
    match source_of(words) {
        Source::Words => read_words_file(alloc, words, inbox),
        Source::Seed => read_seed_file(alloc, words, inbox),
    }
}
