// The files of a command, and what stops their reading.
ghost use Rattle.std.specs.Prelude.{◌≡◌, ◌-◌, ◌^◌, ◌<◌, ◌≤◌, IfOk, map, length, string_bytes};
ghost use Rattle.tda_refusal.specs.Refusal.{plain_text, named_text, NamesKnown};
ghost use Rattle.tda_inputs.specs.Files.{limit_of, IsRead};
ghost use Rattle.tda_inputs.specs.Reading.{path_of, IsRefused, GivesBytes, AsksFile, CountsRead};

use crate::refusal::Refusal;
use std::alloc::Global;
use tda_command::value_named;
use tda_io::{InFault, Inbox};
use tda_refusal::{Named, Plain, push_named, push_plain};
use tda_schema::Schema;
use tda_spine::Spine;

/// The longest file that is read.
const LIMIT: usize = 1 << 28;

/// The longest file that is read of a kind that the program writes too.
const WRITTEN_LIMIT: usize = 1 << 30;

/// How many bytes a seed has.
pub(crate) const SEED: usize = 32;

/// A file that a command reads.
#[derive(Clone, Copy, Debug, PartialEq, Eq)]
pub enum File {
    Schema,
    Spine,
    Facilities,
    Totals,
    Records,
    Measurements,
    Words,
    Seed,
    Tables,
    Prices,
}

impl File {
    ghost use Rattle.std.specs.Prelude.{◌≡◌, ◌≤◌, ◌^◌};
    ghost use Rattle.tda_inputs.specs.Files.{name_of, limit_of};

    /// Its name in the command.
    pub fn name(self) -> &'static str
        ensures { result.now ≡ name_of self }
    {
        match self {
            File::Schema => "schema",
            File::Spine => "spine",
            File::Facilities => "facilities",
            File::Totals => "totals",
            File::Records => "records",
            File::Measurements => "measurements",
            File::Words => "words",
            File::Seed => "seed",
            File::Tables => "tables",
            File::Prices => "prices",
        }
    }

    // How many bytes it may have.
    fn limit(self) -> usize
        ensures limit { result ≡ limit_of self }
        ensures small { result ≤ 2 ^ 30 }
    {
        match self {
            File::Seed => SEED,
            File::Measurements | File::Tables | File::Prices => WRITTEN_LIMIT,
            File::Schema
            | File::Spine
            | File::Facilities
            | File::Totals
            | File::Records
            | File::Words => LIMIT,
        }
    }
}

/// Why a file isn't there, or isn't what it has to be.
#[derive(Debug, Drop)]
pub enum Stop {
    /// The read of the file failed.
    Read(File),
    /// A file isn't accepted.
    Refused(Refusal),
    NoMemory,
}

/// The refusal of a file.
pub(crate) fn refused(alloc: Global, file: File, fault: Plain) -> Stop
    ensures { IsRefused file (plain_text fault) result }
{
    let mut text = Vec::new(alloc);
    match push_plain(&fault, &mut text) {
        Ok(()) => Stop::Refused(Refusal { file, fault: text }),
        Err(_) => Stop::NoMemory,
    }
}

/// The refusal of a file beside the schema and the spine, whose kinds and units its fault may name.
pub(crate) fn refused_beside(
    alloc: Global,
    schema: &Schema,
    spine: &Spine,
    file: File,
    fault: Named,
) -> Stop
    requires { NamesKnown schema.now spine.now fault }
    ensures { IsRefused file (named_text schema.now spine.now fault) result }
{
    let mut text = Vec::new(alloc);
    match push_named(schema, spine, &fault, &mut text) {
        Ok(()) => Stop::Refused(Refusal { file, fault: text }),
        Err(_) => Stop::NoMemory,
    }
}

// Where the command finds a file.
fn path_of(words: &[String], file: File) -> &str
    requires { IsRead (map string_bytes words.now) file }
    ensures { result.now ≡ path_of (map string_bytes words.now) file }
{
    value_named(words, file.name())
}

/// The bytes of a file.
pub(crate) fn read_bytes<I: Inbox>(
    alloc: Global,
    words: &[String],
    file: File,
    inbox: &mut I,
) -> Result<Vec<u8>, Stop>
    requires reads { IsRead (map string_bytes words.now) file }
    requires room { I.faults inbox.old < 2 ^ 64 - 1 }
    ensures bytes { GivesBytes (map string_bytes words.now) file (I.told inbox.old) result }
    ensures limit { IfOk result (λ v. length v.items ≤ limit_of file) }
    ensures asked { AsksFile (map string_bytes words.now) file (I.told inbox.old) (I.told inbox.new) result }
    ensures cause { CountsRead (I.faults inbox.old) (I.faults inbox.new) result }
{
    let limit = file.limit();
    match inbox.read(alloc, path_of(words, file), limit) {
        Ok(bytes) if bytes.len() > limit => Err(refused(alloc, file, Plain::TooLong)),
        Ok(bytes) => Ok(bytes),
        Err(InFault::Failed) => Err(Stop::Read(file)),
        Err(InFault::NoMemory) => Err(Stop::NoMemory),
    }
}
