// What each command reads first: the schema, the spine and the facilities.
ghost use Rattle.std.specs.Prelude.{◌≡◌, ◌-◌, ◌^◌, ◌<◌, IfOk, map, length, string_bytes};
ghost use Rattle.tda_schema.specs.Read as schema;
ghost use Rattle.tda_spine.specs.Judged as spine;
ghost use Rattle.tda_spine.specs.Judged.{IsWithinLimits};
ghost use Rattle.tda_invar.specs.Facilities as facilities;
ghost use Rattle.tda_invar.specs.Facilities.{IsTableOf};
ghost use Rattle.tda_refusal.specs.Refusal.{schema_text, spine_text, facilities_text};
ghost use Rattle.tda_inputs.specs.Accepted.{base_from};
ghost use Rattle.tda_inputs.specs.Files.{IsRead};
ghost use Rattle.tda_inputs.specs.Reading.{IsStop, GivesFile, AsksFile, CountsRead, Gathers, AsksFiles};

use crate::reading::{File, Stop, read_bytes, refused};
use std::alloc::Global;
use tda_invar::{FacFault, Facilities, read_facilities};
use tda_io::Inbox;
use tda_refusal::Plain;
use tda_schema::{Schema, SchemaFault, read_schema};
use tda_spine::{Spine, SpineFault, read_spine};

/// A schema, a spine and facilities.
#[derive(Drop)]
pub(crate) struct Base {
    pub(crate) schema: Schema,
    pub(crate) spine: Spine,
    pub(crate) facilities: Facilities,
}

// Why a schema that isn't read stops the reading.
fn schema_stop(alloc: Global, fault: SchemaFault) -> Stop
    ensures { IsStop SchemaFault.NoMemory File.Schema schema_text fault result }
{
    match fault {
        SchemaFault::NoMemory => Stop::NoMemory,
        fault => refused(alloc, File::Schema, Plain::Schema(fault)),
    }
}

// The same of a spine.
fn spine_stop(alloc: Global, fault: SpineFault) -> Stop
    ensures { IsStop SpineFault.NoMemory File.Spine spine_text fault result }
{
    match fault {
        SpineFault::NoMemory => Stop::NoMemory,
        fault => refused(alloc, File::Spine, Plain::Spine(fault)),
    }
}

// The same of facilities.
fn facilities_stop(alloc: Global, fault: FacFault) -> Stop
    ensures { IsStop FacFault.NoMemory File.Facilities facilities_text fault result }
{
    match fault {
        FacFault::NoMemory => Stop::NoMemory,
        fault => refused(alloc, File::Facilities, Plain::Facilities(fault)),
    }
}

// Reads and judges the schema.
fn read_schema_file<I: Inbox>(
    alloc: Global,
    words: &[String],
    inbox: &mut I,
) -> Result<Schema, Stop>
    requires reads { IsRead (map string_bytes words.now) File.Schema }
    requires room { I.faults inbox.old < 2 ^ 64 - 1 }
    ensures file { GivesFile (map string_bytes words.now) File.Schema schema_text schema.read (I.told inbox.old) result }
    ensures asked { AsksFile (map string_bytes words.now) File.Schema (I.told inbox.old) (I.told inbox.new) result }
    ensures cause { CountsRead (I.faults inbox.old) (I.faults inbox.new) result }
{
    let bytes = read_bytes(alloc, words, File::Schema, inbox)?;
    match read_schema(alloc, &bytes) {
        Ok(schema) => Ok(schema),
        Err(fault) => Err(schema_stop(alloc, fault)),
    }
}

// Reads and judges the spine.
fn read_spine_file<I: Inbox>(
    alloc: Global,
    words: &[String],
    schema: &Schema,
    inbox: &mut I,
) -> Result<Spine, Stop>
    requires reads { IsRead (map string_bytes words.now) File.Spine }
    requires room { I.faults inbox.old < 2 ^ 64 - 1 }
    ensures file { GivesFile (map string_bytes words.now) File.Spine spine_text (spine.read schema.now) (I.told inbox.old) result }
    ensures limits { IfOk result (IsWithinLimits schema.now) }
    ensures asked { AsksFile (map string_bytes words.now) File.Spine (I.told inbox.old) (I.told inbox.new) result }
    ensures cause { CountsRead (I.faults inbox.old) (I.faults inbox.new) result }
{
    let bytes = read_bytes(alloc, words, File::Spine, inbox)?;
    match read_spine(alloc, schema, &bytes) {
        Ok(spine) => Ok(spine),
        Err(fault) => Err(spine_stop(alloc, fault)),
    }
}

// Reads and judges the facilities.
fn read_facilities_file<I: Inbox>(
    alloc: Global,
    words: &[String],
    schema: &Schema,
    spine: &Spine,
    inbox: &mut I,
) -> Result<Facilities, Stop>
    requires reads { IsRead (map string_bytes words.now) File.Facilities }
    requires belong { spine.now.depth ≡ length schema.now.levels }
    requires room { I.faults inbox.old < 2 ^ 64 - 1 }
    ensures file { GivesFile (map string_bytes words.now) File.Facilities facilities_text (facilities.read schema.now spine.now) (I.told inbox.old) result }
    ensures table { IfOk result (IsTableOf schema.now spine.now) }
    ensures asked { AsksFile (map string_bytes words.now) File.Facilities (I.told inbox.old) (I.told inbox.new) result }
    ensures cause { CountsRead (I.faults inbox.old) (I.faults inbox.new) result }
{
    let bytes = read_bytes(alloc, words, File::Facilities, inbox)?;
    match read_facilities(alloc, schema, spine, &bytes) {
        Ok(facilities) => Ok(facilities),
        Err(fault) => Err(facilities_stop(alloc, fault)),
    }
}

/// Reads and judges the schema, the spine and the facilities, in this order.
pub(crate) fn read_base<I: Inbox>(
    alloc: Global,
    words: &[String],
    inbox: &mut I,
) -> Result<Base, Stop>
    requires schema { IsRead (map string_bytes words.now) File.Schema }
    requires spine { IsRead (map string_bytes words.now) File.Spine }
    requires facilities { IsRead (map string_bytes words.now) File.Facilities }
    requires room { I.faults inbox.old < 2 ^ 64 - 1 }
    ensures base { Gathers (map string_bytes words.now) 3 base_from (I.told inbox.old) result }
    ensures limits { IfOk result (λ b. IsWithinLimits b.schema b.spine) }
    ensures table { IfOk result (λ b. IsTableOf b.schema b.spine b.facilities) }
    ensures asked { AsksFiles (map string_bytes words.now) 3 (I.told inbox.old) (I.told inbox.new) result }
    ensures cause { CountsRead (I.faults inbox.old) (I.faults inbox.new) result }
{
    let schema = read_schema_file(alloc, words, inbox)?;
    let spine = read_spine_file(alloc, words, &schema, inbox)?;
    let facilities = read_facilities_file(alloc, words, &schema, &spine, inbox)?;
    Ok(Base {
        schema,
        spine,
        facilities,
    })
}
