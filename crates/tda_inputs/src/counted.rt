// What `measure` measures: counts of persons, and the words of the noise.
ghost use Rattle.std.specs.Prelude.{◌≡◌, ◌-◌, ◌^◌, ◌<◌, IfOk, IfErr, OnOk, map, length, string_bytes};
ghost use Rattle.tda_invar.specs.Facilities.{IsTableOf};
ghost use Rattle.tda_records.specs.Records as records;
ghost use Rattle.tda_records.specs.Records.{AreRecordsOf};
ghost use Rattle.tda_out.specs.Counts.{count_at, AreCountsOf};
ghost use Rattle.tda_hist.specs.Agreement.{agree_due};
ghost use Rattle.tda_hist.specs.TrueTable.{BlocksAddUp};
ghost use Rattle.tda_refusal.specs.Refusal.{records_text, hist_text, NamesKnown};
ghost use Rattle.tda_inputs.specs.Files.{IsRead};
ghost use Rattle.tda_inputs.specs.Reading.{IsStop, GivesFile, Judges, AsksFile, CountsRead, AsksFiles, AreTrueCounts, AreEnough, GivesTables, ReadsSurvey, Surveys};

use crate::base::{Base, read_base};
use crate::noise::{Noise, read_noise};
use crate::reading::{File, Stop, read_bytes, refused, refused_beside};
use std::alloc::Global;
use tda_hist::{agree, count};
use tda_invar::Facilities;
use tda_io::Inbox;
use tda_out::Tables;
use tda_records::{RecFault, Records, read_records};
use tda_refusal::{Named, Plain};
use tda_schema::Schema;
use tda_spine::Spine;

/// A schema, a spine, facilities, the true table of each unit, and the words of the noise.
#[derive(Drop)]
pub struct Counted {
    pub schema: Schema,
    pub spine: Spine,
    pub facilities: Facilities,
    pub tables: Tables,
    pub noise: Noise,
}

// Why records that aren't read stop the reading.
fn records_stop(alloc: Global, fault: RecFault) -> Stop
    ensures { IsStop RecFault.NoMemory File.Records records_text fault result }
{
    match fault {
        RecFault::NoMemory => Stop::NoMemory,
        fault => refused(alloc, File::Records, Plain::Records(fault)),
    }
}

// Reads and judges the records, as far as they can be without the facilities.
fn read_records_file<I: Inbox>(
    alloc: Global,
    words: &[String],
    schema: &Schema,
    spine: &Spine,
    inbox: &mut I,
) -> Result<Records, Stop>
    requires reads { IsRead (map string_bytes words.now) File.Records }
    requires belong { spine.now.depth ≡ length schema.now.levels }
    requires room { I.faults inbox.old < 2 ^ 64 - 1 }
    ensures file { GivesFile (map string_bytes words.now) File.Records records_text (records.read schema.now spine.now) (I.told inbox.old) result }
    ensures records { IfOk result (AreRecordsOf schema.now spine.now) }
    ensures asked { AsksFile (map string_bytes words.now) File.Records (I.told inbox.old) (I.told inbox.new) result }
    ensures cause { CountsRead (I.faults inbox.old) (I.faults inbox.new) result }
{
    let bytes = read_bytes(alloc, words, File::Records, inbox)?;
    match read_records(alloc, schema, spine, &bytes) {
        Ok(records) => Ok(records),
        Err(fault) => Err(records_stop(alloc, fault)),
    }
}

// The true tables of the records.
fn true_tables(
    alloc: Global,
    schema: &Schema,
    spine: &Spine,
    records: &Records,
) -> Result<Tables, Stop>
    requires { AreRecordsOf schema.now spine.now records.now }
    ensures ok { IfOk result (AreTrueCounts schema.now spine.now records.now) }
    ensures err { IfErr result (λ e. e ≡ Stop.NoMemory) }
{
    match count(alloc, schema, spine, records) {
        Ok(tables) => Ok(tables),
        Err(_) => Err(Stop::NoMemory),
    }
}

// Judges the records' tables beside the facilities.
fn agreed(
    alloc: Global,
    schema: &Schema,
    spine: &Spine,
    facilities: &Facilities,
    tables: &Tables,
) -> Result<(), Stop>
    requires belong { spine.now.depth ≡ length schema.now.levels }
    requires tables { AreCountsOf schema.now spine.now tables.now }
    requires table { IsTableOf schema.now spine.now facilities.now }
    ensures judges { Judges File.Records (hist_text schema.now spine.now) (agree_due schema.now spine.now facilities.now (count_at tables.now)) result }
    ensures enough { BlocksAddUp schema.now spine.now (count_at tables.now) → OnOk result (AreEnough schema.now spine.now facilities.now tables.now) }
{
    match agree(schema, spine, tables, facilities) {
        Ok(()) => Ok(()),
        Err(fault) => Err(refused_beside(alloc, schema, spine, File::Records, Named::Hist(fault))),
    }
}

// Reads and judges the records, beside the facilities too, and counts them. They are dropped then.
fn read_tables<I: Inbox>(
    alloc: Global,
    words: &[String],
    base: &Base,
    inbox: &mut I,
) -> Result<Tables, Stop>
    requires reads { IsRead (map string_bytes words.now) File.Records }
    requires belong { base.now.spine.depth ≡ length base.now.schema.levels }
    requires table { IsTableOf base.now.schema base.now.spine base.now.facilities }
    requires room { I.faults inbox.old < 2 ^ 64 - 1 }
    ensures tables { GivesTables (map string_bytes words.now) base.now (I.told inbox.old) result }
    ensures enough { IfOk result (AreEnough base.now.schema base.now.spine base.now.facilities) }
    ensures asked { AsksFile (map string_bytes words.now) File.Records (I.told inbox.old) (I.told inbox.new) result }
    ensures cause { CountsRead (I.faults inbox.old) (I.faults inbox.new) result }
{
    let schema = &base.schema;
    let spine = &base.spine;
    let records = read_records_file(alloc, words, schema, spine, inbox)?;
    let tables = true_tables(alloc, schema, spine, &records)?;
    agreed(alloc, schema, spine, &base.facilities, &tables)?;
    Ok(tables)
}

/// Reads and judges the schema, the spine, the facilities, the records, and the words or the seed, in this order. That
/// persons and facilities agree is judged before the words are read.
pub fn read_counted<I: Inbox>(
    alloc: Global,
    words: &[String],
    inbox: &mut I,
) -> Result<Counted, Stop>
    requires reads { ReadsSurvey (map string_bytes words.now) }
    requires room { I.faults inbox.old < 2 ^ 64 - 1 }
    ensures survey { Surveys (map string_bytes words.now) (I.told inbox.old) result }
    ensures asked { AsksFiles (map string_bytes words.now) 5 (I.told inbox.old) (I.told inbox.new) result }
    ensures cause { CountsRead (I.faults inbox.old) (I.faults inbox.new) result }
{
    let base = read_base(alloc, words, inbox)?;
    let tables = read_tables(alloc, words, &base, inbox)?;
    let noise = read_noise(alloc, words, inbox)?;
    Ok(Counted {
        schema: base.schema,
        spine: base.spine,
        facilities: base.facilities,
        tables,
        noise,
    })
}
