// What an audit judges: the inputs of a release, its tables and its prices.
ghost use Rattle.std.specs.Prelude.{◌≡◌, ◌-◌, ◌^◌, ◌<◌, IfOk, map, length, string_bytes};
ghost use Rattle.tda_out.specs.Counts.{AreCountsOf};
ghost use Rattle.tda_prices.specs.Kept.{ArePricesOf};
ghost use Rattle.tda_refusal.specs.Refusal.{tables_text, prices_text};
ghost use Rattle.tda_inputs.specs.Accepted.{tables_from, prices_from};
ghost use Rattle.tda_inputs.specs.Files.{IsRead};
ghost use Rattle.tda_inputs.specs.Reading.{IsStop, GivesBy, GivesPrices, AsksFile, CountsRead, AsksFiles, ReadsCase, GathersCase};

use crate::inputs::{Inputs, read_inputs};
use crate::reading::{File, Stop, read_bytes, refused};
use std::alloc::Global;
use tda_io::Inbox;
use tda_out::Tables;
use tda_prices::{PriFault, Prices, TabFault, read_prices, read_tables};
use tda_refusal::Plain;
use tda_schema::Schema;
use tda_spine::Spine;

/// The inputs of a release, tables, and prices of its fits.
#[derive(Drop)]
pub struct Evidence {
    pub inputs: Inputs,
    pub tables: Tables,
    pub prices: Prices,
}

// Why tables that aren't read stop the reading.
fn tables_stop(alloc: Global, fault: TabFault) -> Stop
    ensures { IsStop TabFault.NoMemory File.Tables tables_text fault result }
{
    match fault {
        TabFault::NoMemory => Stop::NoMemory,
        fault => refused(alloc, File::Tables, Plain::Tables(fault)),
    }
}

// The same of prices.
fn prices_stop(alloc: Global, fault: PriFault) -> Stop
    ensures { IsStop PriFault.NoMemory File.Prices prices_text fault result }
{
    match fault {
        PriFault::NoMemory => Stop::NoMemory,
        fault => refused(alloc, File::Prices, Plain::Prices(fault)),
    }
}

// Reads and judges the tables.
fn read_tables_file<I: Inbox>(
    alloc: Global,
    words: &[String],
    schema: &Schema,
    spine: &Spine,
    inbox: &mut I,
) -> Result<Tables, Stop>
    requires reads { IsRead (map string_bytes words.now) File.Tables }
    requires belong { spine.now.depth ≡ length schema.now.levels }
    requires room { I.faults inbox.old < 2 ^ 64 - 1 }
    ensures file { GivesBy (map string_bytes words.now) File.Tables (tables_from schema.now spine.now) (I.told inbox.old) result }
    ensures counts { IfOk result (AreCountsOf schema.now spine.now) }
    ensures asked { AsksFile (map string_bytes words.now) File.Tables (I.told inbox.old) (I.told inbox.new) result }
    ensures cause { CountsRead (I.faults inbox.old) (I.faults inbox.new) result }
{
    let bytes = read_bytes(alloc, words, File::Tables, inbox)?;
    match read_tables(alloc, schema, spine, &bytes) {
        Ok(tables) => Ok(tables),
        Err(fault) => Err(tables_stop(alloc, fault)),
    }
}

// Reads and judges the prices.
fn read_prices_file<I: Inbox>(
    alloc: Global,
    words: &[String],
    schema: &Schema,
    spine: &Spine,
    inbox: &mut I,
) -> Result<Prices, Stop>
    requires reads { IsRead (map string_bytes words.now) File.Prices }
    requires belong { spine.now.depth ≡ length schema.now.levels }
    requires room { I.faults inbox.old < 2 ^ 64 - 1 }
    ensures file { GivesPrices (map string_bytes words.now) (prices_from schema.now spine.now) (I.told inbox.old) result }
    ensures prices { IfOk result (ArePricesOf schema.now spine.now) }
    ensures asked { AsksFile (map string_bytes words.now) File.Prices (I.told inbox.old) (I.told inbox.new) result }
    ensures cause { CountsRead (I.faults inbox.old) (I.faults inbox.new) result }
{
    let bytes = read_bytes(alloc, words, File::Prices, inbox)?;
    match read_prices(alloc, schema, spine, &bytes) {
        Ok(prices) => Ok(prices),
        Err(fault) => Err(prices_stop(alloc, fault)),
    }
}

/// Reads and judges the schema, the spine, the facilities, the totals, the measurements, the tables and the prices, in
/// this order.
pub fn read_evidence<I: Inbox>(
    alloc: Global,
    words: &[String],
    inbox: &mut I,
) -> Result<Evidence, Stop>
    requires reads { ReadsCase (map string_bytes words.now) }
    requires room { I.faults inbox.old < 2 ^ 64 - 1 }
    ensures evidence { GathersCase (map string_bytes words.now) (I.told inbox.old) result }
    ensures asked { AsksFiles (map string_bytes words.now) 7 (I.told inbox.old) (I.told inbox.new) result }
    ensures cause { CountsRead (I.faults inbox.old) (I.faults inbox.new) result }
{
    let inputs = read_inputs(alloc, words, inbox)?;
    let tables = read_tables_file(alloc, words, &inputs.schema, &inputs.spine, inbox)?;
    let prices = read_prices_file(alloc, words, &inputs.schema, &inputs.spine, inbox)?;
    Ok(Evidence {
        inputs,
        tables,
        prices,
    })
}
