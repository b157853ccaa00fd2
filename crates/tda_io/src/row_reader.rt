// The rows of a text, one after the other.
ghost use Rattle.std.specs.Prelude.{◌≡◌, ◌<◌, ◌≤◌, ◌^◌, [], length, map, slice_index_or};
ghost use Rattle.std.specs.Bool.{OnTrue};
ghost use Rattle.tda_io.specs.Csv.{same_row};
ghost use Rattle.tda_io.specs.RowReading.{bad_rest, unread, ReadsRow, ReadsRest};

use crate::RowFault;
use csv::{ByteRecord, Reader, ReaderBuilder};
use std::alloc::Global;
use std::marker::Model;

// Whether there may be a further row. After want of memory the reader may stand inside a row.
#[derive(Clone, Copy, Debug, PartialEq, Eq)]
enum Progress {
    Reading,
    Ended,
    Failed,
}

/// The rows of a text, read one after the other as `csv` reads them by its default settings, none of them as a header.
/// Only the row that was read last is kept.
///
/// A line feed, a carriage return or both end a row, blank lines are no rows, and a byte order mark at the start is
/// dropped.
#[derive(Drop)]
pub struct RowReader<'a> {
    reader: Reader<&'a [u8]>,
    row: ByteRecord,
    number: u64,
    width: usize,
    progress: Progress,
}

impl<'a> Model for RowReader<'a> {
    ghost use Rattle.std.specs.Prelude.{◌≡◌};
    ghost use Rattle.csv.specs.Records.{fields_of};
    ghost use Rattle.tda_io.specs.declared.row_reader.Progress.TheVariants.{Reading};
    ghost use Rattle.tda_io.specs.RowReading.{RowsRead, IsReading, rest_at, has_failed};

    ghost Value = { RowsRead };

    ghost view = { λ r. record { row = fields_of r.row; number = r.number; width = r.width; rest = rest_at r.progress r.reader; failed = has_failed r.progress } };

    ghost invariant = { λ r. r.progress ≡ Reading → IsReading r.reader r.number };
}

impl<'a> RowReader<'a> {
    /// A reader that stands before the first row.
    pub fn new(alloc: Global, bytes: &'a [u8]) -> Self
        requires limit { length bytes.now ≤ 2 ^ 30 }
        ensures { result ≡ unread bytes.now }
    {
        RowReader {
            reader: ReaderBuilder::new()
                .has_headers(false)
                .flexible(true)
                .from_reader(alloc, bytes),
            row: ByteRecord::new(alloc),
            number: 0,
            width: 0,
            progress: Progress::Reading,
        }
    }

    /// Reads the next row, which is then the last that was read: false where there is none, and from then on.
    ///
    /// `BadWidth` tells the number of the row where its number of fields isn't that of row 1; the row was read all the same.
    /// After `NoMemory` each further call answers `NoMemory`.
    pub fn next_row(&mut self) -> Result<bool, RowFault>
        ensures { ReadsRow result self.old self.new }
    {
        match self.progress {
            Progress::Reading => {}
            Progress::Ended => return Ok(false),
            Progress::Failed => return Err(RowFault::NoMemory),
        }
        // A slice never fails and a flexible reader takes any width, so an error is want of memory.
        let Ok(found) = self.reader.read_byte_record(&mut self.row) else {
            self.progress = Progress::Failed;
            return Err(RowFault::NoMemory);
        };
        if !found {
            self.progress = Progress::Ended;
            return Ok(false);
        }
        self.number += 1;
        if self.number > 1 && self.row.len() != self.width {
            return Err(RowFault::BadWidth(self.number));
        }
        self.width = self.row.len();
        Ok(true)
    }

    /// Reads all rows that are left.
    ///
    /// `BadWidth` tells the number of the first of them whose number of fields isn't that of row 1.
    pub fn finish(&mut self) -> Result<(), RowFault>
        ensures { ReadsRest result self.old }
    {
        while self.next_row()? {}
        Ok(())
    }

    /// The number of the row that was read last, from 1: 0 where none was read.
    pub fn number(&self) -> u64
        ensures { result ≡ self.now.number }
    {
        self.number
    }

    /// How many fields the row that was read last has.
    pub fn len(&self) -> usize
        ensures { result ≡ length self.now.row }
    {
        self.row.len()
    }

    /// Whether the row that was read last has just these fields.
    pub fn has_fields(&self, fields: &[&str]) -> bool
        ensures same { result ≡ same_row (map (λ f. f.now) fields.now) self.now.row }
        ensures width { OnTrue result (length self.now.row ≡ length fields.now) }
    {
        if self.len() != fields.len() {
            return false;
        }
        for (col, field) in fields.iter().enumerate() {
            if field.as_bytes() != self.field(col) {
                return false;
            }
        }
        true
    }

    /// A field of the row that was read last, from 0.
    pub fn field(&self, col: usize) -> &[u8]
        requires { col < length self.now.row }
        ensures { result.now ≡ slice_index_or self.now.row col [] }
    {
        self.row.get(col).unwrap()
    }
}
