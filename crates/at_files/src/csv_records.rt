//! Records that `csv` reads.

ghost use Rattle.std.specs.Prelude.{◌≡◌, ◌∷◌, [], if◌then◌else◌, IfOk, OnErr};
ghost use Rattle.at_files.specs.Records.{file_records};

use crate::record::Record;
use csv::{Reader, ReaderBuilder};
use std::alloc::{AllocError, Global};
use std::marker::Model;

/// The records that are left of a file with quotes, carriage returns or a mark of order.
pub(crate) struct CsvRecords<'a> {
    reader: Reader<&'a [u8]>,
    ended: bool,
}

// written out, so that each end of a function that owns one calls it, and doesn't drop the fields there
impl<'a> Drop for CsvRecords<'a> {
    fn drop(self) {
        let CsvRecords {
            reader: _,
            ended: _,
        } = self;
    }
}

impl<'a> Model for CsvRecords<'a> {
    ghost use Rattle.std.specs.Prelude.{◌≡◌, false, [], List, if◌then◌else◌};
    ghost use Rattle.at_files.specs.Records.{Fields};
    ghost use Rattle.at_files.specs.Reading.{records_left, IsBetweenRecords};

    ghost Value = { List Fields };

    ghost view = { λ r. if r.ended then [] else records_left r.reader };

    ghost invariant = { λ r. r.ended ≡ false → IsBetweenRecords r.reader };
}

impl<'a> CsvRecords<'a> {
    /// All records of a file.
    pub(crate) fn new(alloc: Global, bytes: &'a [u8]) -> CsvRecords<'a>
        ensures { result ≡ file_records bytes.now }
    {
        let reader = ReaderBuilder::new()
            .has_headers(false)
            .flexible(true)
            .from_reader(alloc, bytes);
        CsvRecords {
            reader,
            ended: false,
        }
    }

    /// Reads the next record into `fields`, and answers whether there was one. An error ends the records, and each
    /// one is answered as want of memory: no clause of `csv` rules out another over bytes that are there.
    pub(crate) fn next(&mut self, fields: &mut Record<'a>) -> Result<bool, AllocError>
        ensures ok { IfOk result
            (λ found. self.old ≡ (if found then fields.new ∷ self.new else [])) }
        ensures err { OnErr result (self.new ≡ []) }
    {
        if self.ended {
            return Ok(false);
        }
        self.ended = true;
        fields.is_copied = true;
        let Ok(found) = self.reader.read_byte_record(&mut fields.copied) else {
            return Err(AllocError);
        };
        self.ended = !found;
        Ok(found)
    }
}
