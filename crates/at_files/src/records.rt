//! The records of a file, one after another.

ghost use Rattle.std.specs.Prelude.{◌≡◌, ◌∷◌, [], true, if◌then◌else◌, IfOk, OnErr};
ghost use Rattle.at_files.specs.Prelude.{strip_bom};
ghost use Rattle.at_files.specs.Reading.{IsPlain};
ghost use Rattle.at_files.specs.Records.{file_records};

use crate::csv_records::CsvRecords;
use crate::lines::Lines;
use crate::record::Record;
use memchr::memchr2;
use std::alloc::{AllocError, Global};
use std::marker::Model;

/// The records that are left of a file: its lines, or what `csv` reads where they may be more or less than that.
#[derive(Drop)]
pub(crate) struct Records<'a> {
    lines: Lines<'a>,
    read: Option<CsvRecords<'a>>,
}

impl<'a> Model for Records<'a> {
    ghost use Rattle.std.specs.Prelude.{List, unwrap_or};
    ghost use Rattle.at_files.specs.Records.{Fields};

    ghost Value = { List Fields };

    ghost view = { λ r. unwrap_or r.read r.lines };
}

impl<'a> Records<'a> {
    /// All records of a file.
    pub(crate) fn new(alloc: Global, bytes: &'a [u8]) -> Records<'a>
        ensures { result ≡ file_records bytes.now }
    {
        if is_plain(bytes) {
            Records {
                lines: Lines::new(bytes),
                read: None,
            }
        } else {
            Records {
                lines: Lines::new(&[]),
                read: Some(CsvRecords::new(alloc, bytes)),
            }
        }
    }

    /// Reads the next record into `fields`, and answers whether there was one. Without memory there are no more.
    pub(crate) fn next(&mut self, fields: &mut Record<'a>) -> Result<bool, AllocError>
        ensures ok { IfOk result
            (λ found. self.old ≡ (if found then fields.new ∷ self.new else [])) }
        ensures err { OnErr result (self.new ≡ []) }
    {
        match &mut self.read {
            Some(records) => records.next(fields),
            None => self.lines.next(fields),
        }
    }
}

/// Whether no mark of order stands first.
fn is_unmarked(bytes: &[u8]) -> bool
    ensures { result ≡ true → strip_bom bytes.now ≡ bytes.now }
{
    bytes.is_empty() || bytes[0] != 0xEF
}

/// Whether each record of the file is a line: it has no mark of order, no quote and no carriage return.
fn is_plain(bytes: &[u8]) -> bool
    ensures plain { result ≡ true → IsPlain bytes.now }
    ensures unmarked { result ≡ true → strip_bom bytes.now ≡ bytes.now }
{
    is_unmarked(bytes) && memchr2(b'"', b'\r', bytes).is_none()
}
