//! One record of a file.

ghost use Rattle.std.specs.Prelude.{◌≡◌, [], length};

use csv::ByteRecord;
use std::alloc::Global;
use std::marker::Model;

/// The fields of one record: where they lie in the file, or a copy that `csv` made.
pub(crate) struct Record<'a> {
    pub(crate) slices: Vec<&'a [u8]>,
    pub(crate) copied: ByteRecord,
    pub(crate) is_copied: bool,
}

// written out, so that each end of a function that owns one calls it, and doesn't drop the fields there
impl<'a> Drop for Record<'a> {
    fn drop(self) {
        let Record {
            slices: _,
            copied: _,
            is_copied: _,
        } = self;
    }
}

impl<'a> Model for Record<'a> {
    ghost use Rattle.std.specs.Prelude.{List, if◌then◌else◌};
    ghost use Rattle.at_files.specs.Prelude.{fields_of};
    ghost use Rattle.at_files.specs.Reading.{texts_of};
    ghost use Rattle.at_files.specs.Records.{Fields};

    ghost Value = { Fields };

    ghost view = { λ r. if r.is_copied then fields_of r.copied else texts_of r.slices.items };
}

impl<'a> Record<'a> {
    /// A record without fields. It takes memory with the first ones.
    pub(crate) fn new(alloc: Global) -> Record<'a>
        ensures { result ≡ [] }
    {
        Record {
            slices: Vec::new(alloc),
            copied: ByteRecord::new(alloc),
            is_copied: false,
        }
    }

    pub(crate) fn len(&self) -> usize
        ensures { result ≡ length self.now }
    {
        if self.is_copied {
            self.copied.len()
        } else {
            self.slices.len()
        }
    }
}
