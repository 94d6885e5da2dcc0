//! A word of a record, as a load gave it.

use std::marker::Model;
use std::snapshot::Snapshot;

/// A word of a record that was loaded. Only a load makes one of a word that clauses tell, so whoever has it has loaded that very
/// word. It is as large as its value alone.
#[derive(Drop)]
pub struct LoadedRecordWord {
    /// Whose record it is of, the record's number among those of the process, and which of its words, for contracts alone.
    pub(crate) address: Snapshot<(u32, u32, u32)>,
    pub(crate) value: u64,
}

impl Model for LoadedRecordWord {
    ghost use Rattle.at_board.specs.Knowledge.Records.{RecordWordTerms};

    ghost Value = { RecordWordTerms };

    ghost view = { λ w. record {
      process = w.address.value.0;
      number = w.address.value.1;
      word = w.address.value.2;
      value = w.value;
    } };
}

impl Default for LoadedRecordWord {
    /// What stands in the unused places of a list. No clause says which word it is.
    fn default() -> LoadedRecordWord {
        LoadedRecordWord {
            address: Snapshot::of(&(0, 0, 0)),
            value: 0,
        }
    }
}

impl LoadedRecordWord {
    ghost use Rattle.std.specs.Prelude.{◌≡◌};

    /// What was loaded.
    pub fn value(&self) -> u64
        ensures { result ≡ self.now.value }
    {
        self.value
    }
}
