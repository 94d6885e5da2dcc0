//! A step: a load of a word of a published record.

ghost use Rattle.std.specs.Prelude.{◌≡◌, ◌+◌, ◌<◌};
ghost use Rattle.at_board.specs.Counting.{stepped};
ghost use Rattle.at_board.specs.Knowledge.Seats.{IsOf};
ghost use Rattle.at_board.specs.Steps.LoadRecordWord.{MayLoadWord};
ghost use Rattle.at_board.specs.Knowledge.Records.{seen_word};

use crate::board::Board;
use crate::loaded_record_word::LoadedRecordWord;
use crate::plays::LoadWord;
use crate::seat::BoardSeat;
use std::snapshot::Snapshot;

impl Board {
    /// Loads a word of a record that was seen, in one step. A published record never changes.
    pub fn load_record_word(&self, seat: &mut BoardSeat, p: u32, i: u32, j: u32) -> LoadedRecordWord
        requires board { IsOf seat.old self.now }
        requires record { MayLoadWord self.now.book seat.old.knows p i j }
        ensures word { result ≡ seen_word seat.old.knows p i j }
        ensures same { seat.new ≡ stepped seat.old 1 }
    {
        seat.known();
        let index = self.layout.record_index(p, i, j);
        seat.made.count_step();
        // Right here: the record was published before, and no step changes a published record, whatever others have done since.
        let value = self.table.shared.load::<LoadWord>(&mut seat.seat, index);
        LoadedRecordWord {
            address: Snapshot::of(&(p, i, j)),
            value,
        }
    }
}
