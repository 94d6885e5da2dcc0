//! A step: a store of a word of the seat's next record.

ghost use Rattle.std.specs.Prelude.{◌≡◌, ◌+◌, ◌<◌};
ghost use Rattle.at_board.specs.Counting.{raised};
ghost use Rattle.at_board.specs.Steps.StoreRecordWord.{MayStoreWord, StoresWord};
ghost use Rattle.at_board.specs.Knowledge.Seats.{IsKept, IsOf};

use crate::board::Board;
use crate::plays::StoreWord;
use crate::seat::BoardSeat;

impl Board {
    /// Stores a word of the seat's next record, in one step. Word 0 is its head, 1 its targets, 2 its decision, 3 to 6 its
    /// amounts, and then comes its view, a count for each process. A word that isn't stored is 0.
    pub fn store_record_word(&self, seat: &mut BoardSeat, j: u32, w: u64)
        requires board { IsOf seat.old self.now }
        requires word { MayStoreWord self.now.book seat.old.knows j }
        ensures stored { StoresWord seat.old.knows seat.new.knows j w }
        ensures seat { IsKept seat.new.knows }
        ensures board { seat.new.board ≡ seat.old.board }
        ensures steps { seat.new.steps ≡ raised seat.old.steps 1 }
        ensures exchanges { seat.new.exchanges ≡ seat.old.exchanges }
    {
        let index = self.layout.record_index(seat.process, seat.published, j);
        seat.made.count_step();
        // Right here: the record lies past the end of its process's log, so no step of another seat reads the word. Before, others
        // may have published anything; none of that touches it.
        self.table
            .shared
            .store::<StoreWord>(&mut seat.seat, index, w);
    }
}
