//! A step: a store of a word of the seat's next request.

ghost use Rattle.std.specs.Prelude.{◌≡◌, ◌+◌, ◌<◌, ℕ};
ghost use Rattle.at_board.specs.Counting.{raised};
ghost use Rattle.at_board.specs.Knowledge.Seats.{IsKept, IsOf};
ghost use Rattle.at_board.specs.Steps.StoreRequestWord.{MayStoreRequest, StoresRequestWord};

use crate::board::Board;
use crate::plays::StoreRequestWord;
use crate::seat::BoardSeat;
use crate::words::REQUEST_WORDS;

impl Board {
    /// Stores a word of the next request of the seat's process on an account, in one step. Word 0 is its targets, 1 to 4 its
    /// amounts, 5 its `since`. A word that isn't stored is 0.
    pub fn store_request_word(&self, seat: &mut BoardSeat, account: u32, j: u32, w: u64)
        requires board { IsOf seat.old self.now }
        requires asks { (slot : ℕ) × MayStoreRequest self.now.book seat.old.knows account slot }
        requires word { j < REQUEST_WORDS }
        ensures stored { StoresRequestWord seat.old.knows seat.new.knows account j w }
        ensures seat { IsKept seat.new.knows }
        ensures board { seat.new.board ≡ seat.old.board }
        ensures steps { seat.new.steps ≡ raised seat.old.steps 1 }
        ensures exchanges { seat.new.exchanges ≡ seat.old.exchanges }
    {
        let slot = self.own_slot(account, seat.process());
        let next = self.announced(seat, account);
        let index = self.layout.request_index(account, slot, next, j);
        seat.made.count_step();
        // Right here: the request isn't announced, so no step of another seat reads the word. Before, others may have published,
        // announced and decided anything; none of that touches it.
        self.table
            .shared
            .store::<StoreRequestWord>(&mut seat.seat, index, w);
    }
}
