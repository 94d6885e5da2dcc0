//! A step: a load of a word of an announced request.

ghost use Rattle.std.specs.Prelude.{◌≡◌, ◌+◌, ◌<◌};
ghost use Rattle.at_board.specs.Counting.{raised};
ghost use Rattle.at_board.specs.Knowledge.Seats.{IsKept, IsOf};
ghost use Rattle.at_board.specs.Steps.LoadRequestWord.{MayLoadRequest, LoadsRequestWord};

use crate::board::Board;
use crate::plays::LoadRequestWord;
use crate::seat::BoardSeat;

impl Board {
    /// Loads a word of an announced request, in one step.
    pub fn load_request_word(
        &self,
        seat: &mut BoardSeat,
        account: u32,
        slot: u32,
        number: u32,
        j: u32,
    ) -> u64
        requires board { IsOf seat.old self.now }
        requires request { MayLoadRequest seat.old.knows account slot number j }
        ensures told { LoadsRequestWord self.now.book seat.old.knows seat.new.knows
            account slot number j result }
        ensures seat { IsKept seat.new.knows }
        ensures board { seat.new.board ≡ seat.old.board }
        ensures steps { seat.new.steps ≡ raised seat.old.steps 1 }
        ensures exchanges { seat.new.exchanges ≡ seat.old.exchanges }
    {
        seat.known();
        let index = self.layout.request_index(account, slot, number, j);
        seat.made.count_step();
        // Right here: the request is announced, since the seat has seen its number or a decision that names it, and no step changes
        // an announced request, whatever others have done since.
        self.table
            .shared
            .load::<LoadRequestWord>(&mut seat.seat, index)
    }
}
