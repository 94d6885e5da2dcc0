//! A step: a load of a length.

ghost use Rattle.std.specs.Prelude.{◌≡◌, ◌+◌, ◌^◌, ◌<◌, length};
ghost use Rattle.at_board.specs.Counting.{raised};
ghost use Rattle.at_board.specs.Knowledge.Seats.{IsKept, IsOf};
ghost use Rattle.at_board.specs.Steps.LoadLength.{LoadsLength};

use crate::board::Board;
use crate::plays::LoadLength;
use crate::seat::BoardSeat;

impl Board {
    /// Loads the length of a process, in one step.
    pub fn load_length(&self, seat: &mut BoardSeat, p: u32) -> u32
        requires board { IsOf seat.old self.now }
        requires process { p < self.now.book.processes }
        ensures told { LoadsLength self.now.book seat.old.knows seat.new.knows p result }
        ensures small { result < 2 ^ 16 }
        ensures seat { IsKept seat.new.knows }
        ensures board { seat.new.board ≡ seat.old.board }
        ensures steps { seat.new.steps ≡ raised seat.old.steps 1 }
        ensures exchanges { seat.new.exchanges ≡ seat.old.exchanges }
    {
        seat.made.count_step();
        // Right here: the word counts the records of its process in the one list, and only that process raises it. Before, any
        // process may have published any number of records; so the seat learns a list that has just so many of this one.
        let length = self
            .table
            .shared
            .load::<LoadLength>(&mut seat.seat, p as usize);
        length as u32
    }
}
