//! A step: publishing a record.

ghost use Rattle.std.specs.Prelude.{◌≡◌, ◌+◌, ◌<◌, length};
ghost use Rattle.at_board.specs.Counting.{raised};
ghost use Rattle.at_board.specs.Prelude.{Publication};
ghost use Rattle.at_board.specs.Steps.Publish.{MayPublish, Publishes};
ghost use Rattle.at_board.specs.Knowledge.Seats.{IsKept, IsOf};

use crate::board::Board;
use crate::plays::Publish;
use crate::seat::BoardSeat;

impl Board {
    /// Publishes the seat's next record, whose words are stored, by one atomic store of its process's length, in one step.
    pub fn publish(&self, seat: &mut BoardSeat)
        requires board { IsOf seat.old self.now }
        requires record { (x : Publication) × MayPublish self.now.book seat.old.knows x }
        ensures published { (x : Publication) → MayPublish self.now.book seat.old.knows x
            → Publishes self.now.book seat.old.knows seat.new.knows x }
        ensures seat { IsKept seat.new.knows }
        ensures board { seat.new.board ≡ seat.old.board }
        ensures steps { seat.new.steps ≡ raised seat.old.steps 1 }
        ensures exchanges { seat.new.exchanges ≡ seat.old.exchanges }
    {
        seat.made.count_step();
        // Right here: this one store puts the record at the end of the list, after all that others have published before. What it
        // rests on still stands: its view is a cut of a prefix that never changes, its process alone debits the account or the
        // round is decided, and its words were stored by this seat.
        self.table.shared.store::<Publish>(
            &mut seat.seat,
            seat.process as usize,
            u64::from(seat.published) + 1,
        );
        seat.published += 1;
    }
}
