//! Closing a board, when no thread shares it any more.

ghost use Rattle.std.specs.Prelude.{◌≡◌, ◌<◌, ◌≤◌};
ghost use Rattle.at_board.specs.Ends.Closing.{AreAllFree, Gathers, IsEnd};

use crate::board::Board;
use crate::board_end::BoardEnd;
use crate::knowledge::Knowledge;
use crate::layout::Layout;
use crate::meet::meet;
use crate::plays::Gather;
use crate::rule::BoardRule;
use crate::seat::BoardSeat;
use at_ledger::Book;
use atomic_table::{Seat, Shared};
use std::snapshot::Snapshot;

impl Board {
    /// Closes the board with all its seats, in order, of which none holds a cell. Its words stay where they are. Takes no memory, so
    /// it isn't refused, and time in proportion to the processes.
    pub fn close(self, seats: Vec<BoardSeat>) -> BoardEnd
        requires { AreAllFree self seats.items }
        ensures book { result.book ≡ self.book }
        ensures end { IsEnd result seats.items }
    {
        let Board { table, layout } = self;
        let Layout {
            book,
            log_starts,
            slots_start: _,
            slots_before: _,
        } = layout;
        let last = gather(&table.shared, &book, seats);
        BoardEnd {
            book,
            log_starts,
            table: table.close_with(last),
        }
    }
}

/// The seat of process 0, to which those of the others were joined.
fn gather(
    shared: &Shared<(), Knowledge, Snapshot<Book>, BoardRule>,
    book: &Book,
    seats: Vec<BoardSeat>,
) -> Seat<(), Knowledge>
    requires words { 0 < shared.now.table_id.words }
    requires some { 1 ≤ book.now.processes }
    requires seats { AreAllFree record { id = shared.now.table_id; book = book.now } seats.items }
    ensures table { result.table_id ≡ shared.now.table_id }
    ensures seats { Gathers seats.items result.me.0 }
{
    let mut rest = seats.into_iter();
    let Some(first) = rest.next() else {
        unreachable!()
    };
    let mut all = first.into_seat();
    for other in rest {
        let mut next = other.into_seat();
        meet(shared, &mut all, &mut next);
        shared.join_seat::<Gather>(&mut all, next);
    }
    all
}
