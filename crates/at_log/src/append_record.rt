//! An append: records are published on the board one after another.

ghost use Rattle.std.specs.Prelude.{◌≡◌, ◌+◌, ◌-◌};
ghost use Rattle.at_log.specs.Prelude.{raised, IsOf, Publishes, own_part, RECORD_WORDS, log_room_of};
ghost use Rattle.at_log.specs.Appending.{MayAppend};
ghost use Rattle.at_log.specs.ClosingTerms.{published_by};
ghost use Rattle.at_log.specs.LastRecord.{IsLast};

use crate::record::Record;
use at_board::{Board, BoardSeat, RECORD_WORDS, record_word};

/// How many records the log of the seat's process still takes. It makes no step.
pub fn room(board: &Board, seat: &BoardSeat) -> u32
    ensures { result ≡ log_room_of board.now.book seat.now.knows.first
        - (own_part seat.now.knows).published }
{
    board
        .book()
        .log_room(seat.process())
        .saturating_sub(seat.published())
}

/// Stores the words of a record, those of its entry and one for each process, and publishes it. Takes no memory.
pub fn append(board: &Board, seat: &mut BoardSeat, rec: &Record)
    requires board { IsOf seat.old board.now }
    requires record { MayAppend board.now.book seat.old.knows rec.now }
    ensures published { Publishes board.now.book seat.old.knows seat.new.knows
        (published_by seat.old.knows.first rec.now) }
    ensures last { IsLast seat.old.knows seat.new.knows
        (published_by seat.old.knows.first rec.now) }
    ensures board { seat.new.board ≡ seat.old.board }
    ensures steps { seat.new.steps ≡ raised seat.old.steps
        (RECORD_WORDS + board.now.book.processes + 1) }
    ensures exchanges { seat.new.exchanges ≡ seat.old.exchanges }
{
    board.book().known();
    seat.known();
    let width = RECORD_WORDS + board.book().processes();
    for j in 0..width {
        let word = record_word(&rec.entry, &rec.view, j);
        board.store_record_word(seat, j, word);
    }
    board.publish(seat);
}
