//! A load of a record's view.

ghost use Rattle.std.specs.Prelude.{◌≡◌, ◌+◌};
ghost use Rattle.at_log.specs.Prelude.{stepped, SeesRecord, IsOf};
ghost use Rattle.at_log.specs.Loading.{IsViewOf};

use at_base::Counts;
use at_board::{Board, BoardSeat, RECORD_WORDS};

/// The view of a record that the seat has seen, in a step for each process. Takes no memory.
pub fn load_view(board: &Board, seat: &mut BoardSeat, p: u32, i: u32) -> Counts
    requires board { IsOf seat.old board.now }
    requires record { SeesRecord seat.old.knows p i }
    ensures view { IsViewOf seat.old.knows p i result }
    ensures same { seat.new ≡ stepped seat.old board.now.book.processes }
{
    board.book().known();
    seat.known();
    let processes = board.book().processes();
    let mut view = Counts::zeros(processes);
    for q in 0..processes {
        let count = board.load_record_word(seat, p, i, RECORD_WORDS + q).value();
        view.set(q, count as u32);
    }
    view
}
