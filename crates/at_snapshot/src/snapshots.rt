//! Whole snapshots.

ghost use Rattle.std.specs.Prelude.{◌≡◌, ◌+◌, ◌≤◌};
ghost use Rattle.at_snapshot.specs.Prelude.{IsOf};
ghost use Rattle.at_snapshot.specs.Collected.{HasLoaded};
ghost use Rattle.at_snapshot.specs.Snapshots.{HasCollected, IsSnapshot, snapshot_steps};

use crate::scan::{Scan, Turn};
use at_base::Counts;
use at_board::{Board, BoardSeat};

/// The counts of one prefix of the board's list, which begins with all that the seat had seen. It takes at most `n + 1` collects
/// of `n` processes, and no memory.
pub fn snapshot(board: &Board, seat: &mut BoardSeat) -> Counts
    requires { IsOf seat.old board.now }
    ensures snapshot { IsSnapshot board.now.book seat.old.knows seat.new.knows result }
    ensures loads { HasLoaded board.now.book seat.old.knows seat.new.knows }
    ensures collects { HasCollected board.now.book seat.old.knows seat.new.knows
        (board.now.book.processes + 1) }
    ensures board { IsOf seat.new board.now }
    ensures steps { seat.new.steps ≤ seat.old.steps + snapshot_steps board.now.book.processes }
    ensures risen { seat.old.steps ≤ seat.new.steps }
    ensures exchanges { seat.new.exchanges ≡ seat.old.exchanges }
{
    seat.known();
    let mut scan = Scan::start(seat);
    loop {
        match scan.turn(board, seat) {
            Turn::Clean(counts) | Turn::Borrowed(counts) => return counts,
            Turn::Again => {}
        }
    }
}
