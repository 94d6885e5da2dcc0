//! Counting what was published since.

ghost use Rattle.std.specs.Prelude.{◌≡◌, ◌+◌, ◌-◌, ◌*◌, ◌<◌, ◌≤◌, slice_index, slice_set, sum};
ghost use Rattle.at_fold.specs.Prelude.{Covers, stepped, count_of, IsOf, RECORD_WORDS};
ghost use Rattle.at_fold.specs.HasCounted.{HasCounted, HasRecords, StaysCounted};

use crate::totals::Totals;
use at_base::Counts;
use at_board::{Board, BoardSeat};
use at_log::load_entry;

impl Totals {
    /// Counts all records that `counts` counts, which the seat has seen. Loads the entries of those alone that weren't counted
    /// before, in a step for each word.
    pub fn catch_up(&mut self, board: &Board, seat: &mut BoardSeat, counts: &Counts)
        requires board { IsOf seat.old board.now }
        requires counted { HasCounted self.old board.now.book seat.old.knows.seen }
        requires more { Covers counts.now self.old.upto }
        requires seen { HasRecords board.now.book seat.old.knows.seen counts.now }
        ensures counted { HasCounted self.new board.now.book seat.new.knows.seen }
        ensures stays { StaysCounted self.new board.now.book seat.new.knows.seen }
        ensures upto { self.new.upto ≡ counts.now }
        ensures same { seat.new ≡ stepped seat.old (RECORD_WORDS
            * (sum counts.now - sum self.old.upto)) }
    {
        for p in 0..counts.len() {
            let end = counts.get(p);
            // From call to call most processes publish nothing.
            if self.counted(p) < end {
                self.catch_up_with(board, seat, p, end);
            }
        }
    }

    /// Counts the records of a process up to this number of them.
    fn catch_up_with(&mut self, board: &Board, seat: &mut BoardSeat, p: u32, end: u32)
        requires board { IsOf seat.old board.now }
        requires counted { HasCounted self.old board.now.book seat.old.knows.seen }
        requires process { p < board.now.book.processes }
        requires more { slice_index self.old.upto p ≤ end }
        requires seen { end ≤ count_of p seat.old.knows.seen }
        ensures counted { HasCounted self.new board.now.book seat.new.knows.seen }
        ensures upto { self.new.upto ≡ slice_set self.old.upto p end }
        ensures same { seat.new ≡ stepped seat.old
            (RECORD_WORDS * (end - slice_index self.old.upto p)) }
    {
        seat.known();
        let start = self.counted(p);
        for i in start..end {
            let entry = load_entry(board, seat, p, i);
            self.count(p, i + 1, &entry);
        }
    }
}
