//! Where a snapshot in the making stands.

ghost use Rattle.std.specs.Prelude.{◌≡◌, ℕ, ◌+◌, ◌<◌, ◌≤◌, length, slice_index};
ghost use Rattle.at_machines.specs.Prelude.{raised, IsOverviewOf, IsOf, Knowledge, count_of, AreAsLong, IsVerdictOn, Verdict};
ghost use Rattle.at_machines.specs.KeptSnapshots.{IsSnappingSo, LeadsTo, TurnsStage};
ghost use Rattle.at_machines.specs.Snapping.{left_of};

use crate::collecting::Collecting;
use crate::loading_view::LoadingView;
use at_base::Counts;
use at_board::{Board, BoardSeat, Overview};
use at_snapshot::{Collects, Verdict, add_collect, compare};

/// What a snapshot's next turn goes on with.
#[derive(Drop)]
pub(crate) enum Stage {
    /// A collect.
    Collect(Collecting),
    /// The load of a view that serves.
    Borrow(LoadingView),
    /// Nothing: the counts are answered.
    Ended,
}

impl Stage {
    /// Makes the next load, in one step, of a snapshot with these collects, of which so many are whole. After the last load it
    /// answers the counts.
    pub(crate) fn turn(
        &mut self,
        board: &Board,
        seat: &mut BoardSeat,
        overview: &mut Overview,
        collects: &mut Option<Collects>,
        collected: &mut u32,
    ) -> Option<Counts>
        requires board { IsOf seat.old board.now }
        requires overview { IsOverviewOf overview.old board.now }
        requires so { (start : Knowledge)
            × IsSnappingSo start seat.old.knows collects.old collected.old self.old }
        requires left { 0 < left_of board.now.book.processes collected.old self.old }
        ensures turns { (start : Knowledge)
            → IsSnappingSo start seat.old.knows collects.old collected.old self.old
            → TurnsStage board.now.book overview.old.seen start seat.old seat.new collected.old
            self.old
            collects.new collected.new self.new result }
        ensures board { IsOf seat.new board.now }
        ensures steps { seat.new.steps ≡ raised seat.old.steps 1 }
        ensures exchanges { seat.new.exchanges ≡ seat.old.exchanges }
        ensures overview { overview.new ≡ overview.old }
    {
        match self {
            Stage::Collect(collecting) => {
                let now = collecting.turn(board, seat, overview)?;
                *collected += 1;
                self.judge(board, seat, collects, now)
            }
            Stage::Borrow(loading) => {
                let view = loading.turn(board, seat)?;
                *self = Stage::Ended;
                Some(view)
            }
            // Some load is left, and of an ended snapshot none is.
            Stage::Ended => unreachable!(),
        }
    }

    /// Goes on after a whole collect by what it says beside those before it, in no step. Where its counts serve, it answers them.
    fn judge(
        &mut self,
        board: &Board,
        seat: &BoardSeat,
        collects: &mut Option<Collects>,
        now: Counts,
    ) -> Option<Counts>
        requires board { IsOf seat.now board.now }
        requires seen { (p : ℕ) → p < length now
            → slice_index now p ≤ count_of p seat.now.knows.seen }
        requires as_long { AreAsLong collects.old now }
        ensures { (verdict : Verdict)
            × IsVerdictOn collects.old seat.now.knows.first now verdict
            × LeadsTo seat.now.knows now collects.old verdict collects.new self.new result }
    {
        match compare(collects, &now, seat.process()) {
            Verdict::Repeated => {
                *self = Stage::Ended;
                Some(now)
            }
            Verdict::Lent(p) => {
                let last = now.get(p) - 1;
                *self = Stage::Borrow(LoadingView::start(board, seat, p, last));
                None
            }
            Verdict::Undecided => {
                add_collect(collects, now);
                *self = Stage::Collect(Collecting::start(board, seat));
                None
            }
        }
    }
}
