//! A snapshot, a load a turn.

ghost use Rattle.std.specs.Prelude.{◌≡◌, ◌+◌, ◌<◌, ◌↔◌, IfSome, IsSome};
ghost use Rattle.at_machines.specs.Prelude.{raised, IsOverviewOf, IsOf, HasLoaded, HasCollected, IsSnapshot, snapshot_steps};
ghost use Rattle.at_machines.specs.Snapping.{MakesLoad, MayFollow, length_of, nothing, step_in};

use crate::collecting::Collecting;
use crate::stage::Stage;
use at_base::Counts;
use at_board::{Board, BoardSeat, BoardStep, Overview};
use at_snapshot::Collects;
use std::marker::Model;
use std::snapshot::Snapshot;

/// A snapshot in the making: collects, until one equals the one before it or some process has published twice since the first,
/// and then the load of that process's last view.
#[derive(Drop)]
pub struct Snapping {
    collects: Option<Collects>,
    /// How many collects are whole.
    collected: u32,
    stage: Stage,
    /// The seat at the start, for contracts alone.
    start: Snapshot<BoardSeat>,
    /// The seat after the last turn.
    mark: Snapshot<BoardSeat>,
}

impl Model for Snapping {
    ghost use Rattle.at_machines.specs.KeptSnapshots.{IsSnappingSo};
    ghost use Rattle.at_machines.specs.Snapping.{SnappingTerms, left_of, next_of};

    ghost Value = { SnappingTerms };

    ghost view = { λ s. record {
      start = s.start.value.knows;
      mark = s.mark.value.knows;
      next = next_of s.stage;
      left = left_of s.start.value.knows.book.processes s.collected
          s.stage;
    } };

    ghost invariant = { λ s. IsSnappingSo s.start.value.knows s.mark.value.knows s.collects
        s.collected s.stage };
}

impl Snapping {
    /// Starts a snapshot of a seat, in no step.
    pub fn start(board: &Board, seat: &BoardSeat) -> Snapping
        requires { IsOf seat.now board.now }
        ensures start { result.start ≡ seat.now.knows }
        ensures mark { result.mark ≡ seat.now.knows }
        ensures next { result.next ≡ length_of 0 }
        ensures left { result.left ≡ snapshot_steps board.now.book.processes }
    {
        seat.known();
        Snapping {
            collects: None,
            collected: 0,
            stage: Stage::Collect(Collecting::start(board, seat)),
            start: Snapshot::of(seat),
            mark: Snapshot::of(seat),
        }
    }

    /// The step that the next turn makes, if some load is left.
    pub fn next(&self) -> Option<BoardStep>
        ensures { result ≡ step_in self.now.next }
    {
        match &self.stage {
            Stage::Collect(collecting) => collecting.next(),
            Stage::Borrow(loading) => loading.next(),
            Stage::Ended => None,
        }
    }

    /// Makes the next load of the snapshot, in one step. After the last one it answers the counts.
    pub fn turn(
        &mut self,
        board: &Board,
        seat: &mut BoardSeat,
        overview: &mut Overview,
    ) -> Option<Counts>
        requires board { IsOf seat.old board.now }
        requires overview { IsOverviewOf overview.old board.now }
        requires mark { seat.old.knows ≡ self.old.mark }
        requires left { 0 < self.old.left }
        ensures start { self.new.start ≡ self.old.start }
        ensures mark { self.new.mark ≡ seat.new.knows }
        ensures load { MakesLoad board.now.book overview.old.seen self.old.next seat.old seat.new }
        ensures loads { HasLoaded board.now.book self.old.start seat.new.knows }
        ensures next { MayFollow board.now.book.processes self.old.next self.new.next }
        ensures left { self.new.left < self.old.left }
        ensures ends { IsSome result ↔ (self.new.left ≡ 0) }
        ensures ended { IfSome result (λ counts. self.new.next ≡ nothing) }
        ensures snapshot { IfSome result (IsSnapshot board.now.book self.old.start seat.new.knows) }
        ensures collects { IfSome result (λ counts. HasCollected board.now.book self.old.start
            seat.new.knows (board.now.book.processes + 1)) }
        ensures board { IsOf seat.new board.now }
        ensures steps { seat.new.steps ≡ raised seat.old.steps 1 }
        ensures exchanges { seat.new.exchanges ≡ seat.old.exchanges }
        ensures overview { overview.new ≡ overview.old }
    {
        seat.known();
        let counts = self.stage.turn(
            board,
            seat,
            overview,
            &mut self.collects,
            &mut self.collected,
        );
        self.mark = Snapshot::of(seat);
        counts
    }
}
