//! What each call does first, a load a turn.

ghost use Rattle.std.specs.Prelude.{◌≡◌, ◌+◌, ◌-◌, ◌<◌, ◌≤◌, ◌↔◌, IfSome, IsSome, length, sum};
ghost use Rattle.at_machines.specs.Prelude.{raised, IsOverviewOf, IsOf, HasCounted, StaysCounted, HasLooked, HasLoaded, snapshot_steps};
ghost use Rattle.at_machines.specs.Looking.{FollowsLook, IsWithin, IsWithinOneMore, MakesLookLoad, first_load, look_turns_left, step_at};

use crate::catching_up::CatchingUp;
use crate::look_stage::LookStage;
use crate::next_stage::become_next;
use crate::snapping::Snapping;
use at_base::Counts;
use at_board::{Board, BoardSeat, BoardStep, Overview};
use at_fold::Totals;
use std::marker::Model;
use std::snapshot::Snapshot;

/// A look in the making: a snapshot, and then a load of each word of the records that it counts and the totals don't.
#[derive(Drop)]
pub struct Looking {
    stage: LookStage,
    /// How many turns were made.
    turns: u64,
    /// The seat at the start, for contracts alone.
    start: Snapshot<BoardSeat>,
    /// The seat after the last turn.
    mark: Snapshot<BoardSeat>,
    /// The totals at the start.
    was: Snapshot<Totals>,
    /// The totals after the last turn.
    totals: Snapshot<Totals>,
}

impl Model for Looking {
    ghost use Rattle.at_machines.specs.KeptLooking.{IsLookingSo};
    ghost use Rattle.at_machines.specs.Looking.{LookingTerms};

    ghost Value = { LookingTerms };

    ghost view = { λ l. record {
      start = l.start.value.knows;
      mark = l.mark.value.knows;
      was = l.was.value;
      totals = l.totals.value;
      stage = l.stage;
      turns = l.turns;
    } };

    ghost invariant = { λ l. IsLookingSo l.start.value.knows l.mark.value.knows l.was.value
        l.totals.value l.turns l.stage };
}

impl Looking {
    /// Starts a look of a seat and its totals, in no step.
    pub fn start(board: &Board, seat: &BoardSeat, totals: &Totals) -> Looking
        requires board { IsOf seat.now board.now }
        requires counted { HasCounted totals.now board.now.book seat.now.knows.seen }
        ensures start { result.start ≡ seat.now.knows }
        ensures mark { result.mark ≡ seat.now.knows }
        ensures was { result.was ≡ totals.now }
        ensures totals { result.totals ≡ totals.now }
        ensures turns { result.turns ≡ 0 }
        ensures left { 0 < look_turns_left result.stage }
        ensures first { step_at result.stage ≡ first_load }
    {
        seat.known();
        Looking {
            stage: LookStage::Snap(Snapping::start(board, seat)),
            turns: 0,
            start: Snapshot::of(seat),
            mark: Snapshot::of(seat),
            was: Snapshot::of(totals),
            totals: Snapshot::of(totals),
        }
    }

    /// How many turns were made.
    pub fn turns(&self) -> u64
        ensures { result ≡ self.now.turns }
    {
        self.turns
    }

    /// The step that the next turn makes, if some load is left.
    pub fn next(&self) -> Option<BoardStep>
        ensures { result ≡ step_at self.now.stage }
    {
        match &self.stage {
            LookStage::Snap(snapping) => snapping.next(),
            LookStage::CatchUp(catching) => catching.next(),
        }
    }

    /// Makes the next load of the look, in one step. With the last one, the totals have counted what the snapshot counts, and it
    /// answers the cut.
    pub fn turn(
        &mut self,
        board: &Board,
        seat: &mut BoardSeat,
        overview: &mut Overview,
        totals: &mut Totals,
    ) -> Option<Counts>
        requires board { IsOf seat.old board.now }
        requires overview { IsOverviewOf overview.old board.now }
        requires mark { seat.old.knows ≡ self.old.mark }
        requires totals { totals.old ≡ self.old.totals }
        requires left { 0 < look_turns_left self.old.stage }
        ensures start { self.new.start ≡ self.old.start }
        ensures mark { self.new.mark ≡ seat.new.knows }
        ensures was { self.new.was ≡ self.old.was }
        ensures totals { self.new.totals ≡ totals.new }
        ensures turns { self.new.turns ≡ self.old.turns + 1 }
        ensures load { MakesLookLoad board.now.book overview.old.seen self.old.stage seat.old
            seat.new totals.new }
        ensures follows { FollowsLook board.now.book.processes self.old.stage self.new.stage }
        ensures loads { HasLoaded board.now.book self.old.start seat.new.knows }
        ensures counted { StaysCounted totals.new board.now.book seat.new.knows.seen }
        ensures left { look_turns_left self.new.stage < look_turns_left self.old.stage }
        ensures so_far { IsWithin board.now.book.processes self.old.was
            (length seat.new.knows.seen) self.new.turns }
        ensures more { sum self.old.was.upto ≤ sum totals.new.upto }
        // What is loaded is counted, but for the words of one record.
        ensures counting { IsWithinOneMore (snapshot_steps board.now.book.processes)
            (sum totals.new.upto - sum self.old.was.upto) self.new.turns }
        ensures ends { IsSome result ↔ (look_turns_left self.new.stage ≡ 0) }
        ensures looked { IfSome result (HasLooked board.now.book self.old.start seat.new.knows
            self.old.was totals.new) }
        ensures within { IfSome result (λ cut. IsWithin board.now.book.processes self.old.was
            (sum cut) self.new.turns) }
        ensures board { IsOf seat.new board.now }
        ensures steps { seat.new.steps ≡ raised seat.old.steps 1 }
        ensures exchanges { seat.new.exchanges ≡ seat.old.exchanges }
        ensures overview { overview.new ≡ overview.old }
    {
        seat.known();
        match &mut self.stage {
            LookStage::Snap(snapping) => {
                let snapped = snapping.turn(board, seat, overview);
                self.turns += 1;
                self.mark = Snapshot::of(seat);
                let cut = snapped?;
                let catching = CatchingUp::start(board, seat, totals, cut.copy());
                let is_ended = catching.is_ended();
                become_next(&mut self.stage, LookStage::CatchUp(catching));
                if is_ended { Some(cut) } else { None }
            }
            LookStage::CatchUp(catching) => {
                let caught = catching.turn(board, seat, totals);
                self.turns += 1;
                self.totals = Snapshot::of(totals);
                caught
            }
        }
    }
}
