//! The start of a payment from a shared account, a step a turn.

ghost use Rattle.std.specs.Prelude.{◌≡◌, ℕ, ◌+◌, ◌^◌, ◌<◌, ◌↔◌, List, IfSome, IsSome, None, length};
ghost use Rattle.at_calling.specs.Prelude.{raised, own_part, IsOverviewOf, IsOf, MayStoreRequest, HasCounted, StaysCounted, place, IsPrefix, Publication, AreTargetsOn, AskingTerms, starting_to_ask, CollectingRowsTerms, IsWithinOneMore, LookingTerms, first_load, MayAskFor, asked_for, HasAllSettled, decides_on};
ghost use Rattle.at_calling.specs.KeptStarting.{TakesStartTurn};
ghost use Rattle.at_calling.specs.Reading.{LeavesTotals, counted_so_far, newly_seen};
ghost use Rattle.at_calling.specs.Starting.{FollowsStart, IsStartOf, IsStartWithin, MakesStartStep, asking_steps_of, start_step_at, start_steps, start_turns_left, start_turns_made};

use crate::start_stage::StartStage;
use at_base::Counts;
use at_board::{Board, BoardSeat, BoardStep, Overview};
use at_fold::Totals;
use at_ledger::Targets;
use at_machines::{Asking, CollectingRows, Looking, become_next};
use at_payments::Helping;
use std::marker::Model;
use std::snapshot::Snapshot;

/// A start in the making: a look, the stores of the request with the place of its cut as the `since`, and the loads of the rows.
#[derive(Drop)]
pub struct Starting {
    account: u32,
    targets: Targets,
    stage: StartStage,
    /// How many turns the look had, once it has ended.
    looked: u64,
    /// The seat at the start, for contracts alone.
    start: Snapshot<BoardSeat>,
    /// The seat after the last turn.
    mark: Snapshot<BoardSeat>,
    /// The totals at the start.
    was: Snapshot<Totals>,
    /// The totals after the last turn.
    totals: Snapshot<Totals>,
}

impl Model for Starting {
    ghost use Rattle.at_calling.specs.Starting.{StartingTerms};

    ghost Value = { StartingTerms };

    ghost use Rattle.at_calling.specs.KeptStarting.{IsStartingSo, starting_of};

    ghost view = { starting_of };

    ghost invariant = { λ s. IsStartingSo (starting_of s) };
}

impl Starting {
    /// Starts a payment from an account that the seat's process shares, in no step. Each request of the process there is settled.
    pub fn start(
        board: &Board,
        seat: &BoardSeat,
        totals: &Totals,
        account: u32,
        targets: Targets,
    ) -> Starting
        requires board { IsOf seat.now board.now }
        requires counted { HasCounted totals.now board.now.book seat.now.knows.seen }
        requires targets { AreTargetsOn (length board.now.book.accounts) targets }
        requires asks { (slot : ℕ) × MayStoreRequest board.now.book seat.now.knows account slot }
        requires settled { HasAllSettled board.now.book seat.now.knows account }
        requires free { (own_part seat.now.knows).held ≡ None }
        ensures account { result.account ≡ account }
        ensures targets { result.targets ≡ targets }
        ensures start { result.start ≡ seat.now.knows }
        ensures mark { result.mark ≡ seat.now.knows }
        ensures was { result.was ≡ totals.now }
        ensures totals { result.totals ≡ totals.now }
        ensures turns { start_turns_made result ≡ 0 }
        ensures left { 0 < start_turns_left board.now.book result }
        ensures first { start_step_at board.now.book result.stage ≡ first_load }
    {
        seat.known();
        // There are one to four targets, as their type keeps.
        let _count = targets.len();
        Starting {
            account,
            targets,
            stage: StartStage::Look(Looking::start(board, seat, totals)),
            looked: 0,
            start: Snapshot::of(seat),
            mark: Snapshot::of(seat),
            was: Snapshot::of(totals),
            totals: Snapshot::of(totals),
        }
    }

    /// The step that the next turn makes.
    pub fn next(&self, board: &Board, seat: &BoardSeat) -> Option<BoardStep>
        requires board { IsOf seat.now board.now }
        requires mark { seat.now.knows ≡ self.now.mark }
        ensures { result ≡ start_step_at board.now.book self.now.stage }
    {
        match &self.stage {
            StartStage::Look(looking) => looking.next(),
            StartStage::Ask(asking) => asking.next(board, seat),
            StartStage::Collect(collecting) => collecting.next(),
        }
    }

    /// Makes the next step of the start. The last load of the rows answers the request that waits.
    pub fn turn(
        &mut self,
        board: &Board,
        seat: &mut BoardSeat,
        overview: &mut Overview,
        totals: &mut Totals,
    ) -> Option<Helping>
        requires board { IsOf seat.old board.now }
        requires overview { IsOverviewOf overview.old board.now }
        requires mark { seat.old.knows ≡ self.old.mark }
        requires totals { totals.old ≡ self.old.totals }
        requires left { 0 < start_turns_left board.now.book self.old }
        ensures account { self.new.account ≡ self.old.account }
        ensures targets { self.new.targets ≡ self.old.targets }
        ensures start { self.new.start ≡ self.old.start }
        ensures mark { self.new.mark ≡ seat.new.knows }
        ensures was { self.new.was ≡ self.old.was }
        ensures totals { self.new.totals ≡ totals.new }
        ensures turns { start_turns_made self.new ≡ start_turns_made self.old + 1 }
        ensures step { MakesStartStep board.now.book overview.old.seen self.old.stage seat.old
            seat.new totals.new }
        ensures follows { FollowsStart board.now.book self.old.stage self.new.stage }
        ensures counted { StaysCounted totals.new board.now.book seat.new.knows.seen }
        ensures left { start_turns_left board.now.book self.new
            < start_turns_left board.now.book self.old }
        ensures so_far { IsStartWithin board.now.book self.new
            (newly_seen self.old.start seat.new.knows self.old.was.upto) }
        ensures counting { IsWithinOneMore (start_steps board.now.book self.old)
            (counted_so_far self.old.start seat.new.knows self.old.was.upto totals.new.upto)
            (start_turns_made self.new) }
        ensures ends { IsSome result ↔ (start_turns_left board.now.book self.new ≡ 0) }
        ensures begins { IsPrefix self.old.start.seen seat.new.knows.seen }
        ensures undecided { decides_on seat.new.knows self.old.account
            ≡ decides_on self.old.start self.old.account }
        ensures answer { IfSome result (IsStartOf board.now.book self.old.start seat.new.knows
            self.old.account self.old.targets) }
        ensures leaves { IfSome result (λ h. LeavesTotals board.now.book self.old.start
            seat.new.knows self.old.was totals.new (asking_steps_of board.now.book self.old)
            (start_turns_made self.new)) }
        ensures board { IsOf seat.new board.now }
        ensures steps { seat.new.steps ≡ raised seat.old.steps 1 }
        ensures exchanges { seat.new.exchanges ≡ seat.old.exchanges }
        ensures overview { overview.new ≡ overview.old }
    {
        match &self.stage {
            StartStage::Look(_) => self.look_on(board, seat, overview, totals),
            StartStage::Ask(_) => self.ask_on(board, seat),
            StartStage::Collect(_) => self.collect_on(board, seat),
        }
    }

    /// Makes the next load of the look. After the last one asking comes next.
    fn look_on(
        &mut self,
        board: &Board,
        seat: &mut BoardSeat,
        overview: &mut Overview,
        totals: &mut Totals,
    ) -> Option<Helping>
        requires board { IsOf seat.old board.now }
        requires overview { IsOverviewOf overview.old board.now }
        requires mark { seat.old.knows ≡ self.old.mark }
        requires totals { totals.old ≡ self.old.totals }
        requires looks { (l : LookingTerms) × (self.old.stage ≡ StartStage.Look l) }
        ensures turned { TakesStartTurn board.now.book overview.old.seen self.old self.new
            seat.old seat.new totals.new result }
        ensures board { IsOf seat.new board.now }
        ensures steps { seat.new.steps ≡ raised seat.old.steps 1 }
        ensures exchanges { seat.new.exchanges ≡ seat.old.exchanges }
        ensures overview { overview.new ≡ overview.old }
    {
        let StartStage::Look(looking) = &mut self.stage else {
            // The stage is a look, as is asked.
            unreachable!()
        };
        let looked = looking.turn(board, seat, overview, totals);
        self.looked = looking.turns();
        self.mark = Snapshot::of(seat);
        self.totals = Snapshot::of(totals);
        let cut = looked?;
        let targets = self.targets.copy();
        // What is settled at the cut stays so, whatever others publish before the request is announced.
        let asking = asking_at(seat, self.account, targets, &cut);
        become_next(&mut self.stage, StartStage::Ask(asking));
        None
    }

    /// Stores the next word of the request, or announces it. After that the rows come next.
    fn ask_on(&mut self, board: &Board, seat: &mut BoardSeat) -> Option<Helping>
        requires board { IsOf seat.old board.now }
        requires mark { seat.old.knows ≡ self.old.mark }
        requires asks { (a : AskingTerms) × (self.old.stage ≡ StartStage.Ask a) }
        ensures turned { (seen : List Publication)
            → TakesStartTurn board.now.book seen self.old self.new seat.old seat.new
            self.old.totals result }
        ensures board { IsOf seat.new board.now }
        ensures steps { seat.new.steps ≡ raised seat.old.steps 1 }
        ensures exchanges { seat.new.exchanges ≡ seat.old.exchanges }
    {
        let StartStage::Ask(asking) = &mut self.stage else {
            // The stage is asking, as is asked.
            unreachable!()
        };
        let announced = asking.turn(board, seat);
        self.mark = Snapshot::of(seat);
        let number = announced?;
        let slot = board.book().slot_of(self.account, seat.process()).unwrap();
        // Others may ask at once after each load of the rows. Whoever isn't found asked after this request was announced, and
        // waits less long.
        let collecting = CollectingRows::start(seat, self.account, asking.opened(slot, number));
        become_next(&mut self.stage, StartStage::Collect(collecting));
        None
    }

    /// Makes the next load of the rows. The last one answers the request that waits.
    fn collect_on(&mut self, board: &Board, seat: &mut BoardSeat) -> Option<Helping>
        requires board { IsOf seat.old board.now }
        requires mark { seat.old.knows ≡ self.old.mark }
        requires collects { (c : CollectingRowsTerms) × (self.old.stage ≡ StartStage.Collect c) }
        requires left { 0 < start_turns_left board.now.book self.old }
        ensures turned { (seen : List Publication)
            → TakesStartTurn board.now.book seen self.old self.new seat.old seat.new
            self.old.totals result }
        ensures board { IsOf seat.new board.now }
        ensures steps { seat.new.steps ≡ raised seat.old.steps 1 }
        ensures exchanges { seat.new.exchanges ≡ seat.old.exchanges }
    {
        let StartStage::Collect(collecting) = &mut self.stage else {
            // The stage is the rows, as is asked.
            unreachable!()
        };
        let collected = collecting.turn(board, seat);
        self.mark = Snapshot::of(seat);
        let asked = collected?;
        Some(Helping::of(self.account, collecting.own(), asked))
    }
}

/// Asks for these targets with the place of a cut as the `since`.
fn asking_at(seat: &BoardSeat, account: u32, targets: Targets, cut: &Counts) -> Asking
    requires place { place cut.now < 2 ^ 32 }
    requires may { (slot : ℕ) × MayAskFor seat.now.knows.book seat.now.knows account slot
        (asked_for targets (place cut.now)) }
    ensures { result ≡ starting_to_ask seat.now.knows account targets (place cut.now) }
{
    Asking::start(seat, account, targets, cut.sum())
}
