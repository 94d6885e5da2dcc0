//! One turn of helping, a step a turn.

ghost use Rattle.std.specs.Prelude.{◌≡◌, ◌+◌, ◌*◌, ◌<◌, ◌≤◌, ◌↔◌, List, IfSome, IsSome, length};
ghost use Rattle.at_calling.specs.Prelude.{raised, own_part, IsOverviewOf, IsOf, DecidingTerms, IsWithinOneMore, LookingTerms, first_load, HasCounted, IsPrefix, Publication, IsHelping, decides_made, decides_on, round_steps, HelpTurn};
ghost use Rattle.at_calling.specs.KeptTurning.{TakesHelpStep};
ghost use Rattle.at_calling.specs.Reading.{CountsOthersStill, LeavesTotals, SeesOthersStill, counted_so_far, newly_seen};
ghost use Rattle.at_calling.specs.Turning.{FollowsTurn, IsHelpOf, IsHelpWithin, LeavesSeat, MakesTurnStep, WaitsOn, exchanges_at, help_step_at, help_steps, help_turns_left, help_turns_made};

use crate::turn_stage::TurnStage;
use at_base::Decision;
use at_board::{Board, BoardSeat, BoardStep, Overview};
use at_fold::Totals;
use at_machines::{Deciding, Looking, become_next};
use at_payments::{HelpTurn, Helping, answer_in};
use std::marker::Model;
use std::snapshot::Snapshot;

/// A turn of helping in the making: a look, and where the request is unsettled at its cut, one round.
#[derive(Drop)]
pub struct Turning {
    stage: TurnStage,
    /// How many turns the look had, once it has ended.
    looked: u64,
    /// The request that waits.
    helping: Snapshot<Helping>,
    /// The seat at the start, for contracts alone.
    start: Snapshot<BoardSeat>,
    /// The seat after the last turn.
    mark: Snapshot<BoardSeat>,
    /// The totals at the start.
    was: Snapshot<Totals>,
    /// The totals after the last turn.
    totals: Snapshot<Totals>,
}

impl Model for Turning {
    ghost use Rattle.at_calling.specs.Turning.{TurningTerms};

    ghost Value = { TurningTerms };

    ghost use Rattle.at_calling.specs.KeptTurning.{IsTurningSo, turning_of};

    ghost view = { turning_of };

    ghost invariant = { λ t. IsTurningSo (turning_of t) };
}

impl Turning {
    /// Starts a turn of helping, in no step.
    pub fn start(board: &Board, seat: &BoardSeat, totals: &Totals, helping: &Helping) -> Turning
        requires board { IsOf seat.now board.now }
        requires counted { HasCounted totals.now board.now.book seat.now.knows.seen }
        requires helping { IsHelping board.now.book seat.now.knows helping.now }
        ensures helping { result.helping ≡ helping.now }
        ensures start { result.start ≡ seat.now.knows }
        ensures mark { result.mark ≡ seat.now.knows }
        ensures was { result.was ≡ totals.now }
        ensures totals { result.totals ≡ totals.now }
        ensures turns { help_turns_made result ≡ 0 }
        ensures left { 0 < help_turns_left board.now.book.processes result.stage }
        ensures first { help_step_at board.now.book result.stage ≡ first_load }
    {
        seat.known();
        Turning {
            stage: TurnStage::Look(Looking::start(board, seat, totals)),
            looked: 0,
            helping: Snapshot::of(helping),
            start: Snapshot::of(seat),
            mark: Snapshot::of(seat),
            was: Snapshot::of(totals),
            totals: Snapshot::of(totals),
        }
    }

    /// The step that the next turn makes.
    pub fn next(&self, board: &Board, seat: &BoardSeat) -> Option<BoardStep>
        requires board { IsOf seat.now board.now }
        requires mark { seat.now.knows ≡ self.now.mark }
        requires left { 0 < help_turns_left board.now.book.processes self.now.stage }
        ensures { result ≡ help_step_at board.now.book self.now.stage }
    {
        match &self.stage {
            TurnStage::Look(looking) => looking.next(),
            TurnStage::Decide(deciding) => deciding.next(board, seat),
            TurnStage::Found => None,
        }
    }

    /// Makes the next step of the turn of helping. Where the request is settled at the cut of the look, it answers with the
    /// look's last load, and else with the store that publishes the round.
    pub fn turn(
        &mut self,
        board: &Board,
        seat: &mut BoardSeat,
        overview: &mut Overview,
        totals: &mut Totals,
        helping: &Helping,
    ) -> Option<HelpTurn>
        requires board { IsOf seat.old board.now }
        requires overview { IsOverviewOf overview.old board.now }
        requires mark { seat.old.knows ≡ self.old.mark }
        requires totals { totals.old ≡ self.old.totals }
        requires helping { helping.now ≡ self.old.helping }
        requires left { 0 < help_turns_left board.now.book.processes self.old.stage }
        ensures helping { self.new.helping ≡ self.old.helping }
        ensures start { self.new.start ≡ self.old.start }
        ensures mark { self.new.mark ≡ seat.new.knows }
        ensures was { self.new.was ≡ self.old.was }
        ensures totals { self.new.totals ≡ totals.new }
        ensures turns { help_turns_made self.new ≡ help_turns_made self.old + 1 }
        ensures step { MakesTurnStep board.now.book overview.old.seen self.old.stage
            self.new.stage seat.old seat.new totals.new }
        ensures follows { FollowsTurn board.now.book self.old.stage self.new.stage }
        ensures left { help_turns_left board.now.book.processes self.new.stage
            < help_turns_left board.now.book.processes self.old.stage }
        ensures ends { IsSome result
            ↔ (help_turns_left board.now.book.processes self.new.stage ≡ 0) }
        ensures so_far { IsHelpWithin board.now.book.processes
            (decides_made self.old.helping.account self.old.start seat.new.knows)
            (newly_seen self.old.start seat.new.knows self.old.was.upto)
            (help_turns_made self.new) }
        ensures decides_few { decides_on self.old.start self.old.helping.account
            ≤ decides_on seat.new.knows self.old.helping.account }
        ensures once { decides_made self.old.helping.account self.old.start seat.new.knows ≤ 1 }
        ensures begins { IsPrefix self.old.start.seen seat.new.knows.seen }
        ensures seen { length self.old.start.seen ≤ length seat.new.knows.seen }
        ensures others { SeesOthersStill self.old.start seat.new.knows }
        ensures counting { IsWithinOneMore (help_steps board.now.book.processes
            (decides_made self.old.helping.account self.old.start seat.new.knows))
            (counted_so_far self.old.start seat.new.knows self.old.was.upto totals.new.upto)
            (help_turns_made self.new) }
        ensures counts_others { CountsOthersStill self.old.start seat.new.knows self.old.was
            totals.new }
        ensures published { (own_part self.old.start).published
            ≤ (own_part seat.new.knows).published }
        ensures answer { IfSome result (IsHelpOf board.now.book self.old.start seat.new.knows
            self.old.helping) }
        ensures waits { IfSome result (λ t. t ≡ HelpTurn.More
            → WaitsOn board.now.book self.old.start seat.new.knows self.old.helping) }
        ensures seat { IfSome result (λ t. LeavesSeat self.old.start seat.new.knows
            self.old.helping.account) }
        ensures counted { IfSome result (λ t. HasCounted totals.new board.now.book
            seat.new.knows.seen) }
        ensures leaves { IfSome result (λ t. LeavesTotals board.now.book self.old.start
            seat.new.knows self.old.was totals.new
            (round_steps board.now.book.processes
            * decides_made self.old.helping.account self.old.start seat.new.knows)
            (help_turns_made self.new)) }
        ensures board { IsOf seat.new board.now }
        ensures steps { seat.new.steps ≡ raised seat.old.steps 1 }
        ensures exchanges { seat.new.exchanges
            ≡ raised seat.old.exchanges (exchanges_at self.old.stage) }
        ensures overview { overview.new ≡ overview.old }
        // Over all turns the exchanges are those that were decided.
        ensures decides { decides_made self.old.helping.account self.old.start seat.new.knows
            ≡ decides_made self.old.helping.account self.old.start self.old.mark
            + exchanges_at self.old.stage }
    {
        match &self.stage {
            TurnStage::Look(_) => self.look_on(board, seat, overview, totals, helping),
            TurnStage::Decide(_) => self.decide_on(board, seat, totals, helping),
            // Some step is left, and where the request was found settled none is.
            TurnStage::Found => unreachable!(),
        }
    }

    /// Makes the next load of the look. After the last one the request is found settled, or a round comes next.
    fn look_on(
        &mut self,
        board: &Board,
        seat: &mut BoardSeat,
        overview: &mut Overview,
        totals: &mut Totals,
        helping: &Helping,
    ) -> Option<HelpTurn>
        requires board { IsOf seat.old board.now }
        requires overview { IsOverviewOf overview.old board.now }
        requires mark { seat.old.knows ≡ self.old.mark }
        requires totals { totals.old ≡ self.old.totals }
        requires helping { helping.now ≡ self.old.helping }
        requires looks { (l : LookingTerms) × (self.old.stage ≡ TurnStage.Look l) }
        ensures stepped { TakesHelpStep board.now.book overview.old.seen self.old self.new
            seat.old seat.new totals.new result }
        ensures board { IsOf seat.new board.now }
        ensures steps { seat.new.steps ≡ raised seat.old.steps 1 }
        ensures exchanges { seat.new.exchanges ≡ seat.old.exchanges }
        ensures overview { overview.new ≡ overview.old }
    {
        let TurnStage::Look(looking) = &mut self.stage else {
            // The stage is a look, as is asked.
            unreachable!()
        };
        let looked = looking.turn(board, seat, overview, totals);
        self.looked = looking.turns();
        self.mark = Snapshot::of(seat);
        self.totals = Snapshot::of(totals);
        let cut = looked?;
        seat.known();
        if let Some((round, decision)) = helping.settled(totals) {
            become_next(&mut self.stage, TurnStage::Found);
            return Some(HelpTurn::Settled(answer_in(round, &decision)));
        }
        // What is proposed is fixed here. Others may publish and decide before the exchange, and the cut stays one.
        let deciding = Deciding::start(board, seat, totals, helping, cut);
        become_next(&mut self.stage, TurnStage::Decide(deciding));
        None
    }

    /// Makes the next step of the round.
    fn decide_on(
        &mut self,
        board: &Board,
        seat: &mut BoardSeat,
        totals: &mut Totals,
        helping: &Helping,
    ) -> Option<HelpTurn>
        requires board { IsOf seat.old board.now }
        requires mark { seat.old.knows ≡ self.old.mark }
        requires totals { totals.old ≡ self.old.totals }
        requires helping { helping.now ≡ self.old.helping }
        requires decides { (d : DecidingTerms) × (self.old.stage ≡ TurnStage.Decide d) }
        requires left { 0 < help_turns_left board.now.book.processes self.old.stage }
        ensures stepped { (seen : List Publication)
            → TakesHelpStep board.now.book seen self.old self.new seat.old seat.new
            totals.new result }
        ensures board { IsOf seat.new board.now }
        ensures steps { seat.new.steps ≡ raised seat.old.steps 1 }
        ensures exchanges { seat.new.exchanges
            ≡ raised seat.old.exchanges (exchanges_at self.old.stage) }
    {
        seat.known();
        let TurnStage::Decide(deciding) = &mut self.stage else {
            // The stage is a round, as is asked.
            unreachable!()
        };
        let decided = deciding.turn(board, seat, totals);
        self.mark = Snapshot::of(seat);
        self.totals = Snapshot::of(totals);
        let decision = decided?;
        seat.known();
        Some(helping.answer(deciding.round(), &decision))
    }
}
