//! A payment from a shared account, a step a turn.

ghost use Rattle.std.specs.Prelude.{◌≡◌, ℕ, ◌+◌, ◌<◌, ◌≤◌, ◌↔◌, IfSome, IsSome, None, length};
ghost use Rattle.at_calling.specs.Prelude.{raised, own_part, IsOverviewOf, IsOf, MayStoreRequest, HasCounted, IsPrefix, slots_of, account_of, AreTargetsOn, HelpingTerms, HasAllSettled, decides_made, SettlesInTurns, IsWithinOneMore, first_load};
ghost use Rattle.at_calling.specs.KeptPayingShared.{TakesShareTurn};
ghost use Rattle.at_calling.specs.PayingShared.{AnswersInRound, DecidesFew, FollowsShare, IsShareWithin, MakesShareStep, settling_steps, share_exchanges_at, share_exchanges_made, share_step_at, share_steps, share_turns_left};
ghost use Rattle.at_calling.specs.Reading.{LeavesTotals, counted_so_far, newly_seen};
ghost use Rattle.at_calling.specs.Starting.{StartingTerms};
ghost use Rattle.at_calling.specs.Turning.{TurningTerms};

use crate::share_stage::ShareStage;
use crate::starting::Starting;
use crate::turning::Turning;
use at_board::{Board, BoardSeat, BoardStep, Overview};
use at_fold::Totals;
use at_ledger::{Reply, Targets};
use at_log::At;
use at_machines::become_next;
use at_payments::HelpTurn;
use std::marker::Model;
use std::snapshot::Snapshot;

/// A payment in the making: a start, and then turns of helping until the request is settled. They are at most as many as the account
/// has owners.
#[derive(Drop)]
pub struct PayingShared {
    account: u32,
    stage: ShareStage,
    /// How many turns were made.
    turns: u64,
    /// The targets, for contracts alone.
    targets: Snapshot<Targets>,
    /// The seat at the start.
    start: Snapshot<BoardSeat>,
    /// The seat after the last turn.
    mark: Snapshot<BoardSeat>,
    /// The totals at the start.
    was: Snapshot<Totals>,
    /// The totals after the last turn.
    totals: Snapshot<Totals>,
}

impl Model for PayingShared {
    ghost use Rattle.at_calling.specs.PayingShared.{PayingSharedTerms};

    ghost Value = { PayingSharedTerms };

    ghost use Rattle.at_calling.specs.KeptPayingShared.{IsPayingSharedSo, paying_shared_of};

    ghost view = { paying_shared_of };

    ghost invariant = { λ p. IsPayingSharedSo (paying_shared_of p) };
}

impl PayingShared {
    /// Starts a payment from an account that the seat's process shares, in no step. Each request of the process there is settled.
    pub fn start(
        board: &Board,
        seat: &BoardSeat,
        totals: &Totals,
        account: u32,
        targets: Targets,
    ) -> PayingShared
        requires board { IsOf seat.now board.now }
        requires counted { HasCounted totals.now board.now.book seat.now.knows.seen }
        requires targets { AreTargetsOn (length board.now.book.accounts) targets }
        requires asks { (slot : ℕ) × MayStoreRequest board.now.book seat.now.knows account slot }
        requires settled { HasAllSettled board.now.book seat.now.knows account }
        requires free { (own_part seat.now.knows).held ≡ None }
        ensures account { result.account ≡ account }
        ensures targets { result.targets ≡ targets }
        ensures start { result.start ≡ seat.now.knows }
        ensures mark { result.mark ≡ seat.now.knows }
        ensures was { result.was ≡ totals.now }
        ensures totals { result.totals ≡ totals.now }
        ensures turns { result.turns ≡ 0 }
        ensures left { 0 < share_turns_left board.now.book result }
        ensures exchanges { share_exchanges_made result ≡ 0 }
        ensures first { share_step_at board.now.book result.stage ≡ first_load }
    {
        seat.known();
        let paid = Snapshot::of(&targets);
        PayingShared {
            account,
            stage: ShareStage::Start(Starting::start(board, seat, totals, account, targets)),
            targets: paid,
            turns: 0,
            start: Snapshot::of(seat),
            mark: Snapshot::of(seat),
            was: Snapshot::of(totals),
            totals: Snapshot::of(totals),
        }
    }

    /// The step that the next turn makes, if the request isn't settled.
    pub fn next(&self, board: &Board, seat: &BoardSeat) -> Option<BoardStep>
        requires board { IsOf seat.now board.now }
        requires mark { seat.now.knows ≡ self.now.mark }
        ensures { result ≡ share_step_at board.now.book self.now.stage }
    {
        match &self.stage {
            ShareStage::Start(starting) => starting.next(board, seat),
            ShareStage::Help(_, turning) => turning.next(board, seat),
            ShareStage::Ended => None,
        }
    }

    /// Makes the next step of the payment. Where a turn of helping finds the request settled it answers with the last load of that
    /// turn's look, and where one decides it, with the store that publishes the round.
    pub fn turn(
        &mut self,
        board: &Board,
        seat: &mut BoardSeat,
        overview: &mut Overview,
        totals: &mut Totals,
    ) -> Option<(Reply, At)>
        requires board { IsOf seat.old board.now }
        requires overview { IsOverviewOf overview.old board.now }
        requires mark { seat.old.knows ≡ self.old.mark }
        requires totals { totals.old ≡ self.old.totals }
        requires left { 0 < share_turns_left board.now.book self.old }
        ensures account { self.new.account ≡ self.old.account }
        ensures targets { self.new.targets ≡ self.old.targets }
        ensures start { self.new.start ≡ self.old.start }
        ensures mark { self.new.mark ≡ seat.new.knows }
        ensures was { self.new.was ≡ self.old.was }
        ensures totals { self.new.totals ≡ totals.new }
        ensures turns { self.new.turns ≡ self.old.turns + 1 }
        ensures step { MakesShareStep board.now.book overview.old.seen self.old.stage seat.old
            seat.new totals.new }
        ensures follows { FollowsShare board.now.book self.old.stage self.new.stage }
        ensures left { share_turns_left board.now.book self.new
            < share_turns_left board.now.book self.old }
        ensures so_far { IsShareWithin board.now.book self.new
            (newly_seen self.old.start seat.new.knows self.old.was.upto) }
        ensures counting { IsWithinOneMore (share_steps board.now.book self.old.account)
            (counted_so_far self.old.start seat.new.knows self.old.was.upto totals.new.upto)
            self.new.turns }
        ensures begins { IsPrefix self.old.start.seen seat.new.knows.seen }
        ensures ends { IsSome result ↔ (share_turns_left board.now.book self.new ≡ 0) }
        ensures answer { IfSome result (AnswersInRound board.now.book self.old.start
            seat.new.knows self.old.account self.old.targets) }
        ensures settles { IfSome result (λ r. SettlesInTurns board.now.book self.old.start
            seat.new.knows self.old.account self.old.targets) }
        ensures few { IfSome result (λ r. DecidesFew board.now.book self.old.start
            seat.new.knows self.old.account) }
        ensures counted { IfSome result (λ r. HasCounted totals.new board.now.book
            seat.new.knows.seen) }
        ensures leaves { IfSome result (λ r. LeavesTotals board.now.book self.old.start
            seat.new.knows self.old.was totals.new
            (settling_steps board.now.book self.old.account) self.new.turns) }
        ensures board { IsOf seat.new board.now }
        ensures steps { seat.new.steps ≡ raised seat.old.steps 1 }
        ensures exchanges { seat.new.exchanges
            ≡ raised seat.old.exchanges (share_exchanges_at self.old.stage) }
        ensures overview { overview.new ≡ overview.old }
        // Over all turns the exchanges are those that were decided.
        ensures decides { share_exchanges_made self.new
            ≡ share_exchanges_made self.old + share_exchanges_at self.old.stage }
        ensures decided { share_exchanges_made self.new
            ≡ decides_made self.old.account self.old.start seat.new.knows }
        // At every turn there is at most one for each owner.
        ensures exchanges_few { share_exchanges_made self.new
            ≤ slots_of (account_of board.now.book self.old.account) }
    {
        match &self.stage {
            ShareStage::Start(_) => self.start_on(board, seat, overview, totals),
            ShareStage::Help(..) => self.help_on(board, seat, overview, totals),
            // Some turn is left, and of a settled request none is.
            ShareStage::Ended => unreachable!(),
        }
    }

    /// Makes the next step of the start. After the last one a turn of helping by the request that waits comes next.
    fn start_on(
        &mut self,
        board: &Board,
        seat: &mut BoardSeat,
        overview: &mut Overview,
        totals: &mut Totals,
    ) -> Option<(Reply, At)>
        requires board { IsOf seat.old board.now }
        requires overview { IsOverviewOf overview.old board.now }
        requires mark { seat.old.knows ≡ self.old.mark }
        requires totals { totals.old ≡ self.old.totals }
        requires starts { (s : StartingTerms) × (self.old.stage ≡ ShareStage.Start s) }
        requires left { 0 < share_turns_left board.now.book self.old }
        ensures turned { TakesShareTurn board.now.book overview.old.seen self.old self.new
            seat.old seat.new totals.new result }
        ensures board { IsOf seat.new board.now }
        ensures steps { seat.new.steps ≡ raised seat.old.steps 1 }
        ensures exchanges { seat.new.exchanges ≡ seat.old.exchanges }
        ensures overview { overview.new ≡ overview.old }
    {
        let ShareStage::Start(starting) = &mut self.stage else {
            // The stage is the start, as is asked.
            unreachable!()
        };
        let started = starting.turn(board, seat, overview, totals);
        self.turns += 1;
        self.mark = Snapshot::of(seat);
        self.totals = Snapshot::of(totals);
        seat.known();
        let helping = started?;
        let turning = Turning::start(board, seat, totals, &helping);
        become_next(&mut self.stage, ShareStage::Help(helping, turning));
        None
    }

    /// Makes the next step of the turn of helping. After its last one the request is settled, or the next turn of helping begins.
    fn help_on(
        &mut self,
        board: &Board,
        seat: &mut BoardSeat,
        overview: &mut Overview,
        totals: &mut Totals,
    ) -> Option<(Reply, At)>
        requires board { IsOf seat.old board.now }
        requires overview { IsOverviewOf overview.old board.now }
        requires mark { seat.old.knows ≡ self.old.mark }
        requires totals { totals.old ≡ self.old.totals }
        requires helps { (h : HelpingTerms) × (u : TurningTerms)
            × (self.old.stage ≡ ShareStage.Help h u) }
        requires left { 0 < share_turns_left board.now.book self.old }
        ensures turned { TakesShareTurn board.now.book overview.old.seen self.old self.new
            seat.old seat.new totals.new result }
        ensures board { IsOf seat.new board.now }
        ensures steps { seat.new.steps ≡ raised seat.old.steps 1 }
        ensures exchanges { seat.new.exchanges
            ≡ raised seat.old.exchanges (share_exchanges_at self.old.stage) }
        ensures overview { overview.new ≡ overview.old }
    {
        let ShareStage::Help(helping, turning) = &mut self.stage else {
            // The stage is a turn of helping, as is asked.
            unreachable!()
        };
        let helped = turning.turn(board, seat, overview, totals, helping);
        self.turns += 1;
        self.mark = Snapshot::of(seat);
        self.totals = Snapshot::of(totals);
        seat.known();
        if let HelpTurn::Settled(answer) = helped? {
            become_next(&mut self.stage, ShareStage::Ended);
            return Some(answer);
        }
        // The round of another request was published, and few are decided before this one: the next turn of helping begins.
        become_next(turning, Turning::start(board, seat, totals, helping));
        None
    }
}
