//! A request that waits, and the turns by which it is settled.

ghost use Rattle.std.specs.Prelude.{◌≡◌, ◌≢◌, ◌↔◌, ℕ, ◌+◌, ◌*◌, ◌<◌, ◌≤◌, true, List, length, slice_index, sum, None, if◌then◌else◌};
ghost use Rattle.at_payments.specs.Prelude.{Decision, raised, asking_on, own_part, IsOf, MayStoreRequest, RECORD_WORDS, IsSettledSo, CountsCut, CountsSlot, HasCounted, prefix_of, IsPrefix, rounds, Publication, slots_of, BookTerms, account_of, AreTargetsOn, IsPlaced, asks_in, At, Receipt, snapshot_steps};
ghost use Rattle.at_payments.specs.HelpTurns.{AnswersRound, HelpAnswers, NamesOwn, OnSettled, OnSettledCalls};
ghost use Rattle.at_payments.specs.HelpingTerms.{helping_of};
ghost use Rattle.at_payments.specs.Helpings.{HasAllSettled, HasStarted, IsHelping, decides_made, decides_on, heard_on};
ghost use Rattle.at_payments.specs.Settling.{StandsAfter, StandsInRound, asking_steps, round_steps};
ghost use Rattle.at_payments.specs.Standing.{newly_counted};

use crate::look;
use at_base::Decision;
use at_board::{Board, BoardSeat};
use at_fold::Totals;
use at_ledger::{Reply, Targets};
use at_log::At;
use at_requests::{Asked, OpenRequest, ask, collect_rows};
use std::marker::Model;

/// What a turn of helping answers.
#[derive(Drop)]
pub enum HelpTurn {
    /// The request is settled: this is the reply, and where the call stands.
    Settled((Reply, At)),
    /// Another request was decided in this turn's round.
    More,
}

/// A request of a shared account that its owner waits for, and the requests of the other owners that it found. It takes no memory.
#[derive(Drop)]
pub struct Helping {
    pub(crate) account: u32,
    pub(crate) own: OpenRequest,
    pub(crate) asked: Asked,
}

impl Model for Helping {
    ghost use Rattle.at_payments.specs.HelpingTerms.{HelpingTerms};

    ghost Value = { HelpingTerms };

    ghost view = { λ h. record {
      account = h.account;
      own = h.own;
      asked = h.asked;
    } };
}

impl Helping {
    /// A request that waits, of its parts.
    pub fn of(account: u32, own: OpenRequest, asked: Asked) -> Helping
        ensures { result ≡ helping_of account own asked }
    {
        Helping {
            account,
            own,
            asked,
        }
    }

    /// The account that is paid from.
    pub fn account(&self) -> u32
        ensures { result ≡ self.now.account }
    {
        self.account
    }

    /// The round that has decided the request and its decision, where the records that the totals have counted tell. By look-up.
    pub fn settled(&self, totals: &Totals) -> Option<(u32, Decision)>
        requires { (b : BookTerms) × (seen : List Publication)
            × CountsSlot totals.now b seen self.now.account self.now.own.slot
            × (self.now.own.number < b.request_room) }
        ensures cut { (b : BookTerms) (seen : List Publication)
            → CountsSlot totals.now b seen self.now.account self.now.own.slot
            → self.now.own.number < b.request_room → CountsCut totals.now b seen
            → IsSettledSo (prefix_of totals.now.upto seen) self.now.account self.now.own.slot
            self.now.own.number result }
    {
        totals.settled(self.account, self.own.slot, self.own.number)
    }

    /// Is it the own request that was decided?
    pub fn is_own(&self, decision: &Decision) -> bool
        ensures { (result ≡ true) ↔ NamesOwn self.now decision.now }
    {
        decision.slot == self.own.slot && decision.number == self.own.number
    }

    /// Asks for a pay-out from a shared account: takes a snapshot, announces the request with the place of that as its `since`,
    /// and collects the last requests of the other owners.
    pub fn start(
        board: &Board,
        seat: &mut BoardSeat,
        totals: &mut Totals,
        account: u32,
        targets: &Targets,
    ) -> Helping
        requires seat { IsOf seat.old board.now }
        requires totals { HasCounted totals.old board.now.book seat.old.knows.seen }
        requires targets { AreTargetsOn (length board.now.book.accounts) targets.now }
        requires asks { (slot : ℕ) × MayStoreRequest board.now.book seat.old.knows account slot }
        requires settled { HasAllSettled board.now.book seat.old.knows account }
        requires free { (own_part seat.old.knows).held ≡ None }
        ensures account { result.account ≡ account }
        ensures targets { result.own.targets ≡ targets.now }
        ensures started { HasStarted board.now.book seat.old.knows seat.new.knows result }
        ensures helping { IsHelping board.now.book seat.new.knows result }
        ensures number { result.own.number
            ≡ length (asking_on (own_part seat.old.knows) account).announced }
        ensures since { length seat.old.knows.seen ≤ result.own.since }
        ensures begins { IsPrefix seat.old.knows.seen seat.new.knows.seen }
        ensures process { seat.new.knows.first ≡ seat.old.knows.first }
        ensures decides { (a : ℕ) → decides_on seat.new.knows a ≡ decides_on seat.old.knows a }
        ensures published { (own_part seat.new.knows).published
            ≡ (own_part seat.old.knows).published }
        ensures more { sum totals.old.upto ≤ sum totals.new.upto }
        ensures counted { HasCounted totals.new board.now.book seat.new.knows.seen }
        ensures own_counted { slice_index totals.new.upto seat.new.knows.first
            ≡ (own_part seat.new.knows).published }
        ensures board { IsOf seat.new board.now }
        ensures steps { seat.new.steps ≤ seat.old.steps + snapshot_steps board.now.book.processes
            + asking_steps (slots_of (account_of board.now.book account))
            + RECORD_WORDS * newly_counted seat.old.knows seat.new.knows totals.old totals.new }
        ensures risen { seat.old.steps ≤ seat.new.steps }
        ensures exchanges { seat.new.exchanges ≡ seat.old.exchanges }
    {
        seat.known();
        board.book().known();
        let cut = look(board, seat, totals);
        let targets = targets.copy();
        // There are one to four targets, as their type keeps.
        let _count = targets.len();
        let slot = board.book().slot_of(account, seat.process()).unwrap();
        let since = cut.sum();
        let number = ask(board, seat, account, &targets, since);
        let own = OpenRequest {
            slot,
            number,
            targets,
            since,
        };
        // Others may ask at once after each load here. Whoever isn't found asked after this request was announced, and waits less
        // long.
        let asked = collect_rows(board, seat, account, &own);
        Helping::of(account, own, asked)
    }

    /// Takes a snapshot. Where the request is settled there, that is the answer. Else the oldest unsettled request is proposed to
    /// the next round, and what was decided there is published; it is settled exactly where that is the own request.
    pub fn turn(&mut self, board: &Board, seat: &mut BoardSeat, totals: &mut Totals) -> HelpTurn
        requires seat { IsOf seat.old board.now }
        requires totals { HasCounted totals.old board.now.book seat.old.knows.seen }
        requires helping { IsHelping board.now.book seat.old.knows self.old }
        ensures same { self.new ≡ self.old }
        ensures answers { HelpAnswers board.now.book seat.old.knows seat.new.knows self.old result }
        ensures in_round { OnSettled result StandsInRound }
        ensures placed { OnSettledCalls self.old result (λ r. (earlier : List Receipt)
            → asks_in self.old.account earlier ≡ self.old.own.number
            → IsPlaced board.now.book seat.new.knows.first seat.new.knows.seen earlier r) }
        ensures after_start { OnSettledCalls self.old result
            (StandsAfter self.old.own.since seat.new.knows) }
        ensures helping { result ≡ HelpTurn.More
            → IsHelping board.now.book seat.new.knows self.old }
        ensures decides_more { result ≡ HelpTurn.More
            → decides_on seat.new.knows self.old.account
            ≡ decides_on seat.old.knows self.old.account + 1 }
        ensures rounds_more { result ≡ HelpTurn.More
            → rounds self.old.account seat.old.knows.seen + 1
            ≤ rounds self.old.account seat.new.knows.seen }
        // Of the rounds that may be decided before the request one is left at least.
        ensures overtaken { result ≡ HelpTurn.More
            → rounds self.old.account seat.old.knows.seen + 2
            ≤ heard_on seat.old.knows self.old.account
            + slots_of (account_of board.now.book self.old.account) }
        ensures heard { heard_on seat.new.knows self.old.account
            ≡ heard_on seat.old.knows self.old.account }
        ensures free { (own_part seat.new.knows).held ≡ None }
        ensures begins { IsPrefix seat.old.knows.seen seat.new.knows.seen }
        ensures process { seat.new.knows.first ≡ seat.old.knows.first }
        ensures decides_few { decides_on seat.old.knows self.old.account
            ≤ decides_on seat.new.knows self.old.account }
        ensures decides_at_most { decides_on seat.new.knows self.old.account
            ≤ decides_on seat.old.knows self.old.account + 1 }
        ensures decides_elsewhere { (a : ℕ) → a ≢ self.old.account
            → decides_on seat.new.knows a ≡ decides_on seat.old.knows a }
        ensures published { (own_part seat.old.knows).published
            ≤ (own_part seat.new.knows).published }
        ensures more { sum totals.old.upto + (own_part seat.new.knows).published
            ≤ sum totals.new.upto + (own_part seat.old.knows).published }
        ensures counted { HasCounted totals.new board.now.book seat.new.knows.seen }
        ensures own_counted { slice_index totals.new.upto seat.new.knows.first
            ≡ (own_part seat.new.knows).published }
        ensures board { IsOf seat.new board.now }
        ensures steps { seat.new.steps ≤ seat.old.steps + snapshot_steps board.now.book.processes
            + round_steps board.now.book.processes
            * decides_made self.old.account seat.old.knows seat.new.knows
            + RECORD_WORDS * newly_counted seat.old.knows seat.new.knows totals.old totals.new }
        ensures risen { seat.old.steps ≤ seat.new.steps }
        ensures exchanges { seat.new.exchanges
            ≡ raised seat.old.exchanges (decides_made self.old.account seat.old.knows seat.new.knows) }
    {
        seat.known();
        let cut = look(board, seat, totals);
        seat.known();
        if let Some((round, decision)) = self.settled(totals) {
            return HelpTurn::Settled(answer_in(round, &decision));
        }
        let turn = self.decide_next(board, seat, totals, &cut);
        seat.known();
        turn
    }

    /// What a turn answers whose round was decided so: that the request is settled, or that more is left.
    pub fn answer(&self, round: u32, decision: &Decision) -> HelpTurn
        ensures { AnswersRound self.now round decision.now result }
    {
        if self.is_own(decision) {
            HelpTurn::Settled(answer_in(round, decision))
        } else {
            HelpTurn::More
        }
    }
}

/// The reply and the place of a payment whose request a round has decided so.
pub fn answer_in(round: u32, decision: &Decision) -> (Reply, At)
    ensures reply { result.0 ≡ (if decision.now.ok then Reply.Done else Reply.Short) }
    ensures at { result.1 ≡ At.Round round decision.now.place }
{
    let reply = if decision.ok {
        Reply::Done
    } else {
        Reply::Short
    };
    let place = decision.place;
    (reply, At::Round { round, place })
}
