//! One round of a shared payment, a step a turn.

ghost use Rattle.std.specs.Prelude.{◌≡◌, ◌+◌, ◌<◌, ◌↔◌, false, slice_index, slice_set, IfSome, IsSome};
ghost use Rattle.at_machines.specs.Prelude.{raised, SeesDecision, own_part, IsOf, CountsCut, HasCounted, prefix_of, is_settled, IsLast, DecidesNext, IsHelpingAt};
ghost use Rattle.at_machines.specs.Appending.{publication_of};
ghost use Rattle.at_machines.specs.Deciding.{MakesRoundStep, deciding_after, exchanges_in, round_in, starting_deciding, step_in_round};
ghost use Rattle.at_machines.specs.LoadingRequest.{starting_request};

use crate::appending::Appending;
use crate::loading_request::LoadingRequest;
use crate::round_stage::RoundStage;
use at_base::{Counts, Decision};
use at_board::{Board, BoardSeat, BoardStep, BoardWord};
use at_fold::Totals;
use at_payments::{Helping, record_of_round};
use at_requests::propose;
use std::marker::Model;
use std::snapshot::Snapshot;

/// A round in the making: the exchange on its cell, the loads of the request that was decided, and the stores of its record.
#[derive(Drop)]
pub struct Deciding {
    cut: Counts,
    account: u32,
    round: u32,
    stage: RoundStage,
    /// The seat at the start, for contracts alone.
    start: Snapshot<BoardSeat>,
    /// The seat after the last turn.
    mark: Snapshot<BoardSeat>,
    /// The totals at the start. Until the last turn they stay so.
    totals: Snapshot<Totals>,
    /// The request that waits.
    helping: Snapshot<Helping>,
}

impl Model for Deciding {
    ghost use Rattle.at_machines.specs.Appending.{publication_of};
    ghost use Rattle.at_machines.specs.Deciding.{DecidingTerms, left_of_round, next_of_round};
    ghost use Rattle.at_machines.specs.KeptDeciding.{IsDecidingSo};

    ghost Value = { DecidingTerms };

    ghost view = { λ d. record {
      start = d.start.value.knows;
      mark = d.mark.value.knows;
      totals = d.totals.value;
      helping = d.helping.value;
      cut = d.cut;
      next = next_of_round d.stage;
      left = left_of_round d.start.value.knows.book.processes
          (next_of_round d.stage);
    } };

    ghost invariant = { λ d. IsDecidingSo d.start.value.knows d.mark.value.knows d.totals.value
        d.helping.value d.cut d.account d.round d.stage };
}

impl Deciding {
    /// Starts the next round at the cut that the totals have counted, in no step. What it proposes is fixed here.
    pub fn start(
        board: &Board,
        seat: &BoardSeat,
        totals: &Totals,
        helping: &Helping,
        cut: Counts,
    ) -> Deciding
        requires seat { IsOf seat.now board.now }
        requires totals { HasCounted totals.now board.now.book seat.now.knows.seen }
        requires at_cut { CountsCut totals.now board.now.book seat.now.knows.seen }
        requires cut { totals.now.upto ≡ cut }
        requires own { slice_index cut seat.now.knows.first
            ≡ (own_part seat.now.knows).published }
        requires helping { IsHelpingAt board.now.book seat.now.knows
            (prefix_of cut seat.now.knows.seen) helping.now }
        requires unsettled { is_settled helping.now.account helping.now.own.slot
            helping.now.own.number (prefix_of cut seat.now.knows.seen) ≡ false }
        ensures { result ≡ starting_deciding seat.now.knows totals.now helping.now cut }
    {
        seat.known();
        let account = helping.account();
        let round = totals.rounds(account);
        let proposal = helping.proposal(board, seat, totals, &cut);
        Deciding {
            cut,
            account,
            round,
            stage: RoundStage::Proposing(proposal),
            start: Snapshot::of(seat),
            mark: Snapshot::of(seat),
            totals: Snapshot::of(totals),
            helping: Snapshot::of(helping),
        }
    }

    /// The round of the account that is decided.
    pub fn round(&self) -> u32
        ensures { result ≡ round_in self.now }
    {
        self.round
    }

    /// The step that the next turn makes, if some step is left.
    pub fn next(&self, board: &Board, seat: &BoardSeat) -> Option<BoardStep>
        requires board { IsOf seat.now board.now }
        requires mark { seat.now.knows ≡ self.now.mark }
        ensures { result ≡ step_in_round board.now.book self.now self.now.next }
    {
        match &self.stage {
            RoundStage::Proposing(_) => Some(BoardStep::Exchange(BoardWord::Cell {
                account: self.account,
                round: self.round,
            })),
            RoundStage::Loading(_, loading) => loading.next(),
            RoundStage::Publishing(_, appending) => appending.next(board, seat),
            RoundStage::Ended => None,
        }
    }

    /// Makes the next step of the round, in one step. The last one publishes and counts its record, and answers the decision.
    pub fn turn(
        &mut self,
        board: &Board,
        seat: &mut BoardSeat,
        totals: &mut Totals,
    ) -> Option<Decision>
        requires board { IsOf seat.old board.now }
        requires mark { seat.old.knows ≡ self.old.mark }
        requires totals { totals.old ≡ self.old.totals }
        requires left { 0 < self.old.left }
        ensures after { self.new ≡ deciding_after self.old seat.new.knows self.new.next }
        ensures step { MakesRoundStep board.now.book self.old seat.new.knows self.new.next }
        ensures left { self.new.left + 1 ≡ self.old.left }
        ensures ends { IsSome result ↔ (self.new.left ≡ 0) }
        ensures decided { IfSome result (DecidesNext board.now.book self.old.start seat.new.knows
            self.old.helping self.old.cut) }
        ensures upto { IfSome result (λ decision. totals.new.upto
            ≡ slice_set self.old.cut seat.new.knows.first (own_part seat.new.knows).published) }
        ensures counted { IfSome result (λ decision. HasCounted totals.new board.now.book
            seat.new.knows.seen) }
        ensures waits { 0 < self.new.left → totals.new ≡ totals.old }
        ensures board { IsOf seat.new board.now }
        ensures steps { seat.new.steps ≡ raised seat.old.steps 1 }
        ensures exchanges { seat.new.exchanges
            ≡ raised seat.old.exchanges (exchanges_in self.old.next) }
    {
        seat.known();
        let (a, r) = (self.account, self.round);
        match &mut self.stage {
            RoundStage::Proposing(proposal) => {
                // Right here: at the cut exactly the rounds before this one stand. Others may have decided it before, or do so
                // at the same time: one proposal wins, and all are answered that decision.
                let decision = propose(board, seat, a, r, proposal);
                self.mark = Snapshot::of(seat);
                let loading = decided_request(seat, a, r, &decision);
                self.stage = RoundStage::Loading(decision, loading);
                None
            }
            RoundStage::Loading(decision, loading) => {
                let loaded = loading.turn(board, seat);
                self.mark = Snapshot::of(seat);
                let targets = loaded?.targets;
                let decision = *decision;
                let record = record_of_round(a, r, decision, targets, &self.cut);
                self.stage = RoundStage::Publishing(decision, Appending::start(seat, record));
                None
            }
            RoundStage::Publishing(decision, appending) => {
                let published = appending.turn(board, seat);
                self.mark = Snapshot::of(seat);
                if !published {
                    return None;
                }
                let decision = *decision;
                count_published(totals, seat, appending);
                self.stage = RoundStage::Ended;
                Some(decision)
            }
            // Some step is left, and of an ended round none is.
            RoundStage::Ended => unreachable!(),
        }
    }
}

/// A load of the request that a round has decided.
fn decided_request(
    seat: &BoardSeat,
    account: u32,
    round: u32,
    decision: &Decision,
) -> LoadingRequest
    requires { SeesDecision seat.now.knows account round decision.now }
    ensures { result ≡ starting_request seat.now.knows account decision.now.slot
        decision.now.number }
{
    LoadingRequest::start(seat, account, decision.slot, decision.number)
}

/// Counts the record that an append has published last.
fn count_published(totals: &mut Totals, seat: &BoardSeat, appending: &Appending)
    requires counted { HasCounted totals.old seat.now.knows.book seat.now.knows.seen }
    requires process { seat.now.knows.first < seat.now.knows.book.processes }
    requires last { IsLast appending.now.start seat.now.knows (publication_of appending.now) }
    requires own { slice_index totals.old.upto seat.now.knows.first
        ≡ (own_part appending.now.start).published }
    ensures counted { HasCounted totals.new seat.now.knows.book seat.now.knows.seen }
    ensures upto { totals.new.upto ≡ slice_set totals.old.upto seat.now.knows.first
        (own_part seat.now.knows).published }
{
    totals.count_own(seat, appending.entry());
}
