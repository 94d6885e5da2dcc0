//! One round: a proposal for the cut of a turn, and the record of what was decided.

ghost use Rattle.std.specs.Prelude.{◌≡◌, ◌+◌, ◌<◌, ◌≤◌, false, length, slice_index, slice_set};
ghost use Rattle.at_payments.specs.Prelude.{Decision, raised, SeesDecision, own_part, IsOf, MayPropose, RECORD_WORDS, REQUEST_WORDS, CountsCut, HasCounted, IsCut, place, prefix_of, is_settled, rounds, IsSoundRound, Entry, Request, slots_of, account_of, most_owners};
ghost use Rattle.at_payments.specs.HelpTurns.{AnswersRound, DecidesNext, PublishesRound};
ghost use Rattle.at_payments.specs.Helpings.{IsHelpingAt};
ghost use Rattle.at_payments.specs.Settling.{round_steps};
ghost use Rattle.at_payments.specs.Unsettled.{AreDone, IsNextUnsettled};

use crate::covers;
use crate::helping::{HelpTurn, Helping};
use at_base::{Counts, Decision};
use at_board::{Board, BoardSeat, Entry};
use at_fold::Totals;
use at_ledger::Targets;
use at_log::{Record, append};
use at_requests::{OpenRequest, load_request, oldest, propose};

impl Helping {
    /// Has the next round at the cut decided, publishes it with that cut as the view, and answers by it.
    pub(crate) fn decide_next(
        &self,
        board: &Board,
        seat: &mut BoardSeat,
        totals: &mut Totals,
        cut: &Counts,
    ) -> HelpTurn
        requires seat { IsOf seat.old board.now }
        requires totals { HasCounted totals.old board.now.book seat.old.knows.seen }
        requires at_cut { CountsCut totals.old board.now.book seat.old.knows.seen }
        requires cut { totals.old.upto ≡ cut.now }
        requires own { slice_index cut.now seat.old.knows.first
            ≡ (own_part seat.old.knows).published }
        requires helping { IsHelpingAt board.now.book seat.old.knows
            (prefix_of cut.now seat.old.knows.seen) self.now }
        requires unsettled { is_settled self.now.account self.now.own.slot self.now.own.number
            (prefix_of cut.now seat.old.knows.seen) ≡ false }
        ensures decided { (decision : Decision)
            × DecidesNext board.now.book seat.old.knows seat.new.knows self.now cut.now decision
            × AnswersRound self.now
            (rounds self.now.account (prefix_of cut.now seat.old.knows.seen)) decision result }
        ensures upto { totals.new.upto ≡ slice_set cut.now seat.new.knows.first
            (own_part seat.new.knows).published }
        ensures counted { HasCounted totals.new board.now.book seat.new.knows.seen }
        ensures board { IsOf seat.new board.now }
        ensures steps { seat.new.steps
            ≡ raised seat.old.steps (round_steps board.now.book.processes) }
        ensures exchanges { seat.new.exchanges ≡ raised seat.old.exchanges 1 }
    {
        let round = totals.rounds(self.account);
        let proposal = self.proposal(board, seat, totals, cut);
        // Right here: at the cut exactly the rounds before this one stand. Others may have decided it before, or do so at the
        // same time: one proposal wins, and all are answered that decision.
        let decided = propose(board, seat, self.account, round, &proposal);
        self.publish(board, seat, totals, round, &decided, cut);
        self.answer(round, &decided)
    }

    /// What the next round should decide: the oldest request that is unsettled at the cut, done where the balance there covers
    /// it.
    pub fn proposal(
        &self,
        board: &Board,
        seat: &BoardSeat,
        totals: &Totals,
        cut: &Counts,
    ) -> Decision
        requires seat { IsOf seat.now board.now }
        requires totals { HasCounted totals.now board.now.book seat.now.knows.seen }
        requires at_cut { CountsCut totals.now board.now.book seat.now.knows.seen }
        requires cut { totals.now.upto ≡ cut.now }
        requires helping { IsHelpingAt board.now.book seat.now.knows
            (prefix_of cut.now seat.now.knows.seen) self.now }
        requires unsettled { is_settled self.now.account self.now.own.slot self.now.own.number
            (prefix_of cut.now seat.now.knows.seen) ≡ false }
        ensures proposal { (r : Request) × MayPropose board.now.book seat.now.knows
            self.now.account (rounds self.now.account (prefix_of cut.now seat.now.knows.seen))
            result r }
        ensures place { result.place ≡ place cut.now }
    {
        board.book().known();
        seat.known();
        let next = self.next_unsettled(board, seat, totals);
        Decision {
            ok: covers(totals, self.account, &next.targets),
            slot: next.slot,
            number: next.number,
            place: cut.sum(),
        }
    }

    /// The oldest request that is unsettled at the cut that the totals have counted.
    fn next_unsettled(&self, board: &Board, seat: &BoardSeat, totals: &Totals) -> OpenRequest
        requires totals { HasCounted totals.now board.now.book seat.now.knows.seen }
        requires at_cut { CountsCut totals.now board.now.book seat.now.knows.seen }
        requires helping { IsHelpingAt board.now.book seat.now.knows
            (prefix_of totals.now.upto seat.now.knows.seen) self.now }
        requires unsettled { is_settled self.now.account self.now.own.slot self.now.own.number
            (prefix_of totals.now.upto seat.now.knows.seen) ≡ false }
        ensures few { slots_of (account_of board.now.book self.now.account) ≤ most_owners }
        ensures next { IsNextUnsettled board.now.book
            (prefix_of totals.now.upto seat.now.knows.seen) self.now result }
    {
        let done = self.done(board, seat, totals);
        oldest(&self.asked, &done)
    }

    /// How many requests of each owner are settled at the cut that the totals have counted.
    fn done(&self, board: &Board, seat: &BoardSeat, totals: &Totals) -> Counts
        requires totals { HasCounted totals.now board.now.book seat.now.knows.seen }
        requires at_cut { CountsCut totals.now board.now.book seat.now.knows.seen }
        requires account { self.now.account < length board.now.book.accounts }
        requires shared { 1 ≤ slots_of (account_of board.now.book self.now.account) }
        ensures few { slots_of (account_of board.now.book self.now.account) ≤ most_owners }
        ensures done { AreDone board.now.book (prefix_of totals.now.upto seat.now.knows.seen)
            self.now.account result }
    {
        let slots = board.book().slot_count(self.account);
        let mut done = Counts::zeros(slots);
        for slot in 0..slots {
            done.set(slot, totals.done(self.account, slot));
        }
        done
    }

    /// Publishes the round of a decision, with the cut as its view.
    fn publish(
        &self,
        board: &Board,
        seat: &mut BoardSeat,
        totals: &mut Totals,
        round: u32,
        decision: &Decision,
        cut: &Counts,
    )
        requires seat { IsOf seat.old board.now }
        requires totals { HasCounted totals.old board.now.book seat.old.knows.seen }
        requires cut { IsCut board.now.book.processes cut.now seat.old.knows.seen }
        requires upto { totals.old.upto ≡ cut.now }
        requires own { slice_index cut.now seat.old.knows.first
            ≡ (own_part seat.old.knows).published }
        requires round { IsSoundRound board.now.book seat.old.knows.first
            (prefix_of cut.now seat.old.knows.seen) self.now.account round }
        requires decided { SeesDecision seat.old.knows self.now.account round decision.now }
        ensures published { PublishesRound board.now.book seat.old.knows seat.new.knows
            self.now.account round decision.now cut.now }
        ensures upto { totals.new.upto ≡ slice_set cut.now seat.new.knows.first
            (own_part seat.new.knows).published }
        ensures counted { HasCounted totals.new board.now.book seat.new.knows.seen }
        ensures board { IsOf seat.new board.now }
        ensures steps { seat.new.steps ≡ raised seat.old.steps (REQUEST_WORDS
            + (RECORD_WORDS + board.now.book.processes + 1)) }
        ensures exchanges { seat.new.exchanges ≡ seat.old.exchanges }
    {
        seat.known();
        let request = load_request(board, seat, self.account, decision.slot, decision.number);
        let record = record_of_round(self.account, round, *decision, request.targets, cut);
        // The cut stays one whatever others publish before this record. A round that another owner has published already counts
        // once.
        append(board, seat, &record);
        totals.count_own(seat, &record.entry);
    }
}

/// The record of a round, with a cut as its view.
pub fn record_of_round(
    account: u32,
    round: u32,
    decision: Decision,
    targets: Targets,
    cut: &Counts,
) -> Record
    ensures { result ≡ record {
      entry = Entry.Round account round decision targets;
      view = cut.now;
    } }
{
    Record {
        entry: Entry::Round {
            account,
            round,
            decision,
            targets,
        },
        view: cut.copy(),
    }
}
