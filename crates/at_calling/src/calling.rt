//! A call of a pass that was taken apart, a step a turn.

ghost use Rattle.std.specs.Prelude.{◌≡◌, ℕ, ◌+◌, ◌++◌, ◌<◌, ◌↔◌, List, [], ◌∷◌, IfSome, IsSome, Some, length};
ghost use Rattle.at_calling.specs.Prelude.{raised, IsOverviewOf, IsOf, AreRuns, IsPrefix, Publication, IsCallOn, IsPlaced, At, Receipt, IsOfOnePass, pass_of, Stands, IsRefused, refusal_in, CallMade, StaysWithin};
ghost use Rattle.at_calling.specs.KeptCalling.{TakesCallTurn};
ghost use Rattle.at_calling.specs.PayingAlone.{PayingAloneTerms};
ghost use Rattle.at_calling.specs.PayingShared.{PayingSharedTerms};
ghost use Rattle.at_calling.specs.Reading.{ReadingTerms};
ghost use Rattle.at_calling.specs.Calling.{CountsCall, FollowsCall, IsCallWithin, IsWay, MakesCallStep, StartsFrom, call_turns_left, exchanges_made, exchanges_of, first_step, next_step, pass_before, steps_made, steps_of};

use crate::call_stage::CallStage;
use at_board::{Board, BoardSeat, BoardStep, Overview};
use at_ledger::{Call, Reply};
use at_log::{At, Receipt};
use at_machines::become_next;
use at_object::{Rest, sent_after};
use std::marker::Model;
use std::snapshot::Snapshot;

/// A call in the making, of a pass that was taken apart into its seat and the rest: its refusal, a read, or a payment.
#[derive(Drop)]
pub struct Calling {
    call: Call,
    stage: CallStage,
    /// The seat at the start, for contracts alone.
    start: Snapshot<BoardSeat>,
    /// The rest of the pass at the start.
    was: Snapshot<Rest>,
    /// The seat after the last turn.
    mark: Snapshot<BoardSeat>,
    /// The rest of the pass after the last turn.
    rest: Snapshot<Rest>,
}

impl Model for Calling {
    ghost use Rattle.at_calling.specs.Calling.{CallingTerms};

    ghost Value = { CallingTerms };

    ghost use Rattle.at_calling.specs.KeptCalling.{IsCallingSo, calling_of};

    ghost view = { calling_of };

    ghost invariant = { λ c. IsCallingSo (calling_of c) };
}

impl Calling {
    /// Starts a call, in no step. It finds out how the call is made: a payment is refused where the process doesn't own the account,
    /// or else has used up its room there.
    pub fn start(board: &Board, seat: &BoardSeat, rest: &Rest, call: Call) -> Calling
        requires board { IsOf seat.now board.now }
        requires pass { IsOfOnePass seat.now rest.now }
        requires call { IsCallOn (length board.now.book.accounts) call }
        ensures call { result.call ≡ call }
        ensures start { result.start ≡ seat.now }
        ensures was { result.was ≡ rest.now }
        ensures mark { result.mark ≡ seat.now }
        ensures rest { result.rest ≡ rest.now }
        ensures way { IsWay board.now.book (pass_of seat.now rest.now) call result.stage }
        ensures starts { StartsFrom seat.now.knows rest.now.totals result.stage }
        ensures turns { steps_made result.stage ≡ 0 }
        ensures exchanges { exchanges_made result.stage ≡ 0 }
        ensures left { 0 < call_turns_left board.now.book result.stage }
        ensures first { next_step board.now.book result.stage ≡ first_step
            (refusal_in board.now.book (pass_of seat.now rest.now) call) }
    {
        seat.known();
        Calling {
            stage: CallStage::first(board, seat, rest, &call),
            call,
            start: Snapshot::of(seat),
            was: Snapshot::of(rest),
            mark: Snapshot::of(seat),
            rest: Snapshot::of(rest),
        }
    }

    /// The step that the next turn makes: none where the call is refused.
    pub fn next(&self, board: &Board, seat: &BoardSeat) -> Option<BoardStep>
        requires board { IsOf seat.now board.now }
        requires mark { seat.now ≡ self.now.mark }
        requires left { 0 < call_turns_left board.now.book self.now.stage }
        ensures { result ≡ next_step board.now.book self.now.stage }
    {
        match &self.stage {
            CallStage::Refuse(_) | CallStage::Refused => None,
            CallStage::Read(reading) => reading.next(),
            CallStage::PayAlone(paying) => paying.next(board, seat),
            CallStage::PayShared(paying) => paying.next(board, seat),
        }
    }

    /// Makes the next step of the call. The last turn answers its receipt, and leaves the seat and the rest of one pass. A call that
    /// is refused is answered by its only turn, which makes no step.
    pub fn turn(
        &mut self,
        board: &Board,
        seat: &mut BoardSeat,
        overview: &mut Overview,
        rest: &mut Rest,
    ) -> Option<Receipt>
        requires board { IsOf seat.old board.now }
        requires overview { IsOverviewOf overview.old board.now }
        requires mark { seat.old ≡ self.old.mark }
        requires rest { rest.old ≡ self.old.rest }
        requires left { 0 < call_turns_left board.now.book self.old.stage }
        ensures call { self.new.call ≡ self.old.call }
        ensures start { self.new.start ≡ self.old.start }
        ensures was { self.new.was ≡ self.old.was }
        ensures mark { self.new.mark ≡ seat.new }
        ensures rest { self.new.rest ≡ rest.new }
        ensures turns { steps_made self.new.stage
            ≡ steps_made self.old.stage + steps_of self.old.stage }
        ensures step { MakesCallStep board.now.book overview.old.seen self.old.stage seat.old
            seat.new rest.new.totals }
        ensures follows { FollowsCall board.now.book self.old.stage self.new.stage }
        ensures left { call_turns_left board.now.book self.new.stage
            < call_turns_left board.now.book self.old.stage }
        ensures so_far { IsCallWithin board.now.book (pass_before self.old) self.old.call
            seat.new.knows rest.new.totals.upto (steps_made self.new.stage)
            (exchanges_made self.new.stage) }
        ensures ends { IsSome result
            ↔ (call_turns_left board.now.book self.new.stage ≡ 0) }
        ensures made { IfSome result (CallMade board.now.book (pass_before self.old)
            (pass_of seat.new rest.new) self.old.call) }
        ensures placed { IfSome result (λ r. (earlier : List Receipt)
            → Stands (pass_before self.old) earlier
            → IsPlaced board.now.book self.old.start.knows.first seat.new.knows.seen earlier r) }
        ensures stands { IfSome result (λ r. (earlier : List Receipt)
            → Stands (pass_before self.old) earlier
            → Stands (pass_of seat.new rest.new) (earlier ++ r ∷ [])) }
        ensures kept { IfSome result (λ r. IsOfOnePass seat.new rest.new) }
        ensures calls { IfSome result (CountsCall self.old seat.new rest.new) }
        ensures begins { IsPrefix self.old.start.knows.seen seat.new.knows.seen }
        ensures runs { AreRuns board.now.book seat.new.knows.seen }
        ensures within { IfSome result (StaysWithin board.now.book (pass_before self.old)
            (pass_of seat.new rest.new) self.old.call) }
        ensures refused { IfSome result (λ r. IsRefused r → steps_made self.new.stage ≡ 0) }
        ensures board { IsOf seat.new board.now }
        ensures steps { seat.new.steps ≡ raised seat.old.steps (steps_of self.old.stage) }
        ensures exchanges { seat.new.exchanges
            ≡ raised seat.old.exchanges (exchanges_of self.old.stage) }
        ensures overview { overview.new ≡ overview.old }
        ensures exchanges_made { exchanges_made self.new.stage
            ≡ exchanges_made self.old.stage + exchanges_of self.old.stage }
    {
        match &self.stage {
            CallStage::Refuse(reply) => {
                let reply = *reply;
                Some(self.refuse(board, seat, rest, reply))
            }
            CallStage::Read(_) => self.read_on(board, seat, overview, rest),
            CallStage::PayAlone(_) => self.pay_alone_on(board, seat, overview, rest),
            CallStage::PayShared(_) => self.pay_shared_on(board, seat, overview, rest),
            // Some turn is left, and after a refusal none is.
            CallStage::Refused => unreachable!(),
        }
    }

    /// Answers that the call is refused, in no step.
    fn refuse(&mut self, board: &Board, seat: &BoardSeat, rest: &mut Rest, reply: Reply) -> Receipt
        requires board { IsOf seat.now board.now }
        requires mark { seat.now ≡ self.old.mark }
        requires rest { rest.old ≡ self.old.rest }
        requires stage { self.old.stage ≡ CallStage.Refuse reply }
        ensures { (seen : List Publication)
            → TakesCallTurn board.now.book seen self.old self.new seat.now seat.now rest.new
            (Some result) }
    {
        seat.known();
        become_next(&mut self.stage, CallStage::Refused);
        let answer = rest.refuse(board, seat, &self.call, reply);
        self.rest = Snapshot::of(rest);
        receipt_of(&self.call, answer)
    }

    /// Makes the next step of the read. The last one answers its receipt.
    fn read_on(
        &mut self,
        board: &Board,
        seat: &mut BoardSeat,
        overview: &mut Overview,
        rest: &mut Rest,
    ) -> Option<Receipt>
        requires board { IsOf seat.old board.now }
        requires overview { IsOverviewOf overview.old board.now }
        requires mark { seat.old ≡ self.old.mark }
        requires rest { rest.old ≡ self.old.rest }
        requires stage { (r : ReadingTerms) × (self.old.stage ≡ CallStage.Read r) }
        requires left { 0 < call_turns_left board.now.book self.old.stage }
        ensures turned { TakesCallTurn board.now.book overview.old.seen self.old self.new
            seat.old seat.new rest.new result }
        ensures board { IsOf seat.new board.now }
        ensures steps { seat.new.steps ≡ raised seat.old.steps 1 }
        ensures exchanges { seat.new.exchanges ≡ seat.old.exchanges }
        ensures overview { overview.new ≡ overview.old }
    {
        let CallStage::Read(reading) = &mut self.stage else {
            unreachable!()
        };
        let read = reading.turn(board, seat, overview, &mut rest.totals);
        seat.known();
        self.mark = Snapshot::of(seat);
        self.rest = Snapshot::of(rest);
        let receipt = read?;
        rest.count_call(board, seat, &self.start, &self.was, &receipt);
        self.rest = Snapshot::of(rest);
        Some(receipt)
    }

    /// Makes the next step of the payment by the account's one owner. The last one answers its receipt.
    fn pay_alone_on(
        &mut self,
        board: &Board,
        seat: &mut BoardSeat,
        overview: &mut Overview,
        rest: &mut Rest,
    ) -> Option<Receipt>
        requires board { IsOf seat.old board.now }
        requires overview { IsOverviewOf overview.old board.now }
        requires mark { seat.old ≡ self.old.mark }
        requires rest { rest.old ≡ self.old.rest }
        requires stage { (p : PayingAloneTerms) × (self.old.stage ≡ CallStage.PayAlone p) }
        requires left { 0 < call_turns_left board.now.book self.old.stage }
        ensures turned { TakesCallTurn board.now.book overview.old.seen self.old self.new
            seat.old seat.new rest.new result }
        ensures board { IsOf seat.new board.now }
        ensures steps { seat.new.steps ≡ raised seat.old.steps 1 }
        ensures exchanges { seat.new.exchanges ≡ seat.old.exchanges }
        ensures overview { overview.new ≡ overview.old }
    {
        let CallStage::PayAlone(paying) = &mut self.stage else {
            unreachable!()
        };
        let paid = paying.turn(board, seat, overview, &mut rest.totals);
        seat.known();
        self.mark = Snapshot::of(seat);
        self.rest = Snapshot::of(rest);
        let answer = paid?;
        rest.sent = sent_after(rest.sent, &answer.0);
        let receipt = receipt_of(&self.call, answer);
        rest.count_call(board, seat, &self.start, &self.was, &receipt);
        self.rest = Snapshot::of(rest);
        Some(receipt)
    }

    /// Makes the next step of the payment by one of the account's owners. The last one answers its receipt.
    fn pay_shared_on(
        &mut self,
        board: &Board,
        seat: &mut BoardSeat,
        overview: &mut Overview,
        rest: &mut Rest,
    ) -> Option<Receipt>
        requires board { IsOf seat.old board.now }
        requires overview { IsOverviewOf overview.old board.now }
        requires mark { seat.old ≡ self.old.mark }
        requires rest { rest.old ≡ self.old.rest }
        requires stage { (p : PayingSharedTerms) × (self.old.stage ≡ CallStage.PayShared p) }
        requires left { 0 < call_turns_left board.now.book self.old.stage }
        ensures turned { TakesCallTurn board.now.book overview.old.seen self.old self.new
            seat.old seat.new rest.new result }
        ensures board { IsOf seat.new board.now }
        ensures steps { seat.new.steps ≡ raised seat.old.steps 1 }
        ensures exchanges { seat.new.exchanges
            ≡ raised seat.old.exchanges (exchanges_of self.old.stage) }
        ensures overview { overview.new ≡ overview.old }
    {
        let CallStage::PayShared(paying) = &mut self.stage else {
            unreachable!()
        };
        let paid = paying.turn(board, seat, overview, &mut rest.totals);
        seat.known();
        self.mark = Snapshot::of(seat);
        self.rest = Snapshot::of(rest);
        let answer = paid?;
        let receipt = receipt_of(&self.call, answer);
        rest.count_call(board, seat, &self.start, &self.was, &receipt);
        self.rest = Snapshot::of(rest);
        Some(receipt)
    }
}

/// The receipt of a call with this reply, where it stands.
fn receipt_of(call: &Call, answer: (Reply, At)) -> Receipt
    ensures { result ≡ record { call = call.now; reply = answer.0; at = answer.1 } }
{
    let (reply, at) = answer;
    Receipt {
        call: call.copy(),
        reply,
        at,
    }
}
