//! Where a call in the making stands.

ghost use Rattle.std.specs.Prelude.{◌≡◌, ◌<◌, None, Some, length, true};
ghost use Rattle.at_calling.specs.Prelude.{IsOf, is_shared, is_single, account_of, AreTargetsOn, IsCallOn, payout_of, IsOfOnePass, pass_of, refusal_in, refusal_of};
ghost use Rattle.at_calling.specs.Calling.{IsWay, StartsFrom, call_turns_left, exchanges_made, first_step, next_step, steps_made};

use crate::paying_alone::PayingAlone;
use crate::paying_shared::PayingShared;
use crate::reading::Reading;
use at_board::{Board, BoardSeat};
use at_ledger::{Call, Reply, Targets};
use at_object::Rest;

/// What a call's next turn goes on with.
#[derive(Drop)]
pub(crate) enum CallStage {
    /// The refusal, which makes no step.
    Refuse(Reply),
    /// Nothing: the call was refused.
    Refused,
    /// The read.
    Read(Reading),
    /// The payment by the account's one owner.
    PayAlone(PayingAlone),
    /// The payment by one of the account's owners.
    PayShared(PayingShared),
}

impl CallStage {
    /// What a call begins with, by what it is. It makes no step.
    pub(crate) fn first(board: &Board, seat: &BoardSeat, rest: &Rest, call: &Call) -> CallStage
        requires board { IsOf seat.now board.now }
        requires pass { IsOfOnePass seat.now rest.now }
        requires call { IsCallOn (length board.now.book.accounts) call.now }
        ensures way { IsWay board.now.book (pass_of seat.now rest.now) call.now result }
        ensures starts { StartsFrom seat.now.knows rest.now.totals result }
        ensures turns { steps_made result ≡ 0 }
        ensures exchanges { exchanges_made result ≡ 0 }
        ensures left { 0 < call_turns_left board.now.book result }
        ensures first { next_step board.now.book result ≡ first_step
            (refusal_in board.now.book (pass_of seat.now rest.now) call.now) }
    {
        seat.known();
        match call.payout() {
            Some((from, targets)) => CallStage::payment(board, seat, rest, call, from, targets),
            None => {
                let account = call.first_account();
                CallStage::Read(Reading::start(board, seat, &rest.totals, account))
            }
        }
    }

    /// What a payment begins with: not-owner comes first, then full, and then it matters how many own the account.
    fn payment(
        board: &Board,
        seat: &BoardSeat,
        rest: &Rest,
        call: &Call,
        from: u32,
        targets: Targets,
    ) -> CallStage
        requires board { IsOf seat.now board.now }
        requires pass { IsOfOnePass seat.now rest.now }
        requires payout { payout_of call.now ≡ Some (from, targets) }
        requires from { from < length board.now.book.accounts }
        requires targets { AreTargetsOn (length board.now.book.accounts) targets }
        ensures way { IsWay board.now.book (pass_of seat.now rest.now) call.now result }
        ensures starts { StartsFrom seat.now.knows rest.now.totals result }
        ensures turns { steps_made result ≡ 0 }
        ensures exchanges { exchanges_made result ≡ 0 }
        ensures left { 0 < call_turns_left board.now.book result }
        ensures first { next_step board.now.book result ≡ first_step
            (refusal_in board.now.book (pass_of seat.now rest.now) call.now) }
    {
        seat.known();
        match rest.refusal(board, seat, from) {
            Some(reply) => CallStage::Refuse(reply),
            None if board.book().owner_count(from) == 1 => {
                CallStage::alone(board, seat, rest, call, from, targets)
            }
            None => CallStage::shared(board, seat, rest, call, from, targets),
        }
    }

    /// A payment by the account's one owner.
    fn alone(
        board: &Board,
        seat: &BoardSeat,
        rest: &Rest,
        call: &Call,
        from: u32,
        targets: Targets,
    ) -> CallStage
        requires board { IsOf seat.now board.now }
        requires pass { IsOfOnePass seat.now rest.now }
        requires payout { payout_of call.now ≡ Some (from, targets) }
        requires from { from < length board.now.book.accounts }
        requires targets { AreTargetsOn (length board.now.book.accounts) targets }
        requires may { refusal_of board.now.book (pass_of seat.now rest.now) from ≡ None }
        requires single { is_single (account_of board.now.book from) ≡ true }
        ensures way { IsWay board.now.book (pass_of seat.now rest.now) call.now result }
        ensures starts { StartsFrom seat.now.knows rest.now.totals result }
        ensures turns { steps_made result ≡ 0 }
        ensures exchanges { exchanges_made result ≡ 0 }
        ensures left { 0 < call_turns_left board.now.book result }
        ensures first { next_step board.now.book result ≡ first_step
            (refusal_in board.now.book (pass_of seat.now rest.now) call.now) }
    {
        seat.known();
        let paying = PayingAlone::start(board, seat, &rest.totals, from, targets);
        CallStage::PayAlone(paying)
    }

    /// A payment by one of the account's owners.
    fn shared(
        board: &Board,
        seat: &BoardSeat,
        rest: &Rest,
        call: &Call,
        from: u32,
        targets: Targets,
    ) -> CallStage
        requires board { IsOf seat.now board.now }
        requires pass { IsOfOnePass seat.now rest.now }
        requires payout { payout_of call.now ≡ Some (from, targets) }
        requires from { from < length board.now.book.accounts }
        requires targets { AreTargetsOn (length board.now.book.accounts) targets }
        requires may { refusal_of board.now.book (pass_of seat.now rest.now) from ≡ None }
        requires shared { is_shared (account_of board.now.book from) ≡ true }
        ensures way { IsWay board.now.book (pass_of seat.now rest.now) call.now result }
        ensures starts { StartsFrom seat.now.knows rest.now.totals result }
        ensures turns { steps_made result ≡ 0 }
        ensures exchanges { exchanges_made result ≡ 0 }
        ensures left { 0 < call_turns_left board.now.book result }
        ensures first { next_step board.now.book result ≡ first_step
            (refusal_in board.now.book (pass_of seat.now rest.now) call.now) }
    {
        seat.known();
        let paying = PayingShared::start(board, seat, &rest.totals, from, targets);
        CallStage::PayShared(paying)
    }
}
