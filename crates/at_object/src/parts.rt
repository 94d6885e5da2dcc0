//! Passes taken apart, for whoever makes their calls step by step, and what both ways to make a call do with the parts.

ghost use Rattle.std.specs.Prelude.{◌≡◌, ◌<◌, [], Some, length};
ghost use Rattle.at_object.specs.Prelude.{IsOf, IsCallOn, At};
ghost use Rattle.at_object.specs.CallCounts.{with_one_call};
ghost use Rattle.at_object.specs.Calls.{CallMade, StaysWithin};
ghost use Rattle.at_object.specs.Parted.{IsCountOf, IsOfOnePass, after_one_call, pass_of};
ghost use Rattle.at_object.specs.Payments.{refusal_in, refusal_of, sent_after};

use crate::pass::Pass;
use crate::past::{Past, PastCall};
use at_board::{Board, BoardSeat};
use at_fold::Totals;
use at_ledger::{Call, Reply};
use at_log::{At, Receipt};
use std::marker::Model;
use std::mem::replace;
use std::snapshot::Snapshot;

/// How many calls were made with a pass, and for contracts alone these calls. Only the pass itself gives one, and there is one for each
/// seat, so that no call that was counted is left out where a pass that was taken apart is put together again. Only
/// `Rest::count_call` and `Rest::refuse` count one more.
#[derive(Drop)]
pub struct CallCount {
    count: u64,
    past: Snapshot<Past>,
    /// The seat and the totals when the last call was counted, when the pass last looked at all balances, or when it was made.
    last: Snapshot<BoardSeat>,
    totals: Snapshot<Totals>,
}

impl Model for CallCount {
    ghost use Rattle.at_object.specs.CallCounts.{CallCountTerms};

    ghost Value = { CallCountTerms };

    ghost view = { λ c. record {
      count = c.count;
      past = c.past.value;
      last = c.last.value;
      totals = c.totals.value;
    } };
}

impl CallCount {
    /// The count of a new pass.
    pub(crate) fn new(seat: &BoardSeat, totals: &Totals) -> CallCount
        ensures none { result.count ≡ 0 }
        ensures past { result.past ≡ [] }
        ensures of { IsCountOf result seat.now }
        ensures totals { result.totals ≡ totals.now }
    {
        CallCount {
            count: 0,
            past: Past::none(),
            last: Snapshot::of(seat),
            totals: Snapshot::of(totals),
        }
    }

    /// At the largest number it stays.
    pub(crate) fn count(&self) -> u64
        ensures { result ≡ self.now.count }
    {
        self.count
    }

    /// One more call was made and answered, which began with the one seat and has left the other and these totals.
    pub(crate) fn count_one(
        &mut self,
        start: &Snapshot<BoardSeat>,
        seat: &BoardSeat,
        totals: &Totals,
        call: &Call,
        reply: &Reply,
        at: &At,
    )
        ensures { self.new ≡ with_one_call start.now.value seat.now totals.now (record {
          call = call.now;
          reply = reply.now;
          at = at.now;
        }) self.old }
    {
        self.count = self.count.saturating_add(1);
        let made = PastCall {
            call: Snapshot::of(call),
            reply: Snapshot::of(reply),
            at: Snapshot::of(at),
            start: Snapshot::of(start),
            counted: Snapshot::of(&self.totals),
            seat: Snapshot::of(seat),
            totals: Snapshot::of(totals),
        };
        let before = replace(&mut self.past, Past::none());
        self.past = Past::with(before, &made);
        self.last = Snapshot::of(seat);
        self.totals = Snapshot::of(totals);
    }

    /// The seat has loaded more and the totals have counted more, and no call was made.
    pub(crate) fn count_look(&mut self, seat: &BoardSeat, totals: &Totals)
        ensures { self.new ≡ record self.old { last = seat.now; totals = totals.now } }
    {
        self.last = Snapshot::of(seat);
        self.totals = Snapshot::of(totals);
    }
}

/// What a pass has beside its seat.
#[derive(Drop)]
pub struct Rest {
    pub totals: Totals,
    /// How many payments from single accounts have succeeded.
    pub sent: u32,
    pub calls: CallCount,
}

impl Rest {
    /// Why the process can't pay from the account, whatever the balance. It makes no step.
    pub fn refusal(&self, board: &Board, seat: &BoardSeat, source: u32) -> Option<Reply>
        requires board { IsOf seat.now board.now }
        requires pass { IsOfOnePass seat.now self.now }
        requires source { source < length board.now.book.accounts }
        ensures { result ≡ refusal_of board.now.book (pass_of seat.now self.now) source }
    {
        seat.known();
        let book = board.book();
        if book.slot_of(source, seat.process()).is_none() {
            return Some(Reply::NotOwner);
        }
        let used_up = if book.owner_count(source) == 1 {
            self.sent == book.own_room()
        } else {
            seat.announced(source) == book.request_room()
        };
        if used_up { Some(Reply::Full) } else { None }
    }

    /// A call that is refused changes nothing but the calls. It is a payment from an account that the process can't pay from.
    pub fn refuse(
        &mut self,
        board: &Board,
        seat: &BoardSeat,
        call: &Call,
        reply: Reply,
    ) -> (Reply, At)
        requires board { IsOf seat.now board.now }
        requires pass { IsOfOnePass seat.now self.old }
        requires call { IsCallOn (length board.now.book.accounts) call.now }
        requires refused { refusal_in board.now.book (pass_of seat.now self.old) call.now
            ≡ Some reply }
        ensures reply { result.0 ≡ reply }
        ensures at { result.1 ≡ At.Previous }
        ensures rest { self.new ≡ after_one_call seat.now seat.now (record {
          call = call.now;
          reply = reply;
          at = At.Previous;
        }) self.old }
    {
        let at = At::Previous;
        let start = Snapshot::of(seat);
        self.calls
            .count_one(&start, seat, &self.totals, call, &reply, &at);
        (reply, at)
    }

    /// Counts a call that was made step by step, from the seat and the rest of one pass as they were when it began. No call is counted
    /// that wasn't made: this is the receipt of one. Nor is a call counted twice, but for a refused one: since the last count the seat
    /// has loaded what this call asks for.
    pub fn count_call(
        &mut self,
        board: &Board,
        seat: &BoardSeat,
        start: &Snapshot<BoardSeat>,
        was: &Snapshot<Rest>,
        receipt: &Receipt,
    )
        requires board { IsOf seat.now board.now }
        requires start { IsOfOnePass start.now.value was.now.value }
        requires calls { self.old.calls ≡ was.now.value.calls }
        requires call { IsCallOn (length board.now.book.accounts) receipt.now.call }
        requires made { CallMade board.now.book (pass_of start.now.value was.now.value)
            (pass_of seat.now (after_one_call start.now.value seat.now receipt.now self.old))
            receipt.now.call receipt.now }
        requires within { StaysWithin board.now.book (pass_of start.now.value was.now.value)
            (pass_of seat.now (after_one_call start.now.value seat.now receipt.now self.old))
            receipt.now.call receipt.now }
        ensures { self.new ≡ after_one_call start.now.value seat.now receipt.now self.old }
    {
        let Receipt { call, reply, at } = receipt;
        self.calls
            .count_one(start, seat, &self.totals, call, reply, at);
    }
}

impl Pass {
    /// The seat of the pass, and the rest of it. A call that is made step by step works with them.
    pub fn into_parts(self) -> (BoardSeat, Rest)
        ensures pass { pass_of result.0 result.1 ≡ self }
        ensures kept { IsOfOnePass result.0 result.1 }
    {
        let Pass { seat, rest } = self;
        (seat, rest)
    }

    /// The pass of a seat and the rest of it, whose process is between two calls.
    pub fn from_parts(seat: BoardSeat, rest: Rest) -> Pass
        requires { IsOfOnePass seat rest }
        ensures { result ≡ pass_of seat rest }
    {
        Pass { seat, rest }
    }
}

/// How many payments from single accounts have succeeded after one more.
pub fn sent_after(sent: u32, reply: &Reply) -> u32
    requires { sent < 4096 }
    ensures { result ≡ sent_after sent reply.now }
{
    match reply {
        Reply::Done => sent + 1,
        _ => sent,
    }
}
