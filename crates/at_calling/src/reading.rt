//! A read, a load a turn.

ghost use Rattle.std.specs.Prelude.{◌≡◌, ◌+◌, ◌-◌, ◌<◌, ◌↔◌, IfSome, IsSome, length, sum};
ghost use Rattle.at_calling.specs.Prelude.{raised, IsOverviewOf, IsOf, HasCounted, StaysCounted, HasLoaded, snapshot_steps, IsWithin, IsWithinOneMore, FollowsLook, MakesLookLoad, first_load, look_turns_left, step_at};
ghost use Rattle.at_calling.specs.Reading.{IsReadOf, LeavesTotals};

use at_board::{Board, BoardSeat, BoardStep, Overview};
use at_fold::Totals;
use at_ledger::{Call, Reply};
use at_log::{At, Receipt};
use at_machines::Looking;
use std::marker::Model;

/// A read in the making: a look, and the balance at its cut.
#[derive(Drop)]
pub struct Reading {
    account: u32,
    looking: Looking,
}

impl Model for Reading {
    ghost use Rattle.at_calling.specs.KeptReading.{IsReadingSo};
    ghost use Rattle.at_calling.specs.Reading.{ReadingTerms};

    ghost Value = { ReadingTerms };

    ghost view = { λ r. record { account = r.account; looking = r.looking } };

    ghost invariant = { λ r. IsReadingSo r.account r.looking };
}

impl Reading {
    /// Starts a read of an account, in no step.
    pub fn start(board: &Board, seat: &BoardSeat, totals: &Totals, account: u32) -> Reading
        requires board { IsOf seat.now board.now }
        requires counted { HasCounted totals.now board.now.book seat.now.knows.seen }
        requires account { account < length board.now.book.accounts }
        ensures account { result.account ≡ account }
        ensures start { result.looking.start ≡ seat.now.knows }
        ensures mark { result.looking.mark ≡ seat.now.knows }
        ensures was { result.looking.was ≡ totals.now }
        ensures totals { result.looking.totals ≡ totals.now }
        ensures turns { result.looking.turns ≡ 0 }
        ensures left { 0 < look_turns_left result.looking.stage }
        ensures first { step_at result.looking.stage ≡ first_load }
    {
        Reading {
            account,
            looking: Looking::start(board, seat, totals),
        }
    }

    /// The step that the next turn makes, if some load is left.
    pub fn next(&self) -> Option<BoardStep>
        ensures { result ≡ step_at self.now.looking.stage }
    {
        self.looking.next()
    }

    /// Makes the next load of the look, in one step. With the last one it answers the receipt.
    pub fn turn(
        &mut self,
        board: &Board,
        seat: &mut BoardSeat,
        overview: &mut Overview,
        totals: &mut Totals,
    ) -> Option<Receipt>
        requires board { IsOf seat.old board.now }
        requires overview { IsOverviewOf overview.old board.now }
        requires mark { seat.old.knows ≡ self.old.looking.mark }
        requires totals { totals.old ≡ self.old.looking.totals }
        requires left { 0 < look_turns_left self.old.looking.stage }
        ensures account { self.new.account ≡ self.old.account }
        ensures start { self.new.looking.start ≡ self.old.looking.start }
        ensures mark { self.new.looking.mark ≡ seat.new.knows }
        ensures was { self.new.looking.was ≡ self.old.looking.was }
        ensures totals { self.new.looking.totals ≡ totals.new }
        ensures turns { self.new.looking.turns ≡ self.old.looking.turns + 1 }
        ensures load { MakesLookLoad board.now.book overview.old.seen self.old.looking.stage
            seat.old seat.new totals.new }
        ensures follows { FollowsLook board.now.book.processes self.old.looking.stage
            self.new.looking.stage }
        ensures loads { HasLoaded board.now.book self.old.looking.start seat.new.knows }
        ensures counted { StaysCounted totals.new board.now.book seat.new.knows.seen }
        ensures left { look_turns_left self.new.looking.stage
            < look_turns_left self.old.looking.stage }
        ensures so_far { IsWithin board.now.book.processes self.old.looking.was
            (length seat.new.knows.seen) self.new.looking.turns }
        ensures counting { IsWithinOneMore (snapshot_steps board.now.book.processes)
            (sum totals.new.upto - sum self.old.looking.was.upto) self.new.looking.turns }
        ensures ends { IsSome result ↔ (look_turns_left self.new.looking.stage ≡ 0) }
        ensures answer { IfSome result (IsReadOf board.now.book self.old.looking.start
            seat.new.knows self.old.account) }
        ensures leaves { IfSome result (λ r. LeavesTotals board.now.book self.old.looking.start
            seat.new.knows self.old.looking.was totals.new 0 self.new.looking.turns) }
        ensures board { IsOf seat.new board.now }
        ensures steps { seat.new.steps ≡ raised seat.old.steps 1 }
        ensures exchanges { seat.new.exchanges ≡ seat.old.exchanges }
        ensures overview { overview.new ≡ overview.old }
    {
        let cut = self.looking.turn(board, seat, overview, totals)?;
        seat.known();
        Some(Receipt {
            call: Call::Read {
                account: self.account,
            },
            reply: Reply::Balance(totals.balance(self.account)),
            at: At::Cut(cut),
        })
    }
}
