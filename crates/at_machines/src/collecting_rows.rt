//! Collecting the rows of an account, a load a turn.

ghost use Rattle.std.specs.Prelude.{◌≡◌, ◌≢◌, ◌+◌, ◌-◌, ◌*◌, ◌≤◌, ◌↔◌, length, IfSome, IsSome};
ghost use Rattle.at_machines.specs.Prelude.{raised, HasLoadedRows, IsOf, REQUEST_WORDS, slots_of, account_of, HasAsked, AreCandidates, CollectsRows};
ghost use Rattle.at_machines.specs.CollectingRows.{MakesNextLoad, rows_after, starting_rows};
ghost use Rattle.at_machines.specs.LoadingRow.{NextRowLoad, row_step};

use crate::loading_row::LoadingRow;
use at_board::{Board, BoardSeat, BoardStep};
use at_requests::{Asked, OpenRequest};
use std::marker::Model;
use std::mem::replace;
use std::snapshot::Snapshot;

/// Collecting the rows of an account in the making: the row of each owner, in the order of the slots.
#[derive(Drop)]
pub struct CollectingRows {
    asked: Asked,
    row: LoadingRow,
    /// How many turns were made.
    made: u32,
    /// The seat at the start, for contracts alone.
    start: Snapshot<BoardSeat>,
}

impl Model for CollectingRows {
    ghost use Rattle.at_machines.specs.CollectingRows.{CollectingRowsTerms};
    ghost use Rattle.at_machines.specs.KeptRows.{IsCollectingRowsSo};

    ghost Value = { CollectingRowsTerms };

    ghost view = { λ c. record {
      start = c.start.value.knows;
      mark = c.row.mark;
      account = c.row.account;
      own = c.row.own;
      slot = c.row.slot;
      next = c.row.next;
      made = c.made;
    } };

    ghost invariant = { λ c. IsCollectingRowsSo c.start.value.knows c.row c.asked c.made };
}

impl CollectingRows {
    /// Starts collecting the rows of an account on which the seat's process has asked for this last, in no step.
    pub fn start(seat: &BoardSeat, account: u32, own: OpenRequest) -> CollectingRows
        requires { HasAsked seat.now.knows.book seat.now.knows account own }
        ensures { result ≡ starting_rows seat.now.knows account own }
    {
        seat.known();
        CollectingRows {
            asked: Asked::empty(),
            row: LoadingRow::start(seat, account, 0, own),
            made: 0,
            start: Snapshot::of(seat),
        }
    }

    /// The caller's own request.
    pub fn own(&self) -> OpenRequest
        ensures { result ≡ self.now.own }
    {
        self.row.own()
    }

    /// The step that the next turn makes, if some load is left.
    pub fn next(&self) -> Option<BoardStep>
        ensures { result ≡ row_step self.now.account self.now.slot self.now.next }
    {
        self.row.next()
    }

    /// Makes the next load, in one step. After the last one it answers the requests that were found.
    pub fn turn(&mut self, board: &Board, seat: &mut BoardSeat) -> Option<Asked>
        requires board { IsOf seat.old board.now }
        requires mark { seat.old.knows ≡ self.old.mark }
        requires left { self.old.next ≢ NextRowLoad.nothing }
        ensures after { self.new ≡ rows_after self.old seat.new.knows self.new.slot self.new.next }
        ensures load { MakesNextLoad board.now.book self.old self.new }
        ensures ends { IsSome result ↔ (self.new.next ≡ NextRowLoad.nothing) }
        ensures collected { IfSome result (λ asked. HasLoadedRows board.now.book seat.new.knows
            self.old.account self.old.own.slot) }
        ensures rows { IfSome result (CollectsRows board.now.book self.old.start seat.new.knows
            self.old.account self.old.own) }
        ensures candidates { IfSome result (AreCandidates self.old.start seat.new.knows
            self.old.account self.old.own.slot) }
        ensures own { IfSome result (λ asked. HasAsked board.now.book seat.new.knows
            self.old.account self.old.own) }
        ensures turns { IfSome result (λ asked. self.new.made
            ≡ slots_of (account_of board.now.book self.old.account)
            + REQUEST_WORDS * (length asked - 1)) }
        ensures few { IfSome result (λ asked. length asked
            ≤ slots_of (account_of board.now.book self.old.account)) }
        ensures most { self.new.made ≤ slots_of (account_of board.now.book self.old.account)
            + REQUEST_WORDS * (slots_of (account_of board.now.book self.old.account) - 1) }
        ensures board { IsOf seat.new board.now }
        ensures steps { seat.new.steps ≡ raised seat.old.steps 1 }
        ensures exchanges { seat.new.exchanges ≡ seat.old.exchanges }
    {
        let slots = board.book().slot_count(self.row.account());
        self.made += 1;
        let found = self.row.turn(board, seat)?;
        self.asked.add(found);
        let next = self.row.slot() + 1;
        if next == slots {
            return Some(replace(&mut self.asked, Asked::empty()));
        }
        self.row = LoadingRow::start(seat, self.row.account(), next, self.row.own());
        None
    }
}
