//! A load of an owner's row, a word a turn.

ghost use Rattle.std.specs.Prelude.{◌≡◌, ◌≢◌, ◌+◌, ◌<◌, ◌↔◌, length, IfSome, IsSome};
ghost use Rattle.at_machines.specs.Prelude.{raised, SeesRequest, IsOf, slots_of, account_of, request_of, LoadsRow, row_steps};
ghost use Rattle.at_machines.specs.LoadingRow.{MakesRowLoad, NextRowLoad, row_after, row_step, row_turns, starting_row};

use crate::loading_request::LoadingRequest;
use crate::row_stage::RowStage;
use at_board::{Board, BoardSeat, BoardStep, BoardWord};
use at_requests::OpenRequest;
use std::marker::Model;
use std::snapshot::Snapshot;

/// A load of one owner's row in the making: its announced word, and at once of another owner than the caller the last request
/// that the word counts.
#[derive(Drop)]
pub(crate) struct LoadingRow {
    account: u32,
    slot: u32,
    own: OpenRequest,
    stage: RowStage,
    /// The seat at the start, for contracts alone.
    start: Snapshot<BoardSeat>,
    /// The seat after the last turn.
    mark: Snapshot<BoardSeat>,
}

impl Model for LoadingRow {
    ghost use Rattle.at_machines.specs.LoadingRow.{LoadingRowTerms};

    ghost Value = { LoadingRowTerms };

    ghost use Rattle.at_machines.specs.KeptRows.{IsLoadingRowSo, loading_row_of};

    ghost view = { loading_row_of };

    ghost invariant = { λ r. IsLoadingRowSo (loading_row_of r) r.stage };
}

impl LoadingRow {
    /// Starts a load of the row of the owner at a slot, in no step.
    pub(crate) fn start(seat: &BoardSeat, account: u32, slot: u32, own: OpenRequest) -> LoadingRow
        requires account { account < length seat.now.knows.book.accounts }
        requires slot { slot < slots_of (account_of seat.now.knows.book account) }
        requires own { SeesRequest seat.now.knows account own.slot own.number (request_of own) }
        ensures { result ≡ starting_row seat.now.knows account slot own }
    {
        seat.known();
        LoadingRow {
            account,
            slot,
            own,
            stage: RowStage::Announced,
            start: Snapshot::of(seat),
            mark: Snapshot::of(seat),
        }
    }

    pub(crate) fn account(&self) -> u32
        ensures { result ≡ self.now.account }
    {
        self.account
    }

    pub(crate) fn slot(&self) -> u32
        ensures { result ≡ self.now.slot }
    {
        self.slot
    }

    /// The caller's own request.
    pub(crate) fn own(&self) -> OpenRequest
        ensures { result ≡ self.now.own }
    {
        self.own.copy()
    }

    /// The step that the next turn makes, if some load is left.
    pub(crate) fn next(&self) -> Option<BoardStep>
        ensures { result ≡ row_step self.now.account self.now.slot self.now.next }
    {
        match &self.stage {
            RowStage::Announced => Some(BoardStep::Load(BoardWord::Announced {
                account: self.account,
                slot: self.slot,
            })),
            RowStage::Last(loading) => loading.next(),
            RowStage::Ended => None,
        }
    }

    /// Makes the next load of the row, in one step. After the last one it answers what is found there, if anything is.
    pub(crate) fn turn(
        &mut self,
        board: &Board,
        seat: &mut BoardSeat,
    ) -> Option<Option<OpenRequest>>
        requires board { IsOf seat.old board.now }
        requires mark { seat.old.knows ≡ self.old.mark }
        requires left { self.old.next ≢ NextRowLoad.nothing }
        ensures after { self.new ≡ row_after self.old seat.new.knows self.new.next }
        ensures load { MakesRowLoad board.now.book self.old seat.new.knows self.new.next }
        ensures ends { IsSome result ↔ (self.new.next ≡ NextRowLoad.nothing) }
        ensures row { IfSome result (LoadsRow self.old.start seat.new.knows self.old.account
            self.old.slot self.old.own) }
        ensures turns { IfSome result (λ found. row_turns self.old.next + 1
            ≡ row_steps self.old.own.slot self.old.slot found) }
        ensures board { IsOf seat.new board.now }
        ensures steps { seat.new.steps ≡ raised seat.old.steps 1 }
        ensures exchanges { seat.new.exchanges ≡ seat.old.exchanges }
    {
        match &mut self.stage {
            RowStage::Announced => {
                let (account, slot) = (self.account, self.slot);
                let count = board.load_announced(seat, account, slot);
                self.mark = Snapshot::of(seat);
                if slot == self.own.slot {
                    self.stage = RowStage::Ended;
                    return Some(Some(self.own.copy()));
                }
                if count == 0 {
                    self.stage = RowStage::Ended;
                    return Some(None);
                }
                self.stage = RowStage::Last(LoadingRequest::start(seat, account, slot, count - 1));
                None
            }
            RowStage::Last(loading) => {
                let last = loading.turn(board, seat);
                self.mark = Snapshot::of(seat);
                let found = last?;
                self.stage = RowStage::Ended;
                Some(Some(found))
            }
            // Some load is left, and of an ended row none is.
            RowStage::Ended => unreachable!(),
        }
    }
}
