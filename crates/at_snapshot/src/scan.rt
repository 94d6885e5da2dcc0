//! Scans, made turn by turn.

ghost use Rattle.std.specs.Prelude.{◌≡◌, ◌+◌};
ghost use Rattle.at_snapshot.specs.Prelude.{raised, BookTerms, IsOf};
ghost use Rattle.at_snapshot.specs.Collected.{IsCollect, collect_of};
ghost use Rattle.at_snapshot.specs.Scans.{IsScanOf, SeesOwnRecords, scan_after, starting_scan};
ghost use Rattle.at_snapshot.specs.Snapshots.{IsSnapshot, OnCounts};
ghost use Rattle.at_snapshot.specs.Turns.{IsAnswer, view_steps};

use crate::collects::{Collects, add_collect, collect, compare};
use at_base::Counts;
use at_board::{Board, BoardSeat};
use std::marker::Model;
use std::snapshot::Snapshot;

/// What a turn of a scan answers.
#[derive(Drop)]
pub enum Turn {
    /// The collect equals the one before it, and these are its counts.
    Clean(Counts),
    /// The view of the last record of a process that published twice.
    Borrowed(Counts),
    /// The scan isn't done.
    Again,
}

/// A snapshot in the making, of one seat, which publishes nothing meanwhile.
#[derive(Drop)]
pub struct Scan {
    pub(crate) collects: Option<Collects>,
    /// The seat at the start, for contracts alone. It had seen all records of its own process.
    pub(crate) start: Snapshot<BoardSeat>,
    /// The seat at the end of the last collect.
    pub(crate) mark: Snapshot<BoardSeat>,
}

impl Model for Scan {
    ghost use Rattle.at_snapshot.specs.Scans.{ScanTerms, SeesOwnRecords};

    ghost Value = { ScanTerms };

    ghost view = { λ s. record {
      start = s.start.value.knows;
      mark = s.mark.value.knows;
      collects = s.collects;
    } };

    ghost invariant = { λ s. SeesOwnRecords s.start.value.knows };
}

impl Scan {
    /// Starts a scan of a seat, in no step.
    pub fn start(seat: &BoardSeat) -> Scan
        ensures start { result ≡ starting_scan seat.now.knows }
        ensures scan { (b : BookTerms) → IsScanOf b result seat.now.knows }
    {
        seat.known();
        Scan {
            collects: None,
            start: Snapshot::of(seat),
            mark: Snapshot::of(seat),
        }
    }

    /// Makes one collect and compares it with those before: `n` steps of `n` processes, and `n` more where it borrows.
    pub fn turn(&mut self, board: &Board, seat: &mut BoardSeat) -> Turn
        requires board { IsOf seat.old board.now }
        requires scan { IsScanOf board.now.book self.old seat.old.knows }
        ensures collect { IsCollect board.now.book seat.old.knows seat.new.knows }
        ensures start { SeesOwnRecords self.old.start }
        ensures after { self.new ≡ scan_after self.old seat.new.knows }
        ensures scan { IsScanOf board.now.book self.new seat.new.knows }
        ensures answer { IsAnswer self.old seat.new.knows result }
        ensures snapshot { OnCounts result (IsSnapshot board.now.book self.old.start
            seat.new.knows) }
        ensures board { IsOf seat.new board.now }
        ensures steps { seat.new.steps ≡ raised seat.old.steps (board.now.book.processes
            + view_steps board.now.book.processes result) }
        ensures exchanges { seat.new.exchanges ≡ seat.old.exchanges }
    {
        seat.known();
        let now = collect(board, seat);
        self.mark = Snapshot::of(seat);
        let verdict = compare(&self.collects, &now, seat.process());
        let answer = verdict.answer(board, seat, &now);
        add_collect(&mut self.collects, now);
        answer
    }
}
