//! A collect, a load a turn.

ghost use Rattle.std.specs.Prelude.{◌≡◌, ◌+◌, ◌^◌, ◌<◌, ◌↔◌, IfSome, IsSome};
ghost use Rattle.at_machines.specs.Prelude.{raised, IsOverviewOf, IsOf, LoadsLength, IsPrefix, IsCollect, collect_of};
ghost use Rattle.at_machines.specs.Collecting.{LoadsLengthOf, collect_step, collecting_after, starting_collecting};

use at_base::Counts;
use at_board::{Board, BoardSeat, BoardStep, BoardWord, Overview};
use std::marker::Model;
use std::snapshot::Snapshot;

/// A collect in the making: a load of each length, in the order of the processes.
#[derive(Drop)]
pub struct Collecting {
    counts: Counts,
    loaded: u32,
    /// The seat at the start, for contracts alone.
    start: Snapshot<BoardSeat>,
    /// The seat after the last turn.
    mark: Snapshot<BoardSeat>,
}

impl Model for Collecting {
    ghost use Rattle.at_machines.specs.Collecting.{CollectingTerms};

    ghost Value = { CollectingTerms };

    ghost use Rattle.at_machines.specs.Kept.{IsCollectingSo, collecting_of};

    ghost view = { collecting_of };

    ghost invariant = { λ c. IsCollectingSo (collecting_of c) c.counts };
}

impl Collecting {
    /// Starts a collect of a seat, in no step.
    pub fn start(board: &Board, seat: &BoardSeat) -> Collecting
        requires { IsOf seat.now board.now }
        ensures { result ≡ starting_collecting seat.now.knows }
    {
        board.book().known();
        seat.known();
        Collecting {
            counts: Counts::zeros(board.book().processes()),
            loaded: 0,
            start: Snapshot::of(seat),
            mark: Snapshot::of(seat),
        }
    }

    /// The step that the next turn makes, if some length is left.
    pub fn next(&self) -> Option<BoardStep>
        ensures { result ≡ collect_step self.now }
    {
        if self.loaded == self.counts.len() {
            return None;
        }
        Some(BoardStep::Load(BoardWord::Length {
            process: self.loaded,
        }))
    }

    /// Loads the length of the next process, in one step, after it has taken in what the overview has. After the last one it answers
    /// the counts.
    pub fn turn(
        &mut self,
        board: &Board,
        seat: &mut BoardSeat,
        overview: &mut Overview,
    ) -> Option<Counts>
        requires board { IsOf seat.old board.now }
        requires overview { IsOverviewOf overview.old board.now }
        requires mark { seat.old.knows ≡ self.old.mark }
        requires left { self.old.loaded < board.now.book.processes }
        ensures after { self.new ≡ collecting_after self.old seat.new.knows }
        ensures load { LoadsLengthOf board.now.book seat.old.knows seat.new.knows self.old.loaded }
        ensures told { IsPrefix overview.old.seen seat.new.knows.seen }
        ensures ends { IsSome result ↔ (self.new.loaded ≡ board.now.book.processes) }
        ensures collect { IfSome result (λ counts. IsCollect board.now.book self.old.start
            seat.new.knows) }
        ensures counts { IfSome result (λ counts. counts ≡ collect_of seat.new.knows) }
        ensures board { IsOf seat.new board.now }
        ensures steps { seat.new.steps ≡ raised seat.old.steps 1 }
        ensures exchanges { seat.new.exchanges ≡ seat.old.exchanges }
        ensures overview { overview.new ≡ overview.old }
    {
        board.book().known();
        seat.known();
        let count = load_after(board, seat, overview, self.loaded);
        self.counts.set(self.loaded, count);
        self.loaded += 1;
        self.mark = Snapshot::of(seat);
        if self.loaded < board.book().processes() {
            return None;
        }
        Some(self.counts.copy())
    }
}

/// Loads the length of a process, in one step. The seat belongs to a caller that has all seats, and loads a length only after it
/// knows what they have seen: so no one can tell that the load came before what another of them did.
fn load_after(board: &Board, seat: &mut BoardSeat, overview: &mut Overview, process: u32) -> u32
    requires board { IsOf seat.old board.now }
    requires overview { IsOverviewOf overview.old board.now }
    requires process { process < board.now.book.processes }
    ensures told { LoadsLength board.now.book seat.old.knows seat.new.knows process result }
    ensures small { result < 2 ^ 16 }
    ensures more { IsPrefix overview.old.seen seat.new.knows.seen }
    ensures board { seat.new.board ≡ seat.old.board }
    ensures steps { seat.new.steps ≡ raised seat.old.steps 1 }
    ensures exchanges { seat.new.exchanges ≡ seat.old.exchanges }
    ensures overview { overview.new ≡ overview.old }
{
    board.learn_overview(seat, overview);
    board.load_length(seat, process)
}
