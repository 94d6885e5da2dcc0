//! What a run is made with.

ghost use Rattle.std.specs.Prelude.{◌≡◌, ◌<◌, ◌==◌, length, slice_index};
ghost use Rattle.at_stepper.specs.Prelude.{IsOverviewOf};
ghost use Rattle.at_stepper.specs.KeptStepping.{AreAllIn, AreCallersOn, HaveJustTheirOwn, IsRunSo, stepper_terms};
ghost use Rattle.at_stepper.specs.Replays.{MakesTurn};
ghost use Rattle.at_stepper.specs.Stepping.{IsNextStep, TurnsOne, calls_left};

use crate::caller::Caller;
use crate::replaying::TurnMade;
use crate::turned::Turned;
use at_board::{Board, BoardStep, Overview};
use at_object::Ledger;

/// The ledger, the callers of all processes, in order, and what their seats have seen, put together: that is all that is published.
#[derive(Drop)]
pub(crate) struct Run {
    pub(crate) ledger: Ledger,
    pub(crate) callers: Vec<Caller>,
    pub(crate) overview: Overview,
}

impl Run {
    /// Whether the process has answered all its calls.
    pub(crate) fn is_idle(&self, process: u32) -> bool
        requires { process < length self.now.callers.items }
        ensures { result ≡ (slice_index (calls_left (stepper_terms self.now)) process == 0) }
    {
        self.callers[process as usize].is_idle()
    }

    /// The step that the process's next turn makes.
    pub(crate) fn next(&self, process: u32) -> Option<BoardStep>
        requires run { IsRunSo self.now }
        requires left { 0 < slice_index (calls_left (stepper_terms self.now)) process }
        ensures { IsNextStep process (stepper_terms self.now) result }
    {
        self.callers[process as usize].next(self.ledger.board())
    }

    /// Makes the process's next turn. Where this begins a call, the process's seat has seen first what all seats have.
    pub(crate) fn turn(&mut self, process: u32) -> Turned
        requires run { IsRunSo self.old }
        requires left { 0 < slice_index (calls_left (stepper_terms self.old)) process }
        ensures turned { TurnsOne process result (stepper_terms self.old) (stepper_terms self.new) }
        ensures run { IsRunSo self.new }
    {
        let board = self.ledger.board();
        let caller = &mut self.callers[process as usize];
        let turned = caller.next_turn(board, &mut self.overview);
        // Right here: no other seat has made a step since the overview took all of them in, so with this one it has all again.
        caller.show(board, &mut self.overview);
        show_all(board, &mut self.callers, &mut self.overview);
        turned
    }

    /// The same turn, by what it has done.
    pub(crate) fn make_turn(&mut self, process: u32) -> TurnMade
        requires run { IsRunSo self.old }
        requires left { 0 < slice_index (calls_left (stepper_terms self.old)) process }
        ensures made { MakesTurn process (stepper_terms self.old) (stepper_terms self.new) result }
        ensures run { IsRunSo self.new }
    {
        let step = self.next(process);
        let before = self.callers[process as usize].published();
        let reply = self.turn(process).reply();
        let published = before < self.callers[process as usize].published();
        TurnMade {
            process,
            step,
            reply,
            published,
        }
    }
}

/// Has an overview take in each seat once more, which it has already. A seat has seen all that its process has published, so the overview
/// has of each process just the records that its own seat has.
fn show_all(board: &Board, callers: &mut [Caller], overview: &mut Overview)
    requires callers { AreCallersOn board.now callers.old }
    requires overview { IsOverviewOf overview.old board.now }
    requires seen { AreAllIn callers.old overview.old.seen }
    ensures own { HaveJustTheirOwn callers.old overview.old.seen }
    ensures same { overview.new ≡ overview.old }
    ensures callers { callers.new ≡ callers.old }
{
    for process in 0..callers.len() {
        callers[process].show(board, overview);
    }
}
