//! Runs of the calls of all processes by turns.

ghost use Rattle.std.specs.Prelude.{◌≡◌, ◌<◌, ◌==◌, All, IfErr, IfOk, length, slice_index};
ghost use Rattle.at_stepper.specs.Prelude.{contents_of};
ghost use Rattle.at_stepper.specs.Callers.{IsFile};
ghost use Rattle.at_stepper.specs.Replays.{MakesTurn};
ghost use Rattle.at_stepper.specs.Stepping.{IsNewStepper, IsNextStep, TurnsOne, calls_left};

use crate::beginning::{memory_for, run_of};
use crate::progress::Progress;
use crate::replaying::TurnMade;
use crate::turned::Turned;
use at_board::BoardStep;
use at_ledger::{Book, Call};
use std::alloc::Global;
use std::marker::Model;

/// A run of all calls of some files on one ledger, in which each turn makes the next step of a process that the caller picks. When all
/// calls are answered, `finish` answers the journal.
#[derive(Drop)]
pub struct Stepper {
    pub(crate) progress: Progress,
}

impl Model for Stepper {
    ghost use Rattle.at_stepper.specs.KeptStepping.{IsProgressSo, run_in, stepper_terms};
    ghost use Rattle.at_stepper.specs.Stepping.{StepperTerms};

    ghost Value = { StepperTerms };

    ghost view = { λ s. stepper_terms (run_in s.progress) };

    ghost invariant = { λ s. IsProgressSo s.progress };
}

/// There was no memory for a run. The files come back as they were.
#[derive(Drop)]
pub struct StepperRefused {
    pub files: Vec<Vec<Call>>,
}

impl Stepper {
    /// A run of the files on a new ledger of the book, of which no turn is made yet. Takes the memory of all turns: for the board, and
    /// for the receipts of all calls. What it takes grows with the book and the calls.
    pub fn new(alloc: Global, book: &Book, files: Vec<Vec<Call>>) -> Result<Stepper, StepperRefused>
        requires count { length files.items ≡ book.now.processes }
        requires known { All (IsFile (length book.now.accounts)) (contents_of files.items) }
        ensures ok { IfOk result (IsNewStepper book.now (contents_of files.items)) }
        ensures refused { IfErr result (λ r. r.files.items ≡ files.items) }
    {
        book.known();
        let Ok(memory) = memory_for(alloc, book, files.as_slice()) else {
            return Err(StepperRefused { files });
        };
        Ok(Stepper {
            progress: Progress::Running(run_of(memory, files)),
        })
    }

    /// Whether the process has answered all its calls. It makes no step.
    pub fn idle(&self, process: u32) -> bool
        requires { process < length self.now.callers }
        ensures { result ≡ (slice_index (calls_left self.now) process == 0) }
    {
        match &self.progress {
            Progress::Running(run) => run.is_idle(process),
            Progress::Ended(_) | Progress::Closed(_) => true,
        }
    }

    /// The step that the process's next turn makes: none where its call is answered not-owner or full. It makes no step.
    pub fn next(&self, process: u32) -> Option<BoardStep>
        requires left { 0 < slice_index (calls_left self.now) process }
        ensures { IsNextStep process self.now result }
    {
        match &self.progress {
            Progress::Running(run) => run.next(process),
            // All calls of such a run are answered.
            Progress::Ended(_) | Progress::Closed(_) => unreachable!(),
        }
    }

    /// Makes the process's next turn: one step of the board, or none where its call is answered not-owner or full. The first turn of a call
    /// begins it: the process's seat has seen before, in no step, all that is published. Its last turn answers its receipt. The work is that
    /// of one step, of a copy of the receipt where there is one, and of a look at what each seat has seen. It takes no memory.
    pub fn turn(&mut self, process: u32) -> Turned
        requires left { 0 < slice_index (calls_left self.old) process }
        ensures turned { TurnsOne process result self.old self.new }
    {
        match &mut self.progress {
            Progress::Running(run) => run.turn(process),
            // All calls of such a run are answered.
            Progress::Ended(_) | Progress::Closed(_) => unreachable!(),
        }
    }

    /// The same turn, by what it has done.
    pub(crate) fn make_turn(&mut self, process: u32) -> TurnMade
        requires left { 0 < slice_index (calls_left self.old) process }
        ensures { MakesTurn process self.old self.new result }
    {
        match &mut self.progress {
            Progress::Running(run) => run.make_turn(process),
            // All calls of such a run are answered.
            Progress::Ended(_) | Progress::Closed(_) => unreachable!(),
        }
    }
}
