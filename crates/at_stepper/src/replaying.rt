//! Runs by a schedule.

ghost use Rattle.std.specs.Prelude.{◌≡◌, ◌⊎◌, ◌<◌, [], ◌∷◌, All, IfOk, IsTrue, OnOk, length, slice_index};
ghost use Rattle.at_stepper.specs.Prelude.{range_with_len, Legal, Whole, contents_of};
ghost use Rattle.at_stepper.specs.Callers.{IsFile};
ghost use Rattle.at_stepper.specs.InTurns.{IsReplayBy};
ghost use Rattle.at_stepper.specs.Replays.{IsSameRun, TurnAll, TurnBy, TurnInRounds};
ghost use Rattle.at_stepper.specs.Stepping.{IsOver, all_turns_left, calls_left};

use crate::stepper::Stepper;
use at_board::BoardStep;
use at_ledger::{Book, Call, Line, Reply};
use std::alloc::{AllocError, Global};

/// A turn of a process: the step that it made, which is none where its call was answered not-owner or full, the reply of the call that it
/// answered, if it did, and whether it published a record.
#[derive(Drop)]
pub struct TurnMade {
    pub process: u32,
    pub step: Option<BoardStep>,
    pub reply: Option<Reply>,
    pub published: bool,
}

/// What a run by a schedule leaves: its journal, and its turns in order. They tell when each call began and ended.
#[derive(Drop)]
pub struct Replayed {
    pub lines: Vec<Line>,
    pub turns: Vec<TurnMade>,
}

/// Makes the calls of the files on a new ledger of the book by turns: those of the schedule, and then those of processes 0, 1 and so on
/// in turn until all are idle. An entry whose process is idle by then makes no turn. All turns together are at most those that the
/// bounds of the calls allow.
pub fn replay(
    alloc: Global,
    book: &Book,
    files: Vec<Vec<Call>>,
    schedule: &[u32],
) -> Result<Replayed, AllocError>
    requires count { length files.items ≡ book.now.processes }
    requires known { All (IsFile (length book.now.accounts)) (contents_of files.items) }
    requires schedule { All (λ process. process < book.now.processes) schedule.now }
    ensures replay { IfOk result
        (IsReplayBy book.now (contents_of files.items) schedule.now) }
    ensures processes { IfOk result
        (λ r. All (λ t. t.process < book.now.processes) r.turns.items) }
    ensures legal { IfOk result (λ r. Legal book.now r.lines.items) }
    ensures whole { IfOk result (λ r. Whole (contents_of files.items) r.lines.items) }
{
    let Ok(mut stepper) = Stepper::new(alloc, book, files) else {
        return Err(AllocError);
    };
    let mut turns = Vec::new(alloc);
    make_turns(&mut stepper, book.processes(), schedule, &mut turns)?;
    match stepper.finish(alloc) {
        Ok(lines) => Ok(Replayed { lines, turns }),
        Err(_) => Err(AllocError),
    }
}

/// Makes all turns of a new run: those of the schedule, and then those of all processes in turn until all are idle.
fn make_turns(
    stepper: &mut Stepper,
    processes: u32,
    schedule: &[u32],
    turns: &mut Vec<TurnMade>,
) -> Result<(), AllocError>
    requires count { length stepper.old.callers ≡ processes }
    requires schedule { All (λ process. process < processes) schedule.now }
    requires none { turns.old.items ≡ [] }
    ensures turned { OnOk result (TurnAll schedule.now stepper.old turns.new.items stepper.new) }
    ensures over { OnOk result (IsOver stepper.new) }
    ensures same { IsSameRun stepper.old stepper.new }
{
    for process in schedule {
        turn_unless_idle(stepper, *process, turns)?;
    }
    run_out(stepper, processes, turns)?;
    Ok(())
}

/// Makes turns of processes 0, 1 and so on in turn, again and again, until all are idle.
fn run_out(
    stepper: &mut Stepper,
    processes: u32,
    turns: &mut Vec<TurnMade>,
) -> Result<(), AllocError>
    requires count { length stepper.old.callers ≡ processes }
    ensures turned { OnOk result (TurnInRounds processes turns.old.items stepper.old
        turns.new.items stepper.new) }
    ensures over { OnOk result (IsOver stepper.new) }
    ensures same { IsSameRun stepper.old stepper.new }
{
    while !is_over(stepper, processes) {
        make_round(stepper, processes, turns)?;
    }
    Ok(())
}

/// Whether all processes are idle.
fn is_over(stepper: &Stepper, processes: u32) -> bool
    requires { length stepper.now.callers ≡ processes }
    ensures over { IsTrue result → IsOver stepper.now }
    ensures some { IsOver stepper.now → IsTrue result }
{
    for process in 0..processes {
        if !stepper.idle(process) {
            return false;
        }
    }
    true
}

/// Makes a turn of each process that isn't idle by then.
fn make_round(
    stepper: &mut Stepper,
    processes: u32,
    turns: &mut Vec<TurnMade>,
) -> Result<(), AllocError>
    requires count { length stepper.old.callers ≡ processes }
    ensures turned { OnOk result (TurnBy (range_with_len 0 processes) turns.old.items stepper.old
        turns.new.items stepper.new) }
    ensures left { OnOk result (IsOver stepper.old
        ⊎ (all_turns_left stepper.new < all_turns_left stepper.old)) }
    ensures same { IsSameRun stepper.old stepper.new }
{
    for process in 0..processes {
        turn_unless_idle(stepper, process, turns)?;
    }
    Ok(())
}

/// Makes the process's next turn, unless it is idle.
fn turn_unless_idle(
    stepper: &mut Stepper,
    process: u32,
    turns: &mut Vec<TurnMade>,
) -> Result<(), AllocError>
    requires { process < length stepper.old.callers }
    ensures turned { OnOk result (TurnBy (process ∷ []) turns.old.items stepper.old
        turns.new.items stepper.new) }
    ensures idle { slice_index (calls_left stepper.old) process ≡ 0
        → stepper.new ≡ stepper.old }
    ensures left { 0 < slice_index (calls_left stepper.old) process
        → all_turns_left stepper.new < all_turns_left stepper.old }
    ensures same { IsSameRun stepper.old stepper.new }
{
    if stepper.idle(process) {
        return Ok(());
    }
    turns.push(stepper.make_turn(process))?;
    Ok(())
}
