//! The journal of a run.

ghost use Rattle.std.specs.Prelude.{◌≡◌, All, IfErr, IfOk, length};
ghost use Rattle.at_stepper.specs.Prelude.{Legal, Whole, contents_of, HasMemoryFor};
ghost use Rattle.at_stepper.specs.Callers.{CallerTerms, calls_left_of};
ghost use Rattle.at_stepper.specs.InTurns.{IsJournalOf};
ghost use Rattle.at_stepper.specs.KeptStepping.{AreSplit, IsClosedSo, IsEndedSo, IsProgressSo, IsRunSo, run_in, stepper_terms};
ghost use Rattle.at_stepper.specs.Stepping.{IsOver, files_of};

use crate::caller::Caller;
use crate::progress::{ClosedRun, EndedRun, Progress};
use crate::run::Run;
use crate::stepper::Stepper;
use at_journal::journal;
use at_ledger::Line;
use at_log::Receipt;
use at_object::Pass;
use std::alloc::{AllocError, Global};
use std::snapshot::Snapshot;

/// There was no memory for the journal. The run comes back as it was, and may be finished again.
#[derive(Drop)]
pub struct FinishRefused {
    pub stepper: Stepper,
}

impl Stepper {
    /// Closes the ledger of a run whose calls are all answered, and answers its journal: each call of the files as a line, in one order
    /// in which the ledger answers each as it was answered. By the turns that led to the run its lines are linearizable, in the sense of
    /// Herlihy and Wing (TOPLAS 1990). Takes time in proportion to the number of calls and records.
    pub fn finish(self, alloc: Global) -> Result<Vec<Line>, FinishRefused>
        requires over { IsOver self }
        ensures journal { IfOk result (λ lines. IsJournalOf self lines.items) }
        ensures legal { IfOk result (λ lines. Legal self.ledger.book lines.items) }
        ensures whole { IfOk result (λ lines. Whole (files_of self) lines.items) }
        ensures refused { IfErr result (λ r. r.stepper ≡ self) }
    {
        let Stepper { progress } = self;
        match progress {
            Progress::Running(run) => match ended(alloc, run) {
                Ok(ended) => finish_ended(alloc, ended),
                Err(run) => Err(refused(Progress::Running(run))),
            },
            Progress::Ended(ended) => finish_ended(alloc, ended),
            Progress::Closed(over) => finish_closed(alloc, over),
        }
    }
}

/// The run comes back as it was.
fn refused(progress: Progress) -> FinishRefused
    requires { IsProgressSo progress }
    ensures { result.stepper ≡ stepper_terms (run_in progress) }
{
    FinishRefused {
        stepper: Stepper { progress },
    }
}

/// Closes the ledger and answers the journal, of a run whose passes and receipts are put together.
fn finish_ended(alloc: Global, ended: EndedRun) -> Result<Vec<Line>, FinishRefused>
    requires { IsEndedSo ended }
    ensures journal { IfOk result (λ lines. IsJournalOf
        (stepper_terms ended.run.value) lines.items) }
    ensures legal { IfOk result (λ lines. Legal ended.run.value.ledger.book lines.items) }
    ensures whole { IfOk result (λ lines. Whole
        (files_of (stepper_terms ended.run.value)) lines.items) }
    ensures refused { IfErr result (λ r. r.stepper ≡ stepper_terms ended.run.value) }
{
    match closed(alloc, ended) {
        Ok(over) => finish_closed(alloc, over),
        Err(ended) => Err(refused(Progress::Ended(ended))),
    }
}

/// Answers the journal of a run whose ledger is closed.
fn finish_closed(alloc: Global, over: ClosedRun) -> Result<Vec<Line>, FinishRefused>
    requires { IsClosedSo over }
    ensures journal { IfOk result (λ lines. IsJournalOf
        (stepper_terms over.run.value) lines.items) }
    ensures legal { IfOk result (λ lines. Legal over.run.value.ledger.book lines.items) }
    ensures whole { IfOk result (λ lines. Whole
        (files_of (stepper_terms over.run.value)) lines.items) }
    ensures refused { IfErr result (λ r. r.stepper ≡ stepper_terms over.run.value) }
{
    match journal(alloc, over.closed.book(), over.closed.closing()) {
        Ok(lines) => Ok(lines),
        Err(_) => Err(refused(Progress::Closed(over))),
    }
}

/// Puts the passes and the receipts of a run together, for which all memory is taken first. Where there is none the run comes back.
fn ended(alloc: Global, run: Run) -> Result<EndedRun, Run>
    requires run { IsRunSo run }
    requires over { IsOver (stepper_terms run) }
    ensures ended { IfOk result IsEndedSo }
    ensures run { IfOk result (λ ended. ended.run.value ≡ run) }
    ensures refused { IfErr result (λ r. r ≡ run) }
{
    let Ok((passes, receipts)) = rooms(alloc, run.callers.len()) else {
        return Err(run);
    };
    let was = Snapshot::of(&run);
    let Run {
        ledger,
        callers,
        overview: _,
    } = run;
    let (passes, receipts) = parts(callers, passes, receipts);
    Ok(EndedRun {
        ledger,
        passes,
        receipts,
        run: was,
    })
}

/// Two empty lists, with the memory for so many passes and so many lists of receipts.
fn rooms(alloc: Global, count: usize) -> Result<(Vec<Pass>, Vec<Vec<Receipt>>), AllocError>
    ensures passes { IfOk result (λ r. HasMemoryFor r.0 count) }
    ensures receipts { IfOk result (λ r. HasMemoryFor r.1 count) }
{
    Ok((
        Vec::with_capacity(alloc, count)?,
        Vec::with_capacity(alloc, count)?,
    ))
}

/// The passes and the receipts of callers that have answered all their calls, in memory that was taken before.
fn parts(
    callers: Vec<Caller>,
    mut passes: Vec<Pass>,
    mut receipts: Vec<Vec<Receipt>>,
) -> (Vec<Pass>, Vec<Vec<Receipt>>)
    requires idle { All (λ (caller : CallerTerms). calls_left_of caller ≡ 0) callers.items }
    requires passes { HasMemoryFor passes (length callers.items) }
    requires receipts { HasMemoryFor receipts (length callers.items) }
    ensures { AreSplit callers.items result.0.items (contents_of result.1.items) }
{
    for caller in callers {
        let (pass, list) = caller.split();
        passes.push_reserved(pass);
        receipts.push_reserved(list);
    }
    (passes, receipts)
}

/// Closes the ledger. Where there is no memory for it, all comes back.
fn closed(alloc: Global, ended: EndedRun) -> Result<ClosedRun, EndedRun>
    requires { IsEndedSo ended }
    ensures closed { IfOk result IsClosedSo }
    ensures run { IfOk result (λ over. over.run.value ≡ ended.run.value) }
    ensures refused { IfErr result IsEndedSo }
    ensures run_refused { IfErr result (λ r. r.run.value ≡ ended.run.value) }
{
    let EndedRun {
        ledger,
        passes,
        receipts,
        run,
    } = ended;
    match ledger.close(alloc, passes, receipts) {
        Ok(closed) => Ok(ClosedRun { closed, run }),
        Err(refused) => Err(EndedRun {
            ledger: refused.ledger,
            passes: refused.passes,
            receipts: refused.receipts,
            run,
        }),
    }
}
