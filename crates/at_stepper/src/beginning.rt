//! What a run starts with.

ghost use Rattle.std.specs.Prelude.{◌≡◌, ℕ, ◌<◌, All, IfOk, [], length, slice_index_or};
ghost use Rattle.at_stepper.specs.Prelude.{IsOverviewOf, IsOf, contents_of, HasMemoryFor, AreNewPasses};
ghost use Rattle.at_stepper.specs.Callers.{CallerTerms, IsFile};
ghost use Rattle.at_stepper.specs.KeptStepping.{AreStartsFor, passes_in};
ghost use Rattle.at_stepper.specs.Stepping.{AreBegunCallers};

use crate::caller::{Caller, Start};
use crate::run::Run;
use at_board::Overview;
use at_ledger::{Book, Call};
use at_object::{Ledger, Pass};
use std::alloc::{AllocError, Global};

/// What a run takes memory for: the ledger, what each caller starts with, and the list of the callers.
#[derive(Drop)]
pub(crate) struct Memory {
    pub(crate) ledger: Ledger,
    pub(crate) starts: Vec<Start>,
    pub(crate) callers: Vec<Caller>,
}

/// All memory of a run of the files.
pub(crate) fn memory_for(
    alloc: Global,
    book: &Book,
    files: &[Vec<Call>],
) -> Result<Memory, AllocError>
    requires count { length files.now ≡ book.now.processes }
    ensures book { IfOk result (λ m. m.ledger.book ≡ book.now) }
    ensures passes { IfOk result (λ m. AreNewPasses m.ledger (passes_in m.starts.items)) }
    ensures rooms { IfOk result (λ m. AreStartsFor (contents_of files.now) m.starts.items) }
    ensures room { IfOk result (λ m. HasMemoryFor m.callers (length files.now)) }
{
    let (ledger, passes) = Ledger::new(alloc, book)?;
    Ok(Memory {
        ledger,
        starts: starts_for(alloc, passes, files)?,
        callers: Vec::with_capacity(alloc, files.len())?,
    })
}

/// What each caller starts with: its pass, and the memory for a receipt of each call of its file.
fn starts_for(
    alloc: Global,
    passes: Vec<Pass>,
    files: &[Vec<Call>],
) -> Result<Vec<Start>, AllocError>
    requires count { length passes.items ≡ length files.now }
    ensures passes { IfOk result (λ starts. passes_in starts.items ≡ passes.items) }
    ensures rooms { IfOk result (λ starts. AreStartsFor (contents_of files.now) starts.items) }
{
    let mut starts = Vec::with_capacity(alloc, files.len())?;
    for pass in passes {
        let calls = files[starts.len()].len();
        starts.push(Start {
            pass,
            receipts: Vec::with_capacity(alloc, calls)?,
        })?;
    }
    Ok(starts)
}

/// The run of the files, in memory that was taken before. No turn of it is made.
pub(crate) fn run_of(memory: Memory, files: Vec<Vec<Call>>) -> Run
    requires passes { AreNewPasses memory.ledger (passes_in memory.starts.items) }
    requires rooms { AreStartsFor (contents_of files.items) memory.starts.items }
    requires known { All (IsFile (length memory.ledger.book.accounts)) (contents_of files.items) }
    requires room { HasMemoryFor memory.callers (length files.items) }
    requires some { 0 < length files.items }
    ensures ledger { result.ledger ≡ memory.ledger }
    ensures callers { AreBegunCallers memory.ledger (contents_of files.items) result.callers.items }
    ensures overview { IsOverviewOf result.overview memory.ledger }
    ensures unpublished { result.overview.seen ≡ [] }
{
    let Memory {
        ledger,
        starts,
        mut callers,
    } = memory;
    let mut others = starts.into_iter();
    for calls in files {
        let Some(start) = others.next() else {
            // There is a start for each file.
            unreachable!()
        };
        callers.push_reserved(Caller::new(start, calls));
    }
    let overview = first_overview(&ledger, &mut callers);
    Run {
        ledger,
        callers,
        overview,
    }
}

/// The overview of the first caller. Where no seat has seen anything yet, that is the overview of all.
fn first_overview(ledger: &Ledger, callers: &mut [Caller]) -> Overview
    requires some { 0 < length callers.old }
    requires board { (d : CallerTerms) → IsOf (slice_index_or callers.old 0 d).seat ledger.now }
    ensures seen { (d : CallerTerms) → result.seen ≡ (slice_index_or callers.old 0 d).seat.knows.seen }
    ensures overview { IsOverviewOf result ledger.now }
    ensures same { callers.new ≡ callers.old }
{
    callers[0].overview(ledger.board())
}
