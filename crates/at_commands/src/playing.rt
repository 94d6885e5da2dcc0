//! Making the calls of the files on a new ledger, at once, and closing it: with its journal, or with what each call cost.

ghost use Rattle.std.specs.Prelude.{◌≡◌, ◌<◌, ◌^◌, ◌++◌, [], length, map, true, All, IfOk, None, Ok, OnOk, Some, if◌then◌else◌};
ghost use Rattle.at_commands.specs.Asking.{AreAsked, MayBeAsked, job_asked};
ghost use Rattle.at_commands.specs.Prelude.{option_map, option_to_list, IsPlayable, contents_of, IsCallOn, calls_of, AreAccountedFor, AreNewPasses, Stands, AreCallsOf, line_at, JobTerms};
ghost use Rattle.at_commands.specs.Running.{AreJobsFor, HasNewPasses, HaveCosted, IsClosedAfter, IsClosedNoting, IsPlayed, IsPlayedInOrder, IsPlayedNoting, costs_in, journal_of};

use at_files::count_calls;
use at_journal::{CallAt, journal, journal_calls, journal_calls_by_threads};
use at_ledger::{Book, Call, Line};
use at_log::Receipt;
use at_object::{Closed, Ledger, Pass};
use at_workers::{CallCost, Gate, Job, JobRefused, run_all};
use std::alloc::{AllocError, Global};
use std::thread::{Threads, map_vec};

/// A job for the calls with the pass, which notes what they cost where it is to.
fn job_for(alloc: Global, pass: Pass, calls: Vec<Call>, notes: bool) -> Result<Job, JobRefused>
    requires stands { Stands pass [] }
    requires unmade { pass.past ≡ [] }
    requires accounts { All (IsCallOn (length pass.knows.book.accounts)) calls.items }
    requires few { length calls.items < 2 ^ 32 }
    ensures { IfOk result (λ j. j ≡ record {
      pass = pass;
      calls = calls.items;
      receipts = [];
      costs = if notes then Some [] else None;
    }) }
{
    if notes {
        Job::noting(alloc, pass, calls)
    } else {
        Job::new(alloc, pass, calls)
    }
}

/// A new pass, and the calls to make with it.
#[derive(Drop)]
struct Asked {
    pass: Pass,
    calls: Vec<Call>,
}

/// Each pass with the calls of its process's file.
fn asked_of(
    alloc: Global,
    passes: Vec<Pass>,
    files: Vec<Vec<Call>>,
) -> Result<Vec<Asked>, AllocError>
    requires { length passes.items ≡ length files.items }
    ensures { IfOk result (λ r. AreAsked passes.items (contents_of files.items) r.items) }
{
    let mut asked = Vec::with_capacity(alloc, files.len())?;
    let mut others = passes.into_iter();
    for calls in files {
        let Some(pass) = others.next() else {
            // There is a pass for each file.
            unreachable!()
        };
        asked.push(Asked { pass, calls })?;
    }
    Ok(asked)
}

/// The jobs, if all of them were made.
fn all_made(alloc: Global, made: Vec<Result<Job, JobRefused>>) -> Result<Vec<Job>, AllocError>
    ensures { IfOk result (λ jobs. made.items ≡ map Ok jobs.items) }
{
    let mut jobs = Vec::with_capacity(alloc, made.len())?;
    for one in made {
        let Ok(job) = one else {
            return Err(AllocError);
        };
        jobs.push(job)?;
    }
    Ok(jobs)
}

/// A job for each process: its pass, and the calls of its file. Each notes what its calls cost, or none does. They are made by a thread
/// each, since a job moves its calls to where their receipts are to be.
fn jobs_for<R: Threads + Sync>(
    rt: &R,
    alloc: Global,
    ledger: &Ledger,
    passes: Vec<Pass>,
    files: Vec<Vec<Call>>,
    notes: bool,
) -> Result<Vec<Job>, AllocError>
    requires passes { AreNewPasses ledger.now passes.items }
    requires count { length files.items ≡ ledger.now.book.processes }
    requires known { All (IsPlayable (length ledger.now.book.accounts)) (contents_of files.items) }
    ensures { IfOk result
        (λ jobs. AreJobsFor ledger.now (contents_of files.items) notes jobs.items) }
{
    let asked = asked_of(alloc, passes, files)?;
    let made = map_vec(
        rt,
        asked,
        &move |one: Asked| -> Result<Job, JobRefused>
            requires { MayBeAsked one }
            ensures { IfOk result (λ job. job ≡ job_asked notes one) }
        {
            let Asked { pass, calls } = one;
            job_for(alloc, pass, calls, notes)
        },
    )?;
    all_made(alloc, made)
}

/// Adds the costs that a job has noted.
fn push_noted(all: &mut Vec<Vec<CallCost>>, noted: Option<Vec<CallCost>>) -> Result<(), AllocError>
    ensures { OnOk result (contents_of all.new.items
        ≡ contents_of all.old.items ++ option_to_list (option_map (λ v. v.items) noted)) }
{
    if let Some(costs) = noted {
        all.push(costs)?;
    }
    Ok(())
}

/// What is left of jobs.
#[derive(Drop)]
struct Left {
    passes: Vec<Pass>,
    receipts: Vec<Vec<Receipt>>,
    /// The costs of each job that noted them.
    costs: Vec<Vec<CallCost>>,
}

/// The passes of the jobs, their receipts, and the costs that they have noted.
fn taken_apart(alloc: Global, jobs: Vec<Job>) -> Result<Left, AllocError>
    ensures passes { IfOk result
        (λ r. r.passes.items ≡ map (λ (job : JobTerms). job.pass) jobs.items) }
    ensures receipts { IfOk result
        (λ r. contents_of r.receipts.items ≡ map (λ (job : JobTerms). job.receipts) jobs.items) }
    ensures costs { IfOk result (λ r. contents_of r.costs.items ≡ costs_in jobs.items) }
{
    let mut passes = Vec::with_capacity(alloc, jobs.len())?;
    let mut receipts = Vec::with_capacity(alloc, jobs.len())?;
    let mut costs = Vec::new(alloc);
    for job in jobs {
        let (pass, list, noted) = job.split();
        passes.push(pass)?;
        receipts.push(list)?;
        push_noted(&mut costs, noted)?;
    }
    Ok(Left {
        passes,
        receipts,
        costs,
    })
}

/// Makes the calls of each file on the ledger, each process's by a thread of its own. What is left are the passes, the receipts of
/// each process, and where it is to be noted what its calls cost.
fn make_calls<R: Threads + Sync, G: Gate + Sync>(
    rt: &R,
    alloc: Global,
    ledger: &Ledger,
    passes: Vec<Pass>,
    files: Vec<Vec<Call>>,
    notes: bool,
    gate: &G,
) -> Result<Left, AllocError>
    requires passes { AreNewPasses ledger.now passes.items }
    requires count { length files.items ≡ ledger.now.book.processes }
    requires known { All (IsPlayable (length ledger.now.book.accounts)) (contents_of files.items) }
    ensures accounted { IfOk result
        (λ r. AreAccountedFor ledger.now r.passes.items (contents_of r.receipts.items)) }
    ensures calls { IfOk result
        (λ r. map calls_of (contents_of r.receipts.items) ≡ contents_of files.items) }
    ensures costs { IfOk result (λ r. HaveCosted ledger.now notes r.passes.items
        (contents_of r.receipts.items) (contents_of r.costs.items)) }
{
    let mut jobs = jobs_for(rt, alloc, ledger, passes, files, notes)?;
    run_all(rt, ledger, jobs.as_mut_slice(), gate);
    taken_apart(alloc, jobs)
}

/// Makes the calls of each file on this ledger, which has its new passes beside it, and closes it. Beside it are then the costs of each
/// process's calls, where they are to be noted.
fn closed_on<R: Threads + Sync, G: Gate + Sync>(
    rt: &R,
    alloc: Global,
    opened: (Ledger, Vec<Pass>),
    files: Vec<Vec<Call>>,
    notes: bool,
    gate: &G,
) -> Result<(Closed, Vec<Vec<CallCost>>), AllocError>
    requires passes { AreNewPasses opened.0 opened.1.items }
    requires count { length files.items ≡ opened.0.book.processes }
    requires known { All (IsPlayable (length opened.0.book.accounts)) (contents_of files.items) }
    ensures { IfOk result (λ r. IsClosedNoting opened.0.book (contents_of files.items) notes r.0
        (contents_of r.1.items)) }
{
    let (ledger, passes) = opened;
    let left = make_calls(rt, alloc, &ledger, passes, files, notes, gate)?;
    let Left {
        passes,
        receipts,
        costs,
    } = left;
    let Ok(closed) = ledger.close(alloc, passes, receipts) else {
        return Err(AllocError);
    };
    Ok((closed, costs))
}

/// Makes the calls of each file on a new ledger of the book, and closes it. Beside it are the costs of each process's calls, where
/// they are to be noted.
fn closed_after<R: Threads + Sync, G: Gate + Sync>(
    rt: &R,
    alloc: Global,
    book: &Book,
    files: Vec<Vec<Call>>,
    notes: bool,
    gate: &G,
) -> Result<(Closed, Vec<Vec<CallCost>>), AllocError>
    requires count { length files.items ≡ book.now.processes }
    requires known { All (IsPlayable (length book.now.accounts)) (contents_of files.items) }
    ensures { IfOk result (λ r. IsClosedNoting book.now (contents_of files.items) notes r.0
        (contents_of r.1.items)) }
{
    let opened = Ledger::new(alloc, book)?;
    closed_on(rt, alloc, opened, files, notes, gate)
}

/// Makes the calls of each file on a new ledger of the book, each process's by a thread of its own. What is left are the closed ledger
/// and the lines of its journal. The work grows with the calls.
pub fn play<R: Threads + Sync, G: Gate + Sync>(
    rt: &R,
    alloc: Global,
    book: &Book,
    files: Vec<Vec<Call>>,
    gate: &G,
) -> Result<(Closed, Vec<Line>), AllocError>
    requires count { length files.items ≡ book.now.processes }
    requires known { All (IsPlayable (length book.now.accounts)) (contents_of files.items) }
    ensures { IfOk result (λ r. IsPlayed book.now (contents_of files.items) r.0 r.1.items) }
{
    let (closed, _costs) = closed_after(rt, alloc, book, files, false, gate)?;
    let lines = journal(alloc, closed.book(), closed.closing())?;
    Ok((closed, lines))
}

/// Makes the calls of each file on this new ledger of the book, and closes it.
fn closed_opened<R: Threads + Sync, G: Gate + Sync>(
    rt: &R,
    alloc: Global,
    book: &Book,
    opened: (Ledger, Vec<Pass>),
    files: Vec<Vec<Call>>,
    gate: &G,
) -> Result<Closed, AllocError>
    requires opened { HasNewPasses book.now opened.0 opened.1.items }
    requires count { length files.items ≡ book.now.processes }
    requires known { All (IsPlayable (length book.now.accounts)) (contents_of files.items) }
    ensures { IfOk result (λ closed. IsClosedAfter book.now (contents_of files.items) closed) }
{
    let (closed, _costs) = closed_on(rt, alloc, opened, files, false, gate)?;
    Ok(closed.of_whole_book(book.copy(alloc)?))
}

/// So many calls are put in order by threads. With a quarter of them a run takes less time where one thread does it.
const MANY_CALLS: u32 = 65_536;

/// The calls of a closed ledger in the order of its journal, by threads where these are to be started.
fn calls_in_order<R: Threads + Sync>(
    rt: &R,
    alloc: Global,
    closed: &Closed,
    by_threads: bool,
) -> Result<Vec<CallAt>, AllocError>
    requires few { All (λ receipts. length receipts < 2 ^ 32) closed.now.closing.receipts }
    ensures calls { IfOk result (λ calls. AreCallsOf closed.now.closing calls.items) }
    ensures lines { IfOk result
        (λ calls. map (line_at closed.now.closing) calls.items ≡ journal_of closed.now) }
{
    let book = closed.book();
    let closing = closed.closing();
    if by_threads {
        journal_calls_by_threads(rt, alloc, book, closing)
    } else {
        journal_calls(alloc, book, closing)
    }
}

/// Makes the calls of each file on this new ledger of the book as `play` does. What is left are the closed ledger, and its calls in the
/// order of its journal.
pub(crate) fn play_in_order<R: Threads + Sync, G: Gate + Sync>(
    rt: &R,
    alloc: Global,
    book: &Book,
    opened: (Ledger, Vec<Pass>),
    files: Vec<Vec<Call>>,
    gate: &G,
) -> Result<(Closed, Vec<CallAt>), AllocError>
    requires opened { HasNewPasses book.now opened.0 opened.1.items }
    requires count { length files.items ≡ book.now.processes }
    requires known { All (IsPlayable (length book.now.accounts)) (contents_of files.items) }
    ensures { IfOk result (λ r. IsPlayedInOrder book.now (contents_of files.items) r.0 r.1.items) }
{
    book.known();
    let by_threads = count_calls(files.as_slice()) >= MANY_CALLS;
    let closed = closed_opened(rt, alloc, book, opened, files, gate)?;
    let calls = calls_in_order(rt, alloc, &closed, by_threads)?;
    Ok((closed, calls))
}

/// Makes the calls of each file as `play` does, and notes what each of them costs. What is left are the closed ledger, and the costs
/// of each process's calls in their order, which take 24 bytes a call.
pub fn play_noting<R: Threads + Sync, G: Gate + Sync>(
    rt: &R,
    alloc: Global,
    book: &Book,
    files: Vec<Vec<Call>>,
    gate: &G,
) -> Result<(Closed, Vec<Vec<CallCost>>), AllocError>
    requires count { length files.items ≡ book.now.processes }
    requires known { All (IsPlayable (length book.now.accounts)) (contents_of files.items) }
    ensures { IfOk result
        (λ r. IsPlayedNoting book.now (contents_of files.items) r.0 (contents_of r.1.items)) }
{
    book.known();
    closed_after(rt, alloc, book, files, true, gate)
}
