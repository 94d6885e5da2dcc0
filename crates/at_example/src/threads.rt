//! Calls from threads.

ghost use Rattle.std.specs.Prelude.{◌≡◌, ◌^◌, ◌<◌, All, IfErr, IfOk, length};
ghost use Rattle.std.specs.List.{AllZip};
ghost use Rattle.at_ledger.specs.Call.{IsCallOn};
ghost use Rattle.at_object.specs.Passes.{IsNewPass};
ghost use Rattle.at_workers.specs.Jobs.{IsReady, Ran};

use at_ledger::Call;
use at_object::{Ledger, Pass};
use at_workers::{Job, JobRefused, OpenGate, run_all};
use std::alloc::Global;
use std::thread::Threads;

/// A job to make these calls with the new pass of a process, noting what each of them costs.
pub fn job_of(
    alloc: Global,
    ledger: &Ledger,
    pass: Pass,
    calls: Vec<Call>,
) -> Result<Job, JobRefused>
    requires pass { IsNewPass ledger.now pass.knows.first pass }
    requires calls { All (IsCallOn (length ledger.now.book.accounts)) calls.items }
    requires few { length calls.items < 2 ^ 32 }
    ensures ready { IfOk result (IsReady ledger.now) }
    ensures calls { IfOk result (λ job. job.calls ≡ calls.items) }
    ensures refused { IfErr result (λ r. (r.pass ≡ pass) × (r.calls.items ≡ calls.items)) }
{
    Job::noting(alloc, pass, calls)
}

/// Makes the calls of all jobs at once, each job's by a thread of its own.
pub fn make_all<R: Threads + Sync>(rt: &R, ledger: &Ledger, jobs: &mut [Job])
    requires { All (IsReady ledger.now) jobs.old }
    ensures { AllZip (Ran ledger.now) jobs.old jobs.new }
{
    run_all(rt, ledger, jobs, &OpenGate);
}
