//! The calls of all jobs, made by threads.

ghost use Rattle.std.specs.Prelude.{All};
ghost use Rattle.at_workers.specs.Prelude.{AllZip};
ghost use Rattle.at_workers.specs.Jobs.{IsReady, Ran};

use crate::gate::Gate;
use crate::job::Job;
use crate::play::play_one;
use at_object::Ledger;
use std::thread::{Threads, for_each_mut};

/// Makes all calls of all jobs on the ledger, each job's by a thread of its own. A job's calls are made in order. Takes no memory.
pub fn run_all<R: Threads + Sync, G: Gate + Sync>(
    rt: &R,
    ledger: &Ledger,
    jobs: &mut [Job],
    gate: &G,
)
    requires { All (IsReady ledger.now) jobs.old }
    ensures { AllZip (Ran ledger.now) jobs.old jobs.new }
{
    let threads = jobs.len().max(1);
    for_each_mut(
        rt,
        jobs,
        threads,
        &|_process: usize, job: &mut Job|
            requires { IsReady ledger.now job.old }
            ensures { Ran ledger.entry.now job.old job.new }
        { play_one(ledger, gate, job) },
    );
}
