//! The calls of one job, made by one thread.

ghost use Rattle.at_workers.specs.Jobs.{IsReady, Ran};

use crate::gate::Gate;
use crate::job::Job;
use at_object::Ledger;

/// Makes all calls of a job, in order.
pub(crate) fn play_one<G: Gate>(ledger: &Ledger, gate: &G, job: &mut Job)
    requires { IsReady ledger.now job.old }
    ensures { Ran ledger.now job.old job.new }
{
    for _index in 0..job.len() {
        job.make_next(ledger, gate);
    }
}
