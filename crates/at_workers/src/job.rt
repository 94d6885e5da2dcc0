//! Jobs: a pass with the calls to make and their receipts.

ghost use Rattle.std.specs.Prelude.{◌≡◌, ◌^◌, ◌<◌, ◌≤◌, ◌++◌, [], ◌∷◌, IfErr, IfOk, IfSome, length, All, None, Some};
ghost use Rattle.at_workers.specs.Prelude.{option_map, vec_capacity, IsCallOn, calls_of, IsPassOf, Stands, cost_of, past_receipts};
ghost use Rattle.at_workers.specs.Costs.{IsCalled};
ghost use Rattle.at_workers.specs.Jobs.{MakesNext};

use crate::cost::CallCost;
use crate::gate::Gate;
use at_ledger::{Call, Reply};
use at_log::{At, Receipt};
use at_object::{Ledger, Pass};
use std::alloc::Global;
use std::marker::Model;

/// A pass, the calls to make with it, the receipts of those that were made, and what these cost, where it is to note that. It has the
/// memory for the receipts of all calls, and for their costs.
///
/// Each call waits where its receipt is to be, so no call is in memory twice.
#[derive(Drop)]
pub struct Job {
    pass: Pass,
    /// One for each call: its receipt, or what stands in the place of that until the call is made.
    receipts: Vec<Receipt>,
    /// How many calls were made, the first ones.
    made: usize,
    costs: Option<Vec<CallCost>>,
}

impl Model for Job {
    ghost use Rattle.std.specs.Prelude.{take};
    ghost use Rattle.at_workers.specs.Prelude.{option_map, calls_of};
    ghost use Rattle.at_workers.specs.Jobs.{IsJob, JobTerms};

    ghost Value = { JobTerms };

    ghost view = { λ j. record {
      pass = j.pass;
      calls = calls_of j.receipts.items;
      receipts = take j.made j.receipts.items;
      costs = option_map (λ v. v.items) j.costs;
    } };

    ghost invariant = { λ j. IsJob (record {
      pass = j.pass;
      calls = calls_of j.receipts.items;
      receipts = take j.made j.receipts.items;
      costs = option_map (λ v. v.items) j.costs;
    })
        j.made j.costs };
}

/// There was no memory for the receipts or the costs. The pass and the calls come back as they were.
#[derive(Drop)]
pub struct JobRefused {
    pub pass: Pass,
    pub calls: Vec<Call>,
}

/// What stands in the place of the receipt of a call that isn't made yet.
fn unmade(call: Call) -> Receipt
    ensures { result.call ≡ call }
{
    Receipt {
        call,
        reply: Reply::Full,
        at: At::Previous,
    }
}

/// Moves each call to where its receipt is to be. The list has room for all of them.
fn lay_out(receipts: &mut Vec<Receipt>, calls: Vec<Call>)
    requires empty { receipts.old.items ≡ [] }
    requires room { length calls.items ≤ vec_capacity receipts.old }
    ensures { calls_of receipts.new.items ≡ calls.items }
{
    for call in calls {
        receipts.push_reserved(unmade(call));
    }
}

impl Job {
    /// A job of which no call is made yet. Takes the memory of all its receipts first.
    pub fn new(alloc: Global, pass: Pass, calls: Vec<Call>) -> Result<Job, JobRefused>
        requires stands { Stands pass [] }
        requires unmade { pass.past ≡ [] }
        requires accounts { All (IsCallOn (length pass.knows.book.accounts)) calls.items }
        requires few { length calls.items < 2 ^ 32 }
        ensures ok { IfOk result (λ j. j ≡ record {
          pass = pass;
          calls = calls.items;
          receipts = [];
          costs = None;
        }) }
        ensures refused { IfErr result (λ r. (r.pass ≡ pass) × (r.calls.items ≡ calls.items)) }
    {
        let Ok(mut receipts) = Vec::with_capacity(alloc, calls.len()) else {
            return Err(JobRefused { pass, calls });
        };
        lay_out(&mut receipts, calls);
        Ok(Job {
            pass,
            receipts,
            made: 0,
            costs: None,
        })
    }

    /// A job that notes what each of its calls costs, and of which no call is made yet. Takes the memory of all its receipts and costs
    /// first.
    pub fn noting(alloc: Global, pass: Pass, calls: Vec<Call>) -> Result<Job, JobRefused>
        requires stands { Stands pass [] }
        requires unmade { pass.past ≡ [] }
        requires accounts { All (IsCallOn (length pass.knows.book.accounts)) calls.items }
        requires few { length calls.items < 2 ^ 32 }
        ensures ok { IfOk result (λ j. j ≡ record {
          pass = pass;
          calls = calls.items;
          receipts = [];
          costs = Some [];
        }) }
        ensures refused { IfErr result (λ r. (r.pass ≡ pass) × (r.calls.items ≡ calls.items)) }
    {
        let Ok(costs) = Vec::with_capacity(alloc, calls.len()) else {
            return Err(JobRefused { pass, calls });
        };
        let mut job = Job::new(alloc, pass, calls)?;
        job.costs = Some(costs);
        Ok(job)
    }

    /// The pass, the receipts of the calls that were made, and their costs, where they were noted.
    pub fn split(self) -> (Pass, Vec<Receipt>, Option<Vec<CallCost>>)
        ensures pass { result.0 ≡ self.pass }
        ensures receipts { result.1.items ≡ self.receipts }
        ensures costs { option_map (λ v. v.items) result.2 ≡ self.costs }
        ensures stands { Stands self.pass self.receipts }
        ensures past { past_receipts self.pass ≡ self.receipts }
    {
        let Job {
            pass,
            mut receipts,
            made,
            costs,
        } = self;
        receipts.truncate(made);
        (pass, receipts, costs)
    }

    /// How many calls there are.
    pub(crate) fn len(&self) -> usize
        ensures count { result ≡ length self.now.calls }
        ensures stands { Stands self.now.pass self.now.receipts }
        ensures past { past_receipts self.now.pass ≡ self.now.receipts }
        ensures costed { IfSome self.now.costs (λ list. length list ≡ length self.now.receipts) }
    {
        self.receipts.len()
    }

    /// Makes the next call, which the gate is told of.
    pub(crate) fn make_next<G: Gate>(&mut self, ledger: &Ledger, gate: &G)
        requires of_ledger { IsPassOf self.old.pass ledger.now }
        requires more { length self.old.receipts < length self.old.calls }
        ensures { MakesNext ledger.now self.old self.new }
    {
        let i = self.made;
        let call = self.receipts[i].call.copy();
        let line = i as u32 + 1;
        let receipt = match &mut self.costs {
            None => call_told(ledger, gate, &mut self.pass, line, call),
            Some(costs) => call_noted(ledger, gate, &mut self.pass, line, call, costs),
        };
        self.receipts[i] = receipt;
        self.made += 1;
    }
}

/// Makes a call, which the gate is told of.
fn call_told<G: Gate>(ledger: &Ledger, gate: &G, pass: &mut Pass, line: u32, call: Call) -> Receipt
    requires of_ledger { IsPassOf pass.old ledger.now }
    requires accounts { IsCallOn (length ledger.now.book.accounts) call }
    ensures called { IsCalled ledger.now pass.old pass.new call result }
{
    let process = pass.process();
    gate.pass(process, line);
    let receipt = ledger.call(pass, call);
    gate.answered(process, line, &receipt.reply);
    receipt
}

/// Makes a call, which the gate is told of, and notes what it cost.
fn call_noted<G: Gate>(
    ledger: &Ledger,
    gate: &G,
    pass: &mut Pass,
    line: u32,
    call: Call,
    costs: &mut Vec<CallCost>,
) -> Receipt
    requires of_ledger { IsPassOf pass.old ledger.now }
    requires accounts { IsCallOn (length ledger.now.book.accounts) call }
    requires room { length costs.old.items < vec_capacity costs.old }
    ensures called { IsCalled ledger.now pass.old pass.new call result }
    ensures noted { costs.new.items ≡ costs.old.items ++ cost_of pass.old pass.new ∷ [] }
    ensures capacity { vec_capacity costs.new ≡ vec_capacity costs.old }
{
    let before = CallCost::so_far(pass);
    let receipt = call_told(ledger, gate, pass, line, call);
    costs.push_reserved(CallCost::so_far(pass).since(&before));
    receipt
}
