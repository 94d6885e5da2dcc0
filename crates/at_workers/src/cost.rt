//! What a call cost.

ghost use Rattle.std.specs.Prelude.{◌≡◌, ◌<◌, ◌^◌};
ghost use Rattle.at_workers.specs.Prelude.{cost_since, cost_so_far};

use at_object::Pass;
use std::marker::Model;

/// What a pass made and counted in a call.
#[derive(Drop)]
pub struct CallCost {
    steps: u64,
    exchanges: u64,
    new_records: u64,
}

impl Model for CallCost {
    ghost use Rattle.std.specs.Prelude.{◌<◌, ◌^◌};
    ghost use Rattle.at_workers.specs.Prelude.{CostTerms};

    ghost Value = { CostTerms };

    ghost view = { λ c. record {
      steps = c.steps;
      exchanges = c.exchanges;
      new_records = c.new_records;
    } };

    ghost invariant = { λ c. c.new_records < 2 ^ 37 };
}

impl CallCost {
    /// Atomic loads and stores, compare-exchanges, and notes made and taken in.
    pub fn steps(&self) -> u64
        ensures { result ≡ self.now.steps }
    {
        self.steps
    }

    /// Compare-exchanges, and notes made and taken in. They are counted among the steps.
    pub fn exchanges(&self) -> u64
        ensures { result ≡ self.now.exchanges }
    {
        self.exchanges
    }

    /// Records of other processes that the process hadn't counted before.
    pub fn new_records(&self) -> u64
        ensures count { result ≡ self.now.new_records }
        ensures small { result < 2 ^ 37 }
    {
        self.new_records
    }

    /// What the pass has made and counted in all its calls.
    pub(crate) fn so_far(pass: &Pass) -> CallCost
        ensures { result ≡ cost_so_far pass.now }
    {
        CallCost {
            steps: pass.steps(),
            exchanges: pass.exchanges(),
            new_records: pass.others_counted(),
        }
    }

    /// What came to it since.
    pub(crate) fn since(&self, before: &CallCost) -> CallCost
        ensures { result ≡ cost_since before.now self.now }
    {
        CallCost {
            steps: self.steps.saturating_sub(before.steps),
            exchanges: self.exchanges.saturating_sub(before.exchanges),
            new_records: self.new_records.saturating_sub(before.new_records),
        }
    }
}
