//! What a call cost.

ghost use Rattle.std.specs.Prelude.{◌≡◌, ◌<◌, ◌-◌, length};
ghost use Rattle.at_object.specs.Calls.{ReadMade};
ghost use Rattle.at_object.specs.Passes.{IsPassOf, others_counted};

use at_log::Receipt;
use at_object::{Ledger, Pass};

/// What a pass made and counted in one call.
#[derive(Clone, Copy, Debug, PartialEq, Eq)]
pub struct Cost {
    pub steps: u64,
    /// Among the steps.
    pub exchanges: u64,
    /// Records of other processes that the pass hadn't counted before.
    pub new_records: u64,
}

/// Reads an account, and answers what that cost.
pub fn read_counted(ledger: &Ledger, pass: &mut Pass, account: u32) -> (Receipt, Cost)
    requires pass { IsPassOf pass.old ledger.now }
    requires account_in { account < length ledger.now.book.accounts }
    ensures made { ReadMade ledger.now.book pass.old pass.new account result.0 }
    ensures steps { result.1.steps ≡ pass.new.steps - pass.old.steps }
    ensures exchanges { result.1.exchanges ≡ pass.new.exchanges - pass.old.exchanges }
    ensures new_records { result.1.new_records
        ≡ others_counted pass.new - others_counted pass.old }
    ensures pass { IsPassOf pass.new ledger.now }
{
    let steps = pass.steps();
    let exchanges = pass.exchanges();
    let others = pass.others_counted();
    let receipt = ledger.read(pass, account);
    let cost = Cost {
        steps: pass.steps().saturating_sub(steps),
        exchanges: pass.exchanges().saturating_sub(exchanges),
        new_records: pass.others_counted().saturating_sub(others),
    };
    (receipt, cost)
}
