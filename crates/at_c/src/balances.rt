//! All balances at one point, as exports ask for them.

ghost use Rattle.std.specs.Prelude.{◌≡◌, Some};
ghost use Rattle.at_c.specs.Exports.{HandleTellsBalances, accounts_by_handle, accounts_of_held};

use crate::handle::Handle;
use crate::held::Held;
use crate::outcome::Outcome;
use std::alloc::Global;

impl Held {
    fn accounts(&self) -> u32
        ensures { result ≡ accounts_of_held self.now }
    {
        match self {
            Held::Ledger(opened) => opened.accounts(),
            Held::Caller(caller) => caller.accounts(),
            Held::Nothing => 0,
            Held::Ending(_) => 0,
        }
    }

    /// Tells all balances by the caller that this is.
    fn balances(&mut self, balances: &mut [u64]) -> Outcome
        ensures { HandleTellsBalances (Some self.old) (Some self.new) balances.old balances.new result }
    {
        match self {
            Held::Caller(caller) => caller.balances(balances),
            Held::Nothing => Outcome::WrongHandle,
            Held::Ledger(_) => Outcome::WrongHandle,
            Held::Ending(_) => Outcome::WrongHandle,
        }
    }
}

impl Handle {
    /// How many accounts the book of the ledger or the caller has that the handle holds.
    pub(crate) fn accounts(&mut self, alloc: Global) -> u32
        ensures accounts { result ≡ accounts_by_handle self.old.held }
        ensures same { self.new.held ≡ self.old.held }
    {
        let Some(held) = self.take(alloc) else {
            return 0;
        };
        let accounts = held.accounts();
        self.put(held);
        accounts
    }

    /// Tells all balances by the caller that the handle holds.
    pub(crate) fn balances(&mut self, alloc: Global, balances: &mut [u64]) -> Outcome
        ensures { HandleTellsBalances self.old.held self.new.held balances.old balances.new result }
    {
        let Some(mut held) = self.take(alloc) else {
            return Outcome::WrongHandle;
        };
        let outcome = held.balances(balances);
        self.put(held);
        outcome
    }
}
