//! Where the balances of the accounts that calls name first are kept.

ghost use Rattle.std.specs.Prelude.{◌<◌, All, IfOk, OnOk, length};
ghost use Rattle.at_orders.specs.Prelude.{contents_of, IsCallOn};
ghost use Rattle.at_orders.specs.Walk.{ArePlaces, HasFirstPlace, HasPlace, KeepsPlaces};

use at_ledger::Call;
use std::alloc::{AllocError, Global};

/// The accounts that calls name first, each once, and the place of each account among them, if it is there.
#[derive(Drop)]
pub(crate) struct Places {
    pub(crate) named: Vec<u32>,
    pub(crate) of: Vec<Option<usize>>,
}

impl Places {
    /// The places of all accounts that calls of the files name first.
    pub(crate) fn new(
        alloc: Global,
        accounts: u32,
        files: &[Vec<Call>],
    ) -> Result<Places, AllocError>
        requires { All (All (IsCallOn accounts)) (contents_of files.now) }
        ensures places { IfOk result (λ p. ArePlaces accounts p.named.items p.of.items) }
        ensures named { IfOk result
            (λ p. All (All (HasFirstPlace p.of.items)) (contents_of files.now)) }
    {
        let mut places = Places {
            named: Vec::new(alloc),
            of: vec![in alloc; None; accounts as usize]?,
        };
        for file in files {
            places.add_file(file.as_slice())?;
        }
        Ok(places)
    }

    /// Gives a place to each account that a call names first.
    fn add_file(&mut self, file: &[Call]) -> Result<(), AllocError>
        requires places { ArePlaces (length self.old.of.items) self.old.named.items
            self.old.of.items }
        requires calls { All (IsCallOn (length self.old.of.items)) file.now }
        ensures places { ArePlaces (length self.old.of.items) self.new.named.items
            self.new.of.items }
        ensures keeps { KeepsPlaces self.old.of.items self.new.of.items }
        ensures named { OnOk result (All (HasFirstPlace self.new.of.items) file.now) }
    {
        for call in file {
            self.add(call.first_account())?;
        }
        Ok(())
    }

    /// Gives a place to the account, if it has none.
    fn add(&mut self, account: u32) -> Result<(), AllocError>
        requires places { ArePlaces (length self.old.of.items) self.old.named.items
            self.old.of.items }
        requires account { account < length self.old.of.items }
        ensures places { ArePlaces (length self.old.of.items) self.new.named.items
            self.new.of.items }
        ensures keeps { KeepsPlaces self.old.of.items self.new.of.items }
        ensures named { OnOk result (HasPlace self.new.of.items account) }
    {
        if self.of[account as usize].is_none() {
            let place = self.named.len();
            self.named.push(account)?;
            self.of[account as usize] = Some(place);
        }
        Ok(())
    }
}
