//! The names of a book's processes and accounts.

ghost use Rattle.std.specs.Prelude.{◌≡◌, ◌⊎◌, ◌<◌, ◌≤◌, Contains, IfNone, IfOk, IfSome, Some, decimal, length, slice_get};
ghost use Rattle.at_files.specs.Prelude.{most_accounts};
ghost use Rattle.at_files.specs.Names.{AreNamesOf, IsNameList, account_name, decimals_below, position_of, plain_names, process_name};

use crate::name_set::NameSet;
use at_ledger::Book;
use std::alloc::{AllocError, Global};
use std::marker::Model;

/// The names of a book's processes and accounts, as its file gives them. Those of a book of version 1 are
/// its numbers, as canonical decimals.
pub struct Names {
    version: u32,
    processes: NameSet,
    accounts: NameSet,
}

// written out, so that each end of a function that owns one calls it, and doesn't drop the fields there
impl Drop for Names {
    fn drop(self) {
        let Names {
            version: _,
            processes: _,
            accounts: _,
        } = self;
    }
}

impl Model for Names {
    ghost use Rattle.at_files.specs.Names.{IsNameList, NameList};

    ghost Value = { NameList };

    ghost view = { λ n. record {
      version = n.version;
      processes = n.processes;
      accounts = n.accounts;
    } };

    ghost invariant = { λ n. IsNameList (record {
      version = n.version;
      processes = n.processes;
      accounts = n.accounts;
    }) };
}

impl Names {
    /// Names that were read with a book of this version.
    pub(crate) fn new(version: u32, processes: NameSet, accounts: NameSet) -> Names
        requires { IsNameList (record
            { version = version; processes = processes; accounts = accounts }) }
        ensures { result ≡ record
            { version = version; processes = processes; accounts = accounts } }
    {
        Names {
            version,
            processes,
            accounts,
        }
    }

    /// The names of version 1, which are the numbers of the processes and accounts.
    pub fn plain(alloc: Global, book: &Book) -> Result<Names, AllocError>
        ensures plain { IfOk result (λ names. names ≡ plain_names book.now) }
        ensures names { IfOk result (λ names. AreNamesOf book.now names) }
    {
        let accounts = book.accounts();
        let Ok(processes) = plain_names(alloc, book.processes()) else {
            return Err(AllocError);
        };
        let Ok(accounts) = plain_names(alloc, accounts) else {
            return Err(AllocError);
        };
        Ok(Names {
            version: 1,
            processes,
            accounts,
        })
    }

    /// Tells a proof what all names keep. It does nothing when it runs.
    pub fn known(&self)
        ensures few_accounts { length self.now.accounts ≤ most_accounts }
    {
        let _ = &self.version;
    }

    /// The version of the book that gives the names.
    pub fn version(&self) -> u32
        ensures version { result ≡ self.now.version }
        ensures known { (result ≡ 1) ⊎ (result ≡ 2) }
    {
        self.version
    }

    /// How many accounts have a name.
    pub(crate) fn accounts(&self) -> u32
        ensures { result ≡ length self.now.accounts }
    {
        self.accounts.len() as u32
    }

    /// The name of an account.
    pub fn account(&self, account: u32) -> &[u8]
        requires { account < length self.now.accounts }
        ensures name { result.now ≡ account_name self.now account }
        ensures plain { self.now.version ≡ 1 → result.now ≡ decimal account }
    {
        self.accounts.name(account as usize)
    }

    /// The name of a process.
    pub fn process(&self, process: u32) -> &[u8]
        requires { process < length self.now.processes }
        ensures name { result.now ≡ process_name self.now process }
        ensures plain { self.now.version ≡ 1 → result.now ≡ decimal process }
    {
        self.processes.name(process as usize)
    }

    /// The account with this name, which is looked up by its hash.
    pub fn find(&self, name: &[u8]) -> Option<u32>
        ensures position { result ≡ position_of self.now.accounts name.now }
        ensures found { IfSome result
            (λ account. slice_get self.now.accounts account ≡ Some name.now) }
        ensures none { IfNone result (¬ (Contains self.now.accounts name.now)) }
        ensures small { IfSome result (λ account. account < most_accounts) }
    {
        match self.accounts.position(name) {
            Some(position) => Some(position as u32),
            None => None,
        }
    }
}

/// The numbers below `count` as names.
pub(crate) fn plain_names(alloc: Global, count: u32) -> Result<NameSet, AllocError>
    ensures { IfOk result (λ names. names ≡ decimals_below count) }
{
    let mut names = NameSet::new(alloc);
    for n in 0..count {
        let Ok(_added) = names.add(itoa::Buffer::new().format(n).as_bytes()) else {
            return Err(AllocError);
        };
    }
    Ok(names)
}
