//! What a node needs of a book.

ghost use Rattle.std.specs.Prelude.{◌≡◌, ◌<◌, length, map, IfOk, None, Some};
ghost use Rattle.at_broadcast.specs.Prelude.{account_of};
ghost use Rattle.at_broadcast.specs.LogBook.{single_log};

use at_ledger::Book;
use std::alloc::{AllocError, Global};
use std::marker::Model;

/// What an account opens with, and the one log that debits it, if any.
#[derive(Clone, Copy, Debug)]
pub struct LogAccount {
    pub opening: u64,
    pub log: Option<u32>,
}

/// The number of logs, at most 64, and the accounts in order.
#[derive(Drop)]
pub struct LogBook {
    logs: u32,
    accounts: Vec<LogAccount>,
}

impl Model for LogBook {
    ghost use Rattle.at_broadcast.specs.LogBook.{IsLogBook, LogTerms};

    ghost Value = { LogTerms };

    ghost view = { λ b. record { logs = b.logs; accounts = b.accounts.items } };

    ghost invariant = { λ b. IsLogBook (record { logs = b.logs; accounts = b.accounts.items }) };
}

impl LogBook {
    ghost use Rattle.at_broadcast.specs.LogBook.{IsLogBook, account_on_logs, singles_of};

    /// A book of so many logs. It keeps the accounts.
    pub fn new(logs: u32, accounts: Vec<LogAccount>) -> LogBook
        requires { IsLogBook (record { logs = logs; accounts = accounts.items }) }
        ensures { result ≡ record { logs = logs; accounts = accounts.items } }
    {
        LogBook { logs, accounts }
    }

    /// A log for each process of a book, which debits the accounts that the process alone owns.
    pub fn of_singles(alloc: Global, book: &Book) -> Result<LogBook, AllocError>
        ensures { IfOk result (λ b. b ≡ singles_of book.now) }
    {
        let mut accounts = Vec::new(alloc);
        for account in 0..book.accounts() {
            accounts.push(LogAccount {
                opening: book.opening(account),
                log: single_log(book, account),
            })?;
        }
        Ok(LogBook::new(book.processes(), accounts))
    }

    /// How many logs there are.
    pub fn logs(&self) -> u32
        ensures { result ≡ self.now.logs }
    {
        self.logs
    }

    /// How many accounts there are.
    pub fn accounts(&self) -> u32
        ensures count { result ≡ length self.now.accounts }
        ensures checked { IsLogBook self.now }
    {
        self.accounts.len() as u32
    }

    /// What the account opens with.
    pub fn opening(&self, account: u32) -> u64
        requires { account < length self.now.accounts }
        ensures { result ≡ (account_on_logs self.now account).opening }
    {
        self.accounts[account as usize].opening
    }

    /// What each account opens with, in order.
    pub fn openings(&self, alloc: Global) -> Result<Vec<u64>, AllocError>
        ensures openings { IfOk result (λ balances. balances.items ≡ map (λ t. t.opening) self.now.accounts) }
        ensures checked { IsLogBook self.now }
    {
        let mut balances = Vec::new(alloc);
        for account in 0..self.accounts() {
            balances.push(self.opening(account))?;
        }
        Ok(balances)
    }

    /// The one log that debits the account, if any.
    pub fn log_of(&self, account: u32) -> Option<u32>
        requires { account < length self.now.accounts }
        ensures { result ≡ (account_on_logs self.now account).log }
    {
        self.accounts[account as usize].log
    }

    /// The same book, in memory of its own.
    pub fn copy(&self, alloc: Global) -> Result<LogBook, AllocError>
        ensures { IfOk result (λ b. b ≡ self.now) }
    {
        let mut accounts = Vec::new(alloc);
        accounts.extend_from_slice(self.accounts.as_slice())?;
        Ok(LogBook {
            logs: self.logs,
            accounts,
        })
    }
}

/// The process that alone owns the account, if one does.
pub fn single_log(book: &Book, account: u32) -> Option<u32>
    requires { account < length book.now.accounts }
    ensures { result ≡ single_log (account_of book.now account).owners }
{
    if book.owner_count(account) != 1 {
        return None;
    }
    Some(book.owner(account, 0))
}
