//! A checked book.

ghost use Rattle.std.specs.Prelude.{◌≡◌, ◌<◌, ◌≤◌, length, map, slice_index, sum, None, Some, IfOk, OnOk, IfSome};
ghost use Rattle.at_ledger.specs.Limits.{most_owners};

use crate::account::Account;
use crate::builder::BookBuilder;
use crate::draft::{BookError, BookFault, Draft, OWNERS_MAX};
use std::alloc::{AllocError, Global};
use std::marker::Model;

/// The processes, the accounts with their owners and openings, and the room that each process has.
/// Threads may share it: nothing in it changes.
#[derive(Drop)]
pub struct Book {
    pub(crate) processes: u32,
    pub(crate) own_room: u32,
    pub(crate) request_room: u32,
    pub(crate) accounts: Vec<Account>,
}

impl Model for Book {
    ghost use Rattle.at_ledger.specs.Book.{BookTerms, IsBook};

    ghost Value = { BookTerms };

    ghost view = { λ b. record {
      processes = b.processes;
      own_room = b.own_room;
      request_room = b.request_room;
      accounts = b.accounts.items;
    } };

    ghost invariant = { λ b. IsBook (record {
      processes = b.processes;
      own_room = b.own_room;
      request_room = b.request_room;
      accounts = b.accounts.items;
    }) };
}

impl Book {
    ghost use Rattle.at_ledger.specs.Account.{is_shared, is_single, slot_in, slots_of};
    ghost use Rattle.at_ledger.specs.Book.{IsBook, account_of, has_single, is_owner, log_room_of, total_of, with_openings, with_usable_room};
    ghost use Rattle.at_ledger.specs.Draft.{book_fault, book_of};

    /// Checks a draft and copies it. A refusal names the first fault: the limits, then the accounts in
    /// turn, each with its owners from left to right before its sums.
    pub fn new(alloc: Global, draft: &Draft) -> Result<Book, BookFault>
        ensures ok { IfOk result (λ b. b ≡ book_of draft.now) }
        ensures good { OnOk result (book_fault draft.now ≡ None) }
        ensures bad { (e : BookError) → result ≡ Err (BookFault.Bad e)
            → book_fault draft.now ≡ Some e }
    {
        let mut builder = match BookBuilder::new(
            alloc,
            draft.processes,
            draft.own_room,
            draft.request_room,
        ) {
            Ok(builder) => builder,
            Err(fault) => return Err(BookFault::Bad(fault)),
        };
        for account in &draft.accounts {
            builder.add(account.opening, account.owners.as_slice())?;
        }
        match builder.finish() {
            Ok(book) => Ok(book),
            Err(fault) => Err(BookFault::Bad(fault)),
        }
    }

    /// Tells a proof what every book keeps. It does nothing when it runs.
    pub fn known(&self)
        ensures checked { IsBook self.now }
    {
        let _ = &self.processes;
    }

    /// How many processes there are, at most 16.
    pub fn processes(&self) -> u32
        ensures { result ≡ self.now.processes }
    {
        self.processes
    }

    /// How many accounts there are, at most 1,024.
    pub fn accounts(&self) -> u32
        ensures count { result ≡ length self.now.accounts }
        ensures checked { IsBook self.now }
    {
        self.accounts.len() as u32
    }

    /// How many transfers from single accounts can succeed for each process.
    pub fn own_room(&self) -> u32
        ensures { result ≡ self.now.own_room }
    {
        self.own_room
    }

    /// How many requests each owner of a shared account can make.
    pub fn request_room(&self) -> u32
        ensures { result ≡ self.now.request_room }
    {
        self.request_room
    }

    /// What the account opens with.
    pub fn opening(&self, account: u32) -> u64
        requires { account < length self.now.accounts }
        ensures { result ≡ (account_of self.now account).opening }
    {
        self.accounts[account as usize].opening
    }

    /// How many owners the account has, at most eight.
    pub fn owner_count(&self, account: u32) -> u32
        requires { account < length self.now.accounts }
        ensures count { result ≡ length (account_of self.now account).owners }
        ensures few { result ≤ most_owners }
    {
        self.accounts[account as usize].owner_count()
    }

    /// How many owners of the account have slots: all where two processes or more share it, and else none.
    pub fn slot_count(&self, account: u32) -> u32
        requires { account < length self.now.accounts }
        ensures count { result ≡ slots_of (account_of self.now account) }
        ensures few { result ≤ most_owners }
    {
        self.accounts[account as usize].slot_count()
    }

    /// The process that owns the account at this slot. Slots count from 0, the lowest process first.
    pub fn owner(&self, account: u32, slot: u32) -> u32
        requires account_in { account < length self.now.accounts }
        requires slot_in { slot < length (account_of self.now account).owners }
        ensures owner { result ≡ slice_index (account_of self.now account).owners slot }
        ensures known { result < self.now.processes }
        ensures slot { slot_in (account_of self.now account) result ≡ Some slot }
    {
        self.accounts[account as usize].owners[slot as usize]
    }

    /// The slot of the process among the owners of the account.
    pub fn slot_of(&self, account: u32, process: u32) -> Option<u32>
        requires { account < length self.now.accounts }
        ensures slot { result ≡ slot_in (account_of self.now account) process }
        ensures within { IfSome result
            (λ slot. slot < length (account_of self.now account).owners) }
        ensures owner { IfSome result
            (λ slot. slice_index (account_of self.now account).owners slot ≡ process) }
    {
        self.accounts[account as usize].slot_in(process)
    }

    /// How many records the log of the process has room for.
    pub fn log_room(&self, process: u32) -> u32
        ensures { result ≡ log_room_of self.now process }
    {
        let mut room = self.own_room;
        for account in &self.accounts {
            room += account.rounds_of(process, self.request_room);
        }
        room
    }

    /// What each account opens with, in order.
    pub(crate) fn openings(&self, alloc: Global) -> Result<Vec<u64>, AllocError>
        ensures { IfOk result (λ v. v.items ≡ map (λ t. t.opening) self.now.accounts) }
    {
        let accounts = self.accounts.as_slice();
        accounts
            .iter()
            .map(|account| account.opening)
            .collect(alloc)
    }

    /// Whether the process may debit the account.
    pub(crate) fn is_owner(&self, process: u32, account: u32) -> bool
        requires { account < length self.now.accounts }
        ensures { result ≡ is_owner self.now process account }
    {
        self.slot_of(account, process).is_some()
    }

    /// Whether two processes or more may debit the account.
    pub(crate) fn is_shared(&self, account: u32) -> bool
        requires { account < length self.now.accounts }
        ensures { result ≡ is_shared (account_of self.now account) }
    {
        self.accounts[account as usize].is_shared()
    }

    /// Whether one process alone may debit the account.
    pub(crate) fn is_single(&self, account: u32) -> bool
        requires { account < length self.now.accounts }
        ensures { result ≡ is_single (account_of self.now account) }
    {
        self.accounts[account as usize].is_single()
    }

    /// Whether some account has one owner.
    fn has_single(&self) -> bool
        ensures { result ≡ has_single self.now }
    {
        self.accounts.iter().any(|account| account.is_single())
    }

    /// The same book with the own room that can be used, in memory of its own. Where no account has one owner no process uses any, and a
    /// book has at least 1.
    pub fn with_usable_room(&self, alloc: Global) -> Result<Book, AllocError>
        ensures { IfOk result (λ b. b ≡ with_usable_room self.now) }
    {
        let mut book = self.copy(alloc)?;
        if !self.has_single() {
            book.own_room = 1;
        }
        Ok(book)
    }

    /// The same book with other openings, one for each account and with the same total, in memory of its own.
    pub(crate) fn with_openings(&self, alloc: Global, openings: &[u64]) -> Result<Book, AllocError>
        requires count { length openings.now ≡ length self.now.accounts }
        requires total { sum openings.now ≡ total_of self.now }
        ensures openings { IfOk result (λ b. b ≡ with_openings self.now openings.now) }
        ensures total { IfOk result (λ b. total_of b ≡ total_of self.now) }
    {
        let mut accounts = Vec::new(alloc);
        for (i, opening) in openings.iter().enumerate() {
            accounts.push(self.accounts[i].opening_with(*opening))?;
        }
        Ok(Book {
            processes: self.processes,
            own_room: self.own_room,
            request_room: self.request_room,
            accounts,
        })
    }

    /// The same book, in memory of its own.
    pub fn copy(&self, alloc: Global) -> Result<Book, AllocError>
        ensures { IfOk result (λ b. b ≡ self.now) }
    {
        let mut accounts = Vec::new(alloc);
        for account in &self.accounts {
            accounts.push(account.copy())?;
        }
        Ok(Book {
            processes: self.processes,
            own_room: self.own_room,
            request_room: self.request_room,
            accounts,
        })
    }
}
