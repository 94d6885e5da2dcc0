//! A book to which accounts are added one by one.

ghost use Rattle.std.specs.Prelude.{◌≡◌, ◌+◌, ◌<◌, ◌↔◌, [], None, Some, length, IsTrue, OnOk, OnErr, IfOk, IfErr};
ghost use Rattle.at_ledger.specs.Limits.{most_accounts};

use crate::account::Account;
use crate::book::Book;
use crate::draft::{ACCOUNTS_MAX, BookError, BookFault, ROUNDS_MAX, checked_owners, limits_fault};
use std::alloc::Global;
use std::marker::Model;

/// A book so far: its limits hold, and so does each account that was added.
#[derive(Drop)]
pub struct BookBuilder {
    processes: u32,
    own_room: u32,
    request_room: u32,
    accounts: Vec<Account>,
    sums: Sums,
}

/// The rounds and the openings of all accounts so far.
#[derive(Clone, Copy)]
struct Sums {
    rounds: u32,
    total: u64,
}

impl Model for BookBuilder {
    ghost use Rattle.at_ledger.specs.Book.{BookTerms, IsSummed};

    ghost Value = { BookTerms };

    ghost view = { λ b. record {
      processes = b.processes;
      own_room = b.own_room;
      request_room = b.request_room;
      accounts = b.accounts.items;
    } };

    ghost invariant = { λ b. IsSummed (record {
      processes = b.processes;
      own_room = b.own_room;
      request_room = b.request_room;
      accounts = b.accounts.items;
    }) b.sums.rounds b.sums.total };
}

impl BookBuilder {
    ghost use Rattle.at_ledger.specs.Account.{rounds_room};
    ghost use Rattle.at_ledger.specs.Book.{IsBegun, IsBook, IsSummed, rounds_of, total_of};
    ghost use Rattle.at_ledger.specs.Draft.{account_fault, book_without_accounts, limits_fault, sums_fault, terms_with, with_account};

    /// A book with these limits and no account yet.
    pub fn new(
        alloc: Global,
        processes: u64,
        own_room: u64,
        request_room: u64,
    ) -> Result<BookBuilder, BookError>
        ensures ok { IfOk result (λ b. b ≡ book_without_accounts processes own_room request_room) }
        ensures good { OnOk result (limits_fault processes own_room request_room ≡ None) }
        ensures bad { IfErr result (λ e. limits_fault processes own_room request_room ≡ Some e) }
    {
        match limits_fault(processes, own_room, request_room) {
            None => Ok(BookBuilder {
                processes: processes as u32,
                own_room: own_room as u32,
                request_room: request_room as u32,
                accounts: Vec::new(alloc),
                sums: Sums {
                    rounds: 0,
                    total: 0,
                },
            }),
            Some(fault) => Err(fault),
        }
    }

    /// Whether no further account fits.
    pub fn is_full(&self) -> bool
        ensures full { IsTrue result ↔ (length self.now.accounts ≡ most_accounts) }
        ensures checked { IsBegun self.now }
    {
        self.accounts.len() == ACCOUNTS_MAX as usize
    }

    /// Adds an account after the others. Memory is asked for only where the account has no fault.
    pub fn add(&mut self, opening: u64, owners: &[u64]) -> Result<(), BookFault>
        ensures ok { OnOk result
            (self.new ≡ with_account self.old (terms_with opening owners.now)) }
        ensures good { OnOk result (account_fault self.old (terms_with opening owners.now) ≡ None) }
        ensures bad { (e : BookError) → result ≡ Err (BookFault.Bad e)
            → account_fault self.old (terms_with opening owners.now) ≡ Some e }
        ensures err { OnErr result (self.new ≡ self.old) }
    {
        let (account, sums) = self.checked(opening, owners).map_err(BookFault::Bad)?;
        if self.accounts.push(account).is_err() {
            return Err(BookFault::NoMemory);
        }
        self.sums = sums;
        Ok(())
    }

    /// The book. It needs an account.
    pub fn finish(self) -> Result<Book, BookError>
        ensures ok { IfOk result (λ b. b ≡ self) }
        ensures checked { IfOk result IsBook }
        ensures bad { IfErr result (λ e. (e ≡ BookError.NoAccount) × (self.accounts ≡ [])) }
    {
        if self.accounts.is_empty() {
            return Err(BookError::NoAccount);
        }
        Ok(Book {
            processes: self.processes,
            own_room: self.own_room,
            request_room: self.request_room,
            accounts: self.accounts,
        })
    }

    /// The account with the sums that it leads to, or its first fault.
    fn checked(&self, opening: u64, owners: &[u64]) -> Result<(Account, Sums), BookError>
        ensures ok { IfOk result (λ p. p.0 ≡ terms_with opening owners.now) }
        ensures sums { IfOk result
            (λ p. IsSummed
            (with_account self.now (terms_with opening owners.now)) p.1.rounds p.1.total) }
        ensures good { OnOk result (account_fault self.now (terms_with opening owners.now) ≡ None) }
        ensures bad { IfErr result
            (λ e. account_fault self.now (terms_with opening owners.now) ≡ Some e) }
    {
        if self.is_full() {
            return Err(BookError::TooManyAccounts);
        }
        let position = self.accounts.len() as u32;
        let owners = checked_owners(self.processes, position, owners)?;
        let account = Account { opening, owners };
        let sums = self.sums_with(&account)?;
        Ok((account, sums))
    }

    /// The sums with one more account, or why they pass a limit.
    fn sums_with(&self, account: &Account) -> Result<Sums, BookError>
        requires { length self.now.accounts < most_accounts }
        ensures rounds { IfOk result
            (λ s. s.rounds ≡ rounds_of self.now + rounds_room self.now.request_room account.now) }
        ensures total { IfOk result (λ s. s.total ≡ total_of self.now + account.now.opening) }
        ensures good { OnOk result (sums_fault self.now account.now ≡ None) }
        ensures bad { IfErr result (λ e. sums_fault self.now account.now ≡ Some e) }
    {
        let position = self.accounts.len() as u32;
        let rounds = self.sums.rounds + account.rounds_room(self.request_room);
        if ROUNDS_MAX < rounds {
            return Err(BookError::RoundsOverLimit { account: position });
        }
        match self.sums.total.checked_add(account.opening) {
            Some(total) => Ok(Sums { rounds, total }),
            None => Err(BookError::TotalOverLimit { account: position }),
        }
    }
}
