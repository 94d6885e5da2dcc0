//! Whether what a snapshot says is what a node keeps.

ghost use Rattle.std.specs.Prelude.{◌≡◌, ◌↔◌, ℕ, ◌+◌, ◌<◌, ◌≤◌, ◌^◌, All, IfOk, IsTrue, Some, length, slice_index, sum, sum_by};
ghost use Rattle.std.specs.Bool.{OnFalse, OnTrue};
ghost use Rattle.at_logs.specs.Prelude.{IsLogBook, MESSAGES_MAX, account_on_logs, total_on_logs};
ghost use Rattle.at_logs.specs.Compact.{IsBacklog, IsCompact, IsCreditOf, backlog_of, credit_to};
ghost use Rattle.at_logs.specs.Saved.{HasTails, HasBacklogs, IsSaved, IsSavedCore, IsSplit};

use crate::credits::Credit;
use crate::restoring::{Saved, SavedCore, known};
use crate::tail::is_same;
use at_broadcast::{LogBook, MESSAGES_MAX};
use std::alloc::{AllocError, Global};

impl Saved {
    /// Whether it is what a node keeps of a book with this hash.
    pub(crate) fn is_node_of(&self, alloc: Global, hash: &[u8; 32]) -> Result<bool, AllocError>
        requires { IsSaved self.now.core.book self.now }
        ensures { IfOk result (λ test. IsTrue test ↔ ((self.now.hash ≡ hash.now) × (HasTails self.now × IsCompact self.now.core))) }
    {
        if !is_same(&self.hash, hash) || !self.has_tails() {
            return Ok(false);
        }
        self.core.is_compact(alloc)
    }

    /// Whether each tail counts the messages that were told and those that wait.
    fn has_tails(&self) -> bool
        requires { IsSaved self.now.core.book self.now }
        ensures { IsTrue result ↔ HasTails self.now }
    {
        for p in 0..self.core.logs() {
            if !is_sum(
                self.tails[p as usize].messages,
                self.core.told_of(p),
                self.core.kept(p),
            ) {
                return false;
            }
        }
        true
    }
}

impl SavedCore {
    /// Whether it is what a core keeps.
    pub(crate) fn is_compact(&self, alloc: Global) -> Result<bool, AllocError>
        requires { IsSavedCore self.now.book self.now }
        ensures { IfOk result (λ test. IsTrue test ↔ IsCompact self.now) }
    {
        known(&self.book);
        if !self.has_total() || !self.has_backlogs() {
            return Ok(false);
        }
        self.is_split(alloc)
    }

    /// How many logs there are.
    fn logs(&self) -> u32
        ensures { result ≡ self.now.book.logs }
    {
        self.book.logs()
    }

    /// How many messages of the log were told.
    fn told_of(&self, p: u32) -> u32
        requires log_in { p < self.now.book.logs }
        requires counted { length self.now.told ≡ self.now.book.logs }
        ensures { result ≡ slice_index self.now.told p }
    {
        self.told.get(p)
    }

    /// How many of its messages weren't.
    fn kept(&self, p: u32) -> usize
        requires log_in { p < self.now.book.logs }
        requires sized { length self.now.backlogs ≡ self.now.book.logs }
        ensures { result ≡ length (backlog_of self.now.backlogs p).messages }
    {
        self.backlogs[p as usize].len()
    }

    /// Whether all balances are the total of the openings.
    fn has_total(&self) -> bool
        requires { length self.now.balances ≡ length self.now.book.accounts }
        ensures { IsTrue result ↔ (sum self.now.balances ≡ total_on_logs self.now.book) }
    {
        let total = total_of(&self.book);
        sum_of(&self.balances) == total
    }

    /// Whether each log's backlog goes as far as its counts say, and its credits are to accounts that the log debits.
    fn has_backlogs(&self) -> bool
        requires { IsSavedCore self.now.book self.now }
        ensures { IsTrue result ↔ HasBacklogs self.now }
    {
        for p in 0..self.book.logs() {
            if !self.is_backlog(p) {
                return false;
            }
        }
        true
    }

    /// Whether the log's does.
    fn is_backlog(&self, p: u32) -> bool
        requires log_in { p < self.now.book.logs }
        requires saved { IsSavedCore self.now.book self.now }
        ensures { IsTrue result ↔ IsBacklog self.now p (backlog_of self.now.backlogs p) }
    {
        let backlog = &self.backlogs[p as usize];
        is_kept(self.told.get(p), self.validated.get(p), backlog.len())
            && are_credits_of(&self.book, p, backlog.credits())
    }

    /// Whether each balance that a log debits is what is settled of it and the credits that the log keeps.
    fn is_split(&self, alloc: Global) -> Result<bool, AllocError>
        requires saved { IsSavedCore self.now.book self.now }
        requires backlogs { HasBacklogs self.now }
        ensures { IfOk result (λ test. IsTrue test ↔ IsSplit self.now) }
    {
        let mut left = Vec::new(alloc);
        left.extend_from_slice(self.balances.as_slice())?;
        if !self.take_all(&mut left) {
            return Ok(false);
        }
        Ok(self.is_settled(&left))
    }

    /// Takes from the balances the credits that all logs keep. It answers false where one has less.
    fn take_all(&self, left: &mut [u64]) -> bool
        requires saved { IsSavedCore self.now.book self.now }
        requires backlogs { HasBacklogs self.now }
        requires balances { left.old ≡ self.now.balances }
        ensures taken { OnTrue result ((p account : ℕ) → p < self.now.book.logs → account < length self.now.book.accounts
            → (account_on_logs self.now.book account).log ≡ Some p
            → slice_index left.new account + sum_by (credit_to account) (backlog_of self.now.backlogs p).credits ≡ slice_index self.now.balances account) }
        ensures short { OnFalse result (¬ IsSplit self.now) }
    {
        for p in 0..self.book.logs() {
            if !take_credits(left, self.backlogs[p as usize].credits()) {
                return false;
            }
        }
        true
    }

    /// Whether this is what is settled, of each account that a log debits.
    fn is_settled(&self, left: &[u64]) -> bool
        requires sized { length left.now ≡ length self.now.book.accounts }
        requires settled_sized { length self.now.settled ≡ length self.now.book.accounts }
        ensures { IsTrue result ↔ ((p account : ℕ) → p < self.now.book.logs → account < length self.now.book.accounts
            → (account_on_logs self.now.book account).log ≡ Some p → slice_index left.now account ≡ slice_index self.now.settled account) }
    {
        for account in 0..self.book.accounts() {
            let same = left[account as usize] == self.settled[account as usize];
            if !same && is_debited(&self.book, account) {
                return false;
            }
        }
        true
    }
}

/// Whether the one is the sum of the others.
fn is_sum(read: u32, told: u32, kept: usize) -> bool
    ensures { IsTrue result ↔ (read ≡ told + kept) }
{
    told <= read && (read - told) as usize == kept
}

/// Whether so many messages were told and so many are kept where so many are validated.
fn is_kept(told: u32, validated: u32, kept: usize) -> bool
    ensures { IsTrue result ↔ ((told ≤ validated) × ((validated ≤ told + kept) × (told + kept ≤ MESSAGES_MAX))) }
{
    told <= validated
        && (validated - told) as usize <= kept
        && kept <= (MESSAGES_MAX - told) as usize
}

/// Whether a log debits the account.
fn is_debited(book: &LogBook, account: u32) -> bool
    requires { account < length book.now.accounts }
    ensures { IsTrue result ↔ ((p : ℕ) × ((p < book.now.logs) × ((account_on_logs book.now account).log ≡ Some p))) }
{
    match book.log_of(account) {
        Some(log) => log < book.logs(),
        None => false,
    }
}

/// Whether each credit is to an account that the log debits.
fn are_credits_of(book: &LogBook, p: u32, credits: &[Credit]) -> bool
    requires accounts { All (λ x. x.account < length book.now.accounts) credits.now }
    requires logs { All (λ x. x.log < book.now.logs) credits.now }
    ensures { IsTrue result ↔ All (IsCreditOf book.now p) credits.now }
{
    for credit in credits {
        if book.log_of(credit.account) != Some(p) {
            return false;
        }
    }
    true
}

/// Takes each credit from its account. It answers false where one has less.
fn take_credits(left: &mut [u64], credits: &[Credit]) -> bool
    requires { All (λ x. x.account < length left.old) credits.now }
    ensures taken { OnTrue result ((account : ℕ) → slice_index left.new account + sum_by (credit_to account) credits.now ≡ slice_index left.old account) }
    ensures short { OnFalse result (¬ All (λ x. sum_by (credit_to x.account) credits.now ≤ slice_index left.old x.account) credits.now) }
{
    for credit in credits {
        let account = credit.account as usize;
        if left[account] < credit.amount {
            return false;
        }
        left[account] -= credit.amount;
    }
    true
}

/// The sum of amounts.
fn sum_of(amounts: &[u64]) -> u128
    requires { length amounts.now < 2 ^ 32 }
    ensures { result ≡ sum amounts.now }
{
    let mut total = 0u128;
    for amount in amounts {
        total += u128::from(*amount);
    }
    total
}

/// The sum of a book's openings.
fn total_of(book: &LogBook) -> u128
    ensures total { result ≡ total_on_logs book.now }
    ensures book { IsLogBook book.now }
{
    let mut total = 0u128;
    for account in 0..book.accounts() {
        total += u128::from(book.opening(account));
    }
    total
}
