//! Totals.

ghost use Rattle.std.specs.Prelude.{◌≡◌, ℕ, ◌+◌, ◌<◌, ◌≤◌, ◌==◌, ◌^◌, List, length, replicate, slice_index, slice_set, IfOk, if◌then◌else◌};
ghost use Rattle.at_fold.specs.Prelude.{BookTerms, AreTargetsOn, amount_of, Publication, amount_for, balance_after, credit_of, debit_of, prefix_of, named, rounds, own_part};
ghost use Rattle.at_fold.specs.Counted.{IsSettledSo, counted_records};
ghost use Rattle.at_fold.specs.HasCounted.{CountsAccount, CountsCut, CountsSlot, HasCounted, IsNext, MayCount, StaysCounted};
ghost use Rattle.at_fold.specs.Sums.{FitsMore, FitsRound, HasSums, after_entry, is_new_to, sums_at, with_amounts, with_credit, with_decided_round};

use crate::account_totals::AccountTotals;
use at_base::{Counts, Decision};
use at_board::{BoardSeat, Entry};
use at_ledger::{Book, Targets};
use std::alloc::{AllocError, Global};
use std::marker::Model;

/// Sums over the records counted so far, each round counted once.
#[derive(Drop)]
pub struct Totals {
    upto: Counts,
    accounts: Vec<AccountTotals>,
}

impl Model for Totals {
    ghost use Rattle.at_fold.specs.Sums.{TotalSums};

    ghost Value = { TotalSums };

    ghost view = { λ t. record { upto = t.upto; accounts = t.accounts.items } };
}

impl Totals {
    /// Totals that have counted nothing. All their memory is taken here, in proportion to the accounts and the rounds of the book.
    pub fn new(alloc: Global, book: &Book) -> Result<Totals, AllocError>
        ensures upto { IfOk result (λ t. t.upto ≡ replicate book.now.processes 0) }
        ensures counted { IfOk result (λ t. (seen : List Publication)
            → HasCounted t book.now seen) }
    {
        let count = book.accounts();
        let mut accounts = Vec::new(alloc);
        for account in 0..count {
            accounts.push(AccountTotals::new(alloc, book, account)?)?;
        }
        Ok(Totals {
            upto: Counts::zeros(book.processes()),
            accounts,
        })
    }

    /// How many records of each process are counted.
    pub fn upto(&self) -> Counts
        ensures { result ≡ self.now.upto }
    {
        self.upto.copy()
    }

    /// How many records of a process are counted: the number of its first one that isn't. By look-up, and without the copy that
    /// `upto` makes.
    pub fn counted(&self, process: u32) -> u32
        requires { process < length self.now.upto }
        ensures { result ≡ slice_index self.now.upto process }
    {
        self.upto.get(process)
    }

    /// The balance of the account after the prefix of the publications that is counted. By look-up.
    pub fn balance(&self, account: u32) -> u64
        requires { (b : BookTerms) × (seen : List Publication)
            × CountsAccount self.now b seen account × CountsCut self.now b seen }
        ensures { (b : BookTerms) (seen : List Publication) → CountsAccount self.now b seen account
            → CountsCut self.now b seen → result
            ≡ balance_after b (prefix_of self.now.upto seen) account }
    {
        self.accounts[account as usize].balance()
    }

    /// How many distinct rounds of the account are counted. By look-up.
    pub fn rounds(&self, account: u32) -> u32
        requires { (b : BookTerms) × (seen : List Publication)
            × CountsAccount self.now b seen account }
        ensures counted { (b : BookTerms) (seen : List Publication)
            → CountsAccount self.now b seen account
            → result ≡ rounds account (counted_records self.now.upto seen) }
        ensures cut { (b : BookTerms) (seen : List Publication)
            → CountsAccount self.now b seen account → CountsCut self.now b seen
            → result ≡ rounds account (prefix_of self.now.upto seen) }
    {
        self.accounts[account as usize].rounds()
    }

    /// How many requests of an owner of the account are decided in the records counted. By look-up.
    pub fn done(&self, account: u32, slot: u32) -> u32
        requires { (b : BookTerms) × (seen : List Publication)
            × CountsSlot self.now b seen account slot }
        ensures counted { (b : BookTerms) (seen : List Publication)
            → CountsSlot self.now b seen account slot
            → result ≡ named account slot (counted_records self.now.upto seen) }
        ensures cut { (b : BookTerms) (seen : List Publication)
            → CountsSlot self.now b seen account slot → CountsCut self.now b seen
            → result ≡ named account slot (prefix_of self.now.upto seen) }
    {
        self.accounts[account as usize].done(slot)
    }

    /// The round and the decision of a request, if a record counted names it. By look-up.
    pub fn settled(&self, account: u32, slot: u32, number: u32) -> Option<(u32, Decision)>
        requires { (b : BookTerms) × (seen : List Publication)
            × CountsSlot self.now b seen account slot × (number < b.request_room) }
        ensures counted { (b : BookTerms) (seen : List Publication)
            → CountsSlot self.now b seen account slot → number < b.request_room
            → IsSettledSo (counted_records self.now.upto seen) account slot number result }
        ensures cut { (b : BookTerms) (seen : List Publication)
            → CountsSlot self.now b seen account slot → number < b.request_room
            → CountsCut self.now b seen → IsSettledSo
            (prefix_of self.now.upto seen) account slot number result }
    {
        self.accounts[account as usize].settled(slot, number)
    }

    /// Counts the record that the seat's process has just published, which is the one after those of it that are counted. Makes no step.
    pub fn count_own(&mut self, seat: &BoardSeat, entry: &Entry)
        requires counted { HasCounted self.old seat.now.knows.book seat.now.knows.seen }
        requires next { IsNext self.old seat.now.knows.book seat.now.knows.seen seat.now.knows.first
            entry.now }
        requires last { slice_index self.old.upto seat.now.knows.first + 1
            ≡ (own_part seat.now.knows).published }
        ensures counted { HasCounted self.new seat.now.knows.book seat.now.knows.seen }
        ensures stays { StaysCounted self.new seat.now.knows.book seat.now.knows.seen }
        ensures upto { self.new.upto ≡ slice_set self.old.upto seat.now.knows.first
            (own_part seat.now.knows).published }
    {
        self.count(seat.process(), seat.published(), entry);
    }

    /// Counts the next record of a process, of which so many are counted then. Makes no step. It is for callers that load the
    /// entries themselves, word by word; `catch_up` loads and counts all at once.
    pub fn count(&mut self, process: u32, upto: u32, entry: &Entry)
        requires next { (b : BookTerms) × (seen : List Publication)
            × MayCount self.old b seen process entry.now }
        requires upto { upto ≡ slice_index self.old.upto process + 1 }
        ensures counted { (b : BookTerms) (seen : List Publication)
            → MayCount self.old b seen process entry.now → HasCounted self.new b seen }
        ensures upto { self.new.upto ≡ slice_set self.old.upto process upto }
    {
        if self.is_new(entry) {
            self.add(entry);
        }
        self.upto.set(process, upto);
    }

    /// Whether no record of this round is counted.
    fn is_new(&self, entry: &Entry) -> bool
        requires { HasSums self.now.accounts entry.now }
        ensures { result ≡ is_new_to self.now.accounts entry.now }
    {
        match entry {
            Entry::Own {
                from: _,
                targets: _,
            } => true,
            Entry::Round {
                account,
                round,
                decision: _,
                targets: _,
            } => !self.accounts[*account as usize].is_counted(*round),
        }
    }

    /// Adds a record of a round that isn't counted yet, or an own one.
    fn add(&mut self, entry: &Entry)
        requires sums { HasSums self.old.accounts entry.now }
        requires amounts { FitsMore self.old.accounts }
        requires rounds { FitsRound self.old.accounts entry.now }
        ensures sized { length self.new.accounts ≡ length self.old.accounts }
        ensures all_sums { (a : ℕ) → a < length self.old.accounts
            → sums_at self.new.accounts a ≡ after_entry a entry.now (sums_at self.old.accounts a) }
        ensures small { (a : ℕ) → (credit_of a entry.now ≤ 2 ^ 66)
            × (debit_of a entry.now ≤ 2 ^ 66) }
        ensures upto { self.new.upto ≡ self.old.upto }
    {
        self.add_amounts(entry);
        self.add_decision(entry);
    }

    /// Adds what a record moves, if it moves anything.
    fn add_amounts(&mut self, entry: &Entry)
        requires sums { HasSums self.old.accounts entry.now }
        requires amounts { FitsMore self.old.accounts }
        ensures sized { length self.new.accounts ≡ length self.old.accounts }
        ensures all_sums { (a : ℕ) → a < length self.old.accounts
            → sums_at self.new.accounts a ≡ with_amounts (credit_of a entry.now)
            (debit_of a entry.now) (sums_at self.old.accounts a) }
        ensures small { (a : ℕ) → (credit_of a entry.now ≤ 2 ^ 66)
            × (debit_of a entry.now ≤ 2 ^ 66) }
        ensures upto { self.new.upto ≡ self.old.upto }
    {
        match entry {
            Entry::Own { from, targets } => self.move_amounts(*from, targets),
            Entry::Round {
                account,
                round: _,
                decision,
                targets,
            } => {
                if decision.ok {
                    self.move_amounts(*account, targets);
                }
            }
        }
    }

    /// Adds what a record says of a round.
    fn add_decision(&mut self, entry: &Entry)
        requires sums { HasSums self.old.accounts entry.now }
        requires rounds { FitsRound self.old.accounts entry.now }
        ensures sized { length self.new.accounts ≡ length self.old.accounts }
        ensures all_sums { (a : ℕ) → a < length self.old.accounts
            → sums_at self.new.accounts a ≡ with_decided_round a entry.now
            (sums_at self.old.accounts a) }
        ensures upto { self.new.upto ≡ self.old.upto }
    {
        match entry {
            Entry::Own {
                from: _,
                targets: _,
            } => {}
            Entry::Round {
                account,
                round,
                decision,
                targets: _,
            } => self.accounts[*account as usize].settle(*round, decision),
        }
    }

    /// Takes the amounts from their source and adds each to its target.
    fn move_amounts(&mut self, from: u32, targets: &Targets)
        requires source { from < length self.old.accounts }
        requires targets { AreTargetsOn (length self.old.accounts) targets.now }
        requires amounts { FitsMore self.old.accounts }
        ensures sized { length self.new.accounts ≡ length self.old.accounts }
        ensures all_sums { (a : ℕ) → a < length self.old.accounts
            → sums_at self.new.accounts a ≡ with_amounts (amount_for a targets.now)
            (if from == a then amount_of targets.now else 0) (sums_at self.old.accounts a) }
        ensures small { amount_of targets.now ≤ 2 ^ 66 }
        ensures upto { self.new.upto ≡ self.old.upto }
    {
        self.accounts[from as usize].debit(targets.sum());
        self.credit(targets);
    }

    /// Adds each amount to its target.
    fn credit(&mut self, targets: &Targets)
        requires targets { AreTargetsOn (length self.old.accounts) targets.now }
        requires amounts { (a : ℕ) → a < length self.old.accounts
            → (sums_at self.old.accounts a).credits + 2 ^ 66 ≤ 2 ^ 128 }
        ensures sized { length self.new.accounts ≡ length self.old.accounts }
        ensures all_sums { (a : ℕ) → a < length self.old.accounts
            → sums_at self.new.accounts a ≡ with_credit (sums_at self.old.accounts a)
            (amount_for a targets.now) }
        ensures upto { self.new.upto ≡ self.old.upto }
    {
        for i in 0..targets.len() {
            self.accounts[targets.to(i) as usize].credit(targets.amount(i));
        }
    }
}
