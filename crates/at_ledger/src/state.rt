//! The sequential ledger.

ghost use Rattle.std.specs.Prelude.{◌≡◌, ◌+◌, ◌^◌, ◌<◌, ◌≤◌, length, sum, true, false, IfOk};
ghost use Rattle.at_ledger.specs.Call.{AreTargetsOn, amount_of};
ghost use Rattle.at_ledger.specs.State.{credited};

use crate::book::Book;
use crate::call::{Call, Reply};
use crate::targets::Targets;
use std::alloc::{AllocError, Global};
use std::marker::Model;

/// The balances, and the room that each process has used.
#[derive(Drop)]
pub struct State {
    book: Book,
    balances: Vec<u64>,
    sent: Vec<u32>,
    asked: Vec<u32>,
}

impl Model for State {
    ghost use Rattle.at_ledger.specs.State.{LedgerState, IsLedger};

    ghost Value = { LedgerState };

    ghost view = { λ s. record {
      book = s.book;
      balances = s.balances.items;
      sent = s.sent.items;
      asked = s.asked.items;
    } };

    ghost invariant = { λ s. IsLedger (record {
      book = s.book;
      balances = s.balances.items;
      sent = s.sent.items;
      asked = s.asked.items;
    }) };
}

impl State {
    ghost use Rattle.at_ledger.specs.Book.{is_owner, total_of};
    ghost use Rattle.at_ledger.specs.Call.{IsCallOn};
    ghost use Rattle.at_ledger.specs.State.{IsLedger, after_short, asked_of, asked_position, balance_of, carried, counted, is_full, moved, opening_state, pay, sent_of, step, with_asked, with_sent};

    /// The openings, with no room used. The state keeps a copy of the book.
    pub fn new(alloc: Global, book: &Book) -> Result<State, AllocError>
        ensures { IfOk result (λ s. s ≡ opening_state book.now) }
    {
        let processes = book.processes() as usize;
        let accounts = book.accounts() as usize;
        Ok(State {
            book: book.copy(alloc)?,
            balances: book.openings(alloc)?,
            sent: vec![in alloc; 0; processes]?,
            asked: vec![in alloc; 0; processes * accounts]?,
        })
    }

    /// Does one call. Takes no memory, and time in proportion to the owners of the source and the targets.
    pub fn step(&mut self, process: u32, call: &Call) -> Reply
        requires process_in { process < self.old.book.processes }
        requires call_in { IsCallOn (length self.old.book.accounts) call.now }
        ensures state { self.new ≡ (step self.old process call.now).ledger }
        ensures reply { result ≡ (step self.old process call.now).reply }
        ensures book { self.new.book ≡ self.old.book }
    {
        self.book.known();
        match call.payout() {
            Some((from, targets)) => self.pay(process, from, &targets),
            None => Reply::Balance(self.balance(call.first_account())),
        }
    }

    /// Does one pay-out, as `step` does.
    pub fn pay(&mut self, process: u32, from: u32, targets: &Targets) -> Reply
        requires process_in { process < self.old.book.processes }
        requires source_in { from < length self.old.book.accounts }
        requires targets_in { AreTargetsOn (length self.old.book.accounts) targets.now }
        ensures state { self.new ≡ (pay self.old process from targets.now).ledger }
        ensures reply { result ≡ (pay self.old process from targets.now).reply }
        ensures book { self.new.book ≡ self.old.book }
    {
        if !self.book.is_owner(process, from) {
            return Reply::NotOwner;
        }
        if self.is_full(process, from) {
            return Reply::Full;
        }
        if u128::from(self.balance(from)) < targets.sum() {
            self.count_short(process, from);
            return Reply::Short;
        }
        self.move_amounts(from, targets);
        self.count_done(process, from);
        Reply::Done
    }

    /// The balance of the account.
    pub fn balance(&self, account: u32) -> u64
        requires { account < length self.now.book.accounts }
        ensures balance { result ≡ balance_of self.now account }
        ensures checked { IsLedger self.now }
    {
        self.balances[account as usize]
    }

    /// How many transfers from single accounts have succeeded for the process.
    pub fn sent(&self, process: u32) -> u32
        requires { process < self.now.book.processes }
        ensures { result ≡ sent_of self.now process }
    {
        self.sent[process as usize]
    }

    /// How many requests the process has made on the shared account.
    pub fn asked(&self, process: u32, account: u32) -> u32
        requires process_in { process < self.now.book.processes }
        requires account_in { account < length self.now.book.accounts }
        ensures { result ≡ asked_of self.now process account }
    {
        self.asked[self.asked_position(process, account)]
    }

    /// The sum of the balances, which no call changes.
    pub fn total(&self) -> u64
        ensures balances { result ≡ sum self.now.balances }
        ensures openings { result ≡ total_of self.now.book }
        ensures checked { IsLedger self.now }
    {
        self.balances.iter().sum()
    }

    /// The book of the next ledger: these balances are its openings, and no room is used. All else of the book is as it was.
    pub fn carried(&self, alloc: Global) -> Result<Book, AllocError>
        ensures carried { IfOk result (λ b. b ≡ carried self.now) }
        ensures total { IfOk result (λ b. total_of b ≡ total_of self.now.book) }
    {
        self.book.with_openings(alloc, self.balances.as_slice())
    }

    fn asked_position(&self, process: u32, account: u32) -> usize
        requires process_in { process < self.now.book.processes }
        requires account_in { account < length self.now.book.accounts }
        ensures position { result ≡ asked_position self.now.book process account }
        ensures within { result < length self.now.asked }
    {
        process as usize * self.book.accounts() as usize + account as usize
    }

    fn is_full(&self, process: u32, source: u32) -> bool
        requires process_in { process < self.now.book.processes }
        requires source_in { source < length self.now.book.accounts }
        ensures { result ≡ is_full self.now process source }
    {
        if self.book.is_shared(source) {
            self.asked(process, source) == self.book.request_room()
        } else {
            self.book.is_single(source) && self.sent(process) == self.book.own_room()
        }
    }

    /// Takes the sum from the source, and then adds each amount to its target.
    fn move_amounts(&mut self, source: u32, targets: &Targets)
        requires source_in { source < length self.old.book.accounts }
        requires targets_in { AreTargetsOn (length self.old.book.accounts) targets.now }
        requires covered { amount_of targets.now ≤ balance_of self.old source }
        ensures { self.new ≡ moved self.old source targets.now }
    {
        let balance = self.balance(source);
        self.balances[source as usize] = balance - targets.sum() as u64;
        credit(&mut self.balances, targets);
    }

    /// Counts a payment that was short of balance.
    fn count_short(&mut self, process: u32, source: u32)
        requires process_in { process < self.old.book.processes }
        requires source_in { source < length self.old.book.accounts }
        requires room { is_full self.old process source ≡ false }
        ensures { self.new ≡ after_short self.old process source }
    {
        if self.book.is_shared(source) {
            self.count_asked(process, source);
        }
    }

    /// Counts a success.
    fn count_done(&mut self, process: u32, source: u32)
        requires process_in { process < self.old.book.processes }
        requires source_in { source < length self.old.book.accounts }
        requires owner { is_owner self.old.book process source ≡ true }
        requires room { is_full self.old process source ≡ false }
        ensures { self.new ≡ counted self.old process source }
    {
        if self.book.is_shared(source) {
            self.count_asked(process, source);
        } else {
            self.count_sent(process);
        }
    }

    /// Counts a request on a shared account.
    fn count_asked(&mut self, process: u32, account: u32)
        requires process_in { process < self.old.book.processes }
        requires account_in { account < length self.old.book.accounts }
        requires room { asked_of self.old process account < self.old.book.request_room }
        ensures { self.new ≡ with_asked self.old process account }
    {
        let position = self.asked_position(process, account);
        self.asked[position] += 1;
    }

    /// Counts a success on a single account.
    fn count_sent(&mut self, process: u32)
        requires process_in { process < self.old.book.processes }
        requires room { sent_of self.old process < self.old.book.own_room }
        ensures { self.new ≡ with_sent self.old process }
    {
        self.sent[process as usize] += 1;
    }
}

/// Adds each amount to its target, in order.
fn credit(balances: &mut [u64], targets: &Targets)
    requires targets_in { AreTargetsOn (length balances.old) targets.now }
    requires fits { sum balances.old + amount_of targets.now < 2 ^ 64 }
    ensures credited { balances.new ≡ credited balances.old targets.now }
    ensures total { sum balances.new ≡ sum balances.old + amount_of targets.now }
{
    for i in 0..targets.len() {
        balances[targets.to(i) as usize] += targets.amount(i);
    }
}
