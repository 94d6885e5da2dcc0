//! What is counted of one account.

ghost use Rattle.std.specs.Prelude.{◌≡◌, ◌+◌, ◌-◌, ◌*◌, ◌<◌, ◌≤◌, ◌^◌, false, length, IfOk};
ghost use Rattle.at_fold.specs.Sums.{answer_at, is_counted, slot_at, starting_sums, with_credit, with_debit, with_round};

use crate::slot_totals::SlotTotals;
use at_base::Decision;
use at_ledger::Book;
use std::alloc::{AllocError, Global};
use std::marker::Model;

/// What the records counted have added to an account and taken from it, and what they say of its rounds.
/// Credits and debits are kept apart: a debit may be counted before the credit that covers it.
#[derive(Drop)]
pub(crate) struct AccountTotals {
    opening: u64,
    credits: u128,
    debits: u128,
    rounds: u32,
    is_counted: Vec<bool>,
    slots: Vec<SlotTotals>,
}

impl Model for AccountTotals {
    ghost use Rattle.at_fold.specs.Sums.{AccountSums};

    ghost Value = { AccountSums };

    ghost view = { λ a. record {
      opening = a.opening;
      credits = a.credits;
      debits = a.debits;
      rounds = a.rounds;
      is_counted = a.is_counted.items;
      slots = a.slots.items;
    } };
}

impl AccountTotals {
    /// Nothing counted of an account of the book.
    pub(crate) fn new(alloc: Global, book: &Book, account: u32) -> Result<AccountTotals, AllocError>
        requires { account < length book.now.accounts }
        ensures { IfOk result (λ a. a ≡ starting_sums book.now account) }
    {
        book.known();
        let slot_count = book.slot_count(account);
        let rounds_room = slot_count * book.request_room();
        let is_counted = vec![in alloc; false; rounds_room as usize]?;
        let mut slots = Vec::new(alloc);
        for _slot in 0..slot_count {
            slots.push(SlotTotals::new(alloc, book.request_room())?)?;
        }
        Ok(AccountTotals {
            opening: book.opening(account),
            credits: 0,
            debits: 0,
            rounds: 0,
            is_counted,
            slots,
        })
    }

    /// The opening with what was added, less what was taken.
    pub(crate) fn balance(&self) -> u64
        requires room { self.now.credits + 2 ^ 64 ≤ 2 ^ 128 }
        requires covered { self.now.debits ≤ self.now.opening + self.now.credits }
        requires fits { self.now.opening + self.now.credits - self.now.debits < 2 ^ 64 }
        ensures { result ≡ self.now.opening + self.now.credits - self.now.debits }
    {
        (u128::from(self.opening) + self.credits - self.debits) as u64
    }

    pub(crate) fn rounds(&self) -> u32
        ensures { result ≡ self.now.rounds }
    {
        self.rounds
    }

    /// Whether a record of the round is counted.
    pub(crate) fn is_counted(&self, round: u32) -> bool
        requires { round < length self.now.is_counted }
        ensures { result ≡ is_counted self.now round }
    {
        self.is_counted[round as usize]
    }

    pub(crate) fn done(&self, slot: u32) -> u32
        requires { slot < length self.now.slots }
        ensures { result ≡ (slot_at self.now slot).done }
    {
        self.slots[slot as usize].done()
    }

    /// The round and the decision of a request, if it is counted.
    pub(crate) fn settled(&self, slot: u32, number: u32) -> Option<(u32, Decision)>
        requires slot { slot < length self.now.slots }
        requires number { number < length (slot_at self.now slot).settled }
        ensures { result ≡ answer_at (slot_at self.now slot) number }
    {
        self.slots[slot as usize].settled(number)
    }

    pub(crate) fn credit(&mut self, amount: u64)
        requires { self.old.credits + amount < 2 ^ 128 }
        ensures { self.new ≡ with_credit self.old amount }
    {
        self.credits += u128::from(amount);
    }

    pub(crate) fn debit(&mut self, amount: u128)
        requires { self.old.debits + amount < 2 ^ 128 }
        ensures { self.new ≡ with_debit self.old amount }
    {
        self.debits += amount;
    }

    /// Counts a round.
    pub(crate) fn settle(&mut self, round: u32, decision: &Decision)
        requires round { round < length self.old.is_counted }
        requires slot { decision.now.slot < length self.old.slots }
        requires number { decision.now.number < length
            (slot_at self.old decision.now.slot).settled }
        requires rounds { self.old.rounds + 1 < 2 ^ 32 }
        requires done { (slot_at self.old decision.now.slot).done + 1 < 2 ^ 32 }
        ensures { self.new ≡ with_round self.old round decision.now }
    {
        self.rounds += 1;
        self.is_counted[round as usize] = true;
        self.slots[decision.slot as usize].settle(round, decision);
    }
}
