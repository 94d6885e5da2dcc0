//! Callers: a pass with its ledger and the receipts of its calls.

ghost use Rattle.std.specs.Prelude.{◌≡◌, ℕ, ◌<◌, ◌≤◌, ◌^◌, [], length, IfErr};
ghost use Rattle.at_c.specs.Prelude.{arc_value, vec_capacity, IsCallOn, most_accounts, IsNewPass};
ghost use Rattle.at_c.specs.Callers.{CallerLearns, CallerNotes, CallerTellsBalances, LooksAtBalances, MakesCall};

use crate::given::Given;
use crate::outcome::Outcome;
use crate::shared::Shared;
use at_ledger::{Call, Reply};
use at_log::Receipt;
use at_object::{Ledger, Pass};
use std::alloc::Global;
use std::marker::Model;
use std::sync::Arc;

/// The pass of a process, the ledger that it is of, and the receipts of its calls. It has the memory for so many receipts from the
/// start.
#[derive(Drop)]
pub struct Caller {
    shared: Arc<Shared>,
    pass: Pass,
    receipts: Vec<Receipt>,
}

impl Model for Caller {
    ghost use Rattle.at_c.specs.Prelude.{arc_value, vec_capacity};
    ghost use Rattle.at_c.specs.Callers.{OwnCallerTerms, IsCaller};

    ghost Value = { OwnCallerTerms };

    ghost view = { λ c. record {
      shared = arc_value c.shared;
      pass = c.pass;
      receipts = c.receipts.items;
      room = vec_capacity c.receipts;
    } };

    ghost invariant = { λ c. IsCaller (record {
      shared = arc_value c.shared;
      pass = c.pass;
      receipts = c.receipts.items;
      room = vec_capacity c.receipts;
    }) };
}

/// What a call answered, and what it took.
#[derive(Drop)]
pub(crate) struct Called {
    pub(crate) reply: Reply,
    pub(crate) steps: u64,
    pub(crate) exchanges: u64,
}

impl Caller {
    /// The caller of a new pass. The memory of its receipts was taken before.
    pub(crate) fn new(shared: Arc<Shared>, pass: Pass, receipts: Vec<Receipt>) -> Caller
        requires pass { (process : ℕ) × (process < (arc_value shared).ledger.book.processes)
            × IsNewPass (arc_value shared).ledger process pass }
        requires empty { receipts.items ≡ [] }
        requires few { vec_capacity receipts < 2 ^ 32 }
        ensures { result ≡ record {
          shared = arc_value shared;
          pass = pass;
          receipts = [];
          room = vec_capacity receipts;
        } }
    {
        Caller {
            shared,
            pass,
            receipts,
        }
    }

    /// How many receipts there are.
    pub(crate) fn made(&self) -> usize
        ensures { result ≡ length self.now.receipts }
    {
        self.receipts.len()
    }

    /// How many there is memory for.
    pub(crate) fn room(&self) -> usize
        ensures { result ≡ self.now.room }
    {
        self.receipts.capacity()
    }

    /// How many accounts the book has.
    pub(crate) fn accounts(&self) -> u32
        ensures count { result ≡ length self.now.shared.ledger.book.accounts }
        ensures few { result ≤ most_accounts }
    {
        let book = self.shared.ledger.book();
        book.known();
        book.accounts()
    }

    /// Makes a call. Takes no memory.
    #[inline(always)]
    pub(crate) fn call(&mut self, call: Call) -> Called
        requires accounts { IsCallOn (length self.old.shared.ledger.book.accounts) call }
        requires room { length self.old.receipts < self.old.room }
        ensures { MakesCall call self.old self.new result.reply result.steps result.exchanges }
    {
        let steps = self.pass.steps();
        let exchanges = self.pass.exchanges();
        let receipt = self.shared.ledger.call(&mut self.pass, call);
        let reply = receipt.reply;
        self.receipts.push_reserved(receipt);
        Called {
            reply,
            steps: self.pass.steps().saturating_sub(steps),
            exchanges: self.pass.exchanges().saturating_sub(exchanges),
        }
    }

    /// How many steps the caller has made.
    pub(crate) fn steps(&self) -> u64
        ensures { result ≡ self.now.pass.steps }
    {
        self.pass.steps()
    }

    /// How many of them were exchanges.
    pub(crate) fn exchanges(&self) -> u64
        ensures { result ≡ self.now.pass.exchanges }
    {
        self.pass.exchanges()
    }

    /// Looks at all balances. Takes no memory.
    fn look(&mut self, balances: &mut [u64])
        requires { length balances.old ≡ length self.old.shared.ledger.book.accounts }
        ensures { LooksAtBalances self.old self.new balances.new }
    {
        self.shared.ledger.balances(&mut self.pass, balances);
    }

    /// Writes the balance of each account over the first numbers, if there are so many. Takes no memory.
    pub(crate) fn balances(&mut self, balances: &mut [u64]) -> Outcome
        ensures { CallerTellsBalances self.old self.new balances.old balances.new result }
    {
        let count = self.accounts() as usize;
        if balances.len() < count {
            return Outcome::NoRoom;
        }
        self.look(&mut balances[..count]);
        Outcome::Done
    }

    /// Leaves a note of what the caller has seen for the caller of a process. Takes no memory.
    pub(crate) fn note(&mut self, process: u32) -> Outcome
        ensures { CallerNotes process self.old self.new result }
    {
        self.shared.note(&mut self.pass, process)
    }

    /// Takes in what the caller of a process has left for this one. Takes no memory.
    pub(crate) fn learn(&mut self, process: u32) -> Outcome
        ensures { CallerLearns process self.old self.new result }
    {
        self.shared.learn(&mut self.pass, process)
    }

    /// Gives the pass and the receipts back to the ledger. Where it can't, the caller is as it was.
    pub(crate) fn give_back(self) -> Result<(), Caller>
        ensures { IfErr result (λ c. c ≡ self) }
    {
        let Caller {
            shared,
            pass,
            receipts,
        } = self;
        match shared.give(Given { pass, receipts }) {
            Ok(()) => Ok(()),
            Err(Given { pass, receipts }) => Err(Caller {
                shared,
                pass,
                receipts,
            }),
        }
    }
}
