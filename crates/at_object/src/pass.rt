//! Passes: the right of one process to make calls.

ghost use Rattle.std.specs.Prelude.{◌≡◌, ◌<◌, ◌^◌, ℕ, length};
ghost use Rattle.at_object.specs.Prelude.{named, HasSlot};
ghost use Rattle.at_object.specs.Passes.{asked_by, others_counted, sent_by};

use crate::parts::Rest;
use at_board::BoardSeat;
use std::marker::Model;

/// The right of one process to make calls on a ledger, with what it has seen of it. One thread uses it at a time. A ledger is
/// closed with all its passes, so where one is dropped the ledger can't be closed.
#[derive(Drop)]
pub struct Pass {
    pub(crate) seat: BoardSeat,
    pub(crate) rest: Rest,
}

impl Model for Pass {
    ghost use Rattle.at_object.specs.Parted.{IsOfOnePass, pass_of};
    ghost use Rattle.at_object.specs.Passes.{PassTerms};

    ghost Value = { PassTerms };

    ghost view = { λ p. pass_of p.seat p.rest };

    ghost invariant = { λ p. IsOfOnePass p.seat p.rest };
}

impl Pass {
    /// The process that the pass belongs to.
    pub fn process(&self) -> u32
        ensures { result ≡ self.now.knows.first }
    {
        self.seat.process()
    }

    /// How many payments from single accounts have succeeded for the process.
    pub fn sent(&self) -> u32
        ensures { result ≡ sent_by self.now }
    {
        self.rest.sent
    }

    /// How many payments from a shared account the process has asked for. Each was decided in a round of its own, done or short.
    /// It is 0 on an account that the process doesn't share.
    pub fn asked(&self, account: u32) -> u32
        requires { account < length self.now.knows.book.accounts }
        ensures asked { result ≡ asked_by self.now account }
        ensures rounds { (slot : ℕ) → HasSlot self.now.knows.book self.now.knows.first account slot
            → result ≡ named account slot self.now.knows.seen }
        ensures none { ((slot : ℕ) → ¬ HasSlot self.now.knows.book self.now.knows.first account
            slot)
            → result ≡ 0 }
    {
        self.seat.known();
        self.seat.announced(account)
    }

    /// How many steps the pass has made: atomic loads, stores and compare-exchanges of words, and notes made and taken in. At the
    /// largest number it stays.
    pub fn steps(&self) -> u64
        ensures { result ≡ self.now.steps }
    {
        self.seat.steps()
    }

    /// How many of its steps were exchanges: compare-exchanges of a word, and notes made and taken in. At the largest number it stays.
    pub fn exchanges(&self) -> u64
        ensures { result ≡ self.now.exchanges }
    {
        self.seat.exchanges()
    }

    /// How many records of other processes its calls and looks have loaded and counted. The work is in proportion to the processes.
    pub fn others_counted(&self) -> u64
        ensures count { result ≡ others_counted self.now }
        ensures small { result < 2 ^ 37 }
    {
        self.seat.known();
        let totals = &self.rest.totals;
        totals.upto().total() - u64::from(totals.counted(self.seat.process()))
    }

    /// How many calls of `transfer`, `pay` and `read` were made with the pass. At the largest number it stays.
    pub fn calls(&self) -> u64
        ensures { result ≡ self.now.calls }
    {
        self.rest.calls.count()
    }
}
