//! Reads, and looks at all balances.

ghost use Rattle.std.specs.Prelude.{◌≡◌, ℕ, ◌<◌, ◌++◌, List, [], ◌∷◌, length, slice_index};
ghost use Rattle.at_object.specs.Prelude.{AreRuns, Call, CountsCut, HasCounted, Publication, balance_after, prefix_of};
ghost use Rattle.at_object.specs.Calls.{ReadMade, StaysWithin};
ghost use Rattle.at_object.specs.Looks.{HasSeenBalances, TakesLook};
ghost use Rattle.at_object.specs.Passes.{IsPassOf, one_more_call, past_call};

use crate::ledger::Ledger;
use crate::pass::Pass;
use at_fold::Totals;
use at_ledger::Book;
use at_log::Receipt;
use at_payments::{look, read_account};
use std::snapshot::Snapshot;

impl Ledger {
    /// The balance of an account, at the cut of a snapshot that the call takes. Takes no memory.
    pub fn read(&self, pass: &mut Pass, account: u32) -> Receipt
        requires pass { IsPassOf pass.old self.now }
        requires account { account < length self.now.book.accounts }
        ensures made { ReadMade self.now.book pass.old pass.new account result }
        ensures within { StaysWithin self.now.book pass.old pass.new (Call.Read account) result }
        ensures runs { AreRuns self.now.book pass.new.knows.seen }
        ensures pass { IsPassOf pass.new self.now }
        ensures calls { pass.new.calls ≡ one_more_call pass.old.calls }
        ensures past { pass.new.past ≡ pass.old.past ++ past_call pass.old pass.new result ∷ [] }
    {
        pass.seat.known();
        let start = Snapshot::of(&pass.seat);
        let receipt = read_account(&self.board, &mut pass.seat, &mut pass.rest.totals, account);
        pass.seat.known();
        let Receipt { call, reply, at } = &receipt;
        pass.rest
            .calls
            .count_one(&start, &pass.seat, &pass.rest.totals, call, reply, at);
        receipt
    }

    /// The balance of each account, all at the cut of one snapshot, so they sum to what the book opens with, whatever is under way. It is
    /// no call: it has no receipt, no line in a journal, and what it costs is in no call's cost. Reads of single accounts, one after
    /// another, needn't sum to the total. The work is at most that of a read, and in proportion to the accounts. Takes no memory.
    pub fn balances(&self, pass: &mut Pass, out: &mut [u64])
        requires pass { IsPassOf pass.old self.now }
        requires room { length out.old ≡ length self.now.book.accounts }
        ensures seen { HasSeenBalances self.now.book pass.old pass.new out.new }
        ensures within { TakesLook self.now.book pass.old pass.new }
        ensures runs { AreRuns self.now.book pass.new.knows.seen }
        ensures pass { IsPassOf pass.new self.now }
        ensures calls { pass.new.calls ≡ pass.old.calls }
        ensures past { pass.new.past ≡ pass.old.past }
    {
        pass.seat.known();
        let _ = look(&self.board, &mut pass.seat, &mut pass.rest.totals);
        pass.seat.known();
        pass.rest.calls.count_look(&pass.seat, &pass.rest.totals);
        put_balances(self.board.book(), &pass.rest.totals, out);
    }
}

/// Each account's balance at the cut that the totals have counted.
fn put_balances(book: &Book, totals: &Totals, out: &mut [u64])
    requires counted { (seen : List Publication) × HasCounted totals.now book.now seen × CountsCut totals.now book.now seen }
    requires room { length out.old ≡ length book.now.accounts }
    ensures sized { length out.new ≡ length book.now.accounts }
    ensures each { (seen : List Publication) → HasCounted totals.now book.now seen → CountsCut totals.now book.now seen
        → (a : ℕ) → a < length book.now.accounts
        → slice_index out.new a ≡ balance_after book.now (prefix_of totals.now.upto seen) a }
{
    let count = book.accounts();
    for account in 0..count {
        out[account as usize] = totals.balance(account);
    }
}
