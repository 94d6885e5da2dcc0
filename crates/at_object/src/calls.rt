//! Any call.

ghost use Rattle.std.specs.Prelude.{◌≡◌, ◌++◌, [], ◌∷◌, length};
ghost use Rattle.at_object.specs.Prelude.{AreRuns, IsCallOn};
ghost use Rattle.at_object.specs.Calls.{CallMade, StaysWithin};
ghost use Rattle.at_object.specs.Passes.{IsPassOf, one_more_call, past_call};

use crate::ledger::Ledger;
use crate::pass::Pass;
use at_ledger::Call;
use at_log::Receipt;

impl Ledger {
    /// Makes a call: `transfer`, `pay` and `read` are its three cases. What it leaves of the pass, and what it may take, is said by
    /// the two records of the first two clauses. Takes no memory.
    ///
    /// It stands in the place of each call of it: whoever knows the kind of a call, as an export of the library for C does, is left
    /// with one of the three cases.
    #[inline(always)]
    pub fn call(&self, pass: &mut Pass, call: Call) -> Receipt
        requires pass { IsPassOf pass.old self.now }
        requires accounts { IsCallOn (length self.now.book.accounts) call }
        ensures made { CallMade self.now.book pass.old pass.new call result }
        ensures within { StaysWithin self.now.book pass.old pass.new call result }
        ensures runs { AreRuns self.now.book pass.new.knows.seen }
        ensures pass { IsPassOf pass.new self.now }
        ensures calls { pass.new.calls ≡ one_more_call pass.old.calls }
        ensures past { pass.new.past ≡ pass.old.past ++ past_call pass.old pass.new result ∷ [] }
    {
        match call {
            Call::Transfer { from, to, amount } => self.transfer(pass, from, to, amount),
            Call::Read { account } => self.read(pass, account),
            Call::Pay { from, targets } => self.pay(pass, from, targets),
        }
    }
}
