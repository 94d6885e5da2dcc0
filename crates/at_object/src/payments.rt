//! Payments.

ghost use Rattle.std.specs.Prelude.{◌≡◌, ◌<◌, ◌++◌, [], ◌∷◌, length};
ghost use Rattle.at_object.specs.Prelude.{AreRuns, AreTargetsOn, Call};
ghost use Rattle.at_object.specs.Calls.{PaymentMade, StaysWithin};
ghost use Rattle.at_object.specs.Passes.{IsPassOf, one_more_call, past_call};

use crate::ledger::Ledger;
use crate::pass::Pass;
use at_ledger::{Call, Targets};
use at_log::Receipt;

impl Ledger {
    /// Moves the amount from one account to another, as the pay-out with this one target does. Takes no memory.
    pub fn transfer(&self, pass: &mut Pass, from: u32, to: u32, amount: u64) -> Receipt
        requires pass { IsPassOf pass.old self.now }
        requires from { from < length self.now.book.accounts }
        requires to { to < length self.now.book.accounts }
        ensures made { PaymentMade self.now.book pass.old pass.new from ((to, amount) ∷ [])
            (Call.Transfer from to amount) result }
        ensures within { StaysWithin self.now.book pass.old pass.new (Call.Transfer from to amount)
            result }
        ensures runs { AreRuns self.now.book pass.new.knows.seen }
        ensures pass { IsPassOf pass.new self.now }
        ensures calls { pass.new.calls ≡ one_more_call pass.old.calls }
        ensures past { pass.new.past ≡ pass.old.past ++ past_call pass.old pass.new result ∷ [] }
    {
        self.book().known();
        let call = Call::Transfer { from, to, amount };
        let (reply, at) = self.pay_out(pass, from, &Targets::one(to, amount), &call);
        Receipt { call, reply, at }
    }

    /// Moves each amount from one account to its target, or none of them. The answer is not-owner where the process doesn't own the
    /// account, full where it has used up its room there, short where the balance doesn't cover the sum, and else done. A short
    /// payment from a shared account uses room too. Takes no memory.
    pub fn pay(&self, pass: &mut Pass, from: u32, targets: Targets) -> Receipt
        requires pass { IsPassOf pass.old self.now }
        requires from { from < length self.now.book.accounts }
        requires targets { AreTargetsOn (length self.now.book.accounts) targets }
        ensures made { PaymentMade self.now.book pass.old pass.new from targets
            (Call.Pay from targets) result }
        ensures within { StaysWithin self.now.book pass.old pass.new (Call.Pay from targets)
            result }
        ensures runs { AreRuns self.now.book pass.new.knows.seen }
        ensures pass { IsPassOf pass.new self.now }
        ensures calls { pass.new.calls ≡ one_more_call pass.old.calls }
        ensures past { pass.new.past ≡ pass.old.past ++ past_call pass.old pass.new result ∷ [] }
    {
        let call = Call::Pay { from, targets };
        let Call::Pay { targets, .. } = &call else {
            unreachable!()
        };
        let (reply, at) = self.pay_out(pass, from, targets, &call);
        Receipt { call, reply, at }
    }
}
