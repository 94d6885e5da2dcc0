//! Calls of a caller, as exports make them.

ghost use Rattle.std.specs.Prelude.{◌≡◌, ◌≤◌, false, length, IsTrue, Some};
ghost use Rattle.at_c.specs.Prelude.{AreTargetsOn, IsCallOn, most_accounts};
ghost use Rattle.at_c.specs.Callers.{OwnCallerTerms};
ghost use Rattle.at_c.specs.declared.held.Held.{Held};
ghost use Rattle.at_c.specs.Exports.{CallerAnswers, HandleAnswers, HandlePays};

use crate::caller::Caller;
use crate::handle::Handle;
use crate::held::Held;
use crate::outcome::{Answer, Outcome};
use crate::target::{Target, targets_of};
use at_ledger::{Call, Targets};
use std::alloc::Global;

/// Whether each target is an account of these.
fn are_targets_on(targets: &Targets, accounts: u32) -> bool
    ensures yes { IsTrue result → AreTargetsOn accounts targets.now }
    ensures no { result ≡ false → ¬ AreTargetsOn accounts targets.now }
{
    let count = targets.len();
    for i in 0..count {
        if targets.to(i) >= accounts {
            return false;
        }
    }
    true
}

/// Whether a call names accounts of these alone.
fn is_call_on(call: &Call, accounts: u32) -> bool
    ensures yes { IsTrue result → IsCallOn accounts call.now }
    ensures no { result ≡ false → ¬ IsCallOn accounts call.now }
{
    match call {
        Call::Transfer { from, to, .. } => *from < accounts && *to < accounts,
        Call::Read { account } => *account < accounts,
        Call::Pay { from, targets } => *from < accounts && are_targets_on(targets, accounts),
    }
}

impl Caller {
    /// Makes a call, where its accounts are there and there is room for its receipt.
    #[inline(always)]
    fn answer(&mut self, call: Call, answer: &mut Answer) -> Outcome
        ensures answers { CallerAnswers call self.old self.new answer.old answer.new result }
        ensures few { length self.old.shared.ledger.book.accounts ≤ most_accounts }
    {
        if !is_call_on(&call, self.accounts()) {
            return Outcome::NoAccount;
        }
        if self.made() >= self.room() {
            return Outcome::NoRoom;
        }
        let called = self.call(call);
        *answer = Answer::of(called.reply, called.steps, called.exchanges);
        Outcome::Done
    }
}

impl Held {
    /// Makes a call by the caller that this is.
    #[inline(always)]
    fn call(&mut self, call: Call, answer: &mut Answer) -> Outcome
        ensures answers { HandleAnswers call (Some self.old) (Some self.new) answer.old answer.new
            result }
        ensures few { (c : OwnCallerTerms) → self.old ≡ Held.Caller c
            → length c.shared.ledger.book.accounts ≤ most_accounts }
    {
        match self {
            Held::Caller(caller) => caller.answer(call, answer),
            Held::Nothing => Outcome::WrongHandle,
            Held::Ledger(_) => Outcome::WrongHandle,
            Held::Ending(_) => Outcome::WrongHandle,
        }
    }
}

impl Handle {
    /// Makes a call by the caller that the handle holds. Each export knows the kind of its call, so that in its place less of this is
    /// left.
    #[inline(always)]
    pub(crate) fn call(&mut self, alloc: Global, call: Call, answer: &mut Answer) -> Outcome
        ensures answers { HandleAnswers call self.old.held self.new.held answer.old answer.new
            result }
        ensures few { (c : OwnCallerTerms) → self.old.held ≡ Some (Held.Caller c)
            → length c.shared.ledger.book.accounts ≤ most_accounts }
    {
        let Some(mut held) = self.take(alloc) else {
            return Outcome::WrongHandle;
        };
        let outcome = held.call(call, answer);
        self.put(held);
        outcome
    }

    /// Makes a pay-out to these targets, where they are few enough to be one.
    pub(crate) fn pay(
        &mut self,
        alloc: Global,
        from: u32,
        targets: &[Target],
        answer: &mut Answer,
    ) -> Outcome
        ensures { HandlePays from targets.now self.old.held self.new.held answer.old answer.new
            result }
    {
        match targets_of(targets) {
            Some(targets) => self.call(alloc, Call::Pay { from, targets }, answer),
            None => Outcome::NoPayOut,
        }
    }
}
