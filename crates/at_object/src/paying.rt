//! What a transfer and a pay-out do alike.

ghost use Rattle.std.specs.Prelude.{◌≡◌, ◌≢◌, ℕ, ◌+◌, ◌*◌, ◌<◌, ◌≤◌, ◌++◌, [], ◌∷◌, Some, length, true, false};
ghost use Rattle.at_object.specs.Prelude.{raised, RECORD_WORDS, AreRuns, is_shared, is_single, slots_of, account_of, is_owner, AreTargetsOn, IsCallOn, payout_of, decides_made, decides_on, IsOnlyOwner};
ghost use Rattle.at_object.specs.Calls.{PaymentMade};
ghost use Rattle.at_object.specs.Passes.{IsPassOf, counted_anew, one_more_call, past_call};
ghost use Rattle.at_object.specs.Payments.{has_used_up, payment_steps, shared_steps, single_steps};

use crate::ledger::Ledger;
use crate::parts::sent_after;
use crate::pass::Pass;
use at_ledger::{Call, Reply, Targets};
use at_log::At;
use at_payments::{pay_shared, pay_single};
use std::snapshot::Snapshot;

impl Ledger {
    /// Makes a payment, whichever call it is of: the reply, and where the call stands.
    pub(crate) fn pay_out(
        &self,
        pass: &mut Pass,
        source: u32,
        targets: &Targets,
        call: &Call,
    ) -> (Reply, At)
        requires pass { IsPassOf pass.old self.now }
        requires source { source < length self.now.book.accounts }
        requires targets { AreTargetsOn (length self.now.book.accounts) targets.now }
        requires call { payout_of call.now ≡ Some (source, targets.now) }
        requires call_in { IsCallOn (length self.now.book.accounts) call.now }
        ensures made { PaymentMade self.now.book pass.old pass.new source targets.now call.now
            (record { call = call.now; reply = result.0; at = result.1 }) }
        ensures runs { AreRuns self.now.book pass.new.knows.seen }
        ensures pass { IsPassOf pass.new self.now }
        ensures calls { pass.new.calls ≡ one_more_call pass.old.calls }
        ensures past { pass.new.past ≡ pass.old.past ++ past_call pass.old pass.new
            (record { call = call.now; reply = result.0; at = result.1 }) ∷ [] }
        ensures steps { pass.new.steps ≤ pass.old.steps + payment_steps self.now.book source
            + RECORD_WORDS * counted_anew pass.old pass.new }
        ensures risen { pass.old.steps ≤ pass.new.steps }
        ensures exchanges { pass.new.exchanges
            ≡ raised pass.old.exchanges (decides_made source pass.old.knows pass.new.knows) }
        ensures exchanges_single { is_shared (account_of self.now.book source) ≡ false
            → pass.new.exchanges ≡ pass.old.exchanges }
        ensures decides { decides_made source pass.old.knows pass.new.knows
            ≤ slots_of (account_of self.now.book source) }
        ensures decides_elsewhere { (a : ℕ) → a ≢ source
            → decides_on pass.new.knows a ≡ decides_on pass.old.knows a }
    {
        pass.seat.known();
        match pass.rest.refusal(&self.board, &pass.seat, source) {
            Some(reply) => pass.rest.refuse(&self.board, &pass.seat, call, reply),
            None if self.book().owner_count(source) == 1 => {
                self.pay_from_single(pass, source, targets, call)
            }
            None => self.pay_from_shared(pass, source, targets, call),
        }
    }

    /// A payment from an account of one owner.
    fn pay_from_single(
        &self,
        pass: &mut Pass,
        source: u32,
        targets: &Targets,
        call: &Call,
    ) -> (Reply, At)
        requires pass { IsPassOf pass.old self.now }
        requires source { source < length self.now.book.accounts }
        requires targets { AreTargetsOn (length self.now.book.accounts) targets.now }
        requires call { payout_of call.now ≡ Some (source, targets.now) }
        requires owner { IsOnlyOwner self.now.book pass.old.knows.first source }
        requires room { has_used_up self.now.book pass.old source ≡ false }
        ensures made { PaymentMade self.now.book pass.old pass.new source targets.now call.now
            (record { call = call.now; reply = result.0; at = result.1 }) }
        ensures runs { AreRuns self.now.book pass.new.knows.seen }
        ensures pass { IsPassOf pass.new self.now }
        ensures calls { pass.new.calls ≡ one_more_call pass.old.calls }
        ensures past { pass.new.past ≡ pass.old.past ++ past_call pass.old pass.new
            (record { call = call.now; reply = result.0; at = result.1 }) ∷ [] }
        ensures steps { pass.new.steps ≤ pass.old.steps + single_steps self.now.book.processes
            + RECORD_WORDS * counted_anew pass.old pass.new }
        ensures risen { pass.old.steps ≤ pass.new.steps }
        ensures exchanges { pass.new.exchanges ≡ pass.old.exchanges }
        ensures decides { (a : ℕ) → decides_on pass.new.knows a ≡ decides_on pass.old.knows a }
    {
        pass.seat.known();
        let start = Snapshot::of(&pass.seat);
        let paid = pay_single(
            &self.board,
            &mut pass.seat,
            &mut pass.rest.totals,
            source,
            targets,
        );
        pass.seat.known();
        pass.rest.sent = sent_after(pass.rest.sent, &paid.0);
        let (reply, at) = &paid;
        pass.rest
            .calls
            .count_one(&start, &pass.seat, &pass.rest.totals, call, reply, at);
        paid
    }

    /// A payment from a shared account.
    fn pay_from_shared(
        &self,
        pass: &mut Pass,
        source: u32,
        targets: &Targets,
        call: &Call,
    ) -> (Reply, At)
        requires pass { IsPassOf pass.old self.now }
        requires source { source < length self.now.book.accounts }
        requires targets { AreTargetsOn (length self.now.book.accounts) targets.now }
        requires call { payout_of call.now ≡ Some (source, targets.now) }
        requires shared { is_shared (account_of self.now.book source) ≡ true }
        requires owner { is_owner self.now.book pass.old.knows.first source ≡ true }
        requires room { has_used_up self.now.book pass.old source ≡ false }
        ensures made { PaymentMade self.now.book pass.old pass.new source targets.now call.now
            (record { call = call.now; reply = result.0; at = result.1 }) }
        ensures runs { AreRuns self.now.book pass.new.knows.seen }
        ensures pass { IsPassOf pass.new self.now }
        ensures calls { pass.new.calls ≡ one_more_call pass.old.calls }
        ensures past { pass.new.past ≡ pass.old.past ++ past_call pass.old pass.new
            (record { call = call.now; reply = result.0; at = result.1 }) ∷ [] }
        ensures steps { pass.new.steps ≤ pass.old.steps + shared_steps self.now.book.processes
            (slots_of (account_of self.now.book source))
            + RECORD_WORDS * counted_anew pass.old pass.new }
        ensures risen { pass.old.steps ≤ pass.new.steps }
        ensures exchanges { pass.new.exchanges
            ≡ raised pass.old.exchanges (decides_made source pass.old.knows pass.new.knows) }
        ensures decides { decides_made source pass.old.knows pass.new.knows
            ≤ slots_of (account_of self.now.book source) }
        ensures decides_elsewhere { (a : ℕ) → a ≢ source
            → decides_on pass.new.knows a ≡ decides_on pass.old.knows a }
    {
        pass.seat.known();
        let start = Snapshot::of(&pass.seat);
        let paid = pay_shared(
            &self.board,
            &mut pass.seat,
            &mut pass.rest.totals,
            source,
            targets,
        );
        pass.seat.known();
        let (reply, at) = &paid;
        pass.rest
            .calls
            .count_one(&start, &pass.seat, &pass.rest.totals, call, reply, at);
        paid
    }
}
