//! A stage of an order.

ghost use Rattle.std.specs.Prelude.{◌≡◌, ℕ, ◌+◌, ◌-◌, ◌^◌, ◌<◌, ◌≤◌, List, length, sum, true, false, OnOk, slice_index, slice_index_or, slice_set, IfOk};
ghost use Rattle.at_orders.specs.Prelude.{is_owner, AreTargetsOn, IsCallOn, TargetPair, amount_of, first_account, LedgerState, balance_of, credited, is_full, moved, pay, step, with_sent, Done};
ghost use Rattle.at_orders.specs.Replies.{range_with};
ghost use Rattle.at_orders.specs.declared.replies.Range.{Range};
ghost use Rattle.at_orders.specs.Stages.{StageTerms, after_success, first_stage, stage_after};
ghost use Rattle.at_orders.specs.Trail.{HaveSameNumbers, IsNextStage, hash_of, hashed};
ghost use Rattle.at_orders.specs.Walk.{AreKept, HasNumbers, HasPlace, IsMadeTo, IsNextCall, IsNextPayment, IsSeen, IsStanding, StandsFor};

use crate::ground::Ground;
use crate::replies::Range;
use at_ledger::{Call, Reply, Targets};
use std::alloc::{AllocError, Global};

/// Odd, and without a pattern: what spreads numbers over all hashes.
const MIXER: u64 = 0x9E37_79B9_7F4A_7C15;

/// How many calls each process has made, and the balances of the accounts that calls name first and the used own room then.
/// The requests follow from the calls, and no reply depends on another balance.
#[derive(PartialEq, Eq, Drop)]
pub(crate) struct Stage {
    made: Vec<u32>,
    balances: Vec<u64>,
    sent: Vec<u16>,
}

impl Stage {
    /// Before the first call.
    pub(crate) fn first(alloc: Global, ground: &Ground) -> Result<Stage, AllocError>
        ensures stage { IfOk result (λ s. StandsFor ground.now s (first_stage ground.now.book)) }
        ensures standing { IfOk result (λ s. IsStanding ground.now s) }
    {
        let book = ground.book();
        let processes = book.processes() as usize;
        let mut balances = Vec::new(alloc);
        for account in ground.named() {
            balances.push(book.opening(*account))?;
        }
        Ok(Stage {
            made: vec![in alloc; 0; processes]?,
            balances,
            sent: vec![in alloc; 0; processes]?,
        })
    }

    /// How many calls the process has made.
    pub(crate) fn made(&self, process: u32) -> u32
        requires { process < length self.now.made.items }
        ensures { result ≡ slice_index self.now.made.items process }
    {
        self.made[process as usize]
    }

    /// The ranges, and in them the balances that are kept.
    pub(crate) fn widen(&self, spans: &mut [Range])
        requires { length spans.old ≡ length self.now.balances.items }
        ensures len { length spans.new ≡ length spans.old }
        ensures widened { (place : ℕ) (d : Range) → place < length spans.old
            → slice_index_or spans.new place d
            ≡ range_with (slice_index_or spans.old place d) (slice_index self.now.balances.items place) }
    {
        for place in 0..spans.len() {
            spans[place] = spans[place].with(self.balances[place]);
        }
    }

    /// The balance of an account that is kept.
    fn balance(&self, ground: &Ground, account: u32) -> u64
        requires standing { IsStanding ground.now self.now }
        requires placed { HasPlace ground.now.places account }
        ensures { (l : LedgerState) → HasNumbers ground.now self.now l
            → result ≡ balance_of l account }
    {
        let _known = ground.book();
        self.balances[ground.place(account)]
    }

    /// What the ledger replies to the next call of the process.
    pub(crate) fn reply(&self, ground: &Ground, process: u32, call: &Call) -> Reply
        requires standing { IsStanding ground.now self.now }
        requires process_in { process < ground.now.book.processes }
        requires call_in { IsCallOn (length ground.now.book.accounts) call.now }
        requires placed { HasPlace ground.now.places (first_account call.now) }
        requires next { IsNextCall ground.now self.now process call.now }
        ensures { (l : LedgerState) → HasNumbers ground.now self.now l
            → result ≡ (step l process call.now).reply }
    {
        let _known = ground.book();
        match call.payout() {
            Some((from, targets)) => self.reply_to_pay(ground, process, from, &targets),
            None => Reply::Balance(self.balance(ground, call.first_account())),
        }
    }

    /// Makes the next call of the process, if it has one, and tells whether it has.
    pub(crate) fn go_on(&mut self, ground: &Ground, process: u32) -> bool
        requires process_in { process < ground.now.book.processes }
        requires seen { IsSeen ground.now self.old }
        ensures led { result ≡ true → IsNextStage ground.now self.old process self.new }
        ensures last { result ≡ false → (call : Call)
            → IsNextCall ground.now self.old process call → ⊥ }
    {
        let Some(call) = ground.file(process).get(self.made(process) as usize) else {
            return false;
        };
        self.advance(ground, process, call);
        true
    }

    /// Makes the next call of the process.
    fn advance(&mut self, ground: &Ground, process: u32, call: &Call)
        requires standing { IsStanding ground.now self.old }
        requires process_in { process < ground.now.book.processes }
        requires call_in { IsCallOn (length ground.now.book.accounts) call.now }
        requires placed { HasPlace ground.now.places (first_account call.now) }
        requires next { IsNextCall ground.now self.old process call.now }
        ensures stage { (t : StageTerms) → StandsFor ground.now self.old t
            → StandsFor ground.now self.new (stage_after t process call.now) }
        ensures standing { IsStanding ground.now self.new }
    {
        let _known = ground.book();
        self.make(ground, process, call);
        self.made[process as usize] += 1;
    }

    /// Becomes the other stage.
    pub(crate) fn set(&mut self, other: &Stage) -> Result<(), AllocError>
        ensures { OnOk result (HaveSameNumbers self.new other.now) }
    {
        self.made.clear();
        self.made.extend_from_slice(other.made.as_slice())?;
        self.balances.clear();
        self.balances.extend_from_slice(other.balances.as_slice())?;
        self.sent.clear();
        self.sent.extend_from_slice(other.sent.as_slice())
    }

    /// The hash of its numbers.
    pub(crate) fn hash(&self) -> u64
        ensures { result ≡ hash_of self.now }
    {
        let made = (self.made.iter()).fold(0, |hash, n| hashed(hash, u64::from(*n)));
        let balances = (self.balances.iter()).fold(made, |hash, n| hashed(hash, *n));
        (self.sent.iter()).fold(balances, |hash, n| hashed(hash, u64::from(*n)))
    }

    /// A stage with the same numbers.
    pub(crate) fn copy(&self, alloc: Global) -> Result<Stage, AllocError>
        ensures { IfOk result (λ s. HaveSameNumbers s self.now) }
    {
        Ok(Stage {
            made: self.made.as_slice().to_vec(alloc)?,
            balances: self.balances.as_slice().to_vec(alloc)?,
            sent: self.sent.as_slice().to_vec(alloc)?,
        })
    }

    /// What the ledger replies to the next call of the process, a payment from this account.
    fn reply_to_pay(&self, ground: &Ground, process: u32, from: u32, targets: &Targets) -> Reply
        requires standing { IsStanding ground.now self.now }
        requires process_in { process < ground.now.book.processes }
        requires source_in { from < length ground.now.book.accounts }
        requires placed { HasPlace ground.now.places from }
        requires next { IsNextPayment ground.now self.now process from targets.now }
        ensures { (l : LedgerState) → HasNumbers ground.now self.now l
            → result ≡ (pay l process from targets.now).reply }
    {
        if ground.book().slot_of(from, process).is_none() {
            return Reply::NotOwner;
        }
        if self.is_full(ground, process, from) {
            return Reply::Full;
        }
        if u128::from(self.balance(ground, from)) < targets.sum() {
            return Reply::Short;
        }
        Reply::Done
    }

    /// Whether the owner has used all its room at the source of its next call.
    fn is_full(&self, ground: &Ground, process: u32, source: u32) -> bool
        requires standing { IsStanding ground.now self.now }
        requires process_in { process < ground.now.book.processes }
        requires source_in { source < length ground.now.book.accounts }
        requires owner { is_owner ground.now.book process source ≡ true }
        requires next { (targets : List TargetPair)
            × IsNextPayment ground.now self.now process source targets }
        ensures { (l : LedgerState) → HasNumbers ground.now self.now l
            → result ≡ is_full l process source }
    {
        let book = ground.book();
        match book.owner_count(source) {
            0 => false,
            1 => u32::from(self.sent[process as usize]) == book.own_room(),
            _ => {
                let used = ground.payments_before(process, self.made[process as usize]);
                used >= book.request_room()
            }
        }
    }

    /// Makes the next call of the process, but doesn't count it.
    fn make(&mut self, ground: &Ground, process: u32, call: &Call)
        requires standing { IsStanding ground.now self.old }
        requires process_in { process < ground.now.book.processes }
        requires call_in { IsCallOn (length ground.now.book.accounts) call.now }
        requires placed { HasPlace ground.now.places (first_account call.now) }
        requires next { IsNextCall ground.now self.old process call.now }
        ensures ledger { (l : LedgerState) → HasNumbers ground.now self.old l
            → IsMadeTo ground.now self.old process (step l process call.now).ledger self.new }
        ensures made { self.new.made ≡ self.old.made }
        ensures standing { IsStanding ground.now self.new }
    {
        let _known = ground.book();
        if let Some((from, targets)) = call.payout() {
            self.pay(ground, process, from, &targets);
        }
    }

    /// Makes the next call of the process, a payment from this account, but doesn't count it.
    fn pay(&mut self, ground: &Ground, process: u32, from: u32, targets: &Targets)
        requires standing { IsStanding ground.now self.old }
        requires process_in { process < ground.now.book.processes }
        requires source_in { from < length ground.now.book.accounts }
        requires targets_in { AreTargetsOn (length ground.now.book.accounts) targets.now }
        requires placed { HasPlace ground.now.places from }
        requires next { IsNextPayment ground.now self.old process from targets.now }
        ensures ledger { (l : LedgerState) → HasNumbers ground.now self.old l
            → IsMadeTo ground.now self.old process (pay l process from targets.now).ledger self.new }
        ensures made { self.new.made ≡ self.old.made }
        ensures standing { IsStanding ground.now self.new }
    {
        if let Reply::Done = self.reply_to_pay(ground, process, from, targets) {
            self.succeed(ground, process, from, targets);
        }
    }

    /// Moves the amounts, and counts the success if the source has one owner.
    fn succeed(&mut self, ground: &Ground, process: u32, from: u32, targets: &Targets)
        requires standing { IsStanding ground.now self.old }
        requires process_in { process < ground.now.book.processes }
        requires source_in { from < length ground.now.book.accounts }
        requires targets_in { AreTargetsOn (length ground.now.book.accounts) targets.now }
        requires placed { HasPlace ground.now.places from }
        requires done { (l : LedgerState) → HasNumbers ground.now self.old l
            → (pay l process from targets.now).reply ≡ Done }
        ensures ledger { (l : LedgerState) → HasNumbers ground.now self.old l
            → HasNumbers ground.now self.new (after_success l process from targets.now) }
        ensures made { self.new.made ≡ self.old.made }
        ensures standing { IsStanding ground.now self.new }
    {
        self.move_amounts(ground, from, targets);
        if ground.book().slot_count(from) == 0 {
            self.count_sent(ground, process);
        }
    }

    /// Takes the sum from the source, and then adds each amount to its target.
    fn move_amounts(&mut self, ground: &Ground, source: u32, targets: &Targets)
        requires standing { IsStanding ground.now self.old }
        requires source_in { source < length ground.now.book.accounts }
        requires targets_in { AreTargetsOn (length ground.now.book.accounts) targets.now }
        requires placed { HasPlace ground.now.places source }
        requires covered { (l : LedgerState) → HasNumbers ground.now self.old l
            → amount_of targets.now ≤ balance_of l source }
        ensures moved { (l : LedgerState) → HasNumbers ground.now self.old l
            → HasNumbers ground.now self.new (moved l source targets.now) }
        ensures made { self.new.made ≡ self.old.made }
        ensures standing { IsStanding ground.now self.new }
    {
        ground.book().known();
        debit(ground, &mut self.balances, source, targets.sum() as u64);
        credit(ground, &mut self.balances, targets);
    }

    /// Counts a success on a single account.
    fn count_sent(&mut self, ground: &Ground, process: u32)
        requires standing { IsStanding ground.now self.old }
        requires process_in { process < ground.now.book.processes }
        requires room { slice_index self.old.sent.items process < ground.now.book.own_room }
        ensures counted { (l : LedgerState) → HasNumbers ground.now self.old l
            → HasNumbers ground.now self.new (with_sent l process) }
        ensures made { self.new.made ≡ self.old.made }
        ensures standing { IsStanding ground.now self.new }
    {
        ground.book().known();
        self.sent[process as usize] += 1;
    }
}

/// The hash, and one number more in it.
fn hashed(hash: u64, n: u64) -> u64
    ensures { result ≡ hashed hash n }
{
    hash.wrapping_add(n).wrapping_mul(MIXER)
}

/// Takes the amount from the account.
fn debit(ground: &Ground, balances: &mut [u64], account: u32, amount: u64)
    requires kept { length balances.old ≡ length ground.now.named }
    requires placed { HasPlace ground.now.places account }
    requires covered { (all : List ℕ) × AreKept ground.now balances.old all
        × (amount ≤ slice_index all account) }
    ensures debited { (all : List ℕ) → AreKept ground.now balances.old all
        → AreKept ground.now balances.new
        (slice_set all account (slice_index all account - amount)) }
    ensures len { length balances.new ≡ length balances.old }
{
    let _known = ground.book();
    balances[ground.place(account)] -= amount;
}

/// Adds each amount to its target, in order, where the target's balance is kept.
fn credit(ground: &Ground, balances: &mut [u64], targets: &Targets)
    requires kept { length balances.old ≡ length ground.now.named }
    requires targets_in { AreTargetsOn (length ground.now.book.accounts) targets.now }
    requires fits { (all : List ℕ) × AreKept ground.now balances.old all
        × (sum all + amount_of targets.now < 2 ^ 64) }
    ensures credited { (all : List ℕ) → AreKept ground.now balances.old all
        → AreKept ground.now balances.new (credited all targets.now) }
    ensures len { length balances.new ≡ length balances.old }
{
    let _known = ground.book();
    for i in 0..targets.len() {
        if let Some(place) = ground.find(targets.to(i)) {
            balances[place] += targets.amount(i);
        }
    }
}
