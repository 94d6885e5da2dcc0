//! The core of a node that lets go what it has validated and told.

ghost use Rattle.std.specs.Prelude.{◌≡◌, ℕ, ◌+◌, ◌-◌, ◌<◌, ◌≤◌, All, IfNone, IfOk, IfSome, OnErr, OnOk, length, option_copied, replicate, slice_get, slice_index, slice_set, sum_by, map, if◌then◌else◌, IsTrue, ◌↔◌, Some, ◌∷◌, [], ◌++◌};
ghost use Rattle.at_logs.specs.Prelude.{AreTargetsOn, Covers, flat_map, IsMessageOn, Payout, MESSAGES_MAX, account_on_logs, most_logs, one_more_of};
ghost use Rattle.at_logs.specs.Compact.{IsCreditOf, RoomyBacklog, backlog_credited, backlog_of, backlog_told, backlog_with, is_log, kept_of, named_among, new_backlog, new_state, next_message, room_of};
ghost use Rattle.at_logs.specs.Snapshot.{HasBacklogBytes, HasCoreBytes, backlog_bytes, core_bytes};
ghost use Rattle.at_logs.specs.declared.credits.Credit.{Credit};

use crate::backlog::Backlog;
use crate::credits::Credit;
use crate::restoring::SavedCore;
use crate::rooms::make_room_waiting;
use crate::saving::put_amounts;
use crate::spelling::put_counts;
use at_broadcast::{LogBook, LogCounts, Message, Payout, credit};
use at_ledger::Targets;
use std::alloc::{AllocError, Global};
use std::marker::Model;

/// How many messages of each log are validated, and how many were told; of each account what is settled and the balance; and what is kept of
/// each log. Further messages may be valid.
#[derive(Drop)]
pub(crate) struct Compact {
    book: LogBook,
    validated: LogCounts,
    told: LogCounts,
    settled: Vec<u64>,
    balances: Vec<u64>,
    backlogs: Vec<Backlog>,
}

impl Model for Compact {
    ghost use Rattle.at_logs.specs.Compact.{CompactState, HasCreditRoom, IsCompact, state_of};

    ghost Value = { CompactState };

    ghost view = { λ c. state_of c.book c.validated c.told c.settled.items c.balances.items c.backlogs.items };

    ghost invariant = { λ c. IsCompact (state_of c.book c.validated c.told c.settled.items c.balances.items c.backlogs.items)
        × HasCreditRoom (state_of c.book c.validated c.told c.settled.items c.balances.items c.backlogs.items) c.backlogs.items };
}

impl Compact {
    ghost use Rattle.at_logs.specs.Prelude.{left};
    ghost use Rattle.at_logs.specs.Compact.{IsCompact, IsPayable, IsNextMade, IsStuck, IsStuckIn, SettlesFrom, ValidatesFrom};

    /// Nothing read, and the openings.
    pub(crate) fn new(alloc: Global, book: LogBook) -> Result<Compact, AllocError>
        ensures { IfOk result (λ c. c ≡ new_state book) }
    {
        let settled = book.openings(alloc)?;
        let balances = book.openings(alloc)?;
        let logs = book.logs();
        let backlogs = new_backlogs(alloc, logs)?;
        Ok(Compact {
            book,
            validated: LogCounts::zeros(logs),
            told: LogCounts::zeros(logs),
            settled,
            balances,
            backlogs,
        })
    }

    /// What a snapshot kept, with room for the credits that messages will bring.
    pub(crate) fn restore(saved: SavedCore) -> Result<Compact, AllocError>
        requires { IsCompact saved }
        ensures { IfOk result (λ c. c ≡ saved) }
    {
        let mut backlogs = saved.backlogs;
        make_room_waiting(&mut backlogs, &saved.book, &saved.validated, &saved.told)?;
        Ok(Compact {
            book: saved.book,
            validated: saved.validated,
            told: saved.told,
            settled: saved.settled,
            balances: saved.balances,
            backlogs,
        })
    }

    /// Keeps more messages of a log, all of them or, for want of memory, none.
    pub(crate) fn extend(&mut self, log: u32, messages: &[Message]) -> Result<(), AllocError>
        requires log_in { log < self.old.book.logs }
        requires known { All (IsMessageOn self.old.book.logs (length self.old.book.accounts)) messages.now }
        requires few { slice_index self.old.told log + length (backlog_of self.old.backlogs log).messages + length messages.now ≤ MESSAGES_MAX }
        ensures ok { OnOk result (self.new ≡ record self.old
            { backlogs = slice_set self.old.backlogs log (backlog_with (backlog_of self.old.backlogs log) messages.now) }) }
        ensures err { OnErr result (self.new ≡ self.old) }
    {
        make_room_for(&mut self.backlogs, &self.book, messages)?;
        self.backlogs[log as usize].extend(messages)
    }

    /// The next message of the log, if it was read.
    pub(crate) fn next(&self, p: u32) -> Option<&Message>
        requires { p < self.now.book.logs }
        ensures { option_copied result ≡ next_message self.now p }
    {
        let validated = self.validated.get(p) - self.told.get(p);
        self.backlogs[p as usize].message(validated as usize)
    }

    /// How many logs there are.
    pub(crate) fn logs(&self) -> u32
        ensures { result ≡ self.now.book.logs }
    {
        self.book.logs()
    }

    /// The one log that debits the account, if any.
    pub(crate) fn log_of(&self, account: u32) -> Option<u32>
        requires { account < length self.now.book.accounts }
        ensures { result ≡ (account_on_logs self.now.book account).log }
    {
        self.book.log_of(account)
    }

    /// How many messages of each log are validated.
    pub(crate) fn counts(&self) -> LogCounts
        ensures { result ≡ self.now.validated }
    {
        self.validated.copy()
    }

    /// Tells a proof what holds of it. It does nothing when it runs.
    pub(crate) fn known(&self)
        ensures { IsCompact self.now }
    {
        let _kept = &self.book;
    }

    /// How many messages of the log are validated.
    pub(crate) fn validated(&self, p: u32) -> u32
        requires { p < self.now.book.logs }
        ensures { result ≡ slice_index self.now.validated p }
    {
        self.validated.get(p)
    }

    /// How many messages of the log were told.
    pub(crate) fn told_of(&self, p: u32) -> u32
        requires { p < self.now.book.logs }
        ensures { result ≡ slice_index self.now.told p }
    {
        self.told.get(p)
    }

    /// Whether all that these counts have was told.
    pub(crate) fn has_told(&self, deps: &LogCounts) -> bool
        requires { length deps.now ≡ self.now.book.logs }
        ensures { IsTrue result ↔ Covers self.now.told deps.now }
    {
        self.told.covers(deps)
    }

    /// Whether all that these counts have is validated.
    pub(crate) fn has_validated(&self, counts: &LogCounts) -> bool
        requires { length counts.now ≡ self.now.book.logs }
        ensures { IsTrue result ↔ Covers self.now.validated counts.now }
    {
        self.validated.covers(counts)
    }

    /// How many messages of each log were told.
    pub(crate) fn told(&self) -> LogCounts
        ensures counts { result ≡ self.now.told }
        ensures counted { length result ≡ self.now.book.logs }
    {
        self.told.copy()
    }

    /// The balance of the account at the validated counts.
    pub(crate) fn balance(&self, account: u32) -> u64
        requires { account < length self.now.book.accounts }
        ensures { result ≡ slice_index self.now.balances account }
    {
        self.balances[account as usize]
    }

    /// The first message of the log that wasn't told, if it was read. It is validated where fewer were told than are.
    pub(crate) fn first(&self, p: u32) -> Option<&Message>
        requires { p < self.now.book.logs }
        ensures { option_copied result ≡ slice_get (backlog_of self.now.backlogs p).messages 0 }
    {
        self.backlogs[p as usize].message(0)
    }

    /// The message of the log and number, which wasn't told, if it was read.
    pub(crate) fn message(&self, p: u32, number: u32) -> Option<&Message>
        requires log_in { p < self.now.book.logs }
        requires untold { slice_index self.now.told p ≤ number }
        ensures { option_copied result ≡ slice_get (backlog_of self.now.backlogs p).messages (number - slice_index self.now.told p) }
    {
        self.backlogs[p as usize].message((number - self.told.get(p)) as usize)
    }

    /// Counts the first message of the log that wasn't told as told, and lets it go.
    pub(crate) fn tell(&mut self, p: u32) -> Option<Message>
        requires log_in { p < self.old.book.logs }
        requires validated { slice_index self.old.told p < slice_index self.old.validated p }
        ensures first { result ≡ slice_get (backlog_of self.old.backlogs p).messages 0 }
        ensures told { self.new ≡ record self.old {
          told = one_more_of self.old.told p;
          backlogs = slice_set self.old.backlogs p (backlog_told (backlog_of self.old.backlogs p) 1);
        } }
    {
        let number = self.told.get(p);
        self.told.set(p, number + 1);
        self.backlogs[p as usize].let_go()
    }

    /// What the next message of the log moves, and its `deps`, if it is made there.
    fn ready(&self, p: u32) -> Option<(Payout, LogCounts)>
        requires { p < self.now.book.logs }
        ensures some { IfSome result (λ x. IsNextMade self.now x.0 x.1) }
        ensures log { IfSome result (λ x. x.0.log ≡ p) }
        ensures sized { IfSome result (λ x. length x.1 ≡ self.now.book.logs) }
        ensures none { IfNone result (IsStuck self.now p) }
    {
        let _kept = &self.book;
        let message = self.next(p)?;
        if !self.is_made_there(p, message) {
            return None;
        }
        let payout = Payout {
            log: p,
            from: message.from,
            targets: message.targets.copy(),
        };
        Some((payout, message.deps.copy()))
    }

    /// Whether the log debits the message's source, and its `deps` have all of the log and no more than is validated.
    fn is_made_there(&self, p: u32, message: &Message) -> bool
        requires log_in { p < self.now.book.logs }
        requires message_in { IsMessageOn self.now.book.logs (length self.now.book.accounts) message.now }
        ensures { IsTrue result ↔ ((account_on_logs self.now.book message.now.from).log ≡ Some p)
            × ((slice_index message.now.deps p ≡ slice_index self.now.validated p) × Covers self.now.validated message.now.deps) }
    {
        self.book.log_of(message.from) == Some(p)
            && message.deps.get(p) == self.validated.get(p)
            && self.validated.covers(&message.deps)
    }

    /// Settles the credits of a log up to the `deps` of its next message.
    fn settle_at(&mut self, p: u32, deps: &LogCounts)
        requires log_in { p < self.old.book.logs }
        requires sized { length deps.now ≡ self.old.book.logs }
        ensures settles { (t : Payout) → t.log ≡ p → IsNextMade self.old t deps.now → SettlesFrom self.old self.new × IsNextMade self.new t deps.now }
        ensures settled { Covers (backlog_of self.new.backlogs p).settled_at deps.now }
        ensures book { self.new.book ≡ self.old.book }
    {
        if self.backlogs[p as usize].is_settled_at(deps) {
            return;
        }
        self.backlogs[p as usize].settle(&mut self.settled, deps);
    }

    /// What the next message of the log moves, if it is valid. The credits that its `deps` have are settled.
    fn valid_of(&mut self, p: u32) -> Option<Payout>
        requires { p < self.old.book.logs }
        ensures some { IfSome result (IsPayable self.new) }
        ensures none { IfNone result (IsStuck self.old p) }
        ensures settles { SettlesFrom self.old self.new }
    {
        let (payout, deps) = self.ready(p)?;
        self.settle_at(p, &deps);
        if payout.targets.sum() > u128::from(self.settled[payout.from as usize]) {
            return None;
        }
        Some(payout)
    }

    /// What a valid message moves, of the lowest log whose next one is.
    fn first_valid(&mut self) -> Option<Payout>
        ensures some { IfSome result (IsPayable self.new) }
        ensures none { IfNone result ((p : ℕ) → p < self.old.book.logs → IsStuck self.old p) }
        ensures settles { SettlesFrom self.old self.new }
    {
        for p in 0..self.book.logs() {
            if let Some(payout) = self.valid_of(p) {
                return Some(payout);
            }
        }
        None
    }

    /// Validates a valid message. Takes no memory.
    fn raise(&mut self, payout: &Payout)
        requires { IsPayable self.old payout.now }
        ensures validates { ValidatesFrom self.old self.new }
        ensures validated { self.new.validated ≡ one_more_of self.old.validated payout.now.log }
        ensures fewer { left self.new.validated + 1 ≡ left self.old.validated }
    {
        let number = self.validated.get(payout.log);
        self.validated.set(payout.log, number + 1);
        let amount = payout.targets.sum() as u64;
        self.settled[payout.from as usize] -= amount;
        self.balances[payout.from as usize] -= amount;
        credit(&mut self.balances, &payout.targets);
        keep_credits(&mut self.backlogs, &self.book, number, payout);
    }

    /// Validates messages until no next one is valid. Takes no memory.
    pub(crate) fn settle(&mut self)
        ensures validates { ValidatesFrom self.old self.new }
        ensures done { (p : ℕ) → p < self.new.book.logs → IsStuckIn self.old self.new p }
    {
        while let Some(payout) = self.first_valid() {
            self.raise(&payout);
        }
    }

    /// Writes what is kept of all logs.
    pub(crate) fn put(&self, out: &mut Vec<u8>) -> Result<(), AllocError>
        ensures spelled { OnOk result (out.new.items ≡ out.old.items ++ core_bytes self.now) }
        ensures fits { OnOk result (HasCoreBytes self.now) }
    {
        put_counts(out, &self.validated)?;
        put_counts(out, &self.told)?;
        put_amounts(out, self.settled.as_slice())?;
        put_amounts(out, self.balances.as_slice())?;
        put_backlogs(out, self.backlogs.as_slice())
    }
}

/// Nothing of each of so many logs.
fn new_backlogs(alloc: Global, logs: u32) -> Result<Vec<Backlog>, AllocError>
    requires some { 1 ≤ logs }
    requires few { logs ≤ most_logs }
    ensures { IfOk result (λ all. all.items ≡ replicate logs (record { kept = new_backlog logs; room = 0 })) }
{
    let mut backlogs = Vec::new(alloc);
    for _ in 0..logs {
        backlogs.push(Backlog::new(alloc, logs))?;
    }
    Ok(backlogs)
}

/// Writes what is kept of each log.
fn put_backlogs(out: &mut Vec<u8>, backlogs: &[Backlog]) -> Result<(), AllocError>
    ensures spelled { OnOk result (out.new.items ≡ out.old.items ++ flat_map backlog_bytes (kept_of backlogs.now)) }
    ensures fits { OnOk result (All HasBacklogBytes (kept_of backlogs.now)) }
{
    for backlog in backlogs {
        backlog.put(out)?;
    }
    Ok(())
}

/// Makes room for one more credit to the account, where a log debits it. Where memory runs out none is made.
fn make_room(backlogs: &mut [Backlog], book: &LogBook, account: u32) -> Result<(), AllocError>
    requires account_in { account < length book.now.accounts }
    requires sized { length backlogs.old ≡ book.now.logs }
    ensures kept { kept_of backlogs.new ≡ kept_of backlogs.old }
    ensures more { (p : ℕ) → room_of backlogs.old p ≤ room_of backlogs.new p }
    ensures ok { OnOk result ((p : ℕ) → p < book.now.logs
        → room_of backlogs.old p + (if is_log p (account_on_logs book.now account).log then 1 else 0) ≤ room_of backlogs.new p) }
{
    let Some(log) = book.log_of(account) else {
        return Ok(());
    };
    if log >= book.logs() {
        return Ok(());
    }
    backlogs[log as usize].make_room()
}

/// Makes room for a credit to each target. Where memory runs out some of it is made.
pub(crate) fn make_room_to(
    backlogs: &mut [Backlog],
    book: &LogBook,
    targets: &Targets,
) -> Result<(), AllocError>
    requires targets_in { AreTargetsOn (length book.now.accounts) targets.now }
    requires sized { length backlogs.old ≡ book.now.logs }
    ensures kept { kept_of backlogs.new ≡ kept_of backlogs.old }
    ensures more { (p : ℕ) → room_of backlogs.old p ≤ room_of backlogs.new p }
    ensures ok { OnOk result ((p : ℕ) → p < book.now.logs → room_of backlogs.old p + named_among book.now p targets.now ≤ room_of backlogs.new p) }
{
    for i in 0..targets.len() {
        make_room(backlogs, book, targets.to(i))?;
    }
    Ok(())
}

/// Makes room for the credits of messages. Where memory runs out some of it is made.
fn make_room_for(
    backlogs: &mut [Backlog],
    book: &LogBook,
    messages: &[Message],
) -> Result<(), AllocError>
    requires known { All (IsMessageOn book.now.logs (length book.now.accounts)) messages.now }
    requires sized { length backlogs.old ≡ book.now.logs }
    ensures kept { kept_of backlogs.new ≡ kept_of backlogs.old }
    ensures more { (p : ℕ) → room_of backlogs.old p ≤ room_of backlogs.new p }
    ensures ok { OnOk result ((p : ℕ) → p < book.now.logs
        → room_of backlogs.old p + sum_by (λ m. named_among book.now p m.targets) messages.now ≤ room_of backlogs.new p) }
{
    for message in messages {
        make_room_to(backlogs, book, &message.targets)?;
    }
    Ok(())
}

/// Keeps a credit with the log that debits its account, if one does. It uses room for one.
fn keep_credit(backlogs: &mut [Backlog], book: &LogBook, credit: Credit)
    requires account_in { credit.account < length book.now.accounts }
    requires sized { length backlogs.old ≡ book.now.logs }
    requires room { (p : ℕ) → p < book.now.logs → (account_on_logs book.now credit.account).log ≡ Some p → 0 < room_of backlogs.old p }
    ensures kept { (p : ℕ) → p < book.now.logs → backlog_of (kept_of backlogs.new) p
        ≡ backlog_credited book.now p (backlog_of (kept_of backlogs.old) p) credit.log credit.number ((credit.account, credit.amount) ∷ []) }
    ensures room { (p : ℕ) → p < book.now.logs
        → room_of backlogs.new p + (if is_log p (account_on_logs book.now credit.account).log then 1 else 0) ≡ room_of backlogs.old p }
{
    let Some(log) = book.log_of(credit.account) else {
        return;
    };
    if log < book.logs() {
        backlogs[log as usize].push(credit);
    }
}

/// Keeps the credits of a message of this number. Takes no memory.
fn keep_credits(backlogs: &mut [Backlog], book: &LogBook, number: u32, payout: &Payout)
    requires targets_in { AreTargetsOn (length book.now.accounts) payout.now.targets }
    requires sized { length backlogs.old ≡ book.now.logs }
    requires room { (p : ℕ) → p < book.now.logs → named_among book.now p payout.now.targets ≤ room_of backlogs.old p }
    ensures kept { (p : ℕ) → p < book.now.logs → backlog_of (kept_of backlogs.new) p
        ≡ backlog_credited book.now p (backlog_of (kept_of backlogs.old) p) payout.now.log number payout.now.targets }
    ensures room { (p : ℕ) → p < book.now.logs
        → room_of backlogs.new p + named_among book.now p payout.now.targets ≡ room_of backlogs.old p }
{
    for i in 0..payout.targets.len() {
        keep_credit(
            backlogs,
            book,
            Credit {
                account: payout.targets.to(i),
                log: payout.log,
                number,
                amount: payout.targets.amount(i),
            },
        );
    }
}
