//! How far a node is.

ghost use Rattle.std.specs.Prelude.{◌≡◌, ◌+◌, ◌≤◌, ◌<◌, ◌^◌, ◌↔◌, ℕ, pos, ◌≤ℤ◌, [], ◌∷◌, length, map, replicate, slice_index, sum, None, Some, IsTrue, IfOk, OnOk, OnErr, All, IsSome, IfSome, IfNone, is_some, option_copied};
ghost use Rattle.at_broadcast.specs.Prelude.{Covers, AreTargetsOn, amount_of, credited};
ghost use Rattle.at_broadcast.specs.LogBook.{IsLogBook, account_on_logs};
ghost use Rattle.at_broadcast.specs.Messages.{IsMessageOn, IsUndelivered, message_credit, message_of, sum_of_first, with_message, with_messages, with_place};
ghost use Rattle.at_broadcast.specs.Sender.{new_sender};
ghost use Rattle.at_broadcast.specs.Validated.{IsValid, balance_at, one_more_of};
ghost use Rattle.at_broadcast.specs.declared.message.Message.{Message};
ghost use Rattle.at_broadcast.specs.declared.message.TheConstants.{MESSAGES_MAX};

use crate::counts::LogCounts;
use crate::log_book::LogBook;
use crate::message::Message;
use crate::payout::{Payout, credit};
use crate::sender::Sender;
use std::alloc::{AllocError, Global};
use std::marker::Model;

/// What was delivered, how much of it is validated, and the balances there. Further messages may be valid.
#[derive(Drop)]
pub(crate) struct Progress {
    book: LogBook,
    validated: LogCounts,
    senders: Vec<Sender>,
    balances: Vec<u64>,
}

impl Model for Progress {
    ghost use Rattle.at_broadcast.specs.Node.{NodeState};
    ghost use Rattle.at_broadcast.specs.Progress.{IsProgress, messages_of};

    ghost Value = { NodeState };

    ghost view = { λ p. record {
      book = p.book;
      messages = messages_of p.senders.items;
      validated = p.validated;
      balances = p.balances.items;
    } };

    ghost invariant = { λ p. IsProgress p.book p.validated p.senders.items p.balances.items };
}

impl Progress {
    ghost use Rattle.at_broadcast.specs.Node.{IsSteady, IsValidNext, left, starting_state};

    /// Nothing delivered, and the openings.
    pub(crate) fn new(alloc: Global, book: &LogBook) -> Result<Progress, AllocError>
        ensures start { IfOk result (λ p. p ≡ starting_state book.now) }
        ensures steady { IfOk result IsSteady }
    {
        let senders = new_senders(alloc, book)?;
        let balances = book.openings(alloc)?;
        Ok(Progress {
            book: book.copy(alloc)?,
            validated: LogCounts::zeros(book.logs()),
            senders,
            balances,
        })
    }

    /// How many logs there are.
    pub(crate) fn logs(&self) -> u32
        ensures { result ≡ self.now.book.logs }
    {
        self.book.logs()
    }

    /// How many accounts there are.
    pub(crate) fn accounts(&self) -> u32
        ensures { result ≡ length self.now.book.accounts }
    {
        self.book.accounts()
    }

    /// How many messages of the log are validated.
    pub(crate) fn validated(&self, p: u32) -> u32
        requires { p < self.now.book.logs }
        ensures { result ≡ slice_index self.now.validated p }
    {
        self.validated.get(p)
    }

    /// How many messages of each log are validated.
    pub(crate) fn counts(&self) -> LogCounts
        ensures { result ≡ self.now.validated }
    {
        self.validated.copy()
    }

    /// The one log that debits the account, if any.
    pub(crate) fn log_of(&self, account: u32) -> Option<u32>
        requires { account < length self.now.book.accounts }
        ensures { result ≡ (account_on_logs self.now.book account).log }
    {
        self.book.log_of(account)
    }

    /// The balance of the account.
    pub(crate) fn balance(&self, account: u32) -> u64
        requires { account < length self.now.book.accounts }
        ensures { result ≡ slice_index self.now.balances account }
    {
        self.balances[account as usize]
    }

    /// The message of this sender and number, if it was delivered.
    pub(crate) fn message(&self, sender: u32, number: u32) -> Option<&Message>
        requires { sender < self.now.book.logs }
        ensures { option_copied result ≡ message_of self.now.messages sender number }
    {
        self.senders[sender as usize].message(number)
    }

    /// Whether it was.
    pub(crate) fn is_delivered(&self, sender: u32, number: u32) -> bool
        requires { sender < self.now.book.logs }
        ensures { result ≡ is_some (message_of self.now.messages sender number) }
    {
        self.message(sender, number).is_some()
    }

    /// Keeps a message. What its validation takes memory for is made room for here.
    pub(crate) fn store(
        &mut self,
        sender: u32,
        number: u32,
        message: &Message,
    ) -> Result<(), AllocError>
        requires sender_in { sender < self.old.book.logs }
        requires number_in { number < MESSAGES_MAX }
        requires undelivered { message_of self.old.messages sender number ≡ None }
        requires message_in { IsMessageOn self.old.book.logs (length self.old.book.accounts) message.now }
        ensures ok { OnOk result
            (self.new ≡ record self.old
            { messages = with_message self.old.messages sender number message.now }) }
        ensures err { OnErr result (self.new ≡ self.old) }
    {
        self.senders[sender as usize].store(number, message)
    }

    /// Lets a message go that isn't validated.
    fn remove(&mut self, sender: u32, number: u32)
        requires sender_in { sender < self.old.book.logs }
        requires later { slice_index self.old.validated sender ≤ number }
        requires there { IsSome (message_of self.old.messages sender number) }
        ensures { self.new ≡ record self.old { messages = with_place self.old.messages sender number None } }
    {
        self.senders[sender as usize].remove(number);
    }

    /// Keeps messages of a sender, from this number on, all or none of them.
    pub(crate) fn store_all(
        &mut self,
        sender: u32,
        number: u32,
        messages: &[Message],
    ) -> Result<(), AllocError>
        requires sender_in { sender < self.old.book.logs }
        requires number_in { number + length messages.now ≤ MESSAGES_MAX }
        requires undelivered { IsUndelivered self.old.messages sender number (length messages.now) }
        requires messages_in { All (IsMessageOn self.old.book.logs (length self.old.book.accounts)) messages.now }
        ensures ok { OnOk result
            (self.new ≡ record self.old
            { messages = with_messages self.old.messages sender number messages.now }) }
        ensures err { OnErr result (self.new ≡ self.old) }
    {
        let _kept = &self.validated;
        let [message, others @ ..] = messages else {
            return Ok(());
        };
        self.store(sender, number, message)?;
        if let Err(error) = self.store_all(sender, number + 1, others) {
            self.remove(sender, number);
            return Err(error);
        }
        Ok(())
    }

    /// Validates a message that is valid next. Takes no memory.
    pub(crate) fn raise(&mut self, payout: &Payout)
        requires { IsValidNext self.old payout.now }
        ensures book { self.new.book ≡ self.old.book }
        ensures messages { self.new.messages ≡ self.old.messages }
        ensures validated { self.new.validated ≡ one_more_of self.old.validated payout.now.log }
        ensures left { left self.new.validated + 1 ≡ left self.old.validated }
    {
        let number = self.validated.get(payout.log);
        self.senders[payout.log as usize].count(number, &payout.targets);
        self.validated.set(payout.log, number + 1);
        self.balances[payout.from as usize] -= payout.targets.sum() as u64;
        credit(&mut self.balances, &payout.targets);
    }

    /// Validates messages until no next one is valid. Takes no memory.
    pub(crate) fn settle(&mut self)
        ensures book { self.new.book ≡ self.old.book }
        ensures messages { self.new.messages ≡ self.old.messages }
        ensures steady { IsSteady self.new }
        ensures done { (p : ℕ) (m : Message)
            → ¬ IsValid self.new.book self.new.messages self.new.validated p m }
    {
        while let Some(payout) = self.first_valid() {
            self.raise(&payout);
        }
    }

    /// What a valid message moves, of the lowest log whose next one is.
    fn first_valid(&self) -> Option<Payout>
        ensures some { IfSome result (IsValidNext self.now) }
        ensures none { IfNone result ((p : ℕ) (m : Message)
            → ¬ IsValid self.now.book self.now.messages self.now.validated p m) }
        ensures steady { IsSteady self.now }
    {
        for p in 0..self.book.logs() {
            if let Some(payout) = self.valid_of(p) {
                return Some(payout);
            }
        }
        None
    }

    /// What the next message of the log moves, if it is valid.
    fn valid_of(&self, p: u32) -> Option<Payout>
        requires { p < self.now.book.logs }
        ensures some { IfSome result (IsValidNext self.now) }
        ensures none { IfNone result ((m : Message)
            → ¬ IsValid self.now.book self.now.messages self.now.validated p m) }
    {
        let message = self.senders[p as usize].message(self.validated.get(p))?;
        if !self.is_valid(p, message) {
            return None;
        }
        Some(Payout {
            log: p,
            from: message.from,
            targets: message.targets.copy(),
        })
    }

    /// Whether the next message of the log is valid.
    fn is_valid(&self, p: u32, message: &Message) -> bool
        requires log_in { p < self.now.book.logs }
        requires message_in { IsMessageOn self.now.book.logs (length self.now.book.accounts) message.now }
        requires next { message_of self.now.messages p (slice_index self.now.validated p)
            ≡ Some message.now }
        ensures { IsTrue result
            ↔ IsValid self.now.book self.now.messages self.now.validated p message.now }
    {
        self.book.log_of(message.from) == Some(p)
            && message.deps.get(p) == self.validated.get(p)
            && self.validated.covers(&message.deps)
            && self.covers_amounts(message)
    }

    /// Whether the balance at `deps` covers the amounts: the balance less what came since. A balance below zero covers nothing.
    fn covers_amounts(&self, message: &Message) -> bool
        requires message_in { IsMessageOn self.now.book.logs (length self.now.book.accounts) message.now }
        requires covered { Covers self.now.validated message.now.deps }
        ensures { (p : ℕ) → (account_on_logs self.now.book message.now.from).log ≡ Some p
            → slice_index message.now.deps p ≡ slice_index self.now.validated p
            → (IsTrue result ↔ (pos (amount_of message.now.targets) ≤ℤ balance_at self.now.book self.now.messages
            message.now.deps message.now.from)) }
    {
        let left_out = self.left_out(message.from, &message.deps);
        message.targets.sum() + left_out <= u128::from(self.balances[message.from as usize])
    }

    /// What came to the account by validated messages that `deps` leaves out.
    fn left_out(&self, account: u32, deps: &LogCounts) -> u128
        requires account_in { account < length self.now.book.accounts }
        requires sized { length deps.now ≡ self.now.book.logs }
        requires covered { Covers self.now.validated deps.now }
        ensures sum { result + sum_of_first (message_credit account) self.now.messages deps.now
            ≡ sum_of_first (message_credit account) self.now.messages self.now.validated }
        ensures small { result ≤ 2 ^ 104 }
    {
        let mut sum = 0u128;
        for q in 0..self.book.logs() {
            sum += self.senders[q as usize].since(account, deps.get(q));
        }
        sum
    }
}

/// A sender for each log, of whom nothing was delivered.
fn new_senders(alloc: Global, book: &LogBook) -> Result<Vec<Sender>, AllocError>
    ensures { IfOk result (λ senders. senders.items
        ≡ replicate book.now.logs (new_sender (length book.now.accounts))) }
{
    let accounts = book.accounts();
    let mut senders = Vec::new(alloc);
    for _log in 0..book.logs() {
        senders.push(Sender::new(alloc, accounts)?)?;
    }
    Ok(senders)
}
