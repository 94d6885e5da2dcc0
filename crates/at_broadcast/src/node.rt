//! A node.

ghost use Rattle.std.specs.Prelude.{◌≡◌, ◌<◌, ◌↔◌, ◌+◌, ◌≤◌, All, length, pos, slice_index, sum, true, false, None, Ok, IsTrue, IfOk, OnOk, OnErr, option_copied};
ghost use Rattle.at_broadcast.specs.LogBook.{account_on_logs, total_on_logs};
ghost use Rattle.at_broadcast.specs.Messages.{IsMessageOn, IsUndelivered, message_of, with_message, with_messages};
ghost use Rattle.at_broadcast.specs.Validated.{IsClosed, IsOnlyClosed, balance_at};
ghost use Rattle.at_broadcast.specs.declared.message.TheConstants.{MESSAGES_MAX};

use crate::counts::LogCounts;
use crate::log_book::LogBook;
use crate::message::Message;
use crate::progress::Progress;
use std::alloc::{AllocError, Global};
use std::marker::Model;

/// The core of one process: it is given broadcast messages in any order, and validates those whose turn has come.
///
/// It is no network and no broadcast: that every node is given the same message for a log and number is
/// what the broadcast below it has to see to.
#[derive(Drop)]
pub struct Node {
    progress: Progress,
}

impl Model for Node {
    ghost use Rattle.at_broadcast.specs.Node.{IsNode, NodeState};

    ghost Value = { NodeState };

    ghost view = { λ n. n.progress };

    ghost invariant = { λ n. IsNode n.progress };
}

impl Node {
    ghost use Rattle.at_broadcast.specs.Node.{AgreesWithAll, HasPrefixes, IsNode, IsSolvent, ShowsBalances, starting_state};
    ghost use Rattle.at_broadcast.specs.TwoNodes.{IsFinal, KeepsUp, SharesBalances, SharesPrefixes};

    /// A node to which nothing was delivered: nothing is validated, and the balances are the openings. It keeps a copy
    /// of the book. Memory is taken in proportion to the product of logs and accounts.
    pub fn new(alloc: Global, book: &LogBook) -> Result<Node, AllocError>
        ensures { IfOk result (λ n. n ≡ starting_state book.now) }
    {
        let progress = Progress::new(alloc, book)?;
        Ok(Node { progress })
    }

    /// Takes a message of a log, the sender's. It answers false where that number of the log was delivered before. Else the
    /// message is delivered, and with it all that it makes valid are validated: in whatever order the same messages come,
    /// the same are validated in the end.
    ///
    /// A delivery that makes k messages valid takes at most (k + 1) n tests of a next message for n logs, and
    /// a test takes n look-ups, each in time that grows with the logarithm of the messages of one log. Memory is taken for
    /// the message and for places up to its number, before anything changes, and all messages are kept.
    pub fn deliver(
        &mut self,
        sender: u32,
        number: u32,
        message: &Message,
    ) -> Result<bool, AllocError>
        requires sender_in { sender < self.old.book.logs }
        requires number_in { number < MESSAGES_MAX }
        requires message_in { IsMessageOn self.old.book.logs (length self.old.book.accounts) message.now }
        ensures fresh { IfOk result (λ new. IsTrue new
            ↔ (message_of self.old.messages sender number ≡ None)) }
        ensures again { result ≡ Ok false → self.new ≡ self.old }
        ensures delivered { result ≡ Ok true
            → self.new.messages ≡ with_message self.old.messages sender number message.now }
        ensures book { self.new.book ≡ self.old.book }
        ensures err { OnErr result (self.new ≡ self.old) }

        // The validated counts are where raising ends, in whatever order it is done, and the balances are those there.
        ensures closed { IsClosed self.new.book self.new.messages self.new.validated }
        ensures only { IsOnlyClosed self.new.book self.new.messages self.new.validated }
        ensures balances { ShowsBalances self.new }

        // So these hold after each delivery.
        ensures prefix { HasPrefixes self.new }
        ensures agree { AgreesWithAll self.new }
        ensures solvent { IsSolvent self.new }
        ensures total { sum self.new.balances ≡ total_on_logs self.new.book }
    {
        if self.progress.is_delivered(sender, number) {
            return Ok(false);
        }
        self.progress.store(sender, number, message)?;
        self.progress.settle();
        Ok(true)
    }

    /// Takes messages of a log from this number on, all of them or, for want of memory, none, and validates all that they make valid.
    pub fn deliver_all(
        &mut self,
        log: u32,
        number: u32,
        messages: &[Message],
    ) -> Result<(), AllocError>
        requires log_in { log < self.old.book.logs }
        requires number_in { number + length messages.now ≤ MESSAGES_MAX }
        requires undelivered { IsUndelivered self.old.messages log number (length messages.now) }
        requires messages_in { All (IsMessageOn self.old.book.logs (length self.old.book.accounts)) messages.now }
        ensures delivered { OnOk result (self.new.messages ≡ with_messages self.old.messages log number messages.now) }
        ensures book { self.new.book ≡ self.old.book }
        ensures err { OnErr result (self.new ≡ self.old) }
    {
        self.progress.store_all(log, number, messages)?;
        self.progress.settle();
        Ok(())
    }

    /// Tells a proof what holds of the node beside any other of the same logs. It does nothing when it runs.
    pub fn known(&self)
        ensures node { IsNode self.now }
        ensures keeps_up { KeepsUp self.now }
        ensures is_final { IsFinal self.now }
        ensures prefixes { SharesPrefixes self.now }
        ensures balances { SharesBalances self.now }
    {
        let _ = &self.progress;
    }

    /// How many logs there are.
    pub fn logs(&self) -> u32
        ensures { result ≡ self.now.book.logs }
    {
        self.progress.logs()
    }

    /// How many accounts there are.
    pub fn accounts(&self) -> u32
        ensures { result ≡ length self.now.book.accounts }
    {
        self.progress.accounts()
    }

    /// How many messages of log `p` are validated.
    pub fn validated(&self, p: u32) -> u32
        requires { p < self.now.book.logs }
        ensures count { result ≡ slice_index self.now.validated p }
        ensures node { IsNode self.now }
    {
        self.progress.validated(p)
    }

    /// The message of a log and number, if it was delivered.
    pub fn message(&self, log: u32, number: u32) -> Option<&Message>
        requires { log < self.now.book.logs }
        ensures { option_copied result ≡ message_of self.now.messages log number }
    {
        self.progress.message(log, number)
    }

    /// How many messages of each log are validated.
    pub fn counts(&self) -> LogCounts
        ensures { result ≡ self.now.validated }
    {
        self.progress.counts()
    }

    /// The one log that debits the account, if any.
    pub fn log_of(&self, account: u32) -> Option<u32>
        requires { account < length self.now.book.accounts }
        ensures { result ≡ (account_on_logs self.now.book account).log }
    {
        self.progress.log_of(account)
    }

    /// The balance of the account at the validated counts.
    pub fn balance(&self, account: u32) -> u64
        requires { account < length self.now.book.accounts }
        ensures kept { result ≡ slice_index self.now.balances account }
        ensures balance { pos result
            ≡ balance_at self.now.book self.now.messages self.now.validated account }
        ensures node { IsNode self.now }
    {
        self.progress.balance(account)
    }
}
