//! What a node has of one sender.

ghost use Rattle.std.specs.Prelude.{◌≡◌, ◌+◌, ◌*◌, ◌^◌, ◌<◌, ◌≤◌, [], length, replicate, All, None, Some, IsSome, IfOk, OnOk, OnErr, option_copied};
ghost use Rattle.at_broadcast.specs.Credits.{amount_since};
ghost use Rattle.at_broadcast.specs.Sender.{no_credits};
ghost use Rattle.at_broadcast.specs.declared.message.TheConstants.{MESSAGES_MAX};

use crate::credits::Credits;
use crate::delivered::Delivered;
use crate::message::Message;
use at_ledger::Targets;
use std::alloc::{AllocError, Global};
use std::marker::Model;

/// Its messages by number, as far as they were delivered, and for each account what the validated ones brought there.
#[derive(Drop)]
pub(crate) struct Sender {
    messages: Delivered,
    credits: Vec<Credits>,
}

impl Model for Sender {
    ghost use Rattle.at_broadcast.specs.Sender.{SenderState};

    ghost Value = { SenderState };

    ghost view = { λ s. record { messages = s.messages; credits = s.credits.items } };
}

impl Sender {
    ghost use Rattle.at_broadcast.specs.Prelude.{AreTargetsOn};
    ghost use Rattle.at_broadcast.specs.Messages.{message_at, no_messages};
    ghost use Rattle.at_broadcast.specs.Sender.{HasRoomFor, IsStored, MakesRoom, credits_to, message_counted, no_credits};

    /// Nothing delivered.
    pub(crate) fn new(alloc: Global, accounts: u32) -> Result<Sender, AllocError>
        ensures { IfOk result
            (λ s. s ≡ record { messages = no_messages; credits = replicate accounts no_credits }) }
    {
        let credits = no_credits(alloc, accounts)?;
        Ok(Sender {
            messages: Delivered::new(alloc),
            credits,
        })
    }

    /// The message of this number, if it was delivered.
    pub(crate) fn message(&self, number: u32) -> Option<&Message>
        ensures { option_copied result ≡ message_at self.now.messages number }
    {
        self.messages.get(number)
    }

    /// Keeps a message, and makes room for the credits that it will be.
    pub(crate) fn store(&mut self, number: u32, message: &Message) -> Result<(), AllocError>
        requires number { number < MESSAGES_MAX }
        requires targets { AreTargetsOn (length self.old.credits) message.now.targets }
        ensures ok { OnOk result (IsStored self.old number (Some message.now) self.new) }
        ensures messages { OnErr result (self.new.messages ≡ self.old.messages) }
        ensures err { OnErr result (MakesRoom [] self.old self.new) }
    {
        self.make_room(&message.targets)?;
        self.messages.put(number, message)
    }

    /// Lets a message go that isn't validated.
    pub(crate) fn remove(&mut self, number: u32)
        requires { IsSome (message_at self.old.messages number) }
        ensures { IsStored self.old number None self.new }
    {
        self.messages.remove(number);
    }

    /// Makes room for a credit to each target. Where memory runs out some of it is made.
    fn make_room(&mut self, targets: &Targets) -> Result<(), AllocError>
        requires { AreTargetsOn (length self.old.credits) targets.now }
        ensures messages { self.new.messages ≡ self.old.messages }
        ensures ok { OnOk result (MakesRoom targets.now self.old self.new) }
        ensures err { OnErr result (MakesRoom [] self.old self.new) }
    {
        for i in 0..targets.len() {
            self.credits[targets.to(i) as usize].make_room()?;
        }
        Ok(())
    }

    /// Counts what the message of this number brings to its targets. Takes no memory.
    pub(crate) fn count(&mut self, number: u32, targets: &Targets)
        requires targets { AreTargetsOn (length self.old.credits) targets.now }
        requires room { HasRoomFor targets.now number self.old }
        ensures { self.new ≡ message_counted self.old number targets.now }
    {
        for i in 0..targets.len() {
            self.credits[targets.to(i) as usize].push(number, targets.amount(i));
        }
    }

    /// What the validated messages of this number and above brought to the account.
    pub(crate) fn since(&self, account: u32, number: u32) -> u128
        requires { account < length self.now.credits }
        ensures sum { result ≡ amount_since number (credits_to self.now account).list }
        ensures small { result ≤ length (credits_to self.now account).list * 2 ^ 64 }
    {
        self.credits[account as usize].since(number)
    }
}

/// No credit to any account.
fn no_credits(alloc: Global, accounts: u32) -> Result<Vec<Credits>, AllocError>
    ensures { IfOk result (λ credits. credits.items ≡ replicate accounts no_credits) }
{
    let mut credits = Vec::new(alloc);
    for _account in 0..accounts {
        credits.push(Credits::new(alloc))?;
    }
    Ok(credits)
}
