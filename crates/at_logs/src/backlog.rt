//! What a node keeps of one log.

ghost use Rattle.std.specs.Prelude.{◌≡◌, ℕ, ◌+◌, ◌-◌, ◌<◌, ◌≤◌, ◌^◌, ◌++◌, ◌∷◌, [], All, IfOk, OnErr, OnOk, drop, length, option_copied, slice_get, slice_index, slice_index_or, sum_by, IsTrue, ◌↔◌};
ghost use Rattle.at_logs.specs.Prelude.{Covers, Message, most_logs};
ghost use Rattle.at_logs.specs.Snapshot.{HasBacklogBytes, backlog_bytes};
ghost use Rattle.at_logs.specs.Compact.{backlog_settled, backlog_told, backlog_with, credit_below, credit_to, new_backlog};

use crate::credits::{Credit, add_below, is_below};
use crate::saving::{put_credits, put_messages};
use crate::spelling::put_counts;
use at_broadcast::{LogCounts, Message};
use at_ledger::Targets;
use std::alloc::{AllocError, Global};
use std::collections::VecDeque;
use std::marker::Model;

/// Its messages that weren't told, from the first on; the credits to the accounts that it debits which the `deps` of its next message can
/// still leave out; and the `deps` up to which the credits to these accounts are settled. There is room for so many more credits, which
/// takes no memory then.
#[derive(Drop)]
pub(crate) struct Backlog {
    messages: VecDeque<Message>,
    credits: Vec<Credit>,
    room: u32,
    settled_at: LogCounts,
}

impl Model for Backlog {
    ghost use Rattle.std.specs.Prelude.{◌+◌, ◌≤◌, length};
    ghost use Rattle.std.specs.Vec.{vec_capacity};
    ghost use Rattle.at_logs.specs.Compact.{RoomyBacklog};

    ghost Value = { RoomyBacklog };

    ghost view = { λ l. record {
      kept = record { messages = l.messages.items; credits = l.credits.items; settled_at = l.settled_at };
      room = l.room;
    } };

    ghost invariant = { λ l. length l.credits.items + l.room ≤ vec_capacity l.credits };
}

impl Backlog {
    /// Nothing of one of so many logs.
    pub(crate) fn new(alloc: Global, logs: u32) -> Backlog
        requires some { 1 ≤ logs }
        requires few { logs ≤ most_logs }
        ensures { result ≡ record { kept = new_backlog logs; room = 0 } }
    {
        Backlog {
            messages: VecDeque::new(alloc),
            credits: Vec::new(alloc),
            room: 0,
            settled_at: LogCounts::zeros(logs),
        }
    }

    /// One that keeps these, with no room for more credits.
    pub(crate) fn of(
        messages: VecDeque<Message>,
        credits: Vec<Credit>,
        settled_at: LogCounts,
    ) -> Backlog
        ensures { result ≡ record {
          kept = record { messages = messages.items; credits = credits.items; settled_at = settled_at };
          room = 0;
        } }
    {
        Backlog {
            messages,
            credits,
            room: 0,
            settled_at,
        }
    }

    /// How many messages weren't told.
    pub(crate) fn len(&self) -> usize
        ensures { result ≡ length self.now.kept.messages }
    {
        self.messages.len()
    }

    /// The targets of the message at a position among those that weren't told.
    pub(crate) fn targets(&self, i: usize) -> Targets
        requires { i < length self.now.kept.messages }
        ensures { (m : Message) → result ≡ (slice_index_or self.now.kept.messages i m).targets }
    {
        self.messages[i].targets.copy()
    }

    /// The credits that are kept.
    pub(crate) fn credits(&self) -> &[Credit]
        ensures { result.now ≡ self.now.kept.credits }
    {
        self.credits.as_slice()
    }

    /// The message at a position among those that weren't told.
    pub(crate) fn message(&self, i: usize) -> Option<&Message>
        ensures { option_copied result ≡ slice_get self.now.kept.messages i }
    {
        self.messages.get(i)
    }

    /// Whether all that these counts have is settled.
    pub(crate) fn is_settled_at(&self, deps: &LogCounts) -> bool
        requires { length self.now.kept.settled_at ≡ length deps.now }
        ensures { IsTrue result ↔ Covers self.now.kept.settled_at deps.now }
    {
        self.settled_at.covers(deps)
    }

    /// Keeps more messages, all of them or, for want of memory, none.
    pub(crate) fn extend(&mut self, messages: &[Message]) -> Result<(), AllocError>
        ensures ok { OnOk result (self.new ≡ record self.old { kept = backlog_with self.old.kept messages.now }) }
        ensures err { OnErr result (self.new ≡ self.old) }
    {
        self.messages.reserve(messages.len())?;
        for message in messages {
            self.messages.push_back_reserved(message.copy());
        }
        Ok(())
    }

    /// Lets the first message go.
    pub(crate) fn let_go(&mut self) -> Option<Message>
        ensures first { result ≡ slice_get self.old.kept.messages 0 }
        ensures rest { self.new ≡ record self.old { kept = backlog_told self.old.kept 1 } }
    {
        self.messages.pop_front()
    }

    /// Makes room for one more credit.
    pub(crate) fn make_room(&mut self) -> Result<(), AllocError>
        ensures ok { OnOk result (self.new ≡ record self.old { room = self.old.room + 1 }) }
        ensures err { OnErr result (self.new ≡ self.old) }
    {
        let Some(room) = self.room.checked_add(1) else {
            return Err(AllocError);
        };
        self.credits.reserve(room as usize)?;
        self.room = room;
        Ok(())
    }

    /// Keeps a credit, and uses room for one.
    pub(crate) fn push(&mut self, credit: Credit)
        requires { 0 < self.old.room }
        ensures kept { self.new.kept ≡ record self.old.kept { credits = self.old.kept.credits ++ credit ∷ [] } }
        ensures room { self.new.room + 1 ≡ self.old.room }
    {
        self.credits.push_reserved(credit);
        self.room -= 1;
    }

    /// Settles the credits that the counts have: adds them to their accounts, and lets them go.
    pub(crate) fn settle(&mut self, settled: &mut [u64], deps: &LogCounts)
        requires accounts { All (λ x. x.account < length settled.old) self.old.kept.credits }
        requires fits { All (λ x. slice_index settled.old x.account + sum_by (credit_to x.account) self.old.kept.credits < 2 ^ 64) self.old.kept.credits }
        ensures kept { self.new ≡ record self.old { kept = backlog_settled self.old.kept deps.now } }
        ensures settled { (account : ℕ) → account < length settled.old
            → slice_index settled.new account ≡ slice_index settled.old account + sum_by (credit_below account deps.now) self.old.kept.credits }
    {
        add_below(settled, self.credits.as_slice(), deps);
        self.credits.retain(|credit| !is_below(deps, credit));
        self.settled_at = deps.copy();
    }

    /// Writes what is kept of the log.
    pub(crate) fn put(&self, out: &mut Vec<u8>) -> Result<(), AllocError>
        ensures spelled { OnOk result (out.new.items ≡ out.old.items ++ backlog_bytes self.now.kept) }
        ensures fits { OnOk result (HasBacklogBytes self.now.kept) }
    {
        put_messages(out, &self.messages)?;
        put_credits(out, self.credits.as_slice())?;
        put_counts(out, &self.settled_at)
    }
}
