//! Entries: what one append leaves in a log.

ghost use Rattle.std.specs.Prelude.{◌≡◌, ℕ, ◌+◌, ◌<◌, ◌≤◌, ◌^◌, length, slice_index, IfOk};

use at_broadcast::{LogCounts, Message};
use at_ledger::Targets;
use std::alloc::{AllocError, Global};
use std::marker::Model;

/// The most messages of one entry.
pub const ENTRY_MESSAGES_MAX: usize = 64;

/// A pay-out as it stands in an entry: a message without `deps`.
#[derive(Debug, Drop)]
pub struct EntryMessage {
    pub from: u32,
    pub targets: Targets,
    pub reference: [u8; 16],
}

/// An entry: its writer, the counts of each log that the writer's node had validated, the hash of the book, the hash of the entry before it
/// in its log, and 1 to 64 messages.
#[derive(Debug, Drop)]
pub struct Entry {
    writer: u32,
    deps: LogCounts,
    book: [u8; 32],
    before: [u8; 32],
    messages: Vec<EntryMessage>,
}

impl Model for Entry {
    ghost use Rattle.std.specs.Prelude.{◌≤◌, length};
    ghost use Rattle.at_logs.specs.Entry.{EntryTerms, most_in_entry};

    ghost Value = { EntryTerms };

    ghost view = { λ e. record { writer = e.writer; deps = e.deps; book = e.book; before = e.before; messages = e.messages.items } };

    ghost invariant = { λ e. (1 ≤ length e.messages.items) × (length e.messages.items ≤ most_in_entry) };
}

impl Entry {
    ghost use Rattle.at_logs.specs.Prelude.{IsMessageOn};
    ghost use Rattle.at_logs.specs.Entry.{IsEntryOn, most_in_entry, message_in_log, messages_in_log};

    /// An entry of these messages.
    pub fn new(
        writer: u32,
        deps: LogCounts,
        book: [u8; 32],
        before: [u8; 32],
        messages: Vec<EntryMessage>,
    ) -> Entry
        requires some { 1 ≤ length messages.items }
        requires few { length messages.items ≤ most_in_entry }
        ensures { result ≡ record { writer = writer; deps = deps; book = book; before = before; messages = messages.items } }
    {
        Entry {
            writer,
            deps,
            book,
            before,
            messages,
        }
    }

    /// The process that wrote it.
    pub fn writer(&self) -> u32
        ensures { result ≡ self.now.writer }
    {
        self.writer
    }

    /// How many messages of each log the writer's node had validated.
    pub fn deps(&self) -> &LogCounts
        ensures { result.now ≡ self.now.deps }
    {
        &self.deps
    }

    /// The hash of the book.
    pub fn book(&self) -> [u8; 32]
        ensures { result ≡ self.now.book }
    {
        self.book
    }

    /// The hash of the entry before it in its log.
    pub fn before(&self) -> [u8; 32]
        ensures { result ≡ self.now.before }
    {
        self.before
    }

    /// Its messages.
    pub(crate) fn messages(&self) -> &[EntryMessage]
        ensures listed { result.now ≡ self.now.messages }
        ensures some { 1 ≤ length result.now }
        ensures few { length result.now ≤ most_in_entry }
    {
        &self.messages
    }

    /// How many messages it has.
    pub fn len(&self) -> u32
        ensures count { result ≡ length self.now.messages }
        ensures some { 1 ≤ result }
        ensures few { result ≤ most_in_entry }
    {
        self.messages.len() as u32
    }

    /// The message at a position as a message of this log: it has the entry's `deps`, but for the log's own count, which rises by one from
    /// message to message.
    pub fn message(&self, log: u32, i: u32) -> Message
        requires log_in { log < length self.now.deps }
        requires message_in { i < length self.now.messages }
        requires room { slice_index self.now.deps log + i < 2 ^ 32 }
        ensures message { result ≡ message_in_log self.now log i }
        ensures on { (logs accounts processes : ℕ) → IsEntryOn logs accounts processes self.now → IsMessageOn logs accounts result }
    {
        let message = &self.messages[i as usize];
        let mut deps = self.deps.copy();
        deps.set(log, self.deps.get(log) + i);
        Message {
            from: message.from,
            targets: message.targets.copy(),
            reference: message.reference,
            deps,
        }
    }

    /// All its messages as messages of this log.
    pub fn messages_in_log(&self, alloc: Global, log: u32) -> Result<Vec<Message>, AllocError>
        requires log_in { log < length self.now.deps }
        requires room { slice_index self.now.deps log + length self.now.messages ≤ 2 ^ 32 }
        ensures { IfOk result (λ messages. messages.items ≡ messages_in_log self.now log) }
    {
        let mut messages = Vec::new(alloc);
        for i in 0..self.len() {
            messages.push(self.message(log, i))?;
        }
        Ok(messages)
    }
}
